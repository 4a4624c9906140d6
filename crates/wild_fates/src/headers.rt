//! The program headers of a script and those that hold its sections, and what is checked of them.

ghost use Rattle.std.specs.Prelude.{◌≡◌, [], ◌++◌, ◌||◌, IfOk, OnOk, Some, map};
ghost use Rattle.std.specs.Option.{option_map, option_to_list};
ghost use Rattle.std.specs.List.{list_any};
ghost use Rattle.wild_numbering.specs.Numbering.{is_named};
ghost use Rattle.wild_names.specs.declared.fault.Fault.TheVariants.{DuplicateName, UnknownPhdr};
ghost use Rattle.wild_plan_spec.specs.Checks.{check, failing, header_checks, header_name_checks, header_number_checks, is_none_name, name_checks, phdrs_checks};
ghost use Rattle.wild_plan_spec.specs.Headers as spec;
ghost use Rattle.wild_plan_spec.specs.Regions.{last_or};
ghost use Rattle.wild_value_spec.specs.Const.{const, number_in};
ghost use Rattle.wild_fates.specs.Memories.{headers_behind, headers_here, shown_headers};
ghost use Rattle.wild_fates.specs.Passes.{Passes};
ghost use Rattle.wild_fates.specs.Shown.{shown_place, shown_places};
ghost use Rattle.wild_fates.specs.Targets.{targets};

use crate::clauses::constant_fault;
use crate::distinct::push_distinct;
use crate::places::Place;
use crate::statements::is_discard;
use sqlite_items::Items;
use std::alloc::Global;
use wild_base::{Fault, Name, NoMemory};
use wild_eval::evaluate_const;
use wild_numbering::Numbering;
use wild_script_tree::{Command, Expression, Phdr, SectionCommand};
use wild_segments::SegmentHeader;

/// The headers of a PHDRS, and its place.
#[derive(Clone, Copy)]
pub struct HeadersAt<'a> {
    pub place: usize,
    pub headers: &'a [Phdr],
}

// No headers.
fn no_headers<'a>() -> HeadersAt<'a>
    ensures { shown_headers result ≡ spec.no_headers }
{
    let none: &[Phdr] = &[];
    HeadersAt {
        place: 0,
        headers: none,
    }
}

// The PHDRS that stands at a place, if one does.
fn headers_at<'a>(place: usize, statement: &Place<'a>) -> Option<HeadersAt<'a>>
    ensures { option_to_list (option_map shown_headers result) ≡ spec.header_list_at place (shown_place statement.now) }
{
    match *statement {
        Place::Headers(headers) => Some(HeadersAt { place, headers }),
        _ => None,
    }
}

/// The last PHDRS of these places, or no headers.
pub fn last_headers<'a>(places: &[Place<'a>]) -> HeadersAt<'a>
    ensures { shown_headers result ≡ last_or spec.no_headers (spec.header_lists 0 (shown_places places.now)) }
{
    for place in (0..places.len()).rev() {
        match headers_at(place, &places[place]) {
            Some(headers) => return headers,
            None => {}
        }
    }
    no_headers()
}

// ---- numbers

// A number of a header of the PHDRS at this place, which must have four bytes.
fn check_number(statement: usize, index: usize, number: &Expression) -> Result<u32, Fault>
    ensures number { IfOk result (λ n. n ≡ spec.four_bytes (number_in (const number.now))) }
    ensures passes { Passes (failing (header_number_checks statement index (Some number.now))) result }
{
    match evaluate_const(number) {
        Ok(value) if value >= 1 << 32 => Err(Fault::BadHeader {
            index: index as u64,
            value,
        }),
        Ok(value) => Ok(value as u32),
        Err(reason) => Err(constant_fault(statement, reason)),
    }
}

// The flags of a header, if it says any.
fn check_flags(
    statement: usize,
    index: usize,
    flags: &Option<Expression>,
) -> Result<Option<u32>, Fault>
    ensures number { IfOk result (λ n. n ≡ option_map (λ e. spec.four_bytes (number_in (const e))) flags.now) }
    ensures passes { Passes (failing (header_number_checks statement index flags.now)) result }
{
    match flags {
        Some(flags) => Ok(Some(check_number(statement, index, flags)?)),
        None => Ok(None),
    }
}

// A header with its type and its flags.
fn check_header<'a>(
    statement: usize,
    index: usize,
    header: &'a Phdr,
) -> Result<SegmentHeader<'a>, Fault>
    ensures header { IfOk result (λ h. h ≡ spec.header_of header.now) }
    ensures passes { Passes (failing (header_checks statement index header.now)) result }
{
    let ptype = check_number(statement, index, &header.ptype)?;
    let flags = check_flags(statement, index, &header.flags)?;
    Ok(SegmentHeader {
        name: &header.name,
        ptype,
        flags,
        has_filehdr: header.has_filehdr,
        has_phdrs: header.has_phdrs,
    })
}

/// The headers of a PHDRS with their numbers. The fault is that of the first that has no type or no flags of four bytes.
#[tactic(auto, using(std::proofs::lemmas::Grind::common_steps, crate::proofs::Failing::failing_after))]
pub fn check_headers<'a>(
    alloc: Global,
    list: &HeadersAt<'a>,
) -> Result<Items<SegmentHeader<'a>>, Fault>
    ensures headers { IfOk result (λ headers. headers ≡ map spec.header_of list.now.headers.now) }
    ensures passes { Passes (failing (phdrs_checks (shown_headers list.now))) result }
{
    let mut headers = Items::new(alloc);
    let all = list.headers;
    for (index, header) in all.iter().enumerate() {
        headers.push(check_header(list.place, index, header)?)?;
    }
    Ok(headers)
}

// ---- names

/// The names of headers, of which no two are the same. The fault is that of the first with the name of an earlier one.
pub fn number_headers(alloc: Global, headers: &[Phdr]) -> Result<Numbering, Fault>
    ensures names { IfOk result (λ names. names ≡ spec.names_of_headers headers.now) }
    ensures passes { Passes (failing (name_checks DuplicateName [] (spec.names_of_headers headers.now))) result }
{
    let mut names = Numbering::new(alloc);
    for header in headers {
        push_distinct(alloc, &mut names, &header.name)?;
    }
    Ok(names)
}

// A name that is that of no header all the same.
fn is_none_name(name: &Name) -> bool
    ensures { result ≡ is_none_name name.now }
{
    name.bytes() == b"NONE".as_slice()
}

// A header that a section names is among these.
#[tactic(auto, using(crate::proofs::Names::any_number))]
fn check_header_name(alloc: Global, names: &Numbering, name: &Name) -> Result<(), Fault>
    ensures { Passes (failing (check (is_none_name name.now || list_any (is_named name.now) names.now) (UnknownPhdr name.now))) result }
{
    if is_none_name(name) || names.get(name).is_some() {
        return Ok(());
    }
    let name = name.copy(alloc)?;
    Err(Fault::UnknownPhdr { name })
}

/// The headers that a section names are among these. The fault is that of the first that is not.
#[tactic(auto, using(std::proofs::lemmas::Grind::common_steps, crate::proofs::Failing::failing_after))]
pub fn check_header_names(alloc: Global, names: &Numbering, named: &[Name]) -> Result<(), Fault>
    ensures { Passes (failing (header_name_checks names.now named.now)) result }
{
    for name in named {
        check_header_name(alloc, names, name)?;
    }
    Ok(())
}

// ---- sections

// The headers that hold a section where these hold the one before it: its own, or else the same.
fn own_headers<'a>(before: &'a [Name], own: &'a [Name]) -> &'a [Name]
    ensures { result.now ≡ spec.own_headers before.now own.now }
{
    if own.is_empty() { before } else { own }
}

// The headers that hold the section that a statement is, if it is one, and else those that hold the one before.
fn headers_behind<'a>(before: &'a [Name], command: &'a SectionCommand) -> &'a [Name]
    ensures { result.now ≡ headers_behind before.now command.now }
{
    match command {
        SectionCommand::Section(section) if !is_discard(section.get()) => {
            own_headers(before, section.get().phdrs.as_slice())
        }
        _ => before,
    }
}

// Those of the section that a statement is, if it is one, after the others.
fn push_headers<'a>(
    all: &mut Items<&'a [Name]>,
    held: &'a [Name],
    command: &SectionCommand,
) -> Result<(), NoMemory>
    ensures { OnOk result (targets all.new ≡ targets all.old ++ headers_here held.now command.now) }
{
    match command {
        SectionCommand::Section(section) if !is_discard(section.get()) => Ok(all.push(held)?),
        _ => Ok(()),
    }
}

// Those of the sections of a SECTIONS, after the others.
#[tactic(auto, using(crate::proofs::SectionHeaders::headers_step))]
fn push_section_headers<'a>(
    all: &mut Items<&'a [Name]>,
    commands: &'a [SectionCommand],
) -> Result<(), NoMemory>
    ensures { OnOk result (targets all.new ≡ targets all.old ++ spec.headers_in [] commands.now) }
{
    let mut held: &[Name] = &[];
    for command in commands {
        held = headers_behind(held, command);
        push_headers(all, held, command)?;
    }
    Ok(())
}

// Those of the sections of a command, after the others.
fn push_command_headers<'a>(
    all: &mut Items<&'a [Name]>,
    command: &'a Command,
) -> Result<(), NoMemory>
    ensures { OnOk result (targets all.new ≡ targets all.old ++ spec.command_headers command.now) }
{
    match command {
        Command::Sections(sections) => push_section_headers(all, sections.commands.as_slice()),
        _ => Ok(()),
    }
}

/// The names of the headers that hold each section of a script, by the numbers of the sections. Fails where memory runs out.
pub fn find_section_headers(alloc: Global, commands: &[Command]) -> Result<Items<&[Name]>, NoMemory>
    ensures { IfOk result (λ all. targets all ≡ spec.section_headers commands.now) }
{
    let mut all = Items::new(alloc);
    for command in commands {
        push_command_headers(&mut all, command)?;
    }
    Ok(all)
}
