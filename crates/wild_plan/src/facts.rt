//! What a script and its table say of each section, before any address is known.

ghost use Rattle.std.specs.Prelude.{◌≡◌, ◌∷◌, ◌++◌, [], OnOk, IfOk, Some, None, length, slice_get, not, ◌&&◌, ◌||◌};
ghost use Rattle.std.specs.Option.{option_copied, option_map};
ghost use Rattle.wild_plan_spec.specs.Facts as spec;
ghost use Rattle.wild_value_spec.specs.Const.{const, number_in};
ghost use Rattle.wild_plan_spec.specs.Headers.{four_bytes};
ghost use Rattle.wild_fates.specs.Targets.{targets};
ghost use Rattle.wild_plan.specs.Facts.{alignments_in, facts_by, facts_with, flags_by, floating_by, shown_all, shown_facts};
ghost use Rattle.wild_plan.specs.Traits.{traits_at};

use crate::traits::{SectionTraits, Traits, find_traits};
use bitflags::Flags;
use sqlite_items::Items;
use std::alloc::Global;
use wild_base::{Alignment, InputFlags, Name, NoMemory, alignment};
use wild_eval::evaluate_const;
use wild_plan_spec::{InputRow, Kept};
use wild_script_tree::{Expression, Fill, Section, SectionAttributes};

/// What is said of a section.
#[derive(Debug, Drop)]
pub struct Facts<'a> {
    pub name: &'a Name,
    /// The larger of its ALIGN clause and the largest alignment of its rows.
    pub alignment: Alignment,
    /// It is laid out beside the others: it moves no location counter, and may share addresses.
    pub floating: bool,
    pub flags: InputFlags,
    pub fill: Option<u32>,
    /// Its start expression, before the colon.
    pub start: Option<&'a Expression>,
    /// Its load address, of the AT clause.
    pub load: Option<&'a Expression>,
    /// The name of its memory region.
    pub region: Option<&'a Name>,
    /// The names of the program headers that hold it.
    pub headers: &'a [Name],
}

// ---- clauses

// The number of a constant, or 0; what is none is refused before.
fn number_in(expression: &Expression) -> u64
    ensures { result ≡ number_in (const expression.now) }
{
    match evaluate_const(expression) {
        Ok(number) => number,
        Err(_) => 0,
    }
}

// The alignment of an ALIGN clause, or else 1.
fn clause_alignment(clause: Option<&Expression>) -> Alignment
    ensures { result ≡ spec.clause_alignment (option_copied clause.entry) }
{
    let Some(expression) = clause else {
        return alignment::MIN;
    };
    match Alignment::new(number_in(expression)) {
        Ok(alignment) => alignment,
        Err(_) => alignment::MIN,
    }
}

// A number of four bytes, or 0; what does not fit in them is refused before.
fn fill_number(fill: &Fill) -> u32
    ensures { result ≡ four_bytes (number_in (const fill.now.value)) }
{
    match u32::try_from(number_in(&fill.value)) {
        Ok(number) => number,
        Err(_) => 0,
    }
}

fn fill_of(fill: Option<&Fill>) -> Option<u32>
    ensures { result ≡ option_map (λ f. four_bytes (number_in (const f.value))) (option_copied fill.entry) }
{
    match fill {
        Some(fill) => Some(fill_number(fill)),
        None => None,
    }
}

// It is marked as no part of the memory.
fn floats(attributes: Option<SectionAttributes>) -> bool
    ensures { result ≡ spec.floats attributes }
{
    match attributes {
        Some(
            SectionAttributes::Dsect
            | SectionAttributes::Copy
            | SectionAttributes::Info
            | SectionAttributes::Overlay,
        ) => true,
        Some(SectionAttributes::Noload | SectionAttributes::Readonly) | None => false,
    }
}

// It is marked as not to be written.
fn is_readonly(attributes: Option<SectionAttributes>) -> bool
    ensures { result ≡ spec.is_readonly attributes }
{
    matches!(attributes, Some(SectionAttributes::Readonly))
}

// It is marked as not to be loaded.
fn is_noload(attributes: Option<SectionAttributes>) -> bool
    ensures { result ≡ spec.is_noload attributes }
{
    matches!(attributes, Some(SectionAttributes::Noload))
}

// ---- sections

// It is marked as no part of the memory, or its rows are not in it.
fn floating_by(attributes: Option<SectionAttributes>, traits: &Traits) -> bool
    ensures { result ≡ floating_by attributes traits.now }
{
    floats(attributes) || (traits.rows && !traits.alloc)
}

// Some row is writable, and it is not marked as not to be written.
fn write_by(attributes: Option<SectionAttributes>, traits: &Traits) -> bool
    ensures { result ≡ (traits.now.write && not (spec.is_readonly attributes)) }
{
    traits.write && !is_readonly(attributes)
}

// There are rows, and the file holds none of them, or it is marked as not to be loaded.
fn nobits_by(attributes: Option<SectionAttributes>, traits: &Traits) -> bool
    ensures { result ≡ ((traits.now.rows && not traits.now.bits) || spec.is_noload attributes) }
{
    (traits.rows && !traits.bits) || is_noload(attributes)
}

// The flag, where it is set.
fn flag(set: bool, flag: InputFlags) -> InputFlags
    ensures { result ≡ record { 0 = spec.bit set flag.0 } }
{
    if set { flag } else { InputFlags::empty() }
}

// The flags of a section with these marks and traits.
fn flags_by(attributes: Option<SectionAttributes>, traits: &Traits) -> InputFlags
    ensures { result ≡ flags_by attributes traits.now }
{
    let alloc = flag(!floating_by(attributes, traits), InputFlags::ALLOC);
    let write = flag(write_by(attributes, traits), InputFlags::WRITE);
    let exec = flag(traits.exec, InputFlags::EXEC);
    let nobits = flag(nobits_by(attributes, traits), InputFlags::NOBITS);
    let tls = flag(traits.tls, InputFlags::TLS);
    alloc.union(write).union(exec).union(nobits).union(tls)
}

// What is said of a section of the script of this name, with these traits.
fn script_facts<'a>(
    name: &'a Name,
    section: &'a Section,
    headers: &'a [Name],
    traits: &Traits,
) -> Facts<'a>
    ensures { shown_facts result ≡ facts_by name.now (Some section.now) headers.now traits.now }
{
    let alignment = clause_alignment(section.alignment.as_ref()).max(traits.alignment);
    let floating = floating_by(section.attributes, traits);
    let flags = flags_by(section.attributes, traits);
    let fill = fill_of(section.fill.as_ref());
    let start = section.start_address_expression.as_ref();
    let load = section.at_address.as_ref();
    let region = section.region.as_ref();
    Facts {
        name,
        alignment,
        floating,
        flags,
        fill,
        start,
        load,
        region,
        headers,
    }
}

// What is said of an orphan of this name, with these traits.
fn orphan_facts<'a>(name: &'a Name, headers: &'a [Name], traits: &Traits) -> Facts<'a>
    ensures { shown_facts result ≡ facts_by name.now None headers.now traits.now }
{
    let floating = floating_by(None, traits);
    let flags = flags_by(None, traits);
    Facts {
        name,
        alignment: traits.alignment,
        floating,
        flags,
        fill: None,
        start: None,
        load: None,
        region: None,
        headers,
    }
}

// What is said of a section of this name, with these traits.
fn facts_by<'a>(
    name: &'a Name,
    section: Option<&'a Section>,
    headers: &'a [Name],
    traits: &Traits,
) -> Facts<'a>
    ensures { shown_facts result ≡ facts_by name.now (option_copied section.entry) headers.now traits.now }
{
    match section {
        Some(section) => script_facts(name, section, headers, traits),
        None => orphan_facts(name, headers, traits),
    }
}

// A section with these traits after the others.
#[tactic(auto, using(crate::proofs::Sections::all_append))]
fn push_section<'a>(
    facts: &mut Items<Facts<'a>>,
    name: &'a Name,
    section: Option<&'a Section>,
    headers: &'a [Name],
    traits: &Traits,
) -> Result<(), NoMemory>
    ensures { OnOk result (shown_all facts.new ≡ shown_all facts.old ++ facts_by name.now (option_copied section.entry) headers.now traits.now ∷ []) }
{
    facts.push(facts_by(name, section, headers, traits))?;
    Ok(())
}

// The section of this number, where the script has one.
fn section_at<'a>(sections: &[&'a Section], number: usize) -> Option<&'a Section>
    ensures { option_copied result ≡ slice_get (targets sections.now) number }
{
    sections.get(number).copied()
}

// The headers that hold the section of this number: an orphan is in none.
fn headers_at<'a>(headers: &[&'a [Name]], number: usize) -> &'a [Name]
    ensures { result.now ≡ spec.headers_at (targets headers.now) number }
{
    match headers.get(number) {
        Some(held) => held,
        None => {
            let none: &[Name] = &[];
            none
        }
    }
}

// Of sections of these names, which are numbered in order from 0 and have these traits; the first are those of the script.
fn facts_with<'a>(
    alloc: Global,
    sections: &[&'a Section],
    headers: &[&'a [Name]],
    traits: &SectionTraits,
    names: &[&'a Name],
) -> Result<Items<Facts<'a>>, NoMemory>
    ensures { IfOk result (λ facts. shown_all facts ≡ facts_with (targets sections.now) (targets headers.now) (traits_at traits.now) 0 (targets names.now)) }
{
    let mut facts = Items::new(alloc);
    for (number, name) in names.iter().enumerate() {
        let section = section_at(sections, number);
        let own = traits.get(number);
        push_section(&mut facts, name, section, headers_at(headers, number), &own)?;
    }
    Ok(facts)
}

/// What is said of sections of these names, which are numbered in order from 0, by the sections of the script, the headers
/// that hold each, the rows and the fate of each. Fails where memory runs out.
pub fn find_facts<'a>(
    alloc: Global,
    sections: &[&'a Section],
    headers: &[&'a [Name]],
    rows: &[InputRow],
    fates: &[Option<Kept>],
    names: &[&'a Name],
) -> Result<Items<Facts<'a>>, NoMemory>
    requires { length fates.now ≡ length rows.now }
    ensures { IfOk result (λ facts. shown_all facts ≡ spec.facts_from (targets sections.now) (targets headers.now) rows.now fates.now 0 (targets names.now)) }
{
    let traits = find_traits(alloc, rows, fates)?;
    facts_with(alloc, sections, headers, &traits, names)
}

/// The alignment of each section.
pub fn alignments_in(alloc: Global, facts: &[Facts<'_>]) -> Result<Items<Alignment>, NoMemory>
    ensures { IfOk result (λ alignments. alignments ≡ alignments_in (shown_all facts.now)) }
{
    let mut alignments = Items::new(alloc);
    for section in facts {
        alignments.push(section.alignment)?;
    }
    Ok(alignments)
}
