//! From a script and a table to places, sections and fates.

ghost use Rattle.std.specs.Prelude.{◌≡◌, ◌∷◌, ◌++◌, [], IfOk, map};
ghost use Rattle.wild_names.specs.declared.fault.Fault.TheVariants.{DuplicateSection};
ghost use Rattle.wild_plan_spec.specs.Checks.{name_checks, script_checks, script_name_checks, failing};
ghost use Rattle.wild_plan_spec.specs.Fates.{names_of};
ghost use Rattle.wild_plan_spec.specs.Headers.{header_of, names_of_headers};
ghost use Rattle.wild_plan_spec.specs.Regions.{names_in, region_of};
ghost use Rattle.wild_plan_spec.specs.Rules.{rules_in};
ghost use Rattle.wild_fates.specs.Passes.{Passes, repeated};
ghost use Rattle.wild_fates.specs.Parts.{IsParts, AreFatesBy, AreFates, headers_list, memory_in, parts_checks};
ghost use Rattle.wild_fates.specs.Targets.{targets};
ghost use Rattle.wild_fates.specs.Shown.{shown_places};

use crate::fates::{Fates, find_fates};
use crate::headers::{check_headers, find_section_headers, last_headers, number_headers};
use crate::places::{Place, find_places, push_orphans};
use crate::regions::{Regions, check_references, check_regions, last_memory, number_regions};
use crate::rules::{Rules, find_rules};
use crate::section_names::SectionNames;
use crate::statements::{find_sections, find_statements};
use sqlite_items::Items;
use std::alloc::Global;
use wild_base::{Fault, Name, NoMemory};
use wild_numbering::Numbering;
use wild_plan_spec::{InputRow, InputTable, Kept, PlanOptions};
use wild_script_tree::{Command, MemoryRegion, Phdr, Section};
use wild_segments::SegmentHeader;

/// What a script is taken apart into.
#[derive(Drop)]
pub struct Parts<'a> {
    pub sections: Items<&'a Section>,
    /// The names of the program headers that hold each of them.
    pub section_headers: Items<&'a [Name]>,
    pub places: Items<Place<'a>>,
}

/// Where the rows of a table go.
#[derive(Drop)]
pub struct ScriptFates<'a> {
    /// The sections of the script.
    pub sections: Items<&'a Section>,
    /// The names of the program headers that hold each of them.
    pub section_headers: Items<&'a [Name]>,
    /// The memory regions of the script.
    pub regions: Regions,
    /// The program headers of the script.
    pub headers: Items<SegmentHeader<'a>>,
    /// The names of the sections, orphans last.
    pub names: SectionNames<'a>,
    /// The places of the script, and after them those of the orphans.
    pub places: Items<Place<'a>>,
    /// Where each row goes, or None where it is discarded.
    pub fates: Items<Option<Kept>>,
}

fn find_parts(alloc: Global, commands: &[Command]) -> Result<Parts<'_>, NoMemory>
    ensures { IfOk result (IsParts commands.now) }
{
    let statements = find_statements(alloc, commands)?;
    let places = find_places(alloc, statements.as_slice())?;
    let sections = find_sections(alloc, statements.as_slice())?;
    let section_headers = find_section_headers(alloc, commands)?;
    Ok(Parts {
        sections,
        section_headers,
        places,
    })
}

#[tactic(auto, using(crate::proofs::Names::any_number))]
fn push_section<'a>(
    alloc: Global,
    names: SectionNames<'a>,
    section: &'a Section,
) -> Result<SectionNames<'a>, Fault>
    ensures pushed { IfOk result (λ next. next ≡ names.entry ++ section.now.output_section_name ∷ []) }
    ensures passes { Passes (repeated DuplicateSection names.entry section.now.output_section_name) result }
{
    let name = &section.output_section_name;
    if names.get(name).is_some() {
        let name = name.copy(alloc)?;
        return Err(Fault::DuplicateSection { name });
    }
    Ok(names.with(alloc, name)?)
}

// The names of the sections, of which no two are the same. The fault is that of the first with the name of an earlier
// one.
fn number_sections<'a>(alloc: Global, sections: &[&'a Section]) -> Result<SectionNames<'a>, Fault>
    ensures names { IfOk result (λ names. names ≡ names_of (targets sections.now)) }
    ensures passes { Passes (failing (name_checks DuplicateSection [] (names_of (targets sections.now)))) result }
{
    let mut names = SectionNames::new(alloc);
    for section in sections {
        names = push_section(alloc, names, section)?;
    }
    Ok(names)
}

/// What is known of a script whose checks hold.
#[derive(Drop)]
pub struct Checked<'a> {
    pub rules: Rules,
    pub regions: Regions,
    /// Its program headers.
    pub headers: Items<SegmentHeader<'a>>,
    /// The names of its sections.
    pub own: SectionNames<'a>,
}

/// The names of the regions and of the sections of a script.
#[derive(Drop)]
struct ScriptNames<'a> {
    regions: Numbering,
    own: SectionNames<'a>,
}

// The names of these regions and sections. The fault is first that of a region or header with the name of an earlier one, then
// that of a section that names none of them, then that of a section with the name of an earlier one.
#[tactic(auto, using(std::proofs::lemmas::Grind::common_steps, crate::proofs::Failing::none_after))]
fn check_names<'a>(
    alloc: Global,
    regions: &[MemoryRegion],
    headers: &[Phdr],
    sections: &[&'a Section],
) -> Result<ScriptNames<'a>, Fault>
    ensures regions { IfOk result (λ names. names.regions ≡ names_in regions.now) }
    ensures own { IfOk result (λ names. names.own ≡ names_of (targets sections.now)) }
    ensures passes { Passes (failing (script_name_checks (names_in regions.now) (names_of_headers headers.now) (targets sections.now))) result }
{
    let numbers = number_regions(alloc, regions)?;
    let header_numbers = number_headers(alloc, headers)?;
    check_references(alloc, &numbers, &header_numbers, sections)?;
    let own = number_sections(alloc, sections)?;
    Ok(ScriptNames {
        regions: numbers,
        own,
    })
}

// What is checked of a script alone: its places, then its memory regions, its program headers, and its names.
#[tactic(auto, using(std::proofs::lemmas::Grind::common_steps, crate::proofs::Failing::none_after))]
fn check_script<'a>(
    alloc: Global,
    options: &PlanOptions,
    places: &[Place<'a>],
    sections: &[&'a Section],
) -> Result<Checked<'a>, Fault>
    ensures rules { IfOk result (λ checked. checked.rules ≡ rules_in (shown_places places.now)) }
    ensures regions { IfOk result (λ checked. checked.regions.regions ≡ map region_of (memory_in (shown_places places.now)).regions) }
    ensures region_names { IfOk result (λ checked. checked.regions.names ≡ names_in (memory_in (shown_places places.now)).regions) }
    ensures headers { IfOk result (λ checked. checked.headers ≡ map header_of (headers_list (shown_places places.now)).headers) }
    ensures own { IfOk result (λ checked. checked.own ≡ names_of (targets sections.now)) }
    ensures passes { Passes (failing (parts_checks options.now (shown_places places.now) (targets sections.now))) result }
{
    let rules = find_rules(alloc, options, places)?;
    let memory = last_memory(places);
    let regions = check_regions(alloc, &memory)?;
    let list = last_headers(places);
    let headers = check_headers(alloc, &list)?;
    let names = check_names(alloc, memory.regions, list.headers, sections)?;
    let ScriptNames {
        regions: numbers,
        own,
    } = names;
    Ok(Checked {
        rules,
        regions: Regions {
            names: numbers,
            regions,
        },
        headers,
        own,
    })
}

// The fates of the rows, and the sections and places with those of the orphans.
fn decide_by<'a>(
    alloc: Global,
    parts: Parts<'a>,
    checked: Checked<'a>,
    rows: &'a [InputRow],
) -> Result<ScriptFates<'a>, NoMemory>
    ensures { IfOk result (AreFatesBy parts.entry checked.entry.regions checked.entry.headers checked.entry.rules checked.entry.own rows.now) }
{
    let Checked {
        rules,
        regions,
        headers,
        own,
    } = checked;
    let Parts {
        sections,
        section_headers,
        mut places,
    } = parts;
    let first = own.len();
    let Fates {
        sections: names,
        fates,
    } = find_fates(alloc, own, &rules, rows)?;
    push_orphans(&mut places, first, names.len())?;
    Ok(ScriptFates {
        sections,
        section_headers,
        regions,
        headers,
        names,
        places,
        fates,
    })
}

/// Where the rows of a table go by a script: its places, sections and memory regions, with the places and sections of
/// orphans, and the fate of each row.
///
/// # Errors
///
/// First that of the first place that fails: what a section or `/DISCARD/` must not say, a pattern without a reading, or a
/// format of another machine. Then that of the first region of the last MEMORY without an origin, a length or an end, and of the
/// first header of the last PHDRS without a type or flags of four bytes. Then that of the first name: of a region or a header with
/// the name of an earlier one, of a section that names no region or no header, of a section with the name of an earlier one.
/// NoMemory may come at any point.
pub fn decide_fates<'a>(
    alloc: Global,
    options: &PlanOptions,
    commands: &'a [Command],
    inputs: &'a InputTable,
) -> Result<ScriptFates<'a>, Fault>
    ensures fates { IfOk result (AreFates commands.now inputs.now) }
    ensures passes { Passes (failing (script_checks options.now commands.now)) result }
{
    let parts = find_parts(alloc, commands)?;
    let checked = check_script(
        alloc,
        options,
        parts.places.as_slice(),
        parts.sections.as_slice(),
    )?;
    let fates = decide_by(alloc, parts, checked, inputs.rows.as_slice())?;
    Ok(fates)
}
