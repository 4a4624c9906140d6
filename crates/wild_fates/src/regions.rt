//! The memory regions of a script, and what is checked of them.

ghost use Rattle.std.specs.Prelude.{◌≡◌, [], ◌++◌, IfOk, map};
ghost use Rattle.std.specs.Option.{option_map, option_to_list};
ghost use Rattle.wild_names.specs.declared.fault.Fault.TheVariants.{DuplicateName};
ghost use Rattle.wild_plan_spec.specs.Checks.{all_region_checks, failing, header_name_checks, name_checks, reference_checks, region_check, region_checks};
ghost use Rattle.wild_plan_spec.specs.Regions.{last_or, memories, memory_at, names_in, no_memory, region_of};
ghost use Rattle.wild_fates.specs.Memories.{shown_memory};
ghost use Rattle.wild_fates.specs.Passes.{Passes};
ghost use Rattle.wild_fates.specs.Shown.{shown_place, shown_places};
ghost use Rattle.wild_fates.specs.Targets.{targets};

use crate::clauses::number_or_fault;
use crate::distinct::push_distinct;
use crate::headers::check_header_names;
use crate::places::Place;
use sqlite_items::Items;
use std::alloc::Global;
use wild_base::{Fault, Name};
use wild_eval::sum;
use wild_numbering::Numbering;
use wild_script_tree::{MemoryRegion, Section};
use wild_value_spec::Region;

/// The memory regions of a script, which are numbered in order from 0.
#[derive(Drop)]
pub struct Regions {
    /// Their names.
    pub names: Numbering,
    /// Where they stand.
    pub regions: Items<Region>,
}

/// The regions of a MEMORY, and its place.
#[derive(Clone, Copy)]
pub struct MemoryAt<'a> {
    pub place: usize,
    pub regions: &'a [MemoryRegion],
}

// No regions.
fn no_memory<'a>() -> MemoryAt<'a>
    ensures { shown_memory result ≡ no_memory }
{
    let none: &[MemoryRegion] = &[];
    MemoryAt {
        place: 0,
        regions: none,
    }
}

// The MEMORY that stands at a place, if one does.
fn memory_at<'a>(place: usize, statement: &Place<'a>) -> Option<MemoryAt<'a>>
    ensures { option_to_list (option_map shown_memory result) ≡ memory_at place (shown_place statement.now) }
{
    match *statement {
        Place::Memory(regions) => Some(MemoryAt { place, regions }),
        _ => None,
    }
}

/// The last MEMORY of these places, or no regions.
pub fn last_memory<'a>(places: &[Place<'a>]) -> MemoryAt<'a>
    ensures { shown_memory result ≡ last_or no_memory (memories 0 (shown_places places.now)) }
{
    for place in (0..places.len()).rev() {
        match memory_at(place, &places[place]) {
            Some(memory) => return memory,
            None => {}
        }
    }
    no_memory()
}

// The origin and the length of a region of the MEMORY at this place, whose end must be a number.
fn check_region(statement: usize, region: &MemoryRegion) -> Result<Region, Fault>
    ensures region { IfOk result (λ r. r ≡ region_of region.now) }
    ensures passes { Passes (failing (region_checks statement region.now)) result }
{
    let origin = number_or_fault(statement, &region.origin)?;
    let length = number_or_fault(statement, &region.length)?;
    sum(origin, length)?;
    Ok(Region { origin, length })
}

/// Where the regions of a MEMORY stand. The fault is that of the first that has no origin, no length or no end.
#[tactic(auto, using(std::proofs::lemmas::Grind::common_steps, crate::proofs::Failing::failing_after))]
pub fn check_regions(alloc: Global, memory: &MemoryAt<'_>) -> Result<Items<Region>, Fault>
    ensures regions { IfOk result (λ regions. regions ≡ map region_of memory.now.regions.now) }
    ensures passes { Passes (failing (all_region_checks memory.now.place memory.now.regions.now)) result }
{
    let mut regions = Items::new(alloc);
    for region in memory.regions {
        regions.push(check_region(memory.place, region)?)?;
    }
    Ok(regions)
}

// ---- names

/// The names of regions, of which no two are the same. The fault is that of the first with the name of an earlier one.
pub fn number_regions(alloc: Global, regions: &[MemoryRegion]) -> Result<Numbering, Fault>
    ensures names { IfOk result (λ names. names ≡ names_in regions.now) }
    ensures passes { Passes (failing (name_checks DuplicateName [] (names_in regions.now))) result }
{
    let mut names = Numbering::new(alloc);
    for region in regions {
        push_distinct(alloc, &mut names, &region.name)?;
    }
    Ok(names)
}

// The region that a section names, if it names one, is among these.
#[tactic(auto, using(crate::proofs::Names::any_number))]
fn check_reference(alloc: Global, names: &Numbering, region: &Option<Name>) -> Result<(), Fault>
    ensures { Passes (failing (region_check names.now region.now)) result }
{
    let Some(name) = region else {
        return Ok(());
    };
    if names.get(name).is_some() {
        return Ok(());
    }
    let name = name.copy(alloc)?;
    Err(Fault::UnknownRegion { name })
}

// The region and the headers that a section names are among these.
#[tactic(auto, using(std::proofs::lemmas::Grind::common_steps, crate::proofs::Failing::failing_after))]
fn check_section(
    alloc: Global,
    regions: &Numbering,
    headers: &Numbering,
    section: &Section,
) -> Result<(), Fault>
    ensures { Passes (failing (region_check regions.now section.now.region ++ header_name_checks headers.now section.now.phdrs)) result }
{
    check_reference(alloc, regions, &section.region)?;
    check_header_names(alloc, headers, section.phdrs.as_slice())
}

/// The regions and headers that sections name are among these. The fault is that of the first section with one that is not.
#[tactic(auto, using(std::proofs::lemmas::Grind::common_steps, crate::proofs::Failing::failing_after))]
pub fn check_references(
    alloc: Global,
    regions: &Numbering,
    headers: &Numbering,
    sections: &[&Section],
) -> Result<(), Fault>
    ensures { Passes (failing (reference_checks regions.now headers.now (targets sections.now))) result }
{
    for section in sections {
        check_section(alloc, regions, headers, section)?;
    }
    Ok(())
}
