//! What a plan lists, once all places are laid out.

ghost use Rattle.std.specs.Prelude.{◌≡◌, IfOk};
ghost use Rattle.std.specs.Option.{option_copied};
ghost use Rattle.wild_plan_spec.specs.Layout.{placed_input, placed_inputs, placed_section, placed_sections, row_names};
ghost use Rattle.wild_plan.specs.Facts.{shown_all, shown_facts};
ghost use Rattle.wild_eval.specs.Addresses.{known_of};

use crate::facts::Facts;
use sqlite_items::Items;
use std::alloc::Global;
use wild_base::{Name, NoMemory};
use wild_eval::Addresses;
use wild_plan_spec::{InputRow, Kept, Names, PlacedInput, PlacedSection, RowNames};

// A copy of the name of a region, where there is one.
fn region_of(alloc: Global, region: Option<&Name>) -> Result<Option<Name>, NoMemory>
    ensures { IfOk result (λ name. name ≡ option_copied region.entry) }
{
    match region {
        Some(name) => Ok(Some(name.copy(alloc)?)),
        None => Ok(None),
    }
}

// Copies of names.
fn copies_of(alloc: Global, names: &[Name]) -> Result<Names, NoMemory>
    ensures { IfOk result (λ copies. copies ≡ names.now) }
{
    let mut copies = Names::new(alloc);
    for name in names {
        copies.push(name.copy(alloc)?)?;
    }
    Ok(copies)
}

// The section of this number.
fn placed_section(
    alloc: Global,
    addresses: &Addresses,
    number: usize,
    facts: &Facts<'_>,
) -> Result<PlacedSection, NoMemory>
    ensures { IfOk result (λ placed. placed ≡ placed_section (known_of addresses.now) number (shown_facts facts.now)) }
{
    let name = facts.name.copy(alloc)?;
    let region = region_of(alloc, facts.region)?;
    let headers = copies_of(alloc, facts.headers)?;
    let start = addresses.start(number);
    Ok(PlacedSection {
        name,
        start,
        load: addresses.load(number),
        size: addresses.end(number).saturating_sub(start),
        alignment: facts.alignment,
        flags: facts.flags,
        fill: facts.fill,
        region,
        headers,
        counted: !facts.floating,
    })
}

/// The sections of which this is said, numbered in their order.
pub fn placed_sections(
    alloc: Global,
    addresses: &Addresses,
    facts: &[Facts<'_>],
) -> Result<Items<PlacedSection>, NoMemory>
    ensures { IfOk result (λ placed. placed ≡ placed_sections (known_of addresses.now) 0 (shown_all facts.now)) }
{
    let mut placed = Items::new(alloc);
    for (number, section) in facts.iter().enumerate() {
        placed.push(placed_section(alloc, addresses, number, section)?)?;
    }
    Ok(placed)
}

fn placed_input(addresses: &Addresses, row: usize, fate: Option<Kept>) -> PlacedInput
    ensures { result ≡ placed_input (known_of addresses.now) row fate }
{
    match fate {
        None => PlacedInput::Discarded,
        Some(kept) => PlacedInput::Placed {
            section: kept.chunk.section,
            chunk: kept.chunk.number,
            address: addresses.address(row),
        },
    }
}

/// Where each row went, in table order, by its fate.
pub fn placed_inputs(
    alloc: Global,
    addresses: &Addresses,
    fates: &[Option<Kept>],
) -> Result<Items<PlacedInput>, NoMemory>
    ensures { IfOk result (λ placed. placed ≡ placed_inputs (known_of addresses.now) 0 fates.now) }
{
    let mut placed = Items::new(alloc);
    for (i, fate) in fates.iter().enumerate() {
        placed.push(placed_input(addresses, i, *fate))?;
    }
    Ok(placed)
}

fn names_of(alloc: Global, row: &InputRow) -> Result<RowNames, NoMemory>
    ensures { IfOk result (λ names. names ≡ record { file = row.now.file; «section» = row.now.«section» }) }
{
    Ok(RowNames {
        file: row.file.copy(alloc)?,
        section: row.section.copy(alloc)?,
    })
}

/// The names of each row, in table order.
pub fn row_names(alloc: Global, rows: &[InputRow]) -> Result<Items<RowNames>, NoMemory>
    ensures { IfOk result (λ names. names ≡ row_names rows.now) }
{
    let mut names = Items::new(alloc);
    for row in rows {
        names.push(names_of(alloc, row)?)?;
    }
    Ok(names)
}
