//! Reads output sections. What is made so far is passed on in a box, since proofs about bare sections take minutes.

ghost use Rattle.std.specs.Prelude.{◌≡◌, IfOk};
ghost use Rattle.wild_reading.specs.Only.{Answers};
ghost use Rattle.wild_expression_words.specs.Dialect.{first_grammar};
ghost use Rattle.wild_section_statements.specs.Section as spec;

use crate::before::items;
use crate::clauses::clauses;
use crate::contents::contents;
use crate::tail::tail;
use sqlite_items::{Boxed, Items};
use std::alloc::Global;
use wild_names::{Name, NoMemory};
use wild_reading::{Cursor, Stop};
use wild_script_tree::{ContentsCommand, Section};

fn named_section(alloc: Global, name: &[u8]) -> Result<Boxed<Section>, NoMemory>
    ensures { IfOk result (λ x. x ≡ spec.named_section name.now) }
{
    let section = Section {
        output_section_name: Name::new(alloc, name)?,
        commands: Items::new(alloc),
        alignment: None,
        start_address_expression: None,
        phdrs: Items::new(alloc),
        at_address: None,
        region: None,
        fill: None,
        attributes: None,
    };
    Ok(Boxed::new(alloc, section)?)
}

#[tactic(auto, using(wild_reading::proofs::Readers::reading), unfolding(crate::specs::Section::section_start))]
fn section_start(
    cursor: &mut Cursor<'_>,
    alloc: Global,
    section: Boxed<Section>,
) -> Result<Boxed<Section>, Stop>
    ensures { Answers (spec.section_start first_grammar section) cursor.old cursor.new result }
{
    let whole = items(cursor, alloc, section.into_inner())?;
    let begun = Boxed::new(alloc, whole)?;
    cursor.symbol(b':')?;
    Ok(begun)
}

#[tactic(auto, using(wild_reading::proofs::Readers::reading), unfolding(crate::specs::Section::section_clauses))]
fn section_clauses(
    cursor: &mut Cursor<'_>,
    alloc: Global,
    section: Boxed<Section>,
) -> Result<Boxed<Section>, Stop>
    ensures { Answers (spec.section_clauses first_grammar section) cursor.old cursor.new result }
{
    let whole = clauses(cursor, alloc, section.into_inner())?;
    Ok(Boxed::new(alloc, whole)?)
}

fn with_commands(mut section: Section, commands: Items<ContentsCommand>) -> Section
    ensures { result ≡ record section { commands = commands } }
{
    section.commands = commands;
    section
}

#[tactic(auto, using(wild_reading::proofs::Readers::reading), unfolding(crate::specs::Section::section_body))]
fn section_body(
    cursor: &mut Cursor<'_>,
    alloc: Global,
    section: Boxed<Section>,
) -> Result<Boxed<Section>, Stop>
    ensures { Answers (spec.section_body first_grammar section) cursor.old cursor.new result }
{
    let commands = contents(cursor, alloc)?;
    let whole = with_commands(section.into_inner(), commands);
    Ok(Boxed::new(alloc, whole)?)
}

#[tactic(auto, using(wild_reading::proofs::Readers::reading), unfolding(crate::specs::Section::section_tail))]
fn section_tail(
    cursor: &mut Cursor<'_>,
    alloc: Global,
    section: Boxed<Section>,
) -> Result<Boxed<Section>, Stop>
    ensures { Answers (spec.section_tail first_grammar section) cursor.old cursor.new result }
{
    let whole = tail(cursor, alloc, section.into_inner())?;
    let ended = Boxed::new(alloc, whole)?;
    cursor.optional_symbol(b',')?;
    Ok(ended)
}

#[tactic(auto, using(wild_reading::proofs::Readers::reading), unfolding(crate::specs::Section::section_parts))]
fn section_parts(
    cursor: &mut Cursor<'_>,
    alloc: Global,
    section: Boxed<Section>,
) -> Result<Boxed<Section>, Stop>
    ensures { Answers (spec.section_parts first_grammar section) cursor.old cursor.new result }
{
    let begun = section_start(cursor, alloc, section)?;
    let placed = section_clauses(cursor, alloc, begun)?;
    let filled = section_body(cursor, alloc, placed)?;
    section_tail(cursor, alloc, filled)
}

/// Reads what is after the name of a section.
#[tactic(auto, using(wild_reading::proofs::Readers::reading))]
pub fn named(cursor: &mut Cursor<'_>, alloc: Global, name: &[u8]) -> Result<Boxed<Section>, Stop>
    ensures { Answers (spec.named first_grammar name.now) cursor.old cursor.new result }
{
    let section = named_section(alloc, name)?;
    section_parts(cursor, alloc, section)
}
