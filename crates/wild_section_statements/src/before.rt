//! Reads what is before the colon of a section.

ghost use Rattle.std.specs.Prelude.{◌<◌, OnOk};
ghost use Rattle.wild_reading.specs.Only.{Answers};
ghost use Rattle.wild_reading.specs.Position.{ahead};
ghost use Rattle.wild_expression_words.specs.Dialect.{first_grammar};
ghost use Rattle.wild_section_statements.specs.Before as spec;

use crate::attribute::{attribute, begins_attribute};
use std::alloc::Global;
use wild_expression::expression;
use wild_reading::{Cursor, Stop};
use wild_script_tree::Section;

#[tactic(auto, using(wild_reading::proofs::Readers::reading), unfolding(crate::specs::Before::attribute_item))]
fn attribute_item(cursor: &mut Cursor<'_>, mut section: Section) -> Result<Section, Stop>
    ensures read { Answers (spec.attribute_item section) cursor.old cursor.new result }
    ensures shorter { OnOk result (ahead cursor.new < ahead cursor.old) }
{
    let found = attribute(cursor)?;
    cursor.gap()?;
    section.attributes = Some(found);
    Ok(section)
}

#[tactic(auto, using(wild_reading::proofs::Readers::reading), unfolding(crate::specs::Before::start_item))]
fn start_item(cursor: &mut Cursor<'_>, alloc: Global, mut section: Section) -> Result<Section, Stop>
    ensures read { Answers (spec.start_item first_grammar section) cursor.old cursor.new result }
    ensures shorter { OnOk result (ahead cursor.new < ahead cursor.old) }
{
    let start = expression(cursor, alloc)?;
    cursor.gap()?;
    section.start_address_expression = Some(start.into_inner());
    Ok(section)
}

#[tactic(auto, using(wild_reading::proofs::Readers::choosing), unfolding(crate::specs::Before::item))]
fn item(cursor: &mut Cursor<'_>, alloc: Global, section: Section) -> Result<Section, Stop>
    ensures read { Answers (spec.item first_grammar section) cursor.old cursor.new result }
    ensures shorter { OnOk result (ahead cursor.new < ahead cursor.old) }
{
    if begins_attribute(cursor) {
        attribute_item(cursor, section)
    } else {
        start_item(cursor, alloc, section)
    }
}

/// Reads attributes and start expressions up to a colon, into a section that is made so far.
#[tactic(auto, using(crate::proofs::Folding::folding), unfolding(crate::specs::Before::items))]
pub fn items(cursor: &mut Cursor<'_>, alloc: Global, section: Section) -> Result<Section, Stop>
    ensures { Answers (spec.items first_grammar section) cursor.old cursor.new result }
{
    let mut whole = section;
    'items: while !cursor.begins(b':') {
        whole = item(cursor, alloc, whole)?;
    }
    Ok(whole)
}
