//! Reads what is after the braces of a section.

ghost use Rattle.std.specs.Prelude.{◌≡◌, ◌<◌, OnOk};
ghost use Rattle.wild_reading.specs.Only.{Answers};
ghost use Rattle.wild_reading.specs.Position.{ahead};
ghost use Rattle.wild_expression_words.specs.Dialect.{first_grammar};
ghost use Rattle.wild_section_statements.specs.Tail as spec;

use std::alloc::Global;
use wild_expression::expression;
use wild_reading::{Cursor, Stop};
use wild_script_tree::{Fill, Section};

#[tactic(auto, using(wild_reading::proofs::Readers::reading), unfolding(crate::specs::Tail::header_item))]
fn header_item(
    cursor: &mut Cursor<'_>,
    alloc: Global,
    mut section: Section,
) -> Result<Section, Stop>
    ensures read { Answers (spec.header_item section) cursor.old cursor.new result }
    ensures shorter { OnOk result (ahead cursor.new < ahead cursor.old) }
{
    cursor.symbol(b':')?;
    let header = cursor.name(alloc)?;
    section.phdrs.push(header)?;
    Ok(section)
}

#[tactic(auto, using(wild_reading::proofs::Readers::reading), unfolding(crate::specs::Tail::region_item))]
fn region_item(
    cursor: &mut Cursor<'_>,
    alloc: Global,
    mut section: Section,
) -> Result<Section, Stop>
    ensures read { Answers (spec.region_item section) cursor.old cursor.new result }
    ensures shorter { OnOk result (ahead cursor.new < ahead cursor.old) }
{
    cursor.symbol(b'>')?;
    let region = cursor.name(alloc)?;
    section.region = Some(region);
    Ok(section)
}

#[tactic(auto, using(wild_reading::proofs::Readers::reading), unfolding(crate::specs::Tail::fill_item))]
fn fill_item(cursor: &mut Cursor<'_>, alloc: Global, mut section: Section) -> Result<Section, Stop>
    ensures read { Answers (spec.fill_item first_grammar section) cursor.old cursor.new result }
    ensures shorter { OnOk result (ahead cursor.new < ahead cursor.old) }
{
    cursor.symbol(b'=')?;
    let value = expression(cursor, alloc)?;
    cursor.gap()?;
    section.fill = Some(Fill {
        value: value.into_inner(),
    });
    Ok(section)
}

#[tactic(auto, using(wild_reading::proofs::Readers::choosing), unfolding(crate::specs::Tail::region_or_fill))]
fn region_or_fill(cursor: &mut Cursor<'_>, alloc: Global, section: Section) -> Result<Section, Stop>
    ensures read { Answers (spec.region_or_fill first_grammar section) cursor.old cursor.new result }
    ensures shorter { OnOk result (ahead cursor.new < ahead cursor.old) }
{
    if cursor.begins(b'>') {
        region_item(cursor, alloc, section)
    } else {
        fill_item(cursor, alloc, section)
    }
}

#[tactic(auto, using(wild_reading::proofs::Readers::choosing), unfolding(crate::specs::Tail::tail_item))]
fn tail_item(cursor: &mut Cursor<'_>, alloc: Global, section: Section) -> Result<Section, Stop>
    ensures read { Answers (spec.tail_item first_grammar section) cursor.old cursor.new result }
    ensures shorter { OnOk result (ahead cursor.new < ahead cursor.old) }
{
    if cursor.begins(b':') {
        header_item(cursor, alloc, section)
    } else {
        region_or_fill(cursor, alloc, section)
    }
}

#[tactic(auto, unfolding(crate::specs::Tail::ends_tail))]
fn ends_tail(cursor: &Cursor<'_>) -> bool
    ensures { result ≡ spec.ends_tail cursor.now.text.bytes cursor.now.at }
{
    !(cursor.begins(b':') || cursor.begins(b'>') || cursor.begins(b'='))
}

/// Reads headers, regions and fills, as many as there are, into a section that is made so far.
#[tactic(auto, using(crate::proofs::Folding::folding), unfolding(crate::specs::Tail::tail))]
pub fn tail(cursor: &mut Cursor<'_>, alloc: Global, section: Section) -> Result<Section, Stop>
    ensures { Answers (spec.tail first_grammar section) cursor.old cursor.new result }
{
    let mut whole = section;
    'tail: while !ends_tail(cursor) {
        whole = tail_item(cursor, alloc, whole)?;
    }
    Ok(whole)
}
