//! Reads the clauses between the colon and the brace of a section.

ghost use Rattle.std.specs.Prelude.{◌≡◌, ◌<◌, OnOk};
ghost use Rattle.wild_reading.specs.Only.{Answers};
ghost use Rattle.wild_reading.specs.Position.{ahead};
ghost use Rattle.wild_expression_words.specs.Dialect.{first_grammar};
ghost use Rattle.wild_section_statements.specs.Clauses as spec;

use sqlite_items::Boxed;
use std::alloc::Global;
use wild_expression::{Expression, expression};
use wild_reading::{Cursor, Stop};
use wild_script_tree::Section;

#[tactic(auto, using(wild_reading::proofs::Readers::reading), unfolding(crate::specs::Clauses::in_brackets))]
fn in_brackets(cursor: &mut Cursor<'_>, alloc: Global) -> Result<Boxed<Expression>, Stop>
    ensures read { Answers (spec.in_brackets first_grammar) cursor.old cursor.new result }
    ensures shorter { OnOk result (ahead cursor.new < ahead cursor.old) }
{
    cursor.symbol(b'(')?;
    let value = expression(cursor, alloc)?;
    cursor.gap()?;
    cursor.symbol(b')')?;
    Ok(value)
}

#[tactic(auto, using(wild_reading::proofs::Readers::reading), unfolding(crate::specs::Clauses::at_clause))]
fn at_clause(cursor: &mut Cursor<'_>, alloc: Global, mut section: Section) -> Result<Section, Stop>
    ensures read { Answers (spec.at_clause first_grammar section) cursor.old cursor.new result }
    ensures shorter { OnOk result (ahead cursor.new < ahead cursor.old) }
{
    cursor.keyword(b"AT")?;
    let address = in_brackets(cursor, alloc)?;
    section.at_address = Some(address.into_inner());
    Ok(section)
}

#[tactic(auto, using(wild_reading::proofs::Readers::reading), unfolding(crate::specs::Clauses::align_clause))]
fn align_clause(
    cursor: &mut Cursor<'_>,
    alloc: Global,
    mut section: Section,
) -> Result<Section, Stop>
    ensures read { Answers (spec.align_clause first_grammar section) cursor.old cursor.new result }
    ensures shorter { OnOk result (ahead cursor.new < ahead cursor.old) }
{
    cursor.keyword(b"ALIGN")?;
    let alignment = in_brackets(cursor, alloc)?;
    section.alignment = Some(alignment.into_inner());
    Ok(section)
}

#[tactic(auto, unfolding(crate::specs::Clauses::begins_at))]
fn begins_at(cursor: &Cursor<'_>) -> bool
    ensures { result ≡ spec.begins_at cursor.now.text.bytes cursor.now.at }
{
    cursor.begins_with(b"AT")
}

#[tactic(auto, using(wild_reading::proofs::Readers::choosing), unfolding(crate::specs::Clauses::clause))]
fn clause(cursor: &mut Cursor<'_>, alloc: Global, section: Section) -> Result<Section, Stop>
    ensures read { Answers (spec.clause first_grammar section) cursor.old cursor.new result }
    ensures shorter { OnOk result (ahead cursor.new < ahead cursor.old) }
{
    if begins_at(cursor) {
        at_clause(cursor, alloc, section)
    } else {
        align_clause(cursor, alloc, section)
    }
}

/// Reads AT and ALIGN up to a brace, into a section that is made so far.
#[tactic(auto, using(crate::proofs::Folding::folding), unfolding(crate::specs::Clauses::clauses))]
pub fn clauses(cursor: &mut Cursor<'_>, alloc: Global, section: Section) -> Result<Section, Stop>
    ensures { Answers (spec.clauses first_grammar section) cursor.old cursor.new result }
{
    let mut whole = section;
    'clauses: while !cursor.begins(b'{') {
        whole = clause(cursor, alloc, whole)?;
    }
    Ok(whole)
}
