//! Parts of statements that are made of expressions.

ghost use Rattle.std.specs.Prelude.{◌<◌, OnOk};
ghost use Rattle.wild_reading.specs.Position.{ahead};
ghost use Rattle.wild_reading.specs.Only.{Answers};
ghost use Rattle.wild_expression_words.specs.Dialect.{first_grammar};
ghost use Rattle.wild_expression.specs.Parts as spec;

use crate::levels::value;
use sqlite_items::Boxed;
use std::alloc::Global;
use wild_expression_tree::{AssertCommand, Expression};
use wild_expression_words::Level;
use wild_reading::{Cursor, Stop};

/// Reads an expression and the white after it.
#[tactic(auto, using(wild_reading::proofs::Readers::reading), unfolding(crate::specs::Parts::expression, crate::specs::Grammar::value_by, crate::specs::Grammar::value))]
pub fn expression(cursor: &mut Cursor<'_>, alloc: Global) -> Result<Boxed<Expression>, Stop>
    ensures read { Answers (spec.expression first_grammar) cursor.old cursor.new result }
    ensures shorter { OnOk result (ahead cursor.new < ahead cursor.old) }
{
    let x = value(cursor, alloc, Level::Ternary)?;
    Ok(x.expression)
}

/// Reads the brackets of an ASSERT, with its condition and its message, and the gap after them.
#[tactic(auto, using(wild_reading::proofs::Readers::reading), unfolding(crate::specs::Parts::assert_body))]
pub fn assert_body(cursor: &mut Cursor<'_>, alloc: Global) -> Result<AssertCommand, Stop>
    ensures read { Answers (spec.assert_body first_grammar) cursor.old cursor.new result }
    ensures shorter { OnOk result (ahead cursor.new < ahead cursor.old) }
{
    let at = cursor.position();
    cursor.symbol(b'(')?;
    let condition = expression(cursor, alloc)?;
    cursor.gap()?;
    cursor.symbol(b',')?;
    let message = cursor.name(alloc)?;
    cursor.symbol(b')')?;
    Ok(AssertCommand {
        expression: condition,
        message,
        at,
    })
}
