//! Reads symbols that are defined where nothing else defines them.

ghost use Rattle.std.specs.Prelude.{◌<◌, OnOk};
ghost use Rattle.wild_reading.specs.Only.{Answers};
ghost use Rattle.wild_reading.specs.Position.{ahead};
ghost use Rattle.wild_expression_words.specs.Dialect.{first_grammar};
ghost use Rattle.wild_statements.specs.Provide as spec;

use std::alloc::Global;
use wild_expression::expression;
use wild_reading::{Cursor, Stop};
use wild_script_tree::ProvideSymbolDefinition;

/// Reads what is after PROVIDE or PROVIDE_HIDDEN.
#[tactic(auto, using(wild_reading::proofs::Readers::reading), unfolding(crate::specs::Provide::provide_body))]
pub fn provide_body(
    cursor: &mut Cursor<'_>,
    alloc: Global,
    hidden: bool,
) -> Result<ProvideSymbolDefinition, Stop>
    ensures read { Answers (spec.provide_body first_grammar hidden) cursor.old cursor.new result }
    ensures shorter { OnOk result (ahead cursor.new < ahead cursor.old) }
{
    cursor.symbol(b'(')?;
    let name = cursor.name(alloc)?;
    cursor.symbol(b'=')?;
    let value = expression(cursor, alloc)?;
    cursor.gap()?;
    cursor.symbol(b')')?;
    cursor.optional_symbol(b';')?;
    Ok(ProvideSymbolDefinition {
        name,
        value: value.into_inner(),
        hidden,
    })
}
