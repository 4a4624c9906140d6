//! Reads outermost commands that hold no others.

ghost use Rattle.wild_reading.specs.Only.{Answers};
ghost use Rattle.wild_expression_words.specs.Dialect.{first_grammar};
ghost use Rattle.wild_script.specs.Outermost as spec;

use std::alloc::Global;
use wild_expression::assert_body;
use wild_expression_words::is_counter;
use wild_names::Name;
use wild_reading::{Cursor, Stop};
use wild_script_tree::{Command, Location};
use wild_statements::{begins_assignment, open_value, provide_body};

/// Reads what is after ASSERT.
#[tactic(auto, using(wild_reading::proofs::Readers::reading), unfolding(crate::specs::Outermost::assert_command))]
pub fn assert_command(cursor: &mut Cursor<'_>, alloc: Global) -> Result<Command, Stop>
    ensures { Answers (spec.assert_command first_grammar) cursor.old cursor.new result }
{
    let body = assert_body(cursor, alloc)?;
    cursor.optional_symbol(b';')?;
    Ok(Command::Assert(body))
}

/// Reads what is after PROVIDE or PROVIDE_HIDDEN.
#[tactic(auto, using(wild_reading::proofs::Readers::reading), unfolding(crate::specs::Outermost::provide_command))]
pub fn provide_command(
    cursor: &mut Cursor<'_>,
    alloc: Global,
    hidden: bool,
) -> Result<Command, Stop>
    ensures { Answers (spec.provide_command first_grammar hidden) cursor.old cursor.new result }
{
    let provide = provide_body(cursor, alloc, hidden)?;
    Ok(Command::Provide(provide))
}

#[tactic(auto, using(wild_reading::proofs::Readers::reading), unfolding(crate::specs::Outermost::location_command))]
fn location_command(cursor: &mut Cursor<'_>, alloc: Global, name: &[u8]) -> Result<Command, Stop>
    ensures { Answers (spec.location_command first_grammar name.now) cursor.old cursor.new result }
{
    let value = open_value(cursor, alloc, name)?;
    Ok(Command::SetLocation(Location {
        address: value.into_inner(),
    }))
}

#[tactic(auto, using(wild_reading::proofs::Readers::reading), unfolding(crate::specs::Outermost::symbol_definition))]
fn symbol_definition(cursor: &mut Cursor<'_>, alloc: Global, name: &[u8]) -> Result<Command, Stop>
    ensures { Answers (spec.symbol_definition first_grammar name.now) cursor.old cursor.new result }
{
    let value = open_value(cursor, alloc, name)?;
    let name = Name::new(alloc, name)?;
    Ok(Command::SymbolDefinition {
        name,
        value: value.into_inner(),
    })
}

#[tactic(auto, using(wild_reading::proofs::Readers::choosing), unfolding(crate::specs::Outermost::assignment_command))]
fn assignment_command(cursor: &mut Cursor<'_>, alloc: Global, name: &[u8]) -> Result<Command, Stop>
    ensures { Answers (spec.assignment_command first_grammar name.now) cursor.old cursor.new result }
{
    if is_counter(name) {
        location_command(cursor, alloc, name)
    } else {
        symbol_definition(cursor, alloc, name)
    }
}

#[tactic(auto, using(wild_reading::proofs::Readers::reading), unfolding(crate::specs::Outermost::argument))]
fn argument(cursor: &Cursor<'_>, alloc: Global, name: &[u8]) -> Result<Command, Stop>
    ensures { Answers (spec.argument name.now) cursor.now cursor.now result }
{
    let name = Name::new(alloc, name)?;
    Ok(Command::Arg(name))
}

/// Reads what is after a name.
#[tactic(auto, using(wild_reading::proofs::Readers::choosing), unfolding(crate::specs::Outermost::named_command))]
pub fn named_command(cursor: &mut Cursor<'_>, alloc: Global, name: &[u8]) -> Result<Command, Stop>
    ensures { Answers (spec.named_command first_grammar name.now) cursor.old cursor.new result }
{
    if begins_assignment(cursor) {
        assignment_command(cursor, alloc, name)
    } else {
        argument(cursor, alloc, name)
    }
}
