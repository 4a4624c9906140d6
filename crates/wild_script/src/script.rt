//! Reads scripts of commands.

ghost use Rattle.wild_reading.specs.Only.{Answers};
ghost use Rattle.wild_expression_words.specs.Dialect.{first_grammar};
ghost use Rattle.wild_script.specs.Tree as spec;

use crate::nesting::command;
use crate::tree::LinkerScript;
use sqlite_items::Items;
use std::alloc::Global;
use wild_reading::{Cursor, Stop};
use wild_script_tree::Command;

#[tactic(auto, using(wild_reading::proofs::Readers::repeating), unfolding(crate::specs::Tree::commands))]
fn commands(cursor: &mut Cursor<'_>, alloc: Global) -> Result<Items<Command>, Stop>
    ensures { Answers (spec.commands first_grammar) cursor.old cursor.new result }
{
    let mut all = Items::new(alloc);
    'commands: while !cursor.is_end() {
        let command = command(cursor, alloc)?;
        all.push(command)?;
    }
    Ok(all)
}

/// Reads commands to the end of the bytes.
#[tactic(auto, using(wild_reading::proofs::Readers::reading), unfolding(crate::specs::Tree::script))]
pub fn script(cursor: &mut Cursor<'_>, alloc: Global) -> Result<LinkerScript, Stop>
    ensures { Answers (spec.script first_grammar) cursor.old cursor.new result }
{
    cursor.gap()?;
    let commands = commands(cursor, alloc)?;
    Ok(LinkerScript { commands })
}
