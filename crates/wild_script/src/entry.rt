//! Reads the symbol at which a program begins.

ghost use Rattle.wild_reading.specs.Only.{Answers};
ghost use Rattle.wild_script.specs.Entry as spec;

use std::alloc::Global;
use wild_reading::{Cursor, Stop};
use wild_script_tree::Command;

/// Reads what is after ENTRY.
#[tactic(auto, using(wild_reading::proofs::Readers::reading), unfolding(crate::specs::Entry::entry_command))]
pub fn entry_command(cursor: &mut Cursor<'_>, alloc: Global) -> Result<Command, Stop>
    ensures { Answers spec.entry_command cursor.old cursor.new result }
{
    cursor.symbol(b'(')?;
    let start = cursor.name(alloc)?;
    cursor.symbol(b')')?;
    Ok(Command::Entry(start))
}
