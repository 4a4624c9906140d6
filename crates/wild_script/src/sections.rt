//! Reads SECTIONS.

ghost use Rattle.wild_reading.specs.Only.{Answers};
ghost use Rattle.wild_expression_words.specs.Dialect.{first_grammar};
ghost use Rattle.wild_script.specs.Sections as spec;

use std::alloc::Global;
use wild_reading::{Cursor, Stop};
use wild_script_tree::{Command, Sections};
use wild_section_statements::section_statements;

#[tactic(auto, using(wild_reading::proofs::Readers::reading), unfolding(crate::specs::Sections::sections))]
fn sections(cursor: &mut Cursor<'_>, alloc: Global) -> Result<Sections, Stop>
    ensures { Answers (spec.sections first_grammar) cursor.old cursor.new result }
{
    cursor.symbol(b'{')?;
    let commands = section_statements(cursor, alloc)?;
    cursor.symbol(b'}')?;
    Ok(Sections { commands })
}

/// Reads what is after SECTIONS.
#[tactic(auto, using(wild_reading::proofs::Readers::reading), unfolding(crate::specs::Sections::sections_command))]
pub fn sections_command(cursor: &mut Cursor<'_>, alloc: Global) -> Result<Command, Stop>
    ensures { Answers (spec.sections_command first_grammar) cursor.old cursor.new result }
{
    let sections = sections(cursor, alloc)?;
    Ok(Command::Sections(sections))
}
