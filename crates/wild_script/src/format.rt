//! Reads output formats.

ghost use Rattle.wild_reading.specs.Only.{Answers};
ghost use Rattle.wild_script.specs.OutputFormat as spec;

use std::alloc::Global;
use wild_names::Name;
use wild_reading::{Cursor, Stop};
use wild_script_tree::{Command, OutputFormat};

#[tactic(auto, using(wild_reading::proofs::Readers::reading), unfolding(crate::specs::OutputFormat::default_alone))]
fn default_alone(cursor: &mut Cursor<'_>, default: Name) -> Result<OutputFormat, Stop>
    ensures { Answers (spec.default_alone default) cursor.old cursor.new result }
{
    cursor.symbol(b')')?;
    Ok(OutputFormat {
        default,
        big: None,
        little: None,
    })
}

#[tactic(auto, using(wild_reading::proofs::Readers::reading), unfolding(crate::specs::OutputFormat::all_three))]
fn all_three(cursor: &mut Cursor<'_>, alloc: Global, default: Name) -> Result<OutputFormat, Stop>
    ensures { Answers (spec.all_three default) cursor.old cursor.new result }
{
    cursor.symbol(b',')?;
    let big = cursor.name(alloc)?;
    cursor.symbol(b',')?;
    let little = cursor.name(alloc)?;
    cursor.symbol(b')')?;
    Ok(OutputFormat {
        default,
        big: Some(big),
        little: Some(little),
    })
}

#[tactic(auto, using(wild_reading::proofs::Readers::choosing), unfolding(crate::specs::OutputFormat::after_default))]
fn after_default(
    cursor: &mut Cursor<'_>,
    alloc: Global,
    default: Name,
) -> Result<OutputFormat, Stop>
    ensures { Answers (spec.after_default default) cursor.old cursor.new result }
{
    if cursor.begins(b',') {
        all_three(cursor, alloc, default)
    } else {
        default_alone(cursor, default)
    }
}

#[tactic(auto, using(wild_reading::proofs::Readers::reading), unfolding(crate::specs::OutputFormat::formats))]
fn formats(cursor: &mut Cursor<'_>, alloc: Global) -> Result<OutputFormat, Stop>
    ensures { Answers spec.formats cursor.old cursor.new result }
{
    cursor.symbol(b'(')?;
    let default = cursor.name(alloc)?;
    after_default(cursor, alloc, default)
}

/// Reads what is after OUTPUT_FORMAT.
#[tactic(auto, using(wild_reading::proofs::Readers::reading), unfolding(crate::specs::OutputFormat::format_command))]
pub fn format_command(cursor: &mut Cursor<'_>, alloc: Global) -> Result<Command, Stop>
    ensures { Answers spec.format_command cursor.old cursor.new result }
{
    let found = formats(cursor, alloc)?;
    Ok(Command::OutputFormat(found))
}
