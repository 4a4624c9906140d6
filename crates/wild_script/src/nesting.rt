//! Reads commands, of which some are in the brackets of others.

ghost use Rattle.std.specs.Prelude.{◌≡◌, ◌<◌, OnOk};
ghost use Rattle.wild_reading.specs.Only.{Answers};
ghost use Rattle.wild_reading.specs.Position.{ahead, IsMarked};
ghost use Rattle.wild_expression_words.specs.Dialect.{first_grammar};
ghost use Rattle.wild_script.specs.Nest as spec;

use crate::entry::entry_command;
use crate::format::format_command;
use crate::memory::memory_command;
use crate::outermost::{assert_command, named_command, provide_command};
use crate::phdrs::phdrs_command;
use crate::sections::sections_command;
use crate::version::version_command;
use crate::words::{CommandWord, Nest, command_word};
use sqlite_items::Items;
use std::alloc::Global;
use wild_reading::{Cursor, Stop};
use wild_script_tree::Command;

fn nest_node(kind: Nest, commands: Items<Command>) -> Command
    ensures { result ≡ spec.nest_node kind commands }
{
    match kind {
        Nest::Group => Command::Group(commands),
        Nest::AsNeeded => Command::AsNeeded(commands),
        Nest::Ignored => Command::Ignored,
    }
}

// Commands up to a bracket, one deeper.
#[cycle(nests)]
fn inner_list(cursor: &mut Cursor<'_>, alloc: Global) -> Result<Items<Command>, Stop>
    requires { IsMarked cursor.old }
    ensures { Answers (spec.inner_list first_grammar) cursor.old cursor.new result }
{
    cursor.enter()?;
    let commands = list(cursor, alloc)?;
    cursor.leave();
    Ok(commands)
}

#[cycle(nests)]
#[tactic(auto, using(wild_reading::proofs::Readers::repeating), unfolding(crate::specs::Nest::list, crate::specs::Nest::list_of, crate::specs::Nest::command))]
fn list(cursor: &mut Cursor<'_>, alloc: Global) -> Result<Items<Command>, Stop>
    ensures { Answers (spec.list first_grammar) cursor.old cursor.new result }
{
    let mut all = Items::new(alloc);
    'commands: while !cursor.begins(b')') {
        let item = command(cursor, alloc)?;
        all.push(item)?;
    }
    Ok(all)
}

#[cycle(nests)]
#[tactic(auto, using(wild_reading::proofs::Readers::reading), unfolding(crate::specs::Nest::nest, crate::specs::Nest::nest_of))]
fn nest(cursor: &mut Cursor<'_>, alloc: Global, kind: Nest) -> Result<Command, Stop>
    ensures { Answers (spec.nest first_grammar kind) cursor.old cursor.new result }
{
    cursor.symbol(b'(')?;
    let commands = inner_list(cursor, alloc)?;
    cursor.symbol(b')')?;
    Ok(nest_node(kind, commands))
}

#[cycle(nests)]
#[tactic(auto, unfolding(crate::specs::Nest::word_command, crate::specs::Nest::nest))]
fn word_command(cursor: &mut Cursor<'_>, alloc: Global, word: CommandWord) -> Result<Command, Stop>
    ensures { Answers (spec.word_command first_grammar word) cursor.old cursor.new result }
{
    match word {
        CommandWord::Nest(kind) => nest(cursor, alloc, kind),
        CommandWord::OutputFormat => format_command(cursor, alloc),
        CommandWord::Sections => sections_command(cursor, alloc),
        CommandWord::Entry => entry_command(cursor, alloc),
        CommandWord::Version => version_command(cursor, alloc),
        CommandWord::Provide => provide_command(cursor, alloc, false),
        CommandWord::ProvideHidden => provide_command(cursor, alloc, true),
        CommandWord::Assert => assert_command(cursor, alloc),
        CommandWord::Memory => memory_command(cursor, alloc),
        CommandWord::Phdrs => phdrs_command(cursor, alloc),
    }
}

#[cycle(nests)]
#[tactic(auto, unfolding(crate::specs::Nest::after_word, crate::specs::Nest::after_word_of, crate::specs::Nest::word_command))]
fn after_word(cursor: &mut Cursor<'_>, alloc: Global, name: &[u8]) -> Result<Command, Stop>
    ensures { Answers (spec.after_word first_grammar name.now) cursor.old cursor.new result }
{
    match command_word(name) {
        None => named_command(cursor, alloc, name),
        Some(word) => word_command(cursor, alloc, word),
    }
}

/// Reads a command.
#[cycle(nests)]
#[tactic(auto, using(wild_reading::proofs::Readers::reading), unfolding(crate::specs::Nest::command, crate::specs::Nest::command_of, crate::specs::Nest::after_word))]
pub fn command(cursor: &mut Cursor<'_>, alloc: Global) -> Result<Command, Stop>
    ensures read { Answers (spec.command first_grammar) cursor.old cursor.new result }
    ensures shorter { OnOk result (ahead cursor.new < ahead cursor.old) }
{
    let first = cursor.word()?;
    after_word(cursor, alloc, first.content())
}
