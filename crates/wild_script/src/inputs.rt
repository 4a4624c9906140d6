//! Shows the inputs that a script names.

ghost use Rattle.std.specs.Prelude.{[], ◌∷◌};
ghost use Rattle.wild_script.specs.Inputs.{Sees, Shows, Shown, arguments, command_arguments, input_of};

use crate::input::{InputFault, InputKind, InputVisitor, Modifiers};
use crate::tree::LinkerScript;
use std::str;
use wild_names::Name;
use wild_script_tree::Command;

// Shows a file, or the library that is named after `-l`.
fn show_text<V: InputVisitor>(text: &str, modifiers: Modifiers, visitor: &mut V) -> bool
    ensures { Sees V.step visitor.old ((input_of (record { name = text.now; modifiers = modifiers }), result) ∷ []) visitor.new }
{
    match text.strip_prefix("-l") {
        Some(library) => visitor.visit(InputKind::Lib, library, modifiers),
        None => visitor.visit(InputKind::File, text, modifiers),
    }
}

// Shows an argument, and counts it.
fn show_argument<V: InputVisitor>(
    name: &Name,
    modifiers: Modifiers,
    index: usize,
    visitor: &mut V,
) -> Result<usize, InputFault>
    ensures { Shows V.step index visitor.old (record { name = name.now; modifiers = modifiers } ∷ []) visitor.new result }
{
    let Ok(text) = str::from_utf8(name.bytes()) else {
        return Err(InputFault::NotUtf8 { index });
    };
    if show_text(text, modifiers, visitor) {
        Ok(index.saturating_add(1))
    } else {
        Err(InputFault::Stopped)
    }
}

#[cycle(inputs)]
fn show_command<V: InputVisitor>(
    command: &Command,
    modifiers: Modifiers,
    index: usize,
    visitor: &mut V,
) -> Result<usize, InputFault>
    ensures { Shows V.step index visitor.old (command_arguments command.now modifiers) visitor.new result }
{
    match command {
        Command::Arg(name) => show_argument(name, modifiers, index, visitor),
        Command::Group(commands) => show_commands(commands.as_slice(), modifiers, index, visitor),
        Command::AsNeeded(commands) => {
            let needed = Modifiers { as_needed: true };
            show_commands(commands.as_slice(), needed, index, visitor)
        }
        _ => Ok(index),
    }
}

#[cycle(inputs)]
fn show_commands<V: InputVisitor>(
    commands: &[Command],
    modifiers: Modifiers,
    first: usize,
    visitor: &mut V,
) -> Result<usize, InputFault>
    ensures { Shows V.step first visitor.old (arguments commands.now modifiers) visitor.new result }
{
    let mut index = first;
    for command in commands {
        index = show_command(command, modifiers, index, visitor)?;
    }
    Ok(index)
}

impl LinkerScript {
    /// Shows the visitor the arguments in text order, also those in GROUP, INPUT and AS_NEEDED, as wanted by the
    /// modifiers or, below AS_NEEDED, only where needed. Fails with `Stopped` where it wants no more, and with
    /// `NotUtf8` at the first argument that is not UTF-8.
    pub fn foreach_input<V: InputVisitor>(
        &self,
        modifiers: Modifiers,
        visitor: &mut V,
    ) -> Result<(), InputFault>
        ensures { Shown V.step visitor.old (arguments self.now.commands modifiers) visitor.new result }
    {
        show_commands(self.commands.as_slice(), modifiers, 0, visitor)?;
        Ok(())
    }
}
