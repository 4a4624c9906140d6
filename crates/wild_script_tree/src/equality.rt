//! Equality of commands and statements.

ghost use Rattle.std.specs.Prelude.{◌≡◌};
ghost use Rattle.std.specs.Cmp.{partial_equiv_from_equiv};
ghost use Rattle.wild_script_tree.specs.Equality as spec;
ghost use Rattle.wild_script_tree.specs.declared.tree.Command.{out-Command};

use crate::tree::{Command, Section, SectionCommand, Sections};

fn same_head(left: &Section, right: &Section) -> bool
    ensures { result ≡ spec.same_head left.now right.now }
{
    left.output_section_name == right.output_section_name
        && left.start_address_expression == right.start_address_expression
        && left.attributes == right.attributes
        && left.at_address == right.at_address
        && left.alignment == right.alignment
}

fn same_tail(left: &Section, right: &Section) -> bool
    ensures { result ≡ spec.same_tail left.now right.now }
{
    left.region == right.region
        && left.phdrs.as_slice() == right.phdrs.as_slice()
        && left.fill == right.fill
}

impl PartialEq for Section {
    ghost eq = { spec.same_section };

    ghost laws = { partial_equiv_from_equiv spec.same_section_equiv };

    fn eq(&self, other: &Section) -> bool {
        same_head(self, other)
            && self.commands.as_slice() == other.commands.as_slice()
            && same_tail(self, other)
    }
}

impl Eq for Section {
    ghost laws = { spec.same_section_equiv };
}

impl PartialEq for SectionCommand {
    ghost eq = { spec.same_statement };

    ghost laws = { partial_equiv_from_equiv spec.same_statement_equiv };

    fn eq(&self, other: &SectionCommand) -> bool {
        match (self, other) {
            (SectionCommand::Section(x), SectionCommand::Section(y)) => x.get() == y.get(),
            (SectionCommand::SetLocation(x), SectionCommand::SetLocation(y)) => x == y,
            (SectionCommand::Assert(x), SectionCommand::Assert(y)) => x == y,
            (SectionCommand::Provide(x), SectionCommand::Provide(y)) => x == y,
            (SectionCommand::SymbolAssignment(x), SectionCommand::SymbolAssignment(y)) => x == y,
            _ => false,
        }
    }
}

impl Eq for SectionCommand {
    ghost laws = { spec.same_statement_equiv };
}

impl PartialEq for Sections {
    ghost eq = { spec.same_sections };

    ghost laws = { partial_equiv_from_equiv spec.same_sections_equiv };

    fn eq(&self, other: &Sections) -> bool {
        self.commands.as_slice() == other.commands.as_slice()
    }
}

impl Eq for Sections {
    ghost laws = { spec.same_sections_equiv };
}

// Of one kind, but for the commands that they hold.
fn same_level(left: &Command, right: &Command) -> bool
    ensures { result ≡ spec.same_level (out-Command left.now) (out-Command right.now) }
{
    match (left, right) {
        (Command::Arg(x), Command::Arg(y)) => x == y,
        (Command::Group(_), Command::Group(_)) => true,
        (Command::AsNeeded(_), Command::AsNeeded(_)) => true,
        (Command::Ignored, Command::Ignored) => true,
        (Command::Sections(x), Command::Sections(y)) => x == y,
        (Command::Entry(x), Command::Entry(y)) => x == y,
        (Command::Version(x), Command::Version(y)) => x == y,
        (
            Command::SymbolDefinition { name: n, value: x },
            Command::SymbolDefinition { name: m, value: y },
        ) => n == m && x == y,
        (Command::SetLocation(x), Command::SetLocation(y)) => x == y,
        (Command::Provide(x), Command::Provide(y)) => x == y,
        (Command::Assert(x), Command::Assert(y)) => x == y,
        (Command::Memory(x), Command::Memory(y)) => x.as_slice() == y.as_slice(),
        (Command::Phdrs(x), Command::Phdrs(y)) => x.as_slice() == y.as_slice(),
        (Command::OutputFormat(x), Command::OutputFormat(y)) => x == y,
        _ => false,
    }
}

// The commands that it holds.
fn held(command: &Command) -> &[Command]
    ensures { result.now ≡ spec.held (out-Command command.now) }
{
    match command {
        Command::Group(all) | Command::AsNeeded(all) => all.as_slice(),
        _ => {
            let none: &[Command] = &[];
            none
        }
    }
}

#[cycle(equality)]
#[tactic(auto, using(crate::proofs::Levels::same_levels))]
fn same_command(left: &Command, right: &Command) -> bool
    ensures { result ≡ spec.same_command left.now right.now }
{
    same_level(left, right) && same_commands(held(left), held(right))
}

/// Whether two lists of commands are equal, in order.
#[cycle(equality)]
pub fn same_commands(left: &[Command], right: &[Command]) -> bool
    ensures { result ≡ spec.same_commands left.now right.now }
{
    if left.len() != right.len() {
        return false;
    }
    for i in 0..left.len() {
        if !same_command(&left[i], &right[i]) {
            return false;
        }
    }
    true
}

impl PartialEq for Command {
    ghost eq = { spec.same_command };

    ghost laws = { partial_equiv_from_equiv spec.same_command_equiv };

    fn eq(&self, other: &Command) -> bool {
        same_command(self, other)
    }
}

impl Eq for Command {
    ghost laws = { spec.same_command_equiv };
}

/// Two commands are equal where they are but for what they hold, and hold equal commands in order.
#[tactic(auto, using(crate::proofs::Levels::same_levels))]
pub fn equality_goes_by_levels()
    ensures { spec.EqualityGoesByLevels }
{}
