//! The statements of a script, as one list, and its sections.

ghost use Rattle.std.specs.Prelude.{◌≡◌, [], ◌∷◌, ◌++◌, OnOk, IfOk};
ghost use Rattle.wild_plan_spec.specs.Statements.{is_discard, inner_statements, command_statements, statements_of, sections_in, statement_sections};
ghost use Rattle.wild_fates.specs.Targets.{targets};
ghost use Rattle.wild_fates.specs.Shown.{shown_statement, shown_statements};

use sqlite_items::Items;
use std::alloc::Global;
use wild_base::NoMemory;
use wild_script_tree::{Command, Section, SectionCommand};

/// A statement of a script.
#[derive(Clone, Copy, Debug)]
pub enum Statement<'a> {
    /// In SECTIONS.
    Inner(&'a SectionCommand),
    /// An outermost command other than SECTIONS.
    Outer(&'a Command),
}

fn push<'a>(statements: &mut Items<Statement<'a>>, statement: Statement<'a>) -> Result<(), NoMemory>
    ensures { OnOk result (shown_statements statements.new ≡ shown_statements statements.old ++ shown_statement statement.entry ∷ []) }
{
    statements.push(statement)?;
    Ok(())
}

fn push_inner<'a>(
    statements: &mut Items<Statement<'a>>,
    commands: &'a [SectionCommand],
) -> Result<(), NoMemory>
    ensures { OnOk result (shown_statements statements.new ≡ shown_statements statements.old ++ inner_statements commands.now) }
{
    for command in commands {
        push(statements, Statement::Inner(command))?;
    }
    Ok(())
}

fn push_command<'a>(
    statements: &mut Items<Statement<'a>>,
    command: &'a Command,
) -> Result<(), NoMemory>
    ensures { OnOk result (shown_statements statements.new ≡ shown_statements statements.old ++ command_statements command.now) }
{
    match command {
        Command::Sections(sections) => push_inner(statements, sections.commands.as_slice()),
        _ => push(statements, Statement::Outer(command)),
    }
}

/// The statements of a script in text order, whichever SECTIONS they stand in. Fails where memory runs out.
pub fn find_statements(
    alloc: Global,
    commands: &[Command],
) -> Result<Items<Statement<'_>>, NoMemory>
    ensures { IfOk result (λ statements. shown_statements statements ≡ statements_of commands.now) }
{
    let mut statements = Items::new(alloc);
    for command in commands {
        push_command(&mut statements, command)?;
    }
    Ok(statements)
}

/// Whether it is `/DISCARD/`, which is no section of the output.
#[tactic(auto, unfolding(wild_plan_spec::specs::Statements::is_discard))]
pub fn is_discard(section: &Section) -> bool
    ensures { result ≡ is_discard section.now }
{
    section.output_section_name.bytes() == b"/DISCARD/".as_slice()
}

// Puts the section that a statement is after the others, if it is one.
fn push_section<'a>(
    sections: &mut Items<&'a Section>,
    statement: &Statement<'a>,
) -> Result<(), NoMemory>
    ensures { OnOk result (targets sections.new ≡ targets sections.old ++ sections_in (shown_statement statement.now)) }
{
    match *statement {
        Statement::Inner(SectionCommand::Section(section)) if !is_discard(section.get()) => {
            Ok(sections.push(section.get())?)
        }
        _ => Ok(()),
    }
}

/// The sections among these statements. Fails where memory runs out.
pub fn find_sections<'a>(
    alloc: Global,
    statements: &[Statement<'a>],
) -> Result<Items<&'a Section>, NoMemory>
    ensures { IfOk result (λ sections. targets sections ≡ statement_sections (shown_statements statements.now)) }
{
    let mut sections = Items::new(alloc);
    for statement in statements {
        push_section(&mut sections, statement)?;
    }
    Ok(sections)
}
