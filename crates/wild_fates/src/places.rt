//! The places of a script, as one numbered list.

ghost use Rattle.std.specs.Prelude.{◌≡◌, ◌<◌, ◌+◌, ◌-◌, ◌^◌, [], ◌∷◌, ◌++◌, if◌then◌else◌, OnOk, IfOk};
ghost use Rattle.wild_plan_spec.specs.Places.{content_place, next_chunk, contents_places, rest_chunk, section_places, discarding_place, discarding_places, discard_places, inner_places, outer_places, statement_places, next_section, all_places};
ghost use Rattle.wild_plan_spec.specs.Statements.{is_discard};
ghost use Rattle.wild_fates.specs.Orphaned.{orphan_place, orphans_from};
ghost use Rattle.wild_fates.specs.Shown.{shown_places, shown_place, shown_statement, shown_statements};

use crate::statements::{Statement, is_discard};
use sqlite_items::Items;
use std::alloc::Global;
use wild_base::{Name, NoMemory};
use wild_plan_spec::{Chunk, Where};
use wild_script_tree::{
    AssertCommand, Command, ContentsCommand, Expression, Matcher, MemoryRegion, OutputFormat, Phdr,
    ProvideSymbolDefinition, Section, SectionCommand,
};

/// What is evaluated once all places are laid out.
#[derive(Clone, Copy, Debug)]
pub enum Task<'a> {
    /// A symbol becomes the value of the expression.
    Assign(&'a Name, &'a Expression),
    /// The same, where nothing else defines it.
    Provide(&'a ProvideSymbolDefinition),
    /// The location counter becomes that outside of SECTIONS, where it has no effect.
    Locate(&'a Expression),
    /// The condition must hold.
    Check(&'a AssertCommand),
}

/// A place of a script. A section has an Open, the places of its statements, and a Close; any other statement has one.
#[derive(Clone, Copy, Debug)]
pub enum Place<'a> {
    /// The location counter becomes the value of the expression; in the contents of this section its cursor does.
    SetLocation(Option<usize>, &'a Expression),
    /// A task, which waits until all places are laid out.
    Wait(Where, Task<'a>),
    /// The section of this number begins: one of the script, or an orphan.
    Open(usize, Option<&'a Section>),
    /// A matcher, with the rows of the chunk for which it collects; those of `/DISCARD/` collect for none.
    Collect(Option<Chunk>, &'a Matcher),
    /// The rows of the one chunk of an orphan.
    Rows(Chunk),
    /// The rest of the section of this number is placed, where it has a chunk of its own, and the section ends.
    Close(usize, Option<Chunk>),
    /// `/DISCARD/` begins, which does nothing.
    Discard(&'a Section),
    /// `/DISCARD/` ends, or what stands here does nothing.
    Idle,
    /// Memory regions, of which the last MEMORY has those that count.
    Memory(&'a [MemoryRegion]),
    /// Program headers.
    Headers(&'a [Phdr]),
    /// The format of the output.
    Format(&'a OutputFormat),
}

fn push<'a>(places: &mut Items<Place<'a>>, place: Place<'a>) -> Result<(), NoMemory>
    ensures { OnOk result (shown_places places.new ≡ shown_places places.old ++ shown_place place.entry ∷ []) }
{
    places.push(place)?;
    Ok(())
}

// A statement of a section, whose chunk, if it is a matcher, has this number.
fn content_place(section: usize, number: usize, command: &ContentsCommand) -> Place<'_>
    ensures { shown_place result ≡ content_place section number command.now }
{
    let task = match command {
        ContentsCommand::Matcher(matcher) => {
            return Place::Collect(Some(Chunk { section, number }), matcher);
        }
        ContentsCommand::SetLocation(location) => {
            return Place::SetLocation(Some(section), &location.address);
        }
        ContentsCommand::Constructors => return Place::Idle,
        ContentsCommand::SymbolAssignment(assignment) => {
            Task::Assign(&assignment.name, &assignment.expr)
        }
        ContentsCommand::Provide(definition) => Task::Provide(definition),
        ContentsCommand::Assert(command) => Task::Check(command),
    };
    Place::Wait(Where::Inside(section), task)
}

// The number of the next chunk after a statement.
fn next_chunk(number: usize, command: &ContentsCommand) -> usize
    requires { number + 1 < 2 ^ 64 }
    ensures { result ≡ next_chunk number command.now }
{
    match command {
        ContentsCommand::Matcher(_) => number + 1,
        _ => number,
    }
}

fn push_contents<'a>(
    places: &mut Items<Place<'a>>,
    section: usize,
    commands: &'a [ContentsCommand],
) -> Result<(), NoMemory>
    ensures { OnOk result (shown_places places.new ≡ shown_places places.old ++ contents_places section 0 commands.now) }
{
    let mut number = 0;
    for command in commands {
        push(places, content_place(section, number, command))?;
        number = next_chunk(number, command);
    }
    Ok(())
}

// A section without matchers has a chunk of its own for what joins it by name.
fn rest_chunk(section: usize, commands: &[ContentsCommand]) -> Option<Chunk>
    ensures { result ≡ rest_chunk section commands.now }
{
    for command in commands {
        if let ContentsCommand::Matcher(_) = command {
            return None;
        }
    }
    Some(Chunk { section, number: 0 })
}

fn push_section<'a>(
    places: &mut Items<Place<'a>>,
    number: usize,
    section: &'a Section,
) -> Result<(), NoMemory>
    ensures { OnOk result (shown_places places.new ≡ shown_places places.old ++ section_places number section.now) }
{
    push(places, Place::Open(number, Some(section)))?;
    let commands = section.commands.as_slice();
    push_contents(places, number, commands)?;
    push(places, Place::Close(number, rest_chunk(number, commands)))?;
    Ok(())
}

// A statement of `/DISCARD/`, where only matchers may stand.
fn discarding_place(command: &ContentsCommand) -> Place<'_>
    ensures { shown_place result ≡ discarding_place command.now }
{
    match command {
        ContentsCommand::Matcher(matcher) => Place::Collect(None, matcher),
        _ => Place::Idle,
    }
}

fn push_discarding<'a>(
    places: &mut Items<Place<'a>>,
    commands: &'a [ContentsCommand],
) -> Result<(), NoMemory>
    ensures { OnOk result (shown_places places.new ≡ shown_places places.old ++ discarding_places commands.now) }
{
    for command in commands {
        push(places, discarding_place(command))?;
    }
    Ok(())
}

fn push_discard<'a>(places: &mut Items<Place<'a>>, section: &'a Section) -> Result<(), NoMemory>
    ensures { OnOk result (shown_places places.new ≡ shown_places places.old ++ discard_places section.now) }
{
    push(places, Place::Discard(section))?;
    push_discarding(places, section.commands.as_slice())?;
    push(places, Place::Idle)?;
    Ok(())
}

// A section, which has this number unless it is `/DISCARD/`.
fn push_any_section<'a>(
    places: &mut Items<Place<'a>>,
    number: usize,
    section: &'a Section,
) -> Result<(), NoMemory>
    ensures { OnOk result (shown_places places.new ≡ shown_places places.old ++ (if is_discard section.now then discard_places section.now else section_places number section.now)) }
{
    if is_discard(section) {
        push_discard(places, section)
    } else {
        push_section(places, number, section)
    }
}

fn push_inner<'a>(
    places: &mut Items<Place<'a>>,
    number: usize,
    command: &'a SectionCommand,
) -> Result<(), NoMemory>
    ensures { OnOk result (shown_places places.new ≡ shown_places places.old ++ inner_places number command.now) }
{
    let task = match command {
        SectionCommand::Section(section) => {
            return push_any_section(places, number, section.get());
        }
        SectionCommand::SetLocation(location) => {
            return push(places, Place::SetLocation(None, &location.address));
        }
        SectionCommand::SymbolAssignment(assignment) => {
            Task::Assign(&assignment.name, &assignment.expr)
        }
        SectionCommand::Provide(definition) => Task::Provide(definition),
        SectionCommand::Assert(command) => Task::Check(command),
    };
    push(places, Place::Wait(Where::Between, task))
}

fn push_outer<'a>(
    places: &mut Items<Place<'a>>,
    sections: usize,
    command: &'a Command,
) -> Result<(), NoMemory>
    ensures { OnOk result (shown_places places.new ≡ shown_places places.old ++ outer_places sections command.now) }
{
    let task = match command {
        Command::SymbolDefinition { name, value } => Task::Assign(name, value),
        Command::SetLocation(location) => Task::Locate(&location.address),
        Command::Provide(definition) => Task::Provide(definition),
        Command::Assert(command) => Task::Check(command),
        Command::Arg(_)
        | Command::Group(_)
        | Command::AsNeeded(_)
        | Command::Ignored
        | Command::Entry(_)
        | Command::Version(_) => return push(places, Place::Idle),
        Command::Memory(regions) => return push(places, Place::Memory(regions.as_slice())),
        Command::Phdrs(headers) => return push(places, Place::Headers(headers.as_slice())),
        Command::OutputFormat(format) => return push(places, Place::Format(format)),
        Command::Sections(_) => return Ok(()),
    };
    push(places, Place::Wait(Where::Outermost(sections), task))
}

fn push_statement<'a>(
    places: &mut Items<Place<'a>>,
    number: usize,
    statement: &Statement<'a>,
) -> Result<(), NoMemory>
    ensures { OnOk result (shown_places places.new ≡ shown_places places.old ++ statement_places number (shown_statement statement.now)) }
{
    match *statement {
        Statement::Inner(command) => push_inner(places, number, command),
        Statement::Outer(command) => push_outer(places, number, command),
    }
}

// The number of the next section after a statement.
fn next_section(number: usize, statement: &Statement<'_>) -> usize
    requires { number + 1 < 2 ^ 64 }
    ensures { result ≡ next_section number (shown_statement statement.now) }
{
    match *statement {
        Statement::Inner(SectionCommand::Section(section)) if !is_discard(section.get()) => {
            number + 1
        }
        _ => number,
    }
}

/// The places of these statements, whose sections are numbered in order from 0. Fails where memory runs out.
pub fn find_places<'a>(
    alloc: Global,
    statements: &[Statement<'a>],
) -> Result<Items<Place<'a>>, NoMemory>
    ensures { IfOk result (λ places. shown_places places ≡ all_places 0 (shown_statements statements.now)) }
{
    let mut places = Items::new(alloc);
    let mut number = 0;
    for statement in statements {
        push_statement(&mut places, number, statement)?;
        number = next_section(number, statement);
    }
    Ok(places)
}

// A section with one chunk.
fn push_orphan(places: &mut Items<Place<'_>>, section: usize) -> Result<(), NoMemory>
    ensures { OnOk result (shown_places places.new ≡ shown_places places.old ++ orphan_place section) }
{
    push(places, Place::Open(section, None))?;
    push(places, Place::Rows(Chunk { section, number: 0 }))?;
    push(places, Place::Close(section, None))?;
    Ok(())
}

/// Puts orphan sections with the numbers from `first` up to `count` after the others. Fails where memory runs out.
pub fn push_orphans(
    places: &mut Items<Place<'_>>,
    first: usize,
    count: usize,
) -> Result<(), NoMemory>
    ensures { OnOk result (shown_places places.new ≡ shown_places places.old ++ orphans_from first (count - first)) }
{
    for section in first..count {
        push_orphan(places, section)?;
    }
    Ok(())
}
