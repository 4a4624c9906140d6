//! Reads what is in output sections.

ghost use Rattle.std.specs.Prelude.{◌<◌, OnOk};
ghost use Rattle.wild_reading.specs.Only.{Answers};
ghost use Rattle.wild_reading.specs.Position.{ahead};
ghost use Rattle.wild_expression_words.specs.Dialect.{first_grammar};
ghost use Rattle.wild_section_statements.specs.Contents as spec;

use crate::words::{ContentsWord, contents_word, is_constructors};
use sqlite_items::Items;
use std::alloc::Global;
use wild_expression::assert_body;
use wild_expression_words::is_counter;
use wild_names::Name;
use wild_patterns::{file_matcher, keep_matcher};
use wild_reading::{Cursor, Grammar, Stop, Token, read_until};
use wild_script_tree::{ContentsCommand, Location, SymbolAssignment};
use wild_statements::{begins_assignment, provide_body, tight_value};

#[tactic(auto, using(wild_reading::proofs::Readers::reading), unfolding(crate::specs::Contents::keep_statement))]
fn keep_statement(cursor: &mut Cursor<'_>, alloc: Global) -> Result<ContentsCommand, Stop>
    ensures { Answers spec.keep_statement cursor.old cursor.new result }
{
    let matcher = keep_matcher(cursor, alloc)?;
    cursor.optional_symbol(b';')?;
    Ok(ContentsCommand::Matcher(matcher))
}

#[tactic(auto, using(wild_reading::proofs::Readers::reading), unfolding(crate::specs::Contents::file_statement))]
fn file_statement(
    cursor: &mut Cursor<'_>,
    alloc: Global,
    file: &[u8],
) -> Result<ContentsCommand, Stop>
    ensures { Answers (spec.file_statement file.now) cursor.old cursor.new result }
{
    let matcher = file_matcher(cursor, alloc, false, file)?;
    cursor.optional_symbol(b';')?;
    Ok(ContentsCommand::Matcher(matcher))
}

#[tactic(auto, using(wild_reading::proofs::Readers::reading), unfolding(crate::specs::Contents::provide_contents))]
fn provide_contents(
    cursor: &mut Cursor<'_>,
    alloc: Global,
    hidden: bool,
) -> Result<ContentsCommand, Stop>
    ensures { Answers (spec.provide_contents first_grammar hidden) cursor.old cursor.new result }
{
    let provide = provide_body(cursor, alloc, hidden)?;
    Ok(ContentsCommand::Provide(provide))
}

#[tactic(auto, using(wild_reading::proofs::Readers::reading), unfolding(crate::specs::Contents::assert_contents))]
fn assert_contents(cursor: &mut Cursor<'_>, alloc: Global) -> Result<ContentsCommand, Stop>
    ensures { Answers (spec.assert_contents first_grammar) cursor.old cursor.new result }
{
    let body = assert_body(cursor, alloc)?;
    cursor.optional_symbol(b';')?;
    Ok(ContentsCommand::Assert(body))
}

fn word_contents(
    cursor: &mut Cursor<'_>,
    alloc: Global,
    word: ContentsWord,
) -> Result<ContentsCommand, Stop>
    ensures { Answers (spec.word_contents first_grammar word) cursor.old cursor.new result }
{
    match word {
        ContentsWord::Provide => provide_contents(cursor, alloc, false),
        ContentsWord::ProvideHidden => provide_contents(cursor, alloc, true),
        ContentsWord::Assert => assert_contents(cursor, alloc),
        ContentsWord::Keep => keep_statement(cursor, alloc),
    }
}

#[tactic(auto, unfolding(crate::specs::Contents::bracket_contents))]
fn bracket_contents(
    cursor: &mut Cursor<'_>,
    alloc: Global,
    first: &Token<'_>,
) -> Result<ContentsCommand, Stop>
    ensures { Answers (spec.bracket_contents first_grammar first.now) cursor.old cursor.new result }
{
    match contents_word(first) {
        None => file_statement(cursor, alloc, first.content()),
        Some(word) => word_contents(cursor, alloc, word),
    }
}

#[tactic(auto, using(wild_reading::proofs::Readers::reading), unfolding(crate::specs::Contents::counter_contents))]
fn counter_contents(
    cursor: &mut Cursor<'_>,
    alloc: Global,
    name: &[u8],
) -> Result<ContentsCommand, Stop>
    ensures { Answers (spec.counter_contents first_grammar name.now) cursor.old cursor.new result }
{
    let value = tight_value(cursor, alloc, name)?;
    Ok(ContentsCommand::SetLocation(Location {
        address: value.into_inner(),
    }))
}

#[tactic(auto, using(wild_reading::proofs::Readers::reading), unfolding(crate::specs::Contents::symbol_contents))]
fn symbol_contents(
    cursor: &mut Cursor<'_>,
    alloc: Global,
    name: &[u8],
) -> Result<ContentsCommand, Stop>
    ensures { Answers (spec.symbol_contents first_grammar name.now) cursor.old cursor.new result }
{
    let value = tight_value(cursor, alloc, name)?;
    let name = Name::new(alloc, name)?;
    Ok(ContentsCommand::SymbolAssignment(SymbolAssignment {
        name,
        expr: value.into_inner(),
    }))
}

#[tactic(auto, using(wild_reading::proofs::Readers::choosing), unfolding(crate::specs::Contents::assigned_contents))]
fn assigned_contents(
    cursor: &mut Cursor<'_>,
    alloc: Global,
    name: &[u8],
) -> Result<ContentsCommand, Stop>
    ensures { Answers (spec.assigned_contents first_grammar name.now) cursor.old cursor.new result }
{
    if is_counter(name) {
        counter_contents(cursor, alloc, name)
    } else {
        symbol_contents(cursor, alloc, name)
    }
}

#[tactic(auto, using(wild_reading::proofs::Readers::reading), unfolding(crate::specs::Contents::constructors))]
fn constructors(cursor: &Cursor<'_>, first: &Token<'_>) -> Result<ContentsCommand, Stop>
    ensures { Answers (spec.constructors first.now) cursor.now cursor.now result }
{
    cursor.check(is_constructors(first))?;
    Ok(ContentsCommand::Constructors)
}

#[tactic(auto, using(wild_reading::proofs::Readers::choosing), unfolding(crate::specs::Contents::bare_contents))]
fn bare_contents(
    cursor: &mut Cursor<'_>,
    alloc: Global,
    first: &Token<'_>,
) -> Result<ContentsCommand, Stop>
    ensures { Answers (spec.bare_contents first_grammar first.now) cursor.old cursor.new result }
{
    if begins_assignment(cursor) {
        assigned_contents(cursor, alloc, first.content())
    } else {
        constructors(cursor, first)
    }
}

#[tactic(auto, using(wild_reading::proofs::Readers::choosing), unfolding(crate::specs::Contents::after_token))]
fn after_token(
    cursor: &mut Cursor<'_>,
    alloc: Global,
    first: &Token<'_>,
) -> Result<ContentsCommand, Stop>
    ensures { Answers (spec.after_token first_grammar first.now) cursor.old cursor.new result }
{
    if cursor.begins(b'(') {
        bracket_contents(cursor, alloc, first)
    } else {
        bare_contents(cursor, alloc, first)
    }
}

#[tactic(auto, using(wild_reading::proofs::Readers::reading), unfolding(crate::specs::Contents::contents_statement))]
fn contents_statement(cursor: &mut Cursor<'_>, alloc: Global) -> Result<ContentsCommand, Stop>
    ensures read { Answers (spec.contents_statement first_grammar) cursor.old cursor.new result }
    ensures shorter { OnOk result (ahead cursor.new < ahead cursor.old) }
{
    let first = cursor.word()?;
    after_token(cursor, alloc, &first)
}

// How a statement is read.
struct ContentsReader;

impl Grammar for ContentsReader {
    type Item = ContentsCommand;

    ghost reads = { spec.contents_statement first_grammar };

    fn read(cursor: &mut Cursor<'_>, alloc: Global) -> Result<ContentsCommand, Stop> {
        contents_statement(cursor, alloc)
    }
}

#[tactic(auto, unfolding(crate::specs::Contents::statements))]
fn statements(cursor: &mut Cursor<'_>, alloc: Global) -> Result<Items<ContentsCommand>, Stop>
    ensures { Answers (spec.statements first_grammar) cursor.old cursor.new result }
{
    read_until::<ContentsReader>(cursor, alloc, b'}')
}

/// Reads statements in braces.
#[tactic(auto, using(wild_reading::proofs::Readers::reading), unfolding(crate::specs::Contents::contents))]
pub fn contents(cursor: &mut Cursor<'_>, alloc: Global) -> Result<Items<ContentsCommand>, Stop>
    ensures { Answers (spec.contents first_grammar) cursor.old cursor.new result }
{
    cursor.symbol(b'{')?;
    let found = statements(cursor, alloc)?;
    cursor.symbol(b'}')?;
    Ok(found)
}
