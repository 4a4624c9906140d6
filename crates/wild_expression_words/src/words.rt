//! What an expression without operators begins with: a number, a name, or what is before a bracket.

ghost use Rattle.std.specs.Prelude.{◌≡◌, ◌<◌, ◌≤◌, ◌+◌, IfOk, OnOk};
ghost use Rattle.wild_reading.specs.Position.{ahead};
ghost use Rattle.wild_reading.specs.Only.{Answers};
ghost use Rattle.wild_expression_words.specs.Dialect.{first_grammar};
ghost use Rattle.wild_expression_words.specs.Words as spec;

use crate::identifiers::{begins_digit, identifier};
use crate::literal::literal;
use sqlite_items::Boxed;
use std::alloc::Global;
use wild_expression_tree::{Expression, Question};
use wild_names::{Name, NoMemory};
use wild_reading::{Cursor, Stop, is_word};

/// The calls over two expressions.
#[derive(Clone, Copy, Debug, PartialEq, Eq)]
pub enum Extreme {
    Min,
    Max,
}

/// What is before a bracket.
#[derive(Clone, Copy, Debug, PartialEq, Eq)]
pub enum Call {
    /// Nothing.
    Brackets,
    Name(Question),
    Align,
    Pair(Extreme),
    SegmentStart,
    Assert,
}

/// What an expression without operators begins with.
#[derive(Debug, Drop)]
pub enum Head {
    /// All of it.
    Whole(Boxed<Expression>),
    /// What is before its bracket.
    Before(Call),
}

#[tactic(auto, using(wild_reading::proofs::Readers::reading), unfolding(crate::specs::Words::number))]
fn number(cursor: &mut Cursor<'_>, alloc: Global) -> Result<Head, Stop>
    ensures read { Answers (spec.number first_grammar) cursor.old cursor.new result }
    ensures shorter { OnOk result (ahead cursor.new < ahead cursor.old) }
{
    let value = literal(cursor)?;
    cursor.white()?;
    let number = Boxed::new(alloc, Expression::Number(value))?;
    Ok(Head::Whole(number))
}

fn call_of(word: &[u8]) -> Option<Call>
    ensures { result ≡ spec.call_of word.now }
{
    if is_word(word, b"SIZEOF") {
        Some(Call::Name(Question::Sizeof))
    } else if is_word(word, b"ALIGNOF") {
        Some(Call::Name(Question::Alignof))
    } else if is_word(word, b"ADDR") {
        Some(Call::Name(Question::Addr))
    } else if is_word(word, b"LOADADDR") {
        Some(Call::Name(Question::Loadaddr))
    } else if is_word(word, b"ORIGIN") {
        Some(Call::Name(Question::Origin))
    } else if is_word(word, b"LENGTH") {
        Some(Call::Name(Question::Length))
    } else if is_word(word, b"DEFINED") {
        Some(Call::Name(Question::Defined))
    } else if is_word(word, b"ALIGN") {
        Some(Call::Align)
    } else if is_word(word, b"MIN") {
        Some(Call::Pair(Extreme::Min))
    } else if is_word(word, b"MAX") {
        Some(Call::Pair(Extreme::Max))
    } else if is_word(word, b"SEGMENT_START") {
        Some(Call::SegmentStart)
    } else if is_word(word, b"ASSERT") {
        Some(Call::Assert)
    } else {
        None
    }
}

#[tactic(auto, using(wild_reading::proofs::Readers::reading))]
fn known_call(cursor: &Cursor<'_>, found: Option<Call>) -> Result<Head, Stop>
    ensures { Answers (spec.known_call found) cursor.now cursor.now result }
{
    match found {
        Some(call) => Ok(Head::Before(call)),
        None => cursor.nothing(),
    }
}

#[tactic(auto, unfolding(crate::specs::Words::word_call))]
fn word_call(cursor: &Cursor<'_>, word: &[u8]) -> Result<Head, Stop>
    ensures { Answers (spec.word_call word.now) cursor.now cursor.now result }
{
    known_call(cursor, call_of(word))
}

fn name_node(alloc: Global, word: &[u8]) -> Result<Expression, NoMemory>
    ensures { IfOk result (λ x. x ≡ spec.name_node word.now) }
{
    if is_word(word, b"SIZEOF_HEADERS") {
        Ok(Expression::SizeofHeaders)
    } else {
        Ok(Expression::Symbol(Name::new(alloc, word)?))
    }
}

#[tactic(auto, using(wild_reading::proofs::Readers::reading), unfolding(crate::specs::Words::lone_name))]
fn lone_name(cursor: &Cursor<'_>, alloc: Global, word: &[u8]) -> Result<Head, Stop>
    ensures { Answers (spec.lone_name word.now) cursor.now cursor.now result }
{
    let node = name_node(alloc, word)?;
    let name = Boxed::new(alloc, node)?;
    Ok(Head::Whole(name))
}

#[tactic(auto, using(wild_reading::proofs::Readers::choosing), unfolding(crate::specs::Words::name_or_call))]
fn name_or_call(cursor: &Cursor<'_>, alloc: Global, word: &[u8]) -> Result<Head, Stop>
    ensures { Answers (spec.name_or_call word.now) cursor.now cursor.now result }
{
    if cursor.begins(b'(') {
        word_call(cursor, word)
    } else {
        lone_name(cursor, alloc, word)
    }
}

#[tactic(auto, using(wild_reading::proofs::Readers::reading), unfolding(crate::specs::Words::name_tail))]
fn name_tail(cursor: &mut Cursor<'_>, alloc: Global, word: &[u8]) -> Result<Head, Stop>
    ensures { Answers (spec.name_tail first_grammar word.now) cursor.old cursor.new result }
{
    cursor.white()?;
    name_or_call(cursor, alloc, word)
}

#[tactic(auto, using(wild_reading::proofs::Readers::reading), unfolding(crate::specs::Words::counter))]
fn counter(cursor: &mut Cursor<'_>, alloc: Global) -> Result<Head, Stop>
    ensures { Answers (spec.counter first_grammar) cursor.old cursor.new result }
{
    cursor.white()?;
    let counter = Boxed::new(alloc, Expression::LocationCounter)?;
    Ok(Head::Whole(counter))
}

/// Whether a word is the name of the location counter.
#[tactic(auto, unfolding(crate::specs::Words::is_counter))]
pub fn is_counter(word: &[u8]) -> bool
    ensures { result ≡ spec.is_counter word.now }
{
    is_word(word, b".")
}

#[tactic(auto, using(wild_reading::proofs::Readers::choosing), unfolding(crate::specs::Words::word_tail))]
fn word_tail(cursor: &mut Cursor<'_>, alloc: Global, word: &[u8]) -> Result<Head, Stop>
    ensures { Answers (spec.word_tail first_grammar word.now) cursor.old cursor.new result }
{
    if is_counter(word) {
        counter(cursor, alloc)
    } else {
        name_tail(cursor, alloc, word)
    }
}

#[tactic(auto, using(wild_reading::proofs::Readers::reading), unfolding(crate::specs::Words::word))]
fn word(cursor: &mut Cursor<'_>, alloc: Global) -> Result<Head, Stop>
    ensures read { Answers (spec.word first_grammar) cursor.old cursor.new result }
    ensures shorter { OnOk result (ahead cursor.new < ahead cursor.old) }
{
    let word = identifier(cursor)?;
    word_tail(cursor, alloc, word.content())
}

#[tactic(auto, using(wild_reading::proofs::Readers::reading), unfolding(crate::specs::Words::bracket))]
fn bracket(cursor: &Cursor<'_>) -> Result<Head, Stop>
    ensures read { Answers spec.bracket cursor.now cursor.now result }
    ensures none { IfOk result (λ h. spec.byte_count h ≡ 0) }
{
    Ok(Head::Before(Call::Brackets))
}

#[tactic(auto, using(wild_reading::proofs::Readers::choosing), unfolding(crate::specs::Words::number_or_word))]
fn number_or_word(cursor: &mut Cursor<'_>, alloc: Global) -> Result<Head, Stop>
    ensures read { Answers (spec.number_or_word first_grammar) cursor.old cursor.new result }
    ensures shorter { OnOk result (ahead cursor.new < ahead cursor.old) }
{
    if begins_digit(cursor) {
        number(cursor, alloc)
    } else {
        word(cursor, alloc)
    }
}

/// Reads an expression with none inside and the white after it, or what is before the bracket ahead.
#[tactic(auto, using(wild_reading::proofs::Readers::choosing, crate::proofs::Taken::taken), unfolding(crate::specs::Words::head))]
pub fn read_head(cursor: &mut Cursor<'_>, alloc: Global) -> Result<Head, Stop>
    ensures read { Answers (spec.head first_grammar) cursor.old cursor.new result }
    ensures shorter { IfOk result (λ h. ahead cursor.new + spec.byte_count h ≤ ahead cursor.old) }
{
    if cursor.begins(b'(') {
        bracket(cursor)
    } else {
        number_or_word(cursor, alloc)
    }
}
