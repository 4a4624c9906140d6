//! Reads patterns of names of input sections.

ghost use Rattle.std.specs.Prelude.{◌≡◌, ◌≤◌, ◌<◌, ◌+◌, length, IfSome, OnOk};
ghost use Rattle.wild_reading.specs.Only.{Answers};
ghost use Rattle.wild_reading.specs.Position.{ahead};
ghost use Rattle.wild_reading.specs.Lex as lexis;
ghost use Rattle.wild_reading.specs.Reader.{Passes};
ghost use Rattle.wild_patterns.specs.Pattern as spec;

use sqlite_items::Items;
use std::alloc::Global;
use wild_names::Name;
use wild_reading::{Class, Cursor, Grammar, Stop, begins_with, read_until};
use wild_script_tree::SectionPattern;

// The position after the sort word at a position.
#[tactic(auto, unfolding(wild_reading::specs::Lex::after_sort_word))]
fn after_sort_word(bytes: &[u8], at: usize) -> Option<usize>
    requires { at ≤ length bytes.now }
    ensures value { result ≡ lexis.after_sort_word bytes.now at }
    ensures within { IfSome result (λ end. (at < end) × (end ≤ length bytes.now)) }
{
    if begins_with(bytes, at, b"SORT_BY_NAME") {
        Some(at + 12)
    } else if begins_with(bytes, at, b"SORT_BY_ALIGNMENT") {
        Some(at + 17)
    } else if begins_with(bytes, at, b"SORT") {
        Some(at + 4)
    } else {
        None
    }
}

#[tactic(auto, unfolding(crate::specs::Pattern::begins_sort))]
fn begins_sort(cursor: &Cursor<'_>) -> bool
    ensures { result ≡ spec.begins_sort cursor.now.text.bytes cursor.now.at }
{
    begins_with(cursor.bytes(), cursor.position(), b"SORT")
}

#[tactic(auto, unfolding(crate::specs::Pattern::begins_alignment))]
fn begins_alignment(cursor: &Cursor<'_>) -> bool
    ensures { result ≡ spec.begins_alignment cursor.now.text.bytes cursor.now.at }
{
    begins_with(cursor.bytes(), cursor.position(), b"SORT_BY_ALIGNMENT")
}

#[tactic(auto, using(wild_reading::proofs::Readers::leaves, wild_reading::proofs::Leaves::moves))]
fn sort_word(cursor: &mut Cursor<'_>) -> Result<(), Stop>
    ensures read { Answers (Passes lexis.after_sort_word) cursor.old cursor.new result }
    ensures shorter { OnOk result (ahead cursor.new < ahead cursor.old) }
{
    let at = cursor.position();
    match after_sort_word(cursor.bytes(), at) {
        Some(end) => {
            cursor.pass_to(end);
            Ok(())
        }
        None => Err(Stop::Syntax { position: at }),
    }
}

#[tactic(auto, using(wild_reading::proofs::Readers::reading), unfolding(wild_reading::specs::Lex::sort_bracket))]
fn sort_bracket(cursor: &mut Cursor<'_>) -> Result<(), Stop>
    ensures read { Answers lexis.sort_bracket cursor.old cursor.new result }
    ensures shorter { OnOk result (ahead cursor.new < ahead cursor.old) }
{
    sort_word(cursor)?;
    cursor.gap()?;
    cursor.byte(b'(')?;
    Ok(())
}

// A sort word and its bracket, with no other sort word directly after it.
#[tactic(auto, using(crate::proofs::Sorts::opening))]
fn sort_open(cursor: &mut Cursor<'_>) -> Result<(), Stop>
    ensures read { Answers spec.sort_open cursor.old cursor.new result }
    ensures shorter { OnOk result (ahead cursor.new < ahead cursor.old) }
{
    sort_bracket(cursor)?;
    let nested = begins_sort(cursor);
    if nested {
        return Err(Stop::NestedSort {
            position: cursor.position(),
        });
    }
    Ok(())
}

// A name between gaps.
#[tactic(auto, using(wild_reading::proofs::Readers::reading), unfolding(crate::specs::Pattern::pattern_name))]
fn pattern_name(cursor: &mut Cursor<'_>, alloc: Global) -> Result<Name, Stop>
    ensures read { Answers spec.pattern_name cursor.old cursor.new result }
    ensures shorter { OnOk result (ahead cursor.new < ahead cursor.old) }
{
    cursor.gap()?;
    let word = cursor.run(Class::Pattern)?;
    cursor.gap()?;
    let name = Name::new(alloc, word.content())?;
    Ok(name)
}

#[tactic(auto, using(wild_reading::proofs::Readers::reading), unfolding(crate::specs::Pattern::bare_pattern))]
fn bare_pattern(cursor: &mut Cursor<'_>, alloc: Global) -> Result<SectionPattern, Stop>
    ensures read { Answers spec.bare_pattern cursor.old cursor.new result }
    ensures shorter { OnOk result (ahead cursor.new < ahead cursor.old) }
{
    let name = pattern_name(cursor, alloc)?;
    Ok(SectionPattern {
        name,
        sorted: false,
    })
}

#[tactic(auto, using(wild_reading::proofs::Readers::reading), unfolding(crate::specs::Pattern::sort_pattern))]
fn sort_pattern(
    cursor: &mut Cursor<'_>,
    alloc: Global,
    sorted: bool,
) -> Result<SectionPattern, Stop>
    ensures read { Answers (spec.sort_pattern sorted) cursor.old cursor.new result }
    ensures shorter { OnOk result (ahead cursor.new < ahead cursor.old) }
{
    sort_open(cursor)?;
    let name = pattern_name(cursor, alloc)?;
    cursor.symbol(b')')?;
    Ok(SectionPattern { name, sorted })
}

#[tactic(auto, using(wild_reading::proofs::Readers::choosing), unfolding(crate::specs::Pattern::word_pattern))]
fn word_pattern(cursor: &mut Cursor<'_>, alloc: Global) -> Result<SectionPattern, Stop>
    ensures read { Answers spec.word_pattern cursor.old cursor.new result }
    ensures shorter { OnOk result (ahead cursor.new < ahead cursor.old) }
{
    if begins_alignment(cursor) {
        sort_pattern(cursor, alloc, false)
    } else {
        sort_pattern(cursor, alloc, true)
    }
}

#[tactic(auto, using(wild_reading::proofs::Readers::choosing), unfolding(crate::specs::Pattern::pattern))]
fn pattern(cursor: &mut Cursor<'_>, alloc: Global) -> Result<SectionPattern, Stop>
    ensures read { Answers spec.pattern cursor.old cursor.new result }
    ensures shorter { OnOk result (ahead cursor.new < ahead cursor.old) }
{
    if begins_sort(cursor) {
        word_pattern(cursor, alloc)
    } else {
        bare_pattern(cursor, alloc)
    }
}

// How a pattern is read.
struct PatternReader;

impl Grammar for PatternReader {
    type Item = SectionPattern;

    ghost reads = { spec.pattern };

    fn read(cursor: &mut Cursor<'_>, alloc: Global) -> Result<SectionPattern, Stop> {
        pattern(cursor, alloc)
    }
}

#[tactic(auto, unfolding(crate::specs::Pattern::patterns))]
fn patterns(cursor: &mut Cursor<'_>, alloc: Global) -> Result<Items<SectionPattern>, Stop>
    ensures { Answers spec.patterns cursor.old cursor.new result }
{
    read_until::<PatternReader>(cursor, alloc, b')')
}

/// Reads patterns in brackets.
#[tactic(auto, using(wild_reading::proofs::Readers::reading), unfolding(crate::specs::Pattern::pattern_list))]
pub fn pattern_list(cursor: &mut Cursor<'_>, alloc: Global) -> Result<Items<SectionPattern>, Stop>
    ensures read { Answers spec.pattern_list cursor.old cursor.new result }
    ensures shorter { OnOk result (ahead cursor.new < ahead cursor.old) }
{
    cursor.symbol(b'(')?;
    let patterns = patterns(cursor, alloc)?;
    cursor.symbol(b')')?;
    Ok(patterns)
}
