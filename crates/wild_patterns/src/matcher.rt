//! Reads matchers of input sections.

ghost use Rattle.std.specs.Prelude.{◌≡◌, IfOk};
ghost use Rattle.wild_reading.specs.Only.{Answers};
ghost use Rattle.wild_patterns.specs.Matcher as spec;

use crate::pattern::pattern_list;
use std::alloc::Global;
use wild_names::{Name, NoMemory};
use wild_reading::{Cursor, Stop};
use wild_script_tree::Matcher;

#[tactic(auto, unfolding(crate::specs::Matcher::is_every_file))]
fn is_every_file(content: &[u8]) -> bool
    ensures { result ≡ spec.is_every_file content.now }
{
    content == b"*".as_slice()
}

#[tactic(auto, unfolding(crate::specs::Matcher::file_pattern))]
fn file_pattern(alloc: Global, content: &[u8]) -> Result<Option<Name>, NoMemory>
    ensures { IfOk result (λ x. x ≡ spec.file_pattern content.now) }
{
    if is_every_file(content) {
        Ok(None)
    } else {
        Ok(Some(Name::new(alloc, content)?))
    }
}

/// Reads what is after the token of the file.
#[tactic(auto, using(wild_reading::proofs::Readers::reading), unfolding(crate::specs::Matcher::file_matcher))]
pub fn file_matcher(
    cursor: &mut Cursor<'_>,
    alloc: Global,
    must_keep: bool,
    file: &[u8],
) -> Result<Matcher, Stop>
    ensures { Answers (spec.file_matcher must_keep file.now) cursor.old cursor.new result }
{
    let input_section_name_patterns = pattern_list(cursor, alloc)?;
    let input_file_pattern = file_pattern(alloc, file)?;
    Ok(Matcher {
        must_keep,
        input_file_pattern,
        input_section_name_patterns,
    })
}

/// Reads what is after KEEP.
#[tactic(auto, using(wild_reading::proofs::Readers::reading), unfolding(crate::specs::Matcher::keep_matcher))]
pub fn keep_matcher(cursor: &mut Cursor<'_>, alloc: Global) -> Result<Matcher, Stop>
    ensures { Answers spec.keep_matcher cursor.old cursor.new result }
{
    cursor.byte(b'(')?;
    let file = cursor.word()?;
    let matcher = file_matcher(cursor, alloc, true, file.content())?;
    cursor.symbol(b')')?;
    Ok(matcher)
}
