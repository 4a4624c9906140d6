//! Patterns: how they are made, and what they match.

ghost use Rattle.std.specs.Prelude.{◌≡◌, ◌⊎◌, IfOk, Result};
ghost use Rattle.std.specs.Str.{chars};
ghost use Rattle.wild_glob.specs.Match as spec;
ghost use Rattle.wild_glob.specs.Compiled.{compiled, IsText};
ghost use Rattle.wild_glob.specs.declared.fault.PatternFault.TheVariants as fault;

use crate::fault::PatternFault;
use crate::piece::{Piece, copy_pieces};
use crate::{matching, spelling};
use sqlite_items::Items;
use std::alloc::Global;
use std::marker::Model;
use std::str;
use wild_names::NoMemory;

/// A pattern of names. Contracts see it as the list of its pieces.
#[derive(Debug, Drop)]
pub struct Pattern {
    pieces: Items<Piece>,
}

impl Model for Pattern {
    ghost use Rattle.std.specs.Prelude.{List};
    ghost use Rattle.wild_glob.specs.declared.piece.Piece.{Piece};

    ghost Value = { List Piece };

    ghost view = { λ pattern. pattern.pieces };
}

/// The pattern that the bytes spell, which is the only one.
///
/// # Errors
///
/// Empty exactly where there are no bytes, else NotUtf8 exactly where they are not UTF-8, else Shape exactly where the
/// text has no reading. NoMemory may come of a text in place of its answer.
pub fn compile_glob_pattern(alloc: Global, pattern: &[u8]) -> Result<Pattern, PatternFault>
    ensures { (result ≡ compiled pattern.now) ⊎ (IsText pattern.now × (result ≡ Err fault.NoMemory)) }
{
    if pattern.is_empty() {
        return Err(PatternFault::Empty);
    }
    let Ok(text) = str::from_utf8(pattern) else {
        return Err(PatternFault::NotUtf8);
    };
    let characters = to_characters(alloc, text)?;
    let pieces = spelling::pieces(alloc, characters.as_slice())?;
    Ok(Pattern { pieces })
}

fn to_characters(alloc: Global, text: &str) -> Result<Vec<char>, NoMemory>
    ensures { IfOk result (λ characters. characters.items ≡ chars text.now) }
{
    let characters = text.chars().collect(alloc)?;
    Ok(characters)
}

impl Pattern {
    /// The same pattern once more. Fails where memory runs out.
    pub fn copy(&self, alloc: Global) -> Result<Pattern, NoMemory>
        ensures { IfOk result (λ copy. copy ≡ self.now) }
    {
        let pieces = copy_pieces(alloc, self.pieces.as_slice())?;
        Ok(Pattern { pieces })
    }

    /// The character that its piece at this place stands for. None where the piece is a wildcard, and past the last.
    pub fn character(&self, place: usize) -> Option<char>
        ensures { result ≡ spec.character_at self.now place }
    {
        match self.pieces.get(place) {
            Some(piece) => piece.character(),
            None => None,
        }
    }

    /// Whether it matches the whole text. It takes at most (pieces + 1) * (characters + 1) steps, and no memory.
    pub fn matches(&self, text: &str) -> bool
        ensures { result ≡ spec.matches self.now (chars text.now) }
    {
        matching::matches(self.pieces.as_slice(), text)
    }
}
