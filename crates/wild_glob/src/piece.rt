//! What a pattern consists of.

ghost use Rattle.std.specs.Prelude.{◌≡◌, IfOk};
ghost use Rattle.wild_glob.specs.Match as spec;

use sqlite_items::Items;
use std::alloc::Global;
use wild_names::NoMemory;

/// A part of a pattern.
#[derive(Debug, Drop)]
pub enum Piece {
    /// `*`: any run of characters, the empty one too.
    AnyRun,
    /// `?`: one character.
    AnyCharacter,
    /// `[..]`: one character of the items, or, where it is negated as `[!..]`, one that is none of them.
    Class {
        negated: bool,
        items: Items<ClassItem>,
    },
    /// A character that stands for itself.
    Literal(char),
}

/// What a class lists.
#[derive(Clone, Copy, Debug, PartialEq, Eq)]
pub enum ClassItem {
    /// A character.
    One(char),
    /// The characters from the first to the last, both included: none where they are reversed.
    Range(char, char),
}

impl Piece {
    /// The same piece once more. Fails where memory runs out.
    pub fn copy(&self, alloc: Global) -> Result<Piece, NoMemory>
        ensures { IfOk result (λ piece. piece ≡ self.now) }
    {
        match self {
            Piece::AnyRun => Ok(Piece::AnyRun),
            Piece::AnyCharacter => Ok(Piece::AnyCharacter),
            Piece::Class { negated, items } => {
                let items = Items::from_slice(alloc, items.as_slice())?;
                Ok(Piece::Class {
                    negated: *negated,
                    items,
                })
            }
            Piece::Literal(character) => Ok(Piece::Literal(*character)),
        }
    }

    /// Whether it is `*`.
    pub fn is_any_run(&self) -> bool
        ensures { result ≡ spec.is_any_run self.now }
    {
        matches!(self, Piece::AnyRun)
    }

    /// The character that it stands for, where it stands for one alone.
    pub fn character(&self) -> Option<char>
        ensures { result ≡ spec.character_of self.now }
    {
        match self {
            Piece::Literal(character) => Some(*character),
            _ => None,
        }
    }

    /// Whether it takes one character, and takes this one.
    pub fn admits(&self, character: char) -> bool
        ensures { result ≡ spec.admits self.now character }
    {
        match self {
            Piece::AnyRun => false,
            Piece::AnyCharacter => true,
            Piece::Class { negated, items } => lists(items.as_slice(), character) != *negated,
            Piece::Literal(wanted) => character == *wanted,
        }
    }
}

/// The same pieces once more. Fails where memory runs out.
pub fn copy_pieces(alloc: Global, pieces: &[Piece]) -> Result<Items<Piece>, NoMemory>
    ensures { IfOk result (λ copies. copies ≡ pieces.now) }
{
    let mut copies = Items::new(alloc);
    for piece in pieces {
        let copy = piece.copy(alloc)?;
        copies.push(copy)?;
    }
    Ok(copies)
}

fn lists(items: &[ClassItem], character: char) -> bool
    ensures { result ≡ spec.lists items.now character }
{
    items.iter().any(|item| item.contains(character))
}

impl ClassItem {
    fn contains(self, character: char) -> bool
        ensures { result ≡ spec.contains self character }
    {
        match self {
            ClassItem::One(wanted) => character == wanted,
            ClassItem::Range(low, high) => low <= character && character <= high,
        }
    }
}

/// The piece that a text begins with.
#[derive(Drop)]
pub struct First {
    pub piece: Piece,
    /// How many characters it has after its first one.
    pub behind: usize,
}
