//! Reads the pieces that a text spells.

ghost use Rattle.std.specs.Prelude.{◌≡◌, ◌<◌, ◌≤◌, ◌+◌, IfOk, length};
ghost use Rattle.wild_glob.specs.Spelling as spec;
ghost use Rattle.wild_glob.specs.Class.{items_len as items_len_of};

use crate::class::{class_items, items_len};
use crate::fault::PatternFault;
use crate::piece::{First, Piece};
use sqlite_items::Items;
use std::alloc::Global;

fn any_run(behind: &[char]) -> Result<First, PatternFault>
    ensures reads { spec.Reads (spec.any_run behind.now) result }
    ensures within { IfOk result (λ f. f.behind ≤ length behind.now) }
{
    if behind.first() == Some(&'*') {
        return Err(PatternFault::Shape);
    }
    Ok(First {
        piece: Piece::AnyRun,
        behind: 0,
    })
}

fn escaped(behind: &[char]) -> Result<First, PatternFault>
    ensures reads { spec.Reads (spec.escaped behind.now) result }
    ensures within { IfOk result (λ f. f.behind ≤ length behind.now) }
{
    match behind {
        [] => Err(PatternFault::Shape),
        [character, ..] => Ok(First {
            piece: Piece::Literal(*character),
            behind: 1,
        }),
    }
}

fn class_of(
    alloc: Global,
    negated: bool,
    before: usize,
    content: &[char],
) -> Result<First, PatternFault>
    requires { before < 2 }
    ensures reads { spec.Reads (spec.class_of negated before content.now (items_len_of content.now)) result }
    ensures within { IfOk result (λ f. f.behind ≤ before + length content.now) }
{
    let Some(len) = items_len(content) else {
        return Err(PatternFault::Shape);
    };
    let items = class_items(alloc, &content[..len])?;
    Ok(First {
        piece: Piece::Class { negated, items },
        behind: before + len + 1,
    })
}

fn class(alloc: Global, behind: &[char]) -> Result<First, PatternFault>
    ensures reads { spec.Reads (spec.class behind.now) result }
    ensures within { IfOk result (λ f. f.behind ≤ length behind.now) }
{
    match behind {
        ['!', content @ ..] => class_of(alloc, true, 1, content),
        content => class_of(alloc, false, 0, content),
    }
}

fn first_piece(alloc: Global, text: &[char]) -> Result<First, PatternFault>
    ensures reads { spec.Reads (spec.first_piece text.now) result }
    ensures within { IfOk result (λ f. f.behind < length text.now) }
{
    match text {
        ['*', behind @ ..] => any_run(behind),
        ['?', ..] => Ok(First {
            piece: Piece::AnyCharacter,
            behind: 0,
        }),
        ['[', behind @ ..] => class(alloc, behind),
        ['\\', behind @ ..] => escaped(behind),
        [character, ..] => Ok(First {
            piece: Piece::Literal(*character),
            behind: 0,
        }),
        [] => Err(PatternFault::Shape),
    }
}

/// The pieces that a text spells: Shape exactly where it has no reading.
pub fn pieces(alloc: Global, text: &[char]) -> Result<Items<Piece>, PatternFault>
    ensures { spec.Reads (spec.pieces text.now) result }
{
    let mut pieces = Items::new(alloc);
    let mut rest = text;
    while let [_, others @ ..] = rest {
        let first = first_piece(alloc, rest)?;
        let (_, behind) = others.split_at(first.behind);
        pieces.push(first.piece)?;
        rest = behind;
    }
    Ok(pieces)
}
