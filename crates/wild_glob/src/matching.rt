//! Walks over a text along the pieces of a pattern.

ghost use Rattle.std.specs.Prelude.{◌≡◌, ◌∷◌, [], ◌<◌, MatchOption, length, false};
ghost use Rattle.std.specs.Str.{chars};
ghost use Rattle.wild_glob.specs.Match as spec;
ghost use Rattle.wild_glob.specs.Walk.{StopsAtRun, RunsTo};

use crate::piece::Piece;

fn split_first(text: &str) -> Option<(char, &str)>
    ensures { MatchOption result (chars text.now ≡ []) (λ first. (chars text.now ≡ first.0 ∷ chars first.1.now) × (length first.1.now < length text.now)) }
{
    let mut characters = text.chars();
    let first = characters.next()?;
    Some((first, characters.as_str()))
}

fn is_end(text: &str) -> bool
    ensures { result ≡ spec.matches [] (chars text.now) }
{
    split_first(text).is_none()
}

// The first piece and those after it, unless it is `*`.
fn split_single(pieces: &[Piece]) -> Option<(&Piece, &[Piece])>
    ensures { MatchOption result (StopsAtRun pieces.now) (λ first. (pieces.now ≡ first.0.now ∷ first.1.now) × (spec.is_any_run first.0.now ≡ false)) }
{
    match pieces {
        [first, behind @ ..] if !first.is_any_run() => Some((first, behind)),
        _ => None,
    }
}

// Takes a character for each piece up to the next `*`: the pieces from there on, and the text that is left.
fn take_run<'p, 't>(pieces: &'p [Piece], text: &'t str) -> Option<(&'p [Piece], &'t str)>
    ensures { MatchOption result (spec.matches pieces.now (chars text.now) ≡ false) (λ end. RunsTo pieces.now text.now end.0.now end.1.now) }
{
    let mut left = pieces;
    let mut rest = text;
    while let Some((piece, behind)) = split_single(left) {
        let (first, later) = split_first(rest)?;
        if !piece.admits(first) {
            return None;
        }
        left = behind;
        rest = later;
    }
    Some((left, rest))
}

// Whether the pieces match some suffix. Each `*` is passed at the first place where the run before it fits: a later
// place leaves less text for the rest.
fn matches_some_suffix(pieces: &[Piece], text: &str) -> bool
    ensures { result ≡ spec.some_suffix (spec.matches pieces.now) (chars text.now) }
{
    let mut left = pieces;
    let mut start = text;
    loop {
        match take_run(left, start) {
            Some(([_, behind @ ..], rest)) => {
                left = behind;
                start = rest;
            }
            Some(([], rest)) if is_end(rest) => return true,
            _ => match split_first(start) {
                Some((_, later)) => start = later,
                None => return false,
            },
        }
    }
}

/// Whether the pieces match the text, in at most (pieces + 1) * (characters + 1) steps.
pub fn matches(pieces: &[Piece], text: &str) -> bool
    ensures { result ≡ spec.matches pieces.now (chars text.now) }
{
    match take_run(pieces, text) {
        Some(([_, behind @ ..], rest)) => matches_some_suffix(behind, rest),
        Some(([], rest)) => is_end(rest),
        None => false,
    }
}
