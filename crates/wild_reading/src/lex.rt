//! What is ahead at a position.

ghost use Rattle.std.specs.Prelude.{◌≡◌, ◌≤◌, ◌<◌, ◌+◌, length, IfSome};
ghost use Rattle.std.specs.Bool.{OnTrue};
ghost use Rattle.std.specs.Str.{bytes_eq};
ghost use Rattle.wild_reading.specs.Bytes as spec;
ghost use Rattle.wild_reading.specs.Lex as lexis;

use crate::classes::{Class, run_end};

/// Whether two words have the same bytes.
pub fn is_word(word: &[u8], other: &[u8]) -> bool
    ensures { result ≡ bytes_eq word.now other.now }
{
    word == other
}

/// Whether a byte is at a position.
#[tactic(auto, unfolding(crate::specs::Bytes::begins))]
pub fn begins(bytes: &[u8], at: usize, byte: u8) -> bool
    ensures value { result ≡ spec.begins byte bytes.now at }
    ensures within { OnTrue result (at < length bytes.now) }
{
    match bytes.get(at) {
        Some(found) => *found == byte,
        None => false,
    }
}

/// Whether these bytes are at a position.
#[tactic(auto, unfolding(crate::specs::Bytes::begins_with))]
pub fn begins_with(bytes: &[u8], at: usize, text: &[u8]) -> bool
    requires { at ≤ length bytes.now }
    ensures value { result ≡ spec.begins_with text.now bytes.now at }
    ensures within { OnTrue result (at + length text.now ≤ length bytes.now) }
{
    bytes[at..].starts_with(text)
}

/// Whether a position is the end of the bytes.
#[tactic(auto, unfolding(crate::specs::Bytes::is_end))]
pub fn is_end(bytes: &[u8], at: usize) -> bool
    ensures { result ≡ spec.is_end bytes.now at }
{
    at == bytes.len()
}

/// Whether a comment begins at a position.
#[tactic(auto, unfolding(crate::specs::Bytes::begins_comment))]
pub fn begins_comment(bytes: &[u8], at: usize) -> bool
    ensures value { result ≡ spec.begins_comment bytes.now at }
    ensures within { OnTrue result (at + 1 < length bytes.now) }
{
    begins(bytes, at, b'/') && begins(bytes, at + 1, b'*')
}

/// Whether a comment ends at a position.
#[tactic(auto, unfolding(crate::specs::Bytes::ends_comment))]
fn ends_comment(bytes: &[u8], at: usize) -> bool
    ensures value { result ≡ spec.ends_comment bytes.now at }
    ensures within { OnTrue result (at + 1 < length bytes.now) }
{
    begins(bytes, at, b'*') && begins(bytes, at + 1, b'/')
}

/// The position after the first end of a comment from a position on.
#[tactic(auto, using(crate::proofs::Closes::closes))]
pub fn after_close(bytes: &[u8], at: usize) -> Option<usize>
    requires { at ≤ length bytes.now }
    ensures value { result ≡ lexis.after_close bytes.now at }
    ensures within { IfSome result (λ end. (at < end) × (end ≤ length bytes.now)) }
{
    let mut end = at;
    while end < bytes.len() {
        if ends_comment(bytes, end) {
            return Some(end + 2);
        }
        end += 1;
    }
    None
}

/// The position of the newline that ends the line at a position.
#[tactic(auto, unfolding(crate::specs::Lex::after_line))]
pub fn after_line(bytes: &[u8], at: usize) -> Option<usize>
    requires { at ≤ length bytes.now }
    ensures value { result ≡ lexis.after_line bytes.now at }
    ensures within { IfSome result (λ end. (at ≤ end) × (end ≤ length bytes.now)) }
{
    let end = run_end(bytes, at, Class::Line);
    if begins(bytes, end, b'\n') {
        Some(end)
    } else {
        None
    }
}

/// Whether neither a line nor a comment begins at a position.
#[tactic(auto, unfolding(crate::specs::Lex::ends_gap))]
pub fn ends_gap(bytes: &[u8], at: usize) -> bool
    ensures { result ≡ lexis.ends_gap bytes.now at }
{
    !begins(bytes, at, b'#') && !begins_comment(bytes, at)
}
