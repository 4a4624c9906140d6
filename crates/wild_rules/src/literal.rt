//! The bytes with which names begin, by which rules are found.

ghost use Rattle.std.specs.Prelude.{◌≡◌, IfOk};
ghost use Rattle.std.specs.List.{slice_index};
ghost use Rattle.std.specs.Option.{option_map};
ghost use Rattle.wild_rules.specs.Index as spec;

use crate::matcher::SectionNameMatcher;
use std::alloc::{AllocError, Global};
use wild_glob::Pattern;

/// By what literals are found: the first four bytes, the length, and a number that the bytes make.
pub type Key = [u64; 6];

/// The least length of a literal that is no whole name.
pub const SHORTEST: usize = 4;

// The byte of a literal at this place, or zero past the last.
fn byte_or_zero(bytes: &[u8], place: usize) -> u64
    ensures { result ≡ slice_index bytes.now place }
{
    match bytes.get(place) {
        Some(byte) => u64::from(*byte),
        None => 0,
    }
}

fn mixed(bytes: &[u8]) -> u64
    ensures { result ≡ spec.mixed 0 bytes.now }
{
    let mut number = 0_u64;
    for byte in bytes {
        number = number.wrapping_mul(31).wrapping_add(u64::from(*byte));
    }
    number
}

/// By what a literal is found.
pub fn literal_key(bytes: &[u8]) -> Key
    ensures { result ≡ spec.literal_key bytes.now }
{
    [
        byte_or_zero(bytes, 0),
        byte_or_zero(bytes, 1),
        byte_or_zero(bytes, 2),
        byte_or_zero(bytes, 3),
        bytes.len() as u64,
        mixed(bytes),
    ]
}

// The byte that the pattern has at this place, where a character of ASCII stands there for itself.
fn byte_of(pattern: &Pattern, place: usize) -> Option<u8>
    ensures { result ≡ spec.byte_of pattern.now place }
{
    match pattern.character(place) {
        Some(character) if character.is_ascii() => Some(character as u8),
        _ => None,
    }
}

// The bytes with which the pattern begins, as long as characters of ASCII stand there for themselves.
fn ascii_run(alloc: Global, pattern: &Pattern) -> Result<Vec<u8>, AllocError>
    ensures { IfOk result (λ bytes. bytes.items ≡ spec.ascii_run pattern.now) }
{
    let mut bytes = Vec::new(alloc);
    while let Some(byte) = byte_of(pattern, bytes.len()) {
        bytes.push(byte)?;
    }
    Ok(bytes)
}

fn long_enough(bytes: Vec<u8>) -> Option<Vec<u8>>
    ensures { option_map (λ bytes. bytes.items) result ≡ spec.long_enough bytes.items }
{
    if bytes.len() >= SHORTEST {
        Some(bytes)
    } else {
        None
    }
}

/// The bytes with which all names begin that are taken: an exact name, and of a prefix or of the beginning of a pattern four
/// or more. None where there are none.
pub fn literal_of(
    alloc: Global,
    matcher: &SectionNameMatcher,
) -> Result<Option<Vec<u8>>, AllocError>
    ensures { IfOk result (λ found. option_map (λ bytes. bytes.items) found ≡ spec.literal matcher.now) }
{
    match matcher {
        SectionNameMatcher::Exact(name) => Ok(Some(Vec::from_slice(alloc, name.bytes())?)),
        SectionNameMatcher::Prefix(name) => Ok(long_enough(Vec::from_slice(alloc, name.bytes())?)),
        SectionNameMatcher::Pattern(pattern) => Ok(long_enough(ascii_run(alloc, pattern)?)),
    }
}
