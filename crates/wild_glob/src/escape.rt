//! Backslashes in patterns, and what kind of pattern they make.

ghost use Rattle.std.specs.Prelude.{◌≡◌, IfOk};
ghost use Rattle.wild_glob.specs.Escape.{has_unescaped, pattern_type, escapes, ends_in_backslash, without_escapes};

use std::alloc::Global;
use wild_names::{Name, NoMemory};

/// What a section pattern needs for its match.
#[derive(Clone, Copy, Debug, PartialEq, Eq)]
pub enum GlobPatternType {
    /// No wildcard and no backslash: the name itself.
    Exact,
    /// No wildcard, but a backslash: the name after its escapes.
    EscapedExact,
    /// Wildcards, a `*` among them.
    Star,
    /// Wildcards, but no `*`.
    NonStar,
}

/// The kind of a pattern. A wildcard is a `*`, `?` or `[` that no backslash escapes.
pub fn analyze_glob_pattern(pattern: &[u8]) -> GlobPatternType
    ensures { result ≡ pattern_type pattern.now }
{
    if has_unescaped(pattern, b'*') {
        GlobPatternType::Star
    } else if has_unescaped(pattern, b'?') || has_unescaped(pattern, b'[') {
        GlobPatternType::NonStar
    } else if has_unescaped(pattern, b'\\') {
        GlobPatternType::EscapedExact
    } else {
        GlobPatternType::Exact
    }
}

fn has_unescaped(pattern: &[u8], wanted: u8) -> bool
    ensures { result ≡ has_unescaped wanted pattern.now }
{
    let mut escaped = false;
    for byte in pattern {
        if escaped {
            escaped = false;
        } else if *byte == wanted {
            return true;
        } else {
            escaped = *byte == b'\\';
        }
    }
    false
}

// Whether a byte, itself escaped or not, escapes the next one.
fn escapes(escaped: bool, byte: u8) -> bool
    ensures { result ≡ escapes escaped byte }
{
    !escaped && byte == b'\\'
}

/// Whether a backslash that is itself not escaped is last.
pub fn ends_in_backslash(pattern: &[u8]) -> bool
    ensures { result ≡ ends_in_backslash pattern.now }
{
    let mut escaped = false;
    for byte in pattern {
        escaped = escapes(escaped, *byte);
    }
    escaped
}

/// The bytes of a pattern with each backslash dropped and the byte after it kept. A last backslash is kept. Fails
/// where memory runs out.
pub fn unescape_pattern(alloc: Global, pattern: &[u8]) -> Result<Name, NoMemory>
    ensures { IfOk result (λ name. name ≡ without_escapes pattern.now) }
{
    let mut bytes = Vec::new(alloc);
    let mut escaped = false;
    for byte in pattern {
        escaped = escapes(escaped, *byte);
        if !escaped {
            bytes.push(*byte)?;
        }
    }
    if escaped {
        bytes.push(b'\\')?;
    }
    Ok(Name::from_vec(bytes))
}
