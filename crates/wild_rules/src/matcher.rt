//! Which names a rule takes.

ghost use Rattle.std.specs.Prelude.{◌≡◌, IfOk};
ghost use Rattle.std.specs.Option.{option_copied};
ghost use Rattle.wild_rules.specs.Taking as spec;

use std::alloc::Global;
use std::str;
use wild_base::{Name, NoMemory};
use wild_glob::Pattern;

/// Which names of sections a rule takes.
#[derive(Debug, Drop)]
pub enum SectionNameMatcher {
    /// This name.
    Exact(Name),
    /// The names that begin with this one.
    Prefix(Name),
    /// The names that are UTF-8 and that the pattern matches.
    Pattern(Pattern),
}

impl SectionNameMatcher {
    /// The same once more. Fails where memory runs out.
    pub fn copy(&self, alloc: Global) -> Result<SectionNameMatcher, NoMemory>
        ensures { IfOk result (λ copy. copy ≡ self.now) }
    {
        match self {
            SectionNameMatcher::Exact(name) => Ok(SectionNameMatcher::Exact(name.copy(alloc)?)),
            SectionNameMatcher::Prefix(name) => Ok(SectionNameMatcher::Prefix(name.copy(alloc)?)),
            SectionNameMatcher::Pattern(pattern) => {
                Ok(SectionNameMatcher::Pattern(pattern.copy(alloc)?))
            }
        }
    }

    /// Whether a rule with it takes sections of this name.
    pub fn takes(&self, section_name: &[u8]) -> bool
        ensures { result ≡ spec.takes_name self.now section_name.now }
    {
        match self {
            SectionNameMatcher::Exact(name) => section_name == name.bytes(),
            SectionNameMatcher::Prefix(name) => section_name.starts_with(name.bytes()),
            SectionNameMatcher::Pattern(pattern) => matches_bytes(pattern, section_name),
        }
    }
}

// Whether the bytes are UTF-8, and the pattern matches them.
#[tactic(auto, using(crate::proofs::Utf8::matches_bytes_of_text, crate::proofs::Utf8::matches_bytes_of_others))]
fn matches_bytes(pattern: &Pattern, bytes: &[u8]) -> bool
    ensures { result ≡ spec.matches_bytes pattern.now bytes.now }
{
    match str::from_utf8(bytes) {
        Ok(text) => pattern.matches(text),
        Err(_) => false,
    }
}

/// Whether a rule with this file pattern takes sections of the file.
pub fn takes_file(file: &Option<Pattern>, file_name: Option<&[u8]>) -> bool
    ensures { result ≡ spec.takes_file file.now (option_copied file_name.entry) }
{
    match file {
        None => true,
        Some(pattern) => match file_name {
            Some(file_name) => matches_bytes(pattern, file_name),
            None => false,
        },
    }
}

/// The same file pattern once more. Fails where memory runs out.
pub fn copy_file(alloc: Global, file: &Option<Pattern>) -> Result<Option<Pattern>, NoMemory>
    ensures { IfOk result (λ copy. copy ≡ file.now) }
{
    match file {
        None => Ok(None),
        Some(pattern) => Ok(Some(pattern.copy(alloc)?)),
    }
}
