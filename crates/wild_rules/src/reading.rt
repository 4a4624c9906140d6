//! Reads the patterns of a rule.

ghost use Rattle.std.specs.Prelude.{◌≡◌, ◌≢◌, ◌⊎◌, []};
ghost use Rattle.std.specs.Option.{option_copied};
ghost use Rattle.wild_glob.specs.Compiled.{compiled, IsText};
ghost use Rattle.wild_rules.specs.Making as spec;
ghost use Rattle.wild_rules.specs.declared.fault.RuleFault.TheVariants as fault;

use crate::fault::RuleFault;
use crate::matcher::SectionNameMatcher;
use std::alloc::Global;
use wild_glob::{
    GlobPatternType, Pattern, PatternFault, analyze_glob_pattern, compile_glob_pattern,
    ends_in_backslash, unescape_pattern,
};

fn exact_name(alloc: Global, pattern: &[u8]) -> Result<SectionNameMatcher, RuleFault>
    ensures { (result ≡ spec.exact_name pattern.now) ⊎ ((pattern.now ≢ []) × (result ≡ Err fault.NoMemory)) }
{
    if pattern.is_empty() || ends_in_backslash(pattern) {
        return Err(RuleFault::BadSection);
    }
    match unescape_pattern(alloc, pattern) {
        Ok(name) => Ok(SectionNameMatcher::Exact(name)),
        Err(_) => Err(RuleFault::NoMemory),
    }
}

fn pattern_of_names(alloc: Global, pattern: &[u8]) -> Result<SectionNameMatcher, RuleFault>
    ensures { (result ≡ spec.pattern_of_names (compiled pattern.now)) ⊎ ((pattern.now ≢ []) × (result ≡ Err fault.NoMemory)) }
{
    match compile_glob_pattern(alloc, pattern) {
        Ok(pattern) => Ok(SectionNameMatcher::Pattern(pattern)),
        Err(PatternFault::NoMemory) => Err(RuleFault::NoMemory),
        Err(_) => Err(RuleFault::BadSection),
    }
}

/// The section names that a pattern means. BadSection exactly where it has no reading; memory may run out where it
/// has bytes.
pub fn names_of(alloc: Global, pattern: &[u8]) -> Result<SectionNameMatcher, RuleFault>
    ensures { (result ≡ spec.names_of pattern.now) ⊎ ((pattern.now ≢ []) × (result ≡ Err fault.NoMemory)) }
{
    match analyze_glob_pattern(pattern) {
        GlobPatternType::Star | GlobPatternType::NonStar => pattern_of_names(alloc, pattern),
        GlobPatternType::Exact | GlobPatternType::EscapedExact => exact_name(alloc, pattern),
    }
}

fn pattern_of_files(alloc: Global, pattern: &[u8]) -> Result<Option<Pattern>, RuleFault>
    ensures { (result ≡ spec.pattern_of_files (compiled pattern.now)) ⊎ (IsText pattern.now × (result ≡ Err fault.NoMemory)) }
{
    match compile_glob_pattern(alloc, pattern) {
        Ok(pattern) => Ok(Some(pattern)),
        Err(PatternFault::NoMemory) => Err(RuleFault::NoMemory),
        Err(_) => Err(RuleFault::BadFile),
    }
}

/// The file names that a pattern means, where there is one. BadFile exactly where it has no reading; memory may run
/// out where it is a text.
pub fn files_of(alloc: Global, pattern: Option<&[u8]>) -> Result<Option<Pattern>, RuleFault>
    ensures { (result ≡ spec.files_of (option_copied pattern.entry)) ⊎ (spec.IsSomeText (option_copied pattern.entry) × (result ≡ Err fault.NoMemory)) }
{
    match pattern {
        None => Ok(None),
        Some(pattern) => pattern_of_files(alloc, pattern),
    }
}
