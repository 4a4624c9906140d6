//! Patterns that match names of sections and files.
#![tactic(auto)]

mod class;
mod escape;
mod fault;
mod laws;
mod matching;
mod pattern;
mod piece;
mod spelling;

pub use escape::{GlobPatternType, analyze_glob_pattern, ends_in_backslash, unescape_pattern};
pub use fault::PatternFault;
pub use laws::pieces_are_spelled;
pub use pattern::{Pattern, compile_glob_pattern};

#[cfg(test)]
mod tests;
