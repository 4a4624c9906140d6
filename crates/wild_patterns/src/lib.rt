//! Patterns of input sections, and how they are read.
#![tactic(auto)]

mod matcher;
mod pattern;

pub use matcher::{file_matcher, keep_matcher};
