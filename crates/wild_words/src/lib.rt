//! The words of a command line, and the options among them.
#![tactic(auto)]

mod choice;
mod chosen;
mod words;

pub use words::{Request, WordsFault, read_words};

#[cfg(test)]
mod tests;
