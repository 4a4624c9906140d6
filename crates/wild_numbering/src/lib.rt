//! Names with numbers, to find the number of a name quickly.
#![tactic(auto)]

mod numbering;

pub use numbering::Numbering;

#[cfg(test)]
mod tests;
