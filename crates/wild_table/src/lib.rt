//! Tables of inputs, and the numbers and flags in them, as they are written.
#![tactic(auto)]

mod flags;
mod number;
mod records;
mod table;

pub use number::read_number;
pub use table::{TableFault, read_table};

#[cfg(test)]
mod tests;
