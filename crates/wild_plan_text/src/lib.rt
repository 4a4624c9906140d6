//! Plans, faults, names and addresses as they are printed.
#![tactic(auto)]

mod fault;
mod text;

pub use fault::fault_text;
pub use text::{address_text, lines_text, name_text};

#[cfg(test)]
mod tests;
