//! What follows from the definitions of values for evaluation that keeps what it found.
#![tactic(auto)]

mod laws;
mod slot;

pub use laws::{heights_are_exact, kept_values_agree, memos_stay, parts_have_fewer_nodes};
pub use slot::Slot;
