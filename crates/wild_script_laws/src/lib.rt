//! What follows from the grammar of scripts.
#![tactic(auto)]

mod laws;

pub use laws::scripts_rise;
