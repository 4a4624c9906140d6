//! What follows from the definitions of values.
#![tactic(auto)]

mod laws;

pub use laws::{
    full_values_hold_at_any_statement, full_values_stay, values_hold_at_any_statement, values_stay,
};
