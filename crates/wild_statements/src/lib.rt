//! Parts of the statements of linker scripts: what is assigned to a name, and what PROVIDE has in its brackets.
#![tactic(auto)]

mod assignment;
mod provide;

pub use assignment::{begins_assignment, closed_value, open_value, tight_value};
pub use provide::provide_body;
