//! Expressions of linker scripts: their grammar, and how they are read.
#![tactic(auto)]

mod laws;
mod levels;
mod measured;
mod parts;
mod readings;

pub use laws::{chains_are_lists, depths_are_budgets};
pub use levels::inner_value;
pub use measured::Measured;
pub use parts::{assert_body, expression};
pub use readings::parse_expression;
pub use wild_expression_tree::{AssertCommand, Expression};

#[cfg(test)]
mod expression_tests;
