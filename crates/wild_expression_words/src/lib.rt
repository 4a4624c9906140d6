//! Expressions without operators, and operators: what is read in expressions that holds no expression.
#![tactic(auto)]

mod identifiers;
mod literal;
mod operators;
mod quotes;
mod words;

pub use identifiers::identifier;
pub use operators::{
    Level, Operator, ends, is_signed, node, operand, pass_operator, pass_sign, signed_node,
};
pub use quotes::quoted_name;
pub use words::{Call, Extreme, Head, is_counter, read_head};

#[cfg(test)]
mod leaf_tests;
