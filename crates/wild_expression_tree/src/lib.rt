//! Expressions of linker scripts as trees, the shapes of their nodes, when two are equal, copies, and visits of their nodes.
#![tactic(auto)]

mod copy;
mod equality;
mod operator;
mod shape;
mod tree;
mod visit;

pub use equality::equality_is_sameness;
pub use operator::{Arithmetic, Comparison, Connective, Division, Question, Unary};
pub use shape::Shape;
pub use tree::{AssertCommand, Expression};
pub use visit::Visitor;

#[cfg(test)]
mod tests;
