//! Values of expressions over what is known of a layout, and the numbers of constants.
#![tactic(auto)]

mod addresses;
mod arithmetic;
mod checked;
mod constant;
mod definition;
mod evaluating;
mod evaluator;
mod keeping;
mod known;
mod leaves;
mod marks;
mod memo;
mod named;
mod scope;

pub use addresses::Addresses;
pub use checked::sum;
pub use constant::evaluate_const;
pub use definition::{Definition, SymbolEntry};
pub use evaluator::Evaluator;
pub use memo::Memo;
pub use scope::Scope;
pub use wild_value_spec::ConstFault;

#[cfg(test)]
mod memo_tests;
#[cfg(test)]
mod name_tests;
#[cfg(test)]
mod region_tests;
#[cfg(test)]
mod tests;
