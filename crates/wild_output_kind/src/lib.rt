//! The kinds of what is linked.
#![tactic(auto)]

mod output_kind;

pub use output_kind::OutputKind;
