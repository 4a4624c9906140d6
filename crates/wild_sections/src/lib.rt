//! Output sections: so far the kinds of what is linked.
#![tactic(auto)]

pub use wild_output_kind::OutputKind;
