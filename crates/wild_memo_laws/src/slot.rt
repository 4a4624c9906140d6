//! What is kept of a definition.

use wild_value_spec::Whole;

/// What is kept of a definition.
#[derive(Clone, Copy, Debug, PartialEq, Eq)]
pub enum Slot {
    /// It was not asked for, or it failed.
    Unseen,
    /// It is being evaluated.
    InWork,
    /// What it is worth.
    Kept(Whole),
}
