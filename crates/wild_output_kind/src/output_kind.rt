//! Kinds of what is linked.

use wild_names::RelocationModel;

/// What is linked.
#[derive(Clone, Copy, Debug, PartialEq, Eq)]
pub enum OutputKind {
    StaticExecutable(RelocationModel),
    DynamicExecutable(RelocationModel),
    SharedObject,
    /// An object that is linked again.
    PartialLink,
}
