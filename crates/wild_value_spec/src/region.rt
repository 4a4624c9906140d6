//! Memory regions.

/// A memory region: where it begins, and how many bytes it has.
#[derive(Clone, Copy, Debug, PartialEq, Eq)]
pub struct Region {
    pub origin: u64,
    pub length: u64,
}
