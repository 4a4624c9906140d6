//! Where the statements of a script stand.

/// Where a statement stands.
#[derive(Clone, Copy, Debug, PartialEq, Eq)]
pub enum Where {
    /// Outside of SECTIONS, behind so many sections.
    Outermost(usize),
    /// In SECTIONS, in no section.
    Between,
    /// In the contents of the section of this number.
    Inside(usize),
}
