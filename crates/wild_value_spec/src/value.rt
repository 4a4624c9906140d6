//! Values, and where they are read.

/// The value of an expression: a number, its marks, and how high the tree is that was evaluated for it.
#[derive(Clone, Copy, Debug, PartialEq, Eq)]
pub struct Value {
    pub number: u64,
    /// A part of the number counts from the start of the section that it is read in.
    pub relative: bool,
    /// A part of the number is an address.
    pub absolute: bool,
    /// In levels. A leaf has 1, any other node one more than the highest part that was evaluated.
    pub height: usize,
}

/// What a definition is worth: the number that it stands for, and the height of the value that gave it, 0 for a row.
#[derive(Clone, Copy, Debug, PartialEq, Eq)]
pub struct Whole {
    pub number: u64,
    pub height: usize,
}

/// What `.` is read as.
#[derive(Clone, Copy, Debug, PartialEq, Eq)]
pub enum DotSource {
    /// The location counter of the place; in the contents of a section its cursor.
    OfPlace,
    /// The start of the section that the place opens: where its load address is read.
    OfLoad,
    /// 0: outside of SECTIONS.
    Zero,
    /// The end of the section of this number: outside of SECTIONS, behind it.
    OfEnd(usize),
}

/// Where an expression is read.
#[derive(Clone, Copy, Debug, PartialEq, Eq)]
pub struct Point {
    /// The number of the place, from 0 in text order.
    pub place: usize,
    pub dot: DotSource,
    /// The section in whose contents it stands, from 0 in text order.
    pub section: Option<usize>,
}
