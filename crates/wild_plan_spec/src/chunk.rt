//! Chunks of sections, and the rows in them.

use std::cmp::Reverse;
use wild_base::{Alignment, Name};

/// What one matcher collects: the chunk of this number in the section of this number, both from 0 in text order.
#[derive(Clone, Copy, Debug, PartialEq, Eq, PartialOrd, Ord)]
pub struct Chunk {
    pub section: usize,
    pub number: usize,
}

/// Where a row that is kept goes.
#[derive(Clone, Copy, Debug, PartialEq, Eq)]
pub struct Kept {
    pub chunk: Chunk,
    /// Whether it stands by the name of its section.
    pub sorted: bool,
}

/// A row of a chunk. Rows stand in the order of the fields: by falling alignment, unsorted before sorted, sorted ones by
/// the bytes of their names, then in table order.
#[derive(Debug, Drop, PartialEq, Eq, PartialOrd, Ord)]
pub struct ChunkRow {
    pub alignment: Reverse<Alignment>,
    pub sorted: bool,
    /// The name of its section where it is sorted, else empty.
    pub name: Name,
    /// The number of the row in its table.
    pub row: usize,
    /// In bytes.
    pub size: u64,
    /// The chunk that holds it.
    pub chunk: Chunk,
}

/// What is decided of a row without the names of the sections.
#[derive(Clone, Copy, Debug, PartialEq, Eq)]
pub enum Decision {
    Discard,
    /// A rule keeps it.
    Keep(Kept),
    /// It goes to the section of its own name.
    ByName,
}
