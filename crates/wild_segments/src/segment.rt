//! Segments.

ghost use Rattle.std.specs.Prelude.{◌≡◌, [], ◌∷◌, ◌++◌, OnOk};

use sqlite_items::Items;
use std::alloc::Global;
use std::marker::Model;
use wild_names::{Name, NoMemory};

/// How many segments an output file may have.
pub const MAX_SEGMENTS: usize = 256;

/// Numbers of sections, in order. Contracts see them as a list.
#[derive(Debug, Drop)]
pub struct SectionIndexes {
    indexes: Items<usize>,
}

impl Model for SectionIndexes {
    ghost use Rattle.std.specs.Prelude.{List, ℕ};

    ghost Value = { List ℕ };

    ghost view = { λ list. list.indexes };
}

impl SectionIndexes {
    /// No sections.
    pub fn new(alloc: Global) -> SectionIndexes
        ensures { result ≡ [] }
    {
        SectionIndexes {
            indexes: Items::new(alloc),
        }
    }

    /// Puts a section after the others. Fails where memory runs out.
    pub fn push(&mut self, index: usize) -> Result<(), NoMemory>
        ensures { OnOk result (self.new ≡ self.old ++ index ∷ []) }
    {
        self.indexes.push(index)?;
        Ok(())
    }

    /// All of them, in order.
    pub fn as_slice(&self) -> &[usize]
        ensures { result.now ≡ self.now }
    {
        self.indexes.as_slice()
    }
}

/// A segment of the output file.
#[derive(Debug, Drop)]
pub struct PlacedSegment {
    /// The type of its program header.
    pub ptype: u32,
    pub flags: u32,
    /// The name of the program header in the script, or no bytes.
    pub name: Name,
    /// It holds the header of the file.
    pub has_filehdr: bool,
    /// It holds the program headers.
    pub has_phdrs: bool,
    pub sections: SectionIndexes,
}
