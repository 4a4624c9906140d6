//! What a plan lists.

ghost use Rattle.std.specs.Prelude.{◌≡◌, [], ◌∷◌, ◌++◌, OnOk};

use sqlite_items::Items;
use std::alloc::Global;
use std::marker::Model;
use wild_base::{Alignment, InputFlags, Name, NoMemory};

/// Names, in order. Contracts see them as a list.
#[derive(Debug, Drop)]
pub struct Names {
    names: Items<Name>,
}

impl Model for Names {
    ghost use Rattle.std.specs.Prelude.{List, ℕ};

    ghost Value = { List (List ℕ) };

    ghost view = { λ list. list.names };
}

impl Names {
    /// No names.
    pub fn new(alloc: Global) -> Names
        ensures { result ≡ [] }
    {
        Names {
            names: Items::new(alloc),
        }
    }

    /// Puts a name after the others. Fails where memory runs out.
    pub fn push(&mut self, name: Name) -> Result<(), NoMemory>
        ensures { OnOk result (self.new ≡ self.old ++ name ∷ []) }
    {
        self.names.push(name)?;
        Ok(())
    }

    /// All of them, in order.
    pub fn as_slice(&self) -> &[Name]
        ensures { result.now ≡ self.now }
    {
        self.names.as_slice()
    }
}

/// An output section. Addresses and sizes count bytes.
#[derive(Debug, Drop)]
pub struct PlacedSection {
    pub name: Name,
    pub start: u64,
    /// The load address.
    pub load: u64,
    pub size: u64,
    pub alignment: Alignment,
    pub flags: InputFlags,
    pub fill: Option<u32>,
    pub region: Option<Name>,
    /// The program headers that hold it.
    pub headers: Names,
    /// It moves the counter.
    pub counted: bool,
}

/// Where an input section went.
#[derive(Clone, Copy, Debug, PartialEq, Eq)]
pub enum PlacedInput {
    Discarded,
    Placed {
        /// The index of its section in the plan.
        section: usize,
        /// The number of its chunk in the section.
        chunk: usize,
        address: u64,
    },
}

/// The names of an input section.
#[derive(Debug, Drop)]
pub struct RowNames {
    pub file: Name,
    pub section: Name,
}

/// What a statement makes of the location counter.
#[derive(Clone, Copy, Debug, PartialEq, Eq)]
pub struct PlacedLocation {
    /// The place of the statement in its script.
    pub statement: usize,
    pub address: u64,
}

/// A symbol, and where it is.
#[derive(Debug, Drop)]
pub struct PlacedSymbol {
    pub name: Name,
    pub address: u64,
    /// The index of the section in the plan that holds it.
    pub section: Option<usize>,
    /// Defined by PROVIDE_HIDDEN.
    pub hidden: bool,
}
