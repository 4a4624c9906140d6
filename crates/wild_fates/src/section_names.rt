//! The names of sections, by their numbers.

ghost use Rattle.std.specs.Prelude.{◌≡◌, [], ◌∷◌, ◌++◌, IfOk, length};
ghost use Rattle.wild_numbering.specs.Numbering.{number_of};
ghost use Rattle.wild_fates.specs.Targets.{targets};

use sqlite_items::Items;
use std::alloc::Global;
use std::marker::Model;
use wild_base::{Name, NoMemory};
use wild_numbering::Numbering;

/// The names of sections, which are numbered in order from 0. Contracts see them as a list.
#[derive(Drop)]
pub struct SectionNames<'a> {
    names: Items<&'a Name>,
    numbers: Numbering,
}

impl<'a> Model for SectionNames<'a> {
    ghost use Rattle.std.specs.Prelude.{List, ℕ, ◌≡◌};
    ghost use Rattle.wild_fates.specs.Targets.{targets};

    ghost Value = { List (List ℕ) };

    ghost view = { λ n. n.numbers };

    ghost invariant = { λ n. targets n.names ≡ n.numbers };
}

impl<'a> SectionNames<'a> {
    /// No sections.
    pub fn new(alloc: Global) -> SectionNames<'a>
        ensures { result ≡ [] }
    {
        SectionNames {
            names: Items::new(alloc),
            numbers: Numbering::new(alloc),
        }
    }

    /// The same with a section after the others. Fails where memory runs out.
    pub fn with(self, alloc: Global, name: &'a Name) -> Result<SectionNames<'a>, NoMemory>
        ensures { IfOk result (λ names. names ≡ self.entry ++ name.now ∷ []) }
    {
        let SectionNames {
            mut names,
            mut numbers,
        } = self;
        numbers.push(alloc, name)?;
        names.push(name)?;
        Ok(SectionNames { names, numbers })
    }

    /// How many sections there are.
    pub fn len(&self) -> usize
        ensures { result ≡ length self.now }
    {
        self.numbers.len()
    }

    /// The number of the first section of this name.
    pub fn get(&self, name: &Name) -> Option<usize>
        ensures { result ≡ number_of name.now self.now }
    {
        self.numbers.get(name)
    }

    /// The names in order.
    pub fn as_slice(&self) -> &[&'a Name]
        ensures { targets result.now ≡ self.now }
    {
        self.names.as_slice()
    }

    /// The names, to find the number of a section.
    pub fn numbers(&self) -> &Numbering
        ensures { result.now ≡ self.now }
    {
        &self.numbers
    }
}
