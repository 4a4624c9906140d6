//! Names, each with a number.

ghost use Rattle.std.specs.Prelude.{◌≡◌, [], ◌∷◌, ◌++◌, OnOk, OnErr, length};
ghost use Rattle.wild_numbering.specs.Numbering.{number_of};

use sqlite_items::Items;
use std::alloc::{AllocError, Global};
use std::collections::BTreeMap;
use std::marker::Model;
use wild_names::{Name, NoMemory};

/// A list of names in which each is found quickly. Contracts see it as the list.
#[derive(Drop)]
pub struct Numbering {
    names: Items<Name>,
    numbers: BTreeMap<Name, usize>,
}

impl Model for Numbering {
    ghost use Rattle.std.specs.Prelude.{List, ℕ, ◌≡◌};
    ghost use Rattle.std.specs.Ordering.{nat_cmp};
    ghost use Rattle.std.specs.Cmp.Lexicographic.{slice_cmp};
    ghost use Rattle.std.specs.BTreeMap.{get};
    ghost use Rattle.wild_numbering.specs.Numbering.{number_of};

    ghost Value = { List (List ℕ) };

    ghost view = { λ n. n.names };

    ghost invariant = { λ n. (x : List ℕ) → get (slice_cmp nat_cmp) n.numbers x ≡ number_of x n.names };
}

impl Numbering {
    /// No names.
    pub fn new(alloc: Global) -> Numbering
        ensures { result ≡ [] }
    {
        Numbering {
            names: Items::new(alloc),
            numbers: BTreeMap::new(alloc),
        }
    }

    /// How many names there are, each as often as it was put in.
    pub fn len(&self) -> usize
        ensures { result ≡ length self.now }
    {
        self.names.len()
    }

    /// The number of a name: the index of the first that is it.
    pub fn get(&self, name: &Name) -> Option<usize>
        ensures { result ≡ number_of name.now self.now }
    {
        self.numbers.get(name).copied()
    }

    /// Puts a name at the end. A name that comes twice has the first number. Fails where memory runs out, and then
    /// nothing has changed.
    pub fn push(&mut self, alloc: Global, name: &Name) -> Result<(), NoMemory>
        ensures pushed { OnOk result (self.new ≡ self.old ++ name.now ∷ []) }
        ensures unchanged { OnErr result (self.new ≡ self.old) }
    {
        let copy = name.copy(alloc)?;
        if self.get(name).is_some() {
            self.names.push(copy)?;
            return Ok(());
        }
        let key = name.copy(alloc)?;
        let number = self.names.len();
        self.names.push(copy)?;
        match self.numbers.insert(key, number) {
            Ok(_) => Ok(()),
            Err(error) => {
                self.names.pop();
                Err(AllocError::from(error).into())
            }
        }
    }
}
