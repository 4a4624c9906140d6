//! Numbers of rules, found by the bytes with which a name begins.

ghost use Rattle.std.specs.Prelude.{◌≡◌, ◌++◌, [], ◌∷◌, if◌then◌else◌, length, ℕ, List, OnOk};
ghost use Rattle.std.specs.Option.{option_map};
ghost use Rattle.wild_rules.specs.Index as spec;

use crate::literal::{Key, SHORTEST, literal_key};
use sqlite_items::Items;
use std::alloc::{AllocError, Global};
use std::collections::HashMap;
use wild_base::NoMemory;

/// The numbers of rules, each list rising.
#[derive(Debug, Drop)]
pub struct Index {
    /// Those of the rules that have a literal, by it.
    by_literal: HashMap<Key, Items<usize>>,
    /// The lengths of these literals from the shortest one on that is no whole name, each once.
    lengths: Items<usize>,
    /// Those of all other rules.
    short: Items<usize>,
}

impl Index {
    /// The index of no rules.
    pub fn new(alloc: Global) -> Index
        ensures found { (q : List ℕ) → spec.numbers_at result q ≡ [] }
        ensures lengths { result.lengths ≡ [] }
        ensures short { result.short ≡ [] }
    {
        Index {
            by_literal: HashMap::new(alloc),
            lengths: Items::new(alloc),
            short: Items::new(alloc),
        }
    }

    // The length is one of those that are looked for.
    fn measure(&mut self, length: usize) -> Result<(), AllocError>
        ensures found { self.new.by_literal ≡ self.old.by_literal }
        ensures lengths { OnOk result (self.new.lengths ≡ spec.measured length self.old.lengths) }
        ensures short { self.new.short ≡ self.old.short }
    {
        if length >= SHORTEST && !self.lengths.as_slice().contains(&length) {
            self.lengths.push(length)?;
        }
        Ok(())
    }

    // Puts a number behind those of a key.
    fn push_at(&mut self, alloc: Global, key: Key, number: usize) -> Result<(), NoMemory>
        ensures found { OnOk result ((q : List ℕ) → spec.numbers_at self.new q ≡ spec.numbers_at self.old q ++ (if spec.is_key (spec.literal_key q) (Some key) then number ∷ [] else [])) }
        ensures lengths { OnOk result (self.new.lengths ≡ self.old.lengths) }
        ensures short { OnOk result (self.new.short ≡ self.old.short) }
    {
        let entry = self.by_literal.entry(key)?;
        let numbers = entry.or_insert(Items::new(alloc));
        numbers.push(number)?;
        Ok(())
    }

    /// Puts a number behind those of this literal, or of the rules without one.
    pub fn push(
        &mut self,
        alloc: Global,
        literal: Option<Vec<u8>>,
        number: usize,
    ) -> Result<(), NoMemory>
        ensures found { OnOk result ((q : List ℕ) → spec.numbers_at self.new q ≡ spec.numbers_at self.old q ++ (if spec.is_key (spec.literal_key q) (spec.literal_key_of (option_map (λ bytes. bytes.items) literal)) then number ∷ [] else [])) }
        ensures lengths { OnOk result (self.new.lengths ≡ spec.measured_with (option_map (λ bytes. bytes.items) literal) self.old.lengths) }
        ensures short { OnOk result (self.new.short ≡ self.old.short ++ (if spec.is_short_key (option_map (λ bytes. bytes.items) literal) then number ∷ [] else [])) }
    {
        match literal {
            Some(literal) => {
                self.measure(literal.len())?;
                self.push_at(alloc, literal_key(literal.as_slice()), number)
            }
            None => {
                self.short.push(number)?;
                Ok(())
            }
        }
    }

    /// The numbers of the rules that have this literal.
    pub fn numbers_at(&self, literal: &[u8]) -> &[usize]
        ensures { result.now ≡ spec.numbers_at self.now literal.now }
    {
        match self.by_literal.get(&literal_key(literal)) {
            Some(numbers) => numbers.as_slice(),
            None => {
                let none: &[usize] = &[];
                none
            }
        }
    }

    /// The lengths at which the beginning of a name may be a literal of rules.
    pub fn lengths(&self) -> &[usize]
        ensures { result.now ≡ self.now.lengths }
    {
        self.lengths.as_slice()
    }

    /// The numbers of the rules without a literal.
    pub fn short(&self) -> &[usize]
        ensures { result.now ≡ self.now.short }
    {
        self.short.as_slice()
    }
}
