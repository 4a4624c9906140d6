//! What is kept of definitions.

ghost use Rattle.std.specs.Prelude.{◌≡◌, ◌==◌, ℕ, if◌then◌else◌, OnOk, OnErr, replicate, set};
ghost use Rattle.wild_eval.specs.Slots.{slot_in};
ghost use Rattle.wild_memo_laws.specs.declared.slot.Slot.TheVariants.{Unseen};
ghost use Rattle.wild_memo_laws.specs.Running.{slot_at};

use std::alloc::{AllocError, Global};
use std::collections::BTreeMap;
use std::marker::Model;
use wild_memo_laws::Slot;

/// What is kept of each of so many definitions, by their numbers. Contracts see it as a list.
#[derive(Drop)]
pub struct Memo {
    // No slot that is unseen.
    slots: BTreeMap<usize, Slot>,
    count: usize,
}

impl Model for Memo {
    ghost use Rattle.std.specs.Prelude.{List};
    ghost use Rattle.wild_memo_laws.specs.declared.slot.Slot.{Slot};
    ghost use Rattle.wild_eval.specs.Slots.{listed_slots};

    ghost Value = { List Slot };

    ghost view = { λ memo. listed_slots memo.slots memo.count };
}

// Puts a slot to a number. Nothing changes where memory runs out.
fn put(slots: &mut BTreeMap<usize, Slot>, number: usize, slot: Slot) -> Result<(), AllocError>
    ensures put { OnOk result ((i : ℕ) → slot_in slots.new i ≡ (if number == i then slot else slot_in slots.old i)) }
    ensures same { OnErr result ((i : ℕ) → slot_in slots.new i ≡ slot_in slots.old i) }
{
    slots.insert(number, slot)?;
    Ok(())
}

// Takes out the slot of a number.
fn take_out(slots: &mut BTreeMap<usize, Slot>, number: usize)
    ensures { (i : ℕ) → slot_in slots.new i ≡ (if number == i then Unseen else slot_in slots.old i) }
{
    slots.remove(&number);
}

impl Memo {
    /// Nothing is kept of so many definitions.
    pub fn new(alloc: Global, count: usize) -> Memo
        ensures { result ≡ replicate count Unseen }
    {
        Memo {
            slots: BTreeMap::new(alloc),
            count,
        }
    }

    /// What is kept of the definition of a number.
    pub fn at(&self, number: usize) -> Slot
        ensures { result ≡ slot_at number self.now }
    {
        if number >= self.count {
            return Slot::Unseen;
        }
        match self.slots.get(&number) {
            Some(slot) => *slot,
            None => Slot::Unseen,
        }
    }

    /// Keeps this of the definition of a number, where there is one. Nothing changes where memory runs out.
    pub fn mark(&mut self, number: usize, slot: Slot) -> Result<(), AllocError>
        ensures marked { OnOk result (self.new ≡ set self.old number slot) }
        ensures same { OnErr result (self.new ≡ self.old) }
    {
        if number < self.count {
            put(&mut self.slots, number, slot)?;
        }
        Ok(())
    }

    /// Keeps nothing of it any more.
    pub fn forget(&mut self, number: usize)
        ensures { self.new ≡ set self.old number Unseen }
    {
        take_out(&mut self.slots, number);
    }
}
