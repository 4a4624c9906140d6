//! The sections that have ended, by which those are found that share an address.

ghost use Rattle.std.specs.Prelude.{◌≡◌, ◌==◌, ℕ, ◌&&◌, not, nat_lt, Bool, Some, None, MatchOption, OnOk, if◌then◌else◌};
ghost use Rattle.wild_eval.specs.Addresses.{known_of};
ghost use Rattle.wild_fates.specs.Shown.{shown_place};
ghost use Rattle.wild_plan_spec.specs.Overlaps.{lowest_sharing};
ghost use Rattle.wild_plan_spec.specs.Steps.{is_floating};
ghost use Rattle.wild_plan.specs.Ground.{shown_ground};
ghost use Rattle.wild_plan.specs.Taken.{AreTaken, EndsFirst, NoneEnds, ends_of, with_end, noted};

use crate::ground::Ground;
use std::alloc::{AllocError, Global};
use std::collections::BTreeMap;
use std::ops::Bound;
use wild_eval::Addresses;
use wild_fates::Place;

/// The sections that have ended and hold an address, without the floating ones.
#[derive(Drop)]
pub struct Taken {
    /// Their numbers by their ends. No two of them share an address, so they start in the same order.
    by_end: BTreeMap<u64, usize>,
}

impl Taken {
    /// There are none.
    pub fn new(alloc: Global) -> Taken
        ensures { (end : ℕ) → ends_of result end ≡ None }
    {
        Taken {
            by_end: BTreeMap::new(alloc),
        }
    }

    // The section that ends first behind an address.
    fn first_behind(&self, address: u64) -> Option<usize>
        ensures { MatchOption result (NoneEnds (ends_of self.now) address) (EndsFirst (ends_of self.now) address) }
    {
        let mut behind = self
            .by_end
            .range((Bound::Excluded(address), Bound::Unbounded));
        match behind.next() {
            Some((_, section)) => Some(*section),
            None => None,
        }
    }

    /// The section that starts lowest of those that share an address with those from start up to end.
    pub fn lowest_sharing(&self, addresses: &Addresses, start: u64, end: u64) -> Option<usize>
        ensures { (floating : ℕ → Bool) (n : ℕ) → AreTaken floating (known_of addresses.now) n (ends_of self.now)
            → result ≡ lowest_sharing floating (known_of addresses.now) start end n }
    {
        let section = self.first_behind(start)?;
        if start < end && addresses.start(section) < end {
            Some(section)
        } else {
            None
        }
    }

    // A section has ended. It is kept where it holds an address, and doesn't float.
    fn take(
        &mut self,
        ground: &Ground<'_>,
        addresses: &Addresses,
        section: usize,
    ) -> Result<(), AllocError>
        ensures { OnOk result ((end : ℕ) → ends_of self.new end ≡ with_end (is_floating (shown_ground ground.now)) (known_of addresses.now) section (ends_of self.old) end) }
    {
        let end = addresses.end(section);
        if !ground.is_floating(section) && addresses.start(section) < end {
            self.by_end.insert(end, section)?;
        }
        Ok(())
    }

    /// A place has had its effect, which may be the end of a section.
    pub fn note(
        &mut self,
        ground: &Ground<'_>,
        addresses: &Addresses,
        place: &Place<'_>,
    ) -> Result<(), AllocError>
        ensures { OnOk result ((end : ℕ) → ends_of self.new end ≡ noted (is_floating (shown_ground ground.now)) (known_of addresses.now) (shown_place place.now) (ends_of self.old) end) }
    {
        match *place {
            Place::Close(section, _) => self.take(ground, addresses, section),
            _ => Ok(()),
        }
    }
}
