//! What iterators over a map from parts have left.

ghost use Rattle.std.specs.Iterator.{YieldsFirstBy, YieldsFirstRef, item_count};

use std::collections::btree_map;
use std::marker::Model;
use wild_ids::PartId;

/// Parts of a map with their values, in rising order: those that are left. Contracts see it as the list of them.
#[derive(Drop)]
pub struct RangeIterator<'a, T> {
    pub(crate) next: u32,
    pub(crate) dense: &'a [T],
    pub(crate) sparse: btree_map::Range<'a, PartId, T>,
}

impl<'a, T> Model for RangeIterator<'a, T> {
    ghost use Rattle.std.specs.Prelude.{ℕ, List, ◌+◌, ◌<◌, ◌^◌, ◌++◌, length};
    ghost use Rattle.wild_ids.specs.Entries.{numbered};

    ghost Value = { List (ℕ × T) };

    ghost view = { λ left. numbered left.next left.dense.now ++ left.sparse };

    ghost invariant = { λ left. left.next + length left.dense.now < 2 ^ 32 };
}

impl<'a, T> Iterator for RangeIterator<'a, T> {
    type Item = (PartId, &'a T);

    ghost next_gives = { YieldsFirstBy (λ entry. (entry.0, entry.1.now)) (λ left. left) };

    ghost remaining = { item_count (λ left. left) };

    fn next(&mut self) -> Option<(PartId, &'a T)> {
        if let Some((value, others)) = self.dense.split_first() {
            let part = PartId(self.next);
            self.next += 1;
            self.dense = others;
            return Some((part, value));
        }
        let (part, value) = self.sparse.next()?;
        Some((*part, value))
    }
}

/// Values of parts, in the order of the parts: those that are left. Contracts see it as the list of them.
#[derive(Drop)]
pub struct RangeValues<'a, T> {
    pub(crate) entries: RangeIterator<'a, T>,
}

impl<'a, T> Model for RangeValues<'a, T> {
    ghost use Rattle.std.specs.Prelude.{List};
    ghost use Rattle.std.specs.Map.{values_of};

    ghost Value = { List T };

    ghost view = { λ left. values_of left.entries };
}

impl<'a, T> Iterator for RangeValues<'a, T> {
    type Item = &'a T;

    ghost next_gives = { YieldsFirstRef (λ left. left) };

    ghost remaining = { item_count (λ left. left) };

    fn next(&mut self) -> Option<&'a T> {
        match self.entries.next() {
            Some((_, value)) => Some(value),
            None => None,
        }
    }
}
