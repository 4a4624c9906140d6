//! Maps from the parts of output sections.

ghost use Rattle.std.specs.Prelude.{◌≡◌, ℕ, ◌+◌, ◌-◌, ◌<◌, ◌≤◌, ◌^◌, ◌||◌, ◌↔◌, Bool, false, if◌then◌else◌, None, List, [], ◌∷◌, Some, IsTrue, IfOk, OnOk, OnErr, IsOk, length};
ghost use Rattle.std.specs.Borrow.{Lends, LendsSoOk, sem};
ghost use Rattle.std.specs.List.{All};
ghost use Rattle.std.specs.Map.{values_of};
ghost use Rattle.wild_part_maps.specs.contracts.output_section_part_map.OutputSectionPartMap.{the_row};
ghost use Rattle.wild_part_maps.specs.Calls.{MapsEntries, ChangesEntries};
ghost use Rattle.wild_part_maps.specs.Changes.{with_value, Updates, Reserves, AddsDefaults, IsSum, SumsFit};
ghost use Rattle.wild_part_maps.specs.Parts.{PartValues, RisesFrom, entries, entries_in, has_entry, is_between, kept, value_in, IsValueAt, number_at};
ghost use Rattle.wild_part_maps.specs.Starts.{Starts};

use crate::range_iterator::{RangeIterator, RangeValues};
use std::alloc::Global;
use std::collections::BTreeMap;
use std::marker::Model;
use std::mem;
use std::ops::Range;
use wild_ids::PartId;
use wild_names::NoMemory;

/// A value for each part of output sections. The first parts, the dense ones, each have an entry; of further parts
/// those that were asked to be changed have one. What has no entry counts as a default. Contracts see the map as the
/// dense values, and the further parts with theirs.
#[derive(Debug, Drop)]
pub struct OutputSectionPartMap<T> {
    parts: Vec<T>,
    sparse: BTreeMap<PartId, T>,
}

impl<T> Model for OutputSectionPartMap<T> {
    ghost use Rattle.std.specs.Prelude.{◌<◌, ◌^◌, length};
    ghost use Rattle.wild_part_maps.specs.Parts.{PartValues, RisesFrom};

    ghost Value = { PartValues T };

    ghost view = { λ map. record { dense = map.parts.items; sparse = map.sparse.entries } };

    ghost invariant = { λ map. (length map.parts.items < 2 ^ 32) × RisesFrom (length map.parts.items) map.sparse.entries };
}

impl<T: Default> OutputSectionPartMap<T> {
    /// A map with so many dense parts, fewer than 2 ^ 32, each with a default value, and no others. Fails where memory
    /// runs out.
    pub fn with_dense_size(alloc: Global, size: usize) -> Result<OutputSectionPartMap<T>, NoMemory>
        requires { size < 2 ^ 32 }
        ensures size { IfOk result (λ map. length map.dense ≡ size) }
        ensures defaults { IfOk result (λ map. All T.is_default map.dense) }
        ensures sparse { IfOk result (λ map. map.sparse ≡ []) }
    {
        let mut parts = Vec::with_capacity(alloc, size)?;
        for _ in 0..size {
            parts.push_reserved(T::default());
        }
        Ok(OutputSectionPartMap {
            parts,
            sparse: BTreeMap::new(alloc),
        })
    }
}

impl<T> OutputSectionPartMap<T> {
    /// A map with as many dense parts, each with a default value, and no others. Fails where memory runs out.
    pub fn new_empty_like<U: Default>(
        &self,
        alloc: Global,
    ) -> Result<OutputSectionPartMap<U>, NoMemory>
        ensures size { IfOk result (λ map. length map.dense ≡ length self.now.dense) }
        ensures defaults { IfOk result (λ map. All U.is_default map.dense) }
        ensures sparse { IfOk result (λ map. map.sparse ≡ []) }
    {
        OutputSectionPartMap::with_dense_size(alloc, self.parts.len())
    }

    /// Whether the part has an entry: it is dense, or a value is kept for it.
    pub fn has_entry(&self, part: PartId) -> bool
        ensures { result ≡ has_entry self.now part }
    {
        if part.as_usize() < self.parts.len() {
            return true;
        }
        self.sparse.contains_key(&part)
    }

    /// The value of the part, or a default where it has no entry.
    pub fn get(&self, part: PartId) -> T
    where
        T: Default + Copy,
        ensures { IsValueAt T.is_default self.now part result }
    {
        if part.as_usize() < self.parts.len() {
            return self.parts[part.as_usize()];
        }
        match self.sparse.get(&part) {
            Some(value) => *value,
            None => T::default(),
        }
    }

    /// The value of a part that has an entry, to be changed.
    fn lent(&mut self, part: PartId) -> &mut T
        requires { IsTrue (has_entry self.old part) }
        ensures* writes_back { sem 𝓛 (Lends (the_row T.row) T.row self.entry result (with_value self.old part)) }
        ensures value { kept self.old part ≡ Some result.now }
    {
        if part.as_usize() < self.parts.len() {
            return &mut self.parts[part.as_usize()];
        }
        match self.sparse.get_mut(&part) {
            Some(value) => value,
            None => unreachable!(),
        }
    }

    /// The entries of a range of parts that is not reversed, in rising order.
    pub fn in_range(&self, range: Range<PartId>) -> RangeIterator<'_, T>
        requires { range.start ≤ range.end }
        ensures value { result ≡ entries_in self.now range.start range.end }
        ensures rising { RisesFrom range.start result }
        ensures listed { (q : ℕ) → value_in result q ≡ (if is_between range.start range.end q then kept self.now q else None) }
        ensures fits { length result < 2 ^ 64 }
    {
        let len = self.parts.len();
        let first = range.start.as_usize().min(len);
        let last = range.end.as_usize().min(len);
        RangeIterator {
            next: first as u32,
            dense: &self.parts[first..last],
            sparse: self.sparse.range(range),
        }
    }

    /// The values of these entries, in the same order.
    #[tactic(auto, using(crate::proofs::Lists::values_fit))]
    pub fn values_in_range(&self, range: Range<PartId>) -> RangeValues<'_, T>
        requires { range.start ≤ range.end }
        ensures value { result ≡ values_of (entries_in self.now range.start range.end) }
        ensures fits { length result < 2 ^ 64 }
    {
        RangeValues {
            entries: self.in_range(range),
        }
    }

    /// All entries, in rising order of the parts.
    pub fn iter(&self) -> RangeIterator<'_, T>
        ensures value { result ≡ entries self.now }
        ensures rising { RisesFrom 0 result }
        ensures listed { (q : ℕ) → value_in result q ≡ kept self.now q }
        ensures fits { length result < 2 ^ 64 }
    {
        RangeIterator {
            next: 0,
            dense: &self.parts,
            sparse: self.sparse.range(..),
        }
    }
}

impl<T: Default + Drop> OutputSectionPartMap<T> {
    /// Keeps a default value for the part, where it has no entry. Then it may fail where memory runs out, and nothing
    /// has changed.
    pub fn reserve_part(&mut self, part: PartId) -> Result<(), NoMemory>
        ensures ok { OnOk result (Reserves T.is_default self.old part self.new) }
        ensures err { OnErr result (self.new ≡ self.old) }
        ensures succeeds { IsTrue (has_entry self.old part) → IsOk result }
    {
        if self.has_entry(part) {
            return Ok(());
        }
        self.sparse.insert(part, T::default())?;
        Ok(())
    }

    /// The value of the part, to be changed. A part without an entry gets one, with a default value: then it may fail
    /// where memory runs out, and nothing has changed.
    pub fn get_mut(&mut self, part: PartId) -> Result<&mut T, NoMemory>
        ensures* writes_back { sem 𝓛 (LendsSoOk (the_row T.row) T.row self.entry result (λ n w. Updates self.old part w n) (λ n. n ≡ self.old)) }
        ensures value { IfOk result (λ lent. IsValueAt T.is_default self.old part lent.now) }
        ensures succeeds { IsTrue (has_entry self.old part) → IsOk result }
    {
        self.reserve_part(part)?;
        Ok(self.lent(part))
    }

    /// Takes the value of the part out, and leaves a default. A part without an entry gets one: then it may fail where
    /// memory runs out, and nothing has changed.
    pub fn take(&mut self, part: PartId) -> Result<T, NoMemory>
        ensures value { IfOk result (λ v. IsValueAt T.is_default self.old part v) }
        ensures left { OnOk result ((d : T) × T.is_default d × Updates self.old part d self.new) }
        ensures err { OnErr result (self.new ≡ self.old) }
        ensures succeeds { IsTrue (has_entry self.old part) → IsOk result }
    {
        self.reserve_part(part)?;
        Ok(mem::replace(self.lent(part), T::default()))
    }
}

impl OutputSectionPartMap<u64> {
    /// Adds to the value of a part that has an entry. The sum has to be below 2 ^ 64.
    pub fn increment(&mut self, part: PartId, size: u64)
        requires entry { IsTrue (has_entry self.old part) }
        requires fits { number_at self.old part + size < 2 ^ 64 }
        ensures { Updates self.old part (number_at self.old part + size) self.new }
    {
        *self.lent(part) += size;
    }

    /// Subtracts from the value of a part that has an entry, and at least this value.
    pub fn decrement(&mut self, part: PartId, size: u64)
        requires entry { IsTrue (has_entry self.old part) }
        requires fits { size ≤ number_at self.old part }
        ensures { Updates self.old part (number_at self.old part - size) self.new }
    {
        *self.lent(part) -= size;
    }
}

impl<T: Default + Drop> OutputSectionPartMap<T> {
    /// Keeps a default value for each part that has an entry in the other map, and none here.
    fn reserve_entries<U>(&mut self, other: &OutputSectionPartMap<U>) -> Result<(), NoMemory>
        ensures adds { AddsDefaults T.is_default self.old self.new }
        ensures parts { OnOk result ((q : ℕ) → has_entry self.new q ≡ (has_entry self.old q || has_entry other.now q)) }
    {
        let mut left = other.iter();
        while let Some((part, _)) = left.next() {
            self.reserve_part(part)?;
        }
        Ok(())
    }

    /// Puts a value in place of that of a part that has an entry.
    fn put(&mut self, part: PartId, value: T)
        requires { IsTrue (has_entry self.old part) }
        ensures { Updates self.old part value self.new }
    {
        *self.lent(part) = value;
    }
}

impl<T> OutputSectionPartMap<T> {
    /// A map with a default value for each part that has an entry here.
    fn defaults<U: Default + Drop>(
        &self,
        alloc: Global,
    ) -> Result<OutputSectionPartMap<U>, NoMemory>
        ensures size { IfOk result (λ map. length map.dense ≡ length self.now.dense) }
        ensures parts { IfOk result (λ map. (q : ℕ) → has_entry map q ≡ has_entry self.now q) }
    {
        let mut map = self.new_empty_like(alloc)?;
        map.reserve_entries(self)?;
        Ok(map)
    }

    /// The closure's answers at the entries, in rising order of the parts: they are the values of the same parts in a
    /// map with as many dense parts. Fails where memory runs out, before the first call.
    pub fn map<U: Default + Drop, F: FnMut(PartId, &T) -> U>(
        &self,
        alloc: Global,
        cb: F,
    ) -> Result<OutputSectionPartMap<U>, NoMemory>
        requires { F.IsAlwaysCallable cb }
        ensures size { IfOk result (λ map. length map.dense ≡ length self.now.dense) }
        ensures parts { IfOk result (λ map. (q : ℕ) → has_entry map q ≡ has_entry self.now q) }
        ensures calls { IfOk result (λ map. (last : F) × MapsEntries F.step map cb (entries self.now) last) }
    {
        let mut answers = self.defaults(alloc)?;
        map_entries(self, &mut answers, cb);
        Ok(answers)
    }
}

/// Calls the closure at each entry, in rising order of the parts, and puts its answers.
fn map_entries<T, U: Default + Drop, F: FnMut(PartId, &T) -> U>(
    source: &OutputSectionPartMap<T>,
    answers: &mut OutputSectionPartMap<U>,
    mut cb: F,
)
    requires callable { F.IsAlwaysCallable cb }
    requires entries { (q : ℕ) → has_entry answers.old q ≡ has_entry source.now q }
    ensures size { length answers.new.dense ≡ length answers.old.dense }
    ensures parts { (q : ℕ) → has_entry answers.new q ≡ has_entry source.now q }
    ensures calls { (last : F) × MapsEntries F.step answers.new cb (entries source.now) last }
{
    let mut left = source.iter();
    while let Some((part, value)) = left.next() {
        answers.put(part, cb(part, value));
    }
}

impl<T: Default + Drop> OutputSectionPartMap<T> {
    /// Calls the closure at each part that has an entry in the other map, in rising order, with the value here, which
    /// it may change, and the value there. Its answers are the values of these parts in a map with as many dense parts
    /// as the other. Other parts stay. Where memory runs out nothing has changed, but that parts may have entries with
    /// default values.
    pub fn mut_with_map<U, V: Default + Drop, F: FnMut(&mut T, &U) -> V>(
        &mut self,
        other: &OutputSectionPartMap<U>,
        cb: F,
    ) -> Result<OutputSectionPartMap<V>, NoMemory>
        requires { F.IsAlwaysCallable cb }
        ensures size { IfOk result (λ map. length map.dense ≡ length other.now.dense) }
        ensures parts { IfOk result (λ map. (q : ℕ) → has_entry map q ≡ has_entry other.now q) }
        ensures calls { IfOk result (λ map. (last : F) × ChangesEntries F.step (IsValueAt T.is_default self.old) self.new map cb (entries other.now) last) }
        ensures same_size { length self.new.dense ≡ length self.old.dense }
        ensures others { OnOk result ((q : ℕ) → has_entry other.now q ≡ false → kept self.new q ≡ kept self.old q) }
        ensures err { OnErr result (AddsDefaults T.is_default self.old self.new) }
    {
        let mut answers = other.defaults(*self.parts.allocator())?;
        self.reserve_entries(other)?;
        change_entries(self, other, &mut answers, cb);
        Ok(answers)
    }
}

/// Calls the closure at each entry of the second map, in rising order of the parts, and puts its answers.
fn change_entries<T, U, V: Default + Drop, F: FnMut(&mut T, &U) -> V>(
    map: &mut OutputSectionPartMap<T>,
    other: &OutputSectionPartMap<U>,
    answers: &mut OutputSectionPartMap<V>,
    mut cb: F,
)
    requires callable { F.IsAlwaysCallable cb }
    requires parts { (q : ℕ) → IsTrue (has_entry other.now q) → IsTrue (has_entry map.old q) }
    requires answers { (q : ℕ) → has_entry answers.old q ≡ has_entry other.now q }
    ensures same_size { length map.new.dense ≡ length map.old.dense }
    ensures others { (q : ℕ) → has_entry other.now q ≡ false → kept map.new q ≡ kept map.old q }
    ensures size { length answers.new.dense ≡ length answers.old.dense }
    ensures answers { (q : ℕ) → has_entry answers.new q ≡ has_entry other.now q }
    ensures calls { (last : F) × ChangesEntries F.step (λ q x. kept map.old q ≡ Some x) map.new answers.new cb (entries other.now) last }
{
    let mut left = other.iter();
    while let Some((part, value)) = left.next() {
        let answer = cb(map.lent(part), value);
        answers.put(part, answer);
    }
}

impl OutputSectionPartMap<u64> {
    /// Whether at each part that has an entry in the other map the sum of both numbers is below 2 ^ 64.
    pub fn sums_fit(&self, other: &OutputSectionPartMap<u64>) -> bool
        ensures { IsTrue result ↔ SumsFit self.now other.now }
    {
        let mut left = other.iter();
        while let Some((part, value)) = left.next() {
            if self.get(part).checked_add(*value).is_none() {
                return false;
            }
        }
        true
    }

    /// Adds the other map, part by part. The sums have to fit (`sums_fit`). Where memory runs out each part has the number
    /// that it had, though it may have an entry now.
    pub fn merge(&mut self, rhs: &OutputSectionPartMap<u64>) -> Result<(), NoMemory>
        requires { SumsFit self.old rhs.now }
        ensures ok { OnOk result (IsSum self.old rhs.now self.new) }
        ensures parts { OnOk result ((q : ℕ) → has_entry self.new q ≡ (has_entry self.old q || has_entry rhs.now q)) }
        ensures err { OnErr result (AddsDefaults (λ n. n ≡ 0) self.old self.new) }
    {
        self.reserve_entries(rhs)?;
        add_entries(self, rhs);
        Ok(())
    }

    /// Adds sizes, part by part, and answers where the ranges of these sizes start: at each part that has an entry in
    /// `sizes`, what was there before. The sums have to fit (`sums_fit`). Where memory runs out each part has the number
    /// that it had, though it may have an entry now.
    pub fn merge_and_return_start_offsets(
        &mut self,
        sizes: &OutputSectionPartMap<u64>,
    ) -> Result<OutputSectionPartMap<u64>, NoMemory>
        requires { SumsFit self.old sizes.now }
        ensures ok { IfOk result (Starts self.old sizes.now self.new) }
        ensures err { OnErr result (AddsDefaults (λ n. n ≡ 0) self.old self.new) }
    {
        let starts = self.numbers_at(sizes)?;
        self.merge(sizes)?;
        Ok(starts)
    }

    /// The numbers of the parts that have an entry in the other map.
    fn numbers_at(
        &self,
        other: &OutputSectionPartMap<u64>,
    ) -> Result<OutputSectionPartMap<u64>, NoMemory>
        ensures size { IfOk result (λ map. length map.dense ≡ length other.now.dense) }
        ensures numbers { IfOk result (λ map. (q : ℕ) → kept map q ≡ (if has_entry other.now q then Some (number_at self.now q) else None)) }
    {
        other.map(*self.parts.allocator(), |part, _| self.get(part))
    }
}

/// Adds each entry of the second map, whose parts have entries in the first.
fn add_entries(map: &mut OutputSectionPartMap<u64>, sizes: &OutputSectionPartMap<u64>)
    requires parts { (q : ℕ) → IsTrue (has_entry sizes.now q) → IsTrue (has_entry map.old q) }
    requires fits { SumsFit map.old sizes.now }
    ensures sums { IsSum map.old sizes.now map.new }
    ensures parts { (q : ℕ) → has_entry map.new q ≡ has_entry map.old q }
{
    let mut left = sizes.iter();
    while let Some((part, value)) = left.next() {
        map.increment(part, *value);
    }
}

impl<T: PartialEq> PartialEq for OutputSectionPartMap<T> {
    ghost use Rattle.std.specs.Prelude.{◌&&◌, nat_eq};
    ghost use Rattle.std.specs.Cmp.{nat_eq_equiv, partial_equiv_from_equiv, on_per, and_per};
    ghost use Rattle.std.specs.Cmp.Lexicographic.{lists_per, pointwise};

    ghost eq = { λ a b. pointwise T.eq a.dense b.dense && pointwise (λ x y. nat_eq x.0 y.0 && T.eq x.1 y.1) a.sparse b.sparse };

    ghost laws = { and_per (on_per (λ m. m.dense) (lists_per T.laws)) (on_per (λ m. m.sparse) (lists_per (and_per (on_per (λ e. e.0) (partial_equiv_from_equiv nat_eq_equiv)) (on_per (λ e. e.1) T.laws)))) };

    fn eq(&self, other: &OutputSectionPartMap<T>) -> bool {
        self.parts == other.parts && self.sparse == other.sparse
    }
}

impl<T: Eq> Eq for OutputSectionPartMap<T> {
    ghost use Rattle.std.specs.Cmp.{nat_eq_equiv, on_equiv, and_equiv};
    ghost use Rattle.std.specs.Cmp.Lexicographic.{lists_equiv};

    ghost laws = { and_equiv (on_equiv (λ m. m.dense) (lists_equiv T.Eq.laws)) (on_equiv (λ m. m.sparse) (lists_equiv (and_equiv (on_equiv (λ e. e.0) nat_eq_equiv) (on_equiv (λ e. e.1) T.Eq.laws)))) };
}
