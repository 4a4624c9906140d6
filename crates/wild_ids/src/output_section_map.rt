//! Maps from output sections.

ghost use Rattle.std.specs.Prelude.{◌≡◌, ℕ, ◌+◌, ◌-◌, ◌<◌, ◌^◌, List, [], ◌∷◌, ◌++◌, length, slice_get, slice_set, Some, IfOk, IfErr};
ghost use Rattle.std.specs.Borrow.{Lends, sem};
ghost use Rattle.std.specs.Iterator.{YieldsFirstBy, YieldsFirstRef, item_count};
ghost use Rattle.std.specs.List.{All};
ghost use Rattle.wild_ids.specs.Calls.{CallsEach, TriesEach, ChangesEach, MapsEach};
ghost use Rattle.wild_ids.specs.Entries.{numbered};
ghost use Rattle.wild_ids.specs.contracts.output_section_map.OutputSectionMap.{the_row};

use crate::output_section_id::OutputSectionId;
use std::alloc::Global;
use std::marker::Model;
use wild_names::NoMemory;

/// A value for each output section, in the order of ids, from 0 on. Contracts see it as the list of the values.
#[derive(Debug, Drop)]
pub struct OutputSectionMap<T> {
    values: Vec<T>,
}

impl<T> Model for OutputSectionMap<T> {
    ghost use Rattle.std.specs.Prelude.{List, ◌<◌, ◌^◌, length};

    ghost Value = { List T };

    ghost view = { λ map. map.values.items };

    ghost invariant = { λ map. length map.values.items < 2 ^ 32 };
}

impl<T: Default> OutputSectionMap<T> {
    /// A map of so many sections, fewer than 2 ^ 32, each with the default value. Fails where memory runs out.
    pub fn with_size(alloc: Global, len: usize) -> Result<OutputSectionMap<T>, NoMemory>
        requires { len < 2 ^ 32 }
        ensures len { IfOk result (λ map. length map ≡ len) }
        ensures defaults { IfOk result (λ map. All T.is_default map) }
    {
        let mut values = Vec::with_capacity(alloc, len)?;
        for _ in 0..len {
            values.push_reserved(T::default());
        }
        Ok(OutputSectionMap { values })
    }
}

impl<T> OutputSectionMap<T> {
    /// The map of these values, fewer than 2 ^ 32.
    pub fn from_values(values: Vec<T>) -> OutputSectionMap<T>
        requires { length values.items < 2 ^ 32 }
        ensures { result ≡ values.items }
    {
        OutputSectionMap { values }
    }

    /// How many sections have a value.
    pub fn len(&self) -> usize
        ensures { result ≡ length self.now }
    {
        self.values.len()
    }

    /// The value of the section, which has to have one.
    pub fn get(&self, id: OutputSectionId) -> &T
        requires { id < length self.now }
        ensures { slice_get self.now id ≡ Some result.now }
    {
        &self.values[id.as_usize()]
    }

    /// The same, to be changed.
    pub fn get_mut(&mut self, id: OutputSectionId) -> &mut T
        requires { id < length self.old }
        ensures* writes_back { sem 𝓛 (Lends (the_row T.row) T.row self.entry result (slice_set self.old id)) }
        ensures value { slice_get self.old id ≡ Some result.now }
    {
        &mut self.values[id.as_usize()]
    }

    /// Gives the value to a new section, whose id is the number of sections so far, and has to be below 2 ^ 32 - 1.
    /// Where memory runs out it hands the value back, and the map is as before.
    pub fn add_new(&mut self, value: T) -> Result<OutputSectionId, T>
        requires { length self.old < 2 ^ 32 - 1 }
        ensures ok { IfOk result (λ id. (id ≡ length self.old) × (self.new ≡ self.old ++ value ∷ [])) }
        ensures err { IfErr result (λ back. (back ≡ value) × (self.new ≡ self.old)) }
    {
        let id = OutputSectionId::from_usize(self.values.len());
        match self.values.push(value) {
            Ok(()) => Ok(id),
            Err(failed) => Err(failed.value),
        }
    }

    /// The sections and their values, in the order of ids.
    pub fn iter(&self) -> SectionEntries<'_, T>
        ensures { result ≡ numbered 0 self.now }
    {
        SectionEntries {
            next: 0,
            values: &self.values,
        }
    }

    /// The values, in the order of ids.
    pub fn values_iter(&self) -> SectionValues<'_, T>
        ensures { result ≡ self.now }
    {
        SectionValues {
            values: &self.values,
        }
    }

    /// Calls the closure at each section and its value, in the order of ids.
    pub fn for_each<F: FnMut(OutputSectionId, &T)>(&self, cb: F)
        requires { F.IsAlwaysCallable cb }
        ensures { (last : F) × CallsEach F.step cb 0 self.now last }
    {
        call_each(&self.values, cb)
    }

    /// The same, where the closure may change the value.
    pub fn for_each_mut<F: FnMut(OutputSectionId, &mut T)>(&mut self, cb: F)
        requires { F.IsAlwaysCallable cb }
        ensures { (last : F) × ChangesEach F.step cb 0 self.old self.new last }
    {
        change_each(&mut self.values, cb)
    }

    /// Calls the closure at each section and its value, in the order of ids, up to the first refusal, which is the
    /// answer.
    pub fn try_for_each<E, F: FnMut(OutputSectionId, &T) -> Result<(), E>>(
        &self,
        cb: F,
    ) -> Result<(), E>
        requires { F.IsAlwaysCallable cb }
        ensures { (last : F) × TriesEach F.step cb 0 self.now result last }
    {
        try_each(&self.values, cb)
    }
}

impl<T: Drop> OutputSectionMap<T> {
    /// The closure's answers at the values, in the order of ids. Where memory runs out it fails, and the values are
    /// dropped.
    pub fn into_map<U, F: FnMut(T) -> U>(
        self,
        alloc: Global,
        cb: F,
    ) -> Result<OutputSectionMap<U>, NoMemory>
        requires { F.IsAlwaysCallable cb }
        ensures { IfOk result (λ map. (last : F) × MapsEach F.step cb self map last) }
    {
        let values = map_each(alloc, self.values, cb)?;
        Ok(OutputSectionMap { values })
    }
}

fn map_each<T: Drop, U, F: FnMut(T) -> U>(
    alloc: Global,
    values: Vec<T>,
    mut cb: F,
) -> Result<Vec<U>, NoMemory>
    requires { F.IsAlwaysCallable cb }
    ensures len { IfOk result (λ all. length all.items ≡ length values.items) }
    ensures calls { IfOk result (λ all. (last : F) × MapsEach F.step cb values.items all.items last) }
{
    let mut all = Vec::with_capacity(alloc, values.len())?;
    for value in values {
        all.push_reserved(cb(value));
    }
    Ok(all)
}

fn call_each<T, F: FnMut(OutputSectionId, &T)>(values: &[T], mut cb: F)
    requires few { length values.now < 2 ^ 32 }
    requires callable { F.IsAlwaysCallable cb }
    ensures { (last : F) × CallsEach F.step cb 0 values.now last }
{
    let mut left = values;
    let mut id = 0;
    while let Some((x, tail)) = left.split_first() {
        cb(OutputSectionId(id), x);
        id += 1;
        left = tail;
    }
}

fn change_each<T, F: FnMut(OutputSectionId, &mut T)>(values: &mut [T], mut cb: F)
    requires few { length values.old < 2 ^ 32 }
    requires callable { F.IsAlwaysCallable cb }
    ensures { (last : F) × ChangesEach F.step cb 0 values.old values.new last }
{
    for i in 0..values.len() {
        cb(OutputSectionId(i as u32), &mut values[i]);
    }
}

fn try_each<T, E, F: FnMut(OutputSectionId, &T) -> Result<(), E>>(
    values: &[T],
    mut cb: F,
) -> Result<(), E>
    requires few { length values.now < 2 ^ 32 }
    requires callable { F.IsAlwaysCallable cb }
    ensures { (last : F) × TriesEach F.step cb 0 values.now result last }
{
    let mut rest = values;
    let mut id = 0;
    while let Some((x, tail)) = rest.split_first() {
        match cb(OutputSectionId(id), x) {
            Ok(()) => {
                id += 1;
                rest = tail;
            }
            Err(refusal) => return Err(refusal),
        }
    }
    Ok(())
}

/// The sections of a map with their values, those that are left. Contracts see it as the list of them.
#[derive(Drop)]
pub struct SectionEntries<'a, T> {
    next: u32,
    values: &'a [T],
}

impl<'a, T> Model for SectionEntries<'a, T> {
    ghost use Rattle.std.specs.Prelude.{ℕ, List, ◌+◌, ◌<◌, ◌^◌, length};
    ghost use Rattle.wild_ids.specs.Entries.{numbered};

    ghost Value = { List (ℕ × T) };

    ghost view = { λ left. numbered left.next left.values.now };

    ghost invariant = { λ left. left.next + length left.values.now < 2 ^ 32 };
}

impl<'a, T> Iterator for SectionEntries<'a, T> {
    type Item = (OutputSectionId, &'a T);

    ghost next_gives = { YieldsFirstBy (λ entry. (entry.0, entry.1.now)) (λ left. left) };

    ghost remaining = { item_count (λ left. left) };

    fn next(&mut self) -> Option<(OutputSectionId, &'a T)> {
        let (value, others) = self.values.split_first()?;
        let id = OutputSectionId(self.next);
        self.next += 1;
        self.values = others;
        Some((id, value))
    }
}

/// The values of a map that are left. Contracts see it as the list of them.
#[derive(Drop)]
pub struct SectionValues<'a, T> {
    values: &'a [T],
}

impl<'a, T> Model for SectionValues<'a, T> {
    ghost use Rattle.std.specs.Prelude.{List};

    ghost Value = { List T };

    ghost view = { λ left. left.values.now };
}

impl<'a, T> Iterator for SectionValues<'a, T> {
    type Item = &'a T;

    ghost next_gives = { YieldsFirstRef (λ left. left) };

    ghost remaining = { item_count (λ left. left) };

    fn next(&mut self) -> Option<&'a T> {
        let (value, others) = self.values.split_first()?;
        self.values = others;
        Some(value)
    }
}
