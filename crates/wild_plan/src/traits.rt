//! What the rows of a section say of it.

ghost use Rattle.std.specs.Prelude.{◌≡◌, ℕ, [], ◌∷◌, OnOk, IfOk, ◌==◌, if◌then◌else◌, slice_get, length, Some, ◌<◌};
ghost use Rattle.wild_plan_spec.specs.Chunks.{alignment_of, is_in, section_rows};
ghost use Rattle.wild_plan.specs.Traits.{traits_of, traits_at, joined};

use bitflags::Flags;
use std::alloc::Global;
use std::collections::BTreeMap;
use wild_base::{Alignment, InputFlags, NoMemory};
use wild_plan_spec::{InputRow, Kept};

/// What the rows of a section say of it.
#[derive(Clone, Copy, Debug)]
pub struct Traits {
    /// The largest alignment of its rows, or 1.
    pub alignment: Alignment,
    /// There is a row.
    pub rows: bool,
    /// Some row is in memory.
    pub alloc: bool,
    /// Some row is writable.
    pub write: bool,
    /// Some row is executable.
    pub exec: bool,
    /// Some row has bits in the file.
    pub bits: bool,
    /// Some row is thread-local.
    pub tls: bool,
}

/// The traits of each section that has rows, by its number.
#[derive(Drop)]
pub struct SectionTraits {
    pub by_section: BTreeMap<usize, Traits>,
}

/// The alignment of a row, or 1 where it has none.
pub(crate) fn alignment_of(row: &InputRow) -> Alignment
    ensures { result ≡ alignment_of row.now }
{
    match Alignment::new(row.alignment) {
        Ok(alignment) => alignment,
        Err(_) => wild_base::alignment::MIN,
    }
}

impl Traits {
    // Those of one row.
    fn of_row(row: &InputRow) -> Traits
        ensures { result ≡ traits_of (row.now ∷ []) }
    {
        let flags = row.flags;
        Traits {
            alignment: alignment_of(row),
            rows: true,
            alloc: flags.contains(InputFlags::ALLOC),
            write: flags.contains(InputFlags::WRITE),
            exec: flags.contains(InputFlags::EXEC),
            bits: !flags.contains(InputFlags::NOBITS),
            tls: flags.contains(InputFlags::TLS),
        }
    }

    // Those of the rows of both.
    fn joined(self, other: Traits) -> Traits
        ensures { result ≡ joined self other }
    {
        Traits {
            alignment: self.alignment.max(other.alignment),
            rows: self.rows | other.rows,
            alloc: self.alloc | other.alloc,
            write: self.write | other.write,
            exec: self.exec | other.exec,
            bits: self.bits | other.bits,
            tls: self.tls | other.tls,
        }
    }
}

impl SectionTraits {
    /// The traits of the section of this number.
    pub fn get(&self, section: usize) -> Traits
        ensures { result ≡ traits_at self.now section }
    {
        match self.by_section.get(&section) {
            Some(traits) => *traits,
            None => NONE,
        }
    }

    fn new(alloc: Global) -> SectionTraits
        ensures { (s : ℕ) → traits_at result s ≡ traits_of [] }
    {
        SectionTraits {
            by_section: BTreeMap::new(alloc),
        }
    }

    /// One more row of this section.
    fn note(&mut self, section: usize, row: &InputRow) -> Result<(), NoMemory>
        ensures { OnOk result ((s : ℕ) → traits_at self.new s ≡ (if section == s then joined (traits_at self.old s) (traits_of (row.now ∷ [])) else traits_at self.old s)) }
    {
        let traits = self.get(section).joined(Traits::of_row(row));
        self.by_section.insert(section, traits)?;
        Ok(())
    }

    /// One more row, in the section of its chunk, where it has one.
    fn note_kept(&mut self, fate: Option<Kept>, row: &InputRow) -> Result<(), NoMemory>
        ensures { OnOk result ((s : ℕ) → traits_at self.new s ≡ (if is_in s fate then joined (traits_at self.old s) (traits_of (row.now ∷ [])) else traits_at self.old s)) }
    {
        match fate {
            Some(kept) => self.note(kept.chunk.section, row),
            None => Ok(()),
        }
    }
}

/// The traits of a section without rows.
pub const NONE: Traits = Traits {
    alignment: wild_base::alignment::MIN,
    rows: false,
    alloc: false,
    write: false,
    exec: false,
    bits: false,
    tls: false,
};

fn fate_at(fates: &[Option<Kept>], index: usize) -> Option<Kept>
    requires { index < length fates.now }
    ensures { slice_get fates.now index ≡ Some result }
{
    fates[index]
}

/// The traits of all sections, by the rows and the fate of each. Fails where memory runs out.
pub fn find_traits(
    alloc: Global,
    rows: &[InputRow],
    fates: &[Option<Kept>],
) -> Result<SectionTraits, NoMemory>
    requires { length fates.now ≡ length rows.now }
    ensures { IfOk result (λ traits. (s : ℕ) → traits_at traits s ≡ traits_of (section_rows s rows.now fates.now)) }
{
    let mut traits = SectionTraits::new(alloc);
    for (index, row) in rows.iter().enumerate() {
        traits.note_kept(fate_at(fates, index), row)?;
    }
    Ok(traits)
}
