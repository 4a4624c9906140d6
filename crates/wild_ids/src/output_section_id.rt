//! Output sections, and which parts are theirs.

ghost use Rattle.std.specs.Prelude.{◌≡◌, ℕ, ◌+◌, ◌-◌, ◌<◌, ◌≤◌, ◌^◌, ◌↔◌, IsTrue, Some, decimal, slice_index};
ghost use Rattle.std.specs.Iterator.{YieldsFirst, item_count};
ghost use Rattle.std.specs.List.{range_with_len};
ghost use Rattle.wild_ids.specs.CommonSections.{common_number};
ghost use Rattle.wild_ids.specs.Alignment.{max_exponent};
ghost use Rattle.wild_ids.specs.Parts.{base_part, part_count, part_for, section_with, SectionFits};

use crate::alignment::{Alignment, MAX_EXPONENT, NUM_ALIGNMENTS};
use crate::part_id::PartId;
use crate::platform::PlatformIds;
use std::fmt;
use std::marker::Model;
use std::ops::Range;

/// The id of an output section. Contracts see it as the number.
#[derive(Debug, Clone, Copy, PartialEq, Eq, Hash)]
pub struct OutputSectionId(pub u32);

impl Model for OutputSectionId {
    ghost use Rattle.std.specs.Prelude.{ℕ, ◌<◌, ◌^◌};

    ghost Value = { ℕ };

    ghost view = { λ section. section.0 };

    ghost invariant = { λ section. section.0 < 2 ^ 32 };

    ghost inverse = { λ n. record { 0 = n } };
}

/// The section of what is in no output section.
pub const UNMAPPED: OutputSectionId = OutputSectionId(0);

/// The section of the file header.
pub const FILE_HEADER: OutputSectionId = OutputSectionId(1);

/// How many single-part sections all platforms have.
pub const NUM_COMMON_SINGLE_PART_SECTIONS: u32 = 2;

/// The single-part sections that all platforms have, each with the number of its section and its part; and their count.
#[derive(Debug, Clone, Copy, PartialEq, Eq)]
pub enum CommonSinglePartSectionId {
    Unmapped,
    FileHeader,
    Count,
}

impl CommonSinglePartSectionId {
    /// The part.
    pub fn part_id(self) -> PartId
        ensures { result ≡ common_number self }
    {
        PartId(self as u32)
    }

    /// The section.
    pub fn output_section_id(self) -> OutputSectionId
        ensures { result ≡ common_number self }
    {
        OutputSectionId(self as u32)
    }
}

/// The first regular section.
pub fn regular_section_base<P: PlatformIds>() -> OutputSectionId
    ensures { result ≡ P.NUM_SINGLE_PART_SECTIONS }
{
    OutputSectionId(P::NUM_SINGLE_PART_SECTIONS)
}

/// How many sections are built in.
pub fn num_built_in_sections<P: PlatformIds>() -> usize
    ensures { result ≡ P.NUM_SINGLE_PART_SECTIONS + P.NUM_BUILT_IN_REGULAR_SECTIONS }
{
    P::NUM_SINGLE_PART_SECTIONS as usize + P::NUM_BUILT_IN_REGULAR_SECTIONS
}

impl fmt::Display for OutputSectionId {
    ghost output = { λ section. Some (decimal section) };

    fn fmt<W: fmt::Write>(&self, f: &mut fmt::Formatter<W>) -> fmt::Result {
        let number = self.0;
        write!(f, "{number}")
    }
}

impl OutputSectionId {
    /// The section of this number.
    pub fn from_u32(raw: u32) -> OutputSectionId
        ensures { result ≡ raw }
    {
        OutputSectionId(raw)
    }

    /// The section of this number, which has to be below 2 ^ 32.
    pub fn from_usize(value: usize) -> OutputSectionId
        requires { value < 2 ^ 32 }
        ensures { result ≡ value }
    {
        OutputSectionId(value as u32)
    }

    /// Its number.
    pub fn as_u32(self) -> u32
        ensures { result ≡ self }
    {
        self.0
    }

    /// Its number, as an index.
    pub fn as_usize(self) -> usize
        ensures { result ≡ self }
    {
        self.0 as usize
    }

    /// The section that comes so many sections later. Its number has to be below 2 ^ 32.
    pub fn offset(self, offset: usize) -> OutputSectionId
        requires { self + offset < 2 ^ 32 }
        ensures { result ≡ self + offset }
    {
        OutputSectionId(self.0 + offset as u32)
    }

    /// Whether it has a part for each alignment.
    pub fn is_regular<P: PlatformIds>(self) -> bool
        ensures { IsTrue result ↔ (P.NUM_SINGLE_PART_SECTIONS ≤ self) }
    {
        self.0 >= P::NUM_SINGLE_PART_SECTIONS
    }

    /// Whether it isn't built in.
    pub fn is_custom<P: PlatformIds>(self) -> bool
        ensures { IsTrue result ↔ (P.NUM_SINGLE_PART_SECTIONS + P.NUM_BUILT_IN_REGULAR_SECTIONS ≤ self) }
    {
        self.as_usize() >= num_built_in_sections::<P>()
    }

    /// How many parts it has.
    pub fn num_parts<P: PlatformIds>(self) -> usize
        ensures { result ≡ part_count P.NUM_SINGLE_PART_SECTIONS self }
    {
        if self.is_regular::<P>() {
            NUM_ALIGNMENTS
        } else {
            1
        }
    }

    /// Its first part. The section has to fit.
    pub fn base_part_id<P: PlatformIds>(self) -> PartId
        requires { SectionFits P.NUM_SINGLE_PART_SECTIONS self }
        ensures { result ≡ base_part P.NUM_SINGLE_PART_SECTIONS P.part_of self }
    {
        match P::single_part_id(self) {
            Some(part) => part,
            None => PartId(
                P::NUM_SINGLE_PART_SECTIONS
                    + NUM_ALIGNMENTS as u32 * (self.0 - P::NUM_SINGLE_PART_SECTIONS),
            ),
        }
    }

    /// Its parts, those of a regular section by falling alignment. The section has to fit.
    pub fn part_id_range<P: PlatformIds>(self) -> Range<PartId>
        requires { SectionFits P.NUM_SINGLE_PART_SECTIONS self }
        ensures start { result.start ≡ base_part P.NUM_SINGLE_PART_SECTIONS P.part_of self }
        ensures end { result.end ≡ result.start + part_count P.NUM_SINGLE_PART_SECTIONS self }
        ensures back { (part : ℕ) → result.start ≤ part → part < result.end
            → section_with P.NUM_SINGLE_PART_SECTIONS P.section_of part ≡ self }
    {
        let start = self.base_part_id::<P>();
        let end = start.offset(self.num_parts::<P>());
        Range { start, end }
    }

    /// These parts, one by one.
    pub fn parts<P: PlatformIds>(self) -> PartIdIterator
        requires { SectionFits P.NUM_SINGLE_PART_SECTIONS self }
        ensures range { result ≡ range_with_len
            (base_part P.NUM_SINGLE_PART_SECTIONS P.part_of self)
            (part_count P.NUM_SINGLE_PART_SECTIONS self) }
        ensures falling { P.NUM_SINGLE_PART_SECTIONS ≤ self → (k : ℕ) → k ≤ max_exponent
            → slice_index result k ≡ part_for P.NUM_SINGLE_PART_SECTIONS self (max_exponent - k) }
        ensures back { (k : ℕ) → k < part_count P.NUM_SINGLE_PART_SECTIONS self
            → section_with P.NUM_SINGLE_PART_SECTIONS P.section_of (slice_index result k) ≡ self }
    {
        let range = self.part_id_range::<P>();
        PartIdIterator {
            next: range.start.as_u32(),
            end: range.end.as_u32(),
        }
    }

    /// Its part for the alignment. The section has to be regular, and to fit.
    pub fn part_id_with_alignment<P: PlatformIds>(self, alignment: Alignment) -> PartId
        requires regular { P.NUM_SINGLE_PART_SECTIONS ≤ self }
        requires fits { SectionFits P.NUM_SINGLE_PART_SECTIONS self }
        ensures part { result ≡ part_for P.NUM_SINGLE_PART_SECTIONS self alignment }
        ensures back { section_with P.NUM_SINGLE_PART_SECTIONS P.section_of result ≡ self }
    {
        let base = self.base_part_id::<P>();
        PartId(base.0 + (MAX_EXPONENT - alignment.exponent()))
    }
}

/// The parts of a section that are left. Contracts see it as the list of their numbers.
#[derive(Drop)]
pub struct PartIdIterator {
    next: u32,
    end: u32,
}

impl Model for PartIdIterator {
    ghost use Rattle.std.specs.Prelude.{ℕ, List, ◌-◌};
    ghost use Rattle.std.specs.List.{range_with_len};

    ghost Value = { List ℕ };

    ghost view = { λ left. range_with_len left.next (left.end - left.next) };
}

impl Iterator for PartIdIterator {
    type Item = PartId;

    ghost next_gives = { YieldsFirst (λ left. left) };

    ghost remaining = { item_count (λ left. left) };

    fn next(&mut self) -> Option<PartId> {
        if self.next >= self.end {
            return None;
        }
        let part = PartId(self.next);
        self.next += 1;
        Some(part)
    }
}
