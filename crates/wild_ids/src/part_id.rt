//! The parts of output sections.

ghost use Rattle.std.specs.Prelude.{◌≡◌, ◌+◌, ◌<◌, ◌^◌, Some, decimal};
ghost use Rattle.wild_ids.specs.Parts.{section_with};

use crate::alignment::NUM_ALIGNMENTS;
use crate::output_section_id::OutputSectionId;
use crate::platform::PlatformIds;
use std::fmt;
use std::marker::Model;

/// The id of a part of an output section. Contracts see it as the number.
///
/// Single parts come first, then the parts of regular sections: one for each alignment.
#[derive(Debug, Clone, Copy, PartialEq, Eq, PartialOrd, Ord, Hash)]
pub struct PartId(pub u32);

impl Model for PartId {
    ghost use Rattle.std.specs.Prelude.{ℕ, ◌<◌, ◌^◌};

    ghost Value = { ℕ };

    ghost view = { λ part. part.0 };

    ghost invariant = { λ part. part.0 < 2 ^ 32 };

    ghost inverse = { λ n. record { 0 = n } };
}

/// The part of what is in no output section.
pub const UNMAPPED: PartId = PartId(0);

/// The part of the file header.
pub const FILE_HEADER: PartId = PartId(1);

/// The first part of a regular section.
pub fn regular_part_base<P: PlatformIds>() -> PartId
    ensures { result ≡ P.NUM_SINGLE_PART_SECTIONS }
{
    PartId(P::NUM_SINGLE_PART_SECTIONS)
}

impl fmt::Display for PartId {
    ghost output = { λ part. Some (decimal part) };

    fn fmt<W: fmt::Write>(&self, f: &mut fmt::Formatter<W>) -> fmt::Result {
        let number = self.0;
        write!(f, "{number}")
    }
}

impl PartId {
    /// Stands for the part of a custom section while that isn't known.
    pub const CUSTOM_PLACEHOLDER: PartId = PartId(u32::MAX);

    /// The part of this number.
    pub fn from_u32(value: u32) -> PartId
        ensures { result ≡ value }
    {
        PartId(value)
    }

    /// The part of this number, which has to be below 2 ^ 32.
    pub fn from_usize(raw: usize) -> PartId
        requires { raw < 2 ^ 32 }
        ensures { result ≡ raw }
    {
        PartId(raw as u32)
    }

    /// Its number.
    pub fn as_u32(self) -> u32
        ensures { result ≡ self }
    {
        self.0
    }

    /// Its number, as an index.
    pub fn as_usize(self) -> usize
        ensures { result ≡ self }
    {
        self.0 as usize
    }

    /// The part that comes so many parts later. Its number has to be below 2 ^ 32.
    pub fn offset(self, offset: usize) -> PartId
        requires { self + offset < 2 ^ 32 }
        ensures { result ≡ self + offset }
    {
        PartId(self.0 + offset as u32)
    }

    /// The section that the part is of.
    pub fn output_section_id<P: PlatformIds>(self) -> OutputSectionId
        ensures { result ≡ section_with P.NUM_SINGLE_PART_SECTIONS P.section_of self }
    {
        match P::single_part_output_section_id(self) {
            Some(section) => section,
            None => OutputSectionId(
                P::NUM_SINGLE_PART_SECTIONS
                    + (self.0 - P::NUM_SINGLE_PART_SECTIONS) / NUM_ALIGNMENTS as u32,
            ),
        }
    }

    /// Whether no padding comes after the part.
    pub fn should_pack<P: PlatformIds>(self) -> bool
        ensures { result ≡ P.is_packed (section_with P.NUM_SINGLE_PART_SECTIONS P.section_of self) }
    {
        P::is_packed(self.output_section_id::<P>())
    }
}
