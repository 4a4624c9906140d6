//! Powers of two that an address is rounded to.

ghost use Rattle.std.specs.Prelude.{◌≡◌, ℕ, ◌-◌, ◌%◌, ◌^◌, ◌<◌, ◌≤◌, MatchOption, Some, SomeIff, decimal};
ghost use Rattle.std.specs.Result.{result_ok};
ghost use Rattle.wild_ids.specs.Alignment.{max_exponent, rounded_up, rounded_down, moved_to, exponent_of, IsLeastMultiple, IsGreatestMultiple, IsLeastCongruent, NewAlignment, FromExponent};

use std::fmt;
use std::marker::Model;

/// How many alignments there are.
pub const NUM_ALIGNMENTS: usize = 22;

/// The exponent of the largest alignment.
pub(crate) const MAX_EXPONENT: u32 = 21;

/// An alignment: a power of two up to 2 ^ 21. Contracts see it as the exponent.
#[derive(Debug, Clone, Copy, PartialEq, Eq, PartialOrd, Ord)]
pub struct Alignment {
    exponent: u8,
}

impl Model for Alignment {
    ghost use Rattle.std.specs.Prelude.{ℕ, ◌≤◌};
    ghost use Rattle.wild_ids.specs.Alignment.{max_exponent};

    ghost Value = { ℕ };

    ghost view = { λ a. a.exponent };

    ghost invariant = { λ a. a.exponent ≤ max_exponent };

    ghost inverse = { λ e. record { exponent = e } };
}

/// Why a number is no alignment.
#[derive(Debug, Clone, Copy, PartialEq, Eq)]
pub enum AlignmentFault {
    NotPowerOfTwo,
    /// A power of two above 2 ^ 21.
    TooLarge,
}

/// The least alignment.
pub const MIN: Alignment = Alignment { exponent: 0 };

/// The largest alignment.
pub const MAX: Alignment = Alignment {
    exponent: MAX_EXPONENT as u8,
};

/// That of entries in the section `.gnu.version`.
pub const VERSYM: Alignment = Alignment { exponent: 1 };

/// That of entries in the section `.symtab_shndx`.
pub const SYMTAB_SHNDX_ENTRY: Alignment = Alignment { exponent: 2 };

/// That of the section `.hash`.
pub const SYSV_HASH: Alignment = Alignment { exponent: 2 };

/// That of the section `.eh_frame_hdr`.
pub const EH_FRAME_HDR: Alignment = Alignment { exponent: 2 };

/// That of the note that holds a build id.
pub const NOTE_GNU_BUILD_ID: Alignment = Alignment { exponent: 2 };

/// That of a machine word.
pub const USIZE: Alignment = Alignment { exponent: 3 };

/// That of the procedure linkage table.
pub const PLT: Alignment = Alignment { exponent: 4 };

/// That of the stack.
pub const STACK_ALIGNMENT: Alignment = Alignment { exponent: 4 };

/// That of a page of Mach-O.
pub const MACHO_PAGE_ALIGNMENT: Alignment = Alignment { exponent: 14 };

/// The same, as a number of bytes.
pub const MACHO_PAGE_ALIGNMENT_VALUE: u64 = 16384;

impl Default for Alignment {
    ghost is_default = { λ a. a ≡ 0 };

    fn default() -> Alignment {
        MIN
    }
}

impl fmt::Display for Alignment {
    ghost output = { λ a. Some (decimal (2 ^ a)) };

    fn fmt<W: fmt::Write>(&self, f: &mut fmt::Formatter<W>) -> fmt::Result {
        let value = self.value();
        write!(f, "{value}")
    }
}

impl Alignment {
    /// The alignment of this many bytes.
    #[tactic(auto, using(crate::proofs::Exponents::exponent_is))]
    pub fn new(raw: u64) -> Result<Alignment, AlignmentFault>
        ensures value { result_ok result ≡ exponent_of raw }
        ensures cause { NewAlignment raw result }
    {
        Alignment::of_bytes(raw)
    }

    fn of_bytes(raw: u64) -> Result<Alignment, AlignmentFault>
        ensures { NewAlignment raw result }
    {
        if raw == 0 {
            return Err(AlignmentFault::NotPowerOfTwo);
        }
        let exponent = raw.ilog2();
        if 1 << exponent != raw {
            return Err(AlignmentFault::NotPowerOfTwo);
        }
        Alignment::from_exponent(exponent)
    }

    /// The alignment of 2 ^ exponent bytes. Fails where the exponent is above 21.
    pub fn from_exponent(exponent: u32) -> Result<Alignment, AlignmentFault>
        ensures { FromExponent exponent result }
    {
        if exponent > MAX_EXPONENT {
            return Err(AlignmentFault::TooLarge);
        }
        Ok(Alignment {
            exponent: exponent as u8,
        })
    }

    /// The exponent.
    pub(crate) fn exponent(self) -> u32
        ensures value { result ≡ self }
        ensures supported { self ≤ max_exponent }
    {
        u32::from(self.exponent)
    }

    /// How many bytes it is.
    pub fn value(self) -> u64
        ensures value { result ≡ 2 ^ self }
        ensures supported { self ≤ max_exponent }
    {
        1 << self.exponent
    }

    /// The bits below the alignment.
    pub fn mask(self) -> u64
        ensures { result ≡ 2 ^ self - 1 }
    {
        self.value() - 1
    }

    /// The least multiple that is not below the value. It has to fit 64 bits.
    #[tactic(auto, using(crate::proofs::Multiples::is_rounded_up))]
    pub fn align_up(self, value: u64) -> u64
        requires { rounded_up (2 ^ self) value < 2 ^ 64 }
        ensures value { result ≡ rounded_up (2 ^ self) value }
        ensures least { IsLeastMultiple (2 ^ self) value result }
    {
        value.next_multiple_of(self.value())
    }

    /// The same for a length or an index.
    #[tactic(auto, using(crate::proofs::Multiples::is_rounded_up))]
    pub fn align_up_usize(self, value: usize) -> usize
        requires { rounded_up (2 ^ self) value < 2 ^ 64 }
        ensures value { result ≡ rounded_up (2 ^ self) value }
        ensures least { IsLeastMultiple (2 ^ self) value result }
    {
        value.next_multiple_of(self.value() as usize)
    }

    /// The least multiple that is not below the value, or none where it doesn't fit 64 bits.
    pub fn try_align_up(self, value: u64) -> Option<u64>
        ensures value { SomeIff result (rounded_up (2 ^ self) value < 2 ^ 64) (rounded_up (2 ^ self) value) }
        ensures least { MatchOption result ((n : ℕ) → n % 2 ^ self ≡ 0 → value ≤ n → 2 ^ 64 ≤ n) (IsLeastMultiple (2 ^ self) value) }
    {
        value.checked_next_multiple_of(self.value())
    }

    /// The greatest multiple that is not above the value.
    pub fn align_down(self, value: u64) -> u64
        ensures value { result ≡ rounded_down (2 ^ self) value }
        ensures greatest { IsGreatestMultiple (2 ^ self) value result }
    {
        value - value % self.value()
    }

    /// The least number that is not below `align_up(offset)` and leaves the rest that `ref_offset` leaves, when both
    /// are divided by the alignment. It has to fit 64 bits.
    pub fn align_modulo(self, ref_offset: u64, offset: u64) -> u64
        requires { moved_to (2 ^ self) ref_offset offset < 2 ^ 64 }
        ensures value { result ≡ moved_to (2 ^ self) ref_offset offset }
        ensures least { IsLeastCongruent (2 ^ self) ref_offset (rounded_up (2 ^ self) offset) result }
    {
        self.align_up(offset) + ref_offset % self.value()
    }
}
