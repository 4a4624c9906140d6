//! Why a script and a table have no plan.

ghost use Rattle.std.specs.Prelude.{◌≡◌, ◌<◌};
ghost use Rattle.wild_names.specs.Fault.{number_of, script_error_of};
ghost use Rattle.wild_names.specs.declared.fault.Fault.TheVariants as fault;

use crate::name::Name;
use crate::script_error::LinkerScriptError;
use std::alloc::{AllocError, AllocFailed};

/// Memory ran out.
#[derive(Clone, Copy, Debug, PartialEq, Eq)]
pub struct NoMemory;

impl From<AllocError> for NoMemory {
    fn from(_error: AllocError) -> NoMemory {
        NoMemory
    }
}

impl<T: Drop> From<AllocFailed<T>> for NoMemory {
    fn from(_error: AllocFailed<T>) -> NoMemory {
        NoMemory
    }
}

/// Why a script and a table have no plan. Positions count bytes from 0, rows and statements are numbered from 0.
#[derive(Debug, Drop, PartialEq, Eq)]
pub enum Fault {
    /// The script has no tree. The position is at most its length.
    Syntax {
        position: usize,
    },
    /// The script has no tree. A comment begins at the position and does not end.
    UnclosedComment {
        position: usize,
    },
    /// The script has no tree. A sort word is at the position, directly after the bracket of another.
    UnsupportedNestedSort {
        position: usize,
    },
    /// The script has no tree within the limit of depth.
    TooDeep {
        position: usize,
    },
    /// The alignment of this row is no power of two up to 2 ^ 21.
    BadRow {
        row: usize,
    },
    /// This symbol of the table names no row, or an offset above the size of its row.
    BadSymbolRow {
        symbol: u64,
    },
    /// `/DISCARD/`, opened there, holds a statement that is no matcher, or has a clause.
    BadDiscard {
        statement: usize,
    },
    /// The pattern of this matcher is empty, or cannot be read.
    BadPattern {
        statement: usize,
        name: Name,
    },
    /// The name of the section is empty.
    BadName {
        statement: usize,
    },
    /// The section asks for an alignment that is no power of two up to 2 ^ 21.
    BadAlignment {
        statement: usize,
        value: u64,
    },
    /// The fill of the section is above 2 ^ 32 - 1.
    BadFill {
        statement: usize,
        value: u64,
    },
    /// The type or the flags of this program header are above 2 ^ 32 - 1.
    BadHeader {
        index: u64,
        value: u64,
    },
    /// What must be a constant is none.
    NotConstant {
        statement: usize,
    },
    /// Two sections have this name.
    DuplicateSection {
        name: Name,
    },
    /// Two definitions have this name.
    DuplicateSymbol {
        name: Name,
    },
    /// Two memory regions, or two program headers, have this name.
    DuplicateName {
        name: Name,
    },
    /// The output format is unknown, or of another architecture.
    OutputFormat {
        name: Name,
    },
    /// No memory region has this name.
    UnknownRegion {
        name: Name,
    },
    /// No program header has this name.
    UnknownPhdr {
        name: Name,
    },
    /// There are so many section ids, and one more would not fit.
    TooManySections {
        count: u64,
    },
    /// There are so many segments, and one more is needed.
    TooManySegments {
        segments: u64,
    },
    /// An evaluated divisor is 0.
    DivisionByZero {
        statement: usize,
    },
    /// The same, of a remainder.
    ModuloByZero {
        statement: usize,
    },
    /// An evaluated alignment is 0.
    AlignZero {
        statement: usize,
    },
    /// No section has this name.
    UnknownSection {
        name: Name,
    },
    /// No symbol of this name is defined.
    UnknownSymbol {
        name: Name,
    },
    /// A placement asks for what is laid out after it.
    NotLaidOut {
        statement: usize,
        name: Name,
    },
    /// The value of this symbol asks for itself.
    SymbolCycle {
        name: Name,
    },
    /// The evaluation passes its limit of height.
    DeepValue {
        statement: usize,
    },
    /// The address of this symbol is below the start of the section that holds it.
    BeforeSection {
        name: Name,
    },
    /// The location counter would go back in a section.
    MovesBack {
        statement: usize,
        from: u64,
        to: u64,
    },
    /// The two sections share an address.
    Overlap {
        first: Name,
        second: Name,
    },
    /// The section is not inside its memory region.
    RegionFull {
        region: Name,
        section: Name,
    },
    /// The sum of the two numbers passes 2 ^ 64 - 1.
    Overflow {
        left: u64,
        right: u64,
    },
    /// The next multiple of `align` from `value` on passes 2 ^ 64 - 1.
    AlignOverflow {
        value: u64,
        align: u64,
    },
    /// The condition of an ASSERT does not hold. The line is that of its bracket, from 1.
    AssertFailed {
        line: u64,
        message: Name,
    },
    /// Memory ran out.
    NoMemory,
}

impl Fault {
    /// The number of the fault, which stays the same from one version to the next.
    pub fn number(&self) -> u32
        ensures { result ≡ number_of self.now }
    {
        match self {
            Fault::Syntax { .. } => 1,
            Fault::UnclosedComment { .. } => 2,
            Fault::UnsupportedNestedSort { .. } => 3,
            Fault::TooDeep { .. } => 4,
            Fault::BadRow { .. } => 5,
            Fault::BadSymbolRow { .. } => 6,
            Fault::BadDiscard { .. } => 7,
            Fault::BadPattern { .. } => 8,
            Fault::BadName { .. } => 9,
            Fault::BadAlignment { .. } => 10,
            Fault::BadFill { .. } => 11,
            Fault::BadHeader { .. } => 12,
            Fault::NotConstant { .. } => 13,
            Fault::DuplicateSection { .. } => 14,
            Fault::DuplicateSymbol { .. } => 15,
            Fault::DuplicateName { .. } => 16,
            Fault::OutputFormat { .. } => 17,
            Fault::UnknownRegion { .. } => 18,
            Fault::UnknownPhdr { .. } => 19,
            Fault::TooManySections { .. } => 20,
            Fault::TooManySegments { .. } => 21,
            of_values => of_values.number_among_values(),
        }
    }

    // The number of a fault that comes once values are worked out, or of the last.
    fn number_among_values(&self) -> u32
        requires { 21 < number_of self.now }
        ensures { result ≡ number_of self.now }
    {
        match self {
            Fault::DivisionByZero { .. } => 22,
            Fault::ModuloByZero { .. } => 23,
            Fault::AlignZero { .. } => 24,
            Fault::UnknownSection { .. } => 25,
            Fault::UnknownSymbol { .. } => 26,
            Fault::NotLaidOut { .. } => 27,
            Fault::SymbolCycle { .. } => 28,
            Fault::DeepValue { .. } => 29,
            Fault::BeforeSection { .. } => 30,
            Fault::MovesBack { .. } => 31,
            Fault::Overlap { .. } => 32,
            Fault::RegionFull { .. } => 33,
            Fault::Overflow { .. } => 34,
            Fault::AlignOverflow { .. } => 35,
            Fault::AssertFailed { .. } => 36,
            Fault::NoMemory => 37,
            _ => unreachable!(),
        }
    }

    /// The error of the script that the fault tells of, where it is one of these.
    pub fn script_error(&self) -> Option<LinkerScriptError>
        ensures { result ≡ script_error_of self.now }
    {
        match self {
            Fault::UnclosedComment { .. } => Some(LinkerScriptError::UnclosedComment),
            Fault::UnsupportedNestedSort { .. } => Some(LinkerScriptError::UnsupportedNestedSort),
            _ => None,
        }
    }
}

impl From<NoMemory> for Fault {
    ghost from_gives = { λ _ e. e ≡ fault.NoMemory };

    fn from(_error: NoMemory) -> Fault {
        Fault::NoMemory
    }
}

impl From<AllocError> for Fault {
    ghost from_gives = { λ _ e. e ≡ fault.NoMemory };

    fn from(_error: AllocError) -> Fault {
        Fault::NoMemory
    }
}

impl<T: Drop> From<AllocFailed<T>> for Fault {
    ghost from_gives = { λ _ e. e ≡ fault.NoMemory };

    fn from(_error: AllocFailed<T>) -> Fault {
        Fault::NoMemory
    }
}
