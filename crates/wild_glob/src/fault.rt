//! Why bytes are no pattern.

ghost use Rattle.std.specs.Prelude.{◌≡◌};
ghost use Rattle.wild_glob.specs.declared.fault.PatternFault.TheVariants as fault;

use std::alloc::AllocError;
use wild_names::NoMemory;

/// Why bytes are no pattern.
#[derive(Clone, Copy, Debug, PartialEq, Eq)]
pub enum PatternFault {
    /// There are no bytes.
    Empty,
    /// The bytes are not UTF-8.
    NotUtf8,
    /// The text has no reading: two `*` pieces are side by side, a backslash is last, or a class has no closing
    /// bracket.
    Shape,
    /// Memory ran out.
    NoMemory,
}

impl From<NoMemory> for PatternFault {
    ghost from_gives = { λ _ e. e ≡ fault.NoMemory };

    fn from(_error: NoMemory) -> PatternFault {
        PatternFault::NoMemory
    }
}

impl From<AllocError> for PatternFault {
    ghost from_gives = { λ _ e. e ≡ fault.NoMemory };

    fn from(_error: AllocError) -> PatternFault {
        PatternFault::NoMemory
    }
}
