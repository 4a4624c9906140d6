//! Why reading stops.

ghost use Rattle.std.specs.Prelude.{◌≡◌};
ghost use Rattle.wild_reading.specs.Faults.{fault_of};
ghost use Rattle.wild_reading.specs.declared.stop.Stop.TheVariants as stop;

use std::alloc::{AllocError, AllocFailed};
use wild_names::{Fault, NoMemory};

/// Why reading stops. Each position is at most the length of what is read.
#[derive(Clone, Copy, Debug, PartialEq, Eq)]
pub enum Stop {
    /// Nothing is read here, at any depth.
    Syntax { position: usize },
    /// The same: a comment that begins here does not end.
    OpenComment { position: usize },
    /// The same: a sort word is here, directly in the brackets of another.
    NestedSort { position: usize },
    /// Nothing is read within the limit of depth.
    TooDeep { position: usize },
    /// Memory ran out.
    NoMemory,
}

impl From<AllocError> for Stop {
    ghost from_gives = { λ _ e. e ≡ stop.NoMemory };

    fn from(_error: AllocError) -> Stop {
        Stop::NoMemory
    }
}

impl<T: Drop> From<AllocFailed<T>> for Stop {
    ghost from_gives = { λ _ e. e ≡ stop.NoMemory };

    fn from(_error: AllocFailed<T>) -> Stop {
        Stop::NoMemory
    }
}

impl From<NoMemory> for Stop {
    ghost from_gives = { λ _ e. e ≡ stop.NoMemory };

    fn from(_error: NoMemory) -> Stop {
        Stop::NoMemory
    }
}

impl From<Stop> for Fault {
    ghost from_gives = { λ stop f. f ≡ fault_of stop };

    fn from(stop: Stop) -> Fault {
        match stop {
            Stop::Syntax { position } => Fault::Syntax { position },
            Stop::OpenComment { position } => Fault::UnclosedComment { position },
            Stop::NestedSort { position } => Fault::UnsupportedNestedSort { position },
            Stop::TooDeep { position } => Fault::TooDeep { position },
            Stop::NoMemory => Fault::NoMemory,
        }
    }
}
