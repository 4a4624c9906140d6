//! Where files come from and where texts go.

ghost use Rattle.std.specs.Prelude.{◌≡◌, List, ℕ, Option, IfSome};
ghost use Rattle.wild_cli.specs.Device.{Rose, next_count, Loads, LoadCounts, Puts, SinkCounts};
ghost use Rattle.wild_cli.specs.declared.device.LoadFault.TheVariants as load;
ghost use Rattle.wild_cli.specs.declared.device.SinkFault.TheVariants as sink;

use std::alloc::{AllocError, Global};
use wild_names::{Name, NoMemory};

// How many bytes a file may have.
pub(crate) const MAX_LENGTH: usize = 1 << 24;

/// Why a file was not loaded.
#[derive(Clone, Copy, Debug, PartialEq, Eq)]
pub enum LoadFault {
    /// The file could not be opened or read.
    Failed,
    /// The file is longer than 2 ^ 24 bytes.
    TooLong,
    /// Memory ran out.
    NoMemory,
}

impl From<AllocError> for LoadFault {
    ghost from_gives = { λ _ e. e ≡ load.NoMemory };

    fn from(_error: AllocError) -> LoadFault {
        LoadFault::NoMemory
    }
}

impl From<NoMemory> for LoadFault {
    ghost from_gives = { λ _ e. e ≡ load.NoMemory };

    fn from(_error: NoMemory) -> LoadFault {
        LoadFault::NoMemory
    }
}

/// Why a sink did not take a whole piece.
#[derive(Clone, Copy, Debug, PartialEq, Eq)]
pub enum SinkFault {
    /// The sink took a prefix of the piece at most.
    Failed,
    /// The sink took nothing.
    NoMemory,
}

impl From<AllocError> for SinkFault {
    ghost from_gives = { λ _ e. e ≡ sink.NoMemory };

    fn from(_error: AllocError) -> SinkFault {
        SinkFault::NoMemory
    }
}

/// Files by their names.
pub trait Files {
    /// The content of a file, where it is told.
    ghost held: { Self → List ℕ → Option (List ℕ) };

    /// How often a load has failed, up to 2 ^ 64 - 1.
    ghost faults: { Self → ℕ };

    /// The name of the last load that failed.
    ghost failed: { Self → Option (List ℕ) };

    /// The content of the file of this name, of at most 2 ^ 24 bytes. Which names no file has, and what then comes, is
    /// up to the files.
    fn load(&mut self, alloc: Global, name: &Name) -> Result<Vec<u8>, LoadFault>
        ensures held { held self.new ≡ held self.old }
        ensures told { IfSome (held self.old name.now) (λ content. Loads content result) }
        ensures cause { LoadCounts (faults self.old) (faults self.new) (failed self.old) (failed self.new) name.now result };
}

/// Where text goes, piece by piece.
pub trait Sink {
    /// All that was put, where it is told.
    ghost got: { Self → Option (List ℕ) };

    /// How often a put has failed, up to 2 ^ 64 - 1.
    ghost faults: { Self → ℕ };

    /// Puts the bytes after those that were put before.
    fn put(&mut self, piece: &[u8]) -> Result<(), SinkFault>
        ensures got { Puts (got self.old) (got self.new) piece.now result }
        ensures cause { SinkCounts (faults self.old) (faults self.new) result };
}

// One more, up to the end of the type.
pub(crate) fn next_count(count: u64) -> u64
    ensures rose { Rose count result }
    ensures next { result ≡ next_count count }
{
    count.saturating_add(1)
}
