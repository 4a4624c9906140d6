//! Files and a sink in memory, of which chosen calls fail.

ghost use Rattle.std.specs.Prelude.{◌≡◌, ◌||◌, ◌==◌, [], Some, None, IfSome, is_none, take};
ghost use Rattle.std.specs.List.{list_any};
ghost use Rattle.wild_cli.specs.Device.{Loads, LoadCounts, Puts, SinkCounts};
ghost use Rattle.wild_cli.specs.Shelf.{find_content, load_fails, FailsWhere, after_load, written_of, AfterPut};

use crate::device::next_count;
use crate::sure::{find_content, load_content};
use crate::{Files, LoadFault, ShelfFile, Sink, SinkFault};
use std::alloc::Global;
use std::marker::Model;
use wild_names::Name;

/// Files in memory, of which chosen loads fail. Contracts see its files, the numbers of the loads that fail, how many
/// loads came and failed, and the name that failed last.
#[derive(Debug, Drop)]
pub struct Shelf {
    files: Vec<ShelfFile>,
    failing: Vec<u64>,
    calls: u64,
    faults: u64,
    failed: Option<Name>,
}

impl Model for Shelf {
    ghost use Rattle.wild_cli.specs.Shelf.{OnShelf};

    ghost Value = { OnShelf };

    ghost view = { λ shelf. record { files = shelf.files.items; failing = shelf.failing.items; calls = shelf.calls; faults = shelf.faults; failed = shelf.failed } };
}

impl Shelf {
    /// The loads of these numbers fail, counted from 0, and each load of a name that no file has. Of several files of
    /// one name the first counts.
    pub fn new(files: Vec<ShelfFile>, failing: Vec<u64>) -> Shelf
        ensures { result ≡ record { files = files.items; failing = failing.items; calls = 0; faults = 0; failed = None } }
    {
        Shelf {
            files,
            failing,
            calls: 0,
            faults: 0,
            failed: None,
        }
    }
}

impl Files for Shelf {
    ghost held = { λ shelf name. find_content shelf.files name };

    ghost faults = { λ shelf. shelf.faults };

    ghost failed = { λ shelf. shelf.failed };

    /// After 2 ^ 64 - 1 calls the number of a call stays the same.
    fn load(&mut self, alloc: Global, name: &Name) -> Result<Vec<u8>, LoadFault>
        ensures held { find_content self.new.files ≡ find_content self.old.files }
        ensures told { IfSome (find_content self.old.files name.now) (λ content. Loads content result) }
        ensures cause { LoadCounts self.old.faults self.new.faults self.old.failed self.new.failed name.now result }
        ensures fails { FailsWhere (load_fails self.old name.now) result }
        ensures state { self.new ≡ after_load self.old name.now result }
    {
        let call = self.calls;
        self.calls = next_count(call);
        let copy = name.copy(alloc)?;
        let loaded = load_call(alloc, &self.files, &self.failing, call, name);
        if let Err(LoadFault::Failed) = loaded {
            self.faults = next_count(self.faults);
            self.failed = Some(copy);
        }
        loaded
    }
}

// What the load of this number answers.
fn load_call(
    alloc: Global,
    files: &[ShelfFile],
    failing: &[u64],
    call: u64,
    name: &Name,
) -> Result<Vec<u8>, LoadFault>
    ensures told { IfSome (find_content files.now name.now) (λ content. Loads content result) }
    ensures fails { FailsWhere (list_any (λ number. number == call) failing.now || is_none (find_content files.now name.now)) result }
{
    if failing.contains(&call) {
        return Err(LoadFault::Failed);
    }
    match find_content(files, name) {
        Some(content) => load_content(alloc, content),
        None => Err(LoadFault::Failed),
    }
}

/// A put that fails: its number, counted from 0, and how many bytes of its piece it writes before.
#[derive(Clone, Copy, Debug, PartialEq, Eq)]
pub struct FailingPut {
    pub call: u64,
    pub written: usize,
}

/// A sink in memory, of which chosen puts fail. Contracts see the bytes that it got, the puts that fail, and how many
/// puts came and failed.
#[derive(Debug, Drop)]
pub struct Tray {
    bytes: Vec<u8>,
    failing: Vec<FailingPut>,
    calls: u64,
    faults: u64,
}

impl Model for Tray {
    ghost use Rattle.wild_cli.specs.Shelf.{OnTray};

    ghost Value = { OnTray };

    ghost view = { λ tray. record { bytes = tray.bytes.items; failing = tray.failing.items; calls = tray.calls; faults = tray.faults } };
}

impl Tray {
    /// These puts fail. Of several for one number the first counts.
    pub fn new(alloc: Global, failing: Vec<FailingPut>) -> Tray
        ensures { result ≡ record { bytes = []; failing = failing.items; calls = 0; faults = 0 } }
    {
        Tray {
            bytes: Vec::new(alloc),
            failing,
            calls: 0,
            faults: 0,
        }
    }

    /// All that it got.
    pub fn bytes(&self) -> &[u8]
        ensures { result.now ≡ self.now.bytes }
    {
        self.bytes.as_slice()
    }
}

impl Sink for Tray {
    ghost got = { λ tray. Some tray.bytes };

    ghost faults = { λ tray. tray.faults };

    /// A put that fails writes its number of bytes before, or the whole piece where that is shorter. After 2 ^ 64 - 1
    /// calls the number of a call stays the same.
    fn put(&mut self, piece: &[u8]) -> Result<(), SinkFault>
        ensures got { Puts (Some self.old.bytes) (Some self.new.bytes) piece.now result }
        ensures cause { SinkCounts self.old.faults self.new.faults result }
        ensures state { AfterPut self.old self.new piece.now (written_of self.old.failing self.old.calls) result }
    {
        let call = self.calls;
        self.calls = next_count(call);
        let Some(written) = written_of(&self.failing, call) else {
            self.bytes.extend_from_slice(piece)?;
            return Ok(());
        };
        self.bytes.extend_from_slice(front(piece, written))?;
        self.faults = next_count(self.faults);
        Err(SinkFault::Failed)
    }
}

// How many bytes the put of this number writes, if it is to fail.
fn written_of(failing: &[FailingPut], call: u64) -> Option<usize>
    ensures { result ≡ written_of failing.now call }
{
    for put in failing {
        if put.call == call {
            return Some(put.written);
        }
    }
    None
}

// The first bytes of the piece, or all where it has fewer.
fn front(piece: &[u8], count: usize) -> &[u8]
    ensures { result.now ≡ take count piece.now }
{
    &piece[..count.min(piece.len())]
}
