//! Real files and streams. Nothing is told of what they hold.

ghost use Rattle.std.specs.Prelude.{◌≡◌, ◌≤◌, vec_len, None, IfOk, IfSome};
ghost use Rattle.wild_cli.specs.Device.{Loads, Puts, max_length};

use crate::device::{MAX_LENGTH, next_count};
use crate::{Files, LoadFault, Sink, SinkFault};
use std::alloc::Global;
use std::io::{Read, Write};
use std::marker::Model;
use std::{fs, str};
use wild_names::Name;

/// The files of the system, by their paths. A name that isn't UTF-8 fails. Contracts see how many loads failed, and the
/// name that failed last.
#[derive(Debug, Drop)]
pub struct DirFiles<R> {
    runtime: R,
    faults: u64,
    failed: Option<Name>,
}

impl<R> Model for DirFiles<R> {
    ghost use Rattle.wild_cli.specs.Device.{Failures};

    ghost Value = { Failures };

    ghost view = { λ files. record { faults = files.faults; failed = files.failed } };
}

impl<R> DirFiles<R> {
    /// No load has failed yet.
    pub fn new(runtime: R) -> DirFiles<R>
        ensures { result ≡ record { faults = 0; failed = None } }
    {
        DirFiles {
            runtime,
            faults: 0,
            failed: None,
        }
    }
}

impl<R: std::rt::Files> Files for DirFiles<R> {
    ghost held = { λ files name. None };

    ghost faults = { λ files. files.faults };

    ghost failed = { λ files. files.failed };

    fn load(&mut self, alloc: Global, name: &Name) -> Result<Vec<u8>, LoadFault> {
        let copy = name.copy(alloc)?;
        let loaded = load_path(alloc, &self.runtime, name);
        if let Err(LoadFault::Failed) = loaded {
            self.faults = next_count(self.faults);
            self.failed = Some(copy);
        }
        loaded
    }
}

fn load_path<R: std::rt::Files>(
    alloc: Global,
    runtime: &R,
    name: &Name,
) -> Result<Vec<u8>, LoadFault> {
    let Ok(path) = str::from_utf8(name.bytes()) else {
        return Err(LoadFault::Failed);
    };
    let Ok(mut file) = fs::open(runtime, path) else {
        return Err(LoadFault::Failed);
    };
    read_all(alloc, &mut file)
}

// All that a reader gives, unless that is more than a file may have. It takes one byte more at most.
#[tactic(auto, using(crate::proofs::Streams::reads))]
fn read_all<R: Read>(alloc: Global, reader: &mut R) -> Result<Vec<u8>, LoadFault>
    ensures told { IfSome (R.remaining reader.old) (λ content. Loads content result) }
    ensures length { IfOk result (λ bytes. vec_len bytes ≤ max_length) }
{
    let mut bytes = Vec::new(alloc);
    let mut buffer = [0u8; 4096];
    while bytes.len() <= MAX_LENGTH {
        let wanted = buffer.len().min(MAX_LENGTH + 1 - bytes.len());
        match reader.read(&mut buffer[..wanted]) {
            Ok(0) => return Ok(bytes),
            Ok(count) => bytes.extend_from_slice(&buffer[..count])?,
            Err(_) => return Err(LoadFault::Failed),
        }
    }
    Err(LoadFault::TooLong)
}

/// A stream of the system. Contracts see how many puts failed.
#[derive(Debug, Drop)]
pub struct StreamSink<W> {
    stream: W,
    faults: u64,
}

impl<W> Model for StreamSink<W> {
    ghost use Rattle.std.specs.Prelude.{ℕ};

    ghost Value = { ℕ };

    ghost view = { λ sink. sink.faults };
}

impl<W> StreamSink<W> {
    /// No put has failed yet.
    pub fn new(stream: W) -> StreamSink<W>
        ensures { result ≡ 0 }
    {
        StreamSink { stream, faults: 0 }
    }
}

impl<W: Write> Sink for StreamSink<W> {
    ghost got = { λ sink. None };

    ghost faults = { λ sink. sink };

    fn put(&mut self, piece: &[u8]) -> Result<(), SinkFault> {
        let written = write_piece(&mut self.stream, piece);
        if written.is_err() {
            self.faults = next_count(self.faults);
        }
        written
    }
}

// Writes the whole piece, or fails after a prefix of it.
#[tactic(auto, using(crate::proofs::Streams::writes))]
fn write_piece<W: Write>(stream: &mut W, piece: &[u8]) -> Result<(), SinkFault>
    ensures { Puts (W.contents stream.old) (W.contents stream.new) piece.now result }
{
    let mut taken = 0;
    while taken < piece.len() {
        match stream.write(&piece[taken..]) {
            Ok(0) | Err(_) => return Err(SinkFault::Failed),
            Ok(count) => taken += count,
        }
    }
    Ok(())
}
