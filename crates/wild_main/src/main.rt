//! Plans the sections of a link, by a linker script and a table of input sections.
#![tactic(auto)]

ghost use Rattle.std.specs.Prelude.{◌≡◌, IfOk, map, string_bytes};
ghost use Rattle.std.specs.Vec.Iter.{into_iter_items};

use std::alloc::{AllocError, Global};
use std::process::ExitCode;
use std::{env, io};
use wild_cli::{DirFiles, StreamSink, run};
use wild_names::Name;

/// The status where memory runs out.
const NO_MEMORY: u8 = 5;

/// The status where the words cannot be had for another cause. A run never ends with it.
const NO_WORDS: u8 = 9;

fn main(rt: HostRuntime) -> ExitCode {
    let alloc = rt.alloc();
    let mut args = match env::args(&rt) {
        Ok(args) => args,
        Err(error) => return ExitCode::from(status_without_args(&error)),
    };
    // The first is the program's name.
    args.next();
    let Ok(words) = words_of(alloc, args) else {
        return ExitCode::from(NO_MEMORY);
    };
    let mut out = StreamSink::new(rt.stdout());
    let mut err = StreamSink::new(rt.stderr());
    let mut files = DirFiles::new(rt);
    ExitCode::from(run(alloc, &words, &mut files, &mut out, &mut err))
}

fn status_without_args(error: &io::Error) -> u8 {
    if error.kind() == io::ErrorKind::OutOfMemory {
        NO_MEMORY
    } else {
        NO_WORDS
    }
}

/// The words as names. Fails where memory runs out.
fn words_of(alloc: Global, args: env::Args) -> Result<Vec<Name>, AllocError>
    ensures { IfOk result (λ words. words.items ≡ map string_bytes (into_iter_items args)) }
{
    let mut words = Vec::new(alloc);
    for word in args {
        words.push(Name::from_vec(word.into_bytes()))?;
    }
    Ok(words)
}
