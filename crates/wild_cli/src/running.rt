//! Runs a command: from words and files to what is written.

ghost use Rattle.std.specs.Prelude.{◌≡◌, Some};
ghost use Rattle.wild_words.specs.declared.words.Request.TheVariants.{Plan};
ghost use Rattle.wild_words.specs.Words.{command};
ghost use Rattle.wild_cli.specs.Answers.{LoadsFile, FileCounts, Plans};
ghost use Rattle.wild_cli.specs.Run.{loading, putting, HasCause, Ends, Outcome, Told, WroteLine};

use crate::refusal::Refusal;
use crate::{Files, LoadFault, Request, Sink, SinkFault, read_table, read_words};
use std::alloc::Global;
use wild_names::{Fault, Name};
use wild_plan::{InputTable, PlanOptions, plan};

/// Does what the words ask for, and answers the status. The text goes to `out`, and the line of a refusal to `err`.
pub fn run<F: Files, O: Sink, E: Sink>(
    alloc: Global,
    words: &[Name],
    files: &mut F,
    out: &mut O,
    err: &mut E,
) -> u8
    ensures { Outcome (F.held files.old) (command words.now) (loading F.faults F.failed files.old files.new)
        (putting O.faults O.got out.old out.new) (putting E.faults E.got err.old err.new) result }
{
    perform(alloc, words, files, out, err)
}

fn perform<F: Files, O: Sink, E: Sink>(
    alloc: Global,
    words: &[Name],
    files: &mut F,
    out: &mut O,
    err: &mut E,
) -> u8
    ensures { Ends (F.held files.old) (command words.now) (loading F.faults F.failed files.old files.new)
        (putting O.faults O.got out.old out.new) (putting E.faults E.got err.old err.new) result }
{
    match answer(alloc, words, files) {
        Ok(text) => match out.put(text.bytes()) {
            Ok(()) => 0,
            Err(SinkFault::Failed) => 4,
            Err(SinkFault::NoMemory) => tell(alloc, err, &Refusal::NoMemory),
        },
        Err(refusal) => tell(alloc, err, &refusal),
    }
}

// The text that is to be written, or why there is none.
fn answer<F: Files>(alloc: Global, words: &[Name], files: &mut F) -> Result<Name, Refusal>
    ensures { HasCause (F.held files.old) (command words.now) (loading F.faults F.failed files.old files.new) result }
{
    match read_words(alloc, words)? {
        Request::Plan {
            script,
            table,
            options,
        } => plan_files(alloc, files, script, table, &options),
    }
}

// The text of the plan of two files, made for these options.
fn plan_files<F: Files>(
    alloc: Global,
    files: &mut F,
    script: Name,
    table: Name,
    options: &PlanOptions,
) -> Result<Name, Refusal>
    ensures { HasCause (F.held files.old) (Some (Plan script table options.now)) (loading F.faults F.failed files.old files.new) result }
{
    let script = load(alloc, files, script)?;
    let table = load(alloc, files, table)?;
    let inputs = read_table(alloc, &table)?;
    text_of(alloc, &script, &inputs, options)
}

fn load<F: Files>(alloc: Global, files: &mut F, name: Name) -> Result<Vec<u8>, Refusal>
    ensures held { F.held files.new ≡ F.held files.old }
    ensures content { LoadsFile name (F.held files.old name) result }
    ensures counts { FileCounts (F.faults files.old) (F.faults files.new) (F.failed files.new) result }
{
    match files.load(alloc, &name) {
        Ok(bytes) => Ok(bytes),
        Err(LoadFault::Failed) => Err(Refusal::NotLoaded(name)),
        Err(LoadFault::TooLong) => Err(Refusal::TooLong(name)),
        Err(LoadFault::NoMemory) => Err(Refusal::NoMemory),
    }
}

// The text of the plan of a script over a table, made for these options.
fn text_of(
    alloc: Global,
    script: &[u8],
    inputs: &InputTable,
    options: &PlanOptions,
) -> Result<Name, Refusal>
    ensures { Plans script.now inputs.now options.now result }
{
    match plan(alloc, script, inputs, options) {
        Ok(plan) => Ok(plan.plan_text(alloc)?),
        Err(Fault::NoMemory) => Err(Refusal::NoMemory),
        Err(fault) => Err(Refusal::Fault(fault)),
    }
}

// Writes the line of a refusal, or that memory ran out.
fn tell<E: Sink>(alloc: Global, err: &mut E, refusal: &Refusal) -> u8
    ensures { Told (putting E.faults E.got err.old err.new) refusal.now result }
{
    match refusal.line(alloc) {
        Ok(line) => put_line(err, line.bytes(), refusal.status()),
        Err(_) => put_line(err, b"out of memory\n", 5),
    }
}

fn put_line<E: Sink>(err: &mut E, line: &[u8], status: u8) -> u8
    ensures { WroteLine (putting E.faults E.got err.old err.new) line.now status result }
{
    match err.put(line) {
        Ok(()) => status,
        Err(SinkFault::Failed) => 4,
        Err(SinkFault::NoMemory) => 5,
    }
}
