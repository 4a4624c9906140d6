//! Why a run writes no plan.

ghost use Rattle.std.specs.Prelude.{◌≡◌, ◌++◌, ◌∷◌, [], IfOk, codes, decimal};
ghost use Rattle.wild_plan_spec.specs.FaultText.{fault_text};
ghost use Rattle.wild_plan_spec.specs.Text.{printed_name};
ghost use Rattle.wild_cli.specs.Refusal.{status_of, line_of, refusal_of_words, refusal_of_table};
ghost use Rattle.wild_cli.specs.declared.refusal.Refusal.TheVariants.{NoMemory as OutOfMemory};

use crate::{TableFault, WordsFault};
use std::alloc::{AllocError, Global};
use wild_names::{Fault, Name, NoMemory};
use wild_plan::{fault_text, name_text};

/// Why a run writes no plan.
#[derive(Debug, Drop)]
pub enum Refusal {
    /// No plan fits.
    Fault(Fault),
    /// The words are no command.
    Usage,
    /// The file of this name could not be loaded.
    NotLoaded(Name),
    /// Memory ran out.
    NoMemory,
    /// The record of this number is not of the form.
    BadRecord(usize),
    /// The file of this name is longer than 2 ^ 24 bytes.
    TooLong(Name),
}

impl From<AllocError> for Refusal {
    ghost from_gives = { λ _ e. e ≡ OutOfMemory };

    fn from(_error: AllocError) -> Refusal {
        Refusal::NoMemory
    }
}

impl From<NoMemory> for Refusal {
    ghost from_gives = { λ _ e. e ≡ OutOfMemory };

    fn from(_error: NoMemory) -> Refusal {
        Refusal::NoMemory
    }
}

impl From<WordsFault> for Refusal {
    ghost from_gives = { λ fault e. e ≡ refusal_of_words fault };

    fn from(fault: WordsFault) -> Refusal {
        match fault {
            WordsFault::Usage => Refusal::Usage,
            WordsFault::NoMemory => Refusal::NoMemory,
        }
    }
}

impl From<TableFault> for Refusal {
    ghost from_gives = { λ fault e. e ≡ refusal_of_table fault };

    fn from(fault: TableFault) -> Refusal {
        match fault {
            TableFault::BadRecord { index } => Refusal::BadRecord(index),
            TableFault::NoMemory => Refusal::NoMemory,
        }
    }
}

impl Refusal {
    /// The status that a run ends with.
    pub fn status(&self) -> u8
        ensures { result ≡ status_of self.now }
    {
        match self {
            Refusal::Fault(_) => 1,
            Refusal::Usage => 2,
            Refusal::NotLoaded(_) => 3,
            Refusal::NoMemory => 5,
            Refusal::BadRecord(_) => 6,
            Refusal::TooLong(_) => 7,
        }
    }

    /// The line that is written for it, with its newline.
    pub fn line(&self, alloc: Global) -> Result<Name, NoMemory>
        ensures { IfOk result (λ line. line ≡ line_of self.now) }
    {
        match self {
            Refusal::Fault(fault) => fault_line(alloc, fault),
            Refusal::Usage => Name::new(alloc, USAGE),
            Refusal::NotLoaded(name) => name_line(alloc, b"cannot load ", name),
            Refusal::NoMemory => Name::new(alloc, b"out of memory\n"),
            Refusal::BadRecord(index) => record_line(alloc, *index),
            Refusal::TooLong(name) => name_line(alloc, b"too long ", name),
        }
    }
}

const USAGE: &[u8] =
    b"usage: plan SCRIPT TABLE [--kind=K] [--arch=A] [--endian=E] [--headers=N] [--start=NAME=N] | sample N\n";

fn fault_line(alloc: Global, fault: &Fault) -> Result<Name, NoMemory>
    ensures { IfOk result (λ line. line ≡ fault_text fault.now ++ 10 ∷ []) }
{
    let text = fault_text(alloc, fault)?;
    let mut line = Vec::from_slice(alloc, text.bytes())?;
    line.push(b'\n')?;
    Ok(Name::from_vec(line))
}

fn name_line(alloc: Global, front: &[u8], name: &Name) -> Result<Name, NoMemory>
    ensures { IfOk result (λ line. line ≡ front.now ++ printed_name name.now ++ 10 ∷ []) }
{
    let text = name_text(alloc, name.bytes())?;
    let mut line = Vec::from_slice(alloc, front)?;
    line.extend_from_slice(text.bytes())?;
    line.push(b'\n')?;
    Ok(Name::from_vec(line))
}

fn record_line(alloc: Global, index: usize) -> Result<Name, NoMemory>
    ensures { IfOk result (λ line. line ≡ codes "bad record " ++ decimal index ++ 10 ∷ []) }
{
    let text = format!(in alloc; "bad record {index}\n")?;
    Ok(Name::from_vec(text.into_bytes()))
}
