//! The words of a command line.

ghost use Rattle.std.specs.Prelude.{◌≡◌};
ghost use Rattle.wild_words.specs.Words.{command, is_plan, Reads};
ghost use Rattle.wild_words.specs.declared.words.WordsFault.TheVariants.{NoMemory};

use crate::chosen::read_options;
use std::alloc::Global;
use wild_names::{Name, NoMemory};
use wild_plan_spec::PlanOptions;

/// What the words of a command line ask for.
#[derive(Debug, Drop)]
pub enum Request {
    /// The plan of a script over a table, each the name of a file, made for these options.
    Plan {
        script: Name,
        table: Name,
        options: PlanOptions,
    },
}

/// Why words are no request.
#[derive(Clone, Copy, Debug, PartialEq, Eq)]
pub enum WordsFault {
    /// The words are no command.
    Usage,
    /// Memory ran out.
    NoMemory,
}

impl From<NoMemory> for WordsFault {
    ghost from_gives = { λ _ e. e ≡ NoMemory };

    fn from(_error: NoMemory) -> WordsFault {
        WordsFault::NoMemory
    }
}

fn is_plan(word: &Name) -> bool
    ensures { result ≡ is_plan word.now }
{
    word.bytes() == b"plan".as_slice()
}

/// Reads `plan`, the name of a script, the name of a table, and options.
pub fn read_words(alloc: Global, words: &[Name]) -> Result<Request, WordsFault>
    ensures { Reads (command words.now) result }
{
    let [word, script, table, words @ ..] = words else {
        return Err(WordsFault::Usage);
    };
    if !is_plan(word) {
        return Err(WordsFault::Usage);
    }
    let Some(options) = read_options(words) else {
        return Err(WordsFault::Usage);
    };
    Ok(Request::Plan {
        script: script.copy(alloc)?,
        table: table.copy(alloc)?,
        options,
    })
}
