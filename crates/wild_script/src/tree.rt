//! Linker scripts as trees.

ghost use Rattle.std.specs.Prelude.{◌≡◌, IfOk};
ghost use Rattle.std.specs.Cmp.{partial_equiv_from_equiv};
ghost use Rattle.wild_script.specs.Equality as spec;

use sqlite_items::Items;
use std::alloc::Global;
use wild_names::NoMemory;
use wild_script_tree::{Command, copy_commands, same_commands};

/// A whole script. Two are equal where their commands are, positions of ASSERT aside.
#[derive(Debug, Drop)]
pub struct LinkerScript {
    pub commands: Items<Command>,
}

impl LinkerScript {
    /// A copy, positions of ASSERT included. NoMemory where memory runs out.
    pub fn copy(&self, alloc: Global) -> Result<LinkerScript, NoMemory>
        ensures { IfOk result (λ copy. copy ≡ self.now) }
    {
        let commands = copy_commands(alloc, self.commands.as_slice())?;
        Ok(LinkerScript { commands })
    }
}

impl PartialEq for LinkerScript {
    ghost eq = { spec.same_script };

    ghost laws = { partial_equiv_from_equiv spec.same_script_equiv };

    fn eq(&self, other: &LinkerScript) -> bool {
        same_commands(self.commands.as_slice(), other.commands.as_slice())
    }
}

impl Eq for LinkerScript {
    ghost laws = { spec.same_script_equiv };
}
