//! Reads scripts.

ghost use Rattle.std.specs.Prelude.{◌≡◌, ◌⊎◌, IfOk, IfErr};
ghost use Rattle.wild_names.specs.declared.fault.Fault.TheVariants.{NoMemory};
ghost use Rattle.wild_script.specs.Tree.{IsTree, IsParseFault};

use crate::script::script;
use crate::tree::LinkerScript;
use std::alloc::Global;
use wild_names::Fault;
use wild_reading::{Cursor, MAX_DEPTH};

impl LinkerScript {
    /// Reads the whole of the bytes as a script.
    pub fn parse(alloc: Global, bytes: &[u8]) -> Result<LinkerScript, Fault>
        ensures found { IfOk result (IsTree bytes.now) }
        ensures refused { IfErr result (λ f. (f ≡ NoMemory) ⊎ IsParseFault bytes.now f) }
    {
        let mut cursor = Cursor::new(bytes, 0, MAX_DEPTH);
        match script(&mut cursor, alloc) {
            Ok(script) => Ok(script),
            Err(stop) => Err(Fault::from(stop)),
        }
    }
}
