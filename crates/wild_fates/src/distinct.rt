//! Names of which no two are the same.

ghost use Rattle.std.specs.Prelude.{◌≡◌, [], ◌∷◌, ◌++◌, OnOk};
ghost use Rattle.wild_names.specs.declared.fault.Fault.TheVariants.{DuplicateName};
ghost use Rattle.wild_fates.specs.Passes.{Passes, repeated};

use std::alloc::Global;
use wild_base::{Fault, Name};
use wild_numbering::Numbering;

/// Puts the name of a region or of a header behind the others, of which none may be the same.
#[tactic(auto, using(crate::proofs::Names::any_number))]
pub fn push_distinct(alloc: Global, names: &mut Numbering, name: &Name) -> Result<(), Fault>
    ensures pushed { OnOk result (names.new ≡ names.old ++ name.now ∷ []) }
    ensures passes { Passes (repeated DuplicateName names.old name.now) result }
{
    if names.get(name).is_some() {
        let name = name.copy(alloc)?;
        return Err(Fault::DuplicateName { name });
    }
    names.push(alloc, name)?;
    Ok(())
}
