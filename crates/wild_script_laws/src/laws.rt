//! What follows from the grammar of scripts.

ghost use Rattle.wild_script_laws.specs.Rise.{ScriptsRise};

/// A tree within a limit is one within each greater limit.
pub fn scripts_rise()
    ensures { ScriptsRise }
{}
