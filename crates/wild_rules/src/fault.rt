//! Why patterns make no rule.

ghost use Rattle.std.specs.Prelude.{◌≡◌};
ghost use Rattle.wild_rules.specs.declared.fault.RuleFault.TheVariants as fault;

use wild_base::NoMemory;

/// Why patterns make no rule.
#[derive(Clone, Copy, Debug, PartialEq, Eq)]
pub enum RuleFault {
    /// The pattern of the file name has no reading.
    BadFile,
    /// The pattern of the section name has no reading.
    BadSection,
    /// Memory ran out.
    NoMemory,
}

impl From<NoMemory> for RuleFault {
    ghost from_gives = { λ _ e. e ≡ fault.NoMemory };

    fn from(_error: NoMemory) -> RuleFault {
        RuleFault::NoMemory
    }
}
