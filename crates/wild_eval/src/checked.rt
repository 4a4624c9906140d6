//! Numbers that must stay below 2 ^ 64.

ghost use Rattle.std.specs.Prelude.{◌≡◌, ◌<◌};
ghost use Rattle.wild_value_spec.specs.Answer.{Gives};
ghost use Rattle.wild_value_spec.specs.Value.{multiple_from, sum_of};

use wild_base::Fault;

/// The sum of two numbers. Fails with `Overflow` where it is 2 ^ 64 or more.
#[tactic(auto, unfolding(wild_value_spec::specs::Value::sum_of))]
pub fn sum(left: u64, right: u64) -> Result<u64, Fault>
    ensures { Gives result (sum_of left right) }
{
    match left.checked_add(right) {
        Some(sum) => Ok(sum),
        None => Err(Fault::Overflow { left, right }),
    }
}

/// The next multiple of `align` from a value on. Fails with `AlignOverflow` where it is 2 ^ 64 or more.
#[tactic(auto, unfolding(wild_value_spec::specs::Value::multiple_from))]
pub fn multiple_from(value: u64, align: u64) -> Result<u64, Fault>
    requires { 0 < align }
    ensures { result ≡ multiple_from value align }
{
    match value.checked_next_multiple_of(align) {
        Some(multiple) => Ok(multiple),
        None => Err(Fault::AlignOverflow { value, align }),
    }
}
