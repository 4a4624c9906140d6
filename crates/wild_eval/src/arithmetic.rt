//! What the operators make of numbers.

ghost use Rattle.std.specs.Prelude.{◌≡◌, ◌<◌};
ghost use Rattle.wild_value_spec.specs.Numbers as spec;

use wild_expression_tree::{Arithmetic, Comparison, Connective, Division, Unary};

/// Sums, differences and products wrap. Shifts are by the right side modulo 64.
#[tactic(auto, unfolding(wild_value_spec::specs::Numbers::arithmetic_result))]
pub fn apply(operator: Arithmetic, left: u64, right: u64) -> u64
    ensures { result ≡ spec.arithmetic_result operator left right }
{
    match operator {
        Arithmetic::Add => left.wrapping_add(right),
        Arithmetic::Subtract => left.wrapping_sub(right),
        Arithmetic::Multiply => left.wrapping_mul(right),
        Arithmetic::BitwiseAnd => left & right,
        Arithmetic::BitwiseOr => left | right,
        Arithmetic::BitwiseXor => left ^ right,
        Arithmetic::LeftShift => left.wrapping_shl((right % 64) as u32),
        Arithmetic::RightShift => left.wrapping_shr((right % 64) as u32),
        Arithmetic::Min => left.min(right),
        Arithmetic::Max => left.max(right),
    }
}

#[tactic(auto, unfolding(wild_value_spec::specs::Numbers::quotient))]
fn quotient(left: u64, right: u64) -> u64
    requires { 0 < right }
    ensures { result ≡ spec.quotient left right }
{
    left.cast_signed()
        .wrapping_div(right.cast_signed())
        .cast_unsigned()
}

#[tactic(auto, unfolding(wild_value_spec::specs::Numbers::remainder))]
fn remainder(left: u64, right: u64) -> u64
    requires { 0 < right }
    ensures { result ≡ spec.remainder left right }
{
    left.cast_signed()
        .wrapping_rem(right.cast_signed())
        .cast_unsigned()
}

/// Both sides are read as signed numbers. The quotient is the one toward zero, and wraps.
pub fn divide(operator: Division, left: u64, right: u64) -> u64
    requires { 0 < right }
    ensures { result ≡ spec.divided_by operator left right }
{
    match operator {
        Division::Divide => quotient(left, right),
        Division::Modulo => remainder(left, right),
    }
}

/// Numbers are compared without a sign.
#[tactic(auto, unfolding(wild_value_spec::specs::Numbers::holds))]
pub fn holds(comparison: Comparison, left: u64, right: u64) -> bool
    ensures { result ≡ spec.holds comparison left right }
{
    match comparison {
        Comparison::LessEqual => left <= right,
        Comparison::GreaterEqual => left >= right,
        Comparison::Equal => left == right,
        Comparison::NotEqual => left != right,
        Comparison::LessThan => left < right,
        Comparison::GreaterThan => left > right,
    }
}

/// 1 or 0.
pub fn truth(holds: bool) -> u64
    ensures { result ≡ spec.truth holds }
{
    if holds { 1 } else { 0 }
}

/// A number is true where it is not 0.
fn is_true(number: u64) -> bool
    ensures { result ≡ spec.is_true number }
{
    number != 0
}

/// 1 for a number that is not 0, else 0.
pub fn truth_of(number: u64) -> u64
    ensures { result ≡ spec.truth (spec.is_true number) }
{
    truth(is_true(number))
}

/// Whether the left side decides alone.
#[tactic(auto, unfolding(wild_value_spec::specs::Numbers::decides))]
pub fn decides(operator: Connective, left: u64) -> bool
    ensures { result ≡ spec.decides operator left }
{
    match operator {
        Connective::LogicalAnd => !is_true(left),
        Connective::LogicalOr => is_true(left),
    }
}

/// 1 for 0 and else 0, the other bits, or the number that gives 0 with this one.
#[tactic(auto, unfolding(wild_value_spec::specs::Numbers::unary_result))]
pub fn change(operator: Unary, number: u64) -> u64
    ensures { result ≡ spec.unary_result operator number }
{
    match operator {
        Unary::LogicalNot => truth(!is_true(number)),
        Unary::BitwiseNot => !number,
        Unary::Negate => 0u64.wrapping_sub(number),
    }
}
