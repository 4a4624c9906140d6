//! The numbers of constants.

ghost use Rattle.std.specs.Prelude.{◌≡◌};
ghost use Rattle.wild_value_spec.specs.Const as spec;

use crate::arithmetic::{apply, change, decides, divide, holds, truth, truth_of};
use wild_expression_tree::{
    Arithmetic, Comparison, Connective, Division, Expression, Shape, Unary,
};
use wild_value_spec::ConstFault;

fn zero_divisor(operator: Division) -> ConstFault
    ensures { result ≡ spec.zero_divisor operator }
{
    match operator {
        Division::Divide => ConstFault::DivisionByZero,
        Division::Modulo => ConstFault::ModuloByZero,
    }
}

/// The number of an expression of numbers and operators. Sides that are not chosen do not count. Fails with the first fault.
#[cycle(constants)]
#[tactic(auto, using(wild_expression_tree::proofs::Folded::folded))]
pub fn evaluate_const(e: &Expression) -> Result<u64, ConstFault>
    ensures { result ≡ spec.const e.now }
{
    match e.shape() {
        Shape::Number(number) => Ok(number),
        Shape::Arithmetic(operator, a, b) => arithmetic_value(operator, a, b),
        Shape::Division(operator, a, b) => division_value(operator, a, b),
        Shape::Comparison(operator, a, b) => comparison_value(operator, a, b),
        Shape::Connective(operator, a, b) => connective_value(operator, a, b),
        Shape::Unary(operator, a) => unary_value(operator, a),
        Shape::Ternary(condition, a, b) => ternary_value(condition, a, b),
        Shape::LocationCounter
        | Shape::SizeofHeaders
        | Shape::Symbol(_)
        | Shape::Named(_, _)
        | Shape::Align(_, _)
        | Shape::SegmentStart(_, _)
        | Shape::Assert(_) => Err(ConstFault::NotConstant),
    }
}

// Both sides, the left one first.
#[cycle(constants)]
#[tactic(auto, unfolding(wild_value_spec::specs::Const::arithmetic_value))]
fn arithmetic_value(operator: Arithmetic, a: &Expression, b: &Expression) -> Result<u64, ConstFault>
    ensures { result ≡ spec.arithmetic_value operator (spec.const a.now) (spec.const b.now) }
{
    let x = evaluate_const(a)?;
    let y = evaluate_const(b)?;
    Ok(apply(operator, x, y))
}

// The divisor first, which must not be 0.
#[cycle(constants)]
#[tactic(auto, unfolding(wild_value_spec::specs::Const::division_value))]
fn division_value(operator: Division, a: &Expression, b: &Expression) -> Result<u64, ConstFault>
    ensures { result ≡ spec.division_value operator (spec.const a.now) (spec.const b.now) }
{
    let y = evaluate_const(b)?;
    if y == 0 {
        return Err(zero_divisor(operator));
    }
    let x = evaluate_const(a)?;
    Ok(divide(operator, x, y))
}

// Both sides, the left one first.
#[cycle(constants)]
#[tactic(auto, unfolding(wild_value_spec::specs::Const::comparison_value))]
fn comparison_value(operator: Comparison, a: &Expression, b: &Expression) -> Result<u64, ConstFault>
    ensures { result ≡ spec.comparison_value operator (spec.const a.now) (spec.const b.now) }
{
    let x = evaluate_const(a)?;
    let y = evaluate_const(b)?;
    Ok(truth(holds(operator, x, y)))
}

// The right side only where the left one does not decide.
#[cycle(constants)]
#[tactic(auto, unfolding(wild_value_spec::specs::Const::connective_value))]
fn connective_value(operator: Connective, a: &Expression, b: &Expression) -> Result<u64, ConstFault>
    ensures { result ≡ spec.connective_value operator (spec.const a.now) (spec.const b.now) }
{
    let x = evaluate_const(a)?;
    if decides(operator, x) {
        return Ok(truth_of(x));
    }
    let y = evaluate_const(b)?;
    Ok(truth_of(y))
}

// One side.
#[cycle(constants)]
#[tactic(auto, unfolding(wild_value_spec::specs::Const::unary_value))]
fn unary_value(operator: Unary, a: &Expression) -> Result<u64, ConstFault>
    ensures { result ≡ spec.unary_value operator (spec.const a.now) }
{
    let x = evaluate_const(a)?;
    Ok(change(operator, x))
}

// The condition, and then the chosen side only.
#[cycle(constants)]
#[tactic(auto, unfolding(wild_value_spec::specs::Const::ternary_value))]
fn ternary_value(condition: &Expression, a: &Expression, b: &Expression) -> Result<u64, ConstFault>
    ensures { result ≡ spec.ternary_value (spec.const condition.now) (spec.const a.now) (spec.const b.now) }
{
    let x = evaluate_const(condition)?;
    if x == 0 {
        evaluate_const(b)
    } else {
        evaluate_const(a)
    }
}
