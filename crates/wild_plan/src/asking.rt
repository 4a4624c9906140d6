//! Which expressions ask for the start of a segment.

ghost use Rattle.std.specs.Prelude.{◌≡◌, ◌||◌};
ghost use Rattle.wild_plan_spec.specs.Points as spec;

use wild_expression_tree::Shape;
use wild_script_tree::Expression;

#[cycle(asking)]
fn any_asks(first: &Expression, second: &Expression) -> bool
    ensures { result ≡ (spec.asks_segment first.now || spec.asks_segment second.now) }
{
    asks_segment(first) || asks_segment(second)
}

/// Whether SEGMENT_START stands anywhere in an expression.
#[cycle(asking)]
#[tactic(auto, using(wild_expression_tree::proofs::Folded::folded))]
pub fn asks_segment(expression: &Expression) -> bool
    ensures { result ≡ spec.asks_segment expression.now }
{
    match expression.shape() {
        Shape::Number(_)
        | Shape::LocationCounter
        | Shape::SizeofHeaders
        | Shape::Symbol(_)
        | Shape::Named(_, _) => false,
        Shape::Arithmetic(_, x, y)
        | Shape::Division(_, x, y)
        | Shape::Comparison(_, x, y)
        | Shape::Connective(_, x, y)
        | Shape::Align(x, Some(y)) => any_asks(x, y),
        Shape::Unary(_, x) | Shape::Align(x, None) => asks_segment(x),
        Shape::Ternary(x, y, z) => asks_segment(x) || any_asks(y, z),
        Shape::Assert(command) => asks_segment(command.expression.get()),
        Shape::SegmentStart(_, _) => true,
    }
}
