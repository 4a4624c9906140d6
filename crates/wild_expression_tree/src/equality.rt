//! Equality of expressions.

ghost use Rattle.std.specs.Prelude.{◌≡◌};
ghost use Rattle.std.specs.Cmp.{partial_equiv_from_equiv};
ghost use Rattle.wild_expression_tree.specs.Equality as spec;
ghost use Rattle.wild_expression_tree.specs.Shape.{seen, seen_held};

use crate::shape::{Shape, first, second, third};
use crate::tree::{AssertCommand, Expression};

fn kind(shape: Shape<'_>) -> u8
    ensures { result ≡ spec.kind (seen shape.entry) }
{
    match shape {
        Shape::Number(_) => 0,
        Shape::LocationCounter => 1,
        Shape::SizeofHeaders => 2,
        Shape::Symbol(_) => 3,
        Shape::Named(_, _) => 4,
        Shape::Arithmetic(_, _, _) => 5,
        Shape::Division(_, _, _) => 6,
        Shape::Comparison(_, _, _) => 7,
        Shape::Connective(_, _, _) => 8,
        Shape::Unary(_, _) => 9,
        Shape::Ternary(_, _, _) => 10,
        Shape::Align(_, None) => 11,
        Shape::Align(_, Some(_)) => 12,
        Shape::SegmentStart(_, _) => 13,
        Shape::Assert(_) => 14,
    }
}

fn number(shape: Shape<'_>) -> u64
    ensures { result ≡ spec.number (seen shape.entry) }
{
    match shape {
        Shape::Number(number) => number,
        Shape::Named(question, _) => question as u64,
        Shape::Arithmetic(operator, _, _) => operator as u64,
        Shape::Division(operator, _, _) => operator as u64,
        Shape::Comparison(operator, _, _) => operator as u64,
        Shape::Connective(operator, _, _) => operator as u64,
        Shape::Unary(operator, _) => operator as u64,
        Shape::SegmentStart(name, _) => name as u64,
        _ => 0,
    }
}

fn name<'a>(shape: Shape<'a>) -> &'a [u8]
    ensures { result.now ≡ spec.name (seen shape.entry) }
{
    match shape {
        Shape::Symbol(name) | Shape::Named(_, name) => name.bytes(),
        Shape::Assert(command) => command.message.bytes(),
        _ => {
            let none: &[u8] = &[];
            none
        }
    }
}

fn same_node(left: Shape<'_>, right: Shape<'_>) -> bool
    ensures { result ≡ spec.same_node (seen left.entry) (seen right.entry) }
{
    kind(left) == kind(right) && number(left) == number(right) && name(left) == name(right)
}

#[cycle(equality)]
#[tactic(auto, using(crate::proofs::Parts::part_by_part), unfolding(crate::specs::Equality::outline_eq))]
fn same_operand(left: Option<&Expression>, right: Option<&Expression>) -> bool
    ensures { result ≡ spec.outline_eq (spec.operand (seen_held left.entry)) (spec.operand (seen_held right.entry)) }
{
    match left {
        Some(left) => match right {
            Some(right) => same(left, right),
            None => false,
        },
        None => right.is_none(),
    }
}

#[cycle(equality)]
#[tactic(auto, using(crate::proofs::Parts::part_by_part))]
fn same(left: &Expression, right: &Expression) -> bool
    ensures { result ≡ spec.same left.now right.now }
{
    let left = left.shape();
    let right = right.shape();
    same_node(left, right)
        && same_operand(first(left), first(right))
        && same_operand(second(left), second(right))
        && same_operand(third(left), third(right))
}

impl PartialEq for Expression {
    ghost eq = { spec.same };

    ghost laws = { partial_equiv_from_equiv spec.same_equiv };

    fn eq(&self, other: &Expression) -> bool {
        same(self, other)
    }
}

impl Eq for Expression {
    ghost laws = { spec.same_equiv };
}

impl PartialEq for AssertCommand {
    ghost eq = { spec.same_assert };

    ghost laws = { partial_equiv_from_equiv spec.same_assert_equiv };

    fn eq(&self, other: &AssertCommand) -> bool {
        self.expression.get() == other.expression.get() && self.message == other.message
    }
}

impl Eq for AssertCommand {
    ghost laws = { spec.same_assert_equiv };
}

/// Two expressions are equal where they are the same tree, up to the positions of their asserts.
#[tactic(auto, using(crate::proofs::Rebuilt::sameness))]
pub fn equality_is_sameness()
    ensures { spec.EqualityIsSameness }
{}
