//! The shape of a node.

ghost use Rattle.std.specs.Prelude.{◌≡◌, ◌<◌, ◌≤◌, false, slice_get, IfSome, MatchOption};
ghost use Rattle.wild_expression_tree.specs.Shape as spec;
ghost use Rattle.wild_expression_tree.specs.Shape.{part_size, parts, seen, seen_held, shape, size_held};
ghost use Rattle.wild_expression_tree.specs.declared.tree.Expression.{size-Expression};

use crate::operator::{Arithmetic, Comparison, Connective, Division, Question, Unary};
use crate::tree::{AssertCommand, Expression};
use sqlite_items::Boxed;
use wild_names::{Name, SegmentName};

/// What kind a node is of, with its operator or its name, and its parts in written order.
#[derive(Clone, Copy)]
pub enum Shape<'a> {
    Number(u64),
    LocationCounter,
    SizeofHeaders,
    Symbol(&'a Name),
    /// What is asked of a section, a memory region or a symbol.
    Named(Question, &'a Name),
    Arithmetic(Arithmetic, &'a Expression, &'a Expression),
    Division(Division, &'a Expression, &'a Expression),
    Comparison(Comparison, &'a Expression, &'a Expression),
    Connective(Connective, &'a Expression, &'a Expression),
    Unary(Unary, &'a Expression),
    /// The condition, the value where it holds, and the value where it does not.
    Ternary(&'a Expression, &'a Expression, &'a Expression),
    /// The alignment, and what is aligned: None is the location counter.
    Align(&'a Expression, Option<&'a Expression>),
    SegmentStart(SegmentName, &'a Expression),
    Assert(&'a AssertCommand),
}

fn held(part: &Option<Boxed<Expression>>) -> Option<&Expression>
    ensures { seen_held result ≡ part.now }
{
    match part {
        Some(expression) => Some(expression.get()),
        None => None,
    }
}

// The shape of an operator between two parts.
fn operation(expression: &Expression) -> Option<Shape<'_>>
    ensures shape { MatchOption result (spec.is_operation (shape expression.now) ≡ false) (λ s. seen s ≡ shape expression.now) }
    ensures smaller { IfSome result (λ s. part_size (seen s) < size-Expression expression.now) }
{
    let found = match expression {
        Expression::Add(x, y) => Shape::Arithmetic(Arithmetic::Add, x.get(), y.get()),
        Expression::Subtract(x, y) => Shape::Arithmetic(Arithmetic::Subtract, x.get(), y.get()),
        Expression::Multiply(x, y) => Shape::Arithmetic(Arithmetic::Multiply, x.get(), y.get()),
        Expression::BitwiseAnd(x, y) => Shape::Arithmetic(Arithmetic::BitwiseAnd, x.get(), y.get()),
        Expression::BitwiseOr(x, y) => Shape::Arithmetic(Arithmetic::BitwiseOr, x.get(), y.get()),
        Expression::BitwiseXor(x, y) => Shape::Arithmetic(Arithmetic::BitwiseXor, x.get(), y.get()),
        Expression::LeftShift(x, y) => Shape::Arithmetic(Arithmetic::LeftShift, x.get(), y.get()),
        Expression::RightShift(x, y) => Shape::Arithmetic(Arithmetic::RightShift, x.get(), y.get()),
        Expression::Min(x, y) => Shape::Arithmetic(Arithmetic::Min, x.get(), y.get()),
        Expression::Max(x, y) => Shape::Arithmetic(Arithmetic::Max, x.get(), y.get()),
        Expression::Divide(x, y) => Shape::Division(Division::Divide, x.get(), y.get()),
        Expression::Modulo(x, y) => Shape::Division(Division::Modulo, x.get(), y.get()),
        Expression::LessEqual(x, y) => Shape::Comparison(Comparison::LessEqual, x.get(), y.get()),
        Expression::GreaterEqual(x, y) => Shape::Comparison(
            Comparison::GreaterEqual,
            x.get(),
            y.get(),
        ),
        Expression::Equal(x, y) => Shape::Comparison(Comparison::Equal, x.get(), y.get()),
        Expression::NotEqual(x, y) => Shape::Comparison(Comparison::NotEqual, x.get(), y.get()),
        Expression::LessThan(x, y) => Shape::Comparison(Comparison::LessThan, x.get(), y.get()),
        Expression::GreaterThan(x, y) => Shape::Comparison(
            Comparison::GreaterThan,
            x.get(),
            y.get(),
        ),
        Expression::LogicalAnd(x, y) => Shape::Connective(Connective::LogicalAnd, x.get(), y.get()),
        Expression::LogicalOr(x, y) => Shape::Connective(Connective::LogicalOr, x.get(), y.get()),
        _ => return None,
    };
    Some(found)
}

impl Expression {
    /// The shape of its outermost node. Each part is smaller than the expression.
    pub fn shape(&self) -> Shape<'_>
        ensures shape { seen result ≡ shape self.now }
        ensures smaller { part_size (seen result) < size-Expression self.now }
    {
        if let Some(operation) = operation(self) {
            return operation;
        }
        match self {
            Expression::Number(number) => Shape::Number(*number),
            Expression::LocationCounter => Shape::LocationCounter,
            Expression::Symbol(name) => Shape::Symbol(name),
            Expression::Sizeof(name) => Shape::Named(Question::Sizeof, name),
            Expression::Alignof(name) => Shape::Named(Question::Alignof, name),
            Expression::Addr(name) => Shape::Named(Question::Addr, name),
            Expression::Loadaddr(name) => Shape::Named(Question::Loadaddr, name),
            Expression::Origin(name) => Shape::Named(Question::Origin, name),
            Expression::Length(name) => Shape::Named(Question::Length, name),
            Expression::Defined(name) => Shape::Named(Question::Defined, name),
            Expression::LogicalNot(x) => Shape::Unary(Unary::LogicalNot, x.get()),
            Expression::BitwiseNot(x) => Shape::Unary(Unary::BitwiseNot, x.get()),
            Expression::Negate(x) => Shape::Unary(Unary::Negate, x.get()),
            Expression::Ternary(x, y, z) => Shape::Ternary(x.get(), y.get(), z.get()),
            Expression::Align(x, y) => Shape::Align(x.get(), held(y)),
            Expression::SegmentStart(name, x) => Shape::SegmentStart(*name, x.get()),
            Expression::Assert(command) => Shape::Assert(command),
            // SIZEOF_HEADERS, and nothing else.
            _ => Shape::SizeofHeaders,
        }
    }
}

// The first part, if there is one.
pub(crate) fn first<'a>(shape: Shape<'a>) -> Option<&'a Expression>
    ensures part { seen_held result ≡ slice_get (parts (seen shape.entry)) 0 }
    ensures smaller { size_held (seen_held result) ≤ part_size (seen shape.entry) }
{
    match shape {
        Shape::Arithmetic(_, x, _)
        | Shape::Division(_, x, _)
        | Shape::Comparison(_, x, _)
        | Shape::Connective(_, x, _)
        | Shape::Unary(_, x)
        | Shape::Ternary(x, _, _)
        | Shape::Align(x, _)
        | Shape::SegmentStart(_, x) => Some(x),
        Shape::Assert(command) => Some(command.expression.get()),
        _ => None,
    }
}

// The second part.
pub(crate) fn second<'a>(shape: Shape<'a>) -> Option<&'a Expression>
    ensures part { seen_held result ≡ slice_get (parts (seen shape.entry)) 1 }
    ensures smaller { size_held (seen_held result) ≤ part_size (seen shape.entry) }
{
    match shape {
        Shape::Arithmetic(_, _, x)
        | Shape::Division(_, _, x)
        | Shape::Comparison(_, _, x)
        | Shape::Connective(_, _, x)
        | Shape::Ternary(_, x, _) => Some(x),
        Shape::Align(_, x) => x,
        _ => None,
    }
}

// The third part.
pub(crate) fn third<'a>(shape: Shape<'a>) -> Option<&'a Expression>
    ensures part { seen_held result ≡ slice_get (parts (seen shape.entry)) 2 }
    ensures smaller { size_held (seen_held result) ≤ part_size (seen shape.entry) }
{
    match shape {
        Shape::Ternary(_, _, x) => Some(x),
        _ => None,
    }
}
