//! Copies of expressions.

ghost use Rattle.std.specs.Prelude.{◌≡◌, IfOk};
ghost use Rattle.wild_expression_tree.specs.Shape as spec;
ghost use Rattle.wild_expression_tree.specs.Shape.{shape, seen_held};

use crate::operator::{Arithmetic, Comparison, Connective, Division, Question, Unary};
use crate::shape::Shape;
use crate::tree::{AssertCommand, Expression};
use sqlite_items::Boxed;
use std::alloc::Global;
use wild_names::{Name, NoMemory};

impl Arithmetic {
    fn over(self, left: Boxed<Expression>, right: Boxed<Expression>) -> Expression
        ensures { shape result ≡ spec.Arithmetic self left right }
    {
        match self {
            Arithmetic::Add => Expression::Add(left, right),
            Arithmetic::Subtract => Expression::Subtract(left, right),
            Arithmetic::Multiply => Expression::Multiply(left, right),
            Arithmetic::BitwiseAnd => Expression::BitwiseAnd(left, right),
            Arithmetic::BitwiseOr => Expression::BitwiseOr(left, right),
            Arithmetic::BitwiseXor => Expression::BitwiseXor(left, right),
            Arithmetic::LeftShift => Expression::LeftShift(left, right),
            Arithmetic::RightShift => Expression::RightShift(left, right),
            Arithmetic::Min => Expression::Min(left, right),
            Arithmetic::Max => Expression::Max(left, right),
        }
    }
}

impl Division {
    fn over(self, left: Boxed<Expression>, right: Boxed<Expression>) -> Expression
        ensures { shape result ≡ spec.Division self left right }
    {
        match self {
            Division::Divide => Expression::Divide(left, right),
            Division::Modulo => Expression::Modulo(left, right),
        }
    }
}

impl Comparison {
    fn over(self, left: Boxed<Expression>, right: Boxed<Expression>) -> Expression
        ensures { shape result ≡ spec.Comparison self left right }
    {
        match self {
            Comparison::LessEqual => Expression::LessEqual(left, right),
            Comparison::GreaterEqual => Expression::GreaterEqual(left, right),
            Comparison::Equal => Expression::Equal(left, right),
            Comparison::NotEqual => Expression::NotEqual(left, right),
            Comparison::LessThan => Expression::LessThan(left, right),
            Comparison::GreaterThan => Expression::GreaterThan(left, right),
        }
    }
}

impl Connective {
    fn over(self, left: Boxed<Expression>, right: Boxed<Expression>) -> Expression
        ensures { shape result ≡ spec.Connective self left right }
    {
        match self {
            Connective::LogicalAnd => Expression::LogicalAnd(left, right),
            Connective::LogicalOr => Expression::LogicalOr(left, right),
        }
    }
}

impl Unary {
    fn over(self, operand: Boxed<Expression>) -> Expression
        ensures { shape result ≡ spec.Unary self operand }
    {
        match self {
            Unary::LogicalNot => Expression::LogicalNot(operand),
            Unary::BitwiseNot => Expression::BitwiseNot(operand),
            Unary::Negate => Expression::Negate(operand),
        }
    }
}

impl Question {
    fn of(self, name: Name) -> Expression
        ensures { shape result ≡ spec.Named self name }
    {
        match self {
            Question::Sizeof => Expression::Sizeof(name),
            Question::Alignof => Expression::Alignof(name),
            Question::Addr => Expression::Addr(name),
            Question::Loadaddr => Expression::Loadaddr(name),
            Question::Origin => Expression::Origin(name),
            Question::Length => Expression::Length(name),
            Question::Defined => Expression::Defined(name),
        }
    }
}

#[cycle(copies)]
fn part(alloc: Global, part: &Expression) -> Result<Boxed<Expression>, NoMemory>
    ensures { IfOk result (λ copy. copy ≡ part.now) }
{
    Ok(Boxed::new(alloc, part.copy(alloc)?)?)
}

#[cycle(copies)]
fn held(alloc: Global, held: Option<&Expression>) -> Result<Option<Boxed<Expression>>, NoMemory>
    ensures { IfOk result (λ copy. copy ≡ seen_held held.entry) }
{
    match held {
        Some(held) => Ok(Some(part(alloc, held)?)),
        None => Ok(None),
    }
}

impl Expression {
    /// The same expression once more. Fails where memory runs out.
    #[cycle(copies)]
    #[tactic(auto, using(crate::proofs::Rebuilt::same_shape))]
    pub fn copy(&self, alloc: Global) -> Result<Expression, NoMemory>
        ensures { IfOk result (λ copy. copy ≡ self.now) }
    {
        match self.shape() {
            Shape::Number(number) => Ok(Expression::Number(number)),
            Shape::LocationCounter => Ok(Expression::LocationCounter),
            Shape::SizeofHeaders => Ok(Expression::SizeofHeaders),
            Shape::Symbol(name) => Ok(Expression::Symbol(name.copy(alloc)?)),
            Shape::Named(question, name) => Ok(question.of(name.copy(alloc)?)),
            Shape::Arithmetic(o, x, y) => Ok(o.over(part(alloc, x)?, part(alloc, y)?)),
            Shape::Division(o, x, y) => Ok(o.over(part(alloc, x)?, part(alloc, y)?)),
            Shape::Comparison(o, x, y) => Ok(o.over(part(alloc, x)?, part(alloc, y)?)),
            Shape::Connective(o, x, y) => Ok(o.over(part(alloc, x)?, part(alloc, y)?)),
            Shape::Unary(o, x) => Ok(o.over(part(alloc, x)?)),
            Shape::Ternary(x, y, z) => {
                let condition = part(alloc, x)?;
                let value = part(alloc, y)?;
                let otherwise = part(alloc, z)?;
                Ok(Expression::Ternary(condition, value, otherwise))
            }
            Shape::Align(x, y) => Ok(Expression::Align(part(alloc, x)?, held(alloc, y)?)),
            Shape::SegmentStart(name, x) => Ok(Expression::SegmentStart(name, part(alloc, x)?)),
            Shape::Assert(command) => Ok(Expression::Assert(command.copy(alloc)?)),
        }
    }
}

impl AssertCommand {
    /// The same command once more. Fails where memory runs out.
    #[cycle(copies)]
    pub fn copy(&self, alloc: Global) -> Result<AssertCommand, NoMemory>
        ensures { IfOk result (λ copy. copy ≡ self.now) }
    {
        Ok(AssertCommand {
            expression: part(alloc, self.expression.get())?,
            message: self.message.copy(alloc)?,
            at: self.at,
        })
    }
}
