//! Expressions with their depths, and what is made of them.

ghost use Rattle.std.specs.Prelude.{◌≡◌, ◌<◌, ◌+◌, ◌^◌, IfOk};
ghost use Rattle.wild_expression.specs.Grammar as spec;

use sqlite_items::Boxed;
use std::alloc::{AllocError, Global};
use wild_expression_tree::{AssertCommand, Expression, Question, Unary};
use wild_expression_words::{Extreme, Operator, node, signed_node};
use wild_names::{Name, SegmentName};

/// An expression, and its depth: how many brackets, signs, operators and calls are in one another in it.
#[derive(Debug, Drop)]
pub struct Measured {
    pub expression: Boxed<Expression>,
    pub depth: u32,
}

/// An operator over two operands.
pub fn join(
    alloc: Global,
    operator: Operator,
    left: Measured,
    right: Measured,
) -> Result<Measured, AllocError>
    requires left { left.depth + 1 < 2 ^ 32 }
    requires right { right.depth + 1 < 2 ^ 32 }
    ensures { IfOk result (λ x. x ≡ spec.binary_tree operator left right) }
{
    let depth = left.depth.max(right.depth) + 1;
    let expression = node(operator, left.expression, right.expression);
    Ok(Measured {
        expression: Boxed::new(alloc, expression)?,
        depth,
    })
}

/// A condition, and what it chooses from.
pub fn choose(
    alloc: Global,
    condition: Measured,
    then: Measured,
    other: Measured,
) -> Result<Measured, AllocError>
    requires condition { condition.depth + 1 < 2 ^ 32 }
    requires then { then.depth + 1 < 2 ^ 32 }
    requires other { other.depth + 1 < 2 ^ 32 }
    ensures { IfOk result (λ x. x ≡ spec.ternary_tree condition then other) }
{
    let depth = condition.depth.max(then.depth.max(other.depth)) + 1;
    let expression = Expression::Ternary(condition.expression, then.expression, other.expression);
    Ok(Measured {
        expression: Boxed::new(alloc, expression)?,
        depth,
    })
}

/// A sign before an operand.
pub fn put_sign(alloc: Global, sign: Unary, operand: Measured) -> Result<Measured, AllocError>
    requires { operand.depth + 1 < 2 ^ 32 }
    ensures { IfOk result (λ x. x ≡ spec.unary_tree sign operand) }
{
    let depth = operand.depth + 1;
    Ok(Measured {
        expression: Boxed::new(alloc, signed_node(sign, operand.expression))?,
        depth,
    })
}

/// The smaller or the greater of two.
pub fn pair_up(
    alloc: Global,
    extreme: Extreme,
    left: Measured,
    right: Measured,
) -> Result<Measured, AllocError>
    requires left { left.depth + 1 < 2 ^ 32 }
    requires right { right.depth + 1 < 2 ^ 32 }
    ensures { IfOk result (λ x. x ≡ spec.extreme_tree extreme left right) }
{
    let depth = left.depth.max(right.depth) + 1;
    let expression = match extreme {
        Extreme::Min => Expression::Min(left.expression, right.expression),
        Extreme::Max => Expression::Max(left.expression, right.expression),
    };
    Ok(Measured {
        expression: Boxed::new(alloc, expression)?,
        depth,
    })
}

/// The location counter, aligned.
pub fn align_counter(alloc: Global, alignment: Measured) -> Result<Measured, AllocError>
    requires { alignment.depth + 1 < 2 ^ 32 }
    ensures { IfOk result (λ x. x ≡ spec.align_counter_tree alignment) }
{
    let depth = alignment.depth + 1;
    Ok(Measured {
        expression: Boxed::new(alloc, Expression::Align(alignment.expression, None))?,
        depth,
    })
}

/// A value, aligned.
pub fn align_value(
    alloc: Global,
    value: Measured,
    alignment: Measured,
) -> Result<Measured, AllocError>
    requires value { value.depth + 1 < 2 ^ 32 }
    requires alignment { alignment.depth + 1 < 2 ^ 32 }
    ensures { IfOk result (λ x. x ≡ spec.align_value_tree value alignment) }
{
    let depth = value.depth.max(alignment.depth) + 1;
    let expression = Expression::Align(alignment.expression, Some(value.expression));
    Ok(Measured {
        expression: Boxed::new(alloc, expression)?,
        depth,
    })
}

/// The start of a segment, or a value.
pub fn start(alloc: Global, name: &[u8], value: Measured) -> Result<Measured, AllocError>
    requires { value.depth + 1 < 2 ^ 32 }
    ensures { IfOk result (λ x. x ≡ spec.segment_start_tree name.now value) }
{
    let depth = value.depth + 1;
    let expression = Expression::SegmentStart(SegmentName::from_bytes(name), value.expression);
    Ok(Measured {
        expression: Boxed::new(alloc, expression)?,
        depth,
    })
}

/// A condition that must hold, whose bracket is at the position.
pub fn assert_that(
    alloc: Global,
    at: usize,
    condition: Measured,
    message: Name,
) -> Result<Measured, AllocError>
    requires { condition.depth + 1 < 2 ^ 32 }
    ensures { IfOk result (λ x. x ≡ spec.assert_tree at condition message) }
{
    let depth = condition.depth + 1;
    let command = AssertCommand {
        expression: condition.expression,
        message,
        at,
    };
    Ok(Measured {
        expression: Boxed::new(alloc, Expression::Assert(command))?,
        depth,
    })
}

fn question_node(question: Question, name: Name) -> Expression
    ensures { result ≡ spec.question_node question name }
{
    match question {
        Question::Sizeof => Expression::Sizeof(name),
        Question::Alignof => Expression::Alignof(name),
        Question::Addr => Expression::Addr(name),
        Question::Loadaddr => Expression::Loadaddr(name),
        Question::Origin => Expression::Origin(name),
        Question::Length => Expression::Length(name),
        Question::Defined => Expression::Defined(name),
    }
}

/// A call over a name.
pub fn ask(alloc: Global, question: Question, name: Name) -> Result<Measured, AllocError>
    ensures { IfOk result (λ x. x ≡ spec.question_tree question name) }
{
    let expression = question_node(question, name);
    Ok(Measured {
        expression: Boxed::new(alloc, expression)?,
        depth: 1,
    })
}
