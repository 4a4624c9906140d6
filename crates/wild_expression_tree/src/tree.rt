//! Expressions as trees.

use sqlite_items::Boxed;
use wild_names::{Name, SegmentName};

/// An expression. Operands stand in written order.
#[cycle(expressions)]
#[derive(Debug, Drop)]
pub enum Expression {
    /// A literal, its suffix multiplied in.
    Number(u64),
    /// `.`
    LocationCounter,
    SizeofHeaders,
    /// The value of a symbol.
    Symbol(Name),
    /// The size of a section, in bytes.
    Sizeof(Name),
    /// The alignment of a section, in bytes.
    Alignof(Name),
    /// The address of a section.
    Addr(Name),
    /// The load address of a section.
    Loadaddr(Name),
    /// Where a memory region begins.
    Origin(Name),
    /// How many bytes a memory region has.
    Length(Name),
    /// Whether a symbol is defined.
    Defined(Name),
    LogicalOr(Boxed<Expression>, Boxed<Expression>),
    LogicalAnd(Boxed<Expression>, Boxed<Expression>),
    LessEqual(Boxed<Expression>, Boxed<Expression>),
    GreaterEqual(Boxed<Expression>, Boxed<Expression>),
    Equal(Boxed<Expression>, Boxed<Expression>),
    NotEqual(Boxed<Expression>, Boxed<Expression>),
    LessThan(Boxed<Expression>, Boxed<Expression>),
    GreaterThan(Boxed<Expression>, Boxed<Expression>),
    BitwiseOr(Boxed<Expression>, Boxed<Expression>),
    BitwiseXor(Boxed<Expression>, Boxed<Expression>),
    BitwiseAnd(Boxed<Expression>, Boxed<Expression>),
    LeftShift(Boxed<Expression>, Boxed<Expression>),
    RightShift(Boxed<Expression>, Boxed<Expression>),
    Add(Boxed<Expression>, Boxed<Expression>),
    Subtract(Boxed<Expression>, Boxed<Expression>),
    Multiply(Boxed<Expression>, Boxed<Expression>),
    Divide(Boxed<Expression>, Boxed<Expression>),
    Modulo(Boxed<Expression>, Boxed<Expression>),
    LogicalNot(Boxed<Expression>),
    BitwiseNot(Boxed<Expression>),
    Negate(Boxed<Expression>),
    /// The condition, the value where it holds, and the value where it does not.
    Ternary(Boxed<Expression>, Boxed<Expression>, Boxed<Expression>),
    Min(Boxed<Expression>, Boxed<Expression>),
    Max(Boxed<Expression>, Boxed<Expression>),
    /// The alignment, and what is aligned: None is the location counter.
    Align(Boxed<Expression>, Option<Boxed<Expression>>),
    /// The start of a segment, and its value where none is given for the segment.
    SegmentStart(SegmentName, Boxed<Expression>),
    Assert(AssertCommand),
}

/// A condition that must hold, and what is said where it does not.
#[cycle(expressions)]
#[derive(Debug, Drop)]
pub struct AssertCommand {
    pub expression: Boxed<Expression>,
    pub message: Name,
    /// The position of its bracket in the bytes of the script.
    pub at: usize,
}
