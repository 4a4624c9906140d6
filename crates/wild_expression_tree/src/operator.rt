//! Operators and what is asked of names, as nodes of expressions have them.

/// What makes a number of two.
#[derive(Clone, Copy, Debug, PartialEq, Eq)]
pub enum Arithmetic {
    Add,
    Subtract,
    Multiply,
    BitwiseAnd,
    BitwiseOr,
    BitwiseXor,
    LeftShift,
    RightShift,
    Min,
    Max,
}

/// What makes a number of two, of which the right one must not be 0.
#[derive(Clone, Copy, Debug, PartialEq, Eq)]
pub enum Division {
    Divide,
    Modulo,
}

/// What holds of two numbers or does not.
#[derive(Clone, Copy, Debug, PartialEq, Eq)]
pub enum Comparison {
    LessEqual,
    GreaterEqual,
    Equal,
    NotEqual,
    LessThan,
    GreaterThan,
}

/// What holds by its left side alone, or by its right one.
#[derive(Clone, Copy, Debug, PartialEq, Eq)]
pub enum Connective {
    LogicalAnd,
    LogicalOr,
}

/// What makes a number of one.
#[derive(Clone, Copy, Debug, PartialEq, Eq)]
pub enum Unary {
    LogicalNot,
    BitwiseNot,
    Negate,
}

/// What is asked of a name.
#[derive(Clone, Copy, Debug, PartialEq, Eq)]
pub enum Question {
    /// The size of a section, in bytes.
    Sizeof,
    /// The alignment of a section, in bytes.
    Alignof,
    /// The address of a section.
    Addr,
    /// The load address of a section.
    Loadaddr,
    /// Where a memory region begins.
    Origin,
    /// How many bytes a memory region has.
    Length,
    /// Whether a symbol is defined.
    Defined,
}
