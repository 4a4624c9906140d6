//! Why an expression has no constant number.

/// Why an expression has no constant number.
#[derive(Clone, Copy, Debug, PartialEq, Eq)]
pub enum ConstFault {
    /// What is evaluated asks for something other than numbers and operators.
    NotConstant,
    /// An evaluated divisor is 0.
    DivisionByZero,
    /// The same, of a remainder.
    ModuloByZero,
}
