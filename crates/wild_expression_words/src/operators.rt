//! The levels of expressions, their operators and signs.

ghost use Rattle.std.specs.Prelude.{◌≡◌, ◌≤◌, ◌<◌, ◌+◌, length, IfSome, OnSome, OnOk, MatchOption};
ghost use Rattle.wild_reading.specs.Bytes.{is_byte};
ghost use Rattle.wild_reading.specs.Only.{Answers};
ghost use Rattle.wild_reading.specs.Position.{ahead, IsMarked};
ghost use Rattle.wild_expression_words.specs.Operators as spec;

use sqlite_items::Boxed;
use wild_expression_tree::{Expression, Unary};
use wild_reading::{Cursor, Stop};

/// The levels at which operators bind, the loosest first.
#[derive(Clone, Copy, Debug, PartialEq, Eq)]
pub enum Level {
    Ternary,
    LogicalOr,
    LogicalAnd,
    Comparison,
    BitwiseOr,
    BitwiseXor,
    BitwiseAnd,
    Shift,
    Sum,
    Product,
    /// A sign, or none, before what stands for itself.
    Sign,
}

/// The operators between two operands.
#[derive(Clone, Copy, Debug, PartialEq, Eq)]
pub enum Operator {
    LogicalOr,
    LogicalAnd,
    LessEqual,
    GreaterEqual,
    Equal,
    NotEqual,
    LessThan,
    GreaterThan,
    BitwiseOr,
    BitwiseXor,
    BitwiseAnd,
    LeftShift,
    RightShift,
    Add,
    Subtract,
    Multiply,
    Divide,
    Modulo,
}

/// The level of the operands.
pub fn operand(level: Level) -> Level
    ensures { result ≡ spec.operand level }
{
    match level {
        Level::Ternary => Level::LogicalOr,
        Level::LogicalOr => Level::LogicalAnd,
        Level::LogicalAnd => Level::Comparison,
        Level::Comparison => Level::BitwiseOr,
        Level::BitwiseOr => Level::BitwiseXor,
        Level::BitwiseXor => Level::BitwiseAnd,
        Level::BitwiseAnd => Level::Shift,
        Level::Shift => Level::Sum,
        Level::Sum => Level::Product,
        Level::Product | Level::Sign => Level::Sign,
    }
}

fn is_byte(found: Option<u8>, byte: u8) -> bool
    ensures { result ≡ is_byte byte found }
{
    match found {
        Some(found) => found == byte,
        None => false,
    }
}

fn comparison_of(first: u8, second: Option<u8>) -> Option<Operator>
    ensures value { result ≡ spec.operator_of Level.Comparison first second }
    ensures within { IfSome result (λ op. MatchOption second (spec.width op ≡ 1) (λ _. spec.width op ≤ 2)) }
{
    match (first, second) {
        (b'<', Some(b'=')) => Some(Operator::LessEqual),
        (b'>', Some(b'=')) => Some(Operator::GreaterEqual),
        (b'=', Some(b'=')) => Some(Operator::Equal),
        (b'!', Some(b'=')) => Some(Operator::NotEqual),
        (b'<', _) => Some(Operator::LessThan),
        (b'>', _) => Some(Operator::GreaterThan),
        _ => None,
    }
}

fn operator_of(level: Level, first: u8, second: Option<u8>) -> Option<Operator>
    ensures value { result ≡ spec.operator_of level first second }
    ensures within { IfSome result (λ op. MatchOption second (spec.width op ≡ 1) (λ _. spec.width op ≤ 2)) }
{
    match level {
        Level::LogicalOr if first == b'|' && is_byte(second, b'|') => Some(Operator::LogicalOr),
        Level::LogicalAnd if first == b'&' && is_byte(second, b'&') => Some(Operator::LogicalAnd),
        Level::Comparison => comparison_of(first, second),
        Level::BitwiseOr if first == b'|' && !is_byte(second, b'|') => Some(Operator::BitwiseOr),
        Level::BitwiseXor if first == b'^' => Some(Operator::BitwiseXor),
        Level::BitwiseAnd if first == b'&' && !is_byte(second, b'&') => Some(Operator::BitwiseAnd),
        Level::Shift if first == b'<' && is_byte(second, b'<') => Some(Operator::LeftShift),
        Level::Shift if first == b'>' && is_byte(second, b'>') => Some(Operator::RightShift),
        Level::Sum if first == b'+' => Some(Operator::Add),
        Level::Sum if first == b'-' => Some(Operator::Subtract),
        Level::Product if first == b'*' => Some(Operator::Multiply),
        Level::Product if first == b'/' => Some(Operator::Divide),
        Level::Product if first == b'%' => Some(Operator::Modulo),
        _ => None,
    }
}

#[tactic(auto, unfolding(crate::specs::Operators::operator_found))]
fn operator_found(bytes: &[u8], at: usize, level: Level) -> Option<Operator>
    requires { at ≤ length bytes.now }
    ensures value { result ≡ spec.operator_found level bytes.now at }
    ensures within { IfSome result (λ op. at + spec.width op ≤ length bytes.now) }
{
    match bytes.get(at) {
        Some(first) => operator_of(level, *first, bytes.get(at + 1).copied()),
        None => None,
    }
}

fn width(operator: Operator) -> usize
    ensures value { result ≡ spec.width operator }
    ensures some { 1 ≤ result }
{
    match operator {
        Operator::LogicalOr
        | Operator::LogicalAnd
        | Operator::LessEqual
        | Operator::GreaterEqual
        | Operator::Equal
        | Operator::NotEqual
        | Operator::LeftShift
        | Operator::RightShift => 2,
        _ => 1,
    }
}

/// Whether no operator of the level is ahead.
#[tactic(auto, unfolding(crate::specs::Operators::ends))]
pub fn ends(cursor: &Cursor<'_>, level: Level) -> bool
    ensures { result ≡ spec.ends level cursor.now.text.bytes cursor.now.at }
{
    operator_found(cursor.bytes(), cursor.position(), level).is_none()
}

fn first_byte(operator: Operator) -> u8
    ensures { result ≡ spec.first_byte operator }
{
    match operator {
        Operator::LogicalOr | Operator::BitwiseOr => b'|',
        Operator::LogicalAnd | Operator::BitwiseAnd => b'&',
        Operator::LessEqual | Operator::LessThan | Operator::LeftShift => b'<',
        Operator::GreaterEqual | Operator::GreaterThan | Operator::RightShift => b'>',
        Operator::Equal => b'=',
        Operator::NotEqual => b'!',
        Operator::BitwiseXor => b'^',
        Operator::Add => b'+',
        Operator::Subtract => b'-',
        Operator::Multiply => b'*',
        Operator::Divide => b'/',
        Operator::Modulo => b'%',
    }
}

/// Reads an operator of the level.
#[tactic(auto, using(wild_reading::proofs::Readers::leaves, crate::proofs::Operations::operations, crate::proofs::Passing::passing))]
pub fn pass_operator(cursor: &mut Cursor<'_>, level: Level) -> Result<Operator, Stop>
    ensures read { Answers (spec.operator level) cursor.old cursor.new result }
    ensures shorter { OnOk result (ahead cursor.new < ahead cursor.old) }
    ensures marked { OnOk result (IsMarked cursor.new) }
{
    let position = cursor.position();
    match operator_found(cursor.bytes(), position, level) {
        Some(operator) => {
            cursor.byte(first_byte(operator))?;
            cursor.pass_to(position + width(operator));
            Ok(operator)
        }
        None => Err(Stop::Syntax { position }),
    }
}

/// The node over two operands.
pub fn node(operator: Operator, left: Boxed<Expression>, right: Boxed<Expression>) -> Expression
    ensures { result ≡ spec.node operator left right }
{
    match operator {
        Operator::LogicalOr => Expression::LogicalOr(left, right),
        Operator::LogicalAnd => Expression::LogicalAnd(left, right),
        Operator::LessEqual => Expression::LessEqual(left, right),
        Operator::GreaterEqual => Expression::GreaterEqual(left, right),
        Operator::Equal => Expression::Equal(left, right),
        Operator::NotEqual => Expression::NotEqual(left, right),
        Operator::LessThan => Expression::LessThan(left, right),
        Operator::GreaterThan => Expression::GreaterThan(left, right),
        Operator::BitwiseOr => Expression::BitwiseOr(left, right),
        Operator::BitwiseXor => Expression::BitwiseXor(left, right),
        Operator::BitwiseAnd => Expression::BitwiseAnd(left, right),
        Operator::LeftShift => Expression::LeftShift(left, right),
        Operator::RightShift => Expression::RightShift(left, right),
        Operator::Add => Expression::Add(left, right),
        Operator::Subtract => Expression::Subtract(left, right),
        Operator::Multiply => Expression::Multiply(left, right),
        Operator::Divide => Expression::Divide(left, right),
        Operator::Modulo => Expression::Modulo(left, right),
    }
}

#[tactic(auto, unfolding(crate::specs::Operators::sign_found))]
fn sign_found(bytes: &[u8], at: usize) -> Option<Unary>
    requires { at ≤ length bytes.now }
    ensures value { result ≡ spec.sign_found bytes.now at }
    ensures within { OnSome result (at < length bytes.now) }
{
    let first = *bytes.get(at)?;
    match first {
        b'!' if !is_byte(bytes.get(at + 1).copied(), b'=') => Some(Unary::LogicalNot),
        b'~' => Some(Unary::BitwiseNot),
        b'-' => Some(Unary::Negate),
        _ => None,
    }
}

/// Whether a sign is ahead.
#[tactic(auto, unfolding(crate::specs::Operators::is_signed))]
pub fn is_signed(cursor: &Cursor<'_>) -> bool
    ensures { result ≡ spec.is_signed cursor.now.text.bytes cursor.now.at }
{
    sign_found(cursor.bytes(), cursor.position()).is_some()
}

fn sign_byte(sign: Unary) -> u8
    ensures { result ≡ spec.sign_byte sign }
{
    match sign {
        Unary::LogicalNot => b'!',
        Unary::BitwiseNot => b'~',
        Unary::Negate => b'-',
    }
}

/// Reads a sign.
#[tactic(auto, using(wild_reading::proofs::Readers::leaves, crate::proofs::Operations::operations))]
pub fn pass_sign(cursor: &mut Cursor<'_>) -> Result<Unary, Stop>
    ensures read { Answers spec.sign cursor.old cursor.new result }
    ensures shorter { OnOk result (ahead cursor.new < ahead cursor.old) }
    ensures marked { OnOk result (IsMarked cursor.new) }
{
    let position = cursor.position();
    match sign_found(cursor.bytes(), position) {
        Some(sign) => {
            cursor.byte(sign_byte(sign))?;
            Ok(sign)
        }
        None => Err(Stop::Syntax { position }),
    }
}

/// The node over one operand.
pub fn signed_node(sign: Unary, operand: Boxed<Expression>) -> Expression
    ensures { result ≡ spec.signed_node sign operand }
{
    match sign {
        Unary::LogicalNot => Expression::LogicalNot(operand),
        Unary::BitwiseNot => Expression::BitwiseNot(operand),
        Unary::Negate => Expression::Negate(operand),
    }
}
