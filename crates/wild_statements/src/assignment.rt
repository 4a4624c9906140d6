//! Reads what is assigned to a name.

ghost use Rattle.std.specs.Prelude.{◌≡◌, ◌≤◌, ◌<◌, ◌+◌, length, IfOk, IfSome, OnOk};
ghost use Rattle.std.specs.Bool.{OnTrue};
ghost use Rattle.wild_reading.specs.Only.{Answers};
ghost use Rattle.wild_reading.specs.Position.{ahead};
ghost use Rattle.wild_expression_words.specs.Dialect.{first_grammar};
ghost use Rattle.wild_statements.specs.Assignment as spec;

use sqlite_items::Boxed;
use std::alloc::Global;
use wild_expression::{Expression, expression, inner_value};
use wild_expression_words::{Level, Operator, is_counter, node};
use wild_names::{Name, NoMemory};
use wild_reading::{Cursor, Stop, begins};

#[tactic(auto, unfolding(crate::specs::Assignment::begins_set))]
fn begins_set(cursor: &Cursor<'_>) -> bool
    ensures { result ≡ spec.begins_set cursor.now.text.bytes cursor.now.at }
{
    let bytes = cursor.bytes();
    let at = cursor.position();
    begins(bytes, at, b'=') && !(begins(bytes, at + 1, b'=') || begins(bytes, at + 1, b'/'))
}

fn begins_twice(bytes: &[u8], at: usize, byte: u8) -> bool
    ensures value { result ≡ spec.begins_twice byte bytes.now at }
    ensures within { OnTrue result (at + 1 < length bytes.now) }
{
    begins(bytes, at, byte) && begins(bytes, at + 1, byte)
}

#[tactic(auto, unfolding(crate::specs::Assignment::change_at))]
fn change_at(bytes: &[u8], at: usize) -> Option<(Operator, usize)>
    ensures value { result ≡ spec.change_at bytes.now at }
    ensures within { IfSome result (λ x. (at < x.1) × (x.1 ≤ length bytes.now)) }
{
    if begins(bytes, at, b'+') {
        Some((Operator::Add, at + 1))
    } else if begins(bytes, at, b'-') {
        Some((Operator::Subtract, at + 1))
    } else if begins(bytes, at, b'*') {
        Some((Operator::Multiply, at + 1))
    } else if begins(bytes, at, b'/') {
        Some((Operator::Divide, at + 1))
    } else if begins_twice(bytes, at, b'<') {
        Some((Operator::LeftShift, at + 2))
    } else if begins_twice(bytes, at, b'>') {
        Some((Operator::RightShift, at + 2))
    } else if begins(bytes, at, b'&') {
        Some((Operator::BitwiseAnd, at + 1))
    } else if begins(bytes, at, b'|') {
        Some((Operator::BitwiseOr, at + 1))
    } else if begins(bytes, at, b'^') {
        Some((Operator::BitwiseXor, at + 1))
    } else {
        None
    }
}

fn is_before_equal(bytes: &[u8], found: Option<(Operator, usize)>) -> bool
    ensures { result ≡ spec.is_before_equal bytes.now found }
{
    match found {
        Some((_, end)) => begins(bytes, end, b'='),
        None => false,
    }
}

#[tactic(auto, unfolding(crate::specs::Assignment::begins_change))]
fn begins_change(cursor: &Cursor<'_>) -> bool
    ensures { result ≡ spec.begins_change cursor.now.text.bytes cursor.now.at }
{
    let bytes = cursor.bytes();
    is_before_equal(bytes, change_at(bytes, cursor.position()))
}

/// Whether an assignment operator is ahead.
#[tactic(auto, unfolding(crate::specs::Assignment::begins_assignment))]
pub fn begins_assignment(cursor: &Cursor<'_>) -> bool
    ensures { result ≡ spec.begins_assignment cursor.now.text.bytes cursor.now.at }
{
    begins_set(cursor) || begins_change(cursor)
}

fn target(alloc: Global, name: &[u8]) -> Result<Expression, NoMemory>
    ensures { IfOk result (λ x. x ≡ spec.target_of name.now) }
{
    if is_counter(name) {
        Ok(Expression::LocationCounter)
    } else {
        Ok(Expression::Symbol(Name::new(alloc, name)?))
    }
}

// The name changed by the operator.
fn change_node(
    alloc: Global,
    operator: Operator,
    name: &[u8],
    operand: Boxed<Expression>,
) -> Result<Boxed<Expression>, NoMemory>
    ensures { IfOk result (λ x. x ≡ spec.change_node operator name.now operand) }
{
    let target = Boxed::new(alloc, target(alloc, name)?)?;
    Ok(Boxed::new(alloc, node(operator, target, operand))?)
}

#[tactic(auto, using(wild_reading::proofs::Readers::leaves, wild_reading::proofs::Leaves::moves), unfolding(crate::specs::Assignment::change))]
fn pass_change(cursor: &mut Cursor<'_>) -> Result<Operator, Stop>
    ensures read { Answers spec.change cursor.old cursor.new result }
    ensures shorter { OnOk result (ahead cursor.new < ahead cursor.old) }
{
    let at = cursor.position();
    match change_at(cursor.bytes(), at) {
        Some((operator, end)) => {
            cursor.pass_to(end);
            Ok(operator)
        }
        None => Err(Stop::Syntax { position: at }),
    }
}

#[tactic(auto, using(wild_reading::proofs::Readers::reading), unfolding(crate::specs::Assignment::set_value))]
fn set_value(cursor: &mut Cursor<'_>, alloc: Global) -> Result<Boxed<Expression>, Stop>
    ensures read { Answers (spec.set_value first_grammar) cursor.old cursor.new result }
    ensures shorter { OnOk result (ahead cursor.new < ahead cursor.old) }
{
    cursor.symbol(b'=')?;
    expression(cursor, alloc)
}

#[tactic(auto, using(wild_reading::proofs::Readers::reading), unfolding(crate::specs::Assignment::changed_value, wild_expression::specs::Grammar::inner_by, wild_expression::specs::Grammar::inner_value))]
fn changed_value(
    cursor: &mut Cursor<'_>,
    alloc: Global,
    name: &[u8],
) -> Result<Boxed<Expression>, Stop>
    ensures read { Answers (spec.changed_value first_grammar name.now) cursor.old cursor.new result }
    ensures shorter { OnOk result (ahead cursor.new < ahead cursor.old) }
{
    let operator = pass_change(cursor)?;
    cursor.symbol(b'=')?;
    let operand = inner_value(cursor, alloc, Level::Ternary)?;
    let value = change_node(alloc, operator, name, operand.expression)?;
    Ok(value)
}

// An operator and an expression: the value that is assigned to the name.
#[tactic(auto, using(wild_reading::proofs::Readers::choosing), unfolding(crate::specs::Assignment::assigned_value))]
fn assigned_value(
    cursor: &mut Cursor<'_>,
    alloc: Global,
    name: &[u8],
) -> Result<Boxed<Expression>, Stop>
    ensures read { Answers (spec.assigned_value first_grammar name.now) cursor.old cursor.new result }
    ensures shorter { OnOk result (ahead cursor.new < ahead cursor.old) }
{
    if begins_set(cursor) {
        set_value(cursor, alloc)
    } else {
        changed_value(cursor, alloc, name)
    }
}

/// Reads what is assigned to a name; directly after it a semicolon or none.
#[tactic(auto, using(wild_reading::proofs::Readers::reading), unfolding(crate::specs::Assignment::tight_value))]
pub fn tight_value(
    cursor: &mut Cursor<'_>,
    alloc: Global,
    name: &[u8],
) -> Result<Boxed<Expression>, Stop>
    ensures { Answers (spec.tight_value first_grammar name.now) cursor.old cursor.new result }
{
    let value = assigned_value(cursor, alloc, name)?;
    cursor.optional_symbol(b';')?;
    Ok(value)
}

/// Reads what is assigned to a name, and a gap; a semicolon or none.
#[tactic(auto, using(wild_reading::proofs::Readers::reading), unfolding(crate::specs::Assignment::open_value))]
pub fn open_value(
    cursor: &mut Cursor<'_>,
    alloc: Global,
    name: &[u8],
) -> Result<Boxed<Expression>, Stop>
    ensures { Answers (spec.open_value first_grammar name.now) cursor.old cursor.new result }
{
    let value = assigned_value(cursor, alloc, name)?;
    cursor.gap()?;
    cursor.optional_symbol(b';')?;
    Ok(value)
}

/// Reads what is assigned to a name, a gap, and a semicolon.
#[tactic(auto, using(wild_reading::proofs::Readers::reading), unfolding(crate::specs::Assignment::closed_value))]
pub fn closed_value(
    cursor: &mut Cursor<'_>,
    alloc: Global,
    name: &[u8],
) -> Result<Boxed<Expression>, Stop>
    ensures { Answers (spec.closed_value first_grammar name.now) cursor.old cursor.new result }
{
    let value = assigned_value(cursor, alloc, name)?;
    cursor.gap()?;
    cursor.symbol(b';')?;
    Ok(value)
}
