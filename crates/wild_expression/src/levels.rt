//! Reads expressions.

ghost use Rattle.std.specs.Prelude.{◌≡◌, ◌≤◌, ◌<◌, ◌+◌, ◌^◌, true, IfOk, OnOk};
ghost use Rattle.wild_reading.specs.Position.{ahead, IsMarked, IsPaid};
ghost use Rattle.wild_expression_words.specs.Dialect.{first_grammar};
ghost use Rattle.wild_reading.specs.Only.{Answers};
ghost use Rattle.wild_expression.specs.Grammar as spec;
ghost use Rattle.wild_expression.specs.Grammar.{IsCovered};
ghost use Rattle.wild_expression_words.specs.Operators.{is_layer};
ghost use Rattle.wild_expression_words.specs.Words.{byte_count};

use crate::measured::{
    Measured, align_counter, align_value, ask, assert_that, choose, join, pair_up, put_sign, start,
};
use std::alloc::Global;
use wild_expression_tree::Question;
use wild_expression_words::{
    Call, Extreme, Head, Level, ends, identifier, is_signed, operand, pass_operator, pass_sign,
    quoted_name, read_head,
};
use wild_names::Name;
use wild_reading::{Cursor, Stop};

#[tactic(auto, using(wild_reading::proofs::Readers::reading), unfolding(crate::specs::Grammar::close))]
fn close(cursor: &mut Cursor<'_>) -> Result<(), Stop>
    ensures { Answers (spec.close first_grammar) cursor.old cursor.new result }
{
    cursor.byte(b')')?;
    cursor.white()?;
    Ok(())
}

#[tactic(auto, using(wild_reading::proofs::Readers::reading, crate::proofs::Weights::weights), unfolding(crate::specs::Grammar::question))]
fn ask_name(cursor: &mut Cursor<'_>, alloc: Global, asks: Question) -> Result<Measured, Stop>
    ensures read { Answers (spec.question first_grammar asks) cursor.old cursor.new result }
    ensures deep { IfOk result (λ x. x.depth ≤ cursor.old.left) }
    ensures paid { IfOk result (λ x. IsCovered x.depth cursor.new) }
    ensures shorter { OnOk result (ahead cursor.new < ahead cursor.old) }
{
    cursor.byte(b'(')?;
    cursor.room(0)?;
    cursor.white()?;
    let word = identifier(cursor)?;
    cursor.white()?;
    close(cursor)?;
    let argument = Name::new(alloc, word.content())?;
    let asked = ask(alloc, asks, argument)?;
    Ok(asked)
}

#[cycle(levels)]
fn enclosed(cursor: &mut Cursor<'_>, alloc: Global, level: Level) -> Result<Measured, Stop>
    requires { IsMarked cursor.old }
    ensures read { Answers (spec.inner_value level) cursor.old cursor.new result }
    ensures deep { IfOk result (λ x. x.depth < cursor.old.left) }
    ensures paid { IfOk result (λ x. IsPaid (x.depth + 1) cursor.new) }
{
    cursor.enter()?;
    let x = value(cursor, alloc, level)?;
    cursor.leave();
    Ok(x)
}

/// Reads an expression of a level, and the white after it, one deeper: a mark that deepens it was read before.
#[cycle(levels)]
pub fn inner_value(cursor: &mut Cursor<'_>, alloc: Global, level: Level) -> Result<Measured, Stop>
    requires { IsMarked cursor.old }
    ensures read { Answers (spec.inner_value level) cursor.old cursor.new result }
    ensures deep { IfOk result (λ x. x.depth < cursor.old.left) }
    ensures paid { IfOk result (λ x. IsPaid (x.depth + 1) cursor.new) }
    ensures fits { IfOk result (λ x. x.depth + 1 < 2 ^ 32) }
{
    let x = enclosed(cursor, alloc, level)?;
    // It never fails: what was read is less deep than the depth that is left. It says that one more fits.
    cursor.room(x.depth)?;
    Ok(x)
}

#[cycle(levels)]
#[tactic(auto, using(wild_reading::proofs::Readers::reading, crate::proofs::Weights::weights), unfolding(crate::specs::Grammar::brackets, crate::specs::Grammar::brackets_of))]
fn brackets(cursor: &mut Cursor<'_>, alloc: Global) -> Result<Measured, Stop>
    ensures read { Answers spec.brackets cursor.old cursor.new result }
    ensures deep { IfOk result (λ x. x.depth ≤ cursor.old.left) }
    ensures paid { IfOk result (λ x. IsCovered x.depth cursor.new) }
    ensures shorter { OnOk result (ahead cursor.new < ahead cursor.old) }
{
    cursor.byte(b'(')?;
    let x = inner_value(cursor, alloc, Level::Ternary)?;
    close(cursor)?;
    Ok(Measured {
        expression: x.expression,
        depth: x.depth + 1,
    })
}

#[cycle(levels)]
#[tactic(auto, using(wild_reading::proofs::Readers::reading, crate::proofs::Weights::weights), unfolding(crate::specs::Grammar::pair, crate::specs::Grammar::pair_of))]
fn pair(cursor: &mut Cursor<'_>, alloc: Global, extreme: Extreme) -> Result<Measured, Stop>
    ensures read { Answers (spec.pair extreme) cursor.old cursor.new result }
    ensures deep { IfOk result (λ x. x.depth ≤ cursor.old.left) }
    ensures paid { IfOk result (λ x. IsCovered x.depth cursor.new) }
    ensures shorter { OnOk result (ahead cursor.new < ahead cursor.old) }
{
    cursor.byte(b'(')?;
    let x = inner_value(cursor, alloc, Level::Ternary)?;
    cursor.byte(b',')?;
    let y = inner_value(cursor, alloc, Level::Ternary)?;
    close(cursor)?;
    let both = pair_up(alloc, extreme, x, y)?;
    Ok(both)
}

#[tactic(auto, using(wild_reading::proofs::Readers::reading, crate::proofs::Weights::weights), unfolding(crate::specs::Grammar::align_counter))]
fn align_close(
    cursor: &mut Cursor<'_>,
    alloc: Global,
    alignment: Measured,
) -> Result<Measured, Stop>
    requires deep { alignment.depth < cursor.old.left }
    requires fits { alignment.depth + 1 < 2 ^ 32 }
    requires paid { IsPaid (alignment.depth + 1) cursor.old }
    ensures read { Answers (spec.align_counter first_grammar alignment) cursor.old cursor.new result }
    ensures deep { IfOk result (λ x. x.depth ≤ cursor.old.left) }
    ensures paid { IfOk result (λ x. IsCovered x.depth cursor.new) }
{
    close(cursor)?;
    let aligned = align_counter(alloc, alignment)?;
    Ok(aligned)
}

#[cycle(levels)]
#[tactic(auto, using(wild_reading::proofs::Readers::reading, crate::proofs::Weights::weights), unfolding(crate::specs::Grammar::align_value, crate::specs::Grammar::align_value_of))]
fn align_comma(cursor: &mut Cursor<'_>, alloc: Global, x: Measured) -> Result<Measured, Stop>
    requires deep { x.depth < cursor.old.left }
    requires fits { x.depth + 1 < 2 ^ 32 }
    requires paid { IsPaid (x.depth + 1) cursor.old }
    ensures read { Answers (spec.align_value x) cursor.old cursor.new result }
    ensures deep { IfOk result (λ x. x.depth ≤ cursor.old.left) }
    ensures paid { IfOk result (λ x. IsCovered x.depth cursor.new) }
{
    cursor.byte(b',')?;
    let y = inner_value(cursor, alloc, Level::Ternary)?;
    close(cursor)?;
    let aligned = align_value(alloc, x, y)?;
    Ok(aligned)
}

#[cycle(levels)]
#[tactic(auto, using(wild_reading::proofs::Readers::choosing), unfolding(crate::specs::Grammar::align_rest, crate::specs::Grammar::align_rest_of, crate::specs::Grammar::align_value))]
fn align_rest(cursor: &mut Cursor<'_>, alloc: Global, x: Measured) -> Result<Measured, Stop>
    requires deep { x.depth < cursor.old.left }
    requires fits { x.depth + 1 < 2 ^ 32 }
    requires paid { IsPaid (x.depth + 1) cursor.old }
    ensures read { Answers (spec.align_rest x) cursor.old cursor.new result }
    ensures deep { IfOk result (λ x. x.depth ≤ cursor.old.left) }
    ensures paid { IfOk result (λ x. IsCovered x.depth cursor.new) }
{
    if cursor.begins(b',') {
        align_comma(cursor, alloc, x)
    } else {
        align_close(cursor, alloc, x)
    }
}

#[cycle(levels)]
#[tactic(auto, using(wild_reading::proofs::Readers::reading, crate::proofs::Weights::weights), unfolding(crate::specs::Grammar::align, crate::specs::Grammar::align_of, crate::specs::Grammar::align_rest))]
fn align(cursor: &mut Cursor<'_>, alloc: Global) -> Result<Measured, Stop>
    ensures read { Answers spec.align cursor.old cursor.new result }
    ensures deep { IfOk result (λ x. x.depth ≤ cursor.old.left) }
    ensures paid { IfOk result (λ x. IsCovered x.depth cursor.new) }
    ensures shorter { OnOk result (ahead cursor.new < ahead cursor.old) }
{
    cursor.byte(b'(')?;
    let x = inner_value(cursor, alloc, Level::Ternary)?;
    align_rest(cursor, alloc, x)
}

#[cycle(levels)]
#[tactic(auto, using(wild_reading::proofs::Readers::reading, crate::proofs::Weights::weights), unfolding(crate::specs::Grammar::segment_start, crate::specs::Grammar::segment_start_of))]
fn segment_start(cursor: &mut Cursor<'_>, alloc: Global) -> Result<Measured, Stop>
    ensures read { Answers spec.segment_start cursor.old cursor.new result }
    ensures deep { IfOk result (λ x. x.depth ≤ cursor.old.left) }
    ensures paid { IfOk result (λ x. IsCovered x.depth cursor.new) }
    ensures shorter { OnOk result (ahead cursor.new < ahead cursor.old) }
{
    cursor.byte(b'(')?;
    cursor.white()?;
    let word = quoted_name(cursor)?;
    cursor.white()?;
    cursor.byte(b',')?;
    let x = inner_value(cursor, alloc, Level::Ternary)?;
    close(cursor)?;
    let started = start(alloc, word.content(), x)?;
    Ok(started)
}

#[cycle(levels)]
#[tactic(auto, using(wild_reading::proofs::Readers::reading, crate::proofs::Weights::weights), unfolding(crate::specs::Grammar::assert, crate::specs::Grammar::assert_of))]
fn assertion(cursor: &mut Cursor<'_>, alloc: Global) -> Result<Measured, Stop>
    ensures read { Answers spec.assert cursor.old cursor.new result }
    ensures deep { IfOk result (λ x. x.depth ≤ cursor.old.left) }
    ensures paid { IfOk result (λ x. IsCovered x.depth cursor.new) }
    ensures shorter { OnOk result (ahead cursor.new < ahead cursor.old) }
{
    let at = cursor.position();
    cursor.symbol(b'(')?;
    let x = inner_value(cursor, alloc, Level::Ternary)?;
    cursor.gap()?;
    cursor.symbol(b',')?;
    let message = cursor.name(alloc)?;
    cursor.symbol(b')')?;
    let asserted = assert_that(alloc, at, x, message)?;
    Ok(asserted)
}

#[cycle(levels)]
#[tactic(auto, unfolding(crate::specs::Grammar::arguments, crate::specs::Grammar::arguments_of, crate::specs::Grammar::brackets, crate::specs::Grammar::align, crate::specs::Grammar::pair, crate::specs::Grammar::segment_start, crate::specs::Grammar::assert))]
fn arguments(cursor: &mut Cursor<'_>, alloc: Global, call: Call) -> Result<Measured, Stop>
    ensures read { Answers (spec.arguments call) cursor.old cursor.new result }
    ensures deep { IfOk result (λ x. x.depth ≤ cursor.old.left) }
    ensures paid { IfOk result (λ x. IsCovered x.depth cursor.new) }
    ensures shorter { OnOk result (ahead cursor.new < ahead cursor.old) }
{
    match call {
        Call::Brackets => brackets(cursor, alloc),
        Call::Name(asks) => ask_name(cursor, alloc, asks),
        Call::Align => align(cursor, alloc),
        Call::Pair(extreme) => pair(cursor, alloc, extreme),
        Call::SegmentStart => segment_start(cursor, alloc),
        Call::Assert => assertion(cursor, alloc),
    }
}

#[cycle(levels)]
#[tactic(auto, using(wild_reading::proofs::Readers::reading, crate::proofs::Weights::weights), unfolding(crate::specs::Grammar::after_head, crate::specs::Grammar::after_head_of, crate::specs::Grammar::arguments))]
fn after_head(cursor: &mut Cursor<'_>, alloc: Global, head: Head) -> Result<Measured, Stop>
    ensures read { Answers (spec.after_head head) cursor.old cursor.new result }
    ensures deep { IfOk result (λ x. x.depth ≤ cursor.old.left) }
    ensures paid { IfOk result (λ x. IsCovered x.depth cursor.new) }
    ensures shorter { OnOk result (ahead cursor.new < ahead cursor.old + byte_count head) }
{
    match head {
        Head::Whole(expression) => Ok(Measured {
            expression,
            depth: 0,
        }),
        Head::Before(call) => arguments(cursor, alloc, call),
    }
}

#[cycle(levels)]
#[tactic(auto, using(wild_reading::proofs::Readers::reading), unfolding(crate::specs::Grammar::primary, crate::specs::Grammar::primary_of, crate::specs::Grammar::after_head))]
fn primary(cursor: &mut Cursor<'_>, alloc: Global) -> Result<Measured, Stop>
    ensures read { Answers spec.primary cursor.old cursor.new result }
    ensures deep { IfOk result (λ x. x.depth ≤ cursor.old.left) }
    ensures paid { IfOk result (λ x. IsCovered x.depth cursor.new) }
    ensures shorter { OnOk result (ahead cursor.new < ahead cursor.old) }
{
    let head = read_head(cursor, alloc)?;
    after_head(cursor, alloc, head)
}

#[cycle(levels)]
#[tactic(auto, using(wild_reading::proofs::Readers::reading, crate::proofs::Weights::weights), unfolding(crate::specs::Grammar::unary, crate::specs::Grammar::unary_of))]
fn unary(cursor: &mut Cursor<'_>, alloc: Global) -> Result<Measured, Stop>
    ensures read { Answers spec.unary cursor.old cursor.new result }
    ensures deep { IfOk result (λ x. x.depth ≤ cursor.old.left) }
    ensures paid { IfOk result (λ x. IsCovered x.depth cursor.new) }
    ensures shorter { OnOk result (ahead cursor.new < ahead cursor.old) }
{
    let before = pass_sign(cursor)?;
    let x = inner_value(cursor, alloc, Level::Sign)?;
    let unary = put_sign(alloc, before, x)?;
    Ok(unary)
}

#[cycle(levels)]
#[tactic(auto, using(wild_reading::proofs::Readers::choosing), unfolding(crate::specs::Grammar::unary_or_primary, crate::specs::Grammar::unary_or_primary_of, crate::specs::Grammar::unary, crate::specs::Grammar::primary))]
fn unary_or_primary(cursor: &mut Cursor<'_>, alloc: Global) -> Result<Measured, Stop>
    ensures read { Answers spec.unary_or_primary cursor.old cursor.new result }
    ensures deep { IfOk result (λ x. x.depth ≤ cursor.old.left) }
    ensures paid { IfOk result (λ x. IsCovered x.depth cursor.new) }
    ensures shorter { OnOk result (ahead cursor.new < ahead cursor.old) }
{
    if is_signed(cursor) {
        unary(cursor, alloc)
    } else {
        primary(cursor, alloc)
    }
}

#[cycle(levels)]
#[tactic(auto, using(wild_reading::proofs::Readers::reading), unfolding(crate::specs::Grammar::sign_level, crate::specs::Grammar::sign_of, crate::specs::Grammar::unary_or_primary))]
fn sign_level(cursor: &mut Cursor<'_>, alloc: Global) -> Result<Measured, Stop>
    ensures read { Answers spec.sign_level cursor.old cursor.new result }
    ensures deep { IfOk result (λ x. x.depth ≤ cursor.old.left) }
    ensures paid { IfOk result (λ x. IsCovered x.depth cursor.new) }
    ensures shorter { OnOk result (ahead cursor.new < ahead cursor.old) }
{
    cursor.white()?;
    unary_or_primary(cursor, alloc)
}

#[cycle(levels)]
#[tactic(auto, using(wild_reading::proofs::Readers::reading, crate::proofs::Weights::weights), unfolding(crate::specs::Grammar::step, crate::specs::Grammar::step_of))]
fn step(
    cursor: &mut Cursor<'_>,
    alloc: Global,
    level: Level,
    whole: Measured,
) -> Result<Measured, Stop>
    requires { IsCovered whole.depth cursor.old }
    ensures read { Answers (spec.step level whole) cursor.old cursor.new result }
    ensures deep { IfOk result (λ x. x.depth ≤ cursor.old.left) }
    ensures paid { IfOk result (λ x. IsCovered x.depth cursor.new) }
    ensures shorter { OnOk result (ahead cursor.new < ahead cursor.old) }
{
    let operator = pass_operator(cursor, level)?;
    cursor.room(whole.depth)?;
    let right = inner_value(cursor, alloc, operand(level))?;
    let joined = join(alloc, operator, whole, right)?;
    Ok(joined)
}

#[cycle(levels)]
#[tactic(auto, unfolding(crate::specs::Grammar::chain))]
fn chain(
    cursor: &mut Cursor<'_>,
    alloc: Global,
    level: Level,
    first: Measured,
) -> Result<Measured, Stop>
    requires deep { first.depth ≤ cursor.old.left }
    requires paid { IsCovered first.depth cursor.old }
    ensures read { Answers (spec.chain level first) cursor.old cursor.new result }
    ensures deep { IfOk result (λ x. x.depth ≤ cursor.old.left) }
    ensures paid { IfOk result (λ x. IsCovered x.depth cursor.new) }
{
    let mut whole = first;
    'chain: while !ends(cursor, level) {
        whole = step(cursor, alloc, level, whole)?;
    }
    Ok(whole)
}

#[tactic(auto, using(wild_reading::proofs::Readers::reading), unfolding(crate::specs::Grammar::alone))]
fn alone(cursor: &Cursor<'_>, x: Measured) -> Result<Measured, Stop>
    requires deep { x.depth ≤ cursor.now.left }
    requires paid { IsCovered x.depth cursor.now }
    ensures read { Answers (spec.alone x) cursor.now cursor.now result }
    ensures deep { IfOk result (λ x. x.depth ≤ cursor.now.left) }
    ensures paid { IfOk result (λ x. IsCovered x.depth cursor.now) }
{
    Ok(x)
}

#[cycle(levels)]
#[tactic(auto, using(wild_reading::proofs::Readers::choosing), unfolding(crate::specs::Grammar::comparison, crate::specs::Grammar::comparison_of, crate::specs::Grammar::step))]
fn comparison(cursor: &mut Cursor<'_>, alloc: Global, first: Measured) -> Result<Measured, Stop>
    requires deep { first.depth ≤ cursor.old.left }
    requires paid { IsCovered first.depth cursor.old }
    ensures read { Answers (spec.comparison first) cursor.old cursor.new result }
    ensures deep { IfOk result (λ x. x.depth ≤ cursor.old.left) }
    ensures paid { IfOk result (λ x. IsCovered x.depth cursor.new) }
{
    if ends(cursor, Level::Comparison) {
        alone(cursor, first)
    } else {
        step(cursor, alloc, Level::Comparison, first)
    }
}

#[cycle(levels)]
#[tactic(auto, using(wild_reading::proofs::Readers::reading, crate::proofs::Weights::weights), unfolding(crate::specs::Grammar::alternatives, crate::specs::Grammar::alternatives_of))]
fn alternatives(cursor: &mut Cursor<'_>, alloc: Global, first: Measured) -> Result<Measured, Stop>
    requires { IsCovered first.depth cursor.old }
    ensures read { Answers (spec.alternatives first) cursor.old cursor.new result }
    ensures deep { IfOk result (λ x. x.depth ≤ cursor.old.left) }
    ensures paid { IfOk result (λ x. IsCovered x.depth cursor.new) }
{
    cursor.byte(b'?')?;
    cursor.room(first.depth)?;
    let then = inner_value(cursor, alloc, Level::Ternary)?;
    cursor.byte(b':')?;
    let other = inner_value(cursor, alloc, Level::Ternary)?;
    let chosen = choose(alloc, first, then, other)?;
    Ok(chosen)
}

#[cycle(levels)]
#[tactic(auto, using(wild_reading::proofs::Readers::choosing), unfolding(crate::specs::Grammar::ternary, crate::specs::Grammar::ternary_of, crate::specs::Grammar::alternatives))]
fn ternary(cursor: &mut Cursor<'_>, alloc: Global, first: Measured) -> Result<Measured, Stop>
    requires deep { first.depth ≤ cursor.old.left }
    requires paid { IsCovered first.depth cursor.old }
    ensures read { Answers (spec.ternary first) cursor.old cursor.new result }
    ensures deep { IfOk result (λ x. x.depth ≤ cursor.old.left) }
    ensures paid { IfOk result (λ x. IsCovered x.depth cursor.new) }
{
    if cursor.begins(b'?') {
        alternatives(cursor, alloc, first)
    } else {
        alone(cursor, first)
    }
}

#[cycle(levels)]
fn rest(
    cursor: &mut Cursor<'_>,
    alloc: Global,
    level: Level,
    first: Measured,
) -> Result<Measured, Stop>
    requires deep { first.depth ≤ cursor.old.left }
    requires paid { IsCovered first.depth cursor.old }
    ensures read { Answers (spec.rest level first) cursor.old cursor.new result }
    ensures deep { IfOk result (λ x. x.depth ≤ cursor.old.left) }
    ensures paid { IfOk result (λ x. IsCovered x.depth cursor.new) }
{
    match level {
        Level::Ternary => ternary(cursor, alloc, first),
        Level::Comparison => comparison(cursor, alloc, first),
        Level::Sign => alone(cursor, first),
        Level::LogicalOr
        | Level::LogicalAnd
        | Level::BitwiseOr
        | Level::BitwiseXor
        | Level::BitwiseAnd
        | Level::Shift
        | Level::Sum
        | Level::Product => chain(cursor, alloc, level, first),
    }
}

#[cycle(levels)]
#[tactic(auto, using(wild_reading::proofs::Readers::reading), unfolding(crate::specs::Grammar::layer))]
fn layer(cursor: &mut Cursor<'_>, alloc: Global, level: Level) -> Result<Measured, Stop>
    requires { is_layer level ≡ true }
    ensures read { Answers (spec.layer level) cursor.old cursor.new result }
    ensures deep { IfOk result (λ x. x.depth ≤ cursor.old.left) }
    ensures paid { IfOk result (λ x. IsCovered x.depth cursor.new) }
    ensures shorter { OnOk result (ahead cursor.new < ahead cursor.old) }
{
    let first = value(cursor, alloc, operand(level))?;
    rest(cursor, alloc, level, first)
}

/// Reads an expression of a level, and the white after it.
#[cycle(levels)]
pub fn value(cursor: &mut Cursor<'_>, alloc: Global, level: Level) -> Result<Measured, Stop>
    ensures read { Answers (spec.value level) cursor.old cursor.new result }
    ensures deep { IfOk result (λ x. x.depth ≤ cursor.old.left) }
    ensures paid { IfOk result (λ x. IsCovered x.depth cursor.new) }
    ensures shorter { OnOk result (ahead cursor.new < ahead cursor.old) }
{
    match level {
        Level::Sign => sign_level(cursor, alloc),
        Level::Ternary
        | Level::LogicalOr
        | Level::LogicalAnd
        | Level::Comparison
        | Level::BitwiseOr
        | Level::BitwiseXor
        | Level::BitwiseAnd
        | Level::Shift
        | Level::Sum
        | Level::Product => layer(cursor, alloc, level),
    }
}
