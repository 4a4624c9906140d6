//! Numbers as they are written in expressions.

ghost use Rattle.std.specs.Prelude.{◌≡◌, ◌≤◌, ◌<◌, ◌+◌, ◌^◌, length, slice_get, OnOk, IfSome, IsSome, MatchOption};
ghost use Rattle.std.specs.Bool.{OnTrue};
ghost use Rattle.std.specs.Str.Parse.{digits_value};
ghost use Rattle.wild_reading.specs.Position.{ahead};
ghost use Rattle.wild_reading.specs.Only.{Answers};
ghost use Rattle.wild_expression_words.specs.Literal as spec;

use wild_reading::{Class, Cursor, Stop, begins, begins_run, digit_value, run_end};

/// Where the digits of a literal are, and their radix.
#[derive(Clone, Copy)]
pub struct Digits {
    pub radix: u64,
    pub start: usize,
    pub end: usize,
}

/// The number that the digits write, if it is below 2 ^ 64.
#[tactic(auto, using(crate::proofs::Numbers::numbers))]
fn number(digits: &[u8], radix: u64) -> Option<u64>
    requires { 1 ≤ radix }
    ensures { MatchOption result (2 ^ 64 ≤ digits_value radix digits.now) (λ n. n ≡ digits_value radix digits.now) }
{
    let mut value: u64 = 0;
    for digit in digits {
        value = value.checked_mul(radix)?.checked_add(digit_value(*digit))?;
    }
    Some(value)
}

/// Whether `0x` or `0X` is at a position.
#[tactic(auto, unfolding(crate::specs::Literal::begins_hexadecimal))]
fn begins_hexadecimal(bytes: &[u8], at: usize) -> bool
    ensures value { result ≡ spec.begins_hexadecimal bytes.now at }
    ensures within { OnTrue result (at + 1 < length bytes.now) }
{
    begins(bytes, at, b'0') && (begins(bytes, at + 1, b'x') || begins(bytes, at + 1, b'X'))
}

/// The digits of the literal at a position.
#[tactic(auto, unfolding(crate::specs::Literal::digits_at))]
fn digits_at(bytes: &[u8], at: usize) -> Digits
    requires { at ≤ length bytes.now }
    ensures value { result ≡ spec.digits_at bytes.now at }
    ensures radix { 1 ≤ result.radix }
    ensures forward { at ≤ result.start }
    ensures ordered { result.start ≤ result.end }
    ensures within { result.end ≤ length bytes.now }
{
    if begins_hexadecimal(bytes, at) {
        return Digits {
            radix: 16,
            start: at + 2,
            end: run_end(bytes, at + 2, Class::Digit { radix: 16 }),
        };
    }
    if begins(bytes, at, b'0') {
        return Digits {
            radix: 10,
            start: at,
            end: at + 1,
        };
    }
    Digits {
        radix: 10,
        start: at,
        end: run_end(bytes, at, Class::Digit { radix: 10 }),
    }
}

fn byte_at(bytes: &[u8], at: usize) -> Option<u8>
    ensures value { result ≡ slice_get bytes.now at }
    ensures within { IsSome result → at < length bytes.now }
{
    bytes.get(at).copied()
}

fn factor_of(suffix: Option<u8>) -> u64
    ensures value { result ≡ spec.factor_of suffix }
    ensures some { 1 < result → IsSome suffix }
{
    match suffix {
        Some(b'K' | b'k') => 1024,
        Some(b'M' | b'm') => 1_048_576,
        _ => 1,
    }
}

fn suffix_len(factor: u64) -> usize
    ensures value { result ≡ spec.suffix_len factor }
    ensures small { result ≤ 1 }
    ensures some { 0 < result → 1 < factor }
{
    if factor > 1 { 1 } else { 0 }
}

/// The value of the literal with these digits, and the position after it.
#[tactic(auto, unfolding(crate::specs::Literal::literal_of))]
fn literal_of(bytes: &[u8], digits: Digits) -> Option<(u64, usize)>
    requires radix { 1 ≤ digits.radix }
    requires ordered { digits.start ≤ digits.end }
    requires within { digits.end ≤ length bytes.now }
    ensures value { result ≡ spec.literal_of bytes.now digits }
    ensures forward { IfSome result (λ x. digits.start < x.1) }
    ensures within { IfSome result (λ x. x.1 ≤ length bytes.now) }
{
    if digits.start == digits.end {
        return None;
    }
    let value = number(&bytes[digits.start..digits.end], digits.radix)?;
    let factor = factor_of(byte_at(bytes, digits.end));
    let end = digits.end + suffix_len(factor);
    if begins_run(bytes, end, Class::Identifier) {
        return None;
    }
    Some((value.wrapping_mul(factor), end))
}

/// The value of the literal at a position, and the position after it.
#[tactic(auto, unfolding(crate::specs::Literal::literal_at))]
fn literal_at(bytes: &[u8], at: usize) -> Option<(u64, usize)>
    requires { at ≤ length bytes.now }
    ensures value { result ≡ spec.literal_at bytes.now at }
    ensures forward { IfSome result (λ x. at < x.1) }
    ensures within { IfSome result (λ x. x.1 ≤ length bytes.now) }
{
    literal_of(bytes, digits_at(bytes, at))
}

/// Reads a literal, and nothing after it.
#[tactic(auto, using(wild_reading::proofs::Readers::leaves, crate::proofs::Passing::passing), unfolding(crate::specs::Literal::literal))]
pub fn literal(cursor: &mut Cursor<'_>) -> Result<u64, Stop>
    ensures read { Answers spec.literal cursor.old cursor.new result }
    ensures shorter { OnOk result (ahead cursor.new < ahead cursor.old) }
{
    let at = cursor.position();
    match literal_at(cursor.bytes(), at) {
        Some((value, end)) => {
            cursor.pass_to(end);
            Ok(value)
        }
        None => Err(Stop::Syntax { position: at }),
    }
}
