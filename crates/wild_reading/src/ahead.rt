//! What can be read ahead of a position.

ghost use Rattle.std.specs.Prelude.{◌≡◌, ◌≤◌, ◌<◌, length, IfSome};
ghost use Rattle.wild_reading.specs.Lex as lexis;

use crate::classes::{Class, run_end};
use crate::cursor::Token;
use crate::lex::begins;
use crate::skipping::gap_end;

/// The longest run of the class at a position, of one byte at least, and the position after it.
#[tactic(auto, unfolding(crate::specs::Lex::run_at))]
pub fn run_at(bytes: &[u8], at: usize, class: Class) -> Option<(Token<'_>, usize)>
    requires { at ≤ length bytes.now }
    ensures value { result ≡ lexis.run_at class bytes.now at }
    ensures within { IfSome result (λ x. (at < x.1) × (x.1 ≤ length bytes.now)) }
{
    let end = run_end(bytes, at, class);
    if end == at {
        None
    } else {
        Some((Token::plain(&bytes[at..end]), end))
    }
}

/// What is in quotes, after the quote that opens, and the position after the quote that closes.
#[tactic(auto, unfolding(crate::specs::Lex::quoted_at))]
pub fn quoted_at(bytes: &[u8], at: usize) -> Option<(Token<'_>, usize)>
    requires { at ≤ length bytes.now }
    ensures value { result ≡ lexis.quoted_at bytes.now at }
    ensures within { IfSome result (λ x. (at < x.1) × (x.1 ≤ length bytes.now)) }
{
    let end = run_end(bytes, at, Class::Quotes);
    if begins(bytes, end, b'"') {
        Some((Token::quoted(&bytes[at..end]), end + 1))
    } else {
        None
    }
}

#[tactic(auto, unfolding(crate::specs::Lex::token_at))]
fn token_at(bytes: &[u8], at: usize) -> Option<(Token<'_>, usize)>
    requires { at ≤ length bytes.now }
    ensures value { result ≡ lexis.token_at bytes.now at }
    ensures within { IfSome result (λ x. (at < x.1) × (x.1 ≤ length bytes.now)) }
{
    if begins(bytes, at, b'"') {
        quoted_at(bytes, at + 1)
    } else {
        run_at(bytes, at, Class::Token)
    }
}

#[tactic(auto, unfolding(crate::specs::Lex::after_gap))]
fn after_gap(bytes: &[u8], at: usize) -> Option<usize>
    requires { at ≤ length bytes.now }
    ensures value { result ≡ lexis.after_gap bytes.now at }
    ensures within { IfSome result (λ end. (at ≤ end) × (end ≤ length bytes.now)) }
{
    gap_end(bytes, at).ok()
}

/// The position after this byte and the gap after it.
#[tactic(auto, unfolding(crate::specs::Lex::after_symbol))]
pub fn after_symbol(bytes: &[u8], at: usize, byte: u8) -> Option<usize>
    ensures value { result ≡ lexis.after_symbol byte bytes.now at }
    ensures within { IfSome result (λ end. (at < end) × (end ≤ length bytes.now)) }
{
    if begins(bytes, at, byte) {
        after_gap(bytes, at + 1)
    } else {
        None
    }
}

/// The token at a position, and the position after the gap after it.
#[tactic(auto, unfolding(crate::specs::Lex::word_at))]
pub fn word_at(bytes: &[u8], at: usize) -> Option<(Token<'_>, usize)>
    requires { at ≤ length bytes.now }
    ensures value { result ≡ lexis.word_at bytes.now at }
    ensures within { IfSome result (λ x. (at < x.1) × (x.1 ≤ length bytes.now)) }
{
    let (token, end) = token_at(bytes, at)?;
    let end = after_gap(bytes, end)?;
    Some((token, end))
}
