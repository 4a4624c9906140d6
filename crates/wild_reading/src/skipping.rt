//! Passes the gap at a position.

ghost use Rattle.std.specs.Prelude.{◌≡◌, ◌≤◌, ◌<◌, false, length, IfSome, IfOk, IfErr};
ghost use Rattle.wild_reading.specs.Gap.{IsOpen, with_fault, GapsHaveThreeCases};
ghost use Rattle.wild_reading.specs.Lex as lexis;

use crate::classes::{Class, run_end};
use crate::lex::{after_close, after_line, begins, begins_comment, ends_gap};
use crate::stop::Stop;
use wild_names::Fault;

/// The position after the comment at a position.
#[tactic(auto, unfolding(crate::specs::Lex::after_comment))]
fn after_comment(bytes: &[u8], at: usize) -> Option<usize>
    ensures value { result ≡ lexis.after_comment bytes.now at }
    ensures forward { IfSome result (λ end. (at < end) × (end ≤ length bytes.now)) }
{
    if begins_comment(bytes, at) {
        after_close(bytes, at + 1)
    } else {
        None
    }
}

/// The end of the line or the comment at a position.
#[tactic(auto, using(crate::proofs::Leaves::open_comments), unfolding(crate::specs::Lex::stretch_end))]
fn stretch_end(bytes: &[u8], at: usize) -> Result<usize, Stop>
    requires within { at ≤ length bytes.now }
    requires begins { lexis.ends_gap bytes.now at ≡ false }
    ensures value { result ≡ lexis.stretch_end bytes.now at }
    ensures forward { IfOk result (λ end. (at < end) × (end ≤ length bytes.now)) }
    ensures open { IfErr result (IsOpen bytes.now) }
{
    if begins(bytes, at, b'#') {
        after_line(bytes, at + 1).ok_or(Stop::Syntax { position: at + 1 })
    } else {
        after_comment(bytes, at).ok_or(Stop::OpenComment { position: at })
    }
}

/// The position after the white, the lines and the comments at a position.
#[tactic(auto, using(crate::proofs::Gaps::gaps))]
pub fn gap_end(bytes: &[u8], position: usize) -> Result<usize, Stop>
    requires { position ≤ length bytes.now }
    ensures value { result ≡ lexis.gap_end bytes.now position }
    ensures forward { IfOk result (λ end. (position ≤ end) × (end ≤ length bytes.now)) }
    ensures open { IfErr result (IsOpen bytes.now) }
{
    let mut at = run_end(bytes, position, Class::White);
    while !ends_gap(bytes, at) {
        let end = stretch_end(bytes, at)?;
        at = run_end(bytes, end, Class::White);
    }
    Ok(at)
}

/// The position after the white, the lines that begin with `#`, and the comments at a position. Fails with
/// `Syntax` where such a line has no newline, and with `UnclosedComment` where a comment does not end.
pub fn skip_comments_and_whitespace(bytes: &[u8], position: usize) -> Result<usize, Fault>
    requires { position ≤ length bytes.now }
    // It is the end of the gap, or the fault that says what stays open.
    ensures value { result ≡ with_fault (lexis.gap_end bytes.now position) }
    ensures forward { IfOk result (λ end. (position ≤ end) × (end ≤ length bytes.now)) }
{
    gap_end(bytes, position).map_err(Fault::from)
}

/// A gap is white, and then its end, a line or comment that does not end, or one that does and a gap after it.
pub fn gaps_have_three_cases()
    ensures { GapsHaveThreeCases }
{}
