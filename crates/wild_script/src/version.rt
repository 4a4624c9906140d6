//! Reads version scripts, whose bytes are kept as they are.

ghost use Rattle.std.specs.Prelude.{◌≡◌, ◌≤◌, ◌<◌, length, IfSome};
ghost use Rattle.wild_reading.specs.Only.{Answers};
ghost use Rattle.wild_script.specs.Version as spec;

use std::alloc::Global;
use wild_names::Name;
use wild_reading::{Cursor, Stop, begins};
use wild_script_tree::Command;

// The position of the brace that closes the one before the position.
#[tactic(auto, using(crate::proofs::Braces::braces))]
fn closing_brace(bytes: &[u8], start: usize) -> Option<usize>
    requires { start ≤ length bytes.now }
    ensures value { result ≡ spec.closing_brace bytes.now start }
    ensures within { IfSome result (λ end. (start ≤ end) × (end < length bytes.now)) }
{
    let mut depth = 0usize;
    let mut at = start;
    'braces: while at < bytes.len() {
        if begins(bytes, at, b'}') {
            if depth == 0 {
                return Some(at);
            }
            depth -= 1;
        } else if begins(bytes, at, b'{') {
            depth += 1;
        }
        at += 1;
    }
    None
}

#[tactic(auto, using(wild_reading::proofs::Readers::leaves, wild_reading::proofs::Leaves::moves), unfolding(crate::specs::Version::content, crate::specs::Version::content_at))]
fn content(cursor: &mut Cursor<'_>, alloc: Global) -> Result<Name, Stop>
    ensures { Answers spec.content cursor.old cursor.new result }
{
    let at = cursor.position();
    let bytes = cursor.bytes();
    match closing_brace(bytes, at) {
        Some(end) => {
            cursor.pass_to(end);
            Ok(Name::new(alloc, &bytes[at..end])?)
        }
        None => Err(Stop::Syntax {
            position: bytes.len(),
        }),
    }
}

/// Reads what is after VERSION.
#[tactic(auto, using(wild_reading::proofs::Readers::reading), unfolding(crate::specs::Version::version_command))]
pub fn version_command(cursor: &mut Cursor<'_>, alloc: Global) -> Result<Command, Stop>
    ensures { Answers spec.version_command cursor.old cursor.new result }
{
    cursor.symbol(b'{')?;
    let content = content(cursor, alloc)?;
    cursor.symbol(b'}')?;
    cursor.optional_symbol(b';')?;
    Ok(Command::Version(content))
}
