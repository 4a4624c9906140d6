//! Quoted names of segments.

ghost use Rattle.std.specs.Prelude.{◌<◌, OnOk};
ghost use Rattle.wild_reading.specs.Position.{ahead};
ghost use Rattle.wild_reading.specs.Only.{Answers};
ghost use Rattle.wild_expression_words.specs.Quotes as spec;

use wild_reading::{Class, Cursor, Stop, Token, begins, run_end};

/// Reads the quoted name of a segment, and nothing after it.
#[tactic(auto, using(wild_reading::proofs::Readers::leaves, crate::proofs::Passing::passing), unfolding(crate::specs::Quotes::quoted_name, crate::specs::Quotes::quoted_name_at, crate::specs::Quotes::closed_at))]
pub fn quoted_name<'a>(cursor: &mut Cursor<'a>) -> Result<Token<'a>, Stop>
    ensures read { Answers spec.quoted_name cursor.old cursor.new result }
    ensures shorter { OnOk result (ahead cursor.new < ahead cursor.old) }
{
    let bytes = cursor.bytes();
    let at = cursor.position();
    if !begins(bytes, at, b'"') {
        return Err(Stop::Syntax { position: at });
    }
    let start = at + 1;
    let end = run_end(bytes, start, Class::Quotes);
    if end == start || !begins(bytes, end, b'"') {
        return Err(Stop::Syntax { position: end });
    }
    cursor.pass_to(end + 1);
    Ok(Token::quoted(&bytes[start..end]))
}
