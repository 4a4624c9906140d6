//! Identifiers.

ghost use Rattle.std.specs.Prelude.{◌≡◌, ◌<◌, OnOk};
ghost use Rattle.wild_reading.specs.Position.{ahead};
ghost use Rattle.wild_reading.specs.Only.{Answers};
ghost use Rattle.wild_expression_words.specs.Identifier as spec;

use wild_reading::{Class, Cursor, Stop, Token};

/// Whether a decimal digit is ahead.
#[tactic(auto, unfolding(crate::specs::Identifier::begins_digit))]
pub fn begins_digit(cursor: &Cursor<'_>) -> bool
    ensures { result ≡ spec.begins_digit cursor.now.text.bytes cursor.now.at }
{
    cursor.begins_run(Class::Digit { radix: 10 })
}

/// Reads an identifier, and nothing after it.
#[tactic(auto, using(wild_reading::proofs::Readers::choosing), unfolding(crate::specs::Identifier::identifier))]
pub fn identifier<'a>(cursor: &mut Cursor<'a>) -> Result<Token<'a>, Stop>
    ensures read { Answers spec.identifier cursor.old cursor.new result }
    ensures shorter { OnOk result (ahead cursor.new < ahead cursor.old) }
{
    if begins_digit(cursor) {
        cursor.nothing()
    } else {
        cursor.run(Class::Identifier)
    }
}
