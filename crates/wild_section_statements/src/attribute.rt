//! Reads attributes of sections.

ghost use Rattle.std.specs.Prelude.{◌≡◌, ◌≤◌, ◌<◌, length, IfSome, OnOk};
ghost use Rattle.wild_reading.specs.Only.{Answers};
ghost use Rattle.wild_reading.specs.Position.{ahead};
ghost use Rattle.wild_section_statements.specs.Attribute as spec;

use wild_reading::{Cursor, Stop, after_symbol, begins, is_word, word_at};
use wild_script_tree::SectionAttributes;

fn attribute_of(content: &[u8]) -> Option<SectionAttributes>
    ensures { result ≡ spec.attribute_of content.now }
{
    if is_word(content, b"NOLOAD") {
        Some(SectionAttributes::Noload)
    } else if is_word(content, b"READONLY") {
        Some(SectionAttributes::Readonly)
    } else if is_word(content, b"DSECT") {
        Some(SectionAttributes::Dsect)
    } else if is_word(content, b"COPY") {
        Some(SectionAttributes::Copy)
    } else if is_word(content, b"INFO") {
        Some(SectionAttributes::Info)
    } else if is_word(content, b"OVERLAY") {
        Some(SectionAttributes::Overlay)
    } else {
        None
    }
}

// An attribute in brackets, with the gaps between them, and the position after it.
#[tactic(auto, unfolding(crate::specs::Attribute::attribute_at, wild_reading::specs::Lex::after_byte))]
fn attribute_at(bytes: &[u8], at: usize) -> Option<(SectionAttributes, usize)>
    ensures value { result ≡ spec.attribute_at bytes.now at }
    ensures within { IfSome result (λ x. (at < x.1) × (x.1 ≤ length bytes.now)) }
{
    let open = after_symbol(bytes, at, b'(')?;
    let (word, close) = word_at(bytes, open)?;
    let attribute = attribute_of(word.content())?;
    if begins(bytes, close, b')') {
        Some((attribute, close + 1))
    } else {
        None
    }
}

/// Whether an attribute in brackets can be read whole.
#[tactic(auto, unfolding(crate::specs::Attribute::begins_attribute))]
pub fn begins_attribute(cursor: &Cursor<'_>) -> bool
    ensures { result ≡ spec.begins_attribute cursor.now.text.bytes cursor.now.at }
{
    attribute_at(cursor.bytes(), cursor.position()).is_some()
}

/// Reads an attribute in brackets.
#[tactic(auto, using(wild_reading::proofs::Readers::leaves, wild_reading::proofs::Leaves::moves), unfolding(crate::specs::Attribute::attribute))]
pub fn attribute(cursor: &mut Cursor<'_>) -> Result<SectionAttributes, Stop>
    ensures read { Answers spec.attribute cursor.old cursor.new result }
    ensures shorter { OnOk result (ahead cursor.new < ahead cursor.old) }
{
    let at = cursor.position();
    match attribute_at(cursor.bytes(), at) {
        Some((attribute, end)) => {
            cursor.pass_to(end);
            Ok(attribute)
        }
        None => Err(Stop::Syntax { position: at }),
    }
}
