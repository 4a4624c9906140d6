//! Words that statements begin with.

ghost use Rattle.std.specs.Prelude.{◌≡◌};
ghost use Rattle.wild_section_statements.specs.Words as spec;

use wild_reading::{Token, is_word};

/// What a statement of SECTIONS begins with, if not with a name.
#[derive(Clone, Copy, Debug, PartialEq, Eq)]
pub enum StatementWord {
    Assert,
    Provide,
    ProvideHidden,
}

/// What stands before the bracket of a statement in a section, if not a file.
#[derive(Clone, Copy, Debug, PartialEq, Eq)]
pub enum ContentsWord {
    Provide,
    ProvideHidden,
    Assert,
    Keep,
}

/// The word of a statement of SECTIONS that these bytes are.
pub fn statement_word(content: &[u8]) -> Option<StatementWord>
    ensures { result ≡ spec.statement_word content.now }
{
    if is_word(content, b"ASSERT") {
        Some(StatementWord::Assert)
    } else if is_word(content, b"PROVIDE") {
        Some(StatementWord::Provide)
    } else if is_word(content, b"PROVIDE_HIDDEN") {
        Some(StatementWord::ProvideHidden)
    } else {
        None
    }
}

/// The word of a statement in a section that a token is, which is never in quotes.
pub fn contents_word(token: &Token<'_>) -> Option<ContentsWord>
    ensures { result ≡ spec.contents_word token.now }
{
    if token.is_quoted() {
        None
    } else if is_word(token.content(), b"PROVIDE") {
        Some(ContentsWord::Provide)
    } else if is_word(token.content(), b"PROVIDE_HIDDEN") {
        Some(ContentsWord::ProvideHidden)
    } else if is_word(token.content(), b"ASSERT") {
        Some(ContentsWord::Assert)
    } else if is_word(token.content(), b"KEEP") {
        Some(ContentsWord::Keep)
    } else {
        None
    }
}

/// Whether a token is the word CONSTRUCTORS, which is never in quotes.
#[tactic(auto, unfolding(crate::specs::Words::is_constructors))]
pub fn is_constructors(token: &Token<'_>) -> bool
    ensures { result ≡ spec.is_constructors token.now }
{
    !token.is_quoted() && is_word(token.content(), b"CONSTRUCTORS")
}
