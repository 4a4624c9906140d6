//! Words that outermost commands begin with.

ghost use Rattle.std.specs.Prelude.{◌≡◌};
ghost use Rattle.wild_script.specs.Words as spec;

use wild_reading::is_word;

/// The commands over other commands.
#[derive(Clone, Copy, Debug, PartialEq, Eq)]
pub enum Nest {
    /// GROUP or INPUT
    Group,
    AsNeeded,
    /// OUTPUT_ARCH
    Ignored,
}

/// What an outermost command begins with.
#[derive(Clone, Copy, Debug, PartialEq, Eq)]
pub enum CommandWord {
    Nest(Nest),
    OutputFormat,
    Sections,
    Entry,
    Version,
    Provide,
    ProvideHidden,
    Assert,
    Memory,
    Phdrs,
}

/// The word of an outermost command that these bytes are.
pub fn command_word(content: &[u8]) -> Option<CommandWord>
    ensures { result ≡ spec.command_word content.now }
{
    if is_word(content, b"GROUP") {
        Some(CommandWord::Nest(Nest::Group))
    } else if is_word(content, b"INPUT") {
        Some(CommandWord::Nest(Nest::Group))
    } else if is_word(content, b"AS_NEEDED") {
        Some(CommandWord::Nest(Nest::AsNeeded))
    } else if is_word(content, b"OUTPUT_ARCH") {
        Some(CommandWord::Nest(Nest::Ignored))
    } else if is_word(content, b"OUTPUT_FORMAT") {
        Some(CommandWord::OutputFormat)
    } else if is_word(content, b"SECTIONS") {
        Some(CommandWord::Sections)
    } else if is_word(content, b"ENTRY") {
        Some(CommandWord::Entry)
    } else if is_word(content, b"VERSION") {
        Some(CommandWord::Version)
    } else if is_word(content, b"PROVIDE") {
        Some(CommandWord::Provide)
    } else if is_word(content, b"PROVIDE_HIDDEN") {
        Some(CommandWord::ProvideHidden)
    } else if is_word(content, b"ASSERT") {
        Some(CommandWord::Assert)
    } else if is_word(content, b"MEMORY") {
        Some(CommandWord::Memory)
    } else if is_word(content, b"PHDRS") {
        Some(CommandWord::Phdrs)
    } else {
        None
    }
}
