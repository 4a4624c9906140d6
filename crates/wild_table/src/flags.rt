//! The letters of flags.

ghost use Rattle.std.specs.Prelude.{◌≡◌};
ghost use Rattle.wild_table.specs.Flags.{flags_of, with_letter};

use bitflags::Flags;
use wild_names::InputFlags;

/// The flags that letters write, each at most once and in any order: A (ALLOC), W (WRITE), X (EXEC), B (NOBITS),
/// T (TLS), E (EXCLUDE).
pub fn read_flags(letters: &[u8]) -> Option<InputFlags>
    ensures { result ≡ flags_of letters.now }
{
    let mut flags = InputFlags::from_bits_retain(0);
    for letter in letters {
        flags = with_letter(flags, *letter)?;
    }
    Some(flags)
}

// The flags and that of one letter more, which is not among them.
fn with_letter(flags: InputFlags, letter: u8) -> Option<InputFlags>
    ensures { result ≡ with_letter flags letter }
{
    let new = InputFlags::of_letter(letter)?;
    if flags.contains(new) {
        return None;
    }
    Some(InputFlags::from_bits_retain(flags.bits() | new.bits()))
}
