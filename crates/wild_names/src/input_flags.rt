//! The flags of input sections.

ghost use Rattle.std.specs.Prelude.{⊤, [], ◌∷◌, ◌≡◌, codes};
ghost use Rattle.wild_names.specs.InputFlags.{flag_of_letter};

use bitflags::{Flag, Flags, bitflag_items};

/// What an input section asks for, as a set of bits.
#[derive(Clone, Copy, Debug, PartialEq, Eq)]
pub struct InputFlags(u8);

bitflag_items! {
    impl InputFlags: u8 {
        const ALLOC = 1;
        const WRITE = 2;
        const EXEC = 4;
        const NOBITS = 8;
        const TLS = 16;
        const EXCLUDE = 32;
    }
}

impl Flags for InputFlags {
    type Bits = u8;

    ghost exact = { ⊤ };

    ghost table = { (codes "ALLOC", 1) ∷ (codes "WRITE", 2) ∷ (codes "EXEC", 4) ∷ (codes "NOBITS", 8) ∷ (codes "TLS", 16) ∷ (codes "EXCLUDE", 32) ∷ [] };

    ghost set_of = { λ flags. flags.0 };

    fn flags<'a>() -> &'a [Flag<InputFlags>] {
        InputFlags::FLAGS
    }

    fn bits(&self) -> u8 {
        self.0
    }

    fn from_bits_retain(bits: u8) -> InputFlags {
        InputFlags(bits)
    }
}

impl InputFlags {
    /// The flag with this letter, as tables and texts write it: A (ALLOC), W (WRITE), X (EXEC), B (NOBITS), T (TLS) or
    /// E (EXCLUDE).
    pub fn of_letter(letter: u8) -> Option<InputFlags>
        ensures { result ≡ flag_of_letter letter }
    {
        match letter {
            b'A' => Some(InputFlags::ALLOC),
            b'W' => Some(InputFlags::WRITE),
            b'X' => Some(InputFlags::EXEC),
            b'B' => Some(InputFlags::NOBITS),
            b'T' => Some(InputFlags::TLS),
            b'E' => Some(InputFlags::EXCLUDE),
            _ => None,
        }
    }
}
