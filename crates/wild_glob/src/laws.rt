//! What follows from the definitions.

ghost use Rattle.std.specs.Prelude.{◌≡◌, ◌↔◌, ℕ, List, Some};
ghost use Rattle.wild_glob.specs.Grammar.{Spells};
ghost use Rattle.wild_glob.specs.Spelling.{pieces};
ghost use Rattle.wild_glob.specs.declared.piece.Piece.{Piece};

/// The pieces of a text are those that it spells by the grammar. So it spells no others, and where there are none it
/// spells none.
pub fn pieces_are_spelled()
    ensures { (text : List ℕ) (ps : List Piece) → (pieces text ≡ Some ps) ↔ Spells ps text }
{}
