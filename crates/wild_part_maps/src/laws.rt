//! What follows from the contracts of maps from parts.

ghost use Rattle.wild_part_maps.specs.Parts.{PartValues};
ghost use Rattle.wild_part_maps.specs.Starts.{Starts, IsAtLeast, EndsBefore};
ghost use Rattle.std.specs.Prelude.{ℕ};

/// Ranges that are laid behind others share no place with them: where numbers don't fall between two calls, the ranges
/// of the second start where those of the first end, or behind.
pub fn ranges_do_not_overlap()
    ensures { (m sizes n starts from more end later : PartValues ℕ) → Starts m sizes n starts → IsAtLeast n from → Starts from more end later
        → EndsBefore starts sizes later }
{}
