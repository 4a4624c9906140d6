//! Room for segments.

ghost use Rattle.std.specs.Prelude.{◌≡◌, [], ◌∷◌, ◌++◌, OnOk, IfErr};
ghost use Rattle.wild_segments.specs.Segments.{IsRefused, Extends};

use crate::segment::{MAX_SEGMENTS, PlacedSegment};
use sqlite_items::Items;
use wild_names::Fault;

/// Puts a segment behind the others, where there is room.
pub fn push(segments: &mut Items<PlacedSegment>, segment: PlacedSegment) -> Result<(), Fault>
    ensures ok { OnOk result (Extends segments.old (segment ∷ []) segments.new) }
    ensures err { IfErr result (IsRefused (segments.old ++ segment ∷ [])) }
{
    if segments.len() >= MAX_SEGMENTS {
        return Err(Fault::TooManySegments {
            segments: MAX_SEGMENTS as u64,
        });
    }
    segments.push(segment)?;
    Ok(())
}
