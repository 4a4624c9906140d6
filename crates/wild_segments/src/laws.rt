//! Laws about segments without program headers of a script.

ghost use Rattle.wild_segments.specs.Laws.{EachStandsOnce, SegmentsShareRegions, RunsAreLongest};

/// Each section stands in one segment of each kind that includes it, and in none of the others.
pub fn each_stands_once()
    ensures { EachStandsOnce }
{}

/// The sections of one segment share their memory region.
pub fn segments_share_regions()
    ensures { SegmentsShareRegions }
{}

/// Each segment but the stack is a longest stretch of neighbouring sections of one kind.
pub fn runs_are_longest()
    ensures { RunsAreLongest }
{}
