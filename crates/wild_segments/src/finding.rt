//! The segments of an output file.

ghost use Rattle.std.specs.Prelude.{◌≡◌, [], IfOk, IfErr};
ghost use Rattle.wild_segments.specs.Segments.{segments_of, IsFound, IsRefused};

use crate::by_header::header_segments;
use crate::member::{SegmentHeader, SegmentMember};
use crate::run::runs_and_stack;
use crate::segment::PlacedSegment;
use sqlite_items::Items;
use std::alloc::Global;
use wild_names::Fault;

/// The segments of sections: by the program headers of the script, where it has any; else none in a
/// partial link; else the runs of each kind, and the stack. Fails where there are too many, or
/// memory runs out.
#[tactic(auto, unfolding(crate::specs::Segments::segments_of))]
pub fn find_segments(
    alloc: Global,
    partial: bool,
    headers: &[SegmentHeader<'_>],
    members: &[SegmentMember<'_>],
) -> Result<Items<PlacedSegment>, Fault>
    ensures ok { IfOk result (IsFound (segments_of partial headers.now members.now)) }
    ensures err { IfErr result (IsRefused (segments_of partial headers.now members.now)) }
{
    if !headers.is_empty() {
        return header_segments(alloc, headers, members);
    }
    if partial {
        return Ok(Items::new(alloc));
    }
    runs_and_stack(alloc, members)
}
