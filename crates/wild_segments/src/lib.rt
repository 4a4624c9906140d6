//! The segments of an output file.
#![tactic(auto)]

mod by_header;
mod finding;
mod kind;
mod laws;
mod member;
mod room;
mod run;
mod segment;

pub use finding::find_segments;
pub use kind::SegmentKind;
pub use laws::{each_stands_once, runs_are_longest, segments_share_regions};
pub use member::{SegmentHeader, SegmentMember};
pub use segment::{MAX_SEGMENTS, PlacedSegment, SectionIndexes};

#[cfg(test)]
mod tests;
