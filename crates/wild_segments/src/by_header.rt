//! Segments by the program headers of a script.

ghost use Rattle.std.specs.Prelude.{◌≡◌, [], ◌++◌, IfOk, IfErr, OnOk};
ghost use Rattle.wild_segments.specs.Holding.{names_header, held_from, is_written, is_run, held_flags, header_segment, header_segments};
ghost use Rattle.wild_segments.specs.Segments.{IsFound, IsRefused};

use crate::member::{SegmentHeader, SegmentMember};
use crate::room::push;
use crate::segment::{PlacedSegment, SectionIndexes};
use sqlite_items::Items;
use std::alloc::Global;
use wild_names::{Fault, Name, NoMemory, SectionHeader};

#[tactic(auto, unfolding(crate::specs::Holding::names_header))]
fn names_header(name: &Name, member: &SegmentMember<'_>) -> bool
    ensures { result ≡ names_header name.now member.now }
{
    member.headers.iter().any(|header| header == name)
}

// The sections that name the header.
fn held_sections(
    alloc: Global,
    name: &Name,
    members: &[SegmentMember<'_>],
) -> Result<SectionIndexes, NoMemory>
    ensures { IfOk result (λ held. held ≡ held_from name.now 0 members.now) }
{
    let mut held = SectionIndexes::new(alloc);
    for (number, member) in members.iter().enumerate() {
        if names_header(name, member) {
            held.push(number)?;
        }
    }
    Ok(held)
}

#[tactic(auto, unfolding(crate::specs::Holding::is_written))]
fn is_written(name: &Name, members: &[SegmentMember<'_>]) -> bool
    ensures { result ≡ is_written name.now members.now }
{
    members.iter().any(|member| names_header(name, member) && member.flags.is_writable())
}

#[tactic(auto, unfolding(crate::specs::Holding::is_run))]
fn is_run(name: &Name, members: &[SegmentMember<'_>]) -> bool
    ensures { result ≡ is_run name.now members.now }
{
    members.iter().any(|member| names_header(name, member) && member.flags.is_executable())
}

#[tactic(auto, unfolding(crate::specs::Holding::held_flags))]
fn held_flags(name: &Name, members: &[SegmentMember<'_>]) -> u32
    ensures { result ≡ held_flags name.now members.now }
{
    let write = if is_written(name, members) { 2 } else { 0 };
    let run = if is_run(name, members) { 1 } else { 0 };
    4 + write + run
}

#[tactic(auto, unfolding(crate::specs::Holding::header_segment))]
fn header_segment(
    alloc: Global,
    header: &SegmentHeader<'_>,
    members: &[SegmentMember<'_>],
) -> Result<PlacedSegment, NoMemory>
    ensures { IfOk result (λ segment. segment ≡ header_segment members.now header.now) }
{
    let flags = match header.flags {
        Some(flags) => flags,
        None => held_flags(header.name, members),
    };
    Ok(PlacedSegment {
        ptype: header.ptype,
        flags,
        name: header.name.copy(alloc)?,
        has_filehdr: header.has_filehdr,
        has_phdrs: header.has_phdrs,
        sections: held_sections(alloc, header.name, members)?,
    })
}

/// The segments of these headers, in order.
#[tactic(auto, unfolding(crate::specs::Holding::header_segments))]
pub fn header_segments(
    alloc: Global,
    headers: &[SegmentHeader<'_>],
    members: &[SegmentMember<'_>],
) -> Result<Items<PlacedSegment>, Fault>
    ensures ok { IfOk result (IsFound (header_segments headers.now members.now)) }
    ensures err { IfErr result (IsRefused (header_segments headers.now members.now)) }
{
    let mut segments = Items::new(alloc);
    for header in headers {
        push(&mut segments, header_segment(alloc, header, members)?)?;
    }
    Ok(segments)
}
