//! Segments without program headers of a script: the runs of each kind, and the stack.

ghost use Rattle.std.specs.Prelude.{◌≡◌, ◌+◌, ◌<◌, [], ◌∷◌, ◌++◌, length, drop, slice_get, Some, IfOk, IfErr, OnOk};
ghost use Rattle.std.specs.Option.{option_copied};
ghost use Rattle.wild_segments.specs.Kinds.{all_kinds};
ghost use Rattle.wild_segments.specs.Members.{Member};
ghost use Rattle.wild_segments.specs.Runs.{goes_on, stays, begins, following, segment_of_kind, run_from, run_at, runs_at, runs, stack_segment, runs_and_stack, same_region};
ghost use Rattle.wild_segments.specs.Segments.{Extends, IsFound, IsRefused};

use crate::kind::SegmentKind;
use crate::member::SegmentMember;
use crate::room::push;
use crate::segment::{PlacedSegment, SectionIndexes};
use sqlite_items::Items;
use std::alloc::Global;
use wild_names::{Fault, Name, NoMemory};

fn same_region(first: Option<&Name>, second: Option<&Name>) -> bool
    ensures { result ≡ same_region (option_copied first.entry) (option_copied second.entry) }
{
    match (first, second) {
        (None, None) => true,
        (Some(first), Some(second)) => first == second,
        _ => false,
    }
}

// Whether the second may stand in a run with the first, which is the one before it.
#[tactic(auto, unfolding(crate::specs::Runs::goes_on))]
fn goes_on(before: &SegmentMember<'_>, member: &SegmentMember<'_>) -> bool
    ensures { result ≡ goes_on before.now member.now }
{
    !member.has_start && same_region(before.region, member.region)
}

// Whether a run that holds the section before, if there is one, holds this one too.
fn stays(kind: SegmentKind, before: Option<&SegmentMember<'_>>, member: &SegmentMember<'_>) -> bool
    ensures { result ≡ stays kind (option_copied before.entry) member.now }
{
    match before {
        None => false,
        Some(before) => {
            kind.includes(before) && kind.includes(member) && goes_on(before, member)
        }
    }
}

// Whether a run begins at a section.
fn begins(kind: SegmentKind, before: Option<&SegmentMember<'_>>, member: &SegmentMember<'_>) -> bool
    ensures { result ≡ begins kind (option_copied before.entry) member.now }
{
    kind.includes(member) && !stays(kind, before, member)
}

// The sections of the run that begins at the section of this number.
fn run_sections(
    alloc: Global,
    kind: SegmentKind,
    members: &[SegmentMember<'_>],
    first: usize,
) -> Result<SectionIndexes, NoMemory>
    requires { first < length members.now }
    ensures { IfOk result (λ run. run ≡ run_from kind first (drop first members.now)) }
{
    let mut run = SectionIndexes::new(alloc);
    run.push(first)?;
    let mut last = &members[first];
    for number in first + 1..members.len() {
        let member = &members[number];
        if !stays(kind, Some(last), member) {
            return Ok(run);
        }
        run.push(number)?;
        last = member;
    }
    Ok(run)
}

// A segment of the kind.
fn segment_of_kind(alloc: Global, kind: SegmentKind, sections: SectionIndexes) -> PlacedSegment
    ensures { result ≡ segment_of_kind kind sections }
{
    PlacedSegment {
        ptype: kind.ptype(),
        flags: kind.flags(),
        name: Name::from_vec(Vec::new(alloc)),
        has_filehdr: false,
        has_phdrs: false,
        sections,
    }
}

// Puts the segment of the kind that begins at the section of this number, if one does, behind the
// others.
fn push_run(
    alloc: Global,
    segments: &mut Items<PlacedSegment>,
    kind: SegmentKind,
    before: Option<&SegmentMember<'_>>,
    members: &[SegmentMember<'_>],
    number: usize,
) -> Result<(), Fault>
    requires { number < length members.now }
    ensures ok { OnOk result (Extends segments.old (run_at kind (option_copied before.entry) number (drop number members.now)) segments.new) }
    ensures err { IfErr result (IsRefused (segments.old ++ run_at kind (option_copied before.entry) number (drop number members.now))) }
{
    if !begins(kind, before, &members[number]) {
        return Ok(());
    }
    let run = run_sections(alloc, kind, members, number)?;
    push(segments, segment_of_kind(alloc, kind, run))
}

// Puts the segments of these kinds that begin at the section of this number behind the others.
fn push_runs(
    alloc: Global,
    segments: &mut Items<PlacedSegment>,
    kinds: &[SegmentKind],
    before: Option<&SegmentMember<'_>>,
    members: &[SegmentMember<'_>],
    number: usize,
) -> Result<(), Fault>
    requires { number < length members.now }
    ensures ok { OnOk result (Extends segments.old (runs_at kinds.now (option_copied before.entry) number (drop number members.now)) segments.new) }
    ensures err { IfErr result (IsRefused (segments.old ++ runs_at kinds.now (option_copied before.entry) number (drop number members.now))) }
{
    for kind in kinds {
        push_run(alloc, segments, *kind, before, members, number)?;
    }
    Ok(())
}

fn stack_segment(alloc: Global) -> PlacedSegment
    ensures { result ≡ stack_segment }
{
    PlacedSegment {
        ptype: 0x6474_e551,
        flags: 6,
        name: Name::from_vec(Vec::new(alloc)),
        has_filehdr: false,
        has_phdrs: false,
        sections: SectionIndexes::new(alloc),
    }
}

/// The runs of each kind, by first section, then by kind, and the stack.
#[tactic(auto, unfolding(crate::specs::Runs::runs_and_stack))]
pub fn runs_and_stack(
    alloc: Global,
    members: &[SegmentMember<'_>],
) -> Result<Items<PlacedSegment>, Fault>
    ensures ok { IfOk result (IsFound (runs_and_stack members.now)) }
    ensures err { IfErr result (IsRefused (runs_and_stack members.now)) }
{
    let mut segments = Items::new(alloc);
    let mut before = None;
    for (number, member) in members.iter().enumerate() {
        push_runs(
            alloc,
            &mut segments,
            &SegmentKind::ALL,
            before,
            members,
            number,
        )?;
        before = Some(member);
    }
    push(&mut segments, stack_segment(alloc))?;
    Ok(segments)
}
