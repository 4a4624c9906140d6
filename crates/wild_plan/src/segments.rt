//! The segments of a case.

ghost use Rattle.std.specs.Prelude.{◌≡◌, IfOk, map};
ghost use Rattle.wild_plan_spec.specs.Checks.{failing, segment_checks};
ghost use Rattle.wild_plan_spec.specs.Facts.{facts_of};
ghost use Rattle.wild_plan_spec.specs.Segments as spec;
ghost use Rattle.wild_fates.specs.Passes.{Passes};
ghost use Rattle.wild_plan.specs.Case.{shown_case};
ghost use Rattle.wild_plan.specs.Checked.{IsChecked};
ghost use Rattle.wild_plan.specs.Facts.{shown_all, shown_facts};
ghost use Rattle.wild_plan.specs.Segments.{AreSegments};

use crate::case::Case;
use crate::definitions::Definitions;
use crate::facts::Facts;
use sqlite_items::Items;
use std::alloc::Global;
use wild_base::{Fault, NoMemory};
use wild_output_kind::OutputKind;
use wild_segments::{PlacedSegment, SegmentMember, find_segments};

/// Segments, and whether they are those of program headers.
#[derive(Debug, Drop)]
pub struct Segments {
    pub list: Items<PlacedSegment>,
    pub by_headers: bool,
}

// What is linked is linked again.
fn is_partial(kind: OutputKind) -> bool
    ensures { result ≡ spec.is_partial kind }
{
    matches!(kind, OutputKind::PartialLink)
}

// What segments look at in a section.
fn member_of<'a>(facts: &Facts<'a>) -> SegmentMember<'a>
    ensures { result ≡ spec.member_of (shown_facts facts.now) }
{
    SegmentMember {
        flags: facts.flags,
        counted: !facts.floating,
        region: facts.region,
        has_start: facts.start.is_some(),
        headers: facts.headers,
    }
}

fn members_of<'a>(alloc: Global, facts: &[Facts<'a>]) -> Result<Items<SegmentMember<'a>>, NoMemory>
    ensures { IfOk result (λ members. members ≡ map spec.member_of (shown_all facts.now)) }
{
    let mut members = Items::new(alloc);
    for section in facts {
        members.push(member_of(section))?;
    }
    Ok(members)
}

/// The segments of a case, of which there must not be too many.
pub fn find_case_segments(
    alloc: Global,
    case: &Case<'_>,
    definitions: &Definitions<'_>,
    facts: &[Facts<'_>],
) -> Result<Segments, Fault>
    requires checked { IsChecked (shown_case case.now) definitions.now }
    requires facts { shown_all facts.now ≡ facts_of case.now.commands.now case.now.inputs.now }
    ensures segments { IfOk result (AreSegments (shown_case case.now)) }
    ensures passes { Passes (failing (segment_checks (shown_case case.now))) result }
{
    let members = members_of(alloc, facts)?;
    let headers = definitions.script_fates.headers.as_slice();
    let partial = is_partial(case.options.kind);
    let list = find_segments(alloc, partial, headers, members.as_slice())?;
    Ok(Segments {
        list,
        by_headers: !headers.is_empty(),
    })
}
