//! Where each row goes, and the names of all sections.

ghost use Rattle.std.specs.Prelude.{◌≡◌, ◌++◌, IfOk, length};
ghost use Rattle.wild_plan_spec.specs.Fates.{decision, fate_by, first_chunk, orphans, names_asked, all_fates};
ghost use Rattle.wild_fates.specs.Decisions.{with_decision, with_rows, decisions, fates_by};

use crate::rules::Rules;
use crate::section_names::SectionNames;
use bitflags::Flags;
use sqlite_items::Items;
use std::alloc::Global;
use wild_base::{InputFlags, Name, NoMemory};
use wild_plan_spec::{Chunk, Decision, InputRow, Kept};

// What is decided of a row without the names of the sections.
#[tactic(auto, unfolding(wild_plan_spec::specs::Fates::decision))]
fn decision(rules: &Rules, row: &InputRow) -> Decision
    ensures { result ≡ decision rules.now row.now }
{
    if row.flags.contains(InputFlags::EXCLUDE) {
        Decision::Discard
    } else {
        rules.name_decision(row)
    }
}

// The sections, with an orphan of this name where a row goes by it and none has it.
#[tactic(auto, using(crate::proofs::Names::any_number))]
fn with_decision<'a>(
    alloc: Global,
    sections: SectionNames<'a>,
    name: &'a Name,
    decision: Decision,
) -> Result<SectionNames<'a>, NoMemory>
    ensures { IfOk result (λ next. next ≡ with_decision sections.entry name.now decision) }
{
    match decision {
        Decision::ByName if sections.get(name).is_none() => sections.with(alloc, name),
        _ => Ok(sections),
    }
}

/// The names of all sections, and what is decided of each row without them.
#[derive(Drop)]
pub struct RowDecisions<'a> {
    pub sections: SectionNames<'a>,
    pub decisions: Items<Decision>,
}

fn decide_rows<'a>(
    alloc: Global,
    own: SectionNames<'a>,
    rules: &Rules,
    rows: &'a [InputRow],
) -> Result<RowDecisions<'a>, NoMemory>
    ensures sections { IfOk result (λ c. c.sections ≡ with_rows rules.now own.entry rows.now) }
    ensures decisions { IfOk result (λ c. c.decisions ≡ decisions rules.now rows.now) }
{
    let mut sections = own;
    let mut all = Items::new(alloc);
    for row in rows {
        let decision = decision(rules, row);
        sections = with_decision(alloc, sections, &row.section, decision)?;
        all.push(decision)?;
    }
    Ok(RowDecisions {
        sections,
        decisions: all,
    })
}

// The first chunk of a section, where nothing is sorted.
fn first_chunk(section: Option<usize>) -> Option<Kept>
    ensures { result ≡ first_chunk section }
{
    match section {
        Some(section) => Some(Kept {
            chunk: Chunk { section, number: 0 },
            sorted: false,
        }),
        None => None,
    }
}

// Where a row of this name goes, or None where it is discarded.
fn fate_by(sections: &SectionNames<'_>, name: &Name, decision: Decision) -> Option<Kept>
    ensures { result ≡ fate_by sections.now name.now decision }
{
    match decision {
        Decision::Discard => None,
        Decision::Keep(kept) => Some(kept),
        Decision::ByName => first_chunk(sections.get(name)),
    }
}

fn fates_by(
    alloc: Global,
    sections: &SectionNames<'_>,
    rows: &[InputRow],
    decisions: &[Decision],
) -> Result<Items<Option<Kept>>, NoMemory>
    requires { length decisions.now ≡ length rows.now }
    ensures { IfOk result (λ fates. fates ≡ fates_by sections.now rows.now decisions.now) }
{
    let mut fates = Items::new(alloc);
    for (i, row) in rows.iter().enumerate() {
        fates.push(fate_by(sections, &row.section, decisions[i]))?;
    }
    Ok(fates)
}

/// Where each row goes.
#[derive(Drop)]
pub struct Fates<'a> {
    /// The names of the sections: those of the script, and after them the orphans.
    pub sections: SectionNames<'a>,
    /// Where each row goes, or None where it is discarded.
    pub fates: Items<Option<Kept>>,
}

/// The fates of rows among these sections of a script and orphans after them. Fails where memory runs out.
#[tactic(auto, using(crate::proofs::Orphans::sections_are, crate::proofs::Orphans::fates_are))]
pub fn find_fates<'a>(
    alloc: Global,
    own: SectionNames<'a>,
    rules: &Rules,
    rows: &'a [InputRow],
) -> Result<Fates<'a>, NoMemory>
    ensures sections { IfOk result (λ f. f.sections ≡ own.entry ++ orphans own.entry (names_asked rules.now rows.now)) }
    ensures fates { IfOk result (λ f. f.fates ≡ all_fates rules.now (own.entry ++ orphans own.entry (names_asked rules.now rows.now)) rows.now) }
{
    let RowDecisions {
        sections,
        decisions,
    } = decide_rows(alloc, own, rules, rows)?;
    let fates = fates_by(alloc, &sections, rows, decisions.as_slice())?;
    Ok(Fates { sections, fates })
}
