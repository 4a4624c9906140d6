//! The rules by which a script decides of input sections, and what is checked as they are made.

ghost use Rattle.std.specs.Prelude.{◌≡◌, ◌⊎◌, ◌<◌, ◌^◌, ◌++◌, [], ◌∷◌, IfOk, OnOk, Option, Some};
ghost use Rattle.std.specs.Option.{option_copied, option_to_list};
ghost use Rattle.wild_names.specs.declared.fault.Fault.TheVariants as fault;
ghost use Rattle.wild_rules.specs.declared.fault.RuleFault.TheVariants as why;
ghost use Rattle.wild_rules.specs.Making.{script_rule};
ghost use Rattle.wild_plan_spec.specs.Checks.{pattern_check, pattern_checks, statement_checks, place_checks, failing};
ghost use Rattle.wild_plan_spec.specs.Fates.{name_decision};
ghost use Rattle.wild_plan_spec.specs.Rules.{rules_in};
ghost use Rattle.wild_fates.specs.Numbered.{outcome_decision, outcome_for, rule_list, numbered_patterns, numbered_place, number_for, chunks_at, chunks_in, numbered_rules};
ghost use Rattle.wild_fates.specs.Refused.{bad_name};
ghost use Rattle.wild_fates.specs.Passes.{Passes};
ghost use Rattle.wild_fates.specs.Shown.{shown_place, shown_places};

use crate::clauses::{check_discard, check_opening};
use crate::formats::check_format;
use crate::places::Place;
use sqlite_items::Items;
use std::alloc::Global;
use std::marker::Model;
use wild_base::{Fault, Name, NoMemory, OutputSectionId};
use wild_plan_spec::{Chunk, Decision, InputRow, Kept, PlanOptions};
use wild_rules::{RuleFault, SectionOutputInfo, SectionRule, SectionRuleOutcome, SectionRules};
use wild_script_tree::{Matcher, SectionPattern};

/// The least number of a chunk that no id is left for.
const MAX_CHUNKS: usize = 0xffff_ffff;

/// What a script decides of input sections. Contracts see it as a list of rules.
#[derive(Drop)]
pub struct Rules {
    rules: SectionRules,
    /// The chunks of the matchers, by the ids of their rules.
    chunks: Items<Chunk>,
}

impl Model for Rules {
    ghost use Rattle.std.specs.Prelude.{List};
    ghost use Rattle.wild_plan_spec.specs.Rules.{Rule};
    ghost use Rattle.wild_fates.specs.Numbered.{plan_rules};

    ghost Value = { List Rule };

    ghost view = { λ rules. plan_rules rules.chunks rules.rules };
}

// What a rule with this outcome decides, where the ids of rules are the numbers of these chunks.
fn outcome_decision(chunks: &[Chunk], outcome: SectionRuleOutcome) -> Decision
    ensures { result ≡ outcome_decision chunks.now outcome }
{
    match outcome {
        SectionRuleOutcome::Section(info) => match chunks.get(info.section_id.as_usize()) {
            Some(chunk) => Decision::Keep(Kept {
                chunk: *chunk,
                sorted: info.sorted,
            }),
            None => Decision::Discard,
        },
        _ => Decision::Discard,
    }
}

impl Rules {
    /// What is decided of a row by its name and file: without a name it is discarded, else the first rule that takes it
    /// decides, or else its name.
    #[tactic(auto, using(crate::proofs::Numbered::some_decides, crate::proofs::Numbered::none_decides))]
    pub fn name_decision(&self, row: &InputRow) -> Decision
        ensures { result ≡ name_decision row.now.«section» self.now row.now }
    {
        if row.section.is_empty() {
            return Decision::Discard;
        }
        match self
            .rules
            .lookup_rule(row.section.bytes(), Some(row.file.bytes()))
        {
            Some(rule) => outcome_decision(self.chunks.as_slice(), rule.outcome()),
            None => Decision::ByName,
        }
    }
}

// ---- patterns

fn file_bytes(file: &Option<Name>) -> Option<&[u8]>
    ensures { option_copied result ≡ file.now }
{
    match file {
        Some(name) => Some(name.bytes()),
        None => None,
    }
}

// Where a pattern of a matcher sends: to the chunk with this id, or nowhere.
fn outcome_for(
    id: Option<OutputSectionId>,
    must_keep: bool,
    pattern: &SectionPattern,
) -> SectionRuleOutcome
    ensures { result ≡ outcome_for id must_keep pattern.now }
{
    match id {
        Some(section_id) => SectionRuleOutcome::Section(SectionOutputInfo {
            section_id,
            must_keep,
            sorted: pattern.sorted,
        }),
        None => SectionRuleOutcome::Discard,
    }
}

fn bad_pattern(alloc: Global, statement: usize, name: &Name) -> Fault
    ensures { (result ≡ fault.NoMemory) ⊎ (result ≡ fault.BadPattern statement name.now) }
{
    match name.copy(alloc) {
        Ok(name) => Fault::BadPattern { statement, name },
        Err(_) => Fault::NoMemory,
    }
}

// Why two patterns make no rule.
fn fault_of(
    alloc: Global,
    statement: usize,
    file: &Option<Name>,
    pattern: &SectionPattern,
    reason: RuleFault,
) -> Fault
    ensures bad { (result ≡ fault.NoMemory) ⊎ (result ≡ fault.BadPattern statement (bad_name file.now pattern.now.name reason)) }
    ensures memory { reason ≡ why.NoMemory → result ≡ fault.NoMemory }
{
    match (reason, file) {
        (RuleFault::NoMemory, _) => Fault::NoMemory,
        (RuleFault::BadFile, Some(name)) => bad_pattern(alloc, statement, name),
        (RuleFault::BadFile, None) | (RuleFault::BadSection, _) => {
            bad_pattern(alloc, statement, &pattern.name)
        }
    }
}

// The rule of a pattern of the matcher at this place.
fn pattern_rule(
    alloc: Global,
    statement: usize,
    id: Option<OutputSectionId>,
    matcher: &Matcher,
    pattern: &SectionPattern,
) -> Result<SectionRule, Fault>
    ensures rule { IfOk result (λ rule. rule_list (script_rule pattern.now.name matcher.now.input_file_pattern (outcome_for id matcher.now.must_keep pattern.now)) ≡ rule ∷ []) }
    ensures passes { Passes (failing (pattern_check statement matcher.now.input_file_pattern pattern.now)) result }
{
    let file = &matcher.input_file_pattern;
    let outcome = outcome_for(id, matcher.must_keep, pattern);
    match SectionRule::new(alloc, pattern.name.bytes(), file_bytes(file), outcome) {
        Ok(rule) => Ok(rule),
        Err(reason) => Err(fault_of(alloc, statement, file, pattern, reason)),
    }
}

// The rules of a matcher after the others.
#[tactic(auto, using(std::proofs::lemmas::Grind::common_steps, crate::proofs::Failing::failing_after))]
fn push_patterns(
    alloc: Global,
    rules: &mut Items<SectionRule>,
    statement: usize,
    id: Option<OutputSectionId>,
    matcher: &Matcher,
) -> Result<(), Fault>
    ensures pushed { OnOk result (rules.new ≡ rules.old ++ numbered_patterns id matcher.now.must_keep matcher.now.input_file_pattern matcher.now.input_section_name_patterns) }
    ensures passes { Passes (failing (pattern_checks statement matcher.now.input_file_pattern matcher.now.input_section_name_patterns)) result }
{
    for pattern in matcher.input_section_name_patterns.as_slice() {
        rules.push(pattern_rule(alloc, statement, id, matcher, pattern)?)?;
    }
    Ok(())
}

// ---- places

// The number of a chunk, which it gets after the others, or none for none. There is no memory for more chunks than there
// are numbers.
fn number_chunk(
    chunks: &mut Items<Chunk>,
    chunk: Option<Chunk>,
) -> Result<Option<OutputSectionId>, NoMemory>
    ensures pushed { OnOk result (chunks.new ≡ chunks.old ++ option_to_list chunk) }
    ensures number { IfOk result (λ id. id ≡ number_for chunks.old chunk) }
{
    let Some(chunk) = chunk else {
        return Ok(None);
    };
    let number = chunks.len();
    if number >= MAX_CHUNKS {
        return Err(NoMemory);
    }
    chunks.push(chunk)?;
    Ok(Some(OutputSectionId::from_usize(number)))
}

/// The rules of the first places, and the chunks that have numbers.
#[derive(Drop)]
struct NumberedRules {
    rules: Items<SectionRule>,
    chunks: Items<Chunk>,
}

impl NumberedRules {
    // What a statement says is checked: a section of its clauses, `/DISCARD/`, a format, and a matcher, whose rules it
    // makes.
    fn push_statement(
        &mut self,
        alloc: Global,
        options: &PlanOptions,
        statement: usize,
        place: &Place<'_>,
    ) -> Result<(), Fault>
        ensures rules { OnOk result (self.new.rules ≡ self.old.rules ++ numbered_place self.old.chunks (shown_place place.now)) }
        ensures chunks { OnOk result (self.new.chunks ≡ self.old.chunks ++ chunks_at (shown_place place.now)) }
        ensures passes { Passes (failing (statement_checks options.now statement (shown_place place.now))) result }
    {
        match *place {
            Place::Collect(chunk, matcher) => {
                let id = number_chunk(&mut self.chunks, chunk)?;
                push_patterns(alloc, &mut self.rules, statement, id, matcher)
            }
            Place::Open(_, Some(section)) => check_opening(statement, section),
            Place::Discard(section) => check_discard(statement, section),
            Place::Format(format) => check_format(alloc, options, format),
            _ => Ok(()),
        }
    }
}

#[tactic(auto, using(std::proofs::lemmas::Grind::common_steps, crate::proofs::Failing::failing_after))]
fn number_rules(
    alloc: Global,
    options: &PlanOptions,
    places: &[Place<'_>],
) -> Result<NumberedRules, Fault>
    ensures rules { IfOk result (λ numbered. numbered.rules ≡ numbered_rules [] (shown_places places.now)) }
    ensures chunks { IfOk result (λ numbered. numbered.chunks ≡ chunks_in (shown_places places.now)) }
    ensures passes { Passes (failing (place_checks options.now 0 (shown_places places.now))) result }
{
    let mut numbered = NumberedRules {
        rules: Items::new(alloc),
        chunks: Items::new(alloc),
    };
    for (statement, place) in places.iter().enumerate() {
        numbered.push_statement(alloc, options, statement, place)?;
    }
    Ok(numbered)
}

/// The rules of these places, in their order. The fault is the first of a place: what a section or `/DISCARD/` must not
/// say, a pattern that has no reading, or a format of another machine.
#[tactic(auto, using(crate::proofs::Numbered::rules_are))]
pub fn find_rules(
    alloc: Global,
    options: &PlanOptions,
    places: &[Place<'_>],
) -> Result<Rules, Fault>
    ensures rules { IfOk result (λ rules. rules ≡ rules_in (shown_places places.now)) }
    ensures passes { Passes (failing (place_checks options.now 0 (shown_places places.now))) result }
{
    let NumberedRules { rules, chunks } = number_rules(alloc, options, places)?;
    let rules = SectionRules::from_rules(alloc, rules.as_slice())?;
    Ok(Rules { rules, chunks })
}
