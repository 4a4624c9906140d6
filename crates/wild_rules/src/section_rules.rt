//! Lists of rules, and which of them counts.

ghost use Rattle.std.specs.Prelude.{◌≡◌, ◌≤◌, ◌<◌, ◌+◌, if◌then◌else◌, length, slice_get, Some, IfOk};
ghost use Rattle.std.specs.List.{position_from};
ghost use Rattle.std.specs.Option.{option_copied};
ghost use Rattle.wild_rules.specs.Index as index;
ghost use Rattle.wild_rules.specs.Index.{candidates, candidates_by_key, name_key};
ghost use Rattle.wild_rules.specs.Lookup as spec;
ghost use Rattle.wild_rules.specs.Taking.{takes};
ghost use Rattle.wild_rules.specs.Unnamed.{unnamed_outcome, homes, told};
ghost use Rattle.wild_rules.specs.declared.outcome.SectionRuleOutcome.TheVariants as sends;

use crate::index::Index;
use crate::outcome::SectionRuleOutcome;
use crate::rule::SectionRule;
use crate::unnamed::unnamed_section_output;
use sqlite_items::Items;
use std::alloc::Global;
use std::marker::{Brand, Model};
use std::sync::ledger::{Blank, Ledger};
use wild_base::{NoMemory, PlatformIds, SectionHeader, Steps};

/// Rules in order, of which a look-up tries only those whose first four bytes are the name's, and those that have no four
/// bytes. Contracts see them as the list.
#[derive(Debug, Drop)]
pub struct SectionRules {
    rules: Items<SectionRule>,
    index: Index,
}

impl Model for SectionRules {
    ghost use Rattle.std.specs.Prelude.{List};
    ghost use Rattle.wild_rules.specs.Index.{Indexes};
    ghost use Rattle.wild_rules.specs.Rule.{Rule};

    ghost Value = { List Rule };

    ghost view = { λ rules. rules.rules };

    ghost invariant = { λ rules. Indexes rules.index rules.rules };
}

impl SectionRules {
    /// These rules, in this order. Fails where memory runs out.
    pub fn from_rules(alloc: Global, rules: &[SectionRule]) -> Result<SectionRules, NoMemory>
        ensures { IfOk result (λ made. made ≡ rules.now) }
    {
        let mut copies = Items::new(alloc);
        let mut index = Index::new(alloc);
        for (number, rule) in rules.iter().enumerate() {
            let copy = rule.copy(alloc)?;
            copies.push(copy)?;
            index.push(alloc, rule.literal(alloc)?, number)?;
        }
        Ok(SectionRules {
            rules: copies,
            index,
        })
    }

    // `lookup_rule`, and a step for each rule that is tried.
    fn lookup_rule_counted<L: Ledger>(
        &self,
        section_name: &[u8],
        file_name: Option<&[u8]>,
        steps: &mut Steps<L>,
    ) -> Option<&SectionRule>
        ensures rule { option_copied result ≡ spec.first_rule self.now section_name.now (option_copied file_name.entry) }
        ensures steps { steps.new ≤ steps.old + candidates self.now section_name.now }
    {
        if section_name.is_empty() {
            return None;
        }
        let number = self.first_number(section_name, file_name, steps)?;
        self.rules.get(number)
    }

    // The number of the first rule that matches. Those of the name are tried first, then those of its beginnings, then those
    // without a literal.
    fn first_number<L: Ledger>(
        &self,
        section_name: &[u8],
        file_name: Option<&[u8]>,
        steps: &mut Steps<L>,
    ) -> Option<usize>
        ensures number { result ≡ position_from (takes section_name.now (option_copied file_name.entry)) 0 self.now }
        ensures steps { steps.new ≤ steps.old + candidates_by_key self.now (name_key section_name.now) }
    {
        let rules = self.rules.as_slice();
        let named = self.index.numbers_at(section_name);
        let mut best = lowest(rules, named, None, section_name, file_name, steps);
        for length in self.index.lengths() {
            if *length < section_name.len() {
                let begun = self.index.numbers_at(&section_name[..*length]);
                best = lowest(rules, begun, best, section_name, file_name, steps);
            }
        }
        let short = self.index.short();
        lowest(rules, short, best, section_name, file_name, steps)
    }

    // The same, with steps of a ledger of its own, which nobody reads.
    fn lookup_rule_apart<L: Ledger>(
        &self,
        section_name: &[u8],
        file_name: Option<&[u8]>,
        blank: Blank,
    ) -> Option<&SectionRule>
        requires name { blank.name ≡ L.name }
        requires parts { blank.parts ≡ L.parts }
        requires some { blank.parts ≡ 1 }
        ensures { option_copied result ≡ spec.first_rule self.now section_name.now (option_copied file_name.entry) }
    {
        let mut steps: Steps<L> = Steps::new(blank);
        self.lookup_rule_counted(section_name, file_name, &mut steps)
    }

    /// The first rule that matches. None where none does, and where the section name is empty.
    pub fn lookup_rule(&self, section_name: &[u8], file_name: Option<&[u8]>) -> Option<&SectionRule>
        ensures { option_copied result ≡ spec.first_rule self.now section_name.now (option_copied file_name.entry) }
    {
        self.lookup_rule_apart::<Brand>(section_name, file_name, Blank::new(1))
    }

    /// Where the section goes: Discard where its header excludes it; else where the first rule that matches sends it;
    /// else, where it has no name, where `unnamed_section_output` sends it; else Custom.
    pub fn lookup<P: PlatformIds, H: SectionHeader>(
        &self,
        section_name: &[u8],
        file_name: Option<&[u8]>,
        header: &H,
    ) -> SectionRuleOutcome
        ensures { result ≡ (if H.should_exclude header.now then sends.Discard
            else spec.sent (spec.first_rule self.now section_name.now (option_copied file_name.entry)) section_name.now
            (unnamed_outcome (homes P.PlatformIds) (told H.SectionHeader header.now))) }
    {
        if header.should_exclude() {
            return SectionRuleOutcome::Discard;
        }
        let rule = self.lookup_rule(section_name, file_name);
        sent::<P, H>(rule, section_name, header)
    }

    /// The same, and a step for each rule that is tried: at most as many as may take a section of this name.
    pub fn lookup_counted<P: PlatformIds, H: SectionHeader, L: Ledger>(
        &self,
        section_name: &[u8],
        file_name: Option<&[u8]>,
        header: &H,
        steps: &mut Steps<L>,
    ) -> SectionRuleOutcome
        ensures outcome { result ≡ (if H.should_exclude header.now then sends.Discard
            else spec.sent (spec.first_rule self.now section_name.now (option_copied file_name.entry)) section_name.now
            (unnamed_outcome (homes P.PlatformIds) (told H.SectionHeader header.now))) }
        ensures steps { steps.new ≤ steps.old + candidates self.now section_name.now }
    {
        if header.should_exclude() {
            return SectionRuleOutcome::Discard;
        }
        let rule = self.lookup_rule_counted(section_name, file_name, steps);
        sent::<P, H>(rule, section_name, header)
    }
}

// Where a section goes that this rule takes, or none.
fn sent<P: PlatformIds, H: SectionHeader>(
    rule: Option<&SectionRule>,
    section_name: &[u8],
    header: &H,
) -> SectionRuleOutcome
    ensures { result ≡ spec.sent (option_copied rule.entry) section_name.now (unnamed_outcome (homes P.PlatformIds) (told H.SectionHeader header.now)) }
{
    match rule {
        Some(rule) => rule.outcome(),
        None if section_name.is_empty() => unnamed_section_output::<P, H>(header),
        None => SectionRuleOutcome::Custom,
    }
}

// Whether a number comes before another one, if there is one.
fn is_before(number: usize, best: Option<usize>) -> bool
    ensures { result ≡ index.is_before number best }
{
    match best {
        Some(best) => number < best,
        None => true,
    }
}

// The lowest of a number that was found, and of these numbers whose rules match. They rise, and are tried as long as they are
// lower.
fn lowest<L: Ledger>(
    rules: &[SectionRule],
    numbers: &[usize],
    best: Option<usize>,
    section_name: &[u8],
    file_name: Option<&[u8]>,
    steps: &mut Steps<L>,
) -> Option<usize>
    ensures number { result ≡ index.lowest (index.takes_at section_name.now (option_copied file_name.entry) rules.now) numbers.now best }
    ensures steps { steps.new ≤ steps.old + length numbers.now }
{
    for number in numbers {
        if !is_before(*number, best) {
            return best;
        }
        if matches_at(rules, *number, section_name, file_name, steps) {
            return Some(*number);
        }
    }
    best
}

// Whether the rule of this number matches.
fn matches_at<L: Ledger>(
    rules: &[SectionRule],
    number: usize,
    section_name: &[u8],
    file_name: Option<&[u8]>,
    steps: &mut Steps<L>,
) -> bool
    ensures matches { result ≡ index.takes_at section_name.now (option_copied file_name.entry) rules.now number }
    ensures steps { steps.new ≤ steps.old + 1 }
{
    match rules.get(number) {
        Some(rule) => rule.matches_counted(section_name, file_name, steps),
        None => false,
    }
}
