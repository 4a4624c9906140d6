//! Rules: how they are made, and which sections they take.

ghost use Rattle.std.specs.Prelude.{◌≡◌, ◌⊎◌, ◌+◌, IfOk, Result};
ghost use Rattle.std.specs.Option.{option_copied, option_map};
ghost use Rattle.wild_rules.specs.Index.{literal};
ghost use Rattle.wild_rules.specs.Taking as taking;
ghost use Rattle.wild_rules.specs.Making as making;
ghost use Rattle.wild_rules.specs.Outcomes as outcomes;
ghost use Rattle.wild_rules.specs.declared.fault.RuleFault.TheVariants as fault;
ghost use Rattle.wild_rules.specs.declared.outcome.SectionRuleOutcome.TheVariants as sends;

use crate::fault::RuleFault;
use crate::literal::literal_of;
use crate::matcher::{SectionNameMatcher, copy_file, takes_file};
use crate::outcome::{SectionOutputInfo, SectionRuleOutcome};
use crate::reading::{files_of, names_of};
use std::alloc::{AllocError, Global};
use std::marker::Model;
use std::sync::ledger::Ledger;
use wild_base::{Name, NoMemory, OutputSectionId, Steps};
use wild_glob::Pattern;

/// A rule that sends input sections somewhere: those of some names, in some files or in all. Contracts see it as these
/// names, these files, where it sends them, and whether a script has it.
#[derive(Debug, Drop)]
pub struct SectionRule {
    matcher: SectionNameMatcher,
    file: Option<Pattern>,
    outcome: SectionRuleOutcome,
    from_script: bool,
}

impl Model for SectionRule {
    ghost use Rattle.wild_rules.specs.Rule.{Rule};

    ghost Value = { Rule };

    ghost view = { λ rule. record { matcher = rule.matcher; file = rule.file; outcome = rule.outcome; from_script = rule.from_script } };
}

impl SectionRule {
    /// The rule of a script, with a pattern of section names and maybe one of file names.
    ///
    /// A file pattern, and a section pattern with a wildcard, is read by `compile_glob_pattern`. A section pattern
    /// without a wildcard means the one name that is left of it without its escapes; it has no reading where it is
    /// empty or ends in a backslash that is itself not escaped.
    ///
    /// # Errors
    ///
    /// BadFile exactly where there is a file pattern and it has no reading, else BadSection exactly where the section
    /// pattern has none. NoMemory may come in place of the answer where the file pattern is a text, or where there is
    /// none and the section pattern has bytes.
    pub fn new(
        alloc: Global,
        pattern: &[u8],
        input_file_pattern: Option<&[u8]>,
        outcome: SectionRuleOutcome,
    ) -> Result<SectionRule, RuleFault>
        ensures { (result ≡ making.script_rule pattern.now (option_copied input_file_pattern.entry) outcome)
            ⊎ (making.AsksMemory pattern.now (option_copied input_file_pattern.entry) × (result ≡ Err fault.NoMemory)) }
    {
        let file = files_of(alloc, input_file_pattern)?;
        let matcher = names_of(alloc, pattern)?;
        Ok(SectionRule {
            matcher,
            file,
            outcome,
            from_script: true,
        })
    }

    fn plain(matcher: SectionNameMatcher, outcome: SectionRuleOutcome) -> SectionRule
        ensures { result ≡ making.plain_rule matcher outcome }
    {
        SectionRule {
            matcher,
            file: None,
            outcome,
            from_script: false,
        }
    }

    /// A rule from outside a script, for sections of this name. Fails where memory runs out.
    pub fn exact(
        alloc: Global,
        name: &[u8],
        outcome: SectionRuleOutcome,
    ) -> Result<SectionRule, NoMemory>
        ensures { IfOk result (λ rule. rule ≡ making.exact_rule name.now outcome) }
    {
        let name = Name::new(alloc, name)?;
        Ok(SectionRule::plain(SectionNameMatcher::Exact(name), outcome))
    }

    /// A rule from outside a script, for sections whose names begin with this one. Fails where memory runs out.
    pub fn prefix(
        alloc: Global,
        name: &[u8],
        outcome: SectionRuleOutcome,
    ) -> Result<SectionRule, NoMemory>
        ensures { IfOk result (λ rule. rule ≡ making.prefix_rule name.now outcome) }
    {
        let name = Name::new(alloc, name)?;
        Ok(SectionRule::plain(SectionNameMatcher::Prefix(name), outcome))
    }

    /// `exact`, to this output section, whose input sections are kept.
    pub fn exact_section_keep(
        alloc: Global,
        name: &[u8],
        section_id: OutputSectionId,
    ) -> Result<SectionRule, NoMemory>
        ensures { IfOk result (λ rule. rule ≡ making.exact_rule name.now (sends.Section (outcomes.keep section_id))) }
    {
        let info = SectionOutputInfo::keep(section_id);
        SectionRule::exact(alloc, name, SectionRuleOutcome::Section(info))
    }

    /// `prefix`, to this output section.
    pub fn prefix_section(
        alloc: Global,
        name: &[u8],
        section_id: OutputSectionId,
    ) -> Result<SectionRule, NoMemory>
        ensures { IfOk result (λ rule. rule ≡ making.prefix_rule name.now (sends.Section (outcomes.regular section_id))) }
    {
        let info = SectionOutputInfo::regular(section_id);
        SectionRule::prefix(alloc, name, SectionRuleOutcome::Section(info))
    }

    /// `prefix`, to this output section, whose input sections are kept and sorted by their names.
    pub fn prefix_section_sort(
        alloc: Global,
        name: &[u8],
        section_id: OutputSectionId,
    ) -> Result<SectionRule, NoMemory>
        ensures { IfOk result (λ rule. rule ≡ making.prefix_rule name.now (sends.SortedSection (outcomes.keep section_id))) }
    {
        let info = SectionOutputInfo::keep(section_id);
        SectionRule::prefix(alloc, name, SectionRuleOutcome::SortedSection(info))
    }

    /// The same rule once more. Fails where memory runs out.
    pub fn copy(&self, alloc: Global) -> Result<SectionRule, NoMemory>
        ensures { IfOk result (λ copy. copy ≡ self.now) }
    {
        let matcher = self.matcher.copy(alloc)?;
        let file = copy_file(alloc, &self.file)?;
        Ok(SectionRule {
            matcher,
            file,
            outcome: self.outcome,
            from_script: self.from_script,
        })
    }

    /// Where it sends the sections that it takes.
    pub fn outcome(&self) -> SectionRuleOutcome
        ensures { result ≡ self.now.outcome }
    {
        self.outcome
    }

    /// Whether a script has it.
    pub(crate) fn is_from_script(&self) -> bool
        ensures { result ≡ self.now.from_script }
    {
        self.from_script
    }

    /// Whether it takes sections of this name in this file. An exact name is equal to the section name, a prefix begins
    /// it, and a pattern matches it where it is UTF-8. A rule with a file pattern takes only what has a file name that
    /// is UTF-8 and that the pattern matches.
    pub fn matches(&self, section_name: &[u8], file_name: Option<&[u8]>) -> bool
        ensures { result ≡ taking.takes section_name.now (option_copied file_name.entry) self.now }
    {
        self.matcher.takes(section_name) && takes_file(&self.file, file_name)
    }

    /// The same, and one step.
    pub fn matches_counted<L: Ledger>(
        &self,
        section_name: &[u8],
        file_name: Option<&[u8]>,
        steps: &mut Steps<L>,
    ) -> bool
        ensures matches { result ≡ taking.takes section_name.now (option_copied file_name.entry) self.now }
        ensures steps { steps.new ≡ steps.old + 1 }
    {
        steps.tick();
        self.matches(section_name, file_name)
    }

    /// The bytes with which all names begin that it takes, where the index has them.
    pub(crate) fn literal(&self, alloc: Global) -> Result<Option<Vec<u8>>, AllocError>
        ensures { IfOk result (λ found. option_map (λ bytes. bytes.items) found ≡ literal self.now.matcher) }
    {
        literal_of(alloc, &self.matcher)
    }
}
