//! Rules that say where an input section goes.
#![tactic(auto)]

mod fault;
mod index;
mod laws;
mod layout_rules;
mod literal;
mod matcher;
mod merging;
mod outcome;
mod reading;
mod rule;
mod section_rules;
mod unnamed;

pub use fault::RuleFault;
pub use laws::{first_rule_counts, rules_have_keys};
pub use layout_rules::LayoutRules;
pub use merging::should_merge_sections;
pub use outcome::{SectionOutputInfo, SectionRuleOutcome};
pub use rule::SectionRule;
pub use section_rules::SectionRules;
pub use unnamed::unnamed_section_output;

#[cfg(test)]
mod platform_tests;
#[cfg(test)]
mod speed_tests;
#[cfg(test)]
mod tests;
