//! What follows from the definitions.

ghost use Rattle.wild_rules.specs.Index.{TakesByKey};
ghost use Rattle.wild_rules.specs.Lookup.{LowestCounts, NoneCounts};

/// The rule that a lookup answers is the lowest-numbered one that matches. It answers none exactly where the section
/// name is empty or no rule matches.
pub fn first_rule_counts()
    ensures lowest { LowestCounts }
    ensures none { NoneCounts }
{}

/// A rule that matches has the first four bytes of the section name, or is short.
pub fn rules_have_keys()
    ensures { TakesByKey }
{}
