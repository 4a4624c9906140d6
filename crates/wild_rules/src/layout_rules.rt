//! The rules of a link.

ghost use Rattle.std.specs.Prelude.{◌≡◌, ◌&&◌, ◌||◌, not};
ghost use Rattle.std.specs.Option.{option_copied};
ghost use Rattle.wild_rules.specs.Lookup as spec;

use crate::section_rules::SectionRules;
use wild_base::SectionHeader;

/// The rules of a link, and whether it has a script.
#[derive(Debug, Drop)]
pub struct LayoutRules {
    pub section_rules: SectionRules,
    pub has_linker_script: bool,
}

impl LayoutRules {
    /// Whether the section is an orphan: its header neither excludes it nor is null, and no rule matches, or, with a
    /// script, the first rule that matches is from outside the script and doesn't send it to Discard.
    pub fn is_orphan<H: SectionHeader>(
        &self,
        section_name: &[u8],
        file_name: Option<&[u8]>,
        header: &H,
    ) -> bool
        ensures { result ≡ (not (H.should_exclude header.now || H.is_null header.now)
            && spec.is_orphan self.now.has_linker_script (spec.first_rule self.now.section_rules section_name.now (option_copied file_name.entry))) }
    {
        if header.should_exclude() || header.is_null() {
            return false;
        }
        match self.section_rules.lookup_rule(section_name, file_name) {
            Some(rule) => {
                !rule.outcome().is_discard() && self.has_linker_script && !rule.is_from_script()
            }
            None => true,
        }
    }
}
