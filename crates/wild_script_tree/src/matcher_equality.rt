//! Equality of matchers.

ghost use Rattle.std.specs.Cmp.{partial_equiv_from_equiv};
ghost use Rattle.wild_script_tree.specs.Matchers.{same_matcher, same_matcher_equiv};

use crate::tree::Matcher;

impl PartialEq for Matcher {
    ghost eq = { same_matcher };

    ghost laws = { partial_equiv_from_equiv same_matcher_equiv };

    fn eq(&self, other: &Matcher) -> bool {
        self.must_keep == other.must_keep
            && self.input_file_pattern == other.input_file_pattern
            && self.input_section_name_patterns.as_slice()
                == other.input_section_name_patterns.as_slice()
    }
}

impl Eq for Matcher {
    ghost laws = { same_matcher_equiv };
}
