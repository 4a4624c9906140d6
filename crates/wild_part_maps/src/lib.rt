//! Maps from the parts of output sections.
#![tactic(auto)]

mod laws;
mod output_section_part_map;
mod range_iterator;

pub use laws::ranges_do_not_overlap;
pub use output_section_part_map::OutputSectionPartMap;
pub use range_iterator::{RangeIterator, RangeValues};

#[cfg(test)]
mod tests;
