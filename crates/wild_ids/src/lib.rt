//! Alignments, ids of output sections and their parts, what a platform says of them, and maps from sections.
#![tactic(auto)]

pub mod alignment;
pub mod output_section_id;
mod output_section_map;
pub mod part_id;
mod platform;

pub use alignment::{Alignment, AlignmentFault};
pub use output_section_id::{
    CommonSinglePartSectionId, NUM_COMMON_SINGLE_PART_SECTIONS, OutputSectionId, PartIdIterator,
    num_built_in_sections, regular_section_base,
};
pub use output_section_map::{OutputSectionMap, SectionEntries, SectionValues};
pub use part_id::{PartId, regular_part_base};
pub use platform::PlatformIds;

#[cfg(test)]
mod tests;
