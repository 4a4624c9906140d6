//! What all crates share, under one name: names and faults of `wild_names`, ids and maps of `wild_ids`, and the counter of
//! `wild_steps`. No code of its own.
#![tactic(auto)]

pub use wild_ids::{
    Alignment, AlignmentFault, CommonSinglePartSectionId, NUM_COMMON_SINGLE_PART_SECTIONS,
    OutputSectionId, OutputSectionMap, PartId, PartIdIterator, PlatformIds, SectionEntries,
    SectionValues, alignment, num_built_in_sections, output_section_id, part_id, regular_part_base,
    regular_section_base,
};
pub use wild_names::{
    Architecture, Args, Endianness, Fault, InputFlags, LinkerScriptError, Name, NoMemory,
    RelocationModel, SectionHeader, SegmentName,
};
pub use wild_steps::Steps;
