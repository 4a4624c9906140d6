//! What a platform says of its built-in output sections.

ghost use Rattle.std.specs.Prelude.{◌≡◌, ℕ, Bool, Option, SomeIff, ◌+◌, ◌*◌, ◌<◌, ◌≤◌, ◌^◌};
ghost use Rattle.wild_ids.specs.Alignment.{alignment_count};
ghost use Rattle.wild_ids.specs.Inverses.{LeadsBack};

use crate::output_section_id::OutputSectionId;
use crate::part_id::PartId;

/// The ids of a platform's built-in output sections. Those with a single part come first, then the regular ones,
/// which have a part for each alignment. Custom sections come after them.
pub trait PlatformIds {
    /// How many sections have a single part, and how many parts these are.
    const NUM_SINGLE_PART_SECTIONS: u32;

    /// How many built-in sections are regular.
    const NUM_BUILT_IN_REGULAR_SECTIONS: usize;

    /// The section of code, if the platform has it.
    const TEXT_SECTION_ID: Option<OutputSectionId>;

    /// The section of written data.
    const DATA_SECTION_ID: Option<OutputSectionId>;

    /// The section of data that begins as zeros.
    const BSS_SECTION_ID: Option<OutputSectionId>;

    /// The section of data that is only read.
    const RODATA_SECTION_ID: Option<OutputSectionId>;

    /// The section of each thread's own data.
    const TDATA_SECTION_ID: Option<OutputSectionId>;

    /// The section of each thread's own data that begins as zeros.
    const TBSS_SECTION_ID: Option<OutputSectionId>;

    /// The section of unwinding tables.
    const EH_FRAME_SECTION_ID: Option<OutputSectionId>;

    /// The section of notes on the program's properties.
    const NOTE_GNU_PROPERTY_SECTION_ID: Option<OutputSectionId>;

    /// The section of RISC-V attributes.
    const RISCV_ATTRIBUTES_SECTION_ID: Option<OutputSectionId>;

    ghost NUM_SINGLE_PART_SECTIONS: { ℕ };

    ghost NUM_BUILT_IN_REGULAR_SECTIONS: { ℕ };

    ghost TEXT_SECTION_ID: { Option ℕ };

    ghost DATA_SECTION_ID: { Option ℕ };

    ghost BSS_SECTION_ID: { Option ℕ };

    ghost RODATA_SECTION_ID: { Option ℕ };

    ghost TDATA_SECTION_ID: { Option ℕ };

    ghost TBSS_SECTION_ID: { Option ℕ };

    ghost EH_FRAME_SECTION_ID: { Option ℕ };

    ghost NOTE_GNU_PROPERTY_SECTION_ID: { Option ℕ };

    ghost RISCV_ATTRIBUTES_SECTION_ID: { Option ℕ };

    /// The part of a single-part section.
    ghost part_of: { ℕ → ℕ };

    /// The section of a single part.
    ghost section_of: { ℕ → ℕ };

    /// Whether a section is packed: no padding comes after its parts.
    ghost is_packed: { ℕ → Bool };

    /// The one part of the section, or none where it has more.
    fn single_part_id(section: OutputSectionId) -> Option<PartId>
        ensures { SomeIff result (section < NUM_SINGLE_PART_SECTIONS) (part_of section) };

    /// The section whose one part this is, or none where its section has more.
    fn single_part_output_section_id(part: PartId) -> Option<OutputSectionId>
        ensures { SomeIff result (part < NUM_SINGLE_PART_SECTIONS) (section_of part) };

    /// Whether no padding comes after the parts of the section.
    fn is_packed(section: OutputSectionId) -> bool
        ensures { result ≡ is_packed section };

    /// The unmapped part and the file header.
    ghost two_single_parts: { 2 ≤ NUM_SINGLE_PART_SECTIONS };

    /// All built-in parts are below 2 ^ 32 - 1.
    ghost built_in_fit: { NUM_SINGLE_PART_SECTIONS + alignment_count * NUM_BUILT_IN_REGULAR_SECTIONS < 2 ^ 32 };

    ghost parts_and_back: { LeadsBack NUM_SINGLE_PART_SECTIONS part_of section_of };

    ghost sections_and_back: { LeadsBack NUM_SINGLE_PART_SECTIONS section_of part_of };
}
