//! Where rules send input sections.

ghost use Rattle.std.specs.Prelude.{◌≡◌};
ghost use Rattle.wild_rules.specs.Outcomes as spec;

use wild_base::{OutputSectionId, PlatformIds};

/// An output section, and what is asked of the input sections in it.
#[derive(Clone, Copy, Debug, PartialEq, Eq)]
pub struct SectionOutputInfo {
    pub section_id: OutputSectionId,
    /// Whether they are kept where nothing refers to them.
    pub must_keep: bool,
    /// Whether they are sorted.
    pub sorted: bool,
}

impl SectionOutputInfo {
    /// The output section, with nothing asked.
    pub fn regular(id: OutputSectionId) -> SectionOutputInfo
        ensures { result ≡ spec.regular id }
    {
        SectionOutputInfo {
            section_id: id,
            must_keep: false,
            sorted: false,
        }
    }

    /// The output section, whose input sections are kept.
    pub fn keep(id: OutputSectionId) -> SectionOutputInfo
        ensures { result ≡ spec.keep id }
    {
        SectionOutputInfo {
            must_keep: true,
            ..SectionOutputInfo::regular(id)
        }
    }
}

/// Where a rule sends an input section.
#[derive(Clone, Copy, Debug, PartialEq, Eq)]
pub enum SectionRuleOutcome {
    /// To this output section.
    Section(SectionOutputInfo),
    /// Nowhere.
    Discard,
    /// To an output section of its own name.
    Custom,
    EhFrame,
    NoteGnuProperty,
    NoteGnuStack,
    Debug,
    DebugIndex,
    RiscVAttribute,
    AArch64Attribute,
    /// To this output section, whose input sections are sorted by their names.
    SortedSection(SectionOutputInfo),
    InitFunc,
    CompactUnwind,
}

impl SectionRuleOutcome {
    /// The outcome of a rule for an output section: EhFrame, NoteGnuProperty or RiscVAttribute where the platform has
    /// that section under this id, and else the section.
    pub fn section_rule_from_id<P: PlatformIds>(
        section_id: OutputSectionId,
        output_info: SectionOutputInfo,
    ) -> SectionRuleOutcome
        ensures { result ≡ spec.outcome_from_id P.EH_FRAME_SECTION_ID P.NOTE_GNU_PROPERTY_SECTION_ID P.RISCV_ATTRIBUTES_SECTION_ID section_id output_info }
    {
        if is_section(P::EH_FRAME_SECTION_ID, section_id) {
            SectionRuleOutcome::EhFrame
        } else if is_section(P::NOTE_GNU_PROPERTY_SECTION_ID, section_id) {
            SectionRuleOutcome::NoteGnuProperty
        } else if is_section(P::RISCV_ATTRIBUTES_SECTION_ID, section_id) {
            SectionRuleOutcome::RiscVAttribute
        } else {
            SectionRuleOutcome::Section(output_info)
        }
    }

    /// Whether it is Discard.
    pub(crate) fn is_discard(self) -> bool
        ensures { result ≡ spec.is_discard self }
    {
        matches!(self, SectionRuleOutcome::Discard)
    }
}

// Whether the platform has the section, under this id.
fn is_section(built_in: Option<OutputSectionId>, section_id: OutputSectionId) -> bool
    ensures { result ≡ spec.is_section built_in section_id }
{
    match built_in {
        Some(id) => id.as_u32() == section_id.as_u32(),
        None => false,
    }
}
