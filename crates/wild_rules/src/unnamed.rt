//! Where sections without name go.

ghost use Rattle.std.specs.Prelude.{◌≡◌};
ghost use Rattle.wild_rules.specs.Unnamed as spec;

use crate::outcome::{SectionOutputInfo, SectionRuleOutcome};
use wild_base::{OutputSectionId, PlatformIds, SectionHeader};

// The platform's section for what the header tells, if there is one.
fn home_of<P: PlatformIds, H: SectionHeader>(header: &H) -> Option<OutputSectionId>
    ensures { result ≡ spec.home_of (spec.homes P.PlatformIds) (spec.told H.SectionHeader header.now) }
{
    if header.is_alloc() && header.is_prog_bits() {
        if header.is_executable() {
            P::TEXT_SECTION_ID
        } else if header.is_tls() {
            P::TDATA_SECTION_ID
        } else if header.is_writable() {
            P::DATA_SECTION_ID
        } else {
            P::RODATA_SECTION_ID
        }
    } else if header.is_alloc() && header.is_no_bits() {
        if header.is_tls() {
            P::TBSS_SECTION_ID
        } else {
            P::BSS_SECTION_ID
        }
    } else {
        None
    }
}

/// Where a section without name goes: to the platform's section for what its header tells, with nothing asked. What is
/// in memory with bits goes to that for code, else for each thread's own data, else for written data, else for data
/// that is only read; what is in memory without bits to that for zeros, each thread's own or not. All else, and what
/// the platform has no section for, goes to Discard.
pub fn unnamed_section_output<P: PlatformIds, H: SectionHeader>(header: &H) -> SectionRuleOutcome
    ensures { result ≡ spec.unnamed_outcome (spec.homes P.PlatformIds) (spec.told H.SectionHeader header.now) }
{
    match home_of::<P, H>(header) {
        Some(section_id) => SectionRuleOutcome::Section(SectionOutputInfo::regular(section_id)),
        None => SectionRuleOutcome::Discard,
    }
}
