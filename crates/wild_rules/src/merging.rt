//! Which sections are merged.

ghost use Rattle.std.specs.Prelude.{◌≡◌, ◌&&◌, ◌||◌, not, nat_le};

use wild_base::{Args, SectionHeader};

/// Whether equal pieces of the section are merged: the arguments ask for it, the header says that they may be, and the
/// alignment is at most 1. A section of a group isn't merged, nor a group header, where a partial object is asked for.
pub fn should_merge_sections<H: SectionHeader, A: Args>(
    header: &H,
    alignment: u64,
    args: &A,
) -> bool
    ensures { result ≡ (A.should_merge_sections args.now && H.is_merge_section header.now && nat_le alignment 1
        && not (A.should_output_partial_object args.now && (H.is_group header.now || H.is_group_header header.now))) }
{
    args.should_merge_sections()
        && header.is_merge_section()
        && alignment <= 1
        && !(args.should_output_partial_object() && (header.is_group() || header.is_group_header()))
}
