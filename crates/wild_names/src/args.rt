//! What the user asks of a link.

ghost use Rattle.std.specs.Prelude.{◌≡◌, ℕ, Bool, List, Option};
ghost use Rattle.wild_names.specs.declared.segment_name.SegmentName.{SegmentName};
ghost use Rattle.wild_names.specs.declared.target.Architecture.{Architecture};
ghost use Rattle.wild_names.specs.declared.target.Endianness.{Endianness};
ghost use Rattle.wild_names.specs.declared.target.RelocationModel.{RelocationModel};

use crate::segment_name::SegmentName;
use crate::target::{Architecture, Endianness, RelocationModel};

/// What the user asks of a link. Each function has a meaning of its own, which contracts name.
pub trait Args {
    ghost architecture: { Self → Architecture };

    ghost output_format_endian: { Self → Option Endianness };

    ghost relocation_model: { Self → RelocationModel };

    ghost has_dynamic_linker: { Self → Bool };

    ghost should_merge_sections: { Self → Bool };

    ghost should_output_partial_object: { Self → Bool };

    ghost should_output_executable: { Self → Bool };

    ghost start_address_for_section: { Self → List ℕ → Option ℕ };

    ghost segment_start_override: { Self → SegmentName → Option ℕ };

    /// The machine.
    fn architecture(&self) -> Architecture
        ensures { result ≡ architecture self.now };

    /// The order of bytes that is asked for, if one is. A script's OUTPUT_FORMAT with three names goes by it.
    fn output_format_endian(&self) -> Option<Endianness>
        ensures { result ≡ output_format_endian self.now };

    /// Whether the program is for one address or for any.
    fn relocation_model(&self) -> RelocationModel
        ensures { result ≡ relocation_model self.now };

    /// Whether a dynamic linker starts the program.
    fn has_dynamic_linker(&self) -> bool
        ensures { result ≡ has_dynamic_linker self.now };

    /// Whether sections may be merged.
    fn should_merge_sections(&self) -> bool
        ensures { result ≡ should_merge_sections self.now };

    /// Whether the output is an object file to be linked again.
    fn should_output_partial_object(&self) -> bool
        ensures { result ≡ should_output_partial_object self.now };

    /// Whether the output is a program.
    fn should_output_executable(&self) -> bool
        ensures { result ≡ should_output_executable self.now };

    /// The address where the section of this name starts, if one is asked for.
    fn start_address_for_section(&self, name: &[u8]) -> Option<u64>
        ensures { result ≡ start_address_for_section self.now name.now };

    /// The address where the segment starts, if one is asked for.
    fn segment_start_override(&self, name: SegmentName) -> Option<u64>
        ensures { result ≡ segment_start_override self.now name };
}
