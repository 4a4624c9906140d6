//! What the header of an input section tells.

ghost use Rattle.std.specs.Prelude.{◌≡◌, Bool, false, not};
ghost use Rattle.wild_names.specs.InputFlags as flags;

use crate::input_flags::InputFlags;
use bitflags::Flags;

/// What the header of an input section tells. Each function has a meaning of its own, which contracts name.
pub trait SectionHeader {
    ghost should_exclude: { Self → Bool };

    ghost is_null: { Self → Bool };

    ghost is_alloc: { Self → Bool };

    ghost is_prog_bits: { Self → Bool };

    ghost is_no_bits: { Self → Bool };

    ghost is_executable: { Self → Bool };

    ghost is_writable: { Self → Bool };

    ghost is_tls: { Self → Bool };

    ghost is_merge_section: { Self → Bool };

    ghost is_group: { Self → Bool };

    ghost is_group_header: { Self → Bool };

    /// Whether the section is to be left out.
    fn should_exclude(&self) -> bool
        ensures { result ≡ should_exclude self.now };

    /// Whether the header is of no section.
    fn is_null(&self) -> bool
        ensures { result ≡ is_null self.now };

    /// Whether the section is in memory when the program runs.
    fn is_alloc(&self) -> bool
        ensures { result ≡ is_alloc self.now };

    /// Whether the file holds the section's bytes.
    fn is_prog_bits(&self) -> bool
        ensures { result ≡ is_prog_bits self.now };

    /// Whether the section is all zeros and takes no place in the file.
    fn is_no_bits(&self) -> bool
        ensures { result ≡ is_no_bits self.now };

    /// Whether it is code.
    fn is_executable(&self) -> bool
        ensures { result ≡ is_executable self.now };

    /// Whether the program may write it.
    fn is_writable(&self) -> bool
        ensures { result ≡ is_writable self.now };

    /// Whether each thread has its own.
    fn is_tls(&self) -> bool
        ensures { result ≡ is_tls self.now };

    /// Whether equal pieces of it may be merged.
    fn is_merge_section(&self) -> bool
        ensures { result ≡ is_merge_section self.now };

    /// Whether it is of a group of sections that are kept or dropped together.
    fn is_group(&self) -> bool
        ensures { result ≡ is_group self.now };

    /// Whether it lists the sections of a group.
    fn is_group_header(&self) -> bool
        ensures { result ≡ is_group_header self.now };
}

/// Flags tell of a section with bits unless they have NOBITS, and never of a null section, merging or a group.
impl SectionHeader for InputFlags {
    ghost should_exclude = { flags.is_exclude };

    ghost is_null = { λ _. false };

    ghost is_alloc = { flags.is_alloc };

    ghost is_prog_bits = { λ set. not (flags.is_nobits set) };

    ghost is_no_bits = { flags.is_nobits };

    ghost is_executable = { flags.is_exec };

    ghost is_writable = { flags.is_write };

    ghost is_tls = { flags.is_tls };

    ghost is_merge_section = { λ _. false };

    ghost is_group = { λ _. false };

    ghost is_group_header = { λ _. false };

    fn should_exclude(&self) -> bool {
        self.contains(InputFlags::EXCLUDE)
    }

    fn is_null(&self) -> bool {
        false
    }

    fn is_alloc(&self) -> bool {
        self.contains(InputFlags::ALLOC)
    }

    fn is_prog_bits(&self) -> bool {
        !self.contains(InputFlags::NOBITS)
    }

    fn is_no_bits(&self) -> bool {
        self.contains(InputFlags::NOBITS)
    }

    fn is_executable(&self) -> bool {
        self.contains(InputFlags::EXEC)
    }

    fn is_writable(&self) -> bool {
        self.contains(InputFlags::WRITE)
    }

    fn is_tls(&self) -> bool {
        self.contains(InputFlags::TLS)
    }

    fn is_merge_section(&self) -> bool {
        false
    }

    fn is_group(&self) -> bool {
        false
    }

    fn is_group_header(&self) -> bool {
        false
    }
}
