//! What a program is linked for.

ghost use Rattle.std.specs.Prelude.{◌≡◌};
ghost use Rattle.wild_names.specs.Target.{architecture_of};

/// The machine that a program is linked for.
#[derive(Clone, Copy, Debug, PartialEq, Eq)]
pub enum Architecture {
    X86_64,
    AArch64,
    RiscV64,
    LoongArch64,
    /// None of these.
    Unsupported,
}

/// The order of the bytes of a number.
#[derive(Clone, Copy, Debug, PartialEq, Eq)]
pub enum Endianness {
    Little,
    Big,
}

/// Whether a program is linked for one address or for any.
#[derive(Clone, Copy, Debug, PartialEq, Eq)]
pub enum RelocationModel {
    Fixed,
    PositionIndependent,
}

impl Architecture {
    /// The architecture of an output format: `elf64-x86-64`, `elf64-littleaarch64`, `elf64-littleriscv` or
    /// `elf64-loongarch`. Any other name is unsupported.
    #[tactic(auto, unfolding(crate::specs::Target::architecture_of))]
    pub fn parse_output_format(name: &[u8]) -> Architecture
        ensures { result ≡ architecture_of name.now }
    {
        if name == b"elf64-x86-64".as_slice() {
            Architecture::X86_64
        } else if name == b"elf64-littleaarch64".as_slice() {
            Architecture::AArch64
        } else if name == b"elf64-littleriscv".as_slice() {
            Architecture::RiscV64
        } else if name == b"elf64-loongarch".as_slice() {
            Architecture::LoongArch64
        } else {
            Architecture::Unsupported
        }
    }
}
