//! What is checked of the format of the output.

ghost use Rattle.std.specs.Prelude.{◌≡◌};
ghost use Rattle.std.specs.Option.{unwrap_or};
ghost use Rattle.wild_plan_spec.specs.Checks as spec;
ghost use Rattle.wild_plan_spec.specs.Checks.{failing};
ghost use Rattle.wild_fates.specs.Passes.{Passes};

use std::alloc::Global;
use wild_base::{Architecture, Endianness, Fault, Name};
use wild_plan_spec::PlanOptions;
use wild_script_tree::OutputFormat;

fn name_or<'a>(name: &'a Option<Name>, default: &'a Name) -> &'a Name
    ensures { result.now ≡ unwrap_or name.now default.now }
{
    match name {
        Some(name) => name,
        None => default,
    }
}

// The name of a format for this order of bytes: the one for big or for little, where there is one.
fn format_for(endian: Option<Endianness>, format: &OutputFormat) -> &Name
    ensures { result.now ≡ spec.format_for endian format.now }
{
    match endian {
        Some(Endianness::Big) => name_or(&format.big, &format.default),
        Some(Endianness::Little) => name_or(&format.little, &format.default),
        None => &format.default,
    }
}

// A format of one machine is for another, which is none where it is not known.
fn is_for(format: Architecture, machine: Architecture) -> bool
    ensures { result ≡ spec.is_for format machine }
{
    match (format, machine) {
        (Architecture::X86_64, Architecture::X86_64)
        | (Architecture::AArch64, Architecture::AArch64)
        | (Architecture::RiscV64, Architecture::RiscV64)
        | (Architecture::LoongArch64, Architecture::LoongArch64) => true,
        _ => false,
    }
}

/// The format that is chosen is one for the machine.
pub fn check_format(
    alloc: Global,
    options: &PlanOptions,
    format: &OutputFormat,
) -> Result<(), Fault>
    ensures { Passes (failing (spec.format_checks options.now format.now)) result }
{
    let name = format_for(options.endian, format);
    let machine = Architecture::parse_output_format(name.bytes());
    if is_for(machine, options.architecture) {
        return Ok(());
    }
    let name = name.copy(alloc)?;
    Err(Fault::OutputFormat { name })
}
