//! Names and faults, the flags and headers of input sections, and what a user asks of a link.
#![tactic(auto)]

mod args;
mod fault;
mod input_flags;
mod name;
mod script_error;
mod section_header;
mod segment_name;
mod target;

pub use args::Args;
pub use fault::{Fault, NoMemory};
pub use input_flags::InputFlags;
pub use name::Name;
pub use script_error::LinkerScriptError;
pub use section_header::SectionHeader;
pub use segment_name::SegmentName;
pub use target::{Architecture, Endianness, RelocationModel};

#[cfg(test)]
mod tests;
