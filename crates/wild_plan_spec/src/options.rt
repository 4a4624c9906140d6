//! What a plan is made for.

use wild_base::{Architecture, Endianness};
use wild_output_kind::OutputKind;

/// What a plan is made for.
#[derive(Clone, Copy, Debug)]
pub struct PlanOptions {
    pub architecture: Architecture,
    /// The order of the bytes of a number, where it is asked for.
    pub endian: Option<Endianness>,
    pub kind: OutputKind,
    /// The size of the headers of the output, in bytes.
    pub header_size: u64,
    /// The starts that are asked for of the segments of text, data and bss, in this order.
    pub segment_starts: [Option<u64>; 3],
}
