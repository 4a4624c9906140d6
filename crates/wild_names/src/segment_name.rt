//! Segments whose start can be given from outside.

ghost use Rattle.std.specs.Prelude.{◌≡◌};
ghost use Rattle.wild_names.specs.SegmentNames.{segment_of};

/// A segment whose start can be given from outside.
#[derive(Clone, Copy, Debug, PartialEq, Eq)]
pub enum SegmentName {
    /// `text-segment`
    Text,
    /// `data-segment`
    Data,
    /// `bss-segment`
    Bss,
    /// Any other name.
    Unknown,
}

impl SegmentName {
    /// The segment that these bytes name.
    pub fn from_bytes(name: &[u8]) -> SegmentName
        ensures { result ≡ segment_of name.now }
    {
        if name == b"text-segment".as_slice() {
            SegmentName::Text
        } else if name == b"data-segment".as_slice() {
            SegmentName::Data
        } else if name == b"bss-segment".as_slice() {
            SegmentName::Bss
        } else {
            SegmentName::Unknown
        }
    }
}
