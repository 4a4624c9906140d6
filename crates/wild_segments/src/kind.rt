//! Kinds of segments.

ghost use Rattle.std.specs.Prelude.{◌≡◌};
ghost use Rattle.wild_segments.specs.Kinds.{type_of, flags_of, includes};

use crate::member::SegmentMember;
use wild_names::SectionHeader;

/// The kinds of segments that hold sections where the script has no program headers.
#[derive(Clone, Copy, Debug, PartialEq, Eq)]
pub enum SegmentKind {
    /// Loaded to be read alone.
    ReadOnly,
    /// Loaded to be run.
    Executable,
    /// Loaded to be written.
    Writable,
    /// What each thread has of its own.
    Tls,
}

impl SegmentKind {
    /// The kinds, in the order in which their segments stand.
    pub const ALL: [SegmentKind; 4] = [
        SegmentKind::ReadOnly,
        SegmentKind::Executable,
        SegmentKind::Writable,
        SegmentKind::Tls,
    ];

    /// The type of a program header of such segments.
    #[tactic(auto, unfolding(crate::specs::Kinds::type_of))]
    pub fn ptype(self) -> u32
        ensures { result ≡ type_of self }
    {
        match self {
            SegmentKind::ReadOnly | SegmentKind::Executable | SegmentKind::Writable => 1,
            SegmentKind::Tls => 7,
        }
    }

    /// The flags of a program header of such segments.
    #[tactic(auto, unfolding(crate::specs::Kinds::flags_of))]
    pub fn flags(self) -> u32
        ensures { result ≡ flags_of self }
    {
        match self {
            SegmentKind::ReadOnly | SegmentKind::Tls => 4,
            SegmentKind::Executable => 5,
            SegmentKind::Writable => 6,
        }
    }

    /// Whether segments of this kind hold the section.
    #[tactic(auto, unfolding(crate::specs::Kinds::includes))]
    pub fn includes(self, member: &SegmentMember<'_>) -> bool
        ensures { result ≡ includes self member.now }
    {
        let flags = member.flags;
        member.counted
            && match self {
                SegmentKind::ReadOnly => !flags.is_executable() && !flags.is_writable(),
                SegmentKind::Executable => flags.is_executable(),
                SegmentKind::Writable => !flags.is_executable() && flags.is_writable(),
                SegmentKind::Tls => flags.is_tls(),
            }
    }
}
