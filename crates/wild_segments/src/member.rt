//! What segments look at.

ghost use Rattle.std.specs.Prelude.{◌≡◌};
ghost use Rattle.wild_segments.specs.Holding.{names_header};

use std::marker::Model;
use wild_names::{InputFlags, Name};

/// What segments look at in an output section.
#[derive(Drop)]
pub struct SegmentMember<'a> {
    pub flags: InputFlags,
    /// It moves the counter.
    pub counted: bool,
    pub region: Option<&'a Name>,
    /// Its script says where it starts.
    pub has_start: bool,
    /// The program headers that hold it.
    pub headers: &'a [Name],
}

impl<'a> Model for SegmentMember<'a> {
    ghost use Rattle.std.specs.Option.{option_copied};
    ghost use Rattle.wild_segments.specs.Members.{Member};

    ghost Value = { Member };

    ghost view = { λ m. record { flags = m.flags; counted = m.counted; region = option_copied m.region; has_start = m.has_start; headers = m.headers.now } };
}

/// A program header of a script, with its numbers.
#[derive(Drop)]
pub struct SegmentHeader<'a> {
    pub name: &'a Name,
    pub ptype: u32,
    pub flags: Option<u32>,
    pub has_filehdr: bool,
    pub has_phdrs: bool,
}

impl<'a> Model for SegmentHeader<'a> {
    ghost use Rattle.wild_segments.specs.Members.{Header};

    ghost Value = { Header };

    ghost view = { λ h. record { name = h.name.now; ptype = h.ptype; flags = h.flags; has_filehdr = h.has_filehdr; has_phdrs = h.has_phdrs } };
}
