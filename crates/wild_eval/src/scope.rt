//! What a script, its table and the options say to an expression.

ghost use Rattle.std.specs.Prelude.{◌≡◌, slice_get};
ghost use Rattle.std.specs.Option.{option_map};
ghost use Rattle.wild_eval.specs.Scope.{scope_of, shown_definition, shown_definitions};
ghost use Rattle.wild_value_spec.specs.Scope.{asked_start, definition_of, line_of};

use crate::definition::{Definition, SymbolEntry};
use wild_base::{Alignment, Name, SegmentName};
use wild_numbering::Numbering;
use wild_value_spec::Region;

/// What a script and its table say of sections, symbols and memory regions, and what is asked for beside them. Sections are
/// numbered from 0.
#[derive(Clone, Copy)]
pub struct Scope<'a> {
    /// The names of the sections, in text order.
    pub sections: &'a [&'a Name],
    /// The same, to find the number of a section.
    pub section_numbers: &'a Numbering,
    /// The alignment of each section.
    pub alignments: &'a [Alignment],
    /// The names of the symbols, to find the number of a symbol.
    pub symbols: &'a Numbering,
    /// The symbols by their numbers.
    pub entries: &'a [SymbolEntry<'a>],
    /// The bytes of the script.
    pub script: &'a [u8],
    /// The names of the memory regions, to find the number of a region.
    pub region_numbers: &'a Numbering,
    /// The regions by their numbers.
    pub regions: &'a [Region],
    /// The starts that are asked for of the segments of text, data and bss, in this order.
    pub segment_starts: [Option<u64>; 3],
    /// The size of the headers of the output, in bytes.
    pub header_size: u64,
}

impl<'a> Scope<'a> {
    /// The number of the section of this name.
    pub(crate) fn section(&self, name: &Name) -> Option<usize>
        ensures { result ≡ (scope_of self.now).«section» name.now }
    {
        self.section_numbers.get(name)
    }

    /// The name of a section, or no bytes where there is none of that number.
    pub fn name_of(&self, section: usize) -> &'a [u8]
        ensures { result.now ≡ (scope_of self.now).section_name section }
    {
        match self.sections.get(section) {
            Some(name) => name.bytes(),
            None => {
                let none: &[u8] = &[];
                none
            }
        }
    }

    /// The alignment of a section, or the least one where there is none of that number.
    pub fn alignment(&self, section: usize) -> Alignment
        ensures { result ≡ (scope_of self.now).alignment section }
    {
        match self.alignments.get(section) {
            Some(alignment) => *alignment,
            None => Alignment::default(),
        }
    }

    /// What the symbol of this name is, where there is one.
    pub fn definition(&self, name: &Name) -> Option<Definition<'a>>
        ensures { option_map shown_definition result ≡ definition_of (scope_of self.now) name.now }
    {
        match self.symbols.get(name) {
            Some(number) => self.definition_at(number),
            None => None,
        }
    }

    /// The memory region of this name.
    pub(crate) fn region(&self, name: &Name) -> Option<Region>
        ensures { result ≡ (scope_of self.now).region name.now }
    {
        match self.region_numbers.get(name) {
            Some(number) => self.regions.get(number).copied(),
            None => None,
        }
    }

    /// The start that is asked for of a segment.
    pub(crate) fn segment_start(&self, segment: SegmentName) -> Option<u64>
        ensures { result ≡ asked_start self.now.segment_starts segment }
    {
        match segment {
            SegmentName::Text => self.segment_starts[0],
            SegmentName::Data => self.segment_starts[1],
            SegmentName::Bss => self.segment_starts[2],
            SegmentName::Unknown => None,
        }
    }

    /// The definition of a number.
    pub(crate) fn definition_at(&self, number: usize) -> Option<Definition<'a>>
        ensures { option_map shown_definition result ≡ slice_get (shown_definitions self.now.entries.now) number }
    {
        match self.entries.get(number) {
            Some(entry) => Some(entry.definition),
            None => None,
        }
    }

    /// The line of a position of the script: 1, and one more for each newline before it.
    #[tactic(auto, unfolding(wild_value_spec::specs::Scope::line_of))]
    pub(crate) fn line(&self, position: usize) -> u64
        ensures { result ≡ line_of self.now.script.now position }
    {
        let before = &self.script[..position.min(self.script.len())];
        before.iter().filter(|byte| **byte == b'\n').count() as u64 + 1
    }
}
