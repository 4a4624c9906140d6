//! What the places of a script are laid out by.

ghost use Rattle.std.specs.Prelude.{◌≡◌, IfOk};
ghost use Rattle.wild_plan_spec.specs.Facts.{facts_of};
ghost use Rattle.std.specs.Option.{option_copied};
ghost use Rattle.wild_plan_spec.specs.Ground.{ground_of};
ghost use Rattle.wild_plan_spec.specs.Names.{or_empty};
ghost use Rattle.wild_plan_spec.specs.Steps.{is_floating, region_in};
ghost use Rattle.wild_value_spec.specs.Scope.{region_at};
ghost use Rattle.wild_plan.specs.Basis.{IsBasis};
ghost use Rattle.wild_plan.specs.Case.{shown_case};
ghost use Rattle.wild_plan.specs.Checked.{IsChecked};
ghost use Rattle.wild_plan.specs.Chunks.{rows_at};
ghost use Rattle.wild_plan.specs.Facts.{shown_all};
ghost use Rattle.wild_plan.specs.Ground.{shown_ground};

use crate::case::Case;
use crate::chunks::{Chunks, find_chunks};
use crate::definitions::Definitions;
use crate::facts::{Facts, alignments_in, find_facts};
use sqlite_items::Items;
use std::alloc::Global;
use wild_base::{Alignment, Name, NoMemory};
use wild_eval::Scope;
use wild_script_tree::Expression;
use wild_value_spec::Region;

/// What a script and its table say, beside what becomes known from place to place. The walk, the end and the lists all
/// read it.
#[derive(Clone, Copy)]
pub struct Ground<'a> {
    pub alloc: Global,
    /// The sections, the symbols and the memory regions, as expressions ask for them.
    pub scope: Scope<'a>,
    /// What is said of each section.
    pub facts: &'a [Facts<'a>],
    /// The rows of each chunk in their order.
    pub chunks: &'a Chunks,
}

impl<'a> Ground<'a> {
    /// The alignment of a section, or the least one where there is none of that number.
    pub fn alignment(&self, section: usize) -> Alignment
        ensures { result ≡ ((shown_ground self.now).facts section).alignment }
    {
        match self.facts.get(section) {
            Some(facts) => facts.alignment,
            None => wild_base::alignment::MIN,
        }
    }

    /// Whether a section floats.
    pub fn is_floating(&self, section: usize) -> bool
        ensures { result ≡ is_floating (shown_ground self.now) section }
    {
        match self.facts.get(section) {
            Some(facts) => facts.floating,
            None => false,
        }
    }

    /// The start expression of a section, where it has one.
    pub fn start(&self, section: usize) -> Option<&'a Expression>
        ensures { option_copied result ≡ ((shown_ground self.now).facts section).start }
    {
        match self.facts.get(section) {
            Some(facts) => facts.start,
            None => None,
        }
    }

    /// The load address of a section, where it has an AT clause.
    pub fn load(&self, section: usize) -> Option<&'a Expression>
        ensures { option_copied result ≡ ((shown_ground self.now).facts section).load }
    {
        match self.facts.get(section) {
            Some(facts) => facts.load,
            None => None,
        }
    }

    // The name of the memory region of a section, where it is in one.
    fn named_region(&self, section: usize) -> Option<&'a Name>
        ensures { option_copied result ≡ ((shown_ground self.now).facts section).region }
    {
        match self.facts.get(section) {
            Some(facts) => facts.region,
            None => None,
        }
    }

    /// The name of the memory region of a section, or no bytes where it is in none.
    pub fn region_name(&self, section: usize) -> &'a [u8]
        ensures { result.now ≡ or_empty ((shown_ground self.now).facts section).region }
    {
        match self.named_region(section) {
            Some(name) => name.bytes(),
            None => {
                let none: &[u8] = &[];
                none
            }
        }
    }

    /// The number of the memory region of a section, where it is in one.
    pub fn region_number(&self, section: usize) -> Option<usize>
        ensures { result ≡ region_in (shown_ground self.now) section }
    {
        match self.named_region(section) {
            Some(name) => self.scope.region_numbers.get(name),
            None => None,
        }
    }

    /// Where the memory region of a section stands, where it is in one.
    pub fn region(&self, section: usize) -> Option<Region>
        ensures { result ≡ region_at (shown_ground self.now).regions (region_in (shown_ground self.now) section) }
    {
        match self.region_number(section) {
            Some(number) => self.scope.regions.get(number).copied(),
            None => None,
        }
    }

    /// The name of a section, or no bytes where there is none of that number.
    pub fn section_name(&self, section: usize) -> &'a [u8]
        ensures { result.now ≡ ((shown_ground self.now).facts section).name }
    {
        match self.facts.get(section) {
            Some(facts) => facts.name.bytes(),
            None => {
                let none: &[u8] = &[];
                none
            }
        }
    }
}

/// What the rows of a table say of sections and chunks.
#[derive(Drop)]
pub struct Basis<'a> {
    /// What is said of each section.
    pub facts: Items<Facts<'a>>,
    /// The alignment of each section.
    pub alignments: Items<Alignment>,
    /// The rows of each chunk in their order.
    pub chunks: Chunks,
}

/// What the rows of a case say of its sections and chunks. Fails where memory runs out.
pub fn find_basis<'a>(
    alloc: Global,
    case: &Case<'a>,
    definitions: &Definitions<'a>,
) -> Result<Basis<'a>, NoMemory>
    requires { IsChecked (shown_case case.now) definitions.now }
    ensures { IfOk result (IsBasis (shown_case case.now)) }
{
    let rows = case.inputs.rows.as_slice();
    let fates = definitions.script_fates.fates.as_slice();
    let names = definitions.script_fates.names.as_slice();
    let sections = definitions.script_fates.sections.as_slice();
    let headers = definitions.script_fates.section_headers.as_slice();
    let facts = find_facts(alloc, sections, headers, rows, fates, names)?;
    let alignments = alignments_in(alloc, facts.as_slice())?;
    let chunks = find_chunks(alloc, rows, fates)?;
    Ok(Basis {
        facts,
        alignments,
        chunks,
    })
}

/// The ground of a case.
pub fn ground_on<'a, 'b>(
    alloc: Global,
    case: &Case<'b>,
    definitions: &'a Definitions<'b>,
    basis: &'a Basis<'b>,
) -> Ground<'a>
    requires checked { IsChecked (shown_case case.now) definitions.now }
    requires basis { IsBasis (shown_case case.now) basis.now }
    ensures ground { shown_ground result ≡ ground_of (shown_case case.now) (rows_at basis.now.chunks) }
    ensures facts { shown_all result.facts.now ≡ facts_of case.now.commands.now case.now.inputs.now }
{
    let names = &definitions.script_fates.names;
    let regions = &definitions.script_fates.regions;
    let scope = Scope {
        sections: names.as_slice(),
        section_numbers: names.numbers(),
        alignments: basis.alignments.as_slice(),
        symbols: &definitions.names,
        entries: definitions.entries.as_slice(),
        script: case.script,
        region_numbers: &regions.names,
        regions: regions.regions.as_slice(),
        segment_starts: case.options.segment_starts,
        header_size: case.options.header_size,
    };
    Ground {
        alloc,
        scope,
        facts: basis.facts.as_slice(),
        chunks: &basis.chunks,
    }
}
