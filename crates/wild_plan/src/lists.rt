//! Plans.

ghost use Rattle.std.specs.Prelude.{◌≡◌, ◌<◌, length, slice_get, Some, IfOk};
ghost use Rattle.wild_plan_spec.specs.Text.{plan_text};
ghost use Rattle.wild_plan.specs.Listed.{shown_lists};
ghost use Rattle.wild_plan_spec.specs.declared.placed.RowNames.{RowNames};

use sqlite_items::Items;
use std::alloc::Global;
use std::marker::Model;
use wild_base::{Name, NoMemory};
use wild_plan_spec::{
    PlacedInput, PlacedLocation, PlacedSection, PlacedSegment, PlacedSymbol, RowNames,
};
use wild_plan_text::lines_text;
use wild_script::LinkerScript;

/// What a plan lists beside its script.
#[derive(Debug, Drop)]
pub struct Lists {
    pub sections: Items<PlacedSection>,
    pub placements: Items<PlacedInput>,
    pub locations: Items<PlacedLocation>,
    pub segments: Items<PlacedSegment>,
    /// The segments are those of program headers.
    pub by_headers: bool,
    pub symbols: Items<PlacedSymbol>,
    pub names: Items<RowNames>,
}

/// A plan: the tree of its script, and what it lists.
#[derive(Debug, Drop)]
pub struct Plan {
    script: LinkerScript,
    lists: Lists,
}

impl Model for Plan {
    ghost use Rattle.std.specs.Coded.{codes};
    ghost use Rattle.wild_plan_spec.specs.Layout.{Layout};
    ghost use Rattle.wild_script_tree.specs.contracts.tree.Command as command;

    ghost Value = { Layout };

    ghost coded = { Prim.hlevel (codes, command.the_row.coded) };

    ghost view = { λ p. record { commands = p.script.commands; sections = p.lists.sections; placements = p.lists.placements; locations = p.lists.locations; segments = p.lists.segments; by_headers = p.lists.by_headers; symbols = p.lists.symbols; names = p.lists.names } };
}

impl Plan {
    /// A plan of these lists.
    pub(crate) fn new(script: LinkerScript, lists: Lists) -> Plan
        ensures { result ≡ shown_lists script.commands lists }
    {
        Plan { script, lists }
    }

    /// The tree of the script.
    pub fn script(&self) -> &LinkerScript
        ensures { result.now.commands ≡ self.now.commands }
    {
        &self.script
    }

    /// The sections, in order.
    pub fn sections(&self) -> &[PlacedSection]
        ensures { result.now ≡ self.now.sections }
    {
        self.lists.sections.as_slice()
    }

    /// Where each row of the table went, in table order.
    pub fn placements(&self) -> &[PlacedInput]
        ensures { result.now ≡ self.now.placements }
    {
        self.lists.placements.as_slice()
    }

    /// What each statement made of the location counter, in text order.
    pub fn locations(&self) -> &[PlacedLocation]
        ensures { result.now ≡ self.now.locations }
    {
        self.lists.locations.as_slice()
    }

    /// The segments: those of the program headers, in order; or else those of each kind, by their first sections, and the stack.
    pub fn segments(&self) -> &[PlacedSegment]
        ensures { result.now ≡ self.now.segments }
    {
        self.lists.segments.as_slice()
    }

    /// The symbols of the table in table order, then those of the script in text order.
    pub fn symbols(&self) -> &[PlacedSymbol]
        ensures { result.now ≡ self.now.symbols }
    {
        self.lists.symbols.as_slice()
    }

    /// The file of a row.
    pub fn row_file(&self, row: usize) -> &Name
        requires { row < length self.now.names }
        ensures { (names : RowNames) → slice_get self.now.names row ≡ Some names → result.now ≡ names.file }
    {
        &self.lists.names.as_slice()[row].file
    }

    /// The section name of a row.
    pub fn row_section(&self, row: usize) -> &Name
        requires { row < length self.now.names }
        ensures { (names : RowNames) → slice_get self.now.names row ≡ Some names → result.now ≡ names.«section» }
    {
        &self.lists.names.as_slice()[row].section
    }

    /// The plan as it is printed: a line for each section, then for each row, then for each location, then for each
    /// segment, then for each symbol. Without program headers the segments without sections have no line.
    pub fn plan_text(&self, alloc: Global) -> Result<Name, NoMemory>
        ensures { IfOk result (λ text. text ≡ plan_text self.now) }
    {
        lines_text(
            alloc,
            self.sections(),
            self.placements(),
            self.lists.names.as_slice(),
            self.locations(),
            self.segments(),
            self.lists.by_headers,
            self.symbols(),
        )
    }
}
