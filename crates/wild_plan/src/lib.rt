//! Placement plans: where a script puts each input section of a table.
#![tactic(auto)]

mod asking;
mod case;
mod check;
mod chunks;
mod definitions;
mod ends;
mod facts;
mod ground;
mod listing;
mod lists;
mod pipeline;
mod points;
mod segments;
mod symbols;
mod taken;
mod traits;
mod walk;

pub use lists::Plan;
pub use pipeline::plan;
pub use wild_plan_spec::{
    InputRow, InputRows, InputTable, Names, PlacedInput, PlacedLocation, PlacedSection,
    PlacedSegment, PlacedSymbol, PlanOptions, SectionIndexes, SymbolRow, SymbolRows,
};
pub use wild_plan_text::{address_text, fault_text, name_text};
