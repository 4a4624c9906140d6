//! Linker scripts as trees: their commands, statements and sections.
#![tactic(auto)]

mod copy;
mod equality;
mod matcher_equality;
mod tree;

pub use copy::copy_commands;
pub use equality::{equality_goes_by_levels, same_commands};
pub use tree::{
    Command, ContentsCommand, Fill, Location, Matcher, MemoryRegion, OutputFormat, Phdr,
    ProvideSymbolDefinition, Section, SectionAttributes, SectionCommand, SectionPattern, Sections,
    SymbolAssignment,
};
pub use wild_expression_tree::{AssertCommand, Expression};

#[cfg(test)]
mod tests;
