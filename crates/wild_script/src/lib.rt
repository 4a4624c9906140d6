//! Linker scripts as trees, and how they are read.
#![tactic(auto)]

mod entry;
mod format;
mod input;
mod inputs;
mod memory;
mod nesting;
mod outermost;
mod parse;
mod phdrs;
mod script;
mod sections;
mod tree;
mod version;
mod versions;
mod words;

pub use input::{InputFault, InputKind, InputVisitor, Modifiers};
pub use tree::LinkerScript;
pub use wild_expression::{AssertCommand, Expression, parse_expression};
pub use wild_reading::skip_comments_and_whitespace;
pub use wild_script_tree::{
    Command, ContentsCommand, Fill, Location, Matcher, MemoryRegion, OutputFormat, Phdr,
    ProvideSymbolDefinition, Section, SectionAttributes, SectionCommand, SectionPattern, Sections,
    SymbolAssignment,
};

#[cfg(test)]
mod tests;
#[cfg(test)]
mod walk_tests;
