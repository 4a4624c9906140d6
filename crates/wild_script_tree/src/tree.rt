//! Commands, statements and sections of linker scripts.

use sqlite_items::{Boxed, Items};
use wild_expression_tree::{AssertCommand, Expression};
use wild_names::Name;

/// An outermost command, or one that stands in GROUP, INPUT or AS_NEEDED.
#[derive(Debug, Drop)]
pub enum Command {
    /// A file, or a library where it begins with `-l`.
    Arg(Name),
    /// What stands in GROUP or INPUT.
    Group(Items<Command>),
    /// What stands in AS_NEEDED.
    AsNeeded(Items<Command>),
    /// OUTPUT_ARCH
    Ignored,
    Sections(Sections),
    /// The symbol at which a program begins.
    Entry(Name),
    /// The bytes of a version script.
    Version(Name),
    /// `x = e`, or another operator
    SymbolDefinition { name: Name, value: Expression },
    /// `. = e`, or another operator
    SetLocation(Location),
    Provide(ProvideSymbolDefinition),
    Assert(AssertCommand),
    Memory(Items<MemoryRegion>),
    Phdrs(Items<Phdr>),
    OutputFormat(OutputFormat),
}

/// What is in SECTIONS.
#[derive(Debug, Drop)]
pub struct Sections {
    pub commands: Items<SectionCommand>,
}

/// A statement in SECTIONS.
#[derive(Debug, Drop)]
pub enum SectionCommand {
    Section(Boxed<Section>),
    /// `. = e;`, or another operator
    SetLocation(Location),
    Assert(AssertCommand),
    Provide(ProvideSymbolDefinition),
    /// `x = e;`, or another operator
    SymbolAssignment(SymbolAssignment),
}

/// An output section.
#[derive(Debug, Drop)]
pub struct Section {
    pub output_section_name: Name,
    pub commands: Items<ContentsCommand>,
    /// Of the ALIGN clause.
    pub alignment: Option<Expression>,
    /// What is before the colon.
    pub start_address_expression: Option<Expression>,
    /// The program headers that hold it, each after a colon.
    pub phdrs: Items<Name>,
    /// The load address, of the AT clause.
    pub at_address: Option<Expression>,
    /// The memory region, after `>`.
    pub region: Option<Name>,
    /// After `=`.
    pub fill: Option<Fill>,
    /// In brackets before the colon.
    pub attributes: Option<SectionAttributes>,
}

/// What kind of section it is said to be.
#[derive(Clone, Copy, Debug, PartialEq, Eq)]
pub enum SectionAttributes {
    Noload,
    Readonly,
    Dsect,
    Copy,
    Info,
    Overlay,
}

/// A statement in a section.
#[derive(Debug, Drop, PartialEq, Eq)]
pub enum ContentsCommand {
    Matcher(Matcher),
    /// `x = e`, or another operator
    SymbolAssignment(SymbolAssignment),
    Provide(ProvideSymbolDefinition),
    /// `. = e`, or another operator
    SetLocation(Location),
    Constructors,
    Assert(AssertCommand),
}

/// What collects input sections.
#[derive(Debug, Drop)]
pub struct Matcher {
    /// Written by KEEP.
    pub must_keep: bool,
    /// None is every file.
    pub input_file_pattern: Option<Name>,
    pub input_section_name_patterns: Items<SectionPattern>,
}

/// What the name of an input section must be.
#[derive(Debug, Drop, PartialEq, Eq)]
pub struct SectionPattern {
    pub name: Name,
    /// Its sections are in the order of their names.
    pub sorted: bool,
}

/// What the location counter becomes.
#[derive(Debug, Drop, PartialEq, Eq)]
pub struct Location {
    pub address: Expression,
}

/// What is between the inputs of a section.
#[derive(Debug, Drop, PartialEq, Eq)]
pub struct Fill {
    pub value: Expression,
}

/// A memory region of MEMORY.
#[derive(Debug, Drop, PartialEq, Eq)]
pub struct MemoryRegion {
    pub name: Name,
    pub origin: Expression,
    /// In bytes.
    pub length: Expression,
}

/// What a symbol becomes.
#[derive(Debug, Drop, PartialEq, Eq)]
pub struct SymbolAssignment {
    pub name: Name,
    pub expr: Expression,
}

/// What a symbol becomes where nothing else defines it.
#[derive(Debug, Drop, PartialEq, Eq)]
pub struct ProvideSymbolDefinition {
    pub name: Name,
    pub value: Expression,
    /// Written by PROVIDE_HIDDEN.
    pub hidden: bool,
}

/// A program header of PHDRS.
#[derive(Debug, Drop, PartialEq, Eq)]
pub struct Phdr {
    pub name: Name,
    pub ptype: Expression,
    pub flags: Option<Expression>,
    /// FILEHDR is among its words.
    pub has_filehdr: bool,
    /// PHDRS is among its words.
    pub has_phdrs: bool,
}

/// The names of output formats: one alone, or also one for each endianness.
#[derive(Debug, Drop, PartialEq, Eq)]
pub struct OutputFormat {
    pub default: Name,
    pub big: Option<Name>,
    pub little: Option<Name>,
}
