//! Copies of commands and of what is in them. They fail where memory runs out.

ghost use Rattle.std.specs.Prelude.{◌≡◌, IfOk};

use crate::tree::{
    Command, ContentsCommand, Fill, Location, Matcher, MemoryRegion, OutputFormat, Phdr,
    ProvideSymbolDefinition, Section, SectionCommand, SectionPattern, Sections, SymbolAssignment,
};
use sqlite_items::{Boxed, Items};
use std::alloc::Global;
use wild_expression_tree::Expression;
use wild_names::{Name, NoMemory};

// What stands in lists and options.
trait Part: Sized {
    fn copied(&self, alloc: Global) -> Result<Self, NoMemory>
        ensures { IfOk result (λ copy. copy ≡ self.now) };
}

fn copy_items<T: Part + Drop>(alloc: Global, items: &[T]) -> Result<Items<T>, NoMemory>
    ensures { IfOk result (λ copies. copies ≡ items.now) }
{
    let mut copies = Items::new(alloc);
    for item in items {
        let copy = item.copied(alloc)?;
        copies.push(copy)?;
    }
    Ok(copies)
}

fn copy_option<T: Part>(alloc: Global, option: &Option<T>) -> Result<Option<T>, NoMemory>
    ensures { IfOk result (λ copy. copy ≡ option.now) }
{
    match option {
        Some(part) => Ok(Some(part.copied(alloc)?)),
        None => Ok(None),
    }
}

impl Part for Name {
    fn copied(&self, alloc: Global) -> Result<Name, NoMemory> {
        self.copy(alloc)
    }
}

impl Part for Expression {
    fn copied(&self, alloc: Global) -> Result<Expression, NoMemory> {
        self.copy(alloc)
    }
}

impl Part for Fill {
    fn copied(&self, alloc: Global) -> Result<Fill, NoMemory> {
        self.copy(alloc)
    }
}

impl Part for SectionPattern {
    fn copied(&self, alloc: Global) -> Result<SectionPattern, NoMemory> {
        self.copy(alloc)
    }
}

impl Part for ContentsCommand {
    fn copied(&self, alloc: Global) -> Result<ContentsCommand, NoMemory> {
        self.copy(alloc)
    }
}

impl Part for SectionCommand {
    fn copied(&self, alloc: Global) -> Result<SectionCommand, NoMemory> {
        self.copy(alloc)
    }
}

impl Part for MemoryRegion {
    fn copied(&self, alloc: Global) -> Result<MemoryRegion, NoMemory> {
        self.copy(alloc)
    }
}

impl Part for Phdr {
    fn copied(&self, alloc: Global) -> Result<Phdr, NoMemory> {
        self.copy(alloc)
    }
}

impl Command {
    /// The same command once more.
    #[cycle(copies)]
    pub fn copy(&self, alloc: Global) -> Result<Command, NoMemory>
        ensures { IfOk result (λ copy. copy ≡ self.now) }
    {
        match self {
            Command::Arg(name) => Ok(Command::Arg(name.copy(alloc)?)),
            Command::Group(all) => Ok(Command::Group(copy_commands(alloc, all.as_slice())?)),
            Command::AsNeeded(all) => Ok(Command::AsNeeded(copy_commands(alloc, all.as_slice())?)),
            Command::Ignored => Ok(Command::Ignored),
            Command::Sections(sections) => Ok(Command::Sections(sections.copy(alloc)?)),
            Command::Entry(name) => Ok(Command::Entry(name.copy(alloc)?)),
            Command::Version(text) => Ok(Command::Version(text.copy(alloc)?)),
            Command::SymbolDefinition { name, value } => {
                let name = name.copy(alloc)?;
                let value = value.copy(alloc)?;
                Ok(Command::SymbolDefinition { name, value })
            }
            Command::SetLocation(location) => Ok(Command::SetLocation(location.copy(alloc)?)),
            Command::Provide(symbol) => Ok(Command::Provide(symbol.copy(alloc)?)),
            Command::Assert(command) => Ok(Command::Assert(command.copy(alloc)?)),
            Command::Memory(all) => Ok(Command::Memory(copy_items(alloc, all.as_slice())?)),
            Command::Phdrs(all) => Ok(Command::Phdrs(copy_items(alloc, all.as_slice())?)),
            Command::OutputFormat(format) => Ok(Command::OutputFormat(format.copy(alloc)?)),
        }
    }
}

/// The same commands once more.
#[cycle(copies)]
pub fn copy_commands(alloc: Global, commands: &[Command]) -> Result<Items<Command>, NoMemory>
    ensures { IfOk result (λ copies. copies ≡ commands.now) }
{
    let mut copies = Items::new(alloc);
    for command in commands {
        let copy = command.copy(alloc)?;
        copies.push(copy)?;
    }
    Ok(copies)
}

impl Sections {
    /// The same statements once more.
    pub fn copy(&self, alloc: Global) -> Result<Sections, NoMemory>
        ensures { IfOk result (λ copy. copy ≡ self.now) }
    {
        let commands = copy_items(alloc, self.commands.as_slice())?;
        Ok(Sections { commands })
    }
}

impl SectionCommand {
    /// The same statement once more.
    pub fn copy(&self, alloc: Global) -> Result<SectionCommand, NoMemory>
        ensures { IfOk result (λ copy. copy ≡ self.now) }
    {
        match self {
            SectionCommand::Section(section) => {
                let section = section.get().copy(alloc)?;
                Ok(SectionCommand::Section(Boxed::new(alloc, section)?))
            }
            SectionCommand::SetLocation(location) => {
                Ok(SectionCommand::SetLocation(location.copy(alloc)?))
            }
            SectionCommand::Assert(command) => Ok(SectionCommand::Assert(command.copy(alloc)?)),
            SectionCommand::Provide(symbol) => Ok(SectionCommand::Provide(symbol.copy(alloc)?)),
            SectionCommand::SymbolAssignment(symbol) => {
                Ok(SectionCommand::SymbolAssignment(symbol.copy(alloc)?))
            }
        }
    }
}

impl Section {
    /// The same section once more.
    pub fn copy(&self, alloc: Global) -> Result<Section, NoMemory>
        ensures { IfOk result (λ copy. copy ≡ self.now) }
    {
        Ok(Section {
            output_section_name: self.output_section_name.copy(alloc)?,
            commands: copy_items(alloc, self.commands.as_slice())?,
            alignment: copy_option(alloc, &self.alignment)?,
            start_address_expression: copy_option(alloc, &self.start_address_expression)?,
            phdrs: copy_items(alloc, self.phdrs.as_slice())?,
            at_address: copy_option(alloc, &self.at_address)?,
            region: copy_option(alloc, &self.region)?,
            fill: copy_option(alloc, &self.fill)?,
            attributes: self.attributes,
        })
    }
}

impl ContentsCommand {
    /// The same statement once more.
    pub fn copy(&self, alloc: Global) -> Result<ContentsCommand, NoMemory>
        ensures { IfOk result (λ copy. copy ≡ self.now) }
    {
        match self {
            ContentsCommand::Matcher(matcher) => {
                Ok(ContentsCommand::Matcher(matcher.copy(alloc)?))
            }
            ContentsCommand::SymbolAssignment(symbol) => {
                Ok(ContentsCommand::SymbolAssignment(symbol.copy(alloc)?))
            }
            ContentsCommand::Provide(symbol) => Ok(ContentsCommand::Provide(symbol.copy(alloc)?)),
            ContentsCommand::SetLocation(location) => {
                Ok(ContentsCommand::SetLocation(location.copy(alloc)?))
            }
            ContentsCommand::Constructors => Ok(ContentsCommand::Constructors),
            ContentsCommand::Assert(command) => Ok(ContentsCommand::Assert(command.copy(alloc)?)),
        }
    }
}

impl Matcher {
    /// The same matcher once more.
    pub fn copy(&self, alloc: Global) -> Result<Matcher, NoMemory>
        ensures { IfOk result (λ copy. copy ≡ self.now) }
    {
        let patterns = self.input_section_name_patterns.as_slice();
        Ok(Matcher {
            must_keep: self.must_keep,
            input_file_pattern: copy_option(alloc, &self.input_file_pattern)?,
            input_section_name_patterns: copy_items(alloc, patterns)?,
        })
    }
}

impl SectionPattern {
    /// The same pattern once more.
    pub fn copy(&self, alloc: Global) -> Result<SectionPattern, NoMemory>
        ensures { IfOk result (λ copy. copy ≡ self.now) }
    {
        Ok(SectionPattern {
            name: self.name.copy(alloc)?,
            sorted: self.sorted,
        })
    }
}

impl Location {
    /// The same location once more.
    pub fn copy(&self, alloc: Global) -> Result<Location, NoMemory>
        ensures { IfOk result (λ copy. copy ≡ self.now) }
    {
        Ok(Location {
            address: self.address.copy(alloc)?,
        })
    }
}

impl Fill {
    /// The same value once more.
    pub fn copy(&self, alloc: Global) -> Result<Fill, NoMemory>
        ensures { IfOk result (λ copy. copy ≡ self.now) }
    {
        Ok(Fill {
            value: self.value.copy(alloc)?,
        })
    }
}

impl MemoryRegion {
    /// The same region once more.
    pub fn copy(&self, alloc: Global) -> Result<MemoryRegion, NoMemory>
        ensures { IfOk result (λ copy. copy ≡ self.now) }
    {
        Ok(MemoryRegion {
            name: self.name.copy(alloc)?,
            origin: self.origin.copy(alloc)?,
            length: self.length.copy(alloc)?,
        })
    }
}

impl SymbolAssignment {
    /// The same assignment once more.
    pub fn copy(&self, alloc: Global) -> Result<SymbolAssignment, NoMemory>
        ensures { IfOk result (λ copy. copy ≡ self.now) }
    {
        Ok(SymbolAssignment {
            name: self.name.copy(alloc)?,
            expr: self.expr.copy(alloc)?,
        })
    }
}

impl ProvideSymbolDefinition {
    /// The same definition once more.
    pub fn copy(&self, alloc: Global) -> Result<ProvideSymbolDefinition, NoMemory>
        ensures { IfOk result (λ copy. copy ≡ self.now) }
    {
        Ok(ProvideSymbolDefinition {
            name: self.name.copy(alloc)?,
            value: self.value.copy(alloc)?,
            hidden: self.hidden,
        })
    }
}

impl Phdr {
    /// The same program header once more.
    pub fn copy(&self, alloc: Global) -> Result<Phdr, NoMemory>
        ensures { IfOk result (λ copy. copy ≡ self.now) }
    {
        Ok(Phdr {
            name: self.name.copy(alloc)?,
            ptype: self.ptype.copy(alloc)?,
            flags: copy_option(alloc, &self.flags)?,
            has_filehdr: self.has_filehdr,
            has_phdrs: self.has_phdrs,
        })
    }
}

impl OutputFormat {
    /// The same names once more.
    pub fn copy(&self, alloc: Global) -> Result<OutputFormat, NoMemory>
        ensures { IfOk result (λ copy. copy ≡ self.now) }
    {
        Ok(OutputFormat {
            default: self.default.copy(alloc)?,
            big: copy_option(alloc, &self.big)?,
            little: copy_option(alloc, &self.little)?,
        })
    }
}
