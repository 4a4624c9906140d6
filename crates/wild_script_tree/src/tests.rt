use crate::copy::copy_commands;
use crate::equality::same_commands;
use crate::tree::{
    Command, ContentsCommand, Fill, Location, Matcher, Section, SectionAttributes, SectionCommand,
    SectionPattern, Sections,
};
use sqlite_items::{Boxed, Items};
use std::alloc::Global;
use std::test::Fail;
use wild_expression_tree::Expression;
use wild_names::{Name, NoMemory};

fn files(alloc: Global, names: &[u8]) -> Result<Items<Command>, NoMemory> {
    let mut all = Items::new(alloc);
    for byte in names {
        let name = Name::new(alloc, &[*byte])?;
        all.push(Command::Arg(name))?;
    }
    Ok(all)
}

fn matcher(alloc: Global, must_keep: bool) -> Result<Items<ContentsCommand>, NoMemory> {
    let mut patterns = Items::new(alloc);
    let name = Name::new(alloc, b".text*")?;
    patterns.push(SectionPattern { name, sorted: true })?;
    let mut contents = Items::new(alloc);
    contents.push(ContentsCommand::Matcher(Matcher {
        must_keep,
        input_file_pattern: Some(Name::new(alloc, b"a.o")?),
        input_section_name_patterns: patterns,
    }))?;
    contents.push(ContentsCommand::Constructors)?;
    Ok(contents)
}

fn section(alloc: Global, must_keep: bool, fill: u64) -> Result<Boxed<Section>, NoMemory> {
    let mut phdrs = Items::new(alloc);
    phdrs.push(Name::new(alloc, b"load")?)?;
    let section = Section {
        output_section_name: Name::new(alloc, b".text")?,
        commands: matcher(alloc, must_keep)?,
        alignment: Some(Expression::Number(8)),
        start_address_expression: None,
        phdrs,
        at_address: None,
        region: Some(Name::new(alloc, b"ram")?),
        fill: Some(Fill {
            value: Expression::Number(fill),
        }),
        attributes: Some(SectionAttributes::Noload),
    };
    Ok(Boxed::new(alloc, section)?)
}

fn sections(alloc: Global, must_keep: bool, fill: u64) -> Result<Command, NoMemory> {
    let mut commands = Items::new(alloc);
    commands.push(SectionCommand::SetLocation(Location {
        address: Expression::Number(0),
    }))?;
    let section = section(alloc, must_keep, fill)?;
    commands.push(SectionCommand::Section(section))?;
    Ok(Command::Sections(Sections { commands }))
}

// Commands that all differ.
fn sample(alloc: Global, index: usize) -> Result<Command, NoMemory> {
    match index {
        0 => Ok(Command::Group(files(alloc, b"")?)),
        1 => Ok(Command::Group(files(alloc, b"ab")?)),
        2 => Ok(Command::Group(files(alloc, b"ba")?)),
        3 => Ok(Command::AsNeeded(files(alloc, b"ab")?)),
        4 => Ok(Command::Ignored),
        5 => Ok(Command::Entry(Name::new(alloc, b"a")?)),
        6 => Ok(Command::Version(Name::new(alloc, b"a")?)),
        7 => sections(alloc, false, 1),
        8 => sections(alloc, true, 1),
        _ => sections(alloc, false, 2),
    }
}

fn samples(alloc: Global, index: usize) -> Result<Items<Command>, NoMemory> {
    let mut all = Items::new(alloc);
    all.push(sample(alloc, index)?)?;
    Ok(all)
}

#[test]
fn copies_and_others(rt: HostRuntime) -> Result<(), Fail> {
    let alloc = rt.alloc();
    for i in 0..10 {
        for j in 0..10 {
            let original = samples(alloc, i)?;
            let copy = copy_commands(alloc, original.as_slice())?;
            assert!(rt; same_commands(copy.as_slice(), original.as_slice()), "{i}");
            let other = samples(alloc, j)?;
            assert_eq!(rt;
                same_commands(copy.as_slice(), other.as_slice()),
                i == j,
                "{i} {j}"
            );
        }
    }
    Ok(())
}
