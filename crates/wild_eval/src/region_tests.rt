use crate::{Addresses, Evaluator, Scope};
use sqlite_items::Boxed;
use std::alloc::Global;
use std::test::Fail;
use wild_base::{Alignment, Name, NoMemory, SegmentName};
use wild_expression_tree::Expression;
use wild_numbering::Numbering;
use wild_value_spec::{DotSource, Point, Region};

type Tree = Boxed<Expression>;

const OUTSIDE: Point = Point {
    place: 0,
    dot: DotSource::Zero,
    section: None,
};

const INSIDE: Point = Point {
    place: 0,
    dot: DotSource::OfPlace,
    section: Some(0),
};

fn origin(alloc: Global, name: &[u8]) -> Result<Tree, NoMemory> {
    let name = Name::new(alloc, name)?;
    Ok(Boxed::new(alloc, Expression::Origin(name))?)
}

fn length(alloc: Global, name: &[u8]) -> Result<Tree, NoMemory> {
    let name = Name::new(alloc, name)?;
    Ok(Boxed::new(alloc, Expression::Length(name))?)
}

fn eight(alloc: Global) -> Result<Tree, NoMemory> {
    Ok(Boxed::new(alloc, Expression::Number(8))?)
}

fn missing(alloc: Global) -> Result<Tree, NoMemory> {
    let name = Name::new(alloc, b"none")?;
    Ok(Boxed::new(alloc, Expression::Symbol(name))?)
}

fn start(alloc: Global, segment: SegmentName, default: Tree) -> Result<Tree, NoMemory> {
    Ok(Boxed::new(alloc, Expression::SegmentStart(segment, default))?)
}

fn headers(alloc: Global) -> Result<Tree, NoMemory> {
    Ok(Boxed::new(alloc, Expression::SizeofHeaders)?)
}

// What is evaluated: `R` is the region there is, `S` one that is not. A start has the default 8, or a symbol that is not
// there.
#[derive(Clone, Copy)]
enum Sample {
    OriginR,
    OriginS,
    LengthR,
    LengthS,
    Text,
    TextOrMissing,
    Data,
    DataOrMissing,
    Unknown,
    Headers,
}

fn tree(alloc: Global, sample: Sample) -> Result<Tree, NoMemory> {
    match sample {
        Sample::OriginR => origin(alloc, b"R"),
        Sample::OriginS => origin(alloc, b"S"),
        Sample::LengthR => length(alloc, b"R"),
        Sample::LengthS => length(alloc, b"S"),
        Sample::Text => start(alloc, SegmentName::Text, eight(alloc)?),
        Sample::TextOrMissing => start(alloc, SegmentName::Text, missing(alloc)?),
        Sample::Data => start(alloc, SegmentName::Data, eight(alloc)?),
        Sample::DataOrMissing => start(alloc, SegmentName::Data, missing(alloc)?),
        Sample::Unknown => start(alloc, SegmentName::Unknown, eight(alloc)?),
        Sample::Headers => headers(alloc),
    }
}

// Section 0, `.a`, starts at 0x1000. Region `R` is 16 bytes from 0x100 on, a start is given for the segment of text alone,
// and the headers take 64 bytes.
fn read(alloc: Global, sample: Sample, point: Point) -> Result<Result<u64, u32>, NoMemory> {
    let tree = tree(alloc, sample)?;
    let mut addresses = Addresses::new(alloc);
    addresses.learn_start(0, 0x1000)?;
    let (section, region) = (Name::new(alloc, b".a")?, Name::new(alloc, b"R")?);
    let none = Numbering::new(alloc);
    let mut region_numbers = Numbering::new(alloc);
    region_numbers.push(alloc, &region)?;
    let scope = Scope {
        sections: &[&section],
        section_numbers: &none,
        alignments: &[Alignment::default()],
        symbols: &none,
        entries: &[],
        script: b"",
        region_numbers: &region_numbers,
        regions: &[Region {
            origin: 0x100,
            length: 16,
        }],
        segment_starts: [Some(0x40), None, None],
        header_size: 64,
    };
    let evaluator = Evaluator {
        alloc,
        scope: &scope,
        addresses: &addresses,
        statement: 7,
    };
    match evaluator.full(&mut evaluator.memo(), tree.get(), point) {
        Ok(number) => Ok(Ok(number)),
        Err(fault) => Ok(Err(fault.number())),
    }
}

#[test]
fn regions_and_segments(rt: HostRuntime) -> Result<(), Fail> {
    for (name, sample, wanted) in [
        ("ORIGIN", Sample::OriginR, Ok(0x100)),
        ("ORIGIN of no region", Sample::OriginS, Err(18)),
        ("LENGTH", Sample::LengthR, Ok(16)),
        ("LENGTH of no region", Sample::LengthS, Err(18)),
        ("a start that is given", Sample::Text, Ok(0x40)),
        ("its default is not read", Sample::TextOrMissing, Ok(0x40)),
        ("a start that is not given", Sample::Data, Ok(8)),
        ("its default is read", Sample::DataOrMissing, Err(26)),
        ("a segment of no name", Sample::Unknown, Ok(8)),
        ("SIZEOF_HEADERS", Sample::Headers, Ok(64)),
    ] {
        assert_eq!(rt; read(rt.alloc(), sample, OUTSIDE)?, wanted, "{name}");
    }
    Ok(())
}

#[test]
fn regions_and_segments_in_a_section(rt: HostRuntime) -> Result<(), Fail> {
    for (name, sample, wanted) in [
        ("ORIGIN is an address", Sample::OriginR, Ok(0x100)),
        (
            "LENGTH counts from the section's start",
            Sample::LengthR,
            Ok(0x1010),
        ),
        ("a start is an address", Sample::Text, Ok(0x40)),
        ("so is its default", Sample::Data, Ok(8)),
        (
            "SIZEOF_HEADERS counts from the section's start",
            Sample::Headers,
            Ok(0x1040),
        ),
    ] {
        assert_eq!(rt; read(rt.alloc(), sample, INSIDE)?, wanted, "{name}");
    }
    Ok(())
}
