use super::*;
use std::alloc::Global;
use std::test::Fail;
use wild_base::{Alignment, Fault, InputFlags, Name, NoMemory, alignment};
use wild_plan_spec::{
    Names, PlacedInput, PlacedLocation, PlacedSection, PlacedSegment, PlacedSymbol, RowNames,
    SectionIndexes,
};

// ---- names and addresses

#[test]
fn names(rt: HostRuntime) -> Result<(), Fail> {
    let cases: [(&str, &[u8], &[u8]); 6] = [
        ("visible bytes", b".a$~", b".a$~"),
        ("a blank, a comma, a backslash", b" ,\\", b"\\x20\\x2c\\x5c"),
        ("bytes above the visible ones", b"\x7f\xff", b"\\x7f\\xff"),
        ("no bytes", b"", b"-"),
        ("a dash alone", b"-", b"\\x2d"),
        ("a dash among others", b"-a", b"-a"),
    ];
    for (case, name, text) in cases {
        let printed = name_text(rt.alloc(), name)?;
        assert_eq!(rt; printed.bytes(), text, "{case}");
    }
    Ok(())
}

#[test]
fn addresses(rt: HostRuntime) -> Result<(), Fail> {
    let cases: [(&str, u64, &[u8]); 3] = [
        ("the lowest", 0, b"0x0000000000000000"),
        ("letters", 0xab, b"0x00000000000000ab"),
        ("the highest", u64::MAX, b"0xffffffffffffffff"),
    ];
    for (case, address, text) in cases {
        let printed = address_text(rt.alloc(), address)?;
        assert_eq!(rt; printed.bytes(), text, "{case}");
    }
    Ok(())
}

// ---- lines of plans

fn section(
    alloc: Global,
    name: &[u8],
    alignment: Alignment,
    flags: InputFlags,
) -> Result<PlacedSection, NoMemory> {
    Ok(PlacedSection {
        name: Name::new(alloc, name)?,
        start: 0,
        load: 0x20,
        size: 0x10,
        alignment,
        flags,
        fill: None,
        region: None,
        headers: Names::new(alloc),
        counted: true,
    })
}

fn full_section(alloc: Global) -> Result<PlacedSection, NoMemory> {
    let mut section = section(alloc, b".b", alignment::MIN, InputFlags::WRITE)?;
    section.fill = Some(0xab);
    section.region = Some(Name::new(alloc, b"ram")?);
    section.headers.push(Name::new(alloc, b"text")?)?;
    section.headers.push(Name::new(alloc, b"-")?)?;
    Ok(section)
}

const SECTIONS: &str =
    "section .a 0x0000000000000000 0x0000000000000020 0x0000000000000010 8 A - - -
section .b 0x0000000000000000 0x0000000000000020 0x0000000000000010 1 W 000000ab ram text,\\x2d
";

#[test]
fn sections(rt: HostRuntime) -> Result<(), Fail> {
    let alloc = rt.alloc();
    let plain = section(alloc, b".a", alignment::USIZE, InputFlags::ALLOC)?;
    let sections = [plain, full_section(alloc)?];
    let text = lines_text(alloc, &sections, &[], &[], &[], &[], false, &[])?;
    assert_eq!(rt; text.bytes(), SECTIONS.as_bytes());
    Ok(())
}

fn row(alloc: Global, section: &[u8]) -> Result<RowNames, NoMemory> {
    Ok(RowNames {
        file: Name::new(alloc, b"f.o")?,
        section: Name::new(alloc, section)?,
    })
}

const ROWS: &str = "input 0 0x0000000000000004 .a f.o .text\ndiscard 1 f.o -\n";

#[test]
fn rows(rt: HostRuntime) -> Result<(), Fail> {
    let alloc = rt.alloc();
    let sections = [section(alloc, b".a", alignment::MIN, InputFlags::ALLOC)?];
    let kept = PlacedInput::Placed {
        section: 0,
        chunk: 1,
        address: 4,
    };
    let names = [row(alloc, b".text")?, row(alloc, b"")?];
    let lines = lines_text(alloc, &sections, &[], &[], &[], &[], false, &[])?;
    let placements = [kept, PlacedInput::Discarded];
    let text = lines_text(alloc, &sections, &placements, &names, &[], &[], false, &[])?;
    assert_eq!(rt; &text.bytes()[lines.len()..], ROWS.as_bytes());
    Ok(())
}

#[test]
fn locations(rt: HostRuntime) -> Result<(), Fail> {
    let location = PlacedLocation {
        statement: 3,
        address: 0x10,
    };
    let text = lines_text(rt.alloc(), &[], &[], &[], &[location], &[], false, &[])?;
    assert_eq!(rt; text.bytes(), b"location 3 0x0000000000000010\n".as_slice());
    Ok(())
}

fn segment(alloc: Global, name: &[u8], held: &[usize]) -> Result<PlacedSegment, NoMemory> {
    let mut sections = SectionIndexes::new(alloc);
    for index in held {
        sections.push(*index)?;
    }
    Ok(PlacedSegment {
        ptype: 0x6474_e551,
        flags: 6,
        name: Name::new(alloc, name)?,
        has_filehdr: false,
        has_phdrs: true,
        sections,
    })
}

const SEGMENTS: &str = "segment 0x6474e551 6 - .a,.b\nsegment 0x6474e551 6 s -\n";

#[test]
fn segments(rt: HostRuntime) -> Result<(), Fail> {
    let alloc = rt.alloc();
    let plain = section(alloc, b".a", alignment::USIZE, InputFlags::ALLOC)?;
    let sections = [plain, full_section(alloc)?];
    let lines = lines_text(alloc, &sections, &[], &[], &[], &[], false, &[])?;
    let segments = [segment(alloc, b"", &[0, 1])?, segment(alloc, b"s", &[])?];
    let text = lines_text(alloc, &sections, &[], &[], &[], &segments, true, &[])?;
    assert_eq!(rt; &text.bytes()[lines.len()..], SEGMENTS.as_bytes());
    let text = lines_text(alloc, &sections, &[], &[], &[], &segments, false, &[])?;
    assert_eq!(rt; &text.bytes()[lines.len()..], &SEGMENTS.as_bytes()[..29]);
    Ok(())
}

fn symbol(
    alloc: Global,
    name: &[u8],
    section: Option<usize>,
    hidden: bool,
) -> Result<PlacedSymbol, NoMemory> {
    Ok(PlacedSymbol {
        name: Name::new(alloc, name)?,
        address: 4,
        section,
        hidden,
    })
}

const SYMBOLS: &str =
    "symbol x 0x0000000000000004 .a default\nsymbol - 0x0000000000000004 - hidden\n";

#[test]
fn symbols(rt: HostRuntime) -> Result<(), Fail> {
    let alloc = rt.alloc();
    let sections = [section(alloc, b".a", alignment::MIN, InputFlags::ALLOC)?];
    let lines = lines_text(alloc, &sections, &[], &[], &[], &[], false, &[])?;
    let symbols = [
        symbol(alloc, b"x", Some(0), false)?,
        symbol(alloc, b"", None, true)?,
    ];
    let text = lines_text(alloc, &sections, &[], &[], &[], &[], false, &symbols)?;
    assert_eq!(rt; &text.bytes()[lines.len()..], SYMBOLS.as_bytes());
    Ok(())
}

// ---- faults

#[test]
fn faults(rt: HostRuntime) -> Result<(), Fail> {
    let alloc = rt.alloc();
    let cases: [(&str, Fault, &[u8]); 5] = [
        ("no field", Fault::NoMemory, b"fault 37 NoMemory"),
        (
            "a place",
            Fault::Syntax { position: 7 },
            b"fault 1 Syntax position=7",
        ),
        (
            "a place and a name",
            Fault::NotLaidOut {
                statement: 2,
                name: Name::new(alloc, b"-")?,
            },
            b"fault 27 NotLaidOut statement=2 name=\\x2d",
        ),
        (
            "a place and two numbers",
            Fault::MovesBack {
                statement: 2,
                from: 8,
                to: 4,
            },
            b"fault 31 MovesBack statement=2 from=8 to=4",
        ),
        ("the last number", Fault::NoMemory, b"fault 37 NoMemory"),
    ];
    for (case, fault, text) in cases {
        let printed = fault_text(alloc, &fault)?;
        assert_eq!(rt; printed.bytes(), text, "{case}");
    }
    Ok(())
}
