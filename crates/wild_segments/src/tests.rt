use crate::*;
use bitflags::Flags;
use sqlite_items::Items;
use std::alloc::{AllocError, Global};
use std::str;
use std::test::Fail;
use wild_names::{Fault, InputFlags, Name, NoMemory};

// What the script says of where a section is.
#[derive(Clone, Copy, PartialEq, Eq)]
enum Mark {
    Plain,
    Starts,
    Floats,
}

// A section of a test: its flags, its region, and the headers that it names.
#[derive(Drop)]
struct Section {
    flags: InputFlags,
    region: Option<Name>,
    has_start: bool,
    counted: bool,
    headers: Vec<Name>,
}

// How a section is written: the letters of its flags, its region or nothing, its mark, and the
// headers that it names.
type Row<'a> = (&'a [u8], &'a [u8], Mark, &'a [&'a [u8]]);

fn flags_of(letters: &[u8]) -> InputFlags {
    let mut flags = InputFlags::from_bits_retain(0);
    for letter in letters {
        if let Some(flag) = InputFlags::of_letter(*letter) {
            flags.insert(flag);
        }
    }
    flags
}

fn region_of(alloc: Global, name: &[u8]) -> Result<Option<Name>, NoMemory> {
    if name.is_empty() {
        return Ok(None);
    }
    Ok(Some(Name::new(alloc, name)?))
}

fn section_of(alloc: Global, row: &Row<'_>) -> Result<Section, NoMemory> {
    let mut headers = Vec::new(alloc);
    for name in row.3 {
        headers.push(Name::new(alloc, name)?)?;
    }
    Ok(Section {
        flags: flags_of(row.0),
        region: region_of(alloc, row.1)?,
        has_start: row.2 == Mark::Starts,
        counted: row.2 != Mark::Floats,
        headers,
    })
}

fn member_of(section: &Section) -> SegmentMember<'_> {
    SegmentMember {
        flags: section.flags,
        counted: section.counted,
        region: section.region.as_ref(),
        has_start: section.has_start,
        headers: &section.headers,
    }
}

fn found(
    alloc: Global,
    partial: bool,
    headers: &[SegmentHeader<'_>],
    rows: &[Row<'_>],
) -> Result<Items<PlacedSegment>, Fault> {
    let mut sections = Vec::new(alloc);
    for row in rows {
        sections.push(section_of(alloc, row)?)?;
    }
    let mut members = Vec::new(alloc);
    for section in &sections {
        members.push(member_of(section))?;
    }
    find_segments(alloc, partial, headers, &members)
}

// The segments, each by its type, its flags, its name and its sections.
fn shown(alloc: Global, segments: &[PlacedSegment]) -> Result<String, AllocError> {
    let mut text = String::new(alloc);
    for segment in segments {
        let name = str::from_utf8(segment.name.bytes()).unwrap_or("?");
        write!(text, "{:x} {}{name}", segment.ptype, segment.flags)?;
        for number in segment.sections.as_slice() {
            write!(text, " {number}")?;
        }
        text.push_str("; ")?;
    }
    Ok(text)
}

#[test]
fn runs(rt: HostRuntime) -> Result<(), Fail> {
    let alloc = rt.alloc();
    let cases: [(&str, bool, &[Row<'_>], &str); 8] = [
        ("no section", false, &[], "6474e551 6; "),
        ("a partial link", true, &[(b"A", b"", Mark::Plain, &[])], ""),
        (
            "a firmware",
            false,
            &[
                (b"A", b"FLASH", Mark::Plain, &[]),
                (b"AX", b"FLASH", Mark::Plain, &[]),
                (b"AW", b"RAM", Mark::Plain, &[]),
                (b"AWB", b"RAM", Mark::Plain, &[]),
            ],
            "1 4 0; 1 5 1; 1 6 2 3; 6474e551 6; ",
        ),
        (
            "a start expression ends all",
            false,
            &[
                (b"AWT", b"", Mark::Plain, &[]),
                (b"AWT", b"", Mark::Starts, &[]),
            ],
            "1 6 0; 7 4 0; 1 6 1; 7 4 1; 6474e551 6; ",
        ),
        (
            "another region",
            false,
            &[
                (b"AW", b"RAM", Mark::Plain, &[]),
                (b"AW", b"TCM", Mark::Plain, &[]),
                (b"AW", b"", Mark::Plain, &[]),
            ],
            "1 6 0; 1 6 1; 1 6 2; 6474e551 6; ",
        ),
        (
            "a section that floats",
            false,
            &[
                (b"A", b"", Mark::Plain, &[]),
                (b"", b"", Mark::Floats, &[]),
                (b"A", b"", Mark::Plain, &[]),
            ],
            "1 4 0; 1 4 2; 6474e551 6; ",
        ),
        (
            "a section of another kind",
            false,
            &[
                (b"A", b"", Mark::Plain, &[]),
                (b"AWX", b"", Mark::Plain, &[]),
                (b"A", b"", Mark::Plain, &[]),
            ],
            "1 4 0; 1 5 1; 1 4 2; 6474e551 6; ",
        ),
        (
            "what each thread has of its own",
            false,
            &[
                (b"AW", b"", Mark::Plain, &[]),
                (b"AWT", b"", Mark::Plain, &[]),
                (b"AWTB", b"", Mark::Plain, &[]),
            ],
            "1 6 0 1 2; 7 4 1 2; 6474e551 6; ",
        ),
    ];
    for (case, partial, rows, wanted) in cases {
        let segments = found(alloc, partial, &[], rows)?;
        assert_eq!(rt;
            shown(alloc, segments.as_slice())?.as_str(),
            wanted,
            "{case}"
        );
    }
    Ok(())
}

#[test]
fn headers(rt: HostRuntime) -> Result<(), Fail> {
    let alloc = rt.alloc();
    let text = Name::new(alloc, b"text")?;
    let data = Name::new(alloc, b"data")?;
    let note = Name::new(alloc, b"note")?;
    let headers = [
        SegmentHeader {
            name: &data,
            ptype: 1,
            flags: Some(6),
            has_filehdr: true,
            has_phdrs: false,
        },
        SegmentHeader {
            name: &text,
            ptype: 1,
            flags: None,
            has_filehdr: false,
            has_phdrs: true,
        },
        SegmentHeader {
            name: &note,
            ptype: 4,
            flags: None,
            has_filehdr: false,
            has_phdrs: false,
        },
    ];
    let rows: [Row<'_>; 5] = [
        (b"AX", b"", Mark::Plain, &[b"text"]),
        (b"AWX", b"", Mark::Starts, &[b"data"]),
        (b"A", b"", Mark::Floats, &[b"text", b"data"]),
        (b"AW", b"", Mark::Plain, &[b"NONE", b"text"]),
        (b"AW", b"", Mark::Plain, &[]),
    ];
    let segments = found(alloc, true, &headers, &rows)?;
    let wanted = "1 6data 1 2; 1 7text 0 2 3; 4 4note; ";
    assert_eq!(rt; shown(alloc, segments.as_slice())?.as_str(), wanted);
    for (number, segment) in segments.as_slice().iter().enumerate() {
        assert!(rt; segment.has_filehdr == (number == 0));
        assert!(rt; segment.has_phdrs == (number == 1));
    }
    Ok(())
}

// How many segments there are where so many sections each start one, or the fault's number.
fn count(alloc: Global, sections: usize) -> Result<usize, u32> {
    let row: Row<'_> = (b"A", b"", Mark::Starts, &[]);
    let Ok(section) = section_of(alloc, &row) else {
        return Err(37);
    };
    let mut members = Vec::new(alloc);
    for _ in 0..sections {
        if members.push(member_of(&section)).is_err() {
            return Err(37);
        }
    }
    match find_segments(alloc, false, &[], &members) {
        Ok(segments) => Ok(segments.len()),
        Err(fault) => Err(fault.number()),
    }
}

#[test]
fn room(rt: HostRuntime) {
    assert_eq!(rt; count(rt.alloc(), 255), Ok(256));
    assert_eq!(rt; count(rt.alloc(), 256), Err(21));
}
