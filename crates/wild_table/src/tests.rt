use crate::flags::read_flags;
use crate::{TableFault, read_number, read_table};
use bitflags::Flags;
use std::alloc::{AllocError, Global};
use std::str;
use std::test::Fail;
use wild_names::{InputFlags, Name};
use wild_plan_spec::InputTable;

#[test]
fn numbers(rt: HostRuntime) {
    let cases: [(&str, &[u8], Option<u64>); 12] = [
        ("zero", b"0", Some(0)),
        ("two zeros", b"00", None),
        ("a zero before others", b"010", None),
        ("hexadecimal", b"0x10", Some(16)),
        ("digits of either case", b"0xfF", Some(255)),
        ("a capital X", b"0X1", None),
        ("a sign", b"+1", None),
        ("no digit", b"", None),
        ("the largest", b"18446744073709551615", Some(u64::MAX)),
        ("one above it", b"18446744073709551616", None),
        ("no hexadecimal digit", b"0x", None),
        (
            "hexadecimal zeros before others",
            b"0x00000000000000000001",
            Some(1),
        ),
    ];
    for (case, bytes, number) in cases {
        assert_eq!(rt; read_number(bytes), number, "{case}");
    }
}

#[test]
fn flags(rt: HostRuntime) {
    let cases: [(&str, &[u8], Option<u8>); 6] = [
        ("no letter", b"", Some(0)),
        ("two in another order", b"XA", Some(5)),
        ("all", b"AWXBTE", Some(63)),
        ("one twice", b"AA", None),
        ("one twice, apart", b"ETE", None),
        ("a small letter", b"a", None),
    ];
    for (case, letters, bits) in cases {
        let expected = bits.map(InputFlags::from_bits_retain);
        assert_eq!(rt; read_flags(letters), expected, "{case}");
    }
}

fn text_of(name: &Name) -> &str {
    str::from_utf8(name.bytes()).unwrap_or("?")
}

// All that a table says: a line for each row, and then one for each symbol.
fn shown(alloc: Global, inputs: &InputTable) -> Result<String, AllocError> {
    let mut lines = String::new(alloc);
    for row in inputs.rows.as_slice() {
        let file = text_of(&row.file);
        let section = text_of(&row.section);
        let size = row.size;
        let alignment = row.alignment;
        let bits = row.flags.bits();
        let line = format!(in alloc; "row {file} {section} {size} {alignment} {bits}\n")?;
        lines.push_str(line.as_str())?;
    }
    for symbol in inputs.symbols.as_slice() {
        let name = text_of(&symbol.name);
        let row = symbol.row;
        let offset = symbol.offset;
        let line = format!(in alloc; "symbol {name} {row} {offset}\n")?;
        lines.push_str(line.as_str())?;
    }
    Ok(lines)
}

const MIXED: &[u8] = b"symbol,last,1,0xFf,,
section,f.o,.a,3,2,A
symbol,first,0,7,,
section,\"a,b.o\",.text.x,0x10,16,XA
";

#[test]
fn tables(rt: HostRuntime) -> Result<(), Fail> {
    let alloc = rt.alloc();
    let cases: [(&str, &[u8], &str); 7] = [
        ("no bytes", b"", ""),
        ("empty lines", b"\n\r\n", ""),
        (
            "a byte order mark",
            b"\xef\xbb\xbfsection,f.o,.a,3,2,A\n",
            "row f.o .a 3 2 1\n",
        ),
        (
            "no newline at the end",
            b"symbol,x,0,0,,\nsection,f.o,.a,3,2,A",
            "row f.o .a 3 2 1\nsymbol x 0 0\n",
        ),
        (
            "symbols alone, of quoted empty fields too",
            b"symbol,x,0x10,0xfF,,\n\nsymbol,x,9,0,\"\",\"\"\n",
            "symbol x 16 255\nsymbol x 9 0\n",
        ),
        (
            "an empty name and the largest numbers",
            b"symbol,,18446744073709551615,18446744073709551615,,",
            "symbol  18446744073709551615 18446744073709551615\n",
        ),
        (
            "rows and symbols mixed",
            MIXED,
            "row f.o .a 3 2 1\nrow a,b.o .text.x 16 16 5\nsymbol last 1 255\nsymbol first 0 7\n",
        ),
    ];
    for (case, text, wanted) in cases {
        let inputs = read_table(alloc, text)?;
        assert_eq!(rt; shown(alloc, &inputs)?.as_str(), wanted, "{case}");
    }
    Ok(())
}

#[test]
fn bad_rows(rt: HostRuntime) {
    let cases: [(&str, &[u8], usize); 7] = [
        ("five fields", b"section,f.o,.a,3,2", 0),
        ("seven fields", b"section,f.o,.a,3,2,A,", 0),
        ("a capital letter", b"Section,f.o,.a,3,2,A", 0),
        ("no such kind", b"symbols,x,0,0,,", 0),
        (
            "a blank before a number",
            b"section,f.o,.a,3,2,A\nsection,f.o,.a, 3,2,A",
            1,
        ),
        (
            "a leading zero",
            b"symbol,x,0,0,,\nsection,f.o,.a,3,02,A\nx",
            1,
        ),
        ("a letter twice", b"section,f.o,.a,3,2,AA", 0),
    ];
    for (case, text, index) in cases {
        let refused = read_table(rt.alloc(), text).err();
        assert_eq!(rt; refused, Some(TableFault::BadRecord { index }), "{case}");
    }
}

#[test]
fn bad_symbols(rt: HostRuntime) {
    let cases: [(&str, &[u8], usize); 7] = [
        ("five fields", b"symbol,x,0,0,", 0),
        ("seven fields", b"symbol,x,0,0,,,", 0),
        ("a blank in an empty field", b"symbol,x,0,0, ,", 0),
        ("flags", b"section,f.o,.a,3,2,A\nsymbol,x,0,0,,A", 1),
        (
            "too large a number",
            b"symbol,x,0,18446744073709551616,,",
            0,
        ),
        ("no row", b"symbol,x,,0,,", 0),
        ("no digit", b"symbol,x,0,0,,\nsymbol,x,0x,0,,", 1),
    ];
    for (case, text, index) in cases {
        let refused = read_table(rt.alloc(), text).err();
        assert_eq!(rt; refused, Some(TableFault::BadRecord { index }), "{case}");
    }
}
