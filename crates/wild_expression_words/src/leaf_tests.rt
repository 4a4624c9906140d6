use crate::identifiers::identifier;
use crate::literal::literal;
use crate::quotes::quoted_name;
use std::test::Fail;
use wild_reading::{Cursor, MAX_DEPTH};

// The value of a literal, and the position after it.
fn number(text: &[u8]) -> Option<(u64, usize)> {
    let mut cursor = Cursor::new(text, 0, MAX_DEPTH);
    match literal(&mut cursor) {
        Ok(value) => Some((value, cursor.position())),
        Err(_) => None,
    }
}

#[test]
fn literals(rt: HostRuntime) -> Result<(), Fail> {
    let cases: [(&str, &[u8], u64, usize); 11] = [
        ("zero", b"0", 0, 1),
        ("zero with a suffix", b"0K", 0, 2),
        ("a bracket after it", b"7)", 7, 1),
        ("white before a suffix", b"10 k", 10, 2),
        ("kibibytes", b"2k", 2048, 2),
        ("mebibytes", b"3M ", 3_145_728, 2),
        ("hexadecimal", b"0x10", 16, 4),
        ("letters of both cases", b"0XfF+", 255, 4),
        ("hexadecimal with a suffix", b"0x10K", 16_384, 5),
        ("the greatest", b"18446744073709551615", u64::MAX, 20),
        (
            "a product that wraps",
            b"18446744073709551615K",
            18_446_744_073_709_550_592,
            21,
        ),
    ];
    for (name, text, value, end) in cases {
        assert_eq!(rt; number(text), Some((value, end)), "{name}");
    }
    Ok(())
}

#[test]
fn no_literals(rt: HostRuntime) -> Result<(), Fail> {
    let cases: [(&str, &[u8]); 11] = [
        ("no bytes", b""),
        ("a zero first", b"010"),
        ("no hexadecimal digit", b"0xZ"),
        ("no digit after the x", b"0x"),
        ("a letter after it", b"12a"),
        ("2 ^ 64", b"18446744073709551616"),
        ("2 ^ 64, hexadecimal", b"0x10000000000000000"),
        ("a point after it", b"1."),
        ("two suffixes", b"1KK"),
        ("white first", b" 1"),
        ("a sign first", b"-1"),
    ];
    for (name, text) in cases {
        assert_eq!(rt; number(text), None, "{name}");
    }
    Ok(())
}

// The bytes of an identifier, or none.
fn word(text: &[u8]) -> &[u8] {
    let mut cursor = Cursor::new(text, 0, MAX_DEPTH);
    match identifier(&mut cursor) {
        Ok(token) => token.content(),
        Err(_) => b"",
    }
}

#[test]
fn identifiers(rt: HostRuntime) -> Result<(), Fail> {
    let cases: [(&str, &[u8], &[u8]); 7] = [
        ("a letter", b"a", b"a"),
        ("each kind of byte", b"_a.9Z-b", b"_a.9Z"),
        ("a point first", b".text)", b".text"),
        ("a point alone", b".", b"."),
        ("a digit first", b"9a", b""),
        ("no bytes", b"", b""),
        ("another byte first", b"$a", b""),
    ];
    for (name, text, expected) in cases {
        assert_eq!(rt; word(text), expected, "{name}");
    }
    Ok(())
}

// The bytes of a quoted name, or none.
fn quoted(text: &[u8]) -> &[u8] {
    let mut cursor = Cursor::new(text, 0, MAX_DEPTH);
    match quoted_name(&mut cursor) {
        Ok(token) => token.content(),
        Err(_) => b"",
    }
}

#[test]
fn quoted_names(rt: HostRuntime) -> Result<(), Fail> {
    let cases: [(&str, &[u8], &[u8]); 6] = [
        ("a letter", b"\"a\"", b"a"),
        ("bytes that end plain tokens", b"\" (\n\"b\"", b" (\n"),
        ("nothing in quotes", b"\"\"", b""),
        ("no quote that closes", b"\"a", b""),
        ("no quote first", b"a\"", b""),
        ("no bytes", b"", b""),
    ];
    for (name, text, expected) in cases {
        assert_eq!(rt; quoted(text), expected, "{name}");
    }
    Ok(())
}
