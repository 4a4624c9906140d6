use crate::readings::parse_expression;
use std::alloc::{AllocError, Global};
use std::test::Fail;
use wild_names::Fault;

// The position after the expression at the start, or where it is not read.
fn end(alloc: Global, text: &[u8]) -> Result<usize, Fault> {
    let (_expression, end) = parse_expression(alloc, text, 0)?;
    Ok(end)
}

fn syntax(position: usize) -> Result<usize, Fault> {
    Err(Fault::Syntax { position })
}

#[test]
fn operators(rt: HostRuntime) -> Result<(), Fail> {
    let cases: [(&str, &[u8], Result<usize, Fault>); 10] = [
        ("a ternary", b"a ? b : c", Ok(9)),
        ("a ternary without a colon", b"a ? b", syntax(5)),
        ("one comparison at most", b"1 < 2 < 3", Ok(6)),
        ("signs and white", b"- ! ~ 1", Ok(7)),
        ("no sign before an equal", b"!= 1", syntax(0)),
        ("a bar alone after a bar", b"a | | b", syntax(4)),
        ("an ampersand alone after one", b"a & & b", syntax(4)),
        ("shifts", b"1 <<2>> 3", Ok(9)),
        ("a comment", b"1 /* c */", syntax(3)),
        ("no bytes", b"", syntax(0)),
    ];
    for (name, text, expected) in cases {
        assert_eq!(rt; end(rt.alloc(), text), expected, "{name}");
    }
    Ok(())
}

#[test]
fn primaries(rt: HostRuntime) -> Result<(), Fail> {
    let cases: [(&str, &[u8], Result<usize, Fault>); 11] = [
        ("brackets and a semicolon", b" ( 1 ) ;", Ok(7)),
        ("the location counter", b". ( 1", Ok(2)),
        ("the size of headers", b"SIZEOF_HEADERS ", Ok(15)),
        ("its word before a bracket", b"SIZEOF_HEADERS(", syntax(14)),
        ("a call over a name", b"SIZEOF( .text ) + 1", Ok(19)),
        ("calls in calls", b"MIN(1, MAX(2, 3))", Ok(17)),
        ("one operand of two", b"MIN(1)", syntax(5)),
        ("an unknown call", b"foo(1)", syntax(3)),
        ("ALIGN over one", b"ALIGN(8)", Ok(8)),
        (
            "a segment",
            b"SEGMENT_START(\"text-segment\", 0x80)",
            Ok(35),
        ),
        (
            "a segment without a name",
            b"SEGMENT_START(\"\", 0x80)",
            syntax(15),
        ),
    ];
    for (name, text, expected) in cases {
        assert_eq!(rt; end(rt.alloc(), text), expected, "{name}");
    }
    Ok(())
}

#[test]
fn asserts(rt: HostRuntime) -> Result<(), Fail> {
    let open = Err(Fault::UnclosedComment { position: 12 });
    let cases: [(&str, &[u8], Result<usize, Fault>); 3] = [
        (
            "gaps",
            b"ASSERT ( /* c */ 1 # d\n, \"m\" ) /* e */ + 2",
            Ok(42),
        ),
        (
            "a comment after a number",
            b"ASSERT(1 /* c */, m)",
            syntax(10),
        ),
        ("a comment that does not end", b"ASSERT(1, m /* c", open),
    ];
    for (name, text, expected) in cases {
        assert_eq!(rt; end(rt.alloc(), text), expected, "{name}");
    }
    Ok(())
}

// The expression at the start as its derived text.
fn shown(alloc: Global, text: &[u8]) -> Result<String, AllocError> {
    let Ok((expression, _end)) = parse_expression(alloc, text, 0) else {
        return String::from_str(alloc, "none");
    };
    format!(in alloc; "{expression:?}")
}

#[test]
fn trees(rt: HostRuntime) -> Result<(), Fail> {
    let cases: [(&str, &[u8], &str); 4] = [
        (
            "&& binds tighter than ||",
            b"1 && 0 || 1",
            "LogicalOr(Boxed { inner: LogicalAnd(Boxed { inner: Number(1) }, Boxed { inner: Number(0) }) }, Boxed { inner: Number(1) })",
        ),
        (
            "& binds tighter than ==",
            b"0xFF & 0x0F == 0x0F",
            "Equal(Boxed { inner: BitwiseAnd(Boxed { inner: Number(255) }, Boxed { inner: Number(15) }) }, Boxed { inner: Number(15) })",
        ),
        (
            "a chain is grouped to the left",
            b"3 - 2 - 1",
            "Subtract(Boxed { inner: Subtract(Boxed { inner: Number(3) }, Boxed { inner: Number(2) }) }, Boxed { inner: Number(1) })",
        ),
        (
            "ALIGN has its value first",
            b"ALIGN(., 8)",
            "Align(Boxed { inner: Number(8) }, Some(Boxed { inner: LocationCounter }))",
        ),
    ];
    for (name, text, expected) in cases {
        assert_eq!(rt; shown(rt.alloc(), text)?.as_str(), expected, "{name}");
    }
    Ok(())
}

fn push_times(text: &mut Vec<u8>, piece: &[u8], count: usize) -> Result<(), AllocError> {
    for _ in 0..count {
        for byte in piece {
            text.push(*byte)?;
        }
    }
    Ok(())
}

// So many of one piece, a middle, and so many of another.
fn around(
    alloc: Global,
    before: &[u8],
    middle: &[u8],
    after_head: &[u8],
    count: usize,
) -> Result<Vec<u8>, AllocError> {
    let mut text = Vec::new(alloc);
    push_times(&mut text, before, count)?;
    push_times(&mut text, middle, 1)?;
    push_times(&mut text, after_head, count)?;
    Ok(text)
}

fn deep(position: usize) -> Result<usize, Fault> {
    Err(Fault::TooDeep { position })
}

#[test]
fn depths(rt: HostRuntime) -> Result<(), Fail> {
    let alloc = rt.alloc();
    let cases: [(&str, &[u8], &[u8], usize, Result<usize, Fault>); 8] = [
        ("signs", b"-", b"", 256, Ok(257)),
        ("a sign too many", b"-", b"", 257, deep(257)),
        ("brackets", b"(", b")", 256, Ok(513)),
        ("a bracket too many", b"(", b")", 257, deep(257)),
        ("sums", b"1+", b"", 256, Ok(513)),
        ("a sum too many", b"1+", b"", 257, deep(514)),
        ("a mebibyte of brackets", b"(", b"", 1_048_576, deep(257)),
        ("a mebibyte of sums", b"1+", b"", 524_288, deep(514)),
    ];
    for (name, before, after, count, expected) in cases {
        let text = around(alloc, before, b"1", after, count)?;
        assert_eq!(rt; end(alloc, text.as_slice()), expected, "{name}");
    }
    Ok(())
}
