//! A script, a table, and what is written.

use crate::tests::{Case, assert_faults, assert_texts, planned};
use std::alloc::{AllocError, Global};
use std::test::Fail;

const PLAN: &[u8] = b"section .a 0x0000000000000000 0x0000000000000000 0x0000000000000010 8 A - - -
section .d 0x0000000000000010 0x0000000000000010 0x0000000000000005 1 AX - - -
input 0 0x0000000000000004 .a f.o .a
input 1 0x0000000000000008 .a f.o .c
input 2 0x0000000000000000 .a f.o .b
input 3 0x0000000000000010 .d f.o .d
segment 0x00000001 4 - .a
segment 0x00000001 5 - .d
";

#[test]
fn plans(rt: HostRuntime) -> Result<(), Fail> {
    let cases: [Case<'_>; 2] = [
        (
            "exact names",
            b"SECTIONS { .a : { *(.a .b) *(.c) } .d : { *(.d) } }",
            b"section,f.o,.a,3,2,A\nsection,f.o,.c,4,8,A\nsection,f.o,.b,1,4,A\nsection,f.o,.d,5,1,AX\n",
            PLAN,
        ),
        ("an empty script", b"/*/", b"", b""),
    ];
    assert_texts(&rt, rt.alloc(), &cases)?;
    Ok(())
}

#[test]
fn faults(rt: HostRuntime) -> Result<(), Fail> {
    let cases: [Case<'_>; 4] = [
        ("no tree", b"SECTIONS", b"", b"fault 1 Syntax position=8\n"),
        (
            "two sections of one name",
            b"SECTIONS { .a : { } .a : { } }",
            b"",
            b"fault 14 DuplicateSection name=.a\n",
        ),
        (
            "an alignment that is no power of two",
            b"SECTIONS { .a : { *(.a) } }",
            b"section,f.o,.a,1,3,A\n",
            b"fault 5 BadRow row=0\n",
        ),
        (
            "an end that no alignment fits",
            b"SECTIONS { .a : { *(.a) } }",
            b"section,f.o,.a,18446744073709551615,2,A\n",
            b"fault 35 AlignOverflow value=18446744073709551615 align=2\n",
        ),
    ];
    assert_faults(&rt, rt.alloc(), &cases)?;
    Ok(())
}

const COUNTED: &[u8] =
    b"section .a 0x0000000000000010 0x0000000000000010 0x0000000000000004 4 A - - -
section .b 0x0000000000000008 0x0000000000000008 0x0000000000000002 1 A - - -
section .c 0x0000000000000020 0x0000000000000020 0x0000000000000000 1 A - - -
input 0 0x0000000000000010 .a f.o .a
input 1 0x0000000000000008 .b f.o .b
location 0 0x0000000000000010
location 4 0x0000000000000008
location 8 0x0000000000000020
segment 0x00000001 4 - .a,.b,.c
";

const LAST: &[u8] = b"section .a 0xfffffffffffffffe 0xfffffffffffffffe 0x0000000000000001 1 A - - -
input 0 0xfffffffffffffffe .a f.o .a
location 0 0xfffffffffffffffe
segment 0x00000001 4 - .a
";

#[test]
fn counters(rt: HostRuntime) -> Result<(), Fail> {
    let cases: [Case<'_>; 3] = [
        (
            "before, between and after sections",
            b"SECTIONS { . = 0x10; .a : { *(.a) } . -= 12; .b : { *(.b) } . = ALIGN(16) * 2; .c : { } }",
            b"section,f.o,.a,4,4,A\nsection,f.o,.b,2,1,A\n",
            COUNTED,
        ),
        (
            "up to the last address",
            b"SECTIONS { . = 0xFFFFFFFFFFFFFFFE; .a : { *(.a) } }",
            b"section,f.o,.a,1,1,A\n",
            LAST,
        ),
        (
            "from one SECTIONS to the next",
            b"SECTIONS { . = 1; } SECTIONS { . = . + 1; }",
            b"",
            b"location 0 0x0000000000000001\nlocation 1 0x0000000000000002\n",
        ),
    ];
    assert_texts(&rt, rt.alloc(), &cases)?;
    Ok(())
}

#[test]
fn addresses_that_do_not_fit(rt: HostRuntime) -> Result<(), Fail> {
    let cases: [Case<'_>; 3] = [
        (
            "two sections at one address",
            b"SECTIONS { . = 0x10; .a : { *(.a) } . = 0x10; .b : { *(.b) } }",
            b"section,f.o,.a,1,1,A\nsection,f.o,.b,1,1,A\n",
            b"fault 32 Overlap first=.a second=.b\n",
        ),
        (
            "the lowest two of three",
            b"SECTIONS { . = 8; .a : { *(.a) } . = 0; .b : { *(.b) } . = 2; .c : { *(.c) } }",
            b"section,f.o,.a,4,1,A\nsection,f.o,.b,4,1,A\nsection,f.o,.c,8,1,A\n",
            b"fault 32 Overlap first=.b second=.c\n",
        ),
        (
            "past the last address",
            b"SECTIONS { . = 0xFFFFFFFFFFFFFFFE; .a : { *(.a) } }",
            b"section,f.o,.a,2,1,A\n",
            b"fault 34 Overflow left=18446744073709551614 right=2\n",
        ),
    ];
    assert_faults(&rt, rt.alloc(), &cases)?;
    Ok(())
}

#[test]
fn counters_without_value(rt: HostRuntime) -> Result<(), Fail> {
    let cases: [Case<'_>; 4] = [
        (
            "no alignment",
            b"SECTIONS { . = ALIGN(0); }",
            b"",
            b"fault 24 AlignZero statement=0\n",
        ),
        (
            "a division by zero",
            b"SECTIONS { . = 1 / 0; }",
            b"",
            b"fault 22 DivisionByZero statement=0\n",
        ),
        (
            "a remainder by zero",
            b"SECTIONS { .a : { } . = 1 % 0; }",
            b"",
            b"fault 23 ModuloByZero statement=2\n",
        ),
        (
            "no such operator",
            b"SECTIONS { .a : { } . %= 0; }",
            b"",
            b"fault 1 Syntax position=22\n",
        ),
    ];
    assert_faults(&rt, rt.alloc(), &cases)?;
    Ok(())
}

const IDLE: &[u8] = b"section .a 0x0000000000000010 0x0000000000000010 0x0000000000000001 1 A - - -
input 0 0x0000000000000010 .a f.o .a
location 6 0x0000000000000010
segment 0x00000001 4 - .a
";

#[test]
fn commands_without_effect(rt: HostRuntime) -> Result<(), Fail> {
    let cases: [Case<'_>; 2] = [
        (
            "each has a place",
            b"GROUP(a.o -lc AS_NEEDED(b.o)) INPUT(c.o) ENTRY(x) VERSION { V { global: x; }; } OUTPUT_ARCH(arm) d.o
SECTIONS { . = 16; .a : { *(.a) } }",
            b"section,f.o,.a,1,1,A\n",
            IDLE,
        ),
        ("nothing but a word", b"a.o", b"", b""),
    ];
    assert_texts(&rt, rt.alloc(), &cases)?;
    Ok(())
}

#[test]
fn statements_after_them(rt: HostRuntime) -> Result<(), Fail> {
    let cases: [Case<'_>; 3] = [
        (
            "a symbol without value",
            b"INPUT(a.o) ENTRY(x) x = 1 / 0;",
            b"",
            b"fault 22 DivisionByZero statement=2\n",
        ),
        (
            "an ASSERT",
            b"a.o OUTPUT_ARCH(arm) GROUP(b.o c.o) ASSERT(1 % 0, m)",
            b"",
            b"fault 23 ModuloByZero statement=3\n",
        ),
        (
            "a counter",
            b"VERSION { V { local: *; }; } SECTIONS { .a : { } . = ALIGN(0); }",
            b"",
            b"fault 24 AlignZero statement=3\n",
        ),
    ];
    assert_faults(&rt, rt.alloc(), &cases)?;
    Ok(())
}

#[test]
fn bad_program_headers(rt: HostRuntime) -> Result<(), Fail> {
    let cases: [Case<'_>; 2] = [
        (
            "a type that is no constant",
            b"SECTIONS { .a : { *(.a) } } PHDRS { text x FLAGS(1 / 0); }",
            b"",
            b"fault 13 NotConstant statement=3\n",
        ),
        (
            "flags of five bytes",
            b"ENTRY(x) MEMORY { r : ORIGIN = 0, LENGTH = 16 } PHDRS { text PT_LOAD FLAGS(0x100000000); }",
            b"",
            b"fault 12 BadHeader index=0 value=4294967296\n",
        ),
    ];
    assert_faults(&rt, rt.alloc(), &cases)?;
    Ok(())
}

const FIRST: &[u8] = b"section .a 0x0000000000001000 0x0000000000001000 0x0000000000000004 4 A - - -
input 0 0x0000000000001000 .a f.o .a
location 0 0x0000000000001000
segment 0x00000001 4 - .a
symbol x 0x0000000000001004 - default
";

const NAMED: &[u8] = b"section .a 0x0000000000000010 0x0000000000000010 0x0000000000000008 8 A - - -
input 0 0x0000000000000010 .a f.o .a
location 0 0x0000000000000010
segment 0x00000001 4 - .a
symbol t 0x0000000000000012 .a default
symbol x 0x0000000000000013 - default
symbol h 0x0000000000000009 - hidden
symbol y 0x0000000000000028 - default
";

const NAMING: &[u8] = b"SECTIONS { . = 0x10; .a : { *(.a) } }
x = t + 1;
PROVIDE(t = 5);
PROVIDE_HIDDEN(h = DEFINED(t) + SIZEOF(.a) + SIZEOF(.none) + DEFINED(none));
PROVIDE(h = 1 / 0);
y = ALIGNOF(.a) + ADDR(.a) + LOADADDR(.a);";

const SIZED: &[u8] = b"section .b 0x0000000000000000 0x0000000000000000 0x0000000000000003 1 A - - -
input 0 0x0000000000000000 .b f.o .b
segment 0x00000001 4 - .b
symbol x 0x0000000000000003 - default
";

#[test]
fn symbols_of_sections(rt: HostRuntime) -> Result<(), Fail> {
    let cases: [Case<'_>; 3] = [
        (
            "the counter after a section",
            b"SECTIONS { . = 0x1000; .a : { *(.a) } x = .; }",
            b"section,f.o,.a,4,4,A\n",
            FIRST,
        ),
        (
            "a symbol of the table, and words of sections",
            NAMING,
            b"symbol,t,0,2,,\nsection,f.o,.a,4,8,A\n",
            NAMED,
        ),
        (
            "the size of a later section",
            b"SECTIONS { x = SIZEOF(.b); .b : { *(.b) } }",
            b"section,f.o,.b,3,1,A\n",
            SIZED,
        ),
    ];
    assert_texts(&rt, rt.alloc(), &cases)?;
    Ok(())
}

const DOUBLED: &[u8] = b"symbol s0 0x0000000000000001 - default
symbol s1 0x0000000000000002 - default
symbol s2 0x0000000000000004 - default
symbol s3 0x0000000000000008 - default
symbol s4 0x0000000000000010 - default
symbol s5 0x0000000000000020 - default
symbol s6 0x0000000000000040 - default
symbol s7 0x0000000000000080 - default
symbol s8 0x0000000000000100 - default
symbol s9 0x0000000000000200 - default
symbol s10 0x0000000000000400 - default
";

const DOUBLING: &[u8] =
    b"s0 = 1; s1 = s0 + s0; s2 = s1 + s1; s3 = s2 + s2; s4 = s3 + s3; s5 = s4 + s4;
s6 = s5 + s5; s7 = s6 + s6; s8 = s7 + s7; s9 = s8 + s8; s10 = s9 + s9;";

const OUTERMOST: &[u8] = b"location 0 0x0000000000000010
symbol x 0x0000000000004000 - default
symbol base 0x0000000000004000 - default
";

const COUNTING: &[u8] = b"location 0 0x0000000000000010
symbol x 0x0000000000000010 - default
symbol y 0x0000000000000010 - default
";

#[test]
fn symbols_of_symbols(rt: HostRuntime) -> Result<(), Fail> {
    let cases: [Case<'_>; 5] = [
        ("each twice the last", DOUBLING, b"", DOUBLED),
        (
            "the counter outside of SECTIONS is 0, wherever it is read from",
            b"SECTIONS { . = 16; x = base; } base = . + 0x4000;",
            b"",
            OUTERMOST,
        ),
        (
            "names without bytes",
            b"\"\" = 5; PROVIDE(\"\" = 1 / 0); . = 4; ASSERT(1, m)",
            b"",
            b"",
        ),
        (
            "the counter in and after SECTIONS",
            b"SECTIONS { . = 16; x = .; } y = . + x;",
            b"",
            COUNTING,
        ),
        (
            "provided where nothing else is",
            b"PROVIDE(x = 1 / 0); x = 1; SECTIONS { PROVIDE(y = x); PROVIDE_HIDDEN(x = 2); ASSERT(x == 1, m) }",
            b"",
            b"symbol x 0x0000000000000001 - default\nsymbol y 0x0000000000000001 - default\n",
        ),
    ];
    assert_texts(&rt, rt.alloc(), &cases)?;
    Ok(())
}

#[test]
fn cycles_of_symbols(rt: HostRuntime) -> Result<(), Fail> {
    let cases: [Case<'_>; 3] = [
        (
            "two that ask for each other",
            b"a = b; b = a;",
            b"",
            b"fault 28 SymbolCycle name=a\n",
        ),
        (
            "one that asks for itself",
            b"x += 1;",
            b"",
            b"fault 28 SymbolCycle name=x\n",
        ),
        (
            "a provided one that does",
            b"SECTIONS { PROVIDE(y = y); }",
            b"",
            b"fault 28 SymbolCycle name=y\n",
        ),
    ];
    assert_faults(&rt, rt.alloc(), &cases)?;
    Ok(())
}

#[test]
fn names_of_symbols(rt: HostRuntime) -> Result<(), Fail> {
    let cases: [Case<'_>; 3] = [
        (
            "an expression over two lines",
            b"x = 1\n-lfoo",
            b"",
            b"fault 26 UnknownSymbol name=lfoo\n",
        ),
        (
            "an unknown section",
            b"x = ADDR(.none);",
            b"",
            b"fault 25 UnknownSection name=.none\n",
        ),
        (
            "two of one name",
            b"x = 1; x = 2;",
            b"",
            b"fault 15 DuplicateSymbol name=x\n",
        ),
    ];
    assert_faults(&rt, rt.alloc(), &cases)?;
    Ok(())
}

#[test]
fn asserts(rt: HostRuntime) -> Result<(), Fail> {
    let cases: [Case<'_>; 4] = [
        (
            "on the first line",
            b"ASSERT(0, \"m\")",
            b"",
            b"fault 36 AssertFailed line=1 message=m\n",
        ),
        (
            "on the line of the bracket",
            b"SECTIONS {\nASSERT(1, a)\nASSERT\n(0, b) }",
            b"",
            b"fault 36 AssertFailed line=4 message=b\n",
        ),
        (
            "a region in a branch that is taken",
            b"ASSERT(0 || ORIGIN(r), m)",
            b"",
            b"fault 18 UnknownRegion name=r\n",
        ),
        (
            "after the symbols",
            b"ASSERT(0, m) x = 1 / 0;",
            b"",
            b"fault 22 DivisionByZero statement=1\n",
        ),
    ];
    assert_faults(&rt, rt.alloc(), &cases)?;
    Ok(())
}

const ABOVE: &[u8] = b"section,f.o,.a,4,1,A\nsymbol,x,0,5,,\n";

#[test]
fn symbols_of_the_table(rt: HostRuntime) -> Result<(), Fail> {
    let cases: [Case<'_>; 3] = [
        (
            "above the size of its row",
            b"SECTIONS { .a : { *(.a) } }",
            ABOVE,
            b"fault 6 BadSymbolRow symbol=0\n",
        ),
        (
            "of no row",
            b"",
            b"symbol,x,0,0,,\n",
            b"fault 6 BadSymbolRow symbol=0\n",
        ),
        (
            "of a name of the script",
            b"SECTIONS { .a : { *(.a) } x = 1; }",
            b"symbol,x,0,4,,\nsection,f.o,.a,4,1,A\n",
            b"fault 15 DuplicateSymbol name=x\n",
        ),
    ];
    assert_faults(&rt, rt.alloc(), &cases)?;
    Ok(())
}

#[test]
fn symbols_without_value(rt: HostRuntime) -> Result<(), Fail> {
    let cases: [Case<'_>; 3] = [
        (
            "of no region",
            b"SECTIONS { .a : { } } x = LENGTH(.a);",
            b"",
            b"fault 18 UnknownRegion name=.a\n",
        ),
        (
            "of a name without bytes",
            b"\"\" = ALIGN(0);",
            b"",
            b"fault 24 AlignZero statement=0\n",
        ),
        (
            "a counter outside SECTIONS",
            b". = 1 % 0; y = 1;",
            b"",
            b"fault 23 ModuloByZero statement=0\n",
        ),
    ];
    assert_faults(&rt, rt.alloc(), &cases)?;
    Ok(())
}

// `s0 = 1;`, and each next symbol as the one before it, up to this number.
fn chain(alloc: Global, last: usize) -> Result<String, AllocError> {
    let mut script = String::from_str(alloc, "s0 = 1;")?;
    for number in 0..last {
        let line = format!(in alloc; "s{} = s{number};", number + 1)?;
        script.push_str(line.as_str())?;
    }
    Ok(script)
}

// The same from the last one to the first.
fn backward_chain(alloc: Global, last: usize) -> Result<String, AllocError> {
    let mut script = String::new(alloc);
    for number in 0..last {
        let line = format!(in alloc; "s{} = s{};", last - number, last - number - 1)?;
        script.push_str(line.as_str())?;
    }
    script.push_str("s0 = 1;")?;
    Ok(script)
}

// What is printed for such a chain.
fn chain_text(alloc: Global, last: usize) -> Result<String, AllocError> {
    let mut text = String::new(alloc);
    for number in 0..=last {
        let line = format!(in alloc; "symbol s{number} 0x0000000000000001 - default\n")?;
        text.push_str(line.as_str())?;
    }
    Ok(text)
}

#[test]
fn longest_chain(rt: HostRuntime) -> Result<(), Fail> {
    let alloc = rt.alloc();
    let script = chain(alloc, 1023)?;
    let text = chain_text(alloc, 1023)?;
    let (answer, out, err) = planned(alloc, script.as_bytes(), b"")?;
    assert_eq!(rt; err.bytes(), b"".as_slice());
    assert_eq!(rt; answer, 0);
    assert_eq!(rt; out.bytes(), text.as_bytes());
    Ok(())
}

#[test]
fn chain_too_long(rt: HostRuntime) -> Result<(), Fail> {
    let alloc = rt.alloc();
    let script = chain(alloc, 1024)?;
    let (answer, out, err) = planned(alloc, script.as_bytes(), b"")?;
    assert_eq!(rt;
        err.bytes(),
        b"fault 29 DeepValue statement=1024\n".as_slice()
    );
    assert_eq!(rt; answer, 1);
    assert_eq!(rt; out.bytes(), b"".as_slice());
    Ok(())
}

#[test]
fn backward_chain_too_long(rt: HostRuntime) -> Result<(), Fail> {
    let alloc = rt.alloc();
    let script = backward_chain(alloc, 1024)?;
    let (answer, out, err) = planned(alloc, script.as_bytes(), b"")?;
    assert_eq!(rt; err.bytes(), b"fault 29 DeepValue statement=0\n".as_slice());
    assert_eq!(rt; answer, 1);
    assert_eq!(rt; out.bytes(), b"".as_slice());
    Ok(())
}

// `s0 = 1;`, and each next symbol as twice the one before it, up to this number.
fn doubled_chain(alloc: Global, last: usize) -> Result<String, AllocError> {
    let mut script = String::from_str(alloc, "s0 = 1;")?;
    for number in 0..last {
        let line = format!(in alloc; "s{} = s{number} + s{number};", number + 1)?;
        script.push_str(line.as_str())?;
    }
    Ok(script)
}

#[test]
fn symbols_doubled_forty_times(rt: HostRuntime) -> Result<(), Fail> {
    let alloc = rt.alloc();
    let script = doubled_chain(alloc, 40)?;
    let (answer, out, err) = planned(alloc, script.as_bytes(), b"")?;
    assert_eq!(rt; err.bytes(), b"".as_slice());
    assert_eq!(rt; answer, 0);
    assert!(rt;
        out.bytes()
            .ends_with(b"symbol s40 0x0000010000000000 - default\n")
    );
    Ok(())
}

const ORPHANS: &[u8] =
    b"section .b 0x0000000000000000 0x0000000000000000 0x0000000000000003 1 A - - -
section .a 0x0000000000000003 0x0000000000000003 0x0000000000000001 1 A - - -
input 0 0x0000000000000000 .b f.o .b
input 1 0x0000000000000003 .a f.o .a
input 2 0x0000000000000001 .b f.o .b
segment 0x00000001 4 - .b,.a
";

const JOINED: &[u8] =
    b"section .a 0x0000000000000000 0x0000000000000000 0x0000000000000004 4 A - - -
section .b 0x0000000000000004 0x0000000000000004 0x0000000000000003 1 A - - -
section .c 0x0000000000000008 0x0000000000000008 0x0000000000000008 8 AW - - -
input 0 0x0000000000000004 .b f.o .b
input 1 0x0000000000000000 .a f.o .a
discard 2 f.o -
input 3 0x0000000000000006 .b f.o .x
input 4 0x0000000000000008 .c f.o .c
discard 5 f.o .a
segment 0x00000001 4 - .a,.b
segment 0x00000001 6 - .c
symbol s 0x0000000000000005 .b default
symbol e 0x0000000000000008 - default
";

const EXCLUDED: &[u8] =
    b"section .a 0x0000000000000000 0x0000000000000000 0x0000000000000000 1 A - - -
discard 0 f.o .a
segment 0x00000001 4 - .a
";

const JOINING: &[u8] = b"section,f.o,.b,2,1,A
section,f.o,.a,4,4,A
section,f.o,,1,1,A
section,f.o,.x,1,1,A
section,f.o,.c,2,8,AW
section,f.o,.a,9,1,E
symbol,s,0,1,,
symbol,u,2,1,,
";

#[test]
fn fates(rt: HostRuntime) -> Result<(), Fail> {
    let cases: [Case<'_>; 3] = [
        (
            "orphans of one name",
            b"",
            b"section,f.o,.b,1,1,A\nsection,f.o,.a,1,1,A\nsection,f.o,.b,2,1,A\n",
            ORPHANS,
        ),
        (
            "excluded",
            b"SECTIONS { .a : { *(.a) } }",
            b"section,f.o,.a,4,1,AE\nsymbol,x,0,0,,\n",
            EXCLUDED,
        ),
        (
            "orphans among sections of the script",
            b"SECTIONS { .a : { } .b : { *(.x) *(.y) } } e = ADDR(.c);",
            JOINING,
            JOINED,
        ),
    ];
    assert_texts(&rt, rt.alloc(), &cases)?;
    Ok(())
}
