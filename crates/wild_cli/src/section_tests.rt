//! Sections as people write them: their clauses, their contents, and what sees symbols.

use crate::tests::{Case, assert_faults, assert_texts};
use std::test::Fail;

#[test]
fn starts(rt: HostRuntime) -> Result<(), Fail> {
    let cases: [Case<'_>; 5] = [
        (
            "an expression",
            b"SECTIONS { .s 0x1000 : { x = 1 < 2; . = 0x100; } }",
            b"",
            b"section .s 0x0000000000001000 0x0000000000001000 0x0000000000000100 1 A - - -
location 2 0x0000000000001100
segment 0x00000001 4 - .s
symbol x 0x0000000000001001 .s default
",
        ),
        (
            "the last address",
            b"SECTIONS { .a 0xFFFFFFFFFFFFFFFE : { *(.a) } }",
            b"section,f.o,.a,1,1,A\n",
            b"section .a 0xfffffffffffffffe 0xfffffffffffffffe 0x0000000000000001 1 A - - -
input 0 0xfffffffffffffffe .a f.o .a
segment 0x00000001 4 - .a
",
        ),
        (
            "the counter",
            b"SECTIONS { . = 8; .a . + 1 : { } .b : ALIGN(4) { } }",
            b"",
            b"section .a 0x0000000000000009 0x0000000000000009 0x0000000000000000 1 A - - -
section .b 0x000000000000000c 0x000000000000000c 0x0000000000000000 4 A - - -
location 0 0x0000000000000008
segment 0x00000001 4 - .a,.b
",
        ),
        (
            "a start that is no multiple",
            b"SECTIONS { .a 3 : ALIGN(8) { *(.a) } }",
            b"section,f.o,.a,4,1,A\n",
            b"section .a 0x0000000000000003 0x0000000000000003 0x0000000000000004 8 A - - -
input 0 0x0000000000000003 .a f.o .a
segment 0x00000001 4 - .a
",
        ),
        (
            "a larger alignment of rows",
            b"SECTIONS { . = 1; .a : ALIGN(2) { *(.a) } }",
            b"section,f.o,.a,8,8,A\n",
            b"section .a 0x0000000000000008 0x0000000000000008 0x0000000000000008 8 A - - -
input 0 0x0000000000000008 .a f.o .a
location 0 0x0000000000000001
segment 0x00000001 4 - .a
",
        ),
    ];
    assert_texts(&rt, rt.alloc(), &cases)?;
    Ok(())
}

#[test]
fn loads(rt: HostRuntime) -> Result<(), Fail> {
    let cases: [Case<'_>; 2] = [
        (
            "its own start",
            b"SECTIONS { .a 0x10 : AT(ADDR(.a) + . + 1) { } }",
            b"",
            b"section .a 0x0000000000000010 0x0000000000000021 0x0000000000000000 1 A - - -
segment 0x00000001 4 - .a
",
        ),
        (
            "a symbol defined later",
            b"SECTIONS { .a : AT(x) { *(.a) } .b : AT(LOADADDR(.a) + SIZEOF(.a)) { } x = 0x4000; }",
            b"section,f.o,.a,4,1,A\n",
            b"section .a 0x0000000000000000 0x0000000000004000 0x0000000000000004 1 A - - -
section .b 0x0000000000000004 0x0000000000004004 0x0000000000000000 1 A - - -
input 0 0x0000000000000000 .a f.o .a
segment 0x00000001 4 - .a,.b
symbol x 0x0000000000004000 - default
",
        ),
    ];
    assert_texts(&rt, rt.alloc(), &cases)?;
    Ok(())
}

#[test]
fn faults_of_starts(rt: HostRuntime) -> Result<(), Fail> {
    let cases: [Case<'_>; 6] = [
        (
            "the start before the load",
            b"SECTIONS { .a 1 / 0 : AT(2 % 0) { } }",
            b"",
            b"fault 22 DivisionByZero statement=0\n",
        ),
        (
            "the load",
            b"SECTIONS { .a : AT(2 % 0) { } }",
            b"",
            b"fault 23 ModuloByZero statement=0\n",
        ),
        (
            "its own size",
            b"SECTIONS { .a : AT(SIZEOF(.a)) { } }",
            b"",
            b"fault 27 NotLaidOut statement=0 name=.a\n",
        ),
        (
            "its own load",
            b"SECTIONS { .a : AT(LOADADDR(.a)) { } }",
            b"",
            b"fault 27 NotLaidOut statement=0 name=.a\n",
        ),
        (
            "a row that does not fit",
            b"SECTIONS { .a 0xFFFFFFFFFFFFFFFE : { *(.a) } }",
            b"section,f.o,.a,2,1,A\n",
            b"fault 34 Overflow left=18446744073709551614 right=2\n",
        ),
        (
            "an end that shares",
            b"SECTIONS { .a 0x100 : { . = 0x10; } .b 0x108 : { . = 0x10; } }",
            b"",
            b"fault 32 Overlap first=.a second=.b\n",
        ),
    ];
    assert_faults(&rt, rt.alloc(), &cases)?;
    Ok(())
}

#[test]
fn floating(rt: HostRuntime) -> Result<(), Fail> {
    let cases: [Case<'_>; 5] = [
        (
            "marked INFO",
            b"SECTIONS { .a (INFO) : { *(.a) } .b : { *(.b) } }",
            b"section,f.o,.a,4,1,A\nsection,f.o,.b,4,1,A\n",
            b"section .a 0x0000000000000000 0x0000000000000000 0x0000000000000004 1 - - - -
section .b 0x0000000000000000 0x0000000000000000 0x0000000000000004 1 A - - -
input 0 0x0000000000000000 .a f.o .a
input 1 0x0000000000000000 .b f.o .b
segment 0x00000001 4 - .b
",
        ),
        (
            "not in memory",
            b"SECTIONS { .b : { *(.b) } .a : { *(.a) } .c : { . = 1; } }",
            b"section,f.o,.a,4,1,\nsection,f.o,.b,4,1,A\n",
            b"section .b 0x0000000000000000 0x0000000000000000 0x0000000000000004 1 A - - -
section .a 0x0000000000000000 0x0000000000000000 0x0000000000000004 1 - - - -
section .c 0x0000000000000004 0x0000000000000004 0x0000000000000001 1 A - - -
input 0 0x0000000000000000 .a f.o .a
input 1 0x0000000000000000 .b f.o .b
location 7 0x0000000000000005
segment 0x00000001 4 - .b
segment 0x00000001 4 - .c
",
        ),
        (
            "with a start",
            b"SECTIONS { .a 8 (DSECT) : { *(.a) } .b : { x = .; } }",
            b"section,f.o,.a,4,1,AWX\n",
            b"section .a 0x0000000000000008 0x0000000000000008 0x0000000000000004 1 WX - - -
section .b 0x0000000000000000 0x0000000000000000 0x0000000000000000 1 A - - -
input 0 0x0000000000000008 .a f.o .a
segment 0x00000001 4 - .b
symbol x 0x0000000000000000 .b default
",
        ),
        (
            "an orphan",
            b"SECTIONS {  }",
            b"section,f.o,.o,2,1,W\nsection,f.o,.a,1,1,A\n",
            b"section .o 0x0000000000000000 0x0000000000000000 0x0000000000000002 1 W - - -
section .a 0x0000000000000000 0x0000000000000000 0x0000000000000001 1 A - - -
input 0 0x0000000000000000 .o f.o .o
input 1 0x0000000000000000 .a f.o .a
segment 0x00000001 4 - .a
",
        ),
        (
            "some row in memory",
            b"SECTIONS { .a : { *(.a) } }",
            b"section,f.o,.a,4,1,\nsection,f.o,.a,1,1,A\n",
            b"section .a 0x0000000000000000 0x0000000000000000 0x0000000000000005 1 A - - -
input 0 0x0000000000000000 .a f.o .a
input 1 0x0000000000000004 .a f.o .a
segment 0x00000001 4 - .a
",
        ),
    ];
    assert_texts(&rt, rt.alloc(), &cases)?;
    Ok(())
}

#[test]
fn flags(rt: HostRuntime) -> Result<(), Fail> {
    let cases: [Case<'_>; 6] = [
        (
            "read only",
            b"SECTIONS { .a (READONLY) : { *(.a) } }",
            b"section,f.o,.a,1,1,AWX\n",
            b"section .a 0x0000000000000000 0x0000000000000000 0x0000000000000001 1 AX - - -
input 0 0x0000000000000000 .a f.o .a
segment 0x00000001 5 - .a
",
        ),
        (
            "not loaded",
            b"SECTIONS { .a (NOLOAD) : { *(.a) } }",
            b"section,f.o,.a,1,1,AW\n",
            b"section .a 0x0000000000000000 0x0000000000000000 0x0000000000000001 1 AWB - - -
input 0 0x0000000000000000 .a f.o .a
segment 0x00000001 6 - .a
",
        ),
        (
            "zeros",
            b"SECTIONS { .bss : { *(.bss) } }",
            b"section,f.o,.bss,8,8,AWB\n",
            b"section .bss 0x0000000000000000 0x0000000000000000 0x0000000000000008 8 AWB - - -
input 0 0x0000000000000000 .bss f.o .bss
segment 0x00000001 6 - .bss
",
        ),
        (
            "zeros and others",
            b"SECTIONS { .d : { *(.bss .a) } }",
            b"section,f.o,.bss,1,1,AWB\nsection,f.o,.a,1,1,A\n",
            b"section .d 0x0000000000000000 0x0000000000000000 0x0000000000000002 1 AW - - -
input 0 0x0000000000000000 .d f.o .bss
input 1 0x0000000000000001 .d f.o .a
segment 0x00000001 6 - .d
",
        ),
        (
            "thread-local",
            b"SECTIONS { .t : { *(.t) } }",
            b"section,f.o,.t,1,1,AWBT\n",
            b"section .t 0x0000000000000000 0x0000000000000000 0x0000000000000001 1 AWBT - - -
input 0 0x0000000000000000 .t f.o .t
segment 0x00000001 6 - .t
segment 0x00000007 4 - .t
",
        ),
        (
            "a fill",
            b"SECTIONS { .a : { } =0x90 .b : { } =0xFFFFFFFF }",
            b"",
            b"section .a 0x0000000000000000 0x0000000000000000 0x0000000000000000 1 A 00000090 - -
section .b 0x0000000000000000 0x0000000000000000 0x0000000000000000 1 A ffffffff - -
segment 0x00000001 4 - .a,.b
",
        ),
    ];
    assert_texts(&rt, rt.alloc(), &cases)?;
    Ok(())
}

#[test]
fn contents(rt: HostRuntime) -> Result<(), Fail> {
    let cases: [Case<'_>; 6] = [
        (
            "between matchers",
            b"SECTIONS { .a 0x10 : { s = .; *(.a) m = .; *(.b) e = .; } }",
            b"section,f.o,.a,4,1,A\nsection,f.o,.b,4,1,A\n",
            b"section .a 0x0000000000000010 0x0000000000000010 0x0000000000000008 1 A - - -
input 0 0x0000000000000010 .a f.o .a
input 1 0x0000000000000014 .a f.o .b
segment 0x00000001 4 - .a
symbol s 0x0000000000000010 .a default
symbol m 0x0000000000000014 .a default
symbol e 0x0000000000000018 .a default
",
        ),
        (
            "a row that joins by name stands last",
            b"SECTIONS { .a : { . = 0x10; x = .; } }",
            b"section,f.o,.a,4,1,A\n",
            b"section .a 0x0000000000000000 0x0000000000000000 0x0000000000000014 1 A - - -
input 0 0x0000000000000010 .a f.o .a
location 1 0x0000000000000010
segment 0x00000001 4 - .a
symbol x 0x0000000000000010 .a default
",
        ),
        (
            "ALIGN counts from the start",
            b"SECTIONS { .a 0x11 : { *(.a) . = ALIGN(8); } }",
            b"section,f.o,.a,4,1,A\n",
            b"section .a 0x0000000000000011 0x0000000000000011 0x0000000000000008 1 A - - -
input 0 0x0000000000000011 .a f.o .a
location 2 0x0000000000000019
segment 0x00000001 4 - .a
",
        ),
        (
            "an address",
            b"SECTIONS { .a 0x10 : { . = ADDR(.a) + 4; . += 4; } }",
            b"",
            b"section .a 0x0000000000000010 0x0000000000000010 0x0000000000000008 1 A - - -
location 1 0x0000000000000014
location 2 0x0000000000000018
segment 0x00000001 4 - .a
",
        ),
        (
            "provides",
            b"SECTIONS { .a 8 : { PROVIDE(p = .); PROVIDE_HIDDEN(h = p + 1); CONSTRUCTORS \"\" = 1 / 1; } }",
            b"",
            b"section .a 0x0000000000000008 0x0000000000000008 0x0000000000000000 1 A - - -
segment 0x00000001 4 - .a
symbol p 0x0000000000000008 .a default
symbol h 0x0000000000000009 .a hidden
",
        ),
        (
            "conditions",
            b"SECTIONS { .a 8 : { ASSERT(. == 0, m) ASSERT(ADDR(.a) == 0, m); } }",
            b"",
            b"section .a 0x0000000000000008 0x0000000000000008 0x0000000000000000 1 A - - -
segment 0x00000001 4 - .a
",
        ),
    ];
    assert_texts(&rt, rt.alloc(), &cases)?;
    Ok(())
}

#[test]
fn faults_of_contents(rt: HostRuntime) -> Result<(), Fail> {
    let cases: [Case<'_>; 9] = [
        (
            "back",
            b"SECTIONS { .a : { . = 8; . = 4; } }",
            b"",
            b"fault 31 MovesBack statement=2 from=8 to=4\n",
        ),
        (
            "the value before that",
            b"SECTIONS { .a : { . = 8; . = 4 / 0; } }",
            b"",
            b"fault 22 DivisionByZero statement=2\n",
        ),
        (
            "back before the start",
            b"SECTIONS { .z 0 : { } .a 8 : { . = ADDR(.z); } }",
            b"",
            b"fault 31 MovesBack statement=3 from=8 to=0\n",
        ),
        (
            "a symbol below the start",
            b"SECTIONS { .z 0 : { } .s 0x1000 : { x = ADDR(.z); y = x; } }",
            b"",
            b"fault 30 BeforeSection name=x\n",
        ),
        (
            "a condition, without the base",
            b"SECTIONS { .a 8 : { ASSERT(., \"m\") } }",
            b"",
            b"fault 36 AssertFailed line=1 message=m\n",
        ),
        (
            "a condition in the third line",
            b"SECTIONS {\n.s 0x1000 : {\nASSERT(0, \"m\") } }",
            b"",
            b"fault 36 AssertFailed line=3 message=m\n",
        ),
        (
            "a base that does not fit",
            b"SECTIONS { .a 0xFFFFFFFFFFFFFFFF : { x = 1; } }",
            b"",
            b"fault 34 Overflow left=1 right=18446744073709551615\n",
        ),
        (
            "an end that is not there yet",
            b"SECTIONS { .a : { . = SIZEOF(.a); } }",
            b"",
            b"fault 27 NotLaidOut statement=1 name=.a\n",
        ),
        (
            "a symbol twice",
            b"SECTIONS { .a : { x = 1; } .b : { x = 2; } }",
            b"",
            b"fault 15 DuplicateSymbol name=x\n",
        ),
    ];
    assert_faults(&rt, rt.alloc(), &cases)?;
    Ok(())
}

#[test]
fn placements(rt: HostRuntime) -> Result<(), Fail> {
    let cases: [Case<'_>; 6] = [
        (
            "a symbol",
            b"SECTIONS { . = base; .a : { *(.a) } } base = 0x4000;",
            b"section,f.o,.a,1,1,A\n",
            b"section .a 0x0000000000004000 0x0000000000004000 0x0000000000000001 1 A - - -
input 0 0x0000000000004000 .a f.o .a
location 0 0x0000000000004000
segment 0x00000001 4 - .a
symbol base 0x0000000000004000 - default
",
        ),
        (
            "a symbol of the counter outside",
            b"SECTIONS { . = base; .a : { *(.a) } } base = . + 0x4000;",
            b"section,f.o,.a,1,1,A\n",
            b"section .a 0x0000000000004000 0x0000000000004000 0x0000000000000001 1 A - - -
input 0 0x0000000000004000 .a f.o .a
location 0 0x0000000000004000
segment 0x00000001 4 - .a
symbol base 0x0000000000004000 - default
",
        ),
        (
            "a branch that is not taken",
            b"SECTIONS { . = 1 ? 0x10 : SIZEOF(.a); .a : { *(.a) } }",
            b"section,f.o,.a,1,1,A\n",
            b"section .a 0x0000000000000010 0x0000000000000010 0x0000000000000001 1 A - - -
input 0 0x0000000000000010 .a f.o .a
location 0 0x0000000000000010
segment 0x00000001 4 - .a
",
        ),
        (
            "a side that is not needed",
            b"SECTIONS { . = (0 && t) + 0x20; .a : { *(.a) } }",
            b"section,f.o,.a,1,1,A\nsymbol,t,0,0,,\n",
            b"section .a 0x0000000000000020 0x0000000000000020 0x0000000000000001 1 A - - -
input 0 0x0000000000000020 .a f.o .a
location 0 0x0000000000000020
segment 0x00000001 4 - .a
symbol t 0x0000000000000020 .a default
",
        ),
        (
            "whether it is defined",
            b"SECTIONS { . = DEFINED(t) + 0x10; .a : { *(.a) } }",
            b"section,f.o,.a,1,1,A\nsymbol,t,0,0,,\n",
            b"section .a 0x0000000000000011 0x0000000000000011 0x0000000000000001 1 A - - -
input 0 0x0000000000000011 .a f.o .a
location 0 0x0000000000000011
segment 0x00000001 4 - .a
symbol t 0x0000000000000011 .a default
",
        ),
        (
            "an ASSERT",
            b"SECTIONS { . = ASSERT(2 + 2, m); .a : { *(.a) } . = t + 8; }",
            b"section,f.o,.a,1,1,A\nsymbol,t,0,0,,\n",
            b"section .a 0x0000000000000004 0x0000000000000004 0x0000000000000001 1 A - - -
input 0 0x0000000000000004 .a f.o .a
location 0 0x0000000000000004
location 4 0x000000000000000c
segment 0x00000001 4 - .a
symbol t 0x0000000000000004 .a default
",
        ),
    ];
    assert_texts(&rt, rt.alloc(), &cases)?;
    Ok(())
}

#[test]
fn faults_of_placements(rt: HostRuntime) -> Result<(), Fail> {
    let cases: [Case<'_>; 7] = [
        (
            "a symbol of the table",
            b"SECTIONS { . = t + 0x10; .a : { *(.a) } }",
            b"section,f.o,.a,1,1,A\nsymbol,t,0,0,,\n",
            b"fault 27 NotLaidOut statement=0 name=t\n",
        ),
        (
            "the size of a section",
            b"SECTIONS { . = SIZEOF(.b); .b : { *(.b) } }",
            b"",
            b"fault 27 NotLaidOut statement=0 name=.b\n",
        ),
        (
            "the base of a symbol",
            b"SECTIONS { . = x; .a : { x = 4; } }",
            b"",
            b"fault 27 NotLaidOut statement=0 name=.a\n",
        ),
        (
            "the counter of a symbol, before its base",
            b"SECTIONS { . = x; .a 0x1000 : { x = .; } }",
            b"",
            b"fault 27 NotLaidOut statement=0 name=.\n",
        ),
        (
            "a condition",
            b"SECTIONS { . = ASSERT(0, m); }",
            b"",
            b"fault 36 AssertFailed line=1 message=m\n",
        ),
        (
            "no symbol",
            b"SECTIONS { . = none; }",
            b"",
            b"fault 26 UnknownSymbol name=none\n",
        ),
        (
            "itself",
            b"SECTIONS { . = a; a = b; b = a; }",
            b"",
            b"fault 28 SymbolCycle name=a\n",
        ),
    ];
    assert_faults(&rt, rt.alloc(), &cases)?;
    Ok(())
}

#[test]
fn checks(rt: HostRuntime) -> Result<(), Fail> {
    let cases: [Case<'_>; 9] = [
        (
            "no name, before the alignment",
            b"SECTIONS { \"\" : ALIGN(3) { } }",
            b"",
            b"fault 9 BadName statement=0\n",
        ),
        (
            "no alignment, before the fill",
            b"SECTIONS { .a : ALIGN(3) { } =1 / 0 }",
            b"",
            b"fault 10 BadAlignment statement=0 value=3\n",
        ),
        (
            "no constant",
            b"SECTIONS { .a : ALIGN(x) { } }",
            b"",
            b"fault 13 NotConstant statement=0\n",
        ),
        (
            "a divisor that is 0",
            b"SECTIONS { .a : { } .b : ALIGN(1 / 0) { } }",
            b"",
            b"fault 22 DivisionByZero statement=2\n",
        ),
        (
            "the fill, before the patterns",
            b"SECTIONS { .a : { *(**) } =0x100000000 }",
            b"",
            b"fault 11 BadFill statement=0 value=4294967296\n",
        ),
        (
            "no constant fill",
            b"SECTIONS { .a : { } =5 % 0 }",
            b"",
            b"fault 23 ModuloByZero statement=0\n",
        ),
        (
            "a statement of what is discarded",
            b"SECTIONS { /DISCARD/ : { *(**) x = 1; } }",
            b"",
            b"fault 7 BadDiscard statement=0\n",
        ),
        (
            "a clause of what is discarded",
            b"SECTIONS { .a : { } /DISCARD/ (NOLOAD) : { } }",
            b"",
            b"fault 7 BadDiscard statement=2\n",
        ),
        (
            "a section before its name twice",
            b"SECTIONS { .a : { } .a : ALIGN(0) { } }",
            b"",
            b"fault 10 BadAlignment statement=2 value=0\n",
        ),
    ];
    assert_faults(&rt, rt.alloc(), &cases)?;
    Ok(())
}

#[test]
fn headers_of_sections(rt: HostRuntime) -> Result<(), Fail> {
    let cases: [Case<'_>; 2] = [
        (
            "an unknown header",
            b"SECTIONS { .a : { } .b : { } :h }",
            b"",
            b"fault 19 UnknownPhdr name=h\n",
        ),
        (
            "a name before that",
            b"SECTIONS { \"\" : { } :h }",
            b"",
            b"fault 9 BadName statement=0\n",
        ),
    ];
    assert_faults(&rt, rt.alloc(), &cases)?;
    Ok(())
}
