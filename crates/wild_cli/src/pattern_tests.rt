//! A script with patterns, a table, and what is written.

use crate::tests::{Case, assert_faults, assert_texts};
use std::test::Fail;

const FIRST_RULE: &[u8] =
    b"section .o 0x0000000000000000 0x0000000000000000 0x0000000000000004 4 A - - -
section .p 0x0000000000000004 0x0000000000000004 0x0000000000000002 2 AX - - -
section .q 0x0000000000000006 0x0000000000000006 0x0000000000000000 1 A - - -
input 0 0x0000000000000000 .o f.o .text.x
input 1 0x0000000000000004 .p f.o .text
segment 0x00000001 4 - .o
segment 0x00000001 5 - .p
segment 0x00000001 4 - .q
";

const FILES: &[u8] = b"section .a 0x0000000000000000 0x0000000000000000 0x0000000000000006 1 A - - -
section .b 0x0000000000000006 0x0000000000000006 0x0000000000000004 1 A - - -
input 0 0x0000000000000000 .a c.o .r
input 1 0x0000000000000006 .b d.o .r
input 2 0x0000000000000001 .a lib/c.o .s
input 3 0x0000000000000007 .b c.o .s
segment 0x00000001 4 - .a,.b
";

const ESCAPED: &[u8] =
    b"section .a 0x0000000000000000 0x0000000000000000 0x0000000000000003 1 A - - -
section .b 0x0000000000000003 0x0000000000000003 0x0000000000000004 1 A - - -
section fooxbar 0x0000000000000007 0x0000000000000007 0x0000000000000001 1 A - - -
section .mydata.10 0x0000000000000008 0x0000000000000008 0x0000000000000001 1 A - - -
section .text.bar.baz 0x0000000000000009 0x0000000000000009 0x0000000000000001 1 A - - -
input 0 0x0000000000000000 .a f.o foo*bar
input 1 0x0000000000000007 fooxbar f.o fooxbar
input 2 0x0000000000000003 .b f.o .mydata.5
input 3 0x0000000000000008 .mydata.10 f.o .mydata.10
input 4 0x0000000000000004 .b f.o .text.bar.foo
input 5 0x0000000000000009 .text.bar.baz f.o .text.bar.baz
input 6 0x0000000000000001 .a f.o foo*bar
input 7 0x0000000000000005 .b f.o .mydata.x
segment 0x00000001 4 - .a,.b,fooxbar,.mydata.10,.text.bar.baz
";

const NAMES: &[u8] = b"section,f.o,foo*bar,1,1,A
section,f.o,fooxbar,1,1,A
section,f.o,.mydata.5,1,1,A
section,f.o,.mydata.10,1,1,A
section,f.o,.text.bar.foo,1,1,A
section,f.o,.text.bar.baz,1,1,A
section,f.o,foo*bar,2,1,A
section,f.o,.mydata.x,2,1,A
";

#[test]
fn rules(rt: HostRuntime) -> Result<(), Fail> {
    let cases: [Case<'_>; 3] = [
        (
            "the first that matches",
            b"SECTIONS { .o : { *(.text.*) *(.text.x) } .p : { *(.t*) } .q : { *(.text) } }",
            b"section,f.o,.text.x,4,4,A\nsection,f.o,.text,2,2,AX\n",
            FIRST_RULE,
        ),
        (
            "files",
            b"SECTIONS { .a : { c.o(.r) */c.o(.s) } .b : { \"*\"(.r .s) } }",
            b"section,c.o,.r,1,1,A\nsection,d.o,.r,1,1,A\nsection,lib/c.o,.s,5,1,A\nsection,c.o,.s,3,1,A\n",
            FILES,
        ),
        (
            "escapes and classes",
            b"SECTIONS { .a : { *(foo\\*bar) } .b : { *(.mydata.[0-9x] .text.*.foo) } }",
            NAMES,
            ESCAPED,
        ),
    ];
    assert_texts(&rt, rt.alloc(), &cases)?;
    Ok(())
}

const SORTED: &[u8] =
    b"section .t 0x0000000000000000 0x0000000000000000 0x0000000000000008 4 A - - -
input 0 0x0000000000000004 .t f.o .t.b
input 1 0x0000000000000000 .t f.o .t.a
input 2 0x0000000000000000 .t f.o .u
segment 0x00000001 4 - .t
";

const MIXED: &[u8] = b"section .t 0x0000000000000000 0x0000000000000000 0x0000000000000016 8 A - - -
input 0 0x0000000000000012 .t f.o .t.b
input 1 0x0000000000000000 .t f.o .t.c
input 2 0x0000000000000010 .t f.o .t.a
input 3 0x0000000000000014 .t f.o .t.b
input 4 0x0000000000000008 .t f.o .u
input 5 0x000000000000000c .t f.o .v
segment 0x00000001 4 - .t
";

const BY_ALIGNMENT: &[u8] =
    b"section .t 0x0000000000000000 0x0000000000000000 0x0000000000000003 1 A - - -
input 0 0x0000000000000000 .t f.o .t.b
input 1 0x0000000000000001 .t f.o .t.a
input 2 0x0000000000000002 .t f.o .a
segment 0x00000001 4 - .t
";

const KEPT: &[u8] = b"section,f.o,.t.b,2,2,A
section,f.o,.t.c,8,8,A
section,f.o,.t.a,2,2,A
section,f.o,.t.b,2,2,A
section,f.o,.u,4,4,A
section,f.o,.v,4,4,A
";

#[test]
fn sorted_rules(rt: HostRuntime) -> Result<(), Fail> {
    let cases: [Case<'_>; 3] = [
        (
            "by name, after those that are not",
            b"SECTIONS { .t : { *(SORT(.t.*) .u) } }",
            b"section,f.o,.t.b,4,4,A\nsection,f.o,.t.a,4,4,A\nsection,f.o,.u,0,4,A\n",
            SORTED,
        ),
        (
            "within KEEP",
            b"SECTIONS { .t : { KEEP(*(.u SORT_BY_NAME(.t.*) .v)) } }",
            KEPT,
            MIXED,
        ),
        (
            "by alignment, which sorts nothing",
            b"SECTIONS { .t : { *(SORT_BY_ALIGNMENT(.t.*) .a) } }",
            b"section,f.o,.t.b,1,1,A\nsection,f.o,.t.a,1,1,A\nsection,f.o,.a,1,1,A\n",
            BY_ALIGNMENT,
        ),
    ];
    assert_texts(&rt, rt.alloc(), &cases)?;
    Ok(())
}

const DISCARDED: &[u8] =
    b"section .a 0x0000000000000000 0x0000000000000000 0x0000000000000001 1 A - - -
section .b 0x0000000000000001 0x0000000000000001 0x0000000000000001 1 A - - -
section /DISCARD/ 0x0000000000000004 0x0000000000000004 0x0000000000000004 4 A - - -
discard 0 f.o .note.x
input 1 0x0000000000000000 .a f.o .a
discard 2 f.o .d
input 3 0x0000000000000001 .b f.o .note.b
input 4 0x0000000000000004 /DISCARD/ f.o /DISCARD/
location 7 0x0000000000000001
segment 0x00000001 4 - .a,.b,/DISCARD/
";

const DISCARDING: &[u8] =
    b"SECTIONS { /DISCARD/ : { *(.note.[!b]) c.o(*) } .a : { *(.a) } . += 0; \"/DISCARD/\" : { *(.d) } .b : { *(.note.*) } }";

const NOTES: &[u8] = b"section,f.o,.note.x,1,1,A
section,f.o,.a,1,1,A
section,f.o,.d,9,4,B
section,f.o,.note.b,1,1,A
section,f.o,/DISCARD/,4,4,A
";

#[test]
fn discarding_rules(rt: HostRuntime) -> Result<(), Fail> {
    let cases: [Case<'_>; 1] = [("among sections", DISCARDING, NOTES, DISCARDED)];
    assert_texts(&rt, rt.alloc(), &cases)?;
    Ok(())
}

#[test]
fn bad_section_patterns(rt: HostRuntime) -> Result<(), Fail> {
    let cases: [Case<'_>; 4] = [
        (
            "two stars",
            b"SECTIONS { .a : { *(a**) } }",
            b"",
            b"fault 8 BadPattern statement=1 name=a**\n",
        ),
        (
            "an open class",
            b"SECTIONS { . = 0; .a : { *(.a) *(.b [x) } }",
            b"",
            b"fault 8 BadPattern statement=3 name=[x\n",
        ),
        (
            "a last backslash",
            b"SECTIONS { /DISCARD/ : { *(.a\\) } }",
            b"",
            b"fault 8 BadPattern statement=1 name=.a\\x5c\n",
        ),
        (
            "a nested sort",
            b"SECTIONS { .text : { *(SORT(SORT_BY_ALIGNMENT(.text.*))) } }",
            b"",
            b"fault 3 UnsupportedNestedSort position=28\n",
        ),
    ];
    assert_faults(&rt, rt.alloc(), &cases)?;
    Ok(())
}

#[test]
fn bad_file_patterns(rt: HostRuntime) -> Result<(), Fail> {
    let cases: [Case<'_>; 2] = [
        (
            "before that of the section",
            b"SECTIONS { .a : { x**(a**) } }",
            b"",
            b"fault 8 BadPattern statement=1 name=x**\n",
        ),
        (
            "of no section, and a later one",
            b"SECTIONS { .a : { x**() } .b : { \"\"(.b) } }",
            b"",
            b"fault 8 BadPattern statement=4 name=-\n",
        ),
    ];
    assert_faults(&rt, rt.alloc(), &cases)?;
    Ok(())
}

#[test]
fn order_of_faults(rt: HostRuntime) -> Result<(), Fail> {
    let cases: [Case<'_>; 4] = [
        (
            "a pattern, then program headers",
            b"SECTIONS { .a : { *(**) } } PHDRS { t PT_LOAD; }",
            b"",
            b"fault 8 BadPattern statement=1 name=**\n",
        ),
        (
            "program headers without type, then a pattern",
            b"PHDRS { t x; } SECTIONS { .a : { *(**) } }",
            b"",
            b"fault 8 BadPattern statement=2 name=**\n",
        ),
        (
            "a pattern, then a second section of one name",
            b"SECTIONS { .a : { } .a : { *(**) } }",
            b"",
            b"fault 8 BadPattern statement=3 name=**\n",
        ),
        (
            "a row, then a pattern",
            b"SECTIONS { .a : { *(**) } }",
            b"section,f.o,.a,1,3,A\n",
            b"fault 5 BadRow row=0\n",
        ),
    ];
    assert_faults(&rt, rt.alloc(), &cases)?;
    Ok(())
}
