//! Program headers and segments.

use crate::Tray;
use crate::tests::{Case, assert_faults, assert_texts, planned, planned_for};
use std::alloc::Global;
use std::fmt::Write;
use std::test::Fail;
use wild_names::NoMemory;

#[test]
fn program_headers(rt: HostRuntime) -> Result<(), Fail> {
    let cases: [Case<'_>; 4] = [
        (
            "each holds the sections that name it",
            b"PHDRS { headers PT_PHDR PHDRS; text PT_LOAD FILEHDR PHDRS FLAGS(5); data 1; none 4; }
SECTIONS { .a : { *(.a) } :text .b : { *(.b) } /DISCARD/ : { } .c : { *(.c) } :data :none .d : { *(.d) } :NONE }
",
            b"section,f.o,.a,4,4,AX\nsection,f.o,.b,4,4,A\nsection,f.o,.c,4,4,AW\nsection,f.o,.d,4,4,A\nsection,f.o,.e,4,4,AW\n",
            b"section .a 0x0000000000000000 0x0000000000000000 0x0000000000000004 4 AX - - text
section .b 0x0000000000000004 0x0000000000000004 0x0000000000000004 4 A - - text
section .c 0x0000000000000008 0x0000000000000008 0x0000000000000004 4 AW - - data,none
section .d 0x000000000000000c 0x000000000000000c 0x0000000000000004 4 A - - NONE
section .e 0x0000000000000010 0x0000000000000010 0x0000000000000004 4 AW - - -
input 0 0x0000000000000000 .a f.o .a
input 1 0x0000000000000004 .b f.o .b
input 2 0x0000000000000008 .c f.o .c
input 3 0x000000000000000c .d f.o .d
input 4 0x0000000000000010 .e f.o .e
segment 0x00000006 4 headers -
segment 0x00000001 5 text .a,.b
segment 0x00000001 6 data .c
segment 0x00000004 6 none .c
",
        ),
        (
            "taken over in one SECTIONS alone",
            b"PHDRS { h 1; } SECTIONS { .a : { } :h } SECTIONS { .b : { } .c (INFO) : { } :h }",
            b"",
            b"section .a 0x0000000000000000 0x0000000000000000 0x0000000000000000 1 A - - h
section .b 0x0000000000000000 0x0000000000000000 0x0000000000000000 1 A - - -
section .c 0x0000000000000000 0x0000000000000000 0x0000000000000000 1 - - - h
segment 0x00000001 4 h .a,.c
",
        ),
        (
            "the last PHDRS",
            b"PHDRS { h 1; h 1; } PHDRS { g 2 FLAGS(7); NONE 3; } SECTIONS { .a : { } :g .b : { } :NONE }",
            b"",
            b"section .a 0x0000000000000000 0x0000000000000000 0x0000000000000000 1 A - - g
section .b 0x0000000000000000 0x0000000000000000 0x0000000000000000 1 A - - NONE
segment 0x00000002 7 g .a
segment 0x00000003 4 NONE .b
",
        ),
        (
            "without headers as none",
            b"PHDRS { h 1; } PHDRS { } SECTIONS { .a : { } }",
            b"",
            b"section .a 0x0000000000000000 0x0000000000000000 0x0000000000000000 1 A - - -
segment 0x00000001 4 - .a
",
        ),
    ];
    assert_texts(&rt, rt.alloc(), &cases)?;
    Ok(())
}

#[test]
fn runs_of_sections(rt: HostRuntime) -> Result<(), Fail> {
    let cases: [Case<'_>; 4] = [
        (
            "the first plan",
            b"SECTIONS { . = 0x1000; .a : { *(.a) } x = .; }",
            b"section,f.o,.a,4,4,A\n",
            b"section .a 0x0000000000001000 0x0000000000001000 0x0000000000000004 4 A - - -
input 0 0x0000000000001000 .a f.o .a
location 0 0x0000000000001000
segment 0x00000001 4 - .a
symbol x 0x0000000000001004 - default
",
        ),
        (
            "a start expression ends all",
            b"SECTIONS { .a : { } .b : { } .c . : { } .d : { } }",
            b"",
            b"section .a 0x0000000000000000 0x0000000000000000 0x0000000000000000 1 A - - -
section .b 0x0000000000000000 0x0000000000000000 0x0000000000000000 1 A - - -
section .c 0x0000000000000000 0x0000000000000000 0x0000000000000000 1 A - - -
section .d 0x0000000000000000 0x0000000000000000 0x0000000000000000 1 A - - -
segment 0x00000001 4 - .a,.b
segment 0x00000001 4 - .c,.d
",
        ),
        (
            "regions",
            b"MEMORY { R : o = 0, l = 9 S : o = 9, l = 9 } SECTIONS { .a : { } > R .b : { } > R .c : { } > S .d : { } }",
            b"",
            b"section .a 0x0000000000000000 0x0000000000000000 0x0000000000000000 1 A - R -
section .b 0x0000000000000000 0x0000000000000000 0x0000000000000000 1 A - R -
section .c 0x0000000000000009 0x0000000000000009 0x0000000000000000 1 A - S -
section .d 0x0000000000000009 0x0000000000000009 0x0000000000000000 1 A - - -
segment 0x00000001 4 - .a,.b
segment 0x00000001 4 - .c
segment 0x00000001 4 - .d
",
        ),
        (
            "kinds",
            b"SECTIONS { .a : { *(.a) } .b : { *(.b) } .c : { *(.c) } .d : { *(.d) } .e (INFO) : { *(.e) } .f : { *(.f) } }",
            b"section,f.o,.a,1,1,AWT\nsection,f.o,.b,1,1,AWBT\nsection,f.o,.c,1,1,AWX\nsection,f.o,.d,1,1,AX\nsection,f.o,.e,1,1,AX\nsection,f.o,.f,1,1,AX\n",
            b"section .a 0x0000000000000000 0x0000000000000000 0x0000000000000001 1 AWT - - -
section .b 0x0000000000000001 0x0000000000000001 0x0000000000000001 1 AWBT - - -
section .c 0x0000000000000002 0x0000000000000002 0x0000000000000001 1 AWX - - -
section .d 0x0000000000000003 0x0000000000000003 0x0000000000000001 1 AX - - -
section .e 0x0000000000000000 0x0000000000000000 0x0000000000000001 1 X - - -
section .f 0x0000000000000004 0x0000000000000004 0x0000000000000001 1 AX - - -
input 0 0x0000000000000000 .a f.o .a
input 1 0x0000000000000001 .b f.o .b
input 2 0x0000000000000002 .c f.o .c
input 3 0x0000000000000003 .d f.o .d
input 4 0x0000000000000000 .e f.o .e
input 5 0x0000000000000004 .f f.o .f
segment 0x00000001 6 - .a,.b
segment 0x00000007 4 - .a,.b
segment 0x00000001 5 - .c,.d
segment 0x00000001 5 - .f
",
        ),
    ];
    assert_texts(&rt, rt.alloc(), &cases)?;
    Ok(())
}

#[test]
fn faults_of_headers(rt: HostRuntime) -> Result<(), Fail> {
    let cases: [Case<'_>; 8] = [
        (
            "a type",
            b"PHDRS { h 0x100000000; } SECTIONS { .a : { } :i }",
            b"",
            b"fault 12 BadHeader index=0 value=4294967296\n",
        ),
        (
            "flags",
            b"PHDRS { h 1; i 1 FLAGS(0 - 1); }",
            b"",
            b"fault 12 BadHeader index=1 value=18446744073709551615\n",
        ),
        (
            "a type, then flags",
            b"PHDRS { h x FLAGS(1 / 0); }",
            b"",
            b"fault 13 NotConstant statement=0\n",
        ),
        (
            "two of one name",
            b"MEMORY { h : o = 0, l = 1 } PHDRS { h 1; h 2; } SECTIONS { .a : { } > R :i }",
            b"",
            b"fault 16 DuplicateName name=h\n",
        ),
        (
            "an unknown header",
            b"PHDRS { h 1; } SECTIONS { .a : { } :h :i }",
            b"",
            b"fault 19 UnknownPhdr name=i\n",
        ),
        (
            "the region before the header",
            b"SECTIONS { .a : { } > R :h }",
            b"",
            b"fault 18 UnknownRegion name=R\n",
        ),
        (
            "a header of an earlier PHDRS",
            b"PHDRS { h 1; } PHDRS { } SECTIONS { .a : { } :h }",
            b"",
            b"fault 19 UnknownPhdr name=h\n",
        ),
        (
            "a header before a section of one name",
            b"SECTIONS { .a : { } .a : { } :h }",
            b"",
            b"fault 19 UnknownPhdr name=h\n",
        ),
    ];
    assert_faults(&rt, rt.alloc(), &cases)?;
    Ok(())
}

const STARTED: &[u8] =
    b"SECTIONS { . = SEGMENT_START(\"text-segment\", 0x80); .a : { *(.a) } } x = SIZEOF_HEADERS;";

const ONE_ROW: &[u8] = b"section,f.o,.a,4,1,A\n";

const FORMATS: &[u8] = b"OUTPUT_FORMAT(elf64-littleaarch64, elf64-big, elf64-littleaarch64)";

#[test]
fn options(rt: HostRuntime) -> Result<(), Fail> {
    let alloc = rt.alloc();
    let cases: [(&str, &[&[u8]], &[u8], &[u8], &[u8]); 6] = [
        (
            "a start",
            &[b"--start=text-segment=0x40"],
            STARTED,
            ONE_ROW,
            b"section .a 0x0000000000000040 0x0000000000000040 0x0000000000000004 1 A - - -
input 0 0x0000000000000040 .a f.o .a
location 0 0x0000000000000040
segment 0x00000001 4 - .a
symbol x 0x0000000000000000 - default
",
        ),
        (
            "a start of another segment, and headers",
            &[b"--start=data-segment=0x40", b"--headers=64"],
            STARTED,
            ONE_ROW,
            b"section .a 0x0000000000000080 0x0000000000000080 0x0000000000000004 1 A - - -
input 0 0x0000000000000080 .a f.o .a
location 0 0x0000000000000080
segment 0x00000001 4 - .a
symbol x 0x0000000000000040 - default
",
        ),
        (
            "a partial link",
            &[b"--kind=partial"],
            STARTED,
            ONE_ROW,
            b"section .a 0x0000000000000080 0x0000000000000080 0x0000000000000004 1 A - - -
input 0 0x0000000000000080 .a f.o .a
location 0 0x0000000000000080
symbol x 0x0000000000000000 - default
",
        ),
        ("a machine", &[b"--arch=aarch64"], FORMATS, b"", b""),
        (
            "another machine",
            &[b"--arch=riscv64"],
            FORMATS,
            b"",
            b"fault 17 OutputFormat name=elf64-littleaarch64\n",
        ),
        (
            "an order of bytes",
            &[b"--arch=aarch64", b"--endian=big"],
            FORMATS,
            b"",
            b"fault 17 OutputFormat name=elf64-big\n",
        ),
    ];
    for (case, options, script, table, written) in cases {
        let (_, out, err) = planned_for(alloc, options, script, table)?;
        let text = if out.bytes().is_empty() {
            err.bytes()
        } else {
            out.bytes()
        };
        assert_eq!(rt; text, written, "{case}");
    }
    Ok(())
}

// So many empty sections, each with a start expression, and the status of their run.
fn many_sections(alloc: Global, count: usize) -> Result<(u8, Tray, Tray), NoMemory> {
    let mut script = String::new(alloc);
    script.push_str("SECTIONS {")?;
    for number in 0..count {
        write!(script, " .s{number} 0 : {{ }}")?;
    }
    script.push_str(" }")?;
    planned(alloc, script.as_bytes(), b"")
}

#[test]
fn as_many_segments_as_may_be(rt: HostRuntime) -> Result<(), Fail> {
    let alloc = rt.alloc();
    let (answer, _, _) = many_sections(alloc, 255)?;
    assert_eq!(rt; answer, 0);
    let (answer, _, err) = many_sections(alloc, 256)?;
    assert_eq!(rt; answer, 1);
    assert_eq!(rt;
        err.bytes(),
        b"fault 21 TooManySegments segments=256\n".as_slice()
    );
    Ok(())
}
