//! Memory regions, starts of segments and formats.

use crate::tests::{Case, assert_faults, assert_texts};
use std::test::Fail;

#[test]
fn regions(rt: HostRuntime) -> Result<(), Fail> {
    let cases: [Case<'_>; 5] = [
        (
            "firmware",
            b"MEMORY { FLASH : ORIGIN = 0x08000000, LENGTH = 512K
         RAM : ORIGIN = 0x20000000, LENGTH = 128K }
ENTRY(Reset)
SECTIONS {
  .vectors : { KEEP(*(.vectors)) } > FLASH
  .text : { *(.text .text.*) . = ALIGN(4); _etext = .; } > FLASH
  .data : AT(_etext) { _sdata = .; *(.data .data.*) _edata = .; } > RAM
  .bss (NOLOAD) : { *(.bss .bss.* COMMON) } > RAM
}
",
            b"section,f.o,.vectors,0x40,4,A
section,f.o,.text,0x101,4,AX
section,f.o,.text.f,6,2,AX
section,f.o,.data,8,4,AW
section,f.o,.bss,0x20,8,AWB
",
            b"section .vectors 0x0000000008000000 0x0000000008000000 0x0000000000000040 4 A - FLASH -
section .text 0x0000000008000040 0x0000000008000040 0x000000000000010c 4 AX - FLASH -
section .data 0x0000000020000000 0x000000000800014c 0x0000000000000008 4 AW - RAM -
section .bss 0x0000000020000008 0x0000000020000008 0x0000000000000020 8 AWB - RAM -
input 0 0x0000000008000000 .vectors f.o .vectors
input 1 0x0000000008000040 .text f.o .text
input 2 0x0000000008000144 .text f.o .text.f
input 3 0x0000000020000000 .data f.o .data
input 4 0x0000000020000008 .bss f.o .bss
location 7 0x000000000800014c
segment 0x00000001 4 - .vectors
segment 0x00000001 5 - .text
segment 0x00000001 6 - .data,.bss
symbol _etext 0x000000000800014c .text default
symbol _sdata 0x0000000020000000 .data default
symbol _edata 0x0000000020000008 .data default
",
        ),
        (
            "behind a region the counter goes on",
            b"MEMORY { R : o = 0x100, l = 16 } SECTIONS { . = 1; .a : { *(.a) } > R .b : { *(.b) } .c : { *(.c) } > R }",
            b"section,f.o,.a,4,4,A\nsection,f.o,.b,4,8,A\nsection,f.o,.c,4,4,A\n",
            b"section .a 0x0000000000000100 0x0000000000000100 0x0000000000000004 4 A - R -
section .b 0x0000000000000108 0x0000000000000108 0x0000000000000008 8 A - - -
section .c 0x0000000000000104 0x0000000000000104 0x0000000000000004 4 A - R -
input 0 0x0000000000000100 .a f.o .a
input 1 0x0000000000000108 .b f.o .b
input 2 0x0000000000000104 .c f.o .c
location 1 0x0000000000000001
segment 0x00000001 4 - .a
segment 0x00000001 4 - .b
segment 0x00000001 4 - .c
",
        ),
        (
            "a floating section reads and moves no region",
            b"MEMORY { R : o = 0x100, l = 4 } SECTIONS { .i (INFO) : { . = 99; } > R .a : { *(.a) } > R }",
            b"section,f.o,.a,4,1,A\n",
            b"section .i 0x0000000000000000 0x0000000000000000 0x0000000000000063 1 - - R -
section .a 0x0000000000000100 0x0000000000000100 0x0000000000000004 1 A - R -
input 0 0x0000000000000100 .a f.o .a
location 2 0x0000000000000063
segment 0x00000001 4 - .a
",
        ),
        (
            "the last MEMORY, and what it is asked",
            b"MEMORY { R : o = 1 / 0, l = x } MEMORY { R : o = 2 + 2, l = 1K } x = ORIGIN(R); y = LENGTH(R);",
            b"",
            b"symbol x 0x0000000000000004 - default
symbol y 0x0000000000000400 - default
",
        ),
        (
            "a length counts from the start of a section",
            b"MEMORY { R : o = 4, l = 2 } SECTIONS { .a 0x10 : { x = ORIGIN(R); y = LENGTH(R); } }",
            b"",
            b"section .a 0x0000000000000010 0x0000000000000010 0x0000000000000000 1 A - - -
segment 0x00000001 4 - .a
symbol x 0x0000000000000004 .a default
symbol y 0x0000000000000012 .a default
",
        ),
    ];
    assert_texts(&rt, rt.alloc(), &cases)?;
    Ok(())
}

#[test]
fn faults_of_regions(rt: HostRuntime) -> Result<(), Fail> {
    let cases: [Case<'_>; 10] = [
        (
            "behind the end",
            b"MEMORY { R : ORIGIN = 0, LENGTH = 16 } SECTIONS { .a : { . = 17; } > R }",
            b"",
            b"fault 33 RegionFull region=R section=.a\n",
        ),
        (
            "empty, and before the origin",
            b"MEMORY { R : ORIGIN = 4, LENGTH = 16 } SECTIONS { .a 0 : { } > R }",
            b"",
            b"fault 33 RegionFull region=R section=.a\n",
        ),
        (
            "the region before an overlap",
            b"MEMORY { R : o = 0, l = 1 } SECTIONS { .a : { . = 4; } .b 0 : { . = 2; } > R }",
            b"",
            b"fault 33 RegionFull region=R section=.b\n",
        ),
        (
            "an unknown region",
            b"SECTIONS { .a : { } > R }",
            b"",
            b"fault 18 UnknownRegion name=R\n",
        ),
        (
            "a region of an earlier MEMORY",
            b"MEMORY { R : o = 0, l = 1 } MEMORY { } SECTIONS { .a : { } > R }",
            b"",
            b"fault 18 UnknownRegion name=R\n",
        ),
        (
            "two of one name",
            b"MEMORY { R : o = 0, l = 1 R : o = 1, l = 1 } SECTIONS { .a : { } > S }",
            b"",
            b"fault 16 DuplicateName name=R\n",
        ),
        (
            "no constant",
            b"SECTIONS { } x = 1; MEMORY { R : o = x, l = 1 / 0 }",
            b"",
            b"fault 13 NotConstant statement=1\n",
        ),
        (
            "no length",
            b"MEMORY { R : o = 1, l = 1 / 0 R : o = 0, l = 0 }",
            b"",
            b"fault 22 DivisionByZero statement=0\n",
        ),
        (
            "no end",
            b"MEMORY { R : o = 0xFFFFFFFFFFFFFFFF, l = 1 R : o = 0, l = 0 }",
            b"",
            b"fault 34 Overflow left=18446744073709551615 right=1\n",
        ),
        (
            "a format of no machine",
            b"OUTPUT_FORMAT(elf32-littlearm) MEMORY { R : o = 1 / 0, l = 1 }",
            b"",
            b"fault 17 OutputFormat name=elf32-littlearm\n",
        ),
    ];
    assert_faults(&rt, rt.alloc(), &cases)?;
    Ok(())
}

#[test]
fn starts_of_segments(rt: HostRuntime) -> Result<(), Fail> {
    let cases: [Case<'_>; 3] = [
        (
            "a default",
            b"SECTIONS { . = SEGMENT_START(\"text-segment\", 0x80); .a : { *(.a) } }",
            b"section,f.o,.a,4,1,A\n",
            b"section .a 0x0000000000000080 0x0000000000000080 0x0000000000000004 1 A - - -
input 0 0x0000000000000080 .a f.o .a
location 0 0x0000000000000080
segment 0x00000001 4 - .a
",
        ),
        (
            "the end of the section before, where it is asked for",
            b"w = SEGMENT_START(\"s\", .); SECTIONS { .a : { . = 8; } /DISCARD/ : { } } x = . + 1; y = SEGMENT_START(\"s\", .) + . + SIZEOF_HEADERS;",
            b"",
            b"section .a 0x0000000000000000 0x0000000000000000 0x0000000000000008 1 A - - -
location 2 0x0000000000000008
segment 0x00000001 4 - .a
symbol w 0x0000000000000000 - default
symbol x 0x0000000000000001 - default
symbol y 0x0000000000000010 - default
",
        ),
        (
            "in an ASSERT it is 0",
            b"SECTIONS { .a : { . = 8; } } ASSERT(SEGMENT_START(\"s\", .) == 0, m) OUTPUT_FORMAT(elf64-x86-64)",
            b"",
            b"section .a 0x0000000000000000 0x0000000000000000 0x0000000000000008 1 A - - -
location 1 0x0000000000000008
segment 0x00000001 4 - .a
",
        ),
    ];
    assert_texts(&rt, rt.alloc(), &cases)?;
    Ok(())
}
