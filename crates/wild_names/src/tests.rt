use crate::*;
use bitflags::Flags;
use std::cmp::Ordering;
use std::test::Fail;

#[test]
fn names_in_order(rt: HostRuntime) -> Result<(), Fail> {
    let alloc = rt.alloc();
    let name = Name::new(alloc, b".bss")?;
    assert!(rt; !name.is_empty() && name.copy(alloc)? == name);
    assert_eq!(rt;
        name.cmp(&Name::from_vec(Vec::new(alloc))),
        Ordering::Greater
    );
    Ok(())
}

#[test]
fn numbers_of_faults(rt: HostRuntime) {
    for (case, fault, number) in [
        ("the first", Fault::Syntax { position: 0 }, 1),
        (
            "the last before values",
            Fault::TooManySegments { segments: 256 },
            21,
        ),
        (
            "the first of values",
            Fault::DivisionByZero { statement: 0 },
            22,
        ),
        ("a sum", Fault::Overflow { left: 1, right: 2 }, 34),
        ("the last", Fault::NoMemory, 37),
    ] {
        assert_eq!(rt; fault.number(), number, "{case}");
    }
}

#[test]
fn errors_of_scripts(rt: HostRuntime) -> Result<(), Fail> {
    let comment = LinkerScriptError::UnclosedComment;
    let sort = LinkerScriptError::UnsupportedNestedSort;
    for (case, fault, error) in [
        (
            "an open comment",
            Fault::UnclosedComment { position: 3 },
            Some(comment),
        ),
        (
            "a nested sort",
            Fault::UnsupportedNestedSort { position: 28 },
            Some(sort),
        ),
        ("any other fault", Fault::Syntax { position: 3 }, None),
    ] {
        assert_eq!(rt; fault.script_error(), error, "{case}");
    }
    for (error, text) in [
        (comment, "Unclosed comment"),
        (
            sort,
            "Nested sorting commands in linker scripts is not supported",
        ),
    ] {
        assert_eq!(rt; format!(in rt.alloc(); "{error}")?.as_str(), text);
    }
    Ok(())
}

fn read<H: SectionHeader>(header: &H) -> [bool; 11] {
    [
        header.should_exclude(),
        header.is_null(),
        header.is_alloc(),
        header.is_prog_bits(),
        header.is_no_bits(),
        header.is_executable(),
        header.is_writable(),
        header.is_tls(),
        header.is_merge_section(),
        header.is_group(),
        header.is_group_header(),
    ]
}

#[test]
fn headers_of_flags(rt: HostRuntime) {
    let code = [
        false, false, true, true, false, true, false, false, false, false, false,
    ];
    let mut flags = InputFlags::ALLOC;
    flags.insert(InputFlags::EXEC);
    assert_eq!(rt; flags.bits(), 5);
    assert!(rt; read(&flags) == code);
    let zeros = [
        true, false, false, false, true, false, true, true, false, false, false,
    ];
    let mut flags = InputFlags::EXCLUDE;
    flags.insert(InputFlags::NOBITS);
    flags.insert(InputFlags::WRITE);
    flags.insert(InputFlags::TLS);
    assert!(rt; read(&flags) == zeros);
}

#[test]
fn output_formats(rt: HostRuntime) {
    for (name, wanted) in [
        (b"elf64-x86-64".as_slice(), Architecture::X86_64),
        (b"elf64-littleaarch64", Architecture::AArch64),
        (b"elf64-littleriscv", Architecture::RiscV64),
        (b"elf64-loongarch", Architecture::LoongArch64),
        (b"elf64-bigaarch64", Architecture::Unsupported),
    ] {
        assert_eq!(rt;
            Architecture::parse_output_format(name),
            wanted,
            "{wanted:?}"
        );
    }
}

#[test]
fn letters_of_flags(rt: HostRuntime) {
    for (letter, flag) in [
        (b'A', Some(InputFlags::ALLOC)),
        (b'W', Some(InputFlags::WRITE)),
        (b'X', Some(InputFlags::EXEC)),
        (b'B', Some(InputFlags::NOBITS)),
        (b'T', Some(InputFlags::TLS)),
        (b'E', Some(InputFlags::EXCLUDE)),
        (b'N', None),
    ] {
        assert_eq!(rt; InputFlags::of_letter(letter), flag, "{letter}");
    }
}
