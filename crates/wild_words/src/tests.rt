use crate::{Request, WordsFault, read_words};
use std::alloc::Global;
use std::test::Fail;
use wild_names::{Architecture, Endianness, Name, NoMemory, RelocationModel};
use wild_output_kind::OutputKind;
use wild_plan_spec::PlanOptions;

fn names(alloc: Global, words: &[&[u8]]) -> Result<Vec<Name>, NoMemory> {
    let mut names = Vec::new(alloc);
    for word in words {
        names.push(Name::new(alloc, word)?)?;
    }
    Ok(names)
}

// What words ask for, if they are a command.
fn request(alloc: Global, words: &[Name]) -> Result<Option<Request>, NoMemory> {
    match read_words(alloc, words) {
        Ok(request) => Ok(Some(request)),
        Err(WordsFault::Usage) => Ok(None),
        Err(WordsFault::NoMemory) => Err(NoMemory),
    }
}

// The options of a command with these words behind the table.
fn options(alloc: Global, words: &[&[u8]]) -> Result<Option<PlanOptions>, NoMemory> {
    let mut all = names(alloc, &[b"plan", b"s", b"t"])?;
    for word in words {
        all.push(Name::new(alloc, word)?)?;
    }
    match request(alloc, all.as_slice())? {
        Some(Request::Plan { options, .. }) => Ok(Some(options)),
        None => Ok(None),
    }
}

#[test]
fn no_option(rt: HostRuntime) -> Result<(), Fail> {
    let alloc = rt.alloc();
    let words = names(alloc, &[b"plan", b"a.ld", b""])?;
    let Some(
        Request::Plan {
            script,
            table,
            options,
        },
    ) = request(alloc, words.as_slice())?
    else {
        panic!(rt; "the words are a command");
    };
    assert_eq!(rt; script.bytes(), b"a.ld".as_slice());
    assert_eq!(rt; table.bytes(), b"".as_slice());
    assert_eq!(rt; options.architecture, Architecture::X86_64);
    assert_eq!(rt; options.endian, None);
    assert_eq!(rt;
        options.kind,
        OutputKind::StaticExecutable(RelocationModel::Fixed)
    );
    assert_eq!(rt; options.header_size, 0);
    assert!(rt; options.segment_starts == [None, None, None]);
    Ok(())
}

#[test]
fn refused_words(rt: HostRuntime) -> Result<(), Fail> {
    let alloc = rt.alloc();
    let cases: [(&str, &[&[u8]]); 10] = [
        ("no words", &[]),
        ("no script", &[b"plan"]),
        ("no table", &[b"plan", b"s"]),
        ("another command", &[b"place", b"s", b"t"]),
        (
            "an option before plan",
            &[b"--arch=aarch64", b"plan", b"s", b"t"],
        ),
        (
            "an option before the script",
            &[b"plan", b"--arch=aarch64", b"s", b"t"],
        ),
        ("a word too many", &[b"plan", b"s", b"t", b"t"]),
        ("an empty word", &[b"plan", b"s", b"t", b""]),
        (
            "an option of another name",
            &[b"plan", b"s", b"t", b"--kinds=static"],
        ),
        ("one dash", &[b"plan", b"s", b"t", b"-kind=static"]),
    ];
    for (case, words) in cases {
        let words = names(alloc, words)?;
        assert!(rt; request(alloc, words.as_slice())?.is_none(), "{case}");
    }
    Ok(())
}

#[test]
fn kinds(rt: HostRuntime) -> Result<(), Fail> {
    let alloc = rt.alloc();
    let fixed = RelocationModel::Fixed;
    let free = RelocationModel::PositionIndependent;
    let cases: [(&[u8], Option<OutputKind>); 9] = [
        (b"--kind=static", Some(OutputKind::StaticExecutable(fixed))),
        (
            b"--kind=static-pie",
            Some(OutputKind::StaticExecutable(free)),
        ),
        (
            b"--kind=dynamic",
            Some(OutputKind::DynamicExecutable(fixed)),
        ),
        (
            b"--kind=dynamic-pie",
            Some(OutputKind::DynamicExecutable(free)),
        ),
        (b"--kind=shared", Some(OutputKind::SharedObject)),
        (b"--kind=partial", Some(OutputKind::PartialLink)),
        (b"--kind=static ", None),
        (b"--kind=", None),
        (b"--kind", None),
    ];
    for (word, kind) in cases {
        let chosen = options(alloc, &[word])?.map(|options| options.kind);
        assert_eq!(rt; chosen, kind, "{word:?}");
    }
    Ok(())
}

#[test]
fn architectures(rt: HostRuntime) -> Result<(), Fail> {
    let alloc = rt.alloc();
    let cases: [(&[u8], Option<Architecture>); 6] = [
        (b"--arch=x86_64", Some(Architecture::X86_64)),
        (b"--arch=aarch64", Some(Architecture::AArch64)),
        (b"--arch=riscv64", Some(Architecture::RiscV64)),
        (b"--arch=loongarch64", Some(Architecture::LoongArch64)),
        (b"--arch=x86-64", None),
        (b"--arch=", None),
    ];
    for (word, architecture) in cases {
        let chosen = options(alloc, &[word])?.map(|options| options.architecture);
        assert_eq!(rt; chosen, architecture, "{word:?}");
    }
    Ok(())
}

#[test]
fn orders_of_bytes(rt: HostRuntime) -> Result<(), Fail> {
    let alloc = rt.alloc();
    let cases: [(&[u8], Option<Endianness>); 4] = [
        (b"--endian=little", Some(Endianness::Little)),
        (b"--endian=big", Some(Endianness::Big)),
        (b"--endian=Big", None),
        (b"--endian=", None),
    ];
    for (word, endian) in cases {
        let chosen = options(alloc, &[word])?;
        assert_eq!(rt; chosen.is_some(), endian.is_some(), "{word:?}");
        assert_eq!(rt;
            chosen.and_then(|options| options.endian),
            endian,
            "{word:?}"
        );
    }
    Ok(())
}

#[test]
fn header_sizes(rt: HostRuntime) -> Result<(), Fail> {
    let alloc = rt.alloc();
    let cases: [(&[u8], Option<u64>); 10] = [
        (b"--headers=0", Some(0)),
        (b"--headers=64", Some(64)),
        (b"--headers=0x2a0", Some(0x2a0)),
        (b"--headers=18446744073709551615", Some(u64::MAX)),
        (b"--headers=18446744073709551616", None),
        (b"--headers=", None),
        (b"--headers=01", None),
        (b"--headers=0x", None),
        (b"--headers=-1", None),
        (b"--headers=1,", None),
    ];
    for (word, size) in cases {
        let chosen = options(alloc, &[word])?.map(|options| options.header_size);
        assert_eq!(rt; chosen, size, "{word:?}");
    }
    Ok(())
}

#[test]
fn starts(rt: HostRuntime) -> Result<(), Fail> {
    let alloc = rt.alloc();
    let cases: [(&[u8], Option<[Option<u64>; 3]>); 9] = [
        (b"--start=text-segment=0x40", Some([Some(64), None, None])),
        (b"--start=data-segment=1", Some([None, Some(1), None])),
        (b"--start=bss-segment=0", Some([None, None, Some(0)])),
        (b"--start=text-segment", None),
        (b"--start=text-segment=", None),
        (b"--start=other=1", None),
        (b"--start=1", None),
        (b"--start==1", None),
        (b"--start=bss-segment=00", None),
    ];
    for (word, starts) in cases {
        let chosen = options(alloc, &[word])?.map(|options| options.segment_starts);
        assert!(rt; chosen == starts, "{word:?}");
    }
    Ok(())
}

#[test]
fn options_twice(rt: HostRuntime) -> Result<(), Fail> {
    let alloc = rt.alloc();
    let cases: [(&str, &[&[u8]]); 7] = [
        ("kinds", &[b"--kind=static", b"--kind=shared"]),
        ("architectures", &[b"--arch=x86_64", b"--arch=x86_64"]),
        (
            "orders",
            &[b"--endian=big", b"--headers=1", b"--endian=little"],
        ),
        ("headers", &[b"--headers=0", b"--headers=0"]),
        (
            "text",
            &[b"--start=text-segment=1", b"--start=text-segment=2"],
        ),
        (
            "data",
            &[b"--start=data-segment=1", b"--start=data-segment=1"],
        ),
        (
            "bss",
            &[b"--start=bss-segment=0", b"--start=bss-segment=0x0"],
        ),
    ];
    for (case, words) in cases {
        assert!(rt; options(alloc, words)?.is_none(), "{case}");
    }
    Ok(())
}

#[test]
fn all_options(rt: HostRuntime) -> Result<(), Fail> {
    let alloc = rt.alloc();
    let words: [&[u8]; 7] = [
        b"--start=bss-segment=3",
        b"--headers=64",
        b"--start=text-segment=1",
        b"--endian=big",
        b"--start=data-segment=2",
        b"--kind=shared",
        b"--arch=aarch64",
    ];
    let Some(options) = options(alloc, &words)? else {
        panic!(rt; "the words are a command");
    };
    assert_eq!(rt; options.architecture, Architecture::AArch64);
    assert_eq!(rt; options.endian, Some(Endianness::Big));
    assert_eq!(rt; options.kind, OutputKind::SharedObject);
    assert_eq!(rt; options.header_size, 64);
    assert!(rt; options.segment_starts == [Some(1), Some(2), Some(3)]);
    Ok(())
}
