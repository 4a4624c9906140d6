use crate::refusal::Refusal;
use crate::{
    DirFiles, FailingPut, Files, LoadFault, Shelf, ShelfFile, Sink, SinkFault, StreamSink,
    SureShelf, SureTray, Tray, run,
};
use std::alloc::Global;
use std::fs;
use std::process::Abort;
use std::test::Fail;
use wild_names::{Fault, Name, NoMemory};

const USAGE: &[u8] =
    b"usage: plan SCRIPT TABLE [--kind=K] [--arch=A] [--endian=E] [--headers=N] [--start=NAME=N] | sample N\n";

fn names(alloc: Global, words: &[&[u8]]) -> Result<Vec<Name>, NoMemory> {
    let mut names = Vec::new(alloc);
    for word in words {
        names.push(Name::new(alloc, word)?)?;
    }
    Ok(names)
}

// A table in memory, of the name `t`. Any other file is empty.
fn shelf(alloc: Global, table: &[u8]) -> Result<SureShelf, NoMemory> {
    let mut files = Vec::new(alloc);
    files.push(ShelfFile {
        name: Name::new(alloc, b"t")?,
        bytes: Name::new(alloc, table)?,
    })?;
    Ok(SureShelf::new(files))
}

#[test]
fn refused_words(rt: HostRuntime) -> Result<(), Fail> {
    let alloc = rt.alloc();
    let cases: [(&str, &[&[u8]]); 4] = [
        ("no words", &[]),
        ("no table", &[b"plan", b"s"]),
        ("a word too many", &[b"plan", b"s", b"t", b"t"]),
        ("another command", &[b"place", b"s", b"t"]),
    ];
    for (case, words) in cases {
        let words = names(alloc, words)?;
        let mut files = shelf(alloc, b"")?;
        let mut out = SureTray::new(alloc);
        let mut err = SureTray::new(alloc);
        let answer = run(alloc, words.as_slice(), &mut files, &mut out, &mut err);
        assert_eq!(rt; answer, 2, "{case}");
        assert_eq!(rt; out.bytes(), b"".as_slice(), "{case}");
        assert_eq!(rt; err.bytes(), USAGE, "{case}");
    }
    Ok(())
}

#[test]
fn refused_tables(rt: HostRuntime) -> Result<(), Fail> {
    let alloc = rt.alloc();
    let cases: [(&str, &[u8], &[u8]); 2] = [
        (
            "five fields",
            b"section,f.o,.a,3,2,A\nsection,f.o,.a,3,2\n",
            b"bad record 1\n",
        ),
        (
            "a letter twice",
            b"section,f.o,.a,3,2,AA\n",
            b"bad record 0\n",
        ),
    ];
    for (case, table, line) in cases {
        let words = names(alloc, &[b"plan", b"s", b"t"])?;
        let mut files = shelf(alloc, table)?;
        let mut out = SureTray::new(alloc);
        let mut err = SureTray::new(alloc);
        let answer = run(alloc, words.as_slice(), &mut files, &mut out, &mut err);
        assert_eq!(rt; answer, 6, "{case}");
        assert_eq!(rt; out.bytes(), b"".as_slice(), "{case}");
        assert_eq!(rt; err.bytes(), line, "{case}");
    }
    Ok(())
}

#[test]
fn lines(rt: HostRuntime) -> Result<(), Fail> {
    let alloc = rt.alloc();
    let cases: [(Refusal, u8, &[u8]); 6] = [
        (
            Refusal::Fault(Fault::BadRow { row: 2 }),
            1,
            b"fault 5 BadRow row=2\n",
        ),
        (Refusal::Usage, 2, USAGE),
        (
            Refusal::NotLoaded(Name::new(alloc, b"a b")?),
            3,
            b"cannot load a\\x20b\n",
        ),
        (Refusal::NoMemory, 5, b"out of memory\n"),
        (Refusal::BadRecord(10), 6, b"bad record 10\n"),
        (Refusal::TooLong(Name::new(alloc, b"")?), 7, b"too long -\n"),
    ];
    for (refusal, status, line) in &cases {
        assert_eq!(rt; refusal.status(), *status);
        assert_eq!(rt; refusal.line(alloc)?.bytes(), *line);
    }
    Ok(())
}

#[test]
fn real_files(rt: HostRuntime) -> Result<(), Fail> {
    let alloc = rt.alloc();
    let path = "wild_cli_test_file";
    fs::write(&rt, path, b"a\0\xff".as_slice())?;
    let mut files = DirFiles::new(&rt);
    let name = Name::new(alloc, path.as_bytes())?;
    assert_eq!(rt; files.load(alloc, &name)?.as_slice(), b"a\0\xff".as_slice());
    fs::remove_file(&rt, path)?;
    for missing in [path.as_bytes(), b"\xff".as_slice(), b"a\0b"] {
        let name = Name::new(alloc, missing)?;
        assert_eq!(rt; files.load(alloc, &name).err(), Some(LoadFault::Failed));
    }
    let words = names(alloc, &[b"plan", path.as_bytes(), b"t"])?;
    let mut out = SureTray::new(alloc);
    let mut err = SureTray::new(alloc);
    let status = run(alloc, words.as_slice(), &mut files, &mut out, &mut err);
    assert_eq!(rt; status, 3);
    assert_eq!(rt; err.bytes(), b"cannot load wild_cli_test_file\n".as_slice());
    Ok(())
}

#[test]
fn real_streams(rt: HostRuntime) -> Result<(), Fail> {
    let path = "wild_cli_test_stream";
    let mut sink = StreamSink::new(fs::create(&rt, path)?);
    sink.put(b"one\n")?;
    sink.put(b"")?;
    sink.put(b"two\n")?;
    drop(sink);
    assert_eq!(rt; fs::read(&rt, path)?.as_slice(), b"one\ntwo\n".as_slice());
    fs::remove_file(&rt, path)?;
    Ok(())
}

#[test]
fn full_stream(rt: HostRuntime) -> Result<(), Fail> {
    let alloc = rt.alloc();
    let mut err = StreamSink::new(fs::create(&rt, "/dev/full")?);
    assert_eq!(rt; err.put(b"one"), Err(SinkFault::Failed));
    let mut out = SureTray::new(alloc);
    let mut files = shelf(alloc, b"")?;
    assert_eq!(rt; run(alloc, &[], &mut files, &mut out, &mut err), 4);
    assert_eq!(rt; out.bytes(), b"".as_slice());
    Ok(())
}

// A script `s` and a table `t` in memory.
fn two_files(alloc: Global, script: Name, table: &[u8]) -> Result<Vec<ShelfFile>, NoMemory> {
    let mut files = Vec::new(alloc);
    files.push(ShelfFile {
        name: Name::new(alloc, b"s")?,
        bytes: script,
    })?;
    files.push(ShelfFile {
        name: Name::new(alloc, b"t")?,
        bytes: Name::new(alloc, table)?,
    })?;
    Ok(files)
}

// A tray whose first put fails after this many bytes, where there is a number.
fn tray(alloc: Global, written: Option<usize>) -> Result<Tray, NoMemory> {
    let mut failing = Vec::new(alloc);
    if let Some(written) = written {
        failing.push(FailingPut { call: 0, written })?;
    }
    Ok(Tray::new(alloc, failing))
}

// The status of a run over a script and a table, of which chosen loads and puts fail, and what it wrote.
fn run_failing(
    alloc: Global,
    words: &[&[u8]],
    table: &[u8],
    loads: &[u64],
    puts: [Option<usize>; 2],
) -> Result<(u8, Tray, Tray), NoMemory> {
    let words = names(alloc, words)?;
    let script = Name::new(alloc, b"SECTIONS { .a : { *(.a) } }")?;
    let files = two_files(alloc, script, table)?;
    let mut files = Shelf::new(files, Vec::from_slice(alloc, loads)?);
    let mut out = tray(alloc, puts[0])?;
    let mut err = tray(alloc, puts[1])?;
    let answer = run(alloc, words.as_slice(), &mut files, &mut out, &mut err);
    Ok((answer, out, err))
}

const PLAN: &[&[u8]] = &[b"plan", b"s", b"t"];

const ROW: &[u8] = b"section,f.o,.a,1,1,A\n";

#[test]
fn failing_loads(rt: HostRuntime) -> Result<(), Fail> {
    let alloc = rt.alloc();
    let cases: [(&str, &[&[u8]], &[u64], &[u8]); 3] = [
        ("the script", PLAN, &[0], b"cannot load s\n"),
        ("the table", PLAN, &[1], b"cannot load t\n"),
        (
            "no such file",
            &[b"plan", b"x", b"t"],
            &[],
            b"cannot load x\n",
        ),
    ];
    for (case, words, loads, line) in cases {
        let (answer, out, err) = run_failing(alloc, words, ROW, loads, [None, None])?;
        assert_eq!(rt; answer, 3, "{case}");
        assert_eq!(rt; out.bytes(), b"".as_slice(), "{case}");
        assert_eq!(rt; err.bytes(), line, "{case}");
    }
    Ok(())
}

#[test]
fn failing_puts(rt: HostRuntime) -> Result<(), Fail> {
    let alloc = rt.alloc();
    let none: &[&[u8]] = &[];
    let few: &[u8] = b"section,f.o,.a,1,1\n";
    let cases: [(
        &str,
        &[&[u8]],
        &[u8],
        &[u64],
        [Option<usize>; 2],
        [&[u8]; 2],
    ); 6] = [
        ("the text", PLAN, ROW, &[], [Some(5), None], [b"secti", b""]),
        ("usage", none, b"", &[], [None, Some(3)], [b"", b"usa"]),
        ("usage at once", none, b"", &[], [None, Some(0)], [b"", b""]),
        ("a record", PLAN, few, &[], [None, Some(4)], [b"", b"bad "]),
        ("a load", PLAN, ROW, &[0], [None, Some(3)], [b"", b"can"]),
        (
            "a fault",
            PLAN,
            b"section,f.o,.a,1,3,A\n",
            &[],
            [None, Some(7)],
            [b"", b"fault 5"],
        ),
    ];
    for (case, words, table, loads, puts, [text, line]) in cases {
        let (answer, out, err) = run_failing(alloc, words, table, loads, puts)?;
        assert_eq!(rt; answer, 4, "{case}");
        assert_eq!(rt; out.bytes(), text, "{case}");
        assert_eq!(rt; err.bytes(), line, "{case}");
    }
    Ok(())
}

// The status of a run over a script and a table, and what it wrote.
pub(crate) fn planned(
    alloc: Global,
    script: &[u8],
    table: &[u8],
) -> Result<(u8, Tray, Tray), NoMemory> {
    planned_for(alloc, &[], script, table)
}

// The same with these options.
pub(crate) fn planned_for(
    alloc: Global,
    options: &[&[u8]],
    script: &[u8],
    table: &[u8],
) -> Result<(u8, Tray, Tray), NoMemory> {
    let mut words = names(alloc, &[b"plan", b"s", b"t"])?;
    for option in options {
        words.push(Name::new(alloc, option)?)?;
    }
    let files = two_files(alloc, Name::new(alloc, script)?, table)?;
    let mut files = Shelf::new(files, Vec::new(alloc));
    let mut out = tray(alloc, None)?;
    let mut err = tray(alloc, None)?;
    let answer = run(alloc, words.as_slice(), &mut files, &mut out, &mut err);
    Ok((answer, out, err))
}

// What a case is, a script, a table, and what is written: the text of a plan, or the line of a fault.
pub(crate) type Case<'a> = (&'a str, &'a [u8], &'a [u8], &'a [u8]);

// Each script has a plan, of this text.
pub(crate) fn assert_texts(
    rt: &impl Abort,
    alloc: Global,
    cases: &[Case<'_>],
) -> Result<(), NoMemory> {
    for (case, script, table, text) in cases {
        let (answer, out, err) = planned(alloc, script, table)?;
        assert_eq!(rt; err.bytes(), b"".as_slice(), "{case}");
        assert_eq!(rt; answer, 0, "{case}");
        assert_eq!(rt; out.bytes(), *text, "{case}");
    }
    Ok(())
}

// Each script has this fault.
pub(crate) fn assert_faults(
    rt: &impl Abort,
    alloc: Global,
    cases: &[Case<'_>],
) -> Result<(), NoMemory> {
    for (case, script, table, line) in cases {
        let (answer, out, err) = planned(alloc, script, table)?;
        assert_eq!(rt; err.bytes(), *line, "{case}");
        assert_eq!(rt; answer, 1, "{case}");
        assert_eq!(rt; out.bytes(), b"".as_slice(), "{case}");
    }
    Ok(())
}

#[test]
fn long_script(rt: HostRuntime) -> Result<(), Fail> {
    let alloc = rt.alloc();
    let script = Name::from_vec(Vec::from_elem(alloc, b' ', (1 << 24) + 1)?);
    let words = names(alloc, &[b"plan", b"s", b"t"])?;
    let mut files = Shelf::new(two_files(alloc, script, b"")?, Vec::new(alloc));
    let mut out = tray(alloc, None)?;
    let mut err = tray(alloc, None)?;
    let answer = run(alloc, words.as_slice(), &mut files, &mut out, &mut err);
    assert_eq!(rt; answer, 7);
    assert_eq!(rt; out.bytes(), b"".as_slice());
    assert_eq!(rt; err.bytes(), b"too long s\n".as_slice());
    Ok(())
}
