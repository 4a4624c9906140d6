ghost use Rattle.std.specs.Prelude.{⊤};

use crate::{InputFault, InputKind, InputVisitor, LinkerScript, Modifiers};
use std::alloc::{AllocError, Global};
use std::test::Fail;
use wild_names::NoMemory;

// Writes down what it is shown, and takes so many.
#[derive(Drop)]
struct Recorder {
    shown: String,
    wanted: usize,
    out_of_memory: bool,
}

fn record(
    shown: &mut String,
    kind: InputKind,
    name: &str,
    modifiers: Modifiers,
) -> Result<(), AllocError> {
    shown.push(match kind {
        InputKind::File => '=',
        InputKind::Lib => '-',
    })?;
    shown.push_str(name)?;
    shown.push(if modifiers.as_needed { '?' } else { ';' })
}

impl InputVisitor for Recorder {
    ghost step = { λ _ _ _ _ _ _. ⊤ };

    fn visit(&mut self, kind: InputKind, name: &str, modifiers: Modifiers) -> bool {
        if record(&mut self.shown, kind, name, modifiers).is_err() {
            self.out_of_memory = true;
        }
        self.wanted = self.wanted.saturating_sub(1);
        self.wanted > 0
    }
}

// What a visitor that takes so many is shown, and how the walk ends.
fn inputs(
    alloc: Global,
    text: &[u8],
    as_needed: bool,
    wanted: usize,
) -> Result<(String, Result<(), InputFault>), NoMemory> {
    let Ok(script) = LinkerScript::parse(alloc, text) else {
        return Err(NoMemory);
    };
    let mut recorder = Recorder {
        shown: String::new(alloc),
        wanted,
        out_of_memory: false,
    };
    let end = script.foreach_input(Modifiers { as_needed }, &mut recorder);
    if recorder.out_of_memory {
        return Err(NoMemory);
    }
    Ok((recorder.shown, end))
}

#[test]
fn inputs_of_scripts(rt: HostRuntime) -> Result<(), Fail> {
    let cases: [(&str, &[u8], bool, &str); 8] = [
        (
            "a file and a library",
            b"GROUP ( libgcc_s.so.1 -lgcc )",
            false,
            "=libgcc_s.so.1;-gcc;",
        ),
        ("as needed", b"GROUP(a AS_NEEDED(b) c)", false, "=a;=b?=c;"),
        (
            "a group in it",
            b"AS_NEEDED(a INPUT(b)) c",
            false,
            "=a?=b?=c;",
        ),
        ("asked at the start", b"a INPUT(-lb)", true, "=a?-b?"),
        ("no library's name", b"-l l-l", false, "-;=l-l;"),
        ("in quotes", b"\"a b\" \"-lc d\"", false, "=a b;-c d;"),
        ("what is ignored", b"OUTPUT_ARCH(a) b", false, "=b;"),
        ("other commands", b"ENTRY(a) x = 1; b", false, "=b;"),
    ];
    for (name, text, as_needed, expected) in cases {
        let (shown, end) = inputs(rt.alloc(), text, as_needed, 9)?;
        assert_eq!(rt; shown.as_str(), expected, "{name}");
        assert_eq!(rt; end, Ok(()), "{name}");
    }
    Ok(())
}

#[test]
fn walks_that_end_early(rt: HostRuntime) -> Result<(), Fail> {
    let cases: [(&str, &[u8], usize, &str, InputFault); 5] = [
        ("at the second", b"a b c", 2, "=a;=b;", InputFault::Stopped),
        ("at the last", b"a b", 2, "=a;=b;", InputFault::Stopped),
        (
            "in a group",
            b"GROUP(a GROUP(b)) c",
            2,
            "=a;=b;",
            InputFault::Stopped,
        ),
        (
            "not UTF-8",
            b"a AS_NEEDED(b \xff c)",
            9,
            "=a;=b?",
            InputFault::NotUtf8 { index: 2 },
        ),
        (
            "a library that is not",
            b"ENTRY(a) -l\xff",
            9,
            "",
            InputFault::NotUtf8 { index: 0 },
        ),
    ];
    for (name, text, wanted, expected, fault) in cases {
        let (shown, end) = inputs(rt.alloc(), text, false, wanted)?;
        assert_eq!(rt; shown.as_str(), expected, "{name}");
        assert_eq!(rt; end, Err(fault), "{name}");
    }
    Ok(())
}

#[test]
fn first_versions(rt: HostRuntime) -> Result<(), Fail> {
    let cases: [(&str, &[u8], &[u8]); 4] = [
        ("the first", b"a VERSION { b } VERSION { c }", b"b "),
        (
            "one in brackets",
            b"GROUP(VERSION { a }) VERSION { b }",
            b"b ",
        ),
        ("an empty one", b"VERSION { } VERSION { a }", b""),
        ("none", b"x = 1", b"none"),
    ];
    for (name, text, expected) in cases {
        let Ok(script) = LinkerScript::parse(rt.alloc(), text) else {
            return Err(NoMemory.into());
        };
        let found = match script.get_version_script_content() {
            Some(content) => content.bytes(),
            None => b"none",
        };
        assert!(rt; found == expected, "{name}");
    }
    Ok(())
}
