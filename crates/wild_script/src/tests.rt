use crate::{
    AssertCommand, Command, ContentsCommand, Expression, LinkerScript, Matcher, MemoryRegion,
    OutputFormat, Phdr, ProvideSymbolDefinition, Section, SectionCommand, SectionPattern, Sections,
    skip_comments_and_whitespace,
};
use sqlite_items::Items;
use std::alloc::{AllocError, Global};
use std::process::Abort;
use std::test::Fail;
use wild_names::{Fault, Name};

fn push_name(out: &mut String, name: &Name) -> Result<(), AllocError> {
    for byte in name.bytes() {
        out.push(char::from(*byte))?;
    }
    Ok(())
}

// A mark where it is sorted, and the name.
fn push_pattern(out: &mut String, pattern: &SectionPattern) -> Result<(), AllocError> {
    if pattern.sorted {
        out.push('^')?;
    }
    push_name(out, &pattern.name)?;
    out.push(' ')
}

// A mark where it is kept, the file pattern, and the patterns in brackets.
fn push_matcher(out: &mut String, matcher: &Matcher) -> Result<(), AllocError> {
    if matcher.must_keep {
        out.push('!')?;
    }
    if let Some(file) = &matcher.input_file_pattern {
        out.push('<')?;
        push_name(out, file)?;
        out.push('>')?;
    }
    out.push('(')?;
    for pattern in matcher.input_section_name_patterns.as_slice() {
        push_pattern(out, pattern)?;
    }
    out.push(')')
}

fn push_value(alloc: Global, out: &mut String, value: &Expression) -> Result<(), AllocError> {
    out.push_str(format!(in alloc; "={value:?};")?.as_str())
}

fn push_text(out: &mut String, name: &Name) -> Result<(), AllocError> {
    push_name(out, name)?;
    out.push(';')
}

fn push_provide(
    alloc: Global,
    out: &mut String,
    provide: &ProvideSymbolDefinition,
) -> Result<(), AllocError> {
    out.push(if provide.hidden { '-' } else { '+' })?;
    push_name(out, &provide.name)?;
    push_value(alloc, out, &provide.value)
}

// The position of its bracket, its message, and its condition.
fn push_assert(alloc: Global, out: &mut String, assert: &AssertCommand) -> Result<(), AllocError> {
    out.push_str(format!(in alloc; "{}?", assert.at)?.as_str())?;
    push_name(out, &assert.message)?;
    push_value(alloc, out, assert.expression.get())
}

fn push_contents(
    alloc: Global,
    out: &mut String,
    statement: &ContentsCommand,
) -> Result<(), AllocError> {
    match statement {
        ContentsCommand::Matcher(matcher) => push_matcher(out, matcher),
        ContentsCommand::SymbolAssignment(assignment) => {
            push_name(out, &assignment.name)?;
            push_value(alloc, out, &assignment.expr)
        }
        ContentsCommand::Provide(provide) => push_provide(alloc, out, provide),
        ContentsCommand::SetLocation(location) => push_value(alloc, out, &location.address),
        ContentsCommand::Constructors => out.push('*'),
        ContentsCommand::Assert(assert) => push_assert(alloc, out, assert),
    }
}

// After a letter, where there is one.
fn push_clause(
    alloc: Global,
    out: &mut String,
    letter: char,
    value: &Option<Expression>,
) -> Result<(), AllocError> {
    let Some(value) = value else {
        return Ok(());
    };
    out.push(letter)?;
    push_value(alloc, out, value)
}

// The attribute, the start, the load address and the alignment.
fn push_head(alloc: Global, out: &mut String, section: &Section) -> Result<(), AllocError> {
    if let Some(attributes) = &section.attributes {
        out.push_str(format!(in alloc; "({attributes:?})")?.as_str())?;
    }
    push_clause(alloc, out, 's', &section.start_address_expression)?;
    push_clause(alloc, out, 'l', &section.at_address)?;
    push_clause(alloc, out, 'a', &section.alignment)
}

// The headers, the region and the fill.
fn push_tail(alloc: Global, out: &mut String, section: &Section) -> Result<(), AllocError> {
    for header in section.phdrs.as_slice() {
        out.push(':')?;
        push_text(out, header)?;
    }
    if let Some(region) = &section.region {
        out.push('>')?;
        push_text(out, region)?;
    }
    match &section.fill {
        Some(fill) => push_value(alloc, out, &fill.value),
        None => Ok(()),
    }
}

fn push_section(alloc: Global, out: &mut String, section: &Section) -> Result<(), AllocError> {
    push_name(out, &section.output_section_name)?;
    push_head(alloc, out, section)?;
    out.push(':')?;
    for command in section.commands.as_slice() {
        push_contents(alloc, out, command)?;
    }
    out.push(';')?;
    push_tail(alloc, out, section)
}

fn push_statement(
    alloc: Global,
    out: &mut String,
    statement: &SectionCommand,
) -> Result<(), AllocError> {
    match statement {
        SectionCommand::Section(section) => push_section(alloc, out, section.get()),
        SectionCommand::SetLocation(location) => push_value(alloc, out, &location.address),
        SectionCommand::Assert(assert) => push_assert(alloc, out, assert),
        SectionCommand::Provide(provide) => push_provide(alloc, out, provide),
        SectionCommand::SymbolAssignment(assignment) => {
            push_name(out, &assignment.name)?;
            push_value(alloc, out, &assignment.expr)
        }
    }
}

fn push_sections(alloc: Global, out: &mut String, sections: &Sections) -> Result<(), AllocError> {
    out.push('{')?;
    for statement in sections.commands.as_slice() {
        push_statement(alloc, out, statement)?;
    }
    out.push('}')
}

fn push_region(alloc: Global, out: &mut String, region: &MemoryRegion) -> Result<(), AllocError> {
    push_name(out, &region.name)?;
    push_value(alloc, out, &region.origin)?;
    push_value(alloc, out, &region.length)
}

// The type, the flags, and a mark for each of FILEHDR and PHDRS.
fn push_header(alloc: Global, out: &mut String, header: &Phdr) -> Result<(), AllocError> {
    push_name(out, &header.name)?;
    push_value(alloc, out, &header.ptype)?;
    if let Some(flags) = &header.flags {
        push_value(alloc, out, flags)?;
    }
    if header.has_filehdr {
        out.push('f')?;
    }
    if header.has_phdrs {
        out.push('p')?;
    }
    out.push(';')
}

fn push_format(out: &mut String, format: &OutputFormat) -> Result<(), AllocError> {
    push_text(out, &format.default)?;
    if let Some(big) = &format.big {
        push_text(out, big)?;
    }
    if let Some(little) = &format.little {
        push_text(out, little)?;
    }
    Ok(())
}

fn push_regions(
    alloc: Global,
    out: &mut String,
    regions: &Items<MemoryRegion>,
) -> Result<(), AllocError> {
    for region in regions.as_slice() {
        push_region(alloc, out, region)?;
    }
    Ok(())
}

fn push_headers(alloc: Global, out: &mut String, headers: &Items<Phdr>) -> Result<(), AllocError> {
    for header in headers.as_slice() {
        push_header(alloc, out, header)?;
    }
    Ok(())
}

// What holds no other commands, by the kind of command and what is in it.
fn push_leaf(alloc: Global, out: &mut String, command: &Command) -> Result<(), AllocError> {
    match command {
        Command::Arg(name) => push_text(out, name),
        Command::Group(_) => out.push('g'),
        Command::AsNeeded(_) => out.push('n'),
        Command::Ignored => out.push('i'),
        Command::Sections(sections) => push_sections(alloc, out, sections),
        Command::Entry(name) => {
            out.push('@')?;
            push_text(out, name)
        }
        Command::Version(content) => {
            out.push('v')?;
            push_text(out, content)
        }
        Command::SymbolDefinition { name, value } => {
            push_name(out, name)?;
            push_value(alloc, out, value)
        }
        Command::SetLocation(location) => push_value(alloc, out, &location.address),
        Command::Provide(provide) => push_provide(alloc, out, provide),
        Command::Assert(assert) => push_assert(alloc, out, assert),
        Command::Memory(regions) => push_regions(alloc, out, regions),
        Command::Phdrs(headers) => push_headers(alloc, out, headers),
        Command::OutputFormat(format) => push_format(out, format),
    }
}

fn push_command(alloc: Global, out: &mut String, command: &Command) -> Result<(), AllocError> {
    push_leaf(alloc, out, command)?;
    if let Command::Group(commands) | Command::AsNeeded(commands) = command {
        out.push('[')?;
        for inner in commands.as_slice() {
            push_command(alloc, out, inner)?;
        }
        out.push(']')?;
    }
    Ok(())
}

// The whole tree as a short text, or the fault.
fn outline(alloc: Global, text: &[u8]) -> Result<String, AllocError> {
    let mut out = String::new(alloc);
    match LinkerScript::parse(alloc, text) {
        Ok(script) => {
            for command in script.commands.as_slice() {
                push_command(alloc, &mut out, command)?;
            }
            Ok(out)
        }
        Err(Fault::Syntax { position }) => format!(in alloc; "syntax {position}"),
        Err(Fault::UnclosedComment { position }) => format!(in alloc; "unclosed {position}"),
        Err(Fault::UnsupportedNestedSort { position }) => format!(in alloc; "nested {position}"),
        Err(Fault::TooDeep { position }) => format!(in alloc; "deep {position}"),
        Err(_) => String::from_str(alloc, "other"),
    }
}

// The bytes of three parts.
fn joined(alloc: Global, parts: [&[u8]; 3]) -> Result<Vec<u8>, AllocError> {
    let mut script = Vec::new(alloc);
    for part in parts {
        for byte in part {
            script.push(*byte)?;
        }
    }
    Ok(script)
}

// Each text, by its name, has the outline, where it is put between the two others.
fn expect(
    rt: &impl Abort,
    alloc: Global,
    before: &[u8],
    after: &[u8],
    cases: &[(&str, &[u8], &str)],
) -> Result<(), Fail> {
    for (name, text, expected) in cases {
        let script = joined(alloc, [before, text, after])?;
        let found = outline(alloc, script.as_slice())?;
        assert_eq!(rt; found.as_str(), *expected, "{name}");
    }
    Ok(())
}

#[test]
fn scripts(rt: HostRuntime) -> Result<(), Fail> {
    let cases: [(&str, &[u8], &str); 14] = [
        ("no command", b" # a line\n/*/\t\r\n", ""),
        ("a comment alone", b"/*/", ""),
        ("sections twice", b"SECTIONS{}SECTIONS { }", "{}{}"),
        ("a quoted word", b"\"SECTIONS\" { }", "{}"),
        ("a word alone", b"SECTIONS", "syntax 8"),
        ("a comment in its token", b"SECTIONS/**/{ }", "syntax 12"),
        ("a line without a newline", b"# no newline", "syntax 1"),
        ("an open comment", b"SECTIONS { } /* open", "unclosed 13"),
        ("the first open comment", b"/* a /* b", "unclosed 0"),
        ("a semicolon too many", b"x = 1;;", "syntax 6"),
        ("no value", b"x =", "syntax 3"),
        ("an open quote", b"x = \"", "syntax 4"),
        ("an argument and a semicolon", b"a ;", "syntax 2"),
        ("arguments", b"a \"b c\" -ld", "a;b c;-ld;"),
    ];
    expect(&rt, rt.alloc(), b"", b"", &cases)
}

#[test]
fn commands(rt: HostRuntime) -> Result<(), Fail> {
    let cases: [(&str, &[u8], &str); 10] = [
        ("no semicolons", b"x = 1 . = 2", "x=Number(1);=Number(2);"),
        (
            "semicolons",
            b"x = 1; \".\" = 2 ;",
            "x=Number(1);=Number(2);",
        ),
        ("a comment after a value", b"x = 1 /* c */;", "syntax 7"),
        ("a provide", b"PROVIDE_HIDDEN ( x = 1 )", "-x=Number(1);"),
        ("an operator in it", b"PROVIDE(x += 1);", "syntax 10"),
        ("an equal in its token", b"PROVIDE(x=1)", "syntax 11"),
        (
            "asserts",
            b"ASSERT(1, m); ASSERT(2, n)",
            "6?m=Number(1);20?n=Number(2);",
        ),
        ("no message", b"ASSERT(1)", "syntax 8"),
        ("a comment in open quotes", b"ASSERT(1, \"/*", "syntax 13"),
        ("a comment in a value", b"x = 1 + /* c */ 2", "syntax 8"),
    ];
    expect(&rt, rt.alloc(), b"", b"", &cases)
}

#[test]
fn changes(rt: HostRuntime) -> Result<(), Fail> {
    let cases: [(&str, &[u8], &str); 2] = [
        (
            "a symbol",
            b"x |= 7",
            "x=BitwiseOr(Boxed { inner: Symbol(Name { bytes: [120] }) }, Boxed { inner: Number(7) });",
        ),
        (
            "the location counter",
            b". <<= 2 + 3",
            "=LeftShift(Boxed { inner: LocationCounter }, Boxed { inner: Add(Boxed { inner: Number(2) }, Boxed { inner: Number(3) }) });",
        ),
    ];
    expect(&rt, rt.alloc(), b"", b"", &cases)
}

#[test]
fn nests(rt: HostRuntime) -> Result<(), Fail> {
    let cases: [(&str, &[u8], &str); 11] = [
        ("an empty group", b"GROUP ( )", "g[]"),
        ("inputs", b"INPUT(a \"b c\"/* d */-le)", "g[a;b c;-le;]"),
        ("as needed", b"GROUP(a AS_NEEDED(b))", "g[a;n[b;]]"),
        (
            "all commands",
            b"GROUP(x = 1; ENTRY(a) SECTIONS { })",
            "g[x=Number(1);@a;{}]",
        ),
        ("what is ignored", b"OUTPUT_ARCH(i386:x86-64) a", "ia;"),
        ("brackets in it", b"OUTPUT_ARCH(GROUP())", "i"),
        ("a quoted word", b"\"GROUP\"(a)", "g[a;]"),
        ("an assignment", b"GROUP = 5", "syntax 6"),
        ("no bracket that closes", b"GROUP ( a", "syntax 9"),
        ("a comma", b"GROUP(a, b)", "syntax 7"),
        (
            "a comment before the bracket",
            b"GROUP /* c */ (a)",
            "g[a;]",
        ),
    ];
    expect(&rt, rt.alloc(), b"", b"", &cases)
}

// So many GROUPs, one in the brackets of another.
fn groups(alloc: Global, count: usize) -> Result<Vec<u8>, AllocError> {
    let mut script = Vec::new(alloc);
    for _ in 0..count {
        script.extend_from_slice(b"GROUP(")?;
    }
    for _ in 0..count {
        script.push(b')')?;
    }
    Ok(script)
}

#[test]
fn depths(rt: HostRuntime) -> Result<(), Fail> {
    let deepest = groups(rt.alloc(), 256)?;
    assert!(rt; LinkerScript::parse(rt.alloc(), deepest.as_slice()).is_ok());
    let deeper = groups(rt.alloc(), 257)?;
    assert_eq!(rt;
        outline(rt.alloc(), deeper.as_slice())?.as_str(),
        "deep 1542"
    );
    Ok(())
}

#[test]
fn names_in_brackets(rt: HostRuntime) -> Result<(), Fail> {
    let cases: [(&str, &[u8], &str); 10] = [
        ("an entry", b"ENTRY( _start /* c */ )", "@_start;"),
        ("no entry", b"ENTRY()", "syntax 6"),
        ("two entries", b"ENTRY(a b)", "syntax 8"),
        ("no brackets", b"ENTRY a", "syntax 6"),
        (
            "one format",
            b"OUTPUT_FORMAT(elf64-x86-64)",
            "elf64-x86-64;",
        ),
        (
            "three formats",
            b"OUTPUT_FORMAT ( \"a\" , b, /* c */ c )",
            "a;b;c;",
        ),
        ("two formats", b"OUTPUT_FORMAT(a, b)", "syntax 18"),
        ("four formats", b"OUTPUT_FORMAT(a,b,c,d)", "syntax 19"),
        ("no format", b"OUTPUT_FORMAT()", "syntax 14"),
        ("no comma", b"OUTPUT_FORMAT(a b)", "syntax 16"),
    ];
    expect(&rt, rt.alloc(), b"", b"", &cases)
}

#[test]
fn versions(rt: HostRuntime) -> Result<(), Fail> {
    let cases: [(&str, &[u8], &str); 7] = [
        (
            "a version in it",
            b"VERSION { A { global: f; }; }",
            "vA { global: f; }; ;",
        ),
        ("nothing in it", b"VERSION{ /* c */ }a", "v;a;"),
        ("a semicolon", b"VERSION { a } /* c */ ; b", "va ;b;"),
        ("quotes do not count", b"VERSION { \"}\" }", "syntax 15"),
        ("comments in it stay", b"VERSION { a /* } b", "va /* ;b;"),
        ("no brace that closes", b"VERSION { { }", "syntax 13"),
        ("no brace that opens", b"VERSION a", "syntax 8"),
    ];
    expect(&rt, rt.alloc(), b"", b"", &cases)
}

#[test]
fn regions(rt: HostRuntime) -> Result<(), Fail> {
    let cases: [(&str, &[u8], &str); 10] = [
        (
            "two regions",
            b"a : ORIGIN = 1, LENGTH = 2 b : org=3 # c\n , len=4",
            "a=Number(1);=Number(2);b=Number(3);=Number(4);",
        ),
        (
            "short words",
            b"a : o = 1 , l = 1K",
            "a=Number(1);=Number(1024);",
        ),
        ("no region", b"", ""),
        ("a colon in a token", b"a: o = 1, l = 2", "syntax 11"),
        ("attributes", b"a (rx) : o = 1, l = 2", "syntax 10"),
        ("another word", b"a : orig = 1, l = 2", "syntax 13"),
        ("no comma", b"a : o = 1 l = 2", "syntax 18"),
        ("no length", b"a : o = 1", "syntax 17"),
        ("a semicolon", b"a : o = 1, l = 2;", "syntax 24"),
        (
            "a comment after it",
            b"a : o = 1, l = 2 /* c */",
            "syntax 26",
        ),
    ];
    expect(&rt, rt.alloc(), b"MEMORY{ ", b"}", &cases)
}

#[test]
fn headers(rt: HostRuntime) -> Result<(), Fail> {
    let cases: [(&str, &[u8], &str); 12] = [
        (
            "two headers",
            b"a PT_LOAD FILEHDR PHDRS/* c */; b 5 # d\n;",
            "a=Number(1);fp;b=Number(5);;",
        ),
        (
            "flags",
            b"a PT_GNU_STACK FLAGS /* c */ ( 6 )",
            "a=Number(1685382481);=Number(6);;",
        ),
        (
            "the last flags count",
            b"a PT_PHDR FLAGS(1) PHDRS FLAGS(2)",
            "a=Number(6);=Number(2);p;",
        ),
        ("words without gaps", b"a 1FILEHDRPHDRS", "syntax 9"),
        (
            "words in one token",
            b"a (1)FILEHDRPHDRS",
            "a=Number(1);fp;",
        ),
        (
            "no semicolon",
            b"a PT_TLS b 2",
            "a=Number(7);;b=Number(2);;",
        ),
        (
            "a symbol as type",
            b"a PT",
            "a=Symbol(Name { bytes: [80, 84] });;",
        ),
        ("no such type", b"a PT_OTHER;", "syntax 17"),
        ("a type in quotes", b"a \"PT_LOAD\";", "syntax 9"),
        ("no type", b"a ;", "syntax 9"),
        ("a comment in flags", b"a 1 FLAGS(/* c */1)", "syntax 17"),
        ("an address", b"a 1 AT(0)", "a=Number(1);;AT=Number(0);;"),
    ];
    expect(&rt, rt.alloc(), b"PHDRS{ ", b"}", &cases)
}

#[test]
fn statements(rt: HostRuntime) -> Result<(), Fail> {
    let cases: [(&str, &[u8], &str); 12] = [
        ("assignments", b". = 1; x = 2;", "{=Number(1);x=Number(2);}"),
        ("no semicolon", b". = 1 ", "syntax 15"),
        ("a comment before it", b". = 1 /* c */;", "syntax 16"),
        ("two equals", b". == 1;", "syntax 11"),
        ("a blank in an operator", b". < = 1;", "syntax 11"),
        ("a command's word", b"GROUP = 1;", "{GROUP=Number(1);}"),
        ("a provide", b"PROVIDE ( x = 1 )", "{+x=Number(1);}"),
        ("an assert", b"ASSERT (1, \"a b\")", "{16?a b=Number(1);}"),
        ("a semicolon after it", b"ASSERT(1, m);", "syntax 21"),
        ("a word is no name", b"PROVIDE_HIDDEN : { }", "syntax 24"),
        ("a section without a name", b"\"\" : { }", "{:;}"),
        ("a colon in a token", b".a: { }", "syntax 13"),
    ];
    expect(&rt, rt.alloc(), b"SECTIONS{", b"}", &cases)
}

#[test]
fn clauses(rt: HostRuntime) -> Result<(), Fail> {
    let cases: [(&str, &[u8], &str); 16] = [
        ("a start", b"7 :", "{.as=Number(7);:;}"),
        ("an attribute", b"(NOLOAD) :", "{.a(Noload):;}"),
        ("both", b"7 ( INFO ) :", "{.a(Info)s=Number(7);:;}"),
        (
            "the last counts",
            b"1 (COPY) 2 (DSECT) :",
            "{.a(Dsect)s=Number(2);:;}",
        ),
        ("no attribute", b"(8) :", "{.as=Number(8);:;}"),
        ("on after an attribute", b"(INFO) + 1 :", "syntax 19"),
        ("an open attribute", b"(NOLOAD :", "syntax 20"),
        ("a load", b": AT(1)", "{.al=Number(1);:;}"),
        ("an alignment", b": ALIGN(8)", "{.aa=Number(8);:;}"),
        (
            "two loads",
            b": AT(1) ALIGN(8) AT(2)",
            "{.al=Number(2);a=Number(8);:;}",
        ),
        (
            "a gap in a clause",
            b": AT /* x */ ( 1 ) /* y */",
            "{.al=Number(1);:;}",
        ),
        ("a longer word", b": ATx", "syntax 16"),
        ("no bracket", b": ALIGN 8", "syntax 20"),
        ("no value", b": AT()", "syntax 17"),
        ("a clause before the colon", b"AT(1) :", "syntax 14"),
        ("another clause", b": SUBALIGN(8)", "syntax 14"),
    ];
    expect(&rt, rt.alloc(), b"SECTIONS{.a ", b" {}}", &cases)
}

#[test]
fn tails(rt: HostRuntime) -> Result<(), Fail> {
    let cases: [(&str, &[u8], &str); 13] = [
        ("a comma", b",", "{.a:;}"),
        ("two commas", b",,", "syntax 16"),
        ("a region", b"> R", "{.a:;>R;}"),
        ("headers", b" :t :\"\"", "{.a:;:t;:;}"),
        ("a fill", b"=0x90", "{.a:;=Number(144);}"),
        ("all of them", b":h >R =1 ,", "{.a:;:h;>R;=Number(1);}"),
        ("regions", b">R >S", "{.a:;>S;}"),
        ("fills", b"=1 :h =2", "{.a:;:h;=Number(2);}"),
        (
            "a fill goes on",
            b"=0 >1",
            "{.a:;=GreaterThan(Boxed { inner: Number(0) }, Boxed { inner: Number(1) });}",
        ),
        ("no region", b">", "syntax 16"),
        ("no header", b": ", "syntax 17"),
        ("no fill", b"=", "syntax 16"),
        ("a fill of two", b"==1", "syntax 16"),
    ];
    expect(&rt, rt.alloc(), b"SECTIONS{.a :{}", b"}", &cases)
}

#[test]
fn contents(rt: HostRuntime) -> Result<(), Fail> {
    let cases: [(&str, &[u8], &str); 12] = [
        ("a symbol", b"x = 1;", "{.a:x=Number(1);;}"),
        (
            "the location",
            b". += 2;",
            "{.a:=Add(Boxed { inner: LocationCounter }, Boxed { inner: Number(2) });;}",
        ),
        ("no semicolon", b"x = 1 ", "{.a:x=Number(1);;}"),
        ("a comment after a value", b"x = 1 /* c */;", "syntax 21"),
        (
            "a provide",
            b"PROVIDE_HIDDEN(x = 1);",
            "{.a:-x=Number(1);;}",
        ),
        ("a quoted provide", b"\"PROVIDE\"(x)", "{.a:<PROVIDE>(x );}"),
        ("an assert", b"ASSERT(1, m)", "{.a:20?m=Number(1);;}"),
        (
            "a semicolon after it",
            b"ASSERT(1, m);",
            "{.a:20?m=Number(1);;}",
        ),
        ("constructors", b"CONSTRUCTORS", "{.a:*;}"),
        ("a semicolon after that", b"CONSTRUCTORS;", "syntax 26"),
        (
            "a word and an operator",
            b"KEEP = 1;",
            "{.a:KEEP=Number(1);;}",
        ),
        ("an empty name", b"\"\" = 1;", "{.a:=Number(1);;}"),
    ];
    expect(&rt, rt.alloc(), b"SECTIONS{.a :{", b"}}", &cases)
}

#[test]
fn matchers(rt: HostRuntime) -> Result<(), Fail> {
    let cases: [(&str, &[u8], &str); 11] = [
        ("every file", b"*(.a .b);\"*\"()", "{.a:(.a .b )();}"),
        (
            "files",
            b"f.o/**/(.a) \"a b\"(.b)",
            "{.a:<f.o/**/>(.a )<a b>(.b );}",
        ),
        ("an empty file", b"\"\"()", "{.a:<>();}"),
        ("kept", b"KEEP (f.o /* x */ (.c) ) ;", "{.a:!<f.o>(.c );}"),
        ("a quoted word", b"\"KEEP\"(.a)", "{.a:<KEEP>(.a );}"),
        ("a gap in KEEP", b"KEEP( *(.a))", "syntax 19"),
        ("KEEP without patterns", b"KEEP(*)", "syntax 20"),
        ("no patterns", b"f.o", "syntax 17"),
        ("a comment in a name", b"*(.a/* (b)", "{.a:(.a/* (b );}"),
        ("form feed", b"*(.a\x0c)", "syntax 18"),
        ("sorted", b"*(SORT(.t*) .u)", "{.a:(^.t* .u );}"),
    ];
    expect(&rt, rt.alloc(), b"SECTIONS{.a :{", b"}}", &cases)
}

#[test]
fn sort_words(rt: HostRuntime) -> Result<(), Fail> {
    let cases: [(&str, &[u8], &str); 10] = [
        (
            "gaps",
            b"*(SORT /* x */ ( .a /* y */ ).b)",
            "{.a:(^.a .b );}",
        ),
        ("by name", b"*(SORT_BY_NAME(.b))", "{.a:(^.b );}"),
        ("by alignment", b"*(SORT_BY_ALIGNMENT(.v))", "{.a:(.v );}"),
        ("in a name", b"*(.aSORT(.b)", "{.a:(.aSORT(.b );}"),
        (
            "a gap between two",
            b"*(SORT( SORT(.b))",
            "{.a:(^SORT(.b );}",
        ),
        ("one in another", b"*(SORT(SORT_BY_NAME(.a)))", "nested 21"),
        ("a word that begins so", b"*(SORTED)", "syntax 20"),
        ("no name", b"*(SORT())", "syntax 21"),
        ("two names", b"*(SORT(.a .b))", "syntax 24"),
        ("an open comment", b"*(SORT(/* open", "unclosed 21"),
    ];
    expect(&rt, rt.alloc(), b"SECTIONS{.a :{", b"}}", &cases)
}

#[test]
fn copies(rt: HostRuntime) -> Result<(), Fail> {
    let alloc = rt.alloc();
    let texts: [&[u8]; 4] = [
        b"SECTIONS { .f : ALIGN(8) { s = .; KEEP(c.o(.r)); . = ALIGN(32); } }",
        b"SECTIONS { .f : ALIGN(8) { s = .; KEEP(c.o(.r)); . = ALIGN(16); } }",
        b"GROUP(a AS_NEEDED(b))",
        b"GROUP(a AS_NEEDED(b) )VERSION { }",
    ];
    for (i, text) in texts.iter().enumerate() {
        let original = LinkerScript::parse(alloc, text)?;
        let copy = original.copy(alloc)?;
        for (j, other) in texts.iter().enumerate() {
            let other = LinkerScript::parse(alloc, other)?;
            assert_eq!(rt; copy == other, i == j, "{i} {j}");
        }
    }
    Ok(())
}

#[test]
fn gaps(rt: HostRuntime) -> Result<(), Fail> {
    let cases: [(&str, &[u8], Result<usize, Fault>); 5] = [
        ("no bytes", b"", Ok(0)),
        ("all kinds", b" \t# line\n /* c */ x", Ok(18)),
        ("the star that opens", b"/*/x", Ok(3)),
        (
            "an open line",
            b" # line",
            Err(Fault::Syntax { position: 2 }),
        ),
        (
            "an open comment",
            b"# l\n /* c",
            Err(Fault::UnclosedComment { position: 5 }),
        ),
    ];
    for (name, text, expected) in cases {
        assert_eq!(rt; skip_comments_and_whitespace(text, 0), expected, "{name}");
    }
    Ok(())
}
