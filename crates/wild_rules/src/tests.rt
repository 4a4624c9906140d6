use super::*;
use std::alloc::Global;
use std::process::Abort;
use std::test::Fail;
use wild_base::{NoMemory, OutputSectionId};

const CUSTOM: SectionRuleOutcome = SectionRuleOutcome::Custom;

const DISCARD: SectionRuleOutcome = SectionRuleOutcome::Discard;

const DEBUG: SectionRuleOutcome = SectionRuleOutcome::Debug;

const EH_FRAME: SectionRuleOutcome = SectionRuleOutcome::EhFrame;

// Whether the rule, and a copy of it, match.
fn both_match(
    rt: &impl Abort,
    alloc: Global,
    rule: &SectionRule,
    name: &[u8],
    file: Option<&[u8]>,
) -> bool {
    let copy = rule.copy(alloc).expect(rt, "memory");
    let found = rule.matches(name, file);
    assert!(rt; copy.matches(name, file) == found);
    assert!(rt; copy.outcome() == rule.outcome());
    found
}

// Whether the rule of a script with this pattern matches.
fn is_match(rt: &impl Abort, alloc: Global, pattern: &[u8], name: &[u8]) -> bool {
    let rule = SectionRule::new(alloc, pattern, None, CUSTOM).expect(rt, "a rule");
    both_match(rt, alloc, &rule, name, None)
}

#[test]
fn section_patterns(rt: HostRuntime) {
    for (case, pattern, name, wanted) in [
        (
            "an escaped star is itself",
            b"foo\\*bar".as_slice(),
            b"foo*bar".as_slice(),
            true,
        ),
        ("and no other", b"foo\\*bar", b"fooxbar", false),
        (
            "its backslash is dropped",
            b"foo\\*bar",
            b"foo\\*bar",
            false,
        ),
        ("an escaped backslash", b"a\\\\", b"a\\", true),
        ("a class", b".mydata.[0-9]", b".mydata.5", true),
        (
            "a class is one character",
            b".mydata.[0-9]",
            b".mydata.10",
            false,
        ),
        ("a star inside", b".text.*.foo", b".text.bar.foo", true),
        ("another end", b".text.*.foo", b".text.bar.baz", false),
        ("the name itself", b".text", b".text", true),
        ("a longer name", b".text", b".text.hot", false),
        ("a star and what is no text", b"*", b".\xff", false),
        ("no text, but the name itself", b".\xff", b".\xff", true),
    ] {
        assert!(rt;
            is_match(&rt, rt.alloc(), pattern, name) == wanted,
            "{case}"
        );
    }
}

// Whether the rule of a script for .ctors in files of this pattern matches.
fn is_file_match(rt: &impl Abort, alloc: Global, pattern: &[u8], file: Option<&[u8]>) -> bool {
    let rule = SectionRule::new(alloc, b".ctors", Some(pattern), CUSTOM).expect(rt, "a rule");
    assert!(rt; !rule.matches(b".dtors", file));
    both_match(rt, alloc, &rule, b".ctors", file)
}

#[test]
fn file_patterns(rt: HostRuntime) {
    for (case, pattern, file, wanted) in [
        (
            "one character",
            b"*crt?.o".as_slice(),
            Some(b"lib/crt1.o".as_slice()),
            true,
        ),
        ("none", b"*crt?.o", Some(b"crt.o"), false),
        ("two", b"*crt?.o", Some(b"crt10.o"), false),
        (
            "a name that is no text",
            b"*crt?.o",
            Some(b"\xffcrt1.o"),
            false,
        ),
        ("no name", b"*crt?.o", None, false),
        ("a star and no name", b"*", None, false),
        ("an escaped star", b"a\\*.o", Some(b"a*.o"), true),
        ("the name itself", b"a.o", Some(b"a.o"), true),
    ] {
        assert!(rt;
            is_file_match(&rt, rt.alloc(), pattern, file) == wanted,
            "{case}"
        );
    }
}

#[test]
fn section_faults(rt: HostRuntime) {
    for (case, pattern) in [
        ("two stars", b"a**".as_slice()),
        ("no bytes", b""),
        ("a last backslash", b"a\\"),
        ("a last backslash after an escaped one", b"a\\\\\\"),
        ("a star and what is no text", b"*\xff"),
    ] {
        let rule = SectionRule::new(rt.alloc(), pattern, None, CUSTOM);
        assert!(rt; rule.err() == Some(RuleFault::BadSection), "{case}");
    }
}

#[test]
fn file_faults(rt: HostRuntime) {
    for (case, pattern, file, wanted) in [
        (
            "the section alone",
            b"[a".as_slice(),
            b"a.o".as_slice(),
            RuleFault::BadSection,
        ),
        ("both", b"a**", b"[a", RuleFault::BadFile),
        ("no bytes", b".text", b"", RuleFault::BadFile),
        ("no text", b".text", b"\xff", RuleFault::BadFile),
        ("a last backslash", b".text", b"a\\", RuleFault::BadFile),
    ] {
        let rule = SectionRule::new(rt.alloc(), pattern, Some(file), CUSTOM);
        assert!(rt; rule.err() == Some(wanted), "{case}");
    }
}

#[test]
fn names_and_prefixes(rt: HostRuntime) -> Result<(), Fail> {
    let alloc = rt.alloc();
    let two = OutputSectionId(2);
    let discard = SectionRuleOutcome::Discard;
    let kept = SectionOutputInfo {
        section_id: two,
        must_keep: true,
        sorted: false,
    };
    let regular = SectionOutputInfo::regular(two);
    assert!(rt; regular != kept && SectionOutputInfo::keep(two) == kept);
    let rule = SectionRule::prefix_section(alloc, b".te", two)?;
    assert!(rt; rule.outcome() == SectionRuleOutcome::Section(regular));
    assert!(rt; both_match(&rt, alloc, &rule, b".text", None));
    let rule = SectionRule::exact(alloc, b".te", discard)?;
    assert!(rt; rule.outcome() == discard);
    assert!(rt; !both_match(&rt, alloc, &rule, b".text", Some(b"a.o")));
    let rule = SectionRule::exact_section_keep(alloc, b".text", two)?;
    assert!(rt; rule.outcome() == SectionRuleOutcome::Section(kept));
    assert!(rt; both_match(&rt, alloc, &rule, b".text", Some(b"\xff")));
    Ok(())
}

#[test]
fn sorted_prefix(rt: HostRuntime) -> Result<(), Fail> {
    let alloc = rt.alloc();
    let two = OutputSectionId(2);
    let rule = SectionRule::prefix_section_sort(alloc, b".te", two)?;
    let kept = SectionOutputInfo::keep(two);
    assert!(rt; rule.outcome() == SectionRuleOutcome::SortedSection(kept));
    assert!(rt; both_match(&rt, alloc, &rule, b".text", None));
    assert!(rt; !both_match(&rt, alloc, &rule, b".t", None));
    let rule = SectionRule::prefix(alloc, b"*", SectionRuleOutcome::Debug)?;
    assert!(rt; both_match(&rt, alloc, &rule, b"*a", None));
    assert!(rt; !both_match(&rt, alloc, &rule, b"a", None));
    Ok(())
}

// `.text` in a.o, any name that ends in t, and names that begin with `.te`.
fn three_rules(alloc: Global) -> Result<SectionRules, RuleFault> {
    let mut rules = Vec::new(alloc);
    let rule = SectionRule::new(alloc, b".text", Some(b"a.o"), SectionRuleOutcome::Discard)?;
    rules.push(rule).map_err(|_| RuleFault::NoMemory)?;
    let rule = SectionRule::new(alloc, b"*t", None, SectionRuleOutcome::Debug)?;
    rules.push(rule).map_err(|_| RuleFault::NoMemory)?;
    let rule = SectionRule::prefix_section(alloc, b".te", OutputSectionId(2))?;
    rules.push(rule).map_err(|_| RuleFault::NoMemory)?;
    let rules = SectionRules::from_rules(alloc, rules.as_slice())?;
    Ok(rules)
}

#[test]
fn first_match(rt: HostRuntime) {
    let rules = three_rules(rt.alloc()).expect(&rt, "rules");
    let section = SectionRuleOutcome::Section(SectionOutputInfo::regular(OutputSectionId(2)));
    let file: Option<&[u8]> = Some(b"a.o");
    for (case, name, file, wanted) in [
        (
            "the first of three",
            b".text".as_slice(),
            file,
            Some(DISCARD),
        ),
        (
            "another file",
            b".text",
            Some(b"b.o".as_slice()),
            Some(DEBUG),
        ),
        ("no file", b".text", None, Some(DEBUG)),
        ("the last of three", b".text.a", file, Some(section)),
        ("none", b".data", None, None),
        ("no name", b"", file, None),
    ] {
        let found = rules.lookup_rule(name, file);
        assert!(rt; found.map(|rule| rule.outcome()) == wanted, "{case}");
    }
}

// Rules of one key, `a` and three zeros, and short ones between them and behind.
fn rules_of_short_names(alloc: Global) -> Result<SectionRules, NoMemory> {
    let one = SectionRule::exact(alloc, b"a", DISCARD)?;
    let four = SectionRule::exact(alloc, b"a\0\0\0", DEBUG)?;
    let short = SectionRule::prefix(alloc, b"a\0", EH_FRAME)?;
    let three = SectionRule::exact(alloc, b"a\0\0", DISCARD)?;
    SectionRules::from_rules(alloc, &[one, four, short, three])
}

#[test]
fn zeros_in_names(rt: HostRuntime) -> Result<(), Fail> {
    let rules = rules_of_short_names(rt.alloc())?;
    for (case, name, wanted) in [
        ("one byte", b"a".as_slice(), Some(DISCARD)),
        ("four bytes of the same key", b"a\0\0\0", Some(DEBUG)),
        (
            "a short rule before one with the key",
            b"a\0\0",
            Some(EH_FRAME),
        ),
        ("a short rule", b"a\0", Some(EH_FRAME)),
        ("five bytes", b"a\0\0\0\0", Some(EH_FRAME)),
        ("another byte", b"b", None),
        ("a zero", b"\0", None),
        ("no name", b"", None),
    ] {
        let found = rules.lookup_rule(name, None);
        assert!(rt; found.map(|rule| rule.outcome()) == wanted, "{case}");
    }
    Ok(())
}

// A wildcard among the first four characters, one behind them, and one behind a character of two bytes.
fn rules_with_wildcards(alloc: Global) -> Result<SectionRules, RuleFault> {
    let early = SectionRule::new(alloc, b".t?xt", None, DISCARD)?;
    let late = SectionRule::new(alloc, b".text.*", None, DEBUG)?;
    let other = SectionRule::new(alloc, b".\xc3\xa9.*", None, CUSTOM)?;
    let escaped = SectionRule::new(alloc, b"\\*abc*", None, CUSTOM)?;
    let last = SectionRule::new(alloc, b".t*", None, EH_FRAME)?;
    let rules = SectionRules::from_rules(alloc, &[early, late, other, escaped, last])?;
    Ok(rules)
}

#[test]
fn wildcards_at_the_start(rt: HostRuntime) {
    let rules = rules_with_wildcards(rt.alloc()).expect(&rt, "rules");
    for (case, name, wanted) in [
        ("among four", b".text".as_slice(), Some(DISCARD)),
        ("behind four, before the last", b".text.a", Some(DEBUG)),
        ("the last", b".texta", Some(EH_FRAME)),
        ("fewer than four bytes", b".t", Some(EH_FRAME)),
        ("two bytes", b".\xc3\xa9.a", Some(CUSTOM)),
        ("an escape", b"*abcd", Some(CUSTOM)),
        ("none", b"abcd", None),
    ] {
        let found = rules.lookup_rule(name, None);
        assert!(rt; found.map(|rule| rule.outcome()) == wanted, "{case}");
    }
}
