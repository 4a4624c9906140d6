//! Look-ups among many rules, which would not end in a test's time if each tried one rule after the other.

ghost use Rattle.std.specs.Prelude.{◌≡◌};

use crate::platform_tests::{READ, Six, section};
use crate::{SectionRule, SectionRules};
use std::alloc::Global;
use std::marker::Brand;
use std::process::Abort;
use std::sync::ledger::{Blank, Ledger};
use std::test::Fail;
use wild_base::{NoMemory, Steps};

/// How many rules there are.
const RULES: u32 = 200_000;

/// How often a rule is looked up.
const LOOKUPS: u32 = 2_000_000;

const LETTERS: [u8; 26] = *b"abcdefghijklmnopqrstuvwxyz";

fn letter(number: u32) -> u8 {
    LETTERS[(number % 26) as usize]
}

// The four letters that write a number in base 26, the highest digit first.
fn name_of(number: u32) -> [u8; 4] {
    [
        letter(number / 17_576),
        letter(number / 676),
        letter(number / 26),
        letter(number),
    ]
}

// A rule for each number, which sends the section of its name to the section of its number.
fn many_rules(alloc: Global) -> Result<SectionRules, NoMemory> {
    let mut rules = Vec::new(alloc);
    for number in 0..RULES {
        rules.push(SectionRule::exact(alloc, &name_of(number), section(number))?)?;
    }
    SectionRules::from_rules(alloc, rules.as_slice())
}

// Looks up one name after the other, and begins again behind the last.
fn look_up_all<L: Ledger>(rt: &impl Abort, blank: Blank, rules: &SectionRules)
    requires name { blank.name ≡ L.name }
    requires parts { blank.parts ≡ L.parts }
    requires one { blank.parts ≡ 1 }
{
    let mut steps: Steps<L> = Steps::new(blank);
    for call in 0..LOOKUPS {
        let number = call % RULES;
        let name = name_of(number);
        let found = rules.lookup_counted::<Six, _, L>(&name, None, &READ, &mut steps);
        assert!(*rt; found == section(number), "{call}");
    }
}

#[test]
fn many_rules_and_lookups(rt: HostRuntime) -> Result<(), Fail> {
    let rules = many_rules(rt.alloc())?;
    look_up_all::<Brand>(&rt, Blank::new(1), &rules);
    Ok(())
}
