ghost use Rattle.std.specs.Prelude.{◌≡◌, ◌≤◌};
ghost use Rattle.wild_value_spec.specs.Marks.{max_height};

use crate::{Addresses, Definition, Evaluator, Scope, SymbolEntry};
use sqlite_items::Boxed;
use std::alloc::Global;
use std::marker::Brand;
use std::sync::ledger::{Blank, Ledger};
use std::test::Fail;
use wild_base::alignment::USIZE;
use wild_base::{Fault, Name, NoMemory, Steps};
use wild_expression_tree::{AssertCommand, Expression};
use wild_numbering::Numbering;
use wild_value_spec::{DotSource, Point};

type Tree = Boxed<Expression>;

const OUTSIDE: Point = Point {
    place: 0,
    dot: DotSource::Zero,
    section: None,
};

const INSIDE: Point = Point {
    place: 0,
    dot: DotSource::OfPlace,
    section: Some(0),
};

fn number(alloc: Global, number: u64) -> Result<Tree, NoMemory> {
    Ok(Boxed::new(alloc, Expression::Number(number))?)
}

fn symbol(alloc: Global, name: &[u8]) -> Result<Tree, NoMemory> {
    let name = Name::new(alloc, name)?;
    Ok(Boxed::new(alloc, Expression::Symbol(name))?)
}

fn sizeof(alloc: Global, name: &[u8]) -> Result<Tree, NoMemory> {
    let name = Name::new(alloc, name)?;
    Ok(Boxed::new(alloc, Expression::Sizeof(name))?)
}

fn alignof(alloc: Global, name: &[u8]) -> Result<Tree, NoMemory> {
    let name = Name::new(alloc, name)?;
    Ok(Boxed::new(alloc, Expression::Alignof(name))?)
}

fn addr(alloc: Global, name: &[u8]) -> Result<Tree, NoMemory> {
    let name = Name::new(alloc, name)?;
    Ok(Boxed::new(alloc, Expression::Addr(name))?)
}

fn loadaddr(alloc: Global, name: &[u8]) -> Result<Tree, NoMemory> {
    let name = Name::new(alloc, name)?;
    Ok(Boxed::new(alloc, Expression::Loadaddr(name))?)
}

fn defined(alloc: Global, name: &[u8]) -> Result<Tree, NoMemory> {
    let name = Name::new(alloc, name)?;
    Ok(Boxed::new(alloc, Expression::Defined(name))?)
}

fn negated(alloc: Global, part: Tree) -> Result<Tree, NoMemory> {
    Ok(Boxed::new(alloc, Expression::Negate(part))?)
}

// What is evaluated: `A` is the section there is, `B` one that is not.
#[derive(Clone, Copy)]
enum Sample {
    Five,
    MinusFive,
    Circle,
    Missing,
    Row,
    Low,
    SizeofA,
    SizeofB,
    AlignofA,
    AlignofB,
    AddrA,
    AddrB,
    LoadaddrA,
    LowDefined,
    MissingDefined,
}

fn tree(alloc: Global, sample: Sample) -> Result<Tree, NoMemory> {
    match sample {
        Sample::Five => symbol(alloc, b"five"),
        Sample::MinusFive => negated(alloc, symbol(alloc, b"five")?),
        Sample::Circle => symbol(alloc, b"a"),
        Sample::Missing => symbol(alloc, b"none"),
        Sample::Row => symbol(alloc, b"row"),
        Sample::Low => symbol(alloc, b"low"),
        Sample::SizeofA => sizeof(alloc, b".a"),
        Sample::SizeofB => sizeof(alloc, b".b"),
        Sample::AlignofA => alignof(alloc, b".a"),
        Sample::AlignofB => alignof(alloc, b".b"),
        Sample::AddrA => addr(alloc, b".a"),
        Sample::AddrB => addr(alloc, b".b"),
        Sample::LoadaddrA => loadaddr(alloc, b".a"),
        Sample::LowDefined => defined(alloc, b"low"),
        Sample::MissingDefined => defined(alloc, b"none"),
    }
}

// Section 0, `.a`, is 0x1000 to 0x1020 and is loaded at 0x8000. Row 3 stands in it, and row 4 below it.
fn learn(alloc: Global) -> Result<Addresses, NoMemory> {
    let mut addresses = Addresses::new(alloc);
    addresses.learn_start(0, 0x1000)?;
    addresses.learn_load(0, 0x8000)?;
    addresses.learn_end(0, 0x1020)?;
    addresses.learn_address(3, 0x1008)?;
    addresses.learn_address(4, 0xff0)?;
    Ok(addresses)
}

// What is asked of an evaluator: the full value of a tree, the height of its value within so many levels, or a test of it.
#[derive(Clone, Copy)]
enum Question {
    Full,
    Height(usize),
    Test,
}

// A condition whose bracket stands in line 3.
fn command(alloc: Global, tree: Tree) -> Result<AssertCommand, NoMemory> {
    Ok(AssertCommand {
        expression: tree,
        message: Name::new(alloc, b"no")?,
        at: 4,
    })
}

fn number_of(fault: &Fault) -> u32 {
    match fault {
        Fault::AssertFailed { line, .. } => 100 + (*line % 100) as u32,
        _ => fault.number(),
    }
}

fn height<L: Ledger>(
    evaluator: &Evaluator<'_>,
    levels: usize,
    tree: &Expression,
    point: Point,
    blank: Blank,
) -> Result<u64, Fault>
    requires levels { levels ≤ max_height }
    requires name { blank.name ≡ L.name }
    requires parts { blank.parts ≡ L.parts }
    requires some { blank.parts ≡ 1 }
{
    let mut steps: Steps<L> = Steps::new(blank);
    let value = evaluator.value(&mut evaluator.memo(), &mut steps, levels, tree, point)?;
    Ok(value.height as u64)
}

fn test(evaluator: &Evaluator<'_>, command: &AssertCommand, point: Point) -> Result<u64, Fault> {
    let value = evaluator.check(&mut evaluator.memo(), command, point)?;
    Ok(value.number)
}

fn answer(
    alloc: Global,
    evaluator: &Evaluator<'_>,
    sample: Sample,
    question: Question,
    point: Point,
) -> Result<Result<u64, u32>, NoMemory> {
    let tree = tree(alloc, sample)?;
    let found = match question {
        Question::Full => evaluator.full(&mut evaluator.memo(), tree.get(), point),
        Question::Height(levels) => {
            height::<Brand>(
                evaluator,
                levels.min(1024),
                tree.get(),
                point,
                Blank::new(1),
            )
        }
        Question::Test => test(evaluator, &command(alloc, tree)?, point),
    };
    match found {
        Ok(number) => Ok(Ok(number)),
        Err(fault) => Ok(Err(number_of(&fault))),
    }
}

fn number_names(alloc: Global, names: &[&Name]) -> Result<Numbering, NoMemory> {
    let mut numbers = Numbering::new(alloc);
    for name in names {
        numbers.push(alloc, name)?;
    }
    Ok(numbers)
}

fn script_entry<'a>(name: &'a Name, value: &'a Expression) -> SymbolEntry<'a> {
    SymbolEntry {
        name,
        definition: Definition::OfScript {
            value,
            point: OUTSIDE,
        },
    }
}

fn row_entry<'a>(name: &'a Name, row: usize) -> SymbolEntry<'a> {
    SymbolEntry {
        name,
        definition: Definition::OfRow {
            row,
            offset: 4,
            section: 0,
        },
    }
}

// The names and trees of a script.
#[derive(Drop)]
struct Script {
    section: Name,
    five: Name,
    a: Name,
    b: Name,
    row: Name,
    low: Name,
    value: Tree,
    to_a: Tree,
    to_b: Tree,
}

fn make_script(alloc: Global) -> Result<Script, NoMemory> {
    let minus_five = negated(alloc, number(alloc, 5)?)?;
    Ok(Script {
        section: Name::new(alloc, b".a")?,
        five: Name::new(alloc, b"five")?,
        a: Name::new(alloc, b"a")?,
        b: Name::new(alloc, b"b")?,
        row: Name::new(alloc, b"row")?,
        low: Name::new(alloc, b"low")?,
        value: negated(alloc, minus_five)?,
        to_a: symbol(alloc, b"a")?,
        to_b: symbol(alloc, b"b")?,
    })
}

// `five` is `- - 5`, `a` is `b`, `b` is `a`; `row` and `low` are symbols of rows.
fn ask(
    alloc: Global,
    sample: Sample,
    question: Question,
    point: Point,
) -> Result<Result<u64, u32>, NoMemory> {
    let script = make_script(alloc)?;
    let addresses = learn(alloc)?;
    let section = &script.section;
    let symbols = [&script.five, &script.a, &script.b, &script.row, &script.low];
    let entries = [
        script_entry(&script.five, script.value.get()),
        script_entry(&script.a, script.to_b.get()),
        script_entry(&script.b, script.to_a.get()),
        row_entry(&script.row, 3),
        row_entry(&script.low, 4),
    ];
    let scope = Scope {
        sections: &[section],
        section_numbers: &number_names(alloc, &[section])?,
        alignments: &[USIZE],
        symbols: &number_names(alloc, &symbols)?,
        entries: &entries,
        script: b"a\nb\n(",
        region_numbers: &number_names(alloc, &[])?,
        regions: &[],
        segment_starts: [None; 3],
        header_size: 0,
    };
    let evaluator = Evaluator {
        alloc,
        scope: &scope,
        addresses: &addresses,
        statement: 7,
    };
    answer(alloc, &evaluator, sample, question, point)
}

#[test]
fn symbols(rt: HostRuntime) -> Result<(), Fail> {
    for (name, sample, point, wanted) in [
        ("of the script", Sample::Five, OUTSIDE, Ok(5)),
        ("of the script, in a section", Sample::Five, INSIDE, Ok(5)),
        ("one that needs itself", Sample::Circle, OUTSIDE, Err(28)),
        ("no symbol", Sample::Missing, OUTSIDE, Err(26)),
        ("of a row", Sample::Row, OUTSIDE, Ok(0x100c)),
        ("of a row, in its section", Sample::Row, INSIDE, Ok(0x100c)),
        (
            "of a row before its section",
            Sample::Low,
            OUTSIDE,
            Ok(0xff4),
        ),
        ("of a row before this section", Sample::Low, INSIDE, Err(30)),
    ] {
        assert_eq!(rt;
            ask(rt.alloc(), sample, Question::Full, point)?,
            wanted,
            "{name}"
        );
    }
    Ok(())
}

#[test]
fn sections(rt: HostRuntime) -> Result<(), Fail> {
    for (name, sample, wanted) in [
        ("SIZEOF", Sample::SizeofA, Ok(0x20)),
        ("SIZEOF of no section", Sample::SizeofB, Ok(0)),
        ("ALIGNOF", Sample::AlignofA, Ok(8)),
        ("ALIGNOF of no section", Sample::AlignofB, Ok(0)),
        ("ADDR", Sample::AddrA, Ok(0x1000)),
        ("ADDR of no section", Sample::AddrB, Err(25)),
        ("LOADADDR", Sample::LoadaddrA, Ok(0x8000)),
        ("DEFINED", Sample::LowDefined, Ok(1)),
        ("DEFINED of no symbol", Sample::MissingDefined, Ok(0)),
    ] {
        assert_eq!(rt;
            ask(rt.alloc(), sample, Question::Full, OUTSIDE)?,
            wanted,
            "{name}"
        );
    }
    Ok(())
}

#[test]
fn heights(rt: HostRuntime) -> Result<(), Fail> {
    for (name, sample, levels, wanted) in [
        ("a row in one level", Sample::Row, 1, Ok(1)),
        ("a symbol in four levels", Sample::Five, 4, Ok(4)),
        ("a symbol in three levels", Sample::Five, 3, Err(29)),
        ("one more level for a sign", Sample::MinusFive, 5, Ok(5)),
        ("no level for a sign", Sample::MinusFive, 4, Err(29)),
    ] {
        let question = Question::Height(levels);
        assert_eq!(rt;
            ask(rt.alloc(), sample, question, OUTSIDE)?,
            wanted,
            "{name}"
        );
    }
    Ok(())
}

#[test]
fn conditions(rt: HostRuntime) -> Result<(), Fail> {
    for (name, sample, wanted) in [
        ("one that holds", Sample::Five, Ok(5)),
        ("0, in line 3", Sample::MissingDefined, Err(103)),
        ("no symbol", Sample::Missing, Err(26)),
    ] {
        assert_eq!(rt;
            ask(rt.alloc(), sample, Question::Test, OUTSIDE)?,
            wanted,
            "{name}"
        );
    }
    Ok(())
}
