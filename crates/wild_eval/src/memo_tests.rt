ghost use Rattle.wild_eval.specs.Evaluated.{IsMemo};

use crate::{Addresses, Definition, Evaluator, Memo, Scope, SymbolEntry};
use sqlite_items::Boxed;
use std::alloc::Global;
use std::test::Fail;
use wild_base::{Name, NoMemory};
use wild_expression_tree::Expression;
use wild_numbering::Numbering;
use wild_value_spec::{DotSource, Point};

type Tree = Boxed<Expression>;

const OUTSIDE: Point = Point {
    place: 0,
    dot: DotSource::Zero,
    section: None,
};

fn digit(number: usize) -> u8 {
    b'0' + (number % 10) as u8
}

fn name_at(alloc: Global, index: usize) -> Result<Name, NoMemory> {
    let bytes = [
        b's',
        digit(index / 1000),
        digit(index / 100),
        digit(index / 10),
        digit(index),
    ];
    Name::new(alloc, &bytes)
}

fn symbol(alloc: Global, index: usize) -> Result<Tree, NoMemory> {
    let name = name_at(alloc, index)?;
    Ok(Boxed::new(alloc, Expression::Symbol(name))?)
}

fn negated(alloc: Global, tree: Tree) -> Result<Tree, NoMemory> {
    Ok(Boxed::new(alloc, Expression::Negate(tree))?)
}

fn twice(alloc: Global, index: usize) -> Result<Tree, NoMemory> {
    let (left, right) = (symbol(alloc, index)?, symbol(alloc, index)?);
    Ok(Boxed::new(alloc, Expression::Add(left, right))?)
}

// What the first symbol of a chain is: 1, twice the last one, or twice one that is not there.
#[derive(Clone, Copy)]
enum First {
    One,
    Last,
    Missing,
}

// Each further symbol is twice the one before it.
fn value_at(alloc: Global, first: First, index: usize, count: usize) -> Result<Tree, NoMemory> {
    if index > 0 {
        return twice(alloc, index - 1);
    }
    match first {
        First::One => Ok(Boxed::new(alloc, Expression::Number(1))?),
        First::Last => twice(alloc, count.saturating_sub(1)),
        First::Missing => twice(alloc, 9999),
    }
}

#[derive(Drop)]
struct Chain {
    names: Vec<Name>,
    values: Vec<Tree>,
    numbers: Numbering,
}

fn make_chain(alloc: Global, first: First, count: usize) -> Result<Chain, NoMemory> {
    let mut names = Vec::new(alloc);
    let mut values = Vec::new(alloc);
    let mut numbers = Numbering::new(alloc);
    for index in 0..count {
        let name = name_at(alloc, index)?;
        numbers.push(alloc, &name)?;
        names.push(name)?;
        values.push(value_at(alloc, first, index, count)?)?;
    }
    Ok(Chain {
        names,
        values,
        numbers,
    })
}

fn entries_of(alloc: Global, chain: &Chain) -> Result<Vec<SymbolEntry<'_>>, NoMemory> {
    let mut entries = Vec::new(alloc);
    for (name, value) in chain.names.iter().zip(chain.values.iter()) {
        let definition = Definition::OfScript {
            value: value.get(),
            point: OUTSIDE,
        };
        entries.push(SymbolEntry { name, definition })?;
    }
    Ok(entries)
}

// What is asked for: a symbol of the chain, or the number that gives 0 with it.
#[derive(Clone, Copy)]
enum Asked {
    Symbol(usize),
    Negated(usize),
}

fn asked_tree(alloc: Global, asked: Asked) -> Result<Tree, NoMemory> {
    match asked {
        Asked::Symbol(index) => symbol(alloc, index),
        Asked::Negated(index) => negated(alloc, symbol(alloc, index)?),
    }
}

fn answer(
    alloc: Global,
    evaluator: &Evaluator<'_>,
    memo: &mut Memo,
    asked: Asked,
) -> Result<Result<u64, u32>, NoMemory>
    requires { IsMemo evaluator.now memo.old }
    ensures { IsMemo evaluator.now memo.new }
{
    let tree = asked_tree(alloc, asked)?;
    match evaluator.full(memo, tree.get(), OUTSIDE) {
        Ok(number) => Ok(Ok(number)),
        Err(fault) => Ok(Err(fault.number())),
    }
}

type Answers = (Result<u64, u32>, Result<u64, u32>);

// Two questions about a chain, one after the other.
fn ask(
    alloc: Global,
    first: First,
    count: usize,
    one: Asked,
    two: Asked,
) -> Result<Answers, NoMemory> {
    let chain = make_chain(alloc, first, count)?;
    let entries = entries_of(alloc, &chain)?;
    let none = Numbering::new(alloc);
    let scope = Scope {
        sections: &[],
        section_numbers: &none,
        alignments: &[],
        symbols: &chain.numbers,
        entries: entries.as_slice(),
        script: b"",
        region_numbers: &none,
        regions: &[],
        segment_starts: [None; 3],
        header_size: 0,
    };
    let addresses = Addresses::new(alloc);
    let evaluator = Evaluator {
        alloc,
        scope: &scope,
        addresses: &addresses,
        statement: 7,
    };
    let mut memo = evaluator.memo();
    let one = answer(alloc, &evaluator, &mut memo, one)?;
    let two = answer(alloc, &evaluator, &mut memo, two)?;
    Ok((one, two))
}

const DEEP: Result<u64, u32> = Err(29);

#[test]
fn values_worked_once(rt: HostRuntime) -> Result<(), Fail> {
    for (name, first, count, one, two, wanted) in [
        (
            "40 times doubled",
            First::One,
            41,
            Asked::Symbol(40),
            Asked::Negated(40),
            (Ok(1 << 40), Ok(0xffff_ff00_0000_0000)),
        ),
        (
            "1000 times doubled",
            First::One,
            1001,
            Asked::Symbol(1000),
            Asked::Symbol(1000),
            (DEEP, DEEP),
        ),
        (
            "the last that fits, and the next",
            First::One,
            600,
            Asked::Symbol(511),
            Asked::Symbol(512),
            (Ok(0), DEEP),
        ),
        (
            "the next, and the last that fits",
            First::One,
            600,
            Asked::Symbol(512),
            Asked::Symbol(511),
            (DEEP, Ok(0)),
        ),
        (
            "what is kept no longer fits",
            First::One,
            600,
            Asked::Symbol(511),
            Asked::Negated(511),
            (Ok(0), DEEP),
        ),
        (
            "a ring",
            First::Last,
            5,
            Asked::Symbol(4),
            Asked::Symbol(4),
            (Err(28), Err(28)),
        ),
        (
            "a fault leaves no mark",
            First::Missing,
            5,
            Asked::Symbol(4),
            Asked::Symbol(4),
            (Err(26), Err(26)),
        ),
    ] {
        assert_eq!(rt; ask(rt.alloc(), first, count, one, two)?, wanted, "{name}");
    }
    Ok(())
}
