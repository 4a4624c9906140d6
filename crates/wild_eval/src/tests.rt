use crate::{Addresses, ConstFault, Evaluator, Scope, evaluate_const};
use sqlite_items::Boxed;
use std::alloc::Global;
use std::test::Fail;
use wild_base::{Alignment, Fault, Name, NoMemory};
use wild_expression_tree::Expression;
use wild_numbering::Numbering;
use wild_value_spec::{DotSource, Point};

type Tree = Boxed<Expression>;

fn number(alloc: Global, number: u64) -> Result<Tree, NoMemory> {
    Ok(Boxed::new(alloc, Expression::Number(number))?)
}

fn counter(alloc: Global) -> Result<Tree, NoMemory> {
    Ok(Boxed::new(alloc, Expression::LocationCounter)?)
}

fn difference(alloc: Global, left: u64, right: u64) -> Result<Tree, NoMemory> {
    let (left, right) = (number(alloc, left)?, number(alloc, right)?);
    Ok(Boxed::new(alloc, Expression::Subtract(left, right))?)
}

fn shift(alloc: Global, left: u64, right: u64) -> Result<Tree, NoMemory> {
    let (left, right) = (number(alloc, left)?, number(alloc, right)?);
    Ok(Boxed::new(alloc, Expression::LeftShift(left, right))?)
}

fn quotient(alloc: Global, left: Tree, right: Tree) -> Result<Tree, NoMemory> {
    Ok(Boxed::new(alloc, Expression::Divide(left, right))?)
}

fn remainder(alloc: Global, left: Tree, right: Tree) -> Result<Tree, NoMemory> {
    Ok(Boxed::new(alloc, Expression::Modulo(left, right))?)
}

fn equal(alloc: Global, left: Tree, right: Tree) -> Result<Tree, NoMemory> {
    Ok(Boxed::new(alloc, Expression::Equal(left, right))?)
}

fn both_bits(alloc: Global, left: u64, right: u64) -> Result<Tree, NoMemory> {
    let (left, right) = (number(alloc, left)?, number(alloc, right)?);
    Ok(Boxed::new(alloc, Expression::BitwiseAnd(left, right))?)
}

// `n && .`
fn and_counter(alloc: Global, left: u64) -> Result<Tree, NoMemory> {
    let (left, right) = (number(alloc, left)?, counter(alloc)?);
    Ok(Boxed::new(alloc, Expression::LogicalAnd(left, right))?)
}

// `n ? 8 : .`
fn choice(alloc: Global, condition: u64) -> Result<Tree, NoMemory> {
    let condition = number(alloc, condition)?;
    let (first, second) = (number(alloc, 8)?, counter(alloc)?);
    Ok(Boxed::new(alloc, Expression::Ternary(condition, first, second))?)
}

fn align(alloc: Global, alignment: u64) -> Result<Tree, NoMemory> {
    let alignment = number(alloc, alignment)?;
    Ok(Boxed::new(alloc, Expression::Align(alignment, None))?)
}

// `ALIGN(0 - 1, 8)`
fn align_high(alloc: Global) -> Result<Tree, NoMemory> {
    let (alignment, value) = (number(alloc, 8)?, difference(alloc, 0, 1)?);
    Ok(Boxed::new(alloc, Expression::Align(alignment, Some(value)))?)
}

// The remainder of -7 and 2.
fn negative_remainder(alloc: Global) -> Result<Tree, NoMemory> {
    let (left, right) = (difference(alloc, 0, 7)?, number(alloc, 2)?);
    remainder(alloc, left, right)
}

fn remainder_of_zero(alloc: Global) -> Result<Tree, NoMemory> {
    let (left, right) = (number(alloc, 1)?, number(alloc, 0)?);
    remainder(alloc, left, right)
}

// `. / 0`
fn counter_by_zero(alloc: Global) -> Result<Tree, NoMemory> {
    let (left, right) = (counter(alloc)?, number(alloc, 0)?);
    quotient(alloc, left, right)
}

// The least signed number divided by -1.
fn least_by_minus_one(alloc: Global) -> Result<Tree, NoMemory> {
    let least = number(alloc, 0x8000000000000000)?;
    let minus_one = difference(alloc, 0, 1)?;
    quotient(alloc, least, minus_one)
}

// `2 & 2 == 2`, which compares last.
fn bits_compared(alloc: Global) -> Result<Tree, NoMemory> {
    let (left, right) = (both_bits(alloc, 2, 2)?, number(alloc, 2)?);
    equal(alloc, left, right)
}

// `. == 3`
fn counter_compared(alloc: Global) -> Result<Tree, NoMemory> {
    let (left, right) = (counter(alloc)?, number(alloc, 3)?);
    equal(alloc, left, right)
}

// What is evaluated.
#[derive(Clone, Copy)]
enum Sample {
    Five,
    Counter,
    ShiftBy64,
    ZeroMinusOne,
    LeastByMinusOne,
    BitsCompared,
    NegativeRemainder,
    RemainderOfZero,
    CounterByZero,
    FalseAndCounter,
    FirstOfTwo,
    SecondOfTwo,
    AlignZero,
    AlignEight,
    AlignHigh,
    CounterCompared,
}

fn tree(alloc: Global, sample: Sample) -> Result<Tree, NoMemory> {
    match sample {
        Sample::Five => number(alloc, 5),
        Sample::Counter => counter(alloc),
        Sample::ShiftBy64 => shift(alloc, 1, 64),
        Sample::ZeroMinusOne => difference(alloc, 0, 1),
        Sample::LeastByMinusOne => least_by_minus_one(alloc),
        Sample::BitsCompared => bits_compared(alloc),
        Sample::NegativeRemainder => negative_remainder(alloc),
        Sample::RemainderOfZero => remainder_of_zero(alloc),
        Sample::CounterByZero => counter_by_zero(alloc),
        Sample::FalseAndCounter => and_counter(alloc, 0),
        Sample::FirstOfTwo => choice(alloc, 5),
        Sample::SecondOfTwo => choice(alloc, 0),
        Sample::AlignZero => align(alloc, 0),
        Sample::AlignEight => align(alloc, 8),
        Sample::AlignHigh => align_high(alloc),
        Sample::CounterCompared => counter_compared(alloc),
    }
}

const NOT_CONSTANT: Result<u64, ConstFault> = Err(ConstFault::NotConstant);

#[test]
fn constants(rt: HostRuntime) -> Result<(), Fail> {
    for (name, sample, wanted) in [
        ("a shift by 64 is one by 0", Sample::ShiftBy64, Ok(1)),
        ("a difference wraps", Sample::ZeroMinusOne, Ok(u64::MAX)),
        ("a quotient wraps", Sample::LeastByMinusOne, Ok(1 << 63)),
        ("& binds before ==", Sample::BitsCompared, Ok(1)),
        (
            "a remainder is signed",
            Sample::NegativeRemainder,
            Ok(u64::MAX),
        ),
        ("&& by its left side", Sample::FalseAndCounter, Ok(0)),
        ("the chosen side", Sample::FirstOfTwo, Ok(8)),
        ("the counter is chosen", Sample::SecondOfTwo, NOT_CONSTANT),
        (
            "the divisor comes first",
            Sample::CounterByZero,
            Err(ConstFault::DivisionByZero),
        ),
        (
            "a remainder of 0",
            Sample::RemainderOfZero,
            Err(ConstFault::ModuloByZero),
        ),
        ("ALIGN", Sample::AlignEight, NOT_CONSTANT),
    ] {
        let tree = tree(rt.alloc(), sample)?;
        assert_eq!(rt; evaluate_const(tree.get()), wanted, "{name}");
    }
    Ok(())
}

// Section 0, `.a`, is 0x1000 to 0x1020; of section 1, `.b`, nothing is known. The counter is 0x1003 at place 1 in `.a`, and
// 0x2001 at place 2 outside, which opens a section at 0x2004.
fn learn(alloc: Global) -> Result<Addresses, NoMemory> {
    let mut addresses = Addresses::new(alloc);
    addresses.learn_start(0, 0x1000)?;
    addresses.learn_end(0, 0x1020)?;
    addresses.learn_dot(1, 0x1003)?;
    addresses.learn_dot(2, 0x2001)?;
    addresses.learn_load_dot(2, 0x2004)?;
    Ok(addresses)
}

// `.` is not laid out.
const NO_COUNTER: Result<u64, u32> = Err(100);

// `.b` is not.
const NO_SECTION: Result<u64, u32> = Err(101);

fn number_of(fault: &Fault) -> u32 {
    match fault {
        Fault::NotLaidOut { name, .. } if name.bytes() == b".".as_slice() => 100,
        Fault::NotLaidOut { name, .. } if name.bytes() == b".b".as_slice() => 101,
        _ => fault.number(),
    }
}

// What a statement reads at a place, or the number of its fault.
fn read(alloc: Global, sample: Sample, point: Point) -> Result<Result<u64, u32>, NoMemory> {
    let tree = tree(alloc, sample)?;
    let addresses = learn(alloc)?;
    let (a, b) = (Name::new(alloc, b".a")?, Name::new(alloc, b".b")?);
    let numbers = Numbering::new(alloc);
    let scope = Scope {
        sections: &[&a, &b],
        section_numbers: &numbers,
        alignments: &[Alignment::default(), Alignment::default()],
        symbols: &numbers,
        entries: &[],
        script: b"",
        region_numbers: &numbers,
        regions: &[],
        segment_starts: [None; 3],
        header_size: 0,
    };
    let evaluator = Evaluator {
        alloc,
        scope: &scope,
        addresses: &addresses,
        statement: 7,
    };
    match evaluator.full(&mut evaluator.memo(), tree.get(), point) {
        Ok(number) => Ok(Ok(number)),
        Err(fault) => Ok(Err(number_of(&fault))),
    }
}

#[test]
fn full_values_outside(rt: HostRuntime) -> Result<(), Fail> {
    for (name, sample, wanted) in [
        ("the counter", Sample::Counter, Ok(0x2001)),
        ("a number", Sample::Five, Ok(5)),
        ("ALIGN of the counter", Sample::AlignEight, Ok(0x2008)),
        ("ALIGN by 0", Sample::AlignZero, Err(24)),
        ("ALIGN past the last multiple", Sample::AlignHigh, Err(35)),
        ("a comparison that fails", Sample::CounterCompared, Ok(0)),
        ("a remainder of 0", Sample::RemainderOfZero, Err(23)),
        ("a quotient wraps", Sample::LeastByMinusOne, Ok(1 << 63)),
        ("the counter is chosen", Sample::SecondOfTwo, Ok(0x2001)),
    ] {
        let point = Point {
            place: 2,
            dot: DotSource::OfPlace,
            section: None,
        };
        assert_eq!(rt; read(rt.alloc(), sample, point)?, wanted, "{name}");
    }
    Ok(())
}

#[test]
fn full_values_in_a_section(rt: HostRuntime) -> Result<(), Fail> {
    for (name, sample, wanted) in [
        ("the counter", Sample::Counter, Ok(0x1003)),
        ("a number counts from its start", Sample::Five, Ok(0x1005)),
        ("ALIGN of the counter", Sample::AlignEight, Ok(0x1008)),
        // Both sides stand for 0x1003, and the answer 1 for 0x1001.
        (
            "a comparison that holds",
            Sample::CounterCompared,
            Ok(0x1001),
        ),
    ] {
        let point = Point {
            place: 1,
            dot: DotSource::OfPlace,
            section: Some(0),
        };
        assert_eq!(rt; read(rt.alloc(), sample, point)?, wanted, "{name}");
    }
    Ok(())
}

#[test]
fn not_laid_out(rt: HostRuntime) -> Result<(), Fail> {
    for (name, sample, place, section, wanted) in [
        (
            "a place without a counter",
            Sample::Counter,
            3,
            Some(0),
            NO_COUNTER,
        ),
        (
            "a section without a start",
            Sample::Five,
            1,
            Some(1),
            NO_SECTION,
        ),
        (
            "the divisor comes first",
            Sample::CounterByZero,
            3,
            None,
            Err(22),
        ),
    ] {
        let point = Point {
            place,
            dot: DotSource::OfPlace,
            section,
        };
        assert_eq!(rt; read(rt.alloc(), sample, point)?, wanted, "{name}");
    }
    Ok(())
}

#[test]
fn sources_of_the_counter(rt: HostRuntime) -> Result<(), Fail> {
    for (name, dot, place, wanted) in [
        ("0, which asks nothing", DotSource::Zero, 3, Ok(0)),
        (
            "the start that a place opens",
            DotSource::OfLoad,
            2,
            Ok(0x2004),
        ),
        ("a place that opens none", DotSource::OfLoad, 3, NO_COUNTER),
        ("the end of a section", DotSource::OfEnd(0), 3, Ok(0x1020)),
        (
            "a section without an end",
            DotSource::OfEnd(1),
            3,
            NO_SECTION,
        ),
    ] {
        let point = Point {
            place,
            dot,
            section: None,
        };
        assert_eq!(rt; read(rt.alloc(), Sample::Counter, point)?, wanted, "{name}");
    }
    Ok(())
}
