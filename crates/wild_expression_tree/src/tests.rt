ghost use Rattle.std.specs.Prelude.{⊤};

use crate::operator::Arithmetic;
use crate::shape::Shape;
use crate::tree::{AssertCommand, Expression};
use crate::visit::Visitor;
use sqlite_items::Boxed;
use std::alloc::{AllocError, Global};
use std::test::Fail;
use wild_names::{Name, NoMemory, SegmentName};

fn number(alloc: Global, value: u64) -> Result<Boxed<Expression>, AllocError> {
    Boxed::new(alloc, Expression::Number(value))
}

fn assertion(alloc: Global, message: &[u8], at: usize) -> Result<Boxed<Expression>, NoMemory> {
    let command = AssertCommand {
        expression: number(alloc, 1)?,
        message: Name::new(alloc, message)?,
        at,
    };
    Ok(Boxed::new(alloc, Expression::Assert(command))?)
}

fn sum(alloc: Global, left: u64, right: u64) -> Result<Boxed<Expression>, NoMemory> {
    let left = number(alloc, left)?;
    let right = number(alloc, right)?;
    Ok(Boxed::new(alloc, Expression::Add(left, right))?)
}

fn start(alloc: Global, name: SegmentName) -> Result<Boxed<Expression>, NoMemory> {
    let value = number(alloc, 1)?;
    Ok(Boxed::new(alloc, Expression::SegmentStart(name, value))?)
}

fn symbol(alloc: Global) -> Result<Boxed<Expression>, NoMemory> {
    let name = Name::new(alloc, b"x")?;
    Ok(Boxed::new(alloc, Expression::Symbol(name))?)
}

fn size(alloc: Global) -> Result<Boxed<Expression>, NoMemory> {
    let name = Name::new(alloc, b"x")?;
    Ok(Boxed::new(alloc, Expression::Sizeof(name))?)
}

fn ternary(alloc: Global) -> Result<Boxed<Expression>, NoMemory> {
    let condition = number(alloc, 1)?;
    let value = number(alloc, 2)?;
    let otherwise = symbol(alloc)?;
    Ok(Boxed::new(alloc, Expression::Ternary(condition, value, otherwise))?)
}

fn aligned(alloc: Global) -> Result<Boxed<Expression>, NoMemory> {
    let alignment = number(alloc, 2)?;
    let value = symbol(alloc)?;
    Ok(Boxed::new(alloc, Expression::Align(alignment, Some(value)))?)
}

fn over_two(alloc: Global, kind: usize) -> Result<Boxed<Expression>, NoMemory> {
    let left = number(alloc, 2)?;
    let right = symbol(alloc)?;
    let expression = match kind {
        0 => Expression::Multiply(left, right),
        1 => Expression::Divide(left, right),
        2 => Expression::LessThan(left, right),
        _ => Expression::LogicalOr(left, right),
    };
    Ok(Boxed::new(alloc, expression)?)
}

fn over_one(alloc: Global, kind: usize) -> Result<Boxed<Expression>, NoMemory> {
    let operand = symbol(alloc)?;
    let expression = match kind {
        0 => Expression::Negate(operand),
        _ => Expression::Align(operand, None),
    };
    Ok(Boxed::new(alloc, expression)?)
}

// Expressions that all differ. Asserts stand at this position.
fn sample(alloc: Global, index: usize, at: usize) -> Result<Boxed<Expression>, NoMemory> {
    match index {
        0 => Ok(number(alloc, 1)?),
        1 => Ok(number(alloc, 2)?),
        2 => sum(alloc, 1, 2),
        3 => sum(alloc, 2, 1),
        4 => start(alloc, SegmentName::Text),
        5 => start(alloc, SegmentName::Data),
        6 => assertion(alloc, b"a", at),
        7 => assertion(alloc, b"b", at),
        8 => Ok(Boxed::new(alloc, Expression::LocationCounter)?),
        9 => Ok(Boxed::new(alloc, Expression::SizeofHeaders)?),
        10 => symbol(alloc),
        11 => size(alloc),
        12 => over_two(alloc, 0),
        13 => over_two(alloc, 1),
        14 => over_two(alloc, 2),
        15 => over_two(alloc, 3),
        16 => over_one(alloc, 0),
        17 => over_one(alloc, 1),
        18 => ternary(alloc),
        _ => aligned(alloc),
    }
}

#[test]
fn samples_differ(rt: HostRuntime) -> Result<(), Fail> {
    let alloc = rt.alloc();
    for i in 0..20 {
        for j in 0..20 {
            let left = sample(alloc, i, 0)?;
            let right = sample(alloc, j, 7)?;
            assert_eq!(rt; left.get() == right.get(), i == j, "{i} {j}");
        }
    }
    Ok(())
}

#[test]
fn copies_are_equal(rt: HostRuntime) -> Result<(), Fail> {
    let alloc = rt.alloc();
    for i in 0..20 {
        let original = sample(alloc, i, 7)?;
        let copy = original.get().copy(alloc)?;
        assert!(rt; copy == *original.get(), "{i}");
    }
    Ok(())
}

// `1 + 2 * x`
fn sum_of_product(alloc: Global) -> Result<Boxed<Expression>, NoMemory> {
    let left = number(alloc, 1)?;
    let right = over_two(alloc, 0)?;
    Ok(Boxed::new(alloc, Expression::Add(left, right))?)
}

// A letter for a node.
fn mark(expression: &Expression) -> u8 {
    match expression.shape() {
        Shape::Number(1) => b'1',
        Shape::Number(_) => b'2',
        Shape::Symbol(_) => b'x',
        Shape::Arithmetic(Arithmetic::Add, _, _) => b'+',
        Shape::Arithmetic(_, _, _) => b'*',
        Shape::Ternary(_, _, _) => b'?',
        Shape::Align(_, _) => b'a',
        Shape::Assert(_) => b'!',
        _ => b'.',
    }
}

// Writes down what it is shown, and does not want the parts of nodes with this mark.
#[derive(Drop)]
struct Recorder {
    marks: Vec<u8>,
    declined: u8,
    out_of_memory: bool,
}

impl Visitor for Recorder {
    ghost step = { λ _ _ _ _. ⊤ };

    fn visit(&mut self, expression: &Expression) -> bool {
        let mark = mark(expression);
        if self.marks.push(mark).is_err() {
            self.out_of_memory = true;
        }
        mark != self.declined
    }
}

fn marks(alloc: Global, index: usize, declined: u8) -> Result<Vec<u8>, NoMemory> {
    let expression = match index {
        0 => sum_of_product(alloc)?,
        1 => ternary(alloc)?,
        2 => aligned(alloc)?,
        _ => assertion(alloc, b"a", 0)?,
    };
    let mut recorder = Recorder {
        marks: Vec::new(alloc),
        declined,
        out_of_memory: false,
    };
    expression.get().visit_expressions(&mut recorder);
    if recorder.out_of_memory {
        return Err(NoMemory);
    }
    Ok(recorder.marks)
}

#[test]
fn visits(rt: HostRuntime) -> Result<(), Fail> {
    let cases: [(&str, usize, u8, &[u8]); 7] = [
        ("1 + 2 * x", 0, b'-', b"+1*2x"),
        ("its product declined", 0, b'*', b"+1*"),
        ("its sum declined", 0, b'+', b"+"),
        ("a leaf declined", 0, b'1', b"+1*2x"),
        ("1 ? 2 : x", 1, b'-', b"?12x"),
        ("ALIGN(x, 2)", 2, b'-', b"a2x"),
        ("ASSERT(1, a)", 3, b'-', b"!1"),
    ];
    for (name, index, declined, expected) in cases {
        let marks = marks(rt.alloc(), index, declined)?;
        assert!(rt; marks.as_slice() == expected, "{name}");
    }
    Ok(())
}
