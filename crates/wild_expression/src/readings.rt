//! Reads an expression at a position.

ghost use Rattle.std.specs.Prelude.{◌≡◌, ◌≤◌, ◌⊎◌, length, IfOk, IfErr};
ghost use Rattle.wild_names.specs.declared.fault.Fault.TheVariants.{NoMemory};
ghost use Rattle.wild_expression.specs.Readings.{plain_fault, IsExpression, IsRefusal};

use crate::levels::value;
use std::alloc::Global;
use wild_expression_tree::Expression;
use wild_expression_words::Level;
use wild_names::Fault;
use wild_reading::{Cursor, MAX_DEPTH, Stop};

// No sort is in an expression: where one would be in another, nothing is read.
fn plain_fault(stop: Stop) -> Fault
    ensures { result ≡ plain_fault stop }
{
    match stop {
        Stop::NestedSort { position } => Fault::Syntax { position },
        _ => Fault::from(stop),
    }
}

/// Reads the expression at a position, and the white after it. Answers it and the position after it. Fails with
/// `Syntax` or `UnclosedComment` where none is read there, with `TooDeep` where none is of a depth up to 256, and
/// where memory runs out.
pub fn parse_expression(
    alloc: Global,
    bytes: &[u8],
    position: usize,
) -> Result<(Expression, usize), Fault>
    requires { position ≤ length bytes.now }
    // It is read there, nothing else is, and it ends after its start.
    ensures found { IfOk result (λ r. IsExpression bytes.now position r.0 r.1) }
    // None is read there, or none of a depth up to 256.
    ensures refused { IfErr result (λ f. (f ≡ NoMemory) ⊎ IsRefusal bytes.now position f) }
{
    let mut cursor = Cursor::new(bytes, position, MAX_DEPTH);
    match value(&mut cursor, alloc, Level::Ternary) {
        Ok(x) => Ok((x.expression.into_inner(), cursor.position())),
        Err(stop) => Err(plain_fault(stop)),
    }
}
