//! Values with their marks.

ghost use Rattle.std.specs.Prelude.{◌≡◌, ◌<◌};
ghost use Rattle.wild_value_spec.specs.Marks as spec;

use wild_value_spec::Value;

/// A number that is no node.
pub fn bare(number: u64) -> Value
    ensures { result ≡ spec.bare number }
{
    Value {
        number,
        relative: false,
        absolute: false,
        height: 0,
    }
}

/// A leaf with no mark.
pub fn unmarked(number: u64) -> Value
    ensures { result ≡ spec.unmarked number }
{
    Value {
        number,
        relative: false,
        absolute: false,
        height: 1,
    }
}

/// A leaf that is an address.
pub fn absolutely(number: u64) -> Value
    ensures { result ≡ spec.absolutely number }
{
    Value {
        number,
        relative: false,
        absolute: true,
        height: 1,
    }
}

/// A leaf that counts from the start of a section.
pub fn relatively(number: u64) -> Value
    ensures { result ≡ spec.relatively number }
{
    Value {
        number,
        relative: true,
        absolute: false,
        height: 1,
    }
}

/// An address over parts of this height.
pub fn absolutely_over(number: u64, height: usize) -> Value
    requires { height < spec.max_height }
    ensures { result ≡ spec.absolutely_over number height }
{
    Value {
        number,
        relative: false,
        absolute: true,
        height: height + 1,
    }
}

/// The same, counted from the start of a section.
pub fn relatively_over(number: u64, height: usize) -> Value
    requires { height < spec.max_height }
    ensures { result ≡ spec.relatively_over number height }
{
    Value {
        number,
        relative: true,
        absolute: false,
        height: height + 1,
    }
}

/// A node over one part, with its marks.
pub fn over(number: u64, part: Value) -> Value
    requires { part.height < spec.max_height }
    ensures { result ≡ spec.over number part }
{
    Value {
        number,
        relative: part.relative,
        absolute: part.absolute,
        height: part.height + 1,
    }
}

/// A node over one part with its number, which becomes an address, too.
pub fn addressed_over(part: Value) -> Value
    requires { part.height < spec.max_height }
    ensures { result ≡ spec.addressed_over part }
{
    Value {
        number: part.number,
        relative: part.relative,
        absolute: true,
        height: part.height + 1,
    }
}

/// A node over two parts, with the marks of both.
pub fn over_both(number: u64, left: Value, right: Value) -> Value
    requires left_height { left.height < spec.max_height }
    requires right_height { right.height < spec.max_height }
    ensures { result ≡ spec.over_both number left right }
{
    Value {
        number,
        relative: left.relative || right.relative,
        absolute: left.absolute || right.absolute,
        height: left.height.max(right.height) + 1,
    }
}

/// A node over two parts, with no mark.
pub fn unmarked_over(number: u64, left: Value, right: Value) -> Value
    requires left_height { left.height < spec.max_height }
    requires right_height { right.height < spec.max_height }
    ensures { result ≡ spec.unmarked_over number left right }
{
    Value {
        number,
        relative: false,
        absolute: false,
        height: left.height.max(right.height) + 1,
    }
}
