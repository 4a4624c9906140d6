//! Where the expressions of places are read.

ghost use Rattle.std.specs.Prelude.{◌≡◌};
ghost use Rattle.wild_plan_spec.specs.Points as spec;

use crate::asking::asks_segment;
use wild_plan_spec::Where;
use wild_script_tree::Expression;
use wild_value_spec::{DotSource, Point};

// `.` behind so many sections, outside of SECTIONS, where it is not 0: the end of the last of them, if there is one.
fn dot_behind(sections: usize) -> DotSource
    ensures { result ≡ spec.dot_behind sections }
{
    if sections == 0 {
        DotSource::Zero
    } else {
        DotSource::OfEnd(sections - 1)
    }
}

// What `.` is in a statement that stands here: outside of SECTIONS it is 0, unless the start of a segment is asked for.
fn dot_at(stand: Where, asks: bool) -> DotSource
    ensures { result ≡ spec.dot_at stand asks }
{
    match stand {
        Where::Outermost(sections) if asks => dot_behind(sections),
        Where::Outermost(_) => DotSource::Zero,
        Where::Between | Where::Inside(_) => DotSource::OfPlace,
    }
}

/// The section in whose contents a statement stands that stands here.
pub fn holder(stand: Where) -> Option<usize>
    ensures { result ≡ spec.holder stand }
{
    match stand {
        Where::Outermost(_) | Where::Between => None,
        Where::Inside(section) => Some(section),
    }
}

/// The point of the expression of a symbol, or of `. =` outside of SECTIONS, that stands here at a place.
pub fn task_point(place: usize, stand: Where, expression: &Expression) -> Point
    ensures { result ≡ spec.task_point place stand expression.now }
{
    Point {
        place,
        dot: dot_at(stand, asks_segment(expression)),
        section: holder(stand),
    }
}

/// The point of the condition of an ASSERT that stands here at a place.
pub fn condition_point(place: usize, stand: Where) -> Point
    ensures { result ≡ spec.condition_point place stand }
{
    Point {
        place,
        dot: dot_at(stand, false),
        section: holder(stand),
    }
}

/// The point of `. =` at a place, in the contents of this section or in none: there `.` is as it was.
pub fn location_point(place: usize, section: Option<usize>) -> Point
    ensures { result ≡ spec.location_point place section }
{
    Point {
        place,
        dot: DotSource::OfPlace,
        section,
    }
}

/// The point of the start of the section that a place opens: there `.` is the location counter.
pub fn start_point(place: usize) -> Point
    ensures { result ≡ spec.start_point place }
{
    Point {
        place,
        dot: DotSource::OfPlace,
        section: None,
    }
}

/// The point of its load address: there `.` is its start.
pub fn load_point(place: usize) -> Point
    ensures { result ≡ spec.load_point place }
{
    Point {
        place,
        dot: DotSource::OfLoad,
        section: None,
    }
}
