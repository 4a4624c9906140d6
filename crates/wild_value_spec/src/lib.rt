//! What the value of an expression is: the types that its definitions speak of. The definitions stand in `specs/`.
#![tactic(auto)]

mod constant;
mod region;
mod value;

pub use constant::ConstFault;
pub use region::Region;
pub use value::{DotSource, Point, Value, Whole};
