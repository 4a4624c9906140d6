//! What a placement plan is: the types that its definitions speak of, and laws about the definitions in `specs/`.
#![tactic(auto)]

mod chunk;
mod laws;
mod options;
mod place;
mod placed;
mod row;

pub use chunk::{Chunk, ChunkRow, Decision, Kept};
pub use laws::{one_fault, one_plan_fits, plan_or_fault, rows_have_one_order};
pub use options::PlanOptions;
pub use place::Where;
pub use placed::{Names, PlacedInput, PlacedLocation, PlacedSection, PlacedSymbol, RowNames};
pub use row::{InputRow, InputRows, InputTable, SymbolRow, SymbolRows};
pub use wild_segments::{PlacedSegment, SectionIndexes};
