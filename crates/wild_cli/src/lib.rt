//! The command line: words as they are written, where files come from and texts go, and runs.
#![tactic(auto)]

mod device;
mod laws;
mod real;
mod refusal;
mod running;
mod shelf;
mod sure;

pub use device::{Files, LoadFault, Sink, SinkFault};
pub use laws::{count_at_zero_never_rose, unfailing_runs_end};
pub use real::{DirFiles, StreamSink};
pub use running::run;
pub use shelf::{FailingPut, Shelf, Tray};
pub use sure::{ShelfFile, SureShelf, SureTray};
pub use wild_table::{TableFault, read_number, read_table};
pub use wild_words::{Request, WordsFault, read_words};

#[cfg(test)]
mod header_tests;
#[cfg(test)]
mod pattern_tests;
#[cfg(test)]
mod plan_tests;
#[cfg(test)]
mod region_tests;
#[cfg(test)]
mod section_tests;
#[cfg(test)]
mod speed_tests;
#[cfg(test)]
mod tests;
