//! What follows from the definitions of plans and those of values.
#![tactic(auto)]

mod laws;
mod plans;

pub use laws::{
    all_is_known, end_is_late, rows_do_not_overlap, rows_lie_in_sections, sections_do_not_overlap,
    sections_lie_in_regions, sections_stand, sharing_is_lowest,
};
pub use plans::{
    listed_rows_do_not_overlap, listed_rows_stand, listed_sections_do_not_overlap,
    listed_sections_stand, listed_sections_stand_in_regions, listed_symbols_stand,
};
