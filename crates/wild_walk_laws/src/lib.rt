//! What holds of walks over the places of a case: where places stand, and what is known once all of them are laid out.
#![tactic(auto)]

mod laws;

pub use laws::{
    kept_rows_have_addresses, locations_hold, places_nest, plans_are_settled, rows_stand_in_place,
    symbols_stand_in_rows,
};
