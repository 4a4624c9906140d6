//! Where each row of a table goes: the places of a script, its rules and its sections, with orphans after them.
#![tactic(auto)]

mod clauses;
mod distinct;
mod fates;
mod formats;
mod headers;
mod places;
mod regions;
mod rules;
mod script_fates;
mod section_names;
mod statements;

pub use places::{Place, Task};
pub use regions::Regions;
pub use script_fates::{ScriptFates, decide_fates};
pub use section_names::SectionNames;
