//! What is planned.

use wild_plan_spec::{InputTable, PlanOptions};
use wild_script_tree::Command;

/// The bytes of a script and the commands of its tree, the rows and symbols of a table, and what the plan is made for.
#[derive(Clone, Copy)]
pub struct Case<'a> {
    pub script: &'a [u8],
    pub commands: &'a [Command],
    pub inputs: &'a InputTable,
    pub options: &'a PlanOptions,
}
