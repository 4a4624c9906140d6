//! From the bytes of a script and a table to a plan.

ghost use Rattle.std.specs.Prelude.{◌≡◌, ◌⊎◌, IfOk, IfErr};
ghost use Rattle.wild_names.specs.declared.fault.Fault.TheVariants as fault;
ghost use Rattle.wild_plan_spec.specs.Fit.{Fits, FaultIn};
ghost use Rattle.wild_plan.specs.Case.{shown_case};
ghost use Rattle.wild_plan.specs.Facts.{shown_all};
ghost use Rattle.wild_plan.specs.Listed.{AreLists, shown_lists};
ghost use Rattle.wild_plan.specs.Moves.{state_of};
ghost use Rattle.wild_plan.specs.Planned.{IsThePlan, IsTheFault};

use crate::case::Case;
use crate::check::check;
use crate::ends::End;
use crate::ground::{Ground, find_basis, ground_on};
use crate::listing::{placed_inputs, placed_sections, row_names};
use crate::lists::{Lists, Plan};
use crate::segments::{Segments, find_case_segments};
use crate::symbols::table_symbols;
use crate::walk::{Walk, lay_out};
use sqlite_items::Items;
use std::alloc::Global;
use wild_base::{Fault, NoMemory};
use wild_plan_spec::{InputTable, Kept, PlacedSymbol, PlanOptions};
use wild_script::LinkerScript;

/// Plans the rows and symbols of a table by a script, for what the options say.
pub fn plan(
    alloc: Global,
    script: &[u8],
    inputs: &InputTable,
    options: &PlanOptions,
) -> Result<Plan, Fault>
    // The plan is the one that fits, and there is no fault.
    ensures fits { IfOk result (IsThePlan script.now inputs.now options.now) }
    // The fault is the first one, and no plan fits.
    ensures refused { IfErr result (λ f. (f ≡ fault.NoMemory) ⊎ IsTheFault script.now inputs.now options.now f) }
{
    let tree = LinkerScript::parse(alloc, script)?;
    let case = Case {
        script,
        commands: tree.commands.as_slice(),
        inputs,
        options,
    };
    let lists = script_lists(alloc, &case)?;
    Ok(Plan::new(tree, lists))
}

/// The lists of the plan of a case: its checks and fates, what its rows say of sections and chunks, the segments, the walk, the
/// symbols and conditions, and what is then listed.
fn script_lists(alloc: Global, case: &Case<'_>) -> Result<Lists, Fault>
    ensures fits { IfOk result (λ l. Fits (shown_case case.now) (shown_lists case.now.commands.now l)) }
    ensures refused { IfErr result (λ f. (f ≡ fault.NoMemory) ⊎ FaultIn (shown_case case.now) f) }
{
    let definitions = check(alloc, case)?;
    let basis = find_basis(alloc, case, &definitions)?;
    let segments = find_case_segments(alloc, case, &definitions, basis.facts.as_slice())?;
    let ground = ground_on(alloc, case, &definitions, &basis);
    let places = definitions.script_fates.places.as_slice();
    let walk = lay_out(&ground, places)?;
    let end = End {
        ground: &ground,
        addresses: &walk.addresses,
    };
    let found = end.final_symbols(places)?;
    let fates = definitions.script_fates.fates.as_slice();
    let lists = list_all(&ground, segments, case.inputs, fates, walk, found)?;
    Ok(lists)
}

/// What a plan lists once all places are laid out, and these are the segments, and the symbols of the script.
fn list_all(
    ground: &Ground<'_>,
    segments: Segments,
    inputs: &InputTable,
    fates: &[Option<Kept>],
    walk: Walk,
    found: Items<PlacedSymbol>,
) -> Result<Lists, NoMemory>
    ensures { IfOk result (AreLists segments inputs.now fates.now (shown_all ground.now.facts.now) (state_of walk) found) }
{
    let alloc = ground.alloc;
    let addresses = &walk.addresses;
    let sections = placed_sections(alloc, addresses, ground.facts)?;
    let placements = placed_inputs(alloc, addresses, fates)?;
    let mut symbols = table_symbols(alloc, addresses, fates, inputs.symbols.as_slice())?;
    symbols.append(found)?;
    let names = row_names(alloc, inputs.rows.as_slice())?;
    Ok(Lists {
        sections,
        placements,
        locations: walk.locations,
        segments: segments.list,
        by_headers: segments.by_headers,
        symbols,
        names,
    })
}
