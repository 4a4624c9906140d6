//! Laws about places, and about layouts of all of them.

ghost use Rattle.std.specs.Prelude.{◌≡◌, ℕ, ◌+◌, ◌^◌, ◌<◌, List, Option, Some, length, slice_get};
ghost use Rattle.wild_expression_tree.specs.declared.tree.Expression.{Expression};
ghost use Rattle.wild_plan_spec.specs.declared.chunk.Kept.{Kept};
ghost use Rattle.wild_plan_spec.specs.declared.placed.PlacedSymbol.{PlacedSymbol};
ghost use Rattle.wild_plan_spec.specs.declared.row.InputTable.{InputTable};
ghost use Rattle.wild_plan_spec.specs.declared.row.SymbolRow.{SymbolRow};
ghost use Rattle.wild_plan_spec.specs.Case.{Case};
ghost use Rattle.wild_plan_spec.specs.Fates.{fates_of, section_names};
ghost use Rattle.wild_plan_spec.specs.Fit.{Fits, IsLaid};
ghost use Rattle.wild_plan_spec.specs.Layout.{Layout, layout};
ghost use Rattle.wild_plan_spec.specs.Orphans.{places_of};
ghost use Rattle.wild_plan_spec.specs.Places.{SetLocation};
ghost use Rattle.wild_plan_spec.specs.Settled.{IsSettled, LocationSettles};
ghost use Rattle.wild_plan_spec.specs.Steps.{State};
ghost use Rattle.wild_script_tree.specs.declared.tree.Command.{Command};
ghost use Rattle.wild_value_spec.specs.Known.{Address};
ghost use Rattle.wild_walk_laws.specs.Holding.{IsKnown, StandInPlace};
ghost use Rattle.wild_walk_laws.specs.Nesting.{Free, Nests};

/// The places of a script and its orphans open and close all sections in the order of their numbers, one after the
/// other, and what stands in the contents of a section stands between them: the rows of its chunks too.
pub fn places_nest()
    ensures { (t : List Command) (inputs : InputTable) → Nests (Free 0) (places_of t inputs) (Free (length (section_names t inputs))) }
{}

/// Where all places are laid out, each statement of the location counter in SECTIONS, in the contents of a section too, is
/// listed with the value that its expression has over the finished layout, whatever symbols are found then.
pub fn locations_hold()
    ensures { (c : Case) (state : State) → IsLaid c state → (found : List PlacedSymbol)
        → (i : ℕ) (s : Option ℕ) (e : Expression) → slice_get (places_of c.commands c.inputs) i ≡ Some (SetLocation s e)
        → LocationSettles c state.known (layout c state found) i s e }
{}

/// Where all places are laid out, each row whose address is known stands at a multiple of its alignment and ends below
/// 2 ^ 64.
pub fn rows_stand_in_place()
    ensures { (c : Case) (state : State) → IsLaid c state → StandInPlace c.inputs.rows state.known }
{}

/// Where all places are laid out, the address of a symbol of the table does not wrap: that of its row, where it is known, and
/// the symbol's offset have a sum below 2 ^ 64.
pub fn symbols_stand_in_rows()
    ensures { (c : Case) (state : State) → IsLaid c state
        → (i : ℕ) (s : SymbolRow) → slice_get c.inputs.symbols i ≡ Some s → (a : ℕ) → state.known (Address s.row) ≡ Some a → a + s.offset < 2 ^ 64 }
{}

/// Where all places are laid out, each row that is kept has an address.
pub fn kept_rows_have_addresses()
    ensures { (c : Case) (state : State) → IsLaid c state
        → (r : ℕ) (k : Kept) → slice_get (fates_of c.commands c.inputs) r ≡ Some (Some k) → IsKnown state.known (Address r) }
{}

/// In a plan that fits, each location and each symbol of the script, and each section with a start expression or an AT
/// clause, is listed with what its expression is worth over the finished table, and no condition is 0.
pub fn plans_are_settled()
    ensures { (c : Case) (plan : Layout) → (f : Fits c plan) → IsSettled c f.state.known plan }
{}
