//! What follows from the definitions.

ghost use Rattle.std.specs.Prelude.{◌≡◌, List};
ghost use Rattle.wild_names.specs.declared.fault.Fault.{Fault};
ghost use Rattle.wild_plan_spec.specs.declared.chunk.ChunkRow.{ChunkRow};
ghost use Rattle.wild_plan_spec.specs.Case.{Case};
ghost use Rattle.wild_plan_spec.specs.Order.{IsOrdered, stands_before};
ghost use Rattle.wild_plan_spec.specs.Layout.{Layout};
ghost use Rattle.wild_plan_spec.specs.Fit.{Fits, FaultIn};

/// The rows of a chunk have one order.
pub fn rows_have_one_order()
    ensures { (xs ys zs : List ChunkRow) → IsOrdered stands_before xs ys → IsOrdered stands_before xs zs → ys ≡ zs }
{}

/// One plan at most fits a case.
pub fn one_plan_fits()
    ensures { (c : Case) (p q : Layout) → Fits c p → Fits c q → q ≡ p }
{}

/// Where a plan fits there is no fault.
pub fn plan_or_fault()
    ensures { (c : Case) (p : Layout) (fault : Fault) → Fits c p → FaultIn c fault → ⊥ }
{}

/// A case has one fault at most.
pub fn one_fault()
    ensures { (c : Case) (fault other : Fault) → FaultIn c fault → FaultIn c other → other ≡ fault }
{}
