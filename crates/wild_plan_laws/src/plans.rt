//! Laws about what a plan lists: its sections, rows and symbols of the table.

ghost use Rattle.std.specs.Prelude.{◌≡◌, ℕ, true, Some, slice_get};
ghost use Rattle.wild_plan_laws.specs.Listing.{AreOneOrListedCounted, Covers, Lists, RowStands, SectionStands, StandsInRegion, SymbolStands};
ghost use Rattle.wild_plan_spec.specs.declared.placed.PlacedSection.{PlacedSection};
ghost use Rattle.wild_plan_spec.specs.declared.row.InputRow.{InputRow};
ghost use Rattle.wild_plan_spec.specs.declared.row.SymbolRow.{SymbolRow};
ghost use Rattle.wild_plan_spec.specs.Case.{Case};
ghost use Rattle.wild_plan_spec.specs.Facts.{Facts, facts_of};
ghost use Rattle.wild_plan_spec.specs.Fit.{Fits};
ghost use Rattle.wild_plan_spec.specs.Layout.{Layout};
ghost use Rattle.wild_plan_spec.specs.Names.{Name};

/// Each section of a plan that fits is listed with its alignment. Without a start expression it starts at a multiple of that
/// below 2 ^ 64, at 0 if it floats, and without an AT clause it is loaded where it starts. It ends below 2 ^ 64 where its
/// start and the locations in it, as they are listed, are below that.
pub fn listed_sections_stand()
    ensures { (c : Case) (plan : Layout) → Fits c plan
        → (s : ℕ) (f : Facts) (place : PlacedSection) → slice_get (facts_of c.commands c.inputs) s ≡ Some f → slice_get plan.sections s ≡ Some place
        → SectionStands c plan s f place }
{}

/// Each section of a plan that fits, which is counted and names a memory region, stands in it: the script has a region of
/// that name, and the section starts no lower than its origin and ends no higher than its end.
pub fn listed_sections_stand_in_regions()
    ensures { (c : Case) (plan : Layout) → Fits c plan
        → (s : ℕ) (place : PlacedSection) → slice_get plan.sections s ≡ Some place → place.counted ≡ true
        → (name : Name) → place.region ≡ Some name → StandsInRegion c.commands name place }
{}

/// Each row that a plan that fits lists in a section lies in that section, which is listed too, at a multiple of its
/// alignment.
pub fn listed_rows_stand()
    ensures { (c : Case) (plan : Layout) → Fits c plan
        → (r s address : ℕ) (row : InputRow) → Lists c.inputs plan r s address row → RowStands plan s address row }
{}

/// Each symbol of the table, whose row a plan that fits lists, is listed with the address of the row and its offset as a
/// sum, and with the section of the row.
pub fn listed_symbols_stand()
    ensures { (c : Case) (plan : Layout) → Fits c plan
        → (i : ℕ) (symbol : SymbolRow) → slice_get c.inputs.symbols i ≡ Some symbol
        → (s address : ℕ) (row : InputRow) → Lists c.inputs plan symbol.row s address row → SymbolStands plan s address symbol }
{}

/// No address is one of two sections of a plan that fits, where both are counted.
pub fn listed_sections_do_not_overlap()
    ensures { (c : Case) (plan : Layout) → Fits c plan
        → (s u : ℕ) (one other : PlacedSection) → slice_get plan.sections s ≡ Some one → slice_get plan.sections u ≡ Some other
        → one.counted ≡ true → other.counted ≡ true
        → (x : ℕ) → Covers one.start one.size x → Covers other.start other.size x → s ≡ u }
{}

/// No address is one of two rows of a plan that fits, where they lie in one section, or in two that are counted.
pub fn listed_rows_do_not_overlap()
    ensures { (c : Case) (plan : Layout) → Fits c plan
        → (p r s u a b : ℕ) (one other : InputRow) → Lists c.inputs plan p s a one → Lists c.inputs plan r u b other → AreOneOrListedCounted plan s u
        → (x : ℕ) → Covers a one.size x → Covers b other.size x → p ≡ r }
{}
