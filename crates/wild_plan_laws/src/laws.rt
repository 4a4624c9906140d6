//! Laws about layouts: what holds where all places are laid out.

ghost use Rattle.std.specs.Prelude.{◌≡◌, ℕ, Bool, false, Some, slice_get};
ghost use Rattle.wild_names.specs.declared.fault.Fault.TheVariants.{NotLaidOut};
ghost use Rattle.wild_plan_laws.specs.Holding.{AllIsKnown, AreOneOrCounted, IsCounted, LaidSectionStands, LiesIn, LiesInRegion, RowHolds, SectionHolds};
ghost use Rattle.wild_plan_laws.specs.Sharing.{SharingIsLowest};
ghost use Rattle.wild_plan_spec.specs.declared.chunk.Kept.{Kept};
ghost use Rattle.wild_plan_spec.specs.declared.row.InputRow.{InputRow};
ghost use Rattle.wild_plan_spec.specs.Case.{Case};
ghost use Rattle.wild_plan_spec.specs.Facts.{Facts, facts_of};
ghost use Rattle.wild_plan_spec.specs.Fates.{fates_of};
ghost use Rattle.wild_plan_spec.specs.Fit.{EndFault, IsLaid};
ghost use Rattle.wild_plan_spec.specs.Names.{Name};
ghost use Rattle.wild_plan_spec.specs.Orphans.{places_of};
ghost use Rattle.wild_plan_spec.specs.Steps.{State};
ghost use Rattle.wild_value_spec.specs.Known.{Known, Address};

/// The section that is named where a section overlaps earlier ones is the one that starts lowest, the first of them where
/// several do, and none is named just where none shares an address. Floating ones share none.
pub fn sharing_is_lowest()
    ensures { (floating : ℕ → Bool) (known : Known) (start end n : ℕ) → SharingIsLowest floating known start end n }
{}

/// Where all places are laid out, each section, an orphan too, ends no lower than it starts. Without a start expression it
/// starts at a multiple of its alignment below 2 ^ 64, at 0 if it floats, and without an AT clause it is loaded where it
/// starts. It ends below 2 ^ 64 where its start and the locations in it are below that.
pub fn sections_stand()
    ensures { (c : Case) (state : State) → IsLaid c state
        → (s : ℕ) (f : Facts) → slice_get (facts_of c.commands c.inputs) s ≡ Some f → LaidSectionStands (places_of c.commands c.inputs) state s f }
{}

/// Where all places are laid out, each section that is counted and names a memory region lies in it: the script has a
/// region of that name, and the section starts no lower than its origin and ends no higher than its end.
pub fn sections_lie_in_regions()
    ensures { (c : Case) (state : State) → IsLaid c state
        → (s : ℕ) (f : Facts) → slice_get (facts_of c.commands c.inputs) s ≡ Some f → f.floating ≡ false
        → (name : Name) → f.region ≡ Some name → LiesInRegion c.commands state.known s name }
{}

/// Where all places are laid out, each row that has an address lies in the section of its chunk.
pub fn rows_lie_in_sections()
    ensures { (c : Case) (state : State) → IsLaid c state
        → (r : ℕ) (row : InputRow) (k : Kept) → slice_get c.inputs.rows r ≡ Some row → slice_get (fates_of c.commands c.inputs) r ≡ Some (Some k)
        → (a : ℕ) → state.known (Address r) ≡ Some a → LiesIn state.known k.chunk.section a row.size }
{}

/// Where all places are laid out, no address is one of two sections that are counted.
pub fn sections_do_not_overlap()
    ensures { (c : Case) (state : State) → IsLaid c state
        → (s u : ℕ) → IsCounted c s → IsCounted c u
        → (x : ℕ) → SectionHolds state.known s x → SectionHolds state.known u x → s ≡ u }
{}

/// Where all places are laid out, no address is one of two rows of one section, or of two that are counted.
pub fn rows_do_not_overlap()
    ensures { (c : Case) (state : State) → IsLaid c state
        → (p r : ℕ) (k l : Kept) → slice_get (fates_of c.commands c.inputs) p ≡ Some (Some k) → slice_get (fates_of c.commands c.inputs) r ≡ Some (Some l)
        → AreOneOrCounted c k.chunk.section l.chunk.section
        → (x : ℕ) → RowHolds c.inputs.rows state.known p x → RowHolds c.inputs.rows state.known r x → p ≡ r }
{}

/// Where all places are laid out, nothing that may be asked of them is unknown: the numbers of sections, the addresses of
/// rows that are kept, the location counters of places, and what `.` is in an AT clause.
pub fn all_is_known()
    ensures { (c : Case) (state : State) → IsLaid c state → AllIsKnown c state.known }
{}

/// What has no value in the end is not refused as not laid out: all that the symbols and conditions ask for is known then.
pub fn end_is_late()
    ensures { (c : Case) (n : ℕ) (x : Name) → EndFault c (NotLaidOut n x) → ⊥ }
{}
