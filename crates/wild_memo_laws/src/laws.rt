//! Laws about kept values.

ghost use Rattle.std.specs.Prelude.{ℕ, ◌<◌, ◌≤◌, List};
ghost use Rattle.wild_expression_tree.specs.declared.tree.Expression.{Expression};
ghost use Rattle.wild_expression_tree.specs.Shape.{shape};
ghost use Rattle.wild_memo_laws.specs.declared.slot.Slot.{Slot};
ghost use Rattle.wild_memo_laws.specs.Exact.{Fits};
ghost use Rattle.wild_memo_laws.specs.Memo as memo;
ghost use Rattle.wild_memo_laws.specs.Nodes.{nodes, part_nodes};
ghost use Rattle.wild_memo_laws.specs.Running.{State};
ghost use Rattle.wild_memo_laws.specs.Sound.{IsIndexed, IsSound, Agrees};
ghost use Rattle.wild_value_spec.specs.declared.value.Point.{Point};
ghost use Rattle.wild_value_spec.specs.Known.{Known, IsPart};
ghost use Rattle.wild_value_spec.specs.Marks.{max_height};
ghost use Rattle.wild_value_spec.specs.Scope.{Name, Scope};
ghost use Rattle.wild_value_spec.specs.Value.{value};

/// A value is the same at each statement and wherever its height fits; where it does not fit, it is too deep.
pub fn heights_are_exact()
    ensures { (scope : Scope) (known : Known) (one other : ℕ) (levels more : ℕ) (path : List Name) (e : Expression) (p : Point)
        → Fits other more (value scope one known levels path e p) (value scope other known more path e p) }
{}

/// The parts of a node have fewer nodes than the node.
pub fn parts_have_fewer_nodes()
    ensures { (e : Expression) → part_nodes (shape e) < nodes e }
{}

/// Evaluation that keeps what definitions are worth, from what is kept rightly, answers as plain evaluation does, leaves
/// what is kept right, and ticks at most as often as the expression and the definitions that it keeps have nodes.
pub fn kept_values_agree()
    ensures { (scope : Scope) (known : Known) (statement levels : ℕ) → IsIndexed scope → levels ≤ max_height
        → (path : List Name) (e : Expression) (p : Point) (s : State) → IsSound scope known path s.slots
        → Agrees scope known path (nodes e) s (λ other. value scope statement known levels other e p) (memo.value scope statement known levels e p s) }
{}

/// What is kept rightly over a part of what is known is right over all of it.
pub fn memos_stay()
    ensures { (scope : Scope) (known more : Known) (path : List Name) (slots : List Slot)
        → IsPart known more → IsSound scope known path slots → IsSound scope more path slots }
{}
