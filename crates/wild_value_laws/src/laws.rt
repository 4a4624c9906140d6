//! Laws about values.

ghost use Rattle.std.specs.Prelude.{◌≡◌, ℕ, List, Ok};
ghost use Rattle.wild_expression_tree.specs.declared.tree.Expression.{Expression};
ghost use Rattle.wild_value_laws.specs.Stable.{Stays};
ghost use Rattle.wild_value_spec.specs.declared.value.Point.{Point};
ghost use Rattle.wild_value_spec.specs.declared.value.Value.{Value};
ghost use Rattle.wild_value_spec.specs.Known.{Known, IsPart};
ghost use Rattle.wild_value_spec.specs.Scope.{Name, Scope};
ghost use Rattle.wild_value_spec.specs.Value.{value, full};

/// The value of an expression over a part of what is known is that over all of it, unless it asks for what is not laid
/// out yet. A fault stays as a value does.
pub fn values_stay()
    ensures { (scope : Scope) (statement : ℕ) (known more : Known) → IsPart known more → (levels : ℕ) (path : List Name) (e : Expression) (p : Point)
        → Stays (value scope statement known levels path e p) (value scope statement more levels path e p) }
{}

/// The same of the number that an expression stands for.
pub fn full_values_stay()
    ensures { (scope : Scope) (statement : ℕ) (known more : Known) → IsPart known more → (levels : ℕ) (path : List Name) (e : Expression) (p : Point)
        → Stays (full scope statement known levels path e p) (full scope statement more levels path e p) }
{}

/// A value that is no fault is the same at any statement, which is said in faults alone.
pub fn values_hold_at_any_statement()
    ensures { (scope : Scope) (one other : ℕ) (known : Known) (levels : ℕ) (path : List Name) (e : Expression) (p : Point) (x : Value)
        → value scope one known levels path e p ≡ Ok x → value scope other known levels path e p ≡ Ok x }
{}

/// The same of the number that an expression stands for.
pub fn full_values_hold_at_any_statement()
    ensures { (scope : Scope) (one other : ℕ) (known : Known) (levels : ℕ) (path : List Name) (e : Expression) (p : Point) (n : ℕ)
        → full scope one known levels path e p ≡ Ok n → full scope other known levels path e p ≡ Ok n }
{}
