//! Visits of the nodes of an expression.

ghost use Rattle.std.specs.Prelude.{[], ◌∷◌, ◌≤◌, option_to_list};
ghost use Rattle.wild_expression_tree.specs.Shape.{seen_held};
ghost use Rattle.wild_expression_tree.specs.Visit.{Visited};

use crate::shape::{first, second, third};
use crate::tree::Expression;

/// What is shown the nodes of an expression.
pub trait Visitor {
    ghost use Rattle.std.specs.Prelude.{Bool};
    ghost use Rattle.wild_expression_tree.specs.declared.tree.Expression.{Expression};

    /// What a visit makes of a visitor, by the expression that it is shown and what it answers.
    ghost step: { Self → Expression → Bool → Self → Type 0 };

    /// Whether it wants to be shown the parts of the expression, too.
    fn visit(&mut self, expression: &Expression) -> bool
        ensures { step self.old expression.now result self.new };
}

impl Expression {
    /// Shows the visitor this expression and then, where it wants them, the parts in written order, each in the same way.
    #[cycle(visits)]
    #[tactic(auto, using(crate::proofs::Visited::visiting))]
    pub fn visit_expressions<V: Visitor>(&self, visitor: &mut V)
        ensures { Visited V.step visitor.old (self.now ∷ []) visitor.new }
    {
        if visitor.visit(self) {
            let shape = self.shape();
            visit_part(first(shape), visitor);
            visit_part(second(shape), visitor);
            visit_part(third(shape), visitor);
        }
    }
}

#[cycle(visits)]
#[tactic(auto, using(crate::proofs::Visited::unvisited))]
fn visit_part<V: Visitor>(part: Option<&Expression>, visitor: &mut V)
    ensures { Visited V.step visitor.old (option_to_list (seen_held part.entry)) visitor.new }
{
    if let Some(part) = part {
        part.visit_expressions(visitor);
    }
}
