//! What is evaluated once all places are laid out: the symbols of the script, then its ASSERTs.

ghost use Rattle.std.specs.Prelude.{◌≡◌, [], ◌∷◌, Some};
ghost use Rattle.wild_expression_tree.specs.declared.tree.Expression as tree;
ghost use Rattle.wild_value_spec.specs.declared.value.Point as point;
ghost use Rattle.wild_value_spec.specs.Scope.{OfScript, definition_of};
ghost use Rattle.wild_fates.specs.Shown.{shown_place, shown_places, shown_task};
ghost use Rattle.wild_plan_spec.specs.Conditions as spec;
ghost use Rattle.wild_plan_spec.specs.End.{final_symbols};
ghost use Rattle.wild_plan_spec.specs.Points.{task_point};
ghost use Rattle.wild_eval.specs.Evaluated.{IsMemoOf};
ghost use Rattle.wild_plan.specs.End.{AreDefined, known, scope};
ghost use Rattle.wild_value_spec.specs.Answer.{Returns};
ghost use Rattle.wild_value_spec.specs.Value.{full_value};

use crate::ground::Ground;
use crate::points::{condition_point, task_point};
use sqlite_items::Items;
use wild_base::{Fault, Name};
use wild_eval::{Addresses, Evaluator, Memo};
use wild_fates::{Place, Task};
use wild_plan_spec::{PlacedSymbol, Where};
use wild_script_tree::{AssertCommand, Expression};

/// What all is evaluated over, once all places are laid out.
#[derive(Drop)]
pub struct End<'a> {
    pub ground: &'a Ground<'a>,
    pub addresses: &'a Addresses,
}

impl End<'_> {
    /// The value of an expression of a task that stands here, over what is known.
    pub fn full(
        &self,
        memo: &mut Memo,
        place: usize,
        stand: Where,
        expression: &Expression,
    ) -> Result<u64, Fault>
        requires memo { IsMemoOf (scope self.now) (known self.now) memo.old }
        ensures memo { IsMemoOf (scope self.now) (known self.now) memo.new }
        ensures value { Returns result (full_value (scope self.now) place (known self.now) [] expression.now (task_point place stand expression.now)) }
    {
        let evaluator = Evaluator {
            alloc: self.ground.alloc,
            scope: &self.ground.scope,
            addresses: self.addresses,
            statement: place,
        };
        evaluator.full(memo, expression, task_point(place, stand, expression))
    }

    /// The number that a symbol stands for, which the script defines by an expression at a point, over what is known.
    pub fn symbol_number(&self, memo: &mut Memo, place: usize, name: &Name) -> Result<u64, Fault>
        requires memo { IsMemoOf (scope self.now) (known self.now) memo.old }
        ensures memo { IsMemoOf (scope self.now) (known self.now) memo.new }
        ensures value { (e : tree.Expression) (p : point.Point) → definition_of (scope self.now) name.now ≡ Some (OfScript e p)
            → Returns result (full_value (scope self.now) place (known self.now) (name.now ∷ []) e p) }
    {
        let evaluator = Evaluator {
            alloc: self.ground.alloc,
            scope: &self.ground.scope,
            addresses: self.addresses,
            statement: place,
        };
        evaluator.symbol_number(memo, name)
    }

    fn assert_holds(
        &self,
        memo: &mut Memo,
        place: usize,
        stand: Where,
        command: &AssertCommand,
    ) -> Result<(), Fault>
        requires memo { IsMemoOf (scope self.now) (known self.now) memo.old }
        ensures memo { IsMemoOf (scope self.now) (known self.now) memo.new }
        ensures holds { Returns result (spec.assert_holds (scope self.now) (known self.now) place stand command.now) }
    {
        let evaluator = Evaluator {
            alloc: self.ground.alloc,
            scope: &self.ground.scope,
            addresses: self.addresses,
            statement: place,
        };
        evaluator.check(memo, command, condition_point(place, stand))?;
        Ok(())
    }

    #[tactic(auto, unfolding(wild_plan_spec::specs::Conditions::task_holds))]
    fn task_holds(
        &self,
        memo: &mut Memo,
        place: usize,
        stand: Where,
        task: Task<'_>,
    ) -> Result<(), Fault>
        requires memo { IsMemoOf (scope self.now) (known self.now) memo.old }
        ensures memo { IsMemoOf (scope self.now) (known self.now) memo.new }
        ensures holds { Returns result (spec.task_holds (scope self.now) (known self.now) place stand (shown_task task.entry)) }
    {
        match task {
            Task::Check(command) => self.assert_holds(memo, place, stand, command),
            Task::Assign(_, _) | Task::Provide(_) | Task::Locate(_) => Ok(()),
        }
    }

    #[tactic(auto, unfolding(wild_plan_spec::specs::Conditions::place_holds))]
    fn place_holds(&self, memo: &mut Memo, number: usize, place: &Place<'_>) -> Result<(), Fault>
        requires memo { IsMemoOf (scope self.now) (known self.now) memo.old }
        ensures memo { IsMemoOf (scope self.now) (known self.now) memo.new }
        ensures holds { Returns result (spec.place_holds (scope self.now) (known self.now) number (shown_place place.now)) }
    {
        match *place {
            Place::Wait(stand, task) => self.task_holds(memo, number, stand, task),
            _ => Ok(()),
        }
    }

    // The conditions of the places, in text order.
    fn conditions(&self, memo: &mut Memo, places: &[Place<'_>]) -> Result<(), Fault>
        requires memo { IsMemoOf (scope self.now) (known self.now) memo.old }
        ensures memo { IsMemoOf (scope self.now) (known self.now) memo.new }
        ensures hold { Returns result (spec.conditions (scope self.now) (known self.now) 0 (shown_places places.now)) }
    {
        for (number, place) in places.iter().enumerate() {
            self.place_holds(memo, number, place)?;
        }
        Ok(())
    }

    /// The symbols of the places, where all have values and all conditions hold; or the first fault.
    pub fn final_symbols(&self, places: &[Place<'_>]) -> Result<Items<PlacedSymbol>, Fault>
        requires { AreDefined (scope self.now) (shown_places places.now) }
        ensures { Returns result (final_symbols (scope self.now) (known self.now) (shown_places places.now)) }
    {
        let evaluator = Evaluator {
            alloc: self.ground.alloc,
            scope: &self.ground.scope,
            addresses: self.addresses,
            statement: 0,
        };
        let mut memo = evaluator.memo();
        let found = self.symbols(&mut memo, places)?;
        self.conditions(&mut memo, places)?;
        Ok(found)
    }
}
