//! The calls that evaluate with a memo.

ghost use Rattle.std.specs.Prelude.{◌≡◌, ◌<◌, suc, IfOk, Some, slice_get};
ghost use Rattle.wild_eval.specs.Evaluated.{Evaluates, IsMemo, plain_definition, plain_full, plain_statement, plain_value};
ghost use Rattle.wild_eval.specs.Leaves.{scope};
ghost use Rattle.wild_memo_laws.specs.declared.slot.Slot.TheVariants.{Kept};
ghost use Rattle.wild_memo_laws.specs.Nodes.{nodes};
ghost use Rattle.wild_memo_laws.specs.Running.{slot_at};

use crate::evaluator::Evaluator;
use crate::keeping::MAX_HEIGHT;
use crate::memo::Memo;
use std::sync::ledger::Ledger;
use wild_base::{Fault, Name, Steps};
use wild_expression_tree::{AssertCommand, Expression};
use wild_value_spec::{Point, Value, Whole};

impl Evaluator<'_> {
    // The value of an expression at a point.
    fn evaluate<L: Ledger>(
        &self,
        memo: &mut Memo,
        steps: &mut Steps<L>,
        expression: &Expression,
        point: Point,
    ) -> Result<Value, Fault>
        requires { IsMemo self.now memo.old }
        ensures answer { Evaluates self.now (nodes expression.now) memo.old memo.new steps.old steps.new (plain_value self.now expression.now point) result }
        ensures once { steps.old < steps.new }
    {
        steps.tick();
        self.node(memo, steps, MAX_HEIGHT - 1, expression, point)
    }

    /// The number that an expression stands for at a point.
    pub fn evaluate_early_expression<L: Ledger>(
        &self,
        memo: &mut Memo,
        steps: &mut Steps<L>,
        expression: &Expression,
        point: Point,
    ) -> Result<u64, Fault>
        requires { IsMemo self.now memo.old }
        ensures answer { Evaluates self.now (nodes expression.now) memo.old memo.new steps.old steps.new (plain_full self.now expression.now point) result }
        ensures once { steps.old < steps.new }
    {
        let value = self.evaluate(memo, steps, expression, point)?;
        self.full_number(point, value)
    }

    /// What the definition of a number is worth, which counts for the name. It is kept from then on.
    pub fn evaluate_definition<L: Ledger>(
        &self,
        memo: &mut Memo,
        steps: &mut Steps<L>,
        name: &Name,
        number: usize,
    ) -> Result<Whole, Fault>
        requires memo { IsMemo self.now memo.old }
        requires numbered { (scope self.now).symbol name.now ≡ Some number }
        ensures answer { Evaluates self.now 0 memo.old memo.new steps.old steps.new (plain_definition self.now name.now (slice_get (scope self.now).definitions number)) result }
        ensures still { (w : Whole) → slot_at number memo.old ≡ Kept w → steps.new ≡ steps.old }
        ensures kept { IfOk result (λ w. slot_at number memo.new ≡ Kept w) }
    {
        match self.scope.definition_at(number) {
            None => self.undefined(name),
            Some(definition) => self.whole(memo, steps, MAX_HEIGHT, name, number, definition),
        }
    }

    /// What an ASSERT statement is worth at a point. Fails where its condition is 0.
    pub fn evaluate_assert<L: Ledger>(
        &self,
        memo: &mut Memo,
        steps: &mut Steps<L>,
        command: &AssertCommand,
        point: Point,
    ) -> Result<Value, Fault>
        requires { IsMemo self.now memo.old }
        ensures answer { Evaluates self.now (suc (nodes command.now.expression)) memo.old memo.new steps.old steps.new (plain_statement self.now command.now point) result }
        ensures once { steps.old < steps.new }
    {
        steps.tick();
        self.assert_value(memo, steps, MAX_HEIGHT - 1, command, point)
    }
}
