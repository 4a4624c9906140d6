//! What an evaluator does without looking into a part.

ghost use Rattle.std.specs.Prelude.{◌≡◌, ◌<◌, ◌≤◌, ◌+◌, max, IfOk};
ghost use Rattle.wild_eval.specs.Leaves as spec;
ghost use Rattle.wild_value_spec.specs.Answer.{Gives};
ghost use Rattle.wild_value_spec.specs.Marks.{max_height};
ghost use Rattle.wild_value_spec.specs.Value.{multiple_value};

use crate::arithmetic::{holds, truth};
use crate::checked::{multiple_from, sum};
use crate::evaluator::Evaluator;
use crate::marks::{absolutely, bare, over_both, relatively, unmarked_over};
use wild_base::Fault;
use wild_expression_tree::Comparison;
use wild_value_spec::{Point, Value, Whole};

impl Evaluator<'_> {
    #[tactic(auto, unfolding(wild_value_spec::specs::Value::full_number))]
    pub(crate) fn full_number(&self, point: Point, value: Value) -> Result<u64, Fault>
        ensures { Gives result (spec.full_number self.now point value) }
    {
        match point.section {
            None => Ok(value.number),
            Some(section) => {
                if value.relative || !value.absolute {
                    let start = self.start(section)?;
                    sum(value.number, start)
                } else {
                    Ok(value.number)
                }
            }
        }
    }

    // The number that a value stands for, and its height.
    #[tactic(auto, unfolding(wild_value_spec::specs::Value::value_whole))]
    pub(crate) fn value_whole(&self, point: Point, value: Value) -> Result<Whole, Fault>
        ensures value { Gives result (spec.value_whole self.now point value) }
        ensures height { IfOk result (λ w. w.height ≡ value.height) }
    {
        let number = self.full_number(point, value)?;
        Ok(Whole {
            number,
            height: value.height,
        })
    }

    #[tactic(auto, unfolding(wild_value_spec::specs::Value::counter))]
    pub(crate) fn counter(&self, point: Point) -> Result<Value, Fault>
        ensures value { Gives result (spec.counter self.now point) }
        ensures height { IfOk result (λ v. v.height ≤ 1) }
    {
        let dot = self.dot(point)?;
        match point.section {
            None => Ok(absolutely(dot)),
            Some(section) => {
                let start = self.start(section)?;
                Ok(relatively(dot.saturating_sub(start)))
            }
        }
    }

    #[tactic(auto, unfolding(wild_value_spec::specs::Value::counter_number))]
    pub(crate) fn counter_number(&self, point: Point) -> Result<Value, Fault>
        ensures value { Gives result (spec.counter_number self.now point) }
        ensures height { IfOk result (λ v. v.height ≡ 0) }
    {
        let counter = self.counter(point)?;
        Ok(bare(counter.number))
    }

    // A comparison, of which the left side is known with its full value.
    #[tactic(auto, unfolding(wild_value_spec::specs::Value::judgement))]
    pub(crate) fn judgement(
        &self,
        comparison: Comparison,
        point: Point,
        first: u64,
        x: Value,
        y: Value,
    ) -> Result<Value, Fault>
        requires left_height { x.height < max_height }
        requires right_height { y.height < max_height }
        ensures value { Gives result (spec.judgement self.now comparison point first x y) }
        ensures height { IfOk result (λ v. v.height ≡ max x.height y.height + 1) }
    {
        let second = self.full_number(point, y)?;
        Ok(unmarked_over(truth(holds(comparison, first, second)), x, y))
    }

    // The next multiple of an alignment from a value on.
    #[tactic(auto, unfolding(wild_value_spec::specs::Value::multiple_value))]
    pub(crate) fn multiple_value(&self, align: Value, x: Value) -> Result<Value, Fault>
        requires nonzero { 0 < align.number }
        requires align_height { align.height < max_height }
        requires value_height { x.height < max_height }
        ensures value { result ≡ multiple_value align x }
        ensures height { IfOk result (λ v. v.height ≡ max align.height x.height + 1) }
    {
        let number = multiple_from(x.number, align.number)?;
        Ok(over_both(number, align, x))
    }
}
