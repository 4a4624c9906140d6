//! Values by recursion over trees that keeps what definitions are worth, and counts the nodes that it looks at.

ghost use Rattle.std.specs.Prelude.{◌≡◌, ◌<◌, ◌≤◌, ◌+◌, IfOk, IfErr, Ok, Some, set};
ghost use Rattle.wild_eval.specs.Keeping as spec;
ghost use Rattle.wild_eval.specs.Keeping.{Runs, kept};
ghost use Rattle.wild_eval.specs.Leaves.{scope};
ghost use Rattle.wild_eval.specs.Scope.{shown_definition};
ghost use Rattle.wild_expression_tree.specs.Shape as shape;
ghost use Rattle.wild_memo_laws.specs.declared.slot.Slot.TheVariants.{Unseen, Kept};
ghost use Rattle.wild_memo_laws.specs.Exact.{fitted};
ghost use Rattle.wild_memo_laws.specs.Nodes.{nodes, part_nodes};
ghost use Rattle.wild_memo_laws.specs.Running.{slot_at};
ghost use Rattle.wild_memo_laws.specs.Sound.{IsDefined, definition_nodes};
ghost use Rattle.wild_names.specs.declared.fault.Fault.TheVariants as fault;
ghost use Rattle.wild_value_spec.specs.Answer.{Fails};
ghost use Rattle.wild_value_spec.specs.Marks.{max_height};
ghost use Rattle.wild_value_spec.specs.Value as value;

use crate::arithmetic::{apply, change, decides, divide, truth_of};
use crate::definition::Definition;
use crate::evaluator::Evaluator;
use crate::marks::{absolutely, addressed_over, over, over_both, unmarked};
use crate::memo::Memo;
use std::sync::ledger::Ledger;
use wild_base::{Fault, Name, SegmentName, Steps};
use wild_expression_tree::{
    Arithmetic, AssertCommand, Comparison, Connective, Division, Expression, Shape, Unary,
};
use wild_memo_laws::Slot;
use wild_value_spec::{Point, Value, Whole};

/// The largest height of a value.
pub(crate) const MAX_HEIGHT: usize = 1024;

#[tactic(auto, unfolding(wild_value_spec::specs::Value::chosen_side))]
fn chosen_side<'a>(condition: u64, first: &'a Expression, second: &'a Expression) -> &'a Expression
    ensures { result.now ≡ value.chosen_side condition first.now second.now }
{
    if condition == 0 { second } else { first }
}

fn zero_divisor(operator: Division, statement: usize) -> Fault
    ensures { result ≡ value.zero_divisor operator statement }
{
    match operator {
        Division::Divide => Fault::DivisionByZero { statement },
        Division::Modulo => Fault::ModuloByZero { statement },
    }
}

// It is kept, or nothing where memory runs out.
fn keep(memo: &mut Memo, number: usize, whole: Whole) -> Result<Whole, Fault>
    ensures ok { IfOk result (λ w. (w ≡ whole) × (memo.new ≡ set memo.old number (Kept w))) }
    ensures err { IfErr result (λ f. (f ≡ fault.NoMemory) × (memo.new ≡ set memo.old number Unseen)) }
{
    if memo.mark(number, Slot::Kept(whole)).is_err() {
        memo.forget(number);
        return Err(Fault::NoMemory);
    }
    Ok(whole)
}

// What the work on a definition found is kept, unless it failed.
fn settle(memo: &mut Memo, number: usize, answer: Result<Whole, Fault>) -> Result<Whole, Fault>
    ensures ok { IfOk result (λ w. (answer ≡ Ok w) × (memo.new ≡ set memo.old number (Kept w))) }
    ensures err { IfErr result (λ f. Fails f answer × (memo.new ≡ set memo.old number Unseen)) }
{
    match answer {
        Ok(whole) => keep(memo, number, whole),
        Err(fault) => {
            memo.forget(number);
            Err(fault)
        }
    }
}

impl Evaluator<'_> {
    // What is kept, where its height fits.
    #[tactic(auto, unfolding(wild_memo_laws::specs::Exact::fitted))]
    fn fitted(&self, levels: usize, whole: Whole) -> Result<Whole, Fault>
        ensures value { result ≡ fitted self.now.statement levels whole.height whole }
        ensures height { IfOk result (λ w. w.height ≤ levels) }
    {
        if whole.height > levels {
            return Err(Fault::DeepValue {
                statement: self.statement,
            });
        }
        Ok(whole)
    }

    // The value of an expression at a point, where this many levels are left.
    #[cycle(evaluation)]
    #[tactic(auto, unfolding(wild_memo_laws::specs::Memo::value))]
    pub(crate) fn value<L: Ledger>(
        &self,
        memo: &mut Memo,
        steps: &mut Steps<L>,
        levels: usize,
        expression: &Expression,
        point: Point,
    ) -> Result<Value, Fault>
        requires { levels ≤ max_height }
        ensures value { Runs self.now (nodes expression.now) result (kept memo.old steps.old) (kept memo.new steps.new) (spec.value self.now levels expression.now point (kept memo.old steps.old)) }
        ensures height { IfOk result (λ v. v.height ≤ levels) }
    {
        if levels == 0 {
            return Err(Fault::DeepValue {
                statement: self.statement,
            });
        }
        steps.tick();
        self.node(memo, steps, levels - 1, expression, point)
    }

    #[cycle(evaluation)]
    pub(crate) fn node<L: Ledger>(
        &self,
        memo: &mut Memo,
        steps: &mut Steps<L>,
        levels: usize,
        tree: &Expression,
        point: Point,
    ) -> Result<Value, Fault>
        requires { levels < max_height }
        ensures value { Runs self.now (part_nodes (shape.shape tree.now)) result (kept memo.old steps.old) (kept memo.new steps.new) (spec.node self.now levels tree.now point (kept memo.old steps.old)) }
        ensures height { IfOk result (λ v. v.height ≤ levels + 1) }
    {
        match tree.shape() {
            Shape::Number(number) => Ok(unmarked(number)),
            Shape::LocationCounter => self.counter(point),
            Shape::Symbol(name) => self.symbol(memo, steps, levels, name, point),
            Shape::Named(question, name) => self.named_value(question, name),
            Shape::Arithmetic(o, a, b) => {
                self.arithmetic_value(memo, steps, levels, o, a, b, point)
            }
            Shape::Division(o, a, b) => self.division_value(memo, steps, levels, o, a, b, point),
            Shape::Comparison(o, a, b) => {
                self.comparison_value(memo, steps, levels, o, a, b, point)
            }
            Shape::Connective(o, a, b) => {
                self.connective_value(memo, steps, levels, o, a, b, point)
            }
            Shape::Unary(o, a) => self.unary_value(memo, steps, levels, o, a, point),
            Shape::Ternary(c, a, b) => self.ternary_value(memo, steps, levels, c, a, b, point),
            Shape::Align(alignment, held) => {
                self.align_value(memo, steps, levels, alignment, held, point)
            }
            Shape::Assert(command) => self.assert_value(memo, steps, levels, command, point),
            Shape::SizeofHeaders => Ok(unmarked(self.scope.header_size)),
            Shape::SegmentStart(segment, a) => {
                self.segment_value(memo, steps, levels, segment, a, point)
            }
        }
    }

    // Both sides, the left one first.
    #[cycle(evaluation)]
    #[tactic(auto, unfolding(wild_memo_laws::specs::Memo::arithmetic_value))]
    fn arithmetic_value<L: Ledger>(
        &self,
        memo: &mut Memo,
        steps: &mut Steps<L>,
        levels: usize,
        operator: Arithmetic,
        a: &Expression,
        b: &Expression,
        point: Point,
    ) -> Result<Value, Fault>
        requires { levels < max_height }
        ensures value { Runs self.now (part_nodes (shape.Shape.Arithmetic operator a.now b.now)) result (kept memo.old steps.old) (kept memo.new steps.new) (spec.arithmetic_value self.now levels operator a.now b.now point (kept memo.old steps.old)) }
        ensures height { IfOk result (λ v. v.height ≤ levels + 1) }
    {
        let x = self.value(memo, steps, levels, a, point)?;
        let y = self.value(memo, steps, levels, b, point)?;
        Ok(over_both(apply(operator, x.number, y.number), x, y))
    }

    // The divisor first, which must not be 0.
    #[cycle(evaluation)]
    #[tactic(auto, unfolding(wild_memo_laws::specs::Memo::division_value))]
    fn division_value<L: Ledger>(
        &self,
        memo: &mut Memo,
        steps: &mut Steps<L>,
        levels: usize,
        operator: Division,
        a: &Expression,
        b: &Expression,
        point: Point,
    ) -> Result<Value, Fault>
        requires { levels < max_height }
        ensures value { Runs self.now (part_nodes (shape.Shape.Division operator a.now b.now)) result (kept memo.old steps.old) (kept memo.new steps.new) (spec.division_value self.now levels operator a.now b.now point (kept memo.old steps.old)) }
        ensures height { IfOk result (λ v. v.height ≤ levels + 1) }
    {
        let y = self.value(memo, steps, levels, b, point)?;
        if y.number == 0 {
            return Err(zero_divisor(operator, self.statement));
        }
        let x = self.value(memo, steps, levels, a, point)?;
        Ok(over_both(divide(operator, x.number, y.number), x, y))
    }

    // The full values of both sides, the left one first.
    #[cycle(evaluation)]
    #[tactic(auto, unfolding(wild_memo_laws::specs::Memo::comparison_value))]
    fn comparison_value<L: Ledger>(
        &self,
        memo: &mut Memo,
        steps: &mut Steps<L>,
        levels: usize,
        comparison: Comparison,
        a: &Expression,
        b: &Expression,
        point: Point,
    ) -> Result<Value, Fault>
        requires { levels < max_height }
        ensures value { Runs self.now (part_nodes (shape.Shape.Comparison comparison a.now b.now)) result (kept memo.old steps.old) (kept memo.new steps.new) (spec.comparison_value self.now levels comparison a.now b.now point (kept memo.old steps.old)) }
        ensures height { IfOk result (λ v. v.height ≤ levels + 1) }
    {
        let x = self.value(memo, steps, levels, a, point)?;
        let first = self.full_number(point, x)?;
        let y = self.value(memo, steps, levels, b, point)?;
        self.judgement(comparison, point, first, x, y)
    }

    // The right side only where the left one does not decide.
    #[cycle(evaluation)]
    #[tactic(auto, unfolding(wild_memo_laws::specs::Memo::connective_value))]
    fn connective_value<L: Ledger>(
        &self,
        memo: &mut Memo,
        steps: &mut Steps<L>,
        levels: usize,
        operator: Connective,
        a: &Expression,
        b: &Expression,
        point: Point,
    ) -> Result<Value, Fault>
        requires { levels < max_height }
        ensures value { Runs self.now (part_nodes (shape.Shape.Connective operator a.now b.now)) result (kept memo.old steps.old) (kept memo.new steps.new) (spec.connective_value self.now levels operator a.now b.now point (kept memo.old steps.old)) }
        ensures height { IfOk result (λ v. v.height ≤ levels + 1) }
    {
        let x = self.value(memo, steps, levels, a, point)?;
        if decides(operator, x.number) {
            return Ok(over(truth_of(x.number), x));
        }
        let y = self.value(memo, steps, levels, b, point)?;
        Ok(over_both(truth_of(y.number), x, y))
    }

    // One side.
    #[cycle(evaluation)]
    #[tactic(auto, unfolding(wild_memo_laws::specs::Memo::unary_value))]
    fn unary_value<L: Ledger>(
        &self,
        memo: &mut Memo,
        steps: &mut Steps<L>,
        levels: usize,
        operator: Unary,
        a: &Expression,
        point: Point,
    ) -> Result<Value, Fault>
        requires { levels < max_height }
        ensures value { Runs self.now (part_nodes (shape.Shape.Unary operator a.now)) result (kept memo.old steps.old) (kept memo.new steps.new) (spec.unary_value self.now levels operator a.now point (kept memo.old steps.old)) }
        ensures height { IfOk result (λ v. v.height ≤ levels + 1) }
    {
        let x = self.value(memo, steps, levels, a, point)?;
        Ok(over(change(operator, x.number), x))
    }

    // The condition, and then the chosen side only.
    #[cycle(evaluation)]
    #[tactic(auto, unfolding(wild_memo_laws::specs::Memo::ternary_value))]
    fn ternary_value<L: Ledger>(
        &self,
        memo: &mut Memo,
        steps: &mut Steps<L>,
        levels: usize,
        condition: &Expression,
        a: &Expression,
        b: &Expression,
        point: Point,
    ) -> Result<Value, Fault>
        requires { levels < max_height }
        ensures value { Runs self.now (part_nodes (shape.Ternary condition.now a.now b.now)) result (kept memo.old steps.old) (kept memo.new steps.new) (spec.ternary_value self.now levels condition.now a.now b.now point (kept memo.old steps.old)) }
        ensures height { IfOk result (λ v. v.height ≤ levels + 1) }
    {
        let x = self.value(memo, steps, levels, condition, point)?;
        let y = self.value(memo, steps, levels, chosen_side(x.number, a, b), point)?;
        Ok(over_both(y.number, x, y))
    }

    // The alignment first, which must not be 0.
    #[cycle(evaluation)]
    #[tactic(auto, unfolding(wild_memo_laws::specs::Memo::align_value))]
    fn align_value<L: Ledger>(
        &self,
        memo: &mut Memo,
        steps: &mut Steps<L>,
        levels: usize,
        alignment: &Expression,
        held: Option<&Expression>,
        point: Point,
    ) -> Result<Value, Fault>
        requires { levels < max_height }
        ensures value { Runs self.now (part_nodes (shape.Align alignment.now (shape.seen_held held.entry))) result (kept memo.old steps.old) (kept memo.new steps.new) (spec.align_value self.now levels alignment.now (shape.seen_held held.entry) point (kept memo.old steps.old)) }
        ensures height { IfOk result (λ v. v.height ≤ levels + 1) }
    {
        let x = self.value(memo, steps, levels, alignment, point)?;
        if x.number == 0 {
            return Err(Fault::AlignZero {
                statement: self.statement,
            });
        }
        let y = self.subject(memo, steps, levels, held, point)?;
        self.multiple_value(x, y)
    }

    // What is aligned: an expression, or else the location counter without its mark.
    #[cycle(evaluation)]
    fn subject<L: Ledger>(
        &self,
        memo: &mut Memo,
        steps: &mut Steps<L>,
        levels: usize,
        held: Option<&Expression>,
        point: Point,
    ) -> Result<Value, Fault>
        requires { levels < max_height }
        ensures value { Runs self.now (spec.held_nodes (shape.seen_held held.entry)) result (kept memo.old steps.old) (kept memo.new steps.new) (spec.subject self.now levels (shape.seen_held held.entry) point (kept memo.old steps.old)) }
        ensures height { IfOk result (λ v. v.height ≤ levels) }
    {
        match held {
            Some(expression) => self.value(memo, steps, levels, expression, point),
            None => self.counter_number(point),
        }
    }

    // The start of a segment: the one that is asked for, else a value, as an address.
    #[cycle(evaluation)]
    #[tactic(auto, unfolding(wild_memo_laws::specs::Memo::segment_value))]
    fn segment_value<L: Ledger>(
        &self,
        memo: &mut Memo,
        steps: &mut Steps<L>,
        levels: usize,
        segment: SegmentName,
        default: &Expression,
        point: Point,
    ) -> Result<Value, Fault>
        requires { levels < max_height }
        ensures value { Runs self.now (part_nodes (shape.SegmentStart segment default.now)) result (kept memo.old steps.old) (kept memo.new steps.new) (spec.segment_value self.now levels segment default.now point (kept memo.old steps.old)) }
        ensures height { IfOk result (λ v. v.height ≤ levels + 1) }
    {
        match self.scope.segment_start(segment) {
            Some(start) => Ok(absolutely(start)),
            None => {
                let value = self.value(memo, steps, levels, default, point)?;
                Ok(addressed_over(value))
            }
        }
    }

    // A condition, which must not be 0.
    #[cycle(evaluation)]
    #[tactic(auto, unfolding(wild_memo_laws::specs::Memo::assert_value))]
    pub(crate) fn assert_value<L: Ledger>(
        &self,
        memo: &mut Memo,
        steps: &mut Steps<L>,
        levels: usize,
        command: &AssertCommand,
        point: Point,
    ) -> Result<Value, Fault>
        requires { levels < max_height }
        ensures value { Runs self.now (part_nodes (shape.Assert command.now.expression command.now.message command.now.at)) result (kept memo.old steps.old) (kept memo.new steps.new) (spec.assert_value self.now levels command.now.expression command.now.message command.now.at point (kept memo.old steps.old)) }
        ensures height { IfOk result (λ v. v.height ≤ levels + 1) }
    {
        let condition = self.value(memo, steps, levels, command.expression.get(), point)?;
        if condition.number == 0 {
            return self.failed(command);
        }
        Ok(over(condition.number, condition))
    }

    // ---- symbols

    // A symbol by its name.
    #[cycle(evaluation)]
    #[tactic(auto, unfolding(wild_memo_laws::specs::Memo::symbol))]
    fn symbol<L: Ledger>(
        &self,
        memo: &mut Memo,
        steps: &mut Steps<L>,
        levels: usize,
        name: &Name,
        point: Point,
    ) -> Result<Value, Fault>
        requires { levels < max_height }
        ensures value { Runs self.now 0 result (kept memo.old steps.old) (kept memo.new steps.new) (spec.symbol self.now levels name.now point (kept memo.old steps.old)) }
        ensures height { IfOk result (λ v. v.height ≤ levels + 1) }
    {
        match self.scope.symbols.get(name) {
            None => self.unknown_symbol(name),
            Some(number) => self.symbol_at(memo, steps, levels, name, number, point),
        }
    }

    // A symbol by the number of its definition: what that is worth, as it is read here.
    #[cycle(evaluation)]
    fn symbol_at<L: Ledger>(
        &self,
        memo: &mut Memo,
        steps: &mut Steps<L>,
        levels: usize,
        name: &Name,
        number: usize,
        point: Point,
    ) -> Result<Value, Fault>
        requires levels { levels < max_height }
        requires numbered { (scope self.now).symbol name.now ≡ Some number }
        ensures value { Runs self.now 0 result (kept memo.old steps.old) (kept memo.new steps.new) (spec.symbol_at self.now levels name.now number point (kept memo.old steps.old)) }
        ensures height { IfOk result (λ v. v.height ≤ levels + 1) }
    {
        match self.scope.definition_at(number) {
            None => self.unknown_symbol(name),
            Some(definition) => {
                let whole = self.whole(memo, steps, levels, name, number, definition)?;
                self.symbol_value(name, definition.home(), point, whole)
            }
        }
    }

    // What the definition of a number is worth: what is kept of it, or else it is worked out and kept.
    #[cycle(evaluation)]
    #[tactic(auto, unfolding(wild_memo_laws::specs::Memo::whole))]
    pub(crate) fn whole<L: Ledger>(
        &self,
        memo: &mut Memo,
        steps: &mut Steps<L>,
        levels: usize,
        name: &Name,
        number: usize,
        definition: Definition<'_>,
    ) -> Result<Whole, Fault>
        requires levels { levels ≤ max_height }
        requires defined { IsDefined (scope self.now) name.now number (shown_definition definition) }
        ensures value { Runs self.now 0 result (kept memo.old steps.old) (kept memo.new steps.new) (spec.whole self.now levels name.now number (shown_definition definition.entry) (kept memo.old steps.old)) }
        ensures still { (w : Whole) → slot_at number memo.old ≡ Kept w → steps.new ≡ steps.old }
        ensures height { IfOk result (λ w. w.height ≤ levels) }
    {
        match memo.at(number) {
            Slot::Kept(whole) => self.fitted(levels, whole),
            Slot::InWork => self.symbol_cycle(name),
            Slot::Unseen => self.worked(memo, steps, levels, name, number, definition),
        }
    }

    // The same, worked out while its slot is in work, and then kept.
    #[cycle(evaluation)]
    #[tactic(auto, unfolding(wild_memo_laws::specs::Memo::worked))]
    fn worked<L: Ledger>(
        &self,
        memo: &mut Memo,
        steps: &mut Steps<L>,
        levels: usize,
        name: &Name,
        number: usize,
        definition: Definition<'_>,
    ) -> Result<Whole, Fault>
        requires levels { levels ≤ max_height }
        requires defined { IsDefined (scope self.now) name.now number (shown_definition definition) }
        requires unseen { slot_at number memo.old ≡ Unseen }
        ensures value { Runs self.now 0 result (kept memo.old steps.old) (kept memo.new steps.new) (spec.worked self.now levels name.now number (shown_definition definition.entry) (kept memo.old steps.old)) }
        ensures height { IfOk result (λ w. w.height ≤ levels) }
    {
        memo.mark(number, Slot::InWork)?;
        let answer = self.found(memo, steps, levels, name, definition);
        settle(memo, number, answer)
    }

    // What a definition is worth at its own point, worked out.
    #[cycle(evaluation)]
    fn found<L: Ledger>(
        &self,
        memo: &mut Memo,
        steps: &mut Steps<L>,
        levels: usize,
        name: &Name,
        definition: Definition<'_>,
    ) -> Result<Whole, Fault>
        requires { levels ≤ max_height }
        ensures value { Runs self.now (definition_nodes (shown_definition definition.entry)) result (kept memo.old steps.old) (kept memo.new steps.new) (spec.found self.now levels name.now (shown_definition definition.entry) (kept memo.old steps.old)) }
        ensures height { IfOk result (λ w. w.height ≤ levels) }
    {
        match definition {
            Definition::OfRow { row, offset, .. } => self.row_whole(name, row, offset),
            Definition::OfScript { value, point } => {
                let value = self.value(memo, steps, levels, value, point)?;
                self.value_whole(point, value)
            }
        }
    }
}
