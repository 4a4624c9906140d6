//! Evaluators of a statement.

ghost use Rattle.std.specs.Prelude.{◌≡◌, [], ◌∷◌, Some};
ghost use Rattle.wild_eval.specs.Evaluated.{IsMemo, plain_full, plain_statement};
ghost use Rattle.wild_eval.specs.Leaves.{known, scope};
ghost use Rattle.wild_expression_tree.specs.declared.tree.Expression as tree;
ghost use Rattle.wild_value_spec.specs.declared.value.Point as place;
ghost use Rattle.wild_value_spec.specs.Answer.{Returns};
ghost use Rattle.wild_value_spec.specs.Scope.{OfScript, definition_of};
ghost use Rattle.wild_value_spec.specs.Value.{full_value};

use crate::addresses::Addresses;
use crate::memo::Memo;
use crate::scope::Scope;
use std::alloc::Global;
use std::marker::Brand;
use std::sync::ledger::{Blank, Ledger};
use wild_base::{Fault, Name, Steps};
use wild_expression_tree::{AssertCommand, Expression};
use wild_value_spec::{Point, Value};

/// Evaluates the expressions of a statement over what is known of a layout.
#[derive(Drop)]
pub struct Evaluator<'a> {
    pub alloc: Global,
    pub scope: &'a Scope<'a>,
    pub addresses: &'a Addresses,
    /// The number of the statement, which faults name.
    pub statement: usize,
}

impl Evaluator<'_> {
    /// A memo in which nothing is kept yet.
    pub fn memo(&self) -> Memo
        ensures { IsMemo self.now result }
    {
        Memo::new(self.alloc, self.scope.entries.len())
    }

    /// The number that an expression stands for at a point.
    pub fn full(&self, memo: &mut Memo, expression: &Expression, point: Point) -> Result<u64, Fault>
        requires { IsMemo self.now memo.old }
        ensures memo { IsMemo self.now memo.new }
        ensures answer { Returns result (plain_full self.now expression.now point) }
    {
        self.full_apart::<Brand>(memo, Blank::new(1), expression, point)
    }

    /// The number that a symbol stands for, which the script defines by an expression at a point.
    pub fn symbol_number(&self, memo: &mut Memo, name: &Name) -> Result<u64, Fault>
        requires { IsMemo self.now memo.old }
        ensures memo { IsMemo self.now memo.new }
        ensures answer { (e : tree.Expression) (p : place.Point) → definition_of (scope self.now) name.now ≡ Some (OfScript e p)
            → Returns result (full_value (scope self.now) self.now.statement (known self.now) (name.now ∷ []) e p) }
    {
        self.symbol_apart::<Brand>(memo, Blank::new(1), name)
    }

    /// What an ASSERT statement is worth at a point. Fails where its condition is 0.
    pub fn check(
        &self,
        memo: &mut Memo,
        command: &AssertCommand,
        point: Point,
    ) -> Result<Value, Fault>
        requires { IsMemo self.now memo.old }
        ensures memo { IsMemo self.now memo.new }
        ensures answer { Returns result (plain_statement self.now command.now point) }
    {
        self.check_apart::<Brand>(memo, Blank::new(1), command, point)
    }

    // ---- the same, with steps of a ledger of its own, which nobody reads

    fn full_apart<L: Ledger>(
        &self,
        memo: &mut Memo,
        blank: Blank,
        expression: &Expression,
        point: Point,
    ) -> Result<u64, Fault>
        requires memo { IsMemo self.now memo.old }
        requires name { blank.name ≡ L.name }
        requires parts { blank.parts ≡ L.parts }
        requires some { blank.parts ≡ 1 }
        ensures memo { IsMemo self.now memo.new }
        ensures answer { Returns result (plain_full self.now expression.now point) }
    {
        let mut steps: Steps<L> = Steps::new(blank);
        self.evaluate_early_expression(memo, &mut steps, expression, point)
    }

    fn symbol_apart<L: Ledger>(
        &self,
        memo: &mut Memo,
        blank: Blank,
        name: &Name,
    ) -> Result<u64, Fault>
        requires memo { IsMemo self.now memo.old }
        requires name { blank.name ≡ L.name }
        requires parts { blank.parts ≡ L.parts }
        requires some { blank.parts ≡ 1 }
        ensures memo { IsMemo self.now memo.new }
        ensures answer { (e : tree.Expression) (p : place.Point) → definition_of (scope self.now) name.now ≡ Some (OfScript e p)
            → Returns result (full_value (scope self.now) self.now.statement (known self.now) (name.now ∷ []) e p) }
    {
        let Some(number) = self.scope.symbols.get(name) else {
            return self.undefined(name);
        };
        let mut steps: Steps<L> = Steps::new(blank);
        let whole = self.evaluate_definition(memo, &mut steps, name, number)?;
        Ok(whole.number)
    }

    fn check_apart<L: Ledger>(
        &self,
        memo: &mut Memo,
        blank: Blank,
        command: &AssertCommand,
        point: Point,
    ) -> Result<Value, Fault>
        requires memo { IsMemo self.now memo.old }
        requires name { blank.name ≡ L.name }
        requires parts { blank.parts ≡ L.parts }
        requires some { blank.parts ≡ 1 }
        ensures memo { IsMemo self.now memo.new }
        ensures answer { Returns result (plain_statement self.now command.now point) }
    {
        let mut steps: Steps<L> = Steps::new(blank);
        self.evaluate_assert(memo, &mut steps, command, point)
    }
}
