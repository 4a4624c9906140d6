//! What an evaluator makes of the names of sections and symbols without looking into a part.

ghost use Rattle.std.specs.Prelude.{◌≡◌, ◌<◌, ◌≤◌, ◌+◌, IfOk, Err, Some};
ghost use Rattle.wild_names.specs.declared.fault.Fault.TheVariants as fault;
ghost use Rattle.wild_eval.specs.Leaves as spec;
ghost use Rattle.wild_value_spec.specs.Answer.{Gives};
ghost use Rattle.wild_value_spec.specs.Marks.{max_height};

use crate::arithmetic::truth;
use crate::checked::sum;
use crate::evaluator::Evaluator;
use crate::marks::{absolutely, absolutely_over, relatively_over, unmarked};
use wild_base::{Fault, Name};
use wild_expression_tree::{AssertCommand, Question};
use wild_value_spec::{Point, Value, Whole};

impl Evaluator<'_> {
    // End minus start, the end first.
    #[tactic(auto, unfolding(wild_value_spec::specs::Value::extent))]
    fn extent(&self, section: usize) -> Result<Value, Fault>
        ensures value { Gives result (spec.extent self.now section) }
        ensures height { IfOk result (λ v. v.height ≤ 1) }
    {
        let end = self.end(section)?;
        let start = self.start(section)?;
        Ok(unmarked(end.saturating_sub(start)))
    }

    #[tactic(auto, unfolding(wild_value_spec::specs::Value::size))]
    fn size(&self, name: &Name) -> Result<Value, Fault>
        ensures value { Gives result (spec.size self.now name.now) }
        ensures height { IfOk result (λ v. v.height ≤ 1) }
    {
        match self.scope.section(name) {
            Some(section) => self.extent(section),
            None => Ok(unmarked(0)),
        }
    }

    #[tactic(auto, unfolding(wild_value_spec::specs::Value::alignment))]
    fn alignment(&self, name: &Name) -> Value
        ensures value { result ≡ spec.alignment self.now name.now }
        ensures height { result.height ≤ 1 }
    {
        match self.scope.section(name) {
            Some(section) => unmarked(self.scope.alignment(section).value()),
            None => unmarked(0),
        }
    }

    fn unknown_section(&self, name: &Name) -> Result<Value, Fault>
        ensures value { Gives result (Err (fault.UnknownSection name.now)) }
        ensures height { IfOk result (λ v. v.height ≤ 1) }
    {
        Err(Fault::UnknownSection {
            name: self.copied(name)?,
        })
    }

    #[tactic(auto, unfolding(wild_value_spec::specs::Value::start_named))]
    fn start_named(&self, name: &Name) -> Result<Value, Fault>
        ensures value { Gives result (spec.start_named self.now name.now) }
        ensures height { IfOk result (λ v. v.height ≤ 1) }
    {
        match self.scope.section(name) {
            Some(section) => Ok(absolutely(self.start(section)?)),
            None => self.unknown_section(name),
        }
    }

    #[tactic(auto, unfolding(wild_value_spec::specs::Value::load_named))]
    fn load_named(&self, name: &Name) -> Result<Value, Fault>
        ensures value { Gives result (spec.load_named self.now name.now) }
        ensures height { IfOk result (λ v. v.height ≤ 1) }
    {
        match self.scope.section(name) {
            Some(section) => Ok(absolutely(self.load(section)?)),
            None => self.unknown_section(name),
        }
    }

    #[tactic(auto, unfolding(wild_value_spec::specs::Value::defined_value))]
    fn defined_value(&self, name: &Name) -> Value
        ensures value { result ≡ spec.defined_value self.now name.now }
        ensures height { result.height ≤ 1 }
    {
        unmarked(truth(self.scope.definition(name).is_some()))
    }

    fn unknown_region(&self, name: &Name) -> Result<Value, Fault>
        ensures value { Gives result (Err (fault.UnknownRegion name.now)) }
        ensures height { IfOk result (λ v. v.height ≤ 1) }
    {
        Err(Fault::UnknownRegion {
            name: self.copied(name)?,
        })
    }

    #[tactic(auto, unfolding(wild_value_spec::specs::Value::region_origin))]
    fn region_origin(&self, name: &Name) -> Result<Value, Fault>
        ensures value { Gives result (spec.region_origin self.now name.now) }
        ensures height { IfOk result (λ v. v.height ≤ 1) }
    {
        match self.scope.region(name) {
            Some(region) => Ok(absolutely(region.origin)),
            None => self.unknown_region(name),
        }
    }

    #[tactic(auto, unfolding(wild_value_spec::specs::Value::region_length))]
    fn region_length(&self, name: &Name) -> Result<Value, Fault>
        ensures value { Gives result (spec.region_length self.now name.now) }
        ensures height { IfOk result (λ v. v.height ≤ 1) }
    {
        match self.scope.region(name) {
            Some(region) => Ok(unmarked(region.length)),
            None => self.unknown_region(name),
        }
    }

    // What is asked of a name.
    pub(crate) fn named_value(&self, question: Question, name: &Name) -> Result<Value, Fault>
        ensures value { Gives result (spec.named_value self.now question name.now) }
        ensures height { IfOk result (λ v. v.height ≤ 1) }
    {
        match question {
            Question::Sizeof => self.size(name),
            Question::Alignof => Ok(self.alignment(name)),
            Question::Addr => self.start_named(name),
            Question::Loadaddr => self.load_named(name),
            Question::Origin => self.region_origin(name),
            Question::Length => self.region_length(name),
            Question::Defined => Ok(self.defined_value(name)),
        }
    }

    // What a symbol is worth, counted from the start of its section.
    #[tactic(auto, unfolding(wild_value_spec::specs::Value::from_start))]
    fn from_start(&self, name: &Name, whole: Whole, start: u64) -> Result<Value, Fault>
        requires { whole.height < max_height }
        ensures value { Gives result (spec.from_start self.now name.now whole start) }
        ensures height { IfOk result (λ v. v.height ≡ whole.height + 1) }
    {
        if whole.number < start {
            return Err(Fault::BeforeSection {
                name: self.copied(name)?,
            });
        }
        Ok(relatively_over(whole.number - start, whole.height))
    }

    // What a symbol of a section is worth, as it is read in one.
    fn symbol_value_in(
        &self,
        name: &Name,
        whole: Whole,
        section: usize,
        other: usize,
    ) -> Result<Value, Fault>
        requires { whole.height < max_height }
        ensures value { Gives result (spec.symbol_value_in self.now name.now whole (Some section) (Some other)) }
        ensures height { IfOk result (λ v. v.height ≡ whole.height + 1) }
    {
        if section != other {
            return Ok(absolutely_over(whole.number, whole.height));
        }
        let start = self.start(section)?;
        self.from_start(name, whole, start)
    }

    // What a symbol of that section is worth, as it is read at a point.
    #[tactic(auto, unfolding(wild_value_spec::specs::Value::symbol_value))]
    pub(crate) fn symbol_value(
        &self,
        name: &Name,
        section: Option<usize>,
        point: Point,
        whole: Whole,
    ) -> Result<Value, Fault>
        requires { whole.height < max_height }
        ensures value { Gives result (spec.symbol_value self.now name.now section point whole) }
        ensures height { IfOk result (λ v. v.height ≡ whole.height + 1) }
    {
        match (section, point.section) {
            (Some(section), Some(other)) => self.symbol_value_in(name, whole, section, other),
            _ => Ok(absolutely_over(whole.number, whole.height)),
        }
    }

    // What a symbol of the table is worth: so far after the start of its row.
    #[tactic(auto, unfolding(wild_value_spec::specs::Value::row_whole))]
    pub(crate) fn row_whole(&self, name: &Name, row: usize, offset: u64) -> Result<Whole, Fault>
        ensures value { Gives result (spec.row_whole self.now name.now row offset) }
        ensures height { IfOk result (λ w. w.height ≡ 0) }
    {
        let start = self.address(name, row)?;
        let number = sum(start, offset)?;
        Ok(Whole { number, height: 0 })
    }

    pub(crate) fn unknown_symbol(&self, name: &Name) -> Result<Value, Fault>
        ensures value { Gives result (Err (fault.UnknownSymbol name.now)) }
        ensures height { IfOk result (λ v. v.height ≤ 1) }
    {
        Err(Fault::UnknownSymbol {
            name: self.copied(name)?,
        })
    }

    // The same in place of what is no value.
    pub(crate) fn undefined<T>(&self, name: &Name) -> Result<T, Fault>
        ensures { Gives result (Err (fault.UnknownSymbol name.now)) }
    {
        Err(Fault::UnknownSymbol {
            name: self.copied(name)?,
        })
    }

    pub(crate) fn symbol_cycle(&self, name: &Name) -> Result<Whole, Fault>
        ensures value { Gives result (Err (fault.SymbolCycle name.now)) }
        ensures height { IfOk result (λ w. w.height ≤ 0) }
    {
        Err(Fault::SymbolCycle {
            name: self.copied(name)?,
        })
    }

    pub(crate) fn failed(&self, command: &AssertCommand) -> Result<Value, Fault>
        ensures value { Gives result (Err (fault.AssertFailed ((spec.scope self.now).line command.now.at) command.now.message)) }
        ensures height { IfOk result (λ v. v.height ≤ 1) }
    {
        Err(Fault::AssertFailed {
            line: self.scope.line(command.at),
            message: self.copied(&command.message)?,
        })
    }
}
