//! What is known of a layout, and the faults of what is not.

ghost use Rattle.std.specs.Prelude.{Ok, codes};
ghost use Rattle.wild_names.specs.declared.fault.Fault.TheVariants as fault;
ghost use Rattle.wild_eval.specs.Leaves as spec;
ghost use Rattle.wild_value_spec.specs.Answer.{Gives, Returns, or_fault};

use crate::evaluator::Evaluator;
use wild_base::{Fault, Name};
use wild_value_spec::{DotSource, Point};

impl Evaluator<'_> {
    fn section_name(&self, section: usize) -> Result<Name, Fault>
        ensures { Returns result (Ok ((spec.scope self.now).section_name section)) }
    {
        Ok(Name::new(self.alloc, self.scope.name_of(section))?)
    }

    // The same name once more.
    pub(crate) fn copied(&self, name: &Name) -> Result<Name, Fault>
        ensures { Returns result (Ok name.now) }
    {
        Ok(name.copy(self.alloc)?)
    }

    #[tactic(auto, unfolding(wild_value_spec::specs::Value::start_of))]
    pub(crate) fn start(&self, section: usize) -> Result<u64, Fault>
        ensures { Gives result (spec.start_of self.now section) }
    {
        match self.addresses.known_start(section) {
            Some(number) => Ok(number),
            None => Err(Fault::NotLaidOut {
                statement: self.statement,
                name: self.section_name(section)?,
            }),
        }
    }

    #[tactic(auto, unfolding(wild_value_spec::specs::Value::load_of))]
    pub(crate) fn load(&self, section: usize) -> Result<u64, Fault>
        ensures { Gives result (spec.load_of self.now section) }
    {
        match self.addresses.known_load(section) {
            Some(number) => Ok(number),
            None => Err(Fault::NotLaidOut {
                statement: self.statement,
                name: self.section_name(section)?,
            }),
        }
    }

    #[tactic(auto, unfolding(wild_value_spec::specs::Value::end_of))]
    pub(crate) fn end(&self, section: usize) -> Result<u64, Fault>
        ensures { Gives result (spec.end_of self.now section) }
    {
        match self.addresses.known_end(section) {
            Some(number) => Ok(number),
            None => Err(Fault::NotLaidOut {
                statement: self.statement,
                name: self.section_name(section)?,
            }),
        }
    }

    // The address of the row of a symbol.
    #[tactic(auto, unfolding(wild_value_spec::specs::Value::row_of))]
    pub(crate) fn address(&self, name: &Name, row: usize) -> Result<u64, Fault>
        ensures { Gives result (spec.row_of self.now name.now row) }
    {
        match self.addresses.known_address(row) {
            Some(address) => Ok(address),
            None => Err(Fault::NotLaidOut {
                statement: self.statement,
                name: self.copied(name)?,
            }),
        }
    }

    // A location counter, where it is known.
    fn counted(&self, known: Option<u64>) -> Result<u64, Fault>
        ensures { Gives result (or_fault known (fault.NotLaidOut self.now.statement (codes "."))) }
    {
        match known {
            Some(dot) => Ok(dot),
            None => Err(Fault::NotLaidOut {
                statement: self.statement,
                name: Name::new(self.alloc, b".")?,
            }),
        }
    }

    // `.` of a point.
    #[tactic(auto, unfolding(wild_value_spec::specs::Value::dot_of))]
    pub(crate) fn dot(&self, point: Point) -> Result<u64, Fault>
        ensures { Gives result (spec.dot_of self.now point) }
    {
        match point.dot {
            DotSource::OfPlace => self.counted(self.addresses.known_dot(point.place)),
            DotSource::OfLoad => self.counted(self.addresses.known_load_dot(point.place)),
            DotSource::Zero => Ok(0),
            DotSource::OfEnd(section) => self.end(section),
        }
    }
}
