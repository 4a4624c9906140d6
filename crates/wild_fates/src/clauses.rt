//! What is checked of a section as it begins, and of `/DISCARD/`.

ghost use Rattle.std.specs.Prelude.{◌≡◌, not};
ghost use Rattle.std.specs.List.{list_any};
ghost use Rattle.std.specs.Option.{option_map};
ghost use Rattle.wild_names.specs.declared.fault.Fault.TheVariants as fault;
ghost use Rattle.wild_plan_spec.specs.Checks as spec;
ghost use Rattle.wild_plan_spec.specs.Checks.{failing};
ghost use Rattle.wild_plan_spec.specs.Statements.{is_plain};
ghost use Rattle.wild_value_spec.specs.Const.{const};
ghost use Rattle.wild_fates.specs.Numbers.{number_or_fault};
ghost use Rattle.wild_fates.specs.Passes.{Passes};

use wild_base::{Alignment, Fault};
use wild_eval::{ConstFault, evaluate_const};
use wild_script_tree::{ContentsCommand, Expression, Fill, Section};

/// Why a statement has no constant.
pub fn constant_fault(statement: usize, reason: ConstFault) -> Fault
    ensures { result ≡ spec.constant_fault statement reason }
{
    match reason {
        ConstFault::NotConstant => Fault::NotConstant { statement },
        ConstFault::DivisionByZero => Fault::DivisionByZero { statement },
        ConstFault::ModuloByZero => Fault::ModuloByZero { statement },
    }
}

/// The number of a constant in a statement, or why there is none.
pub fn number_or_fault(statement: usize, expression: &Expression) -> Result<u64, Fault>
    ensures { result ≡ number_or_fault statement (const expression.now) }
{
    match evaluate_const(expression) {
        Ok(number) => Ok(number),
        Err(reason) => Err(constant_fault(statement, reason)),
    }
}

// The number of an ALIGN clause is an alignment.
fn check_alignment(statement: usize, clause: &Option<Expression>) -> Result<(), Fault>
    ensures { Passes (failing (spec.alignment_checks statement clause.now)) result }
{
    let Some(expression) = clause else {
        return Ok(());
    };
    match evaluate_const(expression) {
        Ok(value) if Alignment::new(value).is_err() => {
            Err(Fault::BadAlignment { statement, value })
        }
        Ok(_) => Ok(()),
        Err(reason) => Err(constant_fault(statement, reason)),
    }
}

// The number of a fill has four bytes.
fn check_fill(statement: usize, fill: &Option<Fill>) -> Result<(), Fault>
    ensures { Passes (failing (spec.fill_checks statement (option_map (λ f. f.value) fill.now))) result }
{
    let Some(fill) = fill else {
        return Ok(());
    };
    match evaluate_const(&fill.value) {
        Ok(value) if value >= 1 << 32 => Err(Fault::BadFill { statement, value }),
        Ok(_) => Ok(()),
        Err(reason) => Err(constant_fault(statement, reason)),
    }
}

/// A section that begins at a place has a name, and then an alignment and a fill, if it says any.
pub fn check_opening(statement: usize, section: &Section) -> Result<(), Fault>
    ensures { Passes (failing (spec.opening_checks statement section.now)) result }
{
    if section.output_section_name.is_empty() {
        return Err(Fault::BadName { statement });
    }
    check_alignment(statement, &section.alignment)?;
    check_fill(statement, &section.fill)
}

// Nothing is said of it before or after its statements.
fn is_plain(section: &Section) -> bool
    ensures { result ≡ is_plain section.now }
{
    section.alignment.is_none()
        && section.start_address_expression.is_none()
        && section.phdrs.is_empty()
        && section.at_address.is_none()
        && section.region.is_none()
        && section.fill.is_none()
        && section.attributes.is_none()
}

fn are_matchers(commands: &[ContentsCommand]) -> bool
    ensures { result ≡ not (list_any (λ c. not (spec.is_matcher c)) commands.now) }
{
    for command in commands {
        match command {
            ContentsCommand::Matcher(_) => {}
            _ => return false,
        }
    }
    true
}

/// `/DISCARD/`, which begins at a place, has no clauses, and its statements are matchers.
pub fn check_discard(statement: usize, section: &Section) -> Result<(), Fault>
    ensures { Passes (failing (spec.check (spec.holds_matchers_alone section.now) (fault.BadDiscard statement))) result }
{
    if is_plain(section) && are_matchers(section.commands.as_slice()) {
        Ok(())
    } else {
        Err(Fault::BadDiscard { statement })
    }
}
