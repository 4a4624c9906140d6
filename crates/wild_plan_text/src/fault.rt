//! Faults as they are printed.

ghost use Rattle.std.specs.Prelude.{◌≡◌, ◌++◌, OnOk, IfOk, string_bytes, decimal};
ghost use Rattle.wild_plan_spec.specs.Text.{printed_name};
ghost use Rattle.wild_plan_spec.specs.FaultText.{variant_name, fault_field, where_field, what_fields, fault_text};

use crate::text::{name_of, push_name, push_number_field};
use std::alloc::{AllocError, Global};
use std::fmt::Write;
use wild_base::{Fault, Name, NoMemory};

/// A fault as it is printed, as in `fault 5 BadRow row=2`: its number, its name, and each field with its name. No
/// newline ends it. Fails where memory runs out.
pub fn fault_text(alloc: Global, fault: &Fault) -> Result<Name, NoMemory>
    ensures { IfOk result (λ text. text ≡ fault_text fault.now) }
{
    let mut out = String::new(alloc);
    push_fault(&mut out, fault)?;
    Ok(name_of(out))
}

fn push_fault(out: &mut String, fault: &Fault) -> Result<(), AllocError>
    ensures { OnOk result (string_bytes out.new ≡ string_bytes out.old ++ fault_text fault.now) }
{
    out.push_str("fault")?;
    push_number_field(out, u64::from(fault.number()))?;
    out.push(' ')?;
    out.push_str(variant_name(fault))?;
    push_where(out, fault)?;
    push_what(out, fault)
}

/// The names of the faults, by their numbers from 1 on.
const VARIANT_NAMES: [&str; 37] = [
    "Syntax",
    "UnclosedComment",
    "UnsupportedNestedSort",
    "TooDeep",
    "BadRow",
    "BadSymbolRow",
    "BadDiscard",
    "BadPattern",
    "BadName",
    "BadAlignment",
    "BadFill",
    "BadHeader",
    "NotConstant",
    "DuplicateSection",
    "DuplicateSymbol",
    "DuplicateName",
    "OutputFormat",
    "UnknownRegion",
    "UnknownPhdr",
    "TooManySections",
    "TooManySegments",
    "DivisionByZero",
    "ModuloByZero",
    "AlignZero",
    "UnknownSection",
    "UnknownSymbol",
    "NotLaidOut",
    "SymbolCycle",
    "DeepValue",
    "BeforeSection",
    "MovesBack",
    "Overlap",
    "RegionFull",
    "Overflow",
    "AlignOverflow",
    "AssertFailed",
    "NoMemory",
];

fn variant_name(fault: &Fault) -> &'static str
    ensures { result.now ≡ variant_name fault.now }
{
    VARIANT_NAMES[fault.number() as usize - 1]
}

// Appends the field that says where a fault is, if it has one.
#[tactic(auto, unfolding(wild_plan_spec::specs::FaultText::where_field))]
fn push_where(out: &mut String, fault: &Fault) -> Result<(), AllocError>
    ensures { OnOk result (string_bytes out.new ≡ string_bytes out.old ++ where_field fault.now) }
{
    match fault {
        Fault::Syntax { position }
        | Fault::UnclosedComment { position }
        | Fault::UnsupportedNestedSort { position }
        | Fault::TooDeep { position } => push_number(out, "position", *position as u64),
        Fault::BadRow { row } => push_number(out, "row", *row as u64),
        Fault::BadSymbolRow { symbol } => push_number(out, "symbol", *symbol),
        Fault::BadDiscard { statement }
        | Fault::BadPattern { statement, .. }
        | Fault::BadName { statement }
        | Fault::BadAlignment { statement, .. }
        | Fault::BadFill { statement, .. }
        | Fault::NotConstant { statement }
        | Fault::DivisionByZero { statement }
        | Fault::ModuloByZero { statement }
        | Fault::AlignZero { statement }
        | Fault::NotLaidOut { statement, .. }
        | Fault::DeepValue { statement }
        | Fault::MovesBack { statement, .. } => push_number(out, "statement", *statement as u64),
        Fault::BadHeader { index, .. } => push_number(out, "index", *index),
        Fault::AssertFailed { line, .. } => push_number(out, "line", *line),
        _ => Ok(()),
    }
}

// Appends the fields that say what else there is to a fault: names and numbers.
#[tactic(auto, unfolding(wild_plan_spec::specs::FaultText::what_fields))]
fn push_what(out: &mut String, fault: &Fault) -> Result<(), AllocError>
    ensures { OnOk result (string_bytes out.new ≡ string_bytes out.old ++ what_fields fault.now) }
{
    match fault {
        Fault::BadPattern { name, .. }
        | Fault::DuplicateSection { name }
        | Fault::DuplicateSymbol { name }
        | Fault::DuplicateName { name }
        | Fault::OutputFormat { name }
        | Fault::UnknownRegion { name }
        | Fault::UnknownPhdr { name }
        | Fault::UnknownSection { name }
        | Fault::UnknownSymbol { name }
        | Fault::NotLaidOut { name, .. }
        | Fault::SymbolCycle { name }
        | Fault::BeforeSection { name } => push_named(out, "name", name),
        Fault::BadAlignment { value, .. }
        | Fault::BadFill { value, .. }
        | Fault::BadHeader { value, .. } => push_number(out, "value", *value),
        Fault::TooManySections { count } => push_number(out, "count", *count),
        Fault::TooManySegments { segments } => push_number(out, "segments", *segments),
        Fault::MovesBack { from, to, .. } => push_numbers(out, "from", *from, "to", *to),
        Fault::Overlap { first, second } => push_names(out, "first", first, "second", second),
        Fault::RegionFull { region, section } => push_names(
            out, "region", region, "section", section,
        ),
        Fault::Overflow { left, right } => push_numbers(out, "left", *left, "right", *right),
        Fault::AlignOverflow { value, align } => push_numbers(
            out, "value", *value, "align", *align,
        ),
        Fault::AssertFailed { message, .. } => push_named(out, "message", message),
        _ => Ok(()),
    }
}

// Appends a field that is a number.
#[tactic(auto, unfolding(wild_plan_spec::specs::FaultText::fault_field))]
fn push_number(out: &mut String, word: &str, number: u64) -> Result<(), AllocError>
    ensures { OnOk result (string_bytes out.new ≡ string_bytes out.old ++ fault_field word.now (decimal number)) }
{
    write!(out, " {word}={number}")
}

// Appends a field that is a name.
#[tactic(auto, unfolding(wild_plan_spec::specs::FaultText::fault_field))]
fn push_named(out: &mut String, word: &str, name: &Name) -> Result<(), AllocError>
    ensures { OnOk result (string_bytes out.new ≡ string_bytes out.old ++ fault_field word.now (printed_name name.now)) }
{
    write!(out, " {word}=")?;
    push_name(out, name.bytes())
}

fn push_numbers(
    out: &mut String,
    word: &str,
    number: u64,
    other_word: &str,
    other: u64,
) -> Result<(), AllocError>
    ensures { OnOk result (string_bytes out.new ≡ string_bytes out.old ++ fault_field word.now (decimal number) ++ fault_field other_word.now (decimal other)) }
{
    push_number(out, word, number)?;
    push_number(out, other_word, other)
}

fn push_names(
    out: &mut String,
    word: &str,
    name: &Name,
    other_word: &str,
    other: &Name,
) -> Result<(), AllocError>
    ensures { OnOk result (string_bytes out.new ≡ string_bytes out.old ++ fault_field word.now (printed_name name.now) ++ fault_field other_word.now (printed_name other.now)) }
{
    push_named(out, word, name)?;
    push_named(out, other_word, other)
}
