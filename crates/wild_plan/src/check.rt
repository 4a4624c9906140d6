//! What is checked before a script and its rows are laid out.

ghost use Rattle.std.specs.Prelude.{◌≡◌, [], ◌∷◌, ◌++◌, OnOk, IfOk, IfErr, not, slice_get, length};
ghost use Rattle.std.specs.List.{list_any};
ghost use Rattle.wild_numbering.specs.Numbering.{is_named};
ghost use Rattle.wild_names.specs.declared.fault.Fault.TheVariants.{DuplicateSymbol};
ghost use Rattle.wild_plan_spec.specs.Checks.{row_checks, holds_offset, symbol_checks, table_checks, name_checks, checks, failing};
ghost use Rattle.wild_plan_spec.specs.Definitions.{entry_names};
ghost use Rattle.wild_plan.specs.Case.{shown_case};
ghost use Rattle.wild_plan.specs.Checked.{IsChecked};
ghost use Rattle.wild_plan.specs.Entries.{shown_entries};
ghost use Rattle.wild_fates.specs.Passes.{IsWanted, Passes, repeated};

use crate::case::Case;
use crate::definitions::{Definitions, find_firm_entries, push_provided_entries};
use bitflags::Flags;
use std::alloc::Global;
use wild_base::{Alignment, Fault, InputFlags, Name, NoMemory};
use wild_eval::SymbolEntry;
use wild_fates::decide_fates;
use wild_numbering::Numbering;
use wild_plan_spec::{InputRow, InputTable, Kept, SymbolRow};

// ---- the table

// Checks that each row has an alignment. The fault is that of the first that has none.
fn check_rows(rows: &[InputRow]) -> Result<(), Fault>
    ensures { Passes (failing (row_checks 0 rows.now)) result }
{
    for (number, row) in rows.iter().enumerate() {
        if Alignment::new(row.alignment).is_err() {
            return Err(Fault::BadRow { row: number });
        }
    }
    Ok(())
}

// Whether the row of a symbol is there, and its offset is not above the size of the row.
fn is_in_row(rows: &[InputRow], symbol: &SymbolRow) -> bool
    ensures { result ≡ holds_offset (slice_get rows.now symbol.now.row) symbol.now.offset }
{
    match rows.get(symbol.row) {
        Some(row) => symbol.offset <= row.size,
        None => false,
    }
}

// Checks that each symbol of a table lies in a row. The fault is that of the first that does not.
fn check_symbols(rows: &[InputRow], symbols: &[SymbolRow]) -> Result<(), Fault>
    ensures { Passes (failing (symbol_checks rows.now 0 symbols.now)) result }
{
    for (number, symbol) in symbols.iter().enumerate() {
        if !is_in_row(rows, symbol) {
            return Err(Fault::BadSymbolRow {
                symbol: number as u64,
            });
        }
    }
    Ok(())
}

// What is checked of a table alone: its rows, then its symbols.
fn check_table(inputs: &InputTable) -> Result<(), Fault>
    ensures { Passes (failing (table_checks inputs.now)) result }
{
    let rows = inputs.rows.as_slice();
    check_rows(rows)?;
    check_symbols(rows, inputs.symbols.as_slice())
}

// ---- names

// Puts a name after the others. Answers whether none of them was the same.
#[tactic(auto, using(wild_fates::proofs::Names::any_number))]
fn push_name(alloc: Global, names: &mut Numbering, name: &Name) -> Result<bool, NoMemory>
    ensures pushed { OnOk result (names.new ≡ names.old ++ name.now ∷ []) }
    ensures first { IfOk result (λ first. first ≡ not (list_any (is_named name.now) names.old)) }
{
    let first = names.get(name).is_none();
    names.push(alloc, name)?;
    Ok(first)
}

fn push_symbol(alloc: Global, names: &mut Numbering, entry: &SymbolEntry<'_>) -> Result<(), Fault>
    ensures pushed { OnOk result (names.new ≡ names.old ++ entry.now.name.now ∷ []) }
    ensures passes { Passes (repeated DuplicateSymbol names.old entry.now.name.now) result }
{
    let name = entry.name;
    if push_name(alloc, names, name)? {
        Ok(())
    } else {
        let name = name.copy(alloc)?;
        Err(Fault::DuplicateSymbol { name })
    }
}

// The names of the entries, of which no two are the same. The fault is that of the first with the name of an earlier
// one.
fn number_entries(alloc: Global, entries: &[SymbolEntry<'_>]) -> Result<Numbering, Fault>
    ensures names { IfOk result (λ names. names ≡ entry_names (shown_entries entries.now)) }
    ensures passes { Passes (failing (name_checks DuplicateSymbol [] (entry_names (shown_entries entries.now)))) result }
{
    let mut names = Numbering::new(alloc);
    for entry in entries {
        push_symbol(alloc, &mut names, entry)?;
    }
    Ok(names)
}

// ---- all checks

/// Checks a case but for its segments, and answers what it defines: the table, then the script alone, then the names of the
/// symbols.
pub fn check<'a>(alloc: Global, case: &Case<'a>) -> Result<Definitions<'a>, Fault>
    ensures sound { IfOk result (IsChecked (shown_case case.now)) }
    ensures failing { IfErr result (IsWanted (failing (checks (shown_case case.now)))) }
{
    check_table(case.inputs)?;
    let script_fates = decide_fates(alloc, case.options, case.commands, case.inputs)?;
    let fates = script_fates.fates.as_slice();
    let places = script_fates.places.as_slice();
    let symbols = case.inputs.symbols.as_slice();
    let mut entries = find_firm_entries(alloc, fates, symbols, places)?;
    let mut names = number_entries(alloc, entries.as_slice())?;
    push_provided_entries(alloc, &mut entries, &mut names, places)?;
    Ok(Definitions {
        script_fates,
        entries,
        names,
    })
}
