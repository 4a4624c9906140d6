//! The definitions of symbols: what is defined, in the order in which it counts.

ghost use Rattle.std.specs.Prelude.{◌≡◌, [], ◌∷◌, ◌++◌, OnOk, IfOk};
ghost use Rattle.wild_eval.specs.Scope.{shown_definition};
ghost use Rattle.wild_plan_spec.specs.Definitions.{entry_of, symbol_chunk, table_entry, table_entries, assigned_entry, assigned_entries, provide_entry, provided_entry, provided_entries, firm_entries, entry_names};
ghost use Rattle.wild_plan.specs.Entries.{shown_entries};
ghost use Rattle.wild_fates.specs.Shown.{shown_places, shown_place};

use crate::points::task_point;
use sqlite_items::Items;
use std::alloc::Global;
use wild_base::{Name, NoMemory};
use wild_eval::{Definition, SymbolEntry};
use wild_fates::{Place, ScriptFates, Task};
use wild_numbering::Numbering;
use wild_plan_spec::{Chunk, Kept, SymbolRow, Where};
use wild_script_tree::ProvideSymbolDefinition;

/// What a script and a table define.
#[derive(Drop)]
pub struct Definitions<'a> {
    /// The sections, the places and where each row goes.
    pub script_fates: ScriptFates<'a>,
    /// The definitions of symbols.
    pub entries: Items<SymbolEntry<'a>>,
    /// The names of the entries, to find the number of a symbol.
    pub names: Numbering,
}

#[tactic(auto, using(crate::proofs::Entries::entries_append))]
fn push<'a>(entries: &mut Items<SymbolEntry<'a>>, entry: SymbolEntry<'a>) -> Result<(), NoMemory>
    ensures { OnOk result (shown_entries entries.new ≡ shown_entries entries.old ++ record { name = entry.entry.name.now; definition = shown_definition entry.entry.definition } ∷ []) }
{
    entries.push(entry)?;
    Ok(())
}

// Puts an entry after the others, unless its name is empty.
#[tactic(auto, using(crate::proofs::Entries::named_or_not))]
fn push_named<'a>(
    entries: &mut Items<SymbolEntry<'a>>,
    name: &'a Name,
    definition: Definition<'a>,
) -> Result<(), NoMemory>
    ensures { OnOk result (shown_entries entries.new ≡ shown_entries entries.old ++ entry_of name.now (shown_definition definition.entry)) }
{
    if name.is_empty() {
        Ok(())
    } else {
        push(entries, SymbolEntry { name, definition })
    }
}

/// The chunk that holds a symbol of the table: that of its row.
pub fn symbol_chunk(fates: &[Option<Kept>], symbol: &SymbolRow) -> Option<Chunk>
    ensures { result ≡ symbol_chunk fates.now symbol.now }
{
    match fates.get(symbol.row) {
        Some(Some(kept)) => Some(kept.chunk),
        _ => None,
    }
}

fn push_table_entry<'a>(
    entries: &mut Items<SymbolEntry<'a>>,
    symbol: &'a SymbolRow,
    chunk: Option<Chunk>,
) -> Result<(), NoMemory>
    ensures { OnOk result (shown_entries entries.new ≡ shown_entries entries.old ++ table_entry symbol.now chunk) }
{
    match chunk {
        Some(chunk) => push_named(
            entries,
            &symbol.name,
            Definition::OfRow {
                row: symbol.row,
                offset: symbol.offset,
                section: chunk.section,
            },
        ),
        None => Ok(()),
    }
}

fn push_table_entries<'a>(
    entries: &mut Items<SymbolEntry<'a>>,
    fates: &[Option<Kept>],
    symbols: &'a [SymbolRow],
) -> Result<(), NoMemory>
    ensures { OnOk result (shown_entries entries.new ≡ shown_entries entries.old ++ table_entries fates.now symbols.now) }
{
    for symbol in symbols {
        push_table_entry(entries, symbol, symbol_chunk(fates, symbol))?;
    }
    Ok(())
}

// The entry of an assignment.
fn push_assigned_entry<'a>(
    entries: &mut Items<SymbolEntry<'a>>,
    index: usize,
    place: &Place<'a>,
) -> Result<(), NoMemory>
    ensures { OnOk result (shown_entries entries.new ≡ shown_entries entries.old ++ assigned_entry index (shown_place place.now)) }
{
    match *place {
        Place::Wait(stand, Task::Assign(name, value)) => {
            let point = task_point(index, stand, value);
            push_named(entries, name, Definition::OfScript { value, point })
        }
        _ => Ok(()),
    }
}

// Puts the entry of a PROVIDE and its name after the others, unless it is empty.
#[tactic(auto, using(crate::proofs::Entries::named_or_not))]
fn push_provide_entry<'a>(
    alloc: Global,
    entries: &mut Items<SymbolEntry<'a>>,
    names: &mut Numbering,
    index: usize,
    stand: Where,
    provide: &'a ProvideSymbolDefinition,
) -> Result<(), NoMemory>
    ensures entries { OnOk result (shown_entries entries.new ≡ shown_entries entries.old ++ provide_entry index stand provide.now) }
    ensures names { OnOk result (names.new ≡ names.old ++ entry_names (provide_entry index stand provide.now)) }
{
    if provide.name.is_empty() {
        return Ok(());
    }
    names.push(alloc, &provide.name)?;
    let value = &provide.value;
    let point = task_point(index, stand, value);
    let definition = Definition::OfScript { value, point };
    push(
        entries,
        SymbolEntry {
            name: &provide.name,
            definition,
        },
    )
}

fn push_provided_entry<'a>(
    alloc: Global,
    entries: &mut Items<SymbolEntry<'a>>,
    names: &mut Numbering,
    index: usize,
    place: &Place<'a>,
) -> Result<(), NoMemory>
    ensures entries { OnOk result (shown_entries entries.new ≡ shown_entries entries.old ++ provided_entry index (shown_place place.now)) }
    ensures names { OnOk result (names.new ≡ names.old ++ entry_names (provided_entry index (shown_place place.now))) }
{
    match *place {
        Place::Wait(stand, Task::Provide(provide)) => {
            push_provide_entry(alloc, entries, names, index, stand, provide)
        }
        _ => Ok(()),
    }
}

fn push_assigned_entries<'a>(
    entries: &mut Items<SymbolEntry<'a>>,
    places: &[Place<'a>],
) -> Result<(), NoMemory>
    ensures { OnOk result (shown_entries entries.new ≡ shown_entries entries.old ++ assigned_entries 0 (shown_places places.now)) }
{
    for (index, place) in places.iter().enumerate() {
        push_assigned_entry(entries, index, place)?;
    }
    Ok(())
}

/// What must not be defined twice: the symbols of the table, then the assignments. Fails where memory runs out.
pub fn find_firm_entries<'a>(
    alloc: Global,
    fates: &[Option<Kept>],
    symbols: &'a [SymbolRow],
    places: &[Place<'a>],
) -> Result<Items<SymbolEntry<'a>>, NoMemory>
    ensures { IfOk result (λ entries. shown_entries entries ≡ firm_entries fates.now symbols.now (shown_places places.now)) }
{
    let mut entries = Items::new(alloc);
    push_table_entries(&mut entries, fates, symbols)?;
    push_assigned_entries(&mut entries, places)?;
    Ok(entries)
}

/// Puts the PROVIDEs, and their names, after the others. Fails where memory runs out.
pub fn push_provided_entries<'a>(
    alloc: Global,
    entries: &mut Items<SymbolEntry<'a>>,
    names: &mut Numbering,
    places: &[Place<'a>],
) -> Result<(), NoMemory>
    ensures entries { OnOk result (shown_entries entries.new ≡ shown_entries entries.old ++ provided_entries 0 (shown_places places.now)) }
    ensures names { OnOk result (names.new ≡ names.old ++ entry_names (provided_entries 0 (shown_places places.now))) }
{
    for (index, place) in places.iter().enumerate() {
        push_provided_entry(alloc, entries, names, index, place)?;
    }
    Ok(())
}
