//! The table of inputs, as records of comma-separated fields.

ghost use Rattle.std.specs.Prelude.{◌≡◌, IfOk, map};
ghost use Rattle.csv.specs.Records.{fields_of};
ghost use Rattle.wild_table.specs.declared.table.TableFault.TheVariants.{NoMemory};
ghost use Rattle.wild_table.specs.Table.{field_lists, table, table_of, records_from, extended, ReadsTable};

use crate::records::{Record, read_record};
use csv::{ByteRecord, ReaderBuilder};
use std::alloc::{AllocError, Global};
use wild_names::NoMemory;
use wild_plan_spec::{InputRows, InputTable, SymbolRows};

/// Why a text is no table.
#[derive(Clone, Copy, Debug, PartialEq, Eq)]
pub enum TableFault {
    /// The first record that is not of a form, counted from 0. An empty line is no record.
    BadRecord { index: usize },
    /// Memory ran out.
    NoMemory,
}

impl From<AllocError> for TableFault {
    ghost from_gives = { λ _ e. e ≡ NoMemory };

    fn from(_error: AllocError) -> TableFault {
        TableFault::NoMemory
    }
}

impl From<NoMemory> for TableFault {
    ghost from_gives = { λ _ e. e ≡ NoMemory };

    fn from(_error: NoMemory) -> TableFault {
        TableFault::NoMemory
    }
}

/// Reads a table. Each record has six fields: `section`, file, section name, size, alignment, flags; or `symbol`,
/// name, row, offset and two empty fields. A row need not exist.
pub fn read_table(alloc: Global, bytes: &[u8]) -> Result<InputTable, TableFault>
    ensures { ReadsTable (table bytes.now) result }
{
    let records = split_records(alloc, bytes)?;
    read_records(alloc, &records)
}

// The records of a text. A reader over a slice fails for memory alone.
fn split_records(alloc: Global, bytes: &[u8]) -> Result<Vec<ByteRecord>, NoMemory>
    ensures { IfOk result (λ v. map fields_of v.items ≡ field_lists bytes.now) }
{
    let reader = ReaderBuilder::new()
        .has_headers(false)
        .flexible(true)
        .from_reader(alloc, bytes);
    let mut records = Vec::new(alloc);
    for record in reader.into_byte_records() {
        let Ok(record) = record else {
            return Err(NoMemory);
        };
        records.push(record)?;
    }
    Ok(records)
}

#[tactic(auto, using(crate::proofs::Tables::tables))]
fn read_records(alloc: Global, records: &[ByteRecord]) -> Result<InputTable, TableFault>
    ensures { ReadsTable (table_of (records_from 0 (map fields_of records.now))) result }
{
    let mut inputs = InputTable {
        rows: InputRows::new(alloc),
        symbols: SymbolRows::new(alloc),
    };
    for (index, record) in records.iter().enumerate() {
        let Some(read) = read_record(alloc, record)? else {
            return Err(TableFault::BadRecord { index });
        };
        inputs = with_record(inputs, read)?;
    }
    Ok(inputs)
}

// The table with one record more after the others.
fn with_record(mut inputs: InputTable, read: Record) -> Result<InputTable, NoMemory>
    ensures { IfOk result (λ new. new ≡ extended inputs read) }
{
    match read {
        Record::OfRow(row) => inputs.rows.push(row)?,
        Record::OfSymbol(symbol) => inputs.symbols.push(symbol)?,
    }
    Ok(inputs)
}
