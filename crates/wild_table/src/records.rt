//! What a record of a table writes.

ghost use Rattle.std.specs.Prelude.{◌≡◌, ◌≢◌, IfOk, MatchOption, length, ◌∷◌, []};
ghost use Rattle.csv.specs.Records.{fields_of};
ghost use Rattle.wild_table.specs.Forms.{record_of, section_record, symbol_record, no_fields};

use crate::flags::read_flags;
use crate::number::read_number;
use csv::ByteRecord;
use std::alloc::Global;
use wild_names::{Name, NoMemory};
use wild_plan_spec::{InputRow, SymbolRow};

/// What a record writes.
#[derive(Debug, Drop)]
pub enum Record {
    OfRow(InputRow),
    OfSymbol(SymbolRow),
}

// The fields of a record after its kind are named by their places.
#[derive(Clone, Copy)]
struct Fields<'a> {
    kind: &'a [u8],
    first: &'a [u8],
    second: &'a [u8],
    third: &'a [u8],
    fourth: &'a [u8],
    fifth: &'a [u8],
}

// The six fields of a record, if it has six.
#[tactic(auto, using(crate::proofs::Fields::fields))]
fn six_fields(row: &ByteRecord) -> Option<Fields<'_>>
    ensures { MatchOption result (length (fields_of row.now) ≢ 6) (λ six. fields_of row.now
        ≡ six.kind.now ∷ six.first.now ∷ six.second.now ∷ six.third.now ∷ six.fourth.now ∷ six.fifth.now ∷ []) }
{
    if row.len() != 6 {
        return None;
    }
    let kind = row.get(0)?;
    let first = row.get(1)?;
    let second = row.get(2)?;
    let third = row.get(3)?;
    let fourth = row.get(4)?;
    let fifth = row.get(5)?;
    Some(Fields {
        kind,
        first,
        second,
        third,
        fourth,
        fifth,
    })
}

/// What a record writes, if it is of a form.
#[tactic(auto, using(crate::proofs::Fields::no_record))]
pub fn read_record(alloc: Global, record: &ByteRecord) -> Result<Option<Record>, NoMemory>
    ensures { IfOk result (λ read. read ≡ record_of (fields_of «record».now)) }
{
    let Some(fields) = six_fields(record) else {
        return Ok(None);
    };
    if fields.kind == b"section".as_slice() {
        read_section(alloc, fields)
    } else if fields.kind == b"symbol".as_slice() && are_empty(fields.fourth, fields.fifth) {
        read_symbol(alloc, fields)
    } else {
        Ok(None)
    }
}

fn are_empty(a: &[u8], b: &[u8]) -> bool
    ensures { result ≡ no_fields a.now b.now }
{
    a.is_empty() && b.is_empty()
}

// The fields are file, section, size, alignment and flags.
fn read_section(alloc: Global, fields: Fields<'_>) -> Result<Option<Record>, NoMemory>
    ensures { let of = fields.entry in
        IfOk result (λ read. read ≡ section_record of.first.now of.second.now of.third.now of.fourth.now of.fifth.now) }
{
    let Some(size) = read_number(fields.third) else {
        return Ok(None);
    };
    let Some(alignment) = read_number(fields.fourth) else {
        return Ok(None);
    };
    let Some(flags) = read_flags(fields.fifth) else {
        return Ok(None);
    };
    Ok(Some(Record::OfRow(InputRow {
        file: Name::new(alloc, fields.first)?,
        section: Name::new(alloc, fields.second)?,
        size,
        alignment,
        flags,
    })))
}

// The fields are name, row and offset.
fn read_symbol(alloc: Global, fields: Fields<'_>) -> Result<Option<Record>, NoMemory>
    ensures { let of = fields.entry in
        IfOk result (λ read. read ≡ symbol_record of.first.now of.second.now of.third.now) }
{
    let Some(row) = read_number(fields.second) else {
        return Ok(None);
    };
    let Some(offset) = read_number(fields.third) else {
        return Ok(None);
    };
    Ok(Some(Record::OfSymbol(SymbolRow {
        name: Name::new(alloc, fields.first)?,
        row: row as usize,
        offset,
    })))
}
