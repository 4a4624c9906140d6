//! The rows of each chunk.

ghost use Rattle.std.specs.Prelude.{◌≡◌, [], ◌∷◌, ◌++◌, length, if◌then◌else◌, IfOk, OnOk};
ghost use Rattle.std.specs.List.{filter};
ghost use Rattle.std.specs.Option.{option_to_list};
ghost use Rattle.wild_plan_spec.specs.declared.chunk.Chunk.{Chunk};
ghost use Rattle.wild_plan_spec.specs.Chunks.{is_of, sort_name, kept_row, kept_rows, rows_in};
ghost use Rattle.wild_plan.specs.Chunks.{rows_at};
ghost use Rattle.wild_plan_spec.specs.Order.{IsOrdered, stands_before};

use crate::traits::alignment_of;
use std::alloc::{AllocError, Global};
use std::cmp::Reverse;
use std::collections::BTreeMap;
use wild_base::{Name, NoMemory};
use wild_plan_spec::{Chunk, ChunkRow, InputRow, Kept};

/// The rows of each chunk, in their order.
#[derive(Drop)]
pub struct Chunks {
    by_chunk: BTreeMap<Chunk, Vec<ChunkRow>>,
}

impl Chunks {
    fn new(alloc: Global) -> Chunks
        ensures { (q : Chunk) → rows_at result q ≡ [] }
    {
        Chunks {
            by_chunk: BTreeMap::new(alloc),
        }
    }

    /// A row after those of its chunk.
    fn push(&mut self, alloc: Global, row: ChunkRow) -> Result<(), NoMemory>
        ensures { OnOk result ((q : Chunk) → rows_at self.new q ≡ rows_at self.old q ++ (if is_of q row then row ∷ [] else [])) }
    {
        let chunk = row.chunk;
        let mut rows = match self.by_chunk.remove(&chunk) {
            Some(rows) => rows,
            None => Vec::new(alloc),
        };
        rows.push(row)?;
        self.by_chunk.insert(chunk, rows)?;
        Ok(())
    }

    /// The rows of a chunk.
    pub fn rows(&self, chunk: Chunk) -> &[ChunkRow]
        ensures { result.now ≡ rows_at self.now chunk }
    {
        match self.by_chunk.get(&chunk) {
            Some(rows) => rows.as_slice(),
            None => {
                let none: &[ChunkRow] = &[];
                none
            }
        }
    }
}

// The name of a row that is sorted.
fn sort_name(alloc: Global, sorted: bool, row: &InputRow) -> Result<Name, NoMemory>
    ensures { IfOk result (λ name. name ≡ sort_name sorted row.now) }
{
    if sorted {
        row.section.copy(alloc)
    } else {
        Ok(Name::from_vec(Vec::new(alloc)))
    }
}

// A row of this number after the others, where it is kept.
fn push_kept(
    alloc: Global,
    rows: &mut Vec<ChunkRow>,
    number: usize,
    row: &InputRow,
    fate: Option<Kept>,
) -> Result<(), NoMemory>
    ensures { OnOk result (rows.new.items ≡ rows.old.items ++ option_to_list (kept_row number row.now fate)) }
{
    if let Some(kept) = fate {
        rows.push(ChunkRow {
            alignment: Reverse(alignment_of(row)),
            sorted: kept.sorted,
            name: sort_name(alloc, kept.sorted, row)?,
            row: number,
            size: row.size,
            chunk: kept.chunk,
        })?;
    }
    Ok(())
}

/// The rows that are kept, in table order, each with its chunk.
fn find_kept_rows(
    alloc: Global,
    rows: &[InputRow],
    fates: &[Option<Kept>],
) -> Result<Vec<ChunkRow>, NoMemory>
    requires { length fates.now ≡ length rows.now }
    ensures { IfOk result (λ kept. kept.items ≡ kept_rows 0 rows.now fates.now) }
{
    let mut kept = Vec::new(alloc);
    for (i, row) in rows.iter().enumerate() {
        push_kept(alloc, &mut kept, i, row, fates[i])?;
    }
    Ok(kept)
}

fn sort(rows: &mut Vec<ChunkRow>) -> Result<(), AllocError>
    ensures { OnOk result (IsOrdered stands_before rows.old.items rows.new.items) }
{
    rows.sort()
}

/// The rows of each chunk, in the order of this list.
fn by_chunk(alloc: Global, rows: Vec<ChunkRow>) -> Result<Chunks, NoMemory>
    ensures { IfOk result (λ c. (q : Chunk) → rows_at c q ≡ filter (is_of q) rows.items) }
{
    let mut chunks = Chunks::new(alloc);
    for row in rows {
        chunks.push(alloc, row)?;
    }
    Ok(chunks)
}

/// The rows of each chunk in their order, where each row has its fate beside it.
pub fn find_chunks(
    alloc: Global,
    rows: &[InputRow],
    fates: &[Option<Kept>],
) -> Result<Chunks, NoMemory>
    requires { length fates.now ≡ length rows.now }
    ensures { IfOk result (λ c. (q : Chunk) → IsOrdered stands_before (rows_in q rows.now fates.now) (rows_at c q)) }
{
    let mut kept = find_kept_rows(alloc, rows, fates)?;
    sort(&mut kept)?;
    by_chunk(alloc, kept)
}
