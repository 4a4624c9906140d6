//! Tables of input sections and their symbols.

ghost use Rattle.std.specs.Prelude.{◌≡◌, [], ◌∷◌, ◌++◌, OnOk, length};

use sqlite_items::Items;
use std::alloc::Global;
use std::marker::Model;
use wild_base::{InputFlags, Name, NoMemory};

/// An input section of a file. Sizes and alignments count bytes.
#[derive(Debug, Drop)]
pub struct InputRow {
    pub file: Name,
    pub section: Name,
    pub size: u64,
    pub alignment: u64,
    pub flags: InputFlags,
}

/// Rows in table order. Contracts see them as a list.
#[derive(Debug, Drop)]
pub struct InputRows {
    rows: Items<InputRow>,
}

impl Model for InputRows {
    ghost use Rattle.std.specs.Prelude.{List};
    ghost use Rattle.wild_plan_spec.specs.declared.row.InputRow.{InputRow};

    ghost Value = { List InputRow };

    ghost view = { λ list. list.rows };
}

impl InputRows {
    /// No rows.
    pub fn new(alloc: Global) -> InputRows
        ensures { result ≡ [] }
    {
        InputRows {
            rows: Items::new(alloc),
        }
    }

    /// Puts a row after the others. Fails where memory runs out.
    pub fn push(&mut self, row: InputRow) -> Result<(), NoMemory>
        ensures { OnOk result (self.new ≡ self.old ++ row ∷ []) }
    {
        self.rows.push(row)?;
        Ok(())
    }

    /// How many there are.
    pub fn len(&self) -> usize
        ensures { result ≡ length self.now }
    {
        self.rows.len()
    }

    /// All of them, in order.
    pub fn as_slice(&self) -> &[InputRow]
        ensures { result.now ≡ self.now }
    {
        self.rows.as_slice()
    }
}

/// A symbol of an input section.
#[derive(Debug, Drop)]
pub struct SymbolRow {
    pub name: Name,
    /// The number of its row, from 0 in table order.
    pub row: usize,
    /// From the start of its row, in bytes.
    pub offset: u64,
}

/// Symbols in table order. Contracts see them as a list.
#[derive(Debug, Drop)]
pub struct SymbolRows {
    symbols: Items<SymbolRow>,
}

impl Model for SymbolRows {
    ghost use Rattle.std.specs.Prelude.{List};
    ghost use Rattle.wild_plan_spec.specs.declared.row.SymbolRow.{SymbolRow};

    ghost Value = { List SymbolRow };

    ghost view = { λ list. list.symbols };
}

impl SymbolRows {
    /// No symbols.
    pub fn new(alloc: Global) -> SymbolRows
        ensures { result ≡ [] }
    {
        SymbolRows {
            symbols: Items::new(alloc),
        }
    }

    /// Puts a symbol after the others. Fails where memory runs out.
    pub fn push(&mut self, symbol: SymbolRow) -> Result<(), NoMemory>
        ensures { OnOk result (self.new ≡ self.old ++ symbol ∷ []) }
    {
        self.symbols.push(symbol)?;
        Ok(())
    }

    /// How many there are.
    pub fn len(&self) -> usize
        ensures { result ≡ length self.now }
    {
        self.symbols.len()
    }

    /// All of them, in order.
    pub fn as_slice(&self) -> &[SymbolRow]
        ensures { result.now ≡ self.now }
    {
        self.symbols.as_slice()
    }
}

/// The input sections that are to be placed, and their symbols.
#[derive(Debug, Drop)]
pub struct InputTable {
    pub rows: InputRows,
    pub symbols: SymbolRows,
}
