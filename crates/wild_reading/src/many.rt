//! Lists of what is read one after another.

ghost use Rattle.std.specs.Prelude.{◌<◌, OnOk};
ghost use Rattle.wild_reading.specs.Position.{ahead};
ghost use Rattle.wild_reading.specs.Bytes as spec;
ghost use Rattle.wild_reading.specs.Reader.{Until};
ghost use Rattle.wild_reading.specs.Only.{Answers};

use crate::cursor::Cursor;
use crate::stop::Stop;
use sqlite_items::Items;
use std::alloc::Global;

/// How a cursor reads an item. `reads` is its grammar.
pub trait Grammar {
    ghost use Rattle.std.specs.Prelude.{List, ℕ};

    /// What is read.
    type Item: Drop;

    ghost reads: { List ℕ → ℕ → ℕ → Self.Item → ℕ → Type 0 };

    fn read(cursor: &mut Cursor<'_>, alloc: Global) -> Result<Self::Item, Stop>
        ensures read { Answers reads cursor.old cursor.new result }
        ensures shorter { OnOk result (ahead cursor.new < ahead cursor.old) };
}

/// Reads items up to the byte.
#[tactic(auto, using(crate::proofs::Readers::repeating))]
pub fn read_until<G: Grammar>(
    cursor: &mut Cursor<'_>,
    alloc: Global,
    close: u8,
) -> Result<Items<G::Item>, Stop>
    ensures { Answers (Until (spec.begins close) G.reads) cursor.old cursor.new result }
{
    let mut items = Items::new(alloc);
    'items: while !cursor.begins(close) {
        let item = G::read(cursor, alloc)?;
        items.push(item)?;
    }
    Ok(items)
}
