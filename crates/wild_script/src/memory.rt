//! Reads regions of memory.

ghost use Rattle.std.specs.Prelude.{◌<◌, OnOk};
ghost use Rattle.wild_reading.specs.Only.{Answers};
ghost use Rattle.wild_reading.specs.Position.{ahead};
ghost use Rattle.wild_expression_words.specs.Dialect.{first_grammar};
ghost use Rattle.wild_script.specs.Memory as spec;

use sqlite_items::Items;
use std::alloc::Global;
use wild_expression::expression;
use wild_reading::{Cursor, Grammar, Stop, read_until};
use wild_script_tree::{Command, MemoryRegion};

#[tactic(auto, using(wild_reading::proofs::Readers::choosing), unfolding(crate::specs::Memory::origin_word))]
fn origin_word(cursor: &mut Cursor<'_>) -> Result<(), Stop>
    ensures { Answers spec.origin_word cursor.old cursor.new result }
{
    if cursor.begins_with(b"ORIGIN") {
        cursor.keyword(b"ORIGIN")
    } else if cursor.begins_with(b"org") {
        cursor.keyword(b"org")
    } else {
        cursor.keyword(b"o")
    }
}

#[tactic(auto, using(wild_reading::proofs::Readers::choosing), unfolding(crate::specs::Memory::length_word))]
fn length_word(cursor: &mut Cursor<'_>) -> Result<(), Stop>
    ensures { Answers spec.length_word cursor.old cursor.new result }
{
    if cursor.begins_with(b"LENGTH") {
        cursor.keyword(b"LENGTH")
    } else if cursor.begins_with(b"len") {
        cursor.keyword(b"len")
    } else {
        cursor.keyword(b"l")
    }
}

#[tactic(auto, using(wild_reading::proofs::Readers::reading), unfolding(crate::specs::Memory::region))]
fn region(cursor: &mut Cursor<'_>, alloc: Global) -> Result<MemoryRegion, Stop>
    ensures read { Answers (spec.region first_grammar) cursor.old cursor.new result }
    ensures shorter { OnOk result (ahead cursor.new < ahead cursor.old) }
{
    let name = cursor.name(alloc)?;
    cursor.symbol(b':')?;
    origin_word(cursor)?;
    cursor.symbol(b'=')?;
    let origin = expression(cursor, alloc)?;
    cursor.gap()?;
    cursor.symbol(b',')?;
    length_word(cursor)?;
    cursor.symbol(b'=')?;
    let length = expression(cursor, alloc)?;
    Ok(MemoryRegion {
        name,
        origin: origin.into_inner(),
        length: length.into_inner(),
    })
}

// How a region is read.
struct RegionReader;

impl Grammar for RegionReader {
    type Item = MemoryRegion;

    ghost reads = { spec.region first_grammar };

    fn read(cursor: &mut Cursor<'_>, alloc: Global) -> Result<MemoryRegion, Stop> {
        region(cursor, alloc)
    }
}

#[tactic(auto, unfolding(crate::specs::Memory::regions))]
fn regions(cursor: &mut Cursor<'_>, alloc: Global) -> Result<Items<MemoryRegion>, Stop>
    ensures { Answers (spec.regions first_grammar) cursor.old cursor.new result }
{
    read_until::<RegionReader>(cursor, alloc, b'}')
}

/// Reads what is after MEMORY.
#[tactic(auto, using(wild_reading::proofs::Readers::reading), unfolding(crate::specs::Memory::memory_command))]
pub fn memory_command(cursor: &mut Cursor<'_>, alloc: Global) -> Result<Command, Stop>
    ensures { Answers (spec.memory_command first_grammar) cursor.old cursor.new result }
{
    cursor.symbol(b'{')?;
    let regions = regions(cursor, alloc)?;
    cursor.symbol(b'}')?;
    Ok(Command::Memory(regions))
}
