//! Reads program headers.

ghost use Rattle.std.specs.Prelude.{◌≡◌, ◌<◌, OnOk};
ghost use Rattle.wild_reading.specs.Only.{Answers};
ghost use Rattle.wild_reading.specs.Position.{ahead};
ghost use Rattle.wild_expression_words.specs.Dialect.{first_grammar};
ghost use Rattle.wild_script.specs.Phdrs as spec;

use sqlite_items::{Boxed, Items};
use std::alloc::Global;
use wild_expression::{Expression, expression};
use wild_reading::{Cursor, Grammar, Stop, is_word, read_until};
use wild_script_tree::{Command, Phdr};

// The number of the type that these bytes name.
fn type_number(content: &[u8]) -> Option<u64>
    ensures { result ≡ spec.type_number content.now }
{
    if is_word(content, b"PT_NULL") {
        Some(0)
    } else if is_word(content, b"PT_LOAD") {
        Some(1)
    } else if is_word(content, b"PT_DYNAMIC") {
        Some(2)
    } else if is_word(content, b"PT_INTERP") {
        Some(3)
    } else if is_word(content, b"PT_NOTE") {
        Some(4)
    } else if is_word(content, b"PT_SHLIB") {
        Some(5)
    } else if is_word(content, b"PT_PHDR") {
        Some(6)
    } else if is_word(content, b"PT_TLS") {
        Some(7)
    } else if is_word(content, b"PT_GNU_EH_FRAME") {
        Some(0x6474_e550)
    } else if is_word(content, b"PT_GNU_STACK") {
        Some(0x6474_e551)
    } else if is_word(content, b"PT_GNU_RELRO") {
        Some(0x6474_e552)
    } else if is_word(content, b"PT_GNU_PROPERTY") {
        Some(0x6474_e553)
    } else if is_word(content, b"PT_GNU_SFRAME") {
        Some(0x6474_e554)
    } else {
        None
    }
}

#[tactic(auto, using(wild_reading::proofs::Readers::reading))]
fn number(cursor: &Cursor<'_>, alloc: Global, found: Option<u64>) -> Result<Boxed<Expression>, Stop>
    ensures { Answers (spec.number_of found) cursor.now cursor.now result }
{
    match found {
        None => cursor.nothing(),
        Some(value) => Ok(Boxed::new(alloc, Expression::Number(value))?),
    }
}

#[tactic(auto, using(wild_reading::proofs::Readers::reading), unfolding(crate::specs::Phdrs::type_word))]
fn type_word(cursor: &mut Cursor<'_>, alloc: Global) -> Result<Boxed<Expression>, Stop>
    ensures { Answers spec.type_word cursor.old cursor.new result }
{
    let word = cursor.word()?;
    number(cursor, alloc, type_number(word.content()))
}

#[tactic(auto, using(wild_reading::proofs::Readers::reading), unfolding(crate::specs::Phdrs::type_expression))]
fn type_expression(cursor: &mut Cursor<'_>, alloc: Global) -> Result<Boxed<Expression>, Stop>
    ensures { Answers (spec.type_expression first_grammar) cursor.old cursor.new result }
{
    let value = expression(cursor, alloc)?;
    cursor.gap()?;
    Ok(value)
}

#[tactic(auto, using(wild_reading::proofs::Readers::choosing), unfolding(crate::specs::Phdrs::header_type))]
fn header_type(cursor: &mut Cursor<'_>, alloc: Global) -> Result<Boxed<Expression>, Stop>
    ensures { Answers (spec.header_type first_grammar) cursor.old cursor.new result }
{
    if cursor.begins_with(b"PT_") {
        type_word(cursor, alloc)
    } else {
        type_expression(cursor, alloc)
    }
}

#[tactic(auto, using(wild_reading::proofs::Readers::reading), unfolding(crate::specs::Phdrs::flags_clause))]
fn flags_clause(cursor: &mut Cursor<'_>, alloc: Global, mut header: Phdr) -> Result<Phdr, Stop>
    ensures read { Answers (spec.flags_clause first_grammar header) cursor.old cursor.new result }
    ensures shorter { OnOk result (ahead cursor.new < ahead cursor.old) }
{
    cursor.keyword(b"FLAGS")?;
    cursor.byte(b'(')?;
    let flags = expression(cursor, alloc)?;
    cursor.symbol(b')')?;
    header.flags = Some(flags.into_inner());
    Ok(header)
}

#[tactic(auto, using(wild_reading::proofs::Readers::reading), unfolding(crate::specs::Phdrs::filehdr_clause))]
fn filehdr_clause(cursor: &mut Cursor<'_>, mut header: Phdr) -> Result<Phdr, Stop>
    ensures read { Answers (spec.filehdr_clause header) cursor.old cursor.new result }
    ensures shorter { OnOk result (ahead cursor.new < ahead cursor.old) }
{
    cursor.keyword(b"FILEHDR")?;
    header.has_filehdr = true;
    Ok(header)
}

#[tactic(auto, using(wild_reading::proofs::Readers::reading), unfolding(crate::specs::Phdrs::phdrs_clause))]
fn phdrs_clause(cursor: &mut Cursor<'_>, mut header: Phdr) -> Result<Phdr, Stop>
    ensures read { Answers (spec.phdrs_clause header) cursor.old cursor.new result }
    ensures shorter { OnOk result (ahead cursor.new < ahead cursor.old) }
{
    cursor.keyword(b"PHDRS")?;
    header.has_phdrs = true;
    Ok(header)
}

#[tactic(auto, unfolding(crate::specs::Phdrs::ends_clauses))]
fn ends_clauses(cursor: &Cursor<'_>) -> bool
    ensures { result ≡ spec.ends_clauses cursor.now.text.bytes cursor.now.at }
{
    !(cursor.begins_with(b"FLAGS")
        || cursor.begins_with(b"FILEHDR")
        || cursor.begins_with(b"PHDRS"))
}

#[tactic(auto, using(wild_reading::proofs::Readers::choosing), unfolding(crate::specs::Phdrs::clause))]
fn clause(cursor: &mut Cursor<'_>, alloc: Global, header: Phdr) -> Result<Phdr, Stop>
    ensures read { Answers (spec.clause first_grammar header) cursor.old cursor.new result }
    ensures shorter { OnOk result (ahead cursor.new < ahead cursor.old) }
{
    if cursor.begins_with(b"FLAGS") {
        flags_clause(cursor, alloc, header)
    } else if cursor.begins_with(b"FILEHDR") {
        filehdr_clause(cursor, header)
    } else {
        phdrs_clause(cursor, header)
    }
}

#[tactic(auto, unfolding(crate::specs::Phdrs::clauses))]
fn clauses(cursor: &mut Cursor<'_>, alloc: Global, header: Phdr) -> Result<Phdr, Stop>
    ensures { Answers (spec.clauses first_grammar header) cursor.old cursor.new result }
{
    let mut whole = header;
    'clauses: while !ends_clauses(cursor) {
        whole = clause(cursor, alloc, whole)?;
    }
    Ok(whole)
}

#[tactic(auto, using(wild_reading::proofs::Readers::reading), unfolding(crate::specs::Phdrs::header))]
fn header(cursor: &mut Cursor<'_>, alloc: Global) -> Result<Phdr, Stop>
    ensures read { Answers (spec.header first_grammar) cursor.old cursor.new result }
    ensures shorter { OnOk result (ahead cursor.new < ahead cursor.old) }
{
    let name = cursor.name(alloc)?;
    let ptype = header_type(cursor, alloc)?;
    let bare = Phdr {
        name,
        ptype: ptype.into_inner(),
        flags: None,
        has_filehdr: false,
        has_phdrs: false,
    };
    let whole = clauses(cursor, alloc, bare)?;
    cursor.optional_symbol(b';')?;
    Ok(whole)
}

// How a header is read.
struct HeaderReader;

impl Grammar for HeaderReader {
    type Item = Phdr;

    ghost reads = { spec.header first_grammar };

    fn read(cursor: &mut Cursor<'_>, alloc: Global) -> Result<Phdr, Stop> {
        header(cursor, alloc)
    }
}

#[tactic(auto, unfolding(crate::specs::Phdrs::headers))]
fn headers(cursor: &mut Cursor<'_>, alloc: Global) -> Result<Items<Phdr>, Stop>
    ensures { Answers (spec.headers first_grammar) cursor.old cursor.new result }
{
    read_until::<HeaderReader>(cursor, alloc, b'}')
}

/// Reads what is after PHDRS.
#[tactic(auto, using(wild_reading::proofs::Readers::reading), unfolding(crate::specs::Phdrs::phdrs_command))]
pub fn phdrs_command(cursor: &mut Cursor<'_>, alloc: Global) -> Result<Command, Stop>
    ensures { Answers (spec.phdrs_command first_grammar) cursor.old cursor.new result }
{
    cursor.symbol(b'{')?;
    let headers = headers(cursor, alloc)?;
    cursor.symbol(b'}')?;
    Ok(Command::Phdrs(headers))
}
