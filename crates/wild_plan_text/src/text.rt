//! Names, numbers and plans as they are printed.

ghost use Rattle.std.specs.Prelude.{◌≡◌, ◌++◌, ◌∷◌, OnOk, IfOk, string_bytes, decimal, flat_map};
ghost use Rattle.wild_plan_spec.specs.Text.{is_plain, printed_byte, printed_name, printed_address, field, letters_of, printed_flags, printed_fill, printed_region, more_names, printed_names, name_at, section_line, input_line, input_lines, location_line, more_sections, printed_sections, printed_type, segment_line, segment_lines_of, printed_holder, printed_visibility, symbol_line};
ghost use Rattle.wild_plan_text.specs.Letters.{letter_in};

use bitflags::Flags;
use std::alloc::{AllocError, Global};
use std::fmt::Write;
use wild_base::{InputFlags, Name, NoMemory};
use wild_plan_spec::{
    PlacedInput, PlacedLocation, PlacedSection, PlacedSegment, PlacedSymbol, RowNames,
};

/// A name as it is printed: visible bytes as they are, any other, a backslash and a comma as `\x` and two hexadecimal
/// digits. The empty name is `-`, and the name `-` is `\x2d`. Fails where memory runs out.
pub fn name_text(alloc: Global, name: &[u8]) -> Result<Name, NoMemory>
    ensures { IfOk result (λ text. text ≡ printed_name name.now) }
{
    let mut out = String::new(alloc);
    push_name(&mut out, name)?;
    Ok(name_of(out))
}

/// An address or a size as it is printed: `0x` and sixteen hexadecimal digits. Fails where memory runs out.
pub fn address_text(alloc: Global, value: u64) -> Result<Name, NoMemory>
    ensures { IfOk result (λ text. text ≡ printed_address value) }
{
    let mut out = String::new(alloc);
    push_address(&mut out, value)?;
    Ok(name_of(out))
}

/// The text of a plan that lists these: a line for each section, then for each row, then for each location, then for each
/// segment, then for each symbol. The names are those of the rows, in table order. Where the segments are not those of program
/// headers, those without sections have no line.
pub fn lines_text(
    alloc: Global,
    sections: &[PlacedSection],
    placements: &[PlacedInput],
    names: &[RowNames],
    locations: &[PlacedLocation],
    segments: &[PlacedSegment],
    by_headers: bool,
    symbols: &[PlacedSymbol],
) -> Result<Name, NoMemory>
    ensures { IfOk result (λ text. text ≡ flat_map section_line sections.now ++ input_lines sections.now 0 placements.now names.now ++ flat_map location_line locations.now ++ flat_map (segment_lines_of by_headers sections.now) segments.now ++ flat_map (symbol_line sections.now) symbols.now) }
{
    let mut out = String::new(alloc);
    push_section_lines(&mut out, sections)?;
    push_input_lines(&mut out, sections, placements, names)?;
    push_location_lines(&mut out, locations)?;
    push_segment_lines(&mut out, sections, segments, by_headers)?;
    push_symbol_lines(&mut out, sections, symbols)?;
    Ok(name_of(out))
}

/// The bytes of a text.
pub(crate) fn name_of(text: String) -> Name
    ensures { result ≡ string_bytes text }
{
    Name::from_vec(text.into_bytes())
}

/// Appends a name as it is printed.
pub(crate) fn push_name(out: &mut String, name: &[u8]) -> Result<(), AllocError>
    ensures { OnOk result (string_bytes out.new ≡ string_bytes out.old ++ printed_name name.now) }
{
    match name {
        [] => out.push('-'),
        b"-" => out.push_str("\\x2d"),
        bytes => push_bytes(out, bytes),
    }
}

#[tactic(auto, using(std::proofs::lemmas::List::flat_map_more))]
fn push_bytes(out: &mut String, bytes: &[u8]) -> Result<(), AllocError>
    ensures { OnOk result (string_bytes out.new ≡ string_bytes out.old ++ flat_map printed_byte bytes.now) }
{
    for byte in bytes {
        push_byte(out, *byte)?;
    }
    Ok(())
}

#[tactic(auto, using(crate::proofs::Texts::texts))]
fn push_byte(out: &mut String, byte: u8) -> Result<(), AllocError>
    ensures { OnOk result (string_bytes out.new ≡ string_bytes out.old ++ printed_byte byte) }
{
    if is_plain(byte) {
        out.push(byte as char)
    } else {
        write!(out, "\\x{byte:02x}")
    }
}

// A byte that stands for itself.
fn is_plain(byte: u8) -> bool
    ensures { result ≡ is_plain byte }
{
    0x21 <= byte && byte <= 0x7e && byte != b'\\' && byte != b','
}

#[tactic(auto, using(crate::proofs::Texts::texts))]
fn push_address(out: &mut String, address: u64) -> Result<(), AllocError>
    ensures { OnOk result (string_bytes out.new ≡ string_bytes out.old ++ printed_address address) }
{
    write!(out, "0x{address:016x}")
}

// Appends a blank and a name.
fn push_name_field(out: &mut String, name: &[u8]) -> Result<(), AllocError>
    ensures { OnOk result (string_bytes out.new ≡ string_bytes out.old ++ field (printed_name name.now)) }
{
    out.push(' ')?;
    push_name(out, name)
}

// Appends a blank and an address or a size.
fn push_address_field(out: &mut String, address: u64) -> Result<(), AllocError>
    ensures { OnOk result (string_bytes out.new ≡ string_bytes out.old ++ field (printed_address address)) }
{
    out.push(' ')?;
    push_address(out, address)
}

// Appends a blank and a number.
pub(crate) fn push_number_field(out: &mut String, number: u64) -> Result<(), AllocError>
    ensures { OnOk result (string_bytes out.new ≡ string_bytes out.old ++ field (decimal number)) }
{
    write!(out, " {number}")
}

// Appends the letter, where it is that of a flag that is set.
fn push_letter(out: &mut String, flags: InputFlags, letter: u8) -> Result<(), AllocError>
    ensures { OnOk result (string_bytes out.new ≡ string_bytes out.old ++ letter_in flags letter) }
{
    match InputFlags::of_letter(letter) {
        Some(flag) if flags.contains(flag) => out.push(letter as char),
        _ => Ok(()),
    }
}

// Appends, in this order, those of the letters whose flags are set.
#[tactic(auto, using(std::proofs::lemmas::List::flat_map_more))]
fn push_letters_among(out: &mut String, flags: InputFlags, letters: &[u8]) -> Result<(), AllocError>
    ensures { OnOk result (string_bytes out.new ≡ string_bytes out.old ++ flat_map (letter_in flags) letters.now) }
{
    for letter in letters {
        push_letter(out, flags, *letter)?;
    }
    Ok(())
}

#[tactic(auto, using(crate::proofs::Letters::letters_are))]
fn push_letters(out: &mut String, flags: InputFlags) -> Result<(), AllocError>
    ensures { OnOk result (string_bytes out.new ≡ string_bytes out.old ++ letters_of flags) }
{
    push_letters_among(out, flags, b"AWXBT")
}

// Appends a blank and the letters of the flags.
fn push_flags_field(out: &mut String, flags: InputFlags) -> Result<(), AllocError>
    ensures { OnOk result (string_bytes out.new ≡ string_bytes out.old ++ field (printed_flags flags)) }
{
    out.push(' ')?;
    let start = out.len();
    push_letters(out, flags)?;
    if out.len() == start {
        out.push('-')?;
    }
    Ok(())
}

// Appends a blank and the bytes that fill a section.
#[tactic(auto, using(crate::proofs::Texts::texts))]
fn push_fill_field(out: &mut String, fill: Option<u32>) -> Result<(), AllocError>
    ensures { OnOk result (string_bytes out.new ≡ string_bytes out.old ++ field (printed_fill fill)) }
{
    match fill {
        Some(bytes) => write!(out, " {bytes:08x}"),
        None => out.push_str(" -"),
    }
}

// Appends a blank and the name of a region.
fn push_region_field(out: &mut String, region: &Option<Name>) -> Result<(), AllocError>
    ensures { OnOk result (string_bytes out.new ≡ string_bytes out.old ++ field (printed_region region.now)) }
{
    match region {
        Some(name) => push_name_field(out, name.bytes()),
        None => out.push_str(" -"),
    }
}

#[tactic(auto, using(std::proofs::lemmas::List::flat_map_more))]
fn push_more_names(out: &mut String, names: &[Name]) -> Result<(), AllocError>
    ensures { OnOk result (string_bytes out.new ≡ string_bytes out.old ++ more_names names.now) }
{
    for name in names {
        push_joined_name(out, name)?;
    }
    Ok(())
}

fn push_joined_name(out: &mut String, name: &Name) -> Result<(), AllocError>
    ensures { OnOk result (string_bytes out.new ≡ string_bytes out.old ++ 44 ∷ printed_name name.now) }
{
    out.push(',')?;
    push_name(out, name.bytes())
}

// Appends a blank and names joined by commas.
fn push_names_field(out: &mut String, names: &[Name]) -> Result<(), AllocError>
    ensures { OnOk result (string_bytes out.new ≡ string_bytes out.old ++ field (printed_names names.now)) }
{
    match names {
        [] => out.push_str(" -"),
        [first, more @ ..] => {
            push_name_field(out, first.bytes())?;
            push_more_names(out, more)
        }
    }
}

#[tactic(auto, using(std::proofs::lemmas::List::flat_map_more))]
fn push_section_lines(out: &mut String, sections: &[PlacedSection]) -> Result<(), AllocError>
    ensures { OnOk result (string_bytes out.new ≡ string_bytes out.old ++ flat_map section_line sections.now) }
{
    for section in sections {
        push_section_line(out, section)?;
    }
    Ok(())
}

#[tactic(auto, unfolding(wild_plan_spec::specs::Text::section_line))]
fn push_section_line(out: &mut String, section: &PlacedSection) -> Result<(), AllocError>
    ensures { OnOk result (string_bytes out.new ≡ string_bytes out.old ++ section_line section.now) }
{
    out.push_str("section")?;
    push_name_field(out, section.name.bytes())?;
    push_address_field(out, section.start)?;
    push_address_field(out, section.load)?;
    push_address_field(out, section.size)?;
    push_number_field(out, section.alignment.value())?;
    push_flags_field(out, section.flags)?;
    push_fill_field(out, section.fill)?;
    push_region_field(out, &section.region)?;
    push_names_field(out, section.headers.as_slice())?;
    out.push('\n')
}

fn push_input_lines(
    out: &mut String,
    sections: &[PlacedSection],
    placements: &[PlacedInput],
    names: &[RowNames],
) -> Result<(), AllocError>
    ensures { OnOk result (string_bytes out.new ≡ string_bytes out.old ++ input_lines sections.now 0 placements.now names.now) }
{
    for (row, (placed, row_names)) in placements.iter().zip(names).enumerate() {
        push_input_line(out, sections, row, placed, row_names)?;
    }
    Ok(())
}

#[tactic(auto, unfolding(wild_plan_spec::specs::Text::input_line))]
fn push_input_line(
    out: &mut String,
    sections: &[PlacedSection],
    row: usize,
    placed: &PlacedInput,
    names: &RowNames,
) -> Result<(), AllocError>
    ensures { OnOk result (string_bytes out.new ≡ string_bytes out.old ++ input_line sections.now row placed.now names.now) }
{
    match placed {
        PlacedInput::Discarded => {
            out.push_str("discard")?;
            push_number_field(out, row as u64)?;
        }
        PlacedInput::Placed {
            section,
            address,
            ..
        } => {
            out.push_str("input")?;
            push_number_field(out, row as u64)?;
            push_address_field(out, *address)?;
            push_section_name_field(out, sections, *section)?;
        }
    }
    push_name_field(out, names.file.bytes())?;
    push_name_field(out, names.section.bytes())?;
    out.push('\n')
}

// Appends a blank and the name of the section at an index.
fn push_section_name_field(
    out: &mut String,
    sections: &[PlacedSection],
    index: usize,
) -> Result<(), AllocError>
    ensures { OnOk result (string_bytes out.new ≡ string_bytes out.old ++ field (printed_name (name_at sections.now index))) }
{
    match sections.get(index) {
        Some(section) => push_name_field(out, section.name.bytes()),
        None => push_name_field(out, &[]),
    }
}

#[tactic(auto, using(std::proofs::lemmas::List::flat_map_more))]
fn push_location_lines(out: &mut String, locations: &[PlacedLocation]) -> Result<(), AllocError>
    ensures { OnOk result (string_bytes out.new ≡ string_bytes out.old ++ flat_map location_line locations.now) }
{
    for location in locations {
        push_location_line(out, location)?;
    }
    Ok(())
}

#[tactic(auto, unfolding(wild_plan_spec::specs::Text::location_line))]
fn push_location_line(out: &mut String, location: &PlacedLocation) -> Result<(), AllocError>
    ensures { OnOk result (string_bytes out.new ≡ string_bytes out.old ++ location_line location.now) }
{
    out.push_str("location")?;
    push_number_field(out, location.statement as u64)?;
    push_address_field(out, location.address)?;
    out.push('\n')
}

// Appends a blank and the type of a segment.
#[tactic(auto, using(crate::proofs::Texts::texts))]
fn push_type_field(out: &mut String, ptype: u32) -> Result<(), AllocError>
    ensures { OnOk result (string_bytes out.new ≡ string_bytes out.old ++ field (printed_type ptype)) }
{
    write!(out, " 0x{ptype:08x}")
}

// The name of the section at an index, or no bytes where there is none.
fn name_at(sections: &[PlacedSection], index: usize) -> &[u8]
    ensures { result.now ≡ name_at sections.now index }
{
    match sections.get(index) {
        Some(section) => section.name.bytes(),
        None => {
            let none: &[u8] = &[];
            none
        }
    }
}

fn push_joined_section(
    out: &mut String,
    sections: &[PlacedSection],
    index: usize,
) -> Result<(), AllocError>
    ensures { OnOk result (string_bytes out.new ≡ string_bytes out.old ++ 44 ∷ printed_name (name_at sections.now index)) }
{
    out.push(',')?;
    push_name(out, name_at(sections, index))
}

#[tactic(auto, using(std::proofs::lemmas::List::flat_map_more))]
fn push_more_sections(
    out: &mut String,
    sections: &[PlacedSection],
    held: &[usize],
) -> Result<(), AllocError>
    ensures { OnOk result (string_bytes out.new ≡ string_bytes out.old ++ more_sections sections.now held.now) }
{
    for index in held {
        push_joined_section(out, sections, *index)?;
    }
    Ok(())
}

// Appends a blank and the names of the sections at these indexes, joined by commas.
fn push_sections_field(
    out: &mut String,
    sections: &[PlacedSection],
    held: &[usize],
) -> Result<(), AllocError>
    ensures { OnOk result (string_bytes out.new ≡ string_bytes out.old ++ field (printed_sections sections.now held.now)) }
{
    match held {
        [] => out.push_str(" -"),
        [first, more @ ..] => {
            push_name_field(out, name_at(sections, *first))?;
            push_more_sections(out, sections, more)
        }
    }
}

#[tactic(auto, unfolding(wild_plan_spec::specs::Text::segment_line))]
fn push_segment_line(
    out: &mut String,
    sections: &[PlacedSection],
    segment: &PlacedSegment,
) -> Result<(), AllocError>
    ensures { OnOk result (string_bytes out.new ≡ string_bytes out.old ++ segment_line sections.now segment.now) }
{
    out.push_str("segment")?;
    push_type_field(out, segment.ptype)?;
    push_number_field(out, u64::from(segment.flags))?;
    push_name_field(out, segment.name.bytes())?;
    push_sections_field(out, sections, segment.sections.as_slice())?;
    out.push('\n')
}

// The line of a segment, if it has one.
fn push_segment(
    out: &mut String,
    sections: &[PlacedSection],
    segment: &PlacedSegment,
    by_headers: bool,
) -> Result<(), AllocError>
    ensures { OnOk result (string_bytes out.new ≡ string_bytes out.old ++ segment_lines_of by_headers sections.now segment.now) }
{
    if by_headers || !segment.sections.as_slice().is_empty() {
        push_segment_line(out, sections, segment)
    } else {
        Ok(())
    }
}

#[tactic(auto, using(std::proofs::lemmas::List::flat_map_more))]
fn push_segment_lines(
    out: &mut String,
    sections: &[PlacedSection],
    segments: &[PlacedSegment],
    by_headers: bool,
) -> Result<(), AllocError>
    ensures { OnOk result (string_bytes out.new ≡ string_bytes out.old ++ flat_map (segment_lines_of by_headers sections.now) segments.now) }
{
    for segment in segments {
        push_segment(out, sections, segment, by_headers)?;
    }
    Ok(())
}

#[tactic(auto, using(std::proofs::lemmas::List::flat_map_more))]
fn push_symbol_lines(
    out: &mut String,
    sections: &[PlacedSection],
    symbols: &[PlacedSymbol],
) -> Result<(), AllocError>
    ensures { OnOk result (string_bytes out.new ≡ string_bytes out.old ++ flat_map (symbol_line sections.now) symbols.now) }
{
    for symbol in symbols {
        push_symbol_line(out, sections, symbol)?;
    }
    Ok(())
}

// Appends a blank and the name of the section that holds a symbol, or a dash.
fn push_holder_field(
    out: &mut String,
    sections: &[PlacedSection],
    section: Option<usize>,
) -> Result<(), AllocError>
    ensures { OnOk result (string_bytes out.new ≡ string_bytes out.old ++ field (printed_holder sections.now section)) }
{
    match section {
        Some(index) => push_section_name_field(out, sections, index),
        None => out.push_str(" -"),
    }
}

fn push_visibility_field(out: &mut String, hidden: bool) -> Result<(), AllocError>
    ensures { OnOk result (string_bytes out.new ≡ string_bytes out.old ++ field (printed_visibility hidden)) }
{
    if hidden {
        out.push_str(" hidden")
    } else {
        out.push_str(" default")
    }
}

#[tactic(auto, unfolding(wild_plan_spec::specs::Text::symbol_line))]
fn push_symbol_line(
    out: &mut String,
    sections: &[PlacedSection],
    symbol: &PlacedSymbol,
) -> Result<(), AllocError>
    ensures { OnOk result (string_bytes out.new ≡ string_bytes out.old ++ symbol_line sections.now symbol.now) }
{
    out.push_str("symbol")?;
    push_name_field(out, symbol.name.bytes())?;
    push_address_field(out, symbol.address)?;
    push_holder_field(out, sections, symbol.section)?;
    push_visibility_field(out, symbol.hidden)?;
    out.push('\n')
}
