//! What one word of a command line chooses.

ghost use Rattle.std.specs.Prelude.{◌≡◌};
ghost use Rattle.std.specs.Option.{option_copied};
ghost use Rattle.wild_words.specs.Choice as spec;

use wild_names::{Architecture, Endianness, RelocationModel};
use wild_output_kind::OutputKind;
use wild_table::read_number;

/// What one option chooses.
#[derive(Clone, Copy, Debug)]
pub(crate) enum Choice {
    Kind(OutputKind),
    Architecture(Architecture),
    Endian(Endianness),
    HeaderSize(u64),
    /// Where the segment of the text starts.
    TextStart(u64),
    /// Where the segment of the data starts.
    DataStart(u64),
    /// Where the segment of the bss starts.
    BssStart(u64),
}

/// What a word chooses, if it is an option.
#[tactic(auto, unfolding(crate::specs::Choice::choice_of))]
pub(crate) fn read_choice(word: &[u8]) -> Option<Choice>
    ensures { result ≡ spec.choice_of word.now }
{
    kind_choice(word)
        .or_else(|| architecture_choice(word))
        .or_else(|| endian_choice(word))
        .or_else(|| header_size_choice(word))
        .or_else(|| start_choice(word))
}

// The choice of a kind of what is linked.
#[tactic(auto, unfolding(crate::specs::Choice::kind_choice))]
fn kind_choice(word: &[u8]) -> Option<Choice>
    ensures { result ≡ spec.kind_choice word.now }
{
    let value = rest_after(b"--kind=", word)?;
    Some(Choice::Kind(read_kind(value)?))
}

// The choice of an architecture.
#[tactic(auto, unfolding(crate::specs::Choice::architecture_choice))]
fn architecture_choice(word: &[u8]) -> Option<Choice>
    ensures { result ≡ spec.architecture_choice word.now }
{
    let value = rest_after(b"--arch=", word)?;
    Some(Choice::Architecture(read_architecture(value)?))
}

// The choice of an order of bytes.
#[tactic(auto, unfolding(crate::specs::Choice::endian_choice))]
fn endian_choice(word: &[u8]) -> Option<Choice>
    ensures { result ≡ spec.endian_choice word.now }
{
    let value = rest_after(b"--endian=", word)?;
    Some(Choice::Endian(read_endian(value)?))
}

// The choice of the size of the headers.
#[tactic(auto, unfolding(crate::specs::Choice::header_size_choice))]
fn header_size_choice(word: &[u8]) -> Option<Choice>
    ensures { result ≡ spec.header_size_choice word.now }
{
    Some(Choice::HeaderSize(number_after(b"--headers=", word)?))
}

// The choice of the start of a segment.
#[tactic(auto, unfolding(crate::specs::Choice::start_choice))]
fn start_choice(word: &[u8]) -> Option<Choice>
    ensures { result ≡ spec.start_choice word.now }
{
    let value = rest_after(b"--start=", word)?;
    text_start(value)
        .or_else(|| data_start(value))
        .or_else(|| bss_start(value))
}

// The start of the text segment that a value chooses.
#[tactic(auto, unfolding(crate::specs::Choice::text_start))]
fn text_start(value: &[u8]) -> Option<Choice>
    ensures { result ≡ spec.text_start value.now }
{
    Some(Choice::TextStart(number_after(b"text-segment=", value)?))
}

// The start of the data segment that a value chooses.
#[tactic(auto, unfolding(crate::specs::Choice::data_start))]
fn data_start(value: &[u8]) -> Option<Choice>
    ensures { result ≡ spec.data_start value.now }
{
    Some(Choice::DataStart(number_after(b"data-segment=", value)?))
}

// The start of the bss segment that a value chooses.
#[tactic(auto, unfolding(crate::specs::Choice::bss_start))]
fn bss_start(value: &[u8]) -> Option<Choice>
    ensures { result ≡ spec.bss_start value.now }
{
    Some(Choice::BssStart(number_after(b"bss-segment=", value)?))
}

// What follows these bytes in a word, if the word begins with them.
#[tactic(auto, unfolding(crate::specs::Choice::rest_after))]
fn rest_after<'a>(front: &[u8], word: &'a [u8]) -> Option<&'a [u8]>
    ensures { option_copied result ≡ spec.rest_after front.now word.now }
{
    word.strip_prefix(front)
}

// The number that follows these bytes in a word, if the word begins with them.
#[tactic(auto, unfolding(crate::specs::Choice::number_after))]
fn number_after(front: &[u8], word: &[u8]) -> Option<u64>
    ensures { result ≡ spec.number_after front.now word.now }
{
    read_number(rest_after(front, word)?)
}

// The kind that a value names.
#[tactic(auto, unfolding(crate::specs::Choice::kind_of))]
fn read_kind(value: &[u8]) -> Option<OutputKind>
    ensures { result ≡ spec.kind_of value.now }
{
    if value == b"static".as_slice() {
        Some(OutputKind::StaticExecutable(RelocationModel::Fixed))
    } else if value == b"static-pie".as_slice() {
        Some(OutputKind::StaticExecutable(RelocationModel::PositionIndependent))
    } else if value == b"dynamic".as_slice() {
        Some(OutputKind::DynamicExecutable(RelocationModel::Fixed))
    } else if value == b"dynamic-pie".as_slice() {
        Some(OutputKind::DynamicExecutable(RelocationModel::PositionIndependent))
    } else if value == b"shared".as_slice() {
        Some(OutputKind::SharedObject)
    } else if value == b"partial".as_slice() {
        Some(OutputKind::PartialLink)
    } else {
        None
    }
}

// The architecture that a value names.
#[tactic(auto, unfolding(crate::specs::Choice::architecture_of))]
fn read_architecture(value: &[u8]) -> Option<Architecture>
    ensures { result ≡ spec.architecture_of value.now }
{
    if value == b"x86_64".as_slice() {
        Some(Architecture::X86_64)
    } else if value == b"aarch64".as_slice() {
        Some(Architecture::AArch64)
    } else if value == b"riscv64".as_slice() {
        Some(Architecture::RiscV64)
    } else if value == b"loongarch64".as_slice() {
        Some(Architecture::LoongArch64)
    } else {
        None
    }
}

// The order of bytes that a value names.
#[tactic(auto, unfolding(crate::specs::Choice::endian_of))]
fn read_endian(value: &[u8]) -> Option<Endianness>
    ensures { result ≡ spec.endian_of value.now }
{
    if value == b"little".as_slice() {
        Some(Endianness::Little)
    } else if value == b"big".as_slice() {
        Some(Endianness::Big)
    } else {
        None
    }
}
