//! The addresses that are known of a layout so far.

ghost use Rattle.std.specs.Prelude.{◌≡◌, ◌==◌, ◌<◌, ℕ, List, Some, None, OnOk, length, if◌then◌else◌};
ghost use Rattle.std.specs.Option.{unwrap_or};
ghost use Rattle.wild_value_spec.specs.Known.{Start, Load, End, Address, Dot, LoadDot, nothing, number_at, or_else, with_number};
ghost use Rattle.wild_eval.specs.Addresses.{known_at, known_of};

use std::alloc::{AllocError, Global};

/// Numbers by the index of a section, a row or a place, as far as they are known. Behind the end none is.
pub type Numbers = Vec<Option<u64>>;

/// The addresses that are known of a layout so far.
#[derive(Drop)]
pub struct Addresses {
    /// Where each section starts, is loaded and ends.
    pub starts: Numbers,
    pub loads: Numbers,
    pub ends: Numbers,
    /// Where each row stands.
    pub rows: Numbers,
    /// The location counter at each place.
    pub dots: Numbers,
    /// The start of the section that a place opens, as its load address reads it.
    pub load_dots: Numbers,
}

fn number(known: &Numbers, index: usize) -> Option<u64>
    ensures { result ≡ known_at known.now.items index }
{
    if index < known.len() {
        known[index]
    } else {
        None
    }
}

/// The number at an index, or 0 where none is known.
fn number_or_zero(known: &Numbers, index: usize) -> u64
    ensures { result ≡ unwrap_or (known_at known.now.items index) 0 }
{
    number(known, index).unwrap_or(0)
}

/// Makes room for a number, without knowing more.
fn make_room(known: &mut Numbers, index: usize) -> Result<(), AllocError>
    ensures room { OnOk result (index < length known.new.items) }
    ensures same { OnOk result ((i : ℕ) → known_at known.new.items i ≡ known_at known.old.items i) }
{
    while known.len() <= index {
        known.push(None)?;
    }
    Ok(())
}

/// Keeps a number, unless one is known there.
fn learn(known: &mut Numbers, index: usize, number: u64) -> Result<(), AllocError>
    ensures { OnOk result ((i : ℕ) → known_at known.new.items i ≡ or_else (known_at known.old.items i) (if index == i then Some number else None)) }
{
    make_room(known, index)?;
    if known[index].is_none() {
        known[index] = Some(number);
    }
    Ok(())
}

impl Addresses {
    /// Nothing is known.
    pub fn new(alloc: Global) -> Addresses
        ensures { known_of result ≡ nothing }
    {
        Addresses {
            starts: Vec::new(alloc),
            loads: Vec::new(alloc),
            ends: Vec::new(alloc),
            rows: Vec::new(alloc),
            dots: Vec::new(alloc),
            load_dots: Vec::new(alloc),
        }
    }

    /// Keeps the start of a section, unless it is known.
    pub fn learn_start(&mut self, section: usize, number: u64) -> Result<(), AllocError>
        ensures { OnOk result (known_of self.new ≡ with_number (Start section) number (known_of self.old)) }
    {
        learn(&mut self.starts, section, number)
    }

    /// Keeps the load address of a section, unless it is known.
    pub fn learn_load(&mut self, section: usize, number: u64) -> Result<(), AllocError>
        ensures { OnOk result (known_of self.new ≡ with_number (Load section) number (known_of self.old)) }
    {
        learn(&mut self.loads, section, number)
    }

    /// Keeps the end of a section, unless it is known.
    pub fn learn_end(&mut self, section: usize, number: u64) -> Result<(), AllocError>
        ensures { OnOk result (known_of self.new ≡ with_number (End section) number (known_of self.old)) }
    {
        learn(&mut self.ends, section, number)
    }

    /// Keeps the address of a row, unless it is known.
    pub fn learn_address(&mut self, row: usize, number: u64) -> Result<(), AllocError>
        ensures { OnOk result (known_of self.new ≡ with_number (Address row) number (known_of self.old)) }
    {
        learn(&mut self.rows, row, number)
    }

    /// Keeps the location counter at a place, unless it is known.
    pub fn learn_dot(&mut self, place: usize, number: u64) -> Result<(), AllocError>
        ensures { OnOk result (known_of self.new ≡ with_number (Dot place) number (known_of self.old)) }
    {
        learn(&mut self.dots, place, number)
    }

    /// Keeps the start of the section that a place opens, unless it is known.
    pub fn learn_load_dot(&mut self, place: usize, number: u64) -> Result<(), AllocError>
        ensures { OnOk result (known_of self.new ≡ with_number (LoadDot place) number (known_of self.old)) }
    {
        learn(&mut self.load_dots, place, number)
    }

    /// Where a section starts, where that is known.
    pub(crate) fn known_start(&self, section: usize) -> Option<u64>
        ensures { result ≡ known_of self.now (Start section) }
    {
        number(&self.starts, section)
    }

    /// The load address of a section, where it is known.
    pub(crate) fn known_load(&self, section: usize) -> Option<u64>
        ensures { result ≡ known_of self.now (Load section) }
    {
        number(&self.loads, section)
    }

    /// Where a section ends, where that is known.
    pub(crate) fn known_end(&self, section: usize) -> Option<u64>
        ensures { result ≡ known_of self.now (End section) }
    {
        number(&self.ends, section)
    }

    /// The address of a row, where it is known.
    pub(crate) fn known_address(&self, row: usize) -> Option<u64>
        ensures { result ≡ known_of self.now (Address row) }
    {
        number(&self.rows, row)
    }

    /// The location counter at a place, where it is known.
    pub(crate) fn known_dot(&self, place: usize) -> Option<u64>
        ensures { result ≡ known_of self.now (Dot place) }
    {
        number(&self.dots, place)
    }

    /// The start of the section that a place opens, where it is known.
    pub(crate) fn known_load_dot(&self, place: usize) -> Option<u64>
        ensures { result ≡ known_of self.now (LoadDot place) }
    {
        number(&self.load_dots, place)
    }

    /// Where a section starts, or 0 where that is not known.
    pub fn start(&self, section: usize) -> u64
        ensures { result ≡ number_at (known_of self.now) (Start section) }
    {
        number_or_zero(&self.starts, section)
    }

    /// The load address of a section, or 0 where it is not known.
    pub fn load(&self, section: usize) -> u64
        ensures { result ≡ number_at (known_of self.now) (Load section) }
    {
        number_or_zero(&self.loads, section)
    }

    /// Where a section ends, or 0 where that is not known.
    pub fn end(&self, section: usize) -> u64
        ensures { result ≡ number_at (known_of self.now) (End section) }
    {
        number_or_zero(&self.ends, section)
    }

    /// The address of a row, or 0 where it is not known.
    pub fn address(&self, row: usize) -> u64
        ensures { result ≡ number_at (known_of self.now) (Address row) }
    {
        number_or_zero(&self.rows, row)
    }
}
