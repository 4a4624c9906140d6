//! Files and a sink in memory that never fail.

ghost use Rattle.std.specs.Prelude.{◌≡◌, ◌≢◌, [], Err, None, Some, option_map};
ghost use Rattle.std.specs.Str.{bytes_eq};
ghost use Rattle.wild_cli.specs.Device.{Loads};
ghost use Rattle.wild_cli.specs.Shelf.{content_of, find_content};
ghost use Rattle.wild_cli.specs.declared.device.LoadFault.TheVariants as load;

use crate::device::MAX_LENGTH;
use crate::{Files, LoadFault, Sink, SinkFault};
use std::alloc::Global;
use std::marker::Model;
use wild_names::Name;

/// A file in memory.
#[derive(Debug, Drop)]
pub struct ShelfFile {
    pub name: Name,
    pub bytes: Name,
}

/// Files in memory, none of which fails to load. Contracts see the list of its files.
#[derive(Debug, Drop)]
pub struct SureShelf {
    files: Vec<ShelfFile>,
}

impl Model for SureShelf {
    ghost use Rattle.std.specs.Prelude.{List};
    ghost use Rattle.wild_cli.specs.declared.sure.ShelfFile.{ShelfFile};

    ghost Value = { List ShelfFile };

    ghost view = { λ shelf. shelf.files.items };
}

impl SureShelf {
    /// Of several files of one name the first counts. A name that no file has stands for an empty file.
    pub fn new(files: Vec<ShelfFile>) -> SureShelf
        ensures { result ≡ files.items }
    {
        SureShelf { files }
    }
}

impl Files for SureShelf {
    ghost held = { λ shelf name. Some (content_of shelf name) };

    ghost faults = { λ shelf. 0 };

    ghost failed = { λ shelf. None };

    fn load(&mut self, alloc: Global, name: &Name) -> Result<Vec<u8>, LoadFault> {
        load_content(alloc, content_of(self.files.as_slice(), name))
    }
}

fn same_name(a: &Name, b: &Name) -> bool
    ensures { result ≡ bytes_eq a.now b.now }
{
    a.bytes() == b.bytes()
}

// The content of the first file of the name, or nothing.
fn content_of<'a>(files: &'a [ShelfFile], name: &Name) -> &'a [u8]
    ensures { result.now ≡ content_of files.now name.now }
{
    match find_content(files, name) {
        Some(content) => content,
        None => &[],
    }
}

// The content of the first file of the name, where one has it.
pub(crate) fn find_content<'a>(files: &'a [ShelfFile], name: &Name) -> Option<&'a [u8]>
    ensures { option_map (λ content. content.now) result ≡ find_content files.now name.now }
{
    for file in files {
        if same_name(&file.name, name) {
            return Some(file.bytes.bytes());
        }
    }
    None
}

// A copy of the content, if a file may have it.
pub(crate) fn load_content(alloc: Global, content: &[u8]) -> Result<Vec<u8>, LoadFault>
    ensures loads { Loads content.now result }
    ensures sure { result ≢ Err load.Failed }
{
    if content.len() > MAX_LENGTH {
        return Err(LoadFault::TooLong);
    }
    Ok(content.to_vec(alloc)?)
}

/// A sink in memory that never fails. Contracts see the bytes that it got.
#[derive(Debug, Drop)]
pub struct SureTray {
    bytes: Vec<u8>,
}

impl Model for SureTray {
    ghost use Rattle.std.specs.Prelude.{List, ℕ};

    ghost Value = { List ℕ };

    ghost view = { λ tray. tray.bytes.items };
}

impl SureTray {
    /// Nothing was put yet.
    pub fn new(alloc: Global) -> SureTray
        ensures { result ≡ [] }
    {
        SureTray {
            bytes: Vec::new(alloc),
        }
    }

    /// All that it got.
    pub fn bytes(&self) -> &[u8]
        ensures { result.now ≡ self.now }
    {
        self.bytes.as_slice()
    }
}

impl Sink for SureTray {
    ghost got = { λ tray. Some tray };

    ghost faults = { λ tray. 0 };

    fn put(&mut self, piece: &[u8]) -> Result<(), SinkFault> {
        self.bytes.extend_from_slice(piece)?;
        Ok(())
    }
}
