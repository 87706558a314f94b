//! The identifiers of a directory's names as bytes, which are kept from one layout to the next.

ghost use Rattle.std.specs.Prelude.{◌≡◌, ℕ, ◌+◌, ◌-◌, ◌*◌, ◌<◌, ◌≤◌, ◌++◌, List, drop, if◌then◌else◌, length, take, vec_len, OnOk, OnErr};
ghost use Rattle.std.specs.List.{All, flat_map, remove};
ghost use Rattle.dir.specs.declared.entry.Entry.{Entry};
ghost use Rattle.dir.specs.Fronts.{named, plain};
ghost use Rattle.dir.specs.Size.{data_end, end_of_data, name_sizes, plain_sizes};

use crate::entry::{Dir, Entry};
use crate::item::Item;
use crate::size::{DataSize, plain_size};
use limits::DIRECTORY_NAMES;
use osta::Name;
use std::alloc::{AllocError, Global};

/// The size of the longest identifier that is not lengthened, in bytes: that of a name of 255 bytes.
const MOST_SIZE: usize = 296;

/// The identifiers of the first names of a directory as bytes, one after another, each for block number 0 and not
/// lengthened. The sums of these names are kept with them.
#[derive(Drop)]
pub struct Identifiers {
    pub(crate) bytes: Vec<u8>,
    /// How many identifiers there are.
    pub(crate) count: usize,
    /// The size of the data of a directory of these names.
    size: DataSize,
    /// How many of these names lead to directories.
    directories: u16,
}

impl Identifiers {
    ghost use Rattle.dir.specs.Directory.{directory_blocks, directory_count, directory_size, is_directory, of_name, IsDirectoryEntry};
    ghost use Rattle.ecma.specs.Blocks.{block_count};
    ghost use Rattle.dir.specs.Size.{end_bytes, next_end};
    ghost use Rattle.osta.specs.Compressed.{compressed};
    ghost use Rattle.dir.specs.Fronts.{IsIdentifierPrefix};

    /// No identifiers.
    pub fn new(alloc: Global) -> Identifiers
        ensures { (entries : List (List ℕ × Entry)) → IsIdentifierPrefix result entries }
    {
        Identifiers {
            bytes: Vec::new(alloc),
            count: 0,
            size: DataSize::new(),
            directories: 0,
        }
    }

    /// Drops all of them.
    pub fn clear(&mut self)
        ensures { (entries : List (List ℕ × Entry)) → IsIdentifierPrefix self.new entries }
    {
        self.bytes.clear();
        self.count = 0;
        self.size = DataSize::new();
        self.directories = 0;
    }

    /// Adds the identifiers of the directory's names that are missing, as far as there is memory. If the directory has
    /// more names than `DIRECTORY_NAMES`, it adds none and fails too.
    pub fn fill(&mut self, dir: &Dir) -> Result<(), AllocError>
        requires front { IsIdentifierPrefix self.old dir.now.entries.entries }
        ensures front { IsIdentifierPrefix self.new dir.now.entries.entries }
        ensures all { OnOk result (self.new.count ≡ length dir.now.entries.entries) }
        ensures onward { self.old.count ≤ self.new.count }
    {
        // The sums of more names might overflow.
        if dir.entries.len() > DIRECTORY_NAMES {
            return Err(AllocError);
        }
        for index in self.count..dir.entries.len() {
            let (name, entry) = dir.entries.get_index(index).unwrap();
            self.push(name, *entry)?;
        }
        Ok(())
    }

    /// Removes the identifier of the name at an index, if it is kept. The name itself is removed afterwards.
    pub fn remove(&mut self, dir: &Dir, index: usize)
        requires few { length dir.now.entries.entries ≤ DIRECTORY_NAMES }
        requires front { IsIdentifierPrefix self.old dir.now.entries.entries }
        requires there { index < length dir.now.entries.entries }
        ensures front { IsIdentifierPrefix self.new (remove dir.now.entries.entries index) }
        ensures within { index < self.old.count → self.new.count + 1 ≡ self.old.count }
        ensures after { self.old.count ≤ index → self.new.count ≡ self.old.count }
    {
        if index >= self.count {
            return;
        }
        let (_, entry) = dir.entries.get_index(index).unwrap();
        let (start, end) = place(dir, index);
        cut(&mut self.bytes, start, end);
        self.size = size_without(dir, index, self.count);
        self.directories -= u16::from(entry.kind.is_directory());
        self.count -= 1;
    }

    /// The size of the directory's data. It takes no loop if the identifiers of all names are kept.
    pub fn data_size(&self, dir: &Dir) -> DataSize
        requires few { length dir.now.entries.entries ≤ DIRECTORY_NAMES }
        requires front { IsIdentifierPrefix self.now dir.now.entries.entries }
        ensures size { end_bytes (end_of_data result) ≡ directory_size dir.now }
        ensures full { (end_of_data result).full < DIRECTORY_NAMES }
        ensures blocks { (first : ℕ) → length (directory_blocks dir.now first) ≡ block_count (directory_size dir.now) }
    {
        if self.count == dir.entries.len() {
            return self.size;
        }
        dir.data_size()
    }

    /// The size of the identifiers of all names of the directory, if none is lengthened. It takes no loop if all are
    /// kept.
    pub fn plain_size(&self, dir: &Dir) -> usize
        requires few { length dir.now.entries.entries ≤ DIRECTORY_NAMES }
        requires front { IsIdentifierPrefix self.now dir.now.entries.entries }
        ensures size { result ≡ plain_sizes (name_sizes dir.now.entries.entries) }
        ensures few { result ≤ 296 * DIRECTORY_NAMES }
        ensures proper { All IsDirectoryEntry dir.now.entries.entries }
    {
        if self.count == dir.entries.len() {
            return self.bytes.len();
        }
        dir.plain_size()
    }

    /// How many of the directory's names lead to directories. It takes no loop if the identifiers of all names are
    /// kept.
    pub fn directory_count(&self, dir: &Dir) -> u16
        requires few { length dir.now.entries.entries ≤ DIRECTORY_NAMES }
        requires front { IsIdentifierPrefix self.now dir.now.entries.entries }
        ensures value { result ≡ directory_count dir.now.entries.entries }
        ensures few { result ≤ DIRECTORY_NAMES }
    {
        if self.count == dir.entries.len() {
            return self.directories;
        }
        dir.directory_count()
    }

    /// Adds the identifier of a name after the others.
    fn push(&mut self, name: &Name, entry: Entry) -> Result<(), AllocError>
        requires few { self.old.count < DIRECTORY_NAMES }
        requires room { (end_of_data self.old.size).full < DIRECTORY_NAMES }
        requires within { self.old.directories ≤ self.old.count }
        ensures entry { IsDirectoryEntry (name.now, entry) }
        ensures bytes { OnOk result (self.new.bytes.items ≡ self.old.bytes.items ++ plain (of_name name.now entry)) }
        ensures count { OnOk result (self.new.count ≡ self.old.count + 1) }
        ensures size { OnOk result (end_of_data self.new.size ≡ next_end (end_of_data self.old.size) (length (compressed name.now))) }
        ensures directories { OnOk result (self.new.directories ≡ self.old.directories + (if is_directory entry.kind then 1 else 0)) }
        ensures unchanged { OnErr result (self.new.bytes.items ≡ self.old.bytes.items) }
        ensures sums { OnErr result ((self.new.count ≡ self.old.count) × (self.new.size ≡ self.old.size) × (self.new.directories ≡ self.old.directories)) }
    {
        let item = Item::of_name(name, entry);
        let mut room = [0; MOST_SIZE];
        let bytes = &mut room[..plain_size(item.name.len())];
        item.write(0, 0, bytes);
        self.bytes.extend_from_slice(bytes)?;
        self.count += 1;
        self.size.add(item.name.len());
        self.directories += u16::from(entry.kind.is_directory());
        Ok(())
    }
}

/// Where the identifier of the name at an index begins and ends among those of all names.
fn place(dir: &Dir, index: usize) -> (usize, usize)
    requires few { length dir.now.entries.entries ≤ DIRECTORY_NAMES }
    requires there { index < length dir.now.entries.entries }
    ensures order { result.0 ≤ result.1 }
    ensures start { result.0 ≡ length (flat_map plain (take index (named dir.now.entries.entries))) }
    ensures end { result.1 ≡ length (flat_map plain (take (index + 1) (named dir.now.entries.entries))) }
{
    let mut start = 0;
    for before in 0..index {
        start += size_at(dir, before);
    }
    (start, start + size_at(dir, index))
}

/// The size of the identifier of the name at an index, in bytes.
fn size_at(dir: &Dir, index: usize) -> usize
    requires { index < length dir.now.entries.entries }
    ensures value { length (flat_map plain (take (index + 1) (named dir.now.entries.entries))) ≡ length (flat_map plain (take index (named dir.now.entries.entries))) + result }
    ensures bound { result ≤ MOST_SIZE }
{
    let (name, entry) = dir.entries.get_index(index).unwrap();
    let item = Item::of_name(name, *entry);
    plain_size(item.name.len())
}

/// Removes the bytes from `start` to `end`.
fn cut(bytes: &mut Vec<u8>, start: usize, end: usize)
    requires order { start ≤ end }
    requires within { end ≤ vec_len bytes.old }
    ensures { bytes.new.items ≡ take start bytes.old.items ++ drop end bytes.old.items }
{
    let rest = bytes.len() - (end - start);
    bytes.copy_within(end.., start);
    bytes.truncate(rest);
}

/// The size of the data of a directory of the first `count` names without the one at `index`.
fn size_without(dir: &Dir, index: usize, count: usize) -> DataSize
    requires few { length dir.now.entries.entries ≤ DIRECTORY_NAMES }
    requires there { index < count }
    requires within { count ≤ length dir.now.entries.entries }
    ensures end { end_of_data result ≡ data_end (take (count - 1) (name_sizes (remove dir.now.entries.entries index))) }
    ensures full { (end_of_data result).full ≤ count - 1 - 1 }
{
    let mut size = DataSize::new();
    for left in 0..count - 1 {
        let at = if left < index { left } else { left + 1 };
        let (name, _) = dir.entries.get_index(at).unwrap();
        size.add(name.compressed().len());
    }
    size
}
