//! Media that are made block by block.

ghost use Rattle.std.specs.Prelude.{◌<◌, ◌≤◌};

use dir::{Dir, Entry, lay};
use drive::{Drive, MemDrive};
use ecma::{Block, Timestamp};
use icb::{FileEntry, FileSet, Place, encode_fe, encode_fsd};
use indexmap::IndexMap;
use limits::PARTITION_START;
use osta::{Label, Name};
use recover::{State, StoreFault, state_at};
use std::alloc::{AllocError, Global};
use std::process::Abort;
use std::test::Fail;
use volume::front_blocks;

pub(crate) const CAPACITY: u32 = 3_000;

pub(crate) fn label() -> Result<Label, Fail> {
    Ok(Label::read("DISC")?)
}

pub(crate) fn moment() -> Result<Timestamp, Fail> {
    Ok(Timestamp::of(0).ok_or("the first moment")?)
}

/// Adds a block after the others.
pub(crate) fn add(drive: &mut MemDrive, block: &Block) -> Result<(), Fail> {
    let next = drive.next()?;
    if next >= drive.capacity() {
        return Err(Fail::from("a full drive"));
    }
    drive.write(next, &[*block])?;
    Ok(())
}

/// The entry of a root without directories.
pub(crate) fn root_entry(size: u32, first: u32) -> Result<Block, Fail>
    requires some { 0 < size }
    requires small { size ≤ 65_536 }
    requires low { first ≤ 1_000 }
{
    let entry = FileEntry {
        kind: icb::Kind::Directory,
        moment: moment()?,
        links: 1,
        unique: 0,
        size,
        place: Place::Extent(first),
    };
    Ok(encode_fe(&entry, 1))
}

/// The VAT ICB, for its block number.
pub(crate) fn entry_of_table(size: u32, first: u32, number: u32) -> Result<Block, Fail>
    requires some { 0 < size }
    requires small { size ≤ 65_536 }
    requires low { first ≤ 1_000 }
{
    let entry = FileEntry {
        kind: icb::Kind::Vat,
        moment: moment()?,
        links: 0,
        unique: 0,
        size,
        place: Place::Extent(first),
    };
    Ok(encode_fe(&entry, number))
}

/// The numbers of a table without records.
#[derive(Clone, Copy)]
pub(crate) struct Numbers {
    pub previous: u32,
    pub files: u32,
    pub directories: u32,
    pub next_unique: u32,
    pub commits: u32,
}

/// The numbers of a format.
pub(crate) const FORMATTED: Numbers = Numbers {
    previous: u32::MAX,
    files: 0,
    directories: 1,
    next_unique: 16,
    commits: 0,
};

/// The beginning of the data of a table: the lengths of its header and of its implementation use, and the label's
/// dstring.
const LENGTHS_AND_LABEL: [&[u8]; 4] = [&[196, 0, 44, 0], b"\x08DISC", &[0; 122], &[5]];

/// The revisions, and the implementation use up to its numbers: its identifier, its version, and its count of records,
/// 0.
const REVISIONS_AND_IDENTIFIER: [&[u8]; 4] = [
    &[1, 2, 1, 2, 1, 2, 0, 0],
    b"\x00*udfburn sessions",
    &[0; 14],
    &[2, 0, 0, 0],
];

/// Appends each of the pieces.
fn put_all(bytes: &mut Vec<u8>, pieces: &[&[u8]]) -> Result<(), AllocError> {
    for piece in pieces {
        bytes.extend_from_slice(piece)?;
    }
    Ok(())
}

/// Appends each of the numbers.
fn put_numbers(bytes: &mut Vec<u8>, numbers: &[u32]) -> Result<(), AllocError> {
    for number in numbers {
        bytes.extend_from_slice(&number.to_le_bytes())?;
    }
    Ok(())
}

/// The block of a table's data without records.
pub(crate) fn table_block(alloc: Global, numbers: Numbers, entries: &[u32]) -> Result<Block, Fail> {
    let mut bytes = Vec::new(alloc);
    put_all(&mut bytes, &LENGTHS_AND_LABEL)?;
    put_numbers(
        &mut bytes,
        &[numbers.previous, numbers.files, numbers.directories],
    )?;
    put_all(&mut bytes, &REVISIONS_AND_IDENTIFIER)?;
    put_numbers(&mut bytes, &[numbers.next_unique, numbers.commits])?;
    put_numbers(&mut bytes, entries)?;
    Ok(block_of(&bytes))
}

/// The block that begins with the first 2,048 of these bytes, with zeros after them.
pub(crate) fn block_of(bytes: &[u8]) -> Block {
    let size = bytes.len().min(2048);
    let mut block = [0; 2048];
    block[..size].copy_from_slice(&bytes[..size]);
    block
}

/// The file set of the format.
pub(crate) fn file_set() -> Result<Block, Fail> {
    let set = FileSet {
        label: label()?,
        moment: moment()?,
    };
    Ok(encode_fsd(&set))
}

/// A name in a directory, and its entry: its kind, its virtual address and its unique ID.
pub(crate) type Item = (&'static str, dir::Kind, u32, u32);

/// The one block of a directory's data.
pub(crate) fn directory(
    rt: &impl Abort,
    alloc: Global,
    first: u32,
    parent: u32,
    items: &[Item],
) -> Result<Block, Fail>
    requires { first ≤ 1_000 }
{
    let mut dir = Dir {
        parent,
        entries: IndexMap::new(alloc),
    };
    for item in items {
        let entry = Entry {
            kind: item.1,
            virtual_address: item.2,
            unique: item.3,
        };
        dir.entries.insert(Name::read(alloc, item.0)?, entry)?;
    }
    assert!(rt; dir.entries.len() <= 512);
    let blocks = lay(alloc, &dir, first)?;
    assert!(rt; blocks.len() == 1);
    Ok(blocks[0])
}

/// The entry of a file of five bytes.
pub(crate) fn file(unique: u64, at: u32) -> Result<Block, Fail> {
    let entry = FileEntry {
        kind: icb::Kind::File,
        moment: moment()?,
        links: 1,
        unique,
        size: 5,
        place: Place::Inside(b"hello"),
    };
    Ok(encode_fe(&entry, at))
}

/// The blocks of a format after the volume header, at the addresses 257 to 261.
pub(crate) fn formatted(rt: &impl Abort, alloc: Global) -> Result<[Block; 5], Fail> {
    Ok([
        file_set()?,
        directory(rt, alloc, 1, 1, &[])?,
        root_entry(40, 1)?,
        table_block(alloc, FORMATTED, &[0, 2])?,
        entry_of_table(204, 3, 4)?,
    ])
}

/// The table of a volume with one file in its root.
pub(crate) const USED: Numbers = Numbers {
    previous: 4,
    files: 1,
    directories: 1,
    next_unique: 17,
    commits: 1,
};

/// What a commit that makes a file `a` in the root writes, at the addresses 262 to 266.
pub(crate) fn created(rt: &impl Abort, alloc: Global) -> Result<[Block; 5], Fail> {
    Ok([
        file(16, 2)?,
        directory(rt, alloc, 6, 1, &[("a", dir::Kind::File, 2, 16)])?,
        root_entry(80, 6)?,
        table_block(alloc, USED, &[0, 7, 5])?,
        entry_of_table(208, 8, 9)?,
    ])
}

/// The volume of 3,000 blocks after a format and these blocks.
pub(crate) fn volume_after(
    rt: &impl Abort,
    alloc: Global,
    blocks: &[Block],
) -> Result<MemDrive, Fail> {
    let mut drive = MemDrive::new(alloc, CAPACITY, Vec::new(alloc));
    for block in &front_blocks(alloc, &label()?, moment()?, CAPACITY)? {
        add(&mut drive, block)?;
    }
    for block in &formatted(rt, alloc)? {
        add(&mut drive, block)?;
    }
    for block in blocks {
        add(&mut drive, block)?;
    }
    Ok(drive)
}

/// The state at an address that must be there.
pub(crate) fn state_of(
    alloc: Global,
    drive: &mut MemDrive,
    at: u32,
) -> Result<Result<State, StoreFault>, Fail> {
    let next = drive.next()?;
    if at < PARTITION_START || next <= at {
        return Err(Fail::from("no such block"));
    }
    Ok(state_at(alloc, drive, at))
}

/// The chain of a format, of a commit that makes a file, and of one that writes only a table with this count of
/// commits.
pub(crate) fn chain(rt: &impl Abort, alloc: Global, commits: u32) -> Result<MemDrive, Fail> {
    let mut drive = volume_after(rt, alloc, &created(rt, alloc)?)?;
    let numbers = Numbers {
        previous: 9,
        commits,
        ..USED
    };
    add(&mut drive, &table_block(alloc, numbers, &[0, 7, 5])?)?;
    add(&mut drive, &entry_of_table(208, 10, 11)?)?;
    Ok(drive)
}
