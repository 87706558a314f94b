//! Directories (ECMA-167 4/14.4).

use crate::compare::{NO_QUESTION, blocks_of, fault, words_of};
use crate::texts::show_text;
use crate::trouble::Trouble;
use dir::{DataSize, Dir, Entry, Kind, Lay, lay, read_dir};
use ecma::{Block, crc};
use indexmap::IndexMap;
use limits::{BLOCK_SIZE, DIRECTORY_NAMES, PARTITION_BLOCKS};
use osta::Name;
use std::alloc::Global;
use std::fmt::Write;
use words::number;

/// The directory whose data begin at the block number of the first word, with the size of the second.
pub fn directory(alloc: Global, bytes: &[u8], words: &[&str]) -> Result<String, Trouble> {
    let [first, size] = words else {
        return Err(NO_QUESTION);
    };
    directory_at(alloc, bytes, number(first)?, number(size)?)
}

fn directory_at(alloc: Global, bytes: &[u8], first: u32, size: u32) -> Result<String, Trouble> {
    let blocks = blocks_of(alloc, bytes)?;
    match read(alloc, &blocks, first, size)? {
        Ok(dir) => told_if_laid(alloc, &dir, first, size, &blocks),
        Err(number) => fault(alloc, number),
    }
}

/// The words of a directory, which must be laid as these blocks.
fn told_if_laid(
    alloc: Global,
    dir: &Dir,
    first: u32,
    size: u32,
    blocks: &[Block],
) -> Result<String, Trouble> {
    if size_of(dir) != Some(size) || !lays(alloc, dir, first, blocks)? {
        return words_of(alloc, "laid otherwise");
    }
    told(alloc, dir)
}

fn told(alloc: Global, dir: &Dir) -> Result<String, Trouble> {
    let mut text = format!(in alloc; "parent {}", dir.parent)?;
    for (name, entry) in &dir.entries {
        tell_entry(name, entry, &mut text)?;
    }
    Ok(text)
}

fn tell_entry(name: &Name, entry: &Entry, out: &mut String) -> Result<(), Trouble> {
    let kind = match entry.kind {
        Kind::File => "file",
        Kind::Directory => "directory",
    };
    write!(out, " {kind} {} {} ", entry.virtual_address, entry.unique)?;
    show_text(name.as_str(), out)
}

/// The directory, or the number of its fault.
fn read(
    alloc: Global,
    blocks: &[Block],
    first: u32,
    size: u32,
) -> Result<Result<Dir, u8>, Trouble> {
    if size == 0
        || first > PARTITION_BLOCKS
        || blocks.len() != (size as usize + BLOCK_SIZE - 1) / BLOCK_SIZE
    {
        return Err(Trouble::Line("no data of a directory is so long"));
    }
    match read_dir(alloc, blocks, size, first) {
        Ok(dir) => Ok(Ok(dir)),
        Err(fault) => Ok(Err(fault.number())),
    }
}

/// The size of the data of a directory, from its names alone.
fn size_of(dir: &Dir) -> Option<u32> {
    let mut sum = DataSize::new();
    for (name, _) in &dir.entries {
        if sum.bytes() > 1_000_000 || name.compressed().len() > 255 {
            return None;
        }
        sum.add(name.compressed().len());
    }
    u32::try_from(sum.bytes()).ok()
}

/// Whether a directory is laid as these blocks, whole and block by block.
fn lays(alloc: Global, dir: &Dir, first: u32, blocks: &[Block]) -> Result<bool, Trouble> {
    if dir.entries.len() > DIRECTORY_NAMES || first > PARTITION_BLOCKS {
        return Ok(false);
    }
    let laid = lay(alloc, dir, first)?;
    let mut left = Lay::new(dir, first);
    for block in blocks {
        if left.next_block() != Some(*block) {
            return Ok(false);
        }
    }
    Ok(laid.as_slice() == blocks && left.next_block().is_none())
}

/// The size of the data of a directory of files, and the CRC of its blocks. The words are the count of its names, the
/// least length of each, and the number of the first block. Each name is letters `x` and then its number, from 0 on.
pub fn numbered(alloc: Global, words: &[&str]) -> Result<String, Trouble> {
    let [count, letters, first] = words else {
        return Err(NO_QUESTION);
    };
    let dir = files(alloc, number(count)?, number(letters)?)?;
    laid(alloc, &dir, number(first)?)
}

fn laid(alloc: Global, dir: &Dir, first: u32) -> Result<String, Trouble> {
    if dir.entries.len() > DIRECTORY_NAMES || first > PARTITION_BLOCKS {
        return Err(Trouble::Line("no such directory"));
    }
    let blocks = lay(alloc, dir, first)?;
    let Some(size) = size_of(dir) else {
        return words_of(alloc, "no size");
    };
    if !lays(alloc, dir, first, &blocks)? {
        return words_of(alloc, "laid otherwise");
    }
    if !reads(alloc, dir, first, size, &blocks)? {
        return words_of(alloc, "read otherwise");
    }
    let check = crc(blocks.as_flattened());
    Ok(format!(in alloc; "size {size} crc {check:04X}")?)
}

/// Whether a directory is read from these blocks.
fn reads(
    alloc: Global,
    dir: &Dir,
    first: u32,
    size: u32,
    blocks: &[Block],
) -> Result<bool, Trouble> {
    match read(alloc, blocks, first, size)? {
        Ok(again) => Ok(are_alike(&again, dir)),
        Err(_) => Ok(false),
    }
}

fn files(alloc: Global, count: u32, letters: usize) -> Result<Dir, Trouble> {
    let mut dir = Dir {
        parent: 1,
        entries: IndexMap::new(alloc),
    };
    let entry = Entry {
        kind: Kind::File,
        virtual_address: 2,
        unique: 16,
    };
    for number in 0..count.min(512) {
        dir.entries.insert(name_of(alloc, number, letters)?, entry)?;
    }
    Ok(dir)
}

fn name_of(alloc: Global, number: u32, letters: usize) -> Result<Name, Trouble> {
    let digits = format!(in alloc; "{number}")?;
    let mut text = String::new(alloc);
    for _ in digits.len()..letters {
        text.push('x')?;
    }
    text.push_str(&digits)?;
    match Name::read(alloc, &text) {
        Ok(name) => Ok(name),
        Err(_) => Err(Trouble::Line("no such name")),
    }
}

fn are_alike(one: &Dir, other: &Dir) -> bool {
    if one.parent != other.parent || one.entries.len() != other.entries.len() {
        return false;
    }
    for (left, right) in one.entries.iter().zip(other.entries.iter()) {
        if left.0 != right.0 || left.1 != right.1 {
            return false;
        }
    }
    true
}
