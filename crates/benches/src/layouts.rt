//! Directories of 512 names, laid and read, compared with a copy of the same blocks.

use crate::report::{Report, since, used, wrong};
use dir::{Dir, Entry, Kind, lay, read_dir};
use ecma::Block;
use indexmap::IndexMap;
use limits::DIRECTORY_NAMES;
use osta::Name;
use std::alloc::Global;
use std::fmt::Write;
use std::io;

/// Where the directory's data begins.
const FIRST: u32 = 6;

/// A name of at least `letters` letters, which ends in a number.
fn name_of(alloc: Global, number: u32, letters: usize) -> io::Result<Name> {
    let mut text = String::new(alloc);
    for _ in 3..letters {
        text.push('x')?;
    }
    write!(text, "{number:03}")?;
    Name::read(alloc, text.as_str()).map_err(|_| wrong())
}

/// A directory of 512 files, whose names have at least `letters` letters.
fn many(alloc: Global, letters: usize) -> io::Result<Dir> {
    let mut entries = IndexMap::new(alloc);
    for number in 0..512u32 {
        let entry = Entry {
            kind: Kind::File,
            virtual_address: number,
            unique: number,
        };
        entries.insert(name_of(alloc, number, letters)?, entry)?;
    }
    Ok(Dir { parent: 1, entries })
}

/// How many blocks are laid in all.
fn lay_often(alloc: Global, dir: &Dir, rounds: u32) -> io::Result<usize> {
    let mut count = 0usize;
    for _ in 0..rounds {
        if dir.entries.len() <= DIRECTORY_NAMES {
            count = count.saturating_add(lay(alloc, dir, FIRST)?.len());
        }
    }
    Ok(count)
}

/// How many blocks are copied in all.
fn copy_often(alloc: Global, blocks: &[Block], rounds: u32) -> io::Result<usize> {
    let mut count = 0usize;
    for _ in 0..rounds {
        let copy: Vec<Block> = Vec::from_slice(alloc, blocks)?;
        count = count.saturating_add(copy.len());
    }
    Ok(count)
}

/// How many names are read in all.
fn read_often(alloc: Global, blocks: &[Block], size: u32, rounds: u32) -> io::Result<usize> {
    let mut count = 0usize;
    if size == 0 || blocks.len() != (size as usize + 2047) / 2048 {
        return Err(wrong());
    }
    for _ in 0..rounds {
        match read_dir(alloc, blocks, size, FIRST) {
            Ok(read) => count = count.saturating_add(read.entries.len()),
            Err(_) => return Err(wrong()),
        }
    }
    Ok(count)
}

/// How much was done, and the processor time that it took.
#[derive(Clone, Copy)]
struct Timed {
    count: usize,
    taken: u128,
}

impl Timed {
    /// The time of work that began at `start` and has just ended.
    fn since(rt: &HostRuntime, start: u128, count: usize) -> Timed {
        Timed {
            count,
            taken: since(rt, start),
        }
    }
}

/// Copies and reads the blocks of such a directory, which were laid before, and whose data have `size` bytes.
fn of_blocks(
    rt: &HostRuntime,
    report: Report,
    blocks: &[Block],
    laid: Timed,
    size: u32,
    rounds: u32,
) -> io::Result<()> {
    let start = used(rt);
    let copied = copy_often(rt.alloc(), blocks, rounds)?;
    let copied = Timed::since(rt, start, copied);
    let start = used(rt);
    let read = read_often(rt.alloc(), blocks, size, rounds)?;
    let read = Timed::since(rt, start, read);
    print!(rt;
        "{size} bytes x{rounds}: {} blocks laid, {} copied",
        laid.count, copied.count
    )?;
    report.took_beside(rt, laid.taken, copied.taken)?;
    print!(rt; "{size} bytes x{rounds}: {} names read", read.count)?;
    report.took_beside(rt, read.taken, copied.taken)
}

/// Lays, copies and reads such a directory, whose data have `size` bytes.
fn of_letters(
    rt: &HostRuntime,
    report: Report,
    letters: usize,
    size: u32,
    rounds: u32,
) -> io::Result<()> {
    let dir = many(rt.alloc(), letters)?;
    let start = used(rt);
    let laid = lay_often(rt.alloc(), &dir, rounds)?;
    let laid = Timed::since(rt, start, laid);
    if dir.entries.len() > DIRECTORY_NAMES {
        return Err(wrong());
    }
    let blocks = lay(rt.alloc(), &dir, FIRST)?;
    of_blocks(rt, report, &blocks, laid, size, rounds)
}

/// Names whose spellings take 4 and 255 bytes, each directory `count` times.
pub fn measure(rt: &HostRuntime, report: Report, count: u32) -> io::Result<()> {
    of_letters(rt, report, 3, 23_320, count)?;
    of_letters(rt, report, 254, 174_672, count)
}
