//! Clear starts and tables, compared with copies of the same bytes.

ghost use Rattle.vat.specs.Table.{view, FitsTable};

use crate::bytes::{MEBIBYTE, ordinary};
use crate::report::{Report, since, used, wrong};
use ecma::Timestamp;
use icb::{FileEntry, Kind, Place, encode_fe};
use std::alloc::{AllocError, Global};
use std::io;
use vat::{Vat, clear_start, decode_vat, encode_vat};

/// The block number of the VAT ICB.
const ICB: u32 = 40_000;

/// 512 VAT ICBs, for every second block number from 5 on: at each start, one of them is at its own number.
fn imitations(alloc: Global) -> Result<Vec<u8>, AllocError> {
    let mut bytes = Vec::new(alloc);
    let Some(moment) = Timestamp::of(0) else {
        return Ok(bytes);
    };
    for i in 0..512u32 {
        let entry = FileEntry {
            kind: Kind::Vat,
            moment,
            links: 0,
            unique: 0,
            size: 204,
            place: Place::Extent(3),
        };
        bytes.extend_from_slice(&encode_fe(&entry, 5 + 2 * i))?;
    }
    Ok(bytes)
}

/// The size of an implementation use with 64 records of four replies each, in bytes.
const IMPLEMENTATION_USE: u16 = 44 + 64 * 48;

/// The label's dstring.
const LABEL: [&[u8]; 3] = [b"\x08DISC", &[0; 122], &[5]];

/// The revisions, and the implementation use up to its numbers: its identifier, its version, and its count of records.
const REVISIONS_AND_IDENTIFIER: [&[u8]; 4] = [
    &[1, 2, 1, 2, 1, 2, 0, 0],
    b"\x00*udfburn sessions",
    &[0; 14],
    &[2, 0, 64, 0],
];

/// Appends each of the pieces.
fn put_all(bytes: &mut Vec<u8>, pieces: &[&[u8]]) -> Result<(), AllocError> {
    for piece in pieces {
        bytes.extend_from_slice(piece)?;
    }
    Ok(())
}

/// Appends each of the numbers.
fn put_numbers(bytes: &mut Vec<u8>, numbers: &[u32]) -> Result<(), AllocError> {
    for number in numbers {
        bytes.extend_from_slice(&number.to_le_bytes())?;
    }
    Ok(())
}

/// Appends the record of a client, with four replies.
fn put_record(bytes: &mut Vec<u8>, client: u64) -> Result<(), AllocError> {
    bytes.extend_from_slice(&client.to_le_bytes())?;
    bytes.extend_from_slice(&4u64.to_le_bytes())?;
    put_numbers(bytes, &[0, 200, 0, 199, 0, 198, 0, 197])
}

/// A table with 64 records of four replies each and 4,097 entries, all of them used.
fn table(alloc: Global) -> Result<Vec<u8>, AllocError> {
    let mut bytes = Vec::new(alloc);
    bytes.extend_from_slice(&(152 + IMPLEMENTATION_USE).to_le_bytes())?;
    bytes.extend_from_slice(&IMPLEMENTATION_USE.to_le_bytes())?;
    put_all(&mut bytes, &LABEL)?;
    put_numbers(&mut bytes, &[4, 4_000, 96])?;
    put_all(&mut bytes, &REVISIONS_AND_IDENTIFIER)?;
    put_numbers(&mut bytes, &[5_000, 300])?;
    for client in 1..65u64 {
        put_record(&mut bytes, client)?;
    }
    for i in 0..4_097u32 {
        bytes.extend_from_slice(&(7 * i).to_le_bytes())?;
    }
    Ok(bytes)
}

/// How many bytes are copied in all.
fn copy_often(alloc: Global, bytes: &[u8], rounds: u32) -> io::Result<usize> {
    let mut count = 0usize;
    for _ in 0..rounds {
        count = count.saturating_add(Vec::from_slice(alloc, bytes)?.len());
    }
    Ok(count)
}

/// How many blocks the clear starts are after the first place, in all.
fn start_often(bytes: &[u8], rounds: u32) -> u64 {
    let mut count = 0u64;
    if bytes.len() <= MEBIBYTE {
        for _ in 0..rounds {
            count = count.saturating_add(u64::from(clear_start(bytes, 5) - 5));
        }
    }
    count
}

/// The clear start of some bytes, `rounds` times, and a copy of them as often.
fn starts(
    rt: &HostRuntime,
    report: Report,
    name: &str,
    bytes: &[u8],
    rounds: u32,
) -> io::Result<()> {
    let alloc = rt.alloc();
    let start = used(rt);
    let found = start_often(bytes, rounds);
    let start_time = since(rt, start);
    let start = used(rt);
    let copied = copy_often(alloc, bytes, rounds)?;
    let copy_time = since(rt, start);
    print!(rt; "{name} x{rounds}: {found} blocks after the first, {copied} bytes copied")?;
    report.took_beside(rt, start_time, copy_time)
}

/// How many entries are read in all.
fn read_often(alloc: Global, bytes: &[u8], rounds: u32) -> io::Result<usize> {
    let mut count = 0usize;
    for _ in 0..rounds {
        match decode_vat(alloc, bytes, ICB) {
            Ok(read) => count = count.saturating_add(read.entries.len()),
            Err(_) => return Err(wrong()),
        }
    }
    Ok(count)
}

/// How many bytes are written in all.
fn write_often(alloc: Global, vat: &Vat, rounds: u32) -> io::Result<usize>
    requires { FitsTable (view vat.now) }
{
    let mut count = 0usize;
    for _ in 0..rounds {
        count = count.saturating_add(encode_vat(alloc, vat)?.len());
    }
    Ok(count)
}

/// The processor times for reading a table, for writing one, and for copying its bytes.
#[derive(Clone, Copy)]
struct Times {
    read: u128,
    write: u128,
    copy: u128,
}

/// Reads and writes the table `rounds` times, and copies its bytes as often. The counts are those of entries read, and
/// of bytes written and copied.
fn timed(rt: &HostRuntime, bytes: &[u8], vat: &Vat, rounds: u32) -> io::Result<(Times, [usize; 3])>
    requires { FitsTable (view vat.now) }
{
    let begun = used(rt);
    let read = read_often(rt.alloc(), bytes, rounds)?;
    let done = used(rt);
    let written = write_often(rt.alloc(), vat, rounds)?;
    let written_at = used(rt);
    let copied = copy_often(rt.alloc(), bytes, rounds)?;
    let times = Times {
        read: done.saturating_sub(begun),
        write: written_at.saturating_sub(done),
        copy: since(rt, written_at),
    };
    Ok((times, [read, written, copied]))
}

/// Reads and writes a table `rounds` times, copies its bytes as often, and prints both.
fn tables(rt: &HostRuntime, report: Report, rounds: u32) -> io::Result<()> {
    let bytes = table(rt.alloc())?;
    let Ok(vat) = decode_vat(rt.alloc(), &bytes, ICB) else {
        return Err(wrong());
    };
    let (times, [read, written, copied]) = timed(rt, &bytes, &vat, rounds)?;
    print!(rt; "table x{rounds}: {read} entries read")?;
    report.took_beside(rt, times.read, times.copy)?;
    print!(rt; "table x{rounds}: {written} bytes written, {copied} copied")?;
    report.took_beside(rt, times.write, times.copy)
}

/// A mebibyte in which a block imitates at each start, `count` times; an ordinary one, and a table, ten times as often.
pub fn measure(rt: &HostRuntime, report: Report, count: u32) -> io::Result<()> {
    let often = count.saturating_mul(10);
    starts(rt, report, "ordinary", &ordinary(rt.alloc())?, often)?;
    starts(rt, report, "imitations", &imitations(rt.alloc())?, count)?;
    tables(rt, report, often)
}
