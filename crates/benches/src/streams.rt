//! Streams of frames in pieces, compared with a copy of the same bytes.

use crate::bytes::MEBIBYTE;
use crate::report::{Report, since, used};
use request::Frames;
use std::alloc::{AllocError, Global};
use std::io;
use std::io::{Error, ErrorKind};

/// How many bytes a frame has besides those of the file, if that has a name of one letter in the root.
const BESIDE: usize = 37;

/// Appends a frame of a mebibyte, which creates a file of these bytes by the request of this number.
fn put_large(bytes: &mut Vec<u8>, number: u32, file: &[u8]) -> Result<(), AllocError> {
    bytes.extend_from_slice(&(MEBIBYTE as u32 - 4).to_le_bytes())?;
    bytes.push(1)?;
    for part in [7, u64::from(number), 0] {
        bytes.extend_from_slice(&part.to_le_bytes())?;
    }
    bytes.extend_from_slice(&[1, 1, 0, b'a'])?;
    bytes.extend_from_slice(&((MEBIBYTE - BESIDE) as u32).to_le_bytes())?;
    bytes.extend_from_slice(file)
}

/// Requests, each in a frame of a mebibyte that creates a file.
fn large_frames(alloc: Global, count: u32) -> Result<Vec<u8>, AllocError> {
    let file = vec![in alloc; 7u8; MEBIBYTE - BESIDE]?;
    let mut bytes = Vec::new(alloc);
    for number in 0..count {
        put_large(&mut bytes, number, &file)?;
    }
    Ok(bytes)
}

/// Queries that list the root.
fn small_frames(alloc: Global, count: u32) -> Result<Vec<u8>, AllocError> {
    let mut bytes = Vec::new(alloc);
    for _ in 0..count {
        bytes.extend_from_slice(&[2, 0, 0, 0, 0x11, 0])?;
    }
    Ok(bytes)
}

/// Takes the messages that are complete, and returns how many.
fn taken(frames: &mut Frames) -> u32 {
    let mut count = 0u32;
    for _ in 0..u32::MAX {
        if frames.first().is_none() {
            break;
        }
        frames.skip();
        count = count.wrapping_add(1);
    }
    count
}

/// How many messages a stream has, if it is fed in pieces.
fn messages(alloc: Global, stream: &[u8], piece: usize) -> Result<u32, AllocError> {
    let mut frames = Frames::new(alloc);
    let mut count = 0u32;
    for part in stream.chunks(piece.max(1)) {
        frames.feed(part)?;
        count = count.wrapping_add(taken(&mut frames));
    }
    Ok(count)
}

/// How many messages a stream has, if it is read in pieces.
fn messages_read(alloc: Global, stream: &[u8], piece: usize) -> io::Result<u32> {
    let mut frames = Frames::new(alloc);
    let mut rest = stream;
    let mut count = 0u32;
    for _ in 0..=stream.len() {
        match frames.read_from(&mut rest, piece.max(1)) {
            Ok(0) => break,
            Ok(_) => count = count.wrapping_add(taken(&mut frames)),
            Err(_) => return Err(Error::from(ErrorKind::OutOfMemory)),
        }
    }
    Ok(count)
}

/// The messages of a stream in pieces of each size, compared with a copy to new memory.
fn in_pieces(rt: &HostRuntime, report: Report, name: &str, stream: &[u8]) -> io::Result<()> {
    let alloc = rt.alloc();
    let start = used(rt);
    let copied = Vec::from_slice(alloc, stream)?.len();
    let copy_time = since(rt, start);
    print!(rt; "{name}: {copied} bytes copied to new memory")?;
    report.took(rt, copy_time)?;
    for piece in [1, 65_536, stream.len()] {
        let start = used(rt);
        let count = messages(alloc, stream, piece)?;
        let taken = since(rt, start);
        print!(rt; "{name}: {count} messages in pieces of {piece} bytes")?;
        report.took_beside(rt, taken, copy_time)?;
    }
    let start = used(rt);
    let count = messages_read(alloc, stream, 65_536)?;
    let taken = since(rt, start);
    print!(rt; "{name}: {count} messages read in pieces of 65536 bytes")?;
    report.took_beside(rt, taken, copy_time)
}

/// `count` frames of a mebibyte, at most 100, and 10,000 times as many queries of 6 bytes.
pub fn measure(rt: &HostRuntime, report: Report, count: u32) -> io::Result<()> {
    let count = count.min(100);
    in_pieces(rt, report, "large", &large_frames(rt.alloc(), count)?)?;
    in_pieces(
        rt,
        report,
        "small",
        &small_frames(rt.alloc(), count * 10_000)?,
    )
}
