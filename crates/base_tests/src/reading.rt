//! Streams that are read into a reader of frames, from readers that give less than was asked for, are interrupted, or
//! fail.

use crate::messages::{CREATE, OVERLONG, is_silent};
use request::{FeedFault, Frames, Message, Op, Query};
use std::alloc::{AllocError, Global};
use std::io;
use std::io::{Error, ErrorKind, Read};
use std::process::Abort;
use std::test::Fail;

/// What a reader does at the next read.
#[derive(Clone, Copy)]
enum Turn {
    Interrupted,
    Fails,
    Gives,
}

/// A reader that gives at most `size` bytes at once. After each read that gives some, the next one is interrupted.
#[derive(Drop)]
struct Halting<'a> {
    bytes: &'a [u8],
    size: usize,
    turn: Turn,
}

impl Read for Halting<'_> {
    fn read(&mut self, buf: &mut [u8]) -> io::Result<usize> {
        let turn = self.turn;
        match turn {
            Turn::Fails => Err(Error::from(ErrorKind::Other)),
            Turn::Interrupted => {
                self.turn = Turn::Gives;
                Err(Error::from(ErrorKind::Interrupted))
            }
            Turn::Gives => {
                self.turn = Turn::Interrupted;
                let count = self.bytes.len().min(self.size).min(buf.len());
                let (piece, rest) = self.bytes.split_at(count);
                buf[..count].copy_from_slice(piece);
                self.bytes = rest;
                Ok(count)
            }
        }
    }
}

fn reader_of(bytes: &[u8], size: usize) -> Halting<'_> {
    Halting {
        bytes,
        size,
        turn: Turn::Gives,
    }
}

/// A frame that creates a file of `count` bytes, with different bytes next to each other.
fn long_create(alloc: Global, count: u16) -> Result<Vec<u8>, AllocError> {
    let (head, _) = CREATE.as_slice().split_at(33);
    let (_, fields) = head.split_at(4);
    let mut frame = Vec::new(alloc);
    frame.extend_from_slice(&(33 + u32::from(count)).to_le_bytes())?;
    frame.extend_from_slice(fields)?;
    frame.extend_from_slice(&u32::from(count).to_le_bytes())?;
    for number in 0..count {
        frame.push((number % 251) as u8)?;
    }
    Ok(frame)
}

/// Frames with a create, a query, and a payload that is refused.
const THREE: [&[u8]; 3] = [&CREATE, &[2, 0, 0, 0, 0x11, 0], &[1, 0, 0, 0, 9]];

fn put_all(bytes: &mut Vec<u8>, pieces: &[&[u8]]) -> Result<(), AllocError> {
    for piece in pieces {
        bytes.extend_from_slice(piece)?;
    }
    Ok(())
}

/// Creates, queries and payloads that are refused, a frame that is longer than a piece, and at the end half a frame.
fn stream(alloc: Global) -> Result<Vec<u8>, AllocError> {
    let (half, _) = CREATE.as_slice().split_at(20);
    let mut bytes = Vec::new(alloc);
    for _ in 0..3u8 {
        put_all(&mut bytes, &THREE)?;
    }
    bytes.extend_from_slice(&long_create(alloc, 65_530)?)?;
    put_all(&mut bytes, &[&CREATE, &[0, 0, 0, 0]])?;
    bytes.extend_from_slice(half)?;
    Ok(bytes)
}

/// What a message is, as far as these tests tell messages apart.
#[derive(Clone, Copy, Debug, PartialEq, Eq)]
enum Told {
    /// A create of a file with `hello`.
    Hello,
    /// A create of a file with so many bytes of `long_create`.
    Long(usize),
    /// A query for the names of the root.
    List,
    /// A payload that is refused, with the number of the cause.
    Refused(u16),
    Other,
}

/// The messages of `stream`.
const TOLD: [Told; 12] = [
    Told::Hello,
    Told::List,
    Told::Refused(52),
    Told::Hello,
    Told::List,
    Told::Refused(52),
    Told::Hello,
    Told::List,
    Told::Refused(52),
    Told::Long(65_530),
    Told::Hello,
    Told::Refused(53),
];

/// What a create with these bytes is. Of a long one the first byte, one in the middle and the last one are looked at: a byte
/// that was lost or came twice moves them.
fn created(bytes: &[u8]) -> Told {
    if bytes == b"hello".as_slice() {
        return Told::Hello;
    }
    let is_long = bytes.get(0) == Some(&0)
        && bytes.get(30_000) == Some(&131)
        && bytes.get(65_529) == Some(&18);
    if is_long {
        Told::Long(bytes.len())
    } else {
        Told::Other
    }
}

fn told_by(message: &Message<'_>) -> Told {
    match message {
        Message::Request(request) => match &request.op {
            Op::Create { bytes, .. } => created(bytes.as_slice()),
            _ => Told::Other,
        },
        Message::Query(Query::List(path)) if path.names().is_empty() => Told::List,
        Message::Malformed(cause) => Told::Refused(cause.number()),
        _ => Told::Other,
    }
}

/// A reader of frames, and the complete messages so far.
#[derive(Drop)]
struct Listener {
    frames: Frames,
    told: Vec<Told>,
}

impl Listener {
    fn new(alloc: Global) -> Listener {
        Listener {
            frames: Frames::new(alloc),
            told: Vec::new(alloc),
        }
    }

    /// Takes the messages that are complete.
    fn take(&mut self) -> Result<(), AllocError> {
        for _ in 0..u32::MAX {
            let Some(message) = self.frames.first() else {
                break;
            };
            let told = told_by(&message);
            drop(message);
            self.frames.skip();
            self.told.push(told)?;
        }
        Ok(())
    }

    /// Takes bytes in one piece.
    fn feed(&mut self, bytes: &[u8]) -> Result<(), AllocError> {
        self.frames.feed(bytes)?;
        self.take()
    }

    /// Reads bytes to their end. The reader gives at most `size` at once, and is asked for `most`. Returns how many
    /// there were.
    fn read(&mut self, bytes: &[u8], size: usize, most: usize) -> Result<usize, Fail> {
        let mut reader = reader_of(bytes, size);
        let mut sum = 0usize;
        for _ in 0..u32::MAX {
            match self.frames.read_from(&mut reader, most.max(1)) {
                Ok(0) => break,
                Ok(count) => sum = sum.wrapping_add(count),
                Err(_) => return Err(Fail::from("a read")),
            }
            self.take()?;
        }
        Ok(sum)
    }
}

/// Whether bytes that are read to their end, in pieces of `size` and `most`, give the wanted messages.
fn is_told(
    alloc: Global,
    bytes: &[u8],
    wanted: &[Told],
    size: usize,
    most: usize,
) -> Result<bool, Fail> {
    let mut listener = Listener::new(alloc);
    let count = listener.read(bytes, size, most)?;
    Ok(count == bytes.len() && listener.told.as_slice() == wanted)
}

#[test]
fn a_stream_in_one_piece_has_its_messages(rt: HostRuntime) -> Result<(), Fail> {
    let bytes = stream(rt.alloc())?;
    let mut listener = Listener::new(rt.alloc());
    listener.feed(&bytes)?;
    assert_eq!(rt; listener.told.as_slice(), TOLD.as_slice());
    Ok(())
}

#[test]
fn a_stream_in_pieces_has_the_messages_that_are_fed(rt: HostRuntime) -> Result<(), Fail> {
    let bytes = stream(rt.alloc())?;
    for most in [1, 7, 65_536] {
        for size in [1, 5, 1_000, 100_000] {
            assert!(rt;
                is_told(rt.alloc(), &bytes, &TOLD, size, most)?,
                "{most} of {size}"
            );
        }
    }
    Ok(())
}

/// The messages if the bytes up to a cut are read, then half of the others are fed, and the rest is read.
fn told_in_parts(alloc: Global, bytes: &[u8], cut: usize) -> Result<Vec<Told>, Fail> {
    let (front, back) = bytes.split_at(cut.min(bytes.len()));
    let (middle, last) = back.split_at(back.len() / 2);
    let mut listener = Listener::new(alloc);
    listener.read(front, 50, 64)?;
    listener.feed(middle)?;
    listener.read(last, 50, 64)?;
    Ok(listener.told)
}

#[test]
fn what_is_fed_and_what_is_read_are_one_stream(rt: HostRuntime) -> Result<(), Fail> {
    let bytes = stream(rt.alloc())?;
    for cut in [1, 60, 300, 66_000] {
        let told = told_in_parts(rt.alloc(), &bytes, cut)?;
        assert!(rt; told.as_slice() == TOLD.as_slice(), "cut at {cut}");
    }
    Ok(())
}

/// What a reader does, how many bytes it is asked for, and what is reported.
type Asked = (Turn, usize, Result<usize, FeedFault>);

/// Reads of the first 30 bytes of a create, which are no message yet.
const BEGUN: [Asked; 3] = [
    (Turn::Gives, 64, Ok(30)),
    (Turn::Fails, 64, Err(FeedFault::Read)),
    (Turn::Interrupted, 64, Ok(0)),
];

/// Reads of the other 12 bytes. There is no memory for as many as the first read asks for, so it reads none.
const ENDED: [Asked; 2] = [
    (Turn::Gives, usize::MAX, Err(FeedFault::Memory)),
    (Turn::Gives, 64, Ok(12)),
];

fn check_reads(rt: &impl Abort, frames: &mut Frames, bytes: &[u8], asked: &[Asked]) {
    let mut reader = reader_of(bytes, 100);
    for (turn, most, told) in asked {
        reader.turn = *turn;
        assert_eq!(rt; frames.read_from(&mut reader, (*most).max(1)), *told);
    }
}

/// Whether the create is the only complete message.
fn takes_create(listener: &mut Listener) -> Result<bool, AllocError> {
    listener.take()?;
    Ok(listener.told.as_slice() == [Told::Hello].as_slice())
}

#[test]
fn a_read_that_fails_takes_nothing(rt: HostRuntime) -> Result<(), Fail> {
    let (front, back) = CREATE.as_slice().split_at(30);
    let mut listener = Listener::new(rt.alloc());
    check_reads(&rt, &mut listener.frames, front, &BEGUN);
    assert!(rt; is_silent(&listener.frames));
    check_reads(&rt, &mut listener.frames, back, &ENDED);
    assert!(rt; takes_create(&mut listener)?);
    assert!(rt; is_silent(&listener.frames));
    Ok(())
}

/// A frame that is too long after a create, and fifty creates after it.
fn overlong(alloc: Global) -> Result<Vec<u8>, AllocError> {
    let mut bytes = Vec::new(alloc);
    put_all(&mut bytes, &[&CREATE, &OVERLONG])?;
    put_all(&mut bytes, &[CREATE.as_slice(); 50])?;
    Ok(bytes)
}

#[test]
fn nothing_after_a_frame_that_is_too_long(rt: HostRuntime) -> Result<(), Fail> {
    let bytes = overlong(rt.alloc())?;
    let mut listener = Listener::new(rt.alloc());
    assert_eq!(rt; listener.read(&bytes, 9, 10)?, bytes.len());
    assert_eq!(rt;
        listener.told.as_slice(),
        [Told::Hello, Told::Refused(51)].as_slice()
    );
    assert!(rt; listener.frames.is_over());
    Ok(())
}
