//! Messages from a stream of bytes that comes in pieces.

ghost use Rattle.std.specs.Prelude.{◌≡◌, ◌≤◌, ◌<◌, ◌-◌, ◌+◌, vec_len, length, drop, take, ℕ, List, Option, [], Some, None, IfOk, IfErr, OnOk, OnErr, IfSome, IfNone, MatchOption, is_none};
ghost use Rattle.std.specs.Io.KnownBytes.{Keeps, ReadConsumes};
ghost use Rattle.request.specs.declared.message.Message.{Message};
ghost use Rattle.request.specs.Frames.{length_at, fed, IsFirstMessage, TakesMessage, IsIdle};
ghost use Rattle.request.specs.FirstFrame.{IsFirstFrame};
ghost use Rattle.request.specs.Streams.{ReadsPiece};

use crate::message::{Cause, Message};
use crate::payload::read_payload;
use std::alloc::{AllocError, Global};
use std::io;
use std::io::{ErrorKind, Read};
use std::marker::Model;

/// The longest payload of a frame, in bytes.
pub const PAYLOAD_BYTES: usize = 1_114_112;

/// Why no bytes of a stream were read.
#[derive(Clone, Copy, Debug, PartialEq, Eq)]
pub enum FeedFault {
    /// There was no memory for them.
    Memory,
    /// The stream reported an error.
    Read,
}

/// A reader of frames. It holds the bytes that were fed and not yet taken. Contracts see these bytes, or `None` after a
/// frame whose length no payload can have: nothing after it is read.
#[derive(Debug, Drop)]
pub struct Frames {
    /// The bytes that are held, and after them room for more.
    bytes: Vec<u8>,
    /// How many bytes at the beginning were taken.
    taken: usize,
    /// Where the room begins.
    end: usize,
    failed: bool,
}

impl Model for Frames {
    ghost use Rattle.std.specs.Prelude.{◌≤◌, ℕ, List, Option, Some, None, drop, take, vec_len, if◌then◌else◌};

    ghost Value = { Option (List ℕ) };

    ghost view = { λ f. if f.failed then None else Some (drop f.taken (take f.end f.bytes.items)) };

    ghost invariant = { λ f. (f.taken ≤ f.end) × (f.end ≤ vec_len f.bytes) };
}

impl Frames {
    /// A reader that was fed nothing.
    pub fn new(alloc: Global) -> Frames
        ensures { result ≡ Some [] }
    {
        Frames {
            bytes: Vec::new(alloc),
            taken: 0,
            end: 0,
            failed: false,
        }
    }

    /// Takes the next bytes of the stream. If there is no memory for them, the reader stays as it was.
    pub fn feed(&mut self, piece: &[u8]) -> Result<(), AllocError>
        ensures ok { OnOk result (self.new ≡ fed self.old piece.now) }
        ensures err { OnErr result (self.new ≡ self.old) }
    {
        if self.failed {
            return Ok(());
        }
        self.close_up();
        self.bytes.truncate(self.end);
        self.bytes.extend_from_slice(piece)?;
        self.end = self.bytes.len();
        Ok(())
    }

    /// Reads at most `most` of the next bytes of a stream, and takes them as `feed` does. Returns how many: 0 only at
    /// the end of the stream. A read that a signal interrupts is tried again.
    pub fn read_from<R: Read>(&mut self, reader: &mut R, most: usize) -> Result<usize, FeedFault>
        requires { 0 < most }
        ensures bound { IfOk result (λ count. count ≤ most) }
        ensures ok { IfOk result (λ count. ReadsPiece count (R.remaining reader.old) (R.remaining reader.new) self.old self.new) }
        ensures err { OnErr result ((self.new ≡ self.old) × Keeps (R.remaining reader.old) (R.remaining reader.new)) }
        // If there is no memory, the stream is not read.
        ensures unasked { IfErr result (λ fault. fault ≡ FeedFault.Memory → reader.new ≡ reader.old) }
    {
        self.close_up();
        if make_room(&mut self.bytes, self.end, most).is_err() {
            return Err(FeedFault::Memory);
        }
        match fill(reader, &mut self.bytes, self.end, most) {
            Ok(count) => {
                self.end += count;
                Ok(count)
            }
            Err(_) => Err(FeedFault::Read),
        }
    }

    /// A reader that holds the same bytes.
    pub fn copy(&self) -> Result<Frames, AllocError>
        ensures { IfOk result (λ copy. copy ≡ self.now) }
    {
        let bytes = Vec::from_slice(*self.bytes.allocator(), self.waiting())?;
        let end = bytes.len();
        Ok(Frames {
            bytes,
            taken: 0,
            end,
            failed: self.failed,
        })
    }

    /// Whether a frame had a length that no payload can have, so that nothing more is read.
    pub fn is_over(&self) -> bool
        ensures { result ≡ is_none self.now }
    {
        self.failed
    }

    /// The next message, once its frame is complete. It borrows the bytes that the reader holds, and stays the next one
    /// until `skip`. A frame whose length no payload can have is reported as soon as its length is there.
    #[tactic(auto, using(crate::proofs::FrameLaws::is_first))]
    pub fn first(&self) -> Option<Message<'_>>
        ensures some { IfSome result (IsFirstMessage self.now) }
        ensures none { IfNone result (IsIdle self.now) }
    {
        match first_frame(self.waiting()) {
            FirstFrame::Partial => None,
            FirstFrame::Overlong => Some(Message::Malformed(Cause::TooLong)),
            FirstFrame::Whole(payload) => Some(read_payload(*self.bytes.allocator(), payload)),
        }
    }

    /// Releases the frame of the next message. Nothing comes after a frame whose length no payload can have. If no
    /// frame is complete, the reader stays as it was.
    pub fn skip(&mut self)
        ensures taken { (message : Message) (after : Option (List ℕ)) → TakesMessage self.old message after → self.new ≡ after }
        ensures idle { IsIdle self.old → self.new ≡ self.old }
    {
        match first_frame(self.waiting()) {
            FirstFrame::Partial => {}
            FirstFrame::Overlong => {
                self.failed = true;
                self.taken = self.end;
            }
            FirstFrame::Whole(payload) => self.taken += 4 + payload.len(),
        }
    }

    /// The bytes that are held, and none after a frame whose length no payload can have.
    fn waiting(&self) -> &[u8]
        ensures { MatchOption self.now (result.now ≡ []) (λ bytes. result.now ≡ bytes) }
    {
        if self.failed {
            return &[];
        }
        let (held, _) = self.bytes.split_at(self.end);
        let (_, waiting) = held.split_at(self.taken);
        waiting
    }

    /// Moves what is held to the beginning, if at least as many bytes were taken. So all moves together cost no more
    /// than the bytes that were taken.
    fn close_up(&mut self)
        ensures { self.new ≡ self.old }
    {
        if self.taken >= self.end - self.taken {
            forget(&mut self.bytes, self.taken, self.end);
            self.end -= self.taken;
            self.taken = 0;
        }
    }
}

/// What is at the beginning of a stream.
enum FirstFrame<'a> {
    /// Less than a frame.
    Partial,
    /// A length that no payload has.
    Overlong,
    /// A frame with this payload.
    Whole(&'a [u8]),
}

fn first_frame(bytes: &[u8]) -> FirstFrame<'_>
    ensures { IsFirstFrame result bytes.now }
{
    let Some(length) = frame_length(bytes) else {
        return FirstFrame::Partial;
    };
    if length > PAYLOAD_BYTES {
        return FirstFrame::Overlong;
    }
    let (_, rest) = bytes.split_at(4);
    if rest.len() < length {
        return FirstFrame::Partial;
    }
    let (payload, _) = rest.split_at(length);
    FirstFrame::Whole(payload)
}

/// The length at the beginning of a frame, once its four bytes are there.
fn frame_length(bytes: &[u8]) -> Option<usize>
    ensures { MatchOption result (length bytes.now < 4) (λ n. (4 ≤ length bytes.now) × (n ≡ length_at bytes.now)) }
{
    if bytes.len() < 4 {
        return None;
    }
    let (front, _) = bytes.split_at(4);
    Some(u32::from_le_bytes([front[0], front[1], front[2], front[3]]) as usize)
}

/// Moves the bytes from `taken` to `end` to the beginning. There are no more of them than bytes before them, so they
/// are copied as one: `copy_within` would move them one by one.
fn forget(bytes: &mut Vec<u8>, taken: usize, end: usize)
    requires from { taken ≤ end }
    requires to { end ≤ vec_len bytes.old }
    requires apart { end - taken ≤ taken }
    ensures len { vec_len bytes.new ≡ vec_len bytes.old }
    ensures held { take (end - taken) bytes.new.items ≡ drop taken (take end bytes.old.items) }
{
    let count = end - taken;
    let (front, rest) = bytes.split_at_mut(taken);
    front[..count].copy_from_slice(&rest[..count]);
}

/// Makes room for `most` bytes after the first `end`. Zeros are written only where there was no room.
fn make_room(bytes: &mut Vec<u8>, end: usize, most: usize) -> Result<(), AllocError>
    requires { end ≤ vec_len bytes.old }
    ensures held { take end bytes.new.items ≡ take end bytes.old.items }
    ensures len { vec_len bytes.old ≤ vec_len bytes.new }
    ensures ok { OnOk result (end + most ≤ vec_len bytes.new) }
{
    let Some(upto) = end.checked_add(most) else {
        return Err(AllocError);
    };
    if bytes.len() < upto {
        bytes.resize(upto, 0)?;
    }
    Ok(())
}

/// Reads at most `most` bytes to the place after the first `end`.
fn fill<R: Read>(reader: &mut R, bytes: &mut Vec<u8>, end: usize, most: usize) -> io::Result<usize>
    requires room { end + most ≤ vec_len bytes.old }
    ensures held { take end bytes.new.items ≡ take end bytes.old.items }
    ensures len { vec_len bytes.new ≡ vec_len bytes.old }
    ensures bound { IfOk result (λ count. count ≤ most) }
    ensures read { ReadConsumes (R.remaining reader.old) (R.remaining reader.new) result (drop end (take (end + most) bytes.new.items)) }
{
    read_some(reader, &mut bytes[end..end + most])
}

/// Reads the next bytes of a stream. A read that a signal interrupts is tried again, and has failed only after 2^64 - 1
/// tries.
pub fn read_some<R: Read>(reader: &mut R, room: &mut [u8]) -> io::Result<usize>
    ensures bound { IfOk result (λ count. count ≤ length room.new) }
    ensures read { ReadConsumes (R.remaining reader.old) (R.remaining reader.new) result room.new }
{
    for _ in 0..u64::MAX {
        match reader.read(room) {
            Err(error) if error.kind() == ErrorKind::Interrupted => {}
            told => return told,
        }
    }
    Err(io::Error::from(ErrorKind::TimedOut))
}
