//! Messages from a stream, and answers to one.

ghost use Rattle.std.specs.Prelude.{◌≡◌, ◌<◌, ◌≤◌, [], OnOk, IfOk, IfErr};
ghost use Rattle.std.specs.Io.KnownBytes.{Appends};
ghost use Rattle.drive.specs.Journal.{counted};
ghost use Rattle.drive.specs.Reads.{ReadsAndWrites};
ghost use Rattle.request.specs.Answers.{answer_frame};
ghost use Rattle.request.specs.Frames.{IsIdle};
ghost use Rattle.request.specs.Streams.{ReadsPiece};
ghost use Rattle.engine.specs.Streams.{LeavesBy, PutsUntil, TakesPiece, is_read_fault};
ghost use Rattle.engine.specs.Situation.{IsReady, seen_on};
ghost use Rattle.engine.specs.Served.{Answering, AnswersSome, ServesUntil, ServesAll};

use crate::engine::Engine;
use crate::reading::CountedReader;
use crate::streams::put_all;
use drive::Drive;
use request::{Answer, FeedFault, Frames, encode_answer};
use std::alloc::Global;
use std::io::{Read, Write};
use thiserror::Error;

/// The most bytes that are read at once.
pub const PIECE_BYTES: usize = 65_536;

/// Why a stream was left before its end. It is shown as its number and its name.
#[derive(Clone, Copy, Debug, PartialEq, Eq, Error)]
pub enum ServeFault {
    /// The stream could not be read.
    #[error("91 Read")]
    Read,
    /// An answer could not be written.
    #[error("92 Write")]
    Write,
    /// There was no memory to read on, or for the frame of an answer; or the stream came in more than 2^64 - 1 pieces.
    #[error("93 Memory")]
    Memory,
}

/// Answers the messages of a stream in turn, until it ends or a frame is too long. The answers to what was read are written
/// before more is read.
pub fn serve<R: Read, W: Write, D: Drive>(
    alloc: Global,
    reader: &mut CountedReader<R>,
    writer: &mut W,
    engine: &mut Engine,
    drive: &mut D,
) -> Result<(), ServeFault>
    requires { IsReady (seen_on D.Drive engine.old drive.old) }
    ensures ok { OnOk result (ServesAll (seen_on D.Drive engine.old drive.old) (seen_on D.Drive engine.new drive.new)
        (R.remaining reader.old.stream) (R.remaining reader.new.stream) (W.contents writer.old) (W.contents writer.new)) }
    // Otherwise the first of them were answered, and the fault shows how far that went.
    ensures left { IfErr result (λ fault. ServesUntil fault (seen_on D.Drive engine.old drive.old) (seen_on D.Drive engine.new drive.new)
        (R.remaining reader.old.stream) (R.remaining reader.new.stream) (W.contents writer.old) (W.contents writer.new)) }
    // A read failed exactly if the fault is `Read`, and nothing was read after it.
    ensures failures { reader.new.failures ≡ counted (is_read_fault result) reader.old.failures }
    ensures ready { IsReady (seen_on D.Drive engine.new drive.new) }
    ensures lent { ReadsAndWrites D.Drive 0 drive.old drive.new }
{
    let mut frames = Frames::new(alloc);
    let mut answers = Vec::new(alloc);
    for _ in 0..u64::MAX {
        let count = read_on(reader, &mut frames, PIECE_BYTES)?;
        if count == 0 {
            return Ok(());
        }
        answer_all(alloc, &mut frames, &mut answers, writer, engine, drive)?;
        if frames.is_over() {
            return Ok(());
        }
    }
    Err(ServeFault::Memory)
}

/// Reads the next bytes of a stream into the reader of frames, at most `most`. Returns how many: 0 only at the end of the
/// stream.
pub fn read_on<R: Read>(
    reader: &mut CountedReader<R>,
    frames: &mut Frames,
    most: usize,
) -> Result<usize, ServeFault>
    requires { 0 < most }
    ensures bound { IfOk result (λ count. count ≤ most) }
    ensures ok { IfOk result (λ count. ReadsPiece count (R.remaining reader.old.stream) (R.remaining reader.new.stream) frames.old frames.new) }
    ensures err { IfErr result (λ fault. LeavesBy fault (R.remaining reader.old.stream) (R.remaining reader.new.stream)) }
    ensures failures { reader.new.failures ≡ counted (is_read_fault result) reader.old.failures }
{
    match reader.read_into(frames, most) {
        Ok(count) => Ok(count),
        Err(FeedFault::Read) => Err(ServeFault::Read),
        Err(FeedFault::Memory) => end_of(reader),
    }
}

/// Looks for the end of a stream when there is no memory to read on, since the end needs none. Anywhere else the fault
/// is `Memory`, or `Read` if the read fails.
fn end_of<R: Read>(reader: &mut CountedReader<R>) -> Result<usize, ServeFault>
    ensures ok { IfOk result (λ count. (count ≡ 0) × TakesPiece (R.remaining reader.old.stream) (R.remaining reader.new.stream) []) }
    ensures err { IfErr result (λ fault. LeavesBy fault (R.remaining reader.old.stream) (R.remaining reader.new.stream)) }
    ensures failures { reader.new.failures ≡ counted (is_read_fault result) reader.old.failures }
{
    let mut byte = [0u8; 1];
    match reader.read(&mut byte) {
        Ok(0) => Ok(0),
        Ok(_) => Err(ServeFault::Memory),
        Err(_) => Err(ServeFault::Read),
    }
}

/// Answers the messages that are complete.
#[tactic(auto, using(crate::proofs::Messages::answering_none, crate::proofs::Messages::answering_more, crate::proofs::Messages::answering_some, crate::proofs::Messages::answering_kept, crate::proofs::Messages::answering_flushed, crate::proofs::Messages::taken_less, request::proofs::FrameLaws::taken_first))]
fn answer_all<W: Write, D: Drive>(
    alloc: Global,
    frames: &mut Frames,
    answers: &mut Vec<u8>,
    writer: &mut W,
    engine: &mut Engine,
    drive: &mut D,
) -> Result<(), ServeFault>
    requires { IsReady (seen_on D.Drive engine.old drive.old) }
    ensures ok { OnOk result (Answering frames.old frames.new (seen_on D.Drive engine.old drive.old) (seen_on D.Drive engine.new drive.new)
        (W.contents writer.old) (W.contents writer.new)) }
    ensures idle { OnOk result (IsIdle frames.new) }
    ensures err { IfErr result (λ fault. AnswersSome fault frames.old frames.new (seen_on D.Drive engine.old drive.old) (seen_on D.Drive engine.new drive.new)
        (W.contents writer.old) (W.contents writer.new)) }
    ensures ready { IsReady (seen_on D.Drive engine.new drive.new) }
    ensures lent { ReadsAndWrites D.Drive 0 drive.old drive.new }
{
    while let Some(message) = frames.first() {
        let answer = engine.answer(alloc, drive, message);
        frames.skip();
        write_answer(writer, answer, answers)?;
    }
    if writer.flush().is_err() {
        return Err(ServeFault::Write);
    }
    Ok(())
}

/// Writes an answer's frame, which is made in the buffer. If a write fails, a prefix of the frame was written.
fn write_answer<W: Write>(
    writer: &mut W,
    answer: Answer,
    buffer: &mut Vec<u8>,
) -> Result<(), ServeFault>
    ensures ok { OnOk result (Appends (W.contents writer.old) (W.contents writer.new) (answer_frame answer)) }
    ensures err { IfErr result (λ fault. PutsUntil fault (W.contents writer.old) (W.contents writer.new) (answer_frame answer)) }
{
    buffer.clear();
    if encode_answer(&answer, buffer).is_err() {
        return Err(ServeFault::Memory);
    }
    put_all(writer, buffer)
}
