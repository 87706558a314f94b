//! Messages of a stream, answered in groups.

ghost use Rattle.std.specs.Prelude.{◌≡◌, ◌<◌, ◌≤◌, true, false, OnOk, IfErr};
ghost use Rattle.drive.specs.Journal.{counted};
ghost use Rattle.request.specs.declared.message.Message.{Message};
ghost use Rattle.request.specs.Frames.{IsFirstMessage, IsIdle};
ghost use Rattle.engine.specs.Streams.{is_read_fault};
ghost use Rattle.engine.specs.Situation.{IsReady, seen_on};
ghost use Rattle.grouping.specs.Groups.{MaySettle};
ghost use Rattle.grouping.specs.Streams.{Grouping, GroupingSome, ServesGroups, ServesGroupsUntil};

use crate::group::answer_group;
use engine::{CountedReader, Engine, PIECE_BYTES, ServeFault, put_all, read_on};
use request::Frames;
use settling::Settles;
use std::alloc::Global;
use std::io::{Read, Write};

/// Answers the messages of a stream in turn, until it ends or a frame is too long. Those that are complete in what was
/// read are answered in groups: the disk has all that a group wrote before any answer to it is written. The answers to
/// what was read are written before more is read. At first little is read at once, and then as much as there is, but at
/// most `most` bytes.
pub fn serve_groups<R: Read, W: Write, D: Settles>(
    alloc: Global,
    reader: &mut CountedReader<R>,
    most: usize,
    writer: &mut W,
    engine: &mut Engine,
    drive: &mut D,
) -> Result<(), ServeFault>
    requires ready { IsReady (seen_on D.Drive engine.old drive.old) }
    requires some { 0 < most }
    ensures ok { OnOk result (ServesGroups most (seen_on D.Drive engine.old drive.old) (D.gathering drive.old) (seen_on D.Drive engine.new drive.new) (D.gathering drive.new)
        (R.remaining reader.old.stream) (R.remaining reader.new.stream) (W.contents writer.old) (W.contents writer.new)) }
    // Otherwise the first of them were answered, and the fault shows how far that went.
    ensures left { IfErr result (λ fault. ServesGroupsUntil fault (seen_on D.Drive engine.old drive.old) (D.gathering drive.old) (seen_on D.Drive engine.new drive.new) (D.gathering drive.new)
        (R.remaining reader.old.stream) (R.remaining reader.new.stream) (W.contents writer.old) (W.contents writer.new)) }
    // A read failed exactly if the fault is `Read`, and nothing was read after it.
    ensures failures { reader.new.failures ≡ counted (is_read_fault result) reader.old.failures }
    ensures ready { IsReady (seen_on D.Drive engine.new drive.new) }
    ensures lent { MaySettle D.Drive 0 drive.old drive.new }
{
    let mut frames = Frames::new(alloc);
    let mut answers = Vec::new(alloc);
    let mut room = first_room(most);
    for _ in 0..u64::MAX {
        let count = read_on(reader, &mut frames, room)?;
        if count == 0 {
            return Ok(());
        }
        room = next_room(room, count, most);
        answer_groups(alloc, &mut frames, &mut answers, writer, engine, drive)?;
        if frames.is_over() {
            return Ok(());
        }
    }
    Err(ServeFault::Memory)
}

/// How many bytes are read at once at first.
fn first_room(most: usize) -> usize
    requires { 0 < most }
    ensures some { 0 < result }
    ensures fits { result ≤ most }
{
    most.min(PIECE_BYTES)
}

/// How many bytes are read at once after so many were read where there was this room: twice as many if they filled it.
fn next_room(room: usize, count: usize, most: usize) -> usize
    requires some { 0 < room }
    requires fits { room ≤ most }
    ensures some { 0 < result }
    ensures fits { result ≤ most }
{
    if count < room {
        return room;
    }
    room.saturating_mul(2).min(most)
}

/// Answers the messages that are complete, a group at a time.
fn answer_groups<W: Write, D: Settles>(
    alloc: Global,
    frames: &mut Frames,
    answers: &mut Vec<u8>,
    writer: &mut W,
    engine: &mut Engine,
    drive: &mut D,
) -> Result<(), ServeFault>
    requires { IsReady (seen_on D.Drive engine.old drive.old) }
    ensures ok { OnOk result (Grouping frames.old frames.new (seen_on D.Drive engine.old drive.old) (D.gathering drive.old) (seen_on D.Drive engine.new drive.new) (D.gathering drive.new)
        (W.contents writer.old) (W.contents writer.new)) }
    ensures idle { OnOk result (IsIdle frames.new) }
    ensures err { IfErr result (λ fault. GroupingSome fault frames.old frames.new (seen_on D.Drive engine.old drive.old) (D.gathering drive.old) (seen_on D.Drive engine.new drive.new) (D.gathering drive.new)
        (W.contents writer.old) (W.contents writer.new)) }
    ensures ready { IsReady (seen_on D.Drive engine.new drive.new) }
    ensures lent { MaySettle D.Drive 0 drive.old drive.new }
{
    while has_message(frames) {
        answers.clear();
        let told = answer_group(alloc, frames, answers, engine, drive);
        put_all(writer, answers)?;
        if told.is_err() {
            return Err(ServeFault::Memory);
        }
    }
    if writer.flush().is_err() {
        return Err(ServeFault::Write);
    }
    Ok(())
}

/// Whether a message is complete.
pub(crate) fn has_message(frames: &Frames) -> bool
    ensures some { result ≡ true → (message : Message) × IsFirstMessage frames.now message }
    ensures none { result ≡ false → IsIdle frames.now }
{
    frames.first().is_some()
}
