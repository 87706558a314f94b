//! The client of the daemon: frames to its socket, and its answers back.

ghost use Rattle.std.specs.Prelude.{◌≡◌, ◌<◌, ◌≤◌, IfErr, IfOk, OnOk};
ghost use Rattle.programs.specs.Status.{IsRefusal};
ghost use Rattle.programs.specs.Copies.{CopiesFrames, CopiesUntil, SendsFrames, SendsUntil};

use crate::counting::FrameCount;
use crate::fault::Fault;
use engine::{ServeFault, put_all, read_piece};
use std::alloc::Global;
use std::io::{Read, Write};
use std::net::{Net, Shutdown};
use std::os::unix::net::UnixStream;
use store::StoreFault;

/// How many bytes are copied at once.
const PIECE_BYTES: usize = 65_536;

/// Sends the input to the daemon at this socket, and copies its answers to the output. Each frame gets an answer: if
/// fewer come back, the daemon left the stream before its end, and the fault is `91 Read`.
pub(crate) fn send<R: Net + AllocGlobal, I: Read, O: Write>(
    rt: &R,
    socket: &str,
    input: &mut I,
    output: &mut O,
) -> Result<(), Fault>
    ensures refusal { IfErr result IsRefusal }
    ensures sends { SendsFrames result (I.remaining input.old) (I.remaining input.new) (O.contents output.old) (O.contents output.new) }
{
    let mut stream = match UnixStream::connect(rt, socket) {
        Ok(stream) => stream,
        Err(_) => return Err(Fault::Socket),
    };
    let sent = send_frames(rt.alloc(), &mut stream, input);
    // What was sent is answered, even if the rest was not sent.
    let answered = copy_answers(rt.alloc(), &mut stream, output)?;
    want_answers(sent?, answered)
}

/// The fault `91 Read` if there are fewer answers than frames.
fn want_answers(frames: u64, answers: u64) -> Result<(), Fault>
    ensures ok { OnOk result (frames ≤ answers) }
    ensures err { IfErr result (λ fault. (fault ≡ Fault.Stream ServeFault.Read) × (answers < frames)) }
{
    if answers < frames {
        return Err(Fault::Stream(ServeFault::Read));
    }
    Ok(())
}

/// Sends what the reader has, and ends the sending half of the stream. Returns how many frames ended in what was sent,
/// up to one that is too long.
pub fn send_frames<I: Read>(
    alloc: Global,
    stream: &mut UnixStream,
    reader: &mut I,
) -> Result<u64, Fault>
    ensures refusal { IfErr result IsRefusal }
    ensures all { IfOk result (λ count. CopiesFrames count (I.remaining reader.old) (I.remaining reader.new) (⟦<UnixStream as Write>⟧.contents stream.old) (⟦<UnixStream as Write>⟧.contents stream.new)) }
    // The fault shows how far that went.
    ensures until { IfErr result (λ fault. SendsUntil fault (I.remaining reader.old) (I.remaining reader.new) (⟦<UnixStream as Write>⟧.contents stream.old) (⟦<UnixStream as Write>⟧.contents stream.new)) }
{
    let copied = copy(alloc, reader, stream);
    let ended = stream.shutdown(Shutdown::Write);
    let count = copied?;
    match ended {
        Ok(()) => Ok(count),
        Err(_) => Err(Fault::Stream(ServeFault::Write)),
    }
}

/// Copies what comes back, up to the end of the stream. Returns how many answers came whole.
pub fn copy_answers<O: Write>(
    alloc: Global,
    stream: &mut UnixStream,
    writer: &mut O,
) -> Result<u64, Fault>
    ensures refusal { IfErr result IsRefusal }
    ensures all { IfOk result (λ count. CopiesFrames count (⟦<UnixStream as Read>⟧.remaining stream.old) (⟦<UnixStream as Read>⟧.remaining stream.new) (O.contents writer.old) (O.contents writer.new)) }
    ensures until { IfErr result (λ fault. CopiesUntil fault (⟦<UnixStream as Read>⟧.remaining stream.old) (⟦<UnixStream as Read>⟧.remaining stream.new) (O.contents writer.old) (O.contents writer.new)) }
{
    copy(alloc, stream, writer)
}

/// Copies what the reader has, in pieces. Returns how many frames ended in it.
fn copy<I: Read, O: Write>(alloc: Global, reader: &mut I, writer: &mut O) -> Result<u64, Fault>
    ensures refusal { IfErr result IsRefusal }
    ensures ok { IfOk result (λ count. CopiesFrames count (I.remaining reader.old) (I.remaining reader.new) (O.contents writer.old) (O.contents writer.new)) }
    ensures err { IfErr result (λ fault. CopiesUntil fault (I.remaining reader.old) (I.remaining reader.new) (O.contents writer.old) (O.contents writer.new)) }
{
    let mut piece = match vec![in alloc; 0u8; PIECE_BYTES] {
        Ok(piece) => piece,
        Err(_) => return Err(Fault::Store(StoreFault::Memory)),
    };
    let mut frames = FrameCount::new();
    for _ in 0..u64::MAX {
        let count = read_piece(reader, &mut piece)?;
        if count == 0 {
            return Ok(frames.count());
        }
        let (bytes, _) = piece.split_at(count);
        put_all(writer, bytes)?;
        if writer.flush().is_err() {
            return Err(Fault::Stream(ServeFault::Write));
        }
        frames.feed(bytes);
    }
    Err(Fault::Stream(ServeFault::Read))
}
