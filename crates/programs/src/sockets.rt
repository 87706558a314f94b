//! The connections of a socket.

ghost use Rattle.std.specs.Io.{ReadsAtMost};
ghost use Rattle.std.specs.Prelude.{◌≡◌, ◌≤◌, ◌+◌, ◌++◌, length, None, IfSome, nat_lt, replicate};
ghost use Rattle.drive.specs.Journal.{counted};
ghost use Rattle.programs.specs.Listening.{nothing_known};
ghost use Rattle.programs.specs.Outputs.{known};

use crate::listening::{Listener, NoConnection};
use engine::CountedReader;
use std::alloc::Global;
use std::fs::{File, Files};
use std::io::{self, Read, Write};
use std::net::Net;
use std::os::unix::net::{UnixListener, UnixStream};
use std::rc::Rc;
use std::time::{Clock, Duration, Instant};

/// How long a client may neither send a byte nor take one, in seconds. It is waited for as long, and as long again for
/// each mebibyte, while it sends a message, and while it takes answers.
const PATIENCE: u64 = 60;

/// How long the rest of a message is waited for, in milliseconds, before other messages are answered that came with it.
const PAUSE: u64 = 2;

/// The bytes of a mebibyte.
const MEBIBYTE: u64 = 1_048_576;

/// How many bytes of an answer are given to a socket at once.
const PIECE_BYTES: usize = 8192;

/// The connections of one Unix socket, once it listens.
#[derive(Drop)]
pub struct Sockets<'a, R: Files<File = File> + Net + Clock> {
    rt: &'a R,
    listener: Option<UnixListener>,
    given: u64,
    missed: u64,
    failed: u64,
}

impl<'a, R: Files<File = File> + Net + Clock> Sockets<'a, R> {
    /// A socket that does not listen yet.
    pub fn new(rt: &'a R) -> Sockets<'a, R> {
        Sockets {
            rt,
            listener: None,
            given: 0,
            missed: 0,
            failed: 0,
        }
    }

    /// The next connection, and how many connections there are with it.
    fn next(&self, alloc: Global) -> Option<(u64, Incoming<'a, R>, Pieces<Outgoing<'a, R>>)>
        ensures { IfSome result (λ next. next.0 ≡ self.now.given + 1) }
    {
        let given = self.given.checked_add(1)?;
        let (stream, _) = self.listener.as_ref()?.accept().ok()?;
        let incoming = Rc::new(alloc, stream).ok();
        let outgoing = match &incoming {
            Some(stream) => stream.clone().ok(),
            None => None,
        };
        let input = Incoming::new(self.rt, incoming, true);
        let output = Outgoing {
            rt: self.rt,
            stream: outgoing,
            written: 0,
            waited: Duration::ZERO,
        };
        Some((given, input, Pieces(output)))
    }
}

impl<'a, R: Files<File = File> + Net + Clock> Listener for Sockets<'a, R> {
    type Input = Incoming<'a, R>;

    type Output = Pieces<Outgoing<'a, R>>;

    ghost given = { λ s. replicate s.given None };

    ghost ended = { λ _. nothing_known };

    ghost missed = { λ s. s.missed };

    ghost failed = { λ s. s.failed };

    // With an empty path the socket would get an address that no client can name.
    fn listen(&mut self, path: &str) -> Result<(), NoConnection> {
        if path.is_empty() {
            return Err(NoConnection);
        }
        match UnixListener::bind(self.rt, path) {
            Ok(listener) => {
                self.listener = Some(listener);
                Ok(())
            }
            Err(_) => Err(NoConnection),
        }
    }

    fn accept(
        &mut self,
        alloc: Global,
    ) -> Result<(Incoming<'a, R>, Pieces<Outgoing<'a, R>>), NoConnection> {
        match self.next(alloc) {
            Some((given, input, output)) => {
                self.given = given;
                Ok((input, output))
            }
            None => {
                self.missed = self.missed.saturating_add(1);
                Err(NoConnection)
            }
        }
    }

    fn limit(&self, input: &Incoming<'a, R>) -> Result<(), NoConnection> {
        let patience = Some(Duration::from_secs(PATIENCE));
        let Some(shared) = &input.stream else {
            return Err(NoConnection);
        };
        let stream: &UnixStream = shared;
        if stream.set_read_timeout(patience).is_err() {
            return Err(NoConnection);
        }
        stream.set_write_timeout(patience).map_err(|_| NoConnection)
    }

    // The stream is closed when the last of its halves is dropped.
    fn end(&mut self, input: CountedReader<Incoming<'a, R>>, output: Pieces<Outgoing<'a, R>>)
        // Of what was written nothing is known.
        ensures ended { nothing_known ≡ nothing_known ++ known None }
        ensures given { self.new.given ≡ self.old.given }
        ensures missed { self.new.missed ≡ self.old.missed }
        ensures failed { self.new.failed ≡ counted (nat_lt 0 input.entry.failures) self.old.failed }
    {
        if input.failures() > 0 {
            self.failed = self.failed.saturating_add(1);
        }
        drop(input);
        drop(output);
    }
}

/// How long a client may still be waited for, that was waited for so long over so many bytes. `TimedOut`: no longer.
fn time_left(waited: Duration, bytes: u64) -> io::Result<Duration> {
    let allowed = (bytes / MEBIBYTE)
        .saturating_add(1)
        .saturating_mul(PATIENCE);
    let left = allowed.saturating_sub(waited.as_secs());
    if left == 0 {
        return Err(io::Error::from(io::ErrorKind::TimedOut));
    }
    Ok(Duration::from_secs(left.min(PATIENCE)))
}

/// Where a stream of frames stands.
#[derive(Clone, Copy)]
struct Frame {
    /// How many bytes came of the length of the frame that has begun.
    length_bytes: u8,
    /// These bytes, and then the length.
    length: u32,
    /// How many bytes of the payload are missing.
    missing: u32,
}

impl Frame {
    /// A stream at its beginning.
    fn none() -> Frame {
        Frame {
            length_bytes: 0,
            length: 0,
            missing: 0,
        }
    }

    /// Whether a frame has begun that has not ended.
    fn is_begun(&self) -> bool {
        self.length_bytes > 0 || self.missing > 0
    }

    /// The bytes of its payload, once they are known.
    fn bytes(&self) -> u64 {
        if self.missing > 0 {
            u64::from(self.length)
        } else {
            0
        }
    }

    /// Takes a byte of a length. Returns whether a frame ends with it.
    fn take_of_length(&mut self, byte: u8) -> bool {
        self.length = (self.length >> 8) | (u32::from(byte) << 24);
        if self.length_bytes < 3 {
            self.length_bytes += 1;
            return false;
        }
        self.length_bytes = 0;
        self.missing = self.length;
        self.missing == 0
    }

    /// Takes these bytes. Returns whether a frame ends among them.
    fn take_all(&mut self, bytes: &[u8]) -> bool {
        let mut is_ended = false;
        let mut rest = bytes;
        while !rest.is_empty() {
            if self.missing == 0 {
                is_ended |= self.take_of_length(rest[0]);
                rest = &rest[1..];
            } else {
                let count = (self.missing as usize).min(rest.len());
                self.missing -= count as u32;
                is_ended |= self.missing == 0;
                rest = &rest[count..];
            }
        }
        is_ended
    }
}

/// The reading half of a connection. If there was no memory for what both halves share, the connection is closed, and
/// every read fails. A client that sends a message byte by byte is waited for no longer than the message may take.
#[derive(Drop)]
pub struct Incoming<'a, R: Clock> {
    rt: &'a R,
    stream: Option<Rc<UnixStream>>,
    frame: Frame,
    /// How long the client was waited for since the frame began.
    waited: Duration,
    /// Whether it is waited for so long at most. The client of a daemon keeps others waiting.
    is_limited: bool,
    /// What failed after bytes had come that were returned.
    failure: Option<io::ErrorKind>,
}

impl<'a, R: Clock> Incoming<'a, R> {
    /// A stream at its beginning.
    pub(crate) fn new(
        rt: &'a R,
        stream: Option<Rc<UnixStream>>,
        is_limited: bool,
    ) -> Incoming<'a, R> {
        Incoming {
            rt,
            stream,
            frame: Frame::none(),
            waited: Duration::ZERO,
            is_limited,
            failure: None,
        }
    }

    /// How long it may still be waited for. `None`: without an end.
    fn patience(&self) -> io::Result<Option<Duration>> {
        if !self.is_limited {
            return Ok(None);
        }
        Ok(Some(time_left(self.waited, self.frame.bytes())?))
    }

    /// Waits for bytes, at most for so long if a time is given.
    fn read_within(&mut self, most: Option<Duration>, bytes: &mut [u8]) -> io::Result<usize>
        ensures { ReadsAtMost result bytes.new }
    {
        let left = self.patience()?;
        let Some(shared) = &self.stream else {
            return Err(io::Error::from(io::ErrorKind::OutOfMemory));
        };
        let mut stream: &UnixStream = shared;
        stream.set_read_timeout(most.or(left))?;
        let begin = Instant::now(self.rt)?;
        let read = stream.read(bytes);
        // A wait in which nothing came counts too.
        if self.frame.is_begun() {
            self.waited = self.waited.saturating_add(begin.elapsed(self.rt)?);
        }
        let count = read?;
        if self.frame.take_all(&bytes[..count]) {
            self.waited = Duration::ZERO;
        }
        Ok(count)
    }

    /// Reads bytes that are there, without waiting for any.
    fn read_there(&mut self, bytes: &mut [u8]) -> io::Result<usize>
        ensures { ReadsAtMost result bytes.new }
    {
        let Some(shared) = &self.stream else {
            return Err(io::Error::from(io::ErrorKind::OutOfMemory));
        };
        let mut stream: &UnixStream = shared;
        stream.set_nonblocking(true)?;
        let read = stream.read(bytes);
        // Answers are written to the same socket.
        if let Err(error) = stream.set_nonblocking(false) {
            self.failure = Some(error.kind());
        }
        let count = read?;
        let _ = self.frame.take_all(&bytes[..count]);
        Ok(count)
    }

    /// Reads more bytes after others. Where a message has begun, its rest is waited for a moment; no message is waited
    /// for. 0: none came, or a call failed.
    fn read_more(&mut self, bytes: &mut [u8]) -> usize
        ensures { result ≤ length bytes.new }
    {
        let read = if self.frame.is_begun() {
            self.read_within(Some(Duration::from_millis(PAUSE)), bytes)
        } else {
            self.read_there(bytes)
        };
        match read {
            Ok(count) => count,
            Err(error) => {
                if !is_none_there(&error) {
                    self.failure = Some(error.kind());
                }
                0
            }
        }
    }
}

/// Whether a read ended because no bytes were there.
fn is_none_there(error: &io::Error) -> bool {
    matches!(
        error.kind(),
        io::ErrorKind::WouldBlock | io::ErrorKind::TimedOut | io::ErrorKind::Interrupted
    )
}

impl<'a, R: Clock> Read for Incoming<'a, R> {
    // All bytes that are there are read at once, since those messages are answered as a group that are read together.
    fn read(&mut self, bytes: &mut [u8]) -> io::Result<usize> {
        if let Some(failure) = self.failure {
            return Err(io::Error::from(failure));
        }
        let mut count = self.read_within(None, bytes)?;
        while count > 0 && count < bytes.len() {
            let more = self.read_more(&mut bytes[count..]);
            if more == 0 {
                break;
            }
            count += more;
        }
        Ok(count)
    }
}

/// The writing half of a connection. If there was no memory for what both halves share, every write fails.
#[derive(Drop)]
pub struct Outgoing<'a, R: Clock> {
    rt: &'a R,
    stream: Option<Rc<UnixStream>>,
    /// How many bytes the client took since the last flush.
    written: u64,
    /// How long it was waited for meanwhile.
    waited: Duration,
}

impl<'a, R: Clock> Write for Outgoing<'a, R> {
    fn write(&mut self, bytes: &[u8]) -> io::Result<usize> {
        let Some(shared) = &self.stream else {
            return Err(io::Error::from(io::ErrorKind::OutOfMemory));
        };
        let mut stream: &UnixStream = shared;
        stream.set_write_timeout(Some(time_left(self.waited, self.written)?))?;
        let begin = Instant::now(self.rt)?;
        let count = stream.write(bytes)?;
        self.waited = self.waited.saturating_add(begin.elapsed(self.rt)?);
        self.written = self.written.saturating_add(count as u64);
        Ok(count)
    }

    fn flush(&mut self) -> io::Result<()> {
        self.written = 0;
        self.waited = Duration::ZERO;
        Ok(())
    }
}

/// An output that is written a piece at a time. A socket takes a piece whole or not at all, so no call waits after a
/// part of its bytes was taken.
#[derive(Drop)]
pub struct Pieces<W: Write + Drop>(W);

impl<W: Write + Drop> Write for Pieces<W> {
    ghost contents = { λ pieces. W.contents pieces.0 };

    fn write(&mut self, bytes: &[u8]) -> io::Result<usize> {
        self.0.write(&bytes[..bytes.len().min(PIECE_BYTES)])
    }

    fn flush(&mut self) -> io::Result<()> {
        self.0.flush()
    }
}
