//! The stream on which a program reports why it was refused.

ghost use Rattle.std.specs.Prelude.{◌≡◌, ◌≤◌, ◌<◌, length, take, IfOk, OnErr, OnOk, is_err};
ghost use Rattle.std.specs.Io.KnownBytes.{Appends, Keeps};
ghost use Rattle.drive.specs.Journal.{counted};
ghost use Rattle.engine.specs.Streams.{PutsPrefix};

use engine::ServeFault;
use std::io::{ErrorKind, Write};

/// A stream of errors, and how many writes to it failed, which stops at 2^64 - 1. A write that a signal interrupts is
/// tried again, and has failed only after 2^64 - 1 tries.
#[derive(Drop)]
pub struct ErrorStream<W> {
    stream: W,
    failures: u64,
}

impl<W: Write> ErrorStream<W> {
    pub fn new(stream: W) -> ErrorStream<W>
        ensures stream { result.stream ≡ stream }
        ensures failures { result.failures ≡ 0 }
    {
        ErrorStream {
            stream,
            failures: 0,
        }
    }

    /// Writes at least one of the bytes, and returns how many.
    fn write(&mut self, bytes: &[u8]) -> Result<usize, ServeFault>
        requires { 0 < length bytes.now }
        ensures some { IfOk result (λ count. 0 < count) }
        ensures bound { IfOk result (λ count. count ≤ length bytes.now) }
        ensures ok { IfOk result (λ count. Appends (W.contents self.old.stream) (W.contents self.new.stream) (take count bytes.now)) }
        ensures err { OnErr result (Keeps (W.contents self.old.stream) (W.contents self.new.stream)) }
        ensures failures { self.new.failures ≡ counted (is_err result) self.old.failures }
    {
        for _ in 0..u64::MAX {
            match self.stream.write(bytes) {
                Ok(0) => break,
                Ok(count) => return Ok(count),
                Err(error) if error.kind() == ErrorKind::Interrupted => {}
                Err(_) => break,
            }
        }
        self.failures = self.failures.saturating_add(1);
        Err(ServeFault::Write)
    }

    /// Writes the bytes. If a write fails, a prefix of them was written.
    pub(crate) fn put(&mut self, bytes: &[u8]) -> Result<(), ServeFault>
        ensures ok { OnOk result (Appends (W.contents self.old.stream) (W.contents self.new.stream) bytes.now) }
        ensures err { OnErr result (PutsPrefix (W.contents self.old.stream) (W.contents self.new.stream) bytes.now) }
        ensures failures { self.new.failures ≡ counted (is_err result) self.old.failures }
    {
        let mut rest = bytes;
        while !rest.is_empty() {
            let count = self.write(rest)?;
            let (_, later) = rest.split_at(count);
            rest = later;
        }
        Ok(())
    }

    /// Passes on what the stream holds back. A failure is ignored.
    pub(crate) fn flush(&mut self)
        ensures bytes { Keeps (W.contents self.old.stream) (W.contents self.new.stream) }
        ensures failures { self.new.failures ≡ self.old.failures }
    {
        let _ = self.stream.flush();
    }
}
