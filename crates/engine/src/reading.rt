//! A stream of input that counts the reads that failed.

ghost use Rattle.std.specs.Prelude.{◌≡◌, ◌≤◌, ◌<◌, true, IfOk, IfErr, OnErr, is_err};
ghost use Rattle.std.specs.Io.{ReadsAtMost};
ghost use Rattle.std.specs.Io.KnownBytes.{Keeps, ReadConsumes};
ghost use Rattle.drive.specs.Journal.{counted};
ghost use Rattle.request.specs.Streams.{ReadsPiece};
ghost use Rattle.engine.specs.Streams.{is_feed_fault};

use request::{FeedFault, Frames, read_some};
use std::io::{self, Read};

/// A stream that is read, and how many reads of it failed, which stops at 2^64 - 1. A read that a signal interrupts is
/// tried again.
#[derive(Drop)]
pub struct CountedReader<R> {
    stream: R,
    failures: u64,
}

impl<R: Read> CountedReader<R> {
    pub fn new(stream: R) -> CountedReader<R>
        ensures stream { result.stream ≡ stream }
        ensures failures { result.failures ≡ 0 }
    {
        CountedReader {
            stream,
            failures: 0,
        }
    }

    /// How many reads failed.
    pub fn failures(&self) -> u64
        ensures { result ≡ self.now.failures }
    {
        self.failures
    }

    /// Reads at most `most` of the next bytes into the reader of frames. Returns how many: 0 only at the end of the
    /// stream.
    pub(crate) fn read_into(&mut self, frames: &mut Frames, most: usize) -> Result<usize, FeedFault>
        requires { 0 < most }
        ensures bound { IfOk result (λ count. count ≤ most) }
        ensures ok { IfOk result (λ count. ReadsPiece count (R.remaining self.old.stream) (R.remaining self.new.stream) frames.old frames.new) }
        ensures err { OnErr result ((frames.new ≡ frames.old) × Keeps (R.remaining self.old.stream) (R.remaining self.new.stream)) }
        // If there is no memory, the stream is not read.
        ensures unasked { IfErr result (λ fault. fault ≡ FeedFault.Memory → self.new.stream ≡ self.old.stream) }
        ensures failures { self.new.failures ≡ counted (is_feed_fault result) self.old.failures }
    {
        let read = frames.read_from(&mut self.stream, most);
        if let Err(FeedFault::Read) = read {
            self.count();
        }
        read
    }

    /// Counts a read that failed.
    fn count(&mut self)
        ensures stream { self.new.stream ≡ self.old.stream }
        ensures failures { self.new.failures ≡ counted true self.old.failures }
    {
        self.failures = self.failures.saturating_add(1);
    }
}

impl<R: Read> Read for CountedReader<R> {
    ghost remaining = { λ reader. R.remaining reader.stream };

    fn read(&mut self, buf: &mut [u8]) -> io::Result<usize>
        ensures bound { ReadsAtMost result buf.new }
        ensures bytes { ReadConsumes (R.remaining self.old.stream) (R.remaining self.new.stream) result buf.new }
        // A read is counted exactly if it fails.
        ensures failures { self.new.failures ≡ counted (is_err result) self.old.failures }
    {
        let read = read_some(&mut self.stream, buf);
        if read.is_err() {
            self.count();
        }
        read
    }
}
