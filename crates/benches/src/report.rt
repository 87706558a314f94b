//! What a bench reports: a line that says what was done. The bench begins it, and this ends it.

use std::io;
use std::io::{Error, ErrorKind};
use std::time::CpuClock;

/// How a bench ends its lines.
#[derive(Clone, Copy)]
pub struct Report {
    /// Whether they have the time that was taken.
    pub times: bool,
}

impl Report {
    /// Ends a line, with a time if that is wanted.
    pub fn took(self, rt: &HostRuntime, taken: u128) -> io::Result<()> {
        if self.times {
            println!(rt; ": {taken} us")
        } else {
            println!(rt; "")
        }
    }

    /// Ends a line, with a time, and how many times that of plain work it is, if that is wanted.
    pub fn took_beside(self, rt: &HostRuntime, taken: u128, plain: u128) -> io::Result<()> {
        let hundredths = taken.saturating_mul(100) / plain.max(1);
        let whole = hundredths / 100;
        let part = hundredths % 100;
        if self.times {
            println!(rt; ": {taken} us, {whole}.{part:02} of {plain} us")
        } else {
            println!(rt; "")
        }
    }
}

/// The processor time that the program has used, in microseconds, or 0 if there is no clock.
pub fn used(rt: &HostRuntime) -> u128 {
    match rt.process_cpu_time() {
        Ok(time) => time.as_micros(),
        Err(_) => 0,
    }
}

/// The processor time since then, in microseconds.
pub fn since(rt: &HostRuntime, start: u128) -> u128 {
    used(rt).saturating_sub(start)
}

/// The error of a bench that could not do its work.
pub fn wrong() -> Error {
    Error::from(ErrorKind::Other)
}
