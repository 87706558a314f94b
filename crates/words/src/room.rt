//! A writer that fills up.

use std::io;
use std::io::{Error, ErrorKind, Write};

/// A writer that has room for `left` more bytes, and then fails.
#[derive(Drop)]
pub struct Room {
    pub bytes: Vec<u8>,
    pub left: usize,
}

impl Write for Room {
    fn write(&mut self, buf: &[u8]) -> io::Result<usize> {
        let count = buf.len().min(self.left);
        if count == 0 || self.bytes.extend_from_slice(&buf[..count]).is_err() {
            return Err(Error::from(ErrorKind::Other));
        }
        self.left -= count;
        Ok(count)
    }

    fn flush(&mut self) -> io::Result<()> {
        Ok(())
    }
}
