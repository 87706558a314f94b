//! Streams that come in pieces, and that fail.

use std::io;
use std::io::{Error, ErrorKind, Read};

/// A reader that gives its first piece, then the rest in pieces of `size` bytes, and then fails.
#[derive(Drop)]
pub struct Pieces<'a> {
    pub first: &'a [u8],
    pub rest: &'a [u8],
    pub size: usize,
}

impl Read for Pieces<'_> {
    fn read(&mut self, buf: &mut [u8]) -> io::Result<usize> {
        if self.first.is_empty() {
            if self.rest.is_empty() {
                return Err(Error::from(ErrorKind::Other));
            }
            let (piece, rest) = self.rest.split_at(self.rest.len().min(self.size));
            self.first = piece;
            self.rest = rest;
        }
        let count = self.first.len().min(buf.len());
        let (now, later) = self.first.split_at(count);
        buf[..count].copy_from_slice(now);
        self.first = later;
        Ok(count)
    }
}
