//! What a client sends: requests that change the tree, and queries that read it.

ghost use Rattle.limits.specs.declared.TheConstants.{FILE_BYTES, MOMENT_LIMIT};
ghost use Rattle.std.specs.Prelude.{◌<◌, ◌≤◌, ◌≡◌, ◌≢◌, List, ℕ, length, vec_len, IfOk, IsOk};

use crate::path::Path;
use std::alloc::{AllocError, Global};
use std::marker::Model;

/// The bytes of a file, at most `limits::FILE_BYTES`.
#[derive(Debug, Drop)]
pub struct FileData {
    bytes: Vec<u8>,
}

impl Model for FileData {
    ghost Value = { List ℕ };

    ghost view = { λ d. d.bytes.items };

    ghost invariant = { λ d. vec_len d.bytes ≤ FILE_BYTES };
}

impl FileData {
    /// Takes the bytes of a file, without copying them.
    pub fn new(bytes: Vec<u8>) -> FileData
        requires { vec_len bytes ≤ FILE_BYTES }
        ensures { result ≡ bytes.items }
    {
        FileData { bytes }
    }

    /// The bytes.
    pub fn as_slice(&self) -> &[u8]
        ensures bytes { result.now ≡ self.now }
        ensures few { length result.now ≤ FILE_BYTES }
    {
        self.bytes.as_slice()
    }
}

/// The bytes that a request gives a file, at most `limits::FILE_BYTES`, borrowed from its payload.
#[derive(Debug, Drop)]
pub struct FileSlice<'a> {
    bytes: &'a [u8],
}

impl<'a> Model for FileSlice<'a> {
    ghost Value = { List ℕ };

    ghost view = { λ s. s.bytes.now };

    ghost invariant = { λ s. length s.bytes.now ≤ FILE_BYTES };
}

impl<'a> FileSlice<'a> {
    /// Borrows the bytes of a file.
    pub fn new(bytes: &'a [u8]) -> FileSlice<'a>
        requires { length bytes.now ≤ FILE_BYTES }
        ensures { result ≡ bytes.now }
    {
        FileSlice { bytes }
    }

    /// The bytes.
    pub fn as_slice(&self) -> &'a [u8]
        ensures bytes { result.now ≡ self.now }
        ensures few { length result.now ≤ FILE_BYTES }
    {
        self.bytes
    }
}

/// The bytes that a request appends to a file, 1 to `limits::FILE_BYTES`, borrowed from its payload.
#[derive(Debug, Drop)]
pub struct AppendSlice<'a> {
    bytes: FileSlice<'a>,
}

impl<'a> Model for AppendSlice<'a> {
    ghost Value = { List ℕ };

    ghost view = { λ s. s.bytes };

    ghost invariant = { λ s. 0 < length s.bytes };
}

impl<'a> AppendSlice<'a> {
    /// Takes the bytes to append, of which there is at least one.
    pub fn new(bytes: FileSlice<'a>) -> AppendSlice<'a>
        requires { 0 < length bytes }
        ensures { result ≡ bytes.entry }
    {
        AppendSlice { bytes }
    }

    /// The bytes.
    pub fn as_file_slice(&self) -> &FileSlice<'a>
        ensures bytes { result.now ≡ self.now }
        ensures some { 0 < length result.now }
    {
        &self.bytes
    }
}

/// What a request changes.
#[derive(Debug, Drop)]
pub enum Op<'a> {
    /// Makes a file that is not there yet.
    Create {
        path: Path,
        bytes: FileSlice<'a>,
    },
    /// Gives a file other bytes.
    Replace {
        path: Path,
        bytes: FileSlice<'a>,
    },
    /// Adds bytes at the end of a file, which has `offset` bytes before.
    Append {
        path: Path,
        offset: u64,
        bytes: AppendSlice<'a>,
    },
    /// Makes an empty directory.
    MakeDir {
        path: Path,
    },
    /// Moves a file or a directory, with all that is below it.
    Rename {
        from: Path,
        to: Path,
    },
    /// Removes a file or an empty directory.
    Remove {
        path: Path,
    },
}

/// A change that a client asks for. A client numbers its requests from 1 on. A request borrows from its payload.
#[derive(Debug, Drop)]
pub struct Request<'a> {
    pub client: u64,
    pub number: u64,
    /// Microseconds from 1970-01-01 UTC.
    pub moment: u64,
    pub op: Op<'a>,
    pub ghost client_above_zero: { 0 < client },
    pub ghost number_above_zero: { 0 < number },
    pub ghost moment_in_range: { moment < MOMENT_LIMIT },
}

/// How many bytes of a file are asked for, at most `limits::FILE_BYTES`.
#[derive(Debug, Drop)]
pub struct ByteCount {
    bytes: u32,
}

impl Model for ByteCount {
    ghost Value = { ℕ };

    ghost view = { λ c. c.bytes };

    ghost invariant = { λ c. c.bytes ≤ FILE_BYTES };
}

impl ByteCount {
    /// So many bytes.
    pub fn new(bytes: u32) -> ByteCount
        requires { bytes ≤ FILE_BYTES }
        ensures { result ≡ bytes }
    {
        ByteCount { bytes }
    }

    /// How many bytes these are.
    pub fn bytes(&self) -> u32
        ensures count { result ≡ self.now }
        ensures few { result ≤ FILE_BYTES }
    {
        self.bytes
    }
}

/// A question about the tree.
#[derive(Debug, Drop)]
pub enum Query {
    /// The bytes of a file.
    Get(Path),
    /// The names in a directory.
    List(Path),
    /// The kind, moment and size of a file or a directory.
    Stat(Path),
    /// The bytes of a file from the offset on, so many at most.
    Read {
        path: Path,
        offset: u64,
        count: ByteCount,
    },
}

/// Why a payload is no message.
#[derive(Clone, Copy, Debug, PartialEq, Eq)]
pub enum Cause {
    /// The frame's payload is longer than 1,114,112 bytes.
    TooLong,
    /// The first byte is no kind of message.
    Kind,
    /// The payload ends before its last field does.
    Short,
    /// There are bytes after the last field, the length of data or the count of bytes is above the limit, or nothing is
    /// appended.
    Extra,
    /// A name is one that no file can have.
    Path,
    /// The moment has no timestamp: it is `limits::MOMENT_LIMIT` or later.
    Moment,
    /// The client is 0.
    ClientZero,
    /// The request number is 0.
    NumberZero,
}

impl Cause {
    ghost use Rattle.request.specs.Numbers.{cause_number};

    /// The number under which the cause is answered.
    pub fn number(self) -> u16
        ensures { result ≡ cause_number self }
    {
        match self {
            Cause::TooLong => 51,
            Cause::Kind => 52,
            Cause::Short => 53,
            Cause::Extra => 54,
            Cause::Path => 55,
            Cause::Moment => 56,
            Cause::ClientZero => 57,
            Cause::NumberZero => 58,
        }
    }
}

/// What the payload of a frame says.
#[derive(Debug, Drop)]
pub enum Message<'a> {
    Request(Request<'a>),
    Query(Query),
    /// The payload is no message.
    Malformed(Cause),
    /// There was no memory for what the payload says.
    NoMemory,
}
