//! The answers to a client.

ghost use Rattle.limits.specs.declared.TheConstants.{DIRECTORY_NAMES};
ghost use Rattle.std.specs.Prelude.{◌≡◌, ◌<◌, ◌≤◌, ◌++◌, ◌∷◌, [], List, ℕ, length, vec_len, OnOk, OnErr};

use crate::message::{Cause, FileData};
use osta::Name;
use std::alloc::{AllocError, Global};
use std::marker::Model;

/// How a committed request went.
#[derive(Clone, Copy, Debug, PartialEq, Eq)]
pub enum Code {
    /// The tree was changed as asked. With any other code it stays as it was.
    Done,
    /// The parent is not a directory of the tree.
    NoParent,
    /// The path leads to nothing.
    NotFound,
    /// The path is taken.
    Exists,
    /// A directory cannot be given bytes.
    IsDirectory,
    /// A directory that has names is not removed.
    NotEmpty,
    /// A directory is not moved below itself.
    IntoItself,
    /// The root cannot be made, replaced, moved or removed.
    Root,
    /// A path would have more than 16 names.
    TooDeep,
    /// The parent has as many names as a directory may have.
    DirectoryFull,
    /// The tree has 4,096 nodes, which is the most.
    TooMany,
}

impl Code {
    ghost use Rattle.std.specs.Prelude.{MatchOption};
    ghost use Rattle.request.specs.Numbers.{code_number};

    /// The number under which the code is answered and kept, from 0 to 10.
    pub fn number(self) -> u16
        ensures { result ≡ code_number self }
    {
        match self {
            Code::Done => 0,
            Code::NoParent => 1,
            Code::NotFound => 2,
            Code::Exists => 3,
            Code::IsDirectory => 4,
            Code::NotEmpty => 5,
            Code::IntoItself => 6,
            Code::Root => 7,
            Code::TooDeep => 8,
            Code::DirectoryFull => 9,
            Code::TooMany => 10,
        }
    }

    /// The code with this number, for a number from 0 to 10.
    pub fn of(number: u16) -> Option<Code>
        ensures { MatchOption result (10 < number) (λ code. number ≡ code_number code) }
    {
        match number {
            0 => Some(Code::Done),
            1 => Some(Code::NoParent),
            2 => Some(Code::NotFound),
            3 => Some(Code::Exists),
            4 => Some(Code::IsDirectory),
            5 => Some(Code::NotEmpty),
            6 => Some(Code::IntoItself),
            7 => Some(Code::Root),
            8 => Some(Code::TooDeep),
            9 => Some(Code::DirectoryFull),
            10 => Some(Code::TooMany),
            _ => None,
        }
    }
}

/// How a request went, and which commit it was.
#[derive(Clone, Copy, Debug, PartialEq, Eq)]
pub struct Reply {
    pub code: Code,
    /// The number of the commit.
    pub commit: u32,
}

/// What a path leads to.
#[derive(Clone, Copy, Debug, PartialEq, Eq)]
pub enum NodeKind {
    File,
    Directory,
}

impl NodeKind {
    ghost use Rattle.request.specs.Numbers.{kind_number};

    /// The number under which the kind is answered.
    pub fn number(self) -> u8
        ensures { result ≡ kind_number self }
    {
        match self {
            NodeKind::File => 0,
            NodeKind::Directory => 1,
        }
    }
}

/// A name in a directory, and what it leads to.
#[derive(Debug, Drop)]
pub struct Listed {
    pub kind: NodeKind,
    pub name: Name,
}

/// The names in a directory in their stored order, at most `limits::DIRECTORY_NAMES`.
#[derive(Debug, Drop)]
pub struct Listing {
    names: Vec<Listed>,
}

impl Model for Listing {
    ghost use Rattle.std.specs.Prelude.{List};
    ghost use Rattle.request.specs.declared.answer.Listed.{Listed};
    ghost use Rattle.request.specs.Listing.{IsListing};

    ghost Value = { List Listed };

    ghost view = { λ l. l.names.items };

    ghost invariant = { λ l. IsListing l.names.items };
}

impl Listing {
    ghost use Rattle.request.specs.Listing.{IsListing};

    /// The listing of an empty directory.
    pub fn new(alloc: Global) -> Listing
        ensures { result ≡ [] }
    {
        Listing {
            names: Vec::new(alloc),
        }
    }

    /// The names in their stored order.
    pub fn names(&self) -> &[Listed]
        ensures names { result.now ≡ self.now }
        ensures listing { IsListing self.now }
    {
        self.names.as_slice()
    }

    /// Adds a name at the end. If there is no memory, the listing stays as it was.
    pub fn push(&mut self, listed: Listed) -> Result<(), AllocError>
        requires { length self.old < DIRECTORY_NAMES }
        ensures ok { OnOk result (self.new ≡ self.old ++ listed ∷ []) }
        ensures err { OnErr result (self.new ≡ self.old) }
    {
        // Unused: it gives the proof that this is a name, by its type.
        let _text = listed.name.as_str();
        self.names.push(listed)?;
        Ok(())
    }
}

/// The kind, moment and size of a file or a directory.
#[derive(Clone, Copy, Debug, PartialEq, Eq)]
pub struct NodeStatus {
    pub kind: NodeKind,
    /// Microseconds from 1970-01-01 UTC.
    pub moment: u64,
    /// How many bytes a file has, or how many names a directory has.
    pub size: u64,
}

/// An answer to a client.
#[derive(Debug, Drop)]
pub enum Answer {
    /// The request is committed.
    Reply(Reply),
    /// The request is older than those whose replies are kept. Holds the client's latest number.
    Stale(u64),
    /// The request is not the client's next one. Holds the client's latest number, or 0 if it has none.
    Gap(u64),
    /// The client is new, and the volume knows as many as it may.
    ClientsFull,
    /// The medium has no room for the request.
    Full,
    /// The drive failed. The request may be committed or not.
    Fault,
    /// There was no memory.
    Memory,
    /// The payload was no message.
    Malformed(Cause),
    /// The medium holds no volume, or a damaged one.
    Damaged,
    /// The path leads to nothing.
    NotFound,
    /// A file was asked for, and the path leads to a directory.
    IsDirectory,
    /// A directory was asked for, and the path leads to a file.
    NotDirectory,
    /// The whole file was asked for, and it has more bytes than an answer may have.
    TooLong,
    /// The bytes of a file, or of a piece of it.
    Data(FileData),
    /// The names in a directory.
    Names(Listing),
    /// What a path leads to.
    Node(NodeStatus),
}
