//! The content of a table.

ghost use Rattle.std.specs.Prelude.{◌≡◌};
ghost use Rattle.vat.specs.Version as spec;

use crate::record::Record;
use limits::{KEPT_REPLIES, RECORD_BYTES};
use osta::Label;

/// The version of the sessions, which determines how many replies a record has room for.
#[derive(Clone, Copy, Debug, PartialEq, Eq)]
pub enum Version {
    /// A record keeps one reply.
    One,
    /// A record keeps up to four.
    Two,
}

impl Version {
    pub(crate) fn number(self) -> u16
        ensures { result ≡ spec.version_number self }
    {
        match self {
            Version::One => 1,
            Version::Two => 2,
        }
    }

    pub(crate) fn read(number: u16) -> Option<Version>
        ensures { result ≡ spec.version_of number }
    {
        match number {
            1 => Some(Version::One),
            2 => Some(Version::Two),
            _ => None,
        }
    }

    /// How many replies a record has room for.
    pub fn places(self) -> usize
        ensures { result ≡ spec.places self }
    {
        match self {
            Version::One => 1,
            Version::Two => KEPT_REPLIES,
        }
    }

    /// How many bytes a record takes.
    pub fn record_size(self) -> usize
        ensures { result ≡ spec.record_size self }
    {
        match self {
            Version::One => 24,
            Version::Two => RECORD_BYTES,
        }
    }
}

/// The clients' sessions, as the table keeps them in its implementation use.
#[derive(Debug, Drop)]
pub struct Sessions {
    /// `One` only if every record has one reply.
    pub version: Version,
    /// The unique ID that the next node gets, from 16 on.
    pub next_unique: u32,
    /// How many commits there were.
    pub commits: u32,
    /// The records of the clients, in the order of their first commits: at most 64, and each client once.
    pub records: Vec<Record>,
}

/// A virtual allocation table, without its VAT ICB (UDF 2.01 2.2.10).
#[derive(Debug, Drop)]
pub struct Vat {
    /// The label of the volume.
    pub label: Label,
    /// The block number of the previous VAT ICB. `None` in the first table, whose count of commits is 0.
    pub previous: Option<u32>,
    /// How many files the tree has.
    pub files: u32,
    /// How many directories the tree has, including the root.
    pub directories: u32,
    pub sessions: Sessions,
    /// For each virtual address the block number that it stands for, or `None` if it is unused: 2 to 4,097 of them.
    pub entries: Vec<Option<u32>>,
}
