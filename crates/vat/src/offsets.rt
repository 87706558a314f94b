//! Where the fields of a table are, in bytes from its beginning (UDF 2.01 2.2.10).

pub(crate) const LABEL: usize = 4;

/// The block number of the VAT ICB before this one.
pub(crate) const PREVIOUS: usize = 132;

pub(crate) const FILES: usize = 136;

pub(crate) const DIRECTORIES: usize = 140;

/// Three revisions of UDF: the least to read, the least and the greatest to write.
pub(crate) const REVISIONS: usize = 144;

pub(crate) const RESERVED: usize = 150;

/// The implementation use: the sessions' identifier, what follows it, and the records.
pub(crate) const IMPLEMENTATION_USE: usize = 152;

/// The version of the sessions.
pub(crate) const VERSION: usize = 184;

pub(crate) const RECORD_COUNT: usize = 186;

pub(crate) const NEXT_UNIQUE: usize = 188;

pub(crate) const COMMITS: usize = 192;
