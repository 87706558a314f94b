//! The causes of damage that are seen only where structures are compared with each other. Other causes are the faults of
//! one structure alone.

/// The blocks before the partition are not those of one label, moment and capacity.
pub const FRONT: u8 = 71;

/// The capacity is above the drive's, or data are not below the VAT ICB, or a virtual address is unused.
pub const RANGE: u8 = 72;

/// The kind, unique ID or link count of a node is not what its directory says, or a directory has another parent.
pub const IDENTITY: u8 = 73;

/// Two names lead to one virtual address.
pub const REACHED_TWICE: u8 = 74;

/// The counts of the table are not those of the tree, or cannot be those of a table at its address.
pub const COUNTS: u8 = 75;

/// A path has more than 16 names.
pub const TOO_DEEP: u8 = 76;

/// The labels or the moments of the format differ.
pub const LABEL: u8 = 77;

/// A link of the chain leads to no table, or to one whose count of commits is not one less.
pub const CHAIN: u8 = 78;
