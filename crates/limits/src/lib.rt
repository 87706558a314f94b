//! The limits of this profile of UDF 2.01 and of the messages, and the sizes from which the room for a commit is
//! computed, each stated once. The crates above cite them. What each one means for a volume or a message is stated and
//! proved in the crate that keeps it.
#![tactic(auto)]

/// The size of a logical sector and of a logical block, in bytes (UDF 2.01 2.2.4.2).
pub const BLOCK_BYTES: u32 = 2048;

/// [`BLOCK_BYTES`] as the length of an array or a slice.
pub const BLOCK_SIZE: usize = BLOCK_BYTES as usize;

/// A block of the medium. Its address counts blocks from 0.
pub type Block = [u8; BLOCK_SIZE];

/// The fewest blocks that a medium may have.
pub const LEAST_CAPACITY: u32 = 512;

/// The most blocks of a medium that are used.
pub const GREATEST_CAPACITY: u32 = 450_000;

/// Where the partition begins, in blocks from the volume's start: the number of blocks before it.
pub const PARTITION_START: u32 = 257;

/// How many blocks the longest partition has.
pub const PARTITION_BLOCKS: u32 = GREATEST_CAPACITY - PARTITION_START;

/// How many blocks the shortest partition has.
pub const LEAST_PARTITION_BLOCKS: u32 = LEAST_CAPACITY - PARTITION_START;

/// How many blocks a format writes: the volume header, the file set, the root, and the first virtual allocation table.
pub const FORMAT_BLOCKS: u32 = 262;

/// The most files and directories of a volume, including the root.
pub const NODES: u32 = 4096;

/// The most virtual addresses of a table: the file set's, and one for each file and directory.
pub const ADDRESSES: usize = NODES as usize + 1;

/// The most names in a directory.
pub const DIRECTORY_NAMES: usize = 512;

/// The fewest bytes that identifiers fill in a block of a directory, in each block but the last.
pub const LEAST_FILLED_BYTES: u64 = 1_720;

/// The most names in a path of the tree.
pub const PATH_NAMES: u32 = 16;

/// The most names in a path of a message. The volume refuses a path of more than [`PATH_NAMES`].
pub const MESSAGE_PATH_NAMES: usize = 255;

/// The greatest size of an extent, in bytes. Every extent of a file but the last has this size, and so many bytes of a
/// file fit in one message.
pub const FILE_BYTES: usize = 1_048_576;

/// The most extents of a file: as many as begin in the longest partition, one after another.
pub const EXTENTS: u32 = 879;

/// The greatest size of a file, in bytes: that of [`EXTENTS`] extents.
pub const GREATEST_FILE: u32 = 921_698_304;

/// The most allocation descriptors that an entry has room for.
pub const ENTRY_DESCRIPTORS: u32 = 117;

/// The most allocation descriptors that a descriptor block has room for.
pub const BLOCK_DESCRIPTORS: u32 = 126;

/// The most bytes of a file that fit in its entry.
pub const INSIDE_BYTES: u32 = 1_872;

/// The most clients that a volume knows.
pub const CLIENTS: usize = 64;

/// How many replies are kept for each client.
pub const KEPT_REPLIES: usize = 4;

/// The size of a virtual allocation table before its first record, in bytes: its header (UDF 2.01 2.2.10) and that of
/// the sessions.
pub const TABLE_HEAD_BYTES: usize = 196;

/// The size of a client's record in a table, in bytes.
pub const RECORD_BYTES: usize = 48;

/// The size of a virtual address in a table, in bytes.
pub const ADDRESS_BYTES: usize = 4;

/// The unique ID that the first file or directory after the root gets (UDF 2.01 3.2.1.1).
pub const FIRST_UNIQUE: u32 = 16;

/// The first moment that has no timestamp, in microseconds from 1970: the beginning of the year 2100.
pub const MOMENT_LIMIT: u64 = 4_102_444_800_000_000;
