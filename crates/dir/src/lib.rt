//! Directories: the one layout of their file identifiers in blocks (ECMA-167 4/14.4, UDF 2.01 2.3.4).
//!
//! A directory is the virtual address of the one above it, and its names in stored order, at most
//! `limits::DIRECTORY_NAMES`. Its data are an identifier of the directory above, and then one of each name. No
//! identifier crosses the end of a block: if the next one does not fit, or would leave 4 to 28 bytes, the one before it
//! is lengthened to the block's end by its implementation use.
//!
//! `Lay` and `lay` make exactly these bytes. `read_dir` returns a directory exactly if the blocks are its data, and
//! otherwise a fault or lack of memory. Blocks are the data of at most one directory. `Fids` shows the identifiers as
//! slices of the blocks. `DataSize` computes the size from the lengths of the names alone. `Identifiers` keeps what
//! `Lay` would otherwise encode again when a directory is laid out again, and the sums of the names.
//!
//! Left to others: what the addresses and unique IDs lead to, and where the blocks are.
#![tactic(auto)]

mod characteristics;
mod entry;
mod fault;
mod fids;
mod item;
mod kept;
mod laws;
mod laying;
mod read;
mod size;
mod sizing;
mod whole;

pub use entry::{Dir, Entry, Kind};
pub use fault::DirFault;
pub use fids::{Fid, Fids};
pub use kept::Identifiers;
pub use laws::{blocks_are_few, blocks_begin, data_is_sized, laid_is_directory, one_directory};
pub use laying::Lay;
pub use read::read_dir;
pub use size::DataSize;
pub use whole::lay;
