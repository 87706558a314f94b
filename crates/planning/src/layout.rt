//! The nodes of a commit with their places.

ghost use Rattle.limits.specs.declared.TheConstants.{PARTITION_BLOCKS};
ghost use Rattle.std.specs.Prelude.{◌≡◌, ◌≤◌};

use crate::change::NewDirectory;
use crate::file::NewFile;
use ecma::Block;
use icb::PlannedEntry;
use lookup::{EntryAt, Placed};
use recover::Extent;
use vat::Vat;

/// A file with its place.
#[derive(Drop)]
pub struct PlacedFile<'r> {
    pub file: NewFile<'r>,
    /// How many blocks of zeros are before its bytes, if these are outside the entry.
    pub gap: u32,
    /// Its descriptor blocks, which follow its bytes.
    pub listed: Vec<Block>,
    /// The block of its entry.
    pub entry: Block,
    /// The block number of its entry.
    pub number: u32,
}

/// The blocks that say where a file's bytes are.
#[derive(Drop)]
pub(crate) struct FileBlocks {
    /// Its descriptor blocks.
    pub listed: Vec<Block>,
    /// The block of its entry.
    pub entry: Block,
}

/// A directory with its place.
#[derive(Drop)]
pub struct PlacedDirectory {
    pub directory: NewDirectory,
    pub extent: Extent,
    pub entry: PlannedEntry<'static>,
    /// The number of its entry.
    pub number: u32,
    pub ghost room: { extent.first ≤ PARTITION_BLOCKS },
}

impl PlacedDirectory {
    /// Where its entry and its data are, once they are written.
    pub fn placed(&self) -> Placed
        ensures { result ≡ record { at = record { number = self.now.number; address = self.now.directory.address }; extent = self.now.extent; moment = self.now.directory.moment } }
    {
        Placed {
            at: EntryAt {
                number: self.number,
                address: self.directory.address,
            },
            extent: self.extent,
            moment: self.directory.moment,
        }
    }
}

/// A table with its place.
#[derive(Drop)]
pub struct PlacedTable {
    /// The table, which is kept in memory once it is written.
    pub vat: Vat,
    pub bytes: Vec<u8>,
    /// The block number at which its bytes begin.
    pub first: u32,
    /// How many blocks of zeros are before them.
    pub gap: u32,
    pub entry: PlannedEntry<'static>,
    /// The address of its entry.
    pub at: u32,
}
