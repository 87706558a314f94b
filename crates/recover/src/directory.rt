//! Directories read back from a medium.

ghost use Rattle.limits.specs.declared.TheConstants.{BLOCK_BYTES, PARTITION_START};
ghost use Rattle.std.specs.Prelude.{◌≡◌, ◌+◌, ◌<◌, ◌≤◌, ◌^◌, ℕ, List, IsTrue, IfOk, IfErr, length, All};
ghost use Rattle.udf.specs.Udf.{IsBlock};
ghost use Rattle.std.specs.Int.{div_ceil};
ghost use Rattle.drive.specs.Journal.{held, next_of};
ghost use Rattle.dir.specs.Directory.{IsDirectory};
ghost use Rattle.drive.specs.Reads.{ReadsOnly};
ghost use Rattle.recover.specs.Faults.{devices};
ghost use Rattle.recover.specs.Nodes.{IsDirectoryRefused, data_of, links_of};

use crate::fault::{StoreFault, damaged};
use crate::reading::{block_count, read_blocks};
use dir::{Dir, DirFault, read_dir};
use drive::Drive;
use limits::{DIRECTORY_NAMES, PARTITION_BLOCKS, PARTITION_START};
use std::alloc::Global;

/// Where the bytes of a node are: the number of their first block, and how many bytes there are.
#[derive(Clone, Copy, Debug, PartialEq, Eq, Hash)]
pub struct Extent {
    pub first: u32,
    pub size: u32,
}

impl Extent {
    ghost use Rattle.std.specs.Prelude.{◌≡◌};
    ghost use Rattle.recover.specs.Walk.{end_of};

    /// The block number after its last block.
    pub(crate) fn end(self) -> u64
        ensures { result ≡ end_of self }
    {
        u64::from(self.first) + u64::from(block_count(self.size))
    }
}

/// Reads the directory whose bytes are at `extent`.
pub fn read_directory<D: Drive>(
    alloc: Global,
    drive: &mut D,
    extent: Extent,
) -> Result<Dir, StoreFault>
    requires some { 0 < extent.size }
    requires first { extent.first ≤ PARTITION_BLOCKS }
    requires within { extent.first + PARTITION_START + div_ceil extent.size BLOCK_BYTES ≤ next_of (D.journal drive.old) }
    ensures directory { IfOk result (λ dir. (blocks : List (List ℕ)) × (IsTrue (D.honest drive.new) → blocks ≡ data_of (held (D.journal drive.old)) extent) × All IsBlock blocks × IsDirectory dir.parent dir.entries.entries extent.first extent.size blocks) }
    ensures refused { IfErr result (λ fault. IsTrue (D.honest drive.new) → IsDirectoryRefused extent (data_of (held (D.journal drive.old)) extent) fault) }
    ensures reads { ReadsOnly D.Drive (devices result) drive.old drive.new }
{
    let at = extent.first + PARTITION_START;
    let blocks = read_blocks(alloc, drive, at, block_count(extent.size))?;
    match read_dir(alloc, &blocks, extent.size, extent.first) {
        Ok(directory) => Ok(directory),
        Err(DirFault::Memory) => Err(StoreFault::Memory),
        Err(fault) => Err(damaged(at, fault.number())),
    }
}

/// The link count of a directory: one, and one for each directory in it.
pub(crate) fn link_count(directory: &Dir) -> u16
    requires few { length directory.now.entries.entries ≤ DIRECTORY_NAMES }
    ensures { result ≡ links_of directory.now.entries.entries }
{
    1 + directory.directory_count()
}
