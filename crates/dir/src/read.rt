//! A directory from its blocks.

ghost use Rattle.limits.specs.declared.TheConstants.{BLOCK_BYTES};
ghost use Rattle.std.specs.Prelude.{◌≡◌, ◌≢◌, ◌+◌, ◌-◌, ◌*◌, ◌<◌, ◌≤◌, ◌↔◌, ℕ, List, length, drop, replicate, IsTrue, IfOk, IfErr};
ghost use Rattle.std.specs.List.{concat};
ghost use Rattle.dir.specs.Directory.{IsDirectory};
ghost use Rattle.ecma.specs.Blocks.{block_count};
ghost use Rattle.dir.specs.declared.entry.Entry.{Entry};

use crate::entry::Dir;
use crate::fault::DirFault;
use crate::fids::Fids;
use ecma::{Block, are_zeros};
use indexmap::IndexMap;
use limits::{DIRECTORY_NAMES, PARTITION_BLOCKS};
use std::alloc::Global;

/// The directory whose data, of `size` bytes, these blocks are. The first of them has the number `first`. Otherwise the
/// first fault that is met.
pub fn read_dir(alloc: Global, blocks: &[Block], size: u32, first: u32) -> Result<Dir, DirFault>
    requires some { 0 < size }
    requires count { length blocks.now ≡ block_count size }
    requires first { first ≤ PARTITION_BLOCKS }
    // What is read is what the blocks hold.
    ensures found { IfOk result (λ dir. IsDirectory dir.parent dir.entries.entries first size blocks.now) }
    // Whatever they hold is read, unless memory is short.
    ensures only { IfErr result (λ fault. fault ≢ DirFault.Memory → (parent : ℕ) (entries : List (List ℕ × Entry)) → IsDirectory parent entries first size blocks.now → ⊥) }
{
    let mut fids = Fids::new(blocks, size as usize);
    let parent = fids.read_parent(first)?;
    let mut entries = IndexMap::new(alloc);
    while !fids.is_empty() {
        let (name, entry) = fids.read_name(alloc, first)?;
        if entries.insert(name, entry)?.is_some() {
            return Err(DirFault::Twice);
        }
    }
    if entries.len() > DIRECTORY_NAMES {
        return Err(DirFault::End);
    }
    if !ends_in_zeros(blocks, size as usize) {
        return Err(DirFault::End);
    }
    Ok(Dir { parent, entries })
}

/// Whether the bytes of the blocks after the data are zeros.
fn ends_in_zeros(blocks: &[Block], size: usize) -> bool
    requires { size ≤ BLOCK_BYTES * length blocks.now }
    ensures { IsTrue result ↔ (drop size (concat blocks.now) ≡ replicate (BLOCK_BYTES * length blocks.now - size) 0) }
{
    let (_, after) = blocks.as_flattened().split_at(size);
    are_zeros(after)
}
