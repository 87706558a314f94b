//! A directory as all of its blocks.

ghost use Rattle.std.specs.Prelude.{◌≡◌, ◌≤◌, length, IfOk};
ghost use Rattle.std.specs.List.{All};
ghost use Rattle.ecma.specs.Numbers.{u16_at};
ghost use Rattle.dir.specs.Directory.{directory_blocks};

use crate::entry::Dir;
use crate::laying::Lay;
use ecma::Block;
use limits::{BLOCK_SIZE, DIRECTORY_NAMES, PARTITION_BLOCKS};
use std::alloc::{AllocError, Global};

/// The blocks of a directory, of which the first has the number `first`.
pub fn lay(alloc: Global, dir: &Dir, first: u32) -> Result<Vec<Block>, AllocError>
    requires few { length dir.now.entries.entries ≤ DIRECTORY_NAMES }
    requires first { first ≤ PARTITION_BLOCKS }
    ensures blocks { IfOk result (λ blocks. blocks.items ≡ directory_blocks dir.now first) }
    // Each begins with an identifier's tag, and so is no file entry.
    ensures tags { IfOk result (λ blocks. All (λ block. u16_at 0 block ≡ 257) blocks.items) }
{
    let mut lay = Lay::new(dir, first);
    let mut blocks = Vec::new(alloc);
    let mut block = [0; BLOCK_SIZE];
    while lay.next_into(&mut block) {
        blocks.push(block)?;
    }
    Ok(blocks)
}
