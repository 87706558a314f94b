//! How many bytes identifiers take, and which of them share a block.

ghost use Rattle.limits.specs.declared.TheConstants.{BLOCK_BYTES};
ghost use Rattle.std.specs.Prelude.{◌≡◌, ◌+◌, ◌<◌, ◌≤◌, ◌^◌};
ghost use Rattle.dir.specs.Identifier as identifier;
ghost use Rattle.dir.specs.Layout as layout;

use limits::{BLOCK_BYTES, BLOCK_SIZE};

/// The least multiple of 4 that is not below the size.
pub(crate) fn rounded(size: usize) -> usize
    requires { size < 2 ^ 32 }
    ensures { result ≡ identifier.rounded size }
{
    (size + 3) / 4 * 4
}

/// The size of a file identifier without implementation use, by that of its compressed name.
pub(crate) fn plain_size(name_size: usize) -> usize
    requires { name_size ≤ 255 }
    ensures { result ≡ identifier.plain_size name_size }
{
    rounded(38 + name_size)
}

/// Whether an identifier of this size may be put into a block with `left` bytes left. After it none must be left, or
/// enough for the entity identifier with which an implementation use begins.
pub(crate) fn fits(size: usize, left: usize) -> bool
    requires { size < 2 ^ 32 }
    ensures { result ≡ layout.fits size left }
{
    size == left || size + 32 <= left
}

/// The size of a directory's data, from the lengths of its names alone.
#[derive(Clone, Copy, Debug, PartialEq, Eq)]
pub struct DataSize {
    /// How many whole blocks are before the last one.
    full: u32,
    /// How many bytes of the last block are data.
    used: u32,
    ghost some: { 0 < used },
    ghost in_block: { used ≤ BLOCK_BYTES },
}

impl DataSize {
    ghost use Rattle.std.specs.Prelude.{◌≡◌, ◌+◌, ◌<◌, ◌≤◌, ◌^◌};
    ghost use Rattle.ecma.specs.Blocks.{block_count};
    ghost use Rattle.dir.specs.Size.{end_of_data, parent_end, next_end, end_bytes};

    /// The data of a directory without names.
    pub fn new() -> DataSize
        ensures { end_of_data result ≡ parent_end }
    {
        DataSize { full: 0, used: 40 }
    }

    /// Adds a name after the others, of `name_size` bytes in compressed form (1 to 255).
    pub fn add(&mut self, name_size: usize)
        requires short { name_size ≤ 255 }
        requires room { (end_of_data self.old).full + 1 < 2 ^ 32 }
        ensures { end_of_data self.new ≡ next_end (end_of_data self.old) name_size }
    {
        let size = plain_size(name_size);
        if fits(size, BLOCK_SIZE - self.used as usize) {
            self.used += size as u32;
        } else {
            self.full += 1;
            self.used = size as u32;
        }
    }

    /// The information length of the directory's entry, in bytes.
    pub fn bytes(&self) -> u64
        ensures { result ≡ end_bytes (end_of_data self.now) }
    {
        u64::from(self.full) * u64::from(BLOCK_BYTES) + u64::from(self.used)
    }

    /// How many blocks the data take.
    pub fn blocks(&self) -> u32
        requires { (end_of_data self.now).full + 1 < 2 ^ 32 }
        ensures full { result ≡ (end_of_data self.now).full + 1 }
        ensures size { result ≡ block_count (end_bytes (end_of_data self.now)) }
    {
        self.full + 1
    }
}
