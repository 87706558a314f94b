//! Sums over the names of a directory.

ghost use Rattle.std.specs.Prelude.{◌≡◌, ◌*◌, ◌<◌, ◌≤◌, ℕ, length};
ghost use Rattle.std.specs.List.{All};
ghost use Rattle.dir.specs.Directory.{directory_size, directory_blocks, directory_count, IsDirectoryEntry};
ghost use Rattle.ecma.specs.Blocks.{block_count};
ghost use Rattle.dir.specs.Size.{end_of_data, end_bytes, name_sizes, plain_sizes};

use crate::entry::Dir;
use crate::item::Item;
use crate::size::{DataSize, plain_size};
use limits::DIRECTORY_NAMES;

impl Dir {
    /// The size of the directory's data, from the lengths of its names alone.
    pub fn data_size(&self) -> DataSize
        requires few { length self.now.entries.entries ≤ DIRECTORY_NAMES }
        ensures size { end_bytes (end_of_data result) ≡ directory_size self.now }
        ensures full { (end_of_data result).full < DIRECTORY_NAMES }
        ensures blocks { (first : ℕ) → length (directory_blocks self.now first) ≡ block_count (directory_size self.now) }
    {
        let mut size = DataSize::new();
        for i in 0..self.entries.len() {
            let (name, _) = self.entries.get_index(i).unwrap();
            size.add(name.compressed().len());
        }
        size
    }

    /// The size of the identifiers of its names if none is lengthened, in bytes.
    pub fn plain_size(&self) -> usize
        requires few { length self.now.entries.entries ≤ DIRECTORY_NAMES }
        ensures size { result ≡ plain_sizes (name_sizes self.now.entries.entries) }
        ensures few { result ≤ 296 * DIRECTORY_NAMES }
        ensures proper { All IsDirectoryEntry self.now.entries.entries }
    {
        let mut size = 0;
        for i in 0..self.entries.len() {
            let (name, entry) = self.entries.get_index(i).unwrap();
            let item = Item::of_name(name, *entry);
            size += plain_size(item.name.len());
        }
        size
    }

    /// How many of its names lead to directories.
    pub fn directory_count(&self) -> u16
        requires few { length self.now.entries.entries ≤ DIRECTORY_NAMES }
        ensures value { result ≡ directory_count self.now.entries.entries }
        ensures few { result ≤ DIRECTORY_NAMES }
    {
        let directories = self
            .entries
            .values()
            .filter(|entry| entry.kind.is_directory());
        directories.count() as u16
    }
}
