//! Directories as values.

use indexmap::IndexMap;
use osta::Name;

/// What a name leads to.
#[derive(Clone, Copy, Debug, PartialEq, Eq)]
pub enum Kind {
    File,
    Directory,
}

impl Kind {
    ghost use Rattle.std.specs.Prelude.{◌≡◌};
    ghost use Rattle.dir.specs.Directory as directory;

    /// Whether a name of this kind leads to a directory.
    pub(crate) fn is_directory(self) -> bool
        ensures { result ≡ directory.is_directory self }
    {
        match self {
            Kind::File => false,
            Kind::Directory => true,
        }
    }
}

/// What a directory says of a name.
#[derive(Clone, Copy, Debug, PartialEq, Eq)]
pub struct Entry {
    pub kind: Kind,
    /// The virtual address of its file entry.
    pub virtual_address: u32,
    /// The unique ID of its file entry.
    pub unique: u32,
}

/// A directory: the virtual address of the directory above it, and its names in stored order.
#[derive(Drop)]
pub struct Dir {
    pub parent: u32,
    /// The names with their entries, at most `limits::DIRECTORY_NAMES` on a volume.
    pub entries: IndexMap<Name, Entry>,
}
