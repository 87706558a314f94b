//! Nodes, as the directories above them name them.

ghost use Rattle.std.specs.Prelude.{◌≡◌};
ghost use Rattle.udf.specs.Said.{names_directory};

use crate::walk::ROOT_ADDRESS;
use dir::Kind;

/// A node, as the directory above it names it.
#[derive(Clone, Copy, Debug)]
pub struct Node {
    pub kind: Kind,
    /// The virtual address of its entry.
    pub address: u32,
    pub unique: u32,
}

impl Node {
    /// Whether the node is a directory.
    pub fn is_directory(self) -> bool
        ensures { result ≡ names_directory self.kind }
    {
        match self.kind {
            Kind::File => false,
            Kind::Directory => true,
        }
    }
}

/// The root, which nothing names.
pub const ROOT: Node = Node {
    kind: Kind::Directory,
    address: ROOT_ADDRESS,
    unique: 0,
};
