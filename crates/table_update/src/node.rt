//! Nodes that requests make.

use dir::Kind;

/// A new node.
#[derive(Clone, Copy, Debug)]
pub struct NewNode {
    pub kind: Kind,
    /// Its virtual address.
    pub address: u32,
}
