//! Extents that are full.

ghost use Rattle.std.specs.Prelude.{◌≡◌, IsTrue, ◌↔◌, []};
ghost use Rattle.lookup.specs.Extents.{AreFull, full_size};

use limits::FILE_BYTES;
use std::alloc::Global;
use std::marker::Model;

/// Extents of [`limits::FILE_BYTES`] bytes each, which lie one after another in a file: their allocation descriptors
/// (ECMA-167 4/14.14.2).
#[derive(Debug, Drop)]
pub struct FullExtents {
    descriptors: Vec<u8>,
}

impl Model for FullExtents {
    ghost use Rattle.std.specs.Prelude.{ℕ, List};
    ghost use Rattle.lookup.specs.Extents.{AreFull};

    ghost Value = { List ℕ };

    ghost view = { λ e. e.descriptors.items };

    ghost invariant = { λ e. AreFull e.descriptors.items };
}

impl FullExtents {
    /// No extent.
    pub fn none(alloc: Global) -> FullExtents
        ensures { result ≡ [] }
    {
        FullExtents {
            descriptors: Vec::new(alloc),
        }
    }

    /// The extents of these descriptors.
    pub(crate) fn new(descriptors: Vec<u8>) -> FullExtents
        requires { AreFull descriptors.items }
        ensures { result ≡ descriptors.items }
    {
        FullExtents { descriptors }
    }

    /// Whether there is no extent.
    pub fn is_empty(&self) -> bool
        ensures none { IsTrue result ↔ (self.now ≡ []) }
        ensures size { IsTrue result ↔ (full_size self.now ≡ 0) }
    {
        self.descriptors.is_empty()
    }

    /// The descriptors, one after another.
    pub fn descriptors(&self) -> &[u8]
        ensures bytes { result.now ≡ self.now }
        ensures full { AreFull result.now }
    {
        self.descriptors.as_slice()
    }

    /// How many bytes are in the extents.
    pub fn size(&self) -> u32
        ensures { result ≡ full_size self.now }
    {
        FILE_BYTES as u32 * (self.descriptors.len() / 16) as u32
    }
}
