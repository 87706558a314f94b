//! The directories that were used last.

ghost use Rattle.limits.specs.declared.TheConstants.{BLOCK_BYTES, PARTITION_START};
ghost use Rattle.std.specs.Prelude.{◌≡◌, ◌+◌, ◌≤◌, List, IfOk, IfErr, IfSome};
ghost use Rattle.std.specs.Int.{div_ceil};
ghost use Rattle.drive.specs.Journal.{Event};
ghost use Rattle.recover.specs.Faults.{IsShortage, devices};
ghost use Rattle.lookup.specs.Cache.{AreKept, LiesThere};

use crate::content::Content;
use crate::nodes::{EntryAt, Placed};
use lru::LruCache;
use recover::{StoreFault, lies_below};
use std::alloc::Global;
use std::num::NonZeroUsize;

/// How many directories are kept.
const KEPT_DIRECTORIES: usize = 64;

/// Directories by where their entries are. A block is never written again, so what its entry says is kept with the
/// directory, and neither is read twice.
#[derive(Drop)]
pub struct DirectoryCache {
    cache: LruCache<EntryAt, (Placed, Content)>,
}

impl DirectoryCache {
    /// An empty cache.
    pub fn new(alloc: Global) -> Result<DirectoryCache, StoreFault>
        ensures kept { IfOk result (λ directories. (journal : List Event) → AreKept journal directories) }
        ensures short { IfErr result IsShortage }
        ensures device { devices result ≡ 0 }
    {
        let count = NonZeroUsize::new(KEPT_DIRECTORIES).unwrap();
        Ok(DirectoryCache {
            cache: LruCache::sparse(alloc, count)?,
        })
    }

    /// Takes out the directory whose entry is at this place, if it is kept. `None` if its data are not below the VAT
    /// ICB at `table`, as those of another state may be.
    pub(crate) fn take(&mut self, at: EntryAt, table: u32) -> Option<(Placed, Content)>
        ensures lies { IfSome result (λ kept. (journal : List Event) → AreKept journal self.old → (kept.0.at ≡ at) × LiesThere journal kept.0 kept.1) }
        ensures below { IfSome result (λ kept. kept.0.extent.first + PARTITION_START + div_ceil kept.0.extent.size BLOCK_BYTES ≤ table) }
        ensures kept { (journal : List Event) → AreKept journal self.old → AreKept journal self.new }
    {
        let (placed, content) = self.cache.pop(&at)?;
        if !lies_below(placed.extent.first, placed.extent.size, table) {
            return None;
        }
        Some((placed, content))
    }

    /// Keeps the directory at this place, if there is memory for it.
    pub fn keep(&mut self, placed: Placed, content: Content)
        ensures { (journal : List Event) → LiesThere journal placed content → AreKept journal self.old → AreKept journal self.new }
    {
        let _ = self.cache.put(placed.at, (placed, content));
    }
}
