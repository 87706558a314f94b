//! Nodes as they were read, by where they are.

ghost use Rattle.limits.specs.declared.TheConstants.{BLOCK_BYTES, DIRECTORY_NAMES, PARTITION_BLOCKS, PARTITION_START};
ghost use Rattle.std.specs.Prelude.{◌≡◌, ◌<◌, ◌≤◌, IfSome, length};
ghost use Rattle.std.proofs.Props.{props};
ghost use Rattle.recover.specs.Nodes.{links_of};

use crate::checked::CheckedFiles;
use crate::directory::{Extent, link_count, read_directory};
use crate::extents::extent_of;
use crate::fault::{StoreFault, damaged};
use crate::places::reach;
use crate::reading::read_into;
use dir::Dir;
use drive::Drive;
use icb::{Kind, decode_fe};
use limits::BLOCK_SIZE;
use std::alloc::Global;
use std::collections::HashMap;

/// The place of an entry: the address of its block, and the virtual address of its node.
#[derive(Clone, Copy, Debug, PartialEq, Eq, Hash)]
pub(crate) struct EntryPlace {
    pub at: u32,
    pub address: u32,
}

/// What the entry of a node says of it.
#[derive(Clone, Copy, Debug)]
pub(crate) struct NodeEntry {
    pub kind: Kind,
    pub unique: u64,
    pub links: u16,
    /// The extent of the node's bytes, or of several and their descriptor blocks the one that ends last. None where no block
    /// holds them.
    pub extent: Option<Extent>,
    pub ghost fits: { IfSome extent (λ e. (0 < e.size) × (e.first ≤ PARTITION_BLOCKS)) } by { Prim.hlevel props },
}

impl NodeEntry {
    ghost use Rattle.std.specs.Prelude.{◌≡◌, ◌<◌, ◌≤◌, IsTrue, IfOk, IfErr};
    ghost use Rattle.drive.specs.Journal.{held, next_of};
    ghost use Rattle.drive.specs.Reads.{ReadsOnly};
    ghost use Rattle.recover.specs.Faults.{devices};
    ghost use Rattle.recover.specs.ReadCache.{IsEntrySaid, IsUnsaid};

    /// Reads the entry that is there, and its descriptor blocks, if it has some. If these do not end below the address
    /// `below`, this is damage at the entry, with the cause `RANGE`.
    // (Not inlined, so that finding a kept entry takes no room for a block on the stack.)
    #[inline(never)]
    pub(crate) fn read<D: Drive>(
        drive: &mut D,
        place: EntryPlace,
        below: u32,
    ) -> Result<NodeEntry, StoreFault>
        requires within { place.at < next_of (D.journal drive.old) }
        requires below { below ≤ next_of (D.journal drive.old) }
        ensures described { IfOk result (λ entry. IsTrue (D.honest drive.new) → IsEntrySaid (held (D.journal drive.old)) place entry) }
        ensures refused { IfErr result (λ fault. IsTrue (D.honest drive.new) → IsUnsaid (held (D.journal drive.old)) below place fault) }
        ensures reads { ReadsOnly D.Drive (devices result) drive.old drive.new }
    {
        let mut block = [0; BLOCK_SIZE];
        read_into(drive, place.at, &mut block)?;
        let entry = match decode_fe(&block, place.address) {
            Ok(entry) => entry,
            Err(fault) => return Err(damaged(place.at, fault.number())),
        };
        let extent = extent_of(drive, place.at, &entry, below)?;
        Ok(NodeEntry {
            kind: entry.kind,
            unique: entry.unique,
            links: entry.links,
            extent,
        })
    }
}

/// A directory that blocks hold.
#[derive(Drop)]
pub(crate) struct Names {
    pub dir: Dir,
    /// Its link count, which is computed once.
    pub links: u16,
    /// Those of its files that were found under their names.
    pub files: CheckedFiles,
    pub ghost few: { length dir.entries.entries ≤ DIRECTORY_NAMES },
    pub ghost counted: { links ≡ links_of dir.entries.entries },
}

impl Names {
    ghost use Rattle.std.specs.Prelude.{◌≡◌, ◌+◌, ◌<◌, ◌≤◌, IsTrue, IfOk, IfErr};
    ghost use Rattle.std.specs.Int.{div_ceil};
    ghost use Rattle.drive.specs.Journal.{held, next_of};
    ghost use Rattle.drive.specs.Reads.{ReadsOnly};
    ghost use Rattle.recover.specs.Faults.{devices};
    ghost use Rattle.recover.specs.ReadCache.{IsCachedListing};
    ghost use Rattle.recover.specs.Nodes.{IsDirectoryRefused, data_of};

    /// Reads the directory whose bytes are at `extent`.
    #[inline(never)]
    pub(crate) fn read<D: Drive>(
        alloc: Global,
        drive: &mut D,
        extent: Extent,
    ) -> Result<Names, StoreFault>
        requires some { 0 < extent.size }
        requires first { extent.first ≤ PARTITION_BLOCKS }
        requires within { extent.first + PARTITION_START + div_ceil extent.size BLOCK_BYTES ≤ next_of (D.journal drive.old) }
        ensures named { IfOk result (λ names. IsTrue (D.honest drive.new) → IsCachedListing (held (D.journal drive.old)) extent names) }
        ensures refused { IfErr result (λ fault. IsTrue (D.honest drive.new) → IsDirectoryRefused extent (data_of (held (D.journal drive.old)) extent) fault) }
        ensures reads { ReadsOnly D.Drive (devices result) drive.old drive.new }
    {
        let dir = read_directory(alloc, drive, extent)?;
        Ok(Names {
            links: link_count(&dir),
            dir,
            files: CheckedFiles::new(alloc),
        })
    }
}

/// Entries are kept for virtual addresses below this. A sound tree has no others, since a new node takes the least free
/// one.
const KEPT_ADDRESSES: usize = 8_192;

/// An entry that is kept.
#[derive(Clone, Copy, Debug)]
struct KeptEntry {
    /// The address of its block.
    at: u32,
    entry: NodeEntry,
}

/// Entries that are kept, one for each virtual address.
#[derive(Drop)]
pub(crate) struct Entries {
    kept: Vec<Option<KeptEntry>>,
}

impl Entries {
    ghost use Rattle.std.specs.Prelude.{◌<◌, ◌≤◌, ℕ, List, IfSome, vec_len};
    ghost use Rattle.recover.specs.ReadCache.{AreCachedEntries, IsEntrySaid};

    /// No entry yet.
    pub(crate) fn new(alloc: Global) -> Entries
        ensures { (medium : List (List ℕ)) → AreCachedEntries medium result }
    {
        Entries {
            kept: Vec::new(alloc),
        }
    }

    /// The entry at this place, if it is kept.
    pub(crate) fn find(&self, place: EntryPlace) -> Option<NodeEntry>
        ensures { (medium : List (List ℕ)) → AreCachedEntries medium self.now → IfSome result (IsEntrySaid medium place) }
    {
        let index = place.address as usize;
        if index >= self.kept.len() {
            return None;
        }
        match self.kept[index] {
            Some(kept) if kept.at == place.at => Some(kept.entry),
            _ => None,
        }
    }

    /// Keeps the entry at this place, instead of the one that was kept for its virtual address, if there is memory for
    /// it.
    pub(crate) fn keep(&mut self, place: EntryPlace, entry: NodeEntry)
        ensures { (medium : List (List ℕ)) → IsEntrySaid medium place entry → AreCachedEntries medium self.old → AreCachedEntries medium self.new }
    {
        let index = place.address as usize;
        if index >= KEPT_ADDRESSES {
            return;
        }
        let Ok(()) = reach(&mut self.kept, index, None) else {
            return;
        };
        self.kept[index] = Some(KeptEntry {
            at: place.at,
            entry,
        });
    }
}

/// Directories that are kept, by their extents.
#[derive(Drop)]
pub(crate) struct Directories {
    kept: HashMap<Extent, Names>,
}

impl Directories {
    ghost use Rattle.std.specs.Prelude.{ℕ, List, IfSome};
    ghost use Rattle.recover.specs.ReadCache.{AreCachedDirectories, IsCachedListing};

    /// No directory yet.
    pub(crate) fn new(alloc: Global) -> Directories
        ensures { (medium : List (List ℕ)) → AreCachedDirectories medium result }
    {
        Directories {
            kept: HashMap::new(alloc),
        }
    }

    /// Whether none is kept.
    pub(crate) fn is_empty(&self) -> bool {
        self.kept.is_empty()
    }

    /// Drops all directories, and keeps the room of the map for the next ones.
    pub(crate) fn clear(&mut self)
        ensures { (medium : List (List ℕ)) → AreCachedDirectories medium self.new }
    {
        self.kept.clear();
    }

    /// Takes out the directory at this extent, if it is kept.
    pub(crate) fn take(&mut self, extent: Extent) -> Option<Names>
        ensures named { (medium : List (List ℕ)) → AreCachedDirectories medium self.old → IfSome result (IsCachedListing medium extent) }
        ensures kept { (medium : List (List ℕ)) → AreCachedDirectories medium self.old → AreCachedDirectories medium self.new }
    {
        self.kept.remove(&extent)
    }

    /// Keeps the directory at this extent, if there is memory for it.
    pub(crate) fn keep(&mut self, extent: Extent, names: Names)
        ensures { (medium : List (List ℕ)) → IsCachedListing medium extent names → AreCachedDirectories medium self.old → AreCachedDirectories medium self.new }
    {
        let _ = self.kept.insert(extent, names);
    }
}
