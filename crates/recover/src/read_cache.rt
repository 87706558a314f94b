//! What was read of a medium for one state, and is not read again for the next one.

ghost use Rattle.limits.specs.declared.TheConstants.{BLOCK_BYTES, GREATEST_CAPACITY, LEAST_CAPACITY, PARTITION_BLOCKS, PARTITION_START};
ghost use Rattle.std.specs.Prelude.{◌≤◌, IfSome};
ghost use Rattle.std.proofs.Props.{props};

use crate::directory::Extent;
use crate::fault::StoreFault;
use crate::kept::{Directories, Entries, EntryPlace, Names, NodeEntry};
use crate::state::read_front;
use drive::Drive;
use std::alloc::Global;
use std::mem;
use volume::Front;

/// The volume header, an entry for each virtual address, and the directories of the current state and of the previous
/// one. A node that both states have is read once. No more is kept than that, however many states are looked at.
#[derive(Drop)]
pub struct ReadCache {
    front: Option<Front>,
    keeps_nodes: bool,
    /// For each virtual address, the entry that was read last.
    entries: Entries,
    /// The directories of the previous state that were not met in this one so far.
    before: Directories,
    /// The directories of this state that were met so far.
    met: Directories,
    ghost limits: { IfSome front (λ f. (LEAST_CAPACITY ≤ f.capacity) × (f.capacity ≤ GREATEST_CAPACITY)) } by { Prim.hlevel props },
}

impl ReadCache {
    ghost use Rattle.std.specs.Prelude.{◌≡◌, ◌+◌, ◌<◌, ◌≤◌, ℕ, List, IsTrue, IfOk, IfErr, IfSome, take};
    ghost use Rattle.std.specs.Int.{div_ceil};
    ghost use Rattle.drive.specs.Journal.{held, next_of};
    ghost use Rattle.volume.specs.Front.{IsFront};
    ghost use Rattle.drive.specs.Reads.{ReadsOnly};
    ghost use Rattle.recover.specs.Faults.{devices};
    ghost use Rattle.recover.specs.ReadCache.{IsKnown, IsCachedListing, IsEntrySaid, IsUnsaid};
    ghost use Rattle.recover.specs.Nodes.{IsDirectoryRefused, data_of};
    ghost use Rattle.recover.specs.State.{IsFrontRefused};

    /// An empty cache, which keeps what is read.
    pub fn new(alloc: Global) -> ReadCache
        ensures { (medium : List (List ℕ)) → IsKnown medium result }
    {
        ReadCache {
            front: None,
            keeps_nodes: true,
            entries: Entries::new(alloc),
            before: Directories::new(alloc),
            met: Directories::new(alloc),
        }
    }

    /// An empty cache that keeps the volume header, but no nodes.
    pub(crate) fn of_no_nodes(alloc: Global) -> ReadCache
        ensures { (medium : List (List ℕ)) → IsKnown medium result }
    {
        ReadCache {
            front: None,
            keeps_nodes: false,
            entries: Entries::new(alloc),
            before: Directories::new(alloc),
            met: Directories::new(alloc),
        }
    }

    /// Whether a directory of the previous state is left. For the first state there is none.
    pub(crate) fn has_directories(&self) -> bool {
        !self.before.is_empty()
    }

    /// Goes on to the next state. Of the directories, only those of the state that was current are kept.
    pub(crate) fn begin(&mut self)
        ensures { (medium : List (List ℕ)) → IsKnown medium self.old → IsKnown medium self.new }
    {
        mem::swap(&mut self.before, &mut self.met);
        self.met.clear();
    }

    /// What the volume header says. It is read if it is not known.
    pub(crate) fn front<D: Drive>(&mut self, drive: &mut D) -> Result<Front, StoreFault>
        requires within { PARTITION_START ≤ next_of (D.journal drive.old) }
        requires known { IsTrue (D.honest drive.old) → IsKnown (held (D.journal drive.old)) self.old }
        ensures front { IfOk result (λ front. IsTrue (D.honest drive.new) → IsFront front.label front.moment front.capacity (take PARTITION_START (held (D.journal drive.old)))) }
        ensures refused { IfErr result (λ fault. IsTrue (D.honest drive.new) → IsFrontRefused (take PARTITION_START (held (D.journal drive.old))) fault) }
        ensures limits { IfOk result (λ front. (LEAST_CAPACITY ≤ front.capacity) × (front.capacity ≤ GREATEST_CAPACITY)) }
        ensures known { IsTrue (D.honest drive.new) → IsKnown (held (D.journal drive.new)) self.new }
        ensures reads { ReadsOnly D.Drive (devices result) drive.old drive.new }
    {
        match self.front {
            Some(front) => Ok(front),
            None => {
                let front = read_front(drive)?;
                self.keep_front(&front);
                Ok(front)
            }
        }
    }

    /// Keeps what the volume header says.
    fn keep_front(&mut self, front: &Front)
        requires low { LEAST_CAPACITY ≤ front.now.capacity }
        requires high { front.now.capacity ≤ GREATEST_CAPACITY }
        ensures { (medium : List (List ℕ)) → IsFront front.now.label front.now.moment front.now.capacity (take PARTITION_START medium) → IsKnown medium self.old → IsKnown medium self.new }
    {
        self.front = Some(*front);
    }

    /// The entry at this place, if it is known.
    pub(crate) fn find(&self, place: EntryPlace) -> Option<NodeEntry>
        ensures { (medium : List (List ℕ)) → IsKnown medium self.now → IfSome result (IsEntrySaid medium place) }
    {
        self.entries.find(place)
    }

    /// The entry at this place. It is read if it is not known, with its descriptor blocks, which must end below the address
    /// `below`.
    pub(crate) fn entry<D: Drive>(
        &mut self,
        drive: &mut D,
        place: EntryPlace,
        below: u32,
    ) -> Result<NodeEntry, StoreFault>
        requires within { place.at < next_of (D.journal drive.old) }
        requires below { below ≤ next_of (D.journal drive.old) }
        requires known { IsTrue (D.honest drive.old) → IsKnown (held (D.journal drive.old)) self.old }
        ensures described { IfOk result (λ entry. IsTrue (D.honest drive.new) → IsEntrySaid (held (D.journal drive.old)) place entry) }
        ensures refused { IfErr result (λ fault. IsTrue (D.honest drive.new) → IsUnsaid (held (D.journal drive.old)) below place fault) }
        ensures known { IsTrue (D.honest drive.new) → IsKnown (held (D.journal drive.new)) self.new }
        ensures reads { ReadsOnly D.Drive (devices result) drive.old drive.new }
    {
        match self.entries.find(place) {
            Some(entry) => Ok(entry),
            None => {
                let entry = NodeEntry::read(drive, place, below)?;
                self.keep_entry(place, entry);
                Ok(entry)
            }
        }
    }

    /// Keeps the entry at this place, if nodes are kept.
    fn keep_entry(&mut self, place: EntryPlace, entry: NodeEntry)
        ensures { (medium : List (List ℕ)) → IsEntrySaid medium place entry → IsKnown medium self.old → IsKnown medium self.new }
    {
        if self.keeps_nodes {
            self.entries.keep(place, entry);
        }
    }

    /// The directory at this extent. It is read if it is not known, and is not in the cache while its names are walked.
    pub(crate) fn directory<D: Drive>(
        &mut self,
        alloc: Global,
        drive: &mut D,
        extent: Extent,
    ) -> Result<Names, StoreFault>
        requires some { 0 < extent.size }
        requires first { extent.first ≤ PARTITION_BLOCKS }
        requires within { extent.first + PARTITION_START + div_ceil extent.size BLOCK_BYTES ≤ next_of (D.journal drive.old) }
        requires known { IsTrue (D.honest drive.old) → IsKnown (held (D.journal drive.old)) self.old }
        ensures named { IfOk result (λ names. IsTrue (D.honest drive.new) → IsCachedListing (held (D.journal drive.old)) extent names) }
        ensures refused { IfErr result (λ fault. IsTrue (D.honest drive.new) → IsDirectoryRefused extent (data_of (held (D.journal drive.old)) extent) fault) }
        ensures known { IsTrue (D.honest drive.new) → IsKnown (held (D.journal drive.new)) self.new }
        ensures reads { ReadsOnly D.Drive (devices result) drive.old drive.new }
    {
        match self.before.take(extent) {
            Some(names) => Ok(names),
            None => Names::read(alloc, drive, extent),
        }
    }

    /// Keeps the directory at this extent, if nodes are kept.
    pub(crate) fn keep_directory(&mut self, extent: Extent, names: Names)
        ensures { (medium : List (List ℕ)) → IsCachedListing medium extent names → IsKnown medium self.old → IsKnown medium self.new }
    {
        if self.keeps_nodes {
            self.met.keep(extent, names);
        }
    }
}
