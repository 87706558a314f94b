//! Questions about the tree.

ghost use Rattle.limits.specs.declared.TheConstants.{ADDRESSES};
ghost use Rattle.std.specs.Prelude.{◌≡◌, ◌≤◌, IsTrue, IfOk, IfErr, OnOk, Err, false, length};
ghost use Rattle.drive.specs.Journal.{Once};
ghost use Rattle.drive.specs.Reads.{ReadsOnly};
ghost use Rattle.durability.specs.Runs as runs;
ghost use Rattle.model.specs.Tree.{Tree};
ghost use Rattle.recover.specs.Faults.{devices};
ghost use Rattle.recover.specs.declared.fault.StoreFault.TheVariants.{Stopped};
ghost use Rattle.store.specs.Agrees.{IsStoreOn};
ghost use Rattle.lookup.specs.Cache.{AreKept};
ghost use Rattle.lookup.specs.Asked.{said_names};
ghost use Rattle.lookup.specs.Asked as asked;
ghost use Rattle.lookup.specs.Queries.{IsQueryRefused};
ghost use Rattle.store.specs.Agrees.{SameVolume};
ghost use Rattle.lookup.specs.Shows.{HasNodesOf};

use crate::store::Store;
use drive::Drive;
use lookup::{Lookup, Nodes};
use recover::StoreFault;
use request::{ByteCount, FileData, Listing, NodeStatus, Path};
use std::alloc::Global;

impl Store {
    /// The bytes of a file. `NotFound` if the path leads to nothing, `IsDirectory` if it leads to a directory, `TooLong`
    /// if the file has more than `limits::FILE_BYTES` bytes, `Stopped` if the store is stopped.
    pub fn get<D: Drive>(
        &mut self,
        alloc: Global,
        drive: &mut D,
        path: &Path,
    ) -> Result<FileData, StoreFault>
        requires agrees { IsStoreOn (D.journal drive.old) (D.capacity drive.old) self.old }
        ensures reported { (tree : Tree) → Once (D.journal drive.old) → HasNodesOf (D.honest drive.new) (D.journal drive.old) self.old.directories self.old.vat_icb_address self.old.vat.entries.items tree → IfOk result (λ bytes. runs.told tree (runs.Query.Get path.now) ≡ runs.Answer.Data bytes) }
        ensures refused { (tree : Tree) → Once (D.journal drive.old) → HasNodesOf (D.honest drive.new) (D.journal drive.old) self.old.directories self.old.vat_icb_address self.old.vat.entries.items tree → self.old.is_stopped ≡ false → IfErr result (IsQueryRefused (runs.told tree (runs.Query.Get path.now))) }
        ensures kept { IsTrue (D.honest drive.new) → AreKept (D.journal drive.old) self.old.directories → AreKept (D.journal drive.old) self.new.directories }
        ensures stopped { IsTrue self.old.is_stopped → (result ≡ Err Stopped) × (self.new ≡ self.old) × (drive.new ≡ drive.old) }
        ensures same { SameVolume self.old self.new }
        ensures agrees { IsStoreOn (D.journal drive.new) (D.capacity drive.new) self.new }
        ensures reads { ReadsOnly D.Drive (devices result) drive.old drive.new }
    {
        let nodes = nodes_of(self.is_stopped, self.vat_icb_address, &self.vat.entries)?;
        Lookup::new(alloc, drive, &mut self.directories, nodes).get(path)
    }

    /// The bytes of a file from the offset on, `count` or as many as there are. `NotFound` if the path leads to nothing,
    /// `IsDirectory` if it leads to a directory, `Stopped` if the store is stopped.
    pub fn read<D: Drive>(
        &mut self,
        alloc: Global,
        drive: &mut D,
        path: &Path,
        offset: u64,
        count: &ByteCount,
    ) -> Result<FileData, StoreFault>
        requires agrees { IsStoreOn (D.journal drive.old) (D.capacity drive.old) self.old }
        ensures reported { (tree : Tree) → Once (D.journal drive.old) → HasNodesOf (D.honest drive.new) (D.journal drive.old) self.old.directories self.old.vat_icb_address self.old.vat.entries.items tree → IfOk result (λ bytes. runs.told tree (runs.Query.Read path.now offset count.now) ≡ runs.Answer.Data bytes) }
        ensures refused { (tree : Tree) → Once (D.journal drive.old) → HasNodesOf (D.honest drive.new) (D.journal drive.old) self.old.directories self.old.vat_icb_address self.old.vat.entries.items tree → self.old.is_stopped ≡ false → IfErr result (IsQueryRefused (runs.told tree (runs.Query.Read path.now offset count.now))) }
        ensures kept { IsTrue (D.honest drive.new) → AreKept (D.journal drive.old) self.old.directories → AreKept (D.journal drive.old) self.new.directories }
        ensures stopped { IsTrue self.old.is_stopped → (result ≡ Err Stopped) × (self.new ≡ self.old) × (drive.new ≡ drive.old) }
        ensures same { SameVolume self.old self.new }
        ensures agrees { IsStoreOn (D.journal drive.new) (D.capacity drive.new) self.new }
        ensures reads { ReadsOnly D.Drive (devices result) drive.old drive.new }
    {
        let nodes = nodes_of(self.is_stopped, self.vat_icb_address, &self.vat.entries)?;
        Lookup::new(alloc, drive, &mut self.directories, nodes).read(path, offset, count)
    }

    /// The names in a directory, in their stored order. `NotFound` if the path leads to nothing, `NotDirectory` if it
    /// leads to a file, `Stopped` if the store is stopped.
    pub fn list<D: Drive>(
        &mut self,
        alloc: Global,
        drive: &mut D,
        path: &Path,
    ) -> Result<Listing, StoreFault>
        requires agrees { IsStoreOn (D.journal drive.old) (D.capacity drive.old) self.old }
        ensures reported { (tree : Tree) → HasNodesOf (D.honest drive.new) (D.journal drive.old) self.old.directories self.old.vat_icb_address self.old.vat.entries.items tree → IfOk result (λ listing. runs.told tree (runs.Query.List_ path.now) ≡ runs.Answer.Names (said_names listing)) }
        ensures refused { (tree : Tree) → HasNodesOf (D.honest drive.new) (D.journal drive.old) self.old.directories self.old.vat_icb_address self.old.vat.entries.items tree → self.old.is_stopped ≡ false → IfErr result (IsQueryRefused (runs.told tree (runs.Query.List_ path.now))) }
        ensures kept { IsTrue (D.honest drive.new) → AreKept (D.journal drive.old) self.old.directories → AreKept (D.journal drive.old) self.new.directories }
        ensures stopped { IsTrue self.old.is_stopped → (result ≡ Err Stopped) × (self.new ≡ self.old) × (drive.new ≡ drive.old) }
        ensures same { SameVolume self.old self.new }
        ensures agrees { IsStoreOn (D.journal drive.new) (D.capacity drive.new) self.new }
        ensures reads { ReadsOnly D.Drive (devices result) drive.old drive.new }
    {
        let nodes = nodes_of(self.is_stopped, self.vat_icb_address, &self.vat.entries)?;
        Lookup::new(alloc, drive, &mut self.directories, nodes).list(path)
    }

    /// The kind, moment and size of a file or a directory. `NotFound` if the path leads to nothing, `Stopped` if the
    /// store is stopped.
    pub fn stat<D: Drive>(
        &mut self,
        alloc: Global,
        drive: &mut D,
        path: &Path,
    ) -> Result<NodeStatus, StoreFault>
        requires agrees { IsStoreOn (D.journal drive.old) (D.capacity drive.old) self.old }
        ensures reported { (tree : Tree) → Once (D.journal drive.old) → HasNodesOf (D.honest drive.new) (D.journal drive.old) self.old.directories self.old.vat_icb_address self.old.vat.entries.items tree → IfOk result (λ status. runs.told tree (runs.Query.Stat path.now) ≡ runs.Answer.NodeIs (asked.is_directory status.kind) status.moment status.size) }
        ensures refused { (tree : Tree) → HasNodesOf (D.honest drive.new) (D.journal drive.old) self.old.directories self.old.vat_icb_address self.old.vat.entries.items tree → self.old.is_stopped ≡ false → IfErr result (IsQueryRefused (runs.told tree (runs.Query.Stat path.now))) }
        ensures kept { IsTrue (D.honest drive.new) → AreKept (D.journal drive.old) self.old.directories → AreKept (D.journal drive.old) self.new.directories }
        ensures stopped { IsTrue self.old.is_stopped → (result ≡ Err Stopped) × (self.new ≡ self.old) × (drive.new ≡ drive.old) }
        ensures same { SameVolume self.old self.new }
        ensures agrees { IsStoreOn (D.journal drive.new) (D.capacity drive.new) self.new }
        ensures reads { ReadsOnly D.Drive (devices result) drive.old drive.new }
    {
        let nodes = nodes_of(self.is_stopped, self.vat_icb_address, &self.vat.entries)?;
        Lookup::new(alloc, drive, &mut self.directories, nodes).stat(path)
    }
}

/// The nodes of a state. `Stopped` if the store is stopped.
pub(crate) fn nodes_of(
    is_stopped: bool,
    at: u32,
    entries: &[Option<u32>],
) -> Result<Nodes<'_>, StoreFault>
    requires few { length entries.now ≤ ADDRESSES }
    ensures nodes { IfOk result (λ nodes. (nodes.vat_icb_address ≡ at) × (nodes.numbers.now ≡ entries.now)) }
    ensures goes_on { OnOk result (is_stopped ≡ false) }
    ensures stopped { IfErr result (λ fault. IsTrue is_stopped × (fault ≡ Stopped)) }
{
    if is_stopped {
        return Err(StoreFault::Stopped);
    }
    Ok(Nodes {
        vat_icb_address: at,
        numbers: entries,
    })
}
