//! The commits of a volume, and the state after each.

ghost use Rattle.limits.specs.declared.TheConstants.{ADDRESSES, PARTITION_START};
ghost use Rattle.std.specs.Prelude.{◌≡◌, ◌⊎◌, ◌+◌, ◌<◌, ◌≤◌, ℕ, All, Err, IsTrue, IfOk, IfErr, OnOk, Some, false, length};
ghost use Rattle.drive.specs.Journal.{held, next_of};
ghost use Rattle.drive.specs.Reads.{ReadsOnly};
ghost use Rattle.durability.specs.Volume.{RecoversTo};
ghost use Rattle.model.specs.Session as said;
ghost use Rattle.udf.specs.Udf.{udf};
ghost use Rattle.vat.specs.Table.{view};
ghost use Rattle.recover.specs.Faults.{devices};
ghost use Rattle.recover.specs.State.{IsShown, IsStateRefused};
ghost use Rattle.recover.specs.Tables.{IsLastVatIcb};
ghost use Rattle.recover.specs.declared.state.State.{State};
ghost use Rattle.recover.specs.declared.fault.StoreFault.TheVariants.{NoCommit, Stopped};
ghost use Rattle.std.proofs.Props.{props};
ghost use Rattle.store.specs.Agrees.{IsStoreOn};
ghost use Rattle.recover.specs.Below.{AreBelow};
ghost use Rattle.store.specs.Calls.{IsOpenOn};
ghost use Rattle.store.specs.History.{IsChecked, IsHistory, IsHistoryRefused, IsTableOf, IsUnchecked, IsWayRefused, report_of};
ghost use Rattle.store.specs.Opened.{IsOpenRefused};
ghost use Rattle.store.specs.Past.{AllRecovered, CountsCommits, IsCheckRefused, IsPast, IsPastRefused, IsRecoveredCheckRefused};

use crate::queries::nodes_of;
use crate::store::Store;
use drive::Drive;
use limits::PARTITION_START;
use lookup::Lookup;
use recover::{
    ReadCache, State, StoreFault, cause, damaged, last, linked, state_at, state_sharing, table_at,
};
use request::{ByteCount, FileData, Listing, NodeStatus, Path};
use std::alloc::Global;
use vat::{Sessions, Vat};

/// A commit, as its table reports it.
#[derive(Clone, Copy, Debug, PartialEq, Eq)]
pub struct Commit {
    /// Its number: 0 for the format, 1 for the first request.
    pub commit: u32,
    /// The address of its VAT ICB.
    pub vat_icb_address: u32,
    /// How many files the tree had after it.
    pub files: u32,
    /// How many directories the tree had after it, including the root.
    pub directories: u32,
}

impl Commit {
    ghost use Rattle.std.specs.Prelude.{◌≡◌};
    ghost use Rattle.vat.specs.Table.{view};
    ghost use Rattle.store.specs.History.{report_of};

    fn of(at: u32, vat: &Vat) -> Commit
        ensures { result ≡ report_of at (view vat.now) }
    {
        Commit {
            commit: vat.sessions.commits,
            vat_icb_address: at,
            files: vat.files,
            directories: vat.directories,
        }
    }
}

/// The state after a commit. Its queries borrow the store, whose directories they use, and the drive.
#[derive(Drop)]
pub struct Snapshot {
    /// The address of its VAT ICB.
    vat_icb_address: u32,
    vat: Vat,
    ghost few: { length vat.entries.items ≤ ADDRESSES },
    ghost below: { AreBelow vat_icb_address vat.entries.items } by { Prim.hlevel props },
}

impl Snapshot {
    ghost use Rattle.std.specs.Prelude.{◌≡◌, ◌≤◌, IsTrue, IfOk, IfErr, Err, false};
    ghost use Rattle.drive.specs.Journal.{Once, next_of};
    ghost use Rattle.drive.specs.Reads.{ReadsOnly};
    ghost use Rattle.durability.specs.Runs as runs;
    ghost use Rattle.model.specs.Tree.{Tree};
    ghost use Rattle.vat.specs.Table.{view};
    ghost use Rattle.recover.specs.Faults.{devices};
    ghost use Rattle.recover.specs.declared.fault.StoreFault.TheVariants.{Stopped};
    ghost use Rattle.store.specs.Agrees.{IsStoreOn};
    ghost use Rattle.lookup.specs.Cache.{AreKept};
    ghost use Rattle.store.specs.History.{report_of};
    ghost use Rattle.lookup.specs.Asked.{said_names};
    ghost use Rattle.lookup.specs.Asked as asked;
    ghost use Rattle.lookup.specs.Queries.{IsQueryRefused};
    ghost use Rattle.store.specs.Agrees.{SameVolume};
    ghost use Rattle.lookup.specs.Shows.{HasNodesOf};

    /// The sessions of the clients, as they were.
    pub fn sessions(&self) -> &Sessions
        ensures { result.now ≡ self.now.vat.sessions }
    {
        &self.vat.sessions
    }

    /// The commit that this state came after.
    pub fn commit(&self) -> Commit
        ensures { result ≡ report_of self.now.vat_icb_address (view self.now.vat) }
    {
        Commit::of(self.vat_icb_address, &self.vat)
    }

    /// The bytes of a file, as they were. The faults are those of [`Store::get`].
    pub fn get<D: Drive>(
        &self,
        alloc: Global,
        store: &mut Store,
        drive: &mut D,
        path: &Path,
    ) -> Result<FileData, StoreFault>
        requires agrees { IsStoreOn (D.journal drive.old) (D.capacity drive.old) store.old }
        requires within { self.now.vat_icb_address ≤ next_of (D.journal drive.old) }
        ensures reported { (tree : Tree) → Once (D.journal drive.old) → HasNodesOf (D.honest drive.new) (D.journal drive.old) store.old.directories self.now.vat_icb_address self.now.vat.entries.items tree → IfOk result (λ bytes. runs.told tree (runs.Query.Get path.now) ≡ runs.Answer.Data bytes) }
        ensures refused { (tree : Tree) → Once (D.journal drive.old) → HasNodesOf (D.honest drive.new) (D.journal drive.old) store.old.directories self.now.vat_icb_address self.now.vat.entries.items tree → store.old.is_stopped ≡ false → IfErr result (IsQueryRefused (runs.told tree (runs.Query.Get path.now))) }
        ensures kept { IsTrue (D.honest drive.new) → AreKept (D.journal drive.old) store.old.directories → AreKept (D.journal drive.old) store.new.directories }
        ensures stopped { IsTrue store.old.is_stopped → (result ≡ Err Stopped) × (store.new ≡ store.old) × (drive.new ≡ drive.old) }
        ensures same { SameVolume store.old store.new }
        ensures agrees { IsStoreOn (D.journal drive.new) (D.capacity drive.new) store.new }
        ensures reads { ReadsOnly D.Drive (devices result) drive.old drive.new }
    {
        let nodes = nodes_of(store.is_stopped, self.vat_icb_address, &self.vat.entries)?;
        Lookup::new(alloc, drive, &mut store.directories, nodes).get(path)
    }

    /// The bytes of a file from the offset on, as they were. The faults are those of [`Store::read`].
    pub fn read<D: Drive>(
        &self,
        alloc: Global,
        store: &mut Store,
        drive: &mut D,
        path: &Path,
        offset: u64,
        count: &ByteCount,
    ) -> Result<FileData, StoreFault>
        requires agrees { IsStoreOn (D.journal drive.old) (D.capacity drive.old) store.old }
        requires within { self.now.vat_icb_address ≤ next_of (D.journal drive.old) }
        ensures reported { (tree : Tree) → Once (D.journal drive.old) → HasNodesOf (D.honest drive.new) (D.journal drive.old) store.old.directories self.now.vat_icb_address self.now.vat.entries.items tree → IfOk result (λ bytes. runs.told tree (runs.Query.Read path.now offset count.now) ≡ runs.Answer.Data bytes) }
        ensures refused { (tree : Tree) → Once (D.journal drive.old) → HasNodesOf (D.honest drive.new) (D.journal drive.old) store.old.directories self.now.vat_icb_address self.now.vat.entries.items tree → store.old.is_stopped ≡ false → IfErr result (IsQueryRefused (runs.told tree (runs.Query.Read path.now offset count.now))) }
        ensures kept { IsTrue (D.honest drive.new) → AreKept (D.journal drive.old) store.old.directories → AreKept (D.journal drive.old) store.new.directories }
        ensures stopped { IsTrue store.old.is_stopped → (result ≡ Err Stopped) × (store.new ≡ store.old) × (drive.new ≡ drive.old) }
        ensures same { SameVolume store.old store.new }
        ensures agrees { IsStoreOn (D.journal drive.new) (D.capacity drive.new) store.new }
        ensures reads { ReadsOnly D.Drive (devices result) drive.old drive.new }
    {
        let nodes = nodes_of(store.is_stopped, self.vat_icb_address, &self.vat.entries)?;
        Lookup::new(alloc, drive, &mut store.directories, nodes).read(path, offset, count)
    }

    /// The names in a directory, as they were, in their stored order. The faults are those of [`Store::list`].
    pub fn list<D: Drive>(
        &self,
        alloc: Global,
        store: &mut Store,
        drive: &mut D,
        path: &Path,
    ) -> Result<Listing, StoreFault>
        requires agrees { IsStoreOn (D.journal drive.old) (D.capacity drive.old) store.old }
        requires within { self.now.vat_icb_address ≤ next_of (D.journal drive.old) }
        ensures reported { (tree : Tree) → HasNodesOf (D.honest drive.new) (D.journal drive.old) store.old.directories self.now.vat_icb_address self.now.vat.entries.items tree → IfOk result (λ listing. runs.told tree (runs.Query.List_ path.now) ≡ runs.Answer.Names (said_names listing)) }
        ensures refused { (tree : Tree) → HasNodesOf (D.honest drive.new) (D.journal drive.old) store.old.directories self.now.vat_icb_address self.now.vat.entries.items tree → store.old.is_stopped ≡ false → IfErr result (IsQueryRefused (runs.told tree (runs.Query.List_ path.now))) }
        ensures kept { IsTrue (D.honest drive.new) → AreKept (D.journal drive.old) store.old.directories → AreKept (D.journal drive.old) store.new.directories }
        ensures stopped { IsTrue store.old.is_stopped → (result ≡ Err Stopped) × (store.new ≡ store.old) × (drive.new ≡ drive.old) }
        ensures same { SameVolume store.old store.new }
        ensures agrees { IsStoreOn (D.journal drive.new) (D.capacity drive.new) store.new }
        ensures reads { ReadsOnly D.Drive (devices result) drive.old drive.new }
    {
        let nodes = nodes_of(store.is_stopped, self.vat_icb_address, &self.vat.entries)?;
        Lookup::new(alloc, drive, &mut store.directories, nodes).list(path)
    }

    /// The kind, moment and size of a file or a directory, as they were. The faults are those of [`Store::stat`].
    pub fn stat<D: Drive>(
        &self,
        alloc: Global,
        store: &mut Store,
        drive: &mut D,
        path: &Path,
    ) -> Result<NodeStatus, StoreFault>
        requires agrees { IsStoreOn (D.journal drive.old) (D.capacity drive.old) store.old }
        requires within { self.now.vat_icb_address ≤ next_of (D.journal drive.old) }
        ensures reported { (tree : Tree) → Once (D.journal drive.old) → HasNodesOf (D.honest drive.new) (D.journal drive.old) store.old.directories self.now.vat_icb_address self.now.vat.entries.items tree → IfOk result (λ status. runs.told tree (runs.Query.Stat path.now) ≡ runs.Answer.NodeIs (asked.is_directory status.kind) status.moment status.size) }
        ensures refused { (tree : Tree) → HasNodesOf (D.honest drive.new) (D.journal drive.old) store.old.directories self.now.vat_icb_address self.now.vat.entries.items tree → store.old.is_stopped ≡ false → IfErr result (IsQueryRefused (runs.told tree (runs.Query.Stat path.now))) }
        ensures kept { IsTrue (D.honest drive.new) → AreKept (D.journal drive.old) store.old.directories → AreKept (D.journal drive.old) store.new.directories }
        ensures stopped { IsTrue store.old.is_stopped → (result ≡ Err Stopped) × (store.new ≡ store.old) × (drive.new ≡ drive.old) }
        ensures same { SameVolume store.old store.new }
        ensures agrees { IsStoreOn (D.journal drive.new) (D.capacity drive.new) store.new }
        ensures reads { ReadsOnly D.Drive (devices result) drive.old drive.new }
    {
        let nodes = nodes_of(store.is_stopped, self.vat_icb_address, &self.vat.entries)?;
        Lookup::new(alloc, drive, &mut store.directories, nodes).stat(path)
    }
}

impl Store {
    /// All commits, the newest first. Reads only the VAT ICBs and the data of the chain's tables.
    pub fn history<D: Drive>(&self, alloc: Global, drive: &mut D) -> Result<Vec<Commit>, StoreFault>
        requires agrees { IsStoreOn (D.journal drive.old) (D.capacity drive.old) self.now }
        ensures stopped { IsTrue self.now.is_stopped → (result ≡ Err Stopped) × (drive.new ≡ drive.old) }
        ensures history { IfOk result (λ commits. IsTrue (D.honest drive.new) → IsHistory (held (D.journal drive.old)) self.now.vat_icb_address commits.items) }
        // One entry for each commit, and one for the format.
        ensures all { (volume : ℕ) (T : said.State) → IsTrue (D.honest drive.new) → IsOpenOn (D.capacity drive.old) volume (D.journal drive.old) T self.now → IfOk result (λ commits. length commits.items ≡ T.commits + 1) }
        // If it is refused, no list is the history, or the drive failed, or memory was short.
        ensures refused { self.now.is_stopped ≡ false → IfErr result (λ fault. IsTrue (D.honest drive.new) → IsHistoryRefused (held (D.journal drive.old)) self.now.vat_icb_address fault) }
        ensures within { IfOk result (λ commits. All (λ c. (PARTITION_START ≤ c.vat_icb_address) × (c.vat_icb_address < next_of (D.journal drive.old))) commits.items) }
        ensures reads { ReadsOnly D.Drive (devices result) drive.old drive.new }
    {
        if self.is_stopped {
            return Err(StoreFault::Stopped);
        }
        let mut commits = Vec::new(alloc);
        let mut vat = table_at(alloc, drive, self.vat_icb_address)?;
        commits.push(Commit::of(self.vat_icb_address, &vat))?;
        while let Some(number) = vat.previous {
            vat = linked(alloc, drive, number, vat.sessions.commits)?;
            commits.push(Commit::of(number + PARTITION_START, &vat))?;
        }
        Ok(commits)
    }

    /// The state after the commit with this number. `NoCommit` if the volume has fewer commits.
    pub fn as_of<D: Drive>(
        &self,
        alloc: Global,
        drive: &mut D,
        commit: u32,
    ) -> Result<Snapshot, StoreFault>
        requires agrees { IsStoreOn (D.journal drive.old) (D.capacity drive.old) self.now }
        ensures stopped { IsTrue self.now.is_stopped → (result ≡ Err Stopped) × (drive.new ≡ drive.old) }
        ensures none { self.now.is_stopped ≡ false → self.now.vat.sessions.commits < commit → result ≡ Err NoCommit }
        // The state that was recovered after that commit.
        ensures past { (volume : ℕ) (T : said.State) → IsTrue (D.honest drive.new) → IsOpenOn (D.capacity drive.old) volume (D.journal drive.old) T self.now → IfOk result (λ s. (S : said.State) × IsPast (D.capacity drive.old) volume (D.journal drive.old) commit S s.vat_icb_address s.vat) }
        // If it is refused, no state was recovered there, or the drive failed, or memory was short.
        ensures refused { (volume : ℕ) (T : said.State) → IsTrue (D.honest drive.new) → IsOpenOn (D.capacity drive.old) volume (D.journal drive.old) T self.now → self.now.is_stopped ≡ false → IfErr result (IsPastRefused (D.capacity drive.old) volume (held (D.journal drive.old)) T.commits commit) }
        ensures table { IfOk result (λ s. IsTrue (D.honest drive.new) → IsTableOf (held (D.journal drive.old)) self.now.vat_icb_address commit s.vat_icb_address s.vat) }
        ensures shown { IfOk result (λ s. IsTrue (D.honest drive.new) → (state : State) × IsShown (D.capacity drive.old) (held (D.journal drive.old)) s.vat_icb_address state × (state.vat ≡ s.vat)) }
        ensures within { IfOk result (λ s. s.vat_icb_address < next_of (D.journal drive.new)) }
        ensures reads { ReadsOnly D.Drive (devices result) drive.old drive.new }
    {
        if self.is_stopped {
            return Err(StoreFault::Stopped);
        }
        if commit > self.vat.sessions.commits {
            return Err(StoreFault::NoCommit);
        }
        let (at, _) = self.table_of(alloc, drive, commit)?;
        let State { vat, .. } = state_at(alloc, drive, at)?;
        Ok(Snapshot {
            vat_icb_address: at,
            vat,
        })
    }

    /// Follows the chain to the table of the commit with this number. Returns the address of its VAT ICB, and the
    /// table.
    fn table_of<D: Drive>(
        &self,
        alloc: Global,
        drive: &mut D,
        commit: u32,
    ) -> Result<(u32, Vat), StoreFault>
        requires agrees { IsStoreOn (D.journal drive.old) (D.capacity drive.old) self.now }
        ensures table { IfOk result (λ found. IsTrue (D.honest drive.new) → IsTableOf (held (D.journal drive.old)) self.now.vat_icb_address commit found.0 found.1) }
        ensures refused { IfErr result (λ fault. IsTrue (D.honest drive.new) → IsWayRefused (held (D.journal drive.old)) self.now.vat_icb_address commit fault) }
        ensures within { IfOk result (λ found. (PARTITION_START ≤ found.0) × (found.0 < next_of (D.journal drive.old))) }
        ensures reads { ReadsOnly D.Drive (devices result) drive.old drive.new }
    {
        let mut at = self.vat_icb_address;
        let mut vat = table_at(alloc, drive, at)?;
        while vat.sessions.commits != commit {
            let Some(number) = vat.previous else {
                return Err(damaged(at, cause::CHAIN));
            };
            vat = linked(alloc, drive, number, vat.sessions.commits)?;
            at = number + PARTITION_START;
        }
        Ok((at, vat))
    }

    /// Checks that the state after each commit is recovered, and returns how many commits there are.
    pub fn check<D: Drive>(&self, alloc: Global, drive: &mut D) -> Result<u32, StoreFault>
        requires agrees { IsStoreOn (D.journal drive.old) (D.capacity drive.old) self.now }
        ensures stopped { IsTrue self.now.is_stopped → (result ≡ Err Stopped) × (drive.new ≡ drive.old) }
        ensures count { IfOk result (λ n. n ≡ self.now.vat.sessions.commits) }
        // A state was recovered after each.
        ensures whole { (volume : ℕ) (T : said.State) → IsTrue (D.honest drive.new) → IsOpenOn (D.capacity drive.old) volume (D.journal drive.old) T self.now → IfOk result (λ n. (n ≡ T.commits) × AllRecovered (D.capacity drive.old) volume (held (D.journal drive.old)) n) }
        // If it is refused, no state was recovered after one of them, or the drive failed, or memory was short.
        ensures refused { (volume : ℕ) (T : said.State) → IsTrue (D.honest drive.new) → IsOpenOn (D.capacity drive.old) volume (D.journal drive.old) T self.now → self.now.is_stopped ≡ false → IfErr result (IsCheckRefused (D.capacity drive.old) volume (held (D.journal drive.old)) T.commits) }
        ensures history { OnOk result (IsTrue (D.honest drive.new) → IsChecked (D.capacity drive.old) (held (D.journal drive.old)) self.now.vat_icb_address) }
        ensures reads { ReadsOnly D.Drive (devices result) drive.old drive.new }
    {
        if self.is_stopped {
            return Err(StoreFault::Stopped);
        }
        check_states(alloc, drive, self.vat_icb_address)?;
        Ok(self.vat.sessions.commits)
    }
}

/// Checks that the state after each commit of a volume is recovered, and returns how many commits there are.
/// `NotFormatted` if the medium has no VAT ICB. This reads less than opening a store and asking it, which would look at
/// the newest state twice.
pub fn check_volume<D: Drive>(alloc: Global, drive: &mut D) -> Result<u32, StoreFault>
    // If a state is recovered, its commits are counted, unless no state was recovered after one of them.
    ensures counts { (volume : ℕ) (S : said.State) → IsTrue (D.honest drive.new) → RecoversTo udf (D.capacity drive.old) volume (held (D.journal drive.old)) S → CountsCommits (D.capacity drive.old) volume (held (D.journal drive.old)) S.commits result }
    // Nothing is counted where none is.
    ensures recovers { OnOk result (IsTrue (D.honest drive.new) → (volume : ℕ) × (S : said.State) × RecoversTo udf (D.capacity drive.old) volume (held (D.journal drive.old)) S) }
    ensures history { OnOk result (IsTrue (D.honest drive.new) → (at : ℕ) × IsLastVatIcb (held (D.journal drive.old)) (Some at) × IsChecked (D.capacity drive.old) (held (D.journal drive.old)) at) }
    // If it is refused, a store would not be opened either, or a state is recovered but none was after one of its
    // commits.
    ensures refused { IfErr result (λ fault. IsTrue (D.honest drive.new) → IsOpenRefused (D.capacity drive.old) (held (D.journal drive.old)) fault ⊎ IsRecoveredCheckRefused (D.capacity drive.old) (held (D.journal drive.old)) fault) }
    ensures reads { ReadsOnly D.Drive (devices result) drive.old drive.new }
{
    match last(drive)? {
        Some(at) => check_states(alloc, drive, at),
        None => Err(StoreFault::NotFormatted),
    }
}

/// How many blocks below a VAT ICB are announced to the drive. The directories and the table of a commit are right
/// below its VAT ICB, and the previous commit is below them. The commit of a small file has some ten blocks.
const AHEAD: u32 = 64;

/// Checks that the state after each commit is recovered, from the one whose VAT ICB is at `at` back to the format.
/// Returns how many commits there are. The chain is walked once: each table is read with its state, and what two
/// consecutive states share is read once.
fn check_states<D: Drive>(alloc: Global, drive: &mut D, at: u32) -> Result<u32, StoreFault>
    requires low { PARTITION_START ≤ at }
    requires within { at < next_of (D.journal drive.old) }
    ensures checked { OnOk result (IsTrue (D.honest drive.new) → IsChecked (D.capacity drive.old) (held (D.journal drive.old)) at) }
    ensures count { IfOk result (λ n. IsTrue (D.honest drive.new) → (state : State) × IsShown (D.capacity drive.old) (held (D.journal drive.old)) at state × (n ≡ state.vat.sessions.commits)) }
    // If it is refused, no list is the history, or one of its commits has no state, or the drive failed, or memory was
    // short.
    ensures refused { IfErr result (λ fault. IsTrue (D.honest drive.new) → IsUnchecked (D.capacity drive.old) (held (D.journal drive.old)) at fault) }
    // Either the newest state is refused, or there is such a state.
    ensures newest { IfErr result (λ fault. IsTrue (D.honest drive.new) → IsStateRefused (D.capacity drive.old) (held (D.journal drive.old)) at fault ⊎ ((state : State) × IsShown (D.capacity drive.old) (held (D.journal drive.old)) at state)) }
    ensures reads { ReadsOnly D.Drive (devices result) drive.old drive.new }
{
    let mut known = ReadCache::new(alloc);
    let State { vat: newest, .. } = state_sharing(alloc, drive, &mut known, at)?;
    let commits = newest.sessions.commits;
    let mut vat = newest;
    while let Some(number) = vat.previous {
        let there = number + PARTITION_START;
        drive.read_soon(there.saturating_sub(AHEAD), AHEAD);
        let State { vat: before, .. } = state_sharing(alloc, drive, &mut known, there)?;
        if u64::from(before.sessions.commits) + 1 != u64::from(vat.sessions.commits) {
            return Err(damaged(there, cause::CHAIN));
        }
        vat = before;
    }
    Ok(commits)
}
