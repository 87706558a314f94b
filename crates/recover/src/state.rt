//! The state to which a VAT ICB leads.

ghost use Rattle.limits.specs.declared.TheConstants.{FIRST_UNIQUE, GREATEST_CAPACITY, LEAST_CAPACITY, NODES, PARTITION_START};
ghost use Rattle.std.specs.Prelude.{◌≡◌, ℕ, ◌<◌, ◌≤◌, ◌+◌, ◌-◌, List, IsTrue, IfOk, IfErr, OnOk, take};
ghost use Rattle.drive.specs.Journal.{held, next_of};
ghost use Rattle.vat.specs.Table.{IsTableAt, view};
ghost use Rattle.volume.specs.Front.{IsFront};
ghost use Rattle.drive.specs.Reads.{ReadsOnly};
ghost use Rattle.recover.specs.Faults.{devices};
ghost use Rattle.recover.specs.ReadCache.{IsKnown, ReadsAndKnows};
ghost use Rattle.recover.specs.State.{HasFileSet, CountsTree, HasPlausibleCounts, IsDescribed, IsFrontRefused, IsSetRefused, IsShown, HasSoundTable, IsStateRefused, IsTreeRefused};
ghost use Rattle.recover.specs.Tables.{HasTableAt};
ghost use Rattle.recover.specs.Walk.{IsInPartition};

use crate::cause;
use crate::fault::{StoreFault, damaged};
use crate::read_cache::ReadCache;
use crate::reading::read_block;
use crate::table::{address_below, read_table, table_entry};
use crate::walk::{Named, Walk};
use drive::Drive;
use ecma::Timestamp;
use icb::{FileSet, decode_fsd};
use limits::{FORMAT_BLOCKS, PARTITION_START};
use osta::Label;
use std::alloc::Global;
use vat::Vat;
use volume::{Front, VolumeFault, first_difference, front_words};

/// The address of the primary volume descriptor (ECMA-167 3/10.1).
const PRIMARY: u32 = 32;

/// The address of the partition descriptor (ECMA-167 3/10.5).
const PARTITION: u32 = 34;

/// The address of the first VAT ICB, which is the last block of a format. Each later commit writes at least two blocks.
const FIRST_TABLE: u64 = FORMAT_BLOCKS as u64 - 1;

/// The state to which a VAT ICB leads, without the tree.
#[derive(Drop)]
pub struct State {
    /// The moment of the request that the table committed, or of the format.
    pub moment: Timestamp,
    /// How many blocks the volume has, from `limits::LEAST_CAPACITY` to `limits::GREATEST_CAPACITY`.
    pub capacity: u32,
    pub label: Label,
    pub vat: Vat,
}

/// The state that the blocks up to `at` hold, which is the address of a VAT ICB. Every node is looked at, and each
/// directory is read once and dropped. `Damaged` if these blocks hold no state.
pub fn state_at<D: Drive>(alloc: Global, drive: &mut D, at: u32) -> Result<State, StoreFault>
    requires low { PARTITION_START ≤ at }
    requires within { at < next_of (D.journal drive.old) }
    // It is the state of these blocks.
    ensures shown { IfOk result (λ state. IsTrue (D.honest drive.new) → IsShown (D.capacity drive.old) (held (D.journal drive.old)) at state) }
    // If it is refused they hold none, unless the drive failed or memory was short.
    ensures refused { IfErr result (λ fault. IsTrue (D.honest drive.new) → IsStateRefused (D.capacity drive.old) (held (D.journal drive.old)) at fault) }
    ensures sound { IfOk result (HasSoundTable at (D.capacity drive.old)) }
    // The table that it keeps is the one of that VAT ICB.
    ensures table { IfOk result (λ state. IsTrue (D.honest drive.new) → HasTableAt (held (D.journal drive.old)) at (view state.vat)) }
    ensures reads { ReadsOnly D.Drive (devices result) drive.old drive.new }
{
    let mut known = ReadCache::of_no_nodes(alloc);
    state_sharing(alloc, drive, &mut known, at)
}

/// The same state as that of [`state_at`]. The volume header, and the nodes that it shares with the state of the
/// previous call, are not read again: what is known of them is compared with this state.
pub fn state_sharing<D: Drive>(
    alloc: Global,
    drive: &mut D,
    known: &mut ReadCache,
    at: u32,
) -> Result<State, StoreFault>
    requires low { PARTITION_START ≤ at }
    requires within { at < next_of (D.journal drive.old) }
    requires known { IsTrue (D.honest drive.old) → IsKnown (held (D.journal drive.old)) known.old }
    ensures shown { IfOk result (λ state. IsTrue (D.honest drive.new) → IsShown (D.capacity drive.old) (held (D.journal drive.old)) at state) }
    ensures refused { IfErr result (λ fault. IsTrue (D.honest drive.new) → IsStateRefused (D.capacity drive.old) (held (D.journal drive.old)) at fault) }
    ensures sound { IfOk result (HasSoundTable at (D.capacity drive.old)) }
    ensures table { IfOk result (λ state. IsTrue (D.honest drive.new) → HasTableAt (held (D.journal drive.old)) at (view state.vat)) }
    // What is known stays so, whatever was found.
    ensures reads { ReadsAndKnows D.Drive (devices result) drive.old drive.new known.new }
{
    known.begin();
    let (state, data_at) = described(alloc, drive, known, at)?;
    check_tree(alloc, drive, known, &state.vat, at, data_at)?;
    Ok(state)
}

/// The state, whose tree is not looked at yet, and the address of the first block of the table's data.
fn described<D: Drive>(
    alloc: Global,
    drive: &mut D,
    known: &mut ReadCache,
    at: u32,
) -> Result<(State, u32), StoreFault>
    requires low { PARTITION_START ≤ at }
    requires within { at < next_of (D.journal drive.old) }
    requires known { IsTrue (D.honest drive.old) → IsKnown (held (D.journal drive.old)) known.old }
    ensures described { IfOk result (λ found. IsTrue (D.honest drive.new) → IsDescribed (D.capacity drive.old) (held (D.journal drive.old)) at found.0) }
    ensures refused { IfErr result (λ fault. IsTrue (D.honest drive.new) → IsStateRefused (D.capacity drive.old) (held (D.journal drive.old)) at fault) }
    ensures limits { IfOk result (λ found. (LEAST_CAPACITY ≤ found.0.capacity) × (found.0.capacity ≤ GREATEST_CAPACITY) × (found.0.capacity ≤ D.capacity drive.old)) }
    ensures table { IfOk result (λ found. (bytes : List ℕ) × IsTableAt (at - PARTITION_START) (view found.0.vat) bytes) }
    ensures reads { ReadsAndKnows D.Drive (devices result) drive.old drive.new known.new }
{
    let front = known.front(drive)?;
    if front.capacity > drive.capacity() {
        return Err(damaged(PARTITION, cause::RANGE));
    }
    let entry = table_entry(drive, at)?;
    let vat = read_table(alloc, drive, at, &entry)?;
    let data_at = entry.first + PARTITION_START;
    if vat.label != front.label {
        return Err(damaged(data_at, cause::LABEL));
    }
    check_file_set(drive, &front, &vat, at, data_at)?;
    let state = State {
        moment: entry.moment,
        capacity: front.capacity,
        label: front.label,
        vat,
    };
    Ok((state, data_at))
}

/// Reads the volume header, and compares each block with the one that a format writes.
pub(crate) fn read_front<D: Drive>(drive: &mut D) -> Result<Front, StoreFault>
    requires within { PARTITION_START ≤ next_of (D.journal drive.old) }
    ensures front { IfOk result (λ front. IsTrue (D.honest drive.new) → IsFront front.label front.moment front.capacity (take PARTITION_START (held (D.journal drive.old)))) }
    ensures refused { IfErr result (λ fault. IsTrue (D.honest drive.new) → IsFrontRefused (take PARTITION_START (held (D.journal drive.old))) fault) }
    ensures limits { IfOk result (λ front. (LEAST_CAPACITY ≤ front.capacity) × (front.capacity ≤ GREATEST_CAPACITY)) }
    ensures reads { ReadsOnly D.Drive (devices result) drive.old drive.new }
{
    let primary = read_block(drive, PRIMARY)?;
    let partition = read_block(drive, PARTITION)?;
    let front = match front_words(&primary, &partition) {
        Ok(front) => front,
        Err(VolumeFault::Field { block, .. }) => return Err(damaged(block, cause::FRONT)),
    };
    for n in 0..PARTITION_START {
        let block = read_block(drive, n)?;
        match first_difference(&front, n, &block) {
            Some(_) => return Err(damaged(n, cause::FRONT)),
            None => {}
        }
    }
    Ok(front)
}

/// Checks that the file set descriptor (ECMA-167 4/14.1) is at virtual address 0, and has the label and the moment of
/// the format.
fn check_file_set<D: Drive>(
    drive: &mut D,
    front: &Front,
    vat: &Vat,
    at: u32,
    data_at: u32,
) -> Result<(), StoreFault>
    requires low { PARTITION_START ≤ at }
    requires within { at < next_of (D.journal drive.old) }
    ensures set { OnOk result (IsTrue (D.honest drive.new) → HasFileSet (take at (held (D.journal drive.old))) vat.now.entries.items front.now.label front.now.moment) }
    ensures refused { IfErr result (λ fault. IsTrue (D.honest drive.new) → IsSetRefused (take at (held (D.journal drive.old))) vat.now.entries.items front.now.label front.now.moment fault) }
    ensures reads { ReadsOnly D.Drive (devices result) drive.old drive.new }
{
    let set_at = match address_below(&vat.entries, 0, at) {
        Some(set_at) => set_at,
        None => return Err(damaged(data_at, cause::RANGE)),
    };
    let block = read_block(drive, set_at)?;
    let set = match decode_fsd(&block) {
        Ok(set) => set,
        Err(fault) => return Err(damaged(set_at, fault.number())),
    };
    let expected = FileSet {
        label: front.label,
        moment: front.moment,
    };
    if set != expected {
        return Err(damaged(set_at, cause::LABEL));
    }
    Ok(())
}

/// Checks that the table leads to a tree, and that its counts are those of the tree and possible at its address.
fn check_tree<D: Drive>(
    alloc: Global,
    drive: &mut D,
    known: &mut ReadCache,
    vat: &Vat,
    at: u32,
    data_at: u32,
) -> Result<(), StoreFault>
    requires within { IsInPartition (D.journal drive.old) at }
    requires known { IsTrue (D.honest drive.old) → IsKnown (held (D.journal drive.old)) known.old }
    requires next { FIRST_UNIQUE ≤ vat.now.sessions.next_unique }
    requires few { vat.now.files + vat.now.directories ≤ NODES }
    ensures tree { OnOk result (IsTrue (D.honest drive.new) → CountsTree (take at (held (D.journal drive.old))) vat.now) }
    ensures counts { OnOk result (HasPlausibleCounts at vat.now) }
    ensures refused { IfErr result (λ fault. IsTrue (D.honest drive.new) → IsTreeRefused (take at (held (D.journal drive.old))) at vat.now fault) }
    ensures reads { ReadsAndKnows D.Drive (devices result) drive.old drive.new known.new }
{
    let sessions = &vat.sessions;
    let mut walk = Walk::new(alloc, at, &vat.entries, sessions.next_unique);
    walk.visit(alloc, drive, known, &Named::root(data_at))?;
    let commits = u64::from(sessions.commits);
    let files = walk.files;
    let directories = walk.directories;
    if files != vat.files || directories != vat.directories {
        return Err(damaged(data_at, cause::COUNTS));
    }
    let has_room = 2 * commits + FIRST_TABLE <= u64::from(at);
    if !has_room || u64::from(sessions.next_unique) > 16 + commits {
        return Err(damaged(data_at, cause::COUNTS));
    }
    Ok(())
}
