//! The tables of a medium: the last one, and the one before each.

ghost use Rattle.limits.specs.declared.TheConstants.{BLOCK_BYTES, PARTITION_START};
ghost use Rattle.std.specs.Prelude.{◌≡◌, ℕ, ◌+◌, ◌-◌, ◌^◌, ◌<◌, ◌≤◌, ◌↔◌, List, IsTrue, IsNone, IfOk, IfErr, IfSome, IfNone};
ghost use Rattle.std.specs.Int.{div_ceil};
ghost use Rattle.drive.specs.Journal.{held, next_of};
ghost use Rattle.icb.specs.declared.entry.Kind.TheVariants as kinds;
ghost use Rattle.icb.specs.Entry.{FitsEntry, fields_of, place_of};
ghost use Rattle.icb.specs.Entry.Place.{Extent};
ghost use Rattle.vat.specs.Table.{IsTableAt, view};
ghost use Rattle.drive.specs.Reads.{ReadsOnly};
ghost use Rattle.recover.specs.Faults.{devices};
ghost use Rattle.recover.specs.declared.fault.StoreFault.TheVariants.{Device};
ghost use Rattle.recover.specs.Tables.{HasDataBelow, IsBefore, IsBeforeRefused, IsEntryAt, IsEntryRefused, IsLastVatIcb, IsTableRefused, HasTableAt, IsAtRefused, IsLinkRefused, table_data_of};
ghost use Rattle.recover.specs.Walk.{LeadsTo};

use crate::cause::{CHAIN, RANGE};
use crate::fault::{StoreFault, damaged};
use crate::reading::{block_count, read_block, read_bytes};
use drive::Drive;
use ecma::Timestamp;
use icb::{FileEntry, Kind, Place, decode_fe};
use limits::PARTITION_START;
use std::alloc::Global;
use vat::{Vat, VatFault, decode_vat, is_vat_icb};

/// What a VAT ICB says: the moment of its request, and where its data are.
#[derive(Clone, Copy, Debug)]
pub struct TableEntry {
    pub moment: Timestamp,
    /// The number of the first block of its data.
    pub first: u32,
    /// The size of its data, in bytes.
    pub size: u32,
}

/// The address of the last VAT ICB in the partition, or `None` if there is none. Looks backwards from the end, and
/// reads no block before that VAT ICB.
pub fn last<D: Drive>(drive: &mut D) -> Result<Option<u32>, StoreFault>
    ensures last { IfOk result (λ found. IsTrue (D.honest drive.new) → IsLastVatIcb (held (D.journal drive.old)) found) }
    ensures within { IfOk result (λ found. IfSome found (λ at. (PARTITION_START ≤ at) × (at < next_of (D.journal drive.old)))) }
    ensures device { IfErr result (λ fault. fault ≡ Device) }
    ensures reads { ReadsOnly D.Drive (devices result) drive.old drive.new }
{
    let mut left = match drive.next() {
        Ok(next) => next,
        Err(_) => return Err(StoreFault::Device),
    };
    while left > PARTITION_START {
        left -= 1;
        let block = read_block(drive, left)?;
        if is_vat_icb(&block, left - PARTITION_START) {
            return Ok(Some(left));
        }
    }
    Ok(None)
}

/// What the VAT ICB at an address says. `Damaged`, with the cause `CHAIN` if the block is no VAT ICB, and with `RANGE`
/// if its data are not below it.
pub fn table_entry<D: Drive>(drive: &mut D, at: u32) -> Result<TableEntry, StoreFault>
    requires low { PARTITION_START ≤ at }
    requires within { at < next_of (D.journal drive.old) }
    ensures found { IfOk result (λ e. IsTrue (D.honest drive.new) → IsEntryAt (held (D.journal drive.old)) at e) }
    ensures refused { IfErr result (λ fault. IsTrue (D.honest drive.new) → IsEntryRefused (held (D.journal drive.old)) at fault) }
    ensures below { IfOk result (HasDataBelow at) }
    ensures reads { ReadsOnly D.Drive (devices result) drive.old drive.new }
{
    let block = read_block(drive, at)?;
    let entry = match decode_fe(&block, at - PARTITION_START) {
        Ok(entry) => entry,
        Err(_) => return Err(damaged(at, CHAIN)),
    };
    let first = match data_start(&entry) {
        Some(first) => first,
        None => return Err(damaged(at, CHAIN)),
    };
    if !lies_below(first, entry.size, at) {
        return Err(damaged(at, RANGE));
    }
    Ok(TableEntry {
        moment: entry.moment,
        first,
        size: entry.size,
    })
}

/// The number of the first block of a table's data, if the entry is that of a table.
fn data_start(entry: &FileEntry<'_>) -> Option<u32>
    requires { FitsEntry (fields_of entry.now) }
    ensures some { IfSome result (λ first. (entry.now.kind ≡ kinds.Vat) × (place_of entry.now.place ≡ Extent first)) }
    ensures none { IfNone result (entry.now.kind ≡ kinds.Vat → ⊥) }
{
    if entry.kind != Kind::Vat {
        return None;
    }
    match entry.place {
        Place::Extent(first) => Some(first),
        Place::None => None,
        Place::Extents(_) => None,
        Place::Inside(_) => None,
    }
}

/// Reads the table whose VAT ICB is at `at`, and says what `entry` has.
pub fn read_table<D: Drive>(
    alloc: Global,
    drive: &mut D,
    at: u32,
    entry: &TableEntry,
) -> Result<Vat, StoreFault>
    requires low { PARTITION_START ≤ at }
    requires within { at < next_of (D.journal drive.old) }
    requires below { HasDataBelow at entry.now }
    ensures table { IfOk result (λ vat. (bytes : List ℕ) × (IsTrue (D.honest drive.new) → bytes ≡ table_data_of (held (D.journal drive.old)) entry.now) × IsTableAt (at - PARTITION_START) (view vat) bytes) }
    ensures refused { IfErr result (λ fault. IsTrue (D.honest drive.new) → IsTableRefused (at - PARTITION_START) entry.now (table_data_of (held (D.journal drive.old)) entry.now) fault) }
    ensures previous { IfOk result (λ vat. IfSome vat.previous (λ number. number + PARTITION_START < at)) }
    ensures reads { ReadsOnly D.Drive (devices result) drive.old drive.new }
{
    let start = entry.first + PARTITION_START;
    let bytes = read_bytes(alloc, drive, start, entry.size)?;
    match decode_vat(alloc, &bytes, at - PARTITION_START) {
        Ok(vat) => Ok(vat),
        Err(VatFault::Memory) => Err(StoreFault::Memory),
        Err(fault) => Err(damaged(start, fault.number())),
    }
}

/// Whether `size` bytes that begin at block number `first` end below the address `at`.
pub fn lies_below(first: u32, size: u32, at: u32) -> bool
    ensures { IsTrue result ↔ (first + PARTITION_START + div_ceil size BLOCK_BYTES ≤ at) }
{
    u64::from(first) + u64::from(PARTITION_START) + u64::from(block_count(size)) <= u64::from(at)
}

/// Reads the VAT ICB at an address, and then the data of its table.
pub fn table_at<D: Drive>(alloc: Global, drive: &mut D, at: u32) -> Result<Vat, StoreFault>
    requires low { PARTITION_START ≤ at }
    requires within { at < next_of (D.journal drive.old) }
    ensures table { IfOk result (λ vat. IsTrue (D.honest drive.new) → HasTableAt (held (D.journal drive.old)) at (view vat)) }
    ensures refused { IfErr result (λ fault. IsTrue (D.honest drive.new) → IsAtRefused (held (D.journal drive.old)) at fault) }
    ensures previous { IfOk result (λ vat. IfSome vat.previous (λ number. number + PARTITION_START < at)) }
    ensures first { IfOk result (λ vat. IsNone vat.previous ↔ (vat.sessions.commits ≡ 0)) }
    ensures reads { ReadsOnly D.Drive (devices result) drive.old drive.new }
{
    let entry = table_entry(drive, at)?;
    let vat = read_table(alloc, drive, at, &entry)?;
    Ok(vat)
}

/// Reads the table that a link leads to, whose VAT ICB is in block `number`. If it does not have one commit less than
/// `commits`, the count of the table with the link, it is `Damaged`, with the cause `CHAIN`.
pub fn linked<D: Drive>(
    alloc: Global,
    drive: &mut D,
    number: u32,
    commits: u32,
) -> Result<Vat, StoreFault>
    requires within { number + PARTITION_START < next_of (D.journal drive.old) }
    requires fits { number + PARTITION_START < 2 ^ 32 }
    ensures table { IfOk result (λ vat. IsTrue (D.honest drive.new) → HasTableAt (held (D.journal drive.old)) (number + PARTITION_START) (view vat)) }
    ensures commits { IfOk result (λ vat. vat.sessions.commits + 1 ≡ commits) }
    ensures refused { IfErr result (λ fault. IsTrue (D.honest drive.new) → IsLinkRefused (held (D.journal drive.old)) (number + PARTITION_START) commits fault) }
    ensures previous { IfOk result (λ vat. IfSome vat.previous (λ earlier. earlier < number)) }
    ensures first { IfOk result (λ vat. IsNone vat.previous ↔ (vat.sessions.commits ≡ 0)) }
    ensures reads { ReadsOnly D.Drive (devices result) drive.old drive.new }
{
    let at = number + PARTITION_START;
    let vat = table_at(alloc, drive, at)?;
    if u64::from(vat.sessions.commits) + 1 != u64::from(commits) {
        return Err(damaged(at, CHAIN));
    }
    Ok(vat)
}

/// The address to which a table leads for a virtual address, if that is below `at`.
pub(crate) fn address_below(entries: &[Option<u32>], address: u32, at: u32) -> Option<u32>
    requires low { PARTITION_START ≤ at }
    ensures some { IfSome result (LeadsTo entries.now address) }
    ensures below { IfSome result (λ there. (PARTITION_START ≤ there) × (there < at)) }
    ensures none { IfNone result ((there : ℕ) → LeadsTo entries.now address there → at ≤ there) }
{
    let entry = match entries.get(address as usize) {
        Some(entry) => *entry,
        None => return None,
    };
    let number = match entry {
        Some(number) => number,
        None => return None,
    };
    if number >= at - PARTITION_START {
        return None;
    }
    Some(number + PARTITION_START)
}

/// The address of the VAT ICB before the one at `at`, by one step of the chain. `None` if that one is the format's.
pub fn before<D: Drive>(alloc: Global, drive: &mut D, at: u32) -> Result<Option<u32>, StoreFault>
    requires low { PARTITION_START ≤ at }
    requires within { at < next_of (D.journal drive.old) }
    ensures before { IfOk result (λ found. IsTrue (D.honest drive.new) → IsBefore (held (D.journal drive.old)) at found) }
    ensures refused { IfErr result (λ fault. IsTrue (D.honest drive.new) → IsBeforeRefused (held (D.journal drive.old)) at fault) }
    ensures below { IfOk result (λ found. IfSome found (λ earlier. (PARTITION_START ≤ earlier) × (earlier < at))) }
    ensures reads { ReadsOnly D.Drive (devices result) drive.old drive.new }
{
    let vat = table_at(alloc, drive, at)?;
    let number = match vat.previous {
        Some(number) => number,
        None => return Ok(None),
    };
    linked(alloc, drive, number, vat.sessions.commits)?;
    Ok(Some(number + PARTITION_START))
}
