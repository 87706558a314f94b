//! Where the bytes of a node are: of a file that has several extents, the one that ends last.

ghost use Rattle.limits.specs.declared.TheConstants.{BLOCK_BYTES, BLOCK_DESCRIPTORS, ENTRY_DESCRIPTORS, FILE_BYTES, GREATEST_FILE, PARTITION_BLOCKS, PARTITION_START};
ghost use Rattle.std.specs.Prelude.{◌≡◌, ℕ, ◌+◌, ◌-◌, ◌*◌, ◌<◌, ◌≤◌, IfErr, IfOk, IfSome, IsTrue, length};
ghost use Rattle.drive.specs.Journal.{held, next_of};
ghost use Rattle.drive.specs.Reads.{ReadsOnly};
ghost use Rattle.durability.specs.Volume.{AreListed};
ghost use Rattle.icb.specs.Entry.{FitsPlace, place_of};
ghost use Rattle.icb.specs.Extents as icb;
ghost use Rattle.icb.specs.Extents.{AreEntryDescriptors};
ghost use Rattle.udf.specs.Udf.{all_firsts, udf};
ghost use Rattle.recover.specs.Extents.{EndsLast, IsBlockRefused};
ghost use Rattle.recover.specs.Faults.{devices};
ghost use Rattle.recover.specs.ReadCache.{IsUnlisted, IsUnplaced};
ghost use Rattle.recover.specs.Walk as walk;
ghost use Rattle.recover.specs.Walk.{HasDescriptors, extent_in, last_of, later_of};

use crate::cause;
use crate::directory::Extent;
use crate::fault::{StoreFault, damaged};
use crate::reading::read_into;
use crate::table::lies_below;
use drive::Drive;
use icb::{
    FileEntry, Place, decode_descriptors, descriptor_blocks, extent_first, extent_size, listed,
    next_number,
};
use limits::{
    BLOCK_BYTES, BLOCK_DESCRIPTORS, BLOCK_SIZE, ENTRY_DESCRIPTORS, FILE_BYTES, PARTITION_START,
};

/// Where the bytes of a node are, if blocks hold them. Of several extents and their descriptor blocks it is the one that
/// ends last: all are below an address if that one is.
pub(crate) fn extent_of<D: Drive>(
    drive: &mut D,
    entry_at: u32,
    entry: &FileEntry<'_>,
    below: u32,
) -> Result<Option<Extent>, StoreFault>
    requires place { FitsPlace entry.now.kind entry.now.size (place_of entry.now.place) }
    requires limit { entry.now.size ≤ GREATEST_FILE }
    requires below { below ≤ next_of (D.journal drive.old) }
    ensures listed { IfOk result (λ extent. IsTrue (D.honest drive.new) → HasDescriptors (held (D.journal drive.old)) entry.now.size (place_of entry.now.place)) }
    ensures extent { IfOk result (λ extent. IsTrue (D.honest drive.new) → extent ≡ extent_in (held (D.journal drive.old)) entry.now.size (place_of entry.now.place)) }
    ensures fits { IfOk result (λ extent. IfSome extent (λ e. (0 < e.size) × (e.first ≤ PARTITION_BLOCKS))) }
    ensures refused { IfErr result (λ fault. IsTrue (D.honest drive.new) → IsUnplaced (held (D.journal drive.old)) below entry_at entry.now.size (place_of entry.now.place) fault) }
    ensures reads { ReadsOnly D.Drive (devices result) drive.old drive.new }
{
    match entry.place {
        Place::Extent(first) => Ok(Some(Extent {
            first,
            size: entry.size,
        })),
        Place::Extents(descriptors) => {
            last_listed(drive, entry_at, entry.size, descriptors, below)
        }
        Place::None => Ok(None),
        Place::Inside(_) => Ok(None),
    }
}

/// The extent that ends last, of one and those of these descriptors, which are the first of the extents of `size` bytes.
pub fn last_extent(last: Option<Extent>, size: u32, descriptors: &[u8]) -> Option<Extent>
    requires limit { size ≤ GREATEST_FILE }
    requires long { (n : ℕ) × (length descriptors.now ≡ 16 * n) × (n ≤ icb.extent_count size) }
    ensures { result ≡ last_of last size (all_firsts descriptors.now) }
{
    let mut last = last;
    for index in 0..descriptors.len() / 16 {
        let extent = Extent {
            first: extent_first(descriptors, index),
            size: extent_size(size, index),
        };
        last = Some(later(last, extent));
    }
    last
}

/// The extent, or one before it that ends after it.
fn later(last: Option<Extent>, extent: Extent) -> Extent
    ensures { result ≡ later_of last extent }
{
    match last {
        Some(last) if last.end() >= extent.end() => last,
        _ => extent,
    }
}

/// How many bytes of a file of this size are in the extents whose descriptors begin in descriptor block number `index`.
pub fn bytes_from_block(size: u32, index: u32) -> u32
    requires limit { size ≤ GREATEST_FILE }
    requires there { index < icb.descriptor_blocks size }
    ensures bytes { result ≡ size - FILE_BYTES * (ENTRY_DESCRIPTORS - 1 + (BLOCK_DESCRIPTORS - 1) * index) }
    ensures some { 0 < result }
{
    size - FILE_BYTES as u32 * (ENTRY_DESCRIPTORS - 1 + (BLOCK_DESCRIPTORS - 1) * index)
}

/// The extent that ends last, of the extents of a file of this size and of its descriptor blocks. `descriptors` are those
/// in its entry, which is at `entry_at`. If the descriptor blocks do not end below the address `below`, this is damage at
/// the entry, with the cause `RANGE`.
pub(crate) fn last_listed<D: Drive>(
    drive: &mut D,
    entry_at: u32,
    size: u32,
    descriptors: &[u8],
    below: u32,
) -> Result<Option<Extent>, StoreFault>
    requires some { FILE_BYTES < size }
    requires limit { size ≤ GREATEST_FILE }
    requires long { length descriptors.now ≡ 16 * icb.slots ENTRY_DESCRIPTORS size }
    requires are { AreEntryDescriptors 0 size descriptors.now }
    requires below { below ≤ next_of (D.journal drive.old) }
    ensures listed { IfOk result (λ last. IsTrue (D.honest drive.new) → AreListed udf (held (D.journal drive.old)) size descriptors.now) }
    ensures last { IfOk result (λ last. IsTrue (D.honest drive.new) → last ≡ walk.last_listed (held (D.journal drive.old)) size descriptors.now) }
    ensures fits { IfOk result (λ last. IfSome last (λ e. (0 < e.size) × (e.first ≤ PARTITION_BLOCKS))) }
    ensures refused { IfErr result (λ fault. IsTrue (D.honest drive.new) → IsUnlisted (held (D.journal drive.old)) below entry_at size descriptors.now fault) }
    ensures reads { ReadsOnly D.Drive (devices result) drive.old drive.new }
{
    let count = descriptor_blocks(size);
    if count == 0 {
        return Ok(last_extent(None, size, descriptors));
    }
    let blocks = Extent {
        first: next_number(descriptors),
        size: count * BLOCK_BYTES,
    };
    if !lies_below(blocks.first, blocks.size, below) {
        return Err(damaged(entry_at, cause::RANGE));
    }
    let (here, _) = descriptors.split_at(16 * (ENTRY_DESCRIPTORS as usize - 1));
    let mut last = last_extent(Some(blocks), size, here);
    for index in 0..count {
        let left = bytes_from_block(size, index);
        last = last_in_block(drive, blocks.first + index, left, last)?;
    }
    Ok(last)
}

/// The extent that ends last, of one and those whose descriptors are in the descriptor block at this block number, the
/// first of the extents of `size` bytes.
#[inline(never)]
fn last_in_block<D: Drive>(
    drive: &mut D,
    number: u32,
    size: u32,
    last: Option<Extent>,
) -> Result<Option<Extent>, StoreFault>
    requires some { 0 < size }
    requires limit { size ≤ GREATEST_FILE }
    requires number { number < PARTITION_BLOCKS }
    requires within { number + PARTITION_START < next_of (D.journal drive.old) }
    requires fits { IfSome last (λ e. (0 < e.size) × (e.first ≤ PARTITION_BLOCKS)) }
    ensures ends { IfOk result (λ now. IsTrue (D.honest drive.new) → EndsLast (held (D.journal drive.old)) number size last now) }
    ensures fits { IfOk result (λ now. IfSome now (λ e. (0 < e.size) × (e.first ≤ PARTITION_BLOCKS))) }
    ensures refused { IfErr result (λ fault. IsTrue (D.honest drive.new) → IsBlockRefused (held (D.journal drive.old)) number size fault) }
    ensures reads { ReadsOnly D.Drive (devices result) drive.old drive.new }
{
    let mut block = [0; BLOCK_SIZE];
    let at = number + PARTITION_START;
    read_into(drive, at, &mut block)?;
    match decode_descriptors(&block, number, size) {
        Ok(descriptors) => {
            let count = listed(BLOCK_DESCRIPTORS as usize, size);
            Ok(last_extent(last, size, &descriptors[..16 * count]))
        }
        Err(fault) => Err(damaged(at, fault.number())),
    }
}
