//! Reading a volume header.

ghost use Rattle.limits.specs.declared.TheConstants.{BLOCK_BYTES, GREATEST_CAPACITY, LEAST_CAPACITY, LEAST_PARTITION_BLOCKS, PARTITION_BLOCKS, PARTITION_START};
ghost use Rattle.std.specs.Prelude.{◌≡◌, ◌<◌, ◌≤◌, ◌↔◌, ℕ, List, [], length, slice_index, slice_index_or, take, IsTrue, IfOk, IfErr, IfSome, IfNone};
ghost use Rattle.ecma.specs.Tag.{Sealed};
ghost use Rattle.ecma.specs.FirstFault.{IsFirst};
ghost use Rattle.volume.specs.declared.read.VolumeFault.TheVariants.{Field};
ghost use Rattle.volume.specs.Front.{IsFront, IsFrontBlock};
ghost use Rattle.volume.specs.Reading.{word_rules, DescriptorsTell, DiffersAt, DiffersFirst, IsFaultTold, stamp_field};

use crate::descriptors::{MAIN, PARTITION_TAG, PRIMARY_VOLUME_TAG};
use crate::front::{Front, front_block};
use ecma::{Block, Timestamp, open_tag, u32_at, u64_at};
use limits::{LEAST_PARTITION_BLOCKS, PARTITION_BLOCKS, PARTITION_START};
use osta::Label;

/// Why blocks are no volume header.
#[derive(Clone, Copy, Debug, PartialEq, Eq)]
pub enum VolumeFault {
    /// The field of this block that begins at this byte cannot be read, or this byte is the first that is not that of
    /// the volume header.
    Field { block: u32, at: u32 },
}

const PRIMARY: u32 = MAIN;

const PARTITION_DESCRIPTOR: u32 = MAIN + 2;

/// Reads a volume header from its blocks. For other blocks it reports the first fault: the field of the primary volume
/// descriptor or of the partition descriptor that cannot be read, or otherwise the first byte that is not that of the
/// header which these two describe.
pub fn read_front(blocks: &[Block]) -> Result<Front, VolumeFault>
    requires { length blocks.now ≡ PARTITION_START }
    ensures found { IfOk result (λ f. IsFront f.label f.moment f.capacity blocks.now) }
    ensures only { (f : Front) → IsFront f.label f.moment f.capacity blocks.now → result ≡ Ok f }
    ensures fault { IfErr result (IsFaultTold blocks.now (slice_index_or blocks.now 32 []) (slice_index_or blocks.now 34 [])) }
{
    let front = match front_words(&blocks[32], &blocks[34]) {
        Ok(front) => front,
        Err(fault) => return Err(fault),
    };
    for (n, block) in blocks.iter().enumerate() {
        if let Some(at) = first_difference(&front, n as u32, block) {
            return Err(VolumeFault::Field {
                block: n as u32,
                at,
            });
        }
    }
    Ok(front)
}

/// What the primary volume descriptor, block 32, and the partition descriptor, block 34, say of the volume. The label,
/// the moment and the capacity are checked, and no other field.
pub fn front_words(primary: &Block, partition: &Block) -> Result<Front, VolumeFault>
    ensures reports { IfOk result (λ f. DescriptorsTell f primary.now partition.now) }
    ensures capacity { IfOk result (λ f. (LEAST_CAPACITY ≤ f.capacity) × (f.capacity ≤ GREATEST_CAPACITY)) }
    ensures fault { IfErr result (IsFirst (word_rules primary.now partition.now)) }
{
    if !has_tag(primary, PRIMARY_VOLUME_TAG, PRIMARY) {
        return Err(fault(PRIMARY, 0));
    }
    let Some(label) = Label::of(&primary[24..56]) else {
        return Err(fault(PRIMARY, 24));
    };
    let Some(moment) = Timestamp::read(&stamp(primary)) else {
        return Err(fault(PRIMARY, 376));
    };
    if !has_tag(partition, PARTITION_TAG, PARTITION_DESCRIPTOR) {
        return Err(fault(PARTITION_DESCRIPTOR, 0));
    }
    let length = u32_at(partition, 192);
    if !is_partition_length(length) {
        return Err(fault(PARTITION_DESCRIPTOR, 192));
    }
    Ok(Front {
        label,
        moment,
        capacity: length + PARTITION_START,
    })
}

/// The first byte of a block that is not that of the volume header at address `n`.
pub fn first_difference(front: &Front, n: u32, block: &Block) -> Option<u32>
    requires low { LEAST_CAPACITY ≤ front.now.capacity }
    requires high { front.now.capacity ≤ GREATEST_CAPACITY }
    requires within { n ≤ 256 }
    ensures none { IfNone result (IsFrontBlock front.now.label front.now.moment front.now.capacity n block.now) }
    ensures some { IfSome result (DiffersAt front.now n block.now) }
    ensures only { IsFrontBlock front.now.label front.now.moment front.now.capacity n block.now → result ≡ None }
{
    let expected = front_block(&front.label, front.moment, front.capacity, n);
    first_other(block, &expected)
}

/// The first byte in which the block differs from the expected one.
fn first_other(block: &Block, expected: &Block) -> Option<u32>
    ensures none { IfNone result (block.now ≡ expected.now) }
    ensures some { IfSome result (DiffersFirst block.now expected.now) }
    ensures bytes { IfSome result (λ at. ((i : ℕ) → slice_index block.now i < 256) × ((i : ℕ) → slice_index expected.now i < 256)) }
{
    let start = same_front(block, expected);
    for at in start..block.len() {
        let byte = block[at];
        if byte != expected[at] {
            return Some(at as u32);
        }
    }
    None
}

/// How many bytes at the beginning are the same, as a multiple of eight.
fn same_front(block: &Block, expected: &Block) -> usize
    ensures within { result ≤ BLOCK_BYTES }
    ensures same { (i : ℕ) → i < result → slice_index block.now i ≡ slice_index expected.now i }
{
    let mut at = 0;
    'words: while at < block.len() - 7 {
        if u64_at(block, at) != u64_at(expected, at) {
            return at;
        }
        at += 8;
    }
    at
}

/// Whether a partition may have this many blocks, as on a medium that is neither too small nor too large.
fn is_partition_length(length: u32) -> bool
    ensures { IsTrue result ↔ ((LEAST_PARTITION_BLOCKS ≤ length) × (length ≤ PARTITION_BLOCKS)) }
{
    LEAST_PARTITION_BLOCKS <= length && length <= PARTITION_BLOCKS
}

fn fault(block: u32, at: u32) -> VolumeFault
    ensures { result ≡ Field block at }
{
    VolumeFault::Field { block, at }
}

/// Whether the block begins with a descriptor of 512 bytes with this tag identifier and location.
fn has_tag(block: &Block, id: u16, loc: u32) -> bool
    ensures { IsTrue result ↔ Sealed id loc (take 512 block.now) }
{
    let (descriptor, _) = block.split_at(512);
    open_tag(descriptor, id, loc).is_ok()
}

/// The bytes of the timestamp of a primary volume descriptor.
fn stamp(primary: &Block) -> [u8; 12]
    ensures { result ≡ stamp_field primary.now }
{
    let mut stamp = [0; 12];
    stamp.copy_from_slice(&primary[376..388]);
    stamp
}
