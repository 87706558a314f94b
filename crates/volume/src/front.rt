//! The blocks of a volume header.

ghost use Rattle.limits.specs.declared.TheConstants.{GREATEST_CAPACITY, LEAST_CAPACITY, PARTITION_START};
ghost use Rattle.std.specs.Prelude.{◌≡◌, ◌≤◌, ◌%◌, IfOk};
ghost use Rattle.osta.specs.Dstring.{dstring};
ghost use Rattle.volume.specs.Front.{HasContent, IsFront, IsFrontBlock, recognition_content, sequence_content};
ghost use Rattle.volume.specs.Front.HeaderBlock.{Recognition};

use crate::descriptors::{
    anchor, implementation_use, integrity, logical_volume, partition, primary, terminating,
    unallocated_space,
};
use ecma::{Block, Field, Timestamp, write_fields};
use limits::{BLOCK_SIZE, PARTITION_START};
use osta::Label;
use std::alloc::{AllocError, Global};

/// What the volume header says of its volume.
#[derive(Clone, Copy, Debug, PartialEq, Eq)]
pub struct Front {
    pub label: Label,
    /// The moment of the format.
    pub moment: Timestamp,
    /// How many blocks the volume has, from `limits::LEAST_CAPACITY` to `limits::GREATEST_CAPACITY`.
    pub capacity: u32,
}

/// The block of the volume header at an address (ECMA-167 2/9.1 and 3/10, UDF 2.01 2.2).
pub fn front_block(label: &Label, moment: Timestamp, capacity: u32, n: u32) -> Block
    requires low { LEAST_CAPACITY ≤ capacity }
    requires high { capacity ≤ GREATEST_CAPACITY }
    requires within { n ≤ 256 }
    ensures { IsFrontBlock label.now moment capacity n result }
{
    let stamp = moment.to_bytes();
    let volume = label.dstring_32();
    match n {
        0..=31 => recognition_block(n),
        32..=63 => sequence_block(label, volume, moment.moment(), stamp, capacity, n),
        64 => integrity(stamp, capacity, n),
        65 => terminating(n),
        256 => anchor(n),
        _ => [0; BLOCK_SIZE],
    }
}

/// All blocks of the volume header.
pub fn front_blocks(
    alloc: Global,
    label: &Label,
    moment: Timestamp,
    capacity: u32,
) -> Result<Vec<Block>, AllocError>
    requires low { LEAST_CAPACITY ≤ capacity }
    requires high { capacity ≤ GREATEST_CAPACITY }
    ensures { IfOk result (λ blocks. IsFront label.now moment capacity blocks.items) }
{
    let mut blocks = Vec::with_capacity(alloc, PARTITION_START as usize)?;
    for n in 0..PARTITION_START {
        blocks.push(front_block(label, moment, capacity, n))?;
    }
    Ok(blocks)
}

/// A block of the recognition sequence, or of the zeros around it.
fn recognition_block(n: u32) -> Block
    ensures { HasContent n (recognition_content n) result }
{
    match n {
        16 => recognition(b"BEA01"),
        17 => recognition(b"NSR03"),
        18 => recognition(b"TEA01"),
        _ => [0; BLOCK_SIZE],
    }
}

/// A structure of the recognition sequence (ECMA-167 2/9.1), of version 1.
fn recognition(identifier: &[u8; 5]) -> Block
    ensures { HasContent 0 (Recognition identifier.now) result }
{
    let mut block = [0; BLOCK_SIZE];
    let structure = [Field::U8(0), Field::Bytes(identifier), Field::U8(1)];
    write_fields(&structure, &mut block);
    block
}

/// A block of one of the two copies of the volume descriptor sequence.
fn sequence_block(
    label: &Label,
    volume: [u8; 32],
    moment: u64,
    stamp: [u8; 12],
    capacity: u32,
    n: u32,
) -> Block
    requires volume { volume ≡ dstring 32 label.now }
    requires capacity { PARTITION_START ≤ capacity }
    ensures { HasContent n (sequence_content label.now moment stamp capacity (n % 16)) result }
{
    match n % 16 {
        0 => primary(label, volume, moment, stamp, n),
        1 => implementation_use(label, n),
        2 => partition(capacity, n),
        3 => logical_volume(label, n),
        4 => unallocated_space(n),
        5 => terminating(n),
        _ => [0; BLOCK_SIZE],
    }
}
