//! Descriptor blocks: the allocation descriptors of a file that its entry has no room for (ECMA-167 4/14.5).

ghost use Rattle.limits.specs.declared.TheConstants.{BLOCK_BYTES, BLOCK_DESCRIPTORS, GREATEST_FILE, PARTITION_BLOCKS};
ghost use Rattle.std.specs.Prelude.{◌≡◌, ◌*◌, ◌+◌, ◌-◌, ◌++◌, ◌<◌, ◌≤◌, ◌↔◌, suc, IfErr, IfOk, IsTrue, drop, is_ok, length, replicate, take};
ghost use Rattle.ecma.specs.FirstFault.{AllHold, IsFirst};
ghost use Rattle.ecma.specs.Descriptor.{descriptor_block};
ghost use Rattle.ecma.specs.Tag.{Sealed};
ghost use Rattle.icb.specs.Descriptors as rule;
ghost use Rattle.icb.specs.Descriptors.{descriptor_rules};
ghost use Rattle.icb.specs.Extents.{AreExtents, IsDescriptorBlock, block_list, descriptors_body, descriptors_in, extent_count};

use crate::extents::{extent_count, slots};
use crate::fault::IcbFault;
use crate::rules::are_descriptors;
use crate::spelled::next_descriptor;
use ecma::{Block, Field, are_zeros, is_u32_at, open_tag, u32_at, write_descriptor};
use limits::BLOCK_DESCRIPTORS;

const ALLOCATION_EXTENT: u16 = 258;

/// The most descriptors of a block.
const ROOM: usize = BLOCK_DESCRIPTORS as usize;

/// The length of a descriptor that leads to a descriptor block, with its kind, 3, in the two highest bits
/// (ECMA-167 4/14.14.1.1).
pub(crate) const NEXT: u32 = 0xC000_0800;

/// The allocation descriptors in the descriptor block at a block number, those of the extents of `size` bytes that follow
/// the extents before, or the first rule that the block breaks. If the block has no room for all, the last descriptor
/// leads to the next block number.
pub fn decode_descriptors<'a>(
    block: &'a Block,
    number: u32,
    size: u32,
) -> Result<&'a [u8], IcbFault>
    requires limit { size ≤ GREATEST_FILE }
    requires number { number < PARTITION_BLOCKS }
    // What is read is what the block spells.
    ensures found { IfOk result (λ descriptors. IsDescriptorBlock size number block.now) }
    ensures descriptors { IfOk result (λ descriptors. descriptors.now ≡ descriptors_in block.now) }
    // What a block spells is read.
    ensures only { IsDescriptorBlock size number block.now → IsTrue (is_ok result) }
    // A fault is the first.
    ensures fault { IfErr result (IsFirst (descriptor_rules size number block.now)) }
{
    examine_descriptors(block, number, size)
}

/// The rules of a descriptor block, one after another.
fn examine_descriptors<'a>(block: &'a Block, number: u32, size: u32) -> Result<&'a [u8], IcbFault>
    requires limit { size ≤ GREATEST_FILE }
    requires number { number < PARTITION_BLOCKS }
    ensures fault { IfErr result (IsFirst (descriptor_rules size number block.now)) }
    ensures rules { IfOk result (λ descriptors. AllHold (descriptor_rules size number block.now)) }
    ensures descriptors { IfOk result (λ descriptors. descriptors.now ≡ descriptors_in block.now) }
{
    let end = descriptors_end(block);
    if !has_descriptor_tag(block, number) {
        return Err(IcbFault::Tag);
    }
    if !is_u32_at(0, block, 16) {
        return Err(IcbFault::Fixed);
    }
    if u32_at(block, 20) as usize != 16 * slots(ROOM, size) {
        return Err(IcbFault::Lengths);
    }
    if !are_descriptors(size, ROOM, number + 1, block, 24) {
        return Err(IcbFault::Extent);
    }
    let (front, tail) = block.split_at(end);
    if !are_zeros(tail) {
        return Err(IcbFault::Tail);
    }
    Ok(&front[24..])
}

/// Where the descriptors end, by their length.
fn descriptors_end(block: &Block) -> usize
    ensures value { result ≡ rule.descriptors_end block.now }
    ensures low { 24 ≤ result }
    ensures high { result ≤ BLOCK_BYTES }
{
    let length = u32_at(block, 20) as usize;
    if length <= 16 * ROOM && length % 16 == 0 {
        return 24 + length;
    }
    24
}

fn has_descriptor_tag(block: &Block, number: u32) -> bool
    ensures { IsTrue result ↔ Sealed 258 number (take (rule.descriptors_end block.now) block.now) }
{
    let (descriptor, _) = block.split_at(descriptors_end(block));
    open_tag(descriptor, ALLOCATION_EXTENT, number).is_ok()
}

/// Writes the descriptor block at a block number over the whole block. `descriptors` are those of the extents of `size`
/// bytes, all that do not come before. If the block has no room for all of them, it has those of one extent less than it
/// has room for, and then one that leads to the next block number.
pub fn write_descriptors(descriptors: &[u8], size: u32, number: u32, block: &mut Block)
    requires limit { size ≤ GREATEST_FILE }
    requires long { length descriptors.now ≡ 16 * extent_count size }
    requires are { AreExtents 0 size descriptors.now }
    requires number { number < PARTITION_BLOCKS }
    ensures is { IsDescriptorBlock size number block.new }
    ensures list { descriptors_in block.new ≡ block_list descriptors.now number }
{
    if extent_count(size) <= ROOM {
        return write_list(descriptors, &[], number, block);
    }
    let next = next_descriptor(number + 1);
    let (here, _) = descriptors.split_at(16 * (ROOM - 1));
    write_list(here, &next, number, block);
}

/// Writes the descriptor block with these descriptors.
fn write_list<'a>(here: &'a [u8], next: &'a [u8], number: u32, block: &mut Block)
    requires { length here.now + length next.now ≤ 16 * BLOCK_DESCRIPTORS }
    ensures { block.new ≡ descriptor_block 258 number (descriptors_body (here.now ++ next.now)) }
{
    write_descriptor(
        ALLOCATION_EXTENT,
        number,
        &[
            Field::U32(0), // 16 previous allocation extent location
            Field::U32((here.len() + next.len()) as u32), // 20 length of allocation descriptors
            Field::Bytes(here), // 24 allocation descriptors
            Field::Bytes(next),
        ],
        block,
    );
}
