//! Reads of structures by their addresses. No call writes.

ghost use Rattle.limits.specs.declared.TheConstants.{BLOCK_BYTES};
ghost use Rattle.std.specs.Prelude.{◌≡◌, ◌+◌, ◌<◌, ◌≤◌, ◌^◌, IsTrue, IfOk, IfErr, OnOk, Some, vec_len, All};
ghost use Rattle.udf.specs.Udf.{IsBlock};
ghost use Rattle.std.specs.Int.{div_ceil};
ghost use Rattle.drive.specs.Journal.{AreWhole, held, last_at, next_of};
ghost use Rattle.recover.specs.declared.fault.StoreFault.TheVariants.{Device};
ghost use Rattle.recover.specs.Blocks.{blocks_at, medium_bytes_at};
ghost use Rattle.drive.specs.Reads.{ReadsOnly};
ghost use Rattle.recover.specs.Faults.{IsShortage, devices};

use crate::fault::StoreFault;
use drive::Drive;
use ecma::Block;
use limits::{BLOCK_BYTES, BLOCK_SIZE};
use std::alloc::Global;
use udf::blocks_are_bytes;

/// How many blocks `size` bytes take.
pub fn block_count(size: u32) -> u32
    ensures { result ≡ div_ceil size BLOCK_BYTES }
{
    size.div_ceil(BLOCK_BYTES)
}

/// Reads the block at an address.
pub fn read_block<D: Drive>(drive: &mut D, at: u32) -> Result<Block, StoreFault>
    requires { at < next_of (D.journal drive.old) }
    ensures read { IfOk result (λ block. IsTrue (D.honest drive.new) → last_at (D.journal drive.old) at ≡ Some block) }
    ensures block { IfOk result IsBlock }
    ensures whole { AreWhole (D.journal drive.old) }
    ensures device { IfErr result (λ fault. fault ≡ Device) }
    ensures reads { ReadsOnly D.Drive (devices result) drive.old drive.new }
{
    let mut block = [0; BLOCK_SIZE];
    match read_into(drive, at, &mut block) {
        Ok(()) => Ok(block),
        Err(fault) => Err(fault),
    }
}

/// Reads the block at an address into the caller's, so that it is not moved.
pub(crate) fn read_into<D: Drive>(
    drive: &mut D,
    at: u32,
    block: &mut Block,
) -> Result<(), StoreFault>
    requires { at < next_of (D.journal drive.old) }
    ensures read { OnOk result (IsTrue (D.honest drive.new) → last_at (D.journal drive.old) at ≡ Some block.new) }
    ensures block { OnOk result (IsBlock block.new) }
    ensures whole { AreWhole (D.journal drive.old) }
    ensures device { IfErr result (λ fault. fault ≡ Device) }
    ensures reads { ReadsOnly D.Drive (devices result) drive.old drive.new }
{
    match drive.read(at, block) {
        Ok(()) => {
            blocks_are_bytes(block);
            Ok(())
        }
        Err(_) => Err(StoreFault::Device),
    }
}

/// Reads `count` blocks from an address on.
pub fn read_blocks<D: Drive>(
    alloc: Global,
    drive: &mut D,
    at: u32,
    count: u32,
) -> Result<Vec<Block>, StoreFault>
    requires within { at + count ≤ next_of (D.journal drive.old) }
    requires fits { at + count < 2 ^ 32 }
    ensures read { IfOk result (λ blocks. IsTrue (D.honest drive.new) → blocks.items ≡ blocks_at (held (D.journal drive.old)) at count) }
    ensures blocks { IfOk result (λ blocks. All IsBlock blocks.items) }
    ensures count { IfOk result (λ blocks. vec_len blocks ≡ count) }
    ensures refused { IfErr result IsShortage }
    ensures reads { ReadsOnly D.Drive (devices result) drive.old drive.new }
{
    let mut blocks = Vec::with_capacity(alloc, count as usize)?;
    for i in 0..count {
        let block = read_block(drive, at + i)?;
        blocks.push(block)?;
    }
    Ok(blocks)
}

/// Reads `size` bytes, which begin with the block at `at`.
pub fn read_bytes<D: Drive>(
    alloc: Global,
    drive: &mut D,
    at: u32,
    size: u32,
) -> Result<Vec<u8>, StoreFault>
    requires within { at + div_ceil size BLOCK_BYTES ≤ next_of (D.journal drive.old) }
    requires fits { at + div_ceil size BLOCK_BYTES < 2 ^ 32 }
    ensures read { IfOk result (λ bytes. IsTrue (D.honest drive.new) → bytes.items ≡ medium_bytes_at (held (D.journal drive.old)) at size) }
    ensures size { IfOk result (λ bytes. vec_len bytes ≡ size) }
    ensures refused { IfErr result IsShortage }
    ensures reads { ReadsOnly D.Drive (devices result) drive.old drive.new }
{
    let mut bytes = Vec::with_capacity(alloc, size as usize)?;
    for i in 0..block_count(size) {
        let block = read_block(drive, at + i)?;
        let left = (size - i * BLOCK_BYTES).min(BLOCK_BYTES);
        bytes.extend_from_slice(&block[..left as usize])?;
    }
    Ok(bytes)
}
