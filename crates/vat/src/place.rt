//! Places for data: those at which no block of the data would be a VAT ICB.

ghost use Rattle.limits.specs.declared.TheConstants.{BLOCK_BYTES, FILE_BYTES, PARTITION_BLOCKS};
ghost use Rattle.std.specs.Prelude.{◌≡◌, ℕ, ◌+◌, ◌*◌, ◌<◌, ◌≤◌, ◌↔◌, length, take, drop, IsTrue};
ghost use Rattle.ecma.specs.Descriptor.{padded};
ghost use Rattle.ecma.specs.Blocks.{block_count};
ghost use Rattle.icb.specs.VatIcb.{IsVatIcb};
ghost use Rattle.vat.specs.Imitation.{Imitates};

use ecma::{Block, u32_at};
use icb::{Kind, decode_fe};
use limits::BLOCK_SIZE;

/// Where a descriptor's tag has its location (ECMA-167 4/7.2.8).
const LOCATION: usize = 12;

/// Whether the block is a VAT ICB at this block number.
pub fn is_vat_icb(block: &Block, number: u32) -> bool
    ensures { IsTrue result ↔ IsVatIcb block.now number }
{
    match decode_fe(block, number) {
        Ok(entry) => entry.kind == Kind::Vat,
        Err(_) => false,
    }
}

/// The least block number from `from` on at which data can begin so that none of their blocks would be a VAT ICB where
/// it would be. The last block is filled up with zeros. The result is at most `from` and the number of blocks of the
/// data: each block is a VAT ICB at one number only, so each rules out one start at most.
pub fn clear_start(bytes: &[u8], from: u32) -> u32
    requires size { length bytes.now ≤ FILE_BYTES }
    requires place { from ≤ PARTITION_BLOCKS }
    ensures low { from ≤ result }
    ensures high { result ≤ from + block_count (length bytes.now) }
    ensures clear { Imitates bytes.now result → ⊥ }
    ensures least { (start : ℕ) → from ≤ start → start < result → Imitates bytes.now start }
{
    let blocks = bytes.len().div_ceil(BLOCK_SIZE) as u32;
    for start in from..from + blocks {
        if !imitates(bytes, start) {
            return start;
        }
    }
    from + blocks
}

/// Whether some block of data that begin at `start` would be a VAT ICB.
fn imitates(bytes: &[u8], start: u32) -> bool
    requires size { length bytes.now ≤ FILE_BYTES }
    requires place { start ≤ 1_000_000 }
    ensures { IsTrue result ↔ Imitates bytes.now start }
{
    for i in 0..bytes.len().div_ceil(BLOCK_SIZE) {
        if is_entry(block_text(bytes, i), start + i as u32) {
            return true;
        }
    }
    false
}

/// The bytes of a block of the data. The last one may have fewer.
fn block_text(bytes: &[u8], i: usize) -> &[u8]
    requires { BLOCK_BYTES * i ≤ length bytes.now }
    ensures value { result.now ≡ take BLOCK_BYTES (drop (BLOCK_BYTES * i) bytes.now) }
    ensures size { length result.now ≤ BLOCK_BYTES }
{
    let (_, rest) = bytes.split_at(BLOCK_SIZE * i);
    let (text, _) = rest.split_at(rest.len().min(BLOCK_SIZE));
    text
}

/// Whether a block with these bytes, and zeros after them, is a VAT ICB at this block number. The location in the tag
/// is compared first, since that rules out nearly every block.
fn is_entry(text: &[u8], number: u32) -> bool
    requires { length text.now ≤ BLOCK_BYTES }
    ensures { IsTrue result ↔ IsVatIcb (padded text.now) number }
{
    if text.len() >= LOCATION + 4 && u32_at(text, LOCATION) != number {
        return false;
    }
    is_padded_entry(text, number)
}

/// The same as `is_entry`, for a block that may have the right location.
fn is_padded_entry(text: &[u8], number: u32) -> bool
    requires { length text.now ≤ BLOCK_BYTES }
    ensures { IsTrue result ↔ IsVatIcb (padded text.now) number }
{
    let mut block = [0; BLOCK_SIZE];
    block[..text.len()].copy_from_slice(text);
    is_vat_icb(&block, number)
}
