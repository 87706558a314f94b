//! The extents of a file that has several, each but the last of [`limits::FILE_BYTES`] bytes.

ghost use Rattle.limits.specs.declared.TheConstants.{ENTRY_DESCRIPTORS, EXTENTS, FILE_BYTES, GREATEST_FILE};
ghost use Rattle.std.specs.Prelude.{◌≡◌, ℕ, ◌+◌, ◌-◌, ◌*◌, ◌<◌, ◌≤◌, length};
ghost use Rattle.ecma.specs.Numbers as read;
ghost use Rattle.icb.specs.Entry as entry;
ghost use Rattle.icb.specs.Extents as spec;

use ecma::{Block, u32_at};
use limits::{BLOCK_DESCRIPTORS, ENTRY_DESCRIPTORS, FILE_BYTES};

/// How many extents so many bytes are in.
pub fn extent_count(size: u32) -> usize
    requires { size ≤ GREATEST_FILE }
    ensures count { result ≡ spec.extent_count size }
    ensures few { result ≤ EXTENTS }
{
    size.div_ceil(FILE_BYTES as u32) as usize
}

/// How many of them are in extent number `index`.
pub fn extent_size(size: u32, index: usize) -> u32
    requires begins { FILE_BYTES * index ≤ size }
    requires limit { size ≤ GREATEST_FILE }
    ensures size { result ≡ spec.extent_size size index }
    ensures limit { result ≤ FILE_BYTES }
{
    (size - FILE_BYTES as u32 * index as u32).min(FILE_BYTES as u32)
}

/// How many of them are in the last extent.
pub(crate) fn last_size(size: u32) -> u32
    requires some { 0 < size }
    requires limit { size ≤ GREATEST_FILE }
    ensures { result ≡ spec.last_size size }
{
    extent_size(size, extent_count(size) - 1)
}

/// How many allocation descriptors are in a place with room for `room`: one for each extent, or `room`, of which the last
/// leads to a descriptor block (ECMA-167 4/14.5).
pub(crate) fn slots(room: usize, size: u32) -> usize
    requires { size ≤ GREATEST_FILE }
    ensures slots { result ≡ spec.slots room size }
    ensures most { result ≤ room }
{
    extent_count(size).min(room)
}

/// How many extents of a file or of the rest of one have their descriptors in a place with room for `room`.
pub fn listed(room: usize, size: u32) -> usize
    requires some { 0 < room }
    requires limit { size ≤ GREATEST_FILE }
    ensures listed { result ≡ spec.listed room size }
    ensures most { result ≤ room }
{
    let count = extent_count(size);
    if count <= room { count } else { room - 1 }
}

/// How many descriptor blocks a file of so many bytes has, for the descriptors that its entry has no room for
/// (ECMA-167 4/14.5).
pub fn descriptor_blocks(size: u32) -> u32
    requires { size ≤ GREATEST_FILE }
    ensures count { result ≡ spec.descriptor_blocks size }
    ensures few { result ≤ 7 }
{
    let beyond = (extent_count(size) as u32).saturating_sub(ENTRY_DESCRIPTORS);
    beyond.div_ceil(BLOCK_DESCRIPTORS - 1)
}

/// The allocation descriptors in the block of a file's entry whose bytes are not inside: those of its extents, and the
/// one that leads to descriptor blocks if there are any.
pub fn entry_descriptors(block: &Block, size: u32) -> &[u8]
    requires { size ≤ GREATEST_FILE }
    ensures { (e : entry.Fields) (loc : ℕ) → entry.IsEntry e loc block.now → e.size ≡ size → entry.flags_of e.place ≡ 1 → result.now ≡ entry.allocation e.size e.place }
{
    &block[176..176 + 16 * slots(ENTRY_DESCRIPTORS as usize, size)]
}

/// The block number at which extent number `index` of these allocation descriptors begins.
pub fn extent_first(descriptors: &[u8], index: usize) -> u32
    requires { 16 * index + 16 ≤ length descriptors.now }
    ensures { result ≡ read.u32_at (16 * index + 4) descriptors.now }
{
    u32_at(descriptors, 16 * index + 4)
}

/// The block number of the descriptor block to which the last of these allocation descriptors leads
/// (ECMA-167 4/14.14.1.1).
pub fn next_number(descriptors: &[u8]) -> u32
    requires { 16 ≤ length descriptors.now }
    ensures { result ≡ spec.next_number descriptors.now }
{
    u32_at(descriptors, descriptors.len() - 12)
}
