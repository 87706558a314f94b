//! Single allocation descriptors (ECMA-167 4/14.14.2).

ghost use Rattle.std.specs.Prelude.{◌≡◌};
ghost use Rattle.icb.specs.Extents as spec;

use crate::descriptors::NEXT;
use crate::encode::extent;

/// The descriptor of an extent of `size` bytes that begins at block number `first` (ECMA-167 4/14.14.2).
pub fn extent_descriptor(size: u32, first: u32) -> [u8; 16]
    ensures { result ≡ spec.long_descriptor size first }
{
    extent(size, first).to_bytes()
}

/// The descriptor that leads to the descriptor block at block number `number` (ECMA-167 4/14.14.1.1).
pub fn next_descriptor(number: u32) -> [u8; 16]
    ensures { result ≡ spec.next_descriptor number }
{
    extent(NEXT, number).to_bytes()
}
