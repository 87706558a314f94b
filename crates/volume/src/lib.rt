//! The header of a volume: its blocks 0 to 256, which a format writes once and nothing changes (ECMA-167 part 3, UDF 2.01
//! 2.2).
//!
//! `front_block` makes each block of the volume header for a label, a moment and a capacity, and `front_blocks` all of
//! them. `read_front` reads exactly such a header, and otherwise reports the first byte that is not as it must be. A
//! caller that cannot hold all of its blocks reads the label, the moment and the capacity with `front_words`, and
//! compares block by block with `first_difference`.
//!
//! What the partition holds, and whether the capacity is that of the medium, is left to the crates above.
#![tactic(auto)]

mod descriptors;
mod front;
mod laws;
mod read;

pub use front::{Front, front_block, front_blocks};
pub use laws::{front_is_no_entry, one_front};
pub use read::{VolumeFault, first_difference, front_words, read_front};
