//! A new volume: written on a blank drive, or finished after a format was interrupted.
//!
//! Promised: which blocks are written, and in which order; that there is one list of them for each label, moment and
//! capacity; that the medium recovers to the new volume with its last block, and to nothing before; what is written if
//! the drive fails; and when each refusal comes.
//!
//! Left to others: opening a volume, and all that is done with it.
#![tactic(auto)]

mod formatting;
mod images;
mod parts;

pub use formatting::{format, one_format};
pub use images::require_beginning;
