//! Drives whose writes may wait, so that many commits go to the disk in two syncs.
//!
//! A group is requests that are carried out one after another, each a commit of its own, whose last block is its mark.
//! First all blocks of the group but the marks go to the disk, and are synced; then the marks, and are synced. What is
//! recovered of what a power loss leaves of these two phases is not stated here.
#![tactic(auto)]

mod file;
mod group;
mod head;
#[cfg(test)]
mod head_tests;
mod memory;
mod phase;
mod record;
mod settles;

pub use file::GatheringFileDrive;
pub use head::MOST_MARKS;
pub use memory::GatheringDrive;
pub use phase::Phase;
pub use settles::Settles;
