//! A commit before it takes effect: what a request does to the nodes, the plan of all blocks, and their way to the drive.
//!
//! Promised: a change is the one that the request's operation makes to the state's tree, or does nothing and has the
//! code that says why. A plan has the blocks of the change and of the next table one after another, the VAT ICB last.
//! All memory that its writes need is taken when it is made. It is refused as full only if there may be no room for its
//! blocks. All of it is written, or a prefix if the drive fails.
//!
//! Left to others: which volume it is, whether a request is due, and what is kept of the volume after a commit.
#![tactic(auto)]

mod before;
mod change;
mod file;
mod layout;
mod places;
mod plan;
mod write;

pub use change::{Change, NewDirectory};
pub use file::NewFile;
pub use layout::{PlacedDirectory, PlacedFile, PlacedTable};
pub use plan::{LastTable, Plan};
