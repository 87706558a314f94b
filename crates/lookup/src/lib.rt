//! A look-up in a state of a volume: the walk from the root by names, and the queries about a state.
//!
//! `Lookup` borrows what a query needs: the drive, the nodes of the state in question, and the cache of the directories
//! that were used last. A caller makes one from these parts, asks it, and drops it. The contract of each call says what
//! it answers about the tree that the nodes make, and what it does, in one relation, `Looks` in `specs/Lookups.antt`:
//! it has what it borrowed, it only read the drive, and what is cached is right. `proofs/Looking.antt` puts those of
//! several calls together.
//!
//! Promised: a directory in the cache is the one whose entry (ECMA-167 4/14.9) is in the block under which it is kept,
//! and whose data (4/14.4) are in the extent of this entry. On a drive whose reads are honest, a path leads to the node
//! that the state's tree has there. A query is answered with what the tree has, or refused because it has no such node,
//! the drive failed, or memory was short. Each call only reads.
//!
//! Left to others: which state is asked, what a request changes in it, and every write.
#![tactic(auto)]

mod cache;
mod content;
mod descriptors;
mod end;
mod extents;
mod lookup;
mod nodes;
mod queries;
mod walk;

pub use cache::DirectoryCache;
pub use content::Content;
pub use end::FileEnd;
pub use extents::FullExtents;
pub use lookup::Lookup;
pub use nodes::{EntryAt, Nodes, Placed};
