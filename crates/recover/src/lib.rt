//! Reading a medium back: the last table, the tables before it, and the state to which a VAT ICB leads.
//!
//! Promised: each call only reads, so the drive's journal stays as it was. Each refusal is one of `StoreFault`.
//! `Device` is reported only if the drive counted a failure. On a drive whose reads are honest, `last` finds the last
//! VAT ICB, from the end, and what is read is what the medium has. `state_at` looks at every node that a table leads
//! to, and returns the state that the blocks below the VAT ICB hold. The descriptor blocks of a file are read and
//! checked with its entry. If that VAT ICB is the last, the medium recovers to this state. If damage is reported, there
//! is no such state. `state_sharing` returns the same, and reads no node again that the state of the previous call had.
//! For a file that is where it was found under its name, it checks only where the table leads.
//!
//! The crate also has what the crates above share for reading: `Node` and `ROOT`, as directories name nodes; `Extent`,
//! by which `read_directory` finds a directory; and `StoreFault`, the refusals of every call on a volume, since these
//! reads are the lowest calls that are refused in this way.
//!
//! Left to others: whatever is written, and what is asked of a state.
#![tactic(auto)]

pub mod cause;
mod checked;
mod directory;
mod extents;
mod fault;
mod id_set;
mod kept;
mod laws;
mod node;
mod places;
mod read_cache;
mod reading;
mod state;
mod table;
mod walk;

pub use directory::{Extent, read_directory};
pub use extents::{bytes_from_block, last_extent};
pub use fault::{StoreFault, damaged};
pub use laws::last_state_stands;
pub use node::{Node, ROOT};
pub use read_cache::ReadCache;
pub use reading::{block_count, read_block, read_blocks, read_bytes};
pub use state::{State, state_at, state_sharing};
pub use table::{TableEntry, before, last, lies_below, linked, read_table, table_at, table_entry};
pub use walk::ROOT_ADDRESS;
