//! A volume that is kept: it is opened, requests are committed to it, and queries are answered from it, also as of an
//! earlier commit.
//!
//! Promised: opening, queries, history and checks write nothing. A request that is committed is on the medium, with all
//! that it leads to. After a failed write, the medium has a prefix of the plan's blocks, and the store is stopped.
//! After any other refusal the medium is as it was. On a drive whose reads are honest, the store knows the recovered
//! state (UDF 2.01 2.2.10), and its answers are those of that state, or of the one after an earlier commit. A store
//! keeps the table, the sessions and a few directories, and no drive: each call borrows the drive, which nobody else
//! writes. `check_volume` needs no store: it looks at each state of a volume once, from the newest back.
//!
//! Left to others: the new volume that is opened first (`formatting`), what a request changes and where it is written
//! (`planning`), the walk to a node (`lookup`), and what a client is answered.
#![tactic(auto)]

mod commit;
mod due;
mod history;
mod laws;
mod queries;
mod store;

pub use due::Due;
pub use formatting::{format, one_format};
pub use history::{Commit, Snapshot, check_volume};
pub use laws::snapshots_stay;
pub use recover::StoreFault;
pub use store::Store;
pub use table_update::{
    commits_are_planned, need_is_reckoned, next_tables_follow, pieces_are_planned,
};
