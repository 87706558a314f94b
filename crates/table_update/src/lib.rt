//! The table of the next commit: what a request's reply and its nodes change in the table before, and what follows.
//!
//! Promised: each change is made exactly if it can be. The table that the changes make is the one that a request's plan
//! asks for, in as many bytes. What is computed from sizes is what a request may need. The blocks of the request's
//! nodes, the table's bytes and its VAT ICB make the plan. If these are written, all or a prefix, the request is
//! committed or not.
//!
//! Left to others: where blocks are, which nodes a request writes, and every write.
#![tactic(auto)]

mod laws;
mod node;
mod table;

pub use laws::{commits_are_planned, need_is_reckoned, next_tables_follow, pieces_are_planned};
pub use node::NewNode;
pub use table::{add_node, copied, keep_reply, place_node, remove_node};
