//! What a power loss leaves of messages whose blocks go to the disk as one group.
//!
//! Messages are answered one after another, and the disk is given what they wrote in two phases: all blocks with zeros in
//! place of the VAT ICBs that end the commits, and a sync; then these, the marks, and a sync. Nothing here runs: each
//! function's contract is a law.
//!
//! Left to others: which calls write a group in this order, and when the answers go out.
#![tactic(auto)]

mod laws;

pub use laws::groups_survive;
