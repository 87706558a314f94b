//! Sessions of the engine, as the C library uses them.
//!
//! A session is an engine, the medium that its volume is on, and the answers that C has not taken yet. Each function of
//! `calls` is what one call of C does to a session, and returns the outcome as a number. The exports in `capi` find the
//! session by its handle.
#![tactic(auto)]

pub mod calls;
mod commits;
mod fault;
mod handed;
mod laws;
mod lending;
mod loose;
mod medium;
mod questions;
mod session;
mod told;
mod volumes;

pub use fault::{Fault, status_of};
pub use handed::Handed;
pub use laws::sessions_are_runs;
pub use session::Session;
pub use told::{CommitStatus, Status};
pub use volumes::format_file;
