//! The words of the two programs, and what they ask for.
//!
//! `read_command` reads the words of `udfburn`, which must match exactly, by position. `read_daemon` reads those of
//! `udfburnd`. Numbers have only decimal digits, and are within their ranges. Whether a path, an image or a socket is
//! valid is left to the crate above.
#![tactic(auto)]

mod command;
mod daemon;
mod number;

pub use command::{Command, Storage, read_command};
pub use daemon::{DaemonWords, WordsFault, read_daemon};
