//! What the two programs do with their words, streams and files.
//!
//! `command_on` is the program `udfburn`, and `daemon_on` is `udfburnd`, without the process itself. Each is given its
//! words, its streams and the media on which its images are, and returns a status. Statuses and lines are those of
//! docs/OPERATIONS.md.
//! What a volume holds and how it changes is left to the crates below.
#![tactic(auto)]

mod commands;
mod counting;
mod daemons;
mod errors;
mod fault;
mod images;
mod laws;
mod lines;
mod listening;
mod process;
mod questions;
mod requests;
mod sending;
mod sockets;
mod standard_input;
mod volumes;

pub use commands::command_on;
pub use daemons::{daemon_on, serve_one};
pub use engine::CountedReader;
pub use errors::ErrorStream;
pub use fault::{Fault, report};
pub use laws::{frames_are_messages, processes_are_runs, three_processes, two_processes};
pub use listening::{Listener, NoConnection};
pub use process::{run_command, run_daemon};
pub use sending::{copy_answers, send_frames};
pub use sockets::{Incoming, Outgoing, Pieces, Sockets};
pub use standard_input::StandardInput;
