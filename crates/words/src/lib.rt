//! The reader of text files that say what a test does: lines of words, and bytes and numbers as words write them.
//!
//! `scenarios` reads its scripts with it, and `vectors` its cases. There is also a writer that fills up, for tests of
//! an output that fails.
#![tactic(auto)]

mod bytes;
mod fault;
mod lines;
mod room;

pub use bytes::{number, read_bytes, read_word, show_bytes};
pub use fault::WordsFault;
pub use lines::{Line, read_lines};
pub use room::Room;
