//! The answers: each message of a stream is answered in turn, and what is acknowledged is on the medium.
//!
//! An engine keeps a store while it can, and opens the medium again after a failed write. It keeps no drive: each call
//! borrows it. Frames and their payloads are the layer below, sockets and words the one above.
#![tactic(auto)]

mod engine;
mod held;
mod laws;
mod reading;
mod runs;
mod serving;
mod streams;

pub use engine::Engine;
pub use held::answer_held;
pub use laws::{calls_are_steps, losses_are_survived, runs_hold, steps_hold, writes_are_in_turn};
pub use reading::CountedReader;
pub use runs::{Delivery, run};
pub use serving::{PIECE_BYTES, ServeFault, read_on, serve};
pub use streams::{put_all, read_piece};
