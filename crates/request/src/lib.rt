//! Requests, queries and answers, and the frames that carry them (docs/PROTOCOL.md).
//!
//! A stream of bytes has one list of messages, however it is cut into pieces. Each frame gives one message: the request
//! or the query that its payload encodes, or the payload's first fault from left to right. Each request and each query
//! has one payload, and is read from it. Each answer has one frame, and no answer's bytes begin another's. The type of
//! a request ensures its ranges, and the type of a path the rules of its names.
//!
//! The bytes that a request gives a file are not copied: a message borrows from the frame that the reader holds.
//!
//! If there is no memory, a frame gives `NoMemory`; bytes that are fed are refused, and the reader stays as it was; a
//! stream is not read; and an answer is written whole or not at all.
//!
//! Left to others: what a request does to a tree, which answer it gets, and when a stream is read or written.
#![tactic(auto)]

mod answer;
mod encode;
mod frames;
mod laws;
mod message;
mod path;
mod payload;

pub use answer::{Answer, Code, Listed, Listing, NodeKind, NodeStatus, Reply};
pub use encode::encode_answer;
pub use frames::{FeedFault, Frames, PAYLOAD_BYTES, read_some};
pub use laws::{feeding_goes_on, no_answer_begins_another, one_reading, taking_goes_on};
pub use message::{
    AppendSlice, ByteCount, Cause, FileData, FileSlice, Message, Op, Query, Request,
};
pub use path::{Path, PathFault};
pub use payload::read_payload;
