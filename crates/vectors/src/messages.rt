//! Payloads of requests and queries, streams of frames, and paths.

use crate::texts::show_text;
use crate::trouble::Trouble;
use request::{Frames, Message, Op, Path, Query, Request, read_payload};
use std::alloc::Global;
use std::fmt::Write;
use std::str;
use words::show_bytes;

/// Streams of at most this length are also cut into pieces of every size.
const SHORT: usize = 128;

/// What the payload of a frame says.
pub fn payload(alloc: Global, bytes: &[u8]) -> Result<String, Trouble> {
    let mut text = String::new(alloc);
    tell(&read_payload(alloc, bytes), &mut text)?;
    Ok(text)
}

fn tell(message: &Message<'_>, out: &mut String) -> Result<(), Trouble> {
    match message {
        Message::Request(request) => tell_request(request, out),
        Message::Query(Query::Get(path)) => tell_path("get path", path, out),
        Message::Query(Query::List(path)) => tell_path("list path", path, out),
        Message::Query(Query::Stat(path)) => tell_path("stat path", path, out),
        Message::Query(
            Query::Read {
                path,
                offset,
                count,
            },
        ) => {
            write!(out, "read offset {offset} count {} ", count.bytes())?;
            tell_path("path", path, out)
        }
        Message::Malformed(cause) => Ok(write!(out, "malformed {}", cause.number())?),
        Message::NoMemory => Err(Trouble::Memory),
    }
}

fn tell_request(request: &Request<'_>, out: &mut String) -> Result<(), Trouble> {
    let kind = kind_of(&request.op);
    write!(
        out,
        "{kind} client {} number {} moment {} ",
        request.client, request.number, request.moment
    )?;
    tell_op(&request.op, out)
}

fn kind_of(op: &Op<'_>) -> &'static str {
    match op {
        Op::Create { .. } => "create",
        Op::Replace { .. } => "replace",
        Op::Append { .. } => "append",
        Op::MakeDir { .. } => "make",
        Op::Rename { .. } => "rename",
        Op::Remove { .. } => "remove",
    }
}

fn tell_op(op: &Op<'_>, out: &mut String) -> Result<(), Trouble> {
    match op {
        Op::Create { path, bytes } | Op::Replace { path, bytes } => {
            tell_path("path", path, out)?;
            out.push_str(" data ")?;
            show_bytes(bytes.as_slice(), out)?;
            Ok(())
        }
        Op::Append {
            path,
            offset,
            bytes,
        } => {
            write!(out, "offset {offset} ")?;
            tell_path("path", path, out)?;
            out.push_str(" data ")?;
            show_bytes(bytes.as_file_slice().as_slice(), out)?;
            Ok(())
        }
        Op::MakeDir { path } | Op::Remove { path } => tell_path("path", path, out),
        Op::Rename { from, to } => {
            tell_path("from", from, out)?;
            tell_path(" to", to, out)
        }
    }
}

/// The names of a path. The root has none.
fn tell_path(word: &str, path: &Path, out: &mut String) -> Result<(), Trouble> {
    out.push_str(word)?;
    for name in path.names() {
        out.push(' ')?;
        show_text(name.as_str(), out)?;
    }
    Ok(())
}

/// The messages of a stream, however it is cut: whole, byte by byte, and if it is short, in pieces of every size.
pub fn frames(alloc: Global, bytes: &[u8]) -> Result<String, Trouble> {
    let whole = fed(alloc, bytes, bytes.len())?;
    if fed(alloc, bytes, 1)? != whole {
        return Ok(String::from_str(alloc, "otherwise byte by byte")?);
    }
    if bytes.len() <= SHORT {
        for cut in 1..bytes.len() {
            if fed(alloc, bytes, cut)? != whole {
                return Ok(format!(in alloc; "otherwise cut at {cut}")?);
            }
        }
    }
    Ok(whole)
}

/// The messages of a stream in pieces of `size` bytes.
fn fed(alloc: Global, bytes: &[u8], size: usize) -> Result<String, Trouble> {
    let mut text = String::new(alloc);
    let mut frames = Frames::new(alloc);
    for piece in bytes.chunks(size.max(1)) {
        frames.feed(piece)?;
        tell_frames(&mut frames, &mut text)?;
    }
    if frames.is_over() {
        text.push_str(" ; over")?;
    }
    Ok(text)
}

/// Appends the messages that are complete.
fn tell_frames(frames: &mut Frames, out: &mut String) -> Result<(), Trouble> {
    for _ in 0..u32::MAX {
        let Some(message) = frames.first() else {
            break;
        };
        tell_next(&message, out)?;
        drop(message);
        frames.skip();
    }
    Ok(())
}

/// Appends a message after the others.
fn tell_next(message: &Message<'_>, out: &mut String) -> Result<(), Trouble> {
    if !out.is_empty() {
        out.push_str(" ; ")?;
    }
    tell(message, out)
}

/// The names of the path that is read from a text.
pub fn path(alloc: Global, bytes: &[u8]) -> Result<String, Trouble> {
    let Ok(text) = str::from_utf8(bytes) else {
        return Err(Trouble::Line("no text"));
    };
    let mut out = String::new(alloc);
    match Path::parse(alloc, text) {
        Ok(path) => tell_path("path", &path, &mut out)?,
        Err(fault) => write!(out, "fault {}", fault.number())?,
    }
    Ok(out)
}
