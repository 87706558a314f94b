//! Requests and queries by their words, as payloads and as the plain program has them.

use crate::bytes::read_bytes;
use crate::trouble::Trouble;
use model::plain::{Operation, Request};
use request::{Message, Op, Path, read_payload};
use std::alloc::Global;
use words::number;

/// The trouble with the words of a request.
const NO_REQUEST: Trouble = Trouble::Line("no request");

/// What a request does.
#[derive(Clone, Copy, PartialEq, Eq)]
pub enum Action {
    Create = 1,
    Replace = 2,
    Make = 3,
    Rename = 4,
    Remove = 5,
    Append = 6,
}

/// A request.
#[derive(Drop)]
pub struct Change {
    pub action: Action,
    pub client: u64,
    pub number: u64,
    pub moment: u64,
    pub path: Vec<String>,
    /// The new path, for a rename only.
    pub to: Vec<String>,
    /// How many bytes the file has before, for an append only.
    pub offset: u64,
    /// The bytes, for a create, a replace or an append only.
    pub bytes: Vec<u8>,
}

impl Change {
    /// The payload of its frame.
    pub fn payload(&self, alloc: Global) -> Result<Vec<u8>, Trouble> {
        let mut payload = Vec::new(alloc);
        put_head(
            self.action,
            [self.client, self.number, self.moment],
            &mut payload,
        )?;
        put_path(&self.path, &mut payload)?;
        match self.action {
            Action::Create | Action::Replace => put_bytes(&self.bytes, &mut payload)?,
            Action::Append => {
                payload.extend_from_slice(&self.offset.to_le_bytes())?;
                put_bytes(&self.bytes, &mut payload)?;
            }
            Action::Rename => put_path(&self.to, &mut payload)?,
            Action::Make | Action::Remove => {}
        }
        Ok(payload)
    }

    /// The request of the plain program.
    pub fn plain(self) -> Request {
        let Change {
            action,
            client,
            number,
            moment,
            path,
            to,
            offset,
            bytes,
        } = self;
        let operation = match action {
            Action::Create => Operation::Create { path, bytes },
            Action::Replace => Operation::Replace { path, bytes },
            Action::Append => Operation::Append {
                path,
                offset,
                bytes,
            },
            Action::Make => Operation::MakeDir { path },
            Action::Rename => Operation::Rename { from: path, to },
            Action::Remove => Operation::Remove { path },
        };
        Request {
            client,
            number,
            moment,
            operation,
        }
    }
}

/// The request of a payload, as the plain program has it.
pub fn plain_request(alloc: Global, payload: &[u8]) -> Result<Request, Trouble> {
    let Message::Request(request) = read_payload(alloc, payload) else {
        return Err(NO_REQUEST);
    };
    Ok(Request {
        client: request.client,
        number: request.number,
        moment: request.moment,
        operation: plain_operation(alloc, &request.op)?,
    })
}

fn plain_operation(alloc: Global, op: &Op<'_>) -> Result<Operation, Trouble> {
    let path = match op {
        Op::Create { path, .. } | Op::Replace { path, .. } | Op::Append { path, .. } => path,
        Op::Rename { from, .. } => from,
        Op::MakeDir { path } | Op::Remove { path } => path,
    };
    let path = names_of(alloc, path)?;
    Ok(match op {
        Op::Create { bytes, .. } => Operation::Create {
            path,
            bytes: bytes.as_slice().to_vec(alloc)?,
        },
        Op::Replace { bytes, .. } => Operation::Replace {
            path,
            bytes: bytes.as_slice().to_vec(alloc)?,
        },
        Op::Append { offset, bytes, .. } => Operation::Append {
            path,
            offset: *offset,
            bytes: bytes.as_file_slice().as_slice().to_vec(alloc)?,
        },
        Op::MakeDir { .. } => Operation::MakeDir { path },
        Op::Rename { to, .. } => Operation::Rename {
            from: path,
            to: names_of(alloc, to)?,
        },
        Op::Remove { .. } => Operation::Remove { path },
    })
}

fn names_of(alloc: Global, path: &Path) -> Result<Vec<String>, Trouble> {
    let mut names = Vec::new(alloc);
    for name in path.names() {
        names.push(String::from_str(alloc, name.as_str())?)?;
    }
    Ok(names)
}

/// Appends what a request does, and its client, number and moment.
fn put_head(action: Action, numbers: [u64; 3], payload: &mut Vec<u8>) -> Result<(), Trouble> {
    payload.push(action as u8)?;
    for number in &numbers {
        payload.extend_from_slice(&number.to_le_bytes())?;
    }
    Ok(())
}

/// Appends a file's bytes as a payload has them.
fn put_bytes(bytes: &[u8], payload: &mut Vec<u8>) -> Result<(), Trouble> {
    let length = (bytes.len() % 0x1_0000_0000) as u32;
    payload.extend_from_slice(&length.to_le_bytes())?;
    payload.extend_from_slice(bytes)?;
    Ok(())
}

/// Appends a path as a payload has it.
fn put_path(path: &[String], payload: &mut Vec<u8>) -> Result<(), Trouble> {
    payload.push((path.len() % 256) as u8)?;
    for name in path {
        put_name(name, payload)?;
    }
    Ok(())
}

fn put_name(name: &str, payload: &mut Vec<u8>) -> Result<(), Trouble> {
    payload.extend_from_slice(&((name.len() % 65_536) as u16).to_le_bytes())?;
    payload.extend_from_slice(name.as_bytes())?;
    Ok(())
}

/// What a message is.
#[derive(Clone, Copy)]
enum Sort {
    Request(Action),
    Query(Asked),
    Read,
    /// One that is written out.
    Payload,
}

/// The messages by their names.
const MESSAGES: [(&str, Sort); 11] = [
    ("create", Sort::Request(Action::Create)),
    ("replace", Sort::Request(Action::Replace)),
    ("make", Sort::Request(Action::Make)),
    ("rename", Sort::Request(Action::Rename)),
    ("remove", Sort::Request(Action::Remove)),
    ("append", Sort::Request(Action::Append)),
    ("get", Sort::Query(Asked::Data)),
    ("list", Sort::Query(Asked::Names)),
    ("stat", Sort::Query(Asked::Node)),
    ("read", Sort::Read),
    ("payload", Sort::Payload),
];

fn sort_of(name: &str) -> Option<Sort> {
    for (known, sort) in &MESSAGES {
        if *known == name {
            return Some(*sort);
        }
    }
    None
}

/// Appends the payload of a message, if the words are one. Returns whether they are.
pub fn read_message(name: &str, words: &[&str], payload: &mut Vec<u8>) -> Result<bool, Trouble> {
    let read = match sort_of(name) {
        Some(Sort::Request(action)) => read_request(action, words, payload),
        Some(Sort::Query(asked)) => read_query(asked, words, payload),
        Some(Sort::Read) => read_read(words, payload),
        Some(Sort::Payload) => read_bytes(words, payload),
        None => return Ok(false),
    };
    read?;
    Ok(true)
}

/// `CLIENT[@MOMENT] NUMBER PATH`, and after them `PATH`, the bytes, or the offset and the bytes.
fn read_request(action: Action, words: &[&str], payload: &mut Vec<u8>) -> Result<(), Trouble> {
    let [client, order, path, rest @ ..] = words else {
        return Err(NO_REQUEST);
    };
    let (client, moment) = client.split_once("@").unwrap_or((client, "0"));
    let client = number(client)?;
    let moment = number(moment)?;
    let order = number(order)?;
    put_head(action, [client, order, moment], payload)?;
    read_path(path, payload)?;
    read_rest(action, rest, payload)
}

/// The new path of a rename, the bytes of a create and a replace, or the offset and the bytes of an append.
fn read_rest(action: Action, words: &[&str], payload: &mut Vec<u8>) -> Result<(), Trouble> {
    match action {
        Action::Create | Action::Replace => read_data(words, payload),
        Action::Append => match words {
            [offset, bytes @ ..] => {
                payload.extend_from_slice(&number::<u64>(offset)?.to_le_bytes())?;
                read_data(bytes, payload)
            }
            [] => Err(NO_REQUEST),
        },
        Action::Rename => match words {
            [path] => read_path(path, payload),
            _ => Err(NO_REQUEST),
        },
        Action::Make | Action::Remove if words.is_empty() => Ok(()),
        _ => Err(NO_REQUEST),
    }
}

/// A file's bytes.
fn read_data(words: &[&str], payload: &mut Vec<u8>) -> Result<(), Trouble> {
    let mut bytes = Vec::new(*payload.allocator());
    read_bytes(words, &mut bytes)?;
    put_bytes(&bytes, payload)
}

fn read_query(asked: Asked, words: &[&str], payload: &mut Vec<u8>) -> Result<(), Trouble> {
    let [path] = words else {
        return Err(Trouble::Line("no query"));
    };
    payload.push(asked as u8)?;
    read_path(path, payload)
}

/// `PATH OFFSET COUNT`.
fn read_read(words: &[&str], payload: &mut Vec<u8>) -> Result<(), Trouble> {
    let [path, offset, count] = words else {
        return Err(Trouble::Line("no query"));
    };
    payload.push(READ)?;
    read_path(path, payload)?;
    put_span(number(offset)?, number(count)?, payload)
}

/// Appends the offset and the count of a read.
fn put_span(offset: u64, count: u32, payload: &mut Vec<u8>) -> Result<(), Trouble> {
    payload.extend_from_slice(&offset.to_le_bytes())?;
    payload.extend_from_slice(&count.to_le_bytes())?;
    Ok(())
}

/// The count of the names of a path after the root's `/`, and the names. `n*16` is sixteen names `n`.
fn read_path(word: &str, payload: &mut Vec<u8>) -> Result<(), Trouble> {
    let names = word.strip_prefix("/").ok_or(Trouble::Line("no path"))?;
    let start = payload.len();
    payload.push(0)?;
    let mut count = 0u8;
    if !names.is_empty() {
        for part in names.split('/') {
            count = count.wrapping_add(read_names(part, payload)?);
        }
    }
    if let Some(first) = payload.get_mut(start) {
        *first = count;
    }
    Ok(())
}

/// A name, or the same one several times, and how many there are.
fn read_names(part: &str, payload: &mut Vec<u8>) -> Result<u8, Trouble> {
    let (name, times) = part.split_once("*").unwrap_or((part, "1"));
    let mut count = 0u8;
    for _ in 0..number::<i32>(times)? {
        put_name(name, payload)?;
        count = count.wrapping_add(1);
    }
    Ok(count)
}

/// What a query asks for.
#[derive(Clone, Copy)]
pub enum Asked {
    Data = 16,
    Names = 17,
    Node = 18,
}

/// The kind of the query for a piece of a file.
const READ: u8 = 19;

/// The payload of a query for a piece of a file.
pub fn piece_query(
    alloc: Global,
    path: &[String],
    offset: u64,
    count: u32,
) -> Result<Vec<u8>, Trouble> {
    let mut payload = Vec::new(alloc);
    payload.push(READ)?;
    put_path(path, &mut payload)?;
    put_span(offset, count, &mut payload)?;
    Ok(payload)
}

/// The payload of a query.
pub fn query(alloc: Global, asked: Asked, path: &[String]) -> Result<Vec<u8>, Trouble> {
    let mut payload = Vec::new(alloc);
    payload.push(asked as u8)?;
    put_path(path, &mut payload)?;
    Ok(payload)
}
