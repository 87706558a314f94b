//! The questions that are asked of bytes.

use crate::trouble::Trouble;
use crate::{answers, directories, entries, fronts, messages, structures, tables, texts, volumes};
use ecma::Block;
use std::alloc::Global;
use words::{number, show_bytes};

/// The trouble with words that are no question.
pub const NO_QUESTION: Trouble = Trouble::Line("no such question");

/// The bytes of a case, and what else there is to a drive if they are those of a medium.
#[derive(Drop)]
pub struct Medium {
    pub bytes: Vec<u8>,
    /// How many blocks the drive has room for.
    pub capacity: u32,
    /// The bytes that are changed in turn, from the first place to before the second.
    pub flips: Option<(usize, usize)>,
}

impl Medium {
    /// A medium without bytes, on a drive of the greatest capacity.
    pub fn new(alloc: Global) -> Medium {
        Medium {
            bytes: Vec::new(alloc),
            capacity: 450_000,
            flips: None,
        }
    }
}

/// The answer to a question. Only those questions that go from an answer to bytes use the expected one.
pub fn answer(
    alloc: Global,
    medium: &Medium,
    question: &str,
    wanted: &str,
) -> Result<String, Trouble> {
    let words: Vec<&str> = question.split_whitespace().collect(alloc)?;
    match words.as_slice() {
        [] => Err(NO_QUESTION),
        [name] => of_bytes(alloc, medium, name, wanted),
        [name, rest @ ..] => with_words(alloc, medium, name, rest),
    }
}

/// The answer to a question of one word.
fn of_bytes(alloc: Global, medium: &Medium, name: &str, wanted: &str) -> Result<String, Trouble> {
    let bytes = medium.bytes.as_slice();
    match name {
        "last" => volumes::last_table(alloc, medium),
        "answer" => answers::frame(alloc, bytes, wanted),
        "fields" => structures::fields(alloc, bytes, wanted),
        "crc" => structures::check(alloc, bytes),
        "timestamp" => structures::timestamp(alloc, bytes),
        "spelling" => texts::spelling(alloc, bytes),
        "dstring" => texts::dstring(alloc, bytes),
        "name" => texts::name(alloc, bytes),
        "label" => texts::label(alloc, bytes),
        "set-identifier" => texts::set_identifier(alloc, bytes),
        "file-set" => entries::file_set(alloc, bytes),
        "front" => fronts::front(alloc, bytes),
        "payload" => messages::payload(alloc, bytes),
        "frames" => messages::frames(alloc, bytes),
        "path" => messages::path(alloc, bytes),
        _ => Err(NO_QUESTION),
    }
}

/// The answer to a question with further words.
fn with_words(
    alloc: Global,
    medium: &Medium,
    name: &str,
    words: &[&str],
) -> Result<String, Trouble> {
    match name {
        "states" => volumes::states(alloc, medium, words),
        "moment" => structures::moment(alloc, words),
        "tag" => structures::tag(alloc, &medium.bytes, words),
        "descriptors" => entries::descriptors(alloc, &medium.bytes, words),
        "directory" => directories::directory(alloc, &medium.bytes, words),
        "numbered" => directories::numbered(alloc, words),
        "spelling" | "name" | "label" | "dstring" => texts::written(alloc, name, words),
        _ => at_block(alloc, medium, name, words),
    }
}

/// The answer to a question about what is at a block.
fn at_block(alloc: Global, medium: &Medium, name: &str, words: &[&str]) -> Result<String, Trouble> {
    let [block] = words else {
        return Err(NO_QUESTION);
    };
    let block = number(block)?;
    let bytes = medium.bytes.as_slice();
    match name {
        "before" => volumes::table_before(alloc, medium, block),
        "state" => volumes::state(alloc, medium, block),
        "entry" => entries::entry(alloc, bytes, block),
        "table" => tables::table(alloc, bytes, block),
        "is-table-entry" => tables::is_entry(alloc, bytes, block),
        "clear-start" => tables::start(alloc, bytes, block),
        _ => Err(NO_QUESTION),
    }
}

/// The block that begins with the first 2,048 of these bytes, with zeros after them.
pub fn block_of(bytes: &[u8]) -> Block {
    let size = bytes.len().min(2048);
    let mut block = [0; 2048];
    block[..size].copy_from_slice(&bytes[..size]);
    block
}

/// The blocks that hold these bytes, with zeros after them.
pub fn blocks_of(alloc: Global, bytes: &[u8]) -> Result<Vec<Block>, Trouble> {
    let mut blocks = Vec::new(alloc);
    for piece in bytes.chunks(2048) {
        blocks.push(block_of(piece))?;
    }
    Ok(blocks)
}

/// An answer of some words.
pub fn words_of(alloc: Global, text: &str) -> Result<String, Trouble> {
    Ok(String::from_str(alloc, text)?)
}

/// The answer for a fault of this number.
pub fn fault(alloc: Global, number: u8) -> Result<String, Trouble> {
    Ok(format!(in alloc; "fault {number}")?)
}

/// The answer for bytes.
pub fn shown(alloc: Global, bytes: &[u8]) -> Result<String, Trouble> {
    let mut out = String::new(alloc);
    show_bytes(bytes, &mut out)?;
    Ok(out)
}
