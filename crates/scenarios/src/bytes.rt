//! Bytes as a script writes them.

ghost use Rattle.std.specs.Prelude.{◌<◌};

use crate::trouble::Trouble;
use ecma::Timestamp;
use icb::{FileEntry, Kind, Place, encode_fe};
use words::{number, read_word};

/// Appends the bytes of each of the words.
pub fn read_bytes(words: &[&str], into: &mut Vec<u8>) -> Result<(), Trouble> {
    for word in words {
        read_one(word, into)?;
    }
    Ok(())
}

/// Appends the bytes of a word. Besides the words that every script may have, there are `entry:` with the entry's fields,
/// `imitation:5` for a VAT ICB at block number 5, and `imitations:3` for those at 5, 7 and 9.
pub fn read_one(word: &str, into: &mut Vec<u8>) -> Result<(), Trouble> {
    match word.split_once(":") {
        Some(("entry", fields)) => read_entry(fields, into),
        Some(("imitations", blocks)) => put_imitations(number(blocks)?, into),
        Some(("imitation", block)) => put_imitation(number(block)?, into),
        _ => Ok(read_word(word, into)?),
    }
}

/// Appends `blocks` VAT ICBs, at most 512, at block numbers 5, 7 and so on.
fn put_imitations(blocks: u32, into: &mut Vec<u8>) -> Result<(), Trouble> {
    for index in 0..blocks.min(512) {
        put_imitation(2 * index + 5, into)?;
    }
    Ok(())
}

/// Appends a VAT ICB at a block number.
fn put_imitation(block: u32, into: &mut Vec<u8>) -> Result<(), Trouble> {
    put_entry(Kind::Vat, [0, 0, 204, 0, block], into)
}

/// Appends `KIND,LINKS,UNIQUE,SIZE,FIRST,AT`: a file entry with the moment 0, whose bytes begin at block number FIRST,
/// for the block number or virtual address AT. KIND is `file`, `directory` or `table`.
fn read_entry(fields: &str, into: &mut Vec<u8>) -> Result<(), Trouble> {
    let mut rest = fields.split(',');
    let kind = match rest.next() {
        Some("file") => Kind::File,
        Some("directory") => Kind::Directory,
        Some("table") => Kind::Vat,
        _ => return Err(Trouble::Line("no kind of entry")),
    };
    let mut numbers = [0u32; 5];
    for (place, field) in numbers.iter_mut().zip(rest) {
        *place = number(field)?;
    }
    put_entry(kind, numbers, into)
}

/// Appends a file entry: its links, unique ID and size, the first block of its data, and its place.
fn put_entry(kind: Kind, numbers: [u32; 5], into: &mut Vec<u8>) -> Result<(), Trouble> {
    let [links, unique, size, first, at] = numbers;
    if size > 4_096 || first > 1_000 {
        return Err(Trouble::Line("no such entry"));
    }
    let place = match (kind, size) {
        (Kind::File, 0) => Place::None,
        (_, 1..) => Place::Extent(first),
        _ => return Err(Trouble::Line("no such entry")),
    };
    let (links, unique) = match kind {
        Kind::Vat => (0, 0),
        _ => ((links % 2) as u16, u64::from(unique)),
    };
    let Some(moment) = Timestamp::of(0) else {
        return Err(Trouble::Line("no moment"));
    };
    let entry = FileEntry {
        kind,
        moment,
        links,
        unique,
        size,
        place,
    };
    into.extend_from_slice(&encode_fe(&entry, at))?;
    Ok(())
}
