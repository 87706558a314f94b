//! Answers as words, read from the bytes of their frames.

use crate::trouble::Trouble;
use std::fmt::Write;
use words::show_bytes;

/// The answers that are a word, and a number of so many bytes where that is not 0, by their codes.
const WORDS: [(u16, usize, &str); 12] = [
    (32, 8, "stale"),
    (33, 8, "gap"),
    (34, 0, "clients full"),
    (35, 0, "full"),
    (36, 0, "failed"),
    (37, 0, "no memory"),
    (38, 2, "malformed"),
    (39, 0, "damaged"),
    (96, 0, "not found"),
    (97, 0, "is directory"),
    (98, 0, "not directory"),
    (99, 0, "too long"),
];

/// Appends the answers in the bytes of a stream, separated by semicolons. What is left after the last complete one is
/// shown as bytes.
pub fn tell(stream: &[u8], out: &mut String) -> Result<(), Trouble> {
    let mut rest = stream;
    for turn in 0..stream.len() {
        if rest.is_empty() {
            break;
        }
        if turn > 0 {
            out.push_str("; ")?;
        }
        let Some((payload, later)) = first_frame(rest) else {
            break;
        };
        tell_payload(payload, out)?;
        rest = later;
    }
    tell_rest("bytes ", rest, out)
}

/// Appends the bytes that are left, if there are any, after this word.
fn tell_rest(word: &str, rest: &[u8], out: &mut String) -> Result<(), Trouble> {
    if !rest.is_empty() {
        out.push_str(word)?;
        show_bytes(rest, out)?;
    }
    Ok(())
}

/// The payload of the first frame, and what is after it.
fn first_frame(bytes: &[u8]) -> Option<(&[u8], &[u8])> {
    let (head, rest) = bytes.split_first_chunk::<4>()?;
    rest.split_at_checked(u32::from_le_bytes(*head) as usize)
}

/// A number of at most eight bytes, the lowest byte first.
fn little(bytes: &[u8]) -> u64 {
    let mut value = 0u64;
    for byte in bytes.iter().rev() {
        value = value.wrapping_mul(256) | u64::from(*byte);
    }
    value
}

/// The answer in a payload. A payload that is no answer is shown as bytes.
fn tell_payload(payload: &[u8], out: &mut String) -> Result<(), Trouble> {
    let (code, body) = match payload {
        [low, high, body @ ..] => (u16::from_le_bytes([*low, *high]), body),
        _ => (u16::MAX, payload),
    };
    if let Some(word) = word_of(code, body.len()) {
        return tell_word(word, body, out);
    }
    match code {
        0..=10 if body.len() == 4 => tell_reply(code, little(body), out),
        64 if body.len() >= 4 => tell_data(body, out),
        65 if body.len() >= 2 => tell_names(body, out),
        66 if body.len() == 17 => tell_node(body, out),
        _ => tell_other(payload, out),
    }
}

/// The word of an answer with a number of this many bytes.
fn word_of(code: u16, size: usize) -> Option<&'static str> {
    for (known, number, word) in &WORDS {
        if *known == code && *number == size {
            return Some(word);
        }
    }
    None
}

fn tell_word(word: &str, number: &[u8], out: &mut String) -> Result<(), Trouble> {
    out.push_str(word)?;
    if !number.is_empty() {
        write!(out, " {}", little(number))?;
    }
    Ok(())
}

fn tell_reply(code: u16, commit: u64, out: &mut String) -> Result<(), Trouble> {
    write!(out, "code {code} commit {commit}")?;
    Ok(())
}

/// The bytes of a payload that is no answer.
fn tell_other(payload: &[u8], out: &mut String) -> Result<(), Trouble> {
    out.push_str("no answer ")?;
    show_bytes(payload, out)?;
    Ok(())
}

/// A file's bytes.
fn tell_data(body: &[u8], out: &mut String) -> Result<(), Trouble> {
    let (length, bytes) = body.split_at(body.len().min(4));
    if little(length) != bytes.len() as u64 {
        out.push_str("of another length ")?;
    }
    show_bytes(bytes, out)?;
    Ok(())
}

/// The names in a directory, each after a letter for its kind.
fn tell_names(body: &[u8], out: &mut String) -> Result<(), Trouble> {
    let (count, names) = body.split_at(body.len().min(2));
    write!(out, "names {}", little(count))?;
    let mut rest = names;
    for _ in 0..little(count) {
        let Some(after) = tell_name(rest, out)? else {
            break;
        };
        rest = after;
    }
    tell_rest(" and bytes ", rest, out)
}

/// The first name, and what is after it.
fn tell_name<'b>(names: &'b [u8], out: &mut String) -> Result<Option<&'b [u8]>, Trouble> {
    let Some((head, later)) = names.split_first_chunk::<3>() else {
        return Ok(None);
    };
    let [kind, low, high] = *head;
    let length = usize::from(u16::from_le_bytes([low, high]));
    let (name, after) = later.split_at(later.len().min(length));
    out.push_str(if kind == 0 { " f " } else { " d " })?;
    for byte in name {
        out.push(char::from(*byte))?;
    }
    Ok(Some(after))
}

/// The kind of a node, its bytes or names, and its moment.
fn tell_node(body: &[u8], out: &mut String) -> Result<(), Trouble> {
    let (kind, rest) = body.split_at(body.len().min(1));
    let (moment, size) = rest.split_at(rest.len().min(8));
    node_text(little(kind) == 1, little(size), little(moment), out)
}

/// What is reported of a node.
pub fn node_text(
    is_directory: bool,
    size: u64,
    moment: u64,
    out: &mut String,
) -> Result<(), Trouble> {
    let kind = if is_directory { "directory" } else { "file" };
    write!(out, "{kind} {size} at {moment}")?;
    Ok(())
}
