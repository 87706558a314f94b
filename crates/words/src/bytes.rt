//! Bytes and numbers as words write them.

use crate::fault::WordsFault;
use std::fmt::Write;
use std::str::FromStr;

/// The fewest equal bytes that are shown as a run.
const RUN: usize = 8;

/// Reads a number of some type.
pub fn number<T: FromStr>(word: &str) -> Result<T, WordsFault>
where
    T::Err: Drop,
{
    match word.parse::<T>() {
        Ok(value) => Ok(value),
        Err(_) => Err(WordsFault::Unknown("no such number")),
    }
}

/// Appends the bytes of each of the words.
pub fn read_bytes(words: &[&str], into: &mut Vec<u8>) -> Result<(), WordsFault> {
    for word in words {
        read_word(word, into)?;
    }
    Ok(())
}

/// Appends the bytes of a word: `"text"`; two hexadecimal digits for each byte, as `0B1F`; `2A*7` for seven times the
/// same bytes; `u16:7`, `u32:7` or `u64:7`, the lowest byte first.
pub fn read_word(word: &str, into: &mut Vec<u8>) -> Result<(), WordsFault> {
    if let Some(text) = word
        .strip_prefix("\"")
        .and_then(|rest| rest.strip_suffix("\""))
    {
        into.extend_from_slice(text.as_bytes())?;
    } else if let Some((kind, digits)) = word.split_once(":") {
        let value = number::<u64>(digits)?;
        let size = match kind {
            "u16" => 2,
            "u32" => 4,
            "u64" => 8,
            _ => return Err(WordsFault::Unknown("no such bytes")),
        };
        for byte in value.to_le_bytes().iter().take(size) {
            into.push(*byte)?;
        }
    } else if let Some((digits, times)) = word.split_once("*") {
        repeat(digits, number(times)?, into)?;
    } else {
        read_digits(word, into)?;
    }
    Ok(())
}

/// Appends the same bytes `times` times.
fn repeat(digits: &str, times: usize, into: &mut Vec<u8>) -> Result<(), WordsFault> {
    let mut once = Vec::new(*into.allocator());
    read_digits(digits, &mut once)?;
    if let [byte] = once.as_slice() {
        let size = into.len().saturating_add(times);
        into.resize(size, *byte)?;
        return Ok(());
    }
    for _ in 0..times {
        into.extend_from_slice(&once)?;
    }
    Ok(())
}

/// Appends bytes from two hexadecimal digits each.
fn read_digits(digits: &str, into: &mut Vec<u8>) -> Result<(), WordsFault> {
    let mut high: Option<u8> = None;
    for letter in digits.chars() {
        let digit = letter.to_digit(16).ok_or(WordsFault::Unknown("no digit"))? % 16;
        match high {
            None => high = Some((digit * 16) as u8),
            Some(first) => {
                into.push(first | digit as u8)?;
                high = None;
            }
        }
    }
    if high.is_some() {
        return Err(WordsFault::Unknown("half a byte"));
    }
    Ok(())
}

/// Shows bytes, each list of them in one way only: as a text if all are visible characters of ASCII other than `"`, and
/// otherwise by their digits, with runs of eight or more equal bytes shown as such.
pub fn show_bytes(bytes: &[u8], out: &mut String) -> Result<(), WordsFault> {
    if !bytes.is_empty()
        && bytes
            .iter()
            .all(|byte| byte.is_ascii_graphic() && *byte != b'"')
    {
        out.push('"')?;
        for byte in bytes {
            out.push(char::from(*byte))?;
        }
        out.push('"')?;
        return Ok(());
    }
    let mut last = None;
    let mut run = 0usize;
    for byte in bytes {
        if last == Some(*byte) {
            run = run.saturating_add(1);
        } else {
            show_run(last, run, out)?;
            last = Some(*byte);
            run = 1;
        }
    }
    show_run(last, run, out)
}

/// Shows equal bytes.
fn show_run(byte: Option<u8>, run: usize, out: &mut String) -> Result<(), WordsFault> {
    let Some(byte) = byte else {
        return Ok(());
    };
    if run >= RUN {
        write!(out, " {byte:02X}*{run} ")?;
        return Ok(());
    }
    for _ in 0..run {
        write!(out, "{byte:02X}")?;
    }
    Ok(())
}
