//! Answers and their frames.

use crate::compare::{shown, words_of};
use crate::texts::text_of;
use crate::trouble::Trouble;
use limits::FILE_BYTES;
use osta::Name;
use request::{
    Answer, Cause, Code, FileData, Listed, Listing, NodeKind, NodeStatus, Reply, encode_answer,
};
use std::alloc::Global;
use words::{number, read_bytes};

/// The trouble with words that are no answer.
const NO_ANSWER: Trouble = Trouble::Line("no such answer");

/// Compares the bytes with the frame of the answer in the words. Returns these words if they are equal, and otherwise
/// the bytes of that frame.
pub fn frame(alloc: Global, bytes: &[u8], said: &str) -> Result<String, Trouble> {
    let words: Vec<&str> = said.split_whitespace().collect(alloc)?;
    let out = encoded(alloc, &words)?;
    if out.first() == Some(&9) && out.get(1..) == Some(bytes) {
        return words_of(alloc, said);
    }
    shown(alloc, out.get(1..).unwrap_or(&[]))
}

/// The frame of an answer, appended to a byte that must stay.
fn encoded(alloc: Global, words: &[&str]) -> Result<Vec<u8>, Trouble> {
    let answer = read_answer(alloc, words)?;
    let mut out = vec![in alloc; 9u8]?;
    encode_answer(&answer, &mut out)?;
    Ok(out)
}

fn read_answer(alloc: Global, words: &[&str]) -> Result<Answer, Trouble> {
    let [name, rest @ ..] = words else {
        return Err(NO_ANSWER);
    };
    match *name {
        "data" => Ok(Answer::Data(data(alloc, rest)?)),
        "names" => Ok(Answer::Names(names(alloc, rest)?)),
        "code" => reply(rest),
        "node" => node(rest),
        _ => short_answer(name, rest),
    }
}

/// An answer with one number or none.
fn short_answer(name: &str, words: &[&str]) -> Result<Answer, Trouble> {
    match words {
        [] => bare_answer(name),
        [word] => numbered(name, word),
        _ => Err(NO_ANSWER),
    }
}

fn bare_answer(name: &str) -> Result<Answer, Trouble> {
    match name {
        "clients-full" => Ok(Answer::ClientsFull),
        "full" => Ok(Answer::Full),
        "failed" => Ok(Answer::Fault),
        "memory" => Ok(Answer::Memory),
        "damaged" => Ok(Answer::Damaged),
        "not-found" => Ok(Answer::NotFound),
        "is-directory" => Ok(Answer::IsDirectory),
        "not-directory" => Ok(Answer::NotDirectory),
        "too-long" => Ok(Answer::TooLong),
        _ => Err(NO_ANSWER),
    }
}

fn numbered(name: &str, word: &str) -> Result<Answer, Trouble> {
    match name {
        "stale" => Ok(Answer::Stale(number(word)?)),
        "gap" => Ok(Answer::Gap(number(word)?)),
        "malformed" => Ok(Answer::Malformed(cause_of(word)?)),
        _ => Err(NO_ANSWER),
    }
}

fn reply(words: &[&str]) -> Result<Answer, Trouble> {
    let [code, "commit", commit] = words else {
        return Err(NO_ANSWER);
    };
    Ok(Answer::Reply(Reply {
        code: Code::of(number(code)?).ok_or(Trouble::Line("no such code"))?,
        commit: number(commit)?,
    }))
}

fn node(words: &[&str]) -> Result<Answer, Trouble> {
    let [kind, "moment", moment, "size", size] = words else {
        return Err(NO_ANSWER);
    };
    Ok(Answer::Node(NodeStatus {
        kind: kind_of(kind)?,
        moment: number(moment)?,
        size: number(size)?,
    }))
}

fn cause_of(word: &str) -> Result<Cause, Trouble> {
    for cause in [
        Cause::TooLong,
        Cause::Kind,
        Cause::Short,
        Cause::Extra,
        Cause::Path,
        Cause::Moment,
        Cause::ClientZero,
        Cause::NumberZero,
    ] {
        if cause.number() == number(word)? {
            return Ok(cause);
        }
    }
    Err(Trouble::Line("no such cause"))
}

fn kind_of(word: &str) -> Result<NodeKind, Trouble> {
    match word {
        "file" => Ok(NodeKind::File),
        "directory" => Ok(NodeKind::Directory),
        _ => Err(Trouble::Line("no such kind")),
    }
}

fn data(alloc: Global, words: &[&str]) -> Result<FileData, Trouble> {
    let mut bytes = Vec::new(alloc);
    read_bytes(words, &mut bytes)?;
    if bytes.len() > FILE_BYTES {
        return Err(Trouble::Line("no file is so long"));
    }
    Ok(FileData::new(bytes))
}

/// Names, each a kind and a text.
fn names(alloc: Global, words: &[&str]) -> Result<Listing, Trouble> {
    let mut listing = Listing::new(alloc);
    for pair in words.chunks(2) {
        let listed = listed(alloc, pair)?;
        if listing.names().len() >= 512 {
            return Err(Trouble::Line("too many names"));
        }
        listing.push(listed)?;
    }
    Ok(listing)
}

fn listed(alloc: Global, pair: &[&str]) -> Result<Listed, Trouble> {
    let [kind, word] = pair else {
        return Err(Trouble::Line("a kind without a name"));
    };
    let kind = kind_of(kind)?;
    let name = name_of(alloc, word)?;
    Ok(Listed { kind, name })
}

fn name_of(alloc: Global, word: &str) -> Result<Name, Trouble> {
    let text = text_of(alloc, &[word])?;
    match Name::read(alloc, &text) {
        Ok(name) => Ok(name),
        Err(_) => Err(Trouble::Line("no such name")),
    }
}
