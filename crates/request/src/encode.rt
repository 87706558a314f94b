//! Writing answers as frames.

ghost use Rattle.limits.specs.declared.TheConstants.{DIRECTORY_NAMES, FILE_BYTES};
ghost use Rattle.std.specs.Prelude.{◌≡◌, ◌≤◌, ◌<◌, ◌+◌, ◌*◌, ◌^◌, ◌++◌, length, OnOk, OnErr};
ghost use Rattle.std.specs.Int.{w16, w32, w64, to_le_bytes};
ghost use Rattle.std.specs.List.{flat_map};
ghost use Rattle.request.specs.Listing.{IsListing};
ghost use Rattle.request.specs.Spelling.{data_field};
ghost use Rattle.request.specs.Answers.{answer_code, answer_body, answer_frame, listed_field, status_field, names_field, IsAnswer};
ghost use Rattle.request.specs.Appending.{KeepsFront};

use crate::answer::{Answer, Listed, Listing, NodeKind, NodeStatus};
use byteorder::{ByteOrder, LittleEndian};
use osta::Name;
use std::alloc::AllocError;

/// Appends the answer's frame. If there is no memory, the vector stays as it was.
pub fn encode_answer(answer: &Answer, out: &mut Vec<u8>) -> Result<(), AllocError>
    ensures ok { OnOk result (out.new.items ≡ out.old.items ++ answer_frame answer.now) }
    ensures err { OnErr result (out.new.items ≡ out.old.items) }
    // By their types its numbers, lengths and names are in range.
    ensures in_range { OnOk result (IsAnswer answer.now) }
{
    let start = out.len();
    let written = put_frame(answer, out);
    if written.is_err() {
        out.truncate(start);
    }
    written
}

fn put_frame(answer: &Answer, out: &mut Vec<u8>) -> Result<(), AllocError>
    ensures ok { OnOk result (out.new.items ≡ out.old.items ++ answer_frame answer.now) }
    ensures err { OnErr result (KeepsFront out.old.items out.new.items) }
    ensures in_range { OnOk result (IsAnswer answer.now) }
{
    let length = 2 + body_len(answer);
    out.reserve(4 + length)?;
    put_u32(length as u32, out)?;
    put_u16(code_of(answer), out)?;
    put_body(answer, out)
}

/// The answer's code.
fn code_of(answer: &Answer) -> u16
    ensures { result ≡ answer_code answer.now }
{
    match answer {
        Answer::Reply(reply) => reply.code.number(),
        Answer::Stale(_) => 32,
        Answer::Gap(_) => 33,
        Answer::ClientsFull => 34,
        Answer::Full => 35,
        Answer::Fault => 36,
        Answer::Memory => 37,
        Answer::Malformed(_) => 38,
        Answer::Damaged => 39,
        Answer::Data(_) => 64,
        Answer::Names(_) => 65,
        Answer::Node(_) => 66,
        Answer::NotFound => 96,
        Answer::IsDirectory => 97,
        Answer::NotDirectory => 98,
        Answer::TooLong => 99,
    }
}

/// How many bytes follow the answer's code.
fn body_len(answer: &Answer) -> usize
    ensures length { result ≡ length (answer_body answer.now) }
    ensures few { result ≤ 1048580 }
{
    match answer {
        Answer::Reply(_) => 4,
        Answer::Stale(_) | Answer::Gap(_) => 8,
        Answer::Malformed(_) => 2,
        Answer::Data(data) => 4 + data.as_slice().len(),
        Answer::Names(listing) => 2 + names_len(listing),
        Answer::Node(_) => 17,
        _ => 0,
    }
}

fn names_len(listing: &Listing) -> usize
    ensures length { result ≡ length (flat_map listed_field listing.now) }
    ensures few { result ≤ DIRECTORY_NAMES * 1023 }
{
    let mut total = 0;
    for listed in listing.names() {
        total += 3 + name_bytes(&listed.name).len();
    }
    total
}

fn put_body(answer: &Answer, out: &mut Vec<u8>) -> Result<(), AllocError>
    ensures ok { OnOk result (out.new.items ≡ out.old.items ++ answer_body answer.now) }
    ensures err { OnErr result (KeepsFront out.old.items out.new.items) }
    ensures in_range { OnOk result (IsAnswer answer.now) }
{
    match answer {
        Answer::Reply(reply) => put_u32(reply.commit, out),
        Answer::Stale(latest) => put_u64(*latest, out),
        Answer::Gap(latest) => put_u64(*latest, out),
        Answer::Malformed(cause) => put_u16(cause.number(), out),
        Answer::Data(data) => put_data(data.as_slice(), out),
        Answer::Names(listing) => put_names(listing, out),
        Answer::Node(status) => put_status(status, out),
        _ => Ok(()),
    }
}

fn put_data(bytes: &[u8], out: &mut Vec<u8>) -> Result<(), AllocError>
    requires { length bytes.now ≤ FILE_BYTES }
    ensures ok { OnOk result (out.new.items ≡ out.old.items ++ data_field bytes.now) }
    ensures err { OnErr result (KeepsFront out.old.items out.new.items) }
{
    put_u32(bytes.len() as u32, out)?;
    out.extend_from_slice(bytes)
}

fn put_names(listing: &Listing, out: &mut Vec<u8>) -> Result<(), AllocError>
    ensures ok { OnOk result (out.new.items ≡ out.old.items ++ names_field listing.now) }
    ensures err { OnErr result (KeepsFront out.old.items out.new.items) }
    ensures in_range { OnOk result (IsListing listing.now) }
{
    let names = listing.names();
    put_u16(names.len() as u16, out)?;
    for listed in names {
        put_listed(listed, out)?;
    }
    Ok(())
}

fn put_listed(listed: &Listed, out: &mut Vec<u8>) -> Result<(), AllocError>
    ensures ok { OnOk result (out.new.items ≡ out.old.items ++ listed_field listed.now) }
    ensures err { OnErr result (KeepsFront out.old.items out.new.items) }
{
    let text = name_bytes(&listed.name);
    out.push(listed.kind.number())?;
    put_u16(text.len() as u16, out)?;
    out.extend_from_slice(text)
}

/// A name in UTF-8. Its length fits two bytes.
fn name_bytes(name: &Name) -> &[u8]
    ensures value { result.now ≡ name.now }
    ensures short { length result.now ≤ 1020 }
{
    name.as_str().as_bytes()
}

fn put_status(status: &NodeStatus, out: &mut Vec<u8>) -> Result<(), AllocError>
    ensures ok { OnOk result (out.new.items ≡ out.old.items ++ status_field status.now) }
    ensures err { OnErr result (KeepsFront out.old.items out.new.items) }
    ensures in_range { OnOk result ((status.now.moment < 2 ^ 64) × (status.now.size < 2 ^ 64)) }
{
    out.push(status.kind.number())?;
    put_u64(status.moment, out)?;
    put_u64(status.size, out)
}

/// Appends a number of two bytes, the lowest byte first.
fn put_u16(number: u16, out: &mut Vec<u8>) -> Result<(), AllocError>
    ensures ok { OnOk result (out.new.items ≡ out.old.items ++ to_le_bytes w16 number) }
    ensures err { OnErr result (out.new.items ≡ out.old.items) }
{
    let mut bytes = [0; 2];
    LittleEndian::write_u16(&mut bytes, number);
    out.extend_from_slice(&bytes)
}

/// Appends a number of four bytes, the lowest byte first.
fn put_u32(number: u32, out: &mut Vec<u8>) -> Result<(), AllocError>
    ensures ok { OnOk result (out.new.items ≡ out.old.items ++ to_le_bytes w32 number) }
    ensures err { OnErr result (out.new.items ≡ out.old.items) }
{
    let mut bytes = [0; 4];
    LittleEndian::write_u32(&mut bytes, number);
    out.extend_from_slice(&bytes)
}

/// Appends a number of eight bytes, the lowest byte first.
fn put_u64(number: u64, out: &mut Vec<u8>) -> Result<(), AllocError>
    ensures ok { OnOk result (out.new.items ≡ out.old.items ++ to_le_bytes w64 number) }
    ensures err { OnErr result (out.new.items ≡ out.old.items) }
{
    let mut bytes = [0; 8];
    LittleEndian::write_u64(&mut bytes, number);
    out.extend_from_slice(&bytes)
}
