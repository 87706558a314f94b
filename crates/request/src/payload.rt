//! Reading the payload of a frame: its fields from left to right, and the first fault in them.

ghost use Rattle.std.specs.Prelude.{◌≡◌, ◌≤◌, ◌<◌, List, ℕ, length, Ok, IfOk, IfErr, IfSome};
ghost use Rattle.std.specs.Int.{w16, w32, w64};
ghost use Rattle.request.specs.Spelling.{Said, IsMessageInRange, payload_of};
ghost use Rattle.request.specs.Spelling.Said.{Asks};
ghost use Rattle.request.specs.Reading.{Gives, Fails, number_at, client_at, number_above_zero_at, moment_at, tested_name, name_at, names_at, path_at, data_at, appended_at, count_at, op_at, ended, change_at, query_at, question_at, kind_at, fields_at, said_at};
ghost use Rattle.request.specs.Payload.{DecodesPayload, IsSpelled, told_by, request_said};
ghost use Rattle.request.specs.declared.payload.ReadError.TheVariants.{Memory};

use crate::message::{AppendSlice, ByteCount, Cause, FileSlice, Message, Op, Query, Request};
use crate::path::Path;
use limits::{FILE_BYTES, MOMENT_LIMIT};
use osta::{Name, NameFault};
use std::alloc::{AllocError, AllocFailed, Global};

/// Why a payload is neither a request nor a query.
#[derive(Debug, Drop)]
pub(crate) enum ReadError {
    Memory,
    Malformed(Cause),
}

impl From<AllocError> for ReadError {
    ghost from_gives = { λ _ e. e ≡ Memory };

    fn from(_e: AllocError) -> ReadError {
        ReadError::Memory
    }
}

impl<T: Drop> From<AllocFailed<T>> for ReadError {
    ghost from_gives = { λ _ e. e ≡ Memory };

    fn from(_e: AllocFailed<T>) -> ReadError {
        ReadError::Memory
    }
}

/// The kinds of request.
#[derive(Clone, Copy, Debug)]
enum Change {
    Create,
    Replace,
    Append,
    MakeDir,
    Rename,
    Remove,
}

/// The kinds of query.
#[derive(Clone, Copy, Debug)]
enum Question {
    Get,
    List,
    Stat,
    Read,
}

#[derive(Clone, Copy, Debug)]
enum Kind {
    Change(Change),
    Question(Question),
}

/// What the payload of a frame says.
pub fn read_payload(alloc: Global, payload: &[u8]) -> Message<'_>
    // It is the one thing that the payload says, or its first fault from left to right, unless there was no memory.
    ensures exact { DecodesPayload result payload.now }
    // What is read is in its ranges, and the payload is its encoding.
    ensures found { IfSome (told_by result) (IsSpelled payload.now) }
    // Whatever is in its ranges is read from its encoding, unless there was no memory.
    ensures only { (said : Said) → IsMessageInRange said → payload.now ≡ payload_of said → IfSome (told_by result) (λ told. told ≡ Ok said) }
{
    match message_of(alloc, payload) {
        Ok(message) => message,
        Err(ReadError::Memory) => Message::NoMemory,
        Err(ReadError::Malformed(cause)) => Message::Malformed(cause),
    }
}

#[tactic(auto, unfolding(crate::specs::Reading::said_at, crate::specs::Reading::fields_at))]
fn message_of(alloc: Global, payload: &[u8]) -> Result<Message<'_>, ReadError>
    ensures ok { IfOk result (λ m. DecodesPayload m payload.now) }
    ensures err { IfErr result (λ e. Fails e (said_at payload.now)) }
{
    let (kind, fields) = kind_of(payload)?;
    match kind {
        Kind::Change(change) => {
            let request = request_of(alloc, change, fields)?;
            Ok(Message::Request(request))
        }
        Kind::Question(question) => {
            let query = whole_query(alloc, question, fields)?;
            Ok(Message::Query(query))
        }
    }
}

#[tactic(auto, unfolding(crate::specs::Reading::kind_at))]
fn kind_of(bytes: &[u8]) -> Result<(Kind, &[u8]), ReadError>
    ensures { Gives (λ x. (x.0, x.1.now)) result (kind_at bytes.now) }
{
    let [byte, rest @ ..] = bytes else {
        return Err(ReadError::Malformed(Cause::Short));
    };
    let kind = match *byte {
        1 => Kind::Change(Change::Create),
        2 => Kind::Change(Change::Replace),
        3 => Kind::Change(Change::MakeDir),
        4 => Kind::Change(Change::Rename),
        5 => Kind::Change(Change::Remove),
        6 => Kind::Change(Change::Append),
        16 => Kind::Question(Question::Get),
        17 => Kind::Question(Question::List),
        18 => Kind::Question(Question::Stat),
        19 => Kind::Question(Question::Read),
        _ => return Err(ReadError::Malformed(Cause::Kind)),
    };
    Ok((kind, rest))
}

#[tactic(auto, unfolding(crate::specs::Reading::change_at))]
fn request_of(alloc: Global, change: Change, bytes: &[u8]) -> Result<Request<'_>, ReadError>
    ensures { Gives request_said result (change_at change bytes.now) }
{
    let (client, rest) = client_of(bytes)?;
    let (number, rest) = number_of(rest)?;
    let (moment, rest) = moment_of(rest)?;
    let (op, rest) = op_of(alloc, change, rest)?;
    nothing_after(rest)?;
    Ok(Request {
        client,
        number,
        moment,
        op,
    })
}

#[tactic(auto, unfolding(crate::specs::Reading::question_at))]
fn whole_query(alloc: Global, question: Question, bytes: &[u8]) -> Result<Query, ReadError>
    ensures { Gives (λ q. Asks q) result (question_at question bytes.now) }
{
    let (query, rest) = query_of(alloc, question, bytes)?;
    nothing_after(rest)?;
    Ok(query)
}

#[tactic(auto, unfolding(crate::specs::Reading::query_at))]
fn query_of(alloc: Global, question: Question, bytes: &[u8]) -> Result<(Query, &[u8]), ReadError>
    ensures { Gives (λ x. (x.0, x.1.now)) result (query_at question bytes.now) }
{
    let (path, rest) = path_of(alloc, bytes)?;
    match question {
        Question::Get => Ok((Query::Get(path), rest)),
        Question::List => Ok((Query::List(path), rest)),
        Question::Stat => Ok((Query::Stat(path), rest)),
        Question::Read => {
            let (offset, rest) = u64_of(rest)?;
            let (count, rest) = count_of(rest)?;
            Ok((
                Query::Read {
                    path,
                    offset,
                    count,
                },
                rest,
            ))
        }
    }
}

#[tactic(auto, unfolding(crate::specs::Reading::op_at))]
fn op_of(alloc: Global, change: Change, bytes: &[u8]) -> Result<(Op<'_>, &[u8]), ReadError>
    ensures { Gives (λ x. (x.0, x.1.now)) result (op_at change bytes.now) }
{
    let (path, rest) = path_of(alloc, bytes)?;
    match change {
        Change::Create => {
            let (bytes, rest) = data_of(rest)?;
            Ok((Op::Create { path, bytes }, rest))
        }
        Change::Replace => {
            let (bytes, rest) = data_of(rest)?;
            Ok((Op::Replace { path, bytes }, rest))
        }
        Change::Append => {
            let (offset, rest) = u64_of(rest)?;
            let (bytes, rest) = appended_of(rest)?;
            Ok((
                Op::Append {
                    path,
                    offset,
                    bytes,
                },
                rest,
            ))
        }
        Change::MakeDir => Ok((Op::MakeDir { path }, rest)),
        Change::Rename => {
            let (to, rest) = path_of(alloc, rest)?;
            Ok((Op::Rename { from: path, to }, rest))
        }
        Change::Remove => Ok((Op::Remove { path }, rest)),
    }
}

#[tactic(auto, unfolding(crate::specs::Reading::client_at))]
fn client_of(bytes: &[u8]) -> Result<(u64, &[u8]), ReadError>
    ensures exact { Gives (λ x. (x.0, x.1.now)) result (client_at bytes.now) }
    ensures in_range { IfOk result (λ x. 0 < x.0) }
{
    let (client, rest) = u64_of(bytes)?;
    if client == 0 {
        return Err(ReadError::Malformed(Cause::ClientZero));
    }
    Ok((client, rest))
}

#[tactic(auto, unfolding(crate::specs::Reading::number_above_zero_at))]
fn number_of(bytes: &[u8]) -> Result<(u64, &[u8]), ReadError>
    ensures exact { Gives (λ x. (x.0, x.1.now)) result (number_above_zero_at bytes.now) }
    ensures in_range { IfOk result (λ x. 0 < x.0) }
{
    let (number, rest) = u64_of(bytes)?;
    if number == 0 {
        return Err(ReadError::Malformed(Cause::NumberZero));
    }
    Ok((number, rest))
}

#[tactic(auto, unfolding(crate::specs::Reading::moment_at))]
fn moment_of(bytes: &[u8]) -> Result<(u64, &[u8]), ReadError>
    ensures exact { Gives (λ x. (x.0, x.1.now)) result (moment_at bytes.now) }
    ensures in_range { IfOk result (λ x. x.0 < MOMENT_LIMIT) }
{
    let (moment, rest) = u64_of(bytes)?;
    if moment >= MOMENT_LIMIT {
        return Err(ReadError::Malformed(Cause::Moment));
    }
    Ok((moment, rest))
}

#[tactic(auto, unfolding(crate::specs::Reading::path_at))]
fn path_of(alloc: Global, bytes: &[u8]) -> Result<(Path, &[u8]), ReadError>
    ensures { Gives (λ x. (x.0, x.1.now)) result (path_at bytes.now) }
{
    let [count, rest @ ..] = bytes else {
        return Err(ReadError::Malformed(Cause::Short));
    };
    names_of(alloc, *count, rest)
}

fn names_of(alloc: Global, count: u8, bytes: &[u8]) -> Result<(Path, &[u8]), ReadError>
    ensures { Gives (λ x. (x.0, x.1.now)) result (names_at count bytes.now) }
{
    let mut path = Path::root(alloc);
    let mut rest = bytes;
    for _ in 0..count {
        let (name, after) = name_of(alloc, rest)?;
        path.push(name)?;
        rest = after;
    }
    Ok((path, rest))
}

#[tactic(auto, unfolding(crate::specs::Reading::name_at))]
fn name_of(alloc: Global, bytes: &[u8]) -> Result<(Name, &[u8]), ReadError>
    ensures { Gives (λ x. (x.0, x.1.now)) result (name_at bytes.now) }
{
    let (len, rest) = u16_of(bytes)?;
    let len = usize::from(len);
    if rest.len() < len {
        return Err(ReadError::Malformed(Cause::Short));
    }
    let (text, rest) = rest.split_at(len);
    let name = read_name(alloc, text)?;
    Ok((name, rest))
}

#[tactic(auto, unfolding(crate::specs::Reading::tested_name, crate::specs::Reading::is_name))]
fn read_name(alloc: Global, bytes: &[u8]) -> Result<Name, ReadError>
    ensures { Gives (λ x. x) result (tested_name bytes.now) }
{
    let Ok(text) = str::from_utf8(bytes) else {
        return Err(ReadError::Malformed(Cause::Path));
    };
    match Name::read(alloc, text) {
        Ok(name) => Ok(name),
        Err(NameFault::Memory) => Err(ReadError::Memory),
        Err(_) => Err(ReadError::Malformed(Cause::Path)),
    }
}

#[tactic(auto, unfolding(crate::specs::Reading::data_at))]
fn data_of(bytes: &[u8]) -> Result<(FileSlice<'_>, &[u8]), ReadError>
    ensures { Gives (λ x. (x.0, x.1.now)) result (data_at bytes.now) }
{
    let (len, rest) = u32_of(bytes)?;
    let len = len as usize;
    if len > FILE_BYTES {
        return Err(ReadError::Malformed(Cause::Extra));
    }
    if rest.len() < len {
        return Err(ReadError::Malformed(Cause::Short));
    }
    let (data, rest) = rest.split_at(len);
    Ok((FileSlice::new(data), rest))
}

#[tactic(auto, unfolding(crate::specs::Reading::appended_at))]
fn appended_of(bytes: &[u8]) -> Result<(AppendSlice<'_>, &[u8]), ReadError>
    ensures { Gives (λ x. (x.0, x.1.now)) result (appended_at bytes.now) }
{
    let (data, rest) = data_of(bytes)?;
    if data.as_slice().is_empty() {
        return Err(ReadError::Malformed(Cause::Extra));
    }
    Ok((AppendSlice::new(data), rest))
}

#[tactic(auto, unfolding(crate::specs::Reading::count_at))]
fn count_of(bytes: &[u8]) -> Result<(ByteCount, &[u8]), ReadError>
    ensures { Gives (λ x. (x.0, x.1.now)) result (count_at bytes.now) }
{
    let (count, rest) = u32_of(bytes)?;
    if count as usize > FILE_BYTES {
        return Err(ReadError::Malformed(Cause::Extra));
    }
    Ok((ByteCount::new(count), rest))
}

fn nothing_after(bytes: &[u8]) -> Result<(), ReadError>
    ensures { Gives (λ x. x) result (ended tt bytes.now) }
{
    if bytes.is_empty() {
        Ok(())
    } else {
        Err(ReadError::Malformed(Cause::Extra))
    }
}

fn u16_of(bytes: &[u8]) -> Result<(u16, &[u8]), ReadError>
    ensures { Gives (λ x. (x.0, x.1.now)) result (number_at w16 bytes.now) }
{
    if bytes.len() < 2 {
        return Err(ReadError::Malformed(Cause::Short));
    }
    let (front, rest) = bytes.split_at(2);
    Ok((u16::from_le_bytes([front[0], front[1]]), rest))
}

fn u32_of(bytes: &[u8]) -> Result<(u32, &[u8]), ReadError>
    ensures { Gives (λ x. (x.0, x.1.now)) result (number_at w32 bytes.now) }
{
    if bytes.len() < 4 {
        return Err(ReadError::Malformed(Cause::Short));
    }
    let (front, rest) = bytes.split_at(4);
    let number = u32::from_le_bytes([front[0], front[1], front[2], front[3]]);
    Ok((number, rest))
}

fn u64_of(bytes: &[u8]) -> Result<(u64, &[u8]), ReadError>
    ensures { Gives (λ x. (x.0, x.1.now)) result (number_at w64 bytes.now) }
{
    if bytes.len() < 8 {
        return Err(ReadError::Malformed(Cause::Short));
    }
    let (front, rest) = bytes.split_at(8);
    let number = u64::from_le_bytes([
        front[0], front[1], front[2], front[3], front[4], front[5], front[6], front[7],
    ]);
    Ok((number, rest))
}
