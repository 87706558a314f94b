//! The records of the clients: what is due, and the replies that are kept.

ghost use Rattle.std.specs.Prelude.{◌≡◌, ◌==◌, IfOk, OnOk, map, find, length, Some, None};
ghost use Rattle.std.specs.List.{list_any};
ghost use Rattle.std.specs.Option.{option_copied};
ghost use Rattle.model.specs.Session.{record_of, due_by, answered, answered_if, with_reply};
ghost use Rattle.model.specs.Plain.{reply_in, record_in, due_in};

use super::Code;
use limits::{CLIENTS, KEPT_REPLIES};
use std::alloc::{AllocError, Global};

/// The answer to a request that was committed: its code, and the number of its commit.
#[derive(Clone, Copy, Debug, PartialEq, Eq)]
pub struct Reply {
    pub code: Code,
    pub commit: u64,
}

/// A client's latest request number, and the replies that are kept for that number and those before it, the newest
/// first.
#[derive(Debug, Drop)]
pub struct ClientRecord {
    pub client: u64,
    pub latest: u64,
    pub replies: Vec<Reply>,
}

/// What a client's request number calls for.
#[derive(Clone, Copy, Debug, PartialEq, Eq)]
pub enum Due {
    /// The request was committed, and this is its reply.
    Repeat(Reply),
    /// The number is at or below the client's latest, which this holds, and its reply is no longer kept.
    Stale(u64),
    /// The number is more than one above the client's latest, which this holds: 0 if it has none.
    Gap(u64),
    /// The client has no record, and there is no room for another.
    ClientsFull,
    /// The number is the next one.
    New,
}

/// What is due for a client's request number.
pub fn find_due(records: &[ClientRecord], client: u64, number: u64) -> Due
    ensures { due_in result ≡ due_by number (length records.now) (record_of client (map record_in records.now)) }
{
    match find_record(records, client) {
        None => due_with_none(records.len(), number),
        Some(kept) => due_with(kept, number),
    }
}

fn find_record(records: &[ClientRecord], client: u64) -> Option<&ClientRecord>
    ensures { option_copied result ≡ find (λ r. r.client == client) records.now }
{
    records.iter().find(|r| r.client == client)
}

fn due_with_none(clients: usize, number: u64) -> Due
    ensures { due_in result ≡ due_by number clients None }
{
    if number == 0 {
        Due::Stale(0)
    } else if number > 1 {
        Due::Gap(0)
    } else if clients >= CLIENTS {
        Due::ClientsFull
    } else {
        Due::New
    }
}

fn due_with(kept: &ClientRecord, number: u64) -> Due
    ensures { due_in result ≡ due_by number 0 (Some (record_in kept.now)) }
{
    if number > kept.latest {
        if number - kept.latest == 1 {
            Due::New
        } else {
            Due::Gap(kept.latest)
        }
    } else {
        match kept.replies.get((kept.latest - number) as usize) {
            None => Due::Stale(kept.latest),
            Some(reply) => Due::Repeat(*reply),
        }
    }
}

impl ClientRecord {
    /// Adds a reply, and keeps the newest four.
    pub fn answer(&mut self, number: u64, reply: Reply) -> Result<(), AllocError>
        ensures { OnOk result (record_in self.new ≡ answered number (reply_in reply) (record_in self.old)) }
    {
        self.replies.insert(0, reply)?;
        self.replies.truncate(KEPT_REPLIES);
        self.latest = number;
        Ok(())
    }
}

/// The records with one more reply. The record of a new client goes last.
pub fn with_reply(
    alloc: Global,
    mut records: Vec<ClientRecord>,
    client: u64,
    number: u64,
    reply: Reply,
) -> Result<Vec<ClientRecord>, AllocError>
    ensures { IfOk result (λ new. map record_in new.items ≡ with_reply client number (reply_in reply) (map record_in records.items)) }
{
    if !has_record(&records, client) {
        let mut replies = Vec::new(alloc);
        replies.push(reply)?;
        records.push(ClientRecord {
            client,
            latest: number,
            replies,
        })?;
        return Ok(records);
    }
    answer_all(records, client, number, reply)
}

fn has_record(records: &[ClientRecord], client: u64) -> bool
    ensures { result ≡ list_any (λ r. r.client == client) records.now }
{
    records.iter().any(|r| r.client == client)
}

fn answer_all(
    mut records: Vec<ClientRecord>,
    client: u64,
    number: u64,
    reply: Reply,
) -> Result<Vec<ClientRecord>, AllocError>
    ensures { IfOk result (λ new. map record_in new.items ≡ map (λ r. answered_if client number (reply_in reply) r) (map record_in records.items)) }
{
    for i in 0..records.len() {
        if records[i].client == client {
            records[i].answer(number, reply)?;
        }
    }
    Ok(records)
}
