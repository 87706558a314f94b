//! What is due for a client's request number.

ghost use Rattle.std.specs.Prelude.{◌≡◌, ◌<◌, All, length, map, Some, None};
ghost use Rattle.model.specs.Session.{due_by, record_of};
ghost use Rattle.store.specs.Sessions.{due_said, is_code, reply_said};
ghost use Rattle.udf.specs.Said.{model_record, said_reply};
ghost use Rattle.vat.specs.Table.{FitsTable, view};

use crate::store::Store;
use limits::CLIENTS;
use request::{Code, Reply};
use vat::Record;

/// What a client's request number calls for.
#[derive(Clone, Copy, Debug, PartialEq, Eq)]
pub enum Due {
    /// The request was committed, and this was its reply.
    Repeat(Reply),
    /// The request was committed, but its reply is no longer kept. Holds the client's latest number.
    Stale(u64),
    /// The number is not the next one. Holds the client's latest number, or 0 if it has none.
    Gap(u64),
    /// The client has no record, and the table has no room for another.
    ClientsFull,
    /// The number is the next one: the request is to be committed.
    New,
}

impl Store {
    /// What is due for a client's request number, from 1 on.
    pub fn due(&self, client: u64, number: u64) -> Due
        requires above_zero { 0 < number }
        requires fits { FitsTable (view self.now.vat) }
        ensures { due_said result ≡ due_by number (length self.now.vat.sessions.records.items) (record_of client (map model_record self.now.vat.sessions.records.items)) }
    {
        let records = &self.vat.sessions.records;
        for kept in records {
            if kept.client == client {
                return due_for(kept, number);
            }
        }
        due_for_none(records.len(), number)
    }
}

/// What is due for a number of a client that has no record, where `clients` others have one.
fn due_for_none(clients: usize, number: u64) -> Due
    requires { 0 < number }
    ensures { due_said result ≡ due_by number clients None }
{
    if number > 1 {
        Due::Gap(0)
    } else if clients >= CLIENTS {
        Due::ClientsFull
    } else {
        Due::New
    }
}

/// What is due for a number of a client that has a record.
fn due_for(kept: &Record, number: u64) -> Due
    requires { All is_code kept.now.replies }
    ensures { due_said result ≡ due_by number 0 (Some (model_record kept.now)) }
{
    if number > kept.latest {
        return if number - kept.latest == 1 {
            Due::New
        } else {
            Due::Gap(kept.latest)
        };
    }
    match kept.replies.get((kept.latest - number) as usize) {
        Some(reply) => Due::Repeat(told(reply)),
        None => Due::Stale(kept.latest),
    }
}

/// A kept reply as the answer to a client.
fn told(reply: vat::Reply) -> Reply
    requires { is_code reply }
    ensures { reply_said result ≡ said_reply reply }
{
    Reply {
        code: Code::of(reply.code).unwrap(),
        commit: reply.commit,
    }
}
