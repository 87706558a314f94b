//! The calls of C, on the session of a handle. Each returns its outcome as a number.

ghost use Rattle.std.specs.Prelude.{◌≡◌, true, false};
ghost use Rattle.embedding.specs.Calls.{OpensVolume, OpensNewVolume, AnswersBytes, SettlesOpenGroup, Counts, ShowsBlock, GivesBlock, Ended, presence_number};
ghost use Rattle.embedding.specs.Grouped.{BeginsGroup, TakesGroupBack};
ghost use Rattle.embedding.specs.Handing.{HandsOut};
ghost use Rattle.embedding.specs.Commits.{AsksCommit};
ghost use Rattle.embedding.specs.Questions.{LastNumber};
ghost use Rattle.embedding.specs.StatusCalls.{AsksStatus};
ghost use Rattle.embedding.specs.Sessions.{Took};

use crate::fault::{Fault, status_of};
use crate::handed::Handed;
use crate::loose::Loose;
use crate::session::Session;
use crate::told::{CommitStatus, Status};
use limits::Block;
use std::alloc::Global;

/// The box of a session that has ended, or the pointer as it was.
pub fn hand_out(alloc: Global, before: *mut u8) -> Handed
    ensures { HandsOut result.status before result.at result.core }
{
    match Box::new(alloc, Session::ended(alloc)) {
        Ok(made) => Handed::of(Loose::of(made), status_of(Ok(()))),
        Err(_) => Handed::none(before, status_of(Err(Fault::Memory))),
    }
}

/// Opens the volume on the file of a descriptor, in place of what the session held.
pub fn open_fd(session: &mut Session, fd: i32) -> i32
    ensures { OpensVolume false result session.old session.new }
{
    status_of(session.open_file(fd, false))
}

/// Opens the volume on a drive that is written in order alone, in place of what the session held.
pub fn open_drive(session: &mut Session, number: i32) -> i32
    ensures { OpensVolume true result session.old session.new }
{
    status_of(session.open_file(number, true))
}

/// Opens a new volume in memory, in place of what the session held.
pub fn open_memory(session: &mut Session, label: &[u8], moment: u64, capacity: u32) -> i32
    ensures { OpensNewVolume label.now moment capacity result session.old session.new }
{
    status_of(session.open_memory(label, moment, capacity))
}

/// Takes bytes of the stream of messages, and answers the messages that are complete.
pub fn answer(session: &mut Session, bytes: &[u8]) -> i32
    ensures { AnswersBytes bytes.now result session.old session.new }
{
    status_of(session.answer(bytes))
}

/// Begins a group on an image file, unless one is open.
pub fn begin(session: &mut Session)
    ensures { BeginsGroup session.old session.new }
{
    session.begin();
}

/// Gives the disk what the open group has, and ends it.
pub fn settle(session: &mut Session) -> i32
    ensures { SettlesOpenGroup result session.old session.new }
{
    status_of(session.settle())
}

/// Ends the open group as if its messages had not come.
pub fn take_back(session: &mut Session)
    ensures { TakesGroupBack session.old session.new }
{
    session.take_back();
}

/// How many bytes of answers wait.
pub fn answered(session: &mut Session) -> usize
    ensures { Counts result session.old session.new }
{
    session.answered()
}

/// Moves the first bytes of the answers that wait to `into`. Returns how many.
pub fn take(session: &mut Session, into: &mut [u8]) -> usize
    ensures { Took session.old into.old result session.new into.new }
{
    session.take(into)
}

/// Copies the first block of a volume in memory that was not taken yet, and its address.
pub fn next_block(session: &mut Session, address: &mut u32, block: &mut Block) -> i32
    ensures { ShowsBlock result (address.old, block.old) (address.new, block.new) session.old session.new }
{
    found(session.next_block(address, block))
}

/// Takes the block that `next_block` shows.
pub fn took(session: &mut Session) -> i32
    ensures { GivesBlock result session.old session.new }
{
    found(session.took())
}

/// The number of the last request of a client, or 0 if the volume does not know it.
pub fn last_number(session: &mut Session, client: u64, number: &mut u64) -> i32
    ensures { LastNumber client result number.old number.new session.old session.new }
{
    match session.last_number(client) {
        Ok(last) => {
            *number = last;
            status_of(Ok(()))
        }
        Err(fault) => status_of(Err(fault)),
    }
}

/// The state of the volume, and how far it is written.
pub fn status(session: &mut Session, told: &mut Status) -> i32
    ensures { AsksStatus result told.old told.new session.old session.new }
{
    status_of(session.status(told))
}

/// The newest commit if `after` is 0, and otherwise the one before that whose VAT ICB is at the address `after`.
pub fn log(session: &mut Session, after: u32, told: &mut CommitStatus) -> i32
    ensures { AsksCommit after result told.old told.new session.old session.new }
{
    status_of(session.commit_before(after, told))
}

/// Drops all that the session holds, so that a file is closed and unlocked, and no memory is kept.
pub fn end(session: &mut Session)
    ensures { Ended session.new }
{
    session.end();
}

/// The number that C gets for whether there is a block.
fn found(is_there: bool) -> i32
    ensures { result ≡ presence_number is_there }
{
    if is_there {
        status_of(Ok(()))
    } else {
        status_of(Err(Fault::Nothing))
    }
}
