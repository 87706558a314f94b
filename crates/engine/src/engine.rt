//! One message, answered.

ghost use Rattle.std.specs.Prelude.{◌≡◌, ◌⊎◌, ℕ, Some, None, Ok, Err, IsTrue, IfOk, IfErr, OnOk, OnErr, false, option_copied};
ghost use Rattle.model.specs.Session.{State};
ghost use Rattle.model.specs.Tree.{Path};
ghost use Rattle.drive.specs.Reads.{ReadsOnly};
ghost use Rattle.drive.specs.Reads as drives;
ghost use Rattle.recover.specs.Faults.{IsShortage, devices, device_failures};
ghost use Rattle.request.specs.declared.answer.Answer.TheVariants as answers;
ghost use Rattle.request.specs.declared.message.Message.TheVariants as messages;
ghost use Rattle.request.specs.declared.message.Query.TheVariants as queries;
ghost use Rattle.store.specs.Agrees.{IsStoreOn};
ghost use Rattle.store.specs.Calls.{IsOpenOn};
ghost use Rattle.store.specs.declared.store.Store.{Store};
ghost use Rattle.engine.specs.Situation.{IsReady, IsOpen, AddsBlocks, HoldsNothing, seen_on, situation_on};
ghost use Rattle.engine.specs.Answered.{Answered, due_of, IsAnsweredAsDue, IsNothingThere, CanBeAnswered, FailsOrIsDamaged, faults};
ghost use Rattle.engine.specs.Called.{Calls, IsDealt, IsQueried, failed, refused, get_refused, list_refused, read_refused, stat_refused};
ghost use Rattle.engine.specs.Steps.{HoldsState};
ghost use Rattle.engine.specs.Planned.{IsUnwrittenOrPlanned};
ghost use Rattle.engine.specs.Withstanding.{MessageSurvivesPowerLoss, AsksFor};

use drive::Drive;
use request::{Answer, Message, Query, Request};
use std::alloc::Global;
use store::{Due, Store, StoreFault};

/// Answers messages. A new engine has no store open.
#[derive(Drop)]
pub struct Engine {
    store: Option<Store>,
}

impl Engine {
    /// An engine with no store open.
    pub fn new() -> Engine
        ensures { result.store ≡ None }
    {
        Engine { store: None }
    }

    /// Answers a message. After a failed write, the medium is opened again for the next request or query.
    pub fn answer<D: Drive>(&mut self, alloc: Global, drive: &mut D, message: Message<'_>) -> Answer
        requires { IsReady (seen_on D.Drive self.old drive.old) }
        ensures answered { Answered message.entry (seen_on D.Drive self.old drive.old) result (seen_on D.Drive self.new drive.new) }
        // What becomes of the message on an honest drive, if a state is recovered and an open store knows it.
        ensures calls { (volume : ℕ) (S : State) → IsTrue (D.honest drive.new) → HoldsState volume S (seen_on D.Drive self.old drive.old) → Calls volume message.entry S (seen_on D.Drive self.old drive.old) result (seen_on D.Drive self.new drive.new) }
        // What its writes leave on the journal, and what a power loss leaves of them: the disk may keep any of the
        // blocks of the last write that it was given.
        ensures withstands { (volume : ℕ) (S : State) → IsTrue (D.honest drive.new) → HoldsState volume S (seen_on D.Drive self.old drive.old) → MessageSurvivesPowerLoss volume S (AsksFor message.entry) (faults result) (seen_on D.Drive self.old drive.old) (seen_on D.Drive self.new drive.new) }
        // If the answer tells of no failure, nothing was written, or what is planned for the request, and nothing else.
        ensures planned { (volume : ℕ) (S : State) → IsTrue (D.honest drive.new) → HoldsState volume S (seen_on D.Drive self.old drive.old) → faults result ≡ 0 → IsUnwrittenOrPlanned volume S (AsksFor message.entry) (seen_on D.Drive self.old drive.old) (seen_on D.Drive self.new drive.new) }
        // What becomes of it on an honest drive, if nothing is recovered.
        ensures nothing { IsTrue (D.honest drive.new) → HoldsNothing (seen_on D.Drive self.old drive.old) → IsNothingThere message.entry (seen_on D.Drive self.old drive.old) result (seen_on D.Drive self.new drive.new) }
        ensures lent { drives.ReadsAndWrites D.Drive (faults result) drive.old drive.new }
    {
        match message {
            Message::Malformed(cause) => Answer::Malformed(cause),
            Message::NoMemory => Answer::Memory,
            Message::Request(request) => match self.take_open(alloc, drive) {
                Ok(mut store) => {
                    let answer = answer_request(&mut store, alloc, drive, &request);
                    self.store = Some(store);
                    answer
                }
                Err(fault) => failure(fault),
            },
            Message::Query(query) => match self.take_open(alloc, drive) {
                Ok(mut store) => {
                    let answer = answer_query(&mut store, alloc, drive, &query);
                    self.store = Some(store);
                    answer
                }
                Err(fault) => failure(fault),
            },
        }
    }

    /// Opens the store if none is open, or if a write failed. Nothing is written.
    pub fn open<D: Drive>(&mut self, alloc: Global, drive: &mut D) -> Result<(), StoreFault>
        requires { IsReady (seen_on D.Drive self.old drive.old) }
        ensures open { OnOk result ((store : Store) × IsOpen (seen_on D.Drive self.new drive.new) store) }
        ensures closed { OnErr result (self.new.store ≡ None) }
        // A recovered state is then known. Only a failure of the drive or lack of memory keeps it from being opened.
        ensures holds { (volume : ℕ) (S : State) → IsTrue (D.honest drive.new) → HoldsState volume S (seen_on D.Drive self.old drive.old) → HoldsState volume S (seen_on D.Drive self.new drive.new) }
        ensures short { (volume : ℕ) (S : State) → IsTrue (D.honest drive.new) → HoldsState volume S (seen_on D.Drive self.old drive.old) → IfErr result IsShortage }
        // If nothing is recovered, nothing is opened.
        ensures nothing { IsTrue (D.honest drive.new) → HoldsNothing (seen_on D.Drive self.old drive.old) → OnOk result ⊥ }
        // If it is open, nothing is done.
        ensures stays { (kept : Store) → IsOpen (seen_on D.Drive self.old drive.old) kept → (self.new ≡ self.old) × (drive.new ≡ drive.old) }
        ensures ready { IsReady (seen_on D.Drive self.new drive.new) }
        ensures reads { ReadsOnly D.Drive (devices result) drive.old drive.new }
    {
        match self.take_open(alloc, drive) {
            Ok(store) => {
                self.store = Some(store);
                Ok(())
            }
            Err(fault) => Err(fault),
        }
    }

    /// The store that is kept, if one is.
    pub fn store(&self) -> Option<&Store>
        ensures { option_copied result ≡ self.now.store }
    {
        self.store.as_ref()
    }

    /// Takes the store out: the one that is open, or one that is opened now.
    fn take_open<D: Drive>(&mut self, alloc: Global, drive: &mut D) -> Result<Store, StoreFault>
        requires { IsReady (seen_on D.Drive self.old drive.old) }
        ensures agrees { IfOk result (IsStoreOn (D.journal drive.new) (D.capacity drive.new)) }
        ensures open { IfOk result (λ store. store.is_stopped ≡ false) }
        ensures knows { (volume : ℕ) (S : State) → IsTrue (D.honest drive.new) → HoldsState volume S (seen_on D.Drive self.old drive.old) → IfOk result (IsOpenOn (D.capacity drive.old) volume (D.journal drive.old) S) }
        ensures short { (volume : ℕ) (S : State) → IsTrue (D.honest drive.new) → HoldsState volume S (seen_on D.Drive self.old drive.old) → IfErr result IsShortage }
        ensures nothing { IsTrue (D.honest drive.new) → HoldsNothing (seen_on D.Drive self.old drive.old) → IfOk result (λ store. ⊥) }
        ensures taken { self.new.store ≡ None }
        ensures stays { (kept : _) → self.old.store ≡ Some kept → kept.is_stopped ≡ false → (result ≡ Ok kept) × (drive.new ≡ drive.old) }
        ensures reads { ReadsOnly D.Drive (devices result) drive.old drive.new }
    {
        match self.store.take() {
            Some(store) if !store.stopped() => Ok(store),
            _ => Store::open(alloc, drive),
        }
    }
}

/// The answer to a request, by what is due.
#[tactic(auto, using(crate::proofs::Fronts::after_written))]
fn answer_request<D: Drive>(
    store: &mut Store,
    alloc: Global,
    drive: &mut D,
    request: &Request<'_>,
) -> Answer
    requires { IsStoreOn (D.journal drive.old) (D.capacity drive.old) store.old }
    ensures due { IsAnsweredAsDue (due_of store.old request.now.client request.now.number) (situation_on D.Drive (Some store.old) drive.old) result (situation_on D.Drive (Some store.new) drive.new) }
    ensures follows { AddsBlocks (situation_on D.Drive (Some store.old) drive.old) (situation_on D.Drive (Some store.new) drive.new) }
    ensures dealt { (volume : ℕ) (S : State) → IsTrue (D.honest drive.new) → IsOpenOn (D.capacity drive.old) volume (D.journal drive.old) S store.old → store.old.is_stopped ≡ false → IsDealt (due_of store.old request.now.client request.now.number) volume S request.now (situation_on D.Drive (Some store.old) drive.old) store.old result (situation_on D.Drive (Some store.new) drive.new) }
    ensures withstands { (volume : ℕ) (S : State) → IsTrue (D.honest drive.new) → IsOpenOn (D.capacity drive.old) volume (D.journal drive.old) S store.old → MessageSurvivesPowerLoss volume S (AsksFor (messages.Request request.now)) (faults result) (situation_on D.Drive (Some store.old) drive.old) (situation_on D.Drive (Some store.new) drive.new) }
    ensures planned { (volume : ℕ) (S : State) → IsTrue (D.honest drive.new) → IsOpenOn (D.capacity drive.old) volume (D.journal drive.old) S store.old → faults result ≡ 0 → IsUnwrittenOrPlanned volume S (AsksFor (messages.Request request.now)) (situation_on D.Drive (Some store.old) drive.old) (situation_on D.Drive (Some store.new) drive.new) }
    ensures lent { drives.ReadsAndWrites D.Drive (faults result) drive.old drive.new }
{
    match store.due(request.client, request.number) {
        Due::Repeat(reply) => Answer::Reply(reply),
        Due::Stale(latest) => Answer::Stale(latest),
        Due::Gap(latest) => Answer::Gap(latest),
        Due::ClientsFull => Answer::ClientsFull,
        Due::New => match store.apply(alloc, drive, request) {
            Ok(reply) => Answer::Reply(reply),
            Err(fault) => refusal(fault),
        },
    }
}

/// The answer to a query.
fn answer_query<D: Drive>(store: &mut Store, alloc: Global, drive: &mut D, query: &Query) -> Answer
    requires { IsStoreOn (D.journal drive.old) (D.capacity drive.old) store.old }
    ensures reported { CanBeAnswered query.now result }
    ensures queried { (volume : ℕ) (S : State) → IsTrue (D.honest drive.new) → IsOpenOn (D.capacity drive.old) volume (D.journal drive.old) S store.old → store.old.is_stopped ≡ false → IsQueried S query.now result × IsOpenOn (D.capacity drive.old) volume (D.journal drive.old) S store.new }
    ensures agrees { IsStoreOn (D.journal drive.new) (D.capacity drive.new) store.new }
    ensures reads { ReadsOnly D.Drive (faults result) drive.old drive.new }
{
    match query {
        Query::Get(path) => match store.get(alloc, drive, path) {
            Ok(data) => Answer::Data(data),
            Err(fault) => get_refusal(fault),
        },
        Query::List(path) => match store.list(alloc, drive, path) {
            Ok(listing) => Answer::Names(listing),
            Err(fault) => list_refusal(fault),
        },
        Query::Stat(path) => match store.stat(alloc, drive, path) {
            Ok(status) => Answer::Node(status),
            Err(fault) => stat_refusal(fault),
        },
        Query::Read {
            path,
            offset,
            count,
        } => match store.read(alloc, drive, path, *offset, count) {
            Ok(bytes) => Answer::Data(bytes),
            Err(fault) => read_refusal(fault),
        },
    }
}

/// The answer to a request that is not committed.
fn refusal(fault: StoreFault) -> Answer
    ensures refused { result ≡ refused fault }
    ensures may { (result ≡ answers.Full) ⊎ FailsOrIsDamaged result }
    ensures device { faults result ≡ device_failures fault }
{
    match fault {
        StoreFault::Full => Answer::Full,
        other => failure(other),
    }
}

/// The answer to a query for a file's bytes that fails.
fn get_refusal(fault: StoreFault) -> Answer
    ensures refused { result ≡ get_refused fault }
    ensures reported { (path : Path) → CanBeAnswered (queries.Get path) result }
    ensures device { faults result ≡ device_failures fault }
{
    match fault {
        StoreFault::TooLong => Answer::TooLong,
        other => read_refusal(other),
    }
}

/// The answer to a query for a piece of a file that fails.
fn read_refusal(fault: StoreFault) -> Answer
    ensures refused { result ≡ read_refused fault }
    ensures reported { (path : Path) (offset count : ℕ) → CanBeAnswered (queries.Read path offset count) result }
    ensures device { faults result ≡ device_failures fault }
{
    match fault {
        StoreFault::NotFound => Answer::NotFound,
        StoreFault::IsDirectory => Answer::IsDirectory,
        other => failure(other),
    }
}

/// The answer to a query for a directory's names that fails.
fn list_refusal(fault: StoreFault) -> Answer
    ensures refused { result ≡ list_refused fault }
    ensures reported { (path : Path) → CanBeAnswered (queries.List path) result }
    ensures device { faults result ≡ device_failures fault }
{
    match fault {
        StoreFault::NotFound => Answer::NotFound,
        StoreFault::NotDirectory => Answer::NotDirectory,
        other => failure(other),
    }
}

/// The answer to a query for a node's status that fails.
fn stat_refusal(fault: StoreFault) -> Answer
    ensures refused { result ≡ stat_refused fault }
    ensures reported { (path : Path) → CanBeAnswered (queries.Stat path) result }
    ensures device { faults result ≡ device_failures fault }
{
    match fault {
        StoreFault::NotFound => Answer::NotFound,
        other => failure(other),
    }
}

/// The answer if the drive failed, if there was no memory, or if the medium holds no sound volume.
fn failure(fault: StoreFault) -> Answer
    ensures fails { FailsOrIsDamaged result }
    ensures failed { result ≡ failed fault }
    ensures device { faults result ≡ device_failures fault }
{
    match fault {
        StoreFault::Device => Answer::Fault,
        StoreFault::Memory => Answer::Memory,
        _ => Answer::Damaged,
    }
}
