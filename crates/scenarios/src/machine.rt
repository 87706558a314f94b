//! An engine, or a store by itself, with the drive in memory that it borrows.

ghost use Rattle.std.specs.Prelude.{◌≡◌, ◌≤◌, ℕ, true, [], length, IfSome, None};
ghost use Rattle.drive.specs.MemDrive.{journal_of, capacity_of};
ghost use Rattle.store.specs.Agrees.{IsStoreOn};
ghost use Rattle.engine.specs.Situation.{IsReady, situation};

use crate::answers::tell;
use crate::streams::Pieces;
use crate::trouble::Trouble;
use drive::{Block, Drive, Fault, MemDrive, Scheduled};
use engine::{CountedReader, Delivery, Engine, ServeFault, run, serve};
use limits::MOMENT_LIMIT;
use request::{Answer, Message, Query, Request, encode_answer, read_payload};
use std::alloc::Global;
use std::marker::Model;
use store::{Commit, Due, Snapshot, Store, StoreFault, format};
use words::Room;

/// How many calls of the drive `Machine::burn` makes.
const CALLS_TO_BURN: u64 = 2;

/// The trouble with a step that needs a store.
const NO_STORE: Trouble = Trouble::Line("no store is open");

/// What is read in place of a block that did not reach the medium while one after it did.
const UNWRITTEN: Block = [0; 2048];

/// A store if one is open, and otherwise an engine, with the drive that either borrows.
#[derive(Drop)]
pub struct Machine {
    alloc: Global,
    drive: MemDrive,
    engine: Engine,
    store: Option<Store>,
}

impl Model for Machine {
    ghost Value = { ℕ };

    ghost view = { λ m. length (journal_of m.drive) };

    ghost invariant = { λ m. IsReady (situation m.engine.store (journal_of m.drive) 0 (capacity_of m.drive) true []) × IfSome m.store (IsStoreOn (journal_of m.drive) (capacity_of m.drive)) };
}

impl Machine {
    /// A new engine on this drive.
    pub fn on(alloc: Global, drive: MemDrive) -> Machine {
        Machine {
            alloc,
            drive,
            engine: Engine::new(),
            store: None,
        }
    }

    /// A new engine on a blank drive.
    pub fn blank(alloc: Global, capacity: u32) -> Machine {
        Machine::on(alloc, MemDrive::new(alloc, capacity, Vec::new(alloc)))
    }

    /// What was written, in order.
    pub fn journal(&self) -> &[(u32, Block)] {
        self.drive.journal()
    }

    /// How many blocks were written, or 0 if they were not written once each, in order of their addresses.
    pub fn blocks(&self) -> usize {
        let mut count = 0usize;
        for event in self.drive.journal() {
            if event.0 as usize != count {
                return 0;
            }
            count = count.saturating_add(1);
        }
        count
    }

    /// A new engine on the first blocks of this medium.
    pub fn front(&self, blocks: usize) -> Result<Machine, Trouble> {
        let blocks = blocks.min(self.drive.journal().len());
        Ok(Machine::on(self.alloc, self.drive.front(blocks)?))
    }

    /// A drive with the same medium, on which one bit of a byte of a block is changed.
    pub fn flipped(&self, at: u32, byte: usize) -> Result<Machine, Trouble> {
        self.copy(
            self.blank_drive(self.drive.capacity()),
            Copied::Flipped { at, byte },
        )
    }

    /// A drive of another capacity with the same medium.
    pub fn resized(&self, capacity: u32) -> Result<Machine, Trouble> {
        self.copy(self.blank_drive(capacity), Copied::All)
    }

    /// A drive with the first `blocks` blocks of the medium. The call of this number from then on fails, counted from
    /// 1. If it is a write, it adds its first `keep` blocks, or all if it has fewer.
    pub fn failing(&self, blocks: usize, call: u64, keep: usize) -> Result<Machine, Trouble> {
        let calls = (blocks as u64).saturating_mul(CALLS_TO_BURN);
        let mut schedule = Vec::new(self.alloc);
        let call = calls.saturating_add(call);
        schedule.push(Scheduled { call, keep })?;
        let drive = MemDrive::new(self.alloc, self.drive.capacity(), schedule);
        self.copy(drive, Copied::First(blocks))
    }

    /// A drive with the first `whole` blocks of the medium, and after them for each choice the block that is there or
    /// one of zeros.
    pub fn torn(&self, whole: usize, choices: &[bool]) -> Result<Machine, Trouble> {
        self.copy(
            self.blank_drive(self.drive.capacity()),
            Copied::Torn { whole, choices },
        )
    }

    /// A new engine on this drive, after what is copied of each block was written to it.
    fn copy(&self, drive: MemDrive, copied: Copied<'_>) -> Result<Machine, Trouble> {
        let mut copy = Machine::on(self.alloc, drive);
        for (address, block) in self.drive.journal() {
            if let Some(block) = copied.of(*address, block) {
                copy.burn(&block)?;
            }
        }
        Ok(copy)
    }

    fn blank_drive(&self, capacity: u32) -> MemDrive {
        MemDrive::new(self.alloc, capacity, Vec::new(self.alloc))
    }

    /// Writes a block after the others.
    pub fn burn(&mut self, block: &Block) -> Result<(), Trouble> {
        forget(&mut self.store, &mut self.engine);
        let next = self.drive.next()?;
        if next >= self.drive.capacity() {
            return Err(Trouble::Line("a full drive"));
        }
        self.drive.write(next, &[*block])?;
        Ok(())
    }

    /// Sets a fault of the drive.
    pub fn arm(&mut self, fault: Fault) {
        self.drive.arm(fault);
    }

    /// Forgets all that is not on the medium. An engine takes over.
    pub fn restart(&mut self) {
        forget(&mut self.store, &mut self.engine);
    }

    /// Formats the medium.
    pub fn format(&mut self, label: &str, moment: u64) -> Result<(), Trouble> {
        if moment >= MOMENT_LIMIT {
            return Err(Trouble::Line("no moment"));
        }
        forget(&mut self.store, &mut self.engine);
        Ok(format(self.alloc, &mut self.drive, label, moment)?)
    }

    /// Opens a store, which takes the place of the engine.
    pub fn open(&mut self) -> Result<(), Trouble> {
        forget(&mut self.store, &mut self.engine);
        self.store = Some(Store::open(self.alloc, &mut self.drive)?);
        Ok(())
    }

    /// Appends the answer to a payload.
    pub fn ask(&mut self, payload: &[u8], out: &mut String) -> Result<(), Trouble> {
        let message = read_payload(self.alloc, payload);
        let answer = match self.store.take() {
            Some(mut store) => {
                self.engine = Engine::new();
                let answer = answer(self.alloc, &mut store, &mut self.drive, message);
                self.store = Some(store);
                answer
            }
            None => self.engine.answer(self.alloc, &mut self.drive, message),
        };
        tell_answers(self.alloc, &[answer], out)
    }

    /// Appends the answer to a query about an earlier state.
    pub fn ask_then(
        &mut self,
        snapshot: &Snapshot,
        payload: &[u8],
        out: &mut String,
    ) -> Result<(), Trouble> {
        let Message::Query(query) = read_payload(self.alloc, payload) else {
            return Err(Trouble::Line("no query"));
        };
        let Some(store) = &mut self.store else {
            return Err(NO_STORE);
        };
        let answer = answer_then(self.alloc, store, &mut self.drive, snapshot, &query);
        tell_answers(self.alloc, &[answer], out)
    }

    /// Appends the answers of a new engine to these deliveries.
    pub fn run(&mut self, deliveries: &[Delivery], out: &mut String) -> Result<(), Trouble> {
        forget(&mut self.store, &mut self.engine);
        let answers = run(self.alloc, &mut self.drive, deliveries)?;
        tell_answers(self.alloc, &answers, out)
    }

    /// Answers the messages of a stream.
    pub fn serve(&mut self, reader: Pieces<'_>, writer: &mut Room) -> Result<(), ServeFault> {
        self.store = None;
        serve(
            self.alloc,
            &mut CountedReader::new(reader),
            writer,
            &mut self.engine,
            &mut self.drive,
        )
    }

    /// The state after the commit of this number.
    pub fn as_of(&mut self, commit: u32) -> Result<Snapshot, Trouble> {
        match &self.store {
            Some(store) => Ok(store.as_of(self.alloc, &mut self.drive, commit)?),
            None => Err(NO_STORE),
        }
    }

    /// All commits, the newest first.
    pub fn history(&mut self) -> Result<Vec<Commit>, Trouble> {
        match &self.store {
            Some(store) => Ok(store.history(self.alloc, &mut self.drive)?),
            None => Err(NO_STORE),
        }
    }

    /// Checks that the state after each commit is recovered, and returns how many commits there are.
    pub fn check(&mut self) -> Result<u32, Trouble> {
        match &self.store {
            Some(store) => Ok(store.check(self.alloc, &mut self.drive)?),
            None => Err(NO_STORE),
        }
    }

    /// The greatest number of encoded blocks that the store held at once.
    pub fn most_held(&self) -> Result<usize, Trouble> {
        match &self.store {
            Some(store) => Ok(store.most_held()),
            None => Err(NO_STORE),
        }
    }
}

/// What of a medium is copied to another drive.
#[derive(Clone, Copy)]
enum Copied<'c> {
    All,
    /// All, with one bit of a byte of a block changed.
    Flipped { at: u32, byte: usize },
    /// So many blocks.
    First(usize),
    /// The whole blocks, and by these choices those after them.
    Torn { whole: usize, choices: &'c [bool] },
}

impl Copied<'_> {
    /// What of a block is copied.
    fn of(&self, address: u32, block: &Block) -> Option<Block> {
        match self {
            Copied::All => Some(*block),
            Copied::Flipped { at, byte } if *at == address => Some(flipped(block, *byte)),
            Copied::Flipped { .. } => Some(*block),
            Copied::First(blocks) => ((address as usize) < *blocks).then_some(*block),
            Copied::Torn { whole, choices } => {
                left_of(block, (address as usize).checked_sub(*whole), choices)
            }
        }
    }
}

/// A block of which one bit of a byte is changed, if it has that byte.
fn flipped(block: &Block, byte: usize) -> Block {
    let mut block = *block;
    if let Some(changed) = block.get_mut(byte) {
        *changed ^= 1 << (byte % 8);
    }
    block
}

/// What is left of a block. `after` is its place among those after the whole ones, or `None` if it is one of these.
fn left_of(block: &Block, after: Option<usize>, choices: &[bool]) -> Option<Block> {
    let Some(place) = after else {
        return Some(*block);
    };
    match choices.get(place) {
        Some(true) => Some(*block),
        Some(false) => Some(UNWRITTEN),
        None => None,
    }
}

/// Appends answers as their frames have them.
fn tell_answers(alloc: Global, answers: &[Answer], out: &mut String) -> Result<(), Trouble> {
    let mut frames = Vec::new(alloc);
    for answer in answers {
        encode_answer(answer, &mut frames)?;
    }
    tell(&frames, out)
}

/// Forgets all that is not on a medium. An engine takes over.
fn forget(store: &mut Option<Store>, engine: &mut Engine)
    ensures store { store.new ≡ None }
    ensures engine { engine.new.store ≡ None }
{
    *store = None;
    *engine = Engine::new();
}

/// The answer of a store to a message.
fn answer(alloc: Global, store: &mut Store, drive: &mut MemDrive, message: Message<'_>) -> Answer
    requires { IsStoreOn (journal_of drive.old) (capacity_of drive.old) store.old }
    ensures { IsStoreOn (journal_of drive.new) (capacity_of drive.new) store.new }
{
    match message {
        Message::Malformed(cause) => Answer::Malformed(cause),
        Message::NoMemory => Answer::Memory,
        Message::Request(request) => answer_request(alloc, store, drive, &request),
        Message::Query(query) => answer_now(alloc, store, drive, &query),
    }
}

/// The answer of a store to a request.
fn answer_request(
    alloc: Global,
    store: &mut Store,
    drive: &mut MemDrive,
    request: &Request<'_>,
) -> Answer
    requires { IsStoreOn (journal_of drive.old) (capacity_of drive.old) store.old }
    ensures { IsStoreOn (journal_of drive.new) (capacity_of drive.new) store.new }
{
    match store.due(request.client, request.number) {
        Due::Repeat(reply) => Answer::Reply(reply),
        Due::Stale(latest) => Answer::Stale(latest),
        Due::Gap(latest) => Answer::Gap(latest),
        Due::ClientsFull => Answer::ClientsFull,
        Due::New => match store.apply(alloc, drive, request) {
            Ok(reply) => Answer::Reply(reply),
            Err(fault) => refusal(fault),
        },
    }
}

/// The answer of a store to a query about the newest state.
fn answer_now(alloc: Global, store: &mut Store, drive: &mut MemDrive, query: &Query) -> Answer
    requires { IsStoreOn (journal_of drive.old) (capacity_of drive.old) store.old }
    ensures { IsStoreOn (journal_of drive.new) (capacity_of drive.new) store.new }
{
    match query {
        Query::Get(path) => match store.get(alloc, drive, path) {
            Ok(data) => Answer::Data(data),
            Err(fault) => refusal(fault),
        },
        Query::List(path) => match store.list(alloc, drive, path) {
            Ok(listing) => Answer::Names(listing),
            Err(fault) => refusal(fault),
        },
        Query::Stat(path) => match store.stat(alloc, drive, path) {
            Ok(status) => Answer::Node(status),
            Err(fault) => refusal(fault),
        },
        Query::Read {
            path,
            offset,
            count,
        } => match store.read(alloc, drive, path, *offset, count) {
            Ok(data) => Answer::Data(data),
            Err(fault) => refusal(fault),
        },
    }
}

/// The answer to a query about the snapshot's state.
fn answer_then(
    alloc: Global,
    store: &mut Store,
    drive: &mut MemDrive,
    snapshot: &Snapshot,
    query: &Query,
) -> Answer
    requires { IsStoreOn (journal_of drive.old) (capacity_of drive.old) store.old }
    ensures agrees { IsStoreOn (journal_of drive.new) (capacity_of drive.new) store.new }
    ensures journal { journal_of drive.new ≡ journal_of drive.old }
    ensures capacity { capacity_of drive.new ≡ capacity_of drive.old }
{
    let Ok(next) = drive.next() else {
        return Answer::Fault;
    };
    if snapshot.commit().vat_icb_address > next {
        return Answer::Fault;
    }
    match query {
        Query::Get(path) => match snapshot.get(alloc, store, drive, path) {
            Ok(data) => Answer::Data(data),
            Err(fault) => refusal(fault),
        },
        Query::List(path) => match snapshot.list(alloc, store, drive, path) {
            Ok(listing) => Answer::Names(listing),
            Err(fault) => refusal(fault),
        },
        Query::Stat(path) => match snapshot.stat(alloc, store, drive, path) {
            Ok(status) => Answer::Node(status),
            Err(fault) => refusal(fault),
        },
        Query::Read {
            path,
            offset,
            count,
        } => match snapshot.read(alloc, store, drive, path, *offset, count) {
            Ok(data) => Answer::Data(data),
            Err(fault) => refusal(fault),
        },
    }
}

/// The answer to what a store refuses.
fn refusal(fault: StoreFault) -> Answer {
    match fault {
        StoreFault::Full => Answer::Full,
        StoreFault::NotFound => Answer::NotFound,
        StoreFault::IsDirectory => Answer::IsDirectory,
        StoreFault::NotDirectory => Answer::NotDirectory,
        StoreFault::TooLong => Answer::TooLong,
        StoreFault::Device => Answer::Fault,
        StoreFault::Memory => Answer::Memory,
        _ => Answer::Damaged,
    }
}
