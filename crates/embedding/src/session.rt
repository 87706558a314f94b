//! A volume that is open for a caller in C: what it is on, the engine that answers, and what was not taken yet.

ghost use Rattle.std.specs.Prelude.{◌≤◌, vec_len};
ghost use Rattle.engine.specs.Situation.{IsReady};
ghost use Rattle.embedding.specs.Media.{seen_by};
ghost use Rattle.embedding.specs.Ready.{ready_prop};

use crate::fault::{Fault, fault_of};
use crate::lending::{
    answer_next_on, answer_on, begin_on, commit_by, open_on, settle_on, status_by, take_back_on,
};
use crate::medium::{Medium, medium_under};
use crate::questions::last_of;
use crate::told::{CommitStatus, Status};
use crate::volumes::format_memory;
use drive::MemDrive;
use engine::Engine;
use grouping::OpenGroup;
use limits::Block;
use request::Frames;
use std::alloc::Global;

/// The session that a handle leads to.
#[derive(Drop)]
pub struct Session {
    pub(crate) alloc: Global,
    pub(crate) medium: Medium,
    pub(crate) engine: Engine,
    pub(crate) frames: Frames,
    /// The frames of the answers, of which some bytes at the beginning were taken.
    pub(crate) answers: Vec<u8>,
    pub(crate) taken: usize,
    /// How many blocks of a volume in memory were taken.
    pub(crate) given: usize,
    /// Why no further message is answered.
    pub(crate) ended: Option<Fault>,
    /// The group that is open: its messages are answered, but the disk need not have them yet.
    pub(crate) group: Option<OpenGroup>,
    ghost within: { taken ≤ vec_len answers },
    ghost ready: { IsReady (seen_by engine medium) } by { ready_prop engine medium },
}

impl Session {
    ghost use Rattle.std.specs.Prelude.{◌≡◌, ◌≤◌, Some, None, [], length, IfErr, IfOk, OnOk};
    ghost use Rattle.request.specs.Frames.{fed};
    ghost use Rattle.embedding.specs.Calls.{Ended};
    ghost use Rattle.embedding.specs.Grouped.{AddsNext, AddsToGroup, AnswersInGroup, BeginsGroup, FailsToAnswer, FailsToSettle, LosesGroup, SettlesGroup, TakesGroupBack, TurnsOver, shown};
    ghost use Rattle.embedding.specs.Sessions.{seen, waiting, SameSession, AnswersMessages, StopsBy, AnswersStream, Took, Shows, GivesOneBlock};
    ghost use Rattle.embedding.specs.Media.{seen_by, in_memory};
    ghost use Rattle.embedding.specs.Commits.{CommitIs};
    ghost use Rattle.embedding.specs.Opens.{Opened, RefusesToOpen, OpensSession, OpensFile, OpensMemory};
    ghost use Rattle.embedding.specs.Questions.{Asked, Refused, TellsNumber};
    ghost use Rattle.embedding.specs.StatusCalls.{StatusIs};
    ghost use Rattle.engine.specs.Situation.{IsOpen};
    ghost use Rattle.store.specs.declared.store.Store.{Store};

    /// A session on a medium, whose volume is opened.
    pub(crate) fn open(alloc: Global, medium: Medium) -> Result<Session, Fault>
        ensures { OpensSession medium result }
    {
        let mut medium = medium;
        let mut engine = Engine::new();
        match open_on(alloc, &mut medium, &mut engine) {
            Ok(()) => Ok(Session::of(alloc, medium, engine)),
            Err(fault) => Err(fault_of(fault)),
        }
    }

    /// Opens the volume on the file of a descriptor, or on a drive that is written in order alone, in place of what the
    /// session held. If this is refused, the descriptor is closed, and the session stays as it was.
    pub fn open_file(&mut self, fd: i32, is_in_order: bool) -> Result<(), Fault>
        ensures { OpensFile is_in_order result self.old self.new }
    {
        match medium_under(self.alloc, fd, is_in_order) {
            Ok(medium) => self.turn_to(medium),
            Err(fault) => Err(fault),
        }
    }

    /// Opens a new volume in memory, in place of what the session held. If this is refused, the session stays as it
    /// was.
    pub fn open_memory(&mut self, label: &[u8], moment: u64, capacity: u32) -> Result<(), Fault>
        ensures { OpensMemory label.now moment capacity result self.old self.new }
    {
        match format_memory(self.alloc, label, moment, capacity) {
            Ok(drive) => self.turn_to(Medium::Memory(drive)),
            Err(fault) => Err(fault),
        }
    }

    /// Opens the volume on a medium, in place of what the session held.
    fn turn_to(&mut self, medium: Medium) -> Result<(), Fault>
        ensures opened { OnOk result (Opened medium self.new) }
        ensures refused { IfErr result (λ fault. RefusesToOpen medium fault × (self.new ≡ self.old)) }
    {
        match Session::open(self.alloc, medium) {
            Ok(session) => {
                *self = session;
                Ok(())
            }
            Err(fault) => Err(fault),
        }
    }

    /// A session that holds nothing, and refuses each message.
    pub(crate) fn ended(alloc: Global) -> Session
        ensures { Ended result }
    {
        Session {
            alloc,
            medium: Medium::Memory(MemDrive::new(alloc, 0, Vec::new(alloc))),
            engine: Engine::new(),
            frames: Frames::new(alloc),
            answers: Vec::new(alloc),
            taken: 0,
            given: 0,
            ended: Some(Fault::Device),
            group: None,
        }
    }

    /// A session that was sent nothing yet, with an engine that is ready on a medium.
    fn of(alloc: Global, medium: Medium, engine: Engine) -> Session
        requires { IsReady (seen_by engine medium) }
        ensures medium { result.medium ≡ medium }
        ensures engine { result.engine ≡ engine }
        ensures frames { result.frames ≡ Some [] }
        ensures waiting { waiting result ≡ [] }
        ensures given { result.given ≡ 0 }
        ensures ended { result.ended ≡ None }
        ensures group { result.group ≡ None }
    {
        Session {
            alloc,
            medium,
            engine,
            frames: Frames::new(alloc),
            answers: Vec::new(alloc),
            taken: 0,
            given: 0,
            ended: None,
            group: None,
        }
    }

    /// Takes bytes of the stream of messages, and answers the messages that are complete. Their answers wait after
    /// those that wait already. A refusal ends the stream: each later call is refused with the same fault, and takes
    /// nothing.
    ///
    /// While a group is open the next message alone is answered, in the group. A refusal takes the group back, and does
    /// not end the stream.
    pub fn answer(&mut self, bytes: &[u8]) -> Result<(), Fault>
        ensures stream { AnswersStream result bytes.now self.old self.new }
        ensures group { AddsToGroup result bytes.now self.old self.new }
    {
        if let Some(fault) = self.ended {
            return Err(fault);
        }
        if let Some(group) = self.group.take() {
            return self.answer_in_group(group, bytes);
        }
        let outcome = self.take_in(bytes);
        if let Err(fault) = outcome {
            self.ended = Some(fault);
        }
        outcome
    }

    /// Begins a group on an image file, unless one is open: from now on the disk need not have what is answered before
    /// `settle`. On another medium nothing changes.
    pub fn begin(&mut self)
        ensures { BeginsGroup self.old self.new }
    {
        if self.group.is_none() {
            self.group = begin_on(self.alloc, &mut self.medium);
        }
    }

    /// Gives the disk what the open group has, and ends it. `Device` if the disk cannot have it: then nothing of the group
    /// is there, as if its messages had not come.
    pub fn settle(&mut self) -> Result<(), Fault>
        ensures { SettlesGroup result self.old self.new }
    {
        match self.group.take() {
            Some(group) => settle_on(&group, &mut self.medium, &mut self.engine),
            None => Ok(()),
        }
    }

    /// Ends the open group as if its messages had not come.
    pub fn take_back(&mut self)
        ensures { TakesGroupBack self.old self.new }
    {
        if let Some(group) = self.group.take() {
            take_back_on(&group, &mut self.medium, &mut self.engine);
        }
    }

    /// Takes bytes of the stream of messages, and answers the next message, if one is complete, in the group that was open,
    /// or in another one where that is full: it is settled before. After a fault no group is open: what was not settled
    /// was taken back. The stream goes on.
    fn answer_in_group(&mut self, group: OpenGroup, bytes: &[u8]) -> Result<(), Fault>
        requires { self.old.group ≡ None }
        ensures ok { OnOk result (AddsNext group (fed self.old.frames bytes.now) (shown self.old) (shown self.new) self.new.group) }
        ensures err { IfErr result (λ fault. LosesGroup fault group (fed self.old.frames bytes.now) (shown self.old) (shown self.new) self.new.group) }
        ensures ended { self.new.ended ≡ self.old.ended }
        ensures given { self.new.given ≡ self.old.given }
        ensures kind { in_memory self.new.medium ≡ in_memory self.old.medium }
    {
        if self.frames.feed(bytes).is_err() {
            take_back_on(&group, &mut self.medium, &mut self.engine);
            return Err(Fault::Memory);
        }
        let turned = match self.turn_over(group) {
            Ok(turned) => turned,
            Err(fault) => return Err(fault),
        };
        match self.answer_next(turned) {
            Ok(added) => {
                self.group = Some(added);
                Ok(())
            }
            Err(fault) => Err(fault),
        }
    }

    /// The group of the next message: this one, or another one if this one is full, which is then settled. If the disk
    /// cannot have it, the message is left out.
    fn turn_over(&mut self, group: OpenGroup) -> Result<OpenGroup, Fault>
        ensures ok { IfOk result (λ turned. TurnsOver group turned (shown self.old) (shown self.new)) }
        ensures err { IfErr result (λ fault. FailsToSettle fault group (shown self.old) (shown self.new)) }
        ensures ended { self.new.ended ≡ self.old.ended }
        ensures group { self.new.group ≡ self.old.group }
        ensures given { self.new.given ≡ self.old.given }
        ensures kind { in_memory self.new.medium ≡ in_memory self.old.medium }
    {
        if !group.is_full() {
            return Ok(group);
        }
        if let Err(fault) = settle_on(&group, &mut self.medium, &mut self.engine) {
            self.frames.skip();
            return Err(fault);
        }
        match begin_on(self.alloc, &mut self.medium) {
            Some(other) => Ok(other),
            None => Ok(group),
        }
    }

    /// Answers the next message, if one is complete, in a group.
    fn answer_next(&mut self, group: OpenGroup) -> Result<OpenGroup, Fault>
        ensures ok { IfOk result (λ added. AnswersInGroup group added (shown self.old) (shown self.new)) }
        ensures err { IfErr result (λ fault. FailsToAnswer fault group (shown self.old) (shown self.new)) }
        ensures ended { self.new.ended ≡ self.old.ended }
        ensures group { self.new.group ≡ self.old.group }
        ensures given { self.new.given ≡ self.old.given }
        ensures kind { in_memory self.new.medium ≡ in_memory self.old.medium }
    {
        let mut group = group;
        match answer_next_on(
            self.alloc,
            &mut group,
            &mut self.medium,
            &mut self.frames,
            &mut self.answers,
            &mut self.engine,
        ) {
            Ok(()) => Ok(group),
            Err(fault) => Err(fault),
        }
    }

    /// Takes bytes of the stream of messages, and answers the messages that are complete. `Memory` if there is none,
    /// and `TooLong` if a frame is longer than a frame may be.
    fn take_in(&mut self, bytes: &[u8]) -> Result<(), Fault>
        ensures ok { OnOk result (AnswersMessages bytes.now self.old self.new) }
        ensures err { IfErr result (λ fault. StopsBy fault bytes.now self.old self.new) }
        ensures ended { self.new.ended ≡ self.old.ended }
        ensures given { self.new.given ≡ self.old.given }
        ensures group { self.new.group ≡ self.old.group }
        ensures kind { in_memory self.new.medium ≡ in_memory self.old.medium }
    {
        if self.frames.feed(bytes).is_err() {
            return Err(Fault::Memory);
        }
        let told = answer_on(
            self.alloc,
            &mut self.medium,
            &mut self.frames,
            &mut self.answers,
            &mut self.engine,
        );
        if told.is_err() {
            return Err(Fault::Memory);
        }
        if self.frames.is_over() {
            return Err(Fault::TooLong);
        }
        Ok(())
    }

    /// How many bytes of answers wait.
    pub fn answered(&self) -> usize
        ensures { result ≡ length (waiting self.now) }
    {
        self.answers.len() - self.taken
    }

    /// Moves the first bytes of the answers that wait to `into`, as many as there are and have room. Returns how many.
    pub fn take(&mut self, into: &mut [u8]) -> usize
        ensures { Took self.old into.old result self.new into.new }
    {
        let count = into.len().min(self.answers.len() - self.taken);
        into[..count].copy_from_slice(&self.answers[self.taken..self.taken + count]);
        self.taken += count;
        self.close_up();
        count
    }

    /// Moves what waits to the beginning, if at least as many bytes were taken. So all moves together cost no more than
    /// the bytes that were taken.
    fn close_up(&mut self)
        ensures waits { waiting self.new ≡ waiting self.old }
        ensures same { SameSession self.old self.new }
        ensures given { self.new.given ≡ self.old.given }
        ensures medium { self.new.medium ≡ self.old.medium }
    {
        let left = self.answers.len() - self.taken;
        if self.taken >= left {
            self.answers.copy_within(self.taken.., 0);
            self.answers.truncate(left);
            self.taken = 0;
        }
    }

    /// Copies the first block that was written in memory and not taken yet, and its address. Returns whether there is
    /// one.
    pub fn next_block(&self, address: &mut u32, block: &mut Block) -> bool
        ensures { Shows self.now result (address.old, block.old) (address.new, block.new) }
    {
        let Medium::Memory(drive) = &self.medium else {
            return false;
        };
        match drive.journal().get(self.given) {
            Some(written) => {
                *address = written.0;
                *block = written.1;
                true
            }
            None => false,
        }
    }

    /// Counts the block that `next_block` copies as taken. Returns whether there was one.
    pub fn took(&mut self) -> bool
        ensures { GivesOneBlock self.old result self.new }
    {
        let Medium::Memory(drive) = &self.medium else {
            return false;
        };
        if self.given >= drive.journal().len() {
            return false;
        }
        self.given += 1;
        true
    }

    /// Opens the volume if it is not open, or if a write failed.
    fn look(&mut self) -> Result<(), Fault>
        ensures asked { Asked self.old self.new }
        ensures kept { OnOk result ((store : Store) × IsOpen (seen self.new) store) }
        ensures refused { IfErr result (λ fault. Refused fault self.old self.new) }
    {
        match open_on(self.alloc, &mut self.medium, &mut self.engine) {
            Ok(()) => Ok(()),
            Err(fault) => Err(fault_of(fault)),
        }
    }

    /// The number of the last request of a client, or 0 if the volume does not know it.
    pub fn last_number(&mut self, client: u64) -> Result<u64, Fault>
        ensures reports { TellsNumber client result self.old self.new }
        ensures asked { Asked self.old self.new }
    {
        if let Err(fault) = self.look() {
            return Err(fault);
        }
        let store = self.engine.store().unwrap();
        Ok(last_of(&store.newest().sessions.records, client))
    }

    /// The state of the volume, and how far it is written. If this is refused, `told` stays as it was.
    pub fn status(&mut self, told: &mut Status) -> Result<(), Fault>
        ensures status { StatusIs result told.old told.new self.old self.new }
        ensures asked { Asked self.old self.new }
    {
        match status_by(self.alloc, &mut self.medium, &mut self.engine) {
            Ok(found) => {
                *told = found;
                Ok(())
            }
            Err(fault) => Err(fault_of(fault)),
        }
    }

    /// The newest commit if `after` is 0, and otherwise the one before that whose VAT ICB is at the address `after`. If
    /// this is refused, `told` stays as it was.
    pub fn commit_before(&mut self, after: u32, told: &mut CommitStatus) -> Result<(), Fault>
        ensures commit { CommitIs after result told.old told.new self.old self.new }
        ensures asked { Asked self.old self.new }
    {
        match commit_by(self.alloc, &mut self.medium, &mut self.engine, after) {
            Ok(found) => {
                *told = found;
                Ok(())
            }
            Err(fault) => Err(fault_of(fault)),
        }
    }

    /// Drops all that the session holds, so that a file is closed and unlocked, and no memory is kept.
    pub fn end(&mut self)
        ensures { Ended self.new }
    {
        *self = Session::ended(self.alloc);
    }
}
