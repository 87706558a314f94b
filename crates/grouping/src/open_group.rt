//! A group that stays open between calls: each message is answered at once, and the disk has them when the group is settled.

use crate::group::{GROUP_COMMITS, end_commit, is_fault};
use drive::DriveFault;
use engine::Engine;
use request::{Frames, encode_answer};
use settling::Settles;
use std::alloc::Global;

/// A group that is open.
#[derive(Drop)]
pub struct OpenGroup {
    /// How many blocks there were when it began.
    pub from: u32,
    /// The last blocks of its commits.
    pub marks: Vec<u32>,
}

/// Why a group was taken back.
#[derive(Clone, Copy, Debug, PartialEq, Eq)]
pub enum GroupFault {
    /// There was no memory for an answer's frame or for a mark.
    Memory,
    /// The drive failed.
    Device,
}

impl OpenGroup {
    ghost use Rattle.std.specs.Prelude.{◌≡◌, ◌≤◌, ◌↔◌, ◌++◌, [], ◌∷◌, Some, false, drop, vec_len, IsTrue, OnOk, OnErr};
    ghost use Rattle.drive.specs.Gathering.{KeepsGathering};
    ghost use Rattle.drive.specs.Journal.{next_of};
    ghost use Rattle.settling.specs.Calls.{EndsGathering, IsUntouched, begun};
    ghost use Rattle.settling.specs.Phases.{blanked, two_phases};
    ghost use Rattle.engine.specs.Situation.{IsReady, seen_on};
    ghost use Rattle.grouping.specs.Groups.{MaySettle};
    ghost use Rattle.grouping.specs.OpenGroups.{AnswersNext, IsCutBack};

    /// From now on what is written waits until the group is settled.
    pub fn begin<D: Settles>(alloc: Global, drive: &mut D) -> OpenGroup
        ensures from { result.from ≡ next_of (D.journal drive.old) }
        ensures none { result.marks.items ≡ [] }
        ensures gathering { D.gathering drive.new ≡ begun (D.gathering drive.old) }
        ensures untouched { IsUntouched D.Drive drive.old drive.new }
    {
        let from = drive.count();
        drive.gather();
        OpenGroup {
            from,
            marks: Vec::new(alloc),
        }
    }

    /// Whether no further message comes to the group.
    pub fn is_full(&self) -> bool
        ensures { IsTrue result ↔ (64 ≤ vec_len self.now.marks) }
    {
        self.marks.len() >= GROUP_COMMITS
    }

    /// Answers the next message, if one is complete, on the medium that those before it left, and appends its answer's
    /// frame. If that cannot be done, the group is taken back, and no frame is appended.
    pub fn answer<D: Settles>(
        &mut self,
        alloc: Global,
        frames: &mut Frames,
        answers: &mut Vec<u8>,
        engine: &mut Engine,
        drive: &mut D,
    ) -> Result<(), GroupFault>
        requires { IsReady (seen_on D.Drive engine.old drive.old) }
        ensures ok { OnOk result (AnswersNext frames.old frames.new (seen_on D.Drive engine.old drive.old) (seen_on D.Drive engine.new drive.new)
            (Some answers.old.items) (Some answers.new.items) self.old.marks.items self.new.marks.items) }
        ensures waits { OnOk result (KeepsGathering (D.gathering drive.old) (D.gathering drive.new) (D.writes drive.old) (D.writes drive.new)) }
        ensures from { self.new.from ≡ self.old.from }
        ensures err { OnErr result (IsCutBack self.old.from (seen_on D.Drive engine.old drive.old) (seen_on D.Drive engine.new drive.new)) }
        ensures ended { OnErr result ((D.gathering drive.new).gathers ≡ false) }
        ensures told { OnErr result (answers.new.items ≡ answers.old.items) }
        ensures ready { IsReady (seen_on D.Drive engine.new drive.new) }
        ensures lent { MaySettle D.Drive 0 drive.old drive.new }
    {
        let Some(message) = frames.first() else {
            return Ok(());
        };
        let before = drive.count();
        let answer = engine.answer(alloc, drive, message);
        frames.skip();
        if is_fault(&answer) {
            self.take_back(engine, drive);
            return Err(GroupFault::Device);
        }
        if end_commit(drive, &mut self.marks, before).is_err() {
            self.take_back(engine, drive);
            return Err(GroupFault::Memory);
        }
        if encode_answer(&answer, answers).is_err() {
            self.take_back(engine, drive);
            return Err(GroupFault::Memory);
        }
        Ok(())
    }

    /// Gives the disk what the group has, which ends it. If the disk cannot have it, the group is taken back.
    pub fn settle<D: Settles>(&self, engine: &mut Engine, drive: &mut D) -> Result<(), DriveFault>
        requires { IsReady (seen_on D.Drive engine.old drive.old) }
        ensures ok { OnOk result (seen_on D.Drive engine.new drive.new ≡ seen_on D.Drive engine.old drive.old) }
        ensures given { OnOk result ((D.gathering drive.new).phases ≡ (D.gathering drive.old).phases ++ two_phases self.now.from self.now.marks.items (D.journal drive.old)) }
        ensures err { OnErr result (IsCutBack self.now.from (seen_on D.Drive engine.old drive.old) (seen_on D.Drive engine.new drive.new)) }
        ensures ended { EndsGathering (two_phases self.now.from self.now.marks.items (D.journal drive.old)) (D.gathering drive.old) (D.gathering drive.new) }
        ensures ready { IsReady (seen_on D.Drive engine.new drive.new) }
        ensures lent { MaySettle D.Drive 0 drive.old drive.new }
    {
        if drive.settle(self.from, &self.marks).is_err() {
            *engine = Engine::new();
            return Err(DriveFault);
        }
        Ok(())
    }

    /// Takes the group back, as if its messages had not come.
    pub fn take_back<D: Settles>(&self, engine: &mut Engine, drive: &mut D)
        ensures back { IsCutBack self.now.from (seen_on D.Drive engine.old drive.old) (seen_on D.Drive engine.new drive.new) }
        ensures ended { EndsGathering (blanked self.now.marks.items (drop self.now.from (D.journal drive.old)) ∷ []) (D.gathering drive.old) (D.gathering drive.new) }
        ensures ready { IsReady (seen_on D.Drive engine.new drive.new) }
        ensures lent { MaySettle D.Drive 0 drive.old drive.new }
    {
        drive.take_back(self.from, &self.marks);
        *engine = Engine::new();
    }
}
