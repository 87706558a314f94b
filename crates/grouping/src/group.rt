//! Groups of messages.

ghost use Rattle.std.specs.Prelude.{◌≡◌, ◌++◌, ℕ, List, Some, None, [], take, OnOk, OnErr};
ghost use Rattle.drive.specs.Journal.{next_of};
ghost use Rattle.drive.specs.Reads.{ReadsAndWrites, one_if};
ghost use Rattle.request.specs.Answers.{answer_frame};
ghost use Rattle.request.specs.Frames.{IsIdle};
ghost use Rattle.settling.specs.Calls.{IsUntouched};
ghost use Rattle.engine.specs.declared.serving.ServeFault.TheVariants.{Memory};
ghost use Rattle.engine.specs.Situation.{AddsBlocks, IsReady, seen_on, situation_on};
ghost use Rattle.engine.specs.Answered.{faults};
ghost use Rattle.engine.specs.Served.{Answering, AnswersSome};
ghost use Rattle.grouping.specs.Groups.{GroupTold, GroupUntold, MaySettle, mark_between};
ghost use Rattle.grouping.specs.Steps.{Gathers};

use drive::Drive;
use engine::{Engine, answer_held};
use request::{Answer, Frames, encode_answer};
use settling::Settles;
use std::alloc::{AllocError, Global};

/// A group ends after so many commits.
pub(crate) const GROUP_COMMITS: usize = 64;

/// A group ends after so many bytes of answers.
const GROUP_BYTES: usize = 65_536;

/// Answers the next messages that are complete, at least one, and appends each answer's frame. The messages are a
/// group: the disk has what all of them wrote before this returns. If it cannot have it, all complete messages are
/// answered one by one. If there is no memory for a frame, only those before it are appended, and no further message is
/// answered. The message whose frame is missing was carried out all the same.
pub fn answer_group<D: Settles>(
    alloc: Global,
    frames: &mut Frames,
    answers: &mut Vec<u8>,
    engine: &mut Engine,
    drive: &mut D,
) -> Result<(), AllocError>
    requires { IsReady (seen_on D.Drive engine.old drive.old) }
    ensures ok { OnOk result (GroupTold frames.old frames.new (seen_on D.Drive engine.old drive.old) (D.gathering drive.old) (seen_on D.Drive engine.new drive.new) (D.gathering drive.new)
        (Some answers.old.items) (Some answers.new.items)) }
    ensures err { OnErr result (GroupUntold frames.old frames.new (seen_on D.Drive engine.old drive.old) (D.gathering drive.old) (seen_on D.Drive engine.new drive.new) (D.gathering drive.new)
        (Some answers.old.items) (Some answers.new.items)) }
    ensures ready { IsReady (seen_on D.Drive engine.new drive.new) }
    ensures lent { MaySettle D.Drive 0 drive.old drive.new }
{
    let from = drive.count();
    let Ok(copy) = frames.copy() else {
        drive.take_back(from, &[]);
        return answer_held(alloc, frames, answers, engine, drive);
    };
    let told = answers.len();
    let mut marks = Vec::new(alloc);
    drive.gather();
    let gathered = gather(alloc, frames, answers, &mut marks, engine, drive);
    let Some(outcome) = gathered else {
        drive.take_back(from, &marks);
        return answer_again(alloc, frames, copy, answers, told, engine, drive);
    };
    if drive.settle(from, &marks).is_err() {
        return answer_again(alloc, frames, copy, answers, told, engine, drive);
    }
    outcome
}

/// Answers messages until the group is long enough, each on the medium that those before it left, and tells the drive
/// where the commits end. If this is `None`, the group has to be taken back.
fn gather<D: Settles>(
    alloc: Global,
    frames: &mut Frames,
    answers: &mut Vec<u8>,
    marks: &mut Vec<u32>,
    engine: &mut Engine,
    drive: &mut D,
) -> Option<Result<(), AllocError>>
    requires ready { IsReady (seen_on D.Drive engine.old drive.old) }
    requires none { marks.old.items ≡ [] }
    ensures gathers { Gathers result frames.old frames.new (seen_on D.Drive engine.old drive.old) (seen_on D.Drive engine.new drive.new)
        (Some answers.old.items) (Some answers.new.items) marks.new.items }
    ensures held { (more : List ℕ) × (answers.new.items ≡ answers.old.items ++ more) }
    ensures follows { AddsBlocks (seen_on D.Drive engine.old drive.old) (seen_on D.Drive engine.new drive.new) }
    ensures lent { ReadsAndWrites D.Drive 0 drive.old drive.new }
{
    let told = answers.len();
    while let Some(message) = frames.first() {
        let before = drive.count();
        let answer = engine.answer(alloc, drive, message);
        frames.skip();
        if is_fault(&answer) {
            return None;
        }
        if end_commit(drive, marks, before).is_err() {
            return None;
        }
        if encode_answer(&answer, answers).is_err() {
            return Some(Err(AllocError));
        }
        if is_full(marks.len(), answers.len().saturating_sub(told)) {
            return Some(Ok(()));
        }
    }
    Some(Ok(()))
}

/// Whether no further message comes to the group.
fn is_full(commits: usize, bytes: usize) -> bool {
    commits >= GROUP_COMMITS || bytes >= GROUP_BYTES
}

/// Whether the drive failed.
pub(crate) fn is_fault(answer: &Answer) -> bool
    ensures { faults answer.now ≡ one_if result }
{
    matches!(answer, Answer::Fault)
}

/// If blocks came after the first `before`, the last of them is a mark. It is a failure if there is no memory for it.
pub(crate) fn end_commit<D: Settles>(
    drive: &mut D,
    marks: &mut Vec<u32>,
    before: u32,
) -> Result<(), AllocError>
    ensures ok { OnOk result (marks.new.items ≡ marks.old.items ++ mark_between before (next_of (D.journal drive.old))) }
    ensures untouched { IsUntouched D.Drive drive.old drive.new }
    ensures gathering { D.gathering drive.new ≡ D.gathering drive.old }
{
    let after = drive.count();
    if after <= before {
        return Ok(());
    }
    drive.end_commit();
    marks.push(after - 1)?;
    Ok(())
}

/// Answers the messages one by one, from where a group began that was taken back.
fn answer_again<D: Settles>(
    alloc: Global,
    frames: &mut Frames,
    copy: Frames,
    answers: &mut Vec<u8>,
    told: usize,
    engine: &mut Engine,
    drive: &mut D,
) -> Result<(), AllocError>
    ensures ok { OnOk result (Answering copy frames.new (situation_on D.Drive None drive.old) (seen_on D.Drive engine.new drive.new)
        (Some (take told answers.old.items)) (Some answers.new.items)) }
    ensures idle { OnOk result (IsIdle frames.new) }
    ensures err { OnErr result (AnswersSome Memory copy frames.new (situation_on D.Drive None drive.old) (seen_on D.Drive engine.new drive.new)
        (Some (take told answers.old.items)) (Some answers.new.items)) }
    ensures ready { IsReady (seen_on D.Drive engine.new drive.new) }
    ensures lent { ReadsAndWrites D.Drive 0 drive.old drive.new }
{
    answers.truncate(told);
    *frames = copy;
    *engine = Engine::new();
    answer_held(alloc, frames, answers, engine, drive)
}
