//! A session's medium, lent to its engine.

ghost use Rattle.std.specs.Prelude.{◌≡◌, ◌⊎◌, ◌≤◌, ℕ, ◌++◌, [], length, true, false, Some, None, IsSome, IfSome, IsTrue, IfErr, IfOk, OnOk, OnErr};
ghost use Rattle.drive.specs.Gathering.{KeepsGathering};
ghost use Rattle.drive.specs.Journal.{next_of};
ghost use Rattle.model.specs.Session.{State};
ghost use Rattle.recover.specs.Faults.{IsShortage};
ghost use Rattle.request.specs.Frames.{IsIdle};
ghost use Rattle.settling.specs.Calls.{EndsGathering, begun};
ghost use Rattle.settling.specs.Phases.{two_phases};
ghost use Rattle.store.specs.declared.store.Store.{Store};
ghost use Rattle.engine.specs.declared.engine.Engine.{Engine};
ghost use Rattle.engine.specs.Situation.{HoldsNothing, IsReady, IsOpen};
ghost use Rattle.engine.specs.Steps.{HoldsState};
ghost use Rattle.grouping.specs.OpenGroups.{AnswersNext, IsCutBack};
ghost use Rattle.embedding.specs.declared.fault.Fault.TheVariants as faults;
ghost use Rattle.embedding.specs.Commits.{IsLogged, IsUnlogged};
ghost use Rattle.embedding.specs.StatusCalls.{IsStatusUnknown};
ghost use Rattle.embedding.specs.Statuses.{TellsStatus};
ghost use Rattle.embedding.specs.Media.{seen_by, gathering_on, in_groups, in_memory, journal_on, writes_on, capacity_on, honest_on};
ghost use Rattle.embedding.specs.Replies.{AnsweredBy, AnsweredSomeBy};

use crate::commits::opened_commit;
use crate::fault::Fault;
use crate::medium::Medium;
use crate::questions::opened_status;
use crate::told::{CommitStatus, Status};
use engine::{Engine, answer_held};
use grouping::{GroupFault, OpenGroup, answer_groups_held};
use request::Frames;
use std::alloc::{AllocError, Global};
use store::StoreFault;

/// Answers the messages that are complete, and appends each answer's frame. Those on an image file are answered in
/// groups, and others one by one.
pub(crate) fn answer_on(
    alloc: Global,
    medium: &mut Medium,
    frames: &mut Frames,
    answers: &mut Vec<u8>,
    engine: &mut Engine,
) -> Result<(), AllocError>
    requires { IsReady (seen_by engine.old medium.old) }
    ensures ok { OnOk result (AnsweredBy (in_groups medium.old) frames.old frames.new (seen_by engine.old medium.old) (gathering_on medium.old) (seen_by engine.new medium.new) (gathering_on medium.new)
        (Some answers.old.items) (Some answers.new.items)) }
    ensures idle { OnOk result (IsIdle frames.new) }
    ensures err { OnErr result (AnsweredSomeBy (in_groups medium.old) frames.old frames.new (seen_by engine.old medium.old) (gathering_on medium.old) (seen_by engine.new medium.new) (gathering_on medium.new)
        (Some answers.old.items) (Some answers.new.items)) }
    ensures ready { IsReady (seen_by engine.new medium.new) }
    ensures kind { in_memory medium.new ≡ in_memory medium.old }
    ensures groups { in_groups medium.new ≡ in_groups medium.old }
{
    match medium {
        Medium::Image(drive) => answer_groups_held(alloc, frames, answers, engine, drive),
        Medium::InOrder(drive) => answer_held(alloc, frames, answers, engine, drive),
        Medium::Memory(drive) => answer_held(alloc, frames, answers, engine, drive),
    }
}

/// Begins a group on an image file. Another medium has none.
pub(crate) fn begin_on(alloc: Global, medium: &mut Medium) -> Option<OpenGroup>
    ensures some { in_groups medium.old ≡ true → IsSome result }
    ensures begun { IfSome result (λ group. (group.from ≡ next_of (journal_on medium.old)) × (group.marks.items ≡ []) × (gathering_on medium.new ≡ begun (gathering_on medium.old))) }
    ensures none { in_groups medium.old ≡ false → result ≡ None }
    ensures seen { (engine : Engine) → seen_by engine medium.new ≡ seen_by engine medium.old }
    ensures kind { in_memory medium.new ≡ in_memory medium.old }
    ensures groups { in_groups medium.new ≡ in_groups medium.old }
{
    match medium {
        Medium::Image(drive) => Some(OpenGroup::begin(alloc, drive)),
        Medium::InOrder(_) | Medium::Memory(_) => None,
    }
}

/// Answers the next message, if one is complete, in a group that is open on an image file.
pub(crate) fn answer_next_on(
    alloc: Global,
    group: &mut OpenGroup,
    medium: &mut Medium,
    frames: &mut Frames,
    answers: &mut Vec<u8>,
    engine: &mut Engine,
) -> Result<(), Fault>
    requires { IsReady (seen_by engine.old medium.old) }
    ensures ok { OnOk result (in_groups medium.old ≡ true → AnswersNext frames.old frames.new (seen_by engine.old medium.old) (seen_by engine.new medium.new)
        (Some answers.old.items) (Some answers.new.items) group.old.marks.items group.new.marks.items) }
    ensures waits { OnOk result (in_groups medium.old ≡ true → KeepsGathering (gathering_on medium.old) (gathering_on medium.new) (writes_on medium.old) (writes_on medium.new)) }
    ensures from { group.new.from ≡ group.old.from }
    ensures fault { IfErr result (λ fault. (fault ≡ faults.Device) ⊎ (fault ≡ faults.Memory)) }
    ensures err { OnErr result (in_groups medium.old ≡ true → IsCutBack group.old.from (seen_by engine.old medium.old) (seen_by engine.new medium.new) × ((gathering_on medium.new).gathers ≡ false)) }
    ensures told { OnErr result (answers.new.items ≡ answers.old.items) }
    ensures within { length answers.old.items ≤ length answers.new.items }
    ensures ready { IsReady (seen_by engine.new medium.new) }
    ensures kind { in_memory medium.new ≡ in_memory medium.old }
    ensures groups { in_groups medium.new ≡ in_groups medium.old }
{
    let Medium::Image(drive) = medium else {
        return Ok(());
    };
    match group.answer(alloc, frames, answers, engine, drive) {
        Ok(()) => Ok(()),
        Err(GroupFault::Memory) => Err(Fault::Memory),
        Err(GroupFault::Device) => Err(Fault::Device),
    }
}

/// Settles a group that is open on an image file. `Device` if the disk cannot have it.
pub(crate) fn settle_on(
    group: &OpenGroup,
    medium: &mut Medium,
    engine: &mut Engine,
) -> Result<(), Fault>
    requires { IsReady (seen_by engine.old medium.old) }
    ensures ok { OnOk result (seen_by engine.new medium.new ≡ seen_by engine.old medium.old) }
    ensures given { OnOk result (in_groups medium.old ≡ true → (gathering_on medium.new).phases ≡ (gathering_on medium.old).phases ++ two_phases group.now.from group.now.marks.items (journal_on medium.old)) }
    ensures fault { IfErr result (λ fault. fault ≡ faults.Device) }
    ensures err { OnErr result (IsCutBack group.now.from (seen_by engine.old medium.old) (seen_by engine.new medium.new)) }
    ensures ended { in_groups medium.old ≡ true → EndsGathering (two_phases group.now.from group.now.marks.items (journal_on medium.old)) (gathering_on medium.old) (gathering_on medium.new) }
    ensures ready { IsReady (seen_by engine.new medium.new) }
    ensures kind { in_memory medium.new ≡ in_memory medium.old }
    ensures groups { in_groups medium.new ≡ in_groups medium.old }
{
    let Medium::Image(drive) = medium else {
        return Ok(());
    };
    match group.settle(engine, drive) {
        Ok(()) => Ok(()),
        Err(_) => Err(Fault::Device),
    }
}

/// Takes a group back that is open on an image file.
pub(crate) fn take_back_on(group: &OpenGroup, medium: &mut Medium, engine: &mut Engine)
    requires { IsReady (seen_by engine.old medium.old) }
    ensures back { in_groups medium.old ≡ true → IsCutBack group.now.from (seen_by engine.old medium.old) (seen_by engine.new medium.new) × ((gathering_on medium.new).gathers ≡ false) }
    ensures ready { IsReady (seen_by engine.new medium.new) }
    ensures kind { in_memory medium.new ≡ in_memory medium.old }
    ensures groups { in_groups medium.new ≡ in_groups medium.old }
{
    if let Medium::Image(drive) = medium {
        group.take_back(engine, drive);
    }
}

/// Opens the store if none is open, or if a write failed.
pub(crate) fn open_on(
    alloc: Global,
    medium: &mut Medium,
    engine: &mut Engine,
) -> Result<(), StoreFault>
    requires { IsReady (seen_by engine.old medium.old) }
    ensures open { OnOk result ((store : Store) × IsOpen (seen_by engine.new medium.new) store) }
    ensures holds { (volume : ℕ) (S : State) → IsTrue (honest_on medium.new) → HoldsState volume S (seen_by engine.old medium.old) → HoldsState volume S (seen_by engine.new medium.new) }
    ensures short { (volume : ℕ) (S : State) → IsTrue (honest_on medium.new) → HoldsState volume S (seen_by engine.old medium.old) → IfErr result IsShortage }
    ensures nothing { IsTrue (honest_on medium.new) → HoldsNothing (seen_by engine.old medium.old) → OnOk result ⊥ }
    ensures shut { OnErr result ((kept : Store) → IsOpen (seen_by engine.old medium.old) kept → ⊥) }
    ensures journal { journal_on medium.new ≡ journal_on medium.old }
    ensures writes { writes_on medium.new ≡ writes_on medium.old }
    ensures capacity { capacity_on medium.new ≡ capacity_on medium.old }
    ensures honest { IsTrue (honest_on medium.new) → IsTrue (honest_on medium.old) }
    ensures ready { IsReady (seen_by engine.new medium.new) }
    ensures kind { in_memory medium.new ≡ in_memory medium.old }
{
    match medium {
        Medium::Image(drive) => engine.open(alloc, drive),
        Medium::InOrder(drive) => engine.open(alloc, drive),
        Medium::Memory(drive) => engine.open(alloc, drive),
    }
}

/// The state of the volume, by the engine's store, which is opened if none is open.
pub(crate) fn status_by(
    alloc: Global,
    medium: &mut Medium,
    engine: &mut Engine,
) -> Result<Status, StoreFault>
    requires { IsReady (seen_by engine.old medium.old) }
    ensures reported { IfOk result (λ told. (store : Store) × IsOpen (seen_by engine.new medium.new) store × TellsStatus (journal_on medium.new) (honest_on medium.new) store told) }
    ensures refused { IfErr result (λ fault. IsStatusUnknown fault (seen_by engine.old medium.old) (seen_by engine.new medium.new)) }
    ensures holds { (volume : ℕ) (S : State) → IsTrue (honest_on medium.new) → HoldsState volume S (seen_by engine.old medium.old) → HoldsState volume S (seen_by engine.new medium.new) }
    ensures journal { journal_on medium.new ≡ journal_on medium.old }
    ensures writes { writes_on medium.new ≡ writes_on medium.old }
    ensures capacity { capacity_on medium.new ≡ capacity_on medium.old }
    ensures honest { IsTrue (honest_on medium.new) → IsTrue (honest_on medium.old) }
    ensures ready { IsReady (seen_by engine.new medium.new) }
    ensures kind { in_memory medium.new ≡ in_memory medium.old }
{
    match medium {
        Medium::Image(drive) => opened_status(alloc, engine, drive),
        Medium::InOrder(drive) => opened_status(alloc, engine, drive),
        Medium::Memory(drive) => opened_status(alloc, engine, drive),
    }
}

/// The newest commit if `after` is 0, and otherwise the one before that whose VAT ICB is at the address `after`.
pub(crate) fn commit_by(
    alloc: Global,
    medium: &mut Medium,
    engine: &mut Engine,
    after: u32,
) -> Result<CommitStatus, StoreFault>
    requires { IsReady (seen_by engine.old medium.old) }
    ensures reported { IfOk result (λ told. IsLogged after told (seen_by engine.new medium.new)) }
    ensures refused { IfErr result (λ fault. IsUnlogged after fault (seen_by engine.old medium.old) (seen_by engine.new medium.new)) }
    ensures holds { (volume : ℕ) (S : State) → IsTrue (honest_on medium.new) → HoldsState volume S (seen_by engine.old medium.old) → HoldsState volume S (seen_by engine.new medium.new) }
    ensures journal { journal_on medium.new ≡ journal_on medium.old }
    ensures writes { writes_on medium.new ≡ writes_on medium.old }
    ensures capacity { capacity_on medium.new ≡ capacity_on medium.old }
    ensures honest { IsTrue (honest_on medium.new) → IsTrue (honest_on medium.old) }
    ensures ready { IsReady (seen_by engine.new medium.new) }
    ensures kind { in_memory medium.new ≡ in_memory medium.old }
{
    match medium {
        Medium::Image(drive) => opened_commit(alloc, engine, drive, after),
        Medium::InOrder(drive) => opened_commit(alloc, engine, drive, after),
        Medium::Memory(drive) => opened_commit(alloc, engine, drive, after),
    }
}
