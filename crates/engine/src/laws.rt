//! What holds of an engine's steps. Nothing here runs: each function's contract is a law.

ghost use Rattle.engine.specs.Called.{CallsAreSteps, RestartsAreSteps};
ghost use Rattle.engine.specs.Headline.{RunsAreHeld, RunsBegin, RunsGoOn};
ghost use Rattle.engine.specs.Lives.{CutsJoin};
ghost use Rattle.engine.specs.Losses.{LossesReach, RunsReach, ServedReach};
ghost use Rattle.engine.specs.Steps.{StepsHold};
ghost use Rattle.engine.specs.Withstanding.{WritesAreTheirOwn, WritesBegin};

/// On an honest drive, what an engine does with its store's calls is a step of a run of the medium.
pub fn calls_are_steps()
    ensures messages { CallsAreSteps }
    ensures restarts { RestartsAreSteps }
{}

/// After such steps, each prefix of the journal recovers to the state after the first N of the committed requests, for
/// some N.
pub fn steps_hold()
    ensures { StepsHold }
{}

/// A run begins on a medium with a recovered state, and continues with each delivery. What it wrote holds its commits.
pub fn runs_hold()
    ensures begin { RunsBegin }
    ensures more { RunsGoOn }
    ensures held { RunsAreHeld }
{}

/// A power loss during a delivery of a run, or during a message of a stream, loses no earlier commit. The medium
/// recovers to the state after those commits, or after those and the new request that was under way. Runs may be cut
/// off in this way one after another, however many: each one starts from the state after all that was committed. So
/// runs of which different laws tell may follow each other.
pub fn losses_are_survived()
    ensures runs { RunsReach }
    ensures streams { ServedReach }
    ensures losses { LossesReach }
    ensures joined { CutsJoin }
{}

/// What a power loss leaves of a write counts from where that write began: the journal then had all writes before it. Where
/// a write was cut short, no account of the messages gives its message a write that was made for the next one.
pub fn writes_are_in_turn()
    ensures begin { WritesBegin }
    ensures own { WritesAreTheirOwn }
{}
