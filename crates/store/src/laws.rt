//! What holds of what a store shows. Nothing here runs: each function's contract is a law.

ghost use Rattle.store.specs.Past.{SnapshotsStay};

/// What was shown of a state still holds after all later writes: a snapshot stays valid after any run.
pub fn snapshots_stay()
    ensures { SnapshotsStay }
{}
