//! What holds of what was read. Nothing here runs: each function's contract is a law.

ghost use Rattle.recover.specs.Laws.{LastRecovers};

/// The medium recovers to the state that was read at the last VAT ICB.
pub fn last_state_stands()
    ensures { LastRecovers }
{}
