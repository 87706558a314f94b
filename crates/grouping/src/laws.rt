//! What holds of groups. Nothing here runs: the function's contract is a law.

ghost use Rattle.grouping.specs.Groups.{TakingBackHolds};
ghost use Rattle.grouping.specs.Phases.{PhasesAreOfCommits};

/// Where a group was taken back, the same state is recovered as before it came, if one was, and the engine can go on.
pub fn taking_back_holds()
    ensures { TakingBackHolds }
{}

/// What a disk is given of a group, first and second, are the blocks of the commits with zeros for each mark, and the
/// marks. So what a power loss leaves of a group of commits is what it leaves of these messages.
pub fn phases_are_of_commits()
    ensures { PhasesAreOfCommits }
{}
