//! What holds of a group of messages.

ghost use Rattle.group_losses.specs.Laws.{GroupSurvivesPowerLoss};

/// If no answer tells of a failing drive, the requests that were committed are commits in turn, each as it is planned.
/// Before the first sync has returned, a power loss leaves the state before the group. After it, it leaves the state after
/// the first n of its requests if the marks of these are there. With any choice of the marks the newest one decides.
pub fn groups_survive()
    ensures { GroupSurvivesPowerLoss }
{}
