//! Messages that are there, answered in groups whose answers are held.

ghost use Rattle.std.specs.Prelude.{Some, OnOk, OnErr};
ghost use Rattle.request.specs.Frames.{IsIdle};
ghost use Rattle.engine.specs.declared.serving.ServeFault.TheVariants.{Memory};
ghost use Rattle.engine.specs.Situation.{IsReady, seen_on};
ghost use Rattle.grouping.specs.Groups.{MaySettle};
ghost use Rattle.grouping.specs.Streams.{Grouping, GroupingSome};

use crate::group::answer_group;
use crate::serving::has_message;
use engine::Engine;
use request::Frames;
use settling::Settles;
use std::alloc::{AllocError, Global};

/// Answers the messages that are complete, a group at a time, and appends each answer's frame: the disk has all that a
/// group wrote before its answers are appended. If there is no memory for a frame, only those before it are appended,
/// and no further message is answered. The message whose frame is missing was carried out all the same.
pub fn answer_groups_held<D: Settles>(
    alloc: Global,
    frames: &mut Frames,
    answers: &mut Vec<u8>,
    engine: &mut Engine,
    drive: &mut D,
) -> Result<(), AllocError>
    requires { IsReady (seen_on D.Drive engine.old drive.old) }
    ensures ok { OnOk result (Grouping frames.old frames.new (seen_on D.Drive engine.old drive.old) (D.gathering drive.old) (seen_on D.Drive engine.new drive.new) (D.gathering drive.new)
        (Some answers.old.items) (Some answers.new.items)) }
    ensures idle { OnOk result (IsIdle frames.new) }
    ensures err { OnErr result (GroupingSome Memory frames.old frames.new (seen_on D.Drive engine.old drive.old) (D.gathering drive.old) (seen_on D.Drive engine.new drive.new) (D.gathering drive.new)
        (Some answers.old.items) (Some answers.new.items)) }
    ensures ready { IsReady (seen_on D.Drive engine.new drive.new) }
    ensures lent { MaySettle D.Drive 0 drive.old drive.new }
{
    while has_message(frames) {
        if answer_group(alloc, frames, answers, engine, drive).is_err() {
            return Err(AllocError);
        }
    }
    Ok(())
}
