//! Answers that are held in memory until they are asked for.

ghost use Rattle.std.specs.Prelude.{◌≡◌, ◌++◌, Some, OnOk, OnErr};
ghost use Rattle.drive.specs.Reads.{ReadsAndWrites};
ghost use Rattle.request.specs.Answers.{answer_frame};
ghost use Rattle.request.specs.Frames.{IsIdle};
ghost use Rattle.engine.specs.declared.serving.ServeFault.TheVariants.{Memory};
ghost use Rattle.engine.specs.Situation.{IsReady, seen_on};
ghost use Rattle.engine.specs.Served.{Answering, AnswersSome};

use crate::engine::Engine;
use drive::Drive;
use request::{Answer, Frames, encode_answer};
use std::alloc::{AllocError, Global};

/// Answers the messages that are complete, and appends each answer's frame. If there is no memory for a frame, only
/// those before it are appended, and no further message is answered. The message whose frame is missing was carried out
/// all the same.
#[tactic(auto, using(crate::proofs::Messages::answering_none, crate::proofs::Messages::answering_more, crate::proofs::Messages::answering_some, crate::proofs::Messages::taken_less, request::proofs::FrameLaws::taken_first))]
pub fn answer_held<D: Drive>(
    alloc: Global,
    frames: &mut Frames,
    answers: &mut Vec<u8>,
    engine: &mut Engine,
    drive: &mut D,
) -> Result<(), AllocError>
    requires { IsReady (seen_on D.Drive engine.old drive.old) }
    ensures ok { OnOk result (Answering frames.old frames.new (seen_on D.Drive engine.old drive.old) (seen_on D.Drive engine.new drive.new)
        (Some answers.old.items) (Some answers.new.items)) }
    ensures idle { OnOk result (IsIdle frames.new) }
    ensures err { OnErr result (AnswersSome Memory frames.old frames.new (seen_on D.Drive engine.old drive.old) (seen_on D.Drive engine.new drive.new)
        (Some answers.old.items) (Some answers.new.items)) }
    ensures ready { IsReady (seen_on D.Drive engine.new drive.new) }
    ensures lent { ReadsAndWrites D.Drive 0 drive.old drive.new }
{
    while let Some(message) = frames.first() {
        let answer = engine.answer(alloc, drive, message);
        frames.skip();
        put_answer(answer, answers)?;
    }
    Ok(())
}

/// Appends an answer's frame.
fn put_answer(answer: Answer, answers: &mut Vec<u8>) -> Result<(), AllocError>
    ensures ok { OnOk result (answers.new.items ≡ answers.old.items ++ answer_frame answer) }
    ensures err { OnErr result (answers.new.items ≡ answers.old.items) }
{
    encode_answer(&answer, answers)
}
