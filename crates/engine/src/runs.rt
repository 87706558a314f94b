//! A whole run, as a list of deliveries.

ghost use Rattle.std.specs.Prelude.{◌≡◌, ◌≤◌, ℕ, None, IsTrue, IfOk, OnErr, sum_by};
ghost use Rattle.drive.specs.Journal.{held, Once};
ghost use Rattle.durability.specs.Volume.{RecoversTo};
ghost use Rattle.model.specs.Session.{State};
ghost use Rattle.drive.specs.Reads.{CountsFailures, ReadsAndWrites};
ghost use Rattle.udf.specs.Udf.{udf};
ghost use Rattle.engine.specs.Answered.{faults};
ghost use Rattle.engine.specs.Situation.{IsReady, seen_on, situation_on};
ghost use Rattle.engine.specs.Delivered.{Delivers, RunsDeliveries};
ghost use Rattle.engine.specs.Headline.{RunHolds, RunWithstands};

use crate::engine::Engine;
use drive::Drive;
use request::{Answer, read_payload};
use std::alloc::{AllocError, Global};

/// What an engine receives.
#[derive(Debug, Drop)]
pub enum Delivery {
    /// The payload of a frame.
    Frame(Vec<u8>),
    /// A restart: all that is not on the medium is forgotten.
    Restart,
}

/// Answers deliveries in order: one answer for each frame, none for a restart. If there is no memory for the answers,
/// the medium is not touched.
pub fn run<D: Drive>(
    alloc: Global,
    drive: &mut D,
    deliveries: &[Delivery],
) -> Result<Vec<Answer>, AllocError>
    ensures ok { IfOk result (λ answers. RunsDeliveries deliveries.now answers.items (situation_on D.Drive None drive.old) (situation_on D.Drive None drive.new)) }
    // On an honest drive on which a state is recovered: what is recovered at each prefix of what was written.
    ensures holds { (volume : ℕ) (S : State) → IsTrue (D.honest drive.new) → Once (D.journal drive.old) → RecoversTo udf (D.capacity drive.old) volume (held (D.journal drive.old)) S
        → IfOk result (λ answers. RunHolds volume (D.capacity drive.old) deliveries.now S (D.journal drive.old) answers.items (D.journal drive.new)) }
    // The same of every delivery, from the journal as it was when that delivery began, whatever part of the write that had not
    // returned a power loss leaves.
    ensures withstands { (volume : ℕ) (S : State) → IsTrue (D.honest drive.new) → Once (D.journal drive.old) → RecoversTo udf (D.capacity drive.old) volume (held (D.journal drive.old)) S
        → IfOk result (λ answers. RunWithstands volume deliveries.now S (situation_on D.Drive None drive.old) answers.items (situation_on D.Drive None drive.new)) }
    // No more answers report a failing drive than failures were counted.
    ensures failures { IfOk result (λ answers. CountsFailures (sum_by faults answers.items) (D.failures drive.old) (D.failures drive.new)) }
    ensures err { OnErr result (situation_on D.Drive None drive.new ≡ situation_on D.Drive None drive.old) }
    ensures lent { ReadsAndWrites D.Drive 0 drive.old drive.new }
{
    let mut answers = Vec::with_capacity(alloc, deliveries.len())?;
    let mut engine = Engine::new();
    for delivery in deliveries {
        if let Some(answer) = deliver(alloc, &mut engine, drive, delivery) {
            answers.push(answer).unwrap();
        }
    }
    Ok(answers)
}

/// What a delivery gets: an answer where it is a frame.
fn deliver<D: Drive>(
    alloc: Global,
    engine: &mut Engine,
    drive: &mut D,
    delivery: &Delivery,
) -> Option<Answer>
    requires { IsReady (seen_on D.Drive engine.old drive.old) }
    ensures delivers { Delivers delivery.now (seen_on D.Drive engine.old drive.old) result (seen_on D.Drive engine.new drive.new) }
    ensures ready { IsReady (seen_on D.Drive engine.new drive.new) }
    ensures lent { ReadsAndWrites D.Drive 0 drive.old drive.new }
{
    match delivery {
        Delivery::Restart => {
            *engine = Engine::new();
            None
        }
        Delivery::Frame(payload) => {
            let message = read_payload(alloc, payload);
            Some(engine.answer(alloc, drive, message))
        }
    }
}
