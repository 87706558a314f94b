//! The program `udfburn`.

ghost use Rattle.std.specs.Prelude.{◌≡◌, ◌≤◌, ◌↔◌, map, codes, IfErr, IsTrue};
ghost use Rattle.command_line.specs.Commands.{Asks};
ghost use Rattle.media.specs.Held.{Same};
ghost use Rattle.programs.specs.Asked.{IsInRange};
ghost use Rattle.programs.specs.FaultLines.{ReportsOutcome, said_on};
ghost use Rattle.programs.specs.Images.{AreUntouched, images_on};
ghost use Rattle.programs.specs.Inputs.{input_on};
ghost use Rattle.programs.specs.Status.{IsRefusal};
ghost use Rattle.programs.specs.Tasks.{CountsTaskReads, IsTaskDone, Ends, IsReading, task_of};

use crate::errors::ErrorStream;
use crate::fault::{Fault, report};
use crate::questions::{check_image, get_image, list_image, log_image};
use crate::requests::{apply_in_memory, apply_to_image};
use crate::sending::send;
use crate::volumes::format_image;
use command_line::{Command, Storage, read_command};
use engine::CountedReader;
use media::Media;
use std::io::{Read, Write};
use std::net::Net;

/// Does what the words ask for, over media, from the input to the output. Returns the status, and reports on `errors`
/// why it was refused.
#[tactic(auto, using(crate::proofs::Statuses::asked, crate::proofs::Statuses::in_range))]
pub fn command_on<M, R, I, O, E>(
    rt: &R,
    media: &mut M,
    words: &[&str],
    input: &mut CountedReader<I>,
    output: &mut O,
    errors: &mut ErrorStream<E>,
) -> u8
where
    M: Media,
    R: Net + AllocGlobal,
    I: Read,
    O: Write,
    E: Write,
    // The status is 2 exactly if the words are those of no command.
    ensures usage { (result ≡ 2) ↔ ((asked : _) → Asks (map (λ w. w.now) words.now) asked → ⊥) }
    ensures status { result ≤ 2 }
    ensures asks { result ≤ 1 → (asked : _) × Asks (map (λ w. w.now) words.now) asked }
    // Nothing is reported except why it was refused.
    ensures reports { ReportsOutcome (codes "udfburn") result (said_on E.Write errors.old) (said_on E.Write errors.new) }
    // For other words nothing is read, nothing is written, and no image is changed.
    ensures unread { result ≡ 2 → input_on I.Read input.new ≡ input_on I.Read input.old }
    ensures unwritten { result ≡ 2 → O.contents output.new ≡ O.contents output.old }
    ensures untouched { result ≡ 2 → AreUntouched (images_on M.Media media.old) (images_on M.Media media.new) }
    // On honest media, a command that writes to no image leaves what they hold as it was.
    ensures unchanged { (asked : _) → Asks (map (λ w. w.now) words.now) asked → IsReading (task_of asked) → IsTrue (M.honest media.new) → Same (M.held media.old) (M.held media.new) }
    // What they ask for was done, or refused.
    ensures does { (asked : _) → Asks (map (λ w. w.now) words.now) asked → Ends (task_of asked) result (images_on M.Media media.old) (images_on M.Media media.new) (input_on I.Read input.old) (input_on I.Read input.new) (O.contents output.old) (O.contents output.new) (said_on E.Write errors.old) (said_on E.Write errors.new) }
{
    let outcome = match read_command(words) {
        Some(asked) => carry_out(rt, media, asked, input, output),
        None => Err(Fault::Usage),
    };
    report("udfburn", outcome, errors)
}

fn carry_out<M, R, I, O>(
    rt: &R,
    media: &mut M,
    asked: Command<'_>,
    input: &mut CountedReader<I>,
    output: &mut O,
) -> Result<(), Fault>
where
    M: Media,
    R: Net + AllocGlobal,
    I: Read,
    O: Write,
    requires { IsInRange asked }
    ensures refusal { IfErr result IsRefusal }
    ensures does { IsTaskDone (task_of asked.entry) result (images_on M.Media media.old) (images_on M.Media media.new) (I.remaining input.old.stream) (I.remaining input.new.stream) (O.contents output.old) (O.contents output.new) }
    ensures failures { CountsTaskReads (task_of asked.entry) result input.old.failures input.new.failures }
{
    let alloc = rt.alloc();
    match asked {
        Command::Format {
            image,
            label,
            moment,
            capacity,
        } => format_image(alloc, media, image, label, moment, capacity, output),
        Command::Apply(Storage::Image(image)) => {
            apply_to_image(alloc, media, image, input, output)
        }
        Command::Apply(Storage::Memory(capacity)) => {
            apply_in_memory(alloc, capacity, input, output)
        }
        Command::List { image, path } => list_image(alloc, media, image, path, output),
        Command::Get { image, path } => get_image(alloc, media, image, path, output),
        Command::Log { image } => log_image(alloc, media, image, output),
        Command::Check { image } => check_image(alloc, media, image, output),
        Command::Send { socket } => send(rt, socket, input, output),
    }
}
