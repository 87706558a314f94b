//! The process of a program: its words and its standard streams.

ghost use Rattle.std.specs.Prelude.{◌≡◌, ◌≤◌, ◌-◌, ◌^◌, unwrap_or, map, codes, IfErr, IfNone, IfOk, IfSome, IsSomeAnd, OnErr};
ghost use Rattle.command_line.specs.Commands.{Asks};
ghost use Rattle.drive.specs.Gathering.{waits_never};
ghost use Rattle.programs.specs.FaultLines.{ReportsOutcome, said_on};
ghost use Rattle.programs.specs.Images.{AreUntouched, images_on};
ghost use Rattle.programs.specs.Inputs.{input_on};
ghost use Rattle.programs.specs.Listening.{ServesEach, heard_on};
ghost use Rattle.programs.specs.Refusals.{IsDaemonReported, IsEarly, OnAsked, ReportsFaults, ReportsEarly};
ghost use Rattle.programs.specs.Tasks.{Ends, HasPrefix, IsPartlyDone, IsWhollyDone, IsPrefixOf, task_of};

use crate::commands::command_on;
use crate::daemons::daemon_on;
use crate::errors::ErrorStream;
use crate::fault::{Fault, report};
use crate::listening::Listener;
use engine::{CountedReader, put_all};
use media::Media;
use std::alloc::Global;
use std::env;
use std::env::Env;
use std::fs::{File, Files};
use std::io::{BufWriter, ErrorKind, Read, Write};
use std::net::Net;
use std::os::fd::{AsRawFd, IntoRawFd};
use std::time::Clock;
use store::StoreFault;

/// The name at the beginning of the lines of `udfburn`.
const COMMAND_NAME: &str = "udfburn";

/// Runs `udfburn` on the words of the process and these streams. Returns the status, and the output, or `None` if it
/// was dropped for lack of memory.
#[tactic(auto, using(crate::proofs::Telling::refused_not))]
pub fn run_command<M, R, I, O, E>(
    rt: &R,
    media: &mut M,
    input: &mut CountedReader<I>,
    output: O,
    errors: &mut ErrorStream<E>,
) -> (u8, Option<O>)
where
    M: Media,
    R: Files<File = File> + Net + Env + AllocGlobal,
    I: Read,
    O: Write + Drop,
    E: Write,
    ensures reports { ReportsOutcome (codes "udfburn") result.0 (said_on E.Write errors.old) (said_on E.Write errors.new) }
    // At status 0 the words are those of a command, and the whole output of what was done is written.
    ensures done { result.0 ≡ 0 → IsSomeAnd result.1 (λ written. IsWhollyDone (images_on M.Media media.old) (images_on M.Media media.new) (input_on I.Read input.old) (input_on I.Read input.new) (O.contents output) (O.contents written) (said_on E.Write errors.old) (said_on E.Write errors.new)) }
    // At status 1 they are too, unless the output was dropped, and a prefix is written.
    ensures begun { result.0 ≤ 1 → IfSome result.1 (λ written. IsPartlyDone result.0 (images_on M.Media media.old) (images_on M.Media media.new) (input_on I.Read input.old) (input_on I.Read input.new) (O.contents output) (O.contents written) (said_on E.Write errors.old) (said_on E.Write errors.new)) }
    // For other words nothing is read and nothing is written.
    ensures unread { result.0 ≡ 2 → input_on I.Read input.new ≡ input_on I.Read input.old }
    ensures unwritten { result.0 ≡ 2 → IfSome result.1 (λ written. IsPrefixOf (O.contents output) (O.contents written)) }
    ensures untouched { result.0 ≡ 2 → AreUntouched (images_on M.Media media.old) (images_on M.Media media.new) }
    // If the output was dropped, nothing was read, no image changed, and it reports why nothing was begun.
    ensures let_go { IfNone result.1 (input_on I.Read input.new ≡ input_on I.Read input.old) }
    ensures left { IfNone result.1 (AreUntouched (images_on M.Media media.old) (images_on M.Media media.new)) }
    ensures early { IfNone result.1 (ReportsEarly (codes "udfburn") result.0 (said_on E.Write errors.old) (said_on E.Write errors.new)) }
{
    match try_command(rt, media, input, output, errors) {
        Ok(ended) => ended,
        Err(fault) => (report(COMMAND_NAME, Err(fault), errors), None),
    }
}

/// Runs `udfburnd` on the words of the process. Returns the status.
#[tactic(auto, using(crate::proofs::Telling::refused_not))]
pub fn run_daemon<M, L, R, E>(
    rt: &R,
    media: &mut M,
    listener: &mut L,
    errors: &mut ErrorStream<E>,
) -> u8
where
    M: Media,
    L: Listener,
    R: Files<File = File> + Clock + Env + AllocGlobal,
    E: Write,
    ensures status { result ≤ 2 }
    // If it ends by itself, the words are those of a daemon. As many connections as they say were served on the image
    // that they name, as one run.
    ensures run { result ≡ 0 → (words : _) × OnAsked words (λ asked. ServesEach (unwrap_or asked.connections (2 ^ 64 - 1)) (heard_on L.Listener listener.old) (heard_on L.Listener listener.new) waits_never) (images_on M.Media media.old) (images_on M.Media media.new) }
    // It then reported only why connections could not be accepted, or were left.
    ensures described { result ≡ 0 → ReportsFaults (said_on E.Write errors.old) (said_on E.Write errors.new) }
    // If it was refused, it reported why, and nothing else, and asked for no connection.
    ensures unheard { 1 ≤ result → heard_on L.Listener listener.new ≡ heard_on L.Listener listener.old }
    ensures reports { 1 ≤ result → IsDaemonReported result (images_on M.Media media.old) (images_on M.Media media.new) (said_on E.Write errors.old) (said_on E.Write errors.new) }
{
    match try_daemon(rt, media, listener, errors) {
        Ok(status) => status,
        Err(fault) => report("udfburnd", Err(fault), errors),
    }
}

fn try_command<M, R, I, O, E>(
    rt: &R,
    media: &mut M,
    input: &mut CountedReader<I>,
    output: O,
    errors: &mut ErrorStream<E>,
) -> Result<(u8, Option<O>), Fault>
where
    M: Media,
    R: Files<File = File> + Net + Env + AllocGlobal,
    I: Read,
    O: Write + Drop,
    E: Write,
    ensures unreported { IfErr result (λ _. said_on E.Write errors.new ≡ said_on E.Write errors.old) }
    ensures reports { IfOk result (λ ended. ReportsOutcome (codes "udfburn") ended.0 (said_on E.Write errors.old) (said_on E.Write errors.new)) }
    ensures done { IfOk result (λ ended. ended.0 ≡ 0 → IsSomeAnd ended.1 (λ written. IsWhollyDone (images_on M.Media media.old) (images_on M.Media media.new) (input_on I.Read input.old) (input_on I.Read input.new) (O.contents output) (O.contents written) (said_on E.Write errors.old) (said_on E.Write errors.new))) }
    ensures begun { IfOk result (λ ended. ended.0 ≤ 1 → IfSome ended.1 (λ written. IsPartlyDone ended.0 (images_on M.Media media.old) (images_on M.Media media.new) (input_on I.Read input.old) (input_on I.Read input.new) (O.contents output) (O.contents written) (said_on E.Write errors.old) (said_on E.Write errors.new))) }
    ensures unheard { OnErr result (input_on I.Read input.new ≡ input_on I.Read input.old) }
    ensures unread { IfOk result (λ ended. ended.0 ≡ 2 → input_on I.Read input.new ≡ input_on I.Read input.old) }
    ensures unwritten { IfOk result (λ ended. ended.0 ≡ 2 → IfSome ended.1 (λ written. IsPrefixOf (O.contents output) (O.contents written))) }
    ensures refused { IfErr result IsEarly }
    ensures unopened { OnErr result (AreUntouched (images_on M.Media media.old) (images_on M.Media media.new)) }
    ensures untouched { IfOk result (λ ended. ended.0 ≡ 2 → AreUntouched (images_on M.Media media.old) (images_on M.Media media.new)) }
    ensures let_go { IfOk result (λ ended. IfNone ended.1 (input_on I.Read input.new ≡ input_on I.Read input.old)) }
    ensures left { IfOk result (λ ended. IfNone ended.1 (AreUntouched (images_on M.Media media.old) (images_on M.Media media.new))) }
    ensures early { IfOk result (λ ended. IfNone ended.1 (ReportsEarly (codes "udfburn") ended.0 (said_on E.Write errors.old) (said_on E.Write errors.new))) }
{
    hold_standard_streams(rt)?;
    let words = own_words(rt)?;
    let texts = texts(rt.alloc(), &words)?;
    Ok(gathered(rt, media, after_program_name(&texts), input, output, errors))
}

/// `command_on` with a buffer before the output, whose rest is written at the end. Returns the status, and the output,
/// or `None` if it was dropped for lack of memory.
fn gathered<M, R, I, O, E>(
    rt: &R,
    media: &mut M,
    words: &[&str],
    input: &mut CountedReader<I>,
    output: O,
    errors: &mut ErrorStream<E>,
) -> (u8, Option<O>)
where
    M: Media,
    R: Net + AllocGlobal,
    I: Read,
    O: Write + Drop,
    E: Write,
    ensures reports { ReportsOutcome (codes "udfburn") result.0 (said_on E.Write errors.old) (said_on E.Write errors.new) }
    ensures asks { result.0 ≤ 1 → IfSome result.1 (λ _. (asked : _) × Asks (map (λ w. w.now) words.now) asked) }
    ensures kept { result.0 ≡ 0 → IsSomeAnd result.1 (λ _. (asked : _) × Asks (map (λ w. w.now) words.now) asked) }
    // At status 0 the whole output is written, and otherwise a prefix of it.
    ensures all { (asked : _) → Asks (map (λ w. w.now) words.now) asked → result.0 ≡ 0 → IsSomeAnd result.1 (λ written. Ends (task_of asked) 0 (images_on M.Media media.old) (images_on M.Media media.new) (input_on I.Read input.old) (input_on I.Read input.new) (O.contents output) (O.contents written) (said_on E.Write errors.old) (said_on E.Write errors.new)) }
    // For other words nothing is read and nothing is written.
    ensures unread { result.0 ≡ 2 → input_on I.Read input.new ≡ input_on I.Read input.old }
    ensures unwritten { result.0 ≡ 2 → IfSome result.1 (λ written. IsPrefixOf (O.contents output) (O.contents written)) }
    ensures untouched { result.0 ≡ 2 → AreUntouched (images_on M.Media media.old) (images_on M.Media media.new) }
    // If the output was dropped, nothing is read and no image changed, since memory is short.
    ensures let_go { IfNone result.1 (input_on I.Read input.new ≡ input_on I.Read input.old) }
    ensures left { IfNone result.1 (AreUntouched (images_on M.Media media.old) (images_on M.Media media.new)) }
    ensures early { IfNone result.1 (ReportsEarly (codes "udfburn") result.0 (said_on E.Write errors.old) (said_on E.Write errors.new)) }
    ensures front { (asked : _) → Asks (map (λ w. w.now) words.now) asked → IfSome result.1 (λ written. HasPrefix (task_of asked) result.0 (images_on M.Media media.old) (images_on M.Media media.new) (input_on I.Read input.old) (input_on I.Read input.new) (O.contents output) (O.contents written) (said_on E.Write errors.old) (said_on E.Write errors.new)) }
{
    let mut writer = match BufWriter::new(rt.alloc(), output) {
        Ok(writer) => writer,
        Err(_) => {
            let refused = Err(Fault::Store(StoreFault::Memory));
            return (report(COMMAND_NAME, refused, errors), None);
        }
    };
    let status = command_on(rt, media, words, input, &mut writer, errors);
    let (mut output, rest) = writer.into_parts();
    match put_all(&mut output, &rest) {
        Ok(()) => (status, Some(output)),
        // The reason is reported already.
        Err(_) if status > 0 => (status, Some(output)),
        Err(fault) => {
            let refused = Err(Fault::Stream(fault));
            (report(COMMAND_NAME, refused, errors), Some(output))
        }
    }
}

fn try_daemon<M, L, R, E>(
    rt: &R,
    media: &mut M,
    listener: &mut L,
    errors: &mut ErrorStream<E>,
) -> Result<u8, Fault>
where
    M: Media,
    L: Listener,
    R: Files<File = File> + Clock + Env + AllocGlobal,
    E: Write,
    ensures unreported { IfErr result (λ _. said_on E.Write errors.new ≡ said_on E.Write errors.old) }
    ensures status { IfOk result (λ status. status ≤ 2) }
    ensures run { IfOk result (λ status. status ≡ 0 → (words : _) × OnAsked words (λ asked. ServesEach (unwrap_or asked.connections (2 ^ 64 - 1)) (heard_on L.Listener listener.old) (heard_on L.Listener listener.new) waits_never) (images_on M.Media media.old) (images_on M.Media media.new)) }
    ensures unopened { OnErr result (AreUntouched (images_on M.Media media.old) (images_on M.Media media.new)) }
    ensures described { IfOk result (λ status. status ≡ 0 → ReportsFaults (said_on E.Write errors.old) (said_on E.Write errors.new)) }
    ensures refused { IfErr result IsEarly }
    ensures unasked { OnErr result (heard_on L.Listener listener.new ≡ heard_on L.Listener listener.old) }
    ensures unheard { IfOk result (λ status. 1 ≤ status → heard_on L.Listener listener.new ≡ heard_on L.Listener listener.old) }
    ensures reports { IfOk result (λ status. 1 ≤ status → IsDaemonReported status (images_on M.Media media.old) (images_on M.Media media.new) (said_on E.Write errors.old) (said_on E.Write errors.new)) }
{
    hold_standard_streams(rt)?;
    let words = own_words(rt)?;
    let texts = texts(rt.alloc(), &words)?;
    Ok(daemon_on(rt, media, listener, &texts, errors))
}

/// Opens the root folder under the number of each standard stream that is closed. So no file that is opened later gets
/// that number and is read or written by mistake: reading or writing a folder fails, as on a closed descriptor.
fn hold_standard_streams<R: Files<File = File>>(rt: &R) -> Result<(), Fault>
    ensures { IfErr result IsEarly }
{
    for _ in 0..3 {
        let folder = match File::open(rt, "/") {
            Ok(folder) => folder,
            Err(_) => return Err(Fault::Store(StoreFault::Device)),
        };
        if folder.as_raw_fd() > 2 {
            return Ok(());
        }
        // It stays open until the process ends.
        let _ = folder.into_raw_fd();
    }
    Ok(())
}

/// The words of the process, of which the first is its name. `Usage` if one is not UTF-8.
fn own_words<R: Env + AllocGlobal>(rt: &R) -> Result<Vec<String>, Fault>
    ensures { IfErr result IsEarly }
{
    let words = match env::args(rt) {
        Ok(words) => words,
        Err(error) if error.kind() == ErrorKind::InvalidData => return Err(Fault::Usage),
        Err(_) => return Err(Fault::Store(StoreFault::Memory)),
    };
    match words.collect(rt.alloc()) {
        Ok(words) => Ok(words),
        Err(_) => Err(Fault::Store(StoreFault::Memory)),
    }
}

/// The words as texts.
fn texts(alloc: Global, words: &[String]) -> Result<Vec<&str>, Fault>
    ensures { IfErr result IsEarly }
{
    match words.iter().map(|word| word.as_str()).collect(alloc) {
        Ok(texts) => Ok(texts),
        Err(_) => Err(Fault::Store(StoreFault::Memory)),
    }
}

/// The words after the program's name.
fn after_program_name<'a, 'w>(words: &'a [&'w str]) -> &'a [&'w str] {
    let (_, rest) = words.split_at(words.len().min(1));
    rest
}
