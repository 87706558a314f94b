//! The program `udfburnd`.

ghost use Rattle.std.specs.Prelude.{◌≡◌, ◌≤◌, ◌-◌, ◌^◌, None, unwrap_or, map, IfErr, OnOk, OnErr, IfNone, IfSome, IsSomeAnd};
ghost use Rattle.drive.specs.Gathering.{waits_never};
ghost use Rattle.engine.specs.Situation.{IsReady, seen_on, situation_on};
ghost use Rattle.grouping.specs.Groups.{MaySettle};
ghost use Rattle.grouping.specs.Streams.{ServesGroups};
ghost use Rattle.programs.specs.Connections.{ServesMessages, LeavesConnection, LeavesStream};
ghost use Rattle.programs.specs.FaultLines.{said_on};
ghost use Rattle.programs.specs.Images.{IsUnchanged, images_on};
ghost use Rattle.programs.specs.Inputs.{CountsReads};
ghost use Rattle.programs.specs.Listening.{EndsOne, LetsGo, ServesEach, heard_on};
ghost use Rattle.programs.specs.Outputs.{IsBlank};
ghost use Rattle.programs.specs.Refusals.{OnAsked, RefusesDaemon, ReportsFaults, ServesImage, ReportsRefusal};
ghost use Rattle.programs.specs.Status.{IsRefusal};

use crate::errors::ErrorStream;
use crate::fault::{Fault, report};
use crate::images::{open_image, put_back};
use crate::listening::Listener;
use crate::requests::MOST_AT_ONCE;
use command_line::{DaemonWords, read_daemon};
use engine::{CountedReader, Engine, ServeFault, put_all};
use grouping::serve_groups;
use media::Media;
use settling::Settles;
use std::alloc::Global;
use std::io::{BufWriter, Read, Write};
use std::thread;
use std::time::{Clock, Duration};
use store::StoreFault;

/// The name at the beginning of the daemon's lines.
const NAME: &str = "udfburnd";

/// How long the daemon waits after it failed to accept a connection, in milliseconds.
const PAUSE: u64 = 100;

/// Serves an image of the media on a socket, one connection of a listener after another. Returns the status, and
/// reports on `errors` why it was refused and why a connection was left. The first of the words is the program's own
/// name.
pub fn daemon_on<M, L, R, E>(
    rt: &R,
    media: &mut M,
    listener: &mut L,
    words: &[&str],
    errors: &mut ErrorStream<E>,
) -> u8
where
    M: Media,
    L: Listener,
    R: Clock + AllocGlobal,
    E: Write,
    ensures status { result ≤ 2 }
    // If it ends by itself, its words are those of a daemon. As many connections as they say were served on the image
    // that they name, one after another, as one run.
    ensures run { result ≡ 0 → OnAsked (map (λ w. w.now) words.now) (λ asked. ServesEach (unwrap_or asked.connections (2 ^ 64 - 1)) (heard_on L.Listener listener.old) (heard_on L.Listener listener.new) waits_never) (images_on M.Media media.old) (images_on M.Media media.new) }
    // It then reported only why connections could not be accepted, or were left.
    ensures described { result ≡ 0 → ReportsFaults (said_on E.Write errors.old) (said_on E.Write errors.new) }
    // If it was refused, it reported why, and nothing else, and asked for no connection.
    ensures reports { 1 ≤ result → ReportsRefusal (map (λ w. w.now) words.now) result (images_on M.Media media.old) (images_on M.Media media.new) (said_on E.Write errors.old) (said_on E.Write errors.new) }
    ensures unheard { 1 ≤ result → heard_on L.Listener listener.new ≡ heard_on L.Listener listener.old }
{
    let outcome = serve_words(rt, media, listener, words, errors);
    report(NAME, outcome, errors)
}

/// Serves what the words name, if they are those of a daemon.
fn serve_words<M, L, R, E>(
    rt: &R,
    media: &mut M,
    listener: &mut L,
    words: &[&str],
    errors: &mut ErrorStream<E>,
) -> Result<(), Fault>
where
    M: Media,
    L: Listener,
    R: Clock + AllocGlobal,
    E: Write,
    ensures run { OnOk result (OnAsked (map (λ w. w.now) words.now) (λ asked. ServesEach (unwrap_or asked.connections (2 ^ 64 - 1)) (heard_on L.Listener listener.old) (heard_on L.Listener listener.new) waits_never) (images_on M.Media media.old) (images_on M.Media media.new)) }
    ensures described { OnOk result (ReportsFaults (said_on E.Write errors.old) (said_on E.Write errors.new)) }
    ensures refused { IfErr result (λ fault. RefusesDaemon (map (λ w. w.now) words.now) fault (images_on M.Media media.old) (images_on M.Media media.new)) }
    ensures unreported { OnErr result (said_on E.Write errors.new ≡ said_on E.Write errors.old) }
    ensures unheard { OnErr result (heard_on L.Listener listener.new ≡ heard_on L.Listener listener.old) }
{
    match read_daemon(rt.alloc(), words) {
        Ok(asked) => serve_image(rt, media, listener, &asked, errors),
        Err(fault) => Err(Fault::from(fault)),
    }
}

/// Serves as many connections on an image as the words say. The image is opened before the socket: if the socket fails,
/// nothing was done to the image.
fn serve_image<M, L, R, E>(
    rt: &R,
    media: &mut M,
    listener: &mut L,
    asked: &DaemonWords<'_>,
    errors: &mut ErrorStream<E>,
) -> Result<(), Fault>
where
    M: Media,
    L: Listener,
    R: Clock + AllocGlobal,
    E: Write,
    ensures serves { ServesImage asked.now.image.now (ServesEach (unwrap_or asked.now.connections (2 ^ 64 - 1)) (heard_on L.Listener listener.old) (heard_on L.Listener listener.new) waits_never) result (images_on M.Media media.old) (images_on M.Media media.new) }
    ensures described { OnOk result (ReportsFaults (said_on E.Write errors.old) (said_on E.Write errors.new)) }
    ensures unreported { OnErr result (said_on E.Write errors.new ≡ said_on E.Write errors.old) }
    ensures unheard { OnErr result (heard_on L.Listener listener.new ≡ heard_on L.Listener listener.old) }
{
    let mut drive = open_image(media, asked.image)?;
    let served = serve_all(rt, listener, asked, &mut drive, errors);
    put_back(media, asked.image, drive);
    served
}

/// Serves connections on a drive. `Socket` if it cannot listen there.
fn serve_all<L, R, D, E>(
    rt: &R,
    listener: &mut L,
    asked: &DaemonWords<'_>,
    drive: &mut D,
    errors: &mut ErrorStream<E>,
) -> Result<(), Fault>
where
    L: Listener,
    R: Clock + AllocGlobal,
    D: Settles,
    E: Write,
    ensures refused { IfErr result (λ fault. fault ≡ Fault.Socket) }
    ensures unchanged { OnErr result (IsUnchanged (situation_on D.Drive None drive.old) (situation_on D.Drive None drive.new)) }
    ensures run { OnOk result (ServesEach (unwrap_or asked.now.connections (2 ^ 64 - 1)) (heard_on L.Listener listener.old) (heard_on L.Listener listener.new) (D.gathering drive.old) (situation_on D.Drive None drive.old) (situation_on D.Drive None drive.new)) }
    ensures described { OnOk result (ReportsFaults (said_on E.Write errors.old) (said_on E.Write errors.new)) }
    ensures unreported { OnErr result (said_on E.Write errors.new ≡ said_on E.Write errors.old) }
    ensures unheard { OnErr result (heard_on L.Listener listener.new ≡ heard_on L.Listener listener.old) }
{
    listen(listener, asked.socket)?;
    let connections = asked.connections.unwrap_or(u64::MAX);
    serve_each(rt, listener, drive, connections, errors);
    Ok(())
}

/// Listens at the path of a socket.
fn listen<L: Listener>(listener: &mut L, socket: &str) -> Result<(), Fault>
    ensures refused { IfErr result (λ fault. fault ≡ Fault.Socket) }
    ensures unheard { heard_on L.Listener listener.new ≡ heard_on L.Listener listener.old }
{
    match listener.listen(socket) {
        Ok(()) => Ok(()),
        Err(_) => Err(Fault::Socket),
    }
}

/// Serves this many connections, each from where the one before it left the engine and the drive.
fn serve_each<L, R, D, E>(
    rt: &R,
    listener: &mut L,
    drive: &mut D,
    connections: u64,
    errors: &mut ErrorStream<E>,
)
where
    L: Listener,
    R: Clock + AllocGlobal,
    D: Settles,
    E: Write,
    ensures run { ServesEach connections (heard_on L.Listener listener.old) (heard_on L.Listener listener.new) (D.gathering drive.old) (situation_on D.Drive None drive.old) (situation_on D.Drive None drive.new) }
    ensures described { ReportsFaults (said_on E.Write errors.old) (said_on E.Write errors.new) }
{
    let mut engine = Engine::new();
    let mut left = connections;
    let mut tries: u64 = 0;
    let mut is_told = false;
    while left > 0 && tries < u64::MAX {
        tries += 1;
        let Ok((input, output)) = listener.accept(rt.alloc()) else {
            // Accepting keeps failing while descriptors are short. So it is reported once, and the daemon waits.
            tell_once(is_told, errors);
            is_told = true;
            thread::sleep(rt, Duration::from_millis(PAUSE));
            continue;
        };
        let served = serve_one(rt.alloc(), listener, input, output, &mut engine, drive);
        // The fault of one connection does not end the daemon, so the status is ignored.
        report(NAME, served, errors);
        left -= 1;
        is_told = false;
    }
}

/// Reports that a connection could not be accepted, unless that is reported already.
fn tell_once<E: Write>(is_told: bool, errors: &mut ErrorStream<E>)
    ensures { ReportsFaults (said_on E.Write errors.old) (said_on E.Write errors.new) }
{
    if is_told {
        return;
    }
    report(NAME, Err(Fault::Socket), errors);
}

/// Answers the messages of a connection that was just accepted, and ends it. A client that neither sends nor takes a
/// byte for a minute is left, so that it keeps nobody waiting.
pub fn serve_one<L: Listener, D: Settles>(
    alloc: Global,
    listener: &mut L,
    input: L::Input,
    output: L::Output,
    engine: &mut Engine,
    drive: &mut D,
) -> Result<(), Fault>
    requires { IsReady (seen_on D.Drive engine.old drive.old) }
    ensures ready { IsReady (seen_on D.Drive engine.new drive.new) }
    ensures lent { MaySettle D.Drive 0 drive.old drive.new }
    // Messages were answered, and nothing else was done.
    ensures goes { ServesMessages (seen_on D.Drive engine.old drive.old) (D.gathering drive.old) (seen_on D.Drive engine.new drive.new) (D.gathering drive.new) }
    // Or nothing was done, as the fault shows.
    ensures left { IfErr result (λ fault. LeavesConnection fault (seen_on D.Drive engine.old drive.old) (D.gathering drive.old) (seen_on D.Drive engine.new drive.new) (D.gathering drive.new)) }
    ensures refusal { IfErr result IsRefusal }
    // If the bytes are known, they determine which messages were answered, and what was written of the answers.
    ensures ends { IsBlank (L.Output.contents output) → EndsOne result (L.Input.remaining input) (heard_on L.Listener listener.old) (heard_on L.Listener listener.new) (seen_on D.Drive engine.old drive.old) (D.gathering drive.old) (seen_on D.Drive engine.new drive.new) (D.gathering drive.new) }
{
    if listener.limit(&input).is_err() {
        listener.end(CountedReader::new(input), output);
        return Err(Fault::Socket);
    }
    let mut input = CountedReader::new(input);
    let (served, output) = serve_stream(alloc, &mut input, output, engine, drive);
    match output {
        Some(output) => {
            listener.end(input, output);
            served
        }
        None => served,
    }
}

/// Answers the messages of the input on an output, through a buffer. Returns how that ended, and the output, or `None`
/// if it was dropped for lack of memory.
fn serve_stream<I, O, D>(
    alloc: Global,
    input: &mut CountedReader<I>,
    output: O,
    engine: &mut Engine,
    drive: &mut D,
) -> (Result<(), Fault>, Option<O>)
where
    I: Read,
    O: Write + Drop,
    D: Settles,
    requires { IsReady (seen_on D.Drive engine.old drive.old) }
    ensures ready { IsReady (seen_on D.Drive engine.new drive.new) }
    ensures lent { MaySettle D.Drive 0 drive.old drive.new }
    ensures goes { ServesMessages (seen_on D.Drive engine.old drive.old) (D.gathering drive.old) (seen_on D.Drive engine.new drive.new) (D.gathering drive.new) }
    ensures refusal { IfErr result.0 IsRefusal }
    ensures failures { CountsReads result.0 input.old.failures input.new.failures }
    // If it ended well, all messages of the input were answered, and each answer is written.
    ensures all { OnOk result.0 (IsSomeAnd result.1 (λ written. ServesGroups MOST_AT_ONCE (seen_on D.Drive engine.old drive.old) (D.gathering drive.old) (seen_on D.Drive engine.new drive.new) (D.gathering drive.new) (I.remaining input.old.stream) (I.remaining input.new.stream) (O.contents output) (O.contents written))) }
    // Otherwise the first of them were answered, as far as the fault says, and a prefix of their answers is written.
    ensures front { IfErr result.0 (λ fault. IfSome result.1 (λ written. LeavesStream fault (seen_on D.Drive engine.old drive.old) (D.gathering drive.old) (seen_on D.Drive engine.new drive.new) (D.gathering drive.new) (I.remaining input.old.stream) (I.remaining input.new.stream) (O.contents output) (O.contents written))) }
    ensures left { IfErr result.0 (λ fault. LeavesConnection fault (seen_on D.Drive engine.old drive.old) (D.gathering drive.old) (seen_on D.Drive engine.new drive.new) (D.gathering drive.new)) }
    // If the output was dropped, nothing was done.
    ensures let_go { IfNone result.1 (LetsGo result.0 (seen_on D.Drive engine.old drive.old) (D.gathering drive.old) (seen_on D.Drive engine.new drive.new) (D.gathering drive.new)) }
    ensures unread { IfNone result.1 (I.remaining input.new.stream ≡ I.remaining input.old.stream) }
{
    let mut writer = match BufWriter::new(alloc, output) {
        Ok(writer) => writer,
        Err(_) => return (Err(Fault::Store(StoreFault::Memory)), None),
    };
    let served = serve_groups(alloc, input, MOST_AT_ONCE, &mut writer, engine, drive);
    let (mut output, rest) = writer.into_parts();
    match served {
        Ok(()) => match put_all(&mut output, &rest) {
            Ok(()) => (Ok(()), Some(output)),
            Err(fault) => (Err(Fault::Stream(fault)), Some(output)),
        },
        // The client takes nothing: writing the rest would wait for it once more.
        Err(ServeFault::Write) => (Err(Fault::Stream(ServeFault::Write)), Some(output)),
        Err(fault) => {
            let _ = put_all(&mut output, &rest);
            (Err(Fault::Stream(fault)), Some(output))
        }
    }
}
