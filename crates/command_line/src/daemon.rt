//! The words of `udfburnd`.

ghost use Rattle.std.specs.Prelude.{◌≡◌, ℕ, Option, IfErr, IfOk, codes, false, map};
ghost use Rattle.clap.specs.Words.{app_of, first_value, found_of, kind_of, rule_of};
ghost use Rattle.command_line.specs.Daemon.{AsksDaemon, IsCount, daemon_app, fault_for, option_of, wanted};
ghost use Rattle.command_line.specs.declared.daemon.WordsFault.TheVariants.{Memory, Usage};

use crate::number::read_number;
use clap::error::ErrorKind;
use clap::{Arg, ArgAction, ArgMatches, Command, Error};
use std::alloc::{AllocError, Global};

/// The most connections after which a daemon can be told to end.
const MOST_CONNECTIONS: u64 = 1_000_000;

const IMAGE: &str = "IMAGE";

const SOCKET: &str = "SOCKET";

const CONNECTIONS: &str = "connections";

/// What the daemon is to serve, and where.
#[derive(Clone, Copy, Debug, PartialEq, Eq)]
pub struct DaemonWords<'w> {
    /// The path of the image.
    pub image: &'w str,
    /// The path of the socket.
    pub socket: &'w str,
    /// After how many connections it ends, at most 1,000,000. `None` if it does not end.
    pub connections: Option<u64>,
}

/// Why words are not read.
#[derive(Clone, Copy, Debug, PartialEq, Eq)]
pub enum WordsFault {
    /// They are not words that the daemon takes.
    Usage,
    /// There was no memory.
    Memory,
}

impl From<AllocError> for WordsFault {
    ghost from_gives = { λ _ f. f ≡ Memory };

    fn from(_error: AllocError) -> WordsFault {
        WordsFault::Memory
    }
}

impl From<Error> for WordsFault {
    ghost from_gives = { λ error f. f ≡ fault_for (kind_of error) };

    fn from(error: Error) -> WordsFault {
        match error.kind() {
            ErrorKind::OutOfMemory => WordsFault::Memory,
            _ => WordsFault::Usage,
        }
    }
}

/// Reads `IMAGE SOCKET [--connections N]`. The first of the words is the program's own name.
pub fn read_daemon<'w>(alloc: Global, words: &'w [&'w str]) -> Result<DaemonWords<'w>, WordsFault>
    // The words ask for what is read. Words that are refused with `Usage` ask for nothing.
    ensures read { IfOk result (AsksDaemon (map (λ w. w.now) words.now)) }
    ensures usage { IfErr result (λ fault. fault ≡ Usage → (asked : _) → AsksDaemon (map (λ w. w.now) words.now) asked → ⊥) }
{
    let matches = daemon_command(alloc)?.try_get_matches_from(words)?;
    match (matches.get_str(IMAGE), matches.get_str(SOCKET)) {
        (Some(image), Some(socket)) => Ok(DaemonWords {
            image,
            socket,
            connections: connections(&matches)?,
        }),
        _ => Err(WordsFault::Usage),
    }
}

/// How many connections the words name, if they do.
fn connections(matches: &ArgMatches<'_>) -> Result<Option<u64>, WordsFault>
    ensures read { IfOk result (IsCount (first_value (found_of matches.now) (codes "connections"))) }
    ensures usage { IfErr result (λ _. (number : Option ℕ) → IsCount (first_value (found_of matches.now) (codes "connections")) number → ⊥) }
{
    match matches.get_str(CONNECTIONS) {
        None => Ok(None),
        Some(word) => match read_number(word, MOST_CONNECTIONS) {
            Some(number) => Ok(Some(number)),
            None => Err(WordsFault::Usage),
        },
    }
}

/// The words that the daemon takes.
fn daemon_command<'w>(alloc: Global) -> Result<Command<'w>, AllocError>
    ensures { IfOk result (λ command. app_of command ≡ daemon_app) }
{
    Command::new(alloc, "udfburnd")
        .disable_help_flag(true)
        .disable_version_flag(true)
        .arg(required(alloc, IMAGE))?
        .arg(required(alloc, SOCKET))?
        .arg(option(alloc, CONNECTIONS))
}

/// A word that has to be there, by its place.
fn required<'w>(alloc: Global, id: &'w str) -> Arg<'w>
    ensures rule { rule_of result ≡ wanted id.now }
    ensures local { result.global ≡ false }
{
    Arg::new(alloc, id).required(true).action(ArgAction::Set)
}

/// An option with a word after it.
fn option<'w>(alloc: Global, id: &'w str) -> Arg<'w>
    ensures rule { rule_of result ≡ option_of id.now }
    ensures local { result.global ≡ false }
{
    Arg::new(alloc, id).long(id).action(ArgAction::Set)
}
