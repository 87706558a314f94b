//! The words of `udfburn`.

ghost use Rattle.std.specs.Prelude.{◌≡◌, ◌≤◌, ℕ, List, [], ◌∷◌, map, length, Some, IfSome, IfNone};
ghost use Rattle.command_line.specs.Number.{IsNumeralOf};
ghost use Rattle.command_line.specs.Commands.{Asks, AsksApply, AsksFormat, IsCapacity};

use crate::number::read_number;
use limits::{GREATEST_CAPACITY, LEAST_CAPACITY, MOMENT_LIMIT};

/// What requests are applied to.
#[derive(Clone, Copy, Debug, PartialEq, Eq)]
pub enum Storage<'w> {
    /// The volume on the image at this path.
    Image(&'w str),
    /// A new volume in memory, of this many blocks.
    Memory(u32),
}

/// What the words ask for.
#[derive(Clone, Copy, Debug, PartialEq, Eq)]
pub enum Command<'w> {
    /// Makes a new volume on an image.
    Format {
        image: &'w str,
        label: &'w str,
        /// Microseconds from 1970-01-01 UTC.
        moment: u64,
        /// How many blocks the volume gets at most.
        capacity: u32,
    },
    /// Answers the messages of the standard input.
    Apply(Storage<'w>),
    /// Prints the names in a directory.
    List {
        image: &'w str,
        path: &'w str,
    },
    /// Prints the bytes of a file.
    Get {
        image: &'w str,
        path: &'w str,
    },
    /// Prints all commits of the volume on an image.
    Log {
        image: &'w str,
    },
    /// Checks that the state after each commit is valid.
    Check {
        image: &'w str,
    },
    /// Sends the standard input to a daemon, and prints its answers.
    Send {
        socket: &'w str,
    },
}

/// What the words ask for. `None` if they are not exactly those of a command.
pub fn read_command<'w>(words: &[&'w str]) -> Option<Command<'w>>
    // What is read is what the words ask for, and other words ask for nothing.
    ensures found { IfSome result (Asks (map (λ w. w.now) words.now)) }
    ensures only { IfNone result ((command : _) → Asks (map (λ w. w.now) words.now) command → ⊥) }
{
    let (name, rest) = words.split_first()?;
    match (*name, rest) {
        ("format", _) => read_format(rest),
        ("apply", _) => read_apply(rest),
        ("ls", [image, path]) => Some(Command::List { image, path }),
        ("get", [image, path]) => Some(Command::Get { image, path }),
        ("log", [image]) => Some(Command::Log { image }),
        ("check", [image]) => Some(Command::Check { image }),
        ("send", [socket]) => Some(Command::Send { socket }),
        _ => None,
    }
}

/// The one word.
fn one<'w>(words: &[&'w str]) -> Option<&'w str>
    ensures some { IfSome result (λ word. words.now ≡ word ∷ []) }
    ensures none { IfNone result (length words.now ≡ 1 → ⊥) }
{
    match words {
        [word] => Some(*word),
        _ => None,
    }
}

/// `IMAGE LABEL MOMENT CAPACITY`.
fn read_format<'w>(words: &[&'w str]) -> Option<Command<'w>>
    ensures found { IfSome result (AsksFormat (map (λ w. w.now) words.now)) }
    ensures only { IfNone result ((command : _) → AsksFormat (map (λ w. w.now) words.now) command → ⊥) }
{
    match words {
        [image, label, moment, capacity] => Some(Command::Format {
            image,
            label,
            moment: read_number(moment, MOMENT_LIMIT - 1)?,
            capacity: read_capacity(capacity)?,
        }),
        _ => None,
    }
}

/// `IMAGE`, or `mem:N`.
fn read_apply<'w>(words: &[&'w str]) -> Option<Command<'w>>
    ensures found { IfSome result (AsksApply (map (λ w. w.now) words.now)) }
    ensures only { IfNone result ((command : _) → AsksApply (map (λ w. w.now) words.now) command → ⊥) }
{
    let word = one(words)?;
    let medium = match word.strip_prefix("mem:") {
        Some(capacity) => Storage::Memory(read_capacity(capacity)?),
        None => Storage::Image(word),
    };
    Some(Command::Apply(medium))
}

/// A capacity in blocks.
fn read_capacity(word: &str) -> Option<u32>
    ensures some { IfSome result (λ n. IsNumeralOf word.now n × IsCapacity n) }
    ensures only { (n : ℕ) → IsNumeralOf word.now n → IsCapacity n → result ≡ Some n }
{
    let capacity = read_number(word, u64::from(GREATEST_CAPACITY))?;
    if capacity < u64::from(LEAST_CAPACITY) {
        return None;
    }
    Some(capacity as u32)
}
