//! Why a program did not do what it was asked for, and how it reports that.

ghost use Rattle.std.specs.Prelude.{◌≡◌, OnOk, OnErr, is_err};
ghost use Rattle.std.specs.Io.KnownBytes.{Appends};
ghost use Rattle.drive.specs.Journal.{counted};
ghost use Rattle.engine.specs.Streams.{PutsPrefix};
ghost use Rattle.recover.specs.declared.fault.StoreFault.TheVariants.{Memory};
ghost use Rattle.programs.specs.FaultLines.{Reports, said_on, damage_text, fault_line, place_text};
ghost use Rattle.programs.specs.FaultLines as said;
ghost use Rattle.programs.specs.Status.{status_of, AreWordsTold, IsPathTold};
ghost use Rattle.programs.specs.declared.fault.Fault.TheVariants.{Store, Stream};

use crate::errors::ErrorStream;
use command_line::WordsFault;
use engine::ServeFault;
use itoa::Buffer;
use request::PathFault;
use std::alloc::AllocError;
use std::io::Write;
use store::StoreFault;

/// The status of a program that did what it was asked for.
const DONE: u8 = 0;

/// The status of a program that was refused.
const REFUSED: u8 = 1;

/// The status of a program whose words are not those of a command.
const USAGE: u8 = 2;

/// Why a program did not do what it was asked for. It is shown as its number and its name.
#[derive(Clone, Copy, Debug, PartialEq, Eq)]
pub enum Fault {
    /// The words are not those of a command.
    Usage,
    /// The text is no path.
    Path,
    /// The socket cannot be reached or listened on, or a connection could not be accepted or limited.
    Socket,
    /// A call on the volume or its drive was refused.
    Store(StoreFault),
    /// A stream was left before its end.
    Stream(ServeFault),
}

impl Fault {
    ghost use Rattle.std.specs.Prelude.{◌≡◌};
    ghost use Rattle.programs.specs.FaultLines.{fault_damage, fault_name};

    /// The number and the name under which it is shown.
    fn name(self) -> &'static str
        ensures { result.now ≡ fault_name self }
    {
        match self {
            Fault::Usage => "usage",
            Fault::Path => "55 Path",
            Fault::Socket => "94 Socket",
            Fault::Store(fault) => store_name(fault),
            Fault::Stream(ServeFault::Read) => "91 Read",
            Fault::Stream(ServeFault::Write) => "92 Write",
            Fault::Stream(ServeFault::Memory) => "93 Memory",
        }
    }

    /// The address of the block that is damaged, and the cause.
    fn damage(self) -> Option<(u32, u8)>
        ensures { result ≡ fault_damage self }
    {
        match self {
            Fault::Store(StoreFault::Damaged { block, cause }) => Some((block, cause)),
            _ => None,
        }
    }
}

/// The number and the name of a fault of a volume.
fn store_name(fault: StoreFault) -> &'static str
    ensures { result.now ≡ said.store_name fault }
{
    match fault {
        StoreFault::NotBlank => "61 NotBlank",
        StoreFault::Label => "62 Label",
        StoreFault::Small => "63 Small",
        StoreFault::Device => "64 Device",
        StoreFault::Memory => "65 Memory",
        StoreFault::NotFormatted => "66 NotFormatted",
        StoreFault::Damaged { block: _, cause: _ } => "67 Damaged",
        StoreFault::Full => "68 Full",
        StoreFault::Stopped => "69 Stopped",
        StoreFault::NoCommit => "70 NoCommit",
        StoreFault::NotFound => "96 NotFound",
        StoreFault::IsDirectory => "97 IsDirectory",
        StoreFault::NotDirectory => "98 NotDirectory",
        StoreFault::TooLong => "99 TooLong",
    }
}

impl From<PathFault> for Fault {
    ghost from_gives = { IsPathTold };

    fn from(fault: PathFault) -> Fault {
        match fault {
            PathFault::Path => Fault::Path,
            PathFault::Memory => Fault::Store(StoreFault::Memory),
        }
    }
}

impl From<StoreFault> for Fault {
    ghost from_gives = { λ fault f. f ≡ Store fault };

    fn from(fault: StoreFault) -> Fault {
        Fault::Store(fault)
    }
}

impl From<AllocError> for Fault {
    ghost from_gives = { λ _ f. f ≡ Store Memory };

    fn from(_fault: AllocError) -> Fault {
        Fault::Store(StoreFault::Memory)
    }
}

impl From<ServeFault> for Fault {
    ghost from_gives = { λ fault f. f ≡ Stream fault };

    fn from(fault: ServeFault) -> Fault {
        Fault::Stream(fault)
    }
}

impl From<WordsFault> for Fault {
    ghost from_gives = { AreWordsTold };

    fn from(fault: WordsFault) -> Fault {
        match fault {
            WordsFault::Usage => Fault::Usage,
            WordsFault::Memory => Fault::Store(StoreFault::Memory),
        }
    }
}

/// Reports on `errors` why the program of this name was refused, and returns its status. The line is whole unless a
/// write of it failed, which changes no status.
pub fn report<E: Write>(name: &str, outcome: Result<(), Fault>, errors: &mut ErrorStream<E>) -> u8
    ensures status { result ≡ status_of outcome }
    ensures describes { Reports name.now outcome (said_on E.Write errors.old) (said_on E.Write errors.new) }
{
    let fault = match outcome {
        Ok(()) => return DONE,
        Err(fault) => fault,
    };
    let _ = say(name, fault, errors);
    errors.flush();
    match fault {
        Fault::Usage => USAGE,
        _ => REFUSED,
    }
}

/// Writes the line of a fault.
fn say<E: Write>(name: &str, fault: Fault, errors: &mut ErrorStream<E>) -> Result<(), ServeFault>
    ensures ok { OnOk result (Appends (E.contents errors.old.stream) (E.contents errors.new.stream) (fault_line name.now fault)) }
    ensures err { OnErr result (PutsPrefix (E.contents errors.old.stream) (E.contents errors.new.stream) (fault_line name.now fault)) }
    ensures failures { errors.new.failures ≡ counted (is_err result) errors.old.failures }
{
    errors.put(name.as_bytes())?;
    errors.put(b": ")?;
    errors.put(fault.name().as_bytes())?;
    say_damage(fault.damage(), errors)?;
    errors.put(b"\n")
}

/// Writes what is damaged, and how.
fn say_damage<E: Write>(
    damage: Option<(u32, u8)>,
    errors: &mut ErrorStream<E>,
) -> Result<(), ServeFault>
    ensures ok { OnOk result (Appends (E.contents errors.old.stream) (E.contents errors.new.stream) (damage_text damage)) }
    ensures err { OnErr result (PutsPrefix (E.contents errors.old.stream) (E.contents errors.new.stream) (damage_text damage)) }
    ensures failures { errors.new.failures ≡ counted (is_err result) errors.old.failures }
{
    match damage {
        Some((block, cause)) => say_place(block, cause, errors),
        None => Ok(()),
    }
}

fn say_place<E: Write>(block: u32, cause: u8, errors: &mut ErrorStream<E>) -> Result<(), ServeFault>
    ensures ok { OnOk result (Appends (E.contents errors.old.stream) (E.contents errors.new.stream) (place_text block cause)) }
    ensures err { OnErr result (PutsPrefix (E.contents errors.old.stream) (E.contents errors.new.stream) (place_text block cause)) }
    ensures failures { errors.new.failures ≡ counted (is_err result) errors.old.failures }
{
    errors.put(b" block ")?;
    errors.put(Buffer::new().format(block).as_bytes())?;
    errors.put(b" cause ")?;
    errors.put(Buffer::new().format(cause).as_bytes())
}
