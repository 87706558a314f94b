//! Why a call was refused, and the number that C gets for it.

ghost use Rattle.std.specs.Prelude.{◌≡◌};
ghost use Rattle.embedding.specs.Numbers.{status, fault_of_store};

use store::StoreFault;

/// Why a call was refused. A message that is refused has an answer instead.
#[derive(Clone, Copy, Debug, PartialEq, Eq)]
pub enum Fault {
    /// There was no memory.
    Memory,
    /// The file or the drive cannot be opened, is held by another writer, or failed.
    Device,
    /// A frame was longer than a frame may be: no further message is answered.
    TooLong,
    /// A label is not valid.
    Text,
    /// There is no sound volume, or none can be made with these words.
    Volume,
    /// There is no such block, or no such commit.
    Nothing,
}

impl Fault {
    ghost use Rattle.std.specs.Prelude.{◌≡◌};
    ghost use Rattle.embedding.specs.Numbers.{number_of};

    fn number(self) -> i32
        ensures { result ≡ number_of self }
    {
        match self {
            Fault::Memory => 1,
            Fault::Device => 2,
            Fault::TooLong => 3,
            Fault::Text => 4,
            Fault::Volume => 5,
            Fault::Nothing => 7,
        }
    }
}

/// The fault for the caller when a store or a format refuses.
pub(crate) fn fault_of(fault: StoreFault) -> Fault
    ensures { result ≡ fault_of_store fault }
{
    match fault {
        StoreFault::Memory => Fault::Memory,
        StoreFault::Device => Fault::Device,
        StoreFault::Label => Fault::Text,
        StoreFault::NoCommit => Fault::Nothing,
        _ => Fault::Volume,
    }
}

/// The number that C gets for an outcome.
pub fn status_of(outcome: Result<(), Fault>) -> i32
    ensures { result ≡ status outcome }
{
    match outcome {
        Ok(()) => 0,
        Err(fault) => fault.number(),
    }
}
