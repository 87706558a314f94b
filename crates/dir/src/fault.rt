//! Why blocks are not the data of a directory.

ghost use Rattle.std.specs.Prelude.{◌≡◌};
ghost use Rattle.dir.specs.declared.fault.DirFault.TheVariants.{Memory};

use std::alloc::{AllocError, AllocFailed};

/// Why blocks are not the data of a directory. Each fault has a number, which causes of refusals
/// show.
#[derive(Clone, Copy, Debug, PartialEq, Eq)]
pub enum DirFault {
    /// An identifier's tag, or a field that is the same in each identifier.
    Tag = 31,
    /// A parent that is not the first identifier, or has a name or a unique ID, or a first identifier that is no
    /// parent.
    Parent = 32,
    /// Bytes that are the spelling of no name.
    Name = 33,
    /// A name that occurs twice.
    Twice = 34,
    /// An identifier that passes the end of its block, or leaves 4 to 28 bytes after it in the block.
    Span = 35,
    /// Implementation use or padding that is not as the layout has it.
    Pad = 36,
    /// An identifier that passes the end of the data, bytes after the data that are not zeros, or more names than a
    /// directory may have.
    End = 37,
    /// There is no memory.
    Memory = 7,
}

impl DirFault {
    ghost use Rattle.std.specs.Prelude.{◌≡◌};
    ghost use Rattle.dir.specs.Fault.{dir_number};

    /// The number of the fault.
    pub fn number(self) -> u8
        ensures { result ≡ dir_number self }
    {
        self as u8
    }
}

impl From<AllocError> for DirFault {
    ghost from_gives = { λ _ e. e ≡ Memory };

    fn from(_error: AllocError) -> DirFault {
        DirFault::Memory
    }
}

impl<T: Drop> From<AllocFailed<T>> for DirFault {
    ghost from_gives = { λ _ e. e ≡ Memory };

    fn from(_error: AllocFailed<T>) -> DirFault {
        DirFault::Memory
    }
}
