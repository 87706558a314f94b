//! Why a text cannot be written, and why bytes are no text.

ghost use Rattle.std.specs.Prelude.{◌≡◌};
ghost use Rattle.osta.specs.Fault.{name_number, osta_number};
ghost use Rattle.osta.specs.declared.fault.NameFault.TheVariants as name;
ghost use Rattle.osta.specs.declared.fault.OstaFault.TheVariants as osta;

use std::alloc::AllocError;

/// Why a text is no name, is no label or cannot be written, in the order in which the faults are
/// reported. Each has a number, which causes of refusals show.
#[derive(Clone, Copy, Debug, PartialEq, Eq)]
pub enum NameFault {
    /// The text is empty.
    Empty = 1,
    /// It is `.` or `..`, which mean the directory itself and the one above.
    Dot = 2,
    /// It has a slash.
    Slash = 3,
    /// It has a NUL.
    Nul = 4,
    /// A character has no spelling.
    Wide = 5,
    /// The spelling takes more bytes than there is room for.
    Long = 6,
    /// There is no memory for a copy.
    Memory = 7,
}

impl NameFault {
    /// The number of the fault.
    pub fn number(self) -> u8
        ensures { result ≡ name_number self }
    {
        self as u8
    }
}

impl From<AllocError> for NameFault {
    ghost from_gives = { λ _ fault. fault ≡ name.Memory };

    fn from(_: AllocError) -> NameFault {
        NameFault::Memory
    }
}

/// Why bytes are the spelling of no text. The faults of a spelling, `CompId` to `Surrogate`, are reported in their
/// order. Of a dstring, `Count` and `Tail` are reported before these. Each has a number, which causes of refusals show.
#[derive(Clone, Copy, Debug, PartialEq, Eq)]
pub enum OstaFault {
    /// There is no memory for the text. This is reported last.
    Memory = 7,
    /// The first byte is neither 8 nor 16.
    CompId = 11,
    /// Characters of two bytes take an odd count of bytes.
    Odd = 12,
    /// Another spelling of the text has fewer bytes.
    NotShortest = 13,
    /// Two bytes are a surrogate, U+FEFF or U+FFFE.
    Surrogate = 14,
    /// The last byte of a dstring counts more bytes than there are before it.
    Count = 15,
    /// A byte of a dstring after its text is not zero.
    Tail = 16,
}

impl OstaFault {
    /// The number of the fault.
    pub fn number(self) -> u8
        ensures { result ≡ osta_number self }
    {
        self as u8
    }
}

impl From<AllocError> for OstaFault {
    ghost from_gives = { λ _ fault. fault ≡ osta.Memory };

    fn from(_: AllocError) -> OstaFault {
        OstaFault::Memory
    }
}
