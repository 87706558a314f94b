//! Why words were not read.

use std::alloc::{AllocError, AllocFailed};
use std::fmt;

/// Why words were not read.
#[derive(Clone, Copy, Debug, PartialEq, Eq)]
pub enum WordsFault {
    /// They are not understood, for this reason.
    Unknown(&'static str),
    /// There was no memory.
    Memory,
}

impl From<AllocError> for WordsFault {
    fn from(_error: AllocError) -> WordsFault {
        WordsFault::Memory
    }
}

impl<T: Drop> From<AllocFailed<T>> for WordsFault {
    fn from(_error: AllocFailed<T>) -> WordsFault {
        WordsFault::Memory
    }
}

impl From<fmt::Error> for WordsFault {
    fn from(_error: fmt::Error) -> WordsFault {
        WordsFault::Memory
    }
}
