//! Why a line of a case fails.

use drive::DriveFault;
use std::alloc::{AllocError, AllocFailed};
use std::fmt;
use words::WordsFault;

/// Why a line of a case fails.
#[derive(Debug, Drop)]
pub enum Trouble {
    /// The line is not understood, for this reason.
    Line(&'static str),
    /// The answer is another than that of the line.
    Differs(String),
    /// There was no memory.
    Memory,
}

impl fmt::Display for Trouble {
    fn fmt<W: fmt::Write>(&self, f: &mut fmt::Formatter<W>) -> fmt::Result {
        match self {
            Trouble::Line(why) => write!(f, "{why}"),
            Trouble::Differs(got) => write!(f, "got {got}"),
            Trouble::Memory => write!(f, "no memory"),
        }
    }
}

impl From<AllocError> for Trouble {
    fn from(_error: AllocError) -> Trouble {
        Trouble::Memory
    }
}

impl<T: Drop> From<AllocFailed<T>> for Trouble {
    fn from(_error: AllocFailed<T>) -> Trouble {
        Trouble::Memory
    }
}

impl From<fmt::Error> for Trouble {
    fn from(_error: fmt::Error) -> Trouble {
        Trouble::Memory
    }
}

impl From<DriveFault> for Trouble {
    fn from(_fault: DriveFault) -> Trouble {
        Trouble::Line("the drive failed")
    }
}

impl From<WordsFault> for Trouble {
    fn from(fault: WordsFault) -> Trouble {
        match fault {
            WordsFault::Unknown(why) => Trouble::Line(why),
            WordsFault::Memory => Trouble::Memory,
        }
    }
}
