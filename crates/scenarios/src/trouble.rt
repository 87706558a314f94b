//! Why a step failed.

use drive::DriveFault;
use std::alloc::{AllocError, AllocFailed};
use std::fmt;
use store::StoreFault;
use words::WordsFault;

/// Why a step failed.
#[derive(Clone, Copy, Debug)]
pub enum Trouble {
    /// The line is no step, for this reason.
    Line(&'static str),
    /// A call of the store or of the format was refused. A line may expect that.
    Refused(StoreFault),
    /// The step reported something else than its line expects. The stage keeps both texts.
    Told,
    /// There was no memory for the player.
    Memory,
}

impl fmt::Display for Trouble {
    fn fmt<W: fmt::Write>(&self, f: &mut fmt::Formatter<W>) -> fmt::Result {
        match self {
            Trouble::Line(why) => write!(f, "{why}"),
            Trouble::Refused(fault) => write!(f, "{fault}"),
            Trouble::Told => write!(f, "another report"),
            Trouble::Memory => write!(f, "no memory"),
        }
    }
}

impl From<AllocError> for Trouble {
    fn from(_error: AllocError) -> Trouble {
        Trouble::Memory
    }
}

impl<T: Drop> From<AllocFailed<T>> for Trouble {
    fn from(_error: AllocFailed<T>) -> Trouble {
        Trouble::Memory
    }
}

impl From<fmt::Error> for Trouble {
    fn from(_error: fmt::Error) -> Trouble {
        Trouble::Memory
    }
}

impl From<StoreFault> for Trouble {
    fn from(fault: StoreFault) -> Trouble {
        Trouble::Refused(fault)
    }
}

impl From<DriveFault> for Trouble {
    fn from(_fault: DriveFault) -> Trouble {
        Trouble::Refused(StoreFault::Device)
    }
}

impl From<WordsFault> for Trouble {
    fn from(fault: WordsFault) -> Trouble {
        match fault {
            WordsFault::Unknown(why) => Trouble::Line(why),
            WordsFault::Memory => Trouble::Memory,
        }
    }
}
