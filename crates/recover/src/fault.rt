//! Why a call on a volume is refused.

ghost use Rattle.std.specs.Prelude.{◌≡◌};
ghost use Rattle.recover.specs.declared.fault.StoreFault.TheVariants.{Damaged, Device, Memory};

use drive::DriveFault;
use std::alloc::{AllocError, AllocFailed};
use thiserror::Error;

/// Why a call on a volume was refused. It is shown as its number and its name.
#[derive(Clone, Copy, Debug, PartialEq, Eq, Error)]
pub enum StoreFault {
    /// The medium, or the end of the image, has something that a format with these words would not have written.
    #[error("61 NotBlank")]
    NotBlank,
    /// The text is no label: it is empty, has a NUL or a character without a spelling, or takes more than 31 bytes.
    #[error("62 Label")]
    Label,
    /// The drive has fewer than `limits::LEAST_CAPACITY` blocks.
    #[error("63 Small")]
    Small,
    /// The drive failed. It may still have done what it was asked.
    #[error("64 Device")]
    Device,
    /// There was no memory.
    #[error("65 Memory")]
    Memory,
    /// The medium has no VAT ICB.
    #[error("66 NotFormatted")]
    NotFormatted,
    /// A structure is invalid. `block` is the address of its first block, and `cause` the number of what is wrong with
    /// it.
    #[error("67 Damaged block {block} cause {cause}")]
    Damaged { block: u32, cause: u8 },
    /// There may be no room for what the request would write.
    #[error("68 Full")]
    Full,
    /// A write failed earlier, so that the store does not know what is on the medium.
    #[error("69 Stopped")]
    Stopped,
    /// The volume has fewer commits.
    #[error("70 NoCommit")]
    NoCommit,
    /// The path leads to nothing.
    #[error("96 NotFound")]
    NotFound,
    /// A file was asked for, and the path leads to a directory.
    #[error("97 IsDirectory")]
    IsDirectory,
    /// A directory was asked for, and the path leads to a file.
    #[error("98 NotDirectory")]
    NotDirectory,
    /// The whole file was asked for, and it has more than `limits::FILE_BYTES` bytes.
    #[error("99 TooLong")]
    TooLong,
}

impl From<DriveFault> for StoreFault {
    ghost from_gives = { λ _ e. e ≡ Device };

    fn from(_fault: DriveFault) -> StoreFault {
        StoreFault::Device
    }
}

impl From<AllocError> for StoreFault {
    ghost from_gives = { λ _ e. e ≡ Memory };

    fn from(_error: AllocError) -> StoreFault {
        StoreFault::Memory
    }
}

impl<T: Drop> From<AllocFailed<T>> for StoreFault {
    ghost from_gives = { λ _ e. e ≡ Memory };

    fn from(_error: AllocFailed<T>) -> StoreFault {
        StoreFault::Memory
    }
}

/// The fault of an invalid structure: the address of its first block, and the number of what is wrong with it.
pub fn damaged(block: u32, cause: u8) -> StoreFault
    ensures { result ≡ Damaged block cause }
{
    StoreFault::Damaged { block, cause }
}
