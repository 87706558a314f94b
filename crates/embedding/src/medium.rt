//! What a session's volume is on.

ghost use Rattle.std.specs.Prelude.{◌≡◌, IfOk, IfErr};
ghost use Rattle.embedding.specs.declared.fault.Fault.TheVariants as faults;
ghost use Rattle.embedding.specs.Opens.{LiesUnder};

use crate::fault::Fault;
use crate::volumes::drive_of;
use drive::{FileDrive, MemDrive};
use limits::GREATEST_CAPACITY;
use settling::GatheringFileDrive;
use std::alloc::Global;

/// What a session's volume is on.
#[derive(Drop)]
pub enum Medium {
    /// An image file, locked while it is held.
    Image(GatheringFileDrive),
    /// A drive of the caller's, which is written in order alone.
    InOrder(FileDrive),
    /// Memory, whose blocks the caller takes.
    Memory(MemDrive),
}

/// What is under a number: a drive that is written in order alone, or else an image file. The number is closed when the
/// medium is dropped, or if this is refused.
pub(crate) fn medium_under(alloc: Global, number: i32, is_in_order: bool) -> Result<Medium, Fault>
    ensures lies { IfOk result (LiesUnder is_in_order) }
    ensures device { IfErr result (λ fault. fault ≡ faults.Device) }
{
    let file = match drive_of(number, GREATEST_CAPACITY) {
        Ok(file) => file,
        Err(fault) => return Err(fault),
    };
    if is_in_order {
        return Ok(Medium::InOrder(file));
    }
    match GatheringFileDrive::over(alloc, file) {
        Ok(drive) => Ok(Medium::Image(drive)),
        Err(_) => Err(Fault::Device),
    }
}
