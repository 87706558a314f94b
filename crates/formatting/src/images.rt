//! What an image may have after its last whole block when a format is finished on it.

ghost use Rattle.limits.specs.declared.TheConstants.{MOMENT_LIMIT};
ghost use Rattle.std.specs.Prelude.{◌≡◌, ◌<◌, IfErr, OnOk};
ghost use Rattle.drive.specs.Reads.{CountsFailures};
ghost use Rattle.formatting.specs.NewVolume.{words_on};
ghost use Rattle.formatting.specs.Beginning.{Begins, IsNoPart, IsPartBegun, IsPartUnbegun};
ghost use Rattle.recover.specs.Faults.{devices};

use crate::formatting::format;
use drive::{Drive, MemDrive};
use recover::StoreFault;
use std::alloc::Global;

/// Refuses, with `NotBlank`, bytes after the last whole block of an image that do not begin the next block of a format
/// with these words. A drive counts only whole blocks, so `format` does not see these bytes.
pub fn require_beginning<D: Drive>(
    alloc: Global,
    drive: &mut D,
    part: &[u8],
    label: &str,
    moment: u64,
) -> Result<(), StoreFault>
    requires { moment < MOMENT_LIMIT }
    ensures journal { D.journal drive.new ≡ D.journal drive.old }
    ensures writes { D.writes drive.new ≡ D.writes drive.old }
    ensures capacity { D.capacity drive.new ≡ D.capacity drive.old }
    ensures honest { D.honest drive.new ≡ D.honest drive.old }
    // A failure of the drive is reported only if the drive has failed.
    ensures failures { CountsFailures (devices result) (D.failures drive.old) (D.failures drive.new) }
    ensures begun { OnOk result (IsPartBegun (D.capacity drive.old) label.now moment (D.journal drive.old) part.now) }
    ensures refused { IfErr result (IsPartUnbegun (D.capacity drive.old) label.now moment (D.journal drive.old) part.now) }
{
    if part.is_empty() {
        return Ok(());
    }
    let Ok(next) = drive.next() else {
        return Err(StoreFault::Device);
    };
    require_part(alloc, drive.capacity(), label, moment, next, part)
}

/// Refuses bytes that do not begin the block at this address of a format with these words.
fn require_part(
    alloc: Global,
    capacity: u32,
    label: &str,
    moment: u64,
    at: u32,
    part: &[u8],
) -> Result<(), StoreFault>
    requires { moment < MOMENT_LIMIT }
    ensures begins { OnOk result (Begins (words_on capacity label.now moment) at part.now) }
    ensures refused { IfErr result (IsNoPart capacity label.now moment at part.now) }
{
    let mut whole = MemDrive::new(alloc, capacity, Vec::new(alloc));
    match format(alloc, &mut whole, label, moment) {
        Ok(()) => {}
        Err(StoreFault::Label) => return Err(StoreFault::Label),
        Err(StoreFault::Small) => return Err(StoreFault::Small),
        // Otherwise a format on a blank drive in memory fails only for lack of memory.
        Err(_) => return Err(StoreFault::Memory),
    }
    let Some(event) = whole.journal().get(at as usize) else {
        return Err(StoreFault::NotBlank);
    };
    if event.1.starts_with(part) {
        Ok(())
    } else {
        Err(StoreFault::NotBlank)
    }
}
