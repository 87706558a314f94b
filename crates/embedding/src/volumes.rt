//! New volumes, and drives over descriptors of the caller.

ghost use Rattle.limits.specs.declared.TheConstants.{MOMENT_LIMIT};
ghost use Rattle.std.specs.Prelude.{◌≡◌, ◌<◌, ℕ, List, IfOk, IfErr, OnOk};
ghost use Rattle.drive.specs.FileDrive.{capacity_of, honest_of, journal_of, writes_of, BeginsWith};
ghost use Rattle.formatting.specs.Beginning.{IsBegun, IsUnbegun};
ghost use Rattle.formatting.specs.NewVolume.{FormatSurvivesPowerLoss, words_on};
ghost use Rattle.embedding.specs.declared.fault.Fault.TheVariants as faults;
ghost use Rattle.embedding.specs.Formats.{AreWordsRefused, FormatsFile, FormatsOn, IsMadeInMemory, IsNotMade, Makes};

use crate::fault::{Fault, fault_of};
use drive::{Drive, FileDrive, Look, MemDrive};
use formatting::{format, require_beginning};
use limits::{BLOCK_SIZE, MOMENT_LIMIT};
use std::alloc::Global;
use store::StoreFault;

/// The drive over a descriptor, which is closed when the drive is dropped, or if this is refused.
pub(crate) fn drive_of(fd: i32, capacity: u32) -> Result<FileDrive, Fault>
    ensures image { IfOk result (λ drive. (image : List (List ℕ)) × BeginsWith image drive) }
    ensures capacity { IfOk result (λ drive. capacity_of drive ≡ capacity) }
    ensures device { IfErr result (λ fault. fault ≡ faults.Device) }
{
    match FileDrive::over_number(fd, capacity) {
        Ok(drive) => Ok(drive),
        Err(_) => Err(Fault::Device),
    }
}

/// Makes a volume on the file of a descriptor, or finishes one that a format with the same words began. `Text` if the
/// label is not UTF-8 or no label, and `Volume` if the moment is `MOMENT_LIMIT` or later.
pub fn format_file(
    alloc: Global,
    fd: i32,
    label: &[u8],
    moment: u64,
    capacity: u32,
) -> Result<(), Fault>
    ensures { FormatsFile label.now moment capacity result }
{
    let mut drive = match drive_of(fd, capacity) {
        Ok(drive) => drive,
        Err(fault) => return Err(fault),
    };
    let mut look = Look::new(&[]);
    format_on(alloc, &mut drive, &mut look, label, moment)
}

/// Makes a volume on a file, or finishes one. Contracts see in `look` what is after its last whole block.
fn format_on(
    alloc: Global,
    drive: &mut FileDrive,
    look: &mut Look,
    label: &[u8],
    moment: u64,
) -> Result<(), Fault>
    ensures { FormatsOn label.now moment result look.new.part drive.old drive.new }
{
    let Ok(text) = std::str::from_utf8(label) else {
        return Err(Fault::Text);
    };
    if moment >= MOMENT_LIMIT {
        return Err(Fault::Volume);
    }
    if let Err(fault) = require_beginning_of(alloc, drive, look, text, moment) {
        return Err(fault_of(fault));
    }
    make(alloc, drive, text, moment)
}

/// Refuses a file whose bytes after its last whole block do not begin the next block of a format with these words.
fn require_beginning_of(
    alloc: Global,
    drive: &mut FileDrive,
    look: &mut Look,
    label: &str,
    moment: u64,
) -> Result<(), StoreFault>
    requires { moment < MOMENT_LIMIT }
    ensures journal { journal_of drive.new ≡ journal_of drive.old }
    ensures writes { writes_of drive.new ≡ writes_of drive.old }
    ensures capacity { capacity_of drive.new ≡ capacity_of drive.old }
    ensures honest { honest_of drive.new ≡ honest_of drive.old }
    ensures begun { OnOk result (IsBegun (capacity_of drive.old) label.now moment (journal_of drive.old) look.new.part) }
    ensures refused { IfErr result (IsUnbegun (capacity_of drive.old) label.now moment (journal_of drive.old) look.new.part) }
{
    let mut part = [0; BLOCK_SIZE];
    let Ok(count) = drive.part(&mut part, look) else {
        return Err(StoreFault::Device);
    };
    require_beginning(alloc, drive, &part[..count], label, moment)
}

/// Makes a new volume in memory. The faults are those of `format_file`.
pub(crate) fn format_memory(
    alloc: Global,
    label: &[u8],
    moment: u64,
    capacity: u32,
) -> Result<MemDrive, Fault>
    ensures made { IfOk result (IsMadeInMemory label.now moment capacity) }
    ensures refused { IfErr result (IsNotMade label.now moment capacity) }
{
    let Ok(text) = std::str::from_utf8(label) else {
        return Err(Fault::Text);
    };
    if moment >= MOMENT_LIMIT {
        return Err(Fault::Volume);
    }
    let mut drive = MemDrive::new(alloc, capacity, Vec::new(alloc));
    match make(alloc, &mut drive, text, moment) {
        Ok(()) => Ok(drive),
        Err(fault) => Err(fault),
    }
}

/// Makes a volume on a drive.
fn make<D: Drive>(alloc: Global, drive: &mut D, label: &str, moment: u64) -> Result<(), Fault>
    requires { moment < MOMENT_LIMIT }
    ensures makes { Makes label.now moment (D.capacity drive.old) result (D.journal drive.old) (D.journal drive.new) (D.honest drive.new) }
    ensures words { AreWordsRefused label.now (D.capacity drive.old) result }
    ensures withstands { FormatSurvivesPowerLoss (D.capacity drive.old) (words_on (D.capacity drive.old) label.now moment) (D.journal drive.old) (D.writes drive.old) (D.journal drive.new) (D.writes drive.new) (D.honest drive.new) }
    ensures capacity { D.capacity drive.new ≡ D.capacity drive.old }
{
    match format(alloc, drive, label, moment) {
        Ok(()) => Ok(()),
        Err(fault) => Err(fault_of(fault)),
    }
}
