//! New volumes on images.

ghost use Rattle.limits.specs.declared.TheConstants.{MOMENT_LIMIT};
ghost use Rattle.std.specs.Prelude.{◌≡◌, ◌⊎◌, ◌<◌, true, IfErr, OnOk};
ghost use Rattle.drive.specs.Journal.{counted};
ghost use Rattle.drive.specs.Reads.{CountsFailures};
ghost use Rattle.engine.specs.Situation.{situation_on};
ghost use Rattle.formatting.specs.Beginning.{IsBegun};
ghost use Rattle.formatting.specs.NewVolume.{FormatSurvivesPowerLoss, words_on};
ghost use Rattle.programs.specs.Images.{MayLook, images_on};
ghost use Rattle.programs.specs.NewVolumes.{AreWordsRefused, IsLookRefused, MakesVolume, MakesOn, MakesOnImage};
ghost use Rattle.programs.specs.Status.{IsRefusal, drive_failures};

use crate::fault::Fault;
use crate::images::{create_image, put_back};
use crate::lines::put;
use drive::Drive;
use formatting::require_beginning;
use limits::BLOCK_SIZE;
use media::Media;
use std::alloc::Global;
use std::io::Write;
use store::{StoreFault, format};

/// Makes a volume on an image, or finishes one that a format with the same words began. A missing image is made. Prints
/// `formatted`.
pub(crate) fn format_image<M: Media, O: Write>(
    alloc: Global,
    media: &mut M,
    image: &str,
    label: &str,
    moment: u64,
    capacity: u32,
    output: &mut O,
) -> Result<(), Fault>
    requires { moment < MOMENT_LIMIT }
    ensures refusal { IfErr result IsRefusal }
    ensures makes { MakesOnImage image.now label.now moment capacity result (images_on M.Media media.old) (images_on M.Media media.new) (O.contents output.old) (O.contents output.new) }
{
    let mut drive = create_image(media, image, capacity)?;
    let made = make_or_finish(alloc, media, image, &mut drive, label, moment, output);
    put_back(media, image, drive);
    made
}

/// Makes a volume on the drive of the image at this path, or finishes one. It is refused if the bytes after its last
/// whole block do not begin the next one.
fn make_or_finish<M: Media, O: Write>(
    alloc: Global,
    media: &mut M,
    image: &str,
    drive: &mut M::Drive,
    label: &str,
    moment: u64,
    output: &mut O,
) -> Result<(), Fault>
    requires { moment < MOMENT_LIMIT }
    ensures refusal { IfErr result IsRefusal }
    ensures looks { MayLook image.now (images_on M.Media media.old) (images_on M.Media media.new) }
    ensures places { M.takes_back media.new ≡ M.takes_back media.old }
    ensures makes { MakesOn label.now moment (M.Drive.capacity drive.old) result (situation_on M.Drive.Drive None drive.old) (situation_on M.Drive.Drive None drive.new) (M.looked media.new image.now) (O.contents output.old) (O.contents output.new) (M.failures media.old) (M.failures media.new) }
{
    require_beginning_of(alloc, media, image, drive, label, moment)?;
    make(alloc, drive, label, moment, output)
}

/// Makes a volume on a drive, and prints `formatted`.
fn make<D: Drive, O: Write>(
    alloc: Global,
    drive: &mut D,
    label: &str,
    moment: u64,
    output: &mut O,
) -> Result<(), Fault>
    requires { moment < MOMENT_LIMIT }
    ensures refusal { IfErr result IsRefusal }
    ensures makes { MakesVolume label.now moment (D.capacity drive.old) result (D.journal drive.old) (D.journal drive.new) (D.honest drive.new) (O.contents output.old) (O.contents output.new) }
    ensures words { AreWordsRefused label.now (D.capacity drive.old) result }
    ensures withstands { FormatSurvivesPowerLoss (D.capacity drive.old) (words_on (D.capacity drive.old) label.now moment) (D.journal drive.old) (D.writes drive.old) (D.journal drive.new) (D.writes drive.new) (D.honest drive.new) }
    ensures failures { CountsFailures (drive_failures result) (D.failures drive.old) (D.failures drive.new) }
{
    format(alloc, drive, label, moment)?;
    put(output, b"formatted\n")
}

/// Refuses the image at this path if its bytes after its last whole block do not begin the next block of a format with
/// these words.
fn require_beginning_of<M: Media>(
    alloc: Global,
    media: &mut M,
    image: &str,
    drive: &mut M::Drive,
    label: &str,
    moment: u64,
) -> Result<(), Fault>
    requires { moment < MOMENT_LIMIT }
    ensures refusal { IfErr result IsRefusal }
    ensures looks { MayLook image.now (images_on M.Media media.old) (images_on M.Media media.new) }
    ensures places { M.takes_back media.new ≡ M.takes_back media.old }
    ensures journal { M.Drive.journal drive.new ≡ M.Drive.journal drive.old }
    ensures writes { M.Drive.writes drive.new ≡ M.Drive.writes drive.old }
    ensures capacity { M.Drive.capacity drive.new ≡ M.Drive.capacity drive.old }
    ensures honest { M.Drive.honest drive.new ≡ M.Drive.honest drive.old }
    ensures counted { CountsFailures 0 (M.Drive.failures drive.old) (M.Drive.failures drive.new) }
    // A failure is reported only if the drive has failed, or the look at the image.
    ensures failures { CountsFailures (drive_failures result) (M.Drive.failures drive.old) (M.Drive.failures drive.new) ⊎ (M.failures media.new ≡ counted true (M.failures media.old)) }
    ensures begun { OnOk result (IsBegun (M.Drive.capacity drive.old) label.now moment (M.Drive.journal drive.old) (M.looked media.new image.now)) }
    ensures refused { IfErr result (IsLookRefused (M.Drive.capacity drive.old) label.now moment (M.Drive.journal drive.old) (M.looked media.new image.now)) }
{
    let mut part = [0; BLOCK_SIZE];
    let Ok(count) = media.part(image, drive, &mut part) else {
        return Err(Fault::Store(StoreFault::Device));
    };
    match require_beginning(alloc, drive, &part[..count], label, moment) {
        Ok(()) => Ok(()),
        Err(fault) => Err(Fault::Store(fault)),
    }
}
