//! What is printed about the volume on an image. Nothing is written to the image.

ghost use Rattle.limits.specs.declared.TheConstants.{FILE_BYTES};
ghost use Rattle.std.specs.Prelude.{◌≡◌, ℕ, false, IfErr, IfOk, IsTrue};
ghost use Rattle.drive.specs.Reads.{CountsFailures, ReadsOnly};
ghost use Rattle.durability.specs.Runs.{told};
ghost use Rattle.durability.specs.Runs.Answer.{Data};
ghost use Rattle.durability.specs.Runs.Query.{Read};
ghost use Rattle.model.specs.Session.{State};
ghost use Rattle.programs.specs.Images.{images_on};
ghost use Rattle.programs.specs.Questions.{BeginsFileAt, IsFileAt, Known, PrintsAnswer, PutsFile, PutsPiece, ShowsImage, ShowsPath, StopsPiece};
ghost use Rattle.programs.specs.Questions.Question.{Names_at, Bytes_at, Commits, Soundness};
ghost use Rattle.programs.specs.Status.{IsRefusal, drive_failures};
ghost use Rattle.recover.specs.Faults.{IsShortage};
ghost use Rattle.store.specs.Agrees.{IsStoreOn};
ghost use Rattle.store.specs.Calls.{IsOpenOn, ReadRefuses};

use crate::fault::Fault;
use crate::images::{put_back, read_image};
use crate::lines::{commit_lines, name_lines, put, sound_line};
use drive::Drive;
use engine::put_all;
use limits::FILE_BYTES;
use media::Media;
use request::{ByteCount, Path};
use std::alloc::Global;
use std::io::Write;
use store::{Store, StoreFault, check_volume};

/// More bytes than any medium has room for.
const MOST_BYTES: u64 = 1 << 63;

/// Prints the names in a directory of the volume on an image.
pub(crate) fn list_image<M: Media, O: Write>(
    alloc: Global,
    media: &mut M,
    image: &str,
    path: &str,
    output: &mut O,
) -> Result<(), Fault>
    ensures refusal { IfErr result IsRefusal }
    ensures prints { ShowsPath Names_at image.now path.now result (images_on M.Media media.old) (images_on M.Media media.new) (O.contents output.old) (O.contents output.new) }
{
    let path = Path::parse(alloc, path)?;
    let mut drive = read_image(media, image)?;
    let shown = list(alloc, &mut drive, &path, output);
    put_back(media, image, drive);
    shown
}

/// Prints the bytes of a file of the volume on an image.
pub(crate) fn get_image<M: Media, O: Write>(
    alloc: Global,
    media: &mut M,
    image: &str,
    path: &str,
    output: &mut O,
) -> Result<(), Fault>
    ensures refusal { IfErr result IsRefusal }
    ensures prints { ShowsPath Bytes_at image.now path.now result (images_on M.Media media.old) (images_on M.Media media.new) (O.contents output.old) (O.contents output.new) }
{
    let path = Path::parse(alloc, path)?;
    let mut drive = read_image(media, image)?;
    let shown = get(alloc, &mut drive, &path, output);
    put_back(media, image, drive);
    shown
}

/// Prints the commits of the volume on an image.
pub(crate) fn log_image<M: Media, O: Write>(
    alloc: Global,
    media: &mut M,
    image: &str,
    output: &mut O,
) -> Result<(), Fault>
    ensures refusal { IfErr result IsRefusal }
    ensures prints { ShowsImage Commits image.now result (images_on M.Media media.old) (images_on M.Media media.new) (O.contents output.old) (O.contents output.new) }
{
    let mut drive = read_image(media, image)?;
    let shown = log(alloc, &mut drive, output);
    put_back(media, image, drive);
    shown
}

/// Checks that the state after each commit on an image is recovered, and prints how many commits there are.
pub(crate) fn check_image<M: Media, O: Write>(
    alloc: Global,
    media: &mut M,
    image: &str,
    output: &mut O,
) -> Result<(), Fault>
    ensures refusal { IfErr result IsRefusal }
    ensures prints { ShowsImage Soundness image.now result (images_on M.Media media.old) (images_on M.Media media.new) (O.contents output.old) (O.contents output.new) }
{
    let mut drive = read_image(media, image)?;
    let shown = check(alloc, &mut drive, output);
    put_back(media, image, drive);
    shown
}

/// Prints the names in a directory, each on a line of its own, after a letter for its kind.
fn list<D: Drive, O: Write>(
    alloc: Global,
    drive: &mut D,
    path: &Path,
    output: &mut O,
) -> Result<(), Fault>
    ensures refusal { IfErr result IsRefusal }
    ensures prints { PrintsAnswer (Names_at path.now) result (D.capacity drive.old) (D.journal drive.old) (D.honest drive.new) (O.contents output.old) (O.contents output.new) }
    ensures journal { D.journal drive.new ≡ D.journal drive.old }
    ensures writes { D.writes drive.new ≡ D.writes drive.old }
    ensures failures { CountsFailures (drive_failures result) (D.failures drive.old) (D.failures drive.new) }
    ensures honest { IsTrue (D.honest drive.new) → IsTrue (D.honest drive.old) }
{
    let mut store = Store::open(alloc, drive)?;
    let listing = store.list(alloc, drive, path)?;
    let lines = name_lines(alloc, listing.names())?;
    put(output, lines.as_bytes())
}

/// Prints the bytes of a file.
fn get<D: Drive, O: Write>(
    alloc: Global,
    drive: &mut D,
    path: &Path,
    output: &mut O,
) -> Result<(), Fault>
    ensures refusal { IfErr result IsRefusal }
    ensures prints { PrintsAnswer (Bytes_at path.now) result (D.capacity drive.old) (D.journal drive.old) (D.honest drive.new) (O.contents output.old) (O.contents output.new) }
    ensures journal { D.journal drive.new ≡ D.journal drive.old }
    ensures writes { D.writes drive.new ≡ D.writes drive.old }
    ensures failures { CountsFailures (drive_failures result) (D.failures drive.old) (D.failures drive.new) }
    ensures honest { IsTrue (D.honest drive.new) → IsTrue (D.honest drive.old) }
{
    let mut store = Store::open(alloc, drive)?;
    put_file(&mut store, alloc, drive, path, output)
}

/// Prints the bytes of a file piece by piece, so that the memory for one piece is enough.
fn put_file<D: Drive, O: Write>(
    store: &mut Store,
    alloc: Global,
    drive: &mut D,
    path: &Path,
    output: &mut O,
) -> Result<(), Fault>
    requires agrees { IsStoreOn (D.journal drive.old) (D.capacity drive.old) store.old }
    requires going { store.old.is_stopped ≡ false }
    ensures refusal { IfErr result IsRefusal }
    ensures puts { PutsFile (λ bytes. Known (λ volume S. IsOpenOn (D.capacity drive.old) volume (D.journal drive.old) S store.old) (D.honest drive.new) (λ S. IsFileAt S.tree path.now bytes))
        (λ front. Known (λ volume S. IsOpenOn (D.capacity drive.old) volume (D.journal drive.old) S store.old) (D.honest drive.new) (λ S. BeginsFileAt S.tree path.now front))
        (λ fault. Known (λ volume S. IsOpenOn (D.capacity drive.old) volume (D.journal drive.old) S store.old) (D.honest drive.new) (λ S. ReadRefuses (told S.tree (Read path.now 0 FILE_BYTES)) fault))
        (λ fault. Known (λ volume S. IsOpenOn (D.capacity drive.old) volume (D.journal drive.old) S store.old) (D.honest drive.new) (λ S. IsShortage fault))
        result (O.contents output.old) (O.contents output.new) }
    ensures reads { ReadsOnly D.Drive (drive_failures result) drive.old drive.new }
{
    let mut offset = 0;
    while offset < MOST_BYTES {
        if put_piece(store, alloc, drive, path, offset, output)? {
            return put(output, &[]);
        }
        offset += FILE_BYTES as u64;
    }
    // No medium has room for so many bytes.
    Err(Fault::Store(StoreFault::Memory))
}

/// Prints the piece of a file that begins at the offset. Returns whether it is the last one.
fn put_piece<D: Drive, O: Write>(
    store: &mut Store,
    alloc: Global,
    drive: &mut D,
    path: &Path,
    offset: u64,
    output: &mut O,
) -> Result<bool, Fault>
    requires agrees { IsStoreOn (D.journal drive.old) (D.capacity drive.old) store.old }
    requires going { store.old.is_stopped ≡ false }
    ensures refusal { IfErr result IsRefusal }
    ensures ok { IfOk result (λ last. PutsPiece (λ piece. Known (λ volume S. IsOpenOn (D.capacity drive.old) volume (D.journal drive.old) S store.old) (D.honest drive.new) (λ S. told S.tree (Read path.now offset FILE_BYTES) ≡ Data piece))
        last (O.contents output.old) (O.contents output.new)) }
    ensures err { IfErr result (λ fault. StopsPiece (λ piece. Known (λ volume S. IsOpenOn (D.capacity drive.old) volume (D.journal drive.old) S store.old) (D.honest drive.new) (λ S. told S.tree (Read path.now offset FILE_BYTES) ≡ Data piece))
        (λ refusal. Known (λ volume S. IsOpenOn (D.capacity drive.old) volume (D.journal drive.old) S store.old) (D.honest drive.new) (λ S. ReadRefuses (told S.tree (Read path.now offset FILE_BYTES)) refusal))
        fault (O.contents output.old) (O.contents output.new)) }
    // The store stays open on the state that it knows.
    ensures knows { (volume : ℕ) (S : State) → IsTrue (D.honest drive.new) → IsOpenOn (D.capacity drive.old) volume (D.journal drive.old) S store.old → IsOpenOn (D.capacity drive.old) volume (D.journal drive.old) S store.new }
    ensures agrees { IsStoreOn (D.journal drive.new) (D.capacity drive.new) store.new }
    ensures going { store.new.is_stopped ≡ false }
    ensures reads { ReadsOnly D.Drive (drive_failures result) drive.old drive.new }
{
    let piece = store.read(
        alloc,
        drive,
        path,
        offset,
        &ByteCount::new(FILE_BYTES as u32),
    )?;
    let bytes = piece.as_slice();
    put_all(output, bytes)?;
    Ok(bytes.len() < FILE_BYTES)
}

/// Prints the commits, the newest first, each on a line of its own: its number, the address of its VAT ICB, and how
/// many files and directories the tree had after it.
fn log<D: Drive, O: Write>(alloc: Global, drive: &mut D, output: &mut O) -> Result<(), Fault>
    ensures refusal { IfErr result IsRefusal }
    ensures prints { PrintsAnswer Commits result (D.capacity drive.old) (D.journal drive.old) (D.honest drive.new) (O.contents output.old) (O.contents output.new) }
    ensures journal { D.journal drive.new ≡ D.journal drive.old }
    ensures writes { D.writes drive.new ≡ D.writes drive.old }
    ensures failures { CountsFailures (drive_failures result) (D.failures drive.old) (D.failures drive.new) }
    ensures honest { IsTrue (D.honest drive.new) → IsTrue (D.honest drive.old) }
{
    let store = Store::open(alloc, drive)?;
    let commits = store.history(alloc, drive)?;
    let lines = commit_lines(alloc, &commits)?;
    put(output, lines.as_bytes())
}

/// Checks that the state after each commit is recovered, and prints how many commits there are.
fn check<D: Drive, O: Write>(alloc: Global, drive: &mut D, output: &mut O) -> Result<(), Fault>
    ensures refusal { IfErr result IsRefusal }
    ensures prints { PrintsAnswer Soundness result (D.capacity drive.old) (D.journal drive.old) (D.honest drive.new) (O.contents output.old) (O.contents output.new) }
    ensures journal { D.journal drive.new ≡ D.journal drive.old }
    ensures writes { D.writes drive.new ≡ D.writes drive.old }
    ensures failures { CountsFailures (drive_failures result) (D.failures drive.old) (D.failures drive.new) }
    ensures honest { IsTrue (D.honest drive.new) → IsTrue (D.honest drive.old) }
{
    let commits = check_volume(alloc, drive)?;
    let line = sound_line(alloc, commits)?;
    put(output, line.as_bytes())
}
