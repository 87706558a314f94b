//! Drives over files.

use crate::steps::{Step, play};
use drive::{DriveFault, FileDrive, create_image, open_image};
use std::fs;
use std::fs::File;
use std::os::fd::IntoRawFd;
use std::os::unix::fs::symlink;
use std::test::Fail;

/// Plays the steps on an image. If it is missing, it is made.
fn play_created(
    rt: &HostRuntime,
    path: &str,
    capacity: u32,
    steps: &[Step<'_>],
) -> Result<(), Fail> {
    let mut drive = FileDrive::create(rt, path, capacity)?;
    play(rt, &mut drive, steps)
}

/// Plays the steps on a new image, in place of one that may be there.
fn play_new(rt: &HostRuntime, path: &str, capacity: u32, steps: &[Step<'_>]) -> Result<(), Fail> {
    let _ = fs::remove_file(rt, path);
    play_created(rt, path, capacity, steps)
}

/// Plays the steps on an image that must be there.
fn play_opened(
    rt: &HostRuntime,
    path: &str,
    capacity: u32,
    steps: &[Step<'_>],
) -> Result<(), Fail> {
    let mut drive = FileDrive::open(rt, path, capacity)?;
    play(rt, &mut drive, steps)
}

/// Makes an image of `size` bytes.
fn make(rt: &HostRuntime, path: &str, size: u64) -> Result<(), Fail> {
    create_image(rt, path)?.set_len(size)?;
    Ok(())
}

/// Whether an image can be opened.
fn is_opened(rt: &HostRuntime, path: &str, capacity: u32) -> bool {
    FileDrive::open(rt, path, capacity).is_ok()
}

/// Whether an image can be opened to be read.
fn is_read(rt: &HostRuntime, path: &str, capacity: u32) -> bool {
    FileDrive::open_to_read(rt, path, capacity).is_ok()
}

/// Whether a path is refused when it is opened, when it is opened to be read, and when an image is made there.
fn refused(rt: &HostRuntime, path: &str, capacity: u32) -> (bool, bool, bool) {
    (
        !is_opened(rt, path, capacity),
        !is_read(rt, path, capacity),
        FileDrive::create(rt, path, capacity).is_err(),
    )
}

/// Whether a file is refused as an image by the number of its descriptor.
fn number_is_refused(file: File, capacity: u32) -> bool {
    FileDrive::over_number(file.into_raw_fd(), capacity).is_err()
}

const KEPT: [Step<'static>; 7] = [
    Step::Capacity(10),
    Step::Next(Ok(0)),
    Step::Write(0, &[7, 8], Ok(())),
    Step::Next(Ok(2)),
    Step::Write(2, &[9], Ok(())),
    Step::Next(Ok(3)),
    Step::File("keeps_blocks.img", 6144, &[(0, 7), (2048, 8), (4096, 9)]),
];

const OPENED_AGAIN: [Step<'static>; 4] = [
    Step::Next(Ok(3)),
    Step::Read(1, Ok(())),
    Step::Holds(8),
    Step::Remove("keeps_blocks.img"),
];

#[test]
fn a_file_keeps_blocks(rt: HostRuntime) -> Result<(), Fail> {
    play_new(&rt, "keeps_blocks.img", 10, &KEPT)?;
    play_opened(&rt, "keeps_blocks.img", 3, &OPENED_AGAIN)
}

const RUN: [Step<'static>; 9] = [
    Step::Capacity(100),
    Step::Next(Ok(0)),
    Step::Run(0, &[7; 40], &[8, 9], Ok(())),
    Step::Next(Ok(42)),
    Step::File(
        "run.img",
        42 * 2048,
        &[(39 * 2048, 7), (40 * 2048, 8), (41 * 2048, 9)],
    ),
    Step::Next(Ok(42)),
    Step::Run(41, &[1], &[], Err(DriveFault)),
    Step::Next(Ok(42)),
    Step::Remove("run.img"),
];

/// The second slice of a run is after the first. A run that does not begin at the next address is a fault.
#[test]
fn a_run_lies_in_one_piece(rt: HostRuntime) -> Result<(), Fail> {
    play_new(&rt, "run.img", 100, &RUN)
}

/// A new image of one block, by the number of a descriptor.
fn by_number(rt: &HostRuntime, path: &str) -> Result<FileDrive, Fail> {
    let _ = fs::remove_file(rt, path);
    make(rt, path, 2048)?;
    let file = open_image(rt, path)?;
    Ok(FileDrive::over_number(file.into_raw_fd(), 10)?)
}

const NUMBERED: [Step<'static>; 4] = [
    Step::Capacity(10),
    Step::Next(Ok(1)),
    Step::Write(1, &[7], Ok(())),
    Step::File("number.img", 4096, &[(2048, 7)]),
];

/// Whether other writers are refused, by the path and by a number, while a new image is held by the number of a
/// descriptor.
fn is_held(rt: &HostRuntime, path: &str) -> Result<bool, Fail> {
    let mut drive = by_number(rt, path)?;
    let is_held = !is_opened(rt, path, 10) && number_is_refused(open_image(rt, path)?, 10);
    play(rt, &mut drive, &NUMBERED)?;
    Ok(is_held)
}

/// An image by the number of a descriptor is held like any other.
#[test]
fn a_descriptor_is_an_image_by_its_number(rt: HostRuntime) -> Result<(), Fail> {
    let path = "number.img";
    assert!(rt; is_held(&rt, path)?);
    assert!(rt; refuses_numbers(&rt, path)?);
    play_opened(&rt, path, 10, &REFUSED_NUMBERS)
}

/// The refused descriptors wrote nothing.
const REFUSED_NUMBERS: [Step<'static>; 2] = [
    Step::File("number.img", 4096, &[(2048, 7)]),
    Step::Remove("number.img"),
];

/// Whether these descriptors are refused: one that cannot be written, one of a folder, one of an image of two blocks
/// that is longer than the capacity, and a number that is no descriptor.
fn refuses_numbers(rt: &HostRuntime, path: &str) -> Result<bool, Fail> {
    Ok(
        number_is_refused(File::open(rt, path)?, 10)
            && number_is_refused(File::open(rt, ".")?, 10)
            && number_is_refused(open_image(rt, path)?, 1)
            && FileDrive::over_number(-1, 10).is_err(),
    )
}

const SHRANK: [Step<'static>; 7] = [
    Step::Capacity(10),
    Step::Next(Ok(0)),
    Step::Write(0, &[7, 8], Ok(())),
    Step::Next(Ok(2)),
    Step::Resize("shrank.img", 2048 + 2047),
    Step::Next(Err(DriveFault)),
    Step::Read(1, Err(DriveFault)),
];

/// A drive that is opened on a file with a part of its second block begins with one block, and overwrites the part.
const CUT: [Step<'static>; 10] = [
    Step::Capacity(10),
    Step::Part(Ok(2047)),
    Step::Holds(8),
    Step::Next(Ok(1)),
    Step::Write(1, &[9], Ok(())),
    Step::Next(Ok(2)),
    Step::Part(Ok(0)),
    Step::Read(1, Ok(())),
    Step::Holds(9),
    Step::Remove("shrank.img"),
];

#[test]
fn a_file_that_shrank_is_a_fault(rt: HostRuntime) -> Result<(), Fail> {
    play_new(&rt, "shrank.img", 10, &SHRANK)?;
    play_opened(&rt, "shrank.img", 10, &CUT)
}

/// A drive for writing over a new image of one block, whose file is open only for reading.
fn read_only(rt: &HostRuntime, path: &str) -> Result<FileDrive, Fail> {
    make(rt, path, 2048)?;
    Ok(FileDrive::over(File::open(rt, path)?, 10)?)
}

const READ_ONLY: [Step<'static>; 6] = [
    Step::Capacity(10),
    Step::Next(Ok(1)),
    Step::Write(1, &[7, 8], Err(DriveFault)),
    // It cannot be cut back either.
    Step::Next(Err(DriveFault)),
    Step::File("takes_none.img", 2048, &[]),
    Step::Remove("takes_none.img"),
];

#[test]
fn a_file_that_takes_no_block_fails(rt: HostRuntime) -> Result<(), Fail> {
    let mut drive = read_only(&rt, "takes_none.img")?;
    play(&rt, &mut drive, &READ_ONLY)
}

const TWICE: [Step<'static>; 9] = [
    Step::Capacity(10),
    Step::Next(Ok(0)),
    Step::Write(0, &[7, 8], Ok(())),
    Step::Next(Ok(2)),
    Step::Write(1, &[9], Err(DriveFault)),
    Step::Next(Ok(2)),
    Step::Read(1, Ok(())),
    Step::Holds(8),
    Step::Remove("twice.img"),
];

#[test]
fn no_block_of_a_file_is_written_twice(rt: HostRuntime) -> Result<(), Fail> {
    play_new(&rt, "twice.img", 10, &TWICE)
}

#[test]
fn a_missing_file_is_not_opened(rt: HostRuntime) {
    let path = "missing.img";
    let _ = fs::remove_file(&rt, path);
    assert!(rt; !is_opened(&rt, path, 10) && !is_read(&rt, path, 10));
    assert!(rt; open_image(&rt, path).is_err());
}

/// An image that is there is not made again. Once it is removed it has no name.
const NAMELESS: [Step<'static>; 3] = [
    Step::Next(Ok(3)),
    Step::Remove("within.img"),
    Step::Next(Err(DriveFault)),
];

#[test]
fn a_file_is_opened_within_its_capacity(rt: HostRuntime) -> Result<(), Fail> {
    let path = "within.img";
    make(&rt, path, 3 * 2048)?;
    assert_eq!(rt; refused(&rt, path, 2), (true, true, true), "it is longer");
    assert!(rt; is_opened(&rt, path, 3));
    play_created(&rt, path, 3, &NAMELESS)
}

/// The last one is a link to a missing file.
const NO_FILES: [&str; 4] = [".", "/dev/null", "", "nowhere.link"];

#[test]
fn what_is_no_file_is_no_image(rt: HostRuntime) -> Result<(), Fail> {
    let _ = fs::remove_file(&rt, "nowhere.link");
    symlink(&rt, "nowhere.img", "nowhere.link")?;
    for path in NO_FILES {
        assert_eq!(rt; refused(&rt, path, 10), (true, true, true));
    }
    assert!(rt; !fs::exists(&rt, "nowhere.img")?);
    fs::remove_file(&rt, "nowhere.link")?;
    Ok(())
}

#[test]
fn a_folder_is_no_image(rt: HostRuntime) -> Result<(), Fail> {
    assert!(rt; FileDrive::over(File::open(&rt, ".")?, 10).is_err());
    Ok(())
}

const FIRST_WRITER: [Step<'static>; 3] = [
    Step::Capacity(10),
    Step::Next(Ok(0)),
    Step::Write(0, &[7], Ok(())),
];

const SECOND_BLOCK: [Step<'static>; 2] = [Step::Next(Ok(1)), Step::Write(1, &[8], Ok(()))];

/// A drive that was opened to be read has the blocks that were there, even if a second block is written later.
const READER: [Step<'static>; 6] = [
    Step::Capacity(10),
    Step::Next(Ok(1)),
    Step::Read(0, Ok(())),
    Step::Holds(7),
    Step::Write(1, &[9], Err(DriveFault)),
    Step::Next(Ok(1)),
];

const NOBODY_HOLDS: [Step<'static>; 2] = [
    Step::File("one_writer.img", 4096, &[(2048, 8)]),
    Step::Remove("one_writer.img"),
];

/// Opens the file to read it, while the first writer writes one more block.
fn read_beside(rt: &HostRuntime, path: &str, writer: &mut FileDrive) -> Result<(), Fail> {
    let mut reader = FileDrive::open_to_read(rt, path, 10)?;
    play(rt, writer, &SECOND_BLOCK)?;
    play(rt, &mut reader, &READER)
}

/// Whether another writer is refused, and a reader is not, while the first writer holds the file.
fn is_refused_beside(rt: &HostRuntime, path: &str) -> Result<bool, Fail> {
    let mut writer = FileDrive::create(rt, path, 10)?;
    play(rt, &mut writer, &FIRST_WRITER)?;
    let is_refused = refused(rt, path, 10) == (true, false, true);
    read_beside(rt, path, &mut writer)?;
    Ok(is_refused)
}

#[test]
fn a_file_has_one_writer(rt: HostRuntime) -> Result<(), Fail> {
    let path = "one_writer.img";
    let _ = fs::remove_file(&rt, path);
    assert!(rt; is_refused_beside(&rt, path)?);
    play_opened(&rt, path, 10, &NOBODY_HOLDS)
}
