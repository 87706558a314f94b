//! Media in memory and over files: images by their paths, which are taken out and put back.

use crate::steps::{block, holds};
use drive::{Block, Drive, DriveFault};
use media::{FileMedia, Media, MemMedia};
use settling::Settles;
use std::fs;
use std::test::Fail;

/// A step on the image at a path, each with a drive of its own, and what must be seen.
#[derive(Clone, Copy)]
enum Step {
    /// How many blocks an image has that is opened with this capacity, or `None` if it is refused.
    Count(&'static str, u32, Option<u32>),
    /// Adds a block that begins with this byte. A missing image is made.
    Add(&'static str, u8),
    /// The block at an address begins with this byte. The image is taken out to be written.
    Byte(&'static str, u32, u8),
}

/// Two blocks in one image and one in another. At first there is no image.
const TWO_IMAGES: [Step; 11] = [
    Step::Count("media_one.img", 10, None),
    Step::Add("media_one.img", 7),
    Step::Add("media_other.img", 9),
    Step::Add("media_one.img", 8),
    Step::Count("media_one.img", 2, Some(2)),
    Step::Count("media_other.img", 450_000, Some(1)),
    Step::Byte("media_one.img", 0, 7),
    Step::Byte("media_one.img", 1, 8),
    Step::Byte("media_other.img", 0, 9),
    // It is too long.
    Step::Count("media_one.img", 1, None),
    Step::Count("media_one.img", 10, Some(2)),
];

/// The index of the first step that does not go as it should.
fn failing<M: Media>(media: &mut M, steps: &[Step]) -> Option<usize> {
    for (i, step) in steps.iter().enumerate() {
        let goes = match *step {
            Step::Count(path, capacity, told) => count(media, path, capacity).ok() == told,
            Step::Add(path, byte) => add(media, path, byte).is_ok(),
            Step::Byte(path, at, byte) => first_byte(media, path, at) == Ok(byte),
        };
        if !goes {
            return Some(i);
        }
    }
    None
}

/// How many blocks an image has.
fn count<M: Media>(media: &mut M, path: &str, capacity: u32) -> Result<u32, DriveFault> {
    let mut drive = media.open_to_read(path, capacity)?;
    let count = drive.next();
    media.put_back(path, drive);
    count
}

/// Writes a block at the next address of an image. If it is missing, it is made.
fn add<M: Media>(media: &mut M, path: &str, byte: u8) -> Result<(), DriveFault> {
    let mut drive = media.create(path, 10)?;
    let done = add_block(&mut drive, byte);
    media.put_back(path, drive);
    done
}

fn add_block<D: Drive>(drive: &mut D, byte: u8) -> Result<(), DriveFault> {
    let next = drive.next()?;
    if next >= drive.capacity() {
        return Err(DriveFault);
    }
    drive.write(next, &[block(byte)])
}

/// The first byte of a block of an image, which is taken out to be written.
fn first_byte<M: Media>(media: &mut M, path: &str, at: u32) -> Result<u8, DriveFault> {
    let mut drive = media.open(path, 10)?;
    let byte = read_byte(&mut drive, at);
    media.put_back(path, drive);
    byte
}

fn read_byte<D: Drive>(drive: &mut D, at: u32) -> Result<u8, DriveFault> {
    let mut into = block(0);
    if at >= drive.next()? {
        return Err(DriveFault);
    }
    drive.read(at, &mut into)?;
    Ok(into[0])
}

#[test]
fn memory_has_images(rt: HostRuntime) {
    let mut media = MemMedia::new(rt.alloc());
    assert_eq!(rt; failing(&mut media, &TWO_IMAGES), None);
}

/// An image has one drive.
#[test]
fn an_image_in_memory_is_out_once(rt: HostRuntime) -> Result<(), Fail> {
    let mut media = MemMedia::new(rt.alloc());
    add(&mut media, "a", 7)?;
    let drive = media.open("a", 10)?;
    assert!(rt; media.open("a", 10).is_err(), "it is out");
    assert!(rt; media.create("a", 10).is_err(), "it is out");
    assert_eq!(rt; media.part("a", &drive, &mut block(1)), Ok(0));
    Ok(())
}

/// A drive that was put back in a group does not gather when it is taken out again.
#[test]
fn an_image_in_memory_gathers_no_more(rt: HostRuntime) -> Result<(), Fail> {
    let mut media = MemMedia::new(rt.alloc());
    let mut drive = media.create("a", 10)?;
    drive.gather();
    drive.write(0, &[block(7)])?;
    media.put_back("a", drive);
    let drive = media.open("a", 10)?;
    assert!(rt; !drive.gathers());
    assert_eq!(rt; drive.blocks().len(), 1);
    Ok(())
}

/// No address of an image in memory is written twice, as none of an image file is.
#[test]
fn an_image_in_memory_is_in_order(rt: HostRuntime) -> Result<(), Fail> {
    let mut media = MemMedia::new(rt.alloc());
    let mut drive = media.create("a", 10)?;
    drive.write(0, &[block(7)])?;
    assert!(rt; drive.write(0, &[block(8)]).is_err());
    media.put_back("a", drive);
    let drive = media.open("a", 10)?;
    assert_eq!(rt; drive.blocks().len(), 1);
    Ok(())
}

#[test]
fn files_are_images(rt: HostRuntime) -> Result<(), Fail> {
    let _ = fs::remove_file(&rt, "media_one.img");
    let _ = fs::remove_file(&rt, "media_other.img");
    let mut media = FileMedia::over(&rt);
    assert_eq!(rt; failing(&mut media, &TWO_IMAGES), None);
    assert!(rt; holds(&rt, "media_one.img", 4096, &[(0, 7), (2048, 8)])?);
    fs::remove_file(&rt, "media_one.img")?;
    fs::remove_file(&rt, "media_other.img")?;
    Ok(())
}

/// Reads the bytes of an image after its last whole block, and returns how many there are.
fn part_of<M: Media>(media: &mut M, path: &str, into: &mut Block) -> Result<usize, DriveFault> {
    let drive = media.open(path, 10)?;
    let count = media.part(path, &drive, into);
    media.put_back(path, drive);
    count
}

/// Bytes after the last whole block are not counted as a block, and can be read.
#[test]
fn a_part_of_a_block_is_shown(rt: HostRuntime) -> Result<(), Fail> {
    let path = "media_part.img";
    fs::write(&rt, path, [5; 2051])?;
    let mut media = FileMedia::over(&rt);
    let mut part = block(0);
    assert_eq!(rt; part_of(&mut media, path, &mut part), Ok(3));
    assert_eq!(rt; (part[0], part[2], part[3]), (5, 5, 0));
    assert_eq!(rt;
        failing(&mut media, &[Step::Count(path, 10, Some(1))]),
        None
    );
    fs::remove_file(&rt, path)?;
    Ok(())
}
