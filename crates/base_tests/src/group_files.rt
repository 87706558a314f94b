//! Drives over files that gather: what the file has of a group before and after it is settled.

use crate::steps::{block, holds};
use drive::{Drive, DriveFault, FileDrive, PACKET, open_image};
use settling::{GatheringFileDrive, Settles};
use std::alloc::Global;
use std::fs;
use std::test::Fail;

/// A gathering drive over the image at this path. If the image is missing, it is made.
fn opened(rt: &HostRuntime, path: &str) -> Result<GatheringFileDrive, Fail> {
    Ok(GatheringFileDrive::over(rt.alloc(), FileDrive::create(rt, path, 100)?)?)
}

/// The same over a new image, in place of one that may be there.
fn new(rt: &HostRuntime, path: &str) -> Result<GatheringFileDrive, Fail> {
    let _ = fs::remove_file(rt, path);
    opened(rt, path)
}

/// Writes blocks that begin with these bytes at the next address.
fn add(
    alloc: Global,
    drive: &mut GatheringFileDrive,
    firsts: &[u8],
) -> Result<Result<(), DriveFault>, Fail> {
    let mut blocks = Vec::new(alloc);
    for first in firsts {
        blocks.push(block(*first))?;
    }
    let at = drive.count();
    let end = u64::from(at).saturating_add(blocks.len() as u64);
    if blocks.len() > PACKET || end > u64::from(drive.capacity()) {
        return Err(Fail::from("no room"));
    }
    Ok(drive.write(at, &blocks))
}

/// Writes such blocks as a commit.
fn commit(alloc: Global, drive: &mut GatheringFileDrive, firsts: &[u8]) -> Result<(), Fail> {
    add(alloc, drive, firsts)??;
    drive.end_commit();
    Ok(())
}

/// Writes a run of two slices of such blocks at the next address.
fn add_run(
    alloc: Global,
    drive: &mut GatheringFileDrive,
    firsts: &[u8],
    seconds: &[u8],
) -> Result<(), Fail> {
    let mut first = Vec::new(alloc);
    for byte in firsts {
        first.push(block(*byte))?;
    }
    let mut second = Vec::new(alloc);
    for byte in seconds {
        second.push(block(*byte))?;
    }
    let at = drive.count();
    let room = u64::from(drive.capacity().saturating_sub(at));
    if first.len() > PACKET || second.len() > PACKET {
        return Err(Fail::from("no run"));
    }
    if (first.len() + second.len()) as u64 > room || at > drive.capacity() {
        return Err(Fail::from("no room"));
    }
    drive.write_run(at, &first, &second)?;
    Ok(())
}

/// The first byte of a block, read through the drive.
fn byte_at(drive: &mut GatheringFileDrive, at: u32) -> Result<u8, Fail> {
    let mut into = block(0);
    if at >= drive.count() {
        return Err(Fail::from("no read"));
    }
    drive.read(at, &mut into)?;
    Ok(into[0])
}

/// Whether the drive reads blocks that begin with these bytes, from address 0 on, and has no others.
fn reads(drive: &mut GatheringFileDrive, firsts: &[u8]) -> Result<bool, Fail> {
    let mut at = 0;
    for first in firsts {
        if byte_at(drive, at)? != *first {
            return Ok(false);
        }
        at = u32::saturating_add(at, 1);
    }
    Ok(drive.count() == at && drive.next() == Ok(at))
}

/// Whether the file has exactly blocks that begin with these bytes.
fn has(rt: &HostRuntime, path: &str, firsts: &[u8]) -> Result<bool, Fail> {
    let mut bytes = Vec::new(rt.alloc());
    let mut place = 0;
    for first in firsts {
        bytes.push((place, *first))?;
        place = usize::saturating_add(place, 2048);
    }
    holds(rt, path, place, &bytes)
}

/// A drive with a commit of two blocks, and then a group of two commits that waits: blocks 2 and 3, and blocks 4 to 6.
fn waiting(rt: &HostRuntime, path: &str) -> Result<GatheringFileDrive, Fail> {
    let mut drive = new(rt, path)?;
    add(rt.alloc(), &mut drive, &[1, 2])??;
    drive.gather();
    commit(rt.alloc(), &mut drive, &[3, 4])?;
    commit(rt.alloc(), &mut drive, &[5, 6, 7])?;
    Ok(drive)
}

/// The marks wait in memory until the group is settled. Then the file has all, also for a drive that is opened anew.
#[test]
fn marks_are_in_the_file_after_the_settle(rt: HostRuntime) -> Result<(), Fail> {
    let path = "group_settled.img";
    let mut drive = waiting(&rt, path)?;
    assert!(rt; has(&rt, path, &[1, 2, 3, 0, 5, 6])?);
    assert!(rt; reads(&mut drive, &[1, 2, 3, 4, 5, 6, 7])?);
    assert_eq!(rt; drive.settle(2, &[3, 6]), Ok(()));
    assert!(rt; has(&rt, path, &[1, 2, 3, 4, 5, 6, 7])?);
    assert!(rt; reads(&mut drive, &[1, 2, 3, 4, 5, 6, 7])?);
    drop(drive);
    assert!(rt; reads(&mut opened(&rt, path)?, &[1, 2, 3, 4, 5, 6, 7])?);
    fs::remove_file(&rt, path)?;
    Ok(())
}

/// Runs, and commits of one block, in a group.
#[test]
fn a_group_has_runs_and_single_blocks(rt: HostRuntime) -> Result<(), Fail> {
    let path = "group_runs.img";
    let mut drive = new(&rt, path)?;
    drive.gather();
    commit(rt.alloc(), &mut drive, &[1])?;
    commit(rt.alloc(), &mut drive, &[2])?;
    assert!(rt; has(&rt, path, &[])?);
    add_run(rt.alloc(), &mut drive, &[3], &[])?;
    add_run(rt.alloc(), &mut drive, &[4, 5], &[6, 7])?;
    add_run(rt.alloc(), &mut drive, &[], &[])?;
    assert!(rt; has(&rt, path, &[0, 0, 3, 4, 5, 6])?);
    add_run(rt.alloc(), &mut drive, &[], &[8])?;
    drive.end_commit();
    assert!(rt; has(&rt, path, &[0, 0, 3, 4, 5, 6, 7])?);
    commit(rt.alloc(), &mut drive, &[9])?;
    assert!(rt; reads(&mut drive, &[1, 2, 3, 4, 5, 6, 7, 8, 9])?);
    assert_eq!(rt; drive.settle(0, &[0, 1, 7, 8]), Ok(()));
    assert!(rt; has(&rt, path, &[1, 2, 3, 4, 5, 6, 7, 8, 9])?);
    fs::remove_file(&rt, path)?;
    Ok(())
}

/// Whether a settle of the waiting group fails, and leaves the blocks from before it.
fn is_refused(rt: &HostRuntime, path: &str, from: u32, marks: &[u32]) -> Result<bool, Fail> {
    let mut drive = waiting(rt, path)?;
    let refused = drive.settle(from, marks) == Err(DriveFault);
    Ok(refused && has(rt, path, &[1, 2])? && reads(&mut drive, &[1, 2])?)
}

#[test]
fn a_file_is_cut_back_if_a_settle_is_for_others(rt: HostRuntime) -> Result<(), Fail> {
    let path = "group_others.img";
    assert!(rt; is_refused(&rt, path, 2, &[3])?);
    assert!(rt; is_refused(&rt, path, 2, &[3, 5])?);
    assert!(rt; is_refused(&rt, path, 2, &[3, 6, 6])?);
    fs::remove_file(&rt, path)?;
    Ok(())
}

/// A group whose last block is no mark cannot be settled, nor one with a commit of no block.
#[test]
fn a_group_ends_with_a_mark(rt: HostRuntime) -> Result<(), Fail> {
    let path = "group_open.img";
    let mut drive = waiting(&rt, path)?;
    add(rt.alloc(), &mut drive, &[8])??;
    assert_eq!(rt; drive.settle(2, &[3, 6]), Err(DriveFault));
    assert!(rt; has(&rt, path, &[1, 2])?);
    let mut drive = waiting_after(&rt, drive)?;
    drive.end_commit();
    assert_eq!(rt; drive.settle(2, &[3]), Err(DriveFault));
    assert!(rt; has(&rt, path, &[1, 2])?);
    fs::remove_file(&rt, path)?;
    Ok(())
}

/// The drive with a group of one commit that waits: blocks 2 and 3.
fn waiting_after(
    rt: &HostRuntime,
    mut drive: GatheringFileDrive,
) -> Result<GatheringFileDrive, Fail> {
    drive.gather();
    commit(rt.alloc(), &mut drive, &[3, 4])?;
    Ok(drive)
}

/// After a group that was taken back, the drive writes as others do, and gathers again.
#[test]
fn a_drive_goes_on_after_a_group_is_taken_back(rt: HostRuntime) -> Result<(), Fail> {
    let path = "group_back.img";
    let mut drive = waiting(&rt, path)?;
    drive.take_back(2, &[3, 6]);
    assert!(rt; has(&rt, path, &[1, 2])? && reads(&mut drive, &[1, 2])?);
    add(rt.alloc(), &mut drive, &[8])??;
    assert!(rt; has(&rt, path, &[1, 2, 8])?);
    add_run(rt.alloc(), &mut drive, &[9], &[10])?;
    assert!(rt; has(&rt, path, &[1, 2, 8, 9, 10])?);
    drive.gather();
    assert_eq!(rt; drive.settle(5, &[]), Ok(()));
    drive.gather();
    commit(rt.alloc(), &mut drive, &[11, 12])?;
    assert_eq!(rt; drive.settle(5, &[6]), Ok(()));
    assert!(rt; has(&rt, path, &[1, 2, 8, 9, 10, 11, 12])?);
    fs::remove_file(&rt, path)?;
    Ok(())
}

/// A write for another address adds no block to a group.
#[test]
fn a_write_elsewhere_is_no_part_of_a_group(rt: HostRuntime) -> Result<(), Fail> {
    let path = "group_elsewhere.img";
    let mut drive = waiting(&rt, path)?;
    if drive.count() < 7 || drive.capacity() < 10 {
        return Err(Fail::from("no room"));
    }
    assert_eq!(rt; drive.write(3, &[block(9)]), Err(DriveFault));
    assert!(rt; reads(&mut drive, &[1, 2, 3, 4, 5, 6, 7])?);
    assert_eq!(rt; drive.settle(2, &[3, 6]), Ok(()));
    fs::remove_file(&rt, path)?;
    Ok(())
}

/// A part of a block at the end of the file does not show in the place of a mark.
#[test]
fn a_part_of_a_block_is_no_mark(rt: HostRuntime) -> Result<(), Fail> {
    let path = "group_part.img";
    let mut drive = new(&rt, path)?;
    add(rt.alloc(), &mut drive, &[1, 2, 3])??;
    drop(drive);
    open_image(&rt, path)?.set_len(2 * 2048 + 2047)?;
    let mut drive = opened(&rt, path)?;
    drive.gather();
    commit(rt.alloc(), &mut drive, &[4])?;
    commit(rt.alloc(), &mut drive, &[5, 6])?;
    assert!(rt; has(&rt, path, &[1, 2, 0, 5])?);
    assert_eq!(rt; drive.settle(2, &[2, 4]), Ok(()));
    assert!(rt; has(&rt, path, &[1, 2, 4, 5, 6])?);
    fs::remove_file(&rt, path)?;
    Ok(())
}

/// A group that is taken back from its middle leaves blocks that the file may not have. So the drive stops.
#[test]
fn a_group_is_taken_back_as_a_whole(rt: HostRuntime) -> Result<(), Fail> {
    let path = "group_middle.img";
    let mut drive = waiting(&rt, path)?;
    drive.take_back(4, &[3, 6]);
    assert!(rt; has(&rt, path, &[1, 2])? && drive.count() == 4);
    assert_eq!(rt; drive.next(), Err(DriveFault));
    assert_eq!(rt; add(rt.alloc(), &mut drive, &[8])?, Err(DriveFault));
    drive.gather();
    assert_eq!(rt; add(rt.alloc(), &mut drive, &[8])?, Err(DriveFault));
    assert_eq!(rt; drive.settle(4, &[]), Err(DriveFault));
    assert!(rt; has(&rt, path, &[1, 2])?);
    fs::remove_file(&rt, path)?;
    Ok(())
}

/// A drive over the image at this path that only reads it.
fn opened_to_read(rt: &HostRuntime, path: &str) -> Result<GatheringFileDrive, Fail> {
    let drive = FileDrive::open_to_read(rt, path, 100)?;
    Ok(GatheringFileDrive::over(rt.alloc(), drive)?)
}

/// The numbers of a head. Another program computed the sums.
#[derive(Clone, Copy)]
struct Numbers {
    from: u32,
    count: u32,
    used: u32,
    marks: [u32; 2],
    sum: u32,
}

/// The head of a group of the blocks 2 to 6.
const HEAD: Numbers = Numbers {
    from: 2,
    count: 7,
    used: 2,
    marks: [3, 6],
    sum: 0xa2d9_ff33,
};

/// Numbers that are no head of a file of seven blocks: for fewer and for more blocks, with a mark after the blocks and
/// with one before the group, with too many marks, and with a wrong sum.
const NO_HEADS: [Numbers; 6] = [
    Numbers {
        from: 2,
        count: 6,
        used: 2,
        marks: [3, 5],
        sum: 0xe8ae_4461,
    },
    Numbers {
        from: 2,
        count: 8,
        used: 2,
        marks: [3, 6],
        sum: 0x587b_289c,
    },
    Numbers {
        from: 2,
        count: 7,
        used: 2,
        marks: [3, 7],
        sum: 0x9754_0942,
    },
    Numbers {
        from: 2,
        count: 7,
        used: 2,
        marks: [1, 6],
        sum: 0x1671_6f71,
    },
    Numbers {
        from: 2,
        count: 7,
        used: 65,
        marks: [3, 6],
        sum: 0x1d20_10a0,
    },
    Numbers {
        from: 2,
        count: 7,
        used: 2,
        marks: [3, 6],
        sum: 0xa2d9_ff34,
    },
];

/// The 280 bytes of a head.
fn head(alloc: Global, numbers: &Numbers) -> Result<Vec<u8>, Fail> {
    let mut bytes = Vec::new(alloc);
    bytes.extend_from_slice(b"UDFGROUP")?;
    bytes.extend_from_slice(&numbers.from.to_le_bytes())?;
    bytes.extend_from_slice(&numbers.count.to_le_bytes())?;
    bytes.extend_from_slice(&numbers.used.to_le_bytes())?;
    for mark in numbers.marks {
        bytes.extend_from_slice(&mark.to_le_bytes())?;
    }
    bytes.resize(276, 0)?;
    bytes.extend_from_slice(&numbers.sum.to_le_bytes())?;
    Ok(bytes)
}

/// Makes a file of blocks that begin with these bytes, and then a tail.
fn put(rt: &HostRuntime, path: &str, firsts: &[u8], tail: &[u8]) -> Result<(), Fail> {
    let mut bytes = Vec::new(rt.alloc());
    for first in firsts {
        bytes.extend_from_slice(&block(*first))?;
    }
    bytes.extend_from_slice(tail)?;
    fs::write(rt, path, &bytes)?;
    Ok(())
}

/// How many bytes the file has.
fn size(rt: &HostRuntime, path: &str) -> Result<usize, Fail> {
    Ok(fs::read(rt, path)?.len())
}

/// Whether a file of seven blocks, two of them zeros, and this tail has all blocks for a drive, and stays as it is.
fn counts_all(rt: &HostRuntime, path: &str, tail: &[u8]) -> Result<bool, Fail> {
    let firsts = [1, 2, 3, 0, 5, 6, 0];
    put(rt, path, &firsts, tail)?;
    let before = size(rt, path)?;
    let all_read = reads(&mut opened_to_read(rt, path)?, &firsts)?;
    let all_open = reads(&mut opened(rt, path)?, &firsts)?;
    Ok(all_read && all_open && size(rt, path)? == before)
}

/// Where a mark of a group is missing, only the blocks before the group count. Who reads leaves the file as it is, who
/// writes cuts it back.
#[test]
fn a_group_that_was_not_settled_is_cut_off(rt: HostRuntime) -> Result<(), Fail> {
    let path = "group_head.img";
    let head = head(rt.alloc(), &HEAD)?;
    for firsts in [
        [1, 2, 3, 0, 5, 6, 0],
        [1, 2, 3, 4, 5, 6, 0],
        [1, 2, 3, 0, 5, 6, 7],
    ] {
        put(&rt, path, &firsts, &head)?;
        assert!(rt; reads(&mut opened_to_read(&rt, path)?, &[1, 2])?);
        assert_eq!(rt; size(&rt, path)?, 7 * 2048 + 280);
        let mut drive = opened(&rt, path)?;
        assert!(rt; has(&rt, path, &[1, 2])?);
        add(rt.alloc(), &mut drive, &[8])??;
        assert!(rt; reads(&mut drive, &[1, 2, 8])?);
        assert!(rt; has(&rt, path, &[1, 2, 8])?);
    }
    fs::remove_file(&rt, path)?;
    Ok(())
}

/// Where all marks are there the group was settled, though its head is left.
#[test]
fn a_head_that_is_left_cuts_nothing(rt: HostRuntime) -> Result<(), Fail> {
    let path = "group_head_left.img";
    let firsts = [1, 2, 3, 4, 5, 6, 7];
    let head = head(rt.alloc(), &HEAD)?;
    put(&rt, path, &firsts, &head)?;
    assert!(rt; reads(&mut opened_to_read(&rt, path)?, &firsts)?);
    let mut drive = opened(&rt, path)?;
    assert!(rt; reads(&mut drive, &firsts)?);
    assert_eq!(rt; size(&rt, path)?, 7 * 2048 + 280);
    drive.gather();
    commit(rt.alloc(), &mut drive, &[8])?;
    commit(rt.alloc(), &mut drive, &[9, 10])?;
    assert!(rt; has(&rt, path, &[1, 2, 3, 4, 5, 6, 7, 0, 9])?);
    assert_eq!(rt; drive.settle(7, &[7, 9]), Ok(()));
    assert!(rt; has(&rt, path, &[1, 2, 3, 4, 5, 6, 7, 8, 9, 10])?);
    fs::remove_file(&rt, path)?;
    Ok(())
}

#[test]
fn what_is_no_head_cuts_nothing(rt: HostRuntime) -> Result<(), Fail> {
    let path = "group_no_head.img";
    for numbers in NO_HEADS {
        assert!(rt; counts_all(&rt, path, &head(rt.alloc(), &numbers)?)?);
    }
    let mut tail = head(rt.alloc(), &HEAD)?;
    tail.push(0)?;
    assert!(rt; counts_all(&rt, path, &tail)?);
    tail.truncate(279);
    assert!(rt; counts_all(&rt, path, &tail)?);
    fs::remove_file(&rt, path)?;
    Ok(())
}

/// A settle that fails in its first sync, since another made the file longer, leaves no head.
#[test]
fn a_settle_that_fails_leaves_no_head(rt: HostRuntime) -> Result<(), Fail> {
    let path = "group_head_cut.img";
    let mut drive = waiting(&rt, path)?;
    open_image(&rt, path)?.set_len(20 * 2048)?;
    assert_eq!(rt; drive.settle(2, &[3, 6]), Err(DriveFault));
    assert!(rt; has(&rt, path, &[1, 2])? && reads(&mut drive, &[1, 2])?);
    fs::remove_file(&rt, path)?;
    Ok(())
}

/// A drive with a group of so many commits of one block, and the addresses of their marks.
fn marked(
    rt: &HostRuntime,
    path: &str,
    count: u32,
) -> Result<(GatheringFileDrive, Vec<u32>), Fail> {
    let mut drive = new(rt, path)?;
    let mut marks = Vec::new(rt.alloc());
    drive.gather();
    for at in 0..count {
        commit(rt.alloc(), &mut drive, &[1])?;
        marks.push(at)?;
    }
    Ok((drive, marks))
}

#[test]
fn a_group_has_at_most_64_marks(rt: HostRuntime) -> Result<(), Fail> {
    let path = "group_64.img";
    let (mut drive, marks) = marked(&rt, path, 65)?;
    assert_eq!(rt; drive.settle(0, &marks), Err(DriveFault));
    assert!(rt; has(&rt, path, &[])? && drive.count() == 0);
    drop(drive);
    let (mut drive, marks) = marked(&rt, path, 64)?;
    assert_eq!(rt; drive.settle(0, &marks), Ok(()));
    assert!(rt; has(&rt, path, &[1; 64])?);
    fs::remove_file(&rt, path)?;
    Ok(())
}

/// Writes a block that begins as a head at the next address.
fn add_like_head(
    alloc: Global,
    drive: &mut GatheringFileDrive,
) -> Result<Result<(), DriveFault>, Fail> {
    let mut like = block(0);
    for (byte, other) in like.iter_mut().zip(&head(alloc, &HEAD)?) {
        *byte = *other;
    }
    let at = drive.count();
    if at >= drive.capacity() {
        return Err(Fail::from("no room"));
    }
    Ok(drive.write(at, &[like]))
}

/// A block that begins as a head does is written where a head was cut off, in a group and alone.
#[test]
fn a_block_may_begin_as_a_head(rt: HostRuntime) -> Result<(), Fail> {
    let path = "group_like_head.img";
    let mut drive = waiting(&rt, path)?;
    assert_eq!(rt; drive.settle(2, &[3, 6]), Ok(()));
    assert_eq!(rt; add_like_head(rt.alloc(), &mut drive)?, Ok(()));
    assert!(rt; has(&rt, path, &[1, 2, 3, 4, 5, 6, 7, b'U'])?);
    drive.gather();
    commit(rt.alloc(), &mut drive, &[9, 10])?;
    assert_eq!(rt; drive.settle(8, &[9]), Ok(()));
    drive.gather();
    assert_eq!(rt; add_like_head(rt.alloc(), &mut drive)?, Ok(()));
    commit(rt.alloc(), &mut drive, &[11])?;
    assert_eq!(rt; drive.settle(10, &[11]), Ok(()));
    drop(drive);
    let firsts = [1, 2, 3, 4, 5, 6, 7, b'U', 9, 10, b'U', 11];
    assert!(rt; reads(&mut opened(&rt, path)?, &firsts)?);
    fs::remove_file(&rt, path)?;
    Ok(())
}
