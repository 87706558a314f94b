//! The reads that a state takes: what is reported if each fails in turn, and what is not read again.

ghost use Rattle.drive.specs.Journal.{held};
ghost use Rattle.drive.specs.MemDrive.{journal_of};
ghost use Rattle.recover.specs.ReadCache.{IsKnown};

use crate::media::{chain, created, state_of, volume_after};
use drive::{Drive, Fault, MemDrive};
use limits::PARTITION_START;
use recover::{ReadCache, StoreFault, last, state_sharing};
use std::alloc::Global;
use std::test::Fail;

#[test]
fn a_failed_read_is_told(rt: HostRuntime) -> Result<(), Fail> {
    let alloc = rt.alloc();
    let mut drive = volume_after(&rt, alloc, &created(&rt, alloc)?)?;
    // Two and then all 257 of the volume header, the VAT ICB, the table's data, the file set, two of the root, and the
    // file.
    for read in 1..=265 {
        drive.arm(Fault::Read(read));
        let refused = state_of(alloc, &mut drive, 266)?.err();
        assert!(rt; refused == Some(StoreFault::Device));
        assert!(rt; drive.failures() == read);
    }
    drive.arm(Fault::Read(266));
    assert!(rt; state_of(alloc, &mut drive, 266)?.is_ok());
    drive.arm(Fault::Next(1));
    assert!(rt; last(&mut drive) == Err(StoreFault::Device));
    Ok(())
}

/// Why the state at an address that must be there is refused, with what is known.
fn shared_state(
    alloc: Global,
    drive: &mut MemDrive,
    known: &mut ReadCache,
    at: u32,
) -> Result<Result<(), StoreFault>, Fail>
    requires { IsKnown (held (journal_of drive.old)) known.old }
    ensures known { IsKnown (held (journal_of drive.new)) known.new }
{
    let next = drive.next()?;
    if at < PARTITION_START || next <= at {
        return Err(Fail::from("no such block"));
    }
    match state_sharing(alloc, drive, known, at) {
        Ok(_) => Ok(Ok(())),
        Err(fault) => Ok(Err(fault)),
    }
}

/// How many reads a state takes after another one, found by the first read whose failure is not noticed.
fn reads_after(alloc: Global, drive: &mut MemDrive, before: u32, at: u32) -> Result<u64, Fail> {
    for reads in 0..300u64 {
        let mut known = ReadCache::new(alloc);
        let _ = shared_state(alloc, drive, &mut known, before)?;
        drive.arm(Fault::Read(reads + 1));
        match shared_state(alloc, drive, &mut known, at)? {
            Ok(()) => return Ok(reads),
            Err(StoreFault::Device) => {}
            Err(other) => return Err(Fail::from(other)),
        }
    }
    Err(Fail::from("more reads"))
}

#[test]
fn what_two_states_share_is_read_once(rt: HostRuntime) -> Result<(), Fail> {
    let alloc = rt.alloc();
    let mut drive = chain(&rt, alloc, 2)?;
    // The VAT ICB, its data and the file set.
    assert!(rt; reads_after(alloc, &mut drive, 268, 266)? == 3);
    // And the root, which they do not share: its entry and its data.
    assert!(rt; reads_after(alloc, &mut drive, 266, 261)? == 5);
    // And the file, which comes after the format.
    assert!(rt; reads_after(alloc, &mut drive, 261, 266)? == 6);
    Ok(())
}
