//! Drives that gather: what a disk is given of a group, and what is left of one that fails.

use crate::steps::block;
use drive::{Drive, DriveFault, PACKET, Scheduled};
use settling::{GatheringDrive, Phase, Settles};
use std::alloc::Global;
use std::test::Fail;

/// Writes blocks that begin with these bytes, as a commit. Returns whether that worked.
fn commit(alloc: Global, drive: &mut GatheringDrive, firsts: &[u8]) -> Result<bool, Fail> {
    let mut blocks = Vec::new(alloc);
    for first in firsts {
        blocks.push(block(*first))?;
    }
    let at = drive.count();
    let end = u64::from(at).saturating_add(blocks.len() as u64);
    if blocks.len() > PACKET || end > u64::from(drive.capacity()) {
        return Err(Fail::from("no room"));
    }
    if drive.write(at, &blocks).is_err() {
        return Ok(false);
    }
    drive.end_commit();
    Ok(true)
}

/// A drive with a commit of two blocks, and then a group of two commits that waits: blocks 2 and 3, and blocks 4 to 6.
/// The first three calls are its writes.
fn waiting(alloc: Global, schedule: &[Scheduled]) -> Result<GatheringDrive, Fail> {
    let mut drive = GatheringDrive::new(alloc, 100, schedule.to_vec(alloc)?);
    let first = commit(alloc, &mut drive, &[1, 2])?;
    drive.gather();
    if first && commit(alloc, &mut drive, &[3, 4])? && commit(alloc, &mut drive, &[5, 6, 7])? {
        Ok(drive)
    } else {
        Err(Fail::from("a write"))
    }
}

/// Whether the phase has blocks at these addresses that begin with these bytes.
fn is_phase(phase: Option<&Phase>, wanted: &[(u32, u8)]) -> bool {
    let Some(phase) = phase else {
        return false;
    };
    let given = phase.blocks();
    given.len() == wanted.len()
        && given.iter().zip(wanted).all(|(event, wanted)| event.0 == wanted.0
            && event.1[0] == wanted.1)
}

#[test]
fn a_group_goes_to_the_disk_in_two_phases(rt: HostRuntime) -> Result<(), Fail> {
    let mut drive = waiting(rt.alloc(), &[])?;
    assert!(rt; drive.gathers() && drive.phases().is_empty());
    assert_eq!(rt; drive.settle(2, &[3, 6]), Ok(()));
    assert!(rt;
        is_phase(
            drive.phases().get(0),
            &[(2, 3), (3, 0), (4, 5), (5, 6), (6, 0)]
        )
    );
    assert!(rt; is_phase(drive.phases().get(1), &[(3, 4), (6, 7)]));
    assert!(rt; drive.phases().len() == 2 && drive.blocks().len() == 7 && !drive.gathers());
    Ok(())
}

/// Whether a settle fails after so many phases, and leaves the commit that was there before the group.
fn fails_after(mut drive: GatheringDrive, marks: &[u32], phases: usize) -> bool {
    drive.settle(2, marks) == Err(DriveFault)
        && drive.phases().len() == phases
        && drive.blocks().len() == 2
        && drive.failures() == 1
        && !drive.gathers()
}

#[test]
fn a_group_whose_sync_fails_is_taken_back(rt: HostRuntime) -> Result<(), Fail> {
    for (call, phases) in [(4, 1), (5, 2)] {
        let schedule = [Scheduled { call, keep: 0 }];
        assert!(rt;
            fails_after(waiting(rt.alloc(), &schedule)?, &[3, 6], phases),
            "call {call}"
        );
    }
    Ok(())
}

#[test]
fn a_settle_for_other_marks_fails(rt: HostRuntime) -> Result<(), Fail> {
    assert!(rt; fails_after(waiting(rt.alloc(), &[])?, &[3], 0));
    assert!(rt; fails_after(waiting(rt.alloc(), &[])?, &[3, 5], 0));
    let mut drive = waiting(rt.alloc(), &[])?;
    drive.take_back(2, &[3, 6]);
    assert!(rt; fails_after(drive, &[], 0));
    Ok(())
}
