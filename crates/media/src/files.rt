//! Images that are files. No clause can know what a file holds, so clauses speak of a record instead.
ghost use Rattle.std.specs.Prelude.{◌≡◌, ◌==◌, ◌≤◌, List, [], ℕ, true, Some, IsTrue};
ghost use Rattle.drive.specs.Gathering.{waits_never};
ghost use Rattle.drive.specs.Journal.{Event, counted, next_of};
ghost use Rattle.media.specs.Held.{FoundAsHeld, IsFresh};
ghost use Rattle.settling.specs.GatheringFile.{capacity_of, failures_of, gathering_of, journal_of, misreads_of, writes_of};
ghost use Rattle.media.specs.Seen.{FileRecord, lookup};

use crate::Media;
use crate::seen::Seen;
use drive::{Block, Drive, DriveFault, FileDrive, Look, create_image, sync_folder};
use settling::GatheringFileDrive;
use std::fs::{File, Files};

/// Image files, by their paths.
#[derive(Drop)]
pub struct FileMedia<'a, R: Files<File = File> + AllocGlobal> {
    rt: &'a R,
    seen: Seen,
}

impl<'a, R: Files<File = File> + AllocGlobal> FileMedia<'a, R> {
    /// The files of this runtime, whatever they hold and whatever was found there before. Each clause on what is held is
    /// for any such record, under the premise that what is found agrees with it.
    pub fn over(rt: &'a R) -> FileMedia<'a, R>
        ghost first: { FileRecord }
        ensures held { result.seen.images ≡ first.images }
        ensures looked { result.seen.looks ≡ first.looks }
        ensures honest { result.seen.misses ≡ first.misses }
        ensures failures { result.seen.failures ≡ first.failures }
    {
        FileMedia {
            rt,
            seen: Seen::new(&[]),
        }
    }

    /// The same for a `main`: it names no record, since any will do. So nothing is known of what these media hold.
    pub fn of(rt: &'a R) -> FileMedia<'a, R> {
        FileMedia::over(rt)
    }
}

impl<'a, R: Files<File = File> + AllocGlobal> Media for FileMedia<'a, R> {
    type Drive = GatheringFileDrive;

    ghost use Rattle.media.specs.Seen.{found_by, lookup};

    ghost held = { λ m. lookup m.seen.images };

    ghost honest = { λ m. m.seen.misses == 0 };

    ghost failures = { λ m. m.seen.failures };

    ghost looked = { λ m. found_by m.seen.looks };

    ghost takes_back = { λ _ _. true };

    fn open_to_read(
        &mut self,
        path: &str,
        capacity: u32,
    ) -> Result<GatheringFileDrive, DriveFault> {
        let Ok(drive) = FileDrive::open_to_read(self.rt, path, capacity) else {
            return Err(failed(&mut self.seen, path.as_bytes()));
        };
        let Ok(drive) = GatheringFileDrive::over(self.rt.alloc(), drive) else {
            return Err(failed(&mut self.seen, path.as_bytes()));
        };
        Ok(found(&mut self.seen, path.as_bytes(), drive))
    }

    fn open(&mut self, path: &str, capacity: u32) -> Result<GatheringFileDrive, DriveFault> {
        let Ok(drive) = FileDrive::open(self.rt, path, capacity) else {
            return Err(failed(&mut self.seen, path.as_bytes()));
        };
        let Ok(drive) = GatheringFileDrive::over(self.rt.alloc(), drive) else {
            return Err(failed(&mut self.seen, path.as_bytes()));
        };
        Ok(found(&mut self.seen, path.as_bytes(), drive))
    }

    fn create(&mut self, path: &str, capacity: u32) -> Result<GatheringFileDrive, DriveFault> {
        let Ok(file) = create_image(self.rt, path) else {
            return Err(failed(&mut self.seen, path.as_bytes()));
        };
        self.seen = Seen::after_made(&self.seen, path.as_bytes());
        let Ok(drive) = FileDrive::over(file, capacity) else {
            return Err(failed(&mut self.seen, path.as_bytes()));
        };
        let Ok(drive) = GatheringFileDrive::over(self.rt.alloc(), drive) else {
            return Err(failed(&mut self.seen, path.as_bytes()));
        };
        if sync_folder(self.rt, path).is_err() {
            return Err(failed(&mut self.seen, path.as_bytes()));
        }
        Ok(found(&mut self.seen, path.as_bytes(), drive))
    }

    fn put_back(&mut self, path: &str, drive: GatheringFileDrive) {
        self.seen = Seen::after_back(&self.seen, path.as_bytes(), &drive);
    }

    fn part(
        &mut self,
        path: &str,
        drive: &GatheringFileDrive,
        into: &mut Block,
    ) -> Result<usize, DriveFault> {
        let mut look = Look::new(&[]);
        let Ok(count) = drive.part(into, &mut look) else {
            return Err(failed(&mut self.seen, path.as_bytes()));
        };
        self.seen = Seen::after_look(&self.seen, path.as_bytes(), &look);
        Ok(count)
    }
}

/// Assumes that a drive over the image at this path, which was just opened, has the blocks that are held there.
fn found(seen: &mut Seen, path: &[u8], mut drive: GatheringFileDrive) -> GatheringFileDrive
    requires fits { next_of (journal_of drive) ≤ capacity_of drive }
    requires unwritten { writes_of drive ≡ [] }
    requires unfailed { failures_of drive ≡ 0 }
    requires unread { misreads_of drive ≡ 0 }
    requires never { gathering_of drive ≡ waits_never }
    ensures fresh { IsFresh ⟦<GatheringFileDrive as Drive>⟧ (capacity_of drive) result }
    ensures images { seen.new.images ≡ seen.old.images }
    ensures looks { seen.new.looks ≡ seen.old.looks }
    ensures failures { seen.new.failures ≡ seen.old.failures }
    ensures opened { IsTrue (seen.new.misses == 0) → lookup seen.old.images path.now ≡ Some (journal_of result) }
    ensures alike { (J : List Event) → lookup seen.old.images path.now ≡ Some J → FoundAsHeld J (journal_of result) }
    ensures agreed { lookup seen.old.images path.now ≡ Some (journal_of result) → (seen.new.misses == 0) ≡ (seen.old.misses == 0) }
    ensures honest { IsTrue (seen.new.misses == 0) → IsTrue (seen.old.misses == 0) }
{
    drive.hold(&Seen::blocks(seen, path));
    *seen = Seen::after_open(seen, path, &drive);
    drive
}

/// Counts a call that failed, for the image at this path.
fn failed(seen: &mut Seen, path: &[u8]) -> DriveFault
    ensures images { seen.new.images ≡ seen.old.images }
    ensures misses { seen.new.misses ≡ seen.old.misses }
    ensures looks { seen.new.looks ≡ seen.old.looks }
    ensures failures { seen.new.failures ≡ counted true seen.old.failures }
{
    *seen = Seen::after_failure(seen, path);
    DriveFault
}
