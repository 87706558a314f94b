//! A drive over an image file that gathers. No clause can know what the file holds, so clauses speak of the bytes of a
//! record instead.
ghost use Rattle.limits.specs.declared.TheConstants.{BLOCK_BYTES};
ghost use Rattle.std.specs.Prelude.{◌≡◌, ◌==◌, ◌≤◌, ◌<◌, ◌+◌, ◌^◌, ◌++◌, [], ◌∷◌, ℕ, List, length, take, drop, false, is_err, refl, All, IfOk, IsTrue, OnErr, OnOk, Some};
ghost use Rattle.drive.specs.FileDrive.{BeginsWith};
ghost use Rattle.drive.specs.FileDrive.{capacity_of as file_capacity, journal_of as file_journal};
ghost use Rattle.drive.specs.Gathering.{KeepsGathering, waits_never};
ghost use Rattle.drive.specs.Journal.{AddsPrefix, AreWhole, InOrder, counted, next_of, written};
ghost use Rattle.drive.specs.Note.{fitted};
ghost use Rattle.drive.specs.Reads.{one_if};
ghost use Rattle.drive.specs.Writes.{SplitsRun};
ghost use Rattle.settling.specs.Calls.{GivesFront, gathering_as};
ghost use Rattle.settling.specs.Phases.{blanked, two_phases};

use crate::Settles;
use crate::group::GroupImage;
use crate::head::counted;
use crate::record::{BLANKS, GIVEN, MARKS, MORE, READ, Record, TAKEN, WAITS, WRITTEN};
use crate::settles::fail;
use drive::{Drive, DriveFault, FileDrive, HeldBlocks, Look};
use limits::{BLOCK_SIZE, Block};
use std::alloc::Global;

/// A drive over an image file that gathers. Outside a group it writes as a [`FileDrive`] does. In a group the blocks go
/// to the file as they are written, but the marks wait in memory; nothing is synced before the group is settled. A
/// write that fails adds no block.
///
/// If a group is taken back from an address after its first block, the drive has blocks that the file may not have. Then
/// `next` and each write fail, until the image is opened anew.
#[derive(Drop)]
pub struct GatheringFileDrive {
    image: GroupImage,
    capacity: u32,
    /// How many blocks there are, those that wait included.
    count: u32,
    failures: u64,
    contents: Record,
    /// What was found after the last block.
    found: Look,
    ghost counted: { count ≡ next_of contents.journal },
    ghost in_order: { InOrder contents.journal },
    ghost whole: { AreWhole contents.journal },
}

impl GatheringFileDrive {
    ghost use Rattle.settling.specs.GatheringFile.{capacity_of, failures_of, found_of, gathering_of, gathers_of, journal_of, misreads_of, phases_of, waited_of, writes_of, KeepsAllButPhases};
    ghost use Rattle.settling.specs.Head.{Counts};

    /// A drive over the image of this one, on which no call may have been made yet. If the image ends with the head of a
    /// group that was never settled, only the blocks before the group count. A file that is open to write is then cut
    /// back to these. One that is only read is left as it is: another may be settling that group now.
    ///
    /// It is a fault if the bytes after the last block, or the marks that they name, cannot be read: then nobody knows which
    /// blocks count. And it is one if the marks of a group that is cut off cannot be zeroed.
    pub fn over(alloc: Global, drive: FileDrive) -> Result<GatheringFileDrive, DriveFault>
        requires { (image : List (List ℕ)) × BeginsWith image drive }
        ensures journal { IfOk result (λ d. Counts (found_of d) (file_journal drive) (journal_of d)) }
        ensures capacity { IfOk result (λ d. capacity_of d ≡ file_capacity drive) }
        ensures fits { IfOk result (λ d. next_of (journal_of d) ≤ capacity_of d) }
        ensures writes { IfOk result (λ d. writes_of d ≡ []) }
        ensures failures { IfOk result (λ d. failures_of d ≡ 0) }
        ensures misreads { IfOk result (λ d. misreads_of d ≡ 0) }
        ensures gathering { IfOk result (λ d. gathering_of d ≡ waits_never) }
    {
        let mut contents = Record::over(&drive);
        let mut part = [0; BLOCK_SIZE];
        let mut found = Look::new(&[]);
        let len = drive.part(&mut part, &mut found)?;
        let mut parts = drive.into_parts();
        let count = counted(&mut parts.image, parts.count, &part[..len])?;
        contents.note_group(&[count, TAKEN], &[]);
        let mut image = GroupImage::new(alloc, parts.image, parts.count, len > 0);
        image.keep(count, &part[..len])?;
        Ok(GatheringFileDrive {
            image,
            capacity: parts.capacity,
            count: parts.count.min(count),
            failures: 0,
            contents,
            found,
        })
    }

    /// States for contracts that the blocks that count are the first of these. No call may have been made on the drive yet.
    pub fn hold(&mut self, held: &HeldBlocks)
        requires unread { misreads_of self.old ≡ 0 }
        requires unwritten { writes_of self.old ≡ [] }
        requires never { gathering_of self.old ≡ waits_never }
        ensures journal { journal_of self.new ≡ written 0 (fitted (next_of (journal_of self.old)) held.now.blocks) }
        ensures capacity { capacity_of self.new ≡ capacity_of self.old }
        ensures writes { writes_of self.new ≡ [] }
        ensures failures { failures_of self.new ≡ failures_of self.old }
        ensures misreads { misreads_of self.new ≡ 0 }
        ensures gathering { gathering_of self.new ≡ waits_never }
    {
        self.contents = Record::holding(&[self.count], held);
    }

    /// Reads the bytes after the last whole block of the file, which have no address, to the beginning of `into`. Returns
    /// how many there are, at most 2,047. Contracts see in `look` what was found.
    pub fn part(&self, into: &mut Block, look: &mut Look) -> Result<usize, DriveFault>
        ensures short { IfOk result (λ n. n < BLOCK_BYTES) }
        ensures seen { IfOk result (λ n. look.new.part ≡ Some (take n into.new)) }
        ensures failed { OnErr result (look.new.part ≡ look.old.part) }
    {
        let count = self.image.part(into)?;
        *look = Look::of(&into[..count]);
        Ok(count)
    }

    /// Gives the disk both phases, if the settle is for the group that waits. Returns whether all that worked.
    fn give(&mut self, from: u32, marks: &[u32]) -> bool
        ensures given { IsTrue result → phases_of self.new ≡ phases_of self.old ++ two_phases from marks.now (journal_of self.old) }
        ensures begun { GivesFront (two_phases from marks.now (journal_of self.old)) (phases_of self.old) (phases_of self.new) }
        ensures rest { KeepsAllButPhases self.old self.new }
    {
        if !self.image.is_due(from, marks) {
            note_begun(&mut self.contents, &self.image, from, marks);
            return false;
        }
        self.contents.note_group(&[from, BLANKS], marks);
        if self.image.sync_blanks(self.count).is_err() {
            return false;
        }
        self.contents.note_group(&[from, MARKS], marks);
        self.image.sync_marks(self.count).is_ok()
    }

    /// Takes back the blocks from an address on, and ends the group.
    fn cut(&mut self, from: u32)
        ensures journal { journal_of self.new ≡ take from (journal_of self.old) }
        ensures phases { phases_of self.new ≡ phases_of self.old }
        ensures waited { waited_of self.new ≡ waited_of self.old }
        ensures gathers { gathers_of self.new ≡ false }
        ensures failures { failures_of self.new ≡ failures_of self.old }
        ensures writes { writes_of self.new ≡ writes_of self.old }
        ensures capacity { capacity_of self.new ≡ capacity_of self.old }
        ensures misreads { misreads_of self.new ≡ misreads_of self.old }
    {
        self.image.cut(from);
        self.contents.note_group(&[from, TAKEN], &[]);
        self.count = self.count.min(from);
    }
}

impl Drive for GatheringFileDrive {
    ghost use Rattle.settling.specs.GatheringFile.{capacity_of, failures_of, gathering_of, honest_of, journal_of, misreads_of, writes_of};

    ghost journal = { λ d. d.contents.journal };

    ghost writes = { λ d. d.contents.writes };

    ghost failures = { λ d. d.failures };

    ghost capacity = { λ d. d.capacity };

    ghost misreads = { λ d. d.contents.misreads };

    ghost honest = { λ d. d.contents.misreads == 0 };

    ghost gathering = { λ d. gathering_as d.image.gathers d.contents.waited d.contents.phases };

    ghost honest_is = { λ _. refl };

    fn capacity(&self) -> u32 {
        self.capacity
    }

    fn next(&mut self) -> Result<u32, DriveFault> {
        if self.image.is_as_given(self.count) {
            return Ok(self.count);
        }
        self.failures = self.failures.saturating_add(1);
        Err(DriveFault)
    }

    fn read(&mut self, at: u32, into: &mut Block) -> Result<(), DriveFault> {
        if self.image.read(self.count, at, into).is_err() {
            return fail(&mut self.failures);
        }
        self.contents.note(&[at, READ], &[*into]);
        Ok(())
    }

    fn write(&mut self, at: u32, blocks: &[Block]) -> Result<(), DriveFault>
        requires { at + length blocks.now ≤ capacity_of self.old }
        ensures ok { OnOk result (journal_of self.new ≡ journal_of self.old ++ written at blocks.now) }
        // What a failed write left is cut off, so it added no block.
        ensures left { OnErr result (journal_of self.new ≡ journal_of self.old) }
        ensures err { OnErr result (AddsPrefix (journal_of self.old) at blocks.now (journal_of self.new)) }
        ensures writes { writes_of self.new ≡ writes_of self.old ++ blocks.now ∷ [] }
        ensures capacity { capacity_of self.new ≡ capacity_of self.old }
        ensures failures { failures_of self.new ≡ counted (is_err result) (failures_of self.old) }
        ensures misreads { misreads_of self.new ≡ misreads_of self.old }
        ensures honest { honest_of self.new ≡ honest_of self.old }
        ensures gathering { KeepsGathering (gathering_of self.old) (gathering_of self.new) (writes_of self.old) (writes_of self.new) }
    {
        // Unused: brings its range into the proof.
        let _capacity = self.capacity;
        self.contents.note(&[at, GIVEN], blocks);
        note_waiting(&mut self.contents, self.image.gathers);
        let none = &blocks[..0];
        if self.image.write(self.count, at, blocks, none).is_err() {
            return fail(&mut self.failures);
        }
        note_written(&mut self.contents, &mut self.count, at, blocks);
        Ok(())
    }

    // One write, whatever its length.
    fn write_run(&mut self, at: u32, first: &[Block], second: &[Block]) -> Result<(), DriveFault>
        requires { at + (length first.now + length second.now) ≤ capacity_of self.old }
        ensures ok { OnOk result (journal_of self.new ≡ journal_of self.old ++ written at (first.now ++ second.now)) }
        // What a failed run left is cut off, so it added no block.
        ensures left { OnErr result (journal_of self.new ≡ journal_of self.old) }
        ensures err { OnErr result (AddsPrefix (journal_of self.old) at (first.now ++ second.now) (journal_of self.new)) }
        ensures one { writes_of self.new ≡ writes_of self.old ++ (first.now ++ second.now) ∷ [] }
        ensures runs { SplitsRun at (first.now ++ second.now) (is_err result) (journal_of self.old) (writes_of self.old) (journal_of self.new) (writes_of self.new) }
        ensures capacity { capacity_of self.new ≡ capacity_of self.old }
        ensures failures { failures_of self.new ≡ counted (is_err result) (failures_of self.old) }
        ensures misreads { misreads_of self.new ≡ misreads_of self.old }
        ensures honest { honest_of self.new ≡ honest_of self.old }
        ensures gathering { KeepsGathering (gathering_of self.old) (gathering_of self.new) (writes_of self.old) (writes_of self.new) }
    {
        // Unused: brings its range into the proof.
        let _capacity = self.capacity;
        self.contents.note(&[at, GIVEN], first);
        self.contents.note(&[at, MORE], second);
        note_waiting(&mut self.contents, self.image.gathers);
        if self.image.write(self.count, at, first, second).is_err() {
            return fail(&mut self.failures);
        }
        note_written(&mut self.contents, &mut self.count, at, first);
        let middle = at + first.len() as u32;
        note_written(&mut self.contents, &mut self.count, middle, second);
        Ok(())
    }

    fn read_soon(&self, at: u32, count: u32) {
        self.image.read_soon(at, count);
    }
}

impl Settles for GatheringFileDrive {
    ghost use Rattle.drive.proofs.Once.{once_of};

    ghost once = { λ d. once_of d.contents.journal d.in_order };

    fn count(&self) -> u32 {
        self.count
    }

    fn gather(&mut self) {
        self.image.gather(self.count);
    }

    fn end_commit(&mut self) {
        self.image.end_commit(self.count);
    }

    fn settle(&mut self, from: u32, marks: &[u32]) -> Result<(), DriveFault> {
        if self.give(from, marks) {
            self.image.end();
            return Ok(());
        }
        self.cut(from);
        fail(&mut self.failures)
    }

    fn take_back(&mut self, from: u32, marks: &[u32]) {
        note_begun(&mut self.contents, &self.image, from, marks);
        self.cut(from);
    }
}

/// Notes that a write waits, if the drive gathers.
fn note_waiting(notes: &mut Record, gathers: bool)
    ensures waited { notes.new.waited ≡ notes.old.waited + one_if gathers }
    ensures journal { notes.new.journal ≡ notes.old.journal }
    ensures writes { notes.new.writes ≡ notes.old.writes }
    ensures misreads { notes.new.misreads ≡ notes.old.misreads }
    ensures phases { notes.new.phases ≡ notes.old.phases }
{
    if gathers {
        notes.note_group(&[0, WAITS], &[]);
    }
}

/// Notes that the file may have all blocks of a group but the marks, if it was given any.
fn note_begun(notes: &mut Record, image: &GroupImage, from: u32, marks: &[u32])
    ensures journal { notes.new.journal ≡ notes.old.journal }
    ensures writes { notes.new.writes ≡ notes.old.writes }
    ensures misreads { notes.new.misreads ≡ notes.old.misreads }
    ensures waited { notes.new.waited ≡ notes.old.waited }
    ensures begun { GivesFront (blanked marks.now (drop from notes.old.journal) ∷ []) notes.old.phases notes.new.phases }
{
    if image.has_given() {
        notes.note_group(&[from, BLANKS], marks);
    }
}

/// Notes that blocks were written at the next address, and counts them.
fn note_written(notes: &mut Record, count: &mut u32, at: u32, blocks: &[Block])
    requires fits { at + length blocks.now < 2 ^ 32 }
    requires count { count.old ≡ next_of notes.old.journal }
    requires next { at ≡ count.old }
    requires in_order { InOrder notes.old.journal }
    ensures journal { notes.new.journal ≡ notes.old.journal ++ written at blocks.now }
    ensures writes { notes.new.writes ≡ notes.old.writes }
    ensures misreads { notes.new.misreads ≡ notes.old.misreads }
    ensures waited { notes.new.waited ≡ notes.old.waited }
    ensures phases { notes.new.phases ≡ notes.old.phases }
    ensures count { count.new ≡ next_of notes.new.journal }
    ensures next { count.new ≡ at + length blocks.now }
    ensures in_order { InOrder notes.new.journal }
    ensures blocks { All (λ block. length block ≡ BLOCK_BYTES) blocks.now }
    ensures whole { AreWhole notes.old.journal → AreWhole notes.new.journal }
{
    notes.note(&[at, WRITTEN], blocks);
    *count = at + blocks.len() as u32;
}
