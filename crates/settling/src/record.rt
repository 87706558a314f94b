//! What a drive over a file was given, and what its file was given of groups. Only clauses read this.
ghost use Rattle.std.specs.Prelude.{◌≡◌, ℕ, List, [], slice_index};
ghost use Rattle.std.specs.Borrow.{ftrue};
ghost use Rattle.drive.specs.FileDrive.{journal_of};
ghost use Rattle.drive.specs.Journal.{Event, written};
ghost use Rattle.drive.specs.Note.{fitted, journal_after, misreads_after, writes_after};
ghost use Rattle.settling.specs.Note.{journal_left, phases_after, waited_after};

use drive::{FileDrive, HeldBlocks};
use limits::Block;
use std::marker::{Model, PhantomData};

/// Note: the blocks were written.
pub(crate) const WRITTEN: u32 = 0;

/// Note: the blocks were read.
pub(crate) const READ: u32 = 1;

/// Note: the blocks were given to a write, which has not returned.
pub(crate) const GIVEN: u32 = 2;

/// Note: the blocks were given to the same write, after those of the note before.
pub(crate) const MORE: u32 = 3;

/// Note on a group: the file may have all its blocks but the marks.
pub(crate) const BLANKS: u32 = 0;

/// Note on a group: these are synced, and the file may have the marks.
pub(crate) const MARKS: u32 = 1;

/// Note on a group: its blocks were taken back.
pub(crate) const TAKEN: u32 = 2;

/// Note on a group: it was given a write, which waits.
pub(crate) const WAITS: u32 = 3;

/// What was written, given and misread, and the phases of groups. It takes no memory, and its methods do nothing when
/// they run.
#[derive(Drop)]
pub(crate) struct Record {
    marker: PhantomData<u8>,
    pub ghost journal: { List Event },
    pub ghost writes: { List (List (List ℕ)) },
    pub ghost misreads: { ℕ },
    pub ghost phases: { List (List Event) },
    pub ghost waited: { ℕ },
}

impl Model for Record {
    ghost also_owns = { λ _. ftrue };
}

impl Record {
    /// The record of a drive that holds what this one holds, and on which no call was made yet.
    pub(crate) fn over(_drive: &FileDrive) -> Record
        ensures { (result.journal ≡ journal_of _drive.now) × (result.writes ≡ []) × (result.misreads ≡ 0) × (result.phases ≡ []) × (result.waited ≡ 0) }
    {
        Record {
            marker: PhantomData,
        }
    }

    /// The record of a drive of this many blocks, which are the first of those that it is assumed to hold.
    pub(crate) fn holding(_counts: &[u32], _held: &HeldBlocks) -> Record
        ensures { (result.journal ≡ written 0 (fitted (slice_index _counts.now 0) _held.now.blocks)) × (result.writes ≡ []) × (result.misreads ≡ 0) × (result.phases ≡ []) × (result.waited ≡ 0) }
    {
        Record {
            marker: PhantomData,
        }
    }

    /// Notes blocks at an address. The numbers are the address and one of the first four notes above.
    pub(crate) fn note(&mut self, _numbers: &[u32], _blocks: &[Block])
        ensures { (self.new.journal ≡ journal_after _numbers.now _blocks.now self.old.journal)
            × (self.new.writes ≡ writes_after _numbers.now _blocks.now self.old.writes)
            × (self.new.misreads ≡ misreads_after _numbers.now _blocks.now self.old.journal self.old.misreads)
            × (self.new.phases ≡ self.old.phases)
            × (self.new.waited ≡ self.old.waited) }
    {}

    /// Notes what became of a group with these marks. The numbers are the address of its first block and one of the
    /// four notes on a group.
    pub(crate) fn note_group(&mut self, _numbers: &[u32], _marks: &[u32])
        ensures { (self.new.journal ≡ journal_left _numbers.now self.old.journal)
            × (self.new.writes ≡ self.old.writes)
            × (self.new.misreads ≡ self.old.misreads)
            × (self.new.phases ≡ phases_after _numbers.now _marks.now self.old.journal self.old.phases)
            × (self.new.waited ≡ waited_after _numbers.now self.old.waited) }
    {}
}
