//! A drive in memory that gathers.
ghost use Rattle.limits.specs.declared.TheConstants.{BLOCK_BYTES};
ghost use Rattle.std.specs.Prelude.{◌≡◌, ◌≤◌, ◌++◌, [], ◌∷◌, length, take, vec_len, ◌+◌, refl, true, false, All, IsTrue, OnErr, OnOk};
ghost use Rattle.drive.specs.Gathering.{waits_never};
ghost use Rattle.drive.specs.Journal.{AreWhole, counted, written};
ghost use Rattle.drive.specs.MemDrive.{capacity_of, writes_of};
ghost use Rattle.drive.specs.Reads.{one_if};
ghost use Rattle.settling.specs.Calls.{GivesFront, gathering_as};
ghost use Rattle.settling.specs.Given.{blocks_in, phases_in};
ghost use Rattle.settling.specs.Phases.{two_phases};

use crate::settles::fail;
use crate::{Phase, Settles};
use drive::{Drive, DriveFault, MemDrive, Scheduled};
use limits::Block;
use std::alloc::{AllocError, Global};

/// A drive in memory that gathers. It keeps what a disk would have been given of each group. A call fails only if its
/// schedule says so, if a write is for another address than the next one, if there is no memory, or if a settle is not
/// for the marks that were told. The schedule counts the calls of `next`, `read` and `write`, and each of the two syncs
/// of a settle. A write that fails adds no block.
#[derive(Drop)]
pub struct GatheringDrive {
    alloc: Global,
    /// Which calls fail, what was given to writes, and how many blocks there is room for. Its blocks are not read.
    script: MemDrive,
    blocks: Vec<Block>,
    failures: u64,
    gathers: bool,
    /// Counts the writes that wait, for contracts: it is given an empty write for each.
    waits: MemDrive,
    marks: Vec<u32>,
    /// There was no memory for a mark.
    lost_mark: bool,
    phases: Vec<Phase>,
    ghost fits: { vec_len blocks ≤ capacity_of script },
    ghost whole: { AreWhole (written 0 blocks.items) },
}

impl GatheringDrive {
    ghost use Rattle.settling.specs.Gathered.{blocks_of, capacity_of as room_of, failures_of, gathering_of, gathers_of, phases_of, writes_of as given_of, KeepsAllButPhases};

    /// A blank drive of `capacity` blocks.
    pub fn new(alloc: Global, capacity: u32, schedule: Vec<Scheduled>) -> GatheringDrive
        ensures blocks { blocks_of result ≡ [] }
        ensures room { room_of result ≡ capacity }
        ensures given { given_of result ≡ [] }
        ensures failures { failures_of result ≡ 0 }
        ensures gathering { gathering_of result ≡ waits_never }
    {
        GatheringDrive {
            alloc,
            script: MemDrive::new(alloc, capacity, schedule),
            blocks: Vec::new(alloc),
            failures: 0,
            gathers: false,
            waits: MemDrive::new(alloc, 0, Vec::new(alloc)),
            marks: Vec::new(alloc),
            lost_mark: false,
            phases: Vec::new(alloc),
        }
    }

    /// A drive of this capacity with the same blocks, on which no call was made yet. No call fails.
    pub fn reopened(self, capacity: u32) -> GatheringDrive
        requires { length (blocks_of self) ≤ capacity }
        ensures blocks { blocks_of result ≡ blocks_of self }
        ensures room { room_of result ≡ capacity }
        ensures given { given_of result ≡ [] }
        ensures failures { failures_of result ≡ 0 }
        ensures gathering { gathering_of result ≡ waits_never }
    {
        GatheringDrive {
            alloc: self.alloc,
            script: MemDrive::new(self.alloc, capacity, Vec::new(self.alloc)),
            blocks: self.blocks,
            failures: 0,
            gathers: false,
            waits: MemDrive::new(self.alloc, 0, Vec::new(self.alloc)),
            marks: Vec::new(self.alloc),
            lost_mark: false,
            phases: Vec::new(self.alloc),
        }
    }

    /// The blocks that were written and not taken back, from address 0 on.
    pub fn blocks(&self) -> &[Block]
        ensures { result.now ≡ blocks_of self.now }
    {
        &self.blocks
    }

    /// What a disk would have been given of groups, each phase before a sync.
    pub fn phases(&self) -> &[Phase]
        ensures { phases_in result.now ≡ phases_of self.now }
    {
        &self.phases
    }

    /// How many calls have failed. It stops at 2^64 - 1.
    pub fn failures(&self) -> u64
        ensures { result ≡ failures_of self.now }
    {
        self.failures
    }

    /// Whether writes wait.
    pub fn gathers(&self) -> bool
        ensures { result ≡ gathers_of self.now }
    {
        self.gathers
    }

    /// Whether a settle is for what waits.
    fn is_due(&self, from: u32, marks: &[u32]) -> bool
        ensures { IsTrue result → from ≤ length (blocks_of self.now) }
    {
        self.gathers
            && !self.lost_mark
            && marks == self.marks.as_slice()
            && from as usize <= self.blocks.len()
    }

    /// Gives the disk both phases. Returns whether both syncs worked.
    fn give(&mut self, from: u32, marks: &[u32]) -> bool
        requires { from ≤ length (blocks_of self.old) }
        ensures given { IsTrue result → phases_of self.new ≡ phases_of self.old ++ two_phases from marks.now (written 0 (blocks_of self.old)) }
        ensures begun { GivesFront (two_phases from marks.now (written 0 (blocks_of self.old))) (phases_of self.old) (phases_of self.new) }
        ensures rest { KeepsAllButPhases self.old self.new }
    {
        // Unused: it gives the proof the range of the capacity.
        let _capacity = self.script.capacity();
        let (_, waiting) = self.blocks.split_at(from as usize);
        let Ok(first) = Phase::blanks(self.alloc, from, waiting, marks) else {
            return false;
        };
        let Ok(second) = Phase::marks(self.alloc, from, waiting, marks) else {
            return false;
        };
        if !self.sync(first) {
            return false;
        }
        self.sync(second)
    }

    /// Takes back the blocks from an address on.
    fn cut(&mut self, from: u32)
        ensures blocks { blocks_of self.new ≡ take from (blocks_of self.old) }
        ensures phases { phases_of self.new ≡ phases_of self.old }
        ensures gathers { gathers_of self.new ≡ gathers_of self.old }
        ensures failures { failures_of self.new ≡ failures_of self.old }
        ensures script { self.new.script ≡ self.old.script }
        ensures waits { self.new.waits ≡ self.old.waits }
    {
        self.blocks.truncate(from as usize);
    }

    /// Gives the disk a phase, and syncs. Returns whether the sync worked.
    fn sync(&mut self, phase: Phase) -> bool
        ensures given { IsTrue result → phases_of self.new ≡ phases_of self.old ++ blocks_in phase ∷ [] }
        ensures begun { GivesFront (blocks_in phase ∷ []) (phases_of self.old) (phases_of self.new) }
        ensures rest { KeepsAllButPhases self.old self.new }
    {
        if self.phases.push(phase).is_err() {
            return false;
        }
        self.script.next().is_ok()
    }
}

impl Drive for GatheringDrive {
    ghost journal = { λ d. written 0 d.blocks.items };

    ghost writes = { λ d. writes_of d.script };

    ghost failures = { λ d. d.failures };

    ghost capacity = { λ d. capacity_of d.script };

    ghost misreads = { λ _. 0 };

    ghost honest = { λ _. true };

    ghost gathering = { λ d. gathering_as d.gathers (length (writes_of d.waits)) (phases_in d.phases.items) };

    ghost honest_is = { λ _. refl };

    fn capacity(&self) -> u32 {
        self.script.capacity()
    }

    fn next(&mut self) -> Result<u32, DriveFault> {
        if self.script.next().is_err() {
            self.failures = self.failures.saturating_add(1);
            return Err(DriveFault);
        }
        Ok(self.count())
    }

    fn read(&mut self, at: u32, into: &mut Block) -> Result<(), DriveFault> {
        if self.script.next().is_err() {
            return fail(&mut self.failures);
        }
        *into = self.blocks[at as usize];
        Ok(())
    }

    fn write(&mut self, at: u32, blocks: &[Block]) -> Result<(), DriveFault> {
        note_waiting(&mut self.waits, self.gathers);
        if self.script.write(0, blocks).is_err() {
            return fail(&mut self.failures);
        }
        if at as usize != self.blocks.len() {
            return fail(&mut self.failures);
        }
        if push_all(&mut self.blocks, blocks).is_err() {
            return fail(&mut self.failures);
        }
        Ok(())
    }
}

impl Settles for GatheringDrive {
    ghost use Rattle.drive.proofs.Once.{once-written};

    ghost once = { λ d. once-written 0 d.blocks.items };

    fn count(&self) -> u32 {
        // Unused: it gives the proof the range of the capacity.
        let _capacity = self.script.capacity();
        self.blocks.len() as u32
    }

    fn gather(&mut self) {
        self.marks.clear();
        self.lost_mark = false;
        self.gathers = true;
    }

    fn end_commit(&mut self) {
        let last = self.count().saturating_sub(1);
        if self.marks.push(last).is_err() {
            self.lost_mark = true;
        }
    }

    fn settle(&mut self, from: u32, marks: &[u32]) -> Result<(), DriveFault> {
        let is_due = self.is_due(from, marks);
        self.gathers = false;
        if is_due && self.give(from, marks) {
            return Ok(());
        }
        self.cut(from);
        fail(&mut self.failures)
    }

    fn take_back(&mut self, from: u32, _marks: &[u32]) {
        self.gathers = false;
        self.cut(from);
    }
}

/// Counts a write, if it waits.
fn note_waiting(waits: &mut MemDrive, gathers: bool)
    ensures { length (writes_of waits.new) ≡ length (writes_of waits.old) + one_if gathers }
{
    if gathers {
        let _ = waits.write(0, &[]);
    }
}

/// Adds blocks at the end. If there is no memory, it adds none.
fn push_all(list: &mut Vec<Block>, blocks: &[Block]) -> Result<(), AllocError>
    ensures blocks { All (λ block. length block ≡ BLOCK_BYTES) blocks.now }
    ensures ok { OnOk result (list.new.items ≡ list.old.items ++ blocks.now) }
    ensures err { OnErr result (list.new.items ≡ list.old.items) }
{
    list.extend_from_slice(blocks)?;
    Ok(())
}
