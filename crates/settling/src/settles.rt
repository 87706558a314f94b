//! What a drive whose writes may wait does.
ghost use Rattle.std.specs.Prelude.{◌≡◌, ◌++◌, [], ◌∷◌, true, take, drop, is_err, IsErr, OnOk, OnErr};
ghost use Rattle.drive.specs.Journal.{Once, counted, next_of};
ghost use Rattle.settling.specs.Phases.{blanked, two_phases};
ghost use Rattle.settling.specs.Calls.{EndsGathering, IsUntouched, KeepsRest, begun};

use drive::{Drive, DriveFault};

/// A drive whose writes may wait until they are settled. While it gathers, a write that returns need not be on the disk
/// yet, and what is read is what was written. Otherwise each write is synced before it returns.
pub trait Settles: Drive {
    /// How many blocks it has. The medium is not asked.
    fn count(&self) -> u32
        ensures { result ≡ next_of (Self.journal self.now) };

    /// From now on writes wait.
    fn gather(&mut self)
        ensures begun { Self.gathering self.new ≡ begun (Self.gathering self.old) }
        ensures untouched { IsUntouched Self.Drive self.old self.new };

    /// Says that the block that was written last ends a commit. So it is a mark, and waits for the second phase.
    fn end_commit(&mut self)
        ensures gathering { Self.gathering self.new ≡ Self.gathering self.old }
        ensures untouched { IsUntouched Self.Drive self.old self.new };

    /// Gives the disk what waits, and ends the gathering: all blocks from an address on but the marks, and a sync; then
    /// the marks, and a sync. If it fails, these blocks are taken back, as if they had not been written.
    fn settle(&mut self, from: u32, marks: &[u32]) -> Result<(), DriveFault>
        ensures ok { OnOk result (Self.journal self.new ≡ Self.journal self.old) }
        ensures err { OnErr result (Self.journal self.new ≡ take from (Self.journal self.old)) }
        ensures given { OnOk result ((Self.gathering self.new).phases ≡ (Self.gathering self.old).phases ++ two_phases from marks.now (Self.journal self.old)) }
        // If it fails, what was given last may not be on the disk.
        ensures ended { EndsGathering (two_phases from marks.now (Self.journal self.old)) (Self.gathering self.old) (Self.gathering self.new) }
        ensures failures { Self.failures self.new ≡ counted (is_err result) (Self.failures self.old) }
        ensures rest { KeepsRest Self.Drive self.old self.new };

    /// Takes back all blocks from an address on, as if they had not been written, and ends the gathering. The disk may
    /// have been given them, but no mark.
    fn take_back(&mut self, from: u32, marks: &[u32])
        ensures journal { Self.journal self.new ≡ take from (Self.journal self.old) }
        ensures ended { EndsGathering (blanked marks.now (drop from (Self.journal self.old)) ∷ []) (Self.gathering self.old) (Self.gathering self.new) }
        ensures failures { Self.failures self.new ≡ Self.failures self.old }
        ensures rest { KeepsRest Self.Drive self.old self.new };

    /// Each address was written once, in order. So the first blocks of the journal are those below an address.
    ghost once: { (d : Self) → Once (Self.journal d) };
}

/// Counts a failure.
pub(crate) fn fail(failures: &mut u64) -> Result<(), DriveFault>
    ensures err { IsErr result }
    ensures counted { failures.new ≡ counted true failures.old }
{
    *failures = failures.saturating_add(1);
    Err(DriveFault)
}
