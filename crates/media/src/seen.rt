//! What image files are assumed to hold. Only clauses read this.
ghost use Rattle.std.specs.Prelude.{◌≡◌, ◌+◌, ◌∷◌, true, ℕ};
ghost use Rattle.std.specs.Borrow.{ftrue};
ghost use Rattle.settling.specs.GatheringFile.{journal_of, misreads_of};
ghost use Rattle.drive.specs.Journal.{counted};
ghost use Rattle.media.specs.Seen.{FileRecord, ImageJournals, LookLog, held_blocks, lookup, missed, with_new_image};

use drive::{HeldBlocks, Look};
use settling::GatheringFileDrive;
use std::marker::Model;

/// What was found and looked at. It takes no memory, and its functions do nothing when they run.
#[derive(Drop)]
pub(crate) struct Seen {
    pub ghost images: { ImageJournals },
    pub ghost misses: { ℕ },
    pub ghost looks: { LookLog },
    pub ghost failures: { ℕ },
}

impl Model for Seen {
    ghost also_owns = { λ _. ftrue };
}

impl Seen {
    /// What this record has.
    pub(crate) fn new(_none: &[u8]) -> Seen
        ghost first: { FileRecord }
        ensures { (result.images ≡ first.images) × (result.misses ≡ first.misses) × (result.looks ≡ first.looks) × (result.failures ≡ first.failures) }
    {
        Seen {}
    }

    /// The blocks that the image at this path is assumed to hold.
    pub(crate) fn blocks(_seen: &Seen, _path: &[u8]) -> HeldBlocks
        ensures { result.blocks ≡ held_blocks (lookup _seen.now.images _path.now) }
    {
        HeldBlocks {}
    }

    /// The image at this path was opened, with what this drive has.
    pub(crate) fn after_open(_seen: &Seen, _path: &[u8], _drive: &GatheringFileDrive) -> Seen
        ensures { (result.images ≡ _seen.now.images) × (result.misses ≡ _seen.now.misses + missed (lookup _seen.now.images _path.now) (journal_of _drive.now)) × (result.looks ≡ _seen.now.looks) × (result.failures ≡ _seen.now.failures) }
    {
        Seen {}
    }

    /// There is a file at this path, which was made where there was none.
    pub(crate) fn after_made(_seen: &Seen, _path: &[u8]) -> Seen
        ensures { (result.images ≡ with_new_image (lookup _seen.now.images _path.now) _path.now _seen.now.images) × (result.misses ≡ _seen.now.misses) × (result.looks ≡ _seen.now.looks) × (result.failures ≡ _seen.now.failures) }
    {
        Seen {}
    }

    /// The image at this path could not be taken out, or looked at.
    pub(crate) fn after_failure(_seen: &Seen, _path: &[u8]) -> Seen
        ensures { (result.images ≡ _seen.now.images) × (result.misses ≡ _seen.now.misses) × (result.looks ≡ _seen.now.looks) × (result.failures ≡ counted true _seen.now.failures) }
    {
        Seen {}
    }

    /// This drive was put back at this path.
    pub(crate) fn after_back(_seen: &Seen, _path: &[u8], _drive: &GatheringFileDrive) -> Seen
        ensures { (result.images ≡ (_path.now, journal_of _drive.now) ∷ _seen.now.images) × (result.misses ≡ _seen.now.misses + misreads_of _drive.now) × (result.looks ≡ _seen.now.looks) × (result.failures ≡ _seen.now.failures) }
    {
        Seen {}
    }

    /// The image at this path was looked at, and this was found.
    pub(crate) fn after_look(_seen: &Seen, _path: &[u8], _look: &Look) -> Seen
        ensures { (result.images ≡ _seen.now.images) × (result.misses ≡ _seen.now.misses) × (result.looks ≡ (_path.now, _look.now.part) ∷ _seen.now.looks) × (result.failures ≡ _seen.now.failures) }
    {
        Seen {}
    }
}
