//! What holds of these formats, and of every medium in them. Nothing here runs: each function's contract is a law.

ghost use Rattle.std.specs.Prelude.{◌<◌, ℕ, slice_index};
ghost use Rattle.durability.specs.Formats.{AreExact, AreBounded, AreDistinct, AreShort};
ghost use Rattle.udf.specs.Udf.{udf, spelled_length, IsBlock};
ghost use Rattle.udf.specs.Said.{EntriesAgree, DirectoriesAgree, TablesAgree, SizesAgree, ImitationAgrees, DataAgrees, ClearStartsAgree};
ghost use Rattle.udf.specs.NewVolume.{NewVolumesAreFormats};
ghost use Rattle.udf.specs.Laws.{OneStateIsRecovered, RecoveredIsSound, OnePast, PastIsWithin, RecoveredIsLast, RecoversAppended, PastAppended, PlannedCarries, PlannedShort, CommitAdvances, NothingBefore, FormatRecovers, RunsHold, RunsHoldOnJournal};
ghost use Rattle.udf.specs.Torn.{PrefixesAreLeft, FewerAreLeft, ChoicesAreLeft, TornPartIsAlike, LastBlockDecides, TornCommitMoves, TornCommitShort, TornCommitAdvances, AnsweredEndure, CommitsEndure, TornCommitRuns, TornFormatIsNothing, TornFormatRecovers};

use limits::Block;

/// A block of a medium is a block as these formats define it: it has its size, and bytes below 256.
pub fn blocks_are_bytes(block: &Block)
    ensures { IsBlock block.now }
{
    are_bytes(block);
}

/// The items of a slice of bytes are below 256.
fn are_bytes(bytes: &[u8])
    ensures { (i : ℕ) → slice_index bytes.now i < 256 }
{}

/// At its location a block is at most one file entry. Blocks are the data of at most one directory, and bytes are at
/// most one table.
pub fn formats_are_exact()
    ensures { AreExact udf }
{}

/// A directory has at most 512 names, a table at most 4,097 entries, and each node has one.
pub fn formats_are_bounded()
    ensures { AreBounded udf }
{}

/// No directory's block, file set or block of zeros is a file entry, and no entry is of two kinds.
pub fn formats_are_distinct()
    ensures { AreDistinct udf }
{}

/// How many blocks a directory takes at most follows from the lengths of its names as they are encoded.
pub fn formats_are_short()
    ensures { AreShort udf spelled_length }
{}

/// What the codecs read is what the blocks hold in these formats.
pub fn codecs_agree()
    ensures entries { EntriesAgree }
    ensures directories { DirectoriesAgree }
    ensures tables { TablesAgree }
    ensures sizes { SizesAgree }
{}

/// A block imitates a VAT ICB exactly if `vat` says so. Data in blocks, and their clear starts, are those of the plans.
pub fn imitation_agrees()
    ensures imitates { ImitationAgrees }
    ensures data { DataAgrees }
    ensures clear { ClearStartsAgree }
{}

/// A medium recovers to at most one state, and it is sound.
pub fn one_state_stands()
    ensures one { OneStateIsRecovered }
    ensures sound { RecoveredIsSound }
{}

/// After a number of commits there was at most one state. The one to which the medium recovers is the last of them.
pub fn one_state_stood()
    ensures one { OnePast }
    ensures within { PastIsWithin }
    ensures last { RecoveredIsLast }
{}

/// Blocks of which none imitates a VAT ICB change neither the state to which a medium recovers nor those before it.
pub fn blocks_are_appended()
    ensures recovers { RecoversAppended }
    ensures past { PastAppended }
{}

/// The planned blocks of a request carry it out, and are no more than it may need.
pub fn planned_blocks_carry()
    ensures carries { PlannedCarries }
    ensures short { PlannedShort }
{}

/// Each prefix of a commit on a drive's journal recovers to the old state, and only the whole commit, with its last
/// block, to the state after the request.
pub fn commits_advance()
    ensures { CommitAdvances }
{}

/// A medium recovers to the new volume with the last block of a format, and to nothing before.
pub fn formats_stand()
    ensures before { NothingBefore }
    ensures recovers { FormatRecovers }
{}

/// What the encoders make from a label, a moment and a capacity is a format.
pub fn new_volumes_are_formats()
    ensures { NewVolumesAreFormats }
{}

/// On a medium and on a drive's journal, each prefix of a run leaves the state after the first N of its commits, for
/// some N.
pub fn runs_hold()
    ensures medium { RunsHold }
    ensures journal { RunsHoldOnJournal }
{}

/// Of writes that are each synced before the next begins, a power loss may leave whole ones, and of the next any of its
/// blocks, or of those of a prefix of it, with zeros in place of the others. A prefix of all blocks is one case of
/// this.
pub fn torn_images_are_left()
    ensures fronts { PrefixesAreLeft }
    ensures fewer { FewerAreLeft }
    ensures choices { ChoicesAreLeft }
{}

/// If the last block of a commit is written alone, after all others, the medium recovers to the old state whatever is
/// left of the others. Only with the last block does it recover to the state after the request.
pub fn torn_commits_move()
    ensures part { TornPartIsAlike }
    ensures last { LastBlockDecides }
    ensures moves { TornCommitMoves }
    ensures short { TornCommitShort }
    ensures journal { TornCommitAdvances }
{}

/// At any moment of a sequence of commits, those that were answered are there. After any number of power losses, with
/// commits between them, the medium recovers to the state after the complete ones, and to no other. The laws of a run
/// also hold with power losses in it.
pub fn commits_endure()
    ensures answered { AnsweredEndure }
    ensures turns { CommitsEndure }
    ensures runs { TornCommitRuns }
{}

/// The same holds of a format whose last block is written alone: the medium recovers to nothing, or to the new volume.
pub fn torn_formats_stand()
    ensures part { TornFormatIsNothing }
    ensures recovers { TornFormatRecovers }
{}
