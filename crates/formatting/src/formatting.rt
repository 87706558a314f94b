//! A new volume.

ghost use Rattle.limits.specs.declared.TheConstants.{BLOCK_BYTES, FORMAT_BLOCKS, GREATEST_CAPACITY, LEAST_CAPACITY, MOMENT_LIMIT};
ghost use Rattle.std.specs.Prelude.{◌≡◌, ◌≢◌, ◌↔◌, ℕ, ◌<◌, ◌≤◌, ◌∷◌, [], Ok, Err, IsTrue, None, IsSome, IsNone, IfOk, IfErr, IfSome, OnOk, is_err, length};
ghost use Rattle.drive.specs.Journal.{counted, held, next_of};
ghost use Rattle.drive.specs.Reads.{ReadsAndWrites, ReadsOnly};
ghost use Rattle.dir.specs.Directory.{identifiers};
ghost use Rattle.dir.specs.Layout.{identifier_blocks};
ghost use Rattle.ecma.specs.Descriptor.{padded};
ghost use Rattle.icb.specs.Entry.{IsEntry};
ghost use Rattle.osta.specs.FirstFault.{first_text_fault};
ghost use Rattle.osta.specs.Label.{IsLabel, label_faults};
ghost use Rattle.recover.specs.Faults.{devices};
ghost use Rattle.recover.specs.declared.fault.StoreFault.TheVariants as fault;
ghost use Rattle.formatting.specs.NewVolume.{words_of, words_on, IsBlockAt, IsFormatRead, IsFormatPrefix, AreBlocks, IsFormatted, IsFormatRefused, FormatSurvivesPowerLoss, OneFormat};
ghost use Rattle.udf.specs.NewVolume as udf;
ghost use Rattle.udf.specs.NewVolume.{root_fields, new_table_fields};
ghost use Rattle.vat.specs.Table.{table_bytes};

use crate::parts::Parts;
use dir::{Dir, Lay};
use drive::{Drive, DriveFault, write_last_alone};
use ecma::{Block, Timestamp};
use icb::{FileEntry, FileSet, Kind, Place, encode_fe, encode_fsd};
use indexmap::IndexMap;
use limits::{BLOCK_SIZE, FORMAT_BLOCKS, GREATEST_CAPACITY, LEAST_CAPACITY, PARTITION_START};
use osta::Label;
use recover::{ROOT_ADDRESS, StoreFault};
use std::alloc::{AllocError, Global};
use udf::blocks_are_bytes;
use vat::{Sessions, Vat, Version, encode_vat};
use volume::front_block;

/// The size of a directory without names, in bytes: that of its parent's identifier.
const EMPTY_DIRECTORY: u32 = 40;

/// The size of the table of a volume with only its root, in bytes.
const FIRST_TABLE: u32 = 204;

/// The block number of the first VAT ICB.
const TABLE_ENTRY: u32 = 4;

/// Writes a new volume on a blank drive, or the rest of one that a format with the same words began. The moment is in
/// microseconds from 1970-01-01 UTC. `Label` if the text is no label, `Small` if the drive has fewer blocks than
/// `LEAST_CAPACITY`, and `NotBlank` if it has other blocks than such a format, or more. The last block, which makes the
/// volume valid, is written in a write of its own, after all others have finished.
#[tactic(auto, using(crate::proofs::FormatJournals::nothing_written))]
pub fn format<D: Drive>(
    alloc: Global,
    drive: &mut D,
    label: &str,
    moment: u64,
) -> Result<(), StoreFault>
    requires moment { moment < MOMENT_LIMIT }
    ensures ok { OnOk result (IsFormatted (D.capacity drive.old) (words_on (D.capacity drive.old) label.now moment) (D.journal drive.old) (D.journal drive.new) (D.honest drive.new)) }
    ensures err { IfErr result (IsFormatRefused (D.capacity drive.old) (words_on (D.capacity drive.old) label.now moment) (D.journal drive.old) (D.journal drive.new) (D.honest drive.new)) }
    // What a power loss leaves of its writes: the disk may keep any of the blocks of the last write that it was given.
    ensures withstands { FormatSurvivesPowerLoss (D.capacity drive.old) (words_on (D.capacity drive.old) label.now moment) (D.journal drive.old) (D.writes drive.old) (D.journal drive.new) (D.writes drive.new) (D.honest drive.new) }
    ensures label { (result ≡ Err fault.Label) ↔ IsSome (first_text_fault (label_faults label.now)) }
    ensures small { (result ≡ Err fault.Small) ↔ (IsNone (first_text_fault (label_faults label.now)) × (D.capacity drive.old < LEAST_CAPACITY)) }
    ensures follows { ReadsAndWrites D.Drive (devices result) drive.old drive.new }
{
    let label = match Label::read(label) {
        Ok(label) => label,
        Err(_) => return Err(StoreFault::Label),
    };
    let capacity = drive.capacity();
    if capacity < LEAST_CAPACITY {
        return Err(StoreFault::Small);
    }
    let moment = Timestamp::of(moment).unwrap();
    let Ok(parts) = parts_of(alloc, label, moment, capacity.min(GREATEST_CAPACITY)) else {
        return Err(StoreFault::Memory);
    };
    complete(alloc, drive, &parts)
}

/// Writes what a drive lacks of the format with these parts. `NotBlank` if it has other blocks, or more.
#[tactic(auto, using(crate::proofs::FormatJournals::nothing_written))]
fn complete<D: Drive>(alloc: Global, drive: &mut D, parts: &Parts) -> Result<(), StoreFault>
    requires room { parts.now.capacity ≤ D.capacity drive.old }
    ensures ok { OnOk result (IsFormatted (D.capacity drive.old) (words_of parts.now) (D.journal drive.old) (D.journal drive.new) (D.honest drive.new)) }
    ensures err { IfErr result (IsFormatRefused (D.capacity drive.old) (words_of parts.now) (D.journal drive.old) (D.journal drive.new) (D.honest drive.new)) }
    ensures withstands { FormatSurvivesPowerLoss (D.capacity drive.old) (words_of parts.now) (D.journal drive.old) (D.writes drive.old) (D.journal drive.new) (D.writes drive.new) (D.honest drive.new) }
    ensures neither { IfErr result (λ told. (told ≢ fault.Label) × (told ≢ fault.Small)) }
    ensures follows { ReadsAndWrites D.Drive (devices result) drive.old drive.new }
{
    let next = match begun(drive, parts) {
        Ok(Some(count)) => count,
        Ok(None) => return Err(StoreFault::NotBlank),
        Err(_) => return Err(StoreFault::Device),
    };
    let Ok(blocks) = rest(alloc, parts, next) else {
        return Err(StoreFault::Memory);
    };
    match write_last_alone(drive, next, &blocks) {
        Ok(()) => Ok(()),
        Err(_) => Err(StoreFault::Device),
    }
}

/// For one label, moment and capacity there is one format. Nothing runs: the contract is a law.
pub fn one_format()
    ensures { OneFormat }
{}

/// What the blocks of a format with these words are made from.
fn parts_of(
    alloc: Global,
    label: Label,
    moment: Timestamp,
    capacity: u32,
) -> Result<Parts, AllocError>
    requires label { IsLabel label }
    requires low { LEAST_CAPACITY ≤ capacity }
    requires high { capacity ≤ GREATEST_CAPACITY }
    ensures { IfOk result (λ parts. words_of parts ≡ record { volume = capacity; label = label; moment = moment }) }
{
    Ok(Parts {
        label,
        moment,
        capacity,
        root: root_names(alloc),
        table: first_table(alloc, label)?,
    })
}

/// The one block of a root without names.
fn root_names(alloc: Global) -> Block
    ensures { result ∷ [] ≡ identifier_blocks 1 (identifiers 1 []) }
{
    let root = Dir {
        parent: ROOT_ADDRESS,
        entries: IndexMap::new(alloc),
    };
    Lay::new(&root, 1).next_block().unwrap()
}

/// How many blocks of a format a drive has. `None` if it has any other block.
fn begun<D: Drive>(drive: &mut D, parts: &Parts) -> Result<Option<u32>, DriveFault>
    ensures next { IfOk result (λ found. IfSome found (λ next. (next ≡ next_of (D.journal drive.old)) × (next ≤ FORMAT_BLOCKS))) }
    ensures seen { IfOk result (λ found. IfSome found (IsFormatRead (words_of parts.now) (D.journal drive.old) (D.honest drive.new))) }
    ensures other { result ≡ Ok None → IsTrue (D.honest drive.new) → IsFormatPrefix (words_of parts.now) (held (D.journal drive.old)) → ⊥ }
    ensures reads { ReadsOnly D.Drive 0 drive.old drive.new }
    ensures failures { D.failures drive.new ≡ counted (is_err result) (D.failures drive.old) }
{
    let next = match drive.next() {
        Ok(next) => next,
        Err(fault) => return Err(fault),
    };
    if next > FORMAT_BLOCKS {
        return Ok(None);
    }
    for n in 0..next {
        let mut block = [0; BLOCK_SIZE];
        match drive.read(n, &mut block) {
            Ok(()) => {}
            Err(fault) => return Err(fault),
        }
        let expected = format_block(parts, n);
        blocks_are_bytes(&expected);
        if block != expected {
            return Ok(None);
        }
    }
    Ok(Some(next))
}

/// The blocks of a format from the address `next` on.
fn rest(alloc: Global, parts: &Parts, next: u32) -> Result<Vec<Block>, AllocError>
    requires { next ≤ FORMAT_BLOCKS }
    ensures { IfOk result (λ blocks. AreBlocks (words_of parts.now) next FORMAT_BLOCKS blocks.items) }
{
    let mut blocks = Vec::new(alloc);
    for n in next..FORMAT_BLOCKS {
        let block = format_block(parts, n);
        blocks_are_bytes(&block);
        blocks.push(block)?;
    }
    Ok(blocks)
}

/// The block that a format writes at an address.
fn format_block(parts: &Parts, n: u32) -> Block
    requires { n < FORMAT_BLOCKS }
    ensures { IsBlockAt (words_of parts.now) n result }
{
    if n < PARTITION_START {
        return front_block(&parts.label, parts.moment, parts.capacity, n);
    }
    match n {
        257 => encode_fsd(&FileSet {
            label: parts.label,
            moment: parts.moment,
        }),
        258 => parts.root,
        259 => root_block(parts.moment),
        260 => table_block(&parts.table),
        _ => table_entry_block(parts.moment),
    }
}

/// The block of the entry of a root without names.
fn root_block(moment: Timestamp) -> Block
    ensures { IsEntry (root_fields moment) 1 result }
{
    let entry = FileEntry {
        kind: Kind::Directory,
        moment,
        links: 1,
        unique: 0,
        size: EMPTY_DIRECTORY,
        place: Place::Extent(1),
    };
    encode_fe(&entry, ROOT_ADDRESS)
}

/// The block of the first VAT ICB.
fn table_entry_block(moment: Timestamp) -> Block
    ensures { IsEntry (new_table_fields moment) 4 result }
{
    let entry = FileEntry {
        kind: Kind::Vat,
        moment,
        links: 0,
        unique: 0,
        size: FIRST_TABLE,
        place: Place::Extent(3),
    };
    encode_fe(&entry, TABLE_ENTRY)
}

/// The block of the first table.
fn table_block(table: &[u8]) -> Block
    requires { length table.now ≤ BLOCK_BYTES }
    ensures { result ≡ padded table.now }
{
    let mut block = [0; BLOCK_SIZE];
    block[..table.len()].copy_from_slice(table);
    block
}

/// The bytes of the table of a volume with only its root.
fn first_table(alloc: Global, label: Label) -> Result<Vec<u8>, AllocError>
    requires { IsLabel label }
    ensures { IfOk result (λ bytes. bytes.items ≡ table_bytes (udf.first_table label)) }
{
    let vat = Vat {
        label,
        previous: None,
        files: 0,
        directories: 1,
        sessions: Sessions {
            version: Version::Two,
            next_unique: 16,
            commits: 0,
            records: Vec::new(alloc),
        },
        entries: vec![in alloc; Some(0), Some(2)]?,
    };
    encode_vat(alloc, &vat)
}
