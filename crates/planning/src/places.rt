//! The places of the blocks of a commit.

ghost use Rattle.limits.specs.declared.TheConstants.{BLOCK_BYTES, ENTRY_DESCRIPTORS, FILE_BYTES, GREATEST_FILE, PARTITION_BLOCKS};
ghost use Rattle.std.specs.Prelude.{◌≡◌, ℕ, ◌+◌, ◌-◌, ◌*◌, ◌<◌, ◌≤◌, IfErr, IfOk, List, [], ◌∷◌, ◌++◌, length, take, Some};
ghost use Rattle.std.specs.Int.{div_ceil};
ghost use Rattle.icb.specs.Entry.{FitsPlace, place_of};
ghost use Rattle.icb.specs.Extents as icb;
ghost use Rattle.icb.specs.declared.entry.Kind.TheVariants.{File};
ghost use Rattle.recover.specs.declared.fault.StoreFault.TheVariants.{Memory};
ghost use Rattle.dir.specs.Directory.{directory_blocks, directory_size};
ghost use Rattle.lookup.specs.Cache.{SaysPlace};
ghost use Rattle.durability.specs.Plan.{packed, IsClearStart, IsPlaced, PlacesFile, WritesNode};
ghost use Rattle.planning.specs.Needs as needs;
ghost use Rattle.table_update.specs.Outside.{outside, outside_after};
ghost use Rattle.lookup.specs.Extents.{full_size};
ghost use Rattle.planning.specs.Plan.{file_data, directory_data, IsLaid};
ghost use Rattle.planning.specs.Writings.{AreKeptOn, IsProper, file_writing, directory_writing};
ghost use Rattle.udf.specs.Said.{said_place};
ghost use Rattle.udf.specs.Udf.{udf};

use crate::change::NewDirectory;
use crate::file::NewFile;
use crate::layout::{FileBlocks, PlacedDirectory, PlacedFile};
use ecma::{Block, Timestamp};
use icb::{
    FileEntry, Kind, Place, PlannedEntry, descriptor_blocks, encode_fe, extent_descriptor,
    next_descriptor, write_descriptors,
};
use limits::{BLOCK_DESCRIPTORS, BLOCK_SIZE, ENTRY_DESCRIPTORS};
use recover::{Extent, StoreFault, block_count, bytes_from_block};
use std::alloc::Global;
use vat::clear_start;

/// The most bytes of a file that its entry takes.
pub(crate) const INSIDE_BYTES: usize = limits::INSIDE_BYTES as usize;

/// The block numbers that a commit gives out, one after another.
#[derive(Clone, Copy, Debug)]
pub(crate) struct Numbers {
    /// The next number.
    next: u32,
    /// How many blocks the partition has: no number from this one on is given out.
    end: u32,
    ghost within: { next ≤ end },
    ghost partition: { end ≤ PARTITION_BLOCKS },
}

impl Numbers {
    /// The block numbers from `next` on, of a partition of `end` blocks.
    pub(crate) fn new(next: u32, end: u32) -> Numbers
        requires within { next ≤ end }
        requires partition { end ≤ PARTITION_BLOCKS }
        ensures next { result.next ≡ next }
        ensures end { result.end ≡ end }
    {
        Numbers { next, end }
    }

    /// The number that the next block gets.
    pub(crate) fn next(&self) -> u32
        ensures next { result ≡ self.now.next }
        ensures room { result ≤ self.now.end }
        ensures partition { self.now.end ≤ PARTITION_BLOCKS }
    {
        self.next
    }

    /// Gives out the next `count` numbers, for which there is room.
    pub(crate) fn take(&mut self, count: u32)
        requires room { self.old.next + count ≤ self.old.end }
        ensures next { self.new.next ≡ self.old.next + count }
        ensures end { self.new.end ≡ self.old.end }
    {
        self.next += count;
    }

    /// Places bytes at the next clear start, and returns its block number. The gap before it is at most as long as the
    /// bytes.
    pub(crate) fn place_bytes(&mut self, bytes: &[u8]) -> u32
        requires few { length bytes.now ≤ FILE_BYTES }
        requires room { self.old.next + 2 * div_ceil (length bytes.now) BLOCK_BYTES ≤ self.old.end }
        ensures start { IsClearStart udf (packed bytes.now) self.old.next result }
        ensures next { self.new.next ≡ result + div_ceil (length bytes.now) BLOCK_BYTES }
        ensures most { self.new.next ≤ self.old.next + 2 * div_ceil (length bytes.now) BLOCK_BYTES }
        ensures end { self.new.end ≡ self.old.end }
    {
        let start = self.next;
        let first = clear_start(bytes, start);
        self.take(first - start + block_count(bytes.len() as u32));
        first
    }

    /// Places a file: its bytes, if they are outside its entry, its descriptor blocks, if it has some, and then the entry,
    /// with this moment.
    pub(crate) fn place_file<'r>(
        &mut self,
        alloc: Global,
        file: NewFile<'r>,
        moment: Timestamp,
    ) -> Result<PlacedFile<'r>, StoreFault>
        requires room { self.old.next + needs.file_need (Some file) ≤ self.old.end }
        ensures address { IfOk result (λ p. p.file.address ≡ file.entry.address) }
        ensures unique { IfOk result (λ p. p.file.unique ≡ file.entry.unique) }
        ensures bytes { IfOk result (λ p. p.file.bytes.now ≡ file.entry.bytes.now) }
        ensures kept { IfOk result (λ p. p.file.kept ≡ file.entry.kept) }
        ensures written { IfOk result (λ p. (medium : List (List ℕ)) → AreKeptOn medium p.file → WritesNode udf medium (file_writing medium moment p.file) self.old.next (file_data p ++ p.entry ∷ []) p.number) }
        ensures ends { IfOk result (λ p. p.number + 1 ≡ self.old.next + length (file_data p ++ p.entry ∷ [])) }
        ensures next { IfOk result (λ p. self.new.next ≡ p.number + 1) }
        ensures most { self.new.next ≤ self.old.next + needs.file_need (Some file.entry) }
        ensures end { self.new.end ≡ self.old.end }
        ensures short { IfErr result (λ fault. fault ≡ Memory) }
    {
        let start = self.next;
        let first = self.place_bytes(outside_of(&file));
        let next = self.next;
        self.take(file.descriptor_blocks());
        let number = self.next;
        self.take(1);
        let FileBlocks { listed, entry } = file_blocks(alloc, &file, moment, first, next)?;
        Ok(PlacedFile {
            file,
            gap: first - start,
            listed,
            entry,
            number,
        })
    }

    /// Places a directory: its data and its entry.
    pub(crate) fn place_directory(&mut self, directory: NewDirectory) -> PlacedDirectory
        requires proper { IsProper directory.content.dir }
        requires room { self.old.next + needs.directory_need directory ≤ self.old.end }
        ensures directory { result.directory ≡ directory }
        ensures laid { IsLaid self.old.next result }
        ensures written { (medium : List (List ℕ)) → WritesNode udf medium (directory_writing result.directory) self.old.next (directory_data result ++ result.entry ∷ []) result.number }
        ensures next { self.new.next ≡ result.number + 1 }
        ensures most { self.new.next ≤ self.old.next + needs.directory_need directory }
        ensures end { self.new.end ≡ self.old.end }
    {
        let content = &directory.content;
        let size = content.identifiers.data_size(&content.dir);
        let extent = Extent {
            first: self.next,
            size: size.bytes() as u32,
        };
        self.take(size.blocks());
        let number = self.next;
        self.take(1);
        let entry = directory_entry(&directory, extent);
        PlacedDirectory {
            directory,
            extent,
            entry,
            number,
        }
    }
}

/// The entry of a file, and its descriptor blocks, which begin at block number `next`. If its new bytes are outside the
/// entry, they begin at block number `first`.
fn file_blocks(
    alloc: Global,
    file: &NewFile<'_>,
    moment: Timestamp,
    first: u32,
    next: u32,
) -> Result<FileBlocks, StoreFault>
    requires room { first + div_ceil (length (outside_after (full_size file.now.kept) file.now.bytes.now)) BLOCK_BYTES ≤ PARTITION_BLOCKS }
    requires after { next + icb.descriptor_blocks (full_size file.now.kept + length file.now.bytes.now) ≤ PARTITION_BLOCKS }
    ensures count { IfOk result (λ b. length b.listed.items ≡ icb.descriptor_blocks (full_size file.now.kept + length file.now.bytes.now)) }
    ensures written { IfOk result (λ b. (medium : List (List ℕ)) (from : ℕ) (blocks : List (List ℕ)) → AreKeptOn medium file.now → IsPlaced udf (outside_after (full_size file.now.kept) file.now.bytes.now) from first blocks → next ≡ from + length blocks → WritesNode udf medium (file_writing medium moment file.now) from ((blocks ++ b.listed.items) ++ b.entry ∷ []) (from + length (blocks ++ b.listed.items))) }
    ensures short { IfErr result (λ fault. fault ≡ Memory) }
{
    if file.descriptor_blocks() > 0 {
        return long_file(alloc, file, moment, first, next);
    }
    let mut entry = [0; BLOCK_SIZE];
    if file.kept.is_empty() {
        whole_entry(file, moment, first).write(&mut entry);
    } else {
        grown_entry(file, moment, first).write(&mut entry);
    }
    Ok(FileBlocks {
        listed: Vec::new(alloc),
        entry,
    })
}

/// The entry of a file that has descriptor blocks, and these, which begin at block number `next`. Its new bytes begin at
/// block number `first`.
fn long_file(
    alloc: Global,
    file: &NewFile<'_>,
    moment: Timestamp,
    first: u32,
    next: u32,
) -> Result<FileBlocks, StoreFault>
    requires long { 0 < icb.descriptor_blocks (full_size file.now.kept + length file.now.bytes.now) }
    requires room { first + div_ceil (length file.now.bytes.now) BLOCK_BYTES ≤ PARTITION_BLOCKS }
    requires after { next + icb.descriptor_blocks (full_size file.now.kept + length file.now.bytes.now) ≤ PARTITION_BLOCKS }
    ensures count { IfOk result (λ b. length b.listed.items ≡ icb.descriptor_blocks (full_size file.now.kept + length file.now.bytes.now)) }
    ensures written { IfOk result (λ b. (medium : List (List ℕ)) (from : ℕ) (blocks : List (List ℕ)) → AreKeptOn medium file.now → IsPlaced udf file.now.bytes.now from first blocks → next ≡ from + length blocks → WritesNode udf medium (file_writing medium moment file.now) from ((blocks ++ b.listed.items) ++ b.entry ∷ []) (from + length (blocks ++ b.listed.items))) }
    ensures short { IfErr result (λ fault. fault ≡ Memory) }
{
    let bytes = file.bytes.as_slice();
    let size = file.size();
    let mut all = file.kept.descriptors().to_vec(alloc)?;
    all.extend_from_slice(&extent_descriptor(bytes.len() as u32, first))?;
    let listed = descriptor_list(alloc, all.as_slice(), size, next)?;
    let mut here = all[..16 * (ENTRY_DESCRIPTORS as usize - 1)].to_vec(alloc)?;
    here.extend_from_slice(&next_descriptor(next))?;
    let entry = encode_fe(
        &FileEntry {
            kind: Kind::File,
            moment,
            links: 1,
            unique: u64::from(file.unique),
            size,
            place: Place::Extents(here.as_slice()),
        },
        file.address,
    );
    Ok(FileBlocks { listed, entry })
}

/// The descriptor blocks of a file of this size, which has some, with these descriptors of all its extents, from block
/// number `next` on.
fn descriptor_list(
    alloc: Global,
    all: &[u8],
    size: u32,
    next: u32,
) -> Result<Vec<Block>, StoreFault>
    requires limit { size ≤ GREATEST_FILE }
    requires many { 0 < icb.descriptor_blocks size }
    requires long { length all.now ≡ 16 * icb.extent_count size }
    requires are { icb.AreExtents 0 size all.now }
    requires room { next + icb.descriptor_blocks size ≤ PARTITION_BLOCKS }
    ensures count { IfOk result (λ blocks. length blocks.items ≡ icb.descriptor_blocks size) }
    ensures have { IfOk result (λ blocks. icb.HaveDescriptors size next blocks.items) }
    ensures all { IfOk result (λ blocks. icb.all_descriptors (take (16 * (ENTRY_DESCRIPTORS - 1)) all.now ++ icb.next_descriptor next) blocks.items ≡ all.now) }
    ensures short { IfErr result (λ fault. fault ≡ Memory) }
{
    let count = descriptor_blocks(size);
    let mut blocks = Vec::with_capacity(alloc, count as usize)?;
    for index in 0..count {
        let before = (ENTRY_DESCRIPTORS - 1 + (BLOCK_DESCRIPTORS - 1) * index) as usize;
        let mut block = [0; BLOCK_SIZE];
        write_descriptors(
            &all[16 * before..],
            bytes_from_block(size, index),
            next + index,
            &mut block,
        );
        blocks.push(block)?;
    }
    Ok(blocks)
}

/// The entry of a file that keeps nothing.
fn whole_entry<'a>(file: &'a NewFile<'_>, moment: Timestamp, first: u32) -> PlannedEntry<'a>
    requires none { file.now.kept ≡ [] }
    requires room { first + div_ceil (length (outside file.now.bytes.now)) BLOCK_BYTES ≤ PARTITION_BLOCKS }
    ensures { (medium : List (List ℕ)) (from : ℕ) (blocks : List (List ℕ)) → IsPlaced udf (outside file.now.bytes.now) from first blocks → WritesNode udf medium (file_writing medium moment file.now) from (blocks ++ result ∷ []) (from + length blocks) }
{
    let bytes = file.bytes.as_slice();
    let entry = FileEntry {
        kind: Kind::File,
        moment,
        links: 1,
        unique: u64::from(file.unique),
        size: bytes.len() as u32,
        place: place_of_bytes(bytes, first),
    };
    PlannedEntry::new(&entry, file.address)
}

/// The entry of a file that keeps what it has, and gets one extent more. It has room for all descriptors.
fn grown_entry<'a>(file: &'a NewFile<'_>, moment: Timestamp, first: u32) -> PlannedEntry<'a>
    requires some { 0 < full_size file.now.kept }
    requires fits { icb.descriptor_blocks (full_size file.now.kept + length file.now.bytes.now) ≡ 0 }
    requires room { first + div_ceil (length file.now.bytes.now) BLOCK_BYTES ≤ PARTITION_BLOCKS }
    ensures { (medium : List (List ℕ)) (from : ℕ) (blocks : List (List ℕ)) → AreKeptOn medium file.now → IsPlaced udf file.now.bytes.now from first blocks → WritesNode udf medium (file_writing medium moment file.now) from (blocks ++ result ∷ []) (from + length blocks) }
{
    let bytes = file.bytes.as_slice();
    let entry = FileEntry {
        kind: Kind::File,
        moment,
        links: 1,
        unique: u64::from(file.unique),
        size: file.kept.size() + bytes.len() as u32,
        place: Place::Extents(file.kept.descriptors()),
    };
    PlannedEntry::with_extent(&entry, first, file.address)
}

/// The entry of a directory whose data are at `extent`.
fn directory_entry(directory: &NewDirectory, extent: Extent) -> PlannedEntry<'static>
    requires proper { IsProper directory.now.content.dir }
    requires size { extent.size ≡ directory_size directory.now.content.dir }
    requires some { 0 < extent.size }
    requires few { extent.size ≤ FILE_BYTES }
    requires room { extent.first + div_ceil extent.size BLOCK_BYTES ≤ PARTITION_BLOCKS }
    requires blocks { length (directory_blocks directory.now.content.dir extent.first) ≡ div_ceil extent.size BLOCK_BYTES }
    ensures describes { SaysPlace directory.now.address extent directory.now.moment result }
    ensures written { (medium : List (List ℕ)) → WritesNode udf medium (directory_writing directory.now) extent.first (directory_blocks directory.now.content.dir extent.first ++ result ∷ []) (extent.first + div_ceil extent.size BLOCK_BYTES) }
{
    let content = &directory.content;
    // Unused: it gives the proof that the parent's address has 32 bits.
    let _parent = content.dir.parent;
    let entry = FileEntry {
        kind: Kind::Directory,
        moment: directory.moment,
        links: 1 + content.identifiers.directory_count(&content.dir),
        unique: u64::from(directory.unique),
        size: extent.size,
        place: Place::Extent(extent.first),
    };
    PlannedEntry::new(&entry, directory.address)
}

/// The new bytes of a file that are outside its entry: all or none. If the file keeps others, they are all outside.
pub(crate) fn outside_of<'r>(file: &NewFile<'r>) -> &'r [u8]
    ensures value { result.now ≡ outside_after (full_size file.now.kept) file.now.bytes.now }
    ensures few { length result.now ≤ FILE_BYTES }
{
    let bytes = file.bytes.as_slice();
    if !file.kept.is_empty() {
        return bytes;
    }
    if bytes.len() > INSIDE_BYTES {
        bytes
    } else {
        &bytes[..0]
    }
}

/// Where the bytes of a file are. If they are outside the entry, they begin at block number `first`.
fn place_of_bytes(bytes: &[u8], first: u32) -> Place<'_>
    requires few { length bytes.now ≤ FILE_BYTES }
    requires room { first + div_ceil (length (outside bytes.now)) BLOCK_BYTES ≤ PARTITION_BLOCKS }
    ensures fits { FitsPlace File (length bytes.now) (place_of result) }
    ensures places { (medium : List (List ℕ)) (firsts : List ℕ) (from : ℕ) (blocks : List (List ℕ)) → IsPlaced udf (outside bytes.now) from first blocks → PlacesFile udf medium 0 firsts bytes.now from blocks (said_place (place_of result)) }
{
    if bytes.is_empty() {
        Place::None
    } else if bytes.len() <= INSIDE_BYTES {
        Place::Inside(bytes)
    } else {
        Place::Extent(first)
    }
}
