//! Queries about a state. What the medium holds is not trusted: an invalid structure is refused.

ghost use Rattle.std.specs.Prelude.{◌≡◌, ◌<◌, ◌≤◌, ◌+◌, ◌*◌, List, ℕ, IfOk, IfErr, IsTrue, length, vec_len, take, drop, map, false};
ghost use Rattle.drive.specs.Journal.{AreWhole, Once};
ghost use Rattle.durability.specs.Runs as runs;
ghost use Rattle.model.specs.Tree.{Tree};
ghost use Rattle.model.specs.Graph.{entries_of, is_directory};
ghost use Rattle.model.specs.Graph.Body.{Bytes};
ghost use Rattle.recover.specs.Faults.{IsShortage, devices};
ghost use Rattle.udf.specs.Said.{names_directory};
ghost use Rattle.lookup.specs.Asked.{said_names, said_status};
ghost use Rattle.lookup.specs.Asked as asked;
ghost use Rattle.lookup.specs.Entries.{IsMomentAndSize};
ghost use Rattle.lookup.specs.Lookups.{Answers, Looks, OfDirectory, OfNode, Sees, below_seen, graph_seen};
ghost use Rattle.limits.specs.declared.TheConstants.{ENTRY_DESCRIPTORS, FILE_BYTES, GREATEST_FILE, PARTITION_START};
ghost use Rattle.icb.specs.Extents.{AreEntryDescriptors, slots};
ghost use Rattle.durability.specs.Volume.{AreListed, AreWithin, IsWithin, bytes_in_extents, firsts_at};
ghost use Rattle.udf.specs.Udf.{udf};
ghost use Rattle.recover.specs.Blocks.{medium_bytes_at};
ghost use Rattle.lookup.specs.Queries.{AnswersWhole, IsMissing, IsQueryRefused, Tells, name_told};
ghost use Rattle.lookup.specs.Shows.{IsNodeAt};

use crate::content::Content;
use crate::lookup::Lookup;
use dir::Kind;
use drive::Drive;
use icb::{Place, decode_fe, extent_size};
use limits::{BLOCK_BYTES, FILE_BYTES, PARTITION_START};
use recover::{Node, StoreFault, cause, damaged, lies_below, read_bytes};
use request::{ByteCount, FileData, Listed, Listing, NodeKind, NodeStatus, Path};
use std::alloc::Global;

impl<D: Drive> Lookup<'_, '_, D> {
    /// The bytes of a file. `NotFound` if the path leads to nothing, `IsDirectory` if it leads to a directory, `TooLong`
    /// if the file has more than `limits::FILE_BYTES` bytes.
    pub fn get(&mut self, path: &Path) -> Result<FileData, StoreFault>
        ensures told { Once (D.journal self.old.drive.now) → Tells D.Drive self.old self.new (runs.Query.Get path.now) runs.Answer.Data result }
        ensures looks { Looks D.Drive (devices result) self.old self.new }
    {
        let node = self.node(path)?;
        if node.is_directory() {
            return Err(StoreFault::IsDirectory);
        }
        self.file_data(node.address)
    }

    /// The bytes of a file from the offset on, `count` or as many as there are. `NotFound` if the path leads to nothing,
    /// `IsDirectory` if it leads to a directory.
    pub fn read(
        &mut self,
        path: &Path,
        offset: u64,
        count: &ByteCount,
    ) -> Result<FileData, StoreFault>
        ensures told { Once (D.journal self.old.drive.now) → Tells D.Drive self.old self.new (runs.Query.Read path.now offset count.now) runs.Answer.Data result }
        ensures looks { Looks D.Drive (devices result) self.old self.new }
    {
        let node = self.node(path)?;
        if node.is_directory() {
            Err(StoreFault::IsDirectory)
        } else {
            self.file_piece(node.address, offset, count.bytes())
        }
    }

    /// The names in a directory, in their stored order. `NotFound` if the path leads to nothing, `NotDirectory` if it
    /// leads to a file.
    pub fn list(&mut self, path: &Path) -> Result<Listing, StoreFault>
        ensures told { Tells D.Drive self.old self.new (runs.Query.List_ path.now) (λ listing. runs.Answer.Names (said_names listing)) result }
        ensures looks { Looks D.Drive (devices result) self.old self.new }
    {
        let node = self.node(path)?;
        if !node.is_directory() {
            return Err(StoreFault::NotDirectory);
        }
        let (placed, content) = self.open(node.address)?;
        let listing = listing_of(self.alloc, &content)?;
        self.keep(placed, content);
        Ok(listing)
    }

    /// The kind, moment and size of a file or a directory. `NotFound` if the path leads to nothing.
    pub fn stat(&mut self, path: &Path) -> Result<NodeStatus, StoreFault>
        ensures told { (tree : Tree) → Once (D.journal self.old.drive.now) → Sees D.Drive self.old self.new tree → IfOk result (λ status. runs.told tree (runs.Query.Stat path.now) ≡ said_status status) }
        ensures refused { (tree : Tree) → Sees D.Drive self.old self.new tree → IfErr result (IsQueryRefused (runs.told tree (runs.Query.Stat path.now))) }
        ensures looks { Looks D.Drive (devices result) self.old self.new }
    {
        let node = self.node(path)?;
        let (moment, bytes) = self.moment_and_size(node.address)?;
        if !node.is_directory() {
            return Ok(NodeStatus {
                kind: NodeKind::File,
                moment,
                size: u64::from(bytes),
            });
        }
        let size = self.name_count(node.address)?;
        Ok(NodeStatus {
            kind: NodeKind::Directory,
            moment,
            size,
        })
    }

    /// The node that a path leads to. `NotFound` if it leads to nothing.
    fn node(&mut self, path: &Path) -> Result<Node, StoreFault>
        ensures found { (tree : Tree) → Sees D.Drive self.old self.new tree → IfOk result (IsNodeAt (graph_seen D.Drive self.old) path.now) }
        ensures missing { (tree : Tree) → Sees D.Drive self.old self.new tree → IfErr result (IsMissing tree path.now) }
        ensures looks { Looks D.Drive (devices result) self.old self.new }
    {
        match self.find(path.names())? {
            Some(node) => Ok(node),
            None => Err(StoreFault::NotFound),
        }
    }

    /// How many names a directory has.
    fn name_count(&mut self, address: u32) -> Result<u64, StoreFault>
        ensures count { OfDirectory D.Drive self.old self.new address (λ s. Answers result (λ count. count ≡ length (entries_of s))) }
        ensures looks { Looks D.Drive (devices result) self.old self.new }
    {
        let (placed, content) = self.open(address)?;
        let count = content.dir.entries.len() as u64;
        self.keep(placed, content);
        Ok(count)
    }

    /// The moment of a node, in microseconds from 1970-01-01 UTC, and how many bytes its data have.
    fn moment_and_size(&mut self, address: u32) -> Result<(u64, u32), StoreFault>
        ensures read { OfNode D.Drive self.old self.new address (λ s. Answers result (IsMomentAndSize (D.journal self.old.drive.now) s)) }
        ensures looks { Looks D.Drive (devices result) self.old self.new }
    {
        let (block, at) = self.entry_block(address)?;
        match decode_fe(&block, address) {
            Ok(entry) => Ok((entry.moment.moment(), entry.size)),
            Err(fault) => Err(damaged(at, fault.number())),
        }
    }

    /// The bytes of the file at a virtual address. `TooLong` if it has more than `limits::FILE_BYTES`.
    fn file_data(&mut self, address: u32) -> Result<FileData, StoreFault>
        ensures read { Once (D.journal self.old.drive.now) → OfNode D.Drive self.old self.new address (λ s. is_directory s ≡ false → AnswersWhole s result) }
        ensures few { IfOk result (λ bytes. length bytes ≤ FILE_BYTES) }
        ensures looks { Looks D.Drive (devices result) self.old self.new }
    {
        let (block, at) = self.entry_block(address)?;
        let entry = match decode_fe(&block, address) {
            Ok(entry) => entry,
            Err(fault) => return Err(damaged(at, fault.number())),
        };
        match entry.place {
            Place::None => Ok(FileData::new(Vec::new(self.alloc))),
            Place::Inside(bytes) => Ok(FileData::new(bytes.to_vec(self.alloc)?)),
            Place::Extent(first) => {
                if !lies_below(first, entry.size, self.nodes.vat_icb_address) {
                    return Err(damaged(at, cause::RANGE));
                }
                let bytes = read_bytes(
                    self.alloc,
                    self.drive,
                    first + PARTITION_START,
                    entry.size,
                )?;
                Ok(FileData::new(bytes))
            }
            Place::Extents(_) => Err(StoreFault::TooLong),
        }
    }

    /// The bytes of the file at a virtual address from the offset on, `count` or as many as there are.
    fn file_piece(&mut self, address: u32, offset: u64, count: u32) -> Result<FileData, StoreFault>
        requires { count ≤ FILE_BYTES }
        ensures read { Once (D.journal self.old.drive.now) → OfNode D.Drive self.old self.new address (λ s. is_directory s ≡ false → Answers result (λ bytes. (whole : List ℕ) → s.body ≡ Bytes whole → bytes ≡ take count (drop offset whole))) }
        ensures looks { Looks D.Drive (devices result) self.old self.new }
    {
        let (block, at) = self.entry_block(address)?;
        let entry = match decode_fe(&block, address) {
            Ok(entry) => entry,
            Err(fault) => return Err(damaged(at, fault.number())),
        };
        if offset >= u64::from(entry.size) {
            return Ok(FileData::new(Vec::new(self.alloc)));
        }
        let from = offset as u32;
        let count = count.min(entry.size - from);
        match entry.place {
            Place::None => Ok(FileData::new(Vec::new(self.alloc))),
            Place::Inside(bytes) => {
                let piece = &bytes[from as usize..(from + count) as usize];
                Ok(FileData::new(piece.to_vec(self.alloc)?))
            }
            Place::Extent(first) => {
                let bytes = self.extent_piece(at, first, entry.size, from, count)?;
                Ok(FileData::new(bytes))
            }
            Place::Extents(descriptors) => {
                let bytes = self.extents_piece(at, descriptors, entry.size, from, count)?;
                Ok(FileData::new(bytes))
            }
        }
    }

    /// `count` bytes from an offset on of a file in several extents, which the piece begins in one of and ends in that
    /// one or the next. If an extent does not end below the VAT ICB, this is damage at the entry, with the cause `RANGE`.
    fn extents_piece(
        &mut self,
        at: u32,
        descriptors: &[u8],
        size: u32,
        offset: u32,
        count: u32,
    ) -> Result<Vec<u8>, StoreFault>
        requires within { offset + count ≤ size }
        requires begins { offset < size }
        requires few { count ≤ FILE_BYTES }
        requires limit { size ≤ GREATEST_FILE }
        requires long { length descriptors.now ≡ 16 * slots ENTRY_DESCRIPTORS size }
        requires are { AreEntryDescriptors 0 size descriptors.now }
        requires whole { AreWhole (D.journal self.old.drive.now) }
        ensures read { IsTrue (D.honest self.new.drive.now) → Once (D.journal self.old.drive.now) → AreListed udf (below_seen D.Drive self.old) size descriptors.now → AreWithin (below_seen D.Drive self.old) size (firsts_at udf (below_seen D.Drive self.old) size descriptors.now) → Answers result (λ bytes. bytes.items ≡ take count (drop offset (bytes_in_extents (below_seen D.Drive self.old) size (firsts_at udf (below_seen D.Drive self.old) size descriptors.now)))) }
        ensures size { IfOk result (λ bytes. vec_len bytes ≡ count) }
        ensures looks { Looks D.Drive (devices result) self.old self.new }
    {
        let index = (offset / FILE_BYTES as u32) as usize;
        let skip = offset % FILE_BYTES as u32;
        let here = extent_size(size, index);
        let first = self.extent_start(at, descriptors, size, index)?;
        if skip + count <= here {
            return self.extent_piece(at, first, here, skip, count);
        }
        let mut bytes = self.extent_piece(at, first, here, skip, here - skip)?;
        let next = self.extent_start(at, descriptors, size, index + 1)?;
        let there = extent_size(size, index + 1);
        let more = self.extent_piece(at, next, there, 0, count - (here - skip))?;
        bytes.extend_from_slice(&more)?;
        Ok(bytes)
    }

    /// `count` bytes from an offset on of the `size` bytes that begin at block number `first`. If these do not end below
    /// the VAT ICB, this is damage at the entry at `at`, with the cause `RANGE`.
    fn extent_piece(
        &mut self,
        at: u32,
        first: u32,
        size: u32,
        offset: u32,
        count: u32,
    ) -> Result<Vec<u8>, StoreFault>
        requires within { offset + count ≤ size }
        requires few { size ≤ FILE_BYTES }
        requires whole { AreWhole (D.journal self.old.drive.now) }
        ensures read { IsTrue (D.honest self.new.drive.now) → Once (D.journal self.old.drive.now) → IsWithin (below_seen D.Drive self.old) first size → Answers result (λ bytes. bytes.items ≡ take count (drop offset (medium_bytes_at (below_seen D.Drive self.old) (first + PARTITION_START) size))) }
        ensures size { IfOk result (λ bytes. vec_len bytes ≡ count) }
        ensures looks { Looks D.Drive (devices result) self.old self.new }
    {
        if !lies_below(first, size, self.nodes.vat_icb_address) {
            return Err(damaged(at, cause::RANGE));
        }
        let start = first + PARTITION_START + offset / BLOCK_BYTES;
        let skip = offset % BLOCK_BYTES;
        let bytes = read_bytes(self.alloc, self.drive, start, skip + count)?;
        if skip == 0 {
            return Ok(bytes);
        }
        Ok(bytes[skip as usize..].to_vec(self.alloc)?)
    }
}

/// The names of a directory, in their stored order.
fn listing_of(alloc: Global, content: &Content) -> Result<Listing, StoreFault>
    ensures failures { devices result ≡ 0 }
    ensures short { IfErr result IsShortage }
    ensures names { IfOk result (λ listing. said_names listing ≡ map name_told content.now.dir.entries.entries) }
{
    let entries = &content.dir.entries;
    let mut listing = Listing::new(alloc);
    for index in 0..entries.len() {
        let (name, entry) = entries.get_index(index).unwrap();
        listing.push(Listed {
            kind: told(entry.kind),
            name: name.clone()?,
        })?;
    }
    Ok(listing)
}

/// A kind as it is reported.
fn told(kind: Kind) -> NodeKind
    ensures { asked.is_directory result ≡ names_directory kind }
{
    match kind {
        Kind::File => NodeKind::File,
        Kind::Directory => NodeKind::Directory,
    }
}
