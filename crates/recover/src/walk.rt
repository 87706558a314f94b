//! The walk through all nodes that a table leads to, depth first and in stored order.

ghost use Rattle.limits.specs.declared.TheConstants.{BLOCK_BYTES, PARTITION_BLOCKS, PARTITION_START};
ghost use Rattle.std.specs.Prelude.{◌≡◌, ◌↔◌, ◌+◌, ◌<◌, ◌≤◌, ◌^◌, IsTrue, IfOk, IfErr, IfSome, OnOk, ℕ, List, take};
ghost use Rattle.std.specs.Int.{div_ceil};
ghost use Rattle.drive.specs.Journal.{held, next_of};
ghost use Rattle.recover.specs.Faults.{devices};
ghost use Rattle.recover.specs.ReadCache.{IsKnown, ReadsAndKnows};
ghost use Rattle.recover.specs.Refused.{IsNamesRefused};
ghost use Rattle.recover.specs.Seen.{AreSeen};
ghost use Rattle.recover.specs.Walk.{HasListing, HasEntry, LeadsTo, icb_kind};
ghost use Rattle.dir.specs.declared.entry.Kind.TheVariants.{Directory, File};

use crate::cause;
use crate::checked::{CheckedFile, CheckedFiles};
use crate::directory::Extent;
use crate::fault::{StoreFault, damaged};
use crate::id_set::IdSet;
use crate::kept::{EntryPlace, Names, NodeEntry};
use crate::read_cache::ReadCache;
use crate::reading::block_count;
use crate::table::{address_below, lies_below};
use dir::{Dir, Entry, Kind};
use drive::Drive;
use limits::{FIRST_UNIQUE, PARTITION_START, PATH_NAMES};
use std::alloc::Global;

/// The virtual address of the root directory.
pub const ROOT_ADDRESS: u32 = 1;

/// How many entries are announced to the drive before they are read.
const AHEAD: usize = 32;

/// A node as the directory above it names it.
#[derive(Clone, Copy, Debug)]
pub(crate) struct Named {
    kind: Kind,
    /// The virtual address of its entry.
    address: u32,
    unique: u32,
    /// The virtual address of the directory above, or for the root its own.
    above: u32,
    /// The address of the first block of that directory's data.
    named_at: u32,
    /// How many names its path has.
    depth: u32,
}

impl Named {
    ghost use Rattle.std.specs.Prelude.{◌≡◌, ◌+◌, ◌<◌, ◌^◌};
    ghost use Rattle.dir.specs.declared.entry.Kind.TheVariants.{Directory};

    /// The root, which the table itself names.
    pub(crate) fn root(named_at: u32) -> Named
        ensures kind { result.kind ≡ Directory }
        ensures address { result.address ≡ 1 }
        ensures unique { result.unique ≡ 0 }
        ensures above { result.above ≡ 1 }
        ensures depth { result.depth ≡ 0 }
    {
        Named {
            kind: Kind::Directory,
            address: ROOT_ADDRESS,
            unique: 0,
            above: ROOT_ADDRESS,
            named_at,
            depth: 0,
        }
    }

    /// The node that an entry of this directory names. The directory's data begin at `named_at`.
    fn child(&self, entry: &Entry, named_at: u32) -> Named
        requires { self.now.depth + 1 < 2 ^ 32 }
        ensures kind { result.kind ≡ entry.now.kind }
        ensures address { result.address ≡ entry.now.virtual_address }
        ensures unique { result.unique ≡ entry.now.unique }
        ensures above { result.above ≡ self.now.address }
        ensures depth { result.depth ≡ self.now.depth + 1 }
    {
        Named {
            kind: entry.kind,
            address: entry.virtual_address,
            unique: entry.unique,
            above: self.address,
            named_at,
            depth: self.depth + 1,
        }
    }
}

/// What a node's entry says beyond what its directory does.
#[derive(Clone, Copy, Debug)]
struct Body {
    links: u16,
    /// None where no block holds its bytes.
    extent: Option<Extent>,
}

/// A walk through the tree that a table leads to, and what it has seen.
#[derive(Drop)]
pub(crate) struct Walk<'a> {
    /// The address of the VAT ICB. All that it leads to must be below.
    at: u32,
    entries: &'a [Option<u32>],
    next_unique: u32,
    /// The virtual addresses that names have led to.
    reached: IdSet,
    uniques: IdSet,
    pub(crate) files: u32,
    pub(crate) directories: u32,
}

impl<'a> Walk<'a> {
    ghost use Rattle.std.specs.Prelude.{◌≡◌, ◌+◌, ◌<◌, ◌≤◌, ◌^◌, ℕ, List, IsTrue, IfOk, IfErr, IfSome, OnOk, false, take, vec_len};
    ghost use Rattle.std.specs.Int.{div_ceil};
    ghost use Rattle.drive.specs.Journal.{held, next_of};
    ghost use Rattle.recover.specs.Faults.{devices};
    ghost use Rattle.recover.specs.declared.fault.StoreFault.TheVariants.{Memory};
    ghost use Rattle.recover.specs.Forest.{IsAssigned, InsertsNumber};
    ghost use Rattle.recover.specs.ReadCache.{IsKnown, ReadsAndKnows};
    ghost use Rattle.recover.specs.Refused.{IsBodyRefused, IsReachRefused, IsVisitRefused};
    ghost use Rattle.dir.specs.declared.entry.Entry.{Entry as DirEntry};
    ghost use Rattle.recover.specs.Seen.{AreSeen, WalksOn, IsFileSeen, IsNamedAt, VisitsKept};
    ghost use Rattle.recover.specs.Walk.{GoesOn, IsBodyRead, IsInPartition, LeadsTo, OnlyReaches, OnlySeesFiles, OnlySeesUniques, TakesUnique, Tallied, Visits, nodes_of, reached_in, uniques_in};
    ghost use Rattle.dir.specs.declared.entry.Kind.TheVariants.{Directory, File};

    /// A walk that has seen nothing yet, for the table whose VAT ICB is at `at`.
    pub(crate) fn new(
        alloc: Global,
        at: u32,
        entries: &'a [Option<u32>],
        next_unique: u32,
    ) -> Walk<'a>
        requires { PARTITION_START ≤ at }
        ensures at { result.at ≡ at }
        ensures entries { result.entries.now ≡ entries.now }
        ensures next_unique { result.next_unique ≡ next_unique }
        ensures reached { (x : ℕ) → reached_in result x ≡ false }
        ensures uniques { (x : ℕ) → uniques_in result x ≡ false }
        ensures files { result.files ≡ 0 }
        ensures directories { result.directories ≡ 0 }
    {
        Walk {
            at,
            entries,
            next_unique,
            reached: IdSet::new(alloc),
            uniques: IdSet::new(alloc),
            files: 0,
            directories: 0,
        }
    }

    /// Looks at a node, and at all below it. What is known is not read again.
    pub(crate) fn visit<D: Drive>(
        &mut self,
        alloc: Global,
        drive: &mut D,
        known: &mut ReadCache,
        node: &Named,
    ) -> Result<(), StoreFault>
        requires within { IsInPartition (D.journal drive.old) self.old.at }
        requires depth { node.now.depth ≤ 17 }
        requires known { IsTrue (D.honest drive.old) → IsKnown (held (D.journal drive.old)) known.old }
        ensures refused { IfErr result (λ fault. IsTrue (D.honest drive.new) → IsVisitRefused (nodes_of (D.journal drive.old) self.old) self.old node.now fault) }
        ensures visits { OnOk result (IsTrue (D.honest drive.new) → Visits (nodes_of (D.journal drive.old) self.old) self.old self.new node.now) }
        ensures goes_on { GoesOn self.old self.new }
        ensures counted { OnOk result (node.now.kind ≡ Directory → 1 ≤ self.new.directories) }
        ensures reads { ReadsAndKnows D.Drive (devices result) drive.old drive.new known.new }
    {
        let entry_at = self.reach(node)?;
        let body = self.read_entry(drive, known, node, entry_at)?;
        match node.kind {
            Kind::File => {
                self.files = self.files.saturating_add(1);
                return Ok(());
            }
            Kind::Directory => {}
        }
        let Some(extent) = body.extent else {
            return Err(damaged(entry_at, cause::RANGE));
        };
        let is_first = !known.has_directories();
        let names = read_names(
            alloc, drive, known, node.above, extent, body.links, entry_at,
        )?;
        self.directories = self.directories.saturating_add(1);
        let Names {
            dir,
            mut files,
            links,
            ..
        } = names;
        let count = dir.entries.len();
        let mut index = self.visit_checked(&files, 0, node.depth);
        self.announce(drive, is_first, &dir, index, AHEAD);
        while index < count {
            self.announce(drive, is_first, &dir, index.saturating_add(AHEAD), 1);
            let (_, entry) = dir.entries.get_index(index).unwrap();
            let child = node.child(entry, extent.first + PARTITION_START);
            self.visit(alloc, drive, known, &child)?;
            self.keep_seen(known, &child, &mut files, index, count);
            index = self.visit_checked(&files, index + 1, node.depth);
        }
        known.keep_directory(extent, Names { dir, links, files });
        Ok(())
    }

    /// Announces to the drive the entries of `count` names from index `from` on. Only the walk of the first state does
    /// so: an earlier state shares nearly all of its nodes with the one after it, so few of its entries are read.
    fn announce<D: Drive>(&self, drive: &D, is_first: bool, dir: &Dir, from: usize, count: usize)
        requires { PARTITION_START ≤ self.now.at }
    {
        if !is_first {
            return;
        }
        for index in from..from.saturating_add(count) {
            self.announce_entry(drive, dir, index);
        }
    }

    /// Announces to the drive the entry of the name at this index, if there is one.
    fn announce_entry<D: Drive>(&self, drive: &D, dir: &Dir, index: usize)
        requires { PARTITION_START ≤ self.now.at }
    {
        let Some((_, entry)) = dir.entries.get_index(index) else {
            return;
        };
        if let Some(at) = address_below(self.entries, entry.virtual_address, self.at) {
            drive.read_soon(at, 1);
        }
    }

    /// Counts the files under the names from index `from` on as seen, up to the first that was not found there or that
    /// the table does not lead to. Returns the index of that one.
    // (Not inlined, so that this loop has the registers.)
    #[inline(never)]
    fn visit_checked(&mut self, files: &CheckedFiles, from: usize, depth: u32) -> usize
        ensures visits { WalksOn self.old self.new files.now depth from result }
        ensures on { from ≤ result }
        ensures rest { OnlySeesFiles self.old self.new }
    {
        let mut index = from;
        while self.are_unchanged(files, index, depth) {
            index += 1;
        }
        index
    }

    /// Counts the file under the name at this index as seen, if it was found there and the table leads to where it was.
    /// Returns whether it did. If not, nothing is changed.
    #[inline]
    fn are_unchanged(&mut self, files: &CheckedFiles, index: usize, depth: u32) -> bool
        ensures visits { IsTrue result → VisitsKept self.old self.new files.now index (depth + 1) }
        ensures within { IsTrue result → index < vec_len files.now.files }
        ensures unchanged { result ≡ false → self.new ≡ self.old }
        ensures rest { OnlySeesFiles self.old self.new }
    {
        let is_deepest = depth >= PATH_NAMES;
        if is_deepest {
            return false;
        }
        match files.find(index) {
            Some(file) => self.is_unchanged(&file),
            None => false,
        }
    }

    /// Counts the file as seen, if the table leads to where it was found and all that it needs is below the VAT ICB.
    /// Returns whether it did. If not, nothing is changed.
    #[inline]
    fn is_unchanged(&mut self, file: &CheckedFile) -> bool
        ensures leads { IsTrue result → LeadsTo self.old.entries.now file.now.address (file.now.number + PARTITION_START) }
        ensures below { IsTrue result → file.now.top ≤ self.old.at }
        ensures drawn { IsTrue result → file.now.unique < self.old.next_unique }
        ensures reached { IsTrue result → InsertsNumber (reached_in self.old) file.now.address (reached_in self.new) }
        ensures uniques { IsTrue result → InsertsNumber (uniques_in self.old) file.now.unique (uniques_in self.new) }
        ensures files { IsTrue result → Tallied self.old.files 1 self.new.files }
        ensures unchanged { result ≡ false → self.new ≡ self.old }
        ensures rest { OnlySeesFiles self.old self.new }
    {
        if !leads_to(self.entries, file) {
            return false;
        }
        if file.top > self.at || file.unique >= self.next_unique {
            return false;
        }
        if !self.uniques.has_place(file.unique) || !self.reached.has_place(file.address) {
            return false;
        }
        self.uniques.put(file.unique);
        self.reached.put(file.address);
        self.files = self.files.saturating_add(1);
        true
    }

    /// Keeps the file that was looked at just now, at `index`, that of its name among `count`.
    fn keep_seen(
        &self,
        known: &ReadCache,
        node: &Named,
        files: &mut CheckedFiles,
        index: usize,
        count: usize,
    )
        requires { PARTITION_START ≤ self.now.at }
        ensures { (medium : List (List ℕ)) (entries : List (List ℕ × DirEntry)) → IsKnown medium known.now → IsNamedAt entries index node.now → AreSeen medium entries files.old → AreSeen medium entries files.new }
    {
        if let Some(file) = self.seen_file(known, node) {
            files.keep(count, index, file);
        }
    }

    /// The file that was looked at just now, if its entry is known. `None` for a directory.
    fn seen_file(&self, known: &ReadCache, node: &Named) -> Option<CheckedFile>
        requires { PARTITION_START ≤ self.now.at }
        ensures kind { IfSome result (λ file. node.now.kind ≡ File) }
        ensures address { IfSome result (λ file. node.now.address ≡ file.address) }
        ensures unique { IfSome result (λ file. node.now.unique ≡ file.unique) }
        ensures seen { (medium : List (List ℕ)) → IsKnown medium known.now → IfSome result (IsFileSeen medium) }
    {
        match node.kind {
            Kind::File => {}
            Kind::Directory => return None,
        }
        if node.address == ROOT_ADDRESS || node.unique < FIRST_UNIQUE {
            return None;
        }
        match address_below(self.entries, node.address, self.at) {
            Some(entry_at) => seen_at(known, node, entry_at),
            None => None,
        }
    }

    /// Marks the node as reached, and returns the address of its entry. `Damaged`, with the cause `RANGE` if the table
    /// leads to nothing below it, with `REACHED_TWICE` if a name led to the node before, and with `TOO_DEEP` if its
    /// path is too long.
    fn reach(&mut self, node: &Named) -> Result<u32, StoreFault>
        requires { PARTITION_START ≤ self.old.at }
        ensures below { IfOk result (λ entry_at. (PARTITION_START ≤ entry_at) × (entry_at < self.old.at)) }
        ensures leads { IfOk result (λ entry_at. LeadsTo self.old.entries.now node.now.address entry_at) }
        ensures reached { OnOk result (InsertsNumber (reached_in self.old) node.now.address (reached_in self.new)) }
        ensures depth { OnOk result (node.now.depth ≤ PATH_NAMES) }
        ensures refused { IfErr result (IsReachRefused self.old node.now) }
        ensures rest { OnlyReaches self.old self.new }
        ensures device { devices result ≡ 0 }
    {
        let entry_at = match address_below(self.entries, node.address, self.at) {
            Some(entry_at) => entry_at,
            None => return Err(damaged(node.named_at, cause::RANGE)),
        };
        if !self.reached.insert(node.address)? {
            return Err(damaged(entry_at, cause::REACHED_TWICE));
        }
        if node.depth > PATH_NAMES {
            return Err(damaged(entry_at, cause::TOO_DEEP));
        }
        Ok(entry_at)
    }

    /// Reads the node's entry, and compares it with what its directory says.
    fn read_entry<D: Drive>(
        &mut self,
        drive: &mut D,
        known: &mut ReadCache,
        node: &Named,
        entry_at: u32,
    ) -> Result<Body, StoreFault>
        requires below { entry_at < self.old.at }
        requires within { self.old.at ≤ next_of (D.journal drive.old) }
        requires known { IsTrue (D.honest drive.old) → IsKnown (held (D.journal drive.old)) known.old }
        ensures body { IfOk result (IsBodyRead (D.honest drive.new) (take self.old.at (held (D.journal drive.old))) self.old.at entry_at node.now) }
        ensures refused { IfErr result (λ fault. IsTrue (D.honest drive.new) → IsBodyRefused (take self.old.at (held (D.journal drive.old))) self.old entry_at node.now fault) }
        ensures unique { OnOk result (TakesUnique self.old node.now self.new) }
        ensures rest { OnlySeesUniques self.old self.new }
        ensures reads { ReadsAndKnows D.Drive (devices result) drive.old drive.new known.new }
    {
        let place = EntryPlace {
            at: entry_at,
            address: node.address,
        };
        let entry = known.entry(drive, place, self.at)?;
        if !is_kind(node.kind, entry.kind) || entry.unique != u64::from(node.unique) {
            return Err(damaged(entry_at, cause::IDENTITY));
        }
        let is_new = self.is_new_unique(node)?;
        if !is_new || !has_links(node.kind, entry.links) {
            return Err(damaged(entry_at, cause::IDENTITY));
        }
        if !is_below(entry.extent, self.at) {
            return Err(damaged(entry_at, cause::RANGE));
        }
        Ok(Body {
            links: entry.links,
            extent: entry.extent,
        })
    }

    /// Marks the node's unique ID as seen. Returns whether the node may have it and no node before it had.
    fn is_new_unique(&mut self, node: &Named) -> Result<bool, StoreFault>
        ensures drawn { IfOk result (λ is. IsTrue is → IsAssigned self.old.next_unique node.now.address node.now.unique) }
        ensures uniques { IfOk result (λ is. IsTrue is → InsertsNumber (uniques_in self.old) node.now.unique (uniques_in self.new)) }
        ensures only { IfOk result (λ is. IsAssigned self.old.next_unique node.now.address node.now.unique → uniques_in self.old node.now.unique ≡ false → IsTrue is) }
        ensures memory { IfErr result (λ fault. fault ≡ Memory) }
        ensures rest { OnlySeesUniques self.old self.new }
        ensures device { devices result ≡ 0 }
    {
        if node.address == ROOT_ADDRESS {
            if node.unique != 0 {
                return Ok(false);
            }
        } else if node.unique < FIRST_UNIQUE || node.unique >= self.next_unique {
            return Ok(false);
        }
        Ok(self.uniques.insert(node.unique)?)
    }
}

/// The directory whose bytes are at `extent`, and whose entry is at `entry_at`. If its parent is not `above`, or its
/// link count not `links`, it is `Damaged`, with the cause `IDENTITY`.
fn read_names<D: Drive>(
    alloc: Global,
    drive: &mut D,
    known: &mut ReadCache,
    above: u32,
    extent: Extent,
    links: u16,
    entry_at: u32,
) -> Result<Names, StoreFault>
    requires some { 0 < extent.size }
    requires first { extent.first ≤ PARTITION_BLOCKS }
    requires within { extent.first + PARTITION_START + div_ceil extent.size BLOCK_BYTES ≤ next_of (D.journal drive.old) }
    requires known { IsTrue (D.honest drive.old) → IsKnown (held (D.journal drive.old)) known.old }
    ensures names { IfOk result (λ names. IsTrue (D.honest drive.new) → HasListing (held (D.journal drive.old)) above links extent names.dir) }
    ensures seen { IfOk result (λ names. IsTrue (D.honest drive.new) → AreSeen (held (D.journal drive.old)) names.dir.entries.entries names.files) }
    ensures refused { IfErr result (λ fault. IsTrue (D.honest drive.new) → IsNamesRefused (held (D.journal drive.old)) above links extent fault) }
    ensures reads { ReadsAndKnows D.Drive (devices result) drive.old drive.new known.new }
{
    let names = known.directory(alloc, drive, extent)?;
    if names.dir.parent != above {
        return Err(damaged(extent.first + PARTITION_START, cause::IDENTITY));
    }
    if links != names.links {
        return Err(damaged(entry_at, cause::IDENTITY));
    }
    Ok(names)
}

/// The file whose entry is at `entry_at`, if that is known and is as the directory says.
fn seen_at(known: &ReadCache, node: &Named, entry_at: u32) -> Option<CheckedFile>
    requires low { PARTITION_START ≤ entry_at }
    requires high { entry_at + 1 < 2 ^ 32 }
    ensures address { IfSome result (λ file. node.now.address ≡ file.address) }
    ensures unique { IfSome result (λ file. node.now.unique ≡ file.unique) }
    ensures has { (medium : List (List ℕ)) → IsKnown medium known.now → IfSome result (λ file. HasEntry (take file.top medium) file.top (file.number + PARTITION_START) node.now) }
{
    let place = EntryPlace {
        at: entry_at,
        address: node.address,
    };
    let Some(entry) = known.find(place) else {
        return None;
    };
    let top = top_of(&entry, entry_at);
    if !is_known(known, node, entry_at, top) {
        return None;
    }
    Some(CheckedFile {
        address: node.address,
        unique: node.unique,
        number: entry_at - PARTITION_START,
        top,
    })
}

/// The least address above the entry, which is at `entry_at`, and its bytes.
fn top_of(entry: &NodeEntry, entry_at: u32) -> u32
    requires { entry_at + 1 < 2 ^ 32 }
    ensures { entry_at < result }
{
    match entry.extent {
        Some(extent) => {
            let end = extent.first + PARTITION_START + block_count(extent.size);
            end.max(entry_at + 1)
        }
        None => entry_at + 1,
    }
}

/// Whether the table leads to the block in which the file was found.
fn leads_to(entries: &[Option<u32>], file: &CheckedFile) -> bool
    ensures { IsTrue result → LeadsTo entries.now file.now.address (file.now.number + PARTITION_START) }
{
    match entries.get(file.address as usize) {
        Some(Some(number)) => *number == file.number,
        _ => false,
    }
}

/// Whether the node's entry is known and is as its directory says, and its bytes are below `at`.
fn is_known(known: &ReadCache, node: &Named, entry_at: u32, at: u32) -> bool
    requires { entry_at < at }
    ensures { (medium : List (List ℕ)) → IsTrue result → IsKnown medium known.now → HasEntry (take at medium) at entry_at node.now }
{
    let place = EntryPlace {
        at: entry_at,
        address: node.address,
    };
    let Some(entry) = known.find(place) else {
        return false;
    };
    if !is_kind(node.kind, entry.kind) {
        return false;
    }
    if entry.unique != u64::from(node.unique) {
        return false;
    }
    if !has_links(node.kind, entry.links) {
        return false;
    }
    is_below(entry.extent, at)
}

/// Whether an entry has the kind that the directory says.
fn is_kind(named: Kind, kind: icb::Kind) -> bool
    ensures { IsTrue result ↔ (kind ≡ icb_kind named) }
{
    match named {
        Kind::File => kind == icb::Kind::File,
        Kind::Directory => kind == icb::Kind::Directory,
    }
}

/// Whether a node of this kind may have this link count: a file has one link, and a directory is checked against its
/// names later.
fn has_links(named: Kind, links: u16) -> bool
    ensures { IsTrue result ↔ (named ≡ File → links ≡ 1) }
{
    match named {
        Kind::File => links == 1,
        Kind::Directory => true,
    }
}

/// Whether the bytes, if any, are below an address.
fn is_below(extent: Option<Extent>, at: u32) -> bool
    ensures { IsTrue result ↔ IfSome extent (λ e. e.first + PARTITION_START + div_ceil e.size BLOCK_BYTES ≤ at) }
{
    match extent {
        Some(extent) => lies_below(extent.first, extent.size, at),
        None => true,
    }
}
