//! The plan of a whole commit, that is which blocks it writes and where, and the writes.

ghost use Rattle.limits.specs.declared.TheConstants.{BLOCK_BYTES, FILE_BYTES, PARTITION_BLOCKS, PARTITION_START};
ghost use Rattle.std.specs.Prelude.{min, List, ℕ, ◌≡◌, ◌+◌, ◌-◌, ◌*◌, ◌<◌, ◌≤◌, ◌^◌, ◌++◌, [], ◌∷◌, None, Some, IfOk, IfErr, OnOk, OnErr, IfSome, All, Err, false, is_err, length, ◌⊎◌};
ghost use Rattle.std.specs.Int.{div_ceil};
ghost use Rattle.drive.specs.Journal.{next_of, written, AddsPrefix};
ghost use Rattle.drive.specs.Reads.{ReadsOnly, WritesOnly};
ghost use Rattle.drive.specs.Sending.{SendsAlone};
ghost use Rattle.drive.specs.Waiting.{next_address, TakesBlocks, Stops};
ghost use Rattle.dir.specs.Size.{name_sizes, plain_sizes};
ghost use Rattle.durability.specs.Formats.Kind.{Table};
ghost use Rattle.durability.specs.Formats.NodePlace.{Extent};
ghost use Rattle.durability.specs.Plan.{WritesNodes};
ghost use Rattle.recover.specs.declared.fault.StoreFault.TheVariants.{Full, Memory};
ghost use Rattle.udf.specs.Udf.{udf};
ghost use Rattle.vat.specs.Table.{FitsTable, view};
ghost use Rattle.recover.specs.Faults.{IsShortage, devices};
ghost use Rattle.planning.specs.Last.{IsLastTableBefore, IsLastTableOn, IsTakenBy, IsTakenWith, HasTableBelow, need_of, table_committed};
ghost use Rattle.recover.specs.Below.{IsUsed};
ghost use Rattle.planning.specs.Entered.{ArePlacedFrom, BeginsNext, Enters, IsApartFromDrive, IsBegunAfter, IsPlanAfter, IsPlanOf, IsSamePlan, LeadsBefore, TakesAway};
ghost use Rattle.planning.specs.Needs as needs;
ghost use Rattle.planning.specs.Plan.{IsPlan, IsTablePlaced, file_list, node_list, file_writings, file_written, directory_list, directories_list, directories_writings, directories_written, plan_blocks, table_data};
ghost use Rattle.table_update.specs.Full.{OnlyMemoryIsShort};
ghost use Rattle.table_update.specs.TableChange.{IsFree, IsNext, IsRemovable};
ghost use Rattle.planning.specs.Writings.{AreKeptOn, IsProper, new_file};

use crate::change::{Change, NewDirectory};
use crate::file::NewFile;
use crate::layout::{PlacedDirectory, PlacedFile, PlacedTable};
use crate::places::{Numbers, outside_of};
use crate::write::Writer;
use drive::{Drive, DriveFault};
use ecma::Timestamp;
use icb::{FileEntry, Kind, Place, PlannedEntry};
use limits::{
    ADDRESS_BYTES, BLOCK_SIZE, LEAST_FILLED_BYTES, PARTITION_START, RECORD_BYTES, TABLE_HEAD_BYTES,
};
use lookup::Content;
use recover::{Node, StoreFault, block_count, cause, damaged};
use request::{Reply, Request};
use std::alloc::Global;
use table_update::{add_node, copied, keep_reply, place_node, remove_node};
use vat::{Vat, encode_vat};

/// All that a commit writes, in order: the file, the directories, the table.
#[derive(Drop)]
pub struct Plan<'r> {
    pub reply: Reply,
    /// The moment of the request. No code reads it: contracts describe the plan by it.
    pub moment: Timestamp,
    pub file: Option<PlacedFile<'r>>,
    pub directories: Vec<PlacedDirectory>,
    pub table: PlacedTable,
    pub(crate) writer: Writer<'r>,
}

impl Plan<'_> {
    /// Writes all that is planned, in order. If the drive fails, a prefix of it was written.
    pub fn write<D: Drive>(&mut self, drive: &mut D) -> Result<(), DriveFault>
        requires plan { IsPlan (next_of (D.journal drive.old)) (D.capacity drive.old) self.old }
        ensures ok { OnOk result (D.journal drive.new ≡ D.journal drive.old ++ written (next_of (D.journal drive.old)) (plan_blocks self.old)) }
        ensures err { OnErr result (AddsPrefix (D.journal drive.old) (next_of (D.journal drive.old)) (plan_blocks self.old) (D.journal drive.new)) }
        ensures alone { SendsAlone D.Drive (next_of (D.journal drive.old)) (node_list self.old ++ table_data self.old.table) self.old.table.entry (is_err result) drive.old drive.new }
        ensures same { IsSamePlan self.old self.new }
        ensures writes { WritesOnly D.Drive (is_err result) drive.old drive.new }
    {
        let held = self.held();
        self.writer.hold(held);
        write_file(&mut self.writer, drive, &self.file)?;
        write_directories(&mut self.writer, drive, &self.directories)?;
        write_table(&mut self.writer, drive, &self.table)?;
        self.writer.finish_alone(drive)?;
        Ok(())
    }

    /// How many encoded blocks are held during all writes: those of the table's data, and a file's entry and descriptor
    /// blocks.
    fn held(&self) -> usize {
        let table = self.table.bytes.len().div_ceil(BLOCK_SIZE);
        match &self.file {
            Some(file) => table.saturating_add(file.listed.len()).saturating_add(1),
            None => table,
        }
    }

    /// The greatest number of encoded blocks that were held at once.
    pub fn most_held(&self) -> usize
        ensures { result ≡ self.now.writer.most_held }
    {
        self.writer.most_held()
    }
}

/// Writes a file's bytes, if they are outside its entry, its descriptor blocks, and the entry. Without a file nothing is
/// written.
fn write_file<'r, D: Drive>(
    writer: &mut Writer<'r>,
    drive: &mut D,
    file: &Option<PlacedFile<'r>>,
) -> Result<(), DriveFault>
    requires begins { writer.old.packets.at ≤ next_of (D.journal drive.old) }
    requires fits { next_address writer.old.packets + length (file_list file.now) ≤ D.capacity drive.old }
    ensures ok { OnOk result (TakesBlocks D.Drive drive.old writer.old.packets (file_list file.now) drive.new writer.new.packets) }
    ensures err { OnErr result (Stops D.Drive drive.old writer.old.packets (file_list file.now) drive.new) }
    ensures writes { WritesOnly D.Drive (is_err result) drive.old drive.new }
{
    let Some(placed) = file else {
        return Ok(());
    };
    writer.lend_bytes(drive, placed.gap, outside_of(&placed.file))?;
    writer.put_all(drive, placed.listed.as_slice())?;
    writer.put(drive, &placed.entry)?;
    Ok(())
}

/// Writes a directory's data, and its entry.
fn write_directory<D: Drive>(
    writer: &mut Writer<'_>,
    drive: &mut D,
    placed: &PlacedDirectory,
) -> Result<(), DriveFault>
    requires begins { writer.old.packets.at ≤ next_of (D.journal drive.old) }
    requires fits { next_address writer.old.packets + length (directory_list placed.now) ≤ D.capacity drive.old }
    ensures ok { OnOk result (TakesBlocks D.Drive drive.old writer.old.packets (directory_list placed.now) drive.new writer.new.packets) }
    ensures err { OnErr result (Stops D.Drive drive.old writer.old.packets (directory_list placed.now) drive.new) }
    ensures writes { WritesOnly D.Drive (is_err result) drive.old drive.new }
{
    let content = &placed.directory.content;
    writer.put_directory(drive, content, placed.extent.first)?;
    writer.put_entry(drive, &placed.entry)?;
    Ok(())
}

/// Writes the directories in order.
fn write_directories<D: Drive>(
    writer: &mut Writer<'_>,
    drive: &mut D,
    directories: &[PlacedDirectory],
) -> Result<(), DriveFault>
    requires begins { writer.old.packets.at ≤ next_of (D.journal drive.old) }
    requires fits { next_address writer.old.packets + length (directories_list directories.now) ≤ D.capacity drive.old }
    ensures ok { OnOk result (TakesBlocks D.Drive drive.old writer.old.packets (directories_list directories.now) drive.new writer.new.packets) }
    ensures err { OnErr result (Stops D.Drive drive.old writer.old.packets (directories_list directories.now) drive.new) }
    ensures writes { WritesOnly D.Drive (is_err result) drive.old drive.new }
{
    for placed in directories {
        write_directory(writer, drive, placed)?;
    }
    Ok(())
}

/// Writes the table's bytes, and puts its VAT ICB, with which the commit takes effect. The VAT ICB waits for a write of
/// its own, after all other writes have finished. So whatever part of a write a power loss leaves, the VAT ICB is on
/// the medium only if all that it leads to is.
fn write_table<D: Drive>(
    writer: &mut Writer<'_>,
    drive: &mut D,
    table: &PlacedTable,
) -> Result<(), DriveFault>
    requires few { length table.now.bytes.items < 2 ^ 32 }
    requires begins { writer.old.packets.at ≤ next_of (D.journal drive.old) }
    requires fits { next_address writer.old.packets + length (table_data table.now ++ table.now.entry ∷ []) ≤ D.capacity drive.old }
    ensures ok { OnOk result (TakesBlocks D.Drive drive.old writer.old.packets (table_data table.now ++ table.now.entry ∷ []) drive.new writer.new.packets) }
    ensures waits { OnOk result (writer.new.packets.blocks ≡ table.now.entry ∷ []) }
    ensures err { OnErr result (Stops D.Drive drive.old writer.old.packets (table_data table.now) drive.new) }
    ensures writes { WritesOnly D.Drive (is_err result) drive.old drive.new }
{
    writer.put_bytes(drive, table.gap, &table.bytes)?;
    writer.finish(drive)?;
    writer.put_entry(drive, &table.entry)?;
    Ok(())
}

/// The last table of a volume, after which a commit is planned.
#[derive(Clone, Copy, Debug)]
pub struct LastTable<'s> {
    /// The address of its VAT ICB.
    pub vat_icb_address: u32,
    /// How many blocks the volume has.
    pub capacity: u32,
    pub vat: &'s Vat,
}

impl LastTable<'_> {
    /// Plans a commit, and takes all memory that its writes need. `Full` if there may be no room for it.
    pub fn plan<'r, D: Drive>(
        &self,
        alloc: Global,
        drive: &mut D,
        request: &Request<'_>,
        change: Change<'r>,
        moment: Timestamp,
    ) -> Result<Plan<'r>, StoreFault>
        requires agrees { IsLastTableOn (D.journal drive.old) (D.capacity drive.old) self.now }
        requires next { IsNext request.now.client request.now.number self.now.vat.now.sessions.records.items }
        ensures plan { IfOk result (IsPlan (next_of (D.journal drive.old)) (D.capacity drive.old)) }
        ensures makes { IfOk result (IsPlanAfter self.now request.now change.entry moment) }
        ensures room { OnOk result (next_of (D.journal drive.old) + need_of self.now request.now change.entry ≤ self.now.capacity) }
        ensures full { result ≡ Err Full → self.now.capacity < next_of (D.journal drive.old) + need_of self.now request.now change.entry }
        // If the table takes each change, nothing else is refused.
        ensures refused { (medium : List (List ℕ)) → IsTakenBy medium moment change.entry (table_committed self.now request.now change.entry) → IfErr result (λ fault. IsShortage fault ⊎ (fault ≡ Full)) }
        ensures reads { ReadsOnly D.Drive (devices result) drive.old drive.new }
    {
        let next = match drive.next() {
            Ok(next) => next,
            Err(_) => return Err(StoreFault::Device),
        };
        let vat = self.next_table(alloc, request, &change)?;
        if u64::from(next).saturating_add(need(&change, &vat)) > u64::from(self.capacity) {
            return Err(StoreFault::Full);
        }
        self.place(alloc, next, vat, change, moment)
    }

    /// Places what a change writes, from the address `next` on, and enters it in the table of its commit.
    fn place<'r>(
        &self,
        alloc: Global,
        next: u32,
        mut vat: Vat,
        change: Change<'r>,
        moment: Timestamp,
    ) -> Result<Plan<'r>, StoreFault>
        requires agrees { IsLastTableBefore next self.now.capacity self.now }
        requires begun { IsBegunAfter self.now vat }
        requires proper { All (λ d. IsProper d.content.dir) change.directories.items }
        requires room { next + needs.change_need change (view vat) ≤ self.now.capacity }
        ensures plan { IfOk result (IsPlan next self.now.capacity) }
        ensures makes { IfOk result (IsPlanOf change.entry moment vat) }
        ensures refused { (medium : List (List ℕ)) → IsTakenWith medium None moment change.entry (view vat) → IfErr result (λ fault. fault ≡ Memory) }
        ensures apart { IsApartFromDrive result }
    {
        let mut numbers = Numbers::new(next - PARTITION_START, self.capacity - PARTITION_START);
        let reply = Reply {
            code: change.code,
            commit: vat.sessions.commits,
        };
        let file = enter_file(
            alloc,
            &mut vat,
            &mut numbers,
            change.file,
            moment,
            self.vat_icb_address,
        )?;
        let directories = enter_directories(
            alloc,
            &mut vat,
            &mut numbers,
            change.directories,
            self.vat_icb_address,
        )?;
        take_away(&mut vat, change.removed, self.vat_icb_address)?;
        let table = place_table(alloc, vat, &mut numbers, moment)?;
        Ok(Plan {
            reply,
            moment,
            file,
            directories,
            table,
            writer: Writer::new(alloc, next)?,
        })
    }

    /// The table of the next commit, with the request's reply and the new node, if any, which is placed later.
    fn next_table(
        &self,
        alloc: Global,
        request: &Request<'_>,
        change: &Change<'_>,
    ) -> Result<Vat, StoreFault>
        requires keeps { HasTableBelow self.now.vat_icb_address self.now.vat.now }
        requires next { IsNext request.now.client request.now.number self.now.vat.now.sessions.records.items }
        ensures begins { IfOk result (BeginsNext self.now request.now change.now) }
        ensures free { IfSome change.now.made (λ node. IsFree node.address self.now.vat.now.entries.items) → IfErr result (λ fault. fault ≡ Memory) }
        ensures apart { IsApartFromDrive result }
    {
        let at = self.vat_icb_address;
        let mut vat = copied(alloc, self.vat)?;
        keep_reply(
            &mut vat,
            at,
            request.client,
            request.number,
            change.code.number(),
        )?;
        if let Some(made) = change.made {
            if !add_node(&mut vat, made.kind, made.address, 0)? {
                return Err(damaged(at, cause::IDENTITY));
            }
        }
        Ok(vat)
    }
}

/// The most blocks that a commit may take, computed from sizes alone.
fn need(change: &Change<'_>, vat: &Vat) -> u64
    requires { FitsTable (view vat.now) }
    ensures value { result ≡ min (needs.change_need change.now (view vat.now)) (2 ^ 64 - 1) }
    ensures proper { All (λ d. IsProper d.content.dir) change.now.directories.items }
{
    let nodes = directories_need(&change.directories);
    nodes.saturating_add(file_need(&change.file) + table_need(vat))
}

/// The most blocks for a table: its data, a gap before them that is at most as long, and the VAT ICB.
fn table_need(vat: &Vat) -> u64
    requires { FitsTable (view vat.now) }
    ensures value { result ≡ needs.table_need (view vat.now) }
    ensures few { result ≤ 1_000 }
{
    let records = RECORD_BYTES * vat.sessions.records.len();
    let entries = ADDRESS_BYTES * vat.entries.len();
    let bytes = TABLE_HEAD_BYTES + records + entries;
    2 * bytes.div_ceil(BLOCK_SIZE) as u64 + 1
}

/// The most blocks for a file, if one is written: its bytes outside the entry, a gap before them that is at most as
/// long, its descriptor blocks, and the entry.
fn file_need(file: &Option<NewFile<'_>>) -> u64
    ensures value { result ≡ needs.file_need file.now }
    ensures few { result ≤ 1_032 }
{
    let Some(file) = file else {
        return 0;
    };
    let outside = outside_of(file);
    2 * u64::from(block_count(outside.len() as u32)) + u64::from(file.descriptor_blocks()) + 1
}

/// The most blocks for directories. Each one has its entry and a last block of data. In each other block of data the
/// identifiers fill at least `LEAST_FILLED_BYTES`.
fn directories_need(directories: &[NewDirectory]) -> u64
    ensures value { result ≡ min (needs.directories_need directories.now) (2 ^ 64 - 1) }
    ensures proper { All (λ d. IsProper d.content.dir) directories.now }
{
    let mut blocks: u64 = 0;
    for directory in directories {
        let size = identifiers_size(&directory.content);
        blocks = blocks.saturating_add(2 + size / LEAST_FILLED_BYTES);
    }
    blocks
}

/// The size of a directory's identifiers if none is lengthened: 40 bytes for its parent's, and those of its names.
fn identifiers_size(content: &Content) -> u64
    ensures size { result ≡ 40 + plain_sizes (name_sizes content.now.dir.entries.entries) }
    ensures proper { IsProper content.now.dir }
{
    // Unused: it gives the proof that no name occurs twice.
    let _many = content.dir.entries.len();
    40 + content.identifiers.plain_size(&content.dir) as u64
}

/// Places a file, if one is written, with this moment, and enters it in the table. A refusal names `at`, the address of
/// the VAT ICB of the state before.
fn enter_file<'r>(
    alloc: Global,
    vat: &mut Vat,
    numbers: &mut Numbers,
    file: Option<NewFile<'r>>,
    moment: Timestamp,
    at: u32,
) -> Result<Option<PlacedFile<'r>>, StoreFault>
    requires fits { FitsTable (view vat.old) }
    requires room { numbers.old.next + needs.file_need file ≤ numbers.old.end }
    ensures enters { IfOk result (λ placed. Enters vat.old vat.new numbers.old numbers.new (file_list placed) (file_written placed) (needs.file_need file.entry)) }
    ensures written { IfOk result (λ placed. (medium : List (List ℕ)) → IfSome placed (λ p. AreKeptOn medium p.file) → WritesNodes udf medium (file_writings medium moment placed) numbers.old.next (file_list placed) (file_written placed)) }
    ensures writings { IfOk result (λ placed. (medium : List (List ℕ)) → file_writings medium moment placed ≡ new_file medium moment file.entry) }
    ensures kept { IfOk result (λ placed. (medium : List (List ℕ)) → IfSome file.entry (AreKeptOn medium) → IfSome placed (λ p. AreKeptOn medium p.file)) }
    ensures end { numbers.new.end ≡ numbers.old.end }
    ensures used { IfSome file.entry (λ f. IsUsed f.address vat.old.entries.items) → IfErr result (λ fault. fault ≡ Memory) }
    ensures apart { IsApartFromDrive result }
{
    let Some(file) = file else {
        return Ok(None);
    };
    let address = file.address;
    let placed = numbers.place_file(alloc, file, moment)?;
    if !place_node(vat, address, placed.number) {
        return Err(damaged(at, cause::IDENTITY));
    }
    Ok(Some(placed))
}

/// Places the directories that are written, in order, and enters them in the table. A refusal names `at`, the address
/// of the VAT ICB of the state before.
fn enter_directories(
    alloc: Global,
    vat: &mut Vat,
    numbers: &mut Numbers,
    directories: Vec<NewDirectory>,
    at: u32,
) -> Result<Vec<PlacedDirectory>, StoreFault>
    requires fits { FitsTable (view vat.old) }
    requires proper { All (λ d. IsProper d.content.dir) directories.items }
    requires room { numbers.old.next + needs.directories_need directories.items ≤ numbers.old.end }
    ensures enters { IfOk result (λ placed. Enters vat.old vat.new numbers.old numbers.new (directories_list placed.items) (directories_written placed.items) (needs.directories_need directories.items)) }
    ensures written { IfOk result (λ placed. (medium : List (List ℕ)) → WritesNodes udf medium (directories_writings placed.items) numbers.old.next (directories_list placed.items) (directories_written placed.items)) }
    ensures placed { IfOk result (λ placed. ArePlacedFrom numbers.old.next directories.items placed.items) }
    ensures end { numbers.new.end ≡ numbers.old.end }
    ensures used { All (λ d. IsUsed d.address vat.old.entries.items) directories.items → IfErr result (λ fault. fault ≡ Memory) }
    ensures apart { IsApartFromDrive result }
{
    let mut all = Vec::with_capacity(alloc, directories.len())?;
    for directory in directories {
        let address = directory.address;
        let placed = numbers.place_directory(directory);
        if !place_node(vat, address, placed.number) {
            return Err(damaged(at, cause::IDENTITY));
        }
        all.push(placed)?;
    }
    Ok(all)
}

/// Removes a node from the table, if one is removed. A refusal names `at`, the address of the VAT ICB of the state
/// before.
fn take_away(vat: &mut Vat, removed: Option<Node>, at: u32) -> Result<(), StoreFault>
    requires fits { FitsTable (view vat.old) }
    ensures gone { OnOk result (TakesAway removed vat.old vat.new) }
    ensures there { IfSome removed (λ node. IsRemovable node.kind node.address (view vat.old)) → is_err result ≡ false }
    ensures apart { IsApartFromDrive result }
{
    let Some(node) = removed else {
        return Ok(());
    };
    if !remove_node(vat, node.kind, node.address) {
        return Err(damaged(at, cause::COUNTS));
    }
    Ok(())
}

/// Places the table, after all that it leads to. Its VAT ICB has this moment.
fn place_table(
    alloc: Global,
    vat: Vat,
    numbers: &mut Numbers,
    moment: Timestamp,
) -> Result<PlacedTable, StoreFault>
    requires fits { FitsTable (view vat) }
    requires leads { LeadsBefore numbers.old.next vat }
    requires room { numbers.old.next + needs.table_need (view vat) ≤ numbers.old.end }
    ensures vat { IfOk result (λ t. t.vat ≡ vat) }
    ensures placed { IfOk result (IsTablePlaced numbers.old.next moment) }
    ensures some { IfOk result (λ t. 0 < length t.bytes.items) }
    ensures within { IfOk result (λ t. t.at < numbers.old.end + PARTITION_START) }
    ensures short { OnlyMemoryIsShort result }
{
    let bytes = encode_vat(alloc, &vat)?;
    let start = numbers.next();
    let first = numbers.place_bytes(&bytes);
    let number = numbers.next();
    numbers.take(1);
    let entry = table_entry(bytes.len() as u32, first, number, moment);
    Ok(PlacedTable {
        vat,
        bytes,
        first,
        gap: first - start,
        entry,
        at: number + PARTITION_START,
    })
}

/// The VAT ICB, for block `number`, of a table of `size` bytes that begin at block number `first`.
fn table_entry(size: u32, first: u32, number: u32, moment: Timestamp) -> PlannedEntry<'static>
    requires some { 0 < size }
    requires few { size ≤ FILE_BYTES }
    requires room { first + div_ceil size BLOCK_BYTES ≤ PARTITION_BLOCKS }
    ensures { udf.IsEntry (record { kind = Table; moment = moment; links = 0; identity = 0; size = size; place = Extent first }) result number }
{
    let entry = FileEntry {
        kind: Kind::Vat,
        moment,
        links: 0,
        unique: 0,
        size,
        place: Place::Extent(first),
    };
    PlannedEntry::new(&entry, number)
}
