//! Blocks on their way to the drive, and how many of them are held.

ghost use Rattle.limits.specs.declared.TheConstants.{BLOCK_BYTES};
ghost use Rattle.std.specs.Prelude.{◌≡◌, ◌+◌, ◌<◌, ◌≤◌, ◌^◌, [], ◌∷◌, ◌++◌, length, replicate, is_err, IfOk, OnOk, OnErr};
ghost use Rattle.std.specs.Int.{div_ceil};
ghost use Rattle.drive.specs.Journal.{next_of, written, AddsPrefix};
ghost use Rattle.drive.specs.Reads.{WritesOnly};
ghost use Rattle.drive.specs.Sending.{Sends};
ghost use Rattle.drive.specs.Waiting.{next_address, TakesBlocks, Stops};
ghost use Rattle.dir.specs.Directory.{directory_blocks};
ghost use Rattle.ecma.specs.Descriptor.{padded};
ghost use Rattle.durability.specs.Plan.{zeros, packed};

use dir::Lay;
use drive::{Drive, DriveFault, PACKET, PacketWriter};
use ecma::Block;
use icb::PlannedEntry;
use limits::{BLOCK_SIZE, PARTITION_BLOCKS};
use lookup::Content;
use std::alloc::{AllocError, Global};

const ZEROS: Block = [0; BLOCK_SIZE];

/// Takes blocks one by one, and counts those that are held at once.
#[derive(Drop)]
pub(crate) struct Writer<'b> {
    packets: PacketWriter<'b>,
    /// How many other blocks are held all the time.
    held: usize,
    most_held: usize,
}

impl<'b> Writer<'b> {
    /// A writer of blocks from this address on. No later call allocates memory.
    pub(crate) fn new(alloc: Global, at: u32) -> Result<Writer<'b>, AllocError>
        ensures { IfOk result (λ w. w.packets ≡ record { at = at; blocks = [] }) }
    {
        Ok(Writer {
            packets: PacketWriter::new(alloc, at)?,
            held: 0,
            most_held: 0,
        })
    }

    /// Sets how many blocks are held besides those that the writer is given.
    pub(crate) fn hold(&mut self, blocks: usize)
        ensures { self.new.packets ≡ self.old.packets }
    {
        self.held = blocks;
    }

    /// The greatest number of encoded blocks that were held at once.
    pub(crate) fn most_held(&self) -> usize
        ensures { result ≡ self.now.most_held }
    {
        self.most_held
    }

    /// Puts one block.
    pub(crate) fn put<D: Drive>(&mut self, drive: &mut D, block: &Block) -> Result<(), DriveFault>
        requires begins { self.old.packets.at ≤ next_of (D.journal drive.old) }
        requires fits { next_address self.old.packets < D.capacity drive.old }
        ensures ok { OnOk result (TakesBlocks D.Drive drive.old self.old.packets (block.now ∷ []) drive.new self.new.packets) }
        ensures waits { OnOk result (0 < length self.new.packets.blocks) }
        ensures err { OnErr result (Stops D.Drive drive.old self.old.packets [] drive.new) }
        ensures writes { WritesOnly D.Drive (is_err result) drive.old drive.new }
    {
        let held = self.held.saturating_add(self.packets.waiting() + 1);
        self.most_held = self.most_held.max(held);
        self.packets.put(drive, block)
    }

    /// Puts an entry, which is encoded here.
    pub(crate) fn put_entry<D: Drive>(
        &mut self,
        drive: &mut D,
        entry: &PlannedEntry<'_>,
    ) -> Result<(), DriveFault>
        requires begins { self.old.packets.at ≤ next_of (D.journal drive.old) }
        requires fits { next_address self.old.packets < D.capacity drive.old }
        ensures ok { OnOk result (TakesBlocks D.Drive drive.old self.old.packets (entry.now ∷ []) drive.new self.new.packets) }
        ensures waits { OnOk result (0 < length self.new.packets.blocks) }
        ensures err { OnErr result (Stops D.Drive drive.old self.old.packets [] drive.new) }
        ensures writes { WritesOnly D.Drive (is_err result) drive.old drive.new }
    {
        let mut made = ZEROS;
        entry.write(&mut made);
        self.put(drive, &made)
    }

    /// Puts `count` blocks of zeros.
    fn put_zeros<D: Drive>(&mut self, drive: &mut D, count: u32) -> Result<(), DriveFault>
        requires begins { self.old.packets.at ≤ next_of (D.journal drive.old) }
        requires fits { next_address self.old.packets + count ≤ D.capacity drive.old }
        ensures ok { OnOk result (TakesBlocks D.Drive drive.old self.old.packets (replicate count zeros) drive.new self.new.packets) }
        ensures err { OnErr result (Stops D.Drive drive.old self.old.packets (replicate count zeros) drive.new) }
        ensures writes { WritesOnly D.Drive (is_err result) drive.old drive.new }
    {
        for i in 0..count {
            self.put(drive, &ZEROS)?;
        }
        Ok(())
    }

    /// Puts the blocks in order.
    pub(crate) fn put_all<D: Drive>(
        &mut self,
        drive: &mut D,
        blocks: &[Block],
    ) -> Result<(), DriveFault>
        requires begins { self.old.packets.at ≤ next_of (D.journal drive.old) }
        requires fits { next_address self.old.packets + length blocks.now ≤ D.capacity drive.old }
        ensures ok { OnOk result (TakesBlocks D.Drive drive.old self.old.packets blocks.now drive.new self.new.packets) }
        ensures err { OnErr result (Stops D.Drive drive.old self.old.packets blocks.now drive.new) }
        ensures writes { WritesOnly D.Drive (is_err result) drive.old drive.new }
    {
        let waiting = self.packets.waiting().saturating_add(blocks.len());
        let held = self.held.saturating_add(PACKET.min(waiting));
        self.most_held = self.most_held.max(held);
        self.packets.put_all(drive, blocks)
    }

    /// Puts the blocks in order, from where they are in memory: they are neither copied nor held.
    fn lend<D: Drive>(&mut self, drive: &mut D, blocks: &'b [Block]) -> Result<(), DriveFault>
        requires begins { self.old.packets.at ≤ next_of (D.journal drive.old) }
        requires fits { next_address self.old.packets + length blocks.now ≤ D.capacity drive.old }
        ensures ok { OnOk result (TakesBlocks D.Drive drive.old self.old.packets blocks.now drive.new self.new.packets) }
        ensures err { OnErr result (Stops D.Drive drive.old self.old.packets blocks.now drive.new) }
        ensures writes { WritesOnly D.Drive (is_err result) drive.old drive.new }
    {
        self.packets.lend(drive, blocks)
    }

    /// Puts bytes, with zeros after them in the last block.
    fn put_data<D: Drive>(&mut self, drive: &mut D, bytes: &[u8]) -> Result<(), DriveFault>
        requires begins { self.old.packets.at ≤ next_of (D.journal drive.old) }
        requires size { length bytes.now < 2 ^ 32 }
        requires fits { next_address self.old.packets + div_ceil (length bytes.now) BLOCK_BYTES ≤ D.capacity drive.old }
        ensures ok { OnOk result (TakesBlocks D.Drive drive.old self.old.packets (packed bytes.now) drive.new self.new.packets) }
        ensures err { OnErr result (Stops D.Drive drive.old self.old.packets (packed bytes.now) drive.new) }
        ensures writes { WritesOnly D.Drive (is_err result) drive.old drive.new }
    {
        let (blocks, text) = bytes.as_chunks::<BLOCK_SIZE>();
        self.put_all(drive, blocks)?;
        self.put_text(drive, text)?;
        Ok(())
    }

    /// Puts bytes, with zeros after them in the last block. Their whole blocks are not copied.
    fn lend_data<D: Drive>(&mut self, drive: &mut D, bytes: &'b [u8]) -> Result<(), DriveFault>
        requires begins { self.old.packets.at ≤ next_of (D.journal drive.old) }
        requires size { length bytes.now < 2 ^ 32 }
        requires fits { next_address self.old.packets + div_ceil (length bytes.now) BLOCK_BYTES ≤ D.capacity drive.old }
        ensures ok { OnOk result (TakesBlocks D.Drive drive.old self.old.packets (packed bytes.now) drive.new self.new.packets) }
        ensures err { OnErr result (Stops D.Drive drive.old self.old.packets (packed bytes.now) drive.new) }
        ensures writes { WritesOnly D.Drive (is_err result) drive.old drive.new }
    {
        let (blocks, text) = bytes.as_chunks::<BLOCK_SIZE>();
        self.lend(drive, blocks)?;
        self.put_text(drive, text)?;
        Ok(())
    }

    /// Puts less than a block of bytes, with zeros after them. No bytes take no block.
    fn put_text<D: Drive>(&mut self, drive: &mut D, text: &[u8]) -> Result<(), DriveFault>
        requires begins { self.old.packets.at ≤ next_of (D.journal drive.old) }
        requires size { length text.now < BLOCK_BYTES }
        requires fits { next_address self.old.packets + div_ceil (length text.now) BLOCK_BYTES ≤ D.capacity drive.old }
        ensures ok { OnOk result (TakesBlocks D.Drive drive.old self.old.packets (packed text.now) drive.new self.new.packets) }
        ensures err { OnErr result (Stops D.Drive drive.old self.old.packets (packed text.now) drive.new) }
        ensures writes { WritesOnly D.Drive (is_err result) drive.old drive.new }
    {
        if text.is_empty() {
            return Ok(());
        }
        self.put(drive, &block_of(text))
    }

    /// Puts `gap` blocks of zeros, and then bytes.
    pub(crate) fn put_bytes<D: Drive>(
        &mut self,
        drive: &mut D,
        gap: u32,
        bytes: &[u8],
    ) -> Result<(), DriveFault>
        requires begins { self.old.packets.at ≤ next_of (D.journal drive.old) }
        requires size { length bytes.now < 2 ^ 32 }
        requires fits { next_address self.old.packets + (gap + div_ceil (length bytes.now) BLOCK_BYTES) ≤ D.capacity drive.old }
        ensures ok { OnOk result (TakesBlocks D.Drive drive.old self.old.packets (replicate gap zeros ++ packed bytes.now) drive.new self.new.packets) }
        ensures err { OnErr result (Stops D.Drive drive.old self.old.packets (replicate gap zeros ++ packed bytes.now) drive.new) }
        ensures writes { WritesOnly D.Drive (is_err result) drive.old drive.new }
    {
        self.put_zeros(drive, gap)?;
        self.put_data(drive, bytes)?;
        Ok(())
    }

    /// Puts `gap` blocks of zeros, and then bytes whose whole blocks are not copied.
    pub(crate) fn lend_bytes<D: Drive>(
        &mut self,
        drive: &mut D,
        gap: u32,
        bytes: &'b [u8],
    ) -> Result<(), DriveFault>
        requires begins { self.old.packets.at ≤ next_of (D.journal drive.old) }
        requires size { length bytes.now < 2 ^ 32 }
        requires fits { next_address self.old.packets + (gap + div_ceil (length bytes.now) BLOCK_BYTES) ≤ D.capacity drive.old }
        ensures ok { OnOk result (TakesBlocks D.Drive drive.old self.old.packets (replicate gap zeros ++ packed bytes.now) drive.new self.new.packets) }
        ensures err { OnErr result (Stops D.Drive drive.old self.old.packets (replicate gap zeros ++ packed bytes.now) drive.new) }
        ensures writes { WritesOnly D.Drive (is_err result) drive.old drive.new }
    {
        self.put_zeros(drive, gap)?;
        self.lend_data(drive, bytes)?;
        Ok(())
    }

    /// Puts the data of a directory, from block number `first` on.
    pub(crate) fn put_directory<D: Drive>(
        &mut self,
        drive: &mut D,
        content: &Content,
        first: u32,
    ) -> Result<(), DriveFault>
        requires first { first ≤ PARTITION_BLOCKS }
        requires begins { self.old.packets.at ≤ next_of (D.journal drive.old) }
        requires fits { next_address self.old.packets + length (directory_blocks content.now.dir first) ≤ D.capacity drive.old }
        ensures ok { OnOk result (TakesBlocks D.Drive drive.old self.old.packets (directory_blocks content.now.dir first) drive.new self.new.packets) }
        ensures err { OnErr result (Stops D.Drive drive.old self.old.packets (directory_blocks content.now.dir first) drive.new) }
        ensures writes { WritesOnly D.Drive (is_err result) drive.old drive.new }
    {
        let mut lay = Lay::over(&content.dir, &content.identifiers, first);
        let mut block = [0; BLOCK_SIZE];
        while lay.next_into(&mut block) {
            self.put(drive, &block)?;
        }
        Ok(())
    }

    /// Writes the blocks that wait, as one run. Afterwards none waits, and the next block begins a write of its own.
    pub(crate) fn finish<D: Drive>(&mut self, drive: &mut D) -> Result<(), DriveFault>
        requires begins { self.old.packets.at ≤ next_of (D.journal drive.old) }
        requires fits { next_address self.old.packets ≤ D.capacity drive.old }
        ensures ok { OnOk result (D.journal drive.new ≡ D.journal drive.old ++ written self.old.packets.at self.old.packets.blocks) }
        ensures empty { OnOk result (self.new.packets ≡ record { at = next_address self.old.packets; blocks = [] }) }
        ensures err { OnErr result (AddsPrefix (D.journal drive.old) self.old.packets.at self.old.packets.blocks (D.journal drive.new)) }
        ensures sends { Sends D.Drive self.old.packets.at self.old.packets.blocks (is_err result) drive.old drive.new }
        ensures writes { WritesOnly D.Drive (is_err result) drive.old drive.new }
    {
        self.packets.finish(drive)
    }

    /// Writes the one block that waits, in a write of its own.
    pub(crate) fn finish_alone<D: Drive>(&mut self, drive: &mut D) -> Result<(), DriveFault>
        requires one { length self.old.packets.blocks ≡ 1 }
        requires begins { self.old.packets.at ≤ next_of (D.journal drive.old) }
        requires fits { next_address self.old.packets ≤ D.capacity drive.old }
        ensures ok { OnOk result (D.journal drive.new ≡ D.journal drive.old ++ written self.old.packets.at self.old.packets.blocks) }
        ensures err { OnErr result (AddsPrefix (D.journal drive.old) self.old.packets.at self.old.packets.blocks (D.journal drive.new)) }
        ensures sent { D.writes drive.new ≡ D.writes drive.old ++ self.old.packets.blocks ∷ [] }
        ensures writes { WritesOnly D.Drive (is_err result) drive.old drive.new }
    {
        self.packets.finish_alone(drive)
    }
}

/// A block that begins with these bytes, and has zeros after them.
fn block_of(text: &[u8]) -> Block
    requires { length text.now ≤ BLOCK_BYTES }
    ensures { result ≡ padded text.now }
{
    let mut block = ZEROS;
    block[..text.len()].copy_from_slice(text);
    block
}
