//! Blocks on their way to a drive, in packets and runs.
ghost use Rattle.std.specs.Prelude.{◌≡◌, ◌+◌, ◌*◌, ◌/◌, ◌==◌, ◌<◌, ◌≤◌, if◌then◌else◌, ℕ, List, ◌∷◌, ◌++◌, [], length, take, drop, vec_len, is_err, IfOk, OnOk, OnErr};
ghost use Rattle.std.specs.Vec.{vec_capacity};
ghost use Rattle.drive.specs.declared.TheConstants.{PACKET};
ghost use Rattle.drive.specs.Journal.{written, next_of, AddsPrefix};
ghost use Rattle.drive.specs.Reads.{WritesOnly};
ghost use Rattle.drive.specs.Sending.{Sends, SendsAlone};
ghost use Rattle.drive.specs.Waiting.{Waiting, next_address, TakesBlocks, Stops};

use crate::{Block, Drive, DriveFault, PACKET};
use std::alloc::{AllocError, Global};
use std::marker::Model;
use std::slice;

/// The next packet of the blocks of both slices after the first `done`: at most [`PACKET`] blocks, of one slice.
pub(crate) fn packet_of<'b>(first: &'b [Block], second: &'b [Block], done: usize) -> &'b [Block]
    requires { done < length first.now + length second.now }
    ensures blocks { result.now ≡ take (length result.now) (drop done (first.now ++ second.now)) }
    ensures some { 0 < length result.now }
    ensures few { length result.now ≤ PACKET }
    ensures within { done + length result.now ≤ length first.now + length second.now }
{
    if done < first.len() {
        return &first[done..first.len().min(done + PACKET)];
    }
    let begun = done - first.len();
    &second[begun..second.len().min(begun + PACKET)]
}

/// Writes the blocks from this address on: all but the last in one run, and then the last in a write of its own, after
/// all others have finished. So whatever part of a write a power loss leaves, the last block is there only if the
/// others are.
pub fn write_last_alone<D: Drive>(
    drive: &mut D,
    at: u32,
    blocks: &[Block],
) -> Result<(), DriveFault>
    requires begins { at ≤ next_of (D.journal drive.old) }
    requires fits { at + length blocks.now ≤ D.capacity drive.old }
    ensures ok { OnOk result (D.journal drive.new ≡ D.journal drive.old ++ written at blocks.now) }
    ensures err { OnErr result (AddsPrefix (D.journal drive.old) at blocks.now (D.journal drive.new)) }
    ensures none { blocks.now ≡ [] → drive.new ≡ drive.old }
    ensures alone { (before : List (List ℕ)) (last : List ℕ) → blocks.now ≡ before ++ last ∷ [] → SendsAlone D.Drive at before last (is_err result) drive.old drive.new }
    ensures writes { WritesOnly D.Drive (is_err result) drive.old drive.new }
{
    if blocks.is_empty() {
        return Ok(());
    }
    // Unused: brings the range of a capacity into the proof.
    let _capacity = drive.capacity();
    let (before, last) = blocks.split_at(blocks.len() - 1);
    drive.write_run(at, before, &before[..0])?;
    drive.write(at + before.len() as u32, last)?;
    Ok(())
}

/// Takes blocks for consecutive addresses, and writes them in runs: first blocks that it borrows, and after them a
/// packet of those that it was given one by one. In contracts it is the blocks that wait, and the address of the first
/// of them.
#[derive(Drop)]
pub struct PacketWriter<'b> {
    lent: &'b [Block],
    packet: Vec<Block>,
    at: u32,
}

impl<'b> Model for PacketWriter<'b> {
    ghost Value = { Waiting };

    ghost view = { λ w. record { at = w.at; blocks = w.lent.now ++ w.packet.items } };

    ghost invariant = { λ w. (vec_len w.packet ≤ PACKET) × (PACKET ≤ vec_capacity w.packet) };
}

impl<'b> PacketWriter<'b> {
    /// A writer of blocks from this address on. No later call allocates memory.
    pub fn new(alloc: Global, at: u32) -> Result<PacketWriter<'b>, AllocError>
        ensures { IfOk result (λ w. w ≡ record { at = at; blocks = [] }) }
    {
        Ok(PacketWriter {
            lent: &[],
            packet: Vec::with_capacity(alloc, PACKET)?,
            at,
        })
    }

    /// How many blocks wait in the packet, from 0 to [`PACKET`].
    pub fn waiting(&self) -> usize
        ensures { result ≤ PACKET }
    {
        self.packet.len()
    }

    /// Takes a block, which waits. If a whole packet waits already, what waits is written first.
    pub fn put<D: Drive>(&mut self, drive: &mut D, block: &Block) -> Result<(), DriveFault>
        requires begins { self.old.at ≤ next_of (D.journal drive.old) }
        requires fits { next_address self.old < D.capacity drive.old }
        ensures ok { OnOk result (TakesBlocks D.Drive drive.old self.old (block.now ∷ []) drive.new self.new) }
        ensures waits { OnOk result (0 < length self.new.blocks) }
        ensures err { OnErr result (Stops D.Drive drive.old self.old [] drive.new) }
        ensures writes { WritesOnly D.Drive (is_err result) drive.old drive.new }
    {
        if self.packet.len() == PACKET {
            return self.put_first(drive, block);
        }
        let one = slice::from_ref(block);
        self.packet.extend_from_slice(one).unwrap();
        Ok(())
    }

    /// Writes what waits, and takes a block, which waits alone.
    fn put_first<D: Drive>(&mut self, drive: &mut D, block: &Block) -> Result<(), DriveFault>
        requires begins { self.old.at ≤ next_of (D.journal drive.old) }
        requires fits { next_address self.old < D.capacity drive.old }
        ensures ok { OnOk result (TakesBlocks D.Drive drive.old self.old (block.now ∷ []) drive.new self.new) }
        ensures waits { OnOk result (0 < length self.new.blocks) }
        ensures err { OnErr result (Stops D.Drive drive.old self.old [] drive.new) }
        ensures writes { WritesOnly D.Drive (is_err result) drive.old drive.new }
    {
        match self.finish(drive) {
            Ok(()) => {
                let alone = slice::from_ref(block);
                self.packet.extend_from_slice(alone).unwrap();
                Ok(())
            }
            Err(fault) => Err(fault),
        }
    }

    /// Takes the blocks one after another.
    pub fn put_all<D: Drive>(&mut self, drive: &mut D, blocks: &[Block]) -> Result<(), DriveFault>
        requires begins { self.old.at ≤ next_of (D.journal drive.old) }
        requires fits { next_address self.old + length blocks.now ≤ D.capacity drive.old }
        ensures ok { OnOk result (TakesBlocks D.Drive drive.old self.old blocks.now drive.new self.new) }
        ensures err { OnErr result (Stops D.Drive drive.old self.old blocks.now drive.new) }
        ensures writes { WritesOnly D.Drive (is_err result) drive.old drive.new }
    {
        for block in blocks {
            self.put(drive, block)?;
        }
        Ok(())
    }

    /// Borrows blocks, which wait without being copied. What waits before them is written first.
    pub fn lend<D: Drive>(&mut self, drive: &mut D, blocks: &'b [Block]) -> Result<(), DriveFault>
        requires begins { self.old.at ≤ next_of (D.journal drive.old) }
        requires fits { next_address self.old + length blocks.now ≤ D.capacity drive.old }
        ensures ok { OnOk result (TakesBlocks D.Drive drive.old self.old blocks.now drive.new self.new) }
        ensures err { OnErr result (Stops D.Drive drive.old self.old blocks.now drive.new) }
        ensures writes { WritesOnly D.Drive (is_err result) drive.old drive.new }
    {
        match self.finish(drive) {
            Ok(()) => {
                self.lent = blocks;
                Ok(())
            }
            Err(fault) => Err(fault),
        }
    }

    /// Writes the blocks that wait, as one run.
    pub fn finish<D: Drive>(&mut self, drive: &mut D) -> Result<(), DriveFault>
        requires begins { self.old.at ≤ next_of (D.journal drive.old) }
        requires fits { next_address self.old ≤ D.capacity drive.old }
        ensures ok { OnOk result (D.journal drive.new ≡ D.journal drive.old ++ written self.old.at self.old.blocks) }
        ensures empty { OnOk result (self.new ≡ record { at = next_address self.old; blocks = [] }) }
        ensures err { OnErr result (AddsPrefix (D.journal drive.old) self.old.at self.old.blocks (D.journal drive.new)) }
        ensures sends { Sends D.Drive self.old.at self.old.blocks (is_err result) drive.old drive.new }
        ensures writes { WritesOnly D.Drive (is_err result) drive.old drive.new }
    {
        // Unused: brings the range of a capacity into the proof.
        let _capacity = drive.capacity();
        if self.lent.is_empty() && self.packet.is_empty() {
            return Ok(());
        }
        match drive.write_run(self.at, self.lent, &self.packet) {
            Ok(()) => {
                self.at += (self.lent.len() + self.packet.len()) as u32;
                self.lent = &self.lent[..0];
                self.packet.clear();
                Ok(())
            }
            Err(fault) => Err(fault),
        }
    }

    /// Writes the one block that waits, in a write of its own.
    pub fn finish_alone<D: Drive>(&mut self, drive: &mut D) -> Result<(), DriveFault>
        requires one { length self.old.blocks ≡ 1 }
        requires begins { self.old.at ≤ next_of (D.journal drive.old) }
        requires fits { next_address self.old ≤ D.capacity drive.old }
        ensures ok { OnOk result (D.journal drive.new ≡ D.journal drive.old ++ written self.old.at self.old.blocks) }
        ensures empty { OnOk result (self.new ≡ record { at = next_address self.old; blocks = [] }) }
        ensures err { OnErr result (AddsPrefix (D.journal drive.old) self.old.at self.old.blocks (D.journal drive.new)) }
        ensures sent { D.writes drive.new ≡ D.writes drive.old ++ self.old.blocks ∷ [] }
        ensures writes { WritesOnly D.Drive (is_err result) drive.old drive.new }
    {
        // Unused: brings the range of a capacity into the proof.
        let _capacity = drive.capacity();
        match drive.write(self.at, self.one()) {
            Ok(()) => {
                self.at += 1;
                self.lent = &self.lent[..0];
                self.packet.clear();
                Ok(())
            }
            Err(fault) => Err(fault),
        }
    }

    /// The one block that waits.
    fn one(&self) -> &[Block]
        requires { length self.now.blocks ≡ 1 }
        ensures { result.now ≡ self.now.blocks }
    {
        if self.packet.is_empty() {
            self.lent
        } else {
            &self.packet
        }
    }
}
