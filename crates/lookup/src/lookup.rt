//! A look-up, and the entries that it reads.

ghost use Rattle.std.specs.Prelude.{◌≤◌};
ghost use Rattle.std.proofs.Props.{props};
ghost use Rattle.drive.specs.Journal.{next_of};
ghost use Rattle.recover.specs.Below.{AreBelow};

use crate::cache::DirectoryCache;
use crate::nodes::{EntryAt, Nodes, Placed};
use drive::Drive;
use ecma::Block;
use icb::{Place, decode_fe};
use limits::PARTITION_START;
use recover::{Extent, StoreFault, cause, damaged, lies_below, read_block};
use std::alloc::Global;

/// A look-up in the nodes of a state. It borrows the drive that they are on, and the directories that were used last.
#[derive(Drop)]
pub struct Lookup<'s, 'n, D: Drive> {
    pub(crate) alloc: Global,
    pub(crate) drive: &'s mut D,
    pub(crate) cache: &'s mut DirectoryCache,
    pub(crate) nodes: Nodes<'n>,
    ghost below: { AreBelow nodes.vat_icb_address nodes.numbers.now } by { Prim.hlevel props },
    ghost within: { nodes.vat_icb_address ≤ next_of (D.journal drive.now) },
}

impl<'s, 'n, D: Drive> Lookup<'s, 'n, D> {
    ghost use Rattle.std.specs.Prelude.{◌≡◌, ◌≢◌, ◌≤◌, ℕ, IfOk, IfErr, Some, slice_get, true};
    ghost use Rattle.drive.specs.Journal.{next_of};
    ghost use Rattle.model.specs.Graph.{Stored, is_directory};
    ghost use Rattle.recover.specs.Faults.{devices, device_failures};
    ghost use Rattle.recover.specs.declared.cause.TheConstants.{IDENTITY};
    ghost use Rattle.recover.specs.declared.fault.StoreFault.TheVariants.{Damaged, Device};
    ghost use Rattle.recover.specs.Below.{AreBelow};
    ghost use Rattle.lookup.specs.Entries.{IsBlockThere, IsEntryBlock, IsPlacedThere};
    ghost use Rattle.lookup.specs.Lookups.{Looks, OfNode, free_seen, graph_seen};

    /// A look-up in these nodes.
    pub fn new(
        alloc: Global,
        drive: &'s mut D,
        cache: &'s mut DirectoryCache,
        nodes: Nodes<'n>,
    ) -> Lookup<'s, 'n, D>
        requires below { AreBelow nodes.vat_icb_address nodes.numbers.now }
        requires within { nodes.vat_icb_address ≤ next_of (D.journal drive.old) }
        ensures same_drive { result.drive.ghost_name ≡ drive.entry.ghost_name }
        ensures same_cache { result.cache.ghost_name ≡ cache.entry.ghost_name }
        ensures drive { result.drive.now ≡ drive.old }
        ensures cache { result.cache.now ≡ cache.old }
        ensures nodes { result.nodes ≡ nodes.entry }
    {
        Lookup {
            alloc,
            drive,
            cache,
            nodes,
        }
    }

    /// The allocator.
    pub fn alloc(&self) -> Global {
        self.alloc
    }

    /// The least unused virtual address from 2 on. If all are used, the one after the last.
    pub fn free_address(&self) -> u32
        ensures { result ≡ free_seen self.now }
    {
        self.nodes.free_address()
    }

    /// The fault if the table does not lead to what was looked for: damage at the VAT ICB, with the cause `IDENTITY`.
    pub fn damaged(&self) -> StoreFault
        ensures reported { result ≡ Damaged self.now.nodes.vat_icb_address IDENTITY }
        ensures failures { device_failures result ≡ 0 }
    {
        damaged(self.nodes.vat_icb_address, cause::IDENTITY)
    }

    /// Where the entry of a node is. If the table has no block number for its virtual address, this is damage at the
    /// VAT ICB, with the cause `RANGE`.
    pub(crate) fn entry_at(&self, address: u32) -> Result<EntryAt, StoreFault>
        ensures address { IfOk result (λ at. at.address ≡ address) }
        ensures used { IfOk result (λ at. slice_get self.now.nodes.numbers.now at.address ≡ Some (Some at.number)) }
        ensures unused { IfErr result (λ fault. (number : ℕ) → slice_get self.now.nodes.numbers.now address ≢ Some (Some number)) }
        ensures device { devices result ≡ 0 }
    {
        let index = address as usize;
        if index >= self.nodes.numbers.len() {
            return Err(damaged(self.nodes.vat_icb_address, cause::RANGE));
        }
        let Some(number) = self.nodes.numbers[index] else {
            return Err(damaged(self.nodes.vat_icb_address, cause::RANGE));
        };
        Ok(EntryAt { number, address })
    }

    /// Reads the block of the entry at this place. Returns the block, and its address.
    fn block_at(&mut self, at: EntryAt) -> Result<(Block, u32), StoreFault>
        requires used { slice_get self.old.nodes.numbers.now at.address ≡ Some (Some at.number) }
        ensures read { IfOk result (IsBlockThere D.Drive self.old self.new at.number) }
        ensures refused { IfErr result (λ fault. fault ≡ Device) }
        ensures looks { Looks D.Drive (devices result) self.old self.new }
    {
        // Unused: it gives the proof the range of the address of the VAT ICB.
        let _table = self.nodes.vat_icb_address;
        let number = at.number + PARTITION_START;
        Ok((read_block(self.drive, number)?, number))
    }

    /// Reads the block of a node's entry. Returns the block, and its address.
    pub(crate) fn entry_block(&mut self, address: u32) -> Result<(Block, u32), StoreFault>
        ensures block { IfOk result (IsEntryBlock D.Drive self.old self.new address) }
        ensures refused { IfErr result (λ fault. (s : Stored) → graph_seen D.Drive self.old address s → fault ≡ Device) }
        ensures looks { Looks D.Drive (devices result) self.old self.new }
    {
        let at = self.entry_at(address)?;
        self.block_at(at)
    }

    /// What the entry of the directory at this place says. If its data are not in an extent below the VAT ICB, this is
    /// damage at the entry, with the cause `RANGE`.
    pub(crate) fn directory(&mut self, at: EntryAt) -> Result<Placed, StoreFault>
        requires used { slice_get self.old.nodes.numbers.now at.address ≡ Some (Some at.number) }
        ensures placed { IfOk result (IsPlacedThere D.Drive self.old self.new at) }
        ensures refused { IfErr result (λ fault. OfNode D.Drive self.old self.new at.address (λ s. is_directory s ≡ true → fault ≡ Device)) }
        ensures looks { Looks D.Drive (devices result) self.old self.new }
    {
        let (block, number) = self.block_at(at)?;
        let entry = match decode_fe(&block, at.address) {
            Ok(entry) => entry,
            Err(fault) => return Err(damaged(number, fault.number())),
        };
        let Place::Extent(first) = entry.place else {
            return Err(damaged(number, cause::RANGE));
        };
        if !lies_below(first, entry.size, self.nodes.vat_icb_address) {
            return Err(damaged(number, cause::RANGE));
        }
        Ok(Placed {
            at,
            extent: Extent {
                first,
                size: entry.size,
            },
            moment: entry.moment,
        })
    }
}
