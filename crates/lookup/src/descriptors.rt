//! The allocation descriptors of a file that has several extents: those in its entry, and in its descriptor blocks.

ghost use Rattle.limits.specs.declared.TheConstants.{ENTRY_DESCRIPTORS, FILE_BYTES, GREATEST_FILE, PARTITION_BLOCKS, PARTITION_START};
ghost use Rattle.std.specs.Prelude.{◌≡◌, ◌*◌, ◌+◌, ◌<◌, ◌≤◌, IfErr, IfOk, IsTrue, OnOk, Some, length, slice_get};
ghost use Rattle.durability.specs.Volume.{AreListed, descriptors_at, firsts_at};
ghost use Rattle.icb.specs.Extents.{AreEntryDescriptors, AreExtents, extent_count, slots};
ghost use Rattle.icb.specs.Extents as icb;
ghost use Rattle.recover.specs.Faults.{IsShortage, devices};
ghost use Rattle.recover.specs.declared.cause.TheConstants.{RANGE};
ghost use Rattle.recover.specs.declared.fault.StoreFault.TheVariants.{Damaged};
ghost use Rattle.udf.specs.Udf.{udf};
ghost use Rattle.lookup.specs.Descriptors.{AddsDescriptors, HasDescriptorBlock};
ghost use Rattle.lookup.specs.Lookups.{Answers, Looks, below_seen};

use crate::lookup::Lookup;
use drive::Drive;
use icb::{decode_descriptors, descriptor_blocks, extent_first, listed, next_number};
use limits::{BLOCK_BYTES, BLOCK_DESCRIPTORS, ENTRY_DESCRIPTORS, PARTITION_START};
use recover::{StoreFault, bytes_from_block, cause, damaged, lies_below, read_block};

/// How many extents a descriptor block describes that another follows.
const BLOCK_EXTENTS: u32 = BLOCK_DESCRIPTORS - 1;

impl<D: Drive> Lookup<'_, '_, D> {
    /// The block number at which extent number `index` of a file of this size begins. `descriptors` are those in its
    /// entry, which is at `at`. If the descriptor blocks do not end below the VAT ICB, this is damage at the entry, with
    /// the cause `RANGE`.
    pub(crate) fn extent_start(
        &mut self,
        at: u32,
        descriptors: &[u8],
        size: u32,
        index: usize,
    ) -> Result<u32, StoreFault>
        requires there { FILE_BYTES * index < size }
        requires limit { size ≤ GREATEST_FILE }
        requires long { length descriptors.now ≡ 16 * slots ENTRY_DESCRIPTORS size }
        requires are { AreEntryDescriptors 0 size descriptors.now }
        ensures read { IsTrue (D.honest self.new.drive.now) → AreListed udf (below_seen D.Drive self.old) size descriptors.now → Answers result (λ first. slice_get (firsts_at udf (below_seen D.Drive self.old) size descriptors.now) index ≡ Some first) }
        ensures looks { Looks D.Drive (devices result) self.old self.new }
    {
        let here = listed(ENTRY_DESCRIPTORS as usize, size);
        if index < here {
            return Ok(extent_first(descriptors, index));
        }
        let first = self.descriptors_start(at, descriptors, size)?;
        let beyond = (index - here) as u32;
        let number = (beyond / BLOCK_EXTENTS).min(descriptor_blocks(size) - 1);
        let block = read_block(self.drive, first + number + PARTITION_START)?;
        match decode_descriptors(&block, first + number, bytes_from_block(size, number)) {
            Ok(list) => Ok(extent_first(list, (beyond - BLOCK_EXTENTS * number) as usize)),
            Err(fault) => Err(damaged(first + number + PARTITION_START, fault.number())),
        }
    }

    /// The descriptors of all extents of a file of this size. `descriptors` are those in its entry, which is at `at`. If
    /// the descriptor blocks do not end below the VAT ICB, this is damage at the entry, with the cause `RANGE`.
    pub(crate) fn all_descriptors(
        &mut self,
        at: u32,
        descriptors: &[u8],
        size: u32,
    ) -> Result<Vec<u8>, StoreFault>
        requires some { FILE_BYTES ≤ size }
        requires limit { size ≤ GREATEST_FILE }
        requires long { length descriptors.now ≡ 16 * slots ENTRY_DESCRIPTORS size }
        requires are { AreEntryDescriptors 0 size descriptors.now }
        ensures long { IfOk result (λ all. length all.items ≡ 16 * extent_count size) }
        ensures are { IfOk result (λ all. AreExtents 0 size all.items) }
        ensures listed { IsTrue (D.honest self.new.drive.now) → IfOk result (λ all. all.items ≡ icb.all_descriptors descriptors.now (descriptors_at udf (below_seen D.Drive self.old) size descriptors.now)) }
        ensures short { IsTrue (D.honest self.new.drive.now) → AreListed udf (below_seen D.Drive self.old) size descriptors.now → IfErr result IsShortage }
        ensures looks { Looks D.Drive (devices result) self.old self.new }
    {
        let count = descriptor_blocks(size);
        if count == 0 {
            return Ok(descriptors.to_vec(self.alloc)?);
        }
        let first = self.descriptors_start(at, descriptors, size)?;
        let mut all = descriptors[..16 * (ENTRY_DESCRIPTORS as usize - 1)].to_vec(self.alloc)?;
        for number in 0..count {
            self.add_descriptors(first + number, bytes_from_block(size, number), &mut all)?;
        }
        Ok(all)
    }

    /// The block number of the first descriptor block of a file of this size, which has some. If they do not end below the
    /// VAT ICB, this is damage at the entry at `at`, with the cause `RANGE`.
    fn descriptors_start(&self, at: u32, descriptors: &[u8], size: u32) -> Result<u32, StoreFault>
        requires some { 0 < icb.descriptor_blocks size }
        requires limit { size ≤ GREATEST_FILE }
        requires long { length descriptors.now ≡ 16 * slots ENTRY_DESCRIPTORS size }
        requires are { AreEntryDescriptors 0 size descriptors.now }
        ensures first { IfOk result (λ first. first ≡ icb.next_number descriptors.now) }
        ensures below { IfOk result (λ first. first + PARTITION_START + icb.descriptor_blocks size ≤ self.now.nodes.vat_icb_address) }
        ensures fits { IfOk result (λ first. first + icb.descriptor_blocks size ≤ PARTITION_BLOCKS) }
        ensures fault { IfErr result (λ fault. fault ≡ Damaged at RANGE) }
        ensures refused { IfErr result (λ fault. icb.next_number descriptors.now + PARTITION_START + icb.descriptor_blocks size ≤ self.now.nodes.vat_icb_address → ⊥) }
    {
        let first = next_number(descriptors);
        let bytes = descriptor_blocks(size) * BLOCK_BYTES;
        if !lies_below(first, bytes, self.nodes.vat_icb_address) {
            return Err(damaged(at, cause::RANGE));
        }
        Ok(first)
    }

    /// Adds the descriptors of extents in the descriptor block at this block number, the first of the extents of `size`
    /// bytes.
    fn add_descriptors(
        &mut self,
        number: u32,
        size: u32,
        all: &mut Vec<u8>,
    ) -> Result<(), StoreFault>
        requires some { 0 < size }
        requires limit { size ≤ GREATEST_FILE }
        requires number { number < PARTITION_BLOCKS }
        requires below { number + PARTITION_START < self.old.nodes.vat_icb_address }
        ensures added { OnOk result (AddsDescriptors D.Drive self.old self.new number size all.old.items all.new.items) }
        ensures refused { IsTrue (D.honest self.new.drive.now) → HasDescriptorBlock (below_seen D.Drive self.old) number size → IfErr result IsShortage }
        ensures looks { Looks D.Drive (devices result) self.old self.new }
    {
        let block = read_block(self.drive, number + PARTITION_START)?;
        match decode_descriptors(&block, number, size) {
            Ok(list) => {
                let count = listed(BLOCK_DESCRIPTORS as usize, size);
                all.extend_from_slice(&list[..16 * count])?;
                Ok(())
            }
            Err(fault) => Err(damaged(number + PARTITION_START, fault.number())),
        }
    }
}
