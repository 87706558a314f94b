//! Where a file ends, for bytes that are appended to it.

ghost use Rattle.limits.specs.declared.TheConstants.{BLOCK_BYTES, FILE_BYTES, PARTITION_START, GREATEST_FILE};
ghost use Rattle.std.specs.Prelude.{◌≡◌, ◌+◌, ◌*◌, ◌%◌, ◌<◌, ◌≤◌, ◌↔◌, List, ℕ, IsTrue, IfOk, IfErr, IfSome, None, is_ok, length, false};
ghost use Rattle.std.specs.Int.{div_ceil};
ghost use Rattle.drive.specs.Journal.{Once};
ghost use Rattle.icb.specs.Extents.{AreExtents, extent_count};
ghost use Rattle.model.specs.Graph.{is_directory};
ghost use Rattle.model.specs.Graph.Body.{Bytes};
ghost use Rattle.recover.specs.Faults.{IsShortage, devices};
ghost use Rattle.recover.specs.Walk.{last_of};
ghost use Rattle.udf.specs.Udf.{all_firsts};
ghost use Rattle.lookup.specs.Ends.{EndsAsStored, EndsFile, KnowsExtents};
ghost use Rattle.lookup.specs.Lookups.{Looks, OfNode, below_seen};

use crate::extents::FullExtents;
use crate::lookup::Lookup;
use drive::Drive;
use icb::{decode_fe, entry_descriptors};
use limits::FILE_BYTES;
use recover::{StoreFault, cause, damaged, last_extent, lies_below};

/// Where a file ends: how many bytes it has, and its extents if the bytes fill them.
#[derive(Drop)]
pub struct FileEnd {
    pub size: u32,
    pub extents: FullExtents,
}

impl<D: Drive> Lookup<'_, '_, D> {
    /// Where the file at a virtual address ends. No byte of it is read. If one of its extents does not end below the VAT
    /// ICB, this is damage at the entry, with the cause `RANGE`.
    pub fn file_end(&mut self, address: u32) -> Result<FileEnd, StoreFault>
        ensures read { Once (D.journal self.old.drive.now) → OfNode D.Drive self.old self.new address (λ s. is_directory s ≡ false → IfOk result (λ end. (whole : List ℕ) → s.body ≡ Bytes whole → EndsFile (below_seen D.Drive self.old) whole end)) }
        ensures placed { IsTrue (D.honest self.new.drive.now) → IfOk result (EndsAsStored (below_seen D.Drive self.old) self.old.nodes.numbers.now address) }
        ensures short { OfNode D.Drive self.old self.new address (λ s. is_directory s ≡ false → IfErr result IsShortage) }
        ensures extents { IfOk result KnowsExtents }
        ensures looks { Looks D.Drive (devices result) self.old self.new }
    {
        let (block, at) = self.entry_block(address)?;
        let entry = match decode_fe(&block, address) {
            Ok(entry) => entry,
            Err(fault) => return Err(damaged(at, fault.number())),
        };
        let size = entry.size;
        if !fills_extents(size) {
            return Ok(FileEnd {
                size,
                extents: FullExtents::none(self.alloc),
            });
        }
        let all = self.all_descriptors(at, entry_descriptors(&block, size), size)?;
        self.end_in_extents(at, size, all)
    }

    /// The end of a file of so many bytes, which fill the extents of these descriptors. If one of these does not end below
    /// the VAT ICB, this is damage at the entry at `at`, with the cause `RANGE`.
    fn end_in_extents(
        &self,
        at: u32,
        size: u32,
        descriptors: Vec<u8>,
    ) -> Result<FileEnd, StoreFault>
        requires limit { size ≤ GREATEST_FILE }
        requires full { size % FILE_BYTES ≡ 0 }
        requires long { length descriptors.items ≡ 16 * extent_count size }
        requires are { AreExtents 0 size descriptors.items }
        ensures size { IfOk result (λ end. end.size ≡ size) }
        ensures extents { IfOk result (λ end. end.extents ≡ descriptors.items) }
        ensures below { IfSome (last_of None size (all_firsts descriptors.items)) (λ e. e.first + PARTITION_START + div_ceil e.size BLOCK_BYTES ≤ self.now.nodes.vat_icb_address) → IsTrue (is_ok result) }
        ensures device { devices result ≡ 0 }
    {
        if let Some(last) = last_extent(None, size, descriptors.as_slice()) {
            if !lies_below(last.first, last.size, self.nodes.vat_icb_address) {
                return Err(damaged(at, cause::RANGE));
            }
        }
        Ok(FileEnd {
            size,
            extents: FullExtents::new(descriptors),
        })
    }
}

/// Whether there are so many bytes that they fill extents.
fn fills_extents(size: u32) -> bool
    ensures { IsTrue result ↔ ((0 < size) × (size % FILE_BYTES ≡ 0)) }
{
    size > 0 && size % FILE_BYTES as u32 == 0
}
