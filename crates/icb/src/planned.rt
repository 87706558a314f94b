//! A file entry before it is written.

ghost use Rattle.std.specs.Prelude.{◌≡◌, ◌<◌, ℕ, slice_index};
ghost use Rattle.icb.specs.Entry.{inside, place_of};

use crate::encode::{BYTES_INSIDE, LONG_DESCRIPTORS, extent, write_entry};
use crate::entry::{FileEntry, Place};
use crate::extents::last_size;
use ecma::Block;
use limits::BLOCK_BYTES;
use std::marker::Model;

/// A file entry that is encoded when it is written: its fields, and its location. Contracts see it as its block.
#[derive(Debug, Drop)]
pub struct PlannedEntry<'a> {
    entry: FileEntry<'a>,
    /// Where one more extent begins, after those of the descriptors in the entry.
    last: Option<u32>,
    /// The timestamp of the entry's moment.
    stamp: [u8; 12],
    /// The virtual address of a node, or the block number of a VAT ICB.
    location: u32,
}

impl<'a> Model for PlannedEntry<'a> {
    ghost use Rattle.std.specs.Prelude.{ℕ, List};

    ghost Value = { List ℕ };

    ghost use Rattle.icb.specs.Planned.{planned_block, IsEncodable};

    ghost view = { planned_block };

    ghost invariant = { IsEncodable };
}

impl<'a> PlannedEntry<'a> {
    ghost use Rattle.std.specs.Prelude.{None, Some};
    ghost use Rattle.icb.specs.Entry.{FitsEntry, IsEntry, fields_of};
    ghost use Rattle.icb.specs.Planned.{extended};

    /// The entry at a location: the virtual address of a node, or the block number of a VAT ICB.
    pub fn new(entry: &FileEntry<'a>, location: u32) -> PlannedEntry<'a>
        requires { FitsEntry (fields_of entry.now) }
        ensures { IsEntry (fields_of entry.now) location result }
    {
        PlannedEntry::with_last(entry, None, location)
    }

    /// The entry of a file with one more extent, which begins at block number `first`. The entry that is given says how
    /// many bytes the file has with it, and has the descriptors of the extents before it in [`Place::Extents`].
    pub fn with_extent(entry: &FileEntry<'a>, first: u32, location: u32) -> PlannedEntry<'a>
        requires { FitsEntry (extended (fields_of entry.now) (Some first)) }
        ensures { IsEntry (extended (fields_of entry.now) (Some first)) location result }
    {
        PlannedEntry::with_last(entry, Some(first), location)
    }

    fn with_last(entry: &FileEntry<'a>, last: Option<u32>, location: u32) -> PlannedEntry<'a>
        requires { FitsEntry (extended (fields_of entry.now) last) }
        ensures { IsEntry (extended (fields_of entry.now) last) location result }
    {
        let stamp = entry.moment.to_bytes();
        // Unused: it gives the proof that these are bytes.
        let _inside = bytes_inside(&entry.place);
        // Copied field by field, since no proof covers copying the whole through a reference.
        let entry = FileEntry {
            kind: entry.kind,
            moment: entry.moment,
            links: entry.links,
            unique: entry.unique,
            size: entry.size,
            place: entry.place,
        };
        PlannedEntry {
            entry,
            last,
            stamp,
            location,
        }
    }
}

impl PlannedEntry<'_> {
    ghost use Rattle.std.specs.Prelude.{◌≡◌};

    /// Writes the entry over the whole block.
    pub fn write(&self, block: &mut Block)
        ensures { block.new ≡ self.now }
    {
        let entry = &self.entry;
        let loc = self.location;
        let stamp = &self.stamp;
        match entry.place {
            Place::None => write_entry(entry, loc, LONG_DESCRIPTORS, 0, stamp, &[], &[], block),
            Place::Extent(first) => {
                let blocks = u64::from(entry.size).div_ceil(BLOCK_BYTES as u64);
                let extent = extent(entry.size, first).to_bytes();
                write_entry(
                    entry,
                    loc,
                    LONG_DESCRIPTORS,
                    blocks,
                    stamp,
                    &[],
                    &extent,
                    block,
                )
            }
            Place::Extents(descriptors) => {
                let blocks = u64::from(entry.size).div_ceil(BLOCK_BYTES as u64);
                match self.last {
                    None => write_entry(
                        entry,
                        loc,
                        LONG_DESCRIPTORS,
                        blocks,
                        stamp,
                        &[],
                        descriptors,
                        block,
                    ),
                    Some(first) => {
                        let last = extent(last_size(entry.size), first).to_bytes();
                        write_entry(
                            entry,
                            loc,
                            LONG_DESCRIPTORS,
                            blocks,
                            stamp,
                            descriptors,
                            &last,
                            block,
                        )
                    }
                }
            }
            Place::Inside(bytes) => {
                write_entry(entry, loc, BYTES_INSIDE, 0, stamp, &[], bytes, block)
            }
        }
    }
}

/// The bytes that an entry borrows: its extents' descriptors, or the file's bytes.
fn bytes_inside<'a>(place: &Place<'a>) -> &'a [u8]
    ensures value { result.now ≡ inside (place_of place.now) }
    ensures bytes { (i : ℕ) → slice_index result.now i < 256 }
{
    match place {
        Place::None | Place::Extent(_) => &[],
        Place::Extents(bytes) | Place::Inside(bytes) => each_below_256(bytes),
    }
}

/// The same bytes. The proof knows that the items of a borrowed slice are bytes, but not those of a slice in a field.
fn each_below_256(bytes: &[u8]) -> &[u8]
    ensures value { result.now ≡ bytes.now }
    ensures bytes { (i : ℕ) → slice_index result.now i < 256 }
{
    bytes
}
