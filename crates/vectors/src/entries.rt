//! File entries, descriptor blocks and file set descriptors (ECMA-167 4/14.9, 4/14.5 and 4/14.1).

ghost use Rattle.limits.specs.declared.TheConstants.{BLOCK_DESCRIPTORS, GREATEST_FILE, PARTITION_BLOCKS};
ghost use Rattle.std.specs.Prelude.{◌≡◌, ℕ, ◌*◌, ◌<◌, ◌≤◌, IfOk, length};
ghost use Rattle.icb.specs.Extents as icb;

use crate::compare::{NO_QUESTION, block_of, fault, words_of};
use crate::texts::tell_label;
use crate::trouble::Trouble;
use ecma::{Block, u32_at};
use icb::{
    FileEntry, Kind, Place, decode_descriptors, decode_fe, decode_fsd, encode_fe, encode_fsd,
    extent_count, extent_descriptor, extent_first, extent_size, listed, write_descriptors,
};
use limits::{BLOCK_DESCRIPTORS, GREATEST_FILE, PARTITION_BLOCKS};
use std::alloc::Global;
use std::fmt::Write;
use words::{number, show_bytes};

/// The least length of a descriptor that leads on, with its kind, 3, in the two highest bits (ECMA-167 4/14.14.1.1).
const LEADS_ON: u32 = 0xC000_0000;

/// The most descriptors of a descriptor block.
const ROOM: usize = BLOCK_DESCRIPTORS as usize;

/// The block number at which the extents begin that are put after those of a descriptor block.
const ANYWHERE: u32 = 7;

/// The block of these bytes, which must be no more than one.
fn only_block(bytes: &[u8]) -> Result<Block, Trouble> {
    if bytes.len() > 2048 {
        return Err(Trouble::Line("more than a block"));
    }
    Ok(block_of(bytes))
}

/// What the file entry at a location says.
pub fn entry(alloc: Global, bytes: &[u8], location: u32) -> Result<String, Trouble> {
    let block = only_block(bytes)?;
    let entry = match decode_fe(&block, location) {
        Ok(entry) => entry,
        Err(found) => return fault(alloc, found.number()),
    };
    if encode_fe(&entry, location) != block {
        return words_of(alloc, "written otherwise");
    }
    let mut text = String::new(alloc);
    tell_entry(&entry, &mut text)?;
    Ok(text)
}

fn tell_entry(entry: &FileEntry<'_>, out: &mut String) -> Result<(), Trouble> {
    let kind = match entry.kind {
        Kind::Directory => "directory",
        Kind::File => "file",
        Kind::Vat => "table",
    };
    let moment = entry.moment.moment();
    write!(
        out,
        "{kind} links {} unique {} moment {moment} size {} ",
        entry.links, entry.unique, entry.size
    )?;
    tell_place(&entry.place, out)
}

/// Where the data of a file entry are.
fn tell_place(place: &Place<'_>, out: &mut String) -> Result<(), Trouble> {
    match *place {
        Place::None => out.push_str("nowhere")?,
        Place::Extent(first) => write!(out, "extent {first}")?,
        Place::Extents(descriptors) => tell_extents(descriptors, out)?,
        Place::Inside(bytes) => {
            out.push_str("inside ")?;
            show_bytes(bytes, out)?;
        }
    }
    Ok(())
}

/// Where each of the extents begins, and the descriptor block to which a descriptor leads.
fn tell_extents(descriptors: &[u8], out: &mut String) -> Result<(), Trouble> {
    out.push_str("extents")?;
    for index in 0..descriptors.len() / 16 {
        if u32_at(descriptors, 16 * index) >= LEADS_ON {
            out.push_str(" next")?;
        }
        write!(out, " {}", extent_first(descriptors, index))?;
    }
    Ok(())
}

/// What the descriptor block at a block number says of the extents of so many bytes. The words are both numbers.
pub fn descriptors(alloc: Global, bytes: &[u8], words: &[&str]) -> Result<String, Trouble> {
    let [at, size] = words else {
        return Err(NO_QUESTION);
    };
    let (at, size) = (number(at)?, number(size)?);
    if size == 0 || size > GREATEST_FILE || at >= PARTITION_BLOCKS {
        return Err(Trouble::Line("no such descriptor block"));
    }
    descriptor_block(alloc, &only_block(bytes)?, at, size)
}

/// What a descriptor block says, which must also be written so.
fn descriptor_block(alloc: Global, block: &Block, at: u32, size: u32) -> Result<String, Trouble>
    requires some { 0 < size }
    requires limit { size ≤ GREATEST_FILE }
    requires number { at < PARTITION_BLOCKS }
{
    let list = match decode_descriptors(block, at, size) {
        Ok(list) => list,
        Err(found) => return fault(alloc, found.number()),
    };
    let mut again = [0xFF; 2048];
    write_descriptors(&with_others(alloc, list, size)?, size, at, &mut again);
    if again != *block {
        return words_of(alloc, "written otherwise");
    }
    let mut text = String::new(alloc);
    tell_extents(list, &mut text)?;
    Ok(text)
}

/// The descriptors of the extents of `size` bytes: those in this list, and in place of one that leads on those of extents
/// that begin anywhere.
fn with_others(alloc: Global, list: &[u8], size: u32) -> Result<Vec<u8>, Trouble>
    requires some { 0 < size }
    requires limit { size ≤ GREATEST_FILE }
    requires long { length list.now ≡ 16 * icb.slots BLOCK_DESCRIPTORS size }
    requires are { (next : ℕ) × icb.AreDescriptors BLOCK_DESCRIPTORS 0 size next list.now }
    ensures long { IfOk result (λ all. length all.items ≡ 16 * icb.extent_count size) }
    ensures are { IfOk result (λ all. icb.AreExtents 0 size all.items) }
{
    let here = listed(ROOM, size);
    let mut all = list[..16 * here].to_vec(alloc)?;
    for index in here..extent_count(size) {
        all.extend_from_slice(&extent_descriptor(extent_size(size, index), ANYWHERE))?;
    }
    Ok(all)
}

/// What the file set descriptor says.
pub fn file_set(alloc: Global, bytes: &[u8]) -> Result<String, Trouble> {
    let block = only_block(bytes)?;
    let set = match decode_fsd(&block) {
        Ok(set) => set,
        Err(found) => return fault(alloc, found.number()),
    };
    if encode_fsd(&set) != block {
        return words_of(alloc, "written otherwise");
    }
    let mut text = String::new(alloc);
    tell_label(alloc, &set.label, &mut text)?;
    write!(text, " moment {}", set.moment.moment())?;
    Ok(text)
}
