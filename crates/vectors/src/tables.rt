//! Virtual allocation tables (UDF 2.01 2.2.10), and clear starts.

use crate::compare::{block_of, fault, words_of};
use crate::texts::tell_label;
use crate::trouble::Trouble;
use limits::{FILE_BYTES, PARTITION_BLOCKS};
use std::alloc::Global;
use std::fmt::Write;
use vat::{Record, Vat, Version, clear_start, decode_vat, encode_vat, is_vat_icb};

/// What the table says whose VAT ICB is at a block number.
pub fn table(alloc: Global, bytes: &[u8], icb: u32) -> Result<String, Trouble> {
    let vat = match decode_vat(alloc, bytes, icb) {
        Ok(vat) => vat,
        Err(found) => return fault(alloc, found.number()),
    };
    if encode_vat(alloc, &vat)?.as_slice() != bytes {
        return words_of(alloc, "written otherwise");
    }
    let mut text = String::new(alloc);
    tell_table(alloc, &vat, &mut text)?;
    Ok(text)
}

/// What a table says, in words.
pub fn tell_table(alloc: Global, vat: &Vat, out: &mut String) -> Result<(), Trouble> {
    tell_label(alloc, &vat.label, out)?;
    tell_head(vat, out)?;
    for record in &vat.sessions.records {
        tell_record(record, out)?;
    }
    tell_entries(&vat.entries, out)
}

fn tell_head(vat: &Vat, out: &mut String) -> Result<(), Trouble> {
    match vat.previous {
        Some(number) => write!(out, " previous {number}")?,
        None => out.push_str(" previous none")?,
    }
    let version = match vat.sessions.version {
        Version::One => 1,
        Version::Two => 2,
    };
    write!(
        out,
        " files {} directories {} version {version} next-unique {} commits {}",
        vat.files, vat.directories, vat.sessions.next_unique, vat.sessions.commits
    )?;
    Ok(())
}

fn tell_record(record: &Record, out: &mut String) -> Result<(), Trouble> {
    write!(
        out,
        " client {} latest {} replies",
        record.client, record.latest
    )?;
    for reply in record.replies.as_slice() {
        write!(out, " {}:{}", reply.code, reply.commit)?;
    }
    Ok(())
}

/// The entries. Eight or more unused ones in a row are shown as a run.
fn tell_entries(entries: &[Option<u32>], out: &mut String) -> Result<(), Trouble> {
    out.push_str(" entries")?;
    let mut unused = 0usize;
    for entry in entries {
        match entry {
            Some(number) => {
                tell_unused(unused, out)?;
                unused = 0;
                write!(out, " {number}")?;
            }
            None => unused = unused.saturating_add(1),
        }
    }
    tell_unused(unused, out)
}

fn tell_unused(count: usize, out: &mut String) -> Result<(), Trouble> {
    if count >= 8 {
        write!(out, " none*{count}")?;
        return Ok(());
    }
    for _ in 0..count {
        out.push_str(" none")?;
    }
    Ok(())
}

/// Whether a VAT ICB is at a block number.
pub fn is_entry(alloc: Global, bytes: &[u8], number: u32) -> Result<String, Trouble> {
    let answer = if is_vat_icb(&block_of(bytes), number) {
        "yes"
    } else {
        "no"
    };
    words_of(alloc, answer)
}

/// The least block number from `from` on at which none of the blocks would be a VAT ICB.
pub fn start(alloc: Global, bytes: &[u8], from: u32) -> Result<String, Trouble> {
    if bytes.len() > FILE_BYTES || from > PARTITION_BLOCKS {
        return Err(Trouble::Line("no file is so long"));
    }
    Ok(format!(in alloc; "{}", clear_start(bytes, from))?)
}
