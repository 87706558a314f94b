//! Reading tables.

ghost use Rattle.limits.specs.declared.TheConstants.{TABLE_HEAD_BYTES};
ghost use Rattle.std.specs.Prelude.{◌≡◌, ◌≤◌, ◌+◌, ◌*◌, ◌/◌, ◌⊎◌, ℕ, IfErr, IfOk, OnOk, MatchResult, length, map};
ghost use Rattle.ecma.specs.FirstFault.{IsFirst, AllHold};
ghost use Rattle.ecma.specs.Numbers as numbers;
ghost use Rattle.vat.specs.Entry.{number_entry, words};
ghost use Rattle.vat.specs.Table.{Table, IsTableAt, view};
ghost use Rattle.vat.specs.Rules as rule;
ghost use Rattle.vat.specs.Rules.{table_rules, HasLabel, HasRecords, DescribesTable, SaysRecords};

use crate::encode::UNUSED;
use crate::fault::VatFault;
use crate::offsets::{COMMITS, DIRECTORIES, FILES, NEXT_UNIQUE, PREVIOUS};
use crate::record::Record;
use crate::rules::{
    entry_text, has_clients, has_counts, has_entries, has_header, has_label, has_records,
    has_revisions, label_field, read_record, record_count, record_text, version,
};
use crate::table::{Sessions, Vat};
use ecma::u32_at;
use osta::Label;
use std::alloc::{AllocError, Global};

/// The table that the bytes encode, whose VAT ICB has block number `icb`, or the first fault.
pub fn decode_vat(alloc: Global, bytes: &[u8], icb: u32) -> Result<Vat, VatFault>
    // What is read is the table of these bytes.
    ensures found { IfOk result (λ vat. IsTableAt icb (view vat) bytes.now) }
    // A table is read if there is memory for it.
    ensures only { (t : Table) → IsTableAt icb t bytes.now → MatchResult result (λ vat. view vat ≡ t) (λ e. e ≡ VatFault.Memory) }
    // A fault is the first one. Lack of memory is reported only if there is no fault.
    ensures fault { IfErr result (λ e. IsFirst (table_rules icb bytes.now) e ⊎ ((e ≡ VatFault.Memory) × AllHold (table_rules icb bytes.now))) }
{
    examine(bytes, icb)?;
    Ok(read(alloc, bytes)?)
}

/// The rules of a table, one after another.
fn examine(bytes: &[u8], icb: u32) -> Result<(), VatFault>
    ensures rules { OnOk result (AllHold (table_rules icb bytes.now)) }
    ensures fault { IfErr result (IsFirst (table_rules icb bytes.now)) }
{
    if !has_header(bytes, icb) {
        return Err(VatFault::Header);
    }
    if !has_label(bytes) {
        return Err(VatFault::Label);
    }
    if !has_revisions(bytes) {
        return Err(VatFault::Version);
    }
    if !has_records(bytes) {
        return Err(VatFault::Record);
    }
    if !has_clients(bytes) {
        return Err(VatFault::ClientTwice);
    }
    if !has_entries(bytes, icb) {
        return Err(VatFault::Entry);
    }
    if !has_counts(bytes) {
        return Err(VatFault::Count);
    }
    Ok(())
}

/// The table, from bytes that keep the rules.
fn read(alloc: Global, bytes: &[u8]) -> Result<Vat, AllocError>
    requires long { TABLE_HEAD_BYTES ≤ length bytes.now }
    requires header { numbers.u16_at 0 bytes.now ≤ length bytes.now }
    requires whole { TABLE_HEAD_BYTES + rule.record_size_at bytes.now * rule.count_at bytes.now ≤ length bytes.now }
    requires label { HasLabel bytes.now }
    requires kept { HasRecords bytes.now }
    ensures { IfOk result (λ vat. DescribesTable (view vat) bytes.now) }
{
    let label = Label::of(label_field(bytes)).unwrap();
    let records = read_records(alloc, bytes)?;
    let entries = read_entries(alloc, entry_text(bytes))?;
    Ok(Vat {
        label,
        previous: entry(u32_at(bytes, PREVIOUS)),
        files: u32_at(bytes, FILES),
        directories: u32_at(bytes, DIRECTORIES),
        sessions: Sessions {
            version: version(bytes),
            next_unique: u32_at(bytes, NEXT_UNIQUE),
            commits: u32_at(bytes, COMMITS),
            records,
        },
        entries,
    })
}

/// The block number that a number of a table stands for. `None` for an unused one.
fn entry(number: u32) -> Option<u32>
    ensures { result ≡ number_entry number }
{
    if number == UNUSED { None } else { Some(number) }
}

/// The records of the clients.
fn read_records(alloc: Global, bytes: &[u8]) -> Result<Vec<Record>, AllocError>
    requires long { TABLE_HEAD_BYTES ≤ length bytes.now }
    requires whole { TABLE_HEAD_BYTES + rule.record_size_at bytes.now * rule.count_at bytes.now ≤ length bytes.now }
    requires kept { HasRecords bytes.now }
    ensures { IfOk result (λ records. SaysRecords records.items bytes.now) }
{
    let version = version(bytes);
    let commits = u32_at(bytes, COMMITS);
    let count = record_count(bytes);
    let mut records = Vec::with_capacity(alloc, count)?;
    for i in 0..count {
        let record = read_record(version, commits, record_text(bytes, i)).unwrap();
        records.push(record)?;
    }
    Ok(records)
}

/// The block number of each virtual address.
fn read_entries(alloc: Global, text: &[u8]) -> Result<Vec<Option<u32>>, AllocError>
    ensures { IfOk result (λ entries. entries.items ≡ map number_entry (words text.now)) }
{
    let mut entries = Vec::from_elem(alloc, None, text.len() / 4)?;
    fill_entries(&mut entries, text);
    Ok(entries)
}

/// Writes the block numbers over `entries`.
fn fill_entries(entries: &mut [Option<u32>], text: &[u8])
    requires { length entries.old ≡ length text.now / 4 }
    ensures { entries.new ≡ map number_entry (words text.now) }
{
    for i in 0..entries.len() {
        entries[i] = entry(u32_at(text, 4 * i));
    }
}
