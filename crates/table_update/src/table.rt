//! The table that a commit writes: the one before, with the reply and the changed nodes.

ghost use Rattle.limits.specs.declared.TheConstants.{PARTITION_START};
ghost use Rattle.std.specs.Prelude.{◌≡◌, ◌≢◌, ◌+◌, ◌^◌, ◌<◌, ◌≤◌, ◌↔◌, ℕ, length, slice_index_or, Some, IsTrue, IfOk, IfSome, IfNone, All, AllPairs, if◌then◌else◌, false};
ghost use Rattle.recover.specs.Below.{AreBelow, IsUsed};
ghost use Rattle.table_update.specs.Full.{OnlyMemoryIsShort};
ghost use Rattle.table_update.specs.TableChange as spec;
ghost use Rattle.vat.specs.declared.record.Record.{Record};
ghost use Rattle.vat.specs.Table.{FitsTable, view};

use dir::Kind;
use limits::{ADDRESSES, PARTITION_START};
use recover::{ROOT_ADDRESS, StoreFault};
use std::alloc::Global;
use vat::{Record, Replies, Reply, Sessions, Vat, Version};

/// A copy of a table.
pub fn copied(alloc: Global, vat: &Vat) -> Result<Vat, StoreFault>
    ensures same { IfOk result (λ copy. view copy ≡ view vat.now) }
    ensures short { OnlyMemoryIsShort result }
{
    let records = Vec::from_slice(alloc, &vat.sessions.records)?;
    // A commit that makes a node may add one entry.
    let mut entries = Vec::with_capacity(alloc, vat.entries.len() + 1)?;
    entries.extend_from_slice(&vat.entries)?;
    Ok(Vat {
        label: vat.label,
        previous: vat.previous,
        files: vat.files,
        directories: vat.directories,
        sessions: Sessions {
            version: vat.sessions.version,
            next_unique: vat.sessions.next_unique,
            commits: vat.sessions.commits,
            records,
        },
        entries,
    })
}

/// The index of a client's record, if it has one.
fn place_of(records: &[Record], client: u64) -> Option<usize>
    ensures some { IfSome result (λ i. (i < length records.now) × ((d : Record) → (slice_index_or records.now i d).client ≡ client)) }
    ensures none { IfNone result (All (λ r. r.client ≢ client) records.now) }
{
    for i in 0..records.len() {
        if records[i].client == client {
            return Some(i);
        }
    }
    None
}

/// Puts a reply before those that are kept for its client. A new client's record goes last.
fn answer(
    records: &mut Vec<Record>,
    client: u64,
    number: u64,
    reply: Reply,
) -> Result<(), StoreFault>
    requires { AllPairs (λ a b. a.client ≢ b.client) records.old.items }
    ensures kept { IfOk result (λ _. records.new.items ≡ spec.table_with_reply client number reply records.old.items) }
    ensures short { OnlyMemoryIsShort result }
{
    match place_of(records, client) {
        Some(i) => {
            let replies = records[i].replies.with(reply);
            records[i] = Record {
                client,
                latest: number,
                replies,
            };
        }
        None => {
            records.push(Record {
                client,
                latest: number,
                replies: Replies::one(reply),
            })?;
        }
    }
    Ok(())
}

/// Counts a commit, and keeps its reply. The VAT ICB of the table before is at the address `at`.
///
/// After an error nothing is known of the table.
pub fn keep_reply(
    vat: &mut Vat,
    at: u32,
    client: u64,
    number: u64,
    code: u16,
) -> Result<(), StoreFault>
    requires fits { FitsTable (view vat.old) }
    requires afterwards { 261 ≤ at }
    requires count { vat.old.sessions.commits + 1 < 2 ^ 32 }
    requires answers { spec.AnswersNext client number code vat.old.sessions.records.items }
    ensures kept { IfOk result (λ _. view vat.new ≡ spec.committed at client number code (view vat.old)) }
    ensures fits { IfOk result (λ _. FitsTable (view vat.new)) }
    ensures short { OnlyMemoryIsShort result }
{
    let commit = vat.sessions.commits + 1;
    answer(
        &mut vat.sessions.records,
        client,
        number,
        Reply { code, commit },
    )?;
    vat.sessions.version = Version::Two;
    vat.sessions.commits = commit;
    vat.previous = Some(at - PARTITION_START);
    Ok(())
}

/// Gives the address to a node at this block number, if the address is unused or the next after the last. Returns
/// whether it did.
fn take_entry(entries: &mut Vec<Option<u32>>, address: u32, number: u32) -> Result<bool, StoreFault>
    ensures free { IfOk result (λ taken. IsTrue taken ↔ spec.IsFree address entries.old.items) }
    ensures entry { IfOk result (λ taken. entries.new.items ≡ (if taken then spec.with_number address (Some number) entries.old.items else entries.old.items)) }
    ensures short { OnlyMemoryIsShort result }
{
    let place = address as usize;
    if place < entries.len() {
        if entries[place].is_some() {
            return Ok(false);
        }
        entries[place] = Some(number);
        return Ok(true);
    }
    if place > entries.len() || place >= ADDRESSES {
        return Ok(false);
    }
    entries.push(Some(number))?;
    Ok(true)
}

/// Replaces the entry of an address, if it is used. Returns whether it is.
fn set_entry(entries: &mut Vec<Option<u32>>, address: u32, entry: Option<u32>) -> bool
    ensures used { IsTrue result ↔ IsUsed address entries.old.items }
    ensures long { length entries.new.items ≡ length entries.old.items }
    ensures entry { entries.new.items ≡ (if result then spec.with_number address entry entries.old.items else entries.old.items) }
{
    let place = address as usize;
    if place >= entries.len() {
        return false;
    }
    if entries[place].is_none() {
        return false;
    }
    entries[place] = entry;
    true
}

/// Adds a node, whose entry is at the block number, if the address is free. Returns whether it is.
///
/// After an error nothing is known of the table.
pub fn add_node(vat: &mut Vat, kind: Kind, address: u32, number: u32) -> Result<bool, StoreFault>
    requires fits { FitsTable (view vat.old) }
    requires number { number < 0xFFFF_FFFF }
    requires unique { vat.old.sessions.next_unique + 1 < 2 ^ 32 }
    ensures free { IfOk result (λ made. IsTrue made ↔ spec.IsFree address vat.old.entries.items) }
    ensures table { IfOk result (λ made. view vat.new ≡ (if made then spec.with_node kind address number (view vat.old) else view vat.old)) }
    ensures fits { IfOk result (λ _. FitsTable (view vat.new)) }
    ensures below { IfOk result (λ _. (at : ℕ) → number + PARTITION_START < at → AreBelow at vat.old.entries.items → AreBelow at vat.new.entries.items) }
    ensures short { OnlyMemoryIsShort result }
{
    if !take_entry(&mut vat.entries, address, number)? {
        return Ok(false);
    }
    vat.sessions.next_unique += 1;
    match kind {
        Kind::File => vat.files += 1,
        Kind::Directory => vat.directories += 1,
    }
    Ok(true)
}

/// Leads the virtual address of a node to the block number, if it is used. Returns whether it is.
pub fn place_node(vat: &mut Vat, address: u32, number: u32) -> bool
    requires fits { FitsTable (view vat.old) }
    requires number { number < 0xFFFF_FFFF }
    ensures used { IsTrue result ↔ IsUsed address vat.old.entries.items }
    ensures table { view vat.new ≡ (if result then spec.placed address number (view vat.old) else view vat.old) }
    ensures stays { spec.OnlyNodesChange vat.old vat.new }
    ensures fits { FitsTable (view vat.new) }
    ensures below { (at : ℕ) → number + PARTITION_START < at → AreBelow at vat.old.entries.items → AreBelow at vat.new.entries.items }
{
    set_entry(&mut vat.entries, address, Some(number))
}

/// Whether the table counts a node of this kind other than the root.
fn has_node(vat: &Vat, kind: Kind) -> bool
    ensures { IsTrue result ↔ spec.CountsNode kind (view vat.now) }
{
    match kind {
        Kind::File => vat.files > 0,
        Kind::Directory => vat.directories > 1,
    }
}

/// Removes a node that is not the root, if its address is used and its kind is counted. Returns whether it did.
pub fn remove_node(vat: &mut Vat, kind: Kind, address: u32) -> bool
    requires fits { FitsTable (view vat.old) }
    ensures removed { IsTrue result ↔ spec.IsRemovable kind address (view vat.old) }
    ensures table { view vat.new ≡ (if result then spec.removed kind address (view vat.old) else view vat.old) }
    ensures stays { spec.OnlyNodesChange vat.old vat.new }
    ensures fits { FitsTable (view vat.new) }
    ensures below { (at : ℕ) → AreBelow at vat.old.entries.items → AreBelow at vat.new.entries.items }
{
    if address <= ROOT_ADDRESS || !has_node(vat, kind) {
        return false;
    }
    if !set_entry(&mut vat.entries, address, None) {
        return false;
    }
    match kind {
        Kind::File => vat.files -= 1,
        Kind::Directory => vat.directories -= 1,
    }
    true
}
