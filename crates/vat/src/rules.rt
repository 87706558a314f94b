//! The rules that bytes must keep to be a table, and the records in them.

ghost use Rattle.std.specs.Prelude.{◌≡◌, ◌≢◌, ◌⊎◌, ℕ, ◌+◌, ◌-◌, ◌*◌, ◌%◌, ◌<◌, ◌≤◌, ◌↔◌, length, take, drop, IsTrue, IfSome, IfNone, slice_index};
ghost use Rattle.ecma.specs.Numbers as read;
ghost use Rattle.vat.specs.declared.record.Record.{Record};
ghost use Rattle.vat.specs.Version as versions;
ghost use Rattle.vat.specs.Reply as replies;
ghost use Rattle.vat.specs.Reply.{AreReplies};
ghost use Rattle.vat.specs.Record.{HasRoom, IsKept, SpellsRecord};
ghost use Rattle.vat.specs.Record as spec;
ghost use Rattle.vat.specs.Entry.{words};
ghost use Rattle.vat.specs.Rules as rule;
ghost use Rattle.vat.specs.Rules.{HasHeader, HasLabel, HasRevisions, HasRecords, HasClients, HasEntries, HasCounts};

use crate::encode::{REVISION, SESSIONS, UNUSED, record_bytes};
use crate::offsets::{
    COMMITS, DIRECTORIES, FILES, IMPLEMENTATION_USE, LABEL, NEXT_UNIQUE, PREVIOUS, RECORD_COUNT,
    RESERVED, REVISIONS, VERSION,
};
use crate::record::{Record, Replies, Reply};
use crate::table::Version;
use ecma::{Field, are_fields_at, u16_at, u32_at, u64_at};
use limits::{ADDRESSES, CLIENTS, FIRST_UNIQUE, TABLE_HEAD_BYTES};
use osta::Label;

/// The version of the sessions. For an unknown version, lengths are computed as for the first.
pub(crate) fn version(bytes: &[u8]) -> Version
    requires { TABLE_HEAD_BYTES ≤ length bytes.now }
    ensures { result ≡ rule.version_at bytes.now }
{
    Version::read(u16_at(bytes, VERSION)).unwrap_or(Version::One)
}

/// How many records there are.
pub(crate) fn record_count(bytes: &[u8]) -> usize
    requires { TABLE_HEAD_BYTES ≤ length bytes.now }
    ensures { result ≡ rule.count_at bytes.now }
{
    usize::from(u16_at(bytes, RECORD_COUNT))
}

pub(crate) fn has_header(bytes: &[u8], icb: u32) -> bool
    ensures { IsTrue result ↔ HasHeader icb bytes.now }
{
    if bytes.len() < TABLE_HEAD_BYTES {
        return false;
    }
    let header = usize::from(u16_at(bytes, 0));
    let implementation_use = usize::from(u16_at(bytes, 2));
    if header != IMPLEMENTATION_USE + implementation_use {
        return false;
    }
    if implementation_use != 44 + version(bytes).record_size() * record_count(bytes) {
        return false;
    }
    if bytes.len() < header {
        return false;
    }
    if (bytes.len() - header) % 4 != 0 {
        return false;
    }
    if u16_at(bytes, RESERVED) != 0 {
        return false;
    }
    let previous = u32_at(bytes, PREVIOUS);
    if u32_at(bytes, COMMITS) == 0 {
        return previous == UNUSED;
    }
    previous < icb
}

/// The bytes of the label.
pub(crate) fn label_field(bytes: &[u8]) -> &[u8]
    requires { TABLE_HEAD_BYTES ≤ length bytes.now }
    ensures { result.now ≡ rule.label_field bytes.now }
{
    let (_, rest) = bytes.split_at(LABEL);
    let (field, _) = rest.split_at(128);
    field
}

pub(crate) fn has_label(bytes: &[u8]) -> bool
    requires { TABLE_HEAD_BYTES ≤ length bytes.now }
    ensures { IsTrue result ↔ HasLabel bytes.now }
{
    Label::of(label_field(bytes)).is_some()
}

pub(crate) fn has_revisions(bytes: &[u8]) -> bool
    requires { TABLE_HEAD_BYTES ≤ length bytes.now }
    ensures { IsTrue result ↔ HasRevisions bytes.now }
{
    let revisions = [
        Field::U16(REVISION),
        Field::U16(REVISION),
        Field::U16(REVISION),
    ];
    are_fields_at(&revisions, bytes, REVISIONS)
}

/// The bytes of a record.
pub(crate) fn record_text(bytes: &[u8], i: usize) -> &[u8]
    requires long { TABLE_HEAD_BYTES ≤ length bytes.now }
    requires there { rule.record_place bytes.now i + rule.record_size_at bytes.now ≤ length bytes.now }
    ensures value { result.now ≡ rule.record_text bytes.now i }
    ensures size { length result.now ≡ rule.record_size_at bytes.now }
{
    let size = version(bytes).record_size();
    let (_, rest) = bytes.split_at(TABLE_HEAD_BYTES + size * i);
    let (text, _) = rest.split_at(size);
    text
}

/// The reply at a place of a record.
fn reply_at(text: &[u8], at: usize) -> Reply
    requires { at + 8 ≤ length text.now }
    ensures { result ≡ rule.reply_at at text.now }
{
    Reply {
        code: u16_at(text, at),
        commit: u32_at(text, at + 4),
    }
}

/// What is in the places for replies that a record of this version has.
fn places_at(version: Version, text: &[u8]) -> [Reply; 4]
    requires { length text.now ≡ versions.record_size version }
    ensures { result ≡ rule.places_in version text.now }
{
    let nothing = Reply { code: 0, commit: 0 };
    let first = reply_at(text, 16);
    match version {
        Version::One => [first, nothing, nothing, nothing],
        Version::Two => [
            first,
            reply_at(text, 24),
            reply_at(text, 32),
            reply_at(text, 40),
        ],
    }
}

/// The record that the bytes encode, in a table of this many commits. `None` if they encode none.
pub(crate) fn read_record(version: Version, commits: u32, text: &[u8]) -> Option<Record>
    requires { length text.now ≡ versions.record_size version }
    ensures some { IfSome result (λ kept. IsKept version commits kept × (text.now ≡ spec.record_bytes version kept)) }
    ensures none { IfNone result (SpellsRecord version commits text.now → ⊥) }
{
    let Some(replies) = Replies::read(places_at(version, text)) else {
        return None;
    };
    let kept = Record {
        client: u64_at(text, 0),
        latest: u64_at(text, 8),
        replies,
    };
    if !is_kept(version, commits, &kept) {
        return None;
    }
    if !spells(version, &kept, text) {
        return None;
    }
    Some(kept)
}

/// Whether a table of this many commits may keep the record.
fn is_kept(version: Version, commits: u32, kept: &Record) -> bool
    ensures { IsTrue result ↔ IsKept version commits kept.now }
{
    if kept.client == 0 {
        return false;
    }
    if kept.latest == 0 {
        return false;
    }
    let replies = kept.replies.as_slice();
    if replies.len() > version.places() {
        return false;
    }
    if replies.len() as u64 > kept.latest {
        return false;
    }
    are_replies(commits, replies)
}

/// Whether these can be the replies to a client up to a commit, the newest first.
fn are_replies(commits: u32, replies: &[Reply]) -> bool
    ensures { IsTrue result ↔ AreReplies commits replies.now }
{
    let mut limit = commits;
    for reply in replies {
        if reply.code > 10 {
            return false;
        }
        if reply.commit == 0 {
            return false;
        }
        if reply.commit > limit {
            return false;
        }
        limit = reply.commit - 1;
    }
    true
}

/// Whether the bytes are those of the record.
fn spells(version: Version, kept: &Record, text: &[u8]) -> bool
    requires { HasRoom version kept.now }
    ensures { IsTrue result ↔ (text.now ≡ spec.record_bytes version kept.now) }
{
    let bytes = record_bytes(kept);
    text == &bytes[..version.record_size()]
}

pub(crate) fn has_records(bytes: &[u8]) -> bool
    requires long { TABLE_HEAD_BYTES ≤ length bytes.now }
    requires whole { TABLE_HEAD_BYTES + rule.record_size_at bytes.now * rule.count_at bytes.now ≤ length bytes.now }
    ensures { IsTrue result ↔ HasRecords bytes.now }
{
    if !are_fields_at(
        &[Field::Bytes(SESSIONS), Field::Zeros(14)],
        bytes,
        IMPLEMENTATION_USE,
    ) {
        return false;
    }
    let Some(version) = Version::read(u16_at(bytes, VERSION)) else {
        return false;
    };
    if record_count(bytes) > CLIENTS {
        return false;
    }
    let commits = u32_at(bytes, COMMITS);
    for i in 0..record_count(bytes) {
        if read_record(version, commits, record_text(bytes, i)).is_none() {
            return false;
        }
    }
    true
}

/// The client of a record.
fn client_at(bytes: &[u8], i: usize) -> u64
    requires long { TABLE_HEAD_BYTES ≤ length bytes.now }
    requires there { rule.record_place bytes.now i + rule.record_size_at bytes.now ≤ length bytes.now }
    ensures { result ≡ read.u64_at (rule.record_place bytes.now i) bytes.now }
{
    u64_at(bytes, TABLE_HEAD_BYTES + version(bytes).record_size() * i)
}

/// Whether no record before this one is of the same client.
fn is_new_client(bytes: &[u8], j: usize) -> bool
    requires long { TABLE_HEAD_BYTES ≤ length bytes.now }
    requires there { rule.record_place bytes.now j + rule.record_size_at bytes.now ≤ length bytes.now }
    ensures { IsTrue result ↔ ((i : ℕ) → i < j → read.u64_at (rule.record_place bytes.now i) bytes.now ≢ read.u64_at (rule.record_place bytes.now j) bytes.now) }
{
    let client = client_at(bytes, j);
    for i in 0..j {
        if client_at(bytes, i) == client {
            return false;
        }
    }
    true
}

pub(crate) fn has_clients(bytes: &[u8]) -> bool
    requires long { TABLE_HEAD_BYTES ≤ length bytes.now }
    requires whole { TABLE_HEAD_BYTES + rule.record_size_at bytes.now * rule.count_at bytes.now ≤ length bytes.now }
    ensures { IsTrue result ↔ HasClients bytes.now }
{
    for j in 0..record_count(bytes) {
        if !is_new_client(bytes, j) {
            return false;
        }
    }
    true
}

/// The bytes of the entries.
pub(crate) fn entry_text(bytes: &[u8]) -> &[u8]
    requires long { TABLE_HEAD_BYTES ≤ length bytes.now }
    requires whole { read.u16_at 0 bytes.now ≤ length bytes.now }
    ensures { result.now ≡ drop (read.u16_at 0 bytes.now) bytes.now }
{
    let (_, entries) = bytes.split_at(usize::from(u16_at(bytes, 0)));
    entries
}

pub(crate) fn has_entries(bytes: &[u8], icb: u32) -> bool
    requires long { TABLE_HEAD_BYTES ≤ length bytes.now }
    requires whole { read.u16_at 0 bytes.now ≤ length bytes.now }
    ensures { IsTrue result ↔ HasEntries icb bytes.now }
{
    are_entries(entry_text(bytes), icb)
}

fn are_entries(text: &[u8], icb: u32) -> bool
    ensures { IsTrue result ↔ rule.AreNumbers icb (words text.now) }
{
    for i in 0..text.len() / 4 {
        let number = u32_at(text, 4 * i);
        if number < icb {
            continue;
        }
        if number != UNUSED {
            return false;
        }
        if i < 2 {
            return false;
        }
    }
    true
}

/// How many entries are used.
fn used(text: &[u8]) -> usize
    ensures count { result ≡ rule.used_of (words text.now) }
{
    let mut used = 0;
    for i in 0..text.len() / 4 {
        if u32_at(text, 4 * i) != UNUSED {
            used += 1;
        }
    }
    used
}

pub(crate) fn has_counts(bytes: &[u8]) -> bool
    requires long { TABLE_HEAD_BYTES ≤ length bytes.now }
    requires whole { read.u16_at 0 bytes.now ≤ length bytes.now }
    ensures { IsTrue result ↔ HasCounts bytes.now }
{
    let entries = entry_text(bytes);
    if entries.len() / 4 < 2 {
        return false;
    }
    if entries.len() / 4 > ADDRESSES {
        return false;
    }
    let nodes = u32_at(bytes, FILES) as usize + u32_at(bytes, DIRECTORIES) as usize;
    if used(entries) != 1 + nodes {
        return false;
    }
    u32_at(bytes, NEXT_UNIQUE) >= FIRST_UNIQUE
}
