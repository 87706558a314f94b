//! Writing tables.

ghost use Rattle.limits.specs.declared.TheConstants.{ADDRESSES, CLIENTS};
ghost use Rattle.std.specs.Prelude.{◌≡◌, ◌*◌, ◌≤◌, ◌++◌, length, All, IfOk, OnOk};
ghost use Rattle.std.specs.List.{flat_map};
ghost use Rattle.vat.specs.Table.{view, FitsTable, head_bytes, table_bytes};
ghost use Rattle.vat.specs.Record as spec;
ghost use Rattle.vat.specs.Record.{HasRoom};
ghost use Rattle.vat.specs.Entry.{entry_number, entry_bytes};

use crate::offsets::IMPLEMENTATION_USE;
use crate::record::Record;
use crate::table::{Vat, Version};
use byteorder::{ByteOrder, LittleEndian};
use ecma::{Field, write_fields};
use limits::{RECORD_BYTES, TABLE_HEAD_BYTES};
use std::alloc::{AllocError, Global};

/// The number for an unused virtual address, and for the previous VAT ICB of the first table (UDF 2.01 2.2.10).
pub(crate) const UNUSED: u32 = u32::MAX;

/// The revision of UDF, 2.01, which the header has three times.
pub(crate) const REVISION: u16 = 0x0201;

/// The flags and the text of the sessions' entity identifier (ECMA-167 1/7.4). Its other bytes are zeros.
pub(crate) const SESSIONS: &[u8; 18] = b"\x00*udfburn sessions";

/// The bytes of a table. There is one encoding of each table.
pub fn encode_vat(alloc: Global, vat: &Vat) -> Result<Vec<u8>, AllocError>
    requires { FitsTable (view vat.now) }
    ensures { IfOk result (λ bytes. bytes.items ≡ table_bytes (view vat.now)) }
{
    let sessions = &vat.sessions;
    let size = TABLE_HEAD_BYTES
        + sessions.version.record_size() * sessions.records.len()
        + 4 * vat.entries.len();
    let mut out = Vec::with_capacity(alloc, size)?;
    out.extend_from_slice(&head(vat))?;
    put_records(&mut out, sessions.version, &sessions.records)?;
    put_entries(&mut out, &vat.entries)?;
    Ok(out)
}

/// Appends the records.
fn put_records(out: &mut Vec<u8>, version: Version, records: &[Record]) -> Result<(), AllocError>
    requires { All (HasRoom version) records.now }
    ensures { OnOk result (out.new.items ≡ out.old.items ++ flat_map (spec.record_bytes version) records.now) }
{
    for kept in records {
        let bytes = record_bytes(kept);
        out.extend_from_slice(&bytes[..version.record_size()])?;
    }
    Ok(())
}

/// Appends the block number of each virtual address.
fn put_entries(out: &mut Vec<u8>, entries: &[Option<u32>]) -> Result<(), AllocError>
    requires { length entries.now ≤ ADDRESSES }
    ensures { OnOk result (out.new.items ≡ out.old.items ++ flat_map entry_bytes entries.now) }
{
    let at = out.len();
    out.resize(at + 4 * entries.len(), 0)?;
    write_entries(entries, &mut out[at..]);
    Ok(())
}

/// Writes the block number of each virtual address over `into`.
fn write_entries(entries: &[Option<u32>], into: &mut [u8])
    requires { length into.old ≡ 4 * length entries.now }
    ensures { into.new ≡ flat_map entry_bytes entries.now }
{
    let mut at = 0;
    for entry in entries {
        LittleEndian::write_u32(&mut into[at..], number_of(*entry));
        at += 4;
    }
}

/// The number that stands for a block number, or for none.
fn number_of(entry: Option<u32>) -> u32
    ensures { result ≡ entry_number entry }
{
    entry.unwrap_or(UNUSED)
}

/// The bytes before the records.
fn head(vat: &Vat) -> [u8; TABLE_HEAD_BYTES]
    requires { length vat.now.sessions.records.items ≤ CLIENTS }
    ensures { result ≡ head_bytes (view vat.now) }
{
    let sessions = &vat.sessions;
    let count = sessions.records.len() as u16;
    let record_size = sessions.version.record_size() as u16;
    let implementation_use = 44 + record_size * count;
    let label = vat.label.dstring_128();
    let mut head = [0; TABLE_HEAD_BYTES];
    write_fields(
        &[
            Field::U16(IMPLEMENTATION_USE as u16 + implementation_use), // 0 length of header
            Field::U16(implementation_use), // 2 length of implementation use
            Field::Bytes(&label), // 4 logical volume identifier
            Field::U32(number_of(vat.previous)), // 132 previous VAT ICB location
            Field::U32(vat.files), // 136 number of files
            Field::U32(vat.directories), // 140 number of directories
            Field::U16(REVISION), // 144 minimum UDF read revision
            Field::U16(REVISION), // 146 minimum UDF write revision
            Field::U16(REVISION), // 148 maximum UDF write revision
            Field::U16(0), // 150 reserved
            Field::Bytes(SESSIONS), // 152 implementation use: the identifier of the sessions
            Field::Zeros(14), // 170 the rest of it
            Field::U16(sessions.version.number()), // 184 their version
            Field::U16(count), // 186 number of records
            Field::U32(sessions.next_unique), // 188 next unique ID
            Field::U32(sessions.commits), // 192 commits
        ],
        &mut head,
    );
    head
}

/// A record in version 2. If it keeps one reply, the first 24 bytes are the record in version 1.
pub(crate) fn record_bytes(kept: &Record) -> [u8; RECORD_BYTES]
    ensures { result ≡ spec.record_bytes Version.Two kept.now }
{
    let [first, second, third, fourth] = kept.replies.places();
    let mut bytes = [0; RECORD_BYTES];
    write_fields(
        &[
            Field::U64(kept.client), // 0 client
            Field::U64(kept.latest), // 8 its latest number
            Field::U16(first.code), // 16 code of the reply to that
            Field::U16(0), // 18 reserved
            Field::U32(first.commit), // 20 its commit
            Field::U16(second.code), // 24 code of the reply to the number before
            Field::U16(0), // 26 reserved
            Field::U32(second.commit), // 28 its commit
            Field::U16(third.code), // 32 code of the one before that
            Field::U16(0), // 34 reserved
            Field::U32(third.commit), // 36 its commit
            Field::U16(fourth.code), // 40 code of the oldest that is kept
            Field::U16(0), // 42 reserved
            Field::U32(fourth.commit), // 44 its commit
        ],
        &mut bytes,
    );
    bytes
}
