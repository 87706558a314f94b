//! Writing texts in compressed Unicode (UDF 2.01 2.1.1).

ghost use Rattle.std.specs.Prelude.{◌≡◌, ℕ, List, ◌+◌, ◌*◌, ◌≤◌, ◌<◌, ◌++◌, ◌∷◌, length, IsTrue, IsAscii, IfErr, OnOk, OnErr, None, Some, Err, vec_len, vec_capacity, if◌then◌else◌};
ghost use Rattle.std.specs.List.{list_all, flat_map};
ghost use Rattle.std.specs.Str.{chars};
ghost use Rattle.osta.specs.Fault.{text_fault};
ghost use Rattle.osta.specs.Compressed as spec;

use crate::fault::NameFault;
use byteorder::{BigEndian, ByteOrder};

/// The compression identifier of characters of one byte.
pub(crate) const NARROW: u8 = 8;

/// The compression identifier of characters of two bytes.
pub(crate) const WIDE: u8 = 16;

/// Appends the spelling of a text (UDF 2.01 2.1.1). `Wide` if a character has none, `Memory` if memory is short: the
/// vector then stays as it was.
pub fn compress(text: &str, out: &mut Vec<u8>) -> Result<(), NameFault>
    ensures ok { OnOk result (out.new.items ≡ out.old.items ++ spec.compressed text.now) }
    ensures spelled { OnOk result (spec.Named text.now (spec.compressed text.now)) }
    ensures err { OnErr result (out.new.items ≡ out.old.items) }
    ensures full { result ≡ Err NameFault.Memory → vec_capacity out.old < vec_len out.old + length (spec.compressed text.now) }
    ensures fault { IfErr result (λ fault. text_fault fault ≡ (if spec.is_spellable text.now then None else Some NameFault.Wide)) }
{
    if !is_spellable(text) {
        return Err(NameFault::Wide);
    }
    let len = compressed_len(text);
    out.reserve(len)?;
    let before = out.len();
    out.resize(before + len, 0)?;
    write_encoding(text, &mut out[before..]);
    Ok(())
}

/// A text has at most one spelling, and no other text has it.
pub fn one_spelling()
    ensures bytes { (text bytes other : List ℕ) → spec.Named text bytes → spec.Named text other → bytes ≡ other }
    ensures text { (text other bytes : List ℕ) → spec.Named text bytes → spec.Named other bytes → text ≡ other }
{}

/// Whether each character of a text has a spelling.
#[tactic(auto, using(crate::proofs::Ascii::ascii_spellable))]
pub(crate) fn is_spellable(text: &str) -> bool
    ensures { result ≡ spec.is_spellable text.now }
{
    text.is_ascii() || text.chars().all(has_spelling)
}

/// Whether a character has a spelling: it has 16 bits, and is not the byte order mark in either byte order.
pub(crate) fn has_spelling(c: char) -> bool
    ensures { result ≡ spec.has_spelling c }
{
    c <= '\u{FFFF}' && c != '\u{FEFF}' && c != '\u{FFFE}'
}

/// Whether each character of a text fits in one byte.
#[tactic(auto, using(crate::proofs::Ascii::ascii_narrow))]
fn is_narrow(text: &str) -> bool
    ensures { result ≡ list_all spec.is_narrow (chars text.now) }
{
    text.is_ascii() || text.chars().all(|c| c <= '\u{FF}')
}

/// How many characters a text has.
#[tactic(auto, using(crate::proofs::Ascii::ascii_count))]
fn char_count(text: &str) -> usize
    ensures count { result ≡ length (chars text.now) }
    ensures bound { result ≤ length text.now }
{
    if text.is_ascii() {
        text.len()
    } else {
        text.chars().count()
    }
}

/// How many bytes the spelling of a text takes.
pub(crate) fn compressed_len(text: &str) -> usize
    ensures { result ≡ length (spec.compressed text.now) }
{
    let count = char_count(text);
    if count == 0 {
        0
    } else if is_narrow(text) {
        count + 1
    } else {
        2 * count + 1
    }
}

/// Fills a slice with the spelling of a text.
pub(crate) fn write_encoding(text: &str, into: &mut [u8])
    requires spellable { IsTrue (spec.is_spellable text.now) }
    requires room { length into.old ≡ length (spec.compressed text.now) }
    ensures { into.new ≡ spec.compressed text.now }
{
    if text.is_empty() {
        return;
    }
    if is_narrow(text) {
        write_narrow(text, into);
    } else {
        write_wide(text, into);
    }
}

/// Fills a slice with the spelling of characters that each fit in one byte.
fn write_narrow(text: &str, into: &mut [u8])
    requires narrow { IsTrue (list_all spec.is_narrow (chars text.now)) }
    requires room { length into.old ≡ length (chars text.now) + 1 }
    ensures { into.new ≡ 8 ∷ chars text.now }
{
    into[0] = NARROW;
    for (at, c) in text.chars().enumerate() {
        into[at + 1] = c as u8;
    }
}

/// Fills a slice with the spelling of characters of two bytes each.
fn write_wide(text: &str, into: &mut [u8])
    requires spellable { IsTrue (spec.is_spellable text.now) }
    requires room { length into.old ≡ 2 * length (chars text.now) + 1 }
    ensures { into.new ≡ 16 ∷ flat_map spec.two_bytes (chars text.now) }
{
    into[0] = WIDE;
    for (at, c) in text.chars().enumerate() {
        BigEndian::write_u16(&mut into[2 * at + 1..], c as u16);
    }
}

/// Fills a slice with ASCII characters as characters of two bytes each.
pub(crate) fn widen(ascii: &[u8], into: &mut [u8])
    requires ascii { IsAscii ascii.now }
    requires room { length into.old ≡ 2 * length ascii.now }
    ensures { into.new ≡ flat_map spec.two_bytes ascii.now }
{
    for (at, byte) in ascii.iter().enumerate() {
        BigEndian::write_u16(&mut into[2 * at..], u16::from(*byte));
    }
}
