//! Dstrings: texts in fields of a fixed size (ECMA-167 1/7.2.12).

ghost use Rattle.std.specs.Prelude.{◌≡◌, ◌≤◌, ◌<◌, ◌-◌, ◌==◌, Some, ℕ, List, length, OnOk, OnErr, IfOk, IfErr, MatchResult, string_bytes};
ghost use Rattle.std.specs.Result.{result_err};
ghost use Rattle.std.specs.List.{list_all};
ghost use Rattle.osta.specs.FirstFault.{first_text_fault};
ghost use Rattle.osta.specs.Fault.{bytes_fault};
ghost use Rattle.osta.specs.Compressed.{writing_faults, compressed};
ghost use Rattle.osta.specs.Dstring as spec;

use crate::fault::{NameFault, OstaFault};
use crate::reading::{check_encoding, expand_checked};
use crate::writing::{compressed_len, is_spellable, write_encoding};
use std::alloc::Global;

/// Writes a text into a field of 1 to 256 bytes (ECMA-167 1/7.2.12): its spelling, zeros, and how many bytes the
/// spelling has. `Wide` if a character has no spelling, `Long` if the spelling does not fit: the field then stays as it
/// was. It takes no memory.
pub fn dstring_write(text: &str, field: &mut [u8]) -> Result<(), NameFault>
    requires some { 1 ≤ length field.old }
    requires few { length field.old ≤ 256 }
    ensures fault { let n = length field.old in result_err result ≡ first_text_fault (writing_faults (n - 1) text.now) }
    ensures ok { OnOk result (field.new ≡ spec.dstring (length field.old) text.now) }
    ensures dstring { OnOk result (spec.Dstring text.now (length field.old) field.new) }
    ensures err { OnErr result (field.new ≡ field.old) }
{
    let last = field.len() - 1;
    let count = check_room(text, last)?;
    field.fill(0);
    write_encoding(text, &mut field[..count]);
    field[last] = count as u8;
    Ok(())
}

/// The text of a field of 1 to 256 bytes (ECMA-167 1/7.2.12), or the first fault of the field.
pub fn dstring_read(alloc: Global, field: &[u8]) -> Result<String, OstaFault>
    requires some { 1 ≤ length field.now }
    requires few { length field.now ≤ 256 }
    // What is read is the text whose dstring the field is.
    ensures found { IfOk result (λ text. spec.Dstring (string_bytes text) (length field.now) field.now) }
    // Each dstring is read, unless memory is short.
    ensures only { (text : List ℕ) → spec.Dstring text (length field.now) field.now → MatchResult result (λ found. string_bytes found ≡ text) (λ fault. fault ≡ OstaFault.Memory) }
    ensures fault { IfErr result (λ fault. bytes_fault fault ≡ first_text_fault (spec.dstring_faults field.now)) }
{
    check_dstring(field)?;
    Ok(expand_checked(alloc, spelling_of(field))?)
}

/// How many bytes the spelling of a text takes. `Wide` if it has none, `Long` if it takes more than `room`.
pub(crate) fn check_room(text: &str, room: usize) -> Result<usize, NameFault>
    ensures fault { result_err result ≡ first_text_fault (writing_faults room text.now) }
    ensures count { IfOk result (λ count. count ≡ length (compressed text.now)) }
{
    if !is_spellable(text) {
        return Err(NameFault::Wide);
    }
    let len = compressed_len(text);
    if len > room {
        return Err(NameFault::Long);
    }
    Ok(len)
}

/// Fills a field with a spelling, zeros, and the count of the spelling's bytes.
pub(crate) fn put_spelling(spelling: &[u8], field: &mut [u8])
    requires room { length spelling.now < length field.old }
    requires few { length field.old ≤ 256 }
    ensures { field.new ≡ spec.field_of (length field.old) spelling.now }
{
    let last = field.len() - 1;
    field.fill(0);
    field[..spelling.len()].copy_from_slice(spelling);
    field[last] = spelling.len() as u8;
}

/// Checks that a field is a dstring, or returns its first fault.
pub(crate) fn check_dstring(field: &[u8]) -> Result<(), OstaFault>
    requires { 1 ≤ length field.now }
    ensures fault { result_err result ≡ first_text_fault (spec.dstring_faults field.now) }
    ensures reported { IfErr result (λ fault. bytes_fault fault ≡ Some fault) }
{
    let last = field.len() - 1;
    let count = field[last] as usize;
    if count > last {
        return Err(OstaFault::Count);
    }
    if !are_zeros(&field[count..last]) {
        return Err(OstaFault::Tail);
    }
    check_encoding(spelling_of(field))
}

/// The bytes of a field that spell its text.
pub(crate) fn spelling_of(field: &[u8]) -> &[u8]
    requires some { 1 ≤ length field.now }
    requires within { spec.dstring_count field.now ≤ length field.now - 1 }
    ensures { result.now ≡ spec.dstring_spelling field.now }
{
    let count = field[field.len() - 1] as usize;
    let (spelling, _) = field.split_at(count);
    spelling
}

/// Whether each byte is zero.
fn are_zeros(bytes: &[u8]) -> bool
    ensures { result ≡ list_all (λ b. b == 0) bytes.now }
{
    bytes.iter().all(|byte| *byte == 0)
}
