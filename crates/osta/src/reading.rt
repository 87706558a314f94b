//! Reading texts in compressed Unicode (UDF 2.01 2.1.1).

ghost use Rattle.std.specs.Prelude.{◌≡◌, ◌==◌, List, ℕ, Some, IsTrue, IfOk, IfErr, MatchResult, None, string_bytes, encode_utf8_all};
ghost use Rattle.std.specs.Result.{result_err};
ghost use Rattle.std.specs.List.{list_all, list_any};
ghost use Rattle.std.specs.Iterator.{YieldsFirst, item_count};
ghost use Rattle.osta.specs.FirstFault.{first_text_fault};
ghost use Rattle.osta.specs.Fault.{bytes_fault};
ghost use Rattle.osta.specs.Compressed as spec;

use crate::fault::OstaFault;
use crate::writing::{NARROW, WIDE, has_spelling};
use byteorder::{BigEndian, ByteOrder};
use std::alloc::{AllocError, Global};

/// Checks that bytes are the spelling of a text (UDF 2.01 2.1.1), or returns their first fault. It takes no memory.
pub fn check_encoding(bytes: &[u8]) -> Result<(), OstaFault>
    ensures fault { result_err result ≡ first_text_fault (spec.spelling_faults bytes.now) }
    ensures reported { IfErr result (λ fault. bytes_fault fault ≡ Some fault) }
{
    let Some((id, rest)) = bytes.split_first() else {
        return Ok(());
    };
    match *id {
        NARROW => check_narrow(rest),
        WIDE => check_wide(rest),
        _ => Err(OstaFault::CompId),
    }
}

/// The text whose spelling the bytes are (UDF 2.01 2.1.1), or their first fault.
pub fn expand(alloc: Global, bytes: &[u8]) -> Result<String, OstaFault>
    // What is read is the text that the bytes spell.
    ensures found { IfOk result (λ text. spec.Named (string_bytes text) bytes.now) }
    // Each spelling is read, unless memory is short.
    ensures only { (text : List ℕ) → spec.Named text bytes.now → MatchResult result (λ found. string_bytes found ≡ text) (λ fault. fault ≡ OstaFault.Memory) }
    ensures fault { IfErr result (λ fault. bytes_fault fault ≡ first_text_fault (spec.spelling_faults bytes.now)) }
{
    check_encoding(bytes)?;
    Ok(expand_checked(alloc, bytes)?)
}

/// The text whose spelling the bytes are.
pub(crate) fn expand_checked(alloc: Global, bytes: &[u8]) -> Result<String, AllocError>
    requires { first_text_fault (spec.spelling_faults bytes.now) ≡ None }
    ensures { IfOk result (λ text. string_bytes text ≡ spec.expanded bytes.now) }
{
    let Some((id, rest)) = bytes.split_first() else {
        return Ok(String::new(alloc));
    };
    if *id == NARROW {
        text_of_bytes(alloc, rest)
    } else {
        text_of_units(alloc, rest)
    }
}

/// The text of characters of one byte each.
#[tactic(auto, using(crate::proofs::Ascii::ascii_encoded))]
fn text_of_bytes(alloc: Global, bytes: &[u8]) -> Result<String, AllocError>
    ensures { IfOk result (λ text. string_bytes text ≡ encode_utf8_all bytes.now) }
{
    // ASCII is the same in UTF-8 as here.
    if bytes.is_ascii() {
        if let Ok(text) = str::from_utf8(bytes) {
            return String::from_str(alloc, text);
        }
    }
    bytes.iter().map(|byte| char::from(*byte)).collect(alloc)
}

/// The text of characters of two bytes each.
fn text_of_units(alloc: Global, bytes: &[u8]) -> Result<String, AllocError>
    requires { IsTrue (list_all spec.is_unit (spec.units bytes.now)) }
    ensures { IfOk result (λ text. string_bytes text ≡ encode_utf8_all (spec.units bytes.now)) }
{
    Units(bytes).map(character).collect(alloc)
}

/// Whether a character that the bytes spell is NUL.
pub(crate) fn has_zero(bytes: &[u8]) -> bool
    requires { first_text_fault (spec.spelling_faults bytes.now) ≡ None }
    ensures { result ≡ list_any (λ c. c == 0) (spec.characters bytes.now) }
{
    let Some((id, rest)) = bytes.split_first() else {
        return false;
    };
    if *id == NARROW {
        rest.iter().any(|byte| *byte == 0)
    } else {
        is_zero_among(rest)
    }
}

/// The first fault of the bytes after the compression identifier 8.
fn check_narrow(rest: &[u8]) -> Result<(), OstaFault>
    ensures fault { result_err result ≡ first_text_fault (spec.narrow_faults rest.now) }
    ensures reported { IfErr result (λ fault. bytes_fault fault ≡ Some fault) }
{
    if rest.is_empty() {
        Err(OstaFault::NotShortest)
    } else {
        Ok(())
    }
}

/// The first fault of the bytes after the compression identifier 16.
fn check_wide(rest: &[u8]) -> Result<(), OstaFault>
    ensures fault { result_err result ≡ first_text_fault (spec.wide_faults rest.now) }
    ensures reported { IfErr result (λ fault. bytes_fault fault ≡ Some fault) }
{
    if rest.len() % 2 != 0 {
        return Err(OstaFault::Odd);
    }
    if are_narrow(rest) {
        return Err(OstaFault::NotShortest);
    }
    if !are_units(rest) {
        return Err(OstaFault::Surrogate);
    }
    Ok(())
}

/// Whether each character of two bytes would fit in one.
fn are_narrow(bytes: &[u8]) -> bool
    ensures { result ≡ list_all spec.is_narrow (spec.units bytes.now) }
{
    Units(bytes).all(|unit| unit <= 0xFF)
}

/// Whether each two bytes are a character with a spelling.
fn are_units(bytes: &[u8]) -> bool
    ensures { result ≡ list_all spec.is_unit (spec.units bytes.now) }
{
    Units(bytes).all(is_unit)
}

/// Whether NUL is among the characters of two bytes.
fn is_zero_among(bytes: &[u8]) -> bool
    ensures { result ≡ list_any (λ c. c == 0) (spec.units bytes.now) }
{
    Units(bytes).any(|unit| unit == 0)
}

/// Whether a number is a character with a spelling.
fn is_unit(unit: u16) -> bool
    ensures { result ≡ spec.is_unit unit }
{
    char::from_u32(u32::from(unit)).is_some_and(has_spelling)
}

/// The character of this number. A surrogate is no character, and gives the replacement character.
#[tactic(auto, unfolding(crate::specs::Compressed::unit_character))]
fn character(unit: u16) -> char
    ensures { result ≡ spec.unit_character unit }
{
    char::from_u32(u32::from(unit)).unwrap_or(char::REPLACEMENT_CHARACTER)
}

/// The numbers of two bytes each, the high byte first.
#[derive(Drop)]
struct Units<'a>(&'a [u8]);

impl Iterator for Units<'_> {
    type Item = u16;

    ghost next_gives = { YieldsFirst (λ s. spec.units s.0.now) };

    ghost remaining = { item_count (λ s. spec.units s.0.now) };

    fn next(&mut self) -> Option<u16> {
        let (high, rest) = self.0.split_first()?;
        let (low, rest) = rest.split_first()?;
        self.0 = rest;
        Some(BigEndian::read_u16(&[*high, *low]))
    }
}
