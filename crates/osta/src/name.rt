//! Names of files and directories.

ghost use Rattle.std.specs.Prelude.{◌≡◌, ◌==◌, ◌↔◌, ◌<◌, ◌≤◌, ℕ, List, IsTrue, IsAscii, IfOk, IfErr, IfSome, IfNone, ◌≢◌, MatchOption, ◌∷◌, length, nat_eq, None, bytes_eq, codes, string_bytes};
ghost use Rattle.std.specs.Result.{result_err};
ghost use Rattle.std.specs.List.{list_any};
ghost use Rattle.std.specs.Hash as fed;
ghost use Rattle.std.specs.Cmp.Lexicographic.{pointwise, nat_list_eq_equiv};
ghost use Rattle.std.specs.Cmp.{partial_equiv_from_equiv};
ghost use Rattle.std.specs.Cmp.Rules.{hashing};
ghost use Rattle.std.proofs.Common.{rules};
ghost use Rattle.osta.specs.FirstFault.{first_text_fault};
ghost use Rattle.osta.specs.Fault.{text_fault};
ghost use Rattle.osta.specs.Compressed.{compressed, Named};
ghost use Rattle.osta.specs.Name.{dots_faults, name_faults, IsName, has_character};

use crate::dstring::check_room;
use crate::fault::NameFault;
use crate::reading::{check_encoding, expand_checked};
use crate::writing::{NARROW, compress};
use std::alloc::{AllocError, Global};
use std::hash::{Hash, Hasher};
use std::marker::Model;

/// The most bytes that the spelling of a name takes.
const NAME_ROOM: usize = 255;

/// The name of a file or a directory: a text that takes 2 to 255 bytes on the medium, is neither `.` nor `..`, and has
/// no slash and no NUL. Contracts see it as its text.
#[derive(Debug, Drop)]
pub struct Name {
    /// The compression identifier of characters of one byte, and then the text. If that is ASCII, this is the spelling.
    spelled: String,
    /// The spelling of a text that is not ASCII, and otherwise nothing.
    other: Vec<u8>,
}

impl Model for Name {
    ghost use Rattle.std.specs.Prelude.{ℕ, List, drop, string_bytes};
    ghost use Rattle.osta.specs.Name.{IsStoredName};

    ghost Value = { List ℕ };

    ghost view = { λ n. drop 1 (string_bytes n.spelled) };

    ghost invariant = { λ n. IsStoredName (string_bytes n.spelled) n.other.items };
}

impl Name {
    /// Checks that a text is a name, or returns its first fault. It takes no memory, and never reports `Memory`.
    pub fn check(text: &str) -> Result<(), NameFault>
        ensures { result_err result ≡ first_text_fault (name_faults text.now) }
    {
        if text.is_ascii() {
            return check_ascii(text);
        }
        check_dots(text)?;
        if has_character(text, '/') {
            return Err(NameFault::Slash);
        }
        if has_character(text, '\0') {
            return Err(NameFault::Nul);
        }
        check_room(text, NAME_ROOM)?;
        Ok(())
    }

    /// A text as a name, or its first fault.
    pub fn read(alloc: Global, text: &str) -> Result<Name, NameFault>
        ensures name { IfOk result (λ name. (name ≡ text.now) × IsName text.now) }
        ensures fault { IfErr result (λ fault. text_fault fault ≡ first_text_fault (name_faults text.now)) }
    {
        Name::check(text)?;
        if text.is_ascii() {
            return Ok(Name::of_ascii(alloc, text)?);
        }
        let mut other = Vec::new(alloc);
        compress(text, &mut other)?;
        let spelled = after_identifier(alloc, text)?;
        Ok(Name { spelled, other })
    }

    /// The name whose spelling the bytes are. `None` if they are that of no name.
    pub fn of(alloc: Global, bytes: &[u8]) -> Result<Option<Name>, AllocError>
        ensures { IfOk result (λ found. MatchOption found ((text : List ℕ) → IsName text → ¬ (Named text bytes.now)) (λ name. IsName name × Named name bytes.now)) }
    {
        if let Some(text) = ascii_of(bytes) {
            if check_ascii(text).is_err() {
                return Ok(None);
            }
            return Ok(Some(Name::of_ascii(alloc, text)?));
        }
        if check_encoding(bytes).is_err() {
            return Ok(None);
        }
        let text = expand_checked(alloc, bytes)?;
        if Name::check(text.as_str()).is_err() {
            return Ok(None);
        }
        let other = Vec::from_slice(alloc, bytes)?;
        let spelled = after_identifier(alloc, text.as_str())?;
        Ok(Some(Name { spelled, other }))
    }

    /// A text of ASCII as a name.
    fn of_ascii(alloc: Global, text: &str) -> Result<Name, AllocError>
        requires ascii { IsAscii text.now }
        requires name { IsName text.now }
        ensures { IfOk result (λ name. name ≡ text.now) }
    {
        let spelled = after_identifier(alloc, text)?;
        Ok(Name {
            spelled,
            other: Vec::new(alloc),
        })
    }

    /// The name as text.
    pub fn as_str(&self) -> &str
        ensures value { result.now ≡ self.now }
        ensures name { IsName self.now }
    {
        let (_, text) = self.spelled.as_str().split_at(1);
        text
    }

    /// The 2 to 255 bytes that the name takes on the medium. Names are equal exactly if these are.
    pub fn compressed(&self) -> &[u8]
        ensures value { result.now ≡ compressed self.now }
        ensures name { Named self.now result.now }
        ensures some { 1 ≤ length result.now }
        ensures few { length result.now ≤ 255 }
    {
        let other = self.other.as_slice();
        if other.is_empty() {
            self.spelled.as_bytes()
        } else {
            other
        }
    }
}

/// Checks that a text of ASCII is a name, or returns its first fault. Its characters are bytes, and its spelling takes
/// one more byte.
fn check_ascii(text: &str) -> Result<(), NameFault>
    requires { IsAscii text.now }
    ensures { result_err result ≡ first_text_fault (name_faults text.now) }
{
    check_dots(text)?;
    let bytes = text.as_bytes();
    if has_byte(bytes, '/') {
        return Err(NameFault::Slash);
    }
    if has_byte(bytes, '\0') {
        return Err(NameFault::Nul);
    }
    if bytes.len() >= NAME_ROOM {
        return Err(NameFault::Long);
    }
    Ok(())
}

/// Refuses the empty text, `.` and `..`.
fn check_dots(text: &str) -> Result<(), NameFault>
    ensures { result_err result ≡ first_text_fault (dots_faults text.now) }
{
    if text.is_empty() {
        return Err(NameFault::Empty);
    }
    if text == "." || text == ".." {
        return Err(NameFault::Dot);
    }
    Ok(())
}

/// The text of ASCII whose spelling the bytes are, if there is one.
fn ascii_of(bytes: &[u8]) -> Option<&str>
    ensures some { IfSome result (λ text. IsAscii text.now × (bytes.now ≡ 8 ∷ text.now)) }
    ensures none { IfNone result ((text : List ℕ) → IsAscii text → bytes.now ≢ 8 ∷ text) }
{
    let (id, rest) = bytes.split_first()?;
    if *id != NARROW || !rest.is_ascii() {
        return None;
    }
    str::from_utf8(rest).ok()
}

/// A text after the compression identifier of characters of one byte.
fn after_identifier(alloc: Global, text: &str) -> Result<String, AllocError>
    ensures { IfOk result (λ spelled. string_bytes spelled ≡ 8 ∷ text.now) }
{
    let mut spelled = String::with_capacity(alloc, text.len() + 1)?;
    spelled.push(char::from(NARROW))?;
    spelled.push_str(text)?;
    Ok(spelled)
}

/// Whether a text has a character.
pub(crate) fn has_character(text: &str, wanted: char) -> bool
    ensures { result ≡ has_character wanted text.now }
{
    // In ASCII each byte is a character, so none has to be decoded.
    if text.is_ascii() {
        has_byte(text.as_bytes(), wanted)
    } else {
        text.chars().any(|c| c == wanted)
    }
}

/// Whether a character of one byte each is this one.
fn has_byte(bytes: &[u8], wanted: char) -> bool
    ensures { result ≡ list_any (λ b. b == wanted) bytes.now }
{
    bytes.iter().any(|byte| char::from(*byte) == wanted)
}

impl Clone for Name {
    ghost is_clone = { λ name copy. copy ≡ name };

    fn clone(&self) -> Result<Name, AllocError> {
        let spelled = self.spelled.clone()?;
        let other = self.other.clone()?;
        Ok(Name { spelled, other })
    }
}

impl PartialEq for Name {
    ghost eq = { pointwise nat_eq };

    ghost laws = { partial_equiv_from_equiv nat_list_eq_equiv };

    fn eq(&self, other: &Name) -> bool {
        self.as_str() == other.as_str()
    }
}

impl Eq for Name {
    ghost laws = { nat_list_eq_equiv };
}

impl Hash for Name {
    ghost hash_input = { fed.str };

    ghost respects_eq = { Prim.search (hashing, rules) };

    fn hash<H: Hasher>(&self, state: &mut H) {
        self.as_str().hash(state);
    }
}
