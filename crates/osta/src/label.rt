//! Labels of volumes.

ghost use Rattle.std.specs.Prelude.{◌≡◌, ◌+◌, ◌<◌, ◌≤◌, ◌∷◌, ◌++◌, ℕ, List, length, IfOk, IfSome, IsAscii, Some, string_bytes, nat_eq};
ghost use Rattle.std.specs.Result.{result_err};
ghost use Rattle.std.specs.Cmp.Lexicographic.{pointwise, nat_list_eq_equiv};
ghost use Rattle.std.specs.Cmp.{partial_equiv_from_equiv};
ghost use Rattle.osta.specs.FirstFault.{first_text_fault};
ghost use Rattle.osta.specs.Dstring.{dstring, field_of};
ghost use Rattle.osta.specs.Label.{label_faults, IsLabel, IsLabelDstring};

use crate::dstring::{check_dstring, dstring_write, put_spelling, spelling_of};
use crate::fault::NameFault;
use crate::name::has_character;
use crate::reading::{expand_checked, has_zero};
use crate::writing::{NARROW, WIDE, widen};
use std::alloc::{AllocError, Global};
use std::marker::Model;

/// The most bytes that the spelling of a label takes.
const LABEL_ROOM: usize = 31;

/// The label of a volume: a text without NUL that takes 2 to 31 bytes on the medium. It is kept as its dstring of 32
/// bytes. Contracts see it as its text.
#[derive(Clone, Copy, Debug)]
pub struct Label {
    field: [u8; 32],
}

impl Model for Label {
    ghost use Rattle.std.specs.Prelude.{ℕ, List};
    ghost use Rattle.std.proofs.Common.{ap};
    ghost use Rattle.osta.specs.Dstring.{dstring};
    ghost use Rattle.osta.specs.Label.{IsLabelField, dstring_text};

    ghost Value = { List ℕ };

    ghost view = { λ l. dstring_text l.field };

    ghost invariant = { λ l. IsLabelField l.field };

    ghost inverse = { λ text. record { field = dstring 32 text } };

    ghost inverse_ok = { λ a h. ap (λ f. record { field = f }) h.field };
}

impl Label {
    /// The label of this text, or the first fault of it: `Empty`, `Nul`, `Wide` or `Long`. It takes no
    /// memory.
    pub fn read(text: &str) -> Result<Label, NameFault>
        ensures fault { result_err result ≡ first_text_fault (label_faults text.now) }
        ensures label { IfOk result (λ label. (label ≡ text.now) × IsLabel text.now) }
    {
        if text.is_empty() {
            return Err(NameFault::Empty);
        }
        if has_character(text, '\0') {
            return Err(NameFault::Nul);
        }
        let mut field = [0; 32];
        dstring_write(text, &mut field)?;
        Ok(Label { field })
    }

    /// The label whose dstring of 32 or of 128 bytes this is. `None` if there is no such label. It takes no memory.
    pub fn of(field: &[u8]) -> Option<Label>
        ensures some { IfSome result (λ label. IsLabelDstring label field.now) }
        ensures only { (text : List ℕ) → IsLabelDstring text field.now → result ≡ Some text }
    {
        if field.len() != 32 && field.len() != 128 {
            return None;
        }
        if check_dstring(field).is_err() {
            return None;
        }
        let spelling = spelling_of(field);
        if spelling.is_empty() || spelling.len() > LABEL_ROOM || has_zero(spelling) {
            return None;
        }
        let mut label = [0; 32];
        put_spelling(spelling, &mut label);
        Some(Label { field: label })
    }

    /// The label as a dstring of 32 bytes.
    pub fn dstring_32(self) -> [u8; 32]
        ensures value { result ≡ dstring 32 self }
        ensures label { IsLabel self }
    {
        self.field
    }

    /// The label as a dstring of 128 bytes.
    pub fn dstring_128(self) -> [u8; 128]
        ensures value { result ≡ dstring 128 self }
        ensures label { IsLabel self }
    {
        let mut wide = [0; 128];
        put_spelling(spelling_of(&self.field), &mut wide);
        wide
    }

    /// The dstring of 128 bytes whose text is 16 ASCII characters and then the label.
    pub fn dstring_128_after(self, front: &[u8; 16]) -> [u8; 128]
        requires { IsAscii front.now }
        ensures value { result ≡ dstring 128 (front.now ++ self) }
        ensures label { IsLabel self }
    {
        let (id, rest) = spelling_of(&self.field).split_at(1);
        if id[0] == NARROW {
            joined(NARROW, front, rest)
        } else {
            let mut units = [0; 32];
            widen(front, &mut units);
            joined(WIDE, &units, rest)
        }
    }

    /// The label as text.
    pub fn text(self, alloc: Global) -> Result<String, AllocError>
        ensures { IfOk result (λ text. string_bytes text ≡ self) }
    {
        expand_checked(alloc, spelling_of(&self.field))
    }
}

/// The field of 128 bytes whose spelling comes in three parts.
fn joined(id: u8, front: &[u8], back: &[u8]) -> [u8; 128]
    requires { length front.now + length back.now + 1 < 128 }
    ensures { result ≡ field_of 128 (id ∷ (front.now ++ back.now)) }
{
    let mut field = [0; 128];
    put_joined(id, front, back, &mut field);
    field
}

/// Fills a field with a spelling that comes in three parts, zeros, and the count of its bytes.
fn put_joined(id: u8, front: &[u8], back: &[u8], field: &mut [u8])
    requires room { length front.now + length back.now + 1 < length field.old }
    requires few { length field.old ≤ 256 }
    ensures { field.new ≡ field_of (length field.old) (id ∷ (front.now ++ back.now)) }
{
    let last = field.len() - 1;
    let middle = 1 + front.len();
    let end = middle + back.len();
    field.fill(0);
    field[0] = id;
    field[1..middle].copy_from_slice(front);
    field[middle..end].copy_from_slice(back);
    field[last] = end as u8;
}

impl PartialEq for Label {
    ghost eq = { pointwise nat_eq };

    ghost laws = { partial_equiv_from_equiv nat_list_eq_equiv };

    fn eq(&self, other: &Label) -> bool {
        self.field == other.field
    }
}

impl Eq for Label {
    ghost laws = { nat_list_eq_equiv };
}
