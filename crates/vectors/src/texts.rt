//! Texts on the medium: spellings, dstrings, names and labels (UDF 2.01 2.1.1 to 2.1.3, ECMA-167 1/7.2.12).

use crate::compare::{fault, shown, words_of};
use crate::trouble::Trouble;
use osta::{Label, Name, NameFault, check_encoding, compress, dstring_read, dstring_write, expand};
use std::alloc::Global;
use std::str;
use words::{number, read_bytes, show_bytes};

/// The bytes of the text in a question.
pub fn written(alloc: Global, question: &str, words: &[&str]) -> Result<String, Trouble> {
    match question {
        "spelling" => spelled(alloc, &text_of(alloc, words)?),
        "name" => named(alloc, &text_of(alloc, words)?),
        "label" => labelled(alloc, &text_of(alloc, words)?),
        _ => in_dstring(alloc, words),
    }
}

/// The text whose UTF-8 is in the words. `empty` is the text without a character.
pub fn text_of(alloc: Global, words: &[&str]) -> Result<String, Trouble> {
    let mut bytes = Vec::new(alloc);
    if words != ["empty"].as_slice() {
        read_bytes(words, &mut bytes)?;
    }
    match str::from_utf8(&bytes) {
        Ok(text) => Ok(String::from_str(alloc, text)?),
        Err(_) => Err(Trouble::Line("no text")),
    }
}

/// A text by its UTF-8.
pub fn show_text(text: &str, out: &mut String) -> Result<(), Trouble> {
    if text.is_empty() {
        out.push_str("empty")?;
        return Ok(());
    }
    show_bytes(text.as_bytes(), out)?;
    Ok(())
}

/// A label by its text.
pub fn tell_label(alloc: Global, label: &Label, out: &mut String) -> Result<(), Trouble> {
    out.push_str("label ")?;
    show_bytes(label.text(alloc)?.as_bytes(), out)?;
    Ok(())
}

fn told(alloc: Global, text: &str) -> Result<String, Trouble> {
    let mut out = String::new(alloc);
    show_text(text, &mut out)?;
    Ok(out)
}

/// The text of a spelling.
pub fn spelling(alloc: Global, bytes: &[u8]) -> Result<String, Trouble> {
    let text = match expand(alloc, bytes) {
        Ok(text) => text,
        Err(found) if check_encoding(bytes) == Err(found) => return fault(alloc, found.number()),
        Err(_) => return words_of(alloc, "two faults"),
    };
    let mut again = Vec::new(alloc);
    if compress(&text, &mut again).is_err() || again.as_slice() != bytes {
        return words_of(alloc, "spelled otherwise");
    }
    told(alloc, &text)
}

/// The spelling of a text, appended to a byte that must stay.
fn spelled(alloc: Global, text: &str) -> Result<String, Trouble> {
    let mut out = vec![in alloc; 7u8]?;
    match compress(text, &mut out) {
        Ok(()) => shown(alloc, out.get(1..).unwrap_or(&[])),
        Err(found) if out.as_slice() == [7].as_slice() => fault(alloc, found.number()),
        Err(_) => words_of(alloc, "something is left"),
    }
}

/// The text of a dstring.
pub fn dstring(alloc: Global, bytes: &[u8]) -> Result<String, Trouble> {
    if bytes.is_empty() || bytes.len() > 256 {
        return Err(Trouble::Line("no dstring is so long"));
    }
    let text = match dstring_read(alloc, bytes) {
        Ok(text) => text,
        Err(found) => return fault(alloc, found.number()),
    };
    let mut again = vec![in alloc; 0xFFu8; bytes.len()]?;
    if again.len() != bytes.len() {
        return Err(Trouble::Memory);
    }
    match dstring_write(&text, &mut again) {
        Ok(()) if again.as_slice() == bytes => told(alloc, &text),
        _ => words_of(alloc, "written otherwise"),
    }
}

/// A text in a dstring whose size is the first word. If the text is refused, the field must stay as it was.
fn in_dstring(alloc: Global, words: &[&str]) -> Result<String, Trouble> {
    let [room, words @ ..] = words else {
        return Err(Trouble::Line("no room"));
    };
    let room = number(room)?;
    let text = text_of(alloc, words)?;
    in_field(alloc, &text, room)
}

/// A text in a dstring of `room` bytes, from 1 to 256.
fn in_field(alloc: Global, text: &str, room: usize) -> Result<String, Trouble> {
    let mut field = [7u8; 256];
    let size = room.min(256).max(1);
    let written = dstring_write(text, &mut field[..size]);
    match written {
        Ok(()) => shown(alloc, &field[..size]),
        Err(found) if field.iter().all(|byte| *byte == 7) => fault(alloc, found.number()),
        Err(_) => words_of(alloc, "something is left"),
    }
}

/// The name of a spelling.
pub fn name(alloc: Global, bytes: &[u8]) -> Result<String, Trouble> {
    let Some(name) = Name::of(alloc, bytes)? else {
        return words_of(alloc, "none");
    };
    match Name::read(alloc, name.as_str()) {
        Ok(again) if again == name && again.compressed() == bytes => told(alloc, name.as_str()),
        _ => words_of(alloc, "read otherwise"),
    }
}

/// The spelling of a name.
fn named(alloc: Global, text: &str) -> Result<String, Trouble> {
    let checked = Name::check(text);
    match Name::read(alloc, text) {
        Ok(name) if checked.is_ok() => shown(alloc, name.compressed()),
        Err(found) if checked == Err(found) => fault(alloc, found.number()),
        _ => words_of(alloc, "checked otherwise"),
    }
}

/// The label of a dstring.
pub fn label(alloc: Global, bytes: &[u8]) -> Result<String, Trouble> {
    let Some(label) = Label::of(bytes) else {
        return words_of(alloc, "none");
    };
    let text = label.text(alloc)?;
    let again = match bytes.len() {
        32 => label.dstring_32().as_slice() == bytes,
        _ => label.dstring_128().as_slice() == bytes,
    };
    if !again || Label::read(&text) != Ok(label) {
        return words_of(alloc, "written otherwise");
    }
    told(alloc, &text)
}

/// The dstring of 32 bytes of a label.
fn labelled(alloc: Global, text: &str) -> Result<String, Trouble> {
    match Label::read(text) {
        Ok(label) => shown(alloc, &label.dstring_32()),
        Err(NameFault::Memory) => Err(Trouble::Memory),
        Err(found) => fault(alloc, found.number()),
    }
}

/// The label after the sixteen digits of a volume set identifier (UDF 2.01 2.2.2.5).
pub fn set_identifier(alloc: Global, bytes: &[u8]) -> Result<String, Trouble> {
    if bytes.is_empty() || bytes.len() > 256 {
        return Err(Trouble::Line("no dstring is so long"));
    }
    match dstring_read(alloc, bytes) {
        Ok(text) => label_after_digits(alloc, &text, bytes),
        Err(found) => fault(alloc, found.number()),
    }
}

/// The label in the text of a volume set identifier, which must be encoded as these bytes.
fn label_after_digits(alloc: Global, text: &str, bytes: &[u8]) -> Result<String, Trouble> {
    let Some((digits, text)) = text.split_at_checked(16) else {
        return words_of(alloc, "none");
    };
    if digits != "0123456789abcdef" {
        return words_of(alloc, "other digits");
    }
    match Label::read(text) {
        Ok(label) if label.dstring_128_after(b"0123456789abcdef").as_slice() == bytes => {
            told(alloc, text)
        }
        _ => words_of(alloc, "written otherwise"),
    }
}
