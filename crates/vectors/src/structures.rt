//! Tags, CRCs, timestamps and the fields of descriptors (ECMA-167 1/7, 3/7).

use crate::compare::{NO_QUESTION, fault, shown, words_of};
use crate::trouble::Trouble;
use ecma::{
    CS0, EntityId, ExtentAd, Field, LbAddr, LongAd, Timestamp, crc, open_tag, seal, write_fields,
};
use std::alloc::Global;
use words::{number, read_word};

/// The CRC of the bytes.
pub fn check(alloc: Global, bytes: &[u8]) -> Result<String, Trouble> {
    Ok(format!(in alloc; "{:04X}", crc(bytes))?)
}

/// What the tag says of the descriptor that the bytes are, with the identifier and the location in the words.
pub fn tag(alloc: Global, bytes: &[u8], words: &[&str]) -> Result<String, Trouble> {
    let [id, location] = words else {
        return Err(NO_QUESTION);
    };
    tag_with(alloc, bytes, number(id)?, number(location)?)
}

fn tag_with(alloc: Global, bytes: &[u8], id: u16, location: u32) -> Result<String, Trouble> {
    let tag = match open_tag(bytes, id, location) {
        Ok(tag) => tag,
        Err(found) => return fault(alloc, found.number()),
    };
    if sealed(alloc, bytes, id, location)?.as_slice() != bytes {
        return words_of(alloc, "sealed otherwise");
    }
    Ok(format!(in alloc; "crc {:04X} length {}", tag.crc, tag.crc_length)?)
}

/// The bytes with their tag written again.
fn sealed(alloc: Global, bytes: &[u8], id: u16, location: u32) -> Result<Vec<u8>, Trouble> {
    let mut again = Vec::from_slice(alloc, bytes)?;
    let size = again.len();
    if size < 16 || size > 65_551 {
        return Err(Trouble::Line("no descriptor is so long"));
    }
    again[..16].fill(0);
    seal(id, location, &mut again);
    Ok(again)
}

/// The moment of a timestamp.
pub fn timestamp(alloc: Global, bytes: &[u8]) -> Result<String, Trouble> {
    if bytes.len() != 12 {
        return Err(Trouble::Line("a timestamp has 12 bytes"));
    }
    let mut field = [0; 12];
    field.copy_from_slice(bytes);
    let Some(read) = Timestamp::read(&field) else {
        return words_of(alloc, "none");
    };
    let moment = read.moment();
    match Timestamp::of(moment) {
        Some(again) if again == read && again.to_bytes() == field => {
            Ok(format!(in alloc; "moment {moment}")?)
        }
        _ => words_of(alloc, "written otherwise"),
    }
}

/// The timestamp of a moment.
pub fn moment(alloc: Global, words: &[&str]) -> Result<String, Trouble> {
    let [moment] = words else {
        return Err(NO_QUESTION);
    };
    match Timestamp::of(number(moment)?) {
        Some(stamp) => shown(alloc, &stamp.to_bytes()),
        None => words_of(alloc, "none"),
    }
}

/// Compares the bytes with those of the fields in the words. Returns these words if they are equal, and otherwise the
/// bytes of the fields.
pub fn fields(alloc: Global, bytes: &[u8], said: &str) -> Result<String, Trouble> {
    let mut written = Vec::new(alloc);
    for word in said.split_whitespace() {
        match word.split_once(":") {
            Some((kind, value)) => write_field(field(kind, value)?, &mut written)?,
            None => write_bytes(alloc, word, &mut written)?,
        }
    }
    if written.as_slice() == bytes {
        return words_of(alloc, said);
    }
    shown(alloc, &written)
}

/// The field of a word.
fn field(kind: &str, value: &str) -> Result<Field<'static>, Trouble> {
    match kind {
        "u8" => Ok(Field::U8(number(value)?)),
        "u16" => Ok(Field::U16(number(value)?)),
        "u32" => Ok(Field::U32(number(value)?)),
        "u64" => Ok(Field::U64(number(value)?)),
        "zeros" => Ok(Field::Zeros(number(value)?)),
        "entity_id" => Ok(Field::EntityId(entity(value)?)),
        _ => extent(kind, value),
    }
}

/// Writes the bytes of a word as a field; `cs0` is the character set, and `udf-suffix` the suffix of an identifier of UDF.
fn write_bytes(alloc: Global, word: &str, written: &mut Vec<u8>) -> Result<(), Trouble> {
    let mut held = Vec::new(alloc);
    match word {
        "cs0" => held.extend_from_slice(&CS0)?,
        "udf-suffix" => held.extend_from_slice(&EntityId::UDF_SUFFIX)?,
        _ => read_word(word, &mut held)?,
    }
    write_field(Field::Bytes(&held), written)
}

fn write_field(field: Field<'_>, written: &mut Vec<u8>) -> Result<(), Trouble> {
    let mut room = [0; 64];
    if field.size() > room.len() {
        return Err(Trouble::Line("a field is too long"));
    }
    let size = write_fields(&[field], &mut room);
    written.extend_from_slice(&room[..size.min(64)])?;
    Ok(())
}

fn entity(name: &str) -> Result<EntityId, Trouble> {
    match name {
        "empty" => Ok(EntityId::EMPTY),
        "developer" => Ok(EntityId::DEVELOPER),
        "domain" => Ok(EntityId::DOMAIN),
        _ => Err(Trouble::Line("no such identifier")),
    }
}

/// An extent or an address, by its numbers with commas between them.
fn extent(kind: &str, values: &str) -> Result<Field<'static>, Trouble> {
    let mut numbers = [0u32; 5];
    for (place, value) in numbers.iter_mut().zip(values.split(',')) {
        *place = number(value)?;
    }
    let [first, second, third, fourth, fifth] = numbers;
    match kind {
        "extent_ad" => Ok(Field::ExtentAd(ExtentAd {
            length: first,
            location: second,
        })),
        "lb_addr" => Ok(Field::LbAddr(LbAddr {
            block: first,
            partition: (second % 65_536) as u16,
        })),
        "long_ad" => Ok(Field::LongAd(LongAd {
            length: first,
            block: second,
            partition: (third % 65_536) as u16,
            flags: (fourth % 65_536) as u16,
            unique: fifth,
        })),
        _ => Err(Trouble::Line("no such field")),
    }
}
