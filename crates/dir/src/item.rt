//! One file identifier descriptor, as it is written.

ghost use Rattle.limits.specs.declared.TheConstants.{BLOCK_BYTES};
ghost use Rattle.std.specs.Prelude.{◌≡◌, ◌↔◌, ◌≤◌, IsTrue, length};
ghost use Rattle.dir.specs.Identifier.{Identifier, identifier, use_of};
ghost use Rattle.dir.specs.Split.{HasIdentifierFields};

use crate::characteristics::Characteristics;
use crate::entry::Entry;
use bitflags::Flags;
use byteorder::{ByteOrder, LittleEndian};
use ecma::{EntityId, TAG_SIZE, is_u16_at, is_u32_at, seal};
use limits::BLOCK_BYTES;
use osta::Name;

pub(crate) const FILE_IDENTIFIER: u16 = 257;

/// The file version number of each identifier (ECMA-167 4/14.4.2).
const VERSION: u16 = 1;

/// The partition of the extent of the entry: the virtual one.
const PARTITION: u16 = 1;

/// The flags of the extent of the entry.
const FLAGS: u16 = 0;

/// How many bytes of an identifier are before its implementation use.
pub(crate) const HEAD_SIZE: usize = 38;

/// How many bytes are from the end of the tag to the implementation use.
const FIELDS_SIZE: usize = HEAD_SIZE - TAG_SIZE;

/// What a file identifier descriptor says.
#[derive(Clone, Copy)]
pub(crate) struct Item<'a> {
    /// The name in compressed form. That of the directory above has none.
    pub name: &'a [u8],
    pub characteristics: Characteristics,
    /// The virtual address of the entry.
    pub icb: u32,
    pub unique: u32,
}

impl<'a> Item<'a> {
    ghost use Rattle.std.specs.Prelude.{◌≡◌, ◌≤◌, ◌↔◌, Bool, IsTrue, length};
    ghost use Rattle.dir.specs.Directory as directory;
    ghost use Rattle.dir.specs.Directory.{IsDirectoryEntry};
    ghost use Rattle.dir.specs.Item.{said};
    ghost use Rattle.dir.specs.Reads.{IsInPlace};

    /// The identifier of the directory above, by its virtual address.
    pub(crate) fn of_parent(icb: u32) -> Item<'a>
        ensures { said result ≡ directory.of_parent icb }
    {
        Item {
            name: &[],
            characteristics: Characteristics::of_parent(),
            icb,
            unique: 0,
        }
    }

    /// The identifier of a name.
    pub(crate) fn of_name(name: &'a Name, entry: Entry) -> Item<'a>
        ensures value { said result ≡ directory.of_name name.now entry }
        ensures short { length result.name.now ≤ 255 }
        ensures entry { IsDirectoryEntry (name.now, entry) }
    {
        // Unused: it gives the proof that this is a name.
        let _text = name.as_str();
        Item {
            name: name.compressed(),
            characteristics: Characteristics::of(entry.kind),
            icb: entry.virtual_address,
            unique: entry.unique,
        }
    }

    /// For the first identifier of a directory: whether it is the parent's, without a name and a unique ID. For any
    /// other: whether it is not a parent's.
    pub(crate) fn is_in_place(&self, is_first: bool) -> bool
        ensures { IsTrue result ↔ IsInPlace is_first (said self.now) }
    {
        let is_parent = self.characteristics.is_parent();
        if is_first {
            is_parent && self.name.is_empty() && self.unique == 0
        } else {
            !is_parent
        }
    }
}

impl Item<'_> {
    ghost use Rattle.std.specs.Prelude.{◌≡◌, ◌+◌, ◌≤◌, IfSome, length};
    ghost use Rattle.dir.specs.Identifier.{plain_size, head_of, body_of, identifier};
    ghost use Rattle.dir.specs.Item.{said};

    /// Writes the identifier, for the block of this number and lengthened by `more` bytes, over all of `into`.
    pub(crate) fn write(&self, number: u32, more: u16, into: &mut [u8])
        requires name { length self.now.name.now ≤ 255 }
        requires more { more ≤ BLOCK_BYTES }
        requires size { length into.old ≡ plain_size (length self.now.name.now) + more }
        ensures { into.new ≡ identifier number (said self.now) more }
    {
        self.write_body(more, &mut into[TAG_SIZE..]);
        seal(FILE_IDENTIFIER, number, into);
    }

    /// Writes it as `write` does. `kept` has its bytes for block number 0, not lengthened, if these are kept.
    pub(crate) fn write_from(&self, kept: Option<&[u8]>, number: u32, more: u16, into: &mut [u8])
        requires kept { IfSome kept (λ bytes. bytes.now ≡ identifier 0 (said self.now) 0) }
        requires name { length self.now.name.now ≤ 255 }
        requires more { more ≤ BLOCK_BYTES }
        requires size { length into.old ≡ plain_size (length self.now.name.now) + more }
        ensures { into.new ≡ identifier number (said self.now) more }
    {
        match kept {
            Some(bytes) if more == 0 => {
                into.copy_from_slice(bytes);
                relocate(number, into);
            }
            _ => self.write(number, more, into),
        }
    }

    /// Writes what is after the tag over all of `into`.
    fn write_body(&self, more: u16, into: &mut [u8])
        requires name { length self.now.name.now ≤ 255 }
        requires more { more ≤ BLOCK_BYTES }
        requires size { length into.old + 16 ≡ plain_size (length self.now.name.now) + more }
        ensures { into.new ≡ body_of (said self.now) more }
    {
        let use_end = FIELDS_SIZE + usize::from(more);
        let name_end = use_end + self.name.len();
        self.write_fields(more, &mut into[..FIELDS_SIZE]);
        write_use(&mut into[FIELDS_SIZE..use_end]);
        into[use_end..name_end].copy_from_slice(self.name);
        into[name_end..].fill(0);
    }

    /// Writes the fields between the tag and the implementation use over all of `into`.
    fn write_fields(&self, more: u16, into: &mut [u8])
        requires name { length self.now.name.now ≤ 255 }
        requires size { length into.old ≡ 22 }
        ensures { into.new ≡ head_of self.now.characteristics.0 (length self.now.name.now) self.now.icb self.now.unique more }
    {
        LittleEndian::write_u16(&mut into[..2], VERSION); // 16 file version number
        into[2] = self.characteristics.bits(); // 18 file characteristics
        into[3] = self.name.len() as u8; // 19 length of file identifier
        LittleEndian::write_u32(&mut into[4..8], BLOCK_BYTES); // 20 ICB: extent length
        LittleEndian::write_u32(&mut into[8..12], self.icb); // 24 extent location: block number
        LittleEndian::write_u16(&mut into[12..14], PARTITION); // 28 partition
        LittleEndian::write_u16(&mut into[14..16], FLAGS); // 30 implementation use: flags
        LittleEndian::write_u32(&mut into[16..20], self.unique); // 32 unique ID
        LittleEndian::write_u16(&mut into[20..], more); // 36 length of implementation use
    }
}

/// Whether the fields between the tag and the implementation use that are the same in each identifier are as they must
/// be.
pub(crate) fn has_fields(bytes: &[u8]) -> bool
    requires { 38 ≤ length bytes.now }
    ensures { IsTrue result ↔ HasIdentifierFields bytes.now }
{
    if !is_u16_at(VERSION, bytes, 16) {
        return false;
    }
    if !is_u32_at(BLOCK_BYTES, bytes, 20) {
        return false;
    }
    if !is_u16_at(PARTITION, bytes, 28) {
        return false;
    }
    is_u16_at(FLAGS, bytes, 30)
}

/// Moves an identifier from block 0 to the block of this number. Its CRC covers no byte of the tag, so it stays.
pub(crate) fn relocate(number: u32, bytes: &mut [u8])
    requires { TAG_SIZE ≤ length bytes.old }
    ensures { (x : Identifier) → bytes.old ≡ identifier 0 x 0 → bytes.new ≡ identifier number x 0 }
{
    let location = number.to_le_bytes();
    let [a, b, c, d] = location;
    let sum = u32::from(bytes[4]) + u32::from(a) + u32::from(b) + u32::from(c) + u32::from(d);
    bytes[4] = (sum % 256) as u8; // 4 tag checksum
    bytes[12..TAG_SIZE].copy_from_slice(&location); // 12 tag location
}

/// Writes the implementation use that lengthens an identifier over all of `into`: the entity identifier of this
/// program, and zeros.
fn write_use(into: &mut [u8])
    ensures { into.new ≡ use_of (length into.old) }
{
    if into.is_empty() {
        return;
    }
    let developer = EntityId::DEVELOPER.to_bytes();
    let size = into.len().min(developer.len());
    into[..size].copy_from_slice(&developer[..size]);
    into[size..].fill(0);
}
