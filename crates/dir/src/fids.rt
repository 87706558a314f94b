//! The file identifier descriptors of a directory's data, read one by one (ECMA-167 4/14.4).

ghost use Rattle.limits.specs.declared.TheConstants.{BLOCK_BYTES};
ghost use Rattle.std.specs.Prelude.{◌≡◌, ◌↔◌, ◌+◌, ◌<◌, ◌^◌, IsTrue, length};

use crate::characteristics::Characteristics;
use crate::entry::Entry;
use crate::fault::DirFault;
use crate::item::{FILE_IDENTIFIER, HEAD_SIZE, Item, has_fields};
use crate::size::{fits, plain_size, rounded};
use ecma::{Block, EntityId, are_zeros, open_tag, u16_at, u32_at};
use limits::BLOCK_SIZE;
use osta::Name;
use std::alloc::Global;

/// A file identifier descriptor (ECMA-167 4/14.4), as slices of a block.
#[derive(Clone, Copy)]
pub struct Fid<'a> {
    /// The whole identifier with its tag and its padding.
    pub bytes: &'a [u8],
    /// The 16 bytes of the extent that holds the entry.
    pub icb: &'a [u8],
    /// Its implementation use. It is empty unless the identifier is lengthened.
    pub implementation_use: &'a [u8],
    /// Its name in compressed form. That of the directory above has none.
    pub name: &'a [u8],
}

impl<'a> Fid<'a> {
    ghost use Rattle.std.specs.Prelude.{◌≡◌, ◌+◌, ◌≤◌, ◌<◌, ◌^◌, length, take, drop};

    /// The parts of a whole identifier, by the sizes of its implementation use and its name.
    fn new(bytes: &'a [u8], use_size: usize, name_size: usize) -> Fid<'a>
        requires use_size { use_size < 2 ^ 16 }
        requires name_size { name_size < 2 ^ 8 }
        requires long { 38 + use_size + name_size ≤ length bytes.now }
        ensures bytes { result.bytes.now ≡ bytes.now }
        ensures icb { result.icb.now ≡ take 16 (drop 20 bytes.now) }
        ensures implementation_use { result.implementation_use.now ≡ take use_size (drop 38 bytes.now) }
        ensures name { result.name.now ≡ take name_size (drop (38 + use_size) bytes.now) }
    {
        let (_, rest) = bytes.split_at(HEAD_SIZE);
        let (implementation_use, rest) = rest.split_at(use_size);
        let (name, _) = rest.split_at(name_size);
        Fid {
            bytes,
            icb: &bytes[20..36],
            implementation_use,
            name,
        }
    }
}

impl<'a> Fid<'a> {
    ghost use Rattle.std.specs.Prelude.{◌≡◌, ◌+◌, ◌≤◌, length, take, drop, IfSome, IsSome, ◌↔◌};
    ghost use Rattle.dir.specs.Item.{said};
    ghost use Rattle.dir.specs.Split.{HasHead, IsWholeIdentifier, identifier_in, name_size, use_size};

    /// What the identifier says. `None` if its tag is not one for the block of this number, or its fields are not those
    /// of a file, a directory or a parent.
    pub(crate) fn item(&self, number: u32) -> Option<Item<'a>>
        requires { IsWholeIdentifier self.now }
        ensures exactly { IsSome result ↔ HasHead number self.now.bytes.now }
        ensures describes { IfSome result (λ item. said item ≡ identifier_in self.now.bytes.now) }
    {
        if open_tag(self.bytes, FILE_IDENTIFIER, number).is_err() {
            return None;
        }
        let characteristics = Characteristics::read(self.bytes[18])?;
        if !has_fields(self.bytes) {
            return None;
        }
        Some(Item {
            name: self.name,
            characteristics,
            icb: u32_at(self.bytes, 24),
            unique: u32_at(self.bytes, 32),
        })
    }
}

impl Fid<'_> {
    ghost use Rattle.std.specs.Prelude.{◌≡◌, ◌↔◌, ◌<◌, ◌≤◌, ◌+◌, IsTrue, length};
    ghost use Rattle.dir.specs.Identifier.{use_of};
    ghost use Rattle.dir.specs.Split.{IsWholeIdentifier, IsPadded, IsLengthened, IsUse, HasZeros};

    /// Whether implementation use and padding are as the layout has them, for an identifier at the place `at` of its
    /// block, with the data `after` it.
    pub(crate) fn is_padded(&self, at: usize, after: &[u8]) -> bool
        requires whole { IsWholeIdentifier self.now }
        requires room { at + length self.now.bytes.now ≤ BLOCK_BYTES }
        ensures { IsTrue result ↔ IsPadded at self.now.bytes.now after.now }
    {
        if !self.has_zeros() {
            return false;
        }
        if self.implementation_use.is_empty() {
            return true;
        }
        if !self.has_use() {
            return false;
        }
        self.is_lengthened(at, after)
    }

    /// Whether the bytes after the name are zeros.
    fn has_zeros(&self) -> bool
        requires { IsWholeIdentifier self.now }
        ensures { IsTrue result ↔ HasZeros self.now.bytes.now }
    {
        let name_end = HEAD_SIZE + self.implementation_use.len() + self.name.len();
        let (_, padding) = self.bytes.split_at(name_end);
        are_zeros(padding)
    }

    /// Whether the implementation use is the EntityID of this program and then zeros.
    fn has_use(&self) -> bool
        requires { IsWholeIdentifier self.now }
        ensures { IsTrue result ↔ IsUse self.now.bytes.now }
    {
        let size = self.implementation_use.len();
        let id_size = size.min(32);
        let (id, after) = self.implementation_use.split_at(id_size);
        if !are_zeros(after) {
            return false;
        }
        let developer = EntityId::DEVELOPER.to_bytes();
        id == &developer[..id_size]
    }

    /// Whether the implementation use makes the identifier at `at` reach to the block's end, and the next identifier
    /// did not fit into that block.
    fn is_lengthened(&self, at: usize, after: &[u8]) -> bool
        requires whole { IsWholeIdentifier self.now }
        requires room { at + length self.now.bytes.now ≤ BLOCK_BYTES }
        ensures { IsTrue result ↔ IsLengthened at self.now.bytes.now after.now }
    {
        let size = self.implementation_use.len();
        if size < 32 {
            return false;
        }
        if size % 4 != 0 {
            return false;
        }
        if at + self.bytes.len() != BLOCK_SIZE {
            return false;
        }
        if after.len() < HEAD_SIZE {
            return false;
        }
        !fits(plain_size(usize::from(after[19])), size)
    }
}

/// The file identifiers of a directory's data, in order, up to the first that passes the end of the data or of its
/// block. Only their lengths are looked at.
#[derive(Drop)]
pub struct Fids<'a> {
    /// What is left of the data.
    data: &'a [u8],
    /// Where it begins in its block.
    at: usize,
    /// How many blocks are before that block.
    index: usize,
    ghost in_block: { at < BLOCK_BYTES },
    ghost small: { index + length data.now < 2 ^ 64 },
}

impl<'a> Fids<'a> {
    ghost use Rattle.std.specs.Prelude.{◌≡◌, ◌==◌, if◌then◌else◌, ◌+◌, ◌*◌, ◌^◌, ◌<◌, ◌≤◌, ◌↔◌, length, take, drop, IsOk, IfOk, OnOk, OnErr};
    ghost use Rattle.std.specs.List.{concat};
    ghost use Rattle.dir.specs.Split.{AreBytes, IsSplit, ShowsSlices, size_of};

    /// The identifiers of `size` bytes of data in these blocks.
    pub fn new(blocks: &'a [Block], size: usize) -> Fids<'a>
        requires { size ≤ BLOCK_BYTES * length blocks.now }
        ensures data { result.data.now ≡ take size (concat blocks.now) }
        ensures length { length result.data.now ≡ size }
        ensures bytes { AreBytes result.data.now }
        ensures at { result.at ≡ 0 }
        ensures index { result.index ≡ 0 }
    {
        let (data, _) = blocks.as_flattened().split_at(size);
        Fids::over(data)
    }

    /// The identifiers of these bytes, which begin with a block.
    fn over(bytes: &'a [u8]) -> Fids<'a>
        ensures data { result.data.now ≡ bytes.now }
        ensures bytes { AreBytes result.data.now }
        ensures at { result.at ≡ 0 }
        ensures index { result.index ≡ 0 }
    {
        Fids {
            data: bytes,
            at: 0,
            index: 0,
        }
    }

    /// The next identifier, or the fault of its lengths: `End` or `Span`. After a fault all is as before.
    pub(crate) fn split(&mut self) -> Result<Fid<'a>, DirFault>
        ensures exactly { IsOk result ↔ IsSplit self.old.at self.old.data.now }
        ensures prints { IfOk result (λ fid. ShowsSlices fid self.old.data.now) }
        ensures data { OnOk result (self.new.data.now ≡ drop (size_of self.old.data.now) self.old.data.now) }
        ensures at { OnOk result (let end = self.old.at + size_of self.old.data.now in self.new.at ≡ (if end == BLOCK_BYTES then 0 else end)) }
        ensures index { OnOk result (let end = self.old.at + size_of self.old.data.now in self.new.index ≡ (if end == BLOCK_BYTES then self.old.index + 1 else self.old.index)) }
        ensures err { OnErr result (self.new ≡ self.old) }
    {
        let data = self.data;
        if data.len() < HEAD_SIZE {
            return Err(DirFault::End);
        }
        let name_size = usize::from(data[19]);
        let use_size = usize::from(u16_at(data, 36));
        let size = rounded(HEAD_SIZE + use_size + name_size);
        if size > data.len() {
            return Err(DirFault::End);
        }
        if !fits(size, BLOCK_SIZE - self.at) {
            return Err(DirFault::Span);
        }
        let (bytes, after) = data.split_at(size);
        let end = self.at + size;
        *self = if end == BLOCK_SIZE {
            Fids {
                data: after,
                at: 0,
                index: self.index + 1,
            }
        } else {
            Fids {
                data: after,
                at: end,
                index: self.index,
            }
        };
        Ok(Fid::new(bytes, use_size, name_size))
    }
}

impl<'a> Fids<'a> {
    ghost use Rattle.std.specs.Prelude.{◌≡◌, ◌≢◌, ◌+◌, ◌%◌, ◌^◌, ◌<◌, ◌≤◌, ◌↔◌, ℕ, Bool, true, false, List, ◌∷◌, length, IsTrue, IfOk, IfErr};
    ghost use Rattle.dir.specs.Directory.{of_parent, of_name, IsDirectoryEntry};
    ghost use Rattle.dir.specs.Identifier.{Identifier};
    ghost use Rattle.dir.specs.Item.{said};
    ghost use Rattle.dir.specs.Layout.{laid, FitsInBlock};
    ghost use Rattle.dir.specs.Reads.{ReadsIdentifier, IsInPlace, IsFirstNameShort};
    ghost use Rattle.dir.specs.Split.{AreBytes, FitsIdentifier};
    ghost use Rattle.dir.specs.declared.entry.Entry.{Entry};

    /// Whether no data is left.
    pub(crate) fn is_empty(&self) -> bool
        ensures { IsTrue result ↔ (length self.now.data.now ≡ 0) }
    {
        self.data.is_empty()
    }

    /// Reads the next identifier, which is the first of the data or not. The data's first block
    /// has the number `first`.
    fn read(&mut self, first: u32, is_first: bool) -> Result<Item<'a>, DirFault>
        requires first { first + self.old.index < 2 ^ 32 }
        requires at { self.old.at % 4 ≡ 0 }
        requires bytes { AreBytes self.old.data.now }
        ensures ok { IfOk result (λ item. ReadsIdentifier is_first first self.old self.new (said item)) }
        ensures name { IfOk result (λ item. length item.name.now ≤ 255) }
        // Whatever the layout has there is read.
        ensures err { IfErr result (λ fault. (x : Identifier) (rest : List Identifier) → FitsIdentifier x → IsInPlace is_first x → IsFirstNameShort rest
            → self.old.data.now ≡ laid (first + self.old.index) self.old.at (x ∷ rest) → FitsInBlock self.old.at (x ∷ rest) → ⊥) }
    {
        let at = self.at;
        let number = first + self.index as u32;
        let fid = self.split()?;
        let Some(item) = fid.item(number) else {
            return Err(DirFault::Tag);
        };
        if !item.is_in_place(is_first) {
            return Err(DirFault::Parent);
        }
        if !fid.is_padded(at, self.data) {
            return Err(DirFault::Pad);
        }
        Ok(item)
    }

    /// Reads the identifier of the directory above, the first of the data.
    pub(crate) fn read_parent(&mut self, first: u32) -> Result<u32, DirFault>
        requires first { first + self.old.index < 2 ^ 32 }
        requires at { self.old.at % 4 ≡ 0 }
        requires bytes { AreBytes self.old.data.now }
        ensures ok { IfOk result (λ parent. ReadsIdentifier true first self.old self.new (of_parent parent)) }
        ensures err { IfErr result (λ fault. (parent : ℕ) (rest : List Identifier) → parent < 2 ^ 32 → IsFirstNameShort rest
            → self.old.data.now ≡ laid (first + self.old.index) self.old.at (of_parent parent ∷ rest) → FitsInBlock self.old.at (of_parent parent ∷ rest) → ⊥) }
    {
        let item = self.read(first, true)?;
        Ok(item.icb)
    }

    /// Reads the next name and its entry.
    pub(crate) fn read_name(&mut self, alloc: Global, first: u32) -> Result<(Name, Entry), DirFault>
        requires first { first + self.old.index < 2 ^ 32 }
        requires at { self.old.at % 4 ≡ 0 }
        requires bytes { AreBytes self.old.data.now }
        ensures ok { IfOk result (λ r. ReadsIdentifier false first self.old self.new (of_name r.0 r.1)) }
        ensures entry { IfOk result (λ r. IsDirectoryEntry (r.0, r.1)) }
        ensures err { IfErr result (λ fault. fault ≢ DirFault.Memory → (text : List ℕ) (e : Entry) (rest : List Identifier) → IsDirectoryEntry (text, e) → IsFirstNameShort rest
            → self.old.data.now ≡ laid (first + self.old.index) self.old.at (of_name text e ∷ rest) → FitsInBlock self.old.at (of_name text e ∷ rest) → ⊥) }
    {
        let item = self.read(first, false)?;
        let Some(name) = Name::of(alloc, item.name)? else {
            return Err(DirFault::Name);
        };
        let entry = Entry {
            kind: item.characteristics.kind(),
            virtual_address: item.icb,
            unique: item.unique,
        };
        Ok((name, entry))
    }
}

impl<'a> Iterator for Fids<'a> {
    ghost use Rattle.std.specs.Prelude.{length};
    ghost use Rattle.std.specs.Iterator.{at_most};
    ghost use Rattle.dir.specs.Split.{GivesNext};

    type Item = Fid<'a>;

    ghost next_gives = { GivesNext };

    ghost remaining = { λ f. at_most (length f.data.now) };

    fn next(&mut self) -> Option<Fid<'a>> {
        match self.split() {
            Ok(fid) => Some(fid),
            Err(_) => None,
        }
    }
}
