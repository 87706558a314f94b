//! A directory as blocks, one by one.

ghost use Rattle.limits.specs.declared.TheConstants.{BLOCK_BYTES, DIRECTORY_NAMES, PARTITION_BLOCKS};
ghost use Rattle.std.specs.Prelude.{min, ◌≡◌, ◌+◌, ◌-◌, ◌<◌, ◌≤◌, ◌++◌, drop, length, take, replicate, slice_get, IfSome};
ghost use Rattle.std.specs.Option.{ForSome, option_map};
ghost use Rattle.dir.specs.Directory.{identifiers_of};
ghost use Rattle.dir.specs.Fronts.{AreKnown, AreLeft};
ghost use Rattle.dir.specs.Identifier as spec;
ghost use Rattle.dir.specs.Split.{name_size};
ghost use Rattle.dir.specs.Item.{said};

use crate::entry::Dir;
use crate::item::{Item, relocate};
use crate::kept::Identifiers;
use crate::size::{fits, plain_size};
use ecma::Block;
use limits::{BLOCK_SIZE, DIRECTORY_NAMES, PARTITION_BLOCKS};

/// Where an identifier has the length of its name (ECMA-167 4/14.4).
const NAME_SIZE: usize = 19;

/// The blocks of a directory, in order, each made when it is asked for. It allocates no memory.
#[derive(Drop)]
pub struct Lay<'a> {
    dir: &'a Dir,
    /// How many identifiers are laid, of which the first is the parent's.
    next: usize,
    /// The next identifier, if there is one.
    item: Option<Item<'a>>,
    /// The number of the next block.
    number: u32,
    /// How many of the names' identifiers are kept as bytes.
    known: usize,
    /// The bytes of those kept identifiers that are not laid yet.
    kept: &'a [u8],
    ghost few: { length dir.now.entries.entries ≤ DIRECTORY_NAMES },
    ghost laid: { next ≤ length dir.now.entries.entries + 1 },
    ghost numbers: { number ≤ PARTITION_BLOCKS + next },
    ghost said: { option_map said item ≡ slice_get (identifiers_of dir.now) next },
    ghost short: { ForSome item (λ item. length item.name.now ≤ 255) },
    ghost known_are: { AreKnown known dir.now.entries.entries },
    ghost left: { AreLeft known next dir.now.entries.entries kept.now },
}

impl<'a> Lay<'a> {
    ghost use Rattle.std.specs.Prelude.{◌≡◌, ◌≤◌, ◌-◌, ◌+◌, ◌++◌, [], ◌∷◌, length, take, drop, replicate, slice_get, Some, IfSome, IsTrue, MatchOption, IfNone, false};
    ghost use Rattle.std.specs.Option.{option_map};
    ghost use Rattle.ecma.specs.Numbers.{u16_at};
    ghost use Rattle.dir.specs.Directory.{directory_blocks, identifiers_of};
    ghost use Rattle.dir.specs.Item.{said};
    ghost use Rattle.dir.specs.Fronts.{IsIdentifierPrefix};
    ghost use Rattle.dir.specs.Laying.{blocks_left, identifiers_left, IsFilled};
    ghost use Rattle.dir.specs.Layout.{identifier_end, FitsInBlock};
    ghost use Rattle.dir.specs.declared.laying.Lay.{Lay};
    ghost use Rattle.dir.specs.Identifier.{plain_size, identifier};

    /// The blocks of a directory, of which the first has the number `first`.
    pub fn new(dir: &'a Dir, first: u32) -> Lay<'a>
        requires few { length dir.now.entries.entries ≤ DIRECTORY_NAMES }
        requires first { first ≤ PARTITION_BLOCKS }
        ensures { blocks_left result ≡ directory_blocks dir.now first }
    {
        Lay {
            dir,
            next: 0,
            item: Some(Item::of_parent(dir.parent)),
            number: first,
            known: 0,
            kept: &[],
        }
    }

    /// The same blocks, made with the identifiers that are kept of its first names.
    pub fn over(dir: &'a Dir, identifiers: &'a Identifiers, first: u32) -> Lay<'a>
        requires front { IsIdentifierPrefix identifiers.now dir.now.entries.entries }
        requires few { length dir.now.entries.entries ≤ DIRECTORY_NAMES }
        requires first { first ≤ PARTITION_BLOCKS }
        ensures { blocks_left result ≡ directory_blocks dir.now first }
    {
        Lay {
            dir,
            next: 0,
            item: Some(Item::of_parent(dir.parent)),
            number: first,
            known: identifiers.count,
            kept: identifiers.bytes.as_slice(),
        }
    }

    /// The next block, or `None` after the last.
    pub fn next_block(&mut self) -> Option<Block>
        ensures next { MatchOption result (blocks_left self.old ≡ []) (λ block. blocks_left self.old ≡ block ∷ blocks_left self.new) }
        ensures ended { IfNone result (blocks_left self.new ≡ []) }
        // It begins with an identifier's tag, and so is no file entry.
        ensures tag { IfSome result (λ block. u16_at 0 block ≡ 257) }
    {
        let mut block = [0; BLOCK_SIZE];
        if !self.next_into(&mut block) {
            return None;
        }
        Some(block)
    }

    /// Writes the next block over all of this one. Returns whether there was one.
    pub fn next_into(&mut self, block: &mut Block) -> bool
        ensures some { IsTrue result → blocks_left self.old ≡ block.new ∷ blocks_left self.new }
        ensures none { result ≡ false → blocks_left self.old ≡ [] }
        ensures ended { result ≡ false → blocks_left self.new ≡ [] }
        ensures stays { result ≡ false → block.new ≡ block.old }
        ensures tag { IsTrue result → u16_at 0 block.new ≡ 257 }
    {
        if self.item.is_none() {
            return false;
        }
        let mut at = 0;
        while at < BLOCK_SIZE {
            at = self.put_kept(at, block);
            let Some(item) = self.item else {
                break;
            };
            at = self.put(&item, at, block);
        }
        clear_after(block, at);
        self.number += 1;
        true
    }

    /// Writes the next kept identifiers from `start` of the block on, as long as the one after each is kept too and
    /// fits into the block. Returns where they end. Their names are not looked at.
    fn put_kept(&mut self, start: usize, block: &mut Block) -> usize
        requires inside { start < BLOCK_BYTES }
        requires stood { FitsInBlock start (identifiers_left self.old) }
        ensures within { result < BLOCK_BYTES }
        ensures onward { start ≤ result }
        ensures filled { (from : Lay) → IsFilled from self.old start block.old → IsFilled from self.new result block.new }
    {
        if self.next == 0 || self.next >= self.known {
            return start;
        }
        copy_front(self.kept, &mut block[start..]);
        let mut at = start;
        let mut next = self.next;
        let mut kept = self.kept;
        while next < self.known {
            let (one, after) = kept.split_at(kept_size(kept));
            let end = at + one.len();
            if !fits(kept_size(after), BLOCK_SIZE - end) {
                break;
            }
            relocate(self.number, &mut block[at..end]);
            at = end;
            kept = after;
            next += 1;
        }
        self.kept = kept;
        self.next = next;
        self.item = name_at(self.dir, next - 1);
        at
    }

    /// Writes the next identifier at a place of the block. Returns where it ends.
    fn put(&mut self, item: &Item<'a>, at: usize, block: &mut Block) -> usize
        requires next { slice_get (identifiers_of self.old.dir.now) self.old.next ≡ Some (said item.now) }
        requires short { length item.now.name.now ≤ 255 }
        requires room { at + plain_size (length item.now.name.now) ≤ BLOCK_BYTES }
        ensures dir { self.new.dir ≡ self.old.dir }
        ensures next { self.new.next ≡ self.old.next + 1 }
        ensures number { self.new.number ≡ self.old.number }
        ensures end { result ≡ identifier_end at (said item.now) (identifiers_left self.new) }
        ensures within { result ≤ BLOCK_BYTES }
        ensures onward { at + plain_size (length item.now.name.now) ≤ result }
        ensures block { block.new ≡ take at block.old ++ (identifier self.old.number (said item.now) (result - (at + plain_size (length item.now.name.now))) ++ drop result block.old) }
    {
        let kept = self.pass(item);
        let end = at + plain_size(item.name.len());
        let full = match &self.item {
            Some(next) => !fits(plain_size(next.name.len()), BLOCK_SIZE - end),
            None => false,
        };
        let after = if full { BLOCK_SIZE } else { end };
        let more = (after - end) as u16;
        item.write_from(kept, self.number, more, &mut block[at..after]);
        after
    }

    /// Goes past the next identifier. Returns its bytes for block number 0, not lengthened, if they are kept.
    fn pass(&mut self, item: &Item<'a>) -> Option<&'a [u8]>
        requires next { slice_get (identifiers_of self.old.dir.now) self.old.next ≡ Some (said item.now) }
        requires short { length item.now.name.now ≤ 255 }
        ensures dir { self.new.dir ≡ self.old.dir }
        ensures next { self.new.next ≡ self.old.next + 1 }
        ensures number { self.new.number ≡ self.old.number }
        ensures kept { IfSome result (λ bytes. bytes.now ≡ identifier 0 (said item.now) 0) }
    {
        let next = self.next;
        self.next += 1;
        self.item = name_at(self.dir, next);
        if next == 0 || next > self.known {
            return None;
        }
        let (bytes, after) = self.kept.split_at(plain_size(item.name.len()));
        self.kept = after;
        Some(bytes)
    }
}

/// The identifier of the name at an index, if there is one.
fn name_at(dir: &Dir, index: usize) -> Option<Item<'_>>
    ensures value { option_map said result ≡ slice_get (identifiers_of dir.now) (index + 1) }
    ensures short { IfSome result (λ item. length item.name.now ≤ 255) }
{
    let (name, entry) = dir.entries.get_index(index)?;
    Some(Item::of_name(name, *entry))
}

/// The size of the identifier at the beginning of these bytes, if it is not lengthened.
fn kept_size(bytes: &[u8]) -> usize
    requires { 20 ≤ length bytes.now }
    ensures { result ≡ spec.plain_size (name_size bytes.now) }
{
    plain_size(usize::from(bytes[NAME_SIZE]))
}

/// Copies bytes over the beginning of `into`, as many as fit.
fn copy_front(bytes: &[u8], into: &mut [u8])
    ensures { let count = min (length bytes.now) (length into.old) in into.new ≡ take count bytes.now ++ drop count into.old }
{
    let count = bytes.len().min(into.len());
    into[..count].copy_from_slice(&bytes[..count]);
}

/// Fills a block with zeros from a place on.
fn clear_after(block: &mut Block, at: usize)
    requires { at ≤ BLOCK_BYTES }
    ensures { block.new ≡ take at block.old ++ replicate (BLOCK_BYTES - at) 0 }
{
    block[at..].fill(0);
}
