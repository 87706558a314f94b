//! An image file that gathers: which blocks the file has, and which wait in memory.
//!
//! The block that was written last may be a mark, so it waits until another is written or its commit ends. A mark waits
//! until all other blocks of its group are synced. Meanwhile the file has zeros in its place, and while the marks are
//! written it ends with the head of the group.
ghost use Rattle.limits.specs.declared.TheConstants.{BLOCK_BYTES};
ghost use Rattle.std.specs.Prelude.{◌≡◌, ◌+◌, ◌<◌, ◌^◌, length, true, false, IfOk, OnOk};

use crate::head::{Head, MOST_MARKS, begins_as_head, forget_marks, is_blank};
use drive::{DriveFault, Image};
use limits::{BLOCK_SIZE, Block};
use std::alloc::Global;
use std::slice;

/// What comes after the last block of a file.
#[derive(Clone, Copy, Debug, PartialEq, Eq)]
enum Tail {
    Nothing,
    /// Nothing, but the disk may still have the head of a group that was settled.
    HeadWasCut,
    /// A part of a block.
    Part,
}

/// An image file, and the blocks of a group that it was not given yet. Its user keeps how many blocks there are, those
/// that wait included, and passes that count.
#[derive(Drop)]
pub(crate) struct GroupImage {
    image: Image,
    /// How many blocks the file has. Outside a group all of them are synced.
    shown: u32,
    tail: Tail,
    pub(crate) gathers: bool,
    /// How many blocks the file had when the group began. They are synced.
    begun: u32,
    /// The block that was written last, if it waits.
    last: Option<Block>,
    /// The marks that wait, each with its address.
    marks: Vec<(u32, Block)>,
    /// How many of the marks the file may have, which are not all synced.
    given: usize,
    /// To how many blocks the file must be cut back before anything else is done with it.
    owed: Option<u32>,
    /// The group cannot be settled, and takes no more blocks.
    is_spoiled: bool,
}

impl GroupImage {
    /// An image of so many blocks, all of them synced. After them it has a part of a block, or nothing.
    pub(crate) fn new(alloc: Global, image: Image, shown: u32, has_part: bool) -> GroupImage
        ensures { result.gathers ≡ false }
    {
        GroupImage {
            image,
            shown,
            tail: if has_part { Tail::Part } else { Tail::Nothing },
            gathers: false,
            begun: shown,
            last: None,
            marks: Vec::new(alloc),
            given: 0,
            owed: None,
            is_spoiled: false,
        }
    }

    /// Counts only the first `count` blocks of the file. One that is open to write is cut back to these. Before that the
    /// disk gets zeros for the marks that the head at its end tells of, as `finish_cut` has it.
    pub(crate) fn keep(&mut self, count: u32, head: &[u8]) -> Result<(), DriveFault>
        ensures { self.new.gathers ≡ self.old.gathers }
    {
        if count >= self.shown {
            return Ok(());
        }
        if self.image.is_open_to_write() {
            forget_marks(&mut self.image, self.shown, head)?;
        }
        self.shown = count;
        self.cut_tail();
        Ok(())
    }

    /// Whether the file has exactly the blocks that it was given, and a name. Outside a group these must be all.
    pub(crate) fn is_as_given(&mut self, count: u32) -> bool
        ensures { self.new.gathers ≡ self.old.gathers }
    {
        self.finish_cut().is_ok()
            && (self.gathers || self.shown == count)
            && self.image.has(self.shown) == Ok(true)
    }

    /// Reads the block at an address, from the file or from those that wait.
    pub(crate) fn read(&mut self, count: u32, at: u32, into: &mut Block) -> Result<(), DriveFault>
        ensures { self.new.gathers ≡ self.old.gathers }
    {
        if let Some(block) = self.waiting(count, at) {
            *into = *block;
            return Ok(());
        }
        self.finish_cut()?;
        self.image.read(self.shown, at, into)
    }

    /// The block at an address, if it waits.
    fn waiting(&self, count: u32, at: u32) -> Option<&Block> {
        if !self.gathers || at < self.begun {
            return None;
        }
        if at == count.saturating_sub(1) && self.last.is_some() {
            return self.last.as_ref();
        }
        for mark in &self.marks {
            if mark.0 == at {
                return Some(&mark.1);
            }
        }
        None
    }

    /// Reads the bytes after the last whole block of the file to the beginning of `into`. Returns how many there are.
    pub(crate) fn part(&self, into: &mut Block) -> Result<usize, DriveFault>
        ensures { IfOk result (λ n. n < BLOCK_BYTES) }
    {
        self.image.part(into)
    }

    /// Makes the system begin to read these blocks.
    pub(crate) fn read_soon(&self, at: u32, count: u32) {
        self.image.read_soon(at, count);
    }

    /// Writes the blocks of both slices, the second after the first. Outside a group they are synced. Blocks for another
    /// address than the next one are a fault. If it fails, it adds no block.
    pub(crate) fn write(
        &mut self,
        count: u32,
        at: u32,
        first: &[Block],
        second: &[Block],
    ) -> Result<(), DriveFault>
        requires { at + (length first.now + length second.now) < 2 ^ 32 }
        ensures next { OnOk result (at ≡ count) }
        ensures gathers { self.new.gathers ≡ self.old.gathers }
    {
        if at != count {
            return Err(DriveFault);
        }
        self.finish_cut()?;
        self.trim(first.first().or(second.first()));
        if self.gathers {
            return self.gather_more(at, first, second);
        }
        self.image.append(self.shown, at, first, second)?;
        self.shown = at + (first.len() + second.len()) as u32;
        Ok(())
    }

    /// Takes the blocks of both slices into the group. The last one waits in place of the one before these.
    fn gather_more(&mut self, at: u32, first: &[Block], second: &[Block]) -> Result<(), DriveFault>
        requires { at + (length first.now + length second.now) < 2 ^ 32 }
        ensures { self.new.gathers ≡ self.old.gathers }
    {
        if self.is_spoiled {
            return Err(DriveFault);
        }
        if let Some((last, others)) = second.split_last() {
            self.give(at, first, others)?;
            self.last = Some(*last);
        } else if let Some((last, others)) = first.split_last() {
            self.give(at, others, second)?;
            self.last = Some(*last);
        }
        Ok(())
    }

    /// Gives the file the block that waits, and after it those of both slices. If it fails, the file is cut back.
    fn give(&mut self, at: u32, first: &[Block], second: &[Block]) -> Result<(), DriveFault>
        requires { at + (length first.now + length second.now) < 2 ^ 32 }
        ensures { self.new.gathers ≡ self.old.gathers }
    {
        let mut shown = self.shown;
        if let Some(block) = &self.last {
            let before = at.saturating_sub(1);
            self.image
                .give(self.shown, before, slice::from_ref(block), &[])?;
            shown = at;
        }
        let count = (first.len() + second.len()) as u32;
        if count > 0 {
            // It is still told the count from before, so that a failure cuts off the block that waited too.
            self.image.give(self.shown, at, first, second)?;
            shown = at + count;
        }
        self.shown = shown;
        Ok(())
    }

    /// Cuts off a part of a block at the end of the file, so that the places of marks there are zeros. If the next block
    /// begins as a head does, this also waits until the disk knows that the head before it was cut off. For a power loss
    /// may leave the length that the file had with the head, and in the head's place the first bytes of this block.
    fn trim(&mut self, next: Option<&Block>)
        ensures { self.new.gathers ≡ self.old.gathers }
    {
        let is_due = match self.tail {
            Tail::Nothing => false,
            Tail::HeadWasCut => next.is_some_and(|block| begins_as_head(block)),
            Tail::Part => true,
        };
        if is_due {
            self.cut_tail();
        }
    }

    /// Cuts off what comes after the blocks that the file has. A file that is only read is left as it is.
    fn cut_tail(&mut self)
        ensures { self.new.gathers ≡ self.old.gathers }
    {
        if self.image.is_open_to_write() {
            self.image.cut(self.shown);
            self.tail = Tail::Nothing;
        }
    }

    /// Begins a group, unless one has begun.
    pub(crate) fn gather(&mut self, count: u32)
        ensures { self.new.gathers ≡ true }
    {
        if !self.gathers {
            let is_ready = self.finish_cut().is_ok();
            self.begun = self.shown;
            self.is_spoiled = !is_ready || self.shown != count;
        }
        self.gathers = true;
    }

    /// The block that was written last is a mark. If there is no memory, or no such block, the group is spoiled.
    pub(crate) fn end_commit(&mut self, count: u32)
        ensures { self.new.gathers ≡ self.old.gathers }
    {
        let Some(block) = self.last else {
            self.is_spoiled = true;
            return;
        };
        if self.marks.push((count.saturating_sub(1), block)).is_ok() {
            self.last = None;
        } else {
            self.is_spoiled = true;
        }
    }

    /// Whether a settle is for the group that waits.
    pub(crate) fn is_due(&self, from: u32, marks: &[u32]) -> bool {
        self.gathers
            && !self.is_spoiled
            && self.last.is_none()
            && marks.len() <= MOST_MARKS
            && from == self.begun
            && self.marks.len() == marks.len()
            && self
                .marks
                .iter()
                .zip(marks)
                .all(|(mark, told)| mark.0 == *told)
    }

    /// Whether the file was given a block of the group.
    pub(crate) fn has_given(&self) -> bool {
        self.gathers && self.shown > self.begun
    }

    /// Waits until the disk has all blocks of the group but the marks, zeros in place of these, and the head. A group of
    /// one mark needs none: that mark is there or not.
    pub(crate) fn sync_blanks(&mut self, count: u32) -> Result<(), DriveFault>
        ensures { self.new.gathers ≡ self.old.gathers }
    {
        // A group with no block has nothing to sync.
        if self.begun == count {
            return Ok(());
        }
        self.shown = count;
        if self.marks.len() > 1 {
            self.tail = Tail::Part;
            let head = Head::new(self.begun, count, &self.marks);
            self.image.put_part(count, &head.bytes())?;
        }
        self.image.sync(count)
    }

    /// Gives the file the marks, and waits until the disk has them. Then it cuts off the head.
    pub(crate) fn sync_marks(&mut self, count: u32) -> Result<(), DriveFault>
        ensures { self.new.gathers ≡ self.old.gathers }
    {
        if self.begun == count {
            return Ok(());
        }
        for mark in &self.marks {
            self.given = self.given.saturating_add(1);
            if self.image.fill(mark.0, &mark.1).is_err() {
                // If the disk has no room for the place, there will be none for zeros either: but it has them.
                if is_blank(&mut self.image, count, mark.0) == Ok(true) {
                    self.given = self.given.saturating_sub(1);
                }
                return Err(DriveFault);
            }
        }
        self.image.sync(count)?;
        self.given = 0;
        if self.tail == Tail::Part && self.image.drop_part(count).is_ok() {
            self.tail = Tail::HeadWasCut;
        }
        Ok(())
    }

    /// Ends the group. Its blocks stay.
    pub(crate) fn end(&mut self)
        ensures { self.new.gathers ≡ false }
    {
        self.gathers = false;
        self.last = None;
        self.marks.clear();
    }

    /// Ends the group, and cuts the file back to its blocks below an address that are synced. If others were below that
    /// address, they are lost, and each later write fails.
    pub(crate) fn cut(&mut self, from: u32)
        ensures { self.new.gathers ≡ false }
    {
        let synced = if self.gathers { self.begun } else { self.shown };
        let kept = from.min(synced);
        if kept < self.shown {
            self.owed = Some(self.owed.map_or(kept, |owed| owed.min(kept)));
            // What fails here is done before the next call.
            let _ = self.finish_cut();
        }
        self.gathers = false;
        self.last = None;
        if self.given == 0 {
            self.marks.clear();
        }
    }

    /// Does what is left of a cut. First the disk gets zeros for all marks that it may have. For a power loss in the cut
    /// may leave the length from before it, and zeros up to the end of the page in which it cuts: then no mark may lead
    /// to these.
    fn finish_cut(&mut self) -> Result<(), DriveFault>
        ensures { self.new.gathers ≡ self.old.gathers }
    {
        let Some(kept) = self.owed else {
            return Ok(());
        };
        if self.given > 0 {
            for mark in self.marks.iter().take(self.given) {
                self.image.fill(mark.0, &[0; BLOCK_SIZE])?;
            }
            self.image.sync(self.shown)?;
            self.given = 0;
            self.marks.clear();
        }
        self.image.cut(kept);
        self.shown = kept;
        self.tail = Tail::Nothing;
        self.owed = None;
        Ok(())
    }
}
