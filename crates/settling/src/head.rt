//! The head of a group: 280 bytes after the last block of an image, by which opening finds the whole group or nothing
//! of it.
//!
//! While a group is settled some of its marks may be on the disk and others not. So the head goes to the disk with the
//! other blocks, before any mark, and says where the group begins and where its marks are. Where a file ends with a head
//! and one of these marks is missing, the group was never settled, and nothing of it was answered. When the marks are
//! synced the head is cut off. That is not synced: a head that is left is harmless, since all its marks are there.
//!
//! A head lies where the next block goes. So whoever writes on removes it, and no program counts it as a block. These
//! are its numbers, of 32 bits, the lowest byte first:
//!
//! | Offset | Bytes | |
//! |---|---|---|
//! | 0 | 8 | `UDFGROUP` |
//! | 8 | 4 | the address of the group's first block |
//! | 12 | 4 | how many blocks there are, those of the group included |
//! | 16 | 4 | how many marks |
//! | 20 | 256 | the address of each mark, in order, and then zeros |
//! | 276 | 4 | a sum of the bytes before it: FNV-1a |
//!
//! The data of a file is no head. It goes out in whole blocks, by one write, and a write that fails is cut back. A file
//! system that loses power tears a file at a multiple of 512 bytes, or at a length that it had. So a part of exactly 280
//! bytes is a head, or what was written over a head before the disk knew that it was cut off. `GroupImage` makes the disk
//! know before it writes a block there that begins as a head does.
ghost use Rattle.byteorder.specs.Endian.{little_number};
ghost use Rattle.std.specs.Prelude.{◌≡◌, ◌⊎◌, ◌+◌, ◌≤◌, length, take, drop, IfOk, IfSome, IsTrue};
ghost use Rattle.settling.specs.Head.{IsHead, magic};
ghost use Rattle.settling.specs.declared.head.TheConstants.{HEAD_BYTES, MOST_MARKS};

use byteorder::{ByteOrder, LittleEndian};
use drive::{DriveFault, Image};
use limits::{BLOCK_SIZE, Block};

/// The most marks of a group that can be settled.
pub const MOST_MARKS: usize = 64;

/// How a head begins.
const MAGIC: [u8; 8] = *b"UDFGROUP";

/// Where the addresses of the marks are.
const MARKS_AT: usize = 20;

/// Where the sum is.
const SUM_AT: usize = MARKS_AT + 4 * MOST_MARKS;

/// How many bytes a head has.
const HEAD_BYTES: usize = SUM_AT + 4;

/// What a head says.
#[derive(Drop)]
pub(crate) struct Head {
    from: u32,
    count: u32,
    marks: [u32; MOST_MARKS],
    used: usize,
    ghost fits: { used ≤ MOST_MARKS },
}

impl Head {
    /// The head of a group with these marks. Only the first [`MOST_MARKS`] of them are told.
    pub(crate) fn new(from: u32, count: u32, marks: &[(u32, Block)]) -> Head {
        let mut told = [0; MOST_MARKS];
        for (place, mark) in told.iter_mut().zip(marks) {
            *place = mark.0;
        }
        Head {
            from,
            count,
            marks: told,
            used: marks.len().min(MOST_MARKS),
        }
    }

    /// The head that these bytes are, if they are one of a file of so many blocks, and its marks lie in its group.
    fn of(part: &[u8], count: u32) -> Option<Head>
        ensures { IfSome result (λ h. IsHead part.now h.from count) }
    {
        if part.len() != HEAD_BYTES || !begins_as_head(part) || !has_sum(part) {
            return None;
        }
        let from = number_at(part, 8);
        let used = number_at(part, 16) as usize;
        if number_at(part, 12) != count || from > count || used > MOST_MARKS {
            return None;
        }
        let marks = marks_of(part);
        if are_marks(&marks[..used], from, count) {
            Some(Head {
                from,
                count,
                marks,
                used,
            })
        } else {
            None
        }
    }

    /// The head as it lies in the file.
    pub(crate) fn bytes(&self) -> [u8; HEAD_BYTES] {
        let mut bytes = [0; HEAD_BYTES];
        bytes[..MAGIC.len()].copy_from_slice(&MAGIC);
        put_number(&mut bytes, 8, self.from);
        put_number(&mut bytes, 12, self.count);
        put_number(&mut bytes, 16, self.used as u32);
        put_marks(&mut bytes, &self.marks);
        let sum = sum_of(&bytes);
        put_number(&mut bytes, SUM_AT, sum);
        bytes
    }

    fn marks(&self) -> &[u32] {
        &self.marks[..self.used]
    }

    /// Whether a mark of the group is missing from the file.
    fn lacks_mark(&self, image: &mut Image) -> Result<bool, DriveFault> {
        for at in self.marks() {
            if is_blank(image, self.count, *at)? {
                return Ok(true);
            }
        }
        Ok(false)
    }
}

/// How many of a file's blocks count, by the bytes after the last one: all, or if these are the head of a group that was
/// not settled, those before the group.
pub(crate) fn counted(image: &mut Image, count: u32, part: &[u8]) -> Result<u32, DriveFault>
    ensures { IfOk result (λ n. (n ≡ count) ⊎ IsHead part.now n count) }
{
    let Some(head) = Head::of(part, count) else {
        return Ok(count);
    };
    if head.lacks_mark(image)? {
        Ok(head.from)
    } else {
        Ok(count)
    }
}

/// Gives the disk zeros for the marks of the group whose head these bytes are, in a file of so many blocks.
pub(crate) fn forget_marks(image: &mut Image, count: u32, part: &[u8]) -> Result<(), DriveFault> {
    let Some(head) = Head::of(part, count) else {
        return Ok(());
    };
    for at in head.marks() {
        // The disk may have no room for a place that was left out.
        if !is_blank(image, count, *at)? {
            image.fill(*at, &[0; BLOCK_SIZE])?;
        }
    }
    image.sync(count)
}

/// Whether a file of so many blocks has zeros at an address.
pub(crate) fn is_blank(image: &mut Image, count: u32, at: u32) -> Result<bool, DriveFault> {
    let mut block = [0; BLOCK_SIZE];
    image.read(count, at, &mut block)?;
    Ok(block.iter().all(|byte| *byte == 0))
}

/// Whether these are addresses of marks: in order, and the last of them that of the group's last block.
fn are_marks(marks: &[u32], from: u32, count: u32) -> bool {
    let mut least = from;
    for at in marks {
        if *at < least || *at >= count {
            return false;
        }
        least = *at + 1;
    }
    from > 0 && least == count
}

/// Whether the bytes begin as those of a head.
pub(crate) fn begins_as_head(bytes: &[u8]) -> bool
    ensures { IsTrue result → take 8 bytes.now ≡ magic }
{
    bytes.starts_with(&MAGIC)
}

/// The number in the four bytes from `at` on.
fn number_at(bytes: &[u8], at: usize) -> u32
    requires { at + 4 ≤ length bytes.now }
    ensures { result ≡ little_number 4 (drop at bytes.now) }
{
    LittleEndian::read_u32(&bytes[at..])
}

/// Writes a number over the four bytes of a head from `at` on.
fn put_number(bytes: &mut [u8; HEAD_BYTES], at: usize, number: u32)
    requires { at + 4 ≤ HEAD_BYTES }
{
    LittleEndian::write_u32(&mut bytes[at..], number);
}

/// The addresses of the marks in the bytes of a head, and the zeros after them.
fn marks_of(part: &[u8]) -> [u32; MOST_MARKS]
    requires { length part.now ≡ HEAD_BYTES }
{
    let mut marks = [0; MOST_MARKS];
    for i in 0..MOST_MARKS {
        marks[i] = number_at(part, MARKS_AT + 4 * i);
    }
    marks
}

/// Writes them over those of a head.
fn put_marks(bytes: &mut [u8; HEAD_BYTES], marks: &[u32; MOST_MARKS]) {
    for i in 0..MOST_MARKS {
        put_number(bytes, MARKS_AT + 4 * i, marks[i]);
    }
}

/// Whether the bytes of a head end with the sum of those before it.
fn has_sum(part: &[u8]) -> bool
    requires { length part.now ≡ HEAD_BYTES }
{
    number_at(part, SUM_AT) == sum_of(part)
}

/// The sum of the bytes of a head before its sum: FNV-1a, of 32 bits.
fn sum_of(head: &[u8]) -> u32 {
    let mut sum: u32 = 0x811c_9dc5;
    for byte in head.iter().take(SUM_AT) {
        sum = (sum ^ u32::from(*byte)).wrapping_mul(0x0100_0193);
    }
    sum
}
