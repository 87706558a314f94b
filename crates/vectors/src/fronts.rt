//! Volume headers: blocks 0 to 256 of a volume (ECMA-167 2/9.1 and 3/10, UDF 2.01 2.2).

use crate::compare::{blocks_of, words_of};
use crate::texts::tell_label;
use crate::trouble::Trouble;
use ecma::Block;
use std::alloc::Global;
use std::fmt::Write;
use volume::{Front, VolumeFault, front_blocks, read_front};

/// What the volume header says.
pub fn front(alloc: Global, bytes: &[u8]) -> Result<String, Trouble> {
    let blocks = blocks_of(alloc, bytes)?;
    if blocks.len() != 257 {
        return Err(Trouble::Line("a front has 257 blocks"));
    }
    match read_front(&blocks) {
        Ok(front) => told(alloc, &front, &blocks),
        Err(VolumeFault::Field { block, at }) => {
            Ok(format!(in alloc; "fault block {block} byte {at}")?)
        }
    }
}

/// What a volume header says, which must be written as these blocks.
fn told(alloc: Global, front: &Front, blocks: &[Block]) -> Result<String, Trouble> {
    if front.capacity < 512 || front.capacity > 450_000 {
        return words_of(alloc, "no capacity");
    }
    let again = front_blocks(alloc, &front.label, front.moment, front.capacity)?;
    if again.as_slice() != blocks {
        return words_of(alloc, "written otherwise");
    }
    let mut text = String::new(alloc);
    tell_label(alloc, &front.label, &mut text)?;
    write!(
        text,
        " moment {} capacity {}",
        front.moment.moment(),
        front.capacity
    )?;
    Ok(text)
}
