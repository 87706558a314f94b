//! What a disk is given between two syncs.
ghost use Rattle.std.specs.Prelude.{◌≡◌, ◌+◌, ◌<◌, ◌^◌, ◌++◌, [], ◌∷◌, length, IfOk, OnOk};
ghost use Rattle.drive.specs.Journal.{written};
ghost use Rattle.settling.specs.Phases.{blank_at, blanked, is_mark, marked};

use limits::{BLOCK_SIZE, Block};
use std::alloc::{AllocError, Global};

/// Blocks at addresses, in the order in which the disk was given them.
#[derive(Drop)]
pub struct Phase {
    blocks: Vec<(u32, Block)>,
}

const ZEROS: Block = [0; BLOCK_SIZE];

impl Phase {
    ghost use Rattle.settling.specs.Given.{blocks_in};

    /// The addresses and the blocks.
    pub fn blocks(&self) -> &[(u32, Block)]
        ensures { result.now ≡ blocks_in self.now }
    {
        &self.blocks
    }

    /// The blocks from an address on, with zeros in place of the marks.
    pub(crate) fn blanks(
        alloc: Global,
        from: u32,
        blocks: &[Block],
        marks: &[u32],
    ) -> Result<Phase, AllocError>
        requires { from + length blocks.now < 2 ^ 32 }
        ensures { IfOk result (λ phase. blocks_in phase ≡ blanked marks.now (written from blocks.now)) }
    {
        let mut given = Vec::new(alloc);
        let mut at = from;
        for block in blocks {
            given.push(blank(marks, at, block))?;
            at += 1;
        }
        Ok(Phase { blocks: given })
    }

    /// The marks among the blocks from an address on.
    pub(crate) fn marks(
        alloc: Global,
        from: u32,
        blocks: &[Block],
        marks: &[u32],
    ) -> Result<Phase, AllocError>
        requires { from + length blocks.now < 2 ^ 32 }
        ensures { IfOk result (λ phase. blocks_in phase ≡ marked marks.now (written from blocks.now)) }
    {
        let mut given = Vec::new(alloc);
        let mut at = from;
        for block in blocks {
            push_mark(&mut given, marks, at, block)?;
            at += 1;
        }
        Ok(Phase { blocks: given })
    }
}

fn is_one(marks: &[u32], at: u32) -> bool
    ensures { result ≡ is_mark marks.now at }
{
    marks.iter().any(|mark| *mark == at)
}

/// A block at its address, but zeros at a mark.
fn blank(marks: &[u32], at: u32, block: &Block) -> (u32, Block)
    ensures { (result.0, result.1) ≡ blank_at marks.now (at, block.now) }
{
    if is_one(marks, at) {
        (at, ZEROS)
    } else {
        (at, *block)
    }
}

/// Adds a block if it is a mark.
fn push_mark(
    given: &mut Vec<(u32, Block)>,
    marks: &[u32],
    at: u32,
    block: &Block,
) -> Result<(), AllocError>
    ensures { OnOk result (given.new.items ≡ given.old.items ++ marked marks.now ((at, block.now) ∷ [])) }
{
    if is_one(marks, at) {
        given.push((at, *block))?;
    }
    Ok(())
}
