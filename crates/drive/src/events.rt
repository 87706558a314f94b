//! What was written to a drive in memory.
ghost use Rattle.limits.specs.declared.TheConstants.{BLOCK_BYTES};
ghost use Rattle.std.specs.Prelude.{◌≡◌, ◌+◌, ◌^◌, ◌≤◌, ◌<◌, ◌++◌, [], ℕ, length, take, All, IsTrue, IfOk, OnOk, OnErr};
ghost use Rattle.std.specs.Option.{option_copied};
ghost use Rattle.drive.specs.Journal.{written, next_of, last_at, AreWhole, InOrder};

use crate::Block;
use std::alloc::{AllocError, Global};

/// A journal. As long as each address was written once, in order, a block is found by its address without a search.
#[derive(Drop)]
pub(crate) struct Events {
    list: Vec<(u32, Block)>,
    next: u32,
    in_order: bool,
    ghost next_is: { next ≡ next_of list.items },
    ghost ordered: { IsTrue in_order → InOrder list.items },
    ghost whole: { AreWhole list.items },
}

impl Events {
    pub(crate) fn new(alloc: Global) -> Events
        ensures { result.list.items ≡ [] }
    {
        Events {
            list: Vec::new(alloc),
            next: 0,
            in_order: true,
        }
    }

    pub(crate) fn as_slice(&self) -> &[(u32, Block)]
        ensures { result.now ≡ self.now.list.items }
    {
        &self.list
    }

    /// One more than the greatest address.
    pub(crate) fn next(&self) -> u32
        ensures { result ≡ next_of self.now.list.items }
    {
        self.next
    }

    /// The block that was written last at this address.
    pub(crate) fn last(&self, at: u32) -> Option<&Block>
        ensures { option_copied result ≡ last_at self.now.list.items at }
    {
        if self.in_order {
            return block_at(&self.list, at);
        }
        last_block(&self.list, at)
    }

    /// Adds the blocks from this address on. If there is no memory, it adds none.
    pub(crate) fn add(&mut self, at: u32, blocks: &[Block]) -> Result<(), AllocError>
        requires fits { at + length blocks.now < 2 ^ 32 }
        ensures ok { OnOk result (self.new.list.items ≡ self.old.list.items ++ written at blocks.now) }
        ensures err { OnErr result (self.new.list.items ≡ self.old.list.items) }
    {
        let goes_on = at as usize == self.list.len();
        push_all(&mut self.list, at, blocks)?;
        if !blocks.is_empty() {
            self.next = self.next.max(at + blocks.len() as u32);
            self.in_order = self.in_order && goes_on;
        }
        Ok(())
    }

    /// The first k events.
    pub(crate) fn front(&self, alloc: Global, k: usize) -> Result<Events, AllocError>
        requires { k ≤ length self.now.list.items }
        ensures { IfOk result (λ front. front.list.items ≡ take k self.now.list.items) }
    {
        // Unused: it gives the proof the range of `next`.
        let _next = self.next;
        let list = Vec::from_slice(alloc, &self.list[..k])?;
        let next = next_after(&list);
        Ok(Events {
            list,
            next,
            in_order: self.in_order,
        })
    }
}

/// One more than the greatest address, and 0 for no events.
fn next_after(events: &[(u32, Block)]) -> u32
    requires { next_of events.now < 2 ^ 32 }
    ensures { result ≡ next_of events.now }
{
    let mut next: u32 = 0;
    for event in events {
        next = next.max(event.0 + 1);
    }
    next
}

/// The block at this address of events that have their addresses in order.
fn block_at(events: &[(u32, Block)], at: u32) -> Option<&Block>
    requires { InOrder events.now }
    ensures { option_copied result ≡ last_at events.now at }
{
    let place = at as usize;
    if place < events.len() {
        Some(&events[place].1)
    } else {
        None
    }
}

/// The block of the last event at this address.
fn last_block(events: &[(u32, Block)], at: u32) -> Option<&Block>
    ensures { option_copied result ≡ last_at events.now at }
{
    let mut left = events.len();
    while left > 0 {
        left -= 1;
        if events[left].0 == at {
            return Some(&events[left].1);
        }
    }
    None
}

fn push_all(events: &mut Vec<(u32, Block)>, at: u32, blocks: &[Block]) -> Result<(), AllocError>
    requires { at + length blocks.now < 2 ^ 32 }
    ensures blocks { All (λ block. length block ≡ BLOCK_BYTES) blocks.now }
    ensures ok { OnOk result (events.new.items ≡ events.old.items ++ written at blocks.now) }
    ensures err { OnErr result (events.new.items ≡ events.old.items) }
{
    events.reserve(blocks.len())?;
    let mut next = at;
    for block in blocks {
        events.push((next, *block)).unwrap();
        next += 1;
    }
    Ok(())
}
