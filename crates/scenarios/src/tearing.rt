//! What a power loss leaves of a commit: the writes that had returned, and of the write under way any of its blocks.

use crate::die::Die;
use crate::machine::Machine;
use crate::trouble::Trouble;
use std::alloc::Global;

/// The steps of the search for the number of calls of a drive.
const STEPS: [u64; 11] = [1_024, 512, 256, 128, 64, 32, 16, 8, 4, 2, 1];

/// The sum of these steps, which is more than a commit may take.
const TOO_MANY: u64 = 2_047;

/// The last commit of a machine: how many blocks there were before it, and the payload of its request.
#[derive(Clone, Copy)]
pub struct LastCommit<'m> {
    pub alloc: Global,
    pub machine: &'m Machine,
    pub before: usize,
    pub payload: &'m [u8],
}

impl LastCommit<'_> {
    /// The blocks before one of the last two writes, and a random choice of those of that write.
    pub fn torn(&self, die: &mut Die) -> Result<Machine, Trouble> {
        let call = self.calls()?.saturating_sub(u64::from(die.roll(2)));
        let whole = self.blocks_where_stopped(call, 0)?;
        let end = self.blocks_where_stopped(call, usize::MAX)?;
        let choices = die.choices(self.alloc, end.saturating_sub(whole))?;
        self.machine.torn(whole, &choices)
    }

    /// How many calls of the drive it takes to open the volume and to commit.
    fn calls(&self) -> Result<u64, Trouble> {
        let mut calls = 0u64;
        for step in &STEPS {
            let tried = calls.saturating_add(*step);
            if self.stopped(tried, 0)?.is_some() {
                calls = tried;
            }
        }
        if calls == TOO_MANY {
            return Err(Trouble::Line("more calls than are counted"));
        }
        Ok(calls)
    }

    /// How many blocks there are if the call of this number fails.
    fn blocks_where_stopped(&self, call: u64, keep: usize) -> Result<usize, Trouble> {
        let stopped = self.stopped(call, keep)?;
        stopped.ok_or(Trouble::Line("no call of this number"))
    }

    /// The same, or `None` if there is no such call.
    fn stopped(&self, call: u64, keep: usize) -> Result<Option<usize>, Trouble> {
        let mut copy = self.machine.failing(self.before, call, keep)?;
        let mut text = String::new(self.alloc);
        copy.ask(self.payload, &mut text)?;
        let is_stopped = text.as_str() == "failed";
        Ok(is_stopped.then_some(copy.blocks()))
    }
}
