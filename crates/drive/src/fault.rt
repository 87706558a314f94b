//! Which calls of a drive in memory fail.
ghost use Rattle.std.specs.Prelude.{◌≡◌, ◌≤◌, ℕ, IfSome};
ghost use Rattle.drive.specs.Faults.{scheduled_at, cut_by, after_adding, next_fails, after_next, read_fails, after_read};

/// The call of this number fails, counted from 1 over all calls of `next`, `read` and `write`. A write that fails adds
/// its first `keep` blocks, or all if it has fewer.
#[derive(Clone, Copy, Debug)]
pub struct Scheduled {
    pub call: u64,
    pub keep: usize,
}

/// A failure that happens once.
#[derive(Clone, Copy, Debug, PartialEq, Eq)]
pub enum Fault {
    /// The write with which the blocks that are added from now on reach or pass this number fails. It adds those up to
    /// the number. At 0 it is the next write, which adds none.
    AfterBlocks(u64),
    /// The call of `next` of this number from now on fails, counted from 1.
    Next(u64),
    /// The call of `read` of this number from now on fails, counted from 1.
    Read(u64),
}

/// If the call of this number is to fail: the most blocks that it adds.
pub(crate) fn keep_at(schedule: &[Scheduled], call: u64) -> Option<usize>
    ensures { result ≡ scheduled_at schedule.now call }
{
    schedule
        .iter()
        .find(|item| item.call == call)
        .map(|item| item.keep)
}

/// If the fault stops a write that would add `count` blocks: how many of them it adds before it fails.
pub(crate) fn cut(armed: &Option<Fault>, count: usize) -> Option<usize>
    ensures cut { result ≡ cut_by armed.now count }
    ensures within { IfSome result (λ n. n ≤ count) }
{
    match *armed {
        Some(Fault::AfterBlocks(left)) if left <= count as u64 => Some(left as usize),
        _ => None,
    }
}

/// Notes that `count` blocks were added.
pub(crate) fn note_added(armed: &mut Option<Fault>, count: usize)
    ensures { armed.new ≡ after_adding armed.old count }
{
    if let Some(Fault::AfterBlocks(left)) = *armed {
        *armed = if left <= count as u64 {
            None
        } else {
            Some(Fault::AfterBlocks(left - count as u64))
        };
    }
}

/// Whether this call of `next` fails. Counts it.
pub(crate) fn stops_next(armed: &mut Option<Fault>) -> bool
    ensures fails { result ≡ next_fails armed.old }
    ensures armed { armed.new ≡ after_next armed.old }
{
    if let Some(Fault::Next(left)) = *armed {
        if left <= 1 {
            *armed = None;
            return true;
        }
        *armed = Some(Fault::Next(left - 1));
    }
    false
}

/// Whether this call of `read` fails. Counts it.
pub(crate) fn stops_read(armed: &mut Option<Fault>) -> bool
    ensures fails { result ≡ read_fails armed.old }
    ensures armed { armed.new ≡ after_read armed.old }
{
    if let Some(Fault::Read(left)) = *armed {
        if left <= 1 {
            *armed = None;
            return true;
        }
        *armed = Some(Fault::Read(left - 1));
    }
    false
}
