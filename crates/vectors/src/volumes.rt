//! Whole media: the last table, the one before each, and the states that are there.

ghost use Rattle.drive.specs.Journal.{held};
ghost use Rattle.drive.specs.MemDrive.{journal_of};
ghost use Rattle.recover.specs.ReadCache.{IsKnown};

use crate::compare::{Medium, blocks_of, words_of};
use crate::tables::tell_table;
use crate::trouble::Trouble;
use drive::{Drive, MemDrive};
use ecma::Block;
use limits::PARTITION_START;
use recover::{ReadCache, State, StoreFault, before, last, state_at, state_sharing};
use std::alloc::Global;
use words::number;

/// A drive on which the bytes are written, block by block.
fn drive_of(alloc: Global, medium: &Medium) -> Result<MemDrive, Trouble> {
    let mut drive = MemDrive::new(alloc, medium.capacity, Vec::new(alloc));
    for block in &blocks_of(alloc, &medium.bytes)? {
        add(&mut drive, block)?;
    }
    Ok(drive)
}

/// Adds a block after the others.
fn add(drive: &mut MemDrive, block: &Block) -> Result<(), Trouble> {
    let next = drive.next()?;
    if next >= drive.capacity() {
        return Err(Trouble::Line("no room for the blocks"));
    }
    drive.write(next, &[*block])?;
    Ok(())
}

/// The address of the last VAT ICB.
pub fn last_table(alloc: Global, medium: &Medium) -> Result<String, Trouble> {
    let mut drive = drive_of(alloc, medium)?;
    let found = last(&mut drive);
    address(alloc, found)
}

/// The address of the VAT ICB before the one at `at`.
pub fn table_before(alloc: Global, medium: &Medium, at: u32) -> Result<String, Trouble> {
    let mut drive = drive_of(alloc, medium)?;
    let found = step(alloc, &mut drive, at)?;
    address(alloc, found)
}

/// A step of the chain from a block that must be there.
fn step(
    alloc: Global,
    drive: &mut MemDrive,
    at: u32,
) -> Result<Result<Option<u32>, StoreFault>, Trouble> {
    let next = drive.next()?;
    if at < PARTITION_START || next <= at {
        return Err(Trouble::Line("no such block"));
    }
    Ok(before(alloc, drive, at))
}

fn address(alloc: Global, found: Result<Option<u32>, StoreFault>) -> Result<String, Trouble> {
    match found {
        Ok(Some(at)) => Ok(format!(in alloc; "{at}")?),
        Ok(None) => words_of(alloc, "none"),
        Err(fault) => refusal(alloc, fault),
    }
}

fn refusal(alloc: Global, fault: StoreFault) -> Result<String, Trouble> {
    match fault {
        StoreFault::Damaged { block, cause } => {
            Ok(format!(in alloc; "damaged block {block} cause {cause}")?)
        }
        other => Ok(format!(in alloc; "{other}")?),
    }
}

/// The state at a VAT ICB.
pub fn state(alloc: Global, medium: &Medium, at: u32) -> Result<String, Trouble> {
    let mut drive = drive_of(alloc, medium)?;
    let state = match state_of(alloc, &mut drive, at)? {
        Ok(state) => state,
        Err(fault) => return refusal(alloc, fault),
    };
    told(alloc, &state)
}

fn told(alloc: Global, state: &State) -> Result<String, Trouble> {
    if state.label != state.vat.label {
        return words_of(alloc, "another label");
    }
    let mut text = format!(in alloc;
        "moment {} capacity {} ",
        state.moment.moment(),
        state.capacity
    )?;
    tell_table(alloc, &state.vat, &mut text)?;
    Ok(text)
}

fn state_of(
    alloc: Global,
    drive: &mut MemDrive,
    at: u32,
) -> Result<Result<State, StoreFault>, Trouble> {
    let next = drive.next()?;
    if at < PARTITION_START || next <= at {
        return Err(Trouble::Line("no such block"));
    }
    Ok(state_at(alloc, drive, at))
}

/// What is reported of a state: its commits, or why it is refused.
type Told = Result<u32, StoreFault>;

/// The counts of commits of up to three states, or why each is refused. Each is looked at alone, and after the others
/// with what is known of them. Both must report the same.
pub fn states(alloc: Global, medium: &Medium, words: &[&str]) -> Result<String, Trouble> {
    let ats = addresses(words)?;
    let mut drive = drive_of(alloc, medium)?;
    let shared = shared(alloc, &mut drive, ats)?;
    if alone(alloc, &mut drive, ats)? != shared {
        return words_of(alloc, "another state alone");
    }
    let count = words.len().min(3);
    all_told(alloc, &shared[..count])
}

fn all_told(alloc: Global, states: &[Told]) -> Result<String, Trouble> {
    let mut text = String::new(alloc);
    for told in states {
        if !text.is_empty() {
            text.push_str(" ; ")?;
        }
        text.push_str(&commits_told(alloc, *told)?)?;
    }
    Ok(text)
}

/// Three addresses. If there are fewer words, the last one is repeated.
fn addresses(words: &[&str]) -> Result<[u32; 3], Trouble> {
    let mut ats = [PARTITION_START; 3];
    let mut last = PARTITION_START;
    for (index, at) in ats.iter_mut().enumerate() {
        if let Some(word) = words.get(index) {
            last = number(word)?;
        }
        *at = last;
    }
    Ok(ats)
}

fn commits_told(alloc: Global, told: Told) -> Result<String, Trouble> {
    match told {
        Ok(commits) => Ok(format!(in alloc; "commits {commits}")?),
        Err(fault) => refusal(alloc, fault),
    }
}

/// What is reported of three states, each with what is known of those before.
fn shared(alloc: Global, drive: &mut MemDrive, ats: [u32; 3]) -> Result<[Told; 3], Trouble> {
    let mut known = ReadCache::new(alloc);
    let first = shared_state(alloc, drive, &mut known, ats[0])?;
    let second = shared_state(alloc, drive, &mut known, ats[1])?;
    let third = shared_state(alloc, drive, &mut known, ats[2])?;
    Ok([first, second, third])
}

/// What is reported of each of them alone.
fn alone(alloc: Global, drive: &mut MemDrive, ats: [u32; 3]) -> Result<[Told; 3], Trouble> {
    let first = commits(&state_of(alloc, drive, ats[0])?);
    let second = commits(&state_of(alloc, drive, ats[1])?);
    let third = commits(&state_of(alloc, drive, ats[2])?);
    Ok([first, second, third])
}

fn commits(looked: &Result<State, StoreFault>) -> Told {
    match looked {
        Ok(state) => Ok(state.vat.sessions.commits),
        Err(fault) => Err(*fault),
    }
}

/// What is reported of the state at an address, with what is known.
fn shared_state(
    alloc: Global,
    drive: &mut MemDrive,
    known: &mut ReadCache,
    at: u32,
) -> Result<Told, Trouble>
    requires { IsKnown (held (journal_of drive.old)) known.old }
    ensures known { IsKnown (held (journal_of drive.new)) known.new }
{
    let next = drive.next()?;
    if at < PARTITION_START || next <= at {
        return Err(Trouble::Line("no such block"));
    }
    Ok(commits(&state_sharing(alloc, drive, known, at)))
}
