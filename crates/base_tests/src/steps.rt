//! Tests of drives as lists of steps. Each step is a call and what it must report, or something that must be seen of
//! the drive. What a write or a read requires is checked before each, so that a list may have any steps.

ghost use Rattle.std.specs.Prelude.{◌≡◌, ◌≤◌, IfOk};
ghost use Rattle.drive.specs.Journal.{next_of};

use drive::{Block, Drive, DriveFault, Fault, FileDrive, Look, MemDrive, PACKET, open_image};
use std::alloc::{AllocError, Global};
use std::fs;
use std::test::Fail;

/// A step of a test of a drive.
#[derive(Clone, Copy)]
pub(crate) enum Step<'a> {
    Capacity(u32),
    /// The next address. The blocks that are written and read after this step must begin at or below it.
    Next(Result<u32, DriveFault>),
    /// Writes blocks that begin with these bytes, from an address on. After it a list must have `Next` again.
    Write(u32, &'a [u8], Result<(), DriveFault>),
    /// Writes a run of two slices of such blocks.
    Run(u32, &'a [u8], &'a [u8], Result<(), DriveFault>),
    /// Reads the block at an address.
    Read(u32, Result<(), DriveFault>),
    /// The block that is read into begins with this byte.
    Holds(u8),
    /// How many bytes a file has after its last whole block. They are read.
    Part(Result<usize, DriveFault>),
    /// The file at a path has this size, and these bytes at their places.
    File(&'a str, usize, &'a [(usize, u8)]),
    /// Sets the length of the file at a path, without its drive.
    Resize(&'a str, u64),
    /// Removes the file at a path, without its drive.
    Remove(&'a str),
    /// Sets a fault of a drive in memory.
    Arm(Fault),
    /// How many blocks were written to a drive in memory.
    Written(usize),
    /// The address and the first byte of one of these blocks.
    Event(usize, u32, u8),
    /// How many calls of a drive in memory failed.
    Failures(u64),
}

/// The step of this index did not go as it should.
#[derive(Clone, Copy, Debug)]
struct NotSo {
    step: usize,
}

/// A drive that has steps of its own.
pub(crate) trait Steps: Drive {
    /// Takes a step that only this drive has. Returns whether it went as it should.
    fn own_step(
        &mut self,
        rt: &HostRuntime,
        into: &mut Block,
        step: &Step<'_>,
    ) -> Result<bool, Fail>
        ensures { Self.journal self.new ≡ Self.journal self.old };
}

impl Steps for MemDrive {
    fn own_step(
        &mut self,
        _rt: &HostRuntime,
        _into: &mut Block,
        step: &Step<'_>,
    ) -> Result<bool, Fail> {
        match *step {
            Step::Arm(fault) => {
                self.arm(fault);
                Ok(true)
            }
            Step::Written(count) => Ok(self.journal().len() == count),
            Step::Event(index, at, first) => match self.journal().get(index) {
                Some(event) => Ok(event.0 == at && event.1[0] == first),
                None => Ok(false),
            },
            Step::Failures(count) => Ok(self.failures() == count),
            _ => Err(Fail::from("no step in memory")),
        }
    }
}

impl Steps for FileDrive {
    fn own_step(
        &mut self,
        rt: &HostRuntime,
        into: &mut Block,
        step: &Step<'_>,
    ) -> Result<bool, Fail> {
        match *step {
            Step::Part(told) => Ok(self.part(into, &mut Look::new(&[])) == told),
            Step::File(path, size, bytes) => holds(rt, path, size, bytes),
            Step::Resize(path, size) => {
                open_image(rt, path)?.set_len(size)?;
                Ok(true)
            }
            Step::Remove(path) => {
                fs::remove_file(rt, path)?;
                Ok(true)
            }
            _ => Err(Fail::from("no step on a file")),
        }
    }
}

/// Whether a file has this size, and these bytes at their places.
pub(crate) fn holds(
    rt: &HostRuntime,
    path: &str,
    size: usize,
    bytes: &[(usize, u8)],
) -> Result<bool, Fail> {
    let found = fs::read(rt, path)?;
    let found = found.as_slice();
    Ok(found.len() == size && bytes.iter().all(|(at, byte)| found.get(*at) == Some(byte)))
}

/// A block that begins with this byte.
pub(crate) fn block(first: u8) -> Block {
    let mut block = [0; 2048];
    block[0] = first;
    block
}

/// Blocks that begin with these bytes.
fn blocks(alloc: Global, firsts: &[u8]) -> Result<Vec<Block>, AllocError> {
    let mut blocks = Vec::new(alloc);
    for first in firsts {
        blocks.push(block(*first))?;
    }
    Ok(blocks)
}

/// Writes at most a packet. The next address must be at least `next`.
fn write<D: Drive>(
    alloc: Global,
    drive: &mut D,
    next: u32,
    at: u32,
    firsts: &[u8],
) -> Result<Result<(), DriveFault>, Fail>
    requires { next ≤ next_of (D.journal drive.old) }
{
    let blocks = blocks(alloc, firsts)?;
    let room = drive.capacity() as usize;
    if at > next || blocks.len() > PACKET || at as usize + blocks.len() > room {
        return Err(Fail::from("no write"));
    }
    Ok(drive.write(at, &blocks))
}

/// Writes a run. The next address must be at least `next`.
fn write_run<D: Drive>(
    alloc: Global,
    drive: &mut D,
    next: u32,
    at: u32,
    firsts: &[u8],
    seconds: &[u8],
) -> Result<Result<(), DriveFault>, Fail>
    requires { next ≤ next_of (D.journal drive.old) }
{
    let first = blocks(alloc, firsts)?;
    let second = blocks(alloc, seconds)?;
    let room = drive.capacity() as usize;
    if at > next || first.len() > room || second.len() > room {
        return Err(Fail::from("no run"));
    }
    if at as usize + (first.len() + second.len()) > room {
        return Err(Fail::from("no run"));
    }
    Ok(drive.write_run(at, &first, &second))
}

/// Reads a block. The next address must be at least `next`.
fn read<D: Drive>(
    drive: &mut D,
    next: u32,
    at: u32,
    into: &mut Block,
) -> Result<Result<(), DriveFault>, Fail>
    requires { next ≤ next_of (D.journal drive.old) }
    ensures { D.journal drive.new ≡ D.journal drive.old }
{
    if at >= next {
        return Err(Fail::from("no read"));
    }
    Ok(drive.read(at, into))
}

/// Takes a step on any drive. Returns whether it went as it should, and what the next address is known to be at least.
fn step_on<D: Steps>(
    rt: &HostRuntime,
    drive: &mut D,
    next: u32,
    into: &mut Block,
    step: &Step<'_>,
) -> Result<(bool, u32), Fail>
    requires { next ≤ next_of (D.journal drive.old) }
    ensures { IfOk result (λ known. known.1 ≤ next_of (D.journal drive.new)) }
{
    match *step {
        Step::Capacity(capacity) => Ok((drive.capacity() == capacity, next)),
        Step::Next(told) => match drive.next() {
            Ok(found) => Ok((told == Ok(found), found)),
            Err(fault) => Ok((told == Err(fault), next)),
        },
        Step::Write(at, firsts, told) => Ok((
            write(rt.alloc(), drive, next, at, firsts)? == told,
            0,
        )),
        Step::Run(at, firsts, seconds, told) => {
            let found = write_run(rt.alloc(), drive, next, at, firsts, seconds)?;
            Ok((found == told, 0))
        }
        Step::Read(at, told) => Ok((read(drive, next, at, into)? == told, next)),
        Step::Holds(first) => Ok((into[0] == first, next)),
        _ => Ok((drive.own_step(rt, into, step)?, next)),
    }
}

/// Plays the steps on a drive.
pub(crate) fn play<D: Steps>(
    rt: &HostRuntime,
    drive: &mut D,
    steps: &[Step<'_>],
) -> Result<(), Fail> {
    let mut next = 0;
    let mut into = block(0);
    for (i, step) in steps.iter().enumerate() {
        let (holds, known) = step_on(rt, drive, next, &mut into, step)?;
        if !holds {
            return Err(Fail::from(NotSo { step: i }));
        }
        next = known;
    }
    Ok(())
}
