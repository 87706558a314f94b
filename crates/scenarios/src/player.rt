//! Steps that are played, and what each reports.

use crate::answers::tell;
use crate::beside::{Beside, put_sessions};
use crate::bytes::read_bytes;
use crate::changes::read_message;
use crate::machine::Machine;
use crate::steps::{
    BesideStep, Look, MediumStep, NewMedium, Step, number_at, read_block, read_fault, read_numbers,
    step_of, word_at,
};
use crate::streams::Pieces;
use crate::trouble::Trouble;
use drive::Block;
use ecma::crc;
use engine::Delivery;
use std::alloc::Global;
use std::fmt::Write;
use store::{Commit, Snapshot};
use words::{Room, number, show_bytes};

/// The trouble with a step on an earlier state.
const NOTHING_HELD: Trouble = Trouble::Line("no state is held");

/// The trouble with a step before the die.
const NO_DIE: Trouble = Trouble::Line("no die");

/// A medium that is kept under a name.
#[derive(Drop)]
struct Kept {
    name: String,
    machine: Machine,
}

/// A machine, and what else a scenario keeps.
#[derive(Drop)]
pub struct Player {
    alloc: Global,
    machine: Machine,
    kept: Vec<Kept>,
    held: Option<Snapshot>,
    later: Vec<Delivery>,
    beside: Option<Beside>,
}

impl Player {
    /// A machine on a drive without a block.
    pub fn new(alloc: Global) -> Player {
        Player {
            alloc,
            machine: Machine::blank(alloc, 0),
            kept: Vec::new(alloc),
            held: None,
            later: Vec::new(alloc),
            beside: None,
        }
    }

    /// Plays the step of the words, and appends a report of how it went.
    pub fn play(&mut self, words: &[&str], out: &mut String) -> Result<(), Trouble> {
        let Some((name, rest)) = words.split_first() else {
            return Err(Trouble::Line("no step"));
        };
        let mut payload = Vec::new(self.alloc);
        if read_message(name, rest, &mut payload)? {
            return self.machine.ask(&payload, out);
        }
        self.play_other(step_of(name, rest.len())?, rest, out)
    }

    fn play_other(&mut self, step: Step, words: &[&str], out: &mut String) -> Result<(), Trouble> {
        match step {
            Step::Then => self.ask_then(words, out),
            Step::Later => self.put_off(words, out),
            Step::Run => self.machine.run(&self.later, out),
            Step::Serve => self.serve(words, out),
            Step::Load => self.load(words, out),
            Step::New(step) => {
                self.machine = self.another(step, words)?;
                done(out)
            }
            Step::Medium(step) => self.play_medium(step, words, out),
            Step::Look(look) => self.look(look, words, out),
            Step::Die => {
                let [seed, ..] = read_numbers(words)?;
                self.beside = Some(Beside::new(self.alloc, seed as u64, &self.machine)?);
                done(out)
            }
            Step::Both => self.ask_both(words, out),
            Step::Due => {
                let beside = self.beside.as_ref().ok_or(NO_DIE)?;
                beside.due(number_at(words, 0)?, number_at(words, 1)?, out)
            }
            Step::AtMark => self.at_mark(number_at(words, 0)?, out),
            Step::Beside(step) => self.play_beside(step, out),
        }
    }

    /// The payload of a request or a query that must be there.
    fn payload(&self, words: &[&str]) -> Result<Vec<u8>, Trouble> {
        let mut payload = Vec::new(self.alloc);
        if let Some((name, rest)) = words.split_first() {
            if read_message(name, rest, &mut payload)? {
                return Ok(payload);
            }
        }
        Err(Trouble::Line("no message"))
    }

    fn ask_then(&mut self, words: &[&str], out: &mut String) -> Result<(), Trouble> {
        let payload = self.payload(words)?;
        match &self.held {
            Some(snapshot) => self.machine.ask_then(snapshot, &payload, out),
            None => Err(NOTHING_HELD),
        }
    }

    /// Gives a request to the machine and to the plain program.
    fn ask_both(&mut self, words: &[&str], out: &mut String) -> Result<(), Trouble> {
        let payload = self.payload(words)?;
        let beside = self.beside.as_mut().ok_or(NO_DIE)?;
        beside.both(&mut self.machine, &payload, out)
    }

    /// Puts off a message, or a restart.
    fn put_off(&mut self, words: &[&str], out: &mut String) -> Result<(), Trouble> {
        let delivery = match words {
            ["restart"] => Delivery::Restart,
            words => Delivery::Frame(self.payload(words)?),
        };
        self.later.push(delivery)?;
        done(out)
    }

    /// Goes on with the first blocks of a medium that is kept, or with all of them.
    fn load(&mut self, words: &[&str], out: &mut String) -> Result<(), Trouble> {
        let blocks = match words.get(1) {
            Some(blocks) => number(blocks)?,
            None => usize::MAX,
        };
        self.machine = self.kept_as(word_at(words, 0)?)?.front(blocks)?;
        done(out)
    }

    /// The medium that takes the place of the one that is there.
    fn another(&self, step: NewMedium, words: &[&str]) -> Result<Machine, Trouble> {
        let number = number_at(words, 0)?;
        match step {
            NewMedium::Blank => Ok(Machine::blank(self.alloc, number)),
            NewMedium::Resize => self.machine.resized(number),
            NewMedium::Flip => self.machine.flipped(number, number_at(words, 1)?),
        }
    }

    fn play_medium(
        &mut self,
        step: MediumStep,
        words: &[&str],
        out: &mut String,
    ) -> Result<(), Trouble> {
        match step {
            MediumStep::Format => {
                let label = word_at(words, 0)?.trim_matches('"');
                self.machine.format(label, number_at(words, 1)?)?;
            }
            MediumStep::Keep => self.keep(word_at(words, 0)?)?,
            MediumStep::Burn => self.machine.burn(&read_block(self.alloc, words)?)?,
            MediumStep::Fault => self.machine.arm(read_fault(words)?),
            MediumStep::Restart => self.machine.restart(),
            MediumStep::Open => self.machine.open()?,
            MediumStep::AsOf => return self.hold(number_at(words, 0)?, out),
            MediumStep::Same => return self.compare(word_at(words, 0)?, out),
        }
        done(out)
    }

    /// Keeps the medium under a name.
    fn keep(&mut self, name: &str) -> Result<(), Trouble> {
        let machine = self.machine.front(usize::MAX)?;
        self.kept.retain(|kept| kept.name.as_str() != name);
        let name = String::from_str(self.alloc, name)?;
        self.kept.push(Kept { name, machine })?;
        Ok(())
    }

    /// Checks that the medium is the one that is kept under a name.
    fn compare(&self, name: &str, out: &mut String) -> Result<(), Trouble> {
        if self.kept_as(name)?.journal() != self.machine.journal() {
            out.push_str("another medium")?;
            return Ok(());
        }
        done(out)
    }

    /// The medium that is kept under a name.
    fn kept_as(&self, name: &str) -> Result<&Machine, Trouble> {
        for kept in &self.kept {
            if kept.name.as_str() == name {
                return Ok(&kept.machine);
            }
        }
        Err(Trouble::Line("no such medium"))
    }

    /// Holds an earlier state. Reports its commit, and the sessions.
    fn hold(&mut self, commit: u32, out: &mut String) -> Result<(), Trouble> {
        let snapshot = self.machine.as_of(commit)?;
        put_snapshot(&snapshot, out)?;
        self.held = Some(snapshot);
        Ok(())
    }

    /// Answers the messages of a stream. Reports why that ended, if it failed, and the answers.
    fn serve(&mut self, words: &[&str], out: &mut String) -> Result<(), Trouble> {
        let (first, size) = (number_at(words, 0)?, number_at(words, 1)?);
        let (end, room) = (number_at(words, 2)?, number_at(words, 3)?);
        let mut bytes = Vec::new(self.alloc);
        if let Some(rest) = words.get(4..) {
            read_bytes(rest, &mut bytes)?;
        }
        let mut writer = Room {
            bytes: Vec::new(self.alloc),
            left: room,
        };
        self.serve_pieces(pieces(&bytes, first, size, end), &mut writer, out)
    }

    fn serve_pieces(
        &mut self,
        reader: Pieces<'_>,
        writer: &mut Room,
        out: &mut String,
    ) -> Result<(), Trouble> {
        if let Err(fault) = self.machine.serve(reader, writer) {
            let parted = if writer.bytes.is_empty() {
                ""
            } else {
                " behind "
            };
            write!(out, "{fault}{parted}")?;
        }
        tell(&writer.bytes, out)
    }

    fn look(&mut self, look: Look, words: &[&str], out: &mut String) -> Result<(), Trouble> {
        let [first, second, third] = read_numbers(words)?;
        match look {
            Look::Blocks => put_number(self.machine.blocks(), out),
            Look::Block => self.show(first, 0, 2048, out),
            Look::Bytes => self.show(first, second, third, out),
            Look::Crc if words.len() < 2 => self.crc_of(first, first.saturating_add(1), out),
            Look::Crc => self.crc_of(first, second, out),
            Look::MostHeld => put_number(self.machine.most_held()?, out),
            Look::Log => self.log(out),
            Look::Check => {
                let commits = self.machine.check()?;
                write!(out, "sound {commits}")?;
                Ok(())
            }
        }
    }

    /// All commits, the newest first.
    fn log(&mut self, out: &mut String) -> Result<(), Trouble> {
        for commit in &self.machine.history()? {
            let parted = if out.is_empty() { "" } else { ", " };
            out.push_str(parted)?;
            put_commit(commit, out)?;
        }
        Ok(())
    }

    /// A block.
    fn block(&self, block: usize) -> Result<&Block, Trouble> {
        let Some(event) = self.machine.journal().get(block) else {
            return Err(Trouble::Line("no such block"));
        };
        Ok(&event.1)
    }

    /// Some of the bytes of a block.
    fn show(
        &self,
        block: usize,
        from: usize,
        count: usize,
        out: &mut String,
    ) -> Result<(), Trouble> {
        let (_, after) = self.block(block)?.split_at(from.min(2048));
        let (shown, _) = after.split_at(count.min(after.len()));
        Ok(show_bytes(shown, out)?)
    }

    /// The CRC of some blocks.
    fn crc_of(&self, from: usize, until: usize, out: &mut String) -> Result<(), Trouble> {
        let mut bytes = Vec::new(self.alloc);
        for block in from..until {
            bytes.extend_from_slice(self.block(block)?)?;
        }
        write!(out, "{:04X}", crc(&bytes))?;
        Ok(())
    }

    /// Checks that the state that is held is that of a mark.
    fn at_mark(&mut self, index: usize, out: &mut String) -> Result<(), Trouble> {
        let beside = self.beside.as_ref().ok_or(NO_DIE)?;
        let snapshot = self.held.as_ref().ok_or(NOTHING_HELD)?;
        let is_same = beside.at_mark(&mut self.machine, snapshot, index, out)?;
        put_same(is_same, out)
    }

    fn play_beside(&mut self, step: BesideStep, out: &mut String) -> Result<(), Trouble> {
        let machine = &mut self.machine;
        let beside = self.beside.as_mut().ok_or(NO_DIE)?;
        let is_same = match step {
            BesideStep::Upset => {
                beside.upset(machine);
                return done(out);
            }
            BesideStep::Mark => {
                beside.mark()?;
                return done(out);
            }
            BesideStep::Fall => beside.fall(machine, out),
            BesideStep::Stray => beside.stray(machine, out),
            BesideStep::Fronts => beside.fronts(machine, out),
            BesideStep::Tree => beside.tree(machine, out),
            BesideStep::Lose => beside.lose(machine, out),
            BesideStep::Tear => beside.tear(machine, out),
            BesideStep::Marks => beside.marks(machine, out),
            BesideStep::Listed => beside.listed(machine, out),
        };
        put_same(is_same?, out)
    }
}

/// Reports that there is nothing to report.
fn done(out: &mut String) -> Result<(), Trouble> {
    out.push_str("done")?;
    Ok(())
}

/// Reports that the machine and the plain program agree. If they do not, their difference is reported already.
fn put_same(is_same: bool, out: &mut String) -> Result<(), Trouble> {
    if is_same {
        out.push_str("same")?;
    }
    Ok(())
}

fn put_number(number: usize, out: &mut String) -> Result<(), Trouble> {
    write!(out, "{number}")?;
    Ok(())
}

fn put_commit(commit: &Commit, out: &mut String) -> Result<(), Trouble> {
    write!(
        out,
        "{} {} {} {}",
        commit.commit, commit.vat_icb_address, commit.files, commit.directories
    )?;
    Ok(())
}

/// The commit of a state, and its sessions.
fn put_snapshot(snapshot: &Snapshot, out: &mut String) -> Result<(), Trouble> {
    put_commit(&snapshot.commit(), out)?;
    out.push_str(", ")?;
    put_sessions(snapshot, out)
}

/// A stream of bytes, of which `first` come at first, and then `size` at a time, and which fails after `end`.
fn pieces(bytes: &[u8], first: usize, size: usize, end: usize) -> Pieces<'_> {
    let (bytes, _) = bytes.split_at(end.min(bytes.len()));
    let (first, rest) = bytes.split_at(first.min(bytes.len()));
    Pieces { first, rest, size }
}
