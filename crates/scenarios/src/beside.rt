//! Requests, most of them random, on a machine and on the plain program of `model`, whose answers are compared.

ghost use Rattle.std.specs.Prelude.{ℕ};
ghost use Rattle.model.specs.PlainState.{IsWholeState};

use crate::answers::node_text;
use crate::changes::{Asked, Change, piece_query, plain_request, query};
use crate::die::Die;
use crate::machine::Machine;
use crate::tearing::LastCommit;
use crate::trouble::Trouble;
use drive::Fault;
use model::plain::{Content, Due, Entry, Node, Reply, Request, State};
use std::alloc::Global;
use std::fmt::Write;
use std::marker::Model;
use store::Snapshot;
use words::show_bytes;

/// The trouble with a step that needs a request.
const NOTHING_SENT: Trouble = Trouble::Line("nothing was sent");

/// The bytes of a file that an answer has at most.
const PIECE: usize = 1_048_576;

/// The plain program.
#[derive(Drop)]
struct Plain {
    state: State,
}

impl Model for Plain {
    ghost Value = { ℕ };

    ghost view = { λ p. p.state.commits };

    ghost invariant = { λ p. IsWholeState p.state };
}

impl Plain {
    fn formatted(alloc: Global) -> Result<Plain, Trouble> {
        Ok(Plain {
            state: State::formatted(alloc, 0)?,
        })
    }

    fn is_new(&self, client: u64, number: u64) -> bool {
        matches!(self.state.due(client, number), Due::New)
    }

    /// Appends the answer to a request that is not new.
    fn refuse(&self, client: u64, number: u64, out: &mut String) -> Result<(), Trouble> {
        match self.state.due(client, number) {
            Due::New => return Err(Trouble::Line("a new request")),
            Due::Repeat(reply) => return put_reply(reply, out),
            Due::Stale(latest) => write!(out, "stale {latest}")?,
            Due::Gap(latest) => write!(out, "gap {latest}")?,
            Due::ClientsFull => out.push_str("clients full")?,
        }
        Ok(())
    }

    /// The program after a request that is new. Appends the answer.
    fn apply(self, alloc: Global, request: Request, out: &mut String) -> Result<Plain, Trouble> {
        match self.state.apply(alloc, request) {
            Ok((state, reply)) => {
                put_reply(reply, out)?;
                Ok(Plain { state })
            }
            Err(_) => Err(Trouble::Memory),
        }
    }

    /// What is reported of each node: its content, and its kind, size and moment.
    fn tree(&self, alloc: Global) -> Result<Vec<Expected>, Trouble> {
        let mut all = Vec::new(alloc);
        for entry in &self.state.nodes {
            all.push(self.content(alloc, entry)?)?;
            put_pieces(alloc, entry, &mut all)?;
            all.push(node(alloc, entry)?)?;
        }
        Ok(all)
    }

    /// What is reported of the content of a node.
    fn content(&self, alloc: Global, entry: &Entry) -> Result<Expected, Trouble> {
        let mut text = String::new(alloc);
        let asked = match &entry.node.content {
            Content::File(bytes) if bytes.len() > PIECE => {
                text.push_str("too long")?;
                Asked::Data
            }
            Content::File(bytes) => {
                show_bytes(bytes, &mut text)?;
                Asked::Data
            }
            Content::Directory(below) => {
                put_names(alloc, &self.state, entry, below, &mut text)?;
                Asked::Names
            }
        };
        let payload = query(alloc, asked, &entry.path)?;
        Ok(Expected { payload, text })
    }

    /// Appends the sessions, as `put_sessions` does those of a snapshot.
    fn put_sessions(&self, out: &mut String) -> Result<(), Trouble> {
        let state = &self.state;
        put_pair("", state.next_identity, state.commits, out)?;
        for record in &state.records {
            put_pair(", ", record.client, record.latest, out)?;
            for reply in &record.replies {
                put_pair(" ", u64::from(reply.code as u8), reply.commit, out)?;
            }
        }
        Ok(())
    }

    /// How many commits, files and directories there are.
    fn counts(&self) -> (u64, u32, u32) {
        let mut files = 0u32;
        let mut directories = 0u32;
        for entry in &self.state.nodes {
            if entry.node.is_directory() {
                directories = directories.saturating_add(1);
            } else {
                files = files.saturating_add(1);
            }
        }
        (self.state.commits, files, directories)
    }
}

/// Appends the answer to a request that was committed.
fn put_reply(reply: Reply, out: &mut String) -> Result<(), Trouble> {
    write!(out, "code {} commit {}", reply.code as u8, reply.commit)?;
    Ok(())
}

/// Appends what is reported of each piece of a file that has more than one.
fn put_pieces(alloc: Global, entry: &Entry, all: &mut Vec<Expected>) -> Result<(), Trouble> {
    let Content::File(bytes) = &entry.node.content else {
        return Ok(());
    };
    if bytes.len() <= PIECE {
        return Ok(());
    }
    let mut offset = 0u64;
    for piece in bytes.chunks(PIECE) {
        let mut text = String::new(alloc);
        show_bytes(piece, &mut text)?;
        let payload = piece_query(alloc, &entry.path, offset, PIECE as u32)?;
        all.push(Expected { payload, text })?;
        offset = offset.saturating_add(PIECE as u64);
    }
    Ok(())
}

/// What is reported of the kind, the size and the moment of a node.
fn node(alloc: Global, entry: &Entry) -> Result<Expected, Trouble> {
    let (is_directory, size) = match &entry.node.content {
        Content::File(bytes) => (false, bytes.len()),
        Content::Directory(below) => (true, below.len()),
    };
    let mut text = String::new(alloc);
    node_text(is_directory, size as u64, entry.node.moment, &mut text)?;
    let payload = query(alloc, Asked::Node, &entry.path)?;
    Ok(Expected { payload, text })
}

/// Appends what is reported of the names in a directory.
fn put_names(
    alloc: Global,
    state: &State,
    entry: &Entry,
    below: &[String],
    out: &mut String,
) -> Result<(), Trouble> {
    write!(out, "names {}", below.len())?;
    for name in below {
        let path = path_below(alloc, &entry.path, name)?;
        let is_directory = state.node(&path).is_some_and(Node::is_directory);
        out.push_str(if is_directory { " d " } else { " f " })?;
        out.push_str(name)?;
    }
    Ok(())
}

/// The path of a name in a directory.
fn path_below(alloc: Global, directory: &[String], name: &str) -> Result<Vec<String>, Trouble> {
    let mut path = Vec::new(alloc);
    for above in directory {
        path.push(above.clone()?)?;
    }
    path.push(String::from_str(alloc, name)?)?;
    Ok(path)
}

/// Appends the sessions of a state: the next unique ID, the count of commits, and for each client its number, its
/// latest request number, and the code and the commit of each kept reply.
pub fn put_sessions(snapshot: &Snapshot, out: &mut String) -> Result<(), Trouble> {
    let sessions = snapshot.sessions();
    put_pair(
        "",
        u64::from(sessions.next_unique),
        u64::from(sessions.commits),
        out,
    )?;
    for record in &sessions.records {
        put_pair(", ", record.client, record.latest, out)?;
        for reply in record.replies.as_slice() {
            put_pair(" ", u64::from(reply.code), u64::from(reply.commit), out)?;
        }
    }
    Ok(())
}

/// Appends two numbers, after what parts them from those before.
fn put_pair(parted: &str, first: u64, second: u64, out: &mut String) -> Result<(), Trouble> {
    write!(out, "{parted}{first} {second}")?;
    Ok(())
}

/// A query, and what is to be reported.
#[derive(Drop)]
struct Expected {
    payload: Vec<u8>,
    text: String,
}

/// What the plain program has after a commit.
#[derive(Drop)]
struct Mark {
    commit: u32,
    sessions: String,
    tree: Vec<Expected>,
}

/// A request that was committed with the answer, and how many blocks there were before it.
#[derive(Drop)]
struct Sent {
    client: u64,
    number: u64,
    before: usize,
    expected: Expected,
}

/// Random numbers, the plain program, and what was sent.
#[derive(Drop)]
pub struct Beside {
    alloc: Global,
    die: Die,
    plain: Option<Plain>,
    latest: [u64; 3],
    sent: Vec<Sent>,
    /// The tree at the prefix of `blocks` blocks. Longer prefixes were not looked at yet.
    tree: Vec<Expected>,
    blocks: usize,
    marks: Vec<Mark>,
    counts: Vec<(u64, u32, u32)>,
}

/// Whether two texts are the same. Appends both if they are not.
fn compare(got: &str, wanted: &str, out: &mut String) -> Result<bool, Trouble> {
    if got == wanted {
        return Ok(true);
    }
    write!(out, "{got} and not {wanted}")?;
    Ok(false)
}

/// Whether a machine, or a snapshot of it, gives this answer to a payload. Appends both answers if it does not.
fn is_answered(
    alloc: Global,
    machine: &mut Machine,
    snapshot: Option<&Snapshot>,
    expected: &Expected,
    out: &mut String,
) -> Result<bool, Trouble> {
    let mut got = String::new(alloc);
    match snapshot {
        Some(snapshot) => machine.ask_then(snapshot, &expected.payload, &mut got)?,
        None => machine.ask(&expected.payload, &mut got)?,
    }
    compare(&got, &expected.text, out)
}

/// The same for a machine. If the drive failed, the payload is sent again.
fn is_answered_again(
    alloc: Global,
    machine: &mut Machine,
    expected: &Expected,
    out: &mut String,
) -> Result<bool, Trouble> {
    let mut got = String::new(alloc);
    machine.ask(&expected.payload, &mut got)?;
    if got.as_str() == "failed" {
        return is_answered(alloc, machine, None, expected, out);
    }
    compare(&got, &expected.text, out)
}

/// Compares what the machine reports of its tree, or of that of a snapshot, with what is expected.
fn compare_tree(
    alloc: Global,
    machine: &mut Machine,
    snapshot: Option<&Snapshot>,
    tree: &[Expected],
    out: &mut String,
) -> Result<bool, Trouble> {
    for expected in tree {
        if !is_answered(alloc, machine, snapshot, expected, out)? {
            return Ok(false);
        }
    }
    Ok(true)
}

impl Beside {
    /// Random numbers and a plain program, for a machine with a new volume.
    pub fn new(alloc: Global, seed: u64, machine: &Machine) -> Result<Beside, Trouble> {
        let plain = Plain::formatted(alloc)?;
        let tree = plain.tree(alloc)?;
        let mut counts = Vec::new(alloc);
        counts.push(plain.counts())?;
        Ok(Beside {
            alloc,
            die: Die(seed),
            plain: Some(plain),
            latest: [0; 3],
            sent: Vec::new(alloc),
            tree,
            blocks: machine.blocks(),
            marks: Vec::new(alloc),
            counts,
        })
    }

    fn plain(&self) -> Result<&Plain, Trouble> {
        self.plain.as_ref().ok_or(Trouble::Line("no die"))
    }

    /// A fault of the drive, a restart, both, or neither.
    pub fn upset(&mut self, machine: &mut Machine) {
        machine.arm(match self.die.roll(12) {
            0 | 1 => Fault::AfterBlocks(u64::from(self.die.roll(9))),
            2 => Fault::Read(u64::from(self.die.roll(6))),
            _ => Fault::AfterBlocks(1_000),
        });
        if self.die.roll(6) == 0 {
            machine.restart();
        }
    }

    /// Sends the next request of one of three clients.
    pub fn fall(&mut self, machine: &mut Machine, out: &mut String) -> Result<bool, Trouble> {
        let client = self.die.roll(3) as usize % 3;
        let number = self.latest[client].saturating_add(1);
        self.latest[client] = number;
        let client = client as u64 + 1;
        let change = self.die.choose(self.alloc, client, number)?;
        let sent = Sent {
            client,
            number,
            before: machine.blocks(),
            expected: self.expect(change)?,
        };
        let is_same = is_answered_again(self.alloc, machine, &sent.expected, out)?;
        self.sent.push(sent)?;
        Ok(is_same)
    }

    /// Applies a request to the plain program, and returns its payload and the answer.
    fn expect(&mut self, change: Change) -> Result<Expected, Trouble> {
        let payload = change.payload(self.alloc)?;
        let mut text = String::new(self.alloc);
        self.apply(change.plain(), &mut text)?;
        Ok(Expected { payload, text })
    }

    /// Applies a request that is new to the plain program. Appends the answer.
    fn apply(&mut self, request: Request, out: &mut String) -> Result<(), Trouble> {
        let plain = self.plain.take().ok_or(Trouble::Line("no die"))?;
        let plain = plain.apply(self.alloc, request, out)?;
        self.counts.push(plain.counts())?;
        self.plain = Some(plain);
        Ok(())
    }

    /// Gives a request to the plain program and to the machine. Reports the answer if both give the same one, and
    /// otherwise both answers.
    pub fn both(
        &mut self,
        machine: &mut Machine,
        payload: &[u8],
        out: &mut String,
    ) -> Result<(), Trouble> {
        let mut wanted = String::new(self.alloc);
        self.answer(payload, &mut wanted)?;
        let mut got = String::new(self.alloc);
        machine.ask(payload, &mut got)?;
        if compare(&got, &wanted, out)? {
            out.push_str(&got)?;
        }
        Ok(())
    }

    /// Appends the answer of the plain program to any request.
    fn answer(&mut self, payload: &[u8], out: &mut String) -> Result<(), Trouble> {
        let request = plain_request(self.alloc, payload)?;
        let (client, number) = (request.client, request.number);
        if self.plain()?.is_new(client, number) {
            return self.apply(request, out);
        }
        self.plain()?.refuse(client, number, out)
    }

    /// Reports what is due for a number by the plain program, which knows the number 0 too. No frame can carry that one.
    pub fn due(&self, client: u64, number: u64, out: &mut String) -> Result<(), Trouble> {
        let plain = self.plain()?;
        if plain.is_new(client, number) {
            out.push_str("new")?;
            return Ok(());
        }
        plain.refuse(client, number, out)
    }

    /// Sends a request that was sent before, or one whose number is too large.
    pub fn stray(&mut self, machine: &mut Machine, out: &mut String) -> Result<bool, Trouble> {
        let index = self.die.roll(40) as usize;
        let gap = self.latest[0].saturating_add(2);
        let payload = self.die.choose(self.alloc, 1, gap)?.payload(self.alloc)?;
        let expected = match self.sent.get(index) {
            Some(sent) => self.refused(sent.client, sent.number, &sent.expected.payload)?,
            None => self.refused(1, gap, &payload)?,
        };
        is_answered_again(self.alloc, machine, &expected, out)
    }

    /// The payload of a request that is not new, and the answer of the plain program.
    fn refused(&self, client: u64, number: u64, payload: &[u8]) -> Result<Expected, Trouble> {
        let mut text = String::new(self.alloc);
        self.plain()?.refuse(client, number, &mut text)?;
        let payload = payload.to_vec(self.alloc)?;
        Ok(Expected { payload, text })
    }

    /// Checks each prefix of what was written since the last look: without the last block it must have the tree of that
    /// look, and with it the current tree.
    pub fn fronts(&mut self, machine: &Machine, out: &mut String) -> Result<bool, Trouble> {
        let until = machine.blocks();
        for blocks in self.blocks..until {
            if !self.has_tree(machine, blocks, out)? {
                return Ok(false);
            }
        }
        self.tree = self.plain()?.tree(self.alloc)?;
        self.blocks = until;
        self.has_tree(machine, until, out)
    }

    /// Checks that a prefix has the tree of the last look.
    fn has_tree(
        &self,
        machine: &Machine,
        blocks: usize,
        out: &mut String,
    ) -> Result<bool, Trouble> {
        let mut front = machine.front(blocks)?;
        compare_tree(self.alloc, &mut front, None, &self.tree, out)
    }

    /// Checks the tree of the newest state.
    pub fn tree(&self, machine: &mut Machine, out: &mut String) -> Result<bool, Trouble> {
        let tree = self.plain()?.tree(self.alloc)?;
        compare_tree(self.alloc, machine, None, &tree, out)
    }

    /// One time in four, cuts the medium after some of the blocks of the last commit, from none to all, up to three
    /// times. If a block is lost, so is the commit, and its request is sent again.
    pub fn lose(&mut self, machine: &mut Machine, out: &mut String) -> Result<bool, Trouble> {
        let mut from = self.last_sent()?.before;
        let cuts = if self.die.roll(4) == 0 {
            self.die.roll(4)
        } else {
            0
        };
        for _ in 0..cuts {
            let until = machine.blocks();
            let kept = from.saturating_add(self.die.roll(10) as usize).min(until);
            *machine = machine.front(kept)?;
            let mut lost = 0;
            if kept < until {
                lost = until.saturating_sub(from);
                from = kept;
            }
            if !self.put_again(machine, lost, out)? {
                return Ok(false);
            }
        }
        Ok(true)
    }

    /// Sends a new request, and loses the power during its commit. The state before it must be recovered, or the one
    /// after it if the last block is there. Then the request is sent again.
    pub fn tear(&mut self, machine: &mut Machine, out: &mut String) -> Result<bool, Trouble> {
        let old = self.plain()?.tree(self.alloc)?;
        self.tear_after(machine, &old, out)
    }

    /// The same, after this tree.
    fn tear_after(
        &mut self,
        machine: &mut Machine,
        old: &[Expected],
        out: &mut String,
    ) -> Result<bool, Trouble> {
        let before = machine.blocks();
        if !self.fall(machine, out)? {
            return Ok(false);
        }
        let size = machine.blocks().saturating_sub(before);
        let is_there = self.lose_power(machine)?;
        let is_recovered = if is_there {
            self.tree(machine, out)
        } else {
            compare_tree(self.alloc, machine, None, old, out)
        };
        if !is_recovered? {
            return Ok(false);
        }
        self.put_again(machine, if is_there { 0 } else { size }, out)
    }

    /// Loses the power during the last commit. Returns whether the last block is there.
    fn lose_power(&mut self, machine: &mut Machine) -> Result<bool, Trouble> {
        let sent = self.sent.last().ok_or(NOTHING_SENT)?;
        let commit = LastCommit {
            alloc: self.alloc,
            machine,
            before: sent.before,
            payload: &sent.expected.payload,
        };
        let left = commit.torn(&mut self.die)?;
        let is_there = left.journal().last() == machine.journal().last();
        *machine = left;
        Ok(is_there)
    }

    fn last_sent(&self) -> Result<&Sent, Trouble> {
        self.sent.last().ok_or(NOTHING_SENT)
    }

    /// Sends the last request again, and checks its answer, and that it adds `size` blocks.
    fn put_again(
        &self,
        machine: &mut Machine,
        size: usize,
        out: &mut String,
    ) -> Result<bool, Trouble> {
        let blocks = machine.blocks().saturating_add(size);
        let sent = self.last_sent()?;
        if !is_answered(self.alloc, machine, None, &sent.expected, out)? {
            return Ok(false);
        }
        if machine.blocks() != blocks {
            out.push_str("other blocks")?;
            return Ok(false);
        }
        Ok(true)
    }

    /// Keeps what the plain program has now.
    pub fn mark(&mut self) -> Result<(), Trouble> {
        let plain = self.plain()?;
        let (commits, _, _) = plain.counts();
        let mut sessions = String::new(self.alloc);
        plain.put_sessions(&mut sessions)?;
        let mark = Mark {
            commit: (commits % 0x1_0000_0000) as u32,
            sessions,
            tree: plain.tree(self.alloc)?,
        };
        self.marks.push(mark)?;
        Ok(())
    }

    /// Checks that the snapshot is the state that was kept as the mark of this index.
    pub fn at_mark(
        &self,
        machine: &mut Machine,
        snapshot: &Snapshot,
        index: usize,
        out: &mut String,
    ) -> Result<bool, Trouble> {
        let mark = self.marks.get(index).ok_or(Trouble::Line("no mark"))?;
        if snapshot.commit().commit != mark.commit {
            out.push_str("another commit")?;
            return Ok(false);
        }
        let has_sessions = compare_sessions(self.alloc, snapshot, &mark.sessions, out)?;
        Ok(has_sessions && compare_tree(self.alloc, machine, Some(snapshot), &mark.tree, out)?)
    }

    /// Checks the states after the marked commits.
    pub fn marks(&self, machine: &mut Machine, out: &mut String) -> Result<bool, Trouble> {
        for index in 0..self.marks.len() {
            let snapshot = machine.as_of(self.marks[index].commit)?;
            if !self.at_mark(machine, &snapshot, index, out)? {
                return Ok(false);
            }
        }
        Ok(true)
    }

    /// Checks the list of the commits: each once, the newest first, at decreasing addresses, with the counts of the
    /// plain program.
    pub fn listed(&self, machine: &mut Machine, out: &mut String) -> Result<bool, Trouble> {
        let commits = machine.history()?;
        if commits.len() != self.counts.len() {
            out.push_str("another count")?;
            return Ok(false);
        }
        let mut above = u32::MAX;
        for (commit, counts) in commits.iter().zip(self.counts.iter().rev()) {
            let got = (u64::from(commit.commit), commit.files, commit.directories);
            if got != *counts || commit.vat_icb_address >= above {
                write!(out, "{commit:?}")?;
                return Ok(false);
            }
            above = commit.vat_icb_address;
        }
        Ok(true)
    }
}

/// Compares the sessions of a snapshot with those that are expected.
fn compare_sessions(
    alloc: Global,
    snapshot: &Snapshot,
    wanted: &str,
    out: &mut String,
) -> Result<bool, Trouble> {
    let mut got = String::new(alloc);
    put_sessions(snapshot, &mut got)?;
    compare(&got, wanted, out)
}
