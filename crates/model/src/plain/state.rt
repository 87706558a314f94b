//! A volume's state, and what each request makes of it.

ghost use Rattle.std.specs.Prelude.{◌≡◌, ◌≤◌, ◌+◌, ◌^◌, ◌⊎◌, ◌==◌, ◌&&◌, if◌then◌else◌, IfOk, IfErr};
ghost use Rattle.std.specs.Option.{option_copied, option_map};
ghost use Rattle.std.specs.FinMap.{get};
ghost use Rattle.model.specs.Tree.{IsTree};
ghost use Rattle.model.specs.Operation.{code_of, tree_after};
ghost use Rattle.model.specs.Session.{draws_identity, due, formatted, reply_to, after_one};
ghost use Rattle.model.specs.Plain.{texts_in, node_in, code_in, operation_in, tree_in, reply_in, due_in, AreApart};
ghost use Rattle.model.specs.PlainState.{request_in, state_in, IsWholeState};

use super::codes::code_of;
use super::edits::done;
use super::nodes::find;
use super::records::{find_due, with_reply};
use super::{ClientRecord, Code, Content, Due, Entry, Node, Operation, Reply};
use std::alloc::{AllocError, Global};

/// What a client asks for: the client's number, which is above 0; the request's number; the moment, in microseconds
/// from 1970-01-01 UTC; and the operation.
#[derive(Debug, Drop)]
pub struct Request {
    pub client: u64,
    pub number: u64,
    pub moment: u64,
    pub operation: Operation,
}

/// Why a request could not be applied.
#[derive(Clone, Copy, Debug, PartialEq, Eq)]
pub enum Refusal {
    /// There was no memory.
    Memory,
    /// The number of commits or of unique IDs would pass 64 bits.
    Exhausted,
}

impl From<AllocError> for Refusal {
    ghost use Rattle.model.specs.declared.plain.state.Refusal.TheVariants.{Memory};

    ghost from_gives = { λ _ refusal. refusal ≡ Memory };

    fn from(_error: AllocError) -> Refusal {
        Refusal::Memory
    }
}

/// A volume's state: its nodes, in no order; the records, in the order of the clients' first commits; the number of
/// commits; the next unique ID; how long the table of virtual addresses is; and the moment of the last commit.
#[derive(Debug, Drop)]
pub struct State {
    pub nodes: Vec<Entry>,
    pub records: Vec<ClientRecord>,
    pub commits: u64,
    pub next_identity: u64,
    pub table_length: u64,
    pub moment: u64,
}

impl State {
    /// A volume as it is formatted: only the root, no client and no commit.
    pub fn formatted(alloc: Global, moment: u64) -> Result<State, AllocError>
        ensures whole { IfOk result (λ state. IsWholeState state) }
        ensures state { IfOk result (λ state. state_in state ≡ formatted moment) }
    {
        let root = Node {
            identity: 0,
            moment,
            content: Content::Directory(Vec::new(alloc)),
        };
        let mut nodes = Vec::new(alloc);
        nodes.push(Entry {
            path: Vec::new(alloc),
            node: root,
        })?;
        Ok(State {
            nodes,
            records: Vec::new(alloc),
            commits: 0,
            next_identity: 16,
            table_length: 2,
            moment,
        })
    }

    /// What is due for a client's request number.
    pub fn due(&self, client: u64, number: u64) -> Due
        ensures { due_in result ≡ due (state_in self.now) client number }
    {
        find_due(&self.records, client, number)
    }

    /// The node at a path.
    pub fn node(&self, path: &[String]) -> Option<&Node>
        ensures { option_map node_in (option_copied result) ≡ get (state_in self.now).tree (texts_in path.now) }
    {
        find(&self.nodes, path)
    }

    /// The state after the request, and the reply to it. The caller has to ask first what is due. If it is refused, the
    /// state is lost.
    pub fn apply(self, alloc: Global, request: Request) -> Result<(State, Reply), Refusal>
        requires { IsWholeState self }
        ensures whole { IfOk result (λ pair. IsWholeState pair.0) }
        ensures state { IfOk result (λ pair. state_in pair.0 ≡ after_one (state_in self) (request_in request)) }
        ensures reply { IfOk result (λ pair. reply_in pair.1 ≡ reply_to (state_in self) (request_in request)) }
        ensures exhausted { IfErr result (λ refusal. refusal ≡ Refusal.Exhausted → (2 ^ 64 ≤ self.commits + 1) ⊎ (2 ^ 64 ≤ self.next_identity + 1)) }
    {
        let State {
            nodes,
            records,
            commits,
            next_identity,
            table_length,
            moment: _,
        } = self;
        let Request {
            client,
            number,
            moment,
            operation,
        } = request;
        let code = code_of(&nodes, &operation);
        let reply = Reply {
            code,
            commit: commits.checked_add(1).ok_or(Refusal::Exhausted)?,
        };
        let (nodes, next_identity) = carried_out(
            alloc,
            nodes,
            code,
            operation,
            moment,
            next_identity,
        )?;
        let needed = 1 + nodes.len() as u64;
        let state = State {
            nodes,
            records: with_reply(alloc, records, client, number, reply)?,
            commits: reply.commit,
            next_identity,
            table_length: table_length.max(needed),
            moment,
        };
        Ok((state, reply))
    }
}

/// The entries and the next unique ID after an operation with this code.
fn carried_out(
    alloc: Global,
    nodes: Vec<Entry>,
    code: Code,
    operation: Operation,
    moment: u64,
    next_identity: u64,
) -> Result<(Vec<Entry>, u64), Refusal>
    requires apart { AreApart nodes.items }
    requires tree { IsTree (tree_in nodes.items) }
    requires code { code_in code ≡ code_of (operation_in operation) (tree_in nodes.items) }
    ensures apart { IfOk result (λ pair. AreApart pair.0.items) }
    ensures tree { IfOk result (λ pair. tree_in pair.0.items ≡ tree_after (operation_in operation) moment next_identity (tree_in nodes.items)) }
    ensures next { IfOk result (λ pair. pair.1 ≡ (if draws_identity (operation_in operation) && (code_of (operation_in operation) (tree_in nodes.items) == 0) then next_identity + 1 else next_identity)) }
    ensures exhausted { IfErr result (λ refusal. refusal ≡ Refusal.Exhausted → 2 ^ 64 ≤ next_identity + 1) }
{
    if !code.is_done() {
        return Ok((nodes, next_identity));
    }
    let next = if operation.draws_identity() {
        next_identity.checked_add(1).ok_or(Refusal::Exhausted)?
    } else {
        next_identity
    };
    let nodes = done(alloc, nodes, operation, moment, next_identity)?;
    Ok((nodes, next))
}
