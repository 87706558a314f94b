//! The definitions of this crate as a plain, slow program: a list of paths and nodes, and a list of clients' records.
//! It keeps the whole tree in memory and searches all of it at each step, so that it can be compared with the
//! definitions line by line. A store is tested against it, request by request.

ghost use Rattle.std.specs.Prelude.{◌≡◌};
ghost use Rattle.model.specs.Session.{draws_identity};
ghost use Rattle.model.specs.Plain.{operation_in};

mod codes;
mod edits;
mod nodes;
mod paths;
mod records;
mod state;

pub use codes::Code;
pub use nodes::{Content, Entry, Node};
pub use records::{ClientRecord, Due, Reply};
pub use state::{Refusal, Request, State};

/// What a client may ask for. A path is the list of its names from the root on; the root's own is empty.
#[derive(Debug, Drop)]
pub enum Operation {
    Create {
        path: Vec<String>,
        bytes: Vec<u8>,
    },
    Replace {
        path: Vec<String>,
        bytes: Vec<u8>,
    },
    /// The bytes go after those that the file has, which are `offset`.
    Append {
        path: Vec<String>,
        offset: u64,
        bytes: Vec<u8>,
    },
    MakeDir {
        path: Vec<String>,
    },
    Rename {
        from: Vec<String>,
        to: Vec<String>,
    },
    Remove {
        path: Vec<String>,
    },
}

impl Operation {
    /// Whether the operation makes a node, which takes the next unique ID.
    pub fn draws_identity(&self) -> bool
        ensures { result ≡ draws_identity (operation_in self.now) }
    {
        matches!(self, Operation::Create { .. } | Operation::MakeDir { .. })
    }
}
