//! What a request does to the nodes, before any place is chosen.

ghost use Rattle.limits.specs.declared.TheConstants.{DIRECTORY_NAMES};
ghost use Rattle.std.specs.Prelude.{◌≡◌, ◌<◌, List, ℕ, [], ◌∷◌, ◌&&◌, IfOk, IfErr, IfSome, None, Some, OnOk, is_some, length, nat_eq, nat_lt};
ghost use Rattle.std.specs.Cmp.Lexicographic.{pointwise};
ghost use Rattle.std.specs.Map.{lookup};
ghost use Rattle.indexmap.specs.IndexMap.{insert_entry};
ghost use Rattle.model.specs.Tree.{Path, begins_with, has_names};
ghost use Rattle.recover.specs.Faults.{devices};
ghost use Rattle.recover.specs.declared.fault.StoreFault.TheVariants.{Memory};
ghost use Rattle.table_update.specs.NextTable.{made_by};
ghost use Rattle.planning.specs.Changes.{IsChangeRefused, IsSameButDirectories, addition, code_by_names, content_of_thing, new_writing};
ghost use Rattle.planning.specs.Rewriting.{Rewrites};
ghost use Rattle.planning.specs.Writings.{AreKeptOn, change_writings};
ghost use Rattle.request.specs.Numbers.{code_number};
ghost use Rattle.udf.specs.Said.{names_directory};
ghost use Rattle.request.specs.declared.answer.Code.TheVariants.{Done};

use crate::file::NewFile;
use dir::{Dir, Entry, Kind};
use ecma::Timestamp;
use indexmap::IndexMap;
use limits::{DIRECTORY_NAMES, NODES};
use lookup::Content;
use osta::Name;
use recover::{Node, StoreFault};
use request::{Code, FileSlice};
use std::alloc::Global;
use table_update::NewNode;

/// A directory that is written.
#[derive(Drop)]
pub struct NewDirectory {
    pub address: u32,
    pub unique: u32,
    pub moment: Timestamp,
    pub content: Content,
}

/// What a request does to the nodes. It does nothing unless the code is `Done`.
#[derive(Drop)]
pub struct Change<'r> {
    pub code: Code,
    pub file: Option<NewFile<'r>>,
    /// In the order in which they are written: three at most.
    pub directories: Vec<NewDirectory>,
    pub made: Option<NewNode>,
    pub removed: Option<Node>,
}

/// What is put at a new path.
#[derive(Clone, Copy, Debug)]
pub(crate) enum NewContent<'r> {
    File(&'r FileSlice<'r>),
    Directory,
}

impl<'r> Change<'r> {
    /// A change with the code `Done` that does nothing yet.
    pub(crate) fn new(alloc: Global) -> Change<'r>
        ensures code { result.code ≡ Done }
        ensures file { result.file ≡ None }
        ensures directories { result.directories.items ≡ [] }
        ensures made { result.made ≡ None }
        ensures removed { result.removed ≡ None }
    {
        Change {
            code: Code::Done,
            file: None,
            directories: Vec::new(alloc),
            made: None,
            removed: None,
        }
    }

    /// A change that does nothing, with the code that says why.
    pub(crate) fn refused(alloc: Global, code: Code) -> Change<'r>
        ensures { IsChangeRefused code result }
    {
        Change {
            code,
            file: None,
            directories: Vec::new(alloc),
            made: None,
            removed: None,
        }
    }

    /// A change that writes a file alone.
    pub(crate) fn of_file(alloc: Global, file: NewFile<'r>) -> Change<'r>
        ensures file { result.file ≡ Some file.entry }
        ensures code { result.code ≡ Done }
        ensures directories { result.directories.items ≡ [] }
        ensures made { result.made ≡ None }
        ensures removed { result.removed ≡ None }
    {
        Change {
            code: Code::Done,
            file: Some(file),
            directories: Vec::new(alloc),
            made: None,
            removed: None,
        }
    }

    /// Adds the new node to what is written, and returns its kind.
    pub(crate) fn put_new(
        &mut self,
        alloc: Global,
        parent: Node,
        address: u32,
        unique: u32,
        thing: NewContent<'r>,
        moment: Timestamp,
    ) -> Result<Kind, StoreFault>
        // If nothing is written yet, the node comes first.
        ensures put { (medium : List (List ℕ)) → IfOk result (λ kind. self.old.file ≡ None → self.old.directories.items ≡ [] → change_writings medium moment self.new ≡ new_writing address unique moment parent.address thing.entry ∷ []) }
        ensures kept { (medium : List (List ℕ)) → IfOk result (λ kind. self.old.file ≡ None → IfSome self.new.file (AreKeptOn medium)) }
        ensures kind { IfOk result (λ kind. names_directory kind ≡ has_names (content_of_thing thing.entry)) }
        ensures made { IfOk result (λ kind. (path : Path) → self.new.made ≡ made_by (addition path thing.entry) address) }
        ensures code { self.new.code ≡ self.old.code }
        ensures removed { self.new.removed ≡ self.old.removed }
        ensures memory { IfErr result (λ fault. fault ≡ Memory) }
        ensures device { devices result ≡ 0 }
    {
        match thing {
            NewContent::File(bytes) => {
                self.file = Some(NewFile::whole(alloc, address, unique, bytes));
                self.made = Some(NewNode {
                    kind: Kind::File,
                    address,
                });
                Ok(Kind::File)
            }
            NewContent::Directory => {
                let dir = Dir {
                    parent: parent.address,
                    entries: IndexMap::new(alloc),
                };
                self.directories.push(NewDirectory {
                    address,
                    unique,
                    moment,
                    content: Content::of(alloc, dir),
                })?;
                self.made = Some(NewNode {
                    kind: Kind::Directory,
                    address,
                });
                Ok(Kind::Directory)
            }
        }
    }

    /// Adds a name to the content of a node's directory, and that directory, with this moment, to what is written.
    pub(crate) fn put_name(
        &mut self,
        node: Node,
        moment: Timestamp,
        mut content: Content,
        name: &Name,
        entry: Entry,
    ) -> Result<(), StoreFault>
        requires room { length content.dir.entries.entries < DIRECTORY_NAMES }
        // A name that is there already keeps its place.
        ensures put { OnOk result (Rewrites node moment content (insert_entry (pointwise nat_eq) content.dir.entries.entries name.now entry) self.old self.new) }
        ensures same { IsSameButDirectories self.old self.new }
        ensures memory { IfErr result (λ fault. fault ≡ Memory) }
        ensures device { devices result ≡ 0 }
    {
        content.add(name.clone()?, entry)?;
        self.directories.push(written(node, moment, content))?;
        Ok(())
    }
}

/// `Done` if a name can be added to a directory, and otherwise the code that says why not.
pub(crate) fn code_of_addition(node_count: u32, content: &Content, name: &Name) -> Code
    ensures code { code_number result ≡ code_by_names (is_some (lookup (pointwise nat_eq name.now) content.now.dir.entries.entries)) (length content.now.dir.entries.entries) node_count }
    ensures room { result ≡ Done → length content.now.dir.entries.entries < DIRECTORY_NAMES }
{
    if content.dir.entries.contains_key(name) {
        return Code::Exists;
    }
    if content.dir.entries.len() >= DIRECTORY_NAMES {
        return Code::DirectoryFull;
    }
    if node_count >= NODES {
        return Code::TooMany;
    }
    Code::Done
}

/// Whether `path` begins with `front` and is longer.
pub(crate) fn is_below(path: &[Name], front: &[Name]) -> bool
    ensures { result ≡ (nat_lt (length front.now) (length path.now) && begins_with path.now front.now) }
{
    if path.len() <= front.len() {
        return false;
    }
    path.starts_with(front)
}

/// The directory of this node, written again with this moment and content.
pub(crate) fn written(node: Node, moment: Timestamp, content: Content) -> NewDirectory
    ensures address { result.address ≡ node.address }
    ensures unique { result.unique ≡ node.unique }
    ensures moment { result.moment ≡ moment }
    ensures content { result.content ≡ content }
{
    NewDirectory {
        address: node.address,
        unique: node.unique,
        moment,
        content,
    }
}
