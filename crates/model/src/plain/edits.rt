//! What an operation changes in the list of entries.

ghost use Rattle.std.specs.Prelude.{◌≡◌, ◌++◌, [], IfOk, OnOk, filter, map, string_bytes, bytes_eq, unwrap_or};
ghost use Rattle.std.specs.List.{list_any};
ghost use Rattle.std.specs.FinMap.{get, remove};
ghost use Rattle.model.specs.Operation.{with_names, with_bytes, is_other, name_added, name_taken_out, added, all_moved, changed_at, file_bytes, code_of, code_of_move, done};
ghost use Rattle.model.specs.Tree.{IsTree, bytes_in};
ghost use Rattle.model.specs.Plain.{texts_in, node_in, plain_content, entry_in, tree_in, operation_in, AreApart, ListsTree, paths_moved};

use super::Operation;
use super::nodes::{Content, Entry, Node, position};
use super::paths::{copied, last, moved, parent};
use std::alloc::{AllocError, Global};

impl Node {
    /// Puts names at the end of a directory's list; a file keeps its bytes.
    pub fn add_names(&mut self, mut names: Vec<String>, moment: u64) -> Result<(), AllocError>
        ensures { OnOk result (node_in self.new ≡ with_names (λ list. list ++ texts_in names.items) moment (node_in self.old)) }
    {
        self.moment = moment;
        if let Content::Directory(list) = &mut self.content {
            list.append(&mut names)?;
        }
        Ok(())
    }

    /// Takes names out of a directory's list, in which the others keep their order.
    pub fn take_out(&mut self, names: &[String], moment: u64)
        ensures { node_in self.new ≡ with_names (filter (is_other (texts_in names.now))) moment (node_in self.old) }
    {
        self.moment = moment;
        if let Content::Directory(list) = &mut self.content {
            keep_others(list, names);
        }
    }

    /// Replaces a file's bytes.
    pub fn set_bytes(&mut self, bytes: Vec<u8>, moment: u64)
        ensures { node_in self.new ≡ with_bytes bytes.items moment (node_in self.old) }
    {
        self.moment = moment;
        self.content = Content::File(bytes);
    }

    /// Puts bytes after a file's.
    pub fn add_bytes(&mut self, mut bytes: Vec<u8>, moment: u64) -> Result<(), AllocError>
        ensures { OnOk result (node_in self.new ≡ with_bytes (unwrap_or (bytes_in (node_in self.old).content) [] ++ bytes.items) moment (node_in self.old)) }
    {
        self.moment = moment;
        match &mut self.content {
            Content::File(old) => old.append(&mut bytes)?,
            Content::Directory(_) => self.content = Content::File(bytes),
        }
        Ok(())
    }
}

/// Removes these names from a list.
fn keep_others(list: &mut Vec<String>, names: &[String])
    ensures { texts_in list.new.items ≡ filter (is_other (texts_in names.now)) (texts_in list.old.items) }
{
    list.retain(
        |name: &String| -> bool
            ensures { result ≡ is_other (texts_in names.entry.now) (string_bytes name.now) }
        { is_other(names, name.as_str()) },
    );
}

fn is_other(names: &[String], name: &str) -> bool
    ensures { result ≡ is_other (texts_in names.now) name.now }
{
    !is_among(names, name)
}

fn is_among(names: &[String], name: &str) -> bool
    ensures { result ≡ list_any (λ n. bytes_eq name.now (string_bytes n)) names.now }
{
    names.iter().any(|n| name == n.as_str())
}

/// Puts the last name of a path at the end of its parent's list.
pub fn name_added(
    alloc: Global,
    mut nodes: Vec<Entry>,
    path: &[String],
    moment: u64,
) -> Result<Vec<Entry>, AllocError>
    requires { AreApart nodes.items }
    ensures { IfOk result (λ new. ListsTree new.items (name_added (texts_in path.now) moment (tree_in nodes.items))) }
{
    let Some(i) = position(&nodes, parent(path)) else {
        return Ok(nodes);
    };
    let name = copied(alloc, last(path))?;
    nodes[i].node.add_names(name, moment)?;
    Ok(nodes)
}

/// Takes the last name of a path out of its parent's list.
pub fn name_taken_out(mut nodes: Vec<Entry>, path: &[String], moment: u64) -> Vec<Entry>
    requires { AreApart nodes.items }
    ensures { ListsTree result.items (name_taken_out (texts_in path.now) moment (tree_in nodes.items)) }
{
    let Some(i) = position(&nodes, parent(path)) else {
        return nodes;
    };
    nodes[i].node.take_out(last(path), moment);
    nodes
}

/// Adds a node, whose path has none, and its name to its parent.
pub fn added(
    alloc: Global,
    nodes: Vec<Entry>,
    path: Vec<String>,
    content: Content,
    moment: u64,
    identity: u64,
) -> Result<Vec<Entry>, AllocError>
    requires apart { AreApart nodes.items }
    requires new { get (tree_in nodes.items) (texts_in path.items) ≡ None }
    ensures { IfOk result (λ new. ListsTree new.items (added (texts_in path.items) (plain_content content) moment identity (tree_in nodes.items))) }
{
    let mut nodes = name_added(alloc, nodes, &path, moment)?;
    let node = Node {
        identity,
        moment,
        content,
    };
    nodes.push(Entry { path, node })?;
    Ok(nodes)
}

/// Removes a node, and its name from its parent.
pub fn removed(mut nodes: Vec<Entry>, path: &[String], moment: u64) -> Vec<Entry>
    requires { AreApart nodes.items }
    ensures { ListsTree result.items (name_taken_out (texts_in path.now) moment (remove (tree_in nodes.items) (texts_in path.now))) }
{
    let Some(i) = position(&nodes, path) else {
        return name_taken_out(nodes, path, moment);
    };
    drop(nodes.remove(i));
    name_taken_out(nodes, path, moment)
}

/// Replaces a file's bytes.
pub fn replaced(mut nodes: Vec<Entry>, path: &[String], bytes: Vec<u8>, moment: u64) -> Vec<Entry>
    requires { AreApart nodes.items }
    ensures { ListsTree result.items (changed_at (texts_in path.now) (with_bytes bytes.items moment) (tree_in nodes.items)) }
{
    let Some(i) = position(&nodes, path) else {
        return nodes;
    };
    nodes[i].node.set_bytes(bytes, moment);
    nodes
}

/// Puts bytes after those of a file.
pub fn appended(
    mut nodes: Vec<Entry>,
    path: &[String],
    bytes: Vec<u8>,
    moment: u64,
) -> Result<Vec<Entry>, AllocError>
    requires { AreApart nodes.items }
    ensures { IfOk result (λ new. ListsTree new.items (changed_at (texts_in path.now) (with_bytes (file_bytes (tree_in nodes.items) (texts_in path.now) ++ bytes.items) moment) (tree_in nodes.items))) }
{
    let Some(i) = position(&nodes, path) else {
        return Ok(nodes);
    };
    nodes[i].node.add_bytes(bytes, moment)?;
    Ok(nodes)
}

/// Replaces the prefix `from` of each path that has it by `to`.
fn paths_moved(
    alloc: Global,
    mut nodes: Vec<Entry>,
    from: &[String],
    to: &[String],
) -> Result<Vec<Entry>, AllocError>
    ensures { IfOk result (λ new. map entry_in new.items ≡ paths_moved (texts_in from.now) (texts_in to.now) (map entry_in nodes.items)) }
{
    for i in 0..nodes.len() {
        let path = moved(alloc, &nodes[i].path, from, to)?;
        nodes[i].path = path;
    }
    Ok(nodes)
}

/// Moves what is at `from`, with all below it, to `to`.
fn renamed(
    alloc: Global,
    nodes: Vec<Entry>,
    from: &[String],
    to: &[String],
    moment: u64,
) -> Result<Vec<Entry>, AllocError>
    requires apart { AreApart nodes.items }
    requires tree { IsTree (tree_in nodes.items) }
    requires code { code_of_move (texts_in from.now) (texts_in to.now) (tree_in nodes.items) ≡ 0 }
    ensures { IfOk result (λ new. ListsTree new.items (name_added (texts_in to.now) moment (name_taken_out (texts_in from.now) moment (all_moved (texts_in from.now) (texts_in to.now) (tree_in nodes.items))))) }
{
    let nodes = paths_moved(alloc, nodes, from, to)?;
    let nodes = name_taken_out(nodes, from, moment);
    name_added(alloc, nodes, to, moment)
}

/// The entries after an operation whose code is [`Code::Done`](super::Code::Done).
pub fn done(
    alloc: Global,
    nodes: Vec<Entry>,
    operation: Operation,
    moment: u64,
    identity: u64,
) -> Result<Vec<Entry>, AllocError>
    requires apart { AreApart nodes.items }
    requires tree { IsTree (tree_in nodes.items) }
    requires code { code_of (operation_in operation) (tree_in nodes.items) ≡ 0 }
    ensures { IfOk result (λ new. ListsTree new.items (done (operation_in operation) moment identity (tree_in nodes.items))) }
{
    match operation {
        Operation::Create { path, bytes } => added(
            alloc,
            nodes,
            path,
            Content::File(bytes),
            moment,
            identity,
        ),
        Operation::Replace { path, bytes } => Ok(replaced(nodes, &path, bytes, moment)),
        Operation::Append {
            path,
            offset: _,
            bytes,
        } => appended(nodes, &path, bytes, moment),
        Operation::MakeDir { path } => {
            let none = Content::Directory(Vec::new(alloc));
            added(alloc, nodes, path, none, moment, identity)
        }
        Operation::Rename { from, to } => renamed(alloc, nodes, &from, &to, moment),
        Operation::Remove { path } => Ok(removed(nodes, &path, moment)),
    }
}
