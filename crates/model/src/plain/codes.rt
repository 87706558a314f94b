//! The checks of a request, in their order.

ghost use Rattle.std.specs.Prelude.{◌≡◌, ◌==◌};
ghost use Rattle.std.specs.List.{list_any};
ghost use Rattle.model.specs.Operation.{code_of, code_of_addition, code_of_replacement, code_of_append, code_of_removal, code_of_move, ends_at, is_too_deep, moves_too_deep};
ghost use Rattle.model.specs.Plain.{texts_in, path_in, tree_in, code_in, operation_in, AreApart};

use super::Operation;
use super::nodes::{Entry, find, is_directory_at, names_at, size_at};
use super::paths::{begins_with, parent, same_path};
use limits::{DIRECTORY_NAMES, FILE_BYTES, GREATEST_FILE, NODES, PATH_NAMES};

/// How a committed request went. The codes and their order are in docs/PROTOCOL.md.
#[derive(Clone, Copy, Debug, PartialEq, Eq)]
pub enum Code {
    Done,
    NoParent,
    NotFound,
    Exists,
    IsDirectory,
    NotEmpty,
    IntoItself,
    Root,
    TooDeep,
    DirectoryFull,
    TooMany,
}

impl Code {
    /// Whether the request was carried out.
    pub fn is_done(self) -> bool
        ensures { result ≡ (code_in self == 0) }
    {
        matches!(self, Code::Done)
    }
}

/// The code of an operation at these nodes.
pub fn code_of(nodes: &[Entry], operation: &Operation) -> Code
    requires { AreApart nodes.now }
    ensures { code_in result ≡ code_of (operation_in operation.now) (tree_in nodes.now) }
{
    match operation {
        Operation::Create { path, bytes: _ } => code_of_addition(nodes, path),
        Operation::MakeDir { path } => code_of_addition(nodes, path),
        Operation::Replace { path, bytes: _ } => code_of_replacement(nodes, path),
        Operation::Append {
            path,
            offset,
            bytes: _,
        } => code_of_append(nodes, path, *offset),
        Operation::Rename { from, to } => code_of_move(nodes, from, to),
        Operation::Remove { path } => code_of_removal(nodes, path),
    }
}

fn code_of_addition(nodes: &[Entry], path: &[String]) -> Code
    requires { AreApart nodes.now }
    ensures { code_in result ≡ code_of_addition (texts_in path.now) (tree_in nodes.now) }
{
    if path.is_empty() {
        Code::Root
    } else if path.len() > PATH_NAMES as usize {
        Code::TooDeep
    } else if !is_directory_at(nodes, parent(path)) {
        Code::NoParent
    } else if find(nodes, path).is_some() {
        Code::Exists
    } else if names_at(nodes, parent(path)) >= DIRECTORY_NAMES {
        Code::DirectoryFull
    } else if nodes.len() >= NODES as usize {
        Code::TooMany
    } else {
        Code::Done
    }
}

fn code_of_replacement(nodes: &[Entry], path: &[String]) -> Code
    ensures { code_in result ≡ code_of_replacement (texts_in path.now) (tree_in nodes.now) }
{
    if path.is_empty() {
        Code::Root
    } else if find(nodes, path).is_none() {
        Code::NotFound
    } else if is_directory_at(nodes, path) {
        Code::IsDirectory
    } else {
        Code::Done
    }
}

fn code_of_append(nodes: &[Entry], path: &[String], offset: u64) -> Code
    ensures { code_in result ≡ code_of_append (texts_in path.now) offset (tree_in nodes.now) }
{
    if path.is_empty() {
        Code::Root
    } else if find(nodes, path).is_none() {
        Code::NotFound
    } else if is_directory_at(nodes, path) {
        Code::IsDirectory
    } else if !ends_at(nodes, path, offset) {
        Code::Exists
    } else if offset >= u64::from(GREATEST_FILE) {
        Code::TooMany
    } else {
        Code::Done
    }
}

/// Whether the file at a path has so many bytes, and they fill its extents.
fn ends_at(nodes: &[Entry], path: &[String], offset: u64) -> bool
    ensures { result ≡ ends_at (tree_in nodes.now) (texts_in path.now) offset }
{
    size_at(nodes, path) as u64 == offset && offset % FILE_BYTES as u64 == 0
}

fn code_of_removal(nodes: &[Entry], path: &[String]) -> Code
    ensures { code_in result ≡ code_of_removal (texts_in path.now) (tree_in nodes.now) }
{
    if path.is_empty() {
        Code::Root
    } else if find(nodes, path).is_none() {
        Code::NotFound
    } else if names_at(nodes, path) > 0 {
        Code::NotEmpty
    } else {
        Code::Done
    }
}

fn code_of_move(nodes: &[Entry], from: &[String], to: &[String]) -> Code
    ensures { code_in result ≡ code_of_move (texts_in from.now) (texts_in to.now) (tree_in nodes.now) }
{
    if from.is_empty() || to.is_empty() {
        Code::Root
    } else if find(nodes, from).is_none() {
        Code::NotFound
    } else if from.len() < to.len() && begins_with(to, from) {
        Code::IntoItself
    } else if !is_directory_at(nodes, parent(to)) {
        Code::NoParent
    } else if find(nodes, to).is_some() {
        Code::Exists
    } else if moves_too_deep(nodes, from, to) {
        Code::TooDeep
    } else if names_at(nodes, parent(to)) >= DIRECTORY_NAMES
        && !same_path(parent(to), parent(from))
    {
        Code::DirectoryFull
    } else {
        Code::Done
    }
}

/// Whether a path that begins with `from` would have too many names with `to` in its place.
fn moves_too_deep(nodes: &[Entry], from: &[String], to: &[String]) -> bool
    ensures { result ≡ moves_too_deep (texts_in from.now) (texts_in to.now) (tree_in nodes.now) }
{
    any_too_deep(nodes, from, to)
}

fn any_too_deep(nodes: &[Entry], from: &[String], to: &[String]) -> bool
    ensures { result ≡ list_any (λ e. is_too_deep (texts_in from.now) (texts_in to.now) (path_in e)) nodes.now }
{
    nodes.iter().any(|e| is_too_deep(&e.path, from, to))
}

fn is_too_deep(path: &[String], from: &[String], to: &[String]) -> bool
    ensures { result ≡ is_too_deep (texts_in from.now) (texts_in to.now) (texts_in path.now) }
{
    begins_with(path, from) && PATH_NAMES as usize + from.len() < to.len() + path.len()
}
