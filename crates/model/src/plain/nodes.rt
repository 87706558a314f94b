//! The nodes as a list of paths and nodes.

ghost use Rattle.std.specs.Prelude.{◌≡◌, [], position, length, unwrap_or};
ghost use Rattle.std.specs.Option.{option_copied, option_map};
ghost use Rattle.std.specs.FinMap.{get};
ghost use Rattle.model.specs.Tree.{paths_eq, bytes_in, is_directory, is_directory_at, names_at, names_of};
ghost use Rattle.model.specs.Operation.{file_bytes};
ghost use Rattle.model.specs.Plain.{texts_in, path_in, node_in, tree_in};

use super::paths::same_path;

/// What a node contains: a file's bytes, or a directory's names in their stored order.
#[derive(Debug, Drop)]
pub enum Content {
    File(Vec<u8>),
    Directory(Vec<String>),
}

/// A file or a directory, with its unique ID and the moment at which it was last written.
#[derive(Debug, Drop)]
pub struct Node {
    pub identity: u64,
    pub moment: u64,
    pub content: Content,
}

/// A node and the names that lead to it from the root.
#[derive(Debug, Drop)]
pub struct Entry {
    pub path: Vec<String>,
    pub node: Node,
}

impl Node {
    /// Whether it is a directory.
    pub fn is_directory(&self) -> bool
        ensures { result ≡ is_directory (node_in self.now) }
    {
        matches!(&self.content, Content::Directory(_))
    }

    /// How many names it has. A file has none.
    pub fn names(&self) -> usize
        ensures { result ≡ length (names_of (node_in self.now)) }
    {
        match &self.content {
            Content::File(_) => 0,
            Content::Directory(names) => names.len(),
        }
    }

    /// How many bytes it has. A directory has none.
    pub fn size(&self) -> usize
        ensures { result ≡ length (unwrap_or (bytes_in (node_in self.now).content) []) }
    {
        match &self.content {
            Content::File(bytes) => bytes.len(),
            Content::Directory(_) => 0,
        }
    }
}

/// The index of the entry of a path.
pub fn position(nodes: &[Entry], path: &[String]) -> Option<usize>
    ensures { result ≡ position (λ e. paths_eq (texts_in path.now) (path_in e)) nodes.now }
{
    nodes.iter().position(|e| same_path(path, &e.path))
}

/// The node at a path.
pub fn find<'a>(nodes: &'a [Entry], path: &[String]) -> Option<&'a Node>
    ensures { option_map node_in (option_copied result) ≡ get (tree_in nodes.now) (texts_in path.now) }
{
    match position(nodes, path) {
        None => None,
        Some(i) => Some(&nodes[i].node),
    }
}

/// Whether a directory is at the path.
pub fn is_directory_at(nodes: &[Entry], path: &[String]) -> bool
    ensures { result ≡ is_directory_at (tree_in nodes.now) (texts_in path.now) }
{
    match find(nodes, path) {
        None => false,
        Some(node) => node.is_directory(),
    }
}

/// How many names the directory at the path has: 0 if there is no directory.
pub fn names_at(nodes: &[Entry], path: &[String]) -> usize
    ensures { result ≡ length (names_at (tree_in nodes.now) (texts_in path.now)) }
{
    match find(nodes, path) {
        None => 0,
        Some(node) => node.names(),
    }
}

/// How many bytes the file at the path has: 0 if there is no file.
pub fn size_at(nodes: &[Entry], path: &[String]) -> usize
    ensures { result ≡ length (file_bytes (tree_in nodes.now) (texts_in path.now)) }
{
    match find(nodes, path) {
        None => 0,
        Some(node) => node.size(),
    }
}
