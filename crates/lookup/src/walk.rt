//! The walk from the root of a state's tree by names, and down to its leaves.

ghost use Rattle.std.specs.Prelude.{◌≤◌, [], ◌∷◌, ◌++◌, IfOk};
ghost use Rattle.model.specs.Tree.{Path, Tree};
ghost use Rattle.recover.specs.Faults.{devices};
ghost use Rattle.lookup.specs.Heights.{IsHeight};
ghost use Rattle.lookup.specs.Lookups.{Answers, KeepsToo, Looks, OfDirectory, OpensDirectory, Sees, SeesDirectory, graph_seen};
ghost use Rattle.lookup.specs.Shows.{IsFound, IsFoundDirectory, MatchesStored};

use crate::content::Content;
use crate::lookup::Lookup;
use crate::nodes::Placed;
use dir::Kind;
use drive::Drive;
use osta::Name;
use recover::{Node, ROOT, StoreFault, read_directory};

impl<D: Drive> Lookup<'_, '_, D> {
    /// Takes the directory at a virtual address out of the cache, or reads it. Returns where it is, and the directory.
    pub fn open(&mut self, address: u32) -> Result<(Placed, Content), StoreFault>
        ensures opened { OfDirectory D.Drive self.old self.new address (λ s. Answers result (λ read. MatchesStored s read.0 read.1)) }
        ensures lies { IfOk result (λ read. OpensDirectory D.Drive self.old self.new read.0 read.1) }
        ensures looks { Looks D.Drive (devices result) self.old self.new }
    {
        let at = self.entry_at(address)?;
        if let Some(opened) = self.cache.take(at, self.nodes.vat_icb_address) {
            return Ok(opened);
        }
        let placed = self.directory(at)?;
        let dir = read_directory(self.alloc, self.drive, placed.extent)?;
        Ok((placed, Content::of(self.alloc, dir)))
    }

    /// Keeps the directory at this place, if there is memory for it.
    pub fn keep(&mut self, placed: Placed, content: Content)
        ensures { KeepsToo D.Drive placed content self.old self.new }
    {
        self.cache.keep(placed, content);
    }

    /// The node that a directory has under a name, if any.
    pub fn child(&mut self, directory: u32, name: &Name) -> Result<Option<Node>, StoreFault>
        ensures found { (tree : Tree) (path : Path) → SeesDirectory D.Drive self.old self.new tree path directory → Answers result (IsFound (graph_seen D.Drive self.old) tree (path ++ name.now ∷ [])) }
        ensures looks { Looks D.Drive (devices result) self.old self.new }
    {
        let (placed, content) = self.open(directory)?;
        let entry = content.dir.entries.get(name).copied();
        self.keep(placed, content);
        match entry {
            Some(entry) => Ok(Some(Node {
                kind: entry.kind,
                address: entry.virtual_address,
                unique: entry.unique,
            })),
            None => Ok(None),
        }
    }

    /// The node that a path leads to, if any.
    pub fn find(&mut self, names: &[Name]) -> Result<Option<Node>, StoreFault>
        ensures found { (tree : Tree) → Sees D.Drive self.old self.new tree → Answers result (IsFound (graph_seen D.Drive self.old) tree names.now) }
        ensures looks { Looks D.Drive (devices result) self.old self.new }
    {
        let mut node = ROOT;
        for name in names {
            if !node.is_directory() {
                return Ok(None);
            }
            node = match self.child(node.address, name)? {
                Some(child) => child,
                None => return Ok(None),
            };
        }
        Ok(Some(node))
    }

    /// The directory that a path leads to. `None` if it leads to a file, or to nothing.
    pub fn find_directory(&mut self, names: &[Name]) -> Result<Option<Node>, StoreFault>
        ensures found { (tree : Tree) → Sees D.Drive self.old self.new tree → Answers result (IsFoundDirectory (graph_seen D.Drive self.old) tree names.now) }
        ensures looks { Looks D.Drive (devices result) self.old self.new }
    {
        let Some(node) = self.find(names)? else {
            return Ok(None);
        };
        if !node.is_directory() {
            return Ok(None);
        }
        Ok(Some(node))
    }

    /// How many names the longest path below a directory has, looking no further than `left` names.
    pub fn height(&mut self, address: u32, left: u32) -> Result<u32, StoreFault>
        ensures bound { IfOk result (λ height. height ≤ left) }
        ensures height { (tree : Tree) (path : Path) → SeesDirectory D.Drive self.old self.new tree path address → Answers result (IsHeight tree path left) }
        ensures looks { Looks D.Drive (devices result) self.old self.new }
    {
        if left == 0 {
            return Ok(0);
        }
        let (placed, content) = self.open(address)?;
        let mut most = 0;
        for index in 0..content.dir.entries.len() {
            let (_, entry) = content.dir.entries.get_index(index).unwrap();
            let Kind::Directory = entry.kind else {
                most = most.max(1);
                continue;
            };
            let below = self.height(entry.virtual_address, left - 1)?;
            most = most.max(below + 1);
        }
        self.keep(placed, content);
        Ok(most)
    }
}
