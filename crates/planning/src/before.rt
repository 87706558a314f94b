//! What a request changes in the state before it. Each directory on its paths is looked up once.

ghost use Rattle.std.specs.Prelude.{◌≡◌, ◌%◌, ◌==◌, ◌&&◌, ℕ, IsTrue, IfOk, IfErr, [], length, nat_lt};
ghost use Rattle.std.specs.FinMap.{len};
ghost use Rattle.drive.specs.Journal.{Once};
ghost use Rattle.drive.specs.Reads.{ReadsOnly};
ghost use Rattle.model.specs.Graph.{entries_of};
ghost use Rattle.model.specs.Operation.{moves_too_deep};
ghost use Rattle.model.specs.Operation.Operation.{Append, Remove, Rename, Replace};
ghost use Rattle.model.specs.Tree.{Path, Tree};
ghost use Rattle.recover.specs.Faults.{IsShortage, devices};
ghost use Rattle.lookup.specs.Asked.{model_operation};
ghost use Rattle.lookup.specs.Cache.{AreKept};
ghost use Rattle.lookup.specs.Lookups.{Answers, Looks, OfDirectory, OfStoredNode, Sees, SeesNode, graph_seen};
ghost use Rattle.limits.specs.declared.TheConstants.{FILE_BYTES};
ghost use Rattle.planning.specs.Changes.{IsChangeRefused, IsChangeSeen, IsSameButDirectories, KeepsSeen, addition};
ghost use Rattle.planning.specs.Last.{HasTree, IsChangeIn, IsCounted, IsLastTableOn, KeepsIn};
ghost use Rattle.planning.specs.Moves.{IsBetween, IsMoveWithin, Moves, Turns};
ghost use Rattle.planning.specs.Rewriting.{TakesName};
ghost use Rattle.planning.specs.Writings.{new_directories};

use crate::change::{Change, NewContent, code_of_addition, is_below, written};
use crate::file::NewFile;
use crate::plan::LastTable;
use dir::Entry;
use drive::Drive;
use ecma::Timestamp;
use limits::{DIRECTORY_NAMES, FILE_BYTES, GREATEST_FILE};
use lookup::{DirectoryCache, FileEnd, Lookup, Nodes};
use osta::Name;
use recover::{Node, StoreFault};
use request::{AppendSlice, Code, FileSlice, Op, Request};
use std::alloc::Global;

/// The greatest number of names in a path of the tree.
const PATH_NAMES: usize = limits::PATH_NAMES as usize;

/// The state before a request: a look-up in it, how many nodes it has, and the unique ID of the next one.
#[derive(Drop)]
struct StateBefore<'s, 'n, D: Drive> {
    lookup: Lookup<'s, 'n, D>,
    node_count: u32,
    next_unique: u32,
}

impl LastTable<'_> {
    /// What a request does to the state whose table this is. `cache` has the directories that were used last. The fault
    /// is `Device`, `Memory` or `Damaged`: a request that the tree refuses gives a change with the code.
    pub fn change<'r, D: Drive>(
        &self,
        alloc: Global,
        drive: &mut D,
        cache: &mut DirectoryCache,
        request: &'r Request<'r>,
        moment: Timestamp,
    ) -> Result<Change<'r>, StoreFault>
        requires agrees { IsLastTableOn (D.journal drive.old) (D.capacity drive.old) self.now }
        ensures does { (tree : Tree) → Once (D.journal drive.old) → HasTree D.Drive drive.old drive.new cache.old self.now tree → IsCounted self.now tree → IfOk result (IsChangeIn (D.journal drive.old) self.now tree request.now moment) }
        ensures keeps { (tree : Tree) → Once (D.journal drive.old) → HasTree D.Drive drive.old drive.new cache.old self.now tree → IsCounted self.now tree → IfOk result (KeepsIn (D.journal drive.old) self.now moment) }
        ensures short { (tree : Tree) → HasTree D.Drive drive.old drive.new cache.old self.now tree → IfErr result IsShortage }
        ensures kept { IsTrue (D.honest drive.new) → AreKept (D.journal drive.old) cache.old → AreKept (D.journal drive.old) cache.new }
        ensures reads { ReadsOnly D.Drive (devices result) drive.old drive.new }
    {
        let nodes = Nodes {
            vat_icb_address: self.vat_icb_address,
            numbers: &self.vat.entries,
        };
        let mut before = StateBefore {
            lookup: Lookup::new(alloc, drive, cache, nodes),
            node_count: self.vat.files.saturating_add(self.vat.directories),
            next_unique: self.vat.sessions.next_unique,
        };
        before.change(request, moment)
    }
}

impl<D: Drive> StateBefore<'_, '_, D> {
    /// What a request does.
    fn change<'r>(
        &mut self,
        request: &'r Request<'r>,
        moment: Timestamp,
    ) -> Result<Change<'r>, StoreFault>
        ensures does { (tree : Tree) → Once (D.journal self.old.lookup.drive.now) → Sees D.Drive self.old.lookup self.new.lookup tree → self.old.node_count ≡ len tree → IfOk result (IsChangeSeen D.Drive self.old.lookup tree (model_operation request.now.op) moment self.old.next_unique) }
        ensures keeps { (tree : Tree) → Once (D.journal self.old.lookup.drive.now) → Sees D.Drive self.old.lookup self.new.lookup tree → self.old.node_count ≡ len tree → IfOk result (KeepsSeen D.Drive self.old.lookup moment) }
        ensures short { (tree : Tree) → Sees D.Drive self.old.lookup self.new.lookup tree → IfErr result IsShortage }
        ensures looks { Looks D.Drive (devices result) self.old.lookup self.new.lookup }
    {
        match &request.op {
            Op::Create { path, bytes } => self.add(path.names(), NewContent::File(bytes), moment),
            Op::MakeDir { path } => self.add(path.names(), NewContent::Directory, moment),
            Op::Replace { path, bytes } => self.replace(path.names(), bytes),
            Op::Append {
                path,
                offset,
                bytes,
            } => self.append(path.names(), *offset, bytes),
            Op::Rename { from, to } => self.rename(from.names(), to.names(), moment),
            Op::Remove { path } => self.remove(path.names(), moment),
        }
    }

    /// A change that does nothing, with the code that says why.
    fn refused<'r>(&self, code: Code) -> Change<'r>
        ensures { IsChangeRefused code result }
    {
        Change::refused(self.lookup.alloc(), code)
    }

    /// Adds a new file or a new directory.
    fn add<'r>(
        &mut self,
        names: &[Name],
        thing: NewContent<'r>,
        moment: Timestamp,
    ) -> Result<Change<'r>, StoreFault>
        ensures does { (tree : Tree) → Sees D.Drive self.old.lookup self.new.lookup tree → self.old.node_count ≡ len tree → IfOk result (IsChangeSeen D.Drive self.old.lookup tree (addition names.now thing.entry) moment self.old.next_unique) }
        ensures short { (tree : Tree) → Sees D.Drive self.old.lookup self.new.lookup tree → IfErr result IsShortage }
        ensures looks { Looks D.Drive (devices result) self.old.lookup self.new.lookup }
    {
        let Some((name, above)) = names.split_last() else {
            return Ok(self.refused(Code::Root));
        };
        if names.len() > PATH_NAMES {
            return Ok(self.refused(Code::TooDeep));
        }
        let Some(parent) = self.lookup.find_directory(above)? else {
            return Ok(self.refused(Code::NoParent));
        };
        let (placed, content) = self.lookup.open(parent.address)?;
        let code = code_of_addition(self.node_count, &content, name);
        if code != Code::Done {
            self.lookup.keep(placed, content);
            return Ok(self.refused(code));
        }
        let alloc = self.lookup.alloc();
        let address = self.lookup.free_address();
        let unique = self.next_unique;
        let mut change = Change::new(alloc);
        let kind = change.put_new(alloc, parent, address, unique, thing, moment)?;
        let entry = Entry {
            kind,
            virtual_address: address,
            unique,
        };
        change.put_name(parent, moment, content, name, entry)?;
        Ok(change)
    }

    /// Gives a file other bytes.
    fn replace<'r>(
        &mut self,
        names: &[Name],
        bytes: &'r FileSlice<'r>,
    ) -> Result<Change<'r>, StoreFault>
        ensures does { (tree : Tree) (moment identity : ℕ) → Sees D.Drive self.old.lookup self.new.lookup tree → Answers result (IsChangeSeen D.Drive self.old.lookup tree (Replace names.now bytes.now) moment identity) }
        ensures looks { Looks D.Drive (devices result) self.old.lookup self.new.lookup }
    {
        if names.is_empty() {
            return Ok(self.refused(Code::Root));
        }
        let Some(node) = self.lookup.find(names)? else {
            return Ok(self.refused(Code::NotFound));
        };
        if node.is_directory() {
            return Ok(self.refused(Code::IsDirectory));
        }
        let alloc = self.lookup.alloc();
        let file = NewFile::whole(alloc, node.address, node.unique, bytes);
        Ok(Change::of_file(alloc, file))
    }

    /// Adds bytes at the end of a file, which has `offset` bytes before: no byte of these is read.
    fn append<'r>(
        &mut self,
        names: &[Name],
        offset: u64,
        bytes: &'r AppendSlice<'r>,
    ) -> Result<Change<'r>, StoreFault>
        ensures does { (tree : Tree) (moment identity : ℕ) → Once (D.journal self.old.lookup.drive.now) → Sees D.Drive self.old.lookup self.new.lookup tree → IfOk result (IsChangeSeen D.Drive self.old.lookup tree (Append names.now offset bytes.now) moment identity) }
        ensures keeps { (tree : Tree) (moment : ℕ) → Once (D.journal self.old.lookup.drive.now) → Sees D.Drive self.old.lookup self.new.lookup tree → IfOk result (KeepsSeen D.Drive self.old.lookup moment) }
        ensures short { (tree : Tree) → Sees D.Drive self.old.lookup self.new.lookup tree → IfErr result IsShortage }
        ensures looks { Looks D.Drive (devices result) self.old.lookup self.new.lookup }
    {
        if names.is_empty() {
            return Ok(self.refused(Code::Root));
        }
        let Some(node) = self.lookup.find(names)? else {
            return Ok(self.refused(Code::NotFound));
        };
        if node.is_directory() {
            return Ok(self.refused(Code::IsDirectory));
        }
        let end = self.lookup.file_end(node.address)?;
        if !ends_at(&end, offset) {
            return Ok(self.refused(Code::Exists));
        }
        if offset >= u64::from(GREATEST_FILE) {
            return Ok(self.refused(Code::TooMany));
        }
        let file = NewFile::grown(node.address, node.unique, end.extents, bytes);
        Ok(Change::of_file(self.lookup.alloc(), file))
    }

    /// Removes a file or an empty directory.
    fn remove<'r>(&mut self, names: &[Name], moment: Timestamp) -> Result<Change<'r>, StoreFault>
        ensures does { (tree : Tree) (identity : ℕ) → Sees D.Drive self.old.lookup self.new.lookup tree → Answers result (IsChangeSeen D.Drive self.old.lookup tree (Remove names.now) moment identity) }
        ensures looks { Looks D.Drive (devices result) self.old.lookup self.new.lookup }
    {
        let Some((name, above)) = names.split_last() else {
            return Ok(self.refused(Code::Root));
        };
        let Some(parent) = self.lookup.find_directory(above)? else {
            return Ok(self.refused(Code::NotFound));
        };
        let Some(node) = self.lookup.child(parent.address, name)? else {
            return Ok(self.refused(Code::NotFound));
        };
        if self.has_names(node)? {
            return Ok(self.refused(Code::NotEmpty));
        }
        let mut change = Change::new(self.lookup.alloc());
        self.take_name(parent, name, moment, &mut change)?;
        change.removed = Some(node);
        Ok(change)
    }

    /// Gives a node, and all below it, another path.
    fn rename<'r>(
        &mut self,
        from: &[Name],
        to: &[Name],
        moment: Timestamp,
    ) -> Result<Change<'r>, StoreFault>
        ensures does { (tree : Tree) (identity : ℕ) → Sees D.Drive self.old.lookup self.new.lookup tree → Answers result (IsChangeSeen D.Drive self.old.lookup tree (Rename from.now to.now) moment identity) }
        ensures looks { Looks D.Drive (devices result) self.old.lookup self.new.lookup }
    {
        let Some((old_name, above)) = from.split_last() else {
            return Ok(self.refused(Code::Root));
        };
        let Some((new_name, beyond)) = to.split_last() else {
            return Ok(self.refused(Code::Root));
        };
        let Some(source_dir) = self.lookup.find_directory(above)? else {
            return Ok(self.refused(Code::NotFound));
        };
        let Some(node) = self.lookup.child(source_dir.address, old_name)? else {
            return Ok(self.refused(Code::NotFound));
        };
        if is_below(to, from) {
            return Ok(self.refused(Code::IntoItself));
        }
        let Some(target_dir) = self.lookup.find_directory(beyond)? else {
            return Ok(self.refused(Code::NoParent));
        };
        let there = self.lookup.child(target_dir.address, new_name)?;
        if there.is_some() {
            return Ok(self.refused(Code::Exists));
        }
        let deep = self.is_too_deep(node, from.len(), to.len())?;
        if deep {
            return Ok(self.refused(Code::TooDeep));
        }
        if source_dir.address == target_dir.address {
            return self.rename_within(source_dir, old_name, new_name, moment);
        }
        self.move_to(node, (source_dir, old_name), (target_dir, new_name), moment)
    }

    /// Whether the move would give some path more than `PATH_NAMES` names: that of the node, or of one below it.
    fn is_too_deep(
        &mut self,
        node: Node,
        names_before: usize,
        names_after: usize,
    ) -> Result<bool, StoreFault>
        ensures deep { (tree : Tree) (from to : Path) → SeesNode D.Drive self.old.lookup self.new.lookup tree from node → length from ≡ names_before → length to ≡ names_after → IfOk result (λ deep. deep ≡ moves_too_deep from to tree) }
        ensures short { (tree : Tree) (from : Path) → SeesNode D.Drive self.old.lookup self.new.lookup tree from node → IfErr result IsShortage }
        ensures looks { Looks D.Drive (devices result) self.old.lookup self.new.lookup }
    {
        if names_after <= names_before {
            return Ok(false);
        }
        if names_after > PATH_NAMES {
            return Ok(true);
        }
        if !node.is_directory() {
            return Ok(false);
        }
        let left = PATH_NAMES as u32 + 1;
        let height = self.lookup.height(node.address, left)?;
        Ok(names_after + height as usize > PATH_NAMES)
    }

    /// Gives a node another name in the same directory. The name goes after all others.
    fn rename_within<'r>(
        &mut self,
        parent: Node,
        old_name: &Name,
        new_name: &Name,
        moment: Timestamp,
    ) -> Result<Change<'r>, StoreFault>
        ensures does { Moves D.Drive self.old.lookup self.new.lookup (λ tree from to. IsMoveWithin (graph_seen D.Drive self.old.lookup) tree from to parent old_name.now new_name.now) moment result }
        ensures looks { Looks D.Drive (devices result) self.old.lookup self.new.lookup }
    {
        let (_, mut content) = self.lookup.open(parent.address)?;
        let Some(entry) = content.remove(old_name) else {
            return Err(self.lookup.damaged());
        };
        let mut change = Change::new(self.lookup.alloc());
        change.put_name(parent, moment, content, new_name, entry)?;
        Ok(change)
    }

    /// Moves a node from one directory to another.
    fn move_to<'r>(
        &mut self,
        node: Node,
        source_dir: (Node, &Name),
        target_dir: (Node, &Name),
        moment: Timestamp,
    ) -> Result<Change<'r>, StoreFault>
        ensures does { Moves D.Drive self.old.lookup self.new.lookup (λ tree from to. IsBetween (graph_seen D.Drive self.old.lookup) tree from to node source_dir.entry.0 target_dir.entry.0 source_dir.entry.1.now target_dir.entry.1.now) moment result }
        ensures looks { Looks D.Drive (devices result) self.old.lookup self.new.lookup }
    {
        let (target, gaining) = self.lookup.open(target_dir.0.address)?;
        if gaining.dir.entries.len() >= DIRECTORY_NAMES {
            self.lookup.keep(target, gaining);
            return Ok(self.refused(Code::DirectoryFull));
        }
        let mut change = Change::new(self.lookup.alloc());
        self.set_parent(node, target_dir.0.address, &mut change)?;
        let taken = self.take_name(source_dir.0, source_dir.1, moment, &mut change)?;
        let Some(entry) = taken else {
            return Err(self.lookup.damaged());
        };
        change.put_name(target_dir.0, moment, gaining, target_dir.1, entry)?;
        Ok(change)
    }

    /// Removes a name from the directory of a node, and adds that directory, with this moment, to what is written. Returns
    /// the name's entry, if it is there.
    fn take_name<'r>(
        &mut self,
        node: Node,
        name: &Name,
        moment: Timestamp,
        change: &mut Change<'r>,
    ) -> Result<Option<Entry>, StoreFault>
        ensures taken { OfDirectory D.Drive self.old.lookup self.new.lookup node.address (λ s. Answers result (λ found. TakesName s node moment name.now found change.old change.new)) }
        ensures same { IsSameButDirectories change.old change.new }
        ensures looks { Looks D.Drive (devices result) self.old.lookup self.new.lookup }
    {
        let (_, mut content) = self.lookup.open(node.address)?;
        let entry = content.remove(name);
        change.directories.push(written(node, moment, content))?;
        Ok(entry)
    }

    /// Writes a moved directory again, with its new parent and its old moment. Does nothing for a file, whose entry
    /// names no parent.
    fn set_parent<'r>(
        &mut self,
        node: Node,
        parent: u32,
        change: &mut Change<'r>,
    ) -> Result<(), StoreFault>
        // Nothing is written yet.
        ensures set { change.old.directories.items ≡ [] → OfStoredNode D.Drive self.old.lookup self.new.lookup node (λ s. Answers result (λ _. node.unique ≡ s.identity → Turns node.address s parent (new_directories change.new.directories.items))) }
        ensures same { IsSameButDirectories change.old change.new }
        ensures looks { Looks D.Drive (devices result) self.old.lookup self.new.lookup }
    {
        if !node.is_directory() {
            return Ok(());
        }
        let (placed, mut content) = self.lookup.open(node.address)?;
        content.dir.parent = parent;
        change
            .directories
            .push(written(node, placed.moment, content))?;
        Ok(())
    }

    /// Whether a node is a directory that is not empty.
    fn has_names(&mut self, node: Node) -> Result<bool, StoreFault>
        ensures has { OfStoredNode D.Drive self.old.lookup self.new.lookup node (λ s. Answers result (λ has. has ≡ nat_lt 0 (length (entries_of s)))) }
        ensures looks { Looks D.Drive (devices result) self.old.lookup self.new.lookup }
    {
        if !node.is_directory() {
            return Ok(false);
        }
        let (placed, content) = self.lookup.open(node.address)?;
        let has_names = !content.dir.entries.is_empty();
        self.lookup.keep(placed, content);
        Ok(has_names)
    }
}

/// Whether a file has `offset` bytes, and these fill its extents.
fn ends_at(end: &FileEnd, offset: u64) -> bool
    ensures { result ≡ (end.now.size == offset && offset % FILE_BYTES == 0) }
{
    if u64::from(end.size) != offset {
        return false;
    }
    offset % FILE_BYTES as u64 == 0
}
