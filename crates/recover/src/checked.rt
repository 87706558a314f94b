//! Files as they were found under their names.

use crate::places::grow;
use std::alloc::Global;

/// A file as it was found under a name. A block never changes, so it is the same file for every table that leads to
/// that block.
#[derive(Clone, Copy, Debug)]
pub(crate) struct CheckedFile {
    /// The virtual address of its entry.
    pub address: u32,
    pub unique: u32,
    /// The block number of its entry.
    pub number: u32,
    /// An address above its entry and its bytes.
    pub top: u32,
}

/// The files of a directory that were found, each at the index of its name.
#[derive(Drop)]
pub(crate) struct CheckedFiles {
    files: Vec<Option<CheckedFile>>,
}

impl CheckedFiles {
    ghost use Rattle.std.specs.Prelude.{ℕ, List, ◌<◌, IfSome, vec_len};
    ghost use Rattle.dir.specs.declared.entry.Entry.{Entry};
    ghost use Rattle.recover.specs.Seen.{AreSeen, IsNameSeen};

    /// No file yet.
    pub(crate) fn new(alloc: Global) -> CheckedFiles
        ensures { (medium : List (List ℕ)) (entries : List (List ℕ × Entry)) → AreSeen medium entries result }
    {
        CheckedFiles {
            files: Vec::new(alloc),
        }
    }

    /// The file under the name at this index, if it was found.
    #[inline]
    pub(crate) fn find(&self, index: usize) -> Option<CheckedFile>
        ensures named { (medium : List (List ℕ)) (entries : List (List ℕ × Entry)) → AreSeen medium entries self.now → IfSome result (IsNameSeen medium entries index) }
        ensures within { IfSome result (λ file. index < vec_len self.now.files) }
    {
        match self.files.get(index) {
            Some(file) => *file,
            None => None,
        }
    }

    /// Keeps the file that was found under the name at `index` of `count` names, if there is memory for it.
    pub(crate) fn keep(&mut self, count: usize, index: usize, file: CheckedFile)
        ensures { (medium : List (List ℕ)) (entries : List (List ℕ × Entry)) → IsNameSeen medium entries index file → AreSeen medium entries self.old → AreSeen medium entries self.new }
    {
        if self.files.len() < count {
            let Ok(()) = grow(&mut self.files, count, None) else {
                return;
            };
        }
        if index < self.files.len() {
            self.files[index] = Some(file);
        }
    }
}
