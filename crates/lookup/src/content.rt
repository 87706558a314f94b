//! A directory without its place on the medium.

ghost use Rattle.limits.specs.declared.TheConstants.{DIRECTORY_NAMES};
ghost use Rattle.std.specs.Prelude.{◌≡◌, [], ◌∷◌, ◌++◌, ◌<◌, ◌≤◌, IfErr, IfSome, None, OnErr, OnOk, length, nat_eq};
ghost use Rattle.std.specs.Cmp.Lexicographic.{pointwise};
ghost use Rattle.std.specs.Map.{lookup, remove_entry};
ghost use Rattle.indexmap.specs.IndexMap.{insert_entry};
ghost use Rattle.dir.specs.Fronts.{IsIdentifierPrefix};
ghost use Rattle.recover.specs.Faults.{devices};
ghost use Rattle.recover.specs.declared.fault.StoreFault.TheVariants.{Memory};

use dir::{Dir, Entry, Identifiers};
use osta::Name;
use recover::StoreFault;
use std::alloc::Global;

/// A directory of at most `limits::DIRECTORY_NAMES` names, as a volume may have.
#[derive(Drop)]
pub struct Content {
    pub dir: Dir,
    /// The identifiers of its first names, kept for its next layout.
    pub identifiers: Identifiers,
    pub ghost few: { length dir.entries.entries ≤ DIRECTORY_NAMES },
    pub ghost front: { IsIdentifierPrefix identifiers dir.entries.entries },
}

impl Content {
    /// A directory as it is read or made. None of its identifiers is kept yet.
    pub fn of(alloc: Global, dir: Dir) -> Content
        requires few { length dir.entries.entries ≤ DIRECTORY_NAMES }
        ensures { result.dir ≡ dir }
    {
        Content {
            dir,
            identifiers: Identifiers::new(alloc),
        }
    }

    /// Adds a name after the others.
    pub fn add(&mut self, name: Name, entry: Entry) -> Result<(), StoreFault>
        requires room { length self.old.dir.entries.entries < DIRECTORY_NAMES }
        // A name that is there already keeps its place.
        ensures entries { OnOk result (self.new.dir.entries.entries ≡ insert_entry (pointwise nat_eq) self.old.dir.entries.entries name entry) }
        ensures added { OnOk result (lookup (pointwise nat_eq name) self.old.dir.entries.entries ≡ None → self.new.dir.entries.entries ≡ self.old.dir.entries.entries ++ (name, entry) ∷ []) }
        ensures parent { self.new.dir.parent ≡ self.old.dir.parent }
        ensures unchanged { OnErr result (self.new.dir.entries.entries ≡ self.old.dir.entries.entries) }
        ensures memory { IfErr result (λ fault. fault ≡ Memory) }
        ensures device { devices result ≡ 0 }
    {
        if self.dir.entries.insert(name, entry)?.is_some() {
            self.identifiers.clear();
        }
        // Identifiers for which there is no memory are encoded when the directory is laid out.
        let _ = self.identifiers.fill(&self.dir);
        Ok(())
    }

    /// Removes a name, and returns its entry, if it is there.
    pub fn remove(&mut self, name: &Name) -> Option<Entry>
        ensures described { result ≡ lookup (pointwise nat_eq name.now) self.old.dir.entries.entries }
        ensures entries { self.new.dir.entries.entries ≡ remove_entry (pointwise nat_eq name.now) self.old.dir.entries.entries }
        ensures parent { self.new.dir.parent ≡ self.old.dir.parent }
        ensures room { IfSome result (λ _. length self.new.dir.entries.entries < DIRECTORY_NAMES) }
    {
        if let Some(index) = self.dir.entries.get_index_of(name) {
            self.identifiers.remove(&self.dir, index);
        }
        self.dir.entries.shift_remove(name)
    }
}
