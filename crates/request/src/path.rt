//! Paths of a tree, from the root on.

ghost use Rattle.std.specs.Prelude.{◌≡◌, ◌≤◌, ◌<◌, ◌+◌, ◌++◌, ◌∷◌, [], List, ℕ, map, length, OnOk, OnErr};
ghost use Rattle.std.specs.Prelude.{◌==◌, IfOk, IsErrOf};
ghost use Rattle.std.specs.List.{slice_split};
ghost use Rattle.request.specs.Path.{IsPath, path_text};
ghost use Rattle.request.specs.PathFault.{path_fault_of};

use limits::MESSAGE_PATH_NAMES;
use osta::{Name, NameFault};
use std::alloc::{AllocError, Global};
use std::marker::Model;

/// The names from the root on, at most [`MESSAGE_PATH_NAMES`]. The root itself has none.
#[derive(Debug, Drop)]
pub struct Path {
    names: Vec<Name>,
}

impl Model for Path {
    ghost use Rattle.std.specs.Prelude.{List, ℕ};
    ghost use Rattle.request.specs.Path.{IsPath};

    ghost Value = { List (List ℕ) };

    ghost view = { λ p. p.names.items };

    ghost invariant = { λ p. IsPath p.names.items };
}

/// Why a text is not read as a path.
#[derive(Clone, Copy, Debug, PartialEq, Eq)]
pub enum PathFault {
    /// The text is neither `/` alone, nor 1 to 255 names, each with a `/` before it.
    Path,
    /// There was no memory for the names.
    Memory,
}

impl PathFault {
    ghost use Rattle.request.specs.Numbers.{path_fault_number};

    /// The number under which the fault is shown.
    pub fn number(self) -> u16
        ensures { result ≡ path_fault_number self }
    {
        match self {
            PathFault::Path => 55,
            PathFault::Memory => 65,
        }
    }
}

impl Path {
    /// The path of the root.
    pub fn root(alloc: Global) -> Path
        ensures { result ≡ [] }
    {
        Path {
            names: Vec::new(alloc),
        }
    }

    /// The names from the root on.
    pub fn names(&self) -> &[Name]
        ensures names { result.now ≡ self.now }
        ensures path { IsPath self.now }
    {
        self.names.as_slice()
    }

    /// Adds a name at the end. If there is no memory, the path stays as it was.
    pub(crate) fn push(&mut self, name: Name) -> Result<(), AllocError>
        requires { length self.old < MESSAGE_PATH_NAMES }
        ensures ok { OnOk result (self.new ≡ self.old ++ name ∷ []) }
        ensures err { OnErr result (self.new ≡ self.old) }
    {
        // Unused: it gives the proof that this is a name, by its type.
        let _text = name.as_str();
        self.names.push(name)?;
        Ok(())
    }

    /// Reads `/`, the path of the root, or names that each have a `/` before them.
    pub fn parse(alloc: Global, text: &str) -> Result<Path, PathFault>
        // What is read is a path, and the text is its text.
        ensures found { IfOk result (λ path. IsPath path × (text.now ≡ path_text path)) }
        // What is refused is the text of no path.
        ensures only { IsErrOf result PathFault.Path → (path : List (List ℕ)) → IsPath path → text.now ≡ path_text path → ⊥ }
    {
        let Some(names) = text.strip_prefix('/') else {
            return Err(PathFault::Path);
        };
        if names.is_empty() {
            return Ok(Path::root(alloc));
        }
        Path::of_names(alloc, names)
    }

    /// Reads names with a `/` between them.
    fn of_names(alloc: Global, names: &str) -> Result<Path, PathFault>
        ensures found { IfOk result (λ path. IsPath path × (path ≡ slice_split (λ b. b == 47) names.now)) }
        ensures only { IsErrOf result PathFault.Path → IsPath (slice_split (λ b. b == 47) names.now) → ⊥ }
    {
        let mut path = Path::root(alloc);
        for part in names.split('/') {
            if path.names().len() == MESSAGE_PATH_NAMES {
                return Err(PathFault::Path);
            }
            let name = match Name::read(alloc, part) {
                Ok(name) => name,
                Err(fault) => return Err(path_fault(fault)),
            };
            if path.push(name).is_err() {
                return Err(PathFault::Memory);
            }
        }
        // Unused: it gives the proof that these are names, by the type of a path.
        let _names = path.names();
        Ok(path)
    }
}

fn path_fault(fault: NameFault) -> PathFault
    ensures { result ≡ path_fault_of fault }
{
    match fault {
        NameFault::Memory => PathFault::Memory,
        _ => PathFault::Path,
    }
}
