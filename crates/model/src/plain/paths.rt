//! Names and paths: comparing and copying them.

ghost use Rattle.std.specs.Prelude.{◌≡◌, ◌≤◌, IfOk, length, true};
ghost use Rattle.model.specs.Tree.{paths_eq, begins_with, parent_of, last_of};
ghost use Rattle.model.specs.Operation.{moved};
ghost use Rattle.model.specs.Plain.{texts_in};

use std::alloc::{AllocError, Global};

/// Whether two paths are the same, byte by byte.
pub fn same_path(a: &[String], b: &[String]) -> bool
    ensures { result ≡ paths_eq (texts_in a.now) (texts_in b.now) }
{
    match a {
        [] => b.is_empty(),
        [x, rest @ ..] => match b {
            [] => false,
            [y, others @ ..] => x.as_str() == y.as_str() && same_path(rest, others),
        },
    }
}

/// Whether `path` begins with `front`.
pub fn begins_with(path: &[String], front: &[String]) -> bool
    ensures not_longer { result ≡ true → length front.now ≤ length path.now }
    ensures begins { result ≡ begins_with (texts_in path.now) (texts_in front.now) }
{
    front.len() <= path.len() && same_path(front, &path[..front.len()])
}

/// A copy of the names.
pub fn copied(alloc: Global, names: &[String]) -> Result<Vec<String>, AllocError>
    ensures { IfOk result (λ copy. texts_in copy.items ≡ texts_in names.now) }
{
    let mut copy = Vec::new(alloc);
    for name in names {
        copy.push(name.clone()?)?;
    }
    Ok(copy)
}

/// All names but the last.
pub fn parent(path: &[String]) -> &[String]
    ensures { texts_in result.now ≡ parent_of (texts_in path.now) }
{
    &path[..path.len().saturating_sub(1)]
}

/// The last name, as a list of one. The list is empty for the root.
pub fn last(path: &[String]) -> &[String]
    ensures { texts_in result.now ≡ last_of (texts_in path.now) }
{
    &path[path.len().saturating_sub(1)..]
}

/// The path with its prefix `from` replaced by `to`, or a copy of the path if it has no such prefix.
pub fn moved(
    alloc: Global,
    path: &[String],
    from: &[String],
    to: &[String],
) -> Result<Vec<String>, AllocError>
    ensures { IfOk result (λ new. texts_in new.items ≡ moved (texts_in from.now) (texts_in to.now) (texts_in path.now)) }
{
    if !begins_with(path, from) {
        return copied(alloc, path);
    }
    let mut new = copied(alloc, to)?;
    let mut rest = copied(alloc, &path[from.len()..])?;
    new.append(&mut rest)?;
    Ok(new)
}
