//! The identifiers of a directory, one by one.

use dir::{Dir, Entry, Fids, Kind, lay};
use indexmap::IndexMap;
use limits::PARTITION_BLOCKS;
use osta::Name;
use std::alloc::Global;
use std::test::Fail;

/// A directory below the root, with nothing in it.
pub(crate) fn empty(alloc: Global) -> Dir {
    Dir {
        parent: 1,
        entries: IndexMap::new(alloc),
    }
}

/// A text of at least `letters` characters, which ends with the digits of a number.
pub(crate) fn numbered(alloc: Global, number: usize, letters: usize) -> Result<String, Fail> {
    let digits = format!(in alloc; "{number}")?;
    let mut text = String::new(alloc);
    for _ in digits.len()..letters {
        text.push('x')?;
    }
    text.push_str(digits.as_str())?;
    Ok(text)
}

#[test]
fn identifiers_are_slices(rt: HostRuntime) -> Result<(), Fail> {
    let mut dir = empty(rt.alloc());
    let entry = Entry {
        kind: Kind::File,
        virtual_address: 2,
        unique: 16,
    };
    dir.entries.insert(Name::read(rt.alloc(), "a")?, entry)?;
    assert!(rt; dir.entries.len() <= 512 && 6 <= PARTITION_BLOCKS);
    let blocks = lay(rt.alloc(), &dir, 6)?;
    assert_eq!(rt; blocks.len(), 1);
    let mut fids = Fids::new(&blocks, 80);
    assert!(rt; fids.next().is_some_and(|parent| parent.name.is_empty()));
    assert!(rt;
        fids.next()
            .is_some_and(|a| a.name == &b"\x08a"[..] && a.icb == &blocks[0][60..76])
    );
    assert!(rt; fids.next().is_none());
    Ok(())
}
