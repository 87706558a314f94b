//! Directories that are laid with the kept identifiers of their names.

ghost use Rattle.std.specs.Prelude.{OnOk};
ghost use Rattle.dir.specs.Fronts.{IsIdentifierPrefix};

use crate::directories::{empty, numbered};
use dir::{Dir, Entry, Identifiers, Kind, Lay, lay};
use limits::PARTITION_BLOCKS;
use osta::Name;
use std::alloc::Global;
use std::process::Abort;
use std::test::Fail;

/// Adds a name whose length, kind and numbers depend on its number.
fn add(
    rt: &impl Abort,
    alloc: Global,
    dir: &mut Dir,
    identifiers: &Identifiers,
    number: u32,
) -> Result<(), Fail>
    requires { IsIdentifierPrefix identifiers.now dir.old.entries.entries }
    ensures { OnOk result (IsIdentifierPrefix identifiers.now dir.new.entries.entries) }
{
    let letters = 3 + number % 97 * 31 % 250;
    let text = numbered(alloc, number as usize, letters as usize)?;
    let kind = if number % 3 == 0 {
        Kind::Directory
    } else {
        Kind::File
    };
    let entry = Entry {
        kind,
        virtual_address: number % 0x1000 * 0x0001_0203,
        unique: number,
    };
    let name = Name::read(alloc, text.as_str())?;
    let there = dir.entries.insert(name, entry)?;
    assert!(rt; there.is_none());
    Ok(())
}

/// Adds the names of these numbers.
fn add_all(
    rt: &impl Abort,
    alloc: Global,
    dir: &mut Dir,
    identifiers: &Identifiers,
    first: u32,
    end: u32,
) -> Result<(), Fail>
    requires { IsIdentifierPrefix identifiers.now dir.old.entries.entries }
    ensures { OnOk result (IsIdentifierPrefix identifiers.now dir.new.entries.entries) }
{
    for number in first..end {
        add(rt, alloc, dir, identifiers, number)?;
    }
    Ok(())
}

/// Checks that the directory is laid with its kept identifiers as it is laid without.
fn check_laid(
    rt: &impl Abort,
    alloc: Global,
    dir: &Dir,
    identifiers: &Identifiers,
) -> Result<(), Fail>
    requires { IsIdentifierPrefix identifiers.now dir.now.entries.entries }
{
    assert!(rt; dir.entries.len() <= 512);
    for first in [0, 255, PARTITION_BLOCKS - 100] {
        let blocks = lay(alloc, dir, first)?;
        let mut left = Lay::over(dir, identifiers, first);
        let mut block = [7; 2048];
        for laid in &blocks {
            assert!(rt; left.next_into(&mut block) && block == *laid);
        }
        assert!(rt; !left.next_into(&mut block));
    }
    Ok(())
}

#[test]
fn laid_by_what_is_kept(rt: HostRuntime) -> Result<(), Fail> {
    let alloc = rt.alloc();
    let mut dir = empty(alloc);
    let mut identifiers = Identifiers::new(alloc);
    add_all(&rt, alloc, &mut dir, &identifiers, 0, 150)?;
    check_laid(&rt, alloc, &dir, &identifiers)?;
    identifiers.fill(&dir)?;
    check_laid(&rt, alloc, &dir, &identifiers)?;
    add_all(&rt, alloc, &mut dir, &identifiers, 150, 300)?;
    check_laid(&rt, alloc, &dir, &identifiers)?;
    identifiers.fill(&dir)?;
    check_laid(&rt, alloc, &dir, &identifiers)?;
    assert_eq!(rt; dir.entries.len(), 300);
    Ok(())
}
