//! What is printed, as docs/OPERATIONS.md has it. A text is made whole before any of it is written.

ghost use Rattle.std.specs.Prelude.{◌≡◌, ◌++◌, IfOk, IfErr, OnOk, string_bytes};
ghost use Rattle.lookup.specs.Asked.{said_listed, said_names};
ghost use Rattle.programs.specs.Lines.{PutsBytes, name_line, names_text, commit_line, commits_text, sound_text};
ghost use Rattle.programs.specs.Status.{IsRefusal};

use crate::fault::Fault;
use engine::{ServeFault, put_all};
use request::{Listed, NodeKind};
use std::alloc::{AllocError, Global};
use std::io::Write;
use store::Commit;

/// Names, each on a line of its own, after a letter for its kind.
pub(crate) fn name_lines(alloc: Global, names: &[Listed]) -> Result<String, AllocError>
    ensures { IfOk result (λ text. string_bytes text ≡ names_text (said_names names.now)) }
{
    let mut text = String::new(alloc);
    for listed in names {
        push_name(&mut text, listed)?;
    }
    Ok(text)
}

fn push_name(text: &mut String, listed: &Listed) -> Result<(), AllocError>
    ensures { OnOk result (string_bytes text.new ≡ string_bytes text.old ++ name_line (said_listed listed.now)) }
{
    let letter = match listed.kind {
        NodeKind::File => "f",
        NodeKind::Directory => "d",
    };
    let name = listed.name.as_str();
    writeln!(text, "{letter} {name}")
}

/// Commits, each on a line of its own: its number, the address of its VAT ICB, and how many files and directories the
/// tree had after it.
pub(crate) fn commit_lines(alloc: Global, commits: &[Commit]) -> Result<String, AllocError>
    ensures { IfOk result (λ text. string_bytes text ≡ commits_text commits.now) }
{
    let mut text = String::new(alloc);
    for commit in commits {
        push_commit(&mut text, *commit)?;
    }
    Ok(text)
}

fn push_commit(text: &mut String, told: Commit) -> Result<(), AllocError>
    ensures { OnOk result (string_bytes text.new ≡ string_bytes text.old ++ commit_line told) }
{
    let Commit {
        commit,
        vat_icb_address: at,
        files,
        directories,
    } = told;
    writeln!(text, "{commit} {at} {files} {directories}")
}

/// The line for a sound volume, with its count of commits.
pub(crate) fn sound_line(alloc: Global, commits: u32) -> Result<String, AllocError>
    ensures { IfOk result (λ text. string_bytes text ≡ sound_text commits) }
{
    format!(in alloc; "sound {commits}\n")
}

/// Writes the bytes, and flushes the output.
pub(crate) fn put<O: Write>(output: &mut O, bytes: &[u8]) -> Result<(), Fault>
    ensures refusal { IfErr result IsRefusal }
    ensures puts { PutsBytes result (O.contents output.old) (O.contents output.new) bytes.now }
{
    put_all(output, bytes)?;
    match output.flush() {
        Ok(()) => Ok(()),
        Err(_) => Err(Fault::Stream(ServeFault::Write)),
    }
}
