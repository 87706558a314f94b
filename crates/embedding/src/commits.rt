//! The commits of a volume, one at a time, from the newest back.

ghost use Rattle.limits.specs.declared.TheConstants.{PARTITION_START};
ghost use Rattle.std.specs.Prelude.{◌≡◌, ◌≤◌, ◌<◌, ℕ, IsTrue, IfOk, IfErr};
ghost use Rattle.drive.specs.Journal.{held, next_of};
ghost use Rattle.model.specs.Session.{State};
ghost use Rattle.recover.specs.Tables.{IsAtRefused};
ghost use Rattle.store.specs.Agrees.{IsStoreOn};
ghost use Rattle.engine.specs.Situation.{IsReady, seen_on};
ghost use Rattle.engine.specs.Steps.{HoldsState};
ghost use Rattle.embedding.specs.Commits.{TellsCommit, IsNextInLog, IsStepRefused, TellsNext, IsLogRefused, IsLogged, IsUnlogged};

use crate::told::CommitStatus;
use drive::Drive;
use engine::Engine;
use limits::PARTITION_START;
use recover::{before, table_at, table_entry};
use std::alloc::Global;
use store::{Store, StoreFault};

/// The newest commit if `after` is 0, and otherwise the one before that whose VAT ICB is at the address `after`. Uses
/// the engine's store, and opens it if none is open. `NoCommit` if there is none before.
pub(crate) fn opened_commit<D: Drive>(
    alloc: Global,
    engine: &mut Engine,
    drive: &mut D,
    after: u32,
) -> Result<CommitStatus, StoreFault>
    requires { IsReady (seen_on D.Drive engine.old drive.old) }
    ensures reported { IfOk result (λ told. IsLogged after told (seen_on D.Drive engine.new drive.new)) }
    ensures refused { IfErr result (λ fault. IsUnlogged after fault (seen_on D.Drive engine.old drive.old) (seen_on D.Drive engine.new drive.new)) }
    ensures holds { (volume : ℕ) (S : State) → IsTrue (D.honest drive.new) → HoldsState volume S (seen_on D.Drive engine.old drive.old) → HoldsState volume S (seen_on D.Drive engine.new drive.new) }
    ensures journal { D.journal drive.new ≡ D.journal drive.old }
    ensures writes { D.writes drive.new ≡ D.writes drive.old }
    ensures capacity { D.capacity drive.new ≡ D.capacity drive.old }
    ensures honest { IsTrue (D.honest drive.new) → IsTrue (D.honest drive.old) }
    ensures ready { IsReady (seen_on D.Drive engine.new drive.new) }
{
    match engine.open(alloc, drive) {
        Ok(()) => commit_before(alloc, engine.store().unwrap(), drive, after),
        Err(fault) => Err(fault),
    }
}

/// The same as `opened_commit`, by the store that is open.
fn commit_before<D: Drive>(
    alloc: Global,
    store: &Store,
    drive: &mut D,
    after: u32,
) -> Result<CommitStatus, StoreFault>
    requires { IsStoreOn (D.journal drive.old) (D.capacity drive.old) store.now }
    ensures reported { IfOk result (λ told. IsTrue (D.honest drive.new) → TellsNext (D.journal drive.old) store.now.vat_icb_address after told) }
    ensures refused { IfErr result (λ fault. IsTrue (D.honest drive.new) → IsLogRefused (D.journal drive.old) store.now.vat_icb_address after fault) }
    ensures journal { D.journal drive.new ≡ D.journal drive.old }
    ensures writes { D.writes drive.new ≡ D.writes drive.old }
    ensures capacity { D.capacity drive.new ≡ D.capacity drive.old }
    ensures honest { IsTrue (D.honest drive.new) → IsTrue (D.honest drive.old) }
{
    match address_before(alloc, store, drive, after) {
        Ok(at) => commit_at(alloc, drive, at),
        Err(fault) => Err(fault),
    }
}

/// The address of the VAT ICB of that commit. `NoCommit` if `after` is no address of a written block in the partition,
/// or that of the format.
fn address_before<D: Drive>(
    alloc: Global,
    store: &Store,
    drive: &mut D,
    after: u32,
) -> Result<u32, StoreFault>
    requires { IsStoreOn (D.journal drive.old) (D.capacity drive.old) store.now }
    ensures found { IfOk result (λ at. IsTrue (D.honest drive.new) → IsNextInLog (D.journal drive.old) store.now.vat_icb_address after at) }
    ensures within { IfOk result (λ at. (PARTITION_START ≤ at) × (at < next_of (D.journal drive.old))) }
    ensures refused { IfErr result (λ fault. IsTrue (D.honest drive.new) → IsStepRefused (D.journal drive.old) after fault) }
    ensures journal { D.journal drive.new ≡ D.journal drive.old }
    ensures writes { D.writes drive.new ≡ D.writes drive.old }
    ensures capacity { D.capacity drive.new ≡ D.capacity drive.old }
    ensures honest { IsTrue (D.honest drive.new) → IsTrue (D.honest drive.old) }
{
    if after == 0 {
        return Ok(store.table());
    }
    let next = match drive.next() {
        Ok(next) => next,
        Err(_) => return Err(StoreFault::Device),
    };
    if after < PARTITION_START || after >= next {
        return Err(StoreFault::NoCommit);
    }
    match before(alloc, drive, after) {
        Ok(Some(at)) => Ok(at),
        Ok(None) => Err(StoreFault::NoCommit),
        Err(fault) => Err(fault),
    }
}

/// The commit whose VAT ICB is at an address.
fn commit_at<D: Drive>(alloc: Global, drive: &mut D, at: u32) -> Result<CommitStatus, StoreFault>
    requires low { PARTITION_START ≤ at }
    requires within { at < next_of (D.journal drive.old) }
    ensures reported { IfOk result (λ told. IsTrue (D.honest drive.new) → TellsCommit (held (D.journal drive.old)) at told) }
    ensures refused { IfErr result (λ fault. IsTrue (D.honest drive.new) → IsAtRefused (held (D.journal drive.old)) at fault) }
    ensures journal { D.journal drive.new ≡ D.journal drive.old }
    ensures writes { D.writes drive.new ≡ D.writes drive.old }
    ensures capacity { D.capacity drive.new ≡ D.capacity drive.old }
    ensures honest { IsTrue (D.honest drive.new) → IsTrue (D.honest drive.old) }
{
    let entry = match table_entry(drive, at) {
        Ok(entry) => entry,
        Err(fault) => return Err(fault),
    };
    let vat = match table_at(alloc, drive, at) {
        Ok(vat) => vat,
        Err(fault) => return Err(fault),
    };
    Ok(CommitStatus {
        moment: entry.moment.moment(),
        number: vat.sessions.commits,
        address: at,
        files: vat.files,
        directories: vat.directories,
    })
}
