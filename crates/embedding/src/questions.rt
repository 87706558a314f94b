//! What a store reports without a message.

ghost use Rattle.std.specs.Prelude.{◌≡◌, ◌++◌, ◌≤◌, ℕ, length, drop, IsTrue, IfOk, IfErr};
ghost use Rattle.model.specs.Session.{State};
ghost use Rattle.recover.specs.declared.fault.StoreFault.TheVariants as faults;
ghost use Rattle.store.specs.Agrees.{IsStoreOn};
ghost use Rattle.store.specs.declared.store.Store.{Store as Kept};
ghost use Rattle.engine.specs.Situation.{IsReady, IsOpen, seen_on};
ghost use Rattle.engine.specs.Steps.{HoldsState};
ghost use Rattle.embedding.specs.Questions.{last_kept};
ghost use Rattle.embedding.specs.StatusCalls.{IsStatusRefused, IsStatusUnknown};
ghost use Rattle.embedding.specs.Statuses.{TellsStatus};

use crate::told::Status;
use drive::Drive;
use engine::Engine;
use osta::Label;
use recover::table_entry;
use std::alloc::Global;
use store::{Store, StoreFault};
use vat::Record;

/// The number of the last request of a client, or 0 if it has no record here.
pub(crate) fn last_of(records: &[Record], client: u64) -> u64
    ensures { result ≡ last_kept client records.now }
{
    for kept in records {
        if kept.client == client {
            return kept.latest;
        }
    }
    0
}

/// The state of a volume, and how far it is written, by the store that is open on it.
pub(crate) fn status_on<D: Drive>(
    alloc: Global,
    store: &Store,
    drive: &mut D,
) -> Result<Status, StoreFault>
    requires { IsStoreOn (D.journal drive.old) (D.capacity drive.old) store.now }
    ensures reported { IfOk result (TellsStatus (D.journal drive.old) (D.honest drive.new) store.now) }
    ensures refused { IfErr result (λ fault. IsTrue (D.honest drive.new) → IsStatusRefused (D.journal drive.old) store.now fault) }
    ensures journal { D.journal drive.new ≡ D.journal drive.old }
    ensures writes { D.writes drive.new ≡ D.writes drive.old }
    ensures capacity { D.capacity drive.new ≡ D.capacity drive.old }
    ensures honest { IsTrue (D.honest drive.new) → IsTrue (D.honest drive.old) }
{
    let next = match drive.next() {
        Ok(next) => next,
        Err(_) => return Err(StoreFault::Device),
    };
    let moment = match table_entry(drive, store.table()) {
        Ok(entry) => entry.moment.moment(),
        Err(fault) => return Err(fault),
    };
    let vat = store.newest();
    let mut label = [0; 64];
    let label_length = match put_label(alloc, vat.label, &mut label) {
        Ok(length) => length,
        Err(fault) => return Err(fault),
    };
    Ok(Status {
        moment,
        capacity: store.capacity(),
        next,
        commits: vat.sessions.commits,
        files: vat.files,
        directories: vat.directories,
        clients: vat.sessions.records.len() as u32,
        label_length,
        label,
    })
}

/// Copies a label's text to the beginning of `into`, and leaves what comes after it. Returns how many bytes the text
/// has.
fn put_label(alloc: Global, label: Label, into: &mut [u8; 64]) -> Result<u32, StoreFault>
    requires { length label ≤ 64 }
    ensures text { IfOk result (λ count. (count ≡ length label) × (into.new ≡ label ++ drop count into.old)) }
    ensures refused { IfErr result (λ fault. fault ≡ faults.Memory) }
{
    let Ok(text) = label.text(alloc) else {
        return Err(StoreFault::Memory);
    };
    let bytes = text.as_bytes();
    into[..bytes.len()].copy_from_slice(bytes);
    Ok(bytes.len() as u32)
}

/// The same as `status_on`, by the engine's store, which is opened if none is open.
pub(crate) fn opened_status<D: Drive>(
    alloc: Global,
    engine: &mut Engine,
    drive: &mut D,
) -> Result<Status, StoreFault>
    requires { IsReady (seen_on D.Drive engine.old drive.old) }
    ensures reported { IfOk result (λ told. (kept : Kept) × IsOpen (seen_on D.Drive engine.new drive.new) kept × TellsStatus (D.journal drive.new) (D.honest drive.new) kept told) }
    ensures refused { IfErr result (λ fault. IsStatusUnknown fault (seen_on D.Drive engine.old drive.old) (seen_on D.Drive engine.new drive.new)) }
    ensures holds { (volume : ℕ) (S : State) → IsTrue (D.honest drive.new) → HoldsState volume S (seen_on D.Drive engine.old drive.old) → HoldsState volume S (seen_on D.Drive engine.new drive.new) }
    ensures journal { D.journal drive.new ≡ D.journal drive.old }
    ensures writes { D.writes drive.new ≡ D.writes drive.old }
    ensures capacity { D.capacity drive.new ≡ D.capacity drive.old }
    ensures honest { IsTrue (D.honest drive.new) → IsTrue (D.honest drive.old) }
    ensures ready { IsReady (seen_on D.Drive engine.new drive.new) }
{
    match engine.open(alloc, drive) {
        Ok(()) => status_on(alloc, engine.store().unwrap(), drive),
        Err(fault) => Err(fault),
    }
}
