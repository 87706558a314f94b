//! A commit: what is planned is written, and then kept.

ghost use Rattle.std.specs.Prelude.{◌≡◌, ℕ, ◌+◌, ◌++◌, false, true, Err, is_err, IsTrue, IfOk, IfErr, OnOk, OnErr};
ghost use Rattle.drive.specs.Journal.{Once, next_of, written};
ghost use Rattle.drive.specs.Reads.{ReadsAndWrites};
ghost use Rattle.drive.specs.Sending.{SendsAlone};
ghost use Rattle.recover.specs.Faults.{devices};
ghost use Rattle.model.specs.Session.{State};
ghost use Rattle.store.specs.Agrees.{IsStoreOn};
ghost use Rattle.lookup.specs.Asked.{model_request};
ghost use Rattle.store.specs.Calls.{Applies, IsOpenOn, IsCommitPlanned, CommitSurvivesPowerLoss};
ghost use Rattle.lookup.specs.Cache.{AreKept};
ghost use Rattle.planning.specs.Plan.{IsPlan, table_data, node_list};
ghost use Rattle.store.specs.Putting.{BreaksPlan, IsCommitRefused, KeepsPlan, WritesPlan};
ghost use Rattle.table_update.specs.TableChange.{IsNext};
ghost use Rattle.recover.specs.declared.fault.StoreFault.TheVariants.{Device, Stopped};

use crate::store::Store;
use drive::Drive;
use ecma::Timestamp;
use planning::{LastTable, Plan};
use recover::StoreFault;
use request::{Reply, Request};
use std::alloc::Global;

impl Store {
    /// Commits a request whose number is due, and returns its reply. After `Ok` the request is on the medium. A failed
    /// write is `Device` and stops the store, which then does not know whether the request is on the medium. After any
    /// other refusal nothing was written, and the store goes on.
    pub fn apply<D: Drive>(
        &mut self,
        alloc: Global,
        drive: &mut D,
        request: &Request<'_>,
    ) -> Result<Reply, StoreFault>
        requires agrees { IsStoreOn (D.journal drive.old) (D.capacity drive.old) self.old }
        requires next { IsNext request.now.client request.now.number self.old.vat.sessions.records.items }
        // What becomes of the request on an honest drive, if a state is recovered and the store knows it.
        ensures applies { (volume : ℕ) (S : State) → IsTrue (D.honest drive.new) → IsOpenOn (D.capacity drive.old) volume (D.journal drive.old) S self.old → self.old.is_stopped ≡ false → Applies (D.capacity drive.old) volume (D.journal drive.old) S (model_request request.now) result (D.journal drive.new) self.new }
        // What its writes leave on the journal, and what a power loss leaves of them: the disk may keep any of the
        // blocks of the last write that it was given.
        ensures withstands { (volume : ℕ) (S : State) → IsTrue (D.honest drive.new) → IsOpenOn (D.capacity drive.old) volume (D.journal drive.old) S self.old → CommitSurvivesPowerLoss (D.capacity drive.old) volume (D.journal drive.old) S (model_request request.now) (D.writes drive.old) (devices result) (D.journal drive.new) (D.writes drive.new) }
        // If it is committed, what was written is what is planned for it at the recovered state, and nothing else.
        ensures planned { (volume : ℕ) (S : State) → IsTrue (D.honest drive.new) → IsOpenOn (D.capacity drive.old) volume (D.journal drive.old) S self.old → OnOk result (IsCommitPlanned (D.capacity drive.old) volume (D.journal drive.old) S (model_request request.now) (D.journal drive.new)) }
        ensures agrees { IsStoreOn (D.journal drive.new) (D.capacity drive.new) self.new }
        ensures commit { IfOk result (λ reply. reply.commit ≡ self.old.vat.sessions.commits + 1) }
        ensures written { IfOk result (λ reply. WritesPlan self.old request.now (D.capacity drive.old) (D.journal drive.old) (D.journal drive.new) self.new reply) }
        // On any drive a refusal leaves the store and the journal as they were, unless a write failed: then the store
        // is stopped.
        ensures refused { IfErr result (IsCommitRefused self.old request.now (D.capacity drive.old) (D.journal drive.old) (D.journal drive.new) self.new) }
        // If a refusal leaves the store open, it gave the drive no write. So after a failed write it is stopped,
        // whatever that write left.
        ensures unwritten { OnErr result (self.new.is_stopped ≡ false → D.writes drive.new ≡ D.writes drive.old) }
        ensures stopped { self.old.is_stopped ≡ true → (result ≡ Err Stopped) × (self.new ≡ self.old) × (drive.new ≡ drive.old) }
        ensures goes_on { OnOk result (self.new.is_stopped ≡ false) }
        ensures follows { ReadsAndWrites D.Drive (devices result) drive.old drive.new }
    {
        if self.is_stopped {
            return Err(StoreFault::Stopped);
        }
        let moment = Timestamp::of(request.moment).unwrap();
        let last = LastTable {
            vat_icb_address: self.vat_icb_address,
            capacity: self.capacity,
            vat: &self.vat,
        };
        let change = last.change(alloc, drive, &mut self.directories, request, moment)?;
        let plan = last.plan(alloc, drive, request, change, moment)?;
        self.commit(drive, plan)
    }

    /// Writes the plan, and then keeps its table and directories in memory.
    fn commit<D: Drive>(&mut self, drive: &mut D, plan: Plan<'_>) -> Result<Reply, StoreFault>
        requires agrees { IsStoreOn (D.journal drive.old) (D.capacity drive.old) self.old }
        requires plan { IsPlan (next_of (D.journal drive.old)) (D.capacity drive.old) plan }
        ensures agrees { IsStoreOn (D.journal drive.new) (D.capacity drive.new) self.new }
        ensures done { IfOk result (KeepsPlan plan.entry (D.journal drive.old) (D.journal drive.new) self.old self.new) }
        ensures failed { IfErr result (BreaksPlan plan.entry (D.journal drive.old) (D.journal drive.new) self.old self.new) }
        ensures alone { SendsAlone D.Drive (next_of (D.journal drive.old)) (node_list plan.entry ++ table_data plan.entry.table) plan.entry.table.entry (is_err result) drive.old drive.new }
        ensures kept { Once (D.journal drive.old) → AreKept (D.journal drive.old) self.old.directories → AreKept (D.journal drive.new) self.new.directories }
        ensures follows { ReadsAndWrites D.Drive (devices result) drive.old drive.new }
    {
        let mut plan = plan;
        let written = plan.write(drive);
        self.most_held = self.most_held.max(plan.most_held());
        if written.is_err() {
            self.is_stopped = true;
            return Err(StoreFault::Device);
        }
        let Plan {
            reply,
            directories,
            table,
            ..
        } = plan;
        self.is_stopped = false;
        self.vat_icb_address = table.at;
        self.vat = table.vat;
        for placed in directories {
            let lies = placed.placed();
            self.directories.keep(lies, placed.directory.content);
        }
        Ok(reply)
    }
}
