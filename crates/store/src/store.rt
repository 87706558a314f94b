//! A store, and how it is opened.

ghost use Rattle.std.specs.Prelude.{◌≡◌, ℕ, IsTrue, IfOk, IfErr, false};
ghost use Rattle.recover.specs.Faults.{devices};
ghost use Rattle.drive.specs.Journal.{held, Once};
ghost use Rattle.drive.specs.Reads.{ReadsOnly};
ghost use Rattle.durability.specs.Volume.{RecoversTo};
ghost use Rattle.model.specs.Session as said;
ghost use Rattle.store.specs.Agrees.{IsStoreOn};
ghost use Rattle.store.specs.Calls.{IsOpenOn, Opens};
ghost use Rattle.store.specs.Opened.{IsOpenRefused};
ghost use Rattle.udf.specs.Udf.{udf};
ghost use Rattle.lookup.specs.Cache.{AreKept};

use drive::Drive;
use lookup::DirectoryCache;
use recover::{State, StoreFault, last, state_at};
use std::alloc::Global;
use vat::Vat;

/// What is kept in memory of the volume on a drive.
#[derive(Drop)]
pub struct Store {
    /// The address of the last VAT ICB.
    pub(crate) vat_icb_address: u32,
    /// How many blocks the volume has.
    pub(crate) capacity: u32,
    pub(crate) vat: Vat,
    pub(crate) directories: DirectoryCache,
    pub(crate) is_stopped: bool,
    pub(crate) most_held: usize,
}

impl Store {
    /// Opens the volume on a drive, by its last table. `NotFormatted` if the medium has no VAT ICB. Nothing is written.
    pub fn open<D: Drive>(alloc: Global, drive: &mut D) -> Result<Store, StoreFault>
        // On an honest drive it is opened if a state is recovered, and keeps that state.
        ensures opens { (volume : ℕ) (S : said.State) → IsTrue (D.honest drive.new) → Once (D.journal drive.old) → RecoversTo udf (D.capacity drive.old) volume (held (D.journal drive.old)) S → Opens (D.capacity drive.old) volume (D.journal drive.old) S result }
        // On an honest drive nothing else is opened.
        ensures recovers { IfOk result (λ store. IsTrue (D.honest drive.new) → Once (D.journal drive.old) → (S : said.State) × IsOpenOn (D.capacity drive.old) store.capacity (D.journal drive.old) S store) }
        // If it is not opened, the medium has no VAT ICB, or has one and nothing is recovered there.
        ensures refused { IfErr result (λ fault. IsTrue (D.honest drive.new) → IsOpenRefused (D.capacity drive.old) (held (D.journal drive.old)) fault) }
        ensures agrees { IfOk result (IsStoreOn (D.journal drive.old) (D.capacity drive.old)) }
        ensures kept { IfOk result (λ store. AreKept (D.journal drive.new) store.directories) }
        ensures stopped { IfOk result (λ store. store.is_stopped ≡ false) }
        ensures reads { ReadsOnly D.Drive (devices result) drive.old drive.new }
    {
        let at = match last(drive)? {
            Some(at) => at,
            None => return Err(StoreFault::NotFormatted),
        };
        let State { capacity, vat, .. } = state_at(alloc, drive, at)?;
        Ok(Store {
            vat_icb_address: at,
            capacity,
            vat,
            directories: DirectoryCache::new(alloc)?,
            is_stopped: false,
            most_held: 0,
        })
    }

    /// Whether a write failed, so that the medium has to be opened again.
    pub fn stopped(&self) -> bool
        ensures { result ≡ self.now.is_stopped }
    {
        self.is_stopped
    }

    /// The address of the newest VAT ICB.
    pub fn table(&self) -> u32
        ensures { result ≡ self.now.vat_icb_address }
    {
        self.vat_icb_address
    }

    /// How many blocks the volume has.
    pub fn capacity(&self) -> u32
        ensures { result ≡ self.now.capacity }
    {
        self.capacity
    }

    /// The newest table.
    pub fn newest(&self) -> &Vat
        ensures { result.now ≡ self.now.vat }
    {
        &self.vat
    }

    /// The greatest number of encoded blocks that were held at once, since the store was opened.
    pub fn most_held(&self) -> usize
        ensures { result ≡ self.now.most_held }
    {
        self.most_held
    }
}
