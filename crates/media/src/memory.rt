//! Images in memory. Such media are always honest.
ghost use Rattle.std.specs.Prelude.{◌≡◌, ◌++◌, ◌∷◌, ◌<◌, List, ℕ, [], true, false, None, Some, is_err, length, IsTrue, IfOk, IfNone, IfSome, OnErr, OnOk};
ghost use Rattle.drive.specs.Gathering.{waits_never};
ghost use Rattle.drive.specs.Journal.{Event, counted};
ghost use Rattle.settling.specs.Gathered.{journal_of, capacity_of, failures_of, gathering_of, writes_of};
ghost use Rattle.media.specs.Held.{FoundAsHeld, IsFresh, Same, SameBut, SameOrMade, initial_journal};
ghost use Rattle.media.specs.InMemory.{AreOthers, IsFit, IsPlace, IsUnfit, held_by, is_out, journal_in};

use crate::Media;
use drive::{Block, Drive, DriveFault};
use settling::GatheringDrive;
use std::alloc::Global;

/// An image at its path. The drive is `None` while it is out.
#[derive(Drop)]
struct Slot {
    path: Vec<u8>,
    drive: Option<GatheringDrive>,
}

/// Images in memory, each a drive that is taken out and put back.
#[derive(Drop)]
pub struct MemMedia {
    alloc: Global,
    slots: Vec<Slot>,
    failures: u64,
}

impl MemMedia {
    ghost use Rattle.media.specs.InMemory.{held_by};

    /// No images.
    pub fn new(alloc: Global) -> MemMedia
        ensures { (path : List ℕ) → held_by result path ≡ None }
    {
        MemMedia {
            alloc,
            slots: Vec::new(alloc),
            failures: 0,
        }
    }

    /// Takes out the drive of the image at this path.
    fn take_out(&mut self, path: &[u8], capacity: u32) -> Result<GatheringDrive, DriveFault>
        ensures opened { IfOk result (λ d. held_by self.old path.now ≡ Some (journal_of d)) }
        ensures size { IfOk result (λ d. capacity_of d ≡ capacity) }
        ensures fit { IfOk result (λ d. IsFit capacity (journal_of d)) }
        ensures writes { IfOk result (λ d. writes_of d ≡ []) }
        ensures failures { IfOk result (λ d. failures_of d ≡ 0) }
        ensures gathering { IfOk result (λ d. gathering_of d ≡ waits_never) }
        ensures out { OnOk result (IsTrue (is_out self.new path.now)) }
        ensures others { SameBut path.now (held_by self.old) (held_by self.new) }
        ensures places { SameBut path.now (is_out self.old) (is_out self.new) }
        ensures err { OnErr result (Same (held_by self.old) (held_by self.new)) }
        ensures kept { OnErr result (Same (is_out self.old) (is_out self.new)) }
        ensures refused { OnErr result (IsUnfit capacity (held_by self.old path.now)) }
        ensures uncounted { self.new.failures ≡ self.old.failures }
    {
        let Some(place) = place_of(&self.slots, path) else {
            return Err(DriveFault);
        };
        take_drive(&mut self.slots[place], capacity)
    }

    /// Makes an image of no blocks at this path, which has no slot yet, and takes out its drive.
    fn add(&mut self, path: &[u8], capacity: u32) -> Result<GatheringDrive, DriveFault>
        requires { AreOthers self.old.slots.items path.now (length self.old.slots.items) }
        ensures blank { IfOk result (λ d. journal_of d ≡ []) }
        ensures size { IfOk result (λ d. capacity_of d ≡ capacity) }
        ensures writes { IfOk result (λ d. writes_of d ≡ []) }
        ensures failures { IfOk result (λ d. failures_of d ≡ 0) }
        ensures gathering { IfOk result (λ d. gathering_of d ≡ waits_never) }
        ensures out { OnOk result (IsTrue (is_out self.new path.now)) }
        ensures others { SameBut path.now (held_by self.old) (held_by self.new) }
        ensures places { SameBut path.now (is_out self.old) (is_out self.new) }
        ensures err { OnErr result (Same (held_by self.old) (held_by self.new)) }
        ensures kept { OnErr result (Same (is_out self.old) (is_out self.new)) }
        ensures uncounted { self.new.failures ≡ self.old.failures }
    {
        let Ok(own_path) = Vec::from_slice(self.alloc, path) else {
            return Err(DriveFault);
        };
        let slot = Slot {
            path: own_path,
            drive: None,
        };
        push_slot(&mut self.slots, slot)?;
        Ok(GatheringDrive::new(self.alloc, capacity, Vec::new(self.alloc)))
    }

    /// Takes out the drive of the image at this path, which is made if it is missing.
    fn take_or_add(&mut self, path: &str, capacity: u32) -> Result<GatheringDrive, DriveFault>
        ensures opened { IfOk result (λ d. initial_journal (held_by self.old path.now) ≡ journal_of d) }
        ensures alike { IfOk result (λ d. FoundAsHeld (initial_journal (held_by self.old path.now)) (journal_of d)) }
        ensures fresh { IfOk result (λ d. IsFresh ⟦<GatheringDrive as Drive>⟧ capacity d) }
        ensures place { OnOk result (IsTrue (is_out self.new path.now)) }
        ensures others { SameBut path.now (held_by self.old) (held_by self.new) }
        ensures places { SameBut path.now (is_out self.old) (is_out self.new) }
        ensures err { OnErr result (SameOrMade path.now (held_by self.old) (held_by self.new)) }
        ensures kept { OnErr result (Same (is_out self.old) (is_out self.new)) }
        ensures refused { OnErr result (IsUnfit capacity (held_by self.old path.now)) }
        ensures uncounted { self.new.failures ≡ self.old.failures }
    {
        match place_of(&self.slots, path.as_bytes()) {
            Some(_) => self.take_out(path.as_bytes(), capacity),
            None => self.add(path.as_bytes(), capacity),
        }
    }

    /// Counts a call that failed.
    fn count(&mut self, has_failed: bool)
        ensures slots { self.new.slots ≡ self.old.slots }
        ensures failures { self.new.failures ≡ counted has_failed self.old.failures }
    {
        if has_failed {
            self.failures = self.failures.saturating_add(1);
        }
    }
}

impl Media for MemMedia {
    type Drive = GatheringDrive;

    ghost use Rattle.media.specs.InMemory.{IsUnfit, held_by, is_out};

    ghost held = { held_by };

    ghost honest = { λ _. true };

    ghost failures = { λ m. m.failures };

    // A drive in memory has only whole blocks.
    ghost looked = { λ _ _. Some [] };

    ghost takes_back = { is_out };

    fn open_to_read(&mut self, path: &str, capacity: u32) -> Result<GatheringDrive, DriveFault>
        ensures opened { IfOk result (λ d. held_by self.old path.now ≡ Some (journal_of d)) }
        ensures alike { IfOk result (λ d. (J : List Event) → held_by self.old path.now ≡ Some J → FoundAsHeld J (journal_of d)) }
        ensures fresh { IfOk result (λ d. IsFresh ⟦<GatheringDrive as Drive>⟧ capacity d) }
        ensures place { OnOk result (IsTrue (is_out self.new path.now)) }
        ensures others { SameBut path.now (held_by self.old) (held_by self.new) }
        ensures places { SameBut path.now (is_out self.old) (is_out self.new) }
        ensures err { OnErr result (Same (held_by self.old) (held_by self.new)) }
        ensures kept { OnErr result (Same (is_out self.old) (is_out self.new)) }
        ensures refused { OnErr result (IsUnfit capacity (held_by self.old path.now)) }
        ensures failures { self.new.failures ≡ counted (is_err result) self.old.failures }
    {
        let taken = self.take_out(path.as_bytes(), capacity);
        self.count(taken.is_err());
        taken
    }

    fn open(&mut self, path: &str, capacity: u32) -> Result<GatheringDrive, DriveFault>
        ensures opened { IfOk result (λ d. held_by self.old path.now ≡ Some (journal_of d)) }
        ensures alike { IfOk result (λ d. (J : List Event) → held_by self.old path.now ≡ Some J → FoundAsHeld J (journal_of d)) }
        ensures fresh { IfOk result (λ d. IsFresh ⟦<GatheringDrive as Drive>⟧ capacity d) }
        ensures place { OnOk result (IsTrue (is_out self.new path.now)) }
        ensures others { SameBut path.now (held_by self.old) (held_by self.new) }
        ensures places { SameBut path.now (is_out self.old) (is_out self.new) }
        ensures err { OnErr result (Same (held_by self.old) (held_by self.new)) }
        ensures kept { OnErr result (Same (is_out self.old) (is_out self.new)) }
        ensures refused { OnErr result (IsUnfit capacity (held_by self.old path.now)) }
        ensures failures { self.new.failures ≡ counted (is_err result) self.old.failures }
    {
        let taken = self.take_out(path.as_bytes(), capacity);
        self.count(taken.is_err());
        taken
    }

    fn create(&mut self, path: &str, capacity: u32) -> Result<GatheringDrive, DriveFault>
        ensures opened { IfOk result (λ d. initial_journal (held_by self.old path.now) ≡ journal_of d) }
        ensures alike { IfOk result (λ d. FoundAsHeld (initial_journal (held_by self.old path.now)) (journal_of d)) }
        ensures fresh { IfOk result (λ d. IsFresh ⟦<GatheringDrive as Drive>⟧ capacity d) }
        ensures place { OnOk result (IsTrue (is_out self.new path.now)) }
        ensures others { SameBut path.now (held_by self.old) (held_by self.new) }
        ensures places { SameBut path.now (is_out self.old) (is_out self.new) }
        ensures err { OnErr result (SameOrMade path.now (held_by self.old) (held_by self.new)) }
        ensures kept { OnErr result (Same (is_out self.old) (is_out self.new)) }
        ensures refused { OnErr result (IsUnfit capacity (held_by self.old path.now)) }
        ensures failures { self.new.failures ≡ counted (is_err result) self.old.failures }
    {
        let taken = self.take_or_add(path, capacity);
        self.count(taken.is_err());
        taken
    }

    fn put_back(&mut self, path: &str, drive: GatheringDrive) {
        if let Some(place) = place_of(&self.slots, path.as_bytes()) {
            fill(&mut self.slots[place], drive);
        }
    }

    fn part(
        &mut self,
        _path: &str,
        _drive: &GatheringDrive,
        _into: &mut Block,
    ) -> Result<usize, DriveFault>
        ensures none { result ≡ Ok 0 }
        ensures same { self.new ≡ self.old }
    {
        Ok(0)
    }
}

/// Puts a drive into a slot.
fn fill(slot: &mut Slot, drive: GatheringDrive)
    ensures path { slot.new.path ≡ slot.old.path }
    ensures drive { slot.new.drive ≡ Some drive }
{
    slot.drive = Some(drive);
}

fn push_slot(slots: &mut Vec<Slot>, slot: Slot) -> Result<(), DriveFault>
    ensures ok { OnOk result (slots.new.items ≡ slots.old.items ++ slot ∷ []) }
    ensures err { OnErr result (slots.new.items ≡ slots.old.items) }
{
    match slots.push(slot) {
        Ok(()) => Ok(()),
        Err(_) => Err(DriveFault),
    }
}

/// The index of the slot of this path.
fn place_of(slots: &[Slot], path: &[u8]) -> Option<usize>
    ensures found { IfSome result (IsPlace slots.now path.now) }
    ensures none { IfNone result (AreOthers slots.now path.now (length slots.now)) }
{
    for place in 0..slots.len() {
        if path == slots[place].path.as_slice() {
            return Some(place);
        }
    }
    None
}

/// Takes the drive out of a slot, if it is there and fits the capacity.
fn take_drive(slot: &mut Slot, capacity: u32) -> Result<GatheringDrive, DriveFault>
    ensures path { slot.new.path ≡ slot.old.path }
    ensures opened { IfOk result (λ d. journal_in slot.old ≡ Some (journal_of d)) }
    ensures out { OnOk result (slot.new.drive ≡ None) }
    ensures size { IfOk result (λ d. capacity_of d ≡ capacity) }
    ensures fit { IfOk result (λ d. IsFit capacity (journal_of d)) }
    ensures writes { IfOk result (λ d. writes_of d ≡ []) }
    ensures failures { IfOk result (λ d. failures_of d ≡ 0) }
    ensures gathering { IfOk result (λ d. gathering_of d ≡ waits_never) }
    ensures err { OnErr result (slot.new.drive ≡ slot.old.drive) }
    ensures refused { OnErr result (IsUnfit capacity (journal_in slot.old)) }
{
    let Some(drive) = slot.drive.take() else {
        return Err(DriveFault);
    };
    if drive.blocks().len() <= capacity as usize {
        return Ok(drive.reopened(capacity));
    }
    slot.drive = Some(drive);
    Err(DriveFault)
}
