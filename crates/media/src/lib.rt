//! Images by their paths, which a command borrows.
//!
//! A drive is taken out of the media, worked on, and put back. So contracts can name what each path holds before the
//! command and after it, and say what became of it.
//!
//! What is found is what is held, under one premise, that the media are honest: a path has what the last drive left
//! that was put back there, and no read gave other bytes. In memory this holds. For files it stays a premise, since no
//! code can know it. It is lost only if an image has another count of blocks than is held, or if a read gave other
//! bytes.
#![tactic(auto)]

ghost use Rattle.limits.specs.declared.TheConstants.{BLOCK_BYTES};
ghost use Rattle.std.specs.Prelude.{◌≡◌, ◌<◌, ℕ, Bool, List, Option, Some, take, is_err, IsTrue, IfOk, OnOk, OnErr};
ghost use Rattle.drive.specs.Journal.{Event, counted};
ghost use Rattle.media.specs.Held.{FoundAsHeld, IsFresh, Same, SameBut, SameOrMade, initial_journal};

mod files;
mod memory;
mod seen;

use drive::{Block, DriveFault};
pub use files::FileMedia;
pub use memory::MemMedia;
use settling::Settles;

/// Images by their paths.
pub trait Media {
    /// The drive over an image.
    type Drive: Settles;

    /// The journal of the image at a path, if there is one. While its drive is out, nothing is said about it.
    ghost held: { Self → List ℕ → Option (List Event) };

    /// Whether all that was found so far was what is held, and no read of a drive that was put back gave other bytes.
    ghost honest: { Self → Bool };

    /// How many times an image could not be taken out, or looked at. It stops at 2^64 - 1.
    ghost failures: { Self → ℕ };

    /// What the last call of `part` found after the last whole block of the image at a path. `None` before the first
    /// call.
    ghost looked: { Self → List ℕ → Option (List ℕ) };

    /// Whether a drive may be put back at this path.
    ghost takes_back: { Self → List ℕ → Bool };

    /// Takes out the image at this path, to read it. It is a fault if the image is missing, cannot be read, or is
    /// longer than the capacity.
    fn open_to_read(&mut self, path: &str, capacity: u32) -> Result<Self::Drive, DriveFault>
        ensures opened { IfOk result (λ d. IsTrue (honest self.new) → held self.old path.now ≡ Some (Self.Drive.journal d)) }
        ensures agreed { IfOk result (λ d. held self.old path.now ≡ Some (Self.Drive.journal d) → honest self.new ≡ honest self.old) }
        ensures alike { IfOk result (λ d. (J : List Event) → held self.old path.now ≡ Some J → FoundAsHeld J (Self.Drive.journal d)) }
        ensures fresh { IfOk result (λ d. IsFresh Self.Drive.Drive capacity d) }
        ensures place { OnOk result (IsTrue (takes_back self.new path.now)) }
        ensures others { SameBut path.now (held self.old) (held self.new) }
        ensures places { SameBut path.now (takes_back self.old) (takes_back self.new) }
        ensures err { OnErr result (Same (held self.old) (held self.new)) }
        ensures kept { OnErr result (Same (takes_back self.old) (takes_back self.new)) }
        ensures failed { OnErr result (honest self.new ≡ honest self.old) }
        ensures failures { failures self.new ≡ counted (is_err result) (failures self.old) }
        ensures looked { looked self.new ≡ looked self.old }
        ensures honest { IsTrue (honest self.new) → IsTrue (honest self.old) };

    /// Takes out the image at this path, to write it. Otherwise as `open_to_read`.
    fn open(&mut self, path: &str, capacity: u32) -> Result<Self::Drive, DriveFault>
        ensures opened { IfOk result (λ d. IsTrue (honest self.new) → held self.old path.now ≡ Some (Self.Drive.journal d)) }
        ensures agreed { IfOk result (λ d. held self.old path.now ≡ Some (Self.Drive.journal d) → honest self.new ≡ honest self.old) }
        ensures alike { IfOk result (λ d. (J : List Event) → held self.old path.now ≡ Some J → FoundAsHeld J (Self.Drive.journal d)) }
        ensures fresh { IfOk result (λ d. IsFresh Self.Drive.Drive capacity d) }
        ensures place { OnOk result (IsTrue (takes_back self.new path.now)) }
        ensures others { SameBut path.now (held self.old) (held self.new) }
        ensures places { SameBut path.now (takes_back self.old) (takes_back self.new) }
        ensures err { OnErr result (Same (held self.old) (held self.new)) }
        ensures kept { OnErr result (Same (takes_back self.old) (takes_back self.new)) }
        ensures failed { OnErr result (honest self.new ≡ honest self.old) }
        ensures failures { failures self.new ≡ counted (is_err result) (failures self.old) }
        ensures looked { looked self.new ≡ looked self.old }
        ensures honest { IsTrue (honest self.new) → IsTrue (honest self.old) };

    /// Takes out the image at this path, to write it. If it is missing, it is made, with no blocks. If this fails, the
    /// image may have been made.
    fn create(&mut self, path: &str, capacity: u32) -> Result<Self::Drive, DriveFault>
        ensures opened { IfOk result (λ d. IsTrue (honest self.new) → initial_journal (held self.old path.now) ≡ Self.Drive.journal d) }
        ensures agreed { IfOk result (λ d. initial_journal (held self.old path.now) ≡ Self.Drive.journal d → honest self.new ≡ honest self.old) }
        ensures alike { IfOk result (λ d. FoundAsHeld (initial_journal (held self.old path.now)) (Self.Drive.journal d)) }
        ensures fresh { IfOk result (λ d. IsFresh Self.Drive.Drive capacity d) }
        ensures place { OnOk result (IsTrue (takes_back self.new path.now)) }
        ensures others { SameBut path.now (held self.old) (held self.new) }
        ensures places { SameBut path.now (takes_back self.old) (takes_back self.new) }
        ensures err { OnErr result (SameOrMade path.now (held self.old) (held self.new)) }
        ensures kept { OnErr result (Same (takes_back self.old) (takes_back self.new)) }
        ensures failed { OnErr result (honest self.new ≡ honest self.old) }
        ensures failures { failures self.new ≡ counted (is_err result) (failures self.old) }
        ensures looked { looked self.new ≡ looked self.old }
        ensures honest { IsTrue (honest self.new) → IsTrue (honest self.old) };

    /// Puts a drive back. The path holds it from then on.
    fn put_back(&mut self, path: &str, drive: Self::Drive)
        requires { IsTrue (takes_back self.old path.now) }
        ensures held { held self.new path.now ≡ Some (Self.Drive.journal drive) }
        ensures others { SameBut path.now (held self.old) (held self.new) }
        ensures places { SameBut path.now (takes_back self.old) (takes_back self.new) }
        ensures misreads { IsTrue (honest self.new) → Self.Drive.misreads drive ≡ 0 }
        ensures agreed { Self.Drive.misreads drive ≡ 0 → honest self.new ≡ honest self.old }
        ensures failures { failures self.new ≡ failures self.old }
        ensures looked { looked self.new ≡ looked self.old }
        ensures honest { IsTrue (honest self.new) → IsTrue (honest self.old) };

    /// Reads the bytes of the image at this path after its last whole block, which have no address, to the beginning of
    /// `into`. Returns how many there are, at most 2,047. The image's drive is out: it is `drive`.
    fn part(
        &mut self,
        path: &str,
        drive: &Self::Drive,
        into: &mut Block,
    ) -> Result<usize, DriveFault>
        ensures short { IfOk result (λ n. n < BLOCK_BYTES) }
        ensures found { IfOk result (λ n. looked self.new path.now ≡ Some (take n into.new)) }
        ensures others { SameBut path.now (looked self.old) (looked self.new) }
        ensures err { OnErr result (looked self.new ≡ looked self.old) }
        ensures held { held self.new ≡ held self.old }
        ensures places { takes_back self.new ≡ takes_back self.old }
        ensures failures { failures self.new ≡ counted (is_err result) (failures self.old) }
        ensures honest { honest self.new ≡ honest self.old };
}
