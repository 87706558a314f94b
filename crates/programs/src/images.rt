//! The images of the media, on which the volumes are.

ghost use Rattle.limits.specs.declared.TheConstants.{GREATEST_CAPACITY};
ghost use Rattle.std.specs.Prelude.{◌≡◌, IfErr, IfOk, IsTrue, OnErr, OnOk};
ghost use Rattle.programs.specs.Images.{AreUntouched, HasFailed, IsOpened, IsPutBack, IsThere, IsThereOrMade, MayBeMade, images_on};

use crate::fault::Fault;
use limits::GREATEST_CAPACITY;
use media::Media;
use store::StoreFault;

/// Takes out the image at this path, to write it.
pub(crate) fn open_image<M: Media>(media: &mut M, path: &str) -> Result<M::Drive, Fault>
    ensures device { IfErr result (λ fault. fault ≡ Fault.Store StoreFault.Device) }
    ensures untouched { OnErr result (AreUntouched (images_on M.Media media.old) (images_on M.Media media.new)) }
    ensures failed { OnErr result (HasFailed (images_on M.Media media.old) (images_on M.Media media.new)) }
    ensures opened { IfOk result (λ drive. IsOpened M.Drive.Drive IsThere GREATEST_CAPACITY path.now drive (images_on M.Media media.old) (images_on M.Media media.new)) }
    ensures place { OnOk result (IsTrue (M.takes_back media.new path.now)) }
{
    match media.open(path, GREATEST_CAPACITY) {
        Ok(drive) => Ok(drive),
        Err(_) => Err(Fault::Store(StoreFault::Device)),
    }
}

/// Takes out the image at this path, to read it.
pub(crate) fn read_image<M: Media>(media: &mut M, path: &str) -> Result<M::Drive, Fault>
    ensures device { IfErr result (λ fault. fault ≡ Fault.Store StoreFault.Device) }
    ensures untouched { OnErr result (AreUntouched (images_on M.Media media.old) (images_on M.Media media.new)) }
    ensures failed { OnErr result (HasFailed (images_on M.Media media.old) (images_on M.Media media.new)) }
    ensures opened { IfOk result (λ drive. IsOpened M.Drive.Drive IsThere GREATEST_CAPACITY path.now drive (images_on M.Media media.old) (images_on M.Media media.new)) }
    ensures place { OnOk result (IsTrue (M.takes_back media.new path.now)) }
{
    match media.open_to_read(path, GREATEST_CAPACITY) {
        Ok(drive) => Ok(drive),
        Err(_) => Err(Fault::Store(StoreFault::Device)),
    }
}

/// Takes out the image at this path, of at most `capacity` blocks, to write it. If it is missing, it is made.
pub(crate) fn create_image<M: Media>(
    media: &mut M,
    path: &str,
    capacity: u32,
) -> Result<M::Drive, Fault>
    ensures device { IfErr result (λ fault. fault ≡ Fault.Store StoreFault.Device) }
    ensures made { OnErr result (MayBeMade path.now (images_on M.Media media.old) (images_on M.Media media.new)) }
    ensures failed { OnErr result (HasFailed (images_on M.Media media.old) (images_on M.Media media.new)) }
    ensures opened { IfOk result (λ drive. IsOpened M.Drive.Drive IsThereOrMade capacity path.now drive (images_on M.Media media.old) (images_on M.Media media.new)) }
    ensures uncounted { OnOk result (M.failures media.new ≡ M.failures media.old) }
    ensures place { OnOk result (IsTrue (M.takes_back media.new path.now)) }
{
    match media.create(path, capacity) {
        Ok(drive) => Ok(drive),
        Err(_) => Err(Fault::Store(StoreFault::Device)),
    }
}

/// Puts a drive back in its place.
pub(crate) fn put_back<M: Media>(media: &mut M, path: &str, drive: M::Drive)
    requires { IsTrue (M.takes_back media.old path.now) }
    ensures { IsPutBack M.Drive.Drive path.now drive (images_on M.Media media.old) (images_on M.Media media.new) }
{
    media.put_back(path, drive);
}
