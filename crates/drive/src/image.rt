//! An image file, and how it is kept safe on the disk.
//!
//! What is answered must be on the disk. So a file that is written is held under an exclusive lock, and synced before
//! anything is read from it: what an earlier process left in the system's cache is on the disk before it counts as
//! written. Then the system is made to drop that cache, so that what is read is what the disk has, even if a sync
//! failed in that process. Each write by `append` ends with a sync. After a write or a sync that failed, the file is
//! cut back to the blocks that it had, and synced, before anything else. For the system may treat the pages of a failed
//! sync as clean: then neither another sync nor writing them again brings them to the disk.
//!
//! A user that syncs less often gives blocks by `give` and `fill`, and waits by `sync`. If that fails, it cuts the file
//! back itself, to what was synced last.
//!
//! A file that is only read is neither locked nor synced, so another may be writing it, or nobody may be allowed to.

ghost use Rattle.limits.specs.declared.TheConstants.{BLOCK_BYTES};
ghost use Rattle.std.specs.Prelude.{◌+◌, ◌<◌, ◌^◌, length, IfOk};

use crate::descriptor::{Descriptor, Found};
use crate::{Block, DriveFault};
use limits::BLOCK_BYTES;
use std::fs::{File, Files, OpenOptions};
use std::io::ErrorKind;
use std::{fs, io};

/// What a file is open for.
#[derive(Clone, Copy, Debug, PartialEq, Eq)]
enum Access {
    Read,
    Write,
}

/// A regular file that is open as an image. Its user keeps how many of its blocks count, and passes that to each call.
#[derive(Drop)]
pub struct Image {
    file: Descriptor,
    access: Access,
    /// Whether a write failed whose remains are not cut off yet.
    is_torn: bool,
}

impl Image {
    /// An image to write, over a file that is open for reading and writing. The file is locked until it is dropped,
    /// synced, and read anew from the disk. It is a fault if another has locked it.
    pub(crate) fn to_write(file: Descriptor) -> Result<Image, DriveFault> {
        file.try_lock()?;
        file.require_writable()?;
        file.sync_all()?;
        file.forget_cached()?;
        Ok(Image {
            file,
            access: Access::Write,
            is_torn: false,
        })
    }

    /// An image to read.
    pub(crate) fn to_read(file: Descriptor) -> Image {
        Image {
            file,
            access: Access::Read,
            is_torn: false,
        }
    }

    /// Whether the file is open to be written.
    pub fn is_open_to_write(&self) -> bool {
        self.access == Access::Write
    }

    /// How many whole blocks the file has. It is a fault if it is no regular file.
    pub(crate) fn count(&self) -> Result<u32, DriveFault> {
        let found = self.file.found()?;
        if found.is_file {
            whole_blocks(&found)
        } else {
            Err(DriveFault)
        }
    }

    /// Whether the file has `count` blocks. A file that is written must also have no other whole block, and a name.
    pub fn has(&mut self, count: u32) -> Result<bool, DriveFault> {
        self.cut_back(count)?;
        let found = self.file.found()?;
        let shown = whole_blocks(&found)?;
        Ok(match self.access {
            Access::Read => shown >= count,
            Access::Write => shown == count && found.has_name,
        })
    }

    /// Reads the block at an address.
    pub fn read(&mut self, count: u32, at: u32, into: &mut Block) -> Result<(), DriveFault> {
        self.cut_back(count)?;
        self.file.read_exact_at(into, offset(at))
    }

    /// Makes the system begin to read these blocks. It is a hint, so the result is ignored.
    pub fn read_soon(&self, at: u32, count: u32) {
        self.file
            .read_soon(offset(at), u64::from(count) * u64::from(BLOCK_BYTES));
    }

    /// Reads the bytes after the last whole block to the beginning of `into`. Returns how many there are, at most
    /// 2,047.
    pub fn part(&self, into: &mut Block) -> Result<usize, DriveFault>
        ensures { IfOk result (λ n. n < BLOCK_BYTES) }
    {
        let found = self.file.found()?;
        let len = (found.len % u64::from(BLOCK_BYTES)) as usize;
        let end = found.len - found.len % u64::from(BLOCK_BYTES);
        self.file.read_exact_at(&mut into[..len], end)?;
        Ok(len)
    }

    /// Writes the blocks of both slices, the second after the first, after the `count` blocks that it has, and waits
    /// until the disk has them all. Blocks for another address are a fault, so none is written twice.
    pub fn append(
        &mut self,
        count: u32,
        at: u32,
        first: &[Block],
        second: &[Block],
    ) -> Result<(), DriveFault>
        requires { at + (length first.now + length second.now) < 2 ^ 32 }
    {
        self.cut_back(count)?;
        if self.access == Access::Read || at != count {
            return Err(DriveFault);
        }
        if is_written(&self.file, at, first, second) {
            return Ok(());
        }
        self.cut(count);
        Err(DriveFault)
    }

    /// Writes the blocks of both slices, the second after the first, from an address on, and does not wait for the disk.
    /// The file has `count` blocks. Any places between these and the address are left out, and `fill` fills them.
    /// Blocks for a place that the file has are a fault.
    pub fn give(
        &mut self,
        count: u32,
        at: u32,
        first: &[Block],
        second: &[Block],
    ) -> Result<(), DriveFault>
        requires { at + (length first.now + length second.now) < 2 ^ 32 }
    {
        self.cut_back(count)?;
        if self.access == Access::Read || at < count {
            return Err(DriveFault);
        }
        if is_given(&self.file, at, first, second) {
            return Ok(());
        }
        self.cut(count);
        Err(DriveFault)
    }

    /// Writes a block at a place that was left out, and does not wait for the disk.
    pub fn fill(&mut self, at: u32, block: &Block) -> Result<(), DriveFault> {
        if self.access == Access::Read || self.is_torn {
            return Err(DriveFault);
        }
        self.file.write_all_at(block, offset(at))
    }

    /// Writes bytes after the `count` blocks that the file has or will have, and does not wait for the disk. They are
    /// fewer than a block, so no count of blocks changes. The next block that is written overwrites them.
    pub fn put_part(&mut self, count: u32, part: &[u8]) -> Result<(), DriveFault>
        requires { length part.now < BLOCK_BYTES }
    {
        if self.access == Access::Read || self.is_torn {
            return Err(DriveFault);
        }
        self.file.write_all_at(part, offset(count))
    }

    /// Cuts off the bytes after the `count` blocks of the file, and does not wait for the disk. It is a fault if the file
    /// has another count of blocks, or no name.
    pub fn drop_part(&mut self, count: u32) -> Result<(), DriveFault> {
        if self.access == Access::Read || self.is_torn || !is_whole(&self.file, count) {
            return Err(DriveFault);
        }
        self.file.set_len(offset(count))
    }

    /// Makes the file at least `count` blocks long, with zeros at the places that were left out, and waits until the
    /// disk has all of it. It is a fault if the file then has another length, or no name.
    pub fn sync(&mut self, count: u32) -> Result<(), DriveFault> {
        if self.access == Access::Read || self.is_torn {
            return Err(DriveFault);
        }
        if self.file.found()?.len < offset(count) {
            self.file.set_len(offset(count))?;
        }
        self.file.sync_all()?;
        if is_whole(&self.file, count) {
            Ok(())
        } else {
            Err(DriveFault)
        }
    }

    /// Cuts the file back to its first `count` blocks, and waits until the disk knows. If that fails, the next call that
    /// uses the file begins with it.
    pub fn cut(&mut self, count: u32) {
        self.is_torn = true;
        let _ = self.cut_back(count);
    }

    /// Cuts off what a failed write may have left after `count` blocks, unless that is done. It is a fault if the file
    /// is shorter: another has cut it, and it is left as it is.
    fn cut_back(&mut self, count: u32) -> Result<(), DriveFault> {
        if !self.is_torn {
            return Ok(());
        }
        let found = self.file.found()?;
        if found.len < offset(count) {
            return Err(DriveFault);
        }
        self.file.set_len(offset(count))?;
        self.file.sync_all()?;
        self.is_torn = false;
        Ok(())
    }
}

/// Writes the blocks of both slices, and syncs once. Returns whether that worked, and the file then ended with them and
/// still had a name.
fn is_written(file: &Descriptor, at: u32, first: &[Block], second: &[Block]) -> bool
    requires { at + (length first.now + length second.now) < 2 ^ 32 }
{
    let end = at + (first.len() + second.len()) as u32;
    is_given(file, at, first, second) && file.sync_all().is_ok() && is_whole(file, end)
}

/// Writes the blocks of both slices. Returns whether that worked.
fn is_given(file: &Descriptor, at: u32, first: &[Block], second: &[Block]) -> bool
    requires { at + (length first.now + length second.now) < 2 ^ 32 }
{
    let middle = at + first.len() as u32;
    file.write_all_at(first.as_flattened(), offset(at)).is_ok()
        && file
            .write_all_at(second.as_flattened(), offset(middle))
            .is_ok()
}

/// Whether the file has exactly `count` whole blocks, and a name.
fn is_whole(file: &Descriptor, count: u32) -> bool {
    match file.found() {
        Ok(found) => whole_blocks(&found) == Ok(count) && found.has_name,
        Err(_) => false,
    }
}

/// Opens the file at this path for reading and writing. It is a fault if it is missing or no regular file.
pub fn open_image<R: Files<File = File>>(rt: &R, path: &str) -> Result<File, DriveFault> {
    require_regular(rt, path)?;
    fault_of(OpenOptions::new().read(true).write(true).open(rt, path))
}

/// Opens the file at this path for reading and writing. If it is missing, it is made, under this very name: a symbolic
/// link to nothing is a fault.
pub fn create_image<R: Files<File = File>>(rt: &R, path: &str) -> Result<File, DriveFault> {
    match fs::metadata(rt, path) {
        Ok(_) => open_image(rt, path),
        Err(error) if error.kind() == ErrorKind::NotFound => fault_of(File::create_new(rt, path)),
        Err(_) => Err(DriveFault),
    }
}

/// Opens the file at this path for reading only. It is a fault if it is missing or no regular file.
pub(crate) fn open_to_read<R: Files<File = File>>(rt: &R, path: &str) -> Result<File, DriveFault> {
    require_regular(rt, path)?;
    fault_of(File::open(rt, path))
}

/// Syncs the folder of the file at this path, so that a power loss does not take away its name.
pub fn sync_folder<R: Files<File = File>>(rt: &R, path: &str) -> Result<(), DriveFault> {
    let folder = match path.rsplit_once('/') {
        Some(("", _)) => "/",
        Some((folder, _)) => folder,
        None => ".",
    };
    let folder = fault_of(File::open(rt, folder))?;
    fault_of(folder.sync_all())
}

/// Checks that this is a regular file. That is done before the file is opened, since opening a pipe may wait, and
/// opening a device may make it act.
fn require_regular<R: Files<File = File>>(rt: &R, path: &str) -> Result<(), DriveFault> {
    let found = fault_of(fs::metadata(rt, path))?;
    if found.is_file() {
        Ok(())
    } else {
        Err(DriveFault)
    }
}

fn fault_of<T>(outcome: io::Result<T>) -> Result<T, DriveFault> {
    outcome.map_err(|_| DriveFault)
}

/// Where the block at an address begins.
fn offset(at: u32) -> u64 {
    u64::from(at) * u64::from(BLOCK_BYTES)
}

/// How many whole blocks a file's length shows.
fn whole_blocks(found: &Found) -> Result<u32, DriveFault> {
    u32::try_from(found.len / u64::from(BLOCK_BYTES)).map_err(|_| DriveFault)
}
