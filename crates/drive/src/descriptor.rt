//! An open file, by system calls on its descriptor. It comes from a `File`, or by the number of a descriptor that the
//! caller opened, and then needs no runtime.

use crate::DriveFault;
use std::fs::File;
use std::os::fd::{AsRawFd, OwnedFd};
use std::os::unix::fs::MetadataExt;

/// The greatest offset and length of a read or a write.
const GREATEST: u64 = 1 << 62;

/// An open file, which is closed when it is dropped.
#[derive(Drop)]
pub(crate) enum Descriptor {
    File(File),
    /// Whoever opened it has checked that it is a regular file and has a name.
    Number(OwnedFd),
}

/// What is known of the file.
#[derive(Clone, Copy)]
pub(crate) struct Found {
    pub(crate) len: u64,
    pub(crate) is_file: bool,
    pub(crate) has_name: bool,
}

impl Descriptor {
    /// The descriptor of this number, which only this value closes. A negative number is a fault.
    pub(crate) fn of_number(fd: i32) -> Result<Descriptor, DriveFault> {
        if fd < 0 {
            return Err(DriveFault);
        }
        Ok(Descriptor::Number(unsafe { os::FromRawFd::from_raw_fd(fd) }))
    }

    /// Checks a descriptor that came by its number: if it cannot be set to the length that it has, this is a fault. It
    /// is then no regular file, or is not open for writing. The file must be locked, so that no writer makes it longer
    /// meanwhile.
    pub(crate) fn require_writable(&self) -> Result<(), DriveFault> {
        match self {
            Descriptor::File(_) => Ok(()),
            Descriptor::Number(_) => {
                let found = self.found()?;
                self.set_len(found.len)
            }
        }
    }

    fn number(&self) -> i32 {
        match self {
            Descriptor::File(file) => file.as_raw_fd(),
            Descriptor::Number(fd) => fd.as_raw_fd(),
        }
    }

    /// Locks the file. It is a fault if another has locked it.
    pub(crate) fn try_lock(&self) -> Result<(), DriveFault> {
        done(libc::flock(self.number(), libc::LOCK_EX | libc::LOCK_NB))
    }

    /// Waits until the disk has what was written.
    pub(crate) fn sync_all(&self) -> Result<(), DriveFault> {
        for _ in 0..u64::MAX {
            let status = libc::fsync(self.number());
            if !is_interrupted(status) {
                return done(status);
            }
        }
        Err(DriveFault)
    }

    /// Makes the system drop what it has cached of the file.
    pub(crate) fn forget_cached(&self) -> Result<(), DriveFault> {
        // The length 0 reaches to the end.
        done(libc::posix_fadvise(self.number(), 0, 0, libc::POSIX_FADV_DONTNEED))
    }

    /// Makes the system begin to read these bytes. It is a hint, so the result is ignored.
    pub(crate) fn read_soon(&self, offset: u64, len: u64) {
        if offset <= GREATEST && len <= GREATEST {
            let advice = libc::POSIX_FADV_WILLNEED;
            let _ = libc::posix_fadvise(self.number(), offset as i64, len as i64, advice);
        }
    }

    pub(crate) fn set_len(&self, len: u64) -> Result<(), DriveFault> {
        if len > GREATEST {
            return Err(DriveFault);
        }
        for _ in 0..u64::MAX {
            let status = libc::ftruncate(self.number(), len as i64);
            if !is_interrupted(status) {
                return done(status);
            }
        }
        Err(DriveFault)
    }

    pub(crate) fn found(&self) -> Result<Found, DriveFault> {
        match self {
            Descriptor::File(file) => {
                let found = file.metadata().map_err(|_| DriveFault)?;
                Ok(Found {
                    len: found.len(),
                    is_file: found.is_file(),
                    has_name: found.nlink() > 0,
                })
            }
            Descriptor::Number(fd) => {
                let end = libc::lseek(fd.as_raw_fd(), 0, libc::SEEK_END);
                let len = u64::try_from(end).map_err(|_| DriveFault)?;
                Ok(Found {
                    len,
                    is_file: true,
                    has_name: true,
                })
            }
        }
    }

    pub(crate) fn read_exact_at(&self, into: &mut [u8], offset: u64) -> Result<(), DriveFault> {
        if offset > GREATEST || into.len() as u64 > GREATEST {
            return Err(DriveFault);
        }
        let mut begun: usize = 0;
        for _ in 0..u64::MAX {
            if begun >= into.len() {
                return Ok(());
            }
            let at = (offset + begun as u64) as i64;
            let count = libc::pread(self.number(), &mut into[begun..], at);
            if count > 0 {
                begun += count as usize;
            } else if count == 0 || os::errno() != libc::EINTR {
                return Err(DriveFault);
            }
        }
        Err(DriveFault)
    }

    pub(crate) fn write_all_at(&self, bytes: &[u8], offset: u64) -> Result<(), DriveFault> {
        if offset > GREATEST || bytes.len() as u64 > GREATEST {
            return Err(DriveFault);
        }
        let mut begun: usize = 0;
        for _ in 0..u64::MAX {
            if begun >= bytes.len() {
                return Ok(());
            }
            let at = (offset + begun as u64) as i64;
            let count = libc::pwrite(self.number(), &bytes[begun..], at);
            if count > 0 {
                begun += count as usize;
            } else if count == 0 || os::errno() != libc::EINTR {
                return Err(DriveFault);
            }
        }
        Err(DriveFault)
    }
}

fn done(status: i32) -> Result<(), DriveFault> {
    if status == 0 { Ok(()) } else { Err(DriveFault) }
}

/// Whether a signal interrupted the call, which is then to be made again.
fn is_interrupted(status: i32) -> bool {
    status != 0 && os::errno() == libc::EINTR
}
