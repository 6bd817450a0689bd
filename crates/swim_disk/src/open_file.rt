//! An open file of the operating system. **What the system does can't be proved: this file is to be read and believed.**
//!
//! Each function of [`BackingFile`] makes one call of the system with what it was given. It notes what it asked for and what
//! was answered, and gives that answer. All that is proved of files rests on these notes.

ghost use Rattle.std.specs.Prelude.{◌≡◌, ◌++◌, ◌∷◌, []};

use crate::backing::{BackingFile, Deed};
use os::errno;
use std::io;
use std::os::fd::{AsRawFd, OwnedFd};
use swim_trace::Trace;

/// An open file, which is read and written at offsets. It is closed where it is dropped.
#[derive(Drop)]
pub(crate) struct OpenFile {
    fd: OwnedFd,
    pub(crate) deeds: Trace<Deed>,
}

impl OpenFile {
    /// The file of this descriptor, which is open for reading and writing.
    pub(crate) fn new(fd: OwnedFd) -> OpenFile
        ensures { result.deeds ≡ [] }
    {
        OpenFile {
            fd,
            deeds: Trace::new(),
        }
    }

    fn note(&mut self, deed: Deed)
        ensures { self.new.deeds ≡ self.old.deeds ++ deed ∷ [] }
    {
        self.deeds = self.deeds.and(&deed);
    }
}

impl BackingFile for OpenFile {
    ghost deeds = { λ f. f.deeds };

    fn length(&mut self) -> io::Result<u64> {
        let end = libc::lseek(self.fd.as_raw_fd(), 0, libc::SEEK_END);
        let length = u64::try_from(end).map_err(|_| io::Error::from_raw_os_error(errno()))?;
        self.note(Deed::Measured { length });
        Ok(length)
    }

    fn read(&mut self, at: u64, buffer: &mut [u8]) -> io::Result<usize> {
        let given = libc::pread(self.fd.as_raw_fd(), buffer, at.cast_signed());
        let count = usize::try_from(given).map_err(|_| io::Error::from_raw_os_error(errno()))?;
        let bytes = Trace::of(&buffer[..count]);
        self.note(Deed::Read { at, bytes });
        Ok(count)
    }

    fn write(&mut self, at: u64, bytes: &[u8]) -> io::Result<usize> {
        let taken = libc::pwrite(self.fd.as_raw_fd(), bytes, at.cast_signed());
        let Ok(count) = usize::try_from(taken) else {
            let error = io::Error::from_raw_os_error(errno());
            let bytes = Trace::of(bytes);
            self.note(Deed::WriteFailed { at, bytes });
            return Err(error);
        };
        let bytes = Trace::of(&bytes[..count]);
        self.note(Deed::Wrote { at, bytes });
        Ok(count)
    }

    fn sync(&mut self) -> io::Result<()> {
        if libc::fsync(self.fd.as_raw_fd()) < 0 {
            let error = io::Error::from_raw_os_error(errno());
            self.note(Deed::SyncFailed);
            return Err(error);
        }
        self.note(Deed::Synced);
        Ok(())
    }

    fn drop_held(&mut self) -> io::Result<()> {
        let refused = libc::posix_fadvise(self.fd.as_raw_fd(), 0, 0, libc::POSIX_FADV_DONTNEED);
        if refused != 0 {
            return Err(io::Error::from_raw_os_error(refused));
        }
        self.note(Deed::Dropped);
        Ok(())
    }
}
