//! State files, one process on each. **What the system does can't be proved: [`open_file`], [`LockedFile::lock`] and
//! [`sync_folder`] are to be read and believed.**
//!
//! A [`LockedFile`] is made nowhere else, so that whoever has one has locked it.

use std::fs::{File, OpenOptions, TryLockError};
use std::io::{self, ErrorKind};
use std::os::unix::fs::OpenOptionsExt;
use std::path::Path;
use std::rt::Files;

/// Who may read and write a new state file: its owner alone.
const MODE: u32 = 0o600;

/// An open file that is locked for this process until it is closed.
#[derive(Drop)]
pub struct LockedFile {
    file: File,
}

impl LockedFile {
    /// Locks a file. Where another process has the lock, the error is `ResourceBusy` and has no number; each other one is the
    /// system's.
    fn lock(file: File) -> io::Result<LockedFile> {
        match file.try_lock() {
            Ok(()) => Ok(LockedFile { file }),
            Err(TryLockError::WouldBlock) => Err(ErrorKind::ResourceBusy.into()),
            Err(TryLockError::Error(error)) => Err(error),
        }
    }

    /// The open file.
    pub(crate) fn file(&self) -> &File {
        &self.file
    }

    /// The open file, which stays locked.
    pub fn into_file(self) -> File {
        self.file
    }
}

/// Opens a file for reading and writing. Where `make`, it is made if it is not there, for its owner alone.
fn open_file<R: Files<File = File>>(rt: &R, path: &str, make: bool) -> io::Result<File> {
    let mut options = OpenOptions::new();
    options.read(true).write(true).create(make).mode(MODE);
    options.open(rt, path)
}

/// Opens a file for reading and writing, and locks it for this process until it is closed. Where `make`, it is made if
/// it is not there. An error is the system's; where another process has the lock, it is `ResourceBusy` and has no number.
pub fn open_locked<R: Files<File = File>>(
    rt: &R,
    path: &str,
    make: bool,
) -> io::Result<LockedFile> {
    LockedFile::lock(open_file(rt, path, make)?)
}

/// The folder of a file at this path.
fn folder_of(path: &str) -> Path<'_> {
    match Path::new(path).parent() {
        Some(folder) if !folder.as_str().is_empty() => folder,
        _ => Path::new("."),
    }
}

/// Syncs the folder that the file stands in, so that a new file stays there. An error is the system's.
pub fn sync_folder<R: Files<File = File>>(rt: &R, path: &str) -> io::Result<()> {
    File::open(rt, folder_of(path))?.sync_all()
}
