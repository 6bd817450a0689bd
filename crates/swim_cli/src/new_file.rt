//! A file that is whole before it has its path. **What the system does can't be proved: these functions are to be read and believed.**

use std::fs::{self, File, OpenOptions};
use std::io::{self, ErrorKind};
use std::os::unix::fs::{FileExt, OpenOptionsExt};
use std::random::RandomSource;
use std::rt::Files;
use swim_start::sync_folder;

/// Who may read and write a new file: its owner alone.
const MODE: u32 = 0o600;

/// Whether an error says that a file system has no second names for a file.
fn lacks_links(kind: ErrorKind) -> bool {
    matches!(kind, ErrorKind::PermissionDenied | ErrorKind::Unsupported)
}

/// Renames a file to a path where nothing is. What comes there between the look and the rename is lost: so is a file named only where its
/// file system cannot do it at once.
fn rename_to_free<R: Files<File = File>>(rt: &R, aside: &str, path: &str) -> io::Result<()> {
    match fs::symlink_metadata(rt, path) {
        Ok(_) => Err(ErrorKind::AlreadyExists.into()),
        Err(error) if error.kind() == ErrorKind::NotFound => fs::rename(rt, aside, path),
        Err(error) => Err(error),
    }
}

/// Gives a file this path too, at which nothing may be, not even a link.
fn link_to_free<R: Files<File = File>>(rt: &R, aside: &str, path: &str) -> io::Result<()> {
    match fs::hard_link(rt, aside, path) {
        Err(error) if lacks_links(error.kind()) => rename_to_free(rt, aside, path),
        linked => linked,
    }
}

/// A file that is made under a name that no other one has, `PATH.MARK.part`, and gets its path once it is whole. A process that is
/// killed leaves it under the first name, where nobody looks for it.
#[derive(Drop)]
pub struct NewFile<'a> {
    path: &'a str,
    aside: String,
}

impl<'a> NewFile<'a> {
    /// Makes the file, empty, for its owner alone, and opens it for reading and writing. What is at its first name, a link too, is not
    /// followed, and refuses it. An error is the system's, or there was no memory.
    pub fn begin<R>(rt: &R, path: &'a str) -> io::Result<(NewFile<'a>, File)>
    where
        R: Files<File = File> + RandomSource + AllocGlobal,
    {
        let mut mark = [0u8; 8];
        rt.fill_bytes(&mut mark)?;
        let mark = u64::from_be_bytes(mark);
        let aside = format!(in rt.alloc(); "{path}.{mark:016x}.part")?;
        let mut options = OpenOptions::new();
        options.read(true).write(true).create_new(true).mode(MODE);
        let file = options.open(rt, aside.as_str())?;
        Ok((NewFile { path, aside }, file))
    }

    /// Gives the file its path, and syncs the folder. Where something is there it stays as it is, this file is gone, and the error is
    /// `AlreadyExists`; else an error is the system's.
    pub fn name<R: Files<File = File>>(self, rt: &R) -> io::Result<()> {
        let named = link_to_free(rt, self.aside.as_str(), self.path);
        self.give_up(rt);
        named?;
        sync_folder(rt, self.path)
    }

    /// What the system says now of a write to the file, which has its first name, where one has just failed: the disk does not say why it did.
    pub fn ask_anew<R: Files<File = File>>(&self, rt: &R) -> io::Result<()> {
        let opened = OpenOptions::new()
            .write(true)
            .open(rt, self.aside.as_str())?;
        opened.write_all_at(&[0], 0)?;
        opened.sync_all()
    }

    /// Takes the first name away, and with it a file that has no other.
    pub fn give_up<R: Files<File = File>>(&self, rt: &R) {
        let _ = fs::remove_file(rt, self.aside.as_str());
    }
}
