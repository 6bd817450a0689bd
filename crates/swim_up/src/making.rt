//! Making a folder and a file. **What the system does can't be proved: these are to be read and believed.**

use std::fs::{self, DirBuilder, File, Metadata};
use std::io::{self, ErrorKind, Write};
use std::os::unix::fs::{DirBuilderExt, MetadataExt};
use std::random::RandomSource;
use std::rt::Files;
use swim_cli::NewFile;
use swim_start::sync_folder;

/// Who may enter a new folder: its owner alone.
const FOLDER_MODE: u32 = 0o700;

/// The bits of a mode by which others than the owner may write.
const OTHERS_WRITE: u32 = 0o022;

/// The bits of a mode that say who may do what.
const ACCESS: u32 = 0o7777;

/// The user who may do all.
const ROOT: u32 = 0;

/// Makes a folder, if there is none.
pub(crate) fn make_folder<R: Files<File = File>>(rt: &R, path: &str) -> io::Result<()> {
    match DirBuilder::new().mode(FOLDER_MODE).create(rt, path) {
        Err(error) if error.kind() == ErrorKind::AlreadyExists => Ok(()),
        Err(error) => Err(error),
        Ok(()) => sync_folder(rt, path),
    }
}

/// What somebody else could put into a folder, or lead it elsewhere by.
#[derive(Clone, Copy, Debug, PartialEq, Eq)]
pub(crate) enum Foreign {
    /// The path is a link of another user, with this number.
    Link(u32),
    /// Another user owns it, with this number and this mode.
    Owner(u32, u32),
    /// Others than its owner may write it, by this mode.
    Mode(u32),
}

/// Whether a user is another one than root and the one whom this process acts for.
fn is_other(user: u32) -> bool {
    user != ROOT && user != libc::geteuid()
}

/// What is foreign in a folder, if anything is.
fn foreign_in(found: &Metadata) -> Option<Foreign> {
    let (user, mode) = (found.uid(), found.mode() & ACCESS);
    if is_other(user) {
        return Some(Foreign::Owner(user, mode));
    }
    if mode & OTHERS_WRITE != 0 {
        return Some(Foreign::Mode(mode));
    }
    None
}

/// What is foreign at the path of a folder, if anything is. An error is the system's, as where nothing is there.
pub(crate) fn foreign_at<R: Files<File = File>>(rt: &R, path: &str) -> io::Result<Option<Foreign>> {
    let named = fs::symlink_metadata(rt, path)?;
    if named.is_symlink() && is_other(named.uid()) {
        return Ok(Some(Foreign::Link(named.uid())));
    }
    Ok(foreign_in(&fs::metadata(rt, path)?))
}

/// Writes a whole text into a file, and syncs it.
fn write_whole(file: &mut File, text: &str) -> io::Result<()> {
    file.write_all(text.as_bytes())?;
    file.sync_all()
}

/// Makes a file of this text, which is whole and synced before it has its path. An error is the system's; where something came to be
/// there it is `AlreadyExists`, and that stays as it is.
pub(crate) fn make_file<R>(rt: &R, path: &str, text: &str) -> io::Result<()>
where
    R: Files<File = File> + RandomSource + AllocGlobal,
{
    let (new, mut file) = NewFile::begin(rt, path)?;
    if let Err(error) = write_whole(&mut file, text) {
        new.give_up(rt);
        return Err(error);
    }
    new.name(rt)
}
