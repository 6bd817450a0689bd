//! The folder of the recordings.

use std::alloc::Global;
use std::fs::{self, File, OpenOptions};
use std::io::{self, Write};
use std::os::unix::fs::OpenOptionsExt;
use std::rt::Files;
use swim_record::{EraTime, FileName, Finished, read_name};

/// Who may read and write a recording: its owner alone.
const MODE: u32 = 0o600;

/// A folder of recordings, of which so many are kept.
#[derive(Drop)]
pub(crate) struct Folder {
    files: HostRuntime,
    path: String,
    kept: usize,
}

/// Makes a file of this text, which stands there whole after a crash too. An error is the system's.
fn put<R: Files<File = File>>(files: &R, path: &str, text: &str) -> io::Result<()> {
    let mut options = OpenOptions::new();
    options.write(true).create(true).truncate(true).mode(MODE);
    let mut file = options.open(files, path)?;
    file.write_all(text.as_bytes())?;
    file.sync_all()
}

/// The name in the name of a file that is written aside.
fn name_aside(text: &str) -> Option<&str> {
    text.strip_prefix('.')?.strip_suffix(".part")
}

impl Folder {
    /// The folder at this path, of which so many recordings are kept, one at least.
    pub(crate) fn new(files: HostRuntime, path: String, kept: u64) -> Folder {
        Folder {
            files,
            path,
            kept: usize::try_from(kept.max(1)).unwrap_or(usize::MAX),
        }
    }

    /// Its path.
    pub(crate) fn path(&self) -> &str {
        self.path.as_str()
    }

    /// The recordings in the folder, or what a process left that ended in the midst of one.
    fn list(&self, aside: bool) -> io::Result<Vec<FileName>> {
        let alloc = self.files.alloc();
        let mut names = Vec::new(alloc);
        for entry in fs::read_dir(&self.files, self.path())? {
            let entry = entry?;
            let text = if aside {
                name_aside(entry.file_name())
            } else {
                Some(entry.file_name())
            };
            if let Some(text) = text
                && let Some(name) = read_name(alloc, text)?
            {
                names.push(name)?;
            }
        }
        Ok(names)
    }

    /// The path of a recording while it is written, or of a whole one.
    fn path_of(&self, name: FileName, aside: bool) -> io::Result<String> {
        let alloc = self.files.alloc();
        let folder = self.path();
        let path = if aside {
            format!(in alloc; "{folder}/.{name}.part")?
        } else {
            format!(in alloc; "{folder}/{name}")?
        };
        Ok(path)
    }

    /// Writes a text aside, and gives it its name once it is whole and synced. An error is the system's, and leaves no file.
    fn write(&self, name: FileName, text: &str) -> io::Result<()> {
        let aside = self.path_of(name, true)?;
        let place = self.path_of(name, false)?;
        if let Err(error) = put(&self.files, aside.as_str(), text) {
            let _ = fs::remove_file(&self.files, aside.as_str());
            return Err(error);
        }
        fs::rename(&self.files, aside.as_str(), place.as_str())?;
        File::open(&self.files, self.path())?.sync_all()
    }

    /// Removes what was left aside, and all recordings but the last ones.
    fn prune(&self) -> io::Result<()> {
        for name in self.list(true)? {
            fs::remove_file(&self.files, self.path_of(name, true)?.as_str())?;
        }
        let mut names = self.list(false)?;
        names.sort()?;
        let surplus = names.len().saturating_sub(self.kept);
        for name in &names[..surplus] {
            fs::remove_file(&self.files, self.path_of(*name, false)?.as_str())?;
        }
        Ok(())
    }

    /// Writes the recording of an era under this name, with when it was, and removes the oldest ones above the number that is kept. An
    /// error is the system's, or there is no memory for the text.
    pub(crate) fn record(
        &self,
        name: FileName,
        time: Option<EraTime>,
        era: &Finished,
    ) -> io::Result<()> {
        let text = era.recording(self.files.alloc(), time)?;
        self.write(name, text.as_str())?;
        self.prune()
    }
}
