//! What a path names. **What the system does can't be proved: [`Found::of`] and [`NamedFile::look`] are to be read and
//! believed.**
//!
//! Each makes one call of the system. `look` notes what was answered, and gives that answer. All that is proved of a state file
//! that is lost rests on these notes.

ghost use Rattle.std.specs.Prelude.{◌≡◌, ◌++◌, ◌∷◌, [], IfOk};

use std::alloc::{AllocError, Global};
use std::fs::{self, File, Metadata};
use std::io::{self, ErrorKind};
use std::os::unix::fs::MetadataExt;
use std::rt::Files;
use std::sync::Arc;
use swim_trace::Trace;

/// What the system says of a file: which one it is, and how many bytes it has.
#[derive(Clone, Copy, Drop)]
pub(crate) struct Found {
    pub(crate) device: u64,
    pub(crate) inode: u64,
    pub(crate) length: u64,
}

impl Found {
    fn in_metadata(metadata: &Metadata) -> Found {
        Found {
            device: metadata.dev(),
            inode: metadata.ino(),
            length: metadata.len(),
        }
    }

    /// What the system says of an open file.
    pub(crate) fn of(file: &File) -> io::Result<Found> {
        let metadata = file.metadata()?;
        Ok(Found::in_metadata(&metadata))
    }
}

/// A path, which may name another file at each look.
#[derive(Drop)]
pub(crate) struct NamedFile<R> {
    files: R,
    path: Arc<String, Global>,
    /// What was answered at each look.
    pub(crate) looks: Trace<Result<Found, ErrorKind>>,
}

impl<R: Files<File = File> + Copy> NamedFile<R> {
    /// This path, at which nobody has looked yet. An error is that there is no memory.
    pub(crate) fn new(files: R, alloc: Global, path: &str) -> Result<NamedFile<R>, AllocError>
        ensures { IfOk result (λ named. named.looks ≡ []) }
    {
        Ok(NamedFile {
            files,
            path: Arc::new(alloc, String::from_str(alloc, path)?)?,
            looks: Trace::new(),
        })
    }

    /// The same path, at which nobody has looked yet.
    pub(crate) fn try_clone(&self) -> Result<NamedFile<R>, AllocError>
        ensures { IfOk result (λ named. named.looks ≡ []) }
    {
        Ok(NamedFile {
            files: self.files,
            path: Arc::try_clone(&self.path)?,
            looks: Trace::new(),
        })
    }

    /// The path.
    pub(crate) fn path(&self) -> &str {
        self.path.as_str()
    }

    /// What it names now.
    pub(crate) fn look(&mut self) -> Result<Found, ErrorKind>
        ensures { self.new.looks ≡ self.old.looks ++ result ∷ [] }
    {
        let answer = match fs::metadata(&self.files, self.path.as_str()) {
            Ok(metadata) => Ok(Found::in_metadata(&metadata)),
            Err(error) => Err(error.kind()),
        };
        self.looks = self.looks.and(&answer);
        answer
    }
}
