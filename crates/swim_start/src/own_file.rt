//! Whether a path still names the file that was opened there.

ghost use Rattle.std.specs.Prelude.{◌≡◌, [], false, true, max, IfOk, IsTrue};
ghost use Rattle.swim_start.specs.OwnFile.{LooksOnce, is_missing, is_same_file};

use crate::locked_file::LockedFile;
use crate::named_file::{Found, NamedFile};
use crate::watched_disk::WriteWatch;
use std::alloc::{AllocError, Global};
use std::fs::File;
use std::io::{self, ErrorKind};
use std::rt::Files;
use std::sync::Arc;
use std::sync::atomic::{AtomicBool, AtomicU64, Ordering};
use swim_trace::Trace;

/// Whether what was found is the file that was opened, and no shorter than it once was.
fn is_same_file(opened: &Found, longest: u64, found: &Found) -> bool
    ensures { result ≡ is_same_file opened.now longest found.now }
{
    found.device == opened.device && found.inode == opened.inode && longest <= found.length
}

/// Whether an error says that a path names no file.
fn is_missing(kind: ErrorKind) -> bool
    ensures { result ≡ is_missing kind }
{
    matches!(kind, ErrorKind::NotFound | ErrorKind::NotADirectory)
}

/// What all have seen who watch the same file. What one of them reads here is not known to proofs.
#[derive(Drop)]
struct SeenFile {
    /// The greatest length, in bytes.
    longest: AtomicU64,
    is_lost: AtomicBool,
}

/// A file that was opened at a path, as it stands there. It is lost where the path names no file, another one, or this one cut
/// short. Once lost it stays so, for all who watch it: what was written meanwhile may be in another file.
#[derive(Drop)]
pub struct OwnFile<R> {
    named: NamedFile<R>,
    opened: Found,
    /// The greatest length that it has seen itself, in bytes.
    longest: u64,
    is_lost: bool,
    seen: Arc<SeenFile, Global>,
    asked: Trace<bool>,
}

impl<R: Files<File = File> + Copy> OwnFile<R> {
    /// This open file at this path. An error is the system's, or there was no memory.
    pub fn new(files: R, alloc: Global, path: &str, opened: &LockedFile) -> io::Result<OwnFile<R>>
        ensures { IfOk result (λ own. (own.longest ≡ own.opened.length)
            × (own.is_lost ≡ false) × (own.named.looks ≡ [])) }
    {
        let opened = Found::of(opened.file())?;
        let seen = SeenFile {
            longest: AtomicU64::new(opened.length),
            is_lost: AtomicBool::new(false),
        };
        Ok(OwnFile {
            named: NamedFile::new(files, alloc, path)?,
            opened,
            longest: opened.length,
            is_lost: false,
            seen: Arc::new(alloc, seen)?,
            asked: Trace::new(),
        })
    }

    /// One more who watches the file.
    pub fn try_clone(&self) -> Result<OwnFile<R>, AllocError>
        ensures { IfOk result (λ own. (own.opened ≡ self.now.opened)
            × (own.longest ≡ self.now.longest) × (own.is_lost ≡ self.now.is_lost)
            × (own.named.looks ≡ [])) }
    {
        Ok(OwnFile {
            named: self.named.try_clone()?,
            opened: self.opened,
            longest: self.longest,
            is_lost: self.is_lost,
            seen: Arc::try_clone(&self.seen)?,
            asked: Trace::new(),
        })
    }

    /// Its path.
    pub fn path(&self) -> &str {
        self.named.path()
    }

    /// Whether this is the file, and no shorter than anyone saw it.
    fn is_of(&mut self, found: &Found) -> bool
        ensures same { IsTrue result
            → IsTrue (is_same_file self.old.opened self.old.longest found.now) }
        ensures longest { self.new.longest ≡ max self.old.longest found.now.length }
        ensures rest { self.new ≡ record self.old { longest = self.new.longest } }
    {
        let known = self.longest;
        let seen = self.seen.longest.fetch_max(found.length, Ordering::SeqCst);
        self.longest = known.max(found.length);
        is_same_file(&self.opened, known.max(seen), found)
    }

    /// Whether the path names the file now. What the system cannot tell is no loss.
    fn is_there(&mut self) -> bool
        ensures looks { LooksOnce result self.old self.new }
        ensures lost { self.new.is_lost ≡ self.old.is_lost }
        ensures asked { self.new.asked ≡ self.old.asked }
    {
        match self.named.look() {
            Ok(found) => self.is_of(&found),
            Err(kind) => !is_missing(kind),
        }
    }

    /// Whether it is lost, by now or since an earlier look of anyone.
    fn is_lost(&mut self) -> bool
        ensures lost { self.new.is_lost ≡ result }
        ensures looks { result ≡ false → LooksOnce true self.old self.new }
        ensures before { IsTrue self.old.is_lost → IsTrue result }
        ensures asked { self.new.asked ≡ self.old.asked }
    {
        let was_lost = self.is_lost || self.seen.is_lost.load(Ordering::SeqCst);
        self.is_lost = was_lost || !self.is_there();
        if self.is_lost {
            self.seen.is_lost.store(true, Ordering::SeqCst);
        }
        self.is_lost
    }
}

impl<R: Files<File = File> + Copy> WriteWatch for OwnFile<R> {
    ghost use Rattle.std.specs.Prelude.{◌≡◌, ◌++◌, ◌∷◌, [], true};

    ghost asked = { λ f. f.asked };

    fn is_own(&mut self) -> bool
        ensures told { self.new.asked ≡ self.old.asked ++ result ∷ [] }

        // It says yes only if it has looked, and was shown the file, and never said no.
        ensures yes { IsTrue result
            → (self.old.is_lost ≡ false) × LooksOnce true self.old self.new }
        ensures no { result ≡ false → IsTrue self.new.is_lost }
    {
        let is_own = !self.is_lost();
        self.asked = self.asked.and(&is_own);
        is_own
    }
}
