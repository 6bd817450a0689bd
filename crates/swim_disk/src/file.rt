//! A file of the operating system, as a disk.

ghost use Rattle.std.specs.Prelude.{◌≡◌, ◌+◌, ◌≤◌, ◌++◌, ◌∷◌, [], length, IfOk, OnOk, OnErr};
ghost use Rattle.swim_disk.specs.declared.mem.TheConstants.{MOST_BYTES};
ghost use Rattle.swim_disk.specs.declared.past.Call.TheVariants.{Write, Sync};

use crate::cached::{CachedFile, Span};
use crate::count::Count;
use crate::mem::overlay;
use crate::open_file::OpenFile;
use crate::past::Call;
use crate::{Disk, DiskFault, MOST_BYTES};
use std::alloc::{AllocError, Global};
use std::fs::{File, Files, OpenOptions};
use std::marker::Model;
use std::os::fd::{AsRawFd, OwnedFd};
use std::os::unix::fs::MetadataExt;
use std::path::AsPath;
use std::{io, mem};
use swim_trace::Trace;

/// A file of the operating system, of which the first [`MOST_BYTES`] bytes are the disk. It is read once, when it is
/// opened, and then its bytes are kept in memory, so that a read gives what was found and written, whatever the system
/// does with its own memory. A write past the end writes the zero bytes of the gap too, so that each block of the file has
/// its place, and a full disk refuses this write and not a later one. After a failed write or sync it writes again all that
/// it wrote since the last sync that said Ok, before it syncs anew: the system may have let it go.
///
/// A write takes memory for what is past the end, for its own bytes, and for the range of each write until a sync has kept
/// it. All of it is used again. So where each write is synced before the next one, a write takes none if it is within the
/// bytes that there are and not longer than an earlier one.
///
/// That a crash leaves an image of its state is the premise of its user: that the system keeps what it has written and
/// synced with no failure between them, and that nobody else writes the file.
#[derive(Drop)]
pub struct FileDisk {
    alloc: Global,
    number: u64,
    file: CachedFile<OpenFile>,
    content: Vec<u8>,
    calls: Trace<Call>,
    /// The room in which a write's bytes stand while it is noted among the calls.
    noted: Vec<u8>,
    /// What was written since the last sync that said Ok.
    unsynced: Vec<Span>,
    is_stale: bool,
    failures: Count,
    asked: Count,
}

impl Model for FileDisk {
    ghost use Rattle.swim_disk.specs.Count.{count_of};
    ghost use Rattle.swim_disk.specs.Deeds.{backing_of};
    ghost use Rattle.swim_disk.specs.File.{FileView, IsFile};

    ghost Value = { FileView };

    ghost view = { λ f. record {
      name = f.number;
      calls = f.calls;
      failures = count_of f.failures;
      asked = count_of f.asked;
      deeds = f.file.below.deeds;
    } };

    ghost invariant = { λ f. IsFile f.content.items f.unsynced.items
        f.calls f.is_stale (backing_of f.file.below.deeds) };
}

/// The calls with a write more, for contracts alone. Its bytes come back.
fn with_write(calls: &Trace<Call>, at: u64, bytes: Vec<u8>) -> (Trace<Call>, Vec<u8>)
    ensures calls { result.0 ≡ calls.now ++ Write at bytes ∷ [] }
    ensures back { result.1 ≡ bytes }
{
    let call = Call::Write { at, bytes };
    let calls = calls.and(&call);
    match call {
        Call::Write { at: _, bytes } => (calls, bytes),
        Call::Sync => unreachable!(),
    }
}

impl FileDisk {
    ghost use Rattle.std.specs.Prelude.{IsErr};
    ghost use Rattle.swim_disk.specs.Disk.{IsSettled, overlaid};
    ghost use Rattle.swim_disk.specs.File.{Finds, HasAll, Puts, file_state};

    /// A disk over this file, which is open for reading and writing. It syncs the file and reads it as the disk below has
    /// it, so that a crash from now on leaves what it read. An error is the system's, or there was no memory.
    pub fn load(alloc: Global, file: File) -> io::Result<FileDisk>
        ensures settled { IfOk result (λ disk. IsSettled (file_state disk)) }
        ensures found { IfOk result Finds }
        ensures has_all { IfOk result HasAll }
    {
        let number = file.metadata()?.ino();
        FileDisk::load_numbered(alloc, number, OwnedFd::from(file))
    }

    /// The same over the file of a descriptor. It is closed where the disk is dropped.
    pub fn load_descriptor(alloc: Global, fd: OwnedFd) -> io::Result<FileDisk>
        ensures settled { IfOk result (λ disk. IsSettled (file_state disk)) }
        ensures found { IfOk result Finds }
        ensures has_all { IfOk result HasAll }
    {
        let number = u64::from(fd.as_raw_fd().unsigned_abs());
        FileDisk::load_numbered(alloc, number, fd)
    }

    /// The same, by the name that contracts give it.
    fn load_numbered(alloc: Global, number: u64, fd: OwnedFd) -> io::Result<FileDisk>
        ensures settled { IfOk result (λ disk. IsSettled (file_state disk)) }
        ensures found { IfOk result Finds }
        ensures has_all { IfOk result HasAll }
    {
        let (file, found) = CachedFile::load(alloc, OpenFile::new(fd))?;
        let (calls, content) = with_write(&Trace::new(), 0, found);
        Ok(FileDisk {
            alloc,
            number,
            file,
            content,
            calls: calls.and(&Call::Sync),
            noted: Vec::new(alloc),
            unsynced: Vec::new(alloc),
            is_stale: false,
            failures: Count::new(),
            asked: Count::new(),
        })
    }

    /// A disk over the file at this path, which has to be there.
    pub fn open<R: Files<File = File>, P: AsPath>(
        alloc: Global,
        files: &R,
        path: P,
    ) -> io::Result<FileDisk> {
        let file = OpenOptions::new().read(true).write(true).open(files, path)?;
        FileDisk::load(alloc, file)
    }

    /// A disk over a new and empty file at this path, where nothing may be.
    pub fn create<R: Files<File = File>, P: AsPath>(
        alloc: Global,
        files: &R,
        path: P,
    ) -> io::Result<FileDisk> {
        let mut options = OpenOptions::new();
        let file = options
            .read(true)
            .write(true)
            .create_new(true)
            .open(files, path)?;
        FileDisk::load(alloc, file)
    }

    /// Makes a write, in memory and in the file, with the gap before it. It gives what the system answered: what it refused
    /// is written again before the next sync. Err: there was no memory, and nothing was done.
    fn put(&mut self, at: u64, bytes: &[u8]) -> Result<io::Result<()>, AllocError>
        requires { at + length bytes.now ≤ MOST_BYTES }
        ensures given { IfOk result (λ written. Puts at bytes.now written self.old self.new) }
        ensures rest { OnOk result (self.new ≡ record self.old {
          calls = self.new.calls;
          deeds = self.new.deeds;
        }) }
        ensures same { OnErr result (self.new ≡ self.old) }
    {
        let span = Span {
            from: at.min(self.content.len() as u64),
            until: at + bytes.len() as u64,
        };
        self.unsynced.reserve(1)?;
        self.noted.clear();
        self.noted.extend_from_slice(bytes)?;
        overlay(&mut self.content, at, bytes)?;
        self.unsynced.push_reserved(span);
        let noted = mem::replace(&mut self.noted, Vec::new(self.alloc));
        let (calls, noted) = with_write(&self.calls, at, noted);
        self.calls = calls;
        self.noted = noted;
        let written = self.file.write_span(&self.content, span);
        self.is_stale |= written.is_err();
        Ok(written)
    }

    /// Syncs the file, after it has written again what it may have lost.
    fn settle(&mut self) -> io::Result<()>
        ensures done { OnOk result (self.new ≡ record self.old {
          calls = self.old.calls ++ Sync ∷ [];
          deeds = self.new.deeds;
        }) }
        ensures has_all { OnOk result (HasAll self.new) }
        ensures failed { OnErr result (self.new ≡ record self.old { deeds = self.new.deeds }) }
    {
        let settled = self
            .file
            .settle(&self.content, &self.unsynced, self.is_stale);
        match &settled {
            Ok(()) => {
                self.calls = self.calls.and(&Call::Sync);
                self.unsynced.clear();
                self.is_stale = false;
            }
            Err(_) => self.is_stale = true,
        }
        settled
    }
}

impl Disk for FileDisk {
    ghost use Rattle.std.specs.Prelude.{◌<◌, take, drop, IfErr, IsOk};
    ghost use Rattle.swim_disk.specs.Disk.{Counts, Rests, Syncs, Writes};
    ghost use Rattle.swim_disk.specs.File.{file_state, Gives, HasAll, KeepsSynced};

    ghost state = { λ f. file_state f };

    ghost keeps_model = { Unit {0} };

    fn len(&mut self) -> Result<u64, DiskFault> {
        self.asked.add();
        Ok(self.content.len() as u64)
    }

    fn read_at(&mut self, at: u64, buffer: &mut [u8]) -> Result<(), DiskFault> {
        self.asked.add();
        let len = self.content.len() as u64;
        if at > len || buffer.len() as u64 > len - at {
            return Err(self.failures.fail(DiskFault::PastEnd));
        }
        let at = at as usize;
        buffer.copy_from_slice(&self.content[at..at + buffer.len()]);
        Ok(())
    }

    fn write_at(&mut self, at: u64, bytes: &[u8]) -> Result<(), DiskFault>
        ensures counts { Counts result (file_state self.old) (file_state self.new) }
        ensures asked { (file_state self.new).calls ≡ (file_state self.old).calls + 1 }
        ensures writes { Writes at bytes.now result (file_state self.old) (file_state self.new) }

        // The file gets these bytes, or there was no room or no memory, and nothing was done. The disk below keeps what was
        // synced, but for what was written since.
        ensures given { Gives at bytes.now result self.old self.new }
        ensures kept { KeepsSynced self.new }
    {
        self.asked.add();
        if at > MOST_BYTES || bytes.len() as u64 > MOST_BYTES - at {
            return Err(self.failures.fail(DiskFault::NoRoom));
        }
        match self.put(at, bytes) {
            Ok(Ok(())) => Ok(()),
            Ok(Err(_)) => Err(self.failures.fail(DiskFault::System)),
            Err(_) => Err(self.failures.fail(DiskFault::NoMemory)),
        }
    }

    fn sync(&mut self) -> Result<(), DiskFault>
        ensures counts { Counts result (file_state self.old) (file_state self.new) }
        ensures asked { (file_state self.new).calls ≡ (file_state self.old).calls + 1 }
        ensures syncs { Syncs result (file_state self.old) (file_state self.new) }

        // After Ok the disk below has all, also what an earlier failure may have lost.
        ensures has_all { OnOk result (HasAll self.new) }
        ensures kept { KeepsSynced self.new }
    {
        self.asked.add();
        match self.settle() {
            Ok(()) => Ok(()),
            Err(_) => Err(self.failures.fail(DiskFault::System)),
        }
    }
}
