//! Who writes the eras of a member that ended, beside the member.

ghost use Rattle.std.specs.Prelude.{◌≡◌, ◌≤◌, ◌<◌, Some, length};

use crate::folder::Folder;
use log::{Log, warn};
use std::alloc::{AllocError, Global};
use std::io::ErrorKind;
use std::sync::Arc;
use std::sync::atomic::{AtomicBool, Ordering};
use std::thread::{self, JoinHandle, Threads};
use std::time::{Clock, Duration, Instant};
use swim_node::Room;
use swim_record::{EraTime, FileName, Finished, Keeper};
use swim_trace::Trace;

/// How many times as long as the last writer wrote the next one rests first, so that a flood of eras leaves the processors to the
/// member.
const RESTS: u32 = 19;

/// It rests no longer, in milliseconds.
const REST_MAX_MILLIS: u64 = 200;

/// Since when nothing is written, and for how long nothing is to be.
#[derive(Drop)]
struct Rest {
    since: Instant,
    time: Duration,
}

impl Rest {
    /// That of a writer which has written since then until now. None if the clock cannot be read.
    fn after<R: Clock>(rt: &R, begun: &Instant) -> Option<Rest> {
        let written = begun.elapsed(rt).ok()?;
        let time = written.saturating_mul(RESTS);
        Some(Rest {
            since: Instant::now(rt).ok()?,
            time: time.min(Duration::from_millis(REST_MAX_MILLIS)),
        })
    }

    /// Waits for its end, which is now if the clock cannot be read.
    fn wait<R: Clock>(&self, rt: &R) {
        if let Ok(rested) = self.since.elapsed(rt) {
            thread::sleep(rt, self.time.saturating_sub(rested));
        }
    }
}

/// An era that is to be recorded in a folder, under a name, with when it was.
#[derive(Drop)]
struct Named {
    folder: Arc<Folder, Global>,
    name: FileName,
    time: Option<EraTime>,
    era: Finished,
}

/// An era that was written, or could not be.
#[derive(Drop)]
struct Written {
    folder: Arc<Folder, Global>,
    ended: Result<(), ErrorKind>,
    room: Room,
}

impl Named {
    /// Writes its recording.
    fn write(self) -> Written {
        let Named {
            folder,
            name,
            time,
            era,
        } = self;
        let ended = folder.record(name, time, &era);
        Written {
            folder,
            ended: ended.map_err(|error| error.kind()),
            room: era.into_room(),
        }
    }
}

/// What a thread has written, and the rest that is due then.
#[derive(Drop)]
struct Wrote {
    waited: Option<Written>,
    last: Written,
    rest: Option<Rest>,
}

/// What a thread of its own writes: the era that waited, if one did, and the one that ended now.
#[derive(Drop)]
struct Writing {
    clock: HostRuntime,
    is_done: Arc<AtomicBool, Global>,
    waited: Option<Named>,
    last: Named,
    rest: Option<Rest>,
}

impl Writing {
    /// Rests, and then writes it, the era that waited first.
    fn run(self) -> Wrote {
        let Writing {
            clock,
            is_done,
            waited,
            last,
            rest,
        } = self;
        if let Some(rest) = rest {
            rest.wait(&clock);
        }
        let begun = Instant::now(&clock);
        let waited = match waited {
            Some(waited) => Some(waited.write()),
            None => None,
        };
        let last = last.write();
        let rest = match begun {
            Ok(begun) => Rest::after(&clock, &begun),
            Err(_) => None,
        };
        is_done.store(true, Ordering::SeqCst);
        Wrote { waited, last, rest }
    }
}

/// A thread that writes, and whether it is done.
#[derive(Drop)]
struct Writer {
    thread: JoinHandle<Wrote>,
    is_done: Arc<AtomicBool, Global>,
}

/// The folder at this path, for all who use it. An error is that there is no memory for it.
fn folder_at(files: HostRuntime, path: &str, kept: u64) -> Result<Arc<Folder, Global>, AllocError> {
    let path = String::from_str(files.alloc(), path)?;
    Ok(Arc::new(files.alloc(), Folder::new(files, path, kept))?)
}

/// The folder at this path, if there is one. That there is no memory for it is told.
fn shared_folder<T: Log>(
    rt: &T,
    files: HostRuntime,
    path: Option<&str>,
    kept: u64,
) -> Option<Arc<Folder, Global>> {
    match folder_at(files, path?, kept) {
        Ok(folder) => Some(folder),
        Err(_) => {
            warn!(rt; "record refused: memory; no era is recorded");
            None
        }
    }
}

/// Writes eras that it is given into a folder, in a thread of its own, which rests first where the last one has just written. Meanwhile
/// full eras are passed over, and the log tells how many; one that was ended on purpose waits. A folder that takes no file is told once
/// in the log.
#[derive(Drop)]
pub struct Scribe<'a, T> {
    rt: &'a T,
    files: HostRuntime,
    folder: Option<Arc<Folder, Global>>,
    /// The length of a tick, in milliseconds.
    tick: u64,
    /// How many eras it was given.
    eras: u64,
    writer: Option<Writer>,
    /// The rest that is due before the next full era is written.
    rest: Option<Rest>,
    waiting: Option<Named>,
    /// How many eras were passed over since the last recording was begun.
    passed: u64,
    /// The rooms of eras that were written or passed over, which are to be filled again.
    spare: Vec<Room>,
    has_told: bool,
    given: Trace<Finished>,
}

impl<'a, T: Threads + Log + Clock> Scribe<'a, T> {
    ghost use Rattle.std.specs.Prelude.{◌≡◌};

    /// Into the folder at this path, of which so many recordings are kept, of a member whose ticks are to be so many milliseconds long.
    /// Without a path it records nothing.
    pub fn new(
        rt: &'a T,
        files: HostRuntime,
        path: Option<&str>,
        kept: u64,
        tick: u64,
    ) -> Scribe<'a, T> {
        Scribe {
            rt,
            files,
            folder: shared_folder(rt, files, path, kept),
            tick,
            eras: 0,
            writer: None,
            rest: None,
            waiting: None,
            passed: 0,
            spare: Vec::new(files.alloc()),
            has_told: false,
            given: Trace::new(),
        }
    }

    /// Records into the folder at this path from the next era on, of which so many recordings are kept; nothing without a path. What
    /// it was given before goes into the folder of then.
    pub fn redirect(&mut self, path: Option<&str>, kept: u64)
        ensures { self.new.given ≡ self.old.given }
    {
        self.folder = shared_folder(self.rt, self.files, path, kept);
        self.has_told = false;
    }

    /// Tells how the writing into a folder ended: a failure once, until a recording is written again.
    fn tell(&mut self, folder: &Folder, ended: Result<(), ErrorKind>) {
        let has_told = self.has_told;
        self.has_told = ended.is_err();
        if let Err(why) = ended
            && !has_told
        {
            let path = folder.path();
            warn!(self.rt; "record refused in {path}: {why}; the member goes on. Make the folder, room in it, or the right to write there");
        }
    }

    /// Takes what was written: it tells how that ended, and keeps the room. Without memory to keep it, the room is let go.
    fn take(&mut self, written: Written) {
        self.tell(&written.folder, written.ended);
        let _ = self.spare.push(written.room);
    }

    /// Waits until what is written now is written.
    fn collect(&mut self) {
        if let Some(writer) = self.writer.take() {
            let Wrote { waited, last, rest } = writer.thread.join(self.rt);
            if let Some(waited) = waited {
                self.take(waited);
            }
            self.take(last);
            self.rest = rest;
        }
    }

    /// Whether a thread writes now, or rests before it does.
    fn is_busy(&self) -> bool {
        match &self.writer {
            Some(writer) => !writer.is_done.load(Ordering::SeqCst),
            None => false,
        }
    }

    /// Tells how many eras were passed over before this one is recorded.
    fn tell_passed(&mut self, name: FileName) {
        let count = self.passed;
        self.passed = 0;
        if count > 0 {
            warn!(self.rt; "record passed over {count} eras before {name}: they end faster than the folder takes them; take a greater `limit`");
        }
    }

    /// The folder that eras are recorded into now, if there is one.
    fn folder_now(&self) -> Option<Arc<Folder, Global>> {
        Arc::try_clone(self.folder.as_ref()?).ok()
    }

    /// What a thread is to write next.
    fn writing(&mut self, last: Named) -> Option<Writing> {
        let waited = self.waiting.take();
        let rest = self.rest.take();
        let is_done = Arc::new(self.files.alloc(), AtomicBool::new(false)).ok()?;
        Some(Writing {
            clock: self.files,
            is_done,
            waited,
            last,
            rest,
        })
    }

    /// Starts the thread that writes this.
    fn spawn(&mut self, writing: Writing) -> Option<Writer> {
        let is_done = Arc::try_clone(&writing.is_done).ok()?;
        let thread = thread::spawn(self.rt, move || writing.run()).ok()?;
        Some(Writer { thread, is_done })
    }

    /// Has a thread write this era, and the one that waits before it. An era that was ended on purpose is written without a rest.
    fn start(&mut self, last: Named) {
        self.tell_passed(last.name);
        if !last.era.is_full() {
            self.rest = None;
        }
        self.writer = match self.writing(last) {
            Some(writing) => self.spawn(writing),
            None => None,
        };
        if self.writer.is_none()
            && let Some(folder) = self.folder_now()
        {
            self.tell(&folder, Err(ErrorKind::OutOfMemory));
        }
    }

    /// Passes an era over, and takes its room.
    fn pass_over(&mut self, passed: Named)
        ensures { self.new.waiting ≡ self.old.waiting }
    {
        let _ = self.spare.push(passed.era.into_room());
        self.passed = self.passed.saturating_add(1);
    }

    /// Passes a full era over: its room is in the processor's cache, and the next era fills it. One that was ended on purpose waits, in
    /// the place of one that does so already.
    fn stand_by(&mut self, last: Named)
        ensures full { last.era.base.limit ≤ length last.era.entries
            → self.new.waiting ≡ self.old.waiting }
        ensures waits { length last.era.entries < last.era.base.limit
            → self.new.waiting ≡ Some last }
    {
        if last.era.is_full() {
            self.pass_over(last);
        } else if let Some(passed) = self.waiting.replace(last) {
            self.pass_over(passed);
        }
    }

    /// Has an era of this life, which ended now, recorded, now or later.
    fn record(&mut self, life: u64, era: Finished) {
        self.eras = self.eras.saturating_add(1);
        let Some(folder) = self.folder_now() else {
            let _ = self.spare.push(era.into_room());
            return;
        };
        let name = FileName {
            life,
            era: self.eras,
        };
        let time = era.until_now(self.rt, self.tick);
        let last = Named {
            folder,
            name,
            time,
            era,
        };
        if self.is_busy() {
            self.stand_by(last);
        } else {
            self.collect();
            self.start(last);
        }
    }

    /// Waits until all that it was given is written.
    pub fn finish(mut self) {
        self.collect();
        if let Some(last) = self.waiting.take() {
            self.rest = None;
            self.start(last);
            self.collect();
        }
    }
}

impl<'a, T: Threads + Log + Clock> Keeper for Scribe<'a, T> {
    ghost use Rattle.std.specs.Prelude.{◌≡◌, ◌++◌, ◌∷◌, [], is_some};

    ghost given = { λ r. r.given };

    ghost keeps = { λ r. is_some r.folder };

    fn is_on(&self) -> bool {
        self.folder.is_some()
    }

    fn keep(&mut self, life: u64, era: Finished) -> Option<Room> {
        let given = self.given.and(&era);
        self.record(life, era);
        self.given = given;
        self.spare.pop()
    }
}
