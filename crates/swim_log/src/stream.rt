//! Standard error as the log's stream.

ghost use Rattle.std.specs.Prelude.{◌≡◌, ◌+◌, min, IsTrue, false};

use mio::unix::SourceFd;
use mio::{Events, Interest, Poll, Token};
use std::alloc::Global;
use std::net::Net;
use std::os::fd::RawFd;
use std::sync::{Mutex, MutexGuard, Wait};
use std::time::Duration;

/// The descriptor of standard error.
const STANDARD_ERROR: RawFd = 2;

/// What it is watched by.
const WATCHED: Token = Token(0);

/// What tells whether standard error takes a line at once.
#[derive(Drop)]
struct StreamWatch {
    poll: Poll,
    changes: Events<Global>,
}

impl StreamWatch {
    /// A watch of standard error; none where it cannot be watched, as a file, which takes each line.
    fn new<R: Net + AllocGlobal>(rt: &R) -> Option<StreamWatch> {
        let poll = Poll::new(rt).ok()?;
        let changes = Events::with_capacity(rt.alloc(), 1).ok()?;
        let mut stream = SourceFd(&STANDARD_ERROR);
        let registered = poll
            .registry()
            .register(&mut stream, WATCHED, Interest::WRITABLE);
        registered.ok()?;
        Some(StreamWatch { poll, changes })
    }

    /// Whether a line would be taken at once. Watched anew, a stream that takes one says so again.
    fn is_ready(&mut self) -> bool {
        let mut stream = SourceFd(&STANDARD_ERROR);
        let registry = self.poll.registry();
        let watched = registry.reregister(&mut stream, WATCHED, Interest::WRITABLE);
        let polled = self.poll.poll(&mut self.changes, Some(Duration::ZERO));
        watched.is_err() || polled.is_err() || !self.changes.is_empty()
    }
}

/// The log's stream while a line is written.
#[derive(Drop)]
pub(crate) struct Stream {
    watch: Option<StreamWatch>,
    /// How many lines were left out since the last one that was written.
    pub(crate) left_out: u64,
}

impl Stream {
    /// Whether it takes a line at once: else a reader that reads nothing would hold up who writes. A line that it does not
    /// take is counted.
    pub(crate) fn takes_line(&mut self) -> bool
        ensures taken { IsTrue result → self.new.left_out ≡ self.old.left_out }
        ensures left_out { result ≡ false
            → self.new.left_out ≡ min (self.old.left_out + 1) u64.MAX }
    {
        let is_ready = match &mut self.watch {
            Some(watch) => watch.is_ready(),
            None => true,
        };
        if !is_ready {
            self.left_out = self.left_out.saturating_add(1);
        }
        is_ready
    }
}

/// Standard error, to which several threads log.
#[derive(Drop)]
pub struct LogStream {
    stream: Mutex<Stream>,
}

impl LogStream {
    /// The stream of this process.
    pub fn new<R: Net + AllocGlobal>(rt: &R) -> LogStream {
        LogStream {
            stream: Mutex::new(Stream {
                watch: StreamWatch::new(rt),
                left_out: 0,
            }),
        }
    }

    /// The stream, for one thread at a time. None holds it while it waits.
    pub(crate) fn lock<R: Wait>(&self, rt: &R) -> MutexGuard<'_, Stream> {
        self.stream.lock(rt)
    }
}
