//! Standard output, and whether somebody reads it.

use mio::unix::SourceFd;
use mio::{Events, Interest, Poll, Token};
use std::alloc::Global;
use std::net::Net;
use std::os::fd::RawFd;
use std::rt::Clock;
use std::time::Duration;
use std::{io, thread};
use swim_exit::Exit;

/// The descriptor of standard output.
const STANDARD_OUTPUT: RawFd = 1;

/// What it is watched by.
const WATCHED: Token = Token(0);

/// What tells that the last reader of standard output has gone.
#[derive(Drop)]
struct OutputWatch {
    poll: Poll,
    changes: Events<Global>,
}

impl OutputWatch {
    /// A watch of standard output; none where it cannot be watched, as a file. That nobody reads is told whatever is asked for, and
    /// of what is asked for here nothing comes.
    fn new<R: Net + AllocGlobal>(rt: &R) -> Option<OutputWatch> {
        let poll = Poll::new(rt).ok()?;
        let changes = Events::with_capacity(rt.alloc(), 1).ok()?;
        let mut stream = SourceFd(&STANDARD_OUTPUT);
        let registered = poll
            .registry()
            .register(&mut stream, WATCHED, Interest::PRIORITY);
        registered.ok()?;
        Some(OutputWatch { poll, changes })
    }

    /// Waits so long, or until the last reader goes, and says whether it has.
    fn is_left_within(&mut self, time: Duration) -> io::Result<bool> {
        self.poll.poll(&mut self.changes, Some(time))?;
        Ok(
            self.changes
                .iter()
                .any(|change| change.is_error() || change.is_write_closed()),
        )
    }
}

/// Standard output.
#[derive(Drop)]
pub(crate) struct Output {
    watch: Option<OutputWatch>,
}

impl Output {
    /// That of this process.
    pub(crate) fn new<R: Net + AllocGlobal>(rt: &R) -> Output {
        Output {
            watch: OutputWatch::new(rt),
        }
    }

    /// Waits so long. An error says that nobody reads it any more.
    pub(crate) fn wait<C: Clock>(&mut self, clock: &C, time: Duration) -> Result<(), Exit> {
        let is_left = match &mut self.watch {
            Some(watch) => watch.is_left_within(time).ok(),
            None => None,
        };
        match is_left {
            Some(true) => Err(Exit::Unread),
            Some(false) => Ok(()),
            None => {
                thread::sleep(clock, time);
                Ok(())
            }
        }
    }
}
