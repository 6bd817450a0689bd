//! The log of the worker that tells how the rows of members change: so many of these lines in a minute, and then their count.

ghost use Rattle.std.specs.Prelude.{◌≡◌, ◌≢◌, IfSome, None};

use crate::quota::{Quota, minute_of};
use log::kv::Source;
use log::span::Spans;
use log::{Level, Log, Metadata, Record, info};
use std::cell::Cell;
use std::fmt::Display;
use std::io;
use std::time::{Clock, Duration};

/// The most lines about changes that are written in a minute. So a group that starts is told whole: it has at most 257 rows.
pub const CHANGES_MAX: u32 = 300;

/// The changes of the minute that goes on.
#[derive(Clone, Copy, Debug, PartialEq, Eq)]
struct Minute {
    number: u64,
    quota: Quota,
}

impl Minute {
    /// The minute that a line comes in, and how many lines of the one before were left out, if there were any and that is over.
    fn turned(self, number: u64) -> (Minute, Option<u32>)
        ensures same { self.number ≡ number → result ≡ (self, None) }
        ensures new { self.number ≢ number
            → result.0 ≡ record { number = number; quota = result.0.quota } }
        ensures whole { self.number ≢ number → (result.0.quota.written ≡ 0)
            × (result.0.quota.left_out ≡ 0) }
        ensures told { IfSome result.1 (λ count. count ≡ self.quota.left_out) }
    {
        if self.number == number {
            return (self, None);
        }
        let next = Minute {
            number,
            quota: Quota::WHOLE,
        };
        match self.quota.left_out() {
            0 => (next, None),
            count => (next, Some(count)),
        }
    }
}

/// Writes what it is given to another log, but of the lines at level info no more than `CHANGES_MAX` in a minute. The first one of a
/// later minute, or the next turn, comes after the count of those that were left out. Its clock is the other one's.
#[derive(Drop)]
pub struct ChangeLog<W> {
    rt: W,
    minute: Cell<Minute>,
}

impl<W: Log + Clock> ChangeLog<W> {
    /// Nothing was written yet to this log.
    pub fn new(rt: W) -> ChangeLog<W> {
        ChangeLog {
            rt,
            minute: Cell::new(Minute {
                number: 0,
                quota: Quota::WHOLE,
            }),
        }
    }

    /// Begins another minute, if it is time, and says how many lines were left out in the one before. A clock that cannot be read begins
    /// none.
    pub fn tell_left_out(&self) {
        let Ok(now) = self.rt.monotonic() else {
            return;
        };
        let (minute, left_out) = self.minute.get().turned(minute_of(now));
        self.minute.set(minute);
        if let Some(count) = left_out {
            info!(self.rt; "{count} more changes of members in the same minute; `swim members` shows all rows");
        }
    }

    /// Whether one more line is written in this minute. One that is not is counted.
    fn takes(&self) -> bool {
        self.tell_left_out();
        let mut minute = self.minute.get();
        let takes = minute.quota.takes(CHANGES_MAX);
        self.minute.set(minute);
        takes
    }
}

impl<W: Log + Clock> Log for ChangeLog<W> {
    fn enabled(&self, metadata: &Metadata<'_>) -> bool {
        self.rt.enabled(metadata)
    }

    fn log<D: Display, K: Source, S: Spans>(&self, record: &Record<'_, D, K, S>) {
        if record.level() != Level::Info || self.takes() {
            self.rt.log(record);
        }
    }

    fn flush(&self) {
        self.rt.flush();
    }

    fn target(&self) -> &str {
        self.rt.target()
    }
}

impl<W: Log + Clock> Clock for ChangeLog<W> {
    fn monotonic(&self) -> io::Result<Duration> {
        self.rt.monotonic()
    }

    fn since_1970(&self) -> io::Result<Duration> {
        self.rt.since_1970()
    }
}
