//! What a joiner works by where nobody reads its log.

use log::kv::Source;
use log::span::Spans;
use log::{Log, Metadata, Record};
use std::fmt::Display;
use std::io;
use std::time::{Clock, Duration};

/// A clock that reads so many milliseconds, and a log that keeps nothing.
#[derive(Clone, Copy, Debug, PartialEq, Eq)]
pub struct QuietClock {
    /// What it reads.
    pub millis: u64,
}

impl Clock for QuietClock {
    fn monotonic(&self) -> io::Result<Duration> {
        Ok(Duration::from_millis(self.millis))
    }

    fn since_1970(&self) -> io::Result<Duration> {
        self.monotonic()
    }
}

impl Log for QuietClock {
    fn enabled(&self, _metadata: &Metadata<'_>) -> bool {
        false
    }

    fn log<D: Display, K: Source, S: Spans>(&self, _record: &Record<'_, D, K, S>) {}

    fn flush(&self) {}

    fn target(&self) -> &str {
        ""
    }
}
