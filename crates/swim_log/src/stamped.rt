//! The log on standard error.

use crate::level::LogLevel;
use crate::stream::LogStream;
use jiff::Timestamp;
use log::kv::Source;
use log::span::Spans;
use log::{Log, Metadata, Record};
use std::fmt::{self, Display, Formatter};
use std::rt::Clock;
use std::sync::Wait;

/// Writes each record to standard error in one write, with the time before it. A record that standard error does not take at
/// once is left out, and the next one says how many were.
#[derive(Clone, Copy, Drop)]
pub struct Stamped<'a, R> {
    rt: R,
    stream: &'a LogStream,
    level: &'a LogLevel,
}

impl<'a, R> Stamped<'a, R> {
    /// A log on this stream, of the lines of this level and above.
    pub fn new(rt: R, stream: &'a LogStream, level: &'a LogLevel) -> Stamped<'a, R> {
        Stamped { rt, stream, level }
    }
}

/// How many lines were left out before one, in words behind it.
#[derive(Clone, Copy, Debug)]
struct LeftOut(u64);

impl Display for LeftOut {
    fn fmt<W: fmt::Write>(&self, f: &mut Formatter<W>) -> fmt::Result {
        match self.0 {
            0 => Ok(()),
            count => write!(
                f,
                " ({count} lines before it were left out, since nobody read the log)"
            ),
        }
    }
}

impl<'a, R: Eprint + Clock + Wait> Log for Stamped<'a, R> {
    fn enabled(&self, metadata: &Metadata<'_>) -> bool {
        self.level.allows(metadata.level())
    }

    fn log<D: Display, K: Source, S: Spans>(&self, record: &Record<'_, D, K, S>) {
        if !self.level.allows(record.level()) {
            return;
        }
        let mut stream = self.stream.lock(&self.rt);
        if !stream.takes_line() {
            return;
        }
        let (level, line) = (record.level(), record.args());
        let left_out = LeftOut(stream.left_out);
        stream.left_out = 0;
        let _ = match Timestamp::now(&self.rt) {
            Ok(now) => eprintln!(self.rt; "{now:.3} [{level:<5}] {line}{left_out}"),
            Err(_) => eprintln!(self.rt; "- [{level:<5}] {line}{left_out}"),
        };
    }

    fn flush(&self) {}

    fn target(&self) -> &str {
        ""
    }
}
