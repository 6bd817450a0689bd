//! Moments and lengths of time, as a person reads them.

use crate::account::Account;
use jiff::Timestamp;
use std::fmt::{self, Display, Formatter};

/// Milliseconds in an hour, a minute and a second.
const HOUR: u64 = 3_600_000;

const MINUTE: u64 = 60_000;

const SECOND: u64 = 1000;

/// A moment as the time of its day, in UTC, to the tenth of a second: `00:48:32.4Z`.
#[derive(Clone, Copy)]
pub(crate) struct TimeOfDay(pub(crate) u64);

impl Display for TimeOfDay {
    fn fmt<W: fmt::Write>(&self, f: &mut Formatter<W>) -> fmt::Result {
        let at = self.0;
        let (hours, minutes) = (at / HOUR % 24, at / MINUTE % 60);
        let (seconds, tenths) = (at / SECOND % 60, at / 100 % 10);
        write!(f, "{hours:02}:{minutes:02}:{seconds:02}.{tenths}Z")
    }
}

/// The day of a moment, counted from the first of January 1970.
pub(crate) fn day_of(at: u64) -> u64 {
    at / (24 * HOUR)
}

/// A moment as RFC 3339 writes it, to the millisecond. None beyond the year 9999.
pub(crate) fn stamp_of(at: u64) -> Option<Timestamp> {
    Timestamp::from_millisecond(i64::try_from(at).ok()?).ok()
}

/// A length of time in seconds: `5 s`, `2.5 s`.
#[derive(Clone, Copy)]
pub(crate) struct Seconds(pub(crate) u64);

impl Display for Seconds {
    fn fmt<W: fmt::Write>(&self, f: &mut Formatter<W>) -> fmt::Result {
        let (whole, tenths) = (self.0 / SECOND, self.0 / 100 % 10);
        if tenths == 0 {
            write!(f, "{whole} s")
        } else {
            write!(f, "{whole}.{tenths} s")
        }
    }
}

/// So many ticks, as a length of time where the length of one is known.
#[derive(Clone, Copy)]
pub(crate) struct Ticks(pub(crate) u64, pub(crate) Option<u64>);

impl Display for Ticks {
    fn fmt<W: fmt::Write>(&self, f: &mut Formatter<W>) -> fmt::Result {
        let Ticks(count, length) = *self;
        match length {
            Some(length) => {
                let seconds = Seconds(count.saturating_mul(length));
                write!(f, "{seconds}")
            }
            None => write!(f, "{count} ticks"),
        }
    }
}

/// When an account was: its time of day, or its tick.
#[derive(Clone, Copy)]
pub(crate) struct When(pub(crate) Account);

impl Display for When {
    fn fmt<W: fmt::Write>(&self, f: &mut Formatter<W>) -> fmt::Result {
        match self.0.at {
            Some(at) => {
                let time = TimeOfDay(at);
                write!(f, "{time}")
            }
            None => {
                let tick = self.0.happening.tick;
                write!(f, "tick {tick}")
            }
        }
    }
}
