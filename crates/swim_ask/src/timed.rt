//! Lines with the time at which they are told.

use jiff::Timestamp;
use std::fmt::{self, Display, Formatter};
use std::rt::Clock;

/// When something is told: in UTC as RFC 3339 writes it, to the millisecond; `-` where the clock fails.
#[derive(Clone, Copy)]
struct ToldTime(Option<Timestamp>);

impl Display for ToldTime {
    fn fmt<W: fmt::Write>(&self, f: &mut Formatter<W>) -> fmt::Result {
        match &self.0 {
            Some(time) => write!(f, "{time:.3}"),
            None => write!(f, "-"),
        }
    }
}

/// What is told, behind the time at which it is.
#[derive(Clone, Copy)]
pub(crate) struct Timed<D> {
    at: ToldTime,
    told: D,
}

impl<D> Timed<D> {
    /// What is told now.
    pub(crate) fn now<R: Clock>(rt: &R, told: D) -> Timed<D> {
        let at = ToldTime(Timestamp::now(rt).ok());
        Timed { at, told }
    }
}

impl<D: Display> Display for Timed<D> {
    fn fmt<W: fmt::Write>(&self, f: &mut Formatter<W>) -> fmt::Result {
        let Timed { at, told } = self;
        write!(f, "{at} {told}")
    }
}

/// The same as a JSON object, whose first value is the time.
#[derive(Clone, Copy)]
pub(crate) struct TimedJson<D>(pub(crate) Timed<D>);

impl<D: Display> Display for TimedJson<D> {
    fn fmt<W: fmt::Write>(&self, f: &mut Formatter<W>) -> fmt::Result {
        let Timed { at, told } = &self.0;
        write!(f, "{{\"time\":\"{at}\",{told}}}")
    }
}
