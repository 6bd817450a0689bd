//! That nobody of the list answers, and when it is said.

ghost use Rattle.std.specs.Prelude.{◌≡◌, ◌≤◌, length};
ghost use Rattle.swim_join.specs.Silences.{asked_anew, heard_nobody, is_due, with_ask};

use crate::intervals::{QUICK_JOINS, has_passed};
use crate::peers::LIST_MAX;
use log::{Log, warn};
use std::fmt::{self, Display, Formatter};
use std::time::{Duration, Instant};
use swim_wire::{Endpoint, Rules};

/// How many rounds of joins of the whole list nobody has answered when it is said.
const ROUNDS: u64 = 2;

/// How many seconds pass at least until it is said again.
const SAID_SECONDS: u64 = 600;

/// How often the list was asked in vain, and when that was said.
#[derive(Clone, Copy, Debug, PartialEq, Eq)]
pub(crate) struct Silence {
    /// How many joins of the list were made since somebody was known, and since the list is this one.
    joins: u32,
    /// When it was said last, since somebody was known.
    said: Option<Instant>,
}

/// Endpoints, with a comma between two.
#[derive(Clone, Copy, Debug)]
struct Listed<'a>(&'a [Endpoint]);

impl Display for Listed<'_> {
    fn fmt<W: fmt::Write>(&self, f: &mut Formatter<W>) -> fmt::Result {
        for (place, endpoint) in self.0.iter().enumerate() {
            let comma = if place == 0 { "" } else { ", " };
            write!(f, "{comma}{endpoint}")?;
        }
        Ok(())
    }
}

impl Silence {
    /// Nobody was asked yet.
    pub(crate) fn new() -> Silence
        ensures { result ≡ heard_nobody }
    {
        Silence {
            joins: 0,
            said: None,
        }
    }

    /// Another list is asked from now on.
    pub(crate) fn begin_again(&mut self)
        ensures { self.new ≡ asked_anew self.old }
    {
        self.joins = 0;
    }

    /// Whether it is to be said: two rounds of joins of so many peers are over, beside those that come quickly at first, and a join of the
    /// third was made; it was not said in the last ten minutes. A clock that cannot be read says no.
    fn is_due(&self, now: Option<Instant>, listed: usize) -> bool
        requires { listed ≤ LIST_MAX }
        ensures { result ≡ is_due self.now listed now }
    {
        let is_over = ROUNDS * (listed as u64) + u64::from(QUICK_JOINS) < u64::from(self.joins);
        let has_rested = has_passed(now, self.said, Duration::from_secs(SAID_SECONDS));
        now.is_some() && is_over && has_rested
    }

    /// One more peer of this list was joined while nobody was known. It is said, if it is due, that none of them answers, with the
    /// four usual reasons.
    pub(crate) fn ask<W: Log>(
        &mut self,
        rt: &W,
        now: Option<Instant>,
        peers: &[Endpoint],
        rules: Rules,
    )
        requires { length peers.now ≤ LIST_MAX }
        ensures { self.new ≡ with_ask peers.now now self.old }
    {
        self.joins = self.joins.saturating_add(1);
        if !self.is_due(now, peers.len()) {
            return;
        }
        self.said = now;
        let (listed, joins, rules) = (Listed(peers), self.joins, rules.code());
        warn!(rt; "alone: none of {listed} has answered {joins} joins: are they up, reachable over UDP, of the same group, and with rules {rules}? They are asked on");
    }
}
