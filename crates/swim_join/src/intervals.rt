//! When a joiner does what.

ghost use Rattle.std.specs.Prelude.{◌≡◌, ◌-◌, ◌≤◌, ◌==◌, nat_le, None, Some, if◌then◌else◌};
ghost use Rattle.std.specs.Duration.{as_nanos};
ghost use Rattle.std.specs.Option.{option_map};
ghost use Rattle.std.specs.Time.{instant_nanos};
ghost use Rattle.swim_member.specs.Checks.{AreSound};
ghost use Rattle.swim_join.specs.Joins.{introduction_rest, lasting, quick_rest, rest_after, search_rest};
ghost use Rattle.swim_join.specs.Moments.{failed_shown, has_passed};

use std::time::{Duration, Instant};
use swim_member::Settings;
use swim_node::Status;

/// How many protocol periods a member that has been alone for long waits before it joins the next peer.
const ALONE_PERIODS: u32 = 3;

/// How many joins of its list a member makes before a lone one waits so long.
pub(crate) const EARLY_JOINS: u32 = 10;

/// After how many joins a lone member asks again before a period is over: the others of a group that starts are up soon.
pub(crate) const QUICK_JOINS: u32 = 3;

/// How many introductions a member makes in the time that an answer takes at most. Each join ends the pages of the one before, which have
/// come by then in a network that is as fast as the settings take it for.
const INTRODUCTIONS_AN_ANSWER: u32 = 16;

/// How many protocol periods pass from one join of a member that is held for failed to the next.
const SEARCH_PERIODS: u32 = 2;

/// How often a joiner does what.
#[derive(Clone, Copy, Debug, PartialEq, Eq)]
pub struct Intervals {
    /// How long a datagram takes there and back, at most.
    pub answer: Duration,
    /// The protocol period, the least from one comparison of rows to the next.
    pub period: Duration,
    /// From one join of a drawn member to the next; none for never.
    pub rejoin: Option<Duration>,
    /// To how many others a member introduces itself at most, one after the other, once somebody has answered it.
    pub introduce: u32,
    /// How long a confirmed member is remembered. By rules 1 so much more time passes until a listed one is asked that is gone from
    /// the rows.
    pub forget: Duration,
}

/// How long so many ticks last.
fn lasting(ticks: u64, tick_ms: u64) -> Duration
    requires ticks { ticks ≤ 1000000 }
    requires tick { tick_ms ≤ 60000 }
    ensures { as_nanos result ≡ lasting ticks tick_ms }
{
    Duration::from_millis(ticks * tick_ms)
}

/// How long nobody has to answer one of the first joins, after so many: 100, 200 and then 400 milliseconds.
fn quick_rest(joins: u32) -> Duration
    ensures { as_nanos result ≡ quick_rest joins }
{
    Duration::from_millis(match joins {
        0 | 1 => 100,
        2 => 200,
        _ => 400,
    })
}

impl Intervals {
    /// Those of a member with these settings, which introduces itself to so many others and joins a drawn one after each `rejoin` ticks,
    /// or never if it is 0. A tick lasts so many milliseconds. An answer is there before others are asked to probe.
    pub fn of(settings: &Settings, introduce: u32, rejoin: u64, tick_ms: u64) -> Intervals
        requires sound { AreSound settings.now }
        requires rejoin { rejoin ≤ 1000000 }
        requires tick { tick_ms ≤ 60000 }
        ensures introduce { result.introduce ≡ introduce }
        ensures answer { as_nanos result.answer ≡ lasting settings.now.direct tick_ms }
        ensures period { as_nanos result.period ≡ lasting settings.now.period tick_ms }
        ensures rejoin { option_map as_nanos result.rejoin
            ≡ (if rejoin == 0 then None else Some (lasting rejoin tick_ms)) }
        ensures forget { as_nanos result.forget ≡ lasting settings.now.forget tick_ms }
    {
        Intervals {
            answer: lasting(settings.direct, tick_ms),
            period: lasting(settings.period, tick_ms),
            rejoin: if rejoin == 0 {
                None
            } else {
                Some(lasting(rejoin, tick_ms))
            },
            introduce,
            forget: lasting(settings.forget, tick_ms),
        }
    }

    /// How long after its last join a member introduces itself to the next.
    pub(crate) fn until_introduction(&self) -> Duration
        ensures { as_nanos result ≡ introduction_rest self.now }
    {
        self.answer / INTRODUCTIONS_AN_ANSWER
    }

    /// How long after its last join a member joins the next one that it looks for, by whether one is back; none if it never rejoins. One
    /// that is back is joined once the pages of the join before it have come.
    pub(crate) fn until_search(&self, is_back: bool) -> Option<Duration>
        ensures { option_map as_nanos result ≡ search_rest self.now is_back }
    {
        let rest = if is_back {
            self.answer
        } else {
            self.period.saturating_mul(SEARCH_PERIODS)
        };
        match self.rejoin {
            Some(rejoin) => Some(rejoin.min(rest)),
            None => None,
        }
    }

    /// How long after its last join a member joins the next peer of its list, after so many joins; none if it does not. At
    /// first each peer is joined once: soon, while nobody has answered, and else after the time in which the pages of rows
    /// come, since a join ends the paging of the one before. Then only a lone member joins them again: quickly at first, each period
    /// for a while, and then now and then.
    pub fn until_next(&self, joins: u32, were_all: bool, is_alone: bool) -> Option<Duration>
        ensures { option_map as_nanos result ≡ rest_after self.now joins were_all is_alone }
    {
        match (were_all, is_alone) {
            (false, true) => Some(self.answer),
            (false, false) => Some(self.period),
            (true, true) if joins <= QUICK_JOINS => Some(quick_rest(joins).min(self.period)),
            (true, true) if joins < EARLY_JOINS => Some(self.period),
            (true, true) => Some(self.period.saturating_mul(ALONE_PERIODS)),
            (true, false) => None,
        }
    }
}

/// What a turn of a joiner goes by.
#[derive(Clone, Copy)]
pub struct Moment {
    /// What the clock reads; none where it cannot be read.
    pub now: Option<Instant>,
    /// Whether the member takes part, and holds nobody for alive or suspected.
    pub is_alone: bool,
    /// How many others the member holds for failed.
    pub failed: usize,
    /// Whether lines at level info are shown.
    pub is_shown: bool,
}

/// How many others a member with this status holds for failed. One whose status is not shown does not say so.
pub(crate) fn failed_shown(status: Option<Status>) -> usize
    ensures { result ≡ failed_shown status }
{
    match status {
        Some(status) => status.confirmed,
        None => 0,
    }
}

/// Whether it is so long from the one time to the other.
fn is_apart(since: Instant, now: Instant, time: Duration) -> bool
    ensures { result ≡ nat_le (as_nanos time) (instant_nanos now - instant_nanos since) }
{
    time.as_nanos() <= now.duration_since(since).as_nanos()
}

/// Whether so long has passed since then. A clock that cannot be read says no.
pub(crate) fn has_passed(now: Option<Instant>, since: Option<Instant>, time: Duration) -> bool
    ensures { result ≡ has_passed now since (as_nanos time) }
{
    match (since, now) {
        (None, _) => true,
        (Some(_), None) => false,
        (Some(since), Some(now)) => is_apart(since, now, time),
    }
}
