//! Calls, by one thread and by many.

use super::member::Member;
use super::slow_link::SlowLink;
use super::threads::time_threads;
use std::alloc::Global;
use std::thread::Threads;
use std::time::{Clock, Duration, Instant};
use swim_member::{Deal, Event};
use swim_node::Tag;
use swim_scenes::{opened_by_plan, ping};

/// What a member is told.
#[derive(Clone, Copy, Debug, PartialEq, Eq)]
pub(crate) enum What {
    /// A tick, at which it sends nothing.
    Tick,
    /// A ping, which it acks.
    Ping,
}

/// Calls of each pass, each on a thread of its own.
#[derive(Clone, Copy, Debug, PartialEq, Eq)]
pub(crate) struct Calls {
    /// What each call tells the member.
    pub(crate) what: What,
    /// How many calls each pass makes.
    pub(crate) count: u32,
}

impl Calls {
    /// The next event, of which a tick deals so.
    fn event(&self, deal: Deal) -> Option<Event> {
        match self.what {
            What::Tick => Some(Event::Tick { deal }),
            What::Ping => ping(1, &[]),
        }
    }
}

/// Makes the calls of a pass. False where one was refused.
fn call_all<M: Member>(member: &M, mut pass: M::Pass, calls: Calls) -> bool {
    let deal = Deal::from_first(0);
    for _ in 0..calls.count {
        let Some(event) = calls.event(deal) else {
            return false
        };
        if !member.answers(&mut pass, event) {
            return false;
        }
    }
    true
}

/// The time of the calls of all passes. None where there is no memory, or one was refused.
pub(super) fn time_calls<M: Member, R: Threads + Clock + Sync>(
    rt: &R,
    member: &M,
    passes: Vec<M::Pass>,
    calls: Calls,
) -> Option<Duration> {
    time_threads(rt, passes, &|pass| call_all(member, pass, calls))
}

/// The time of so many ticks of a node without a lock.
pub(super) fn applied<R: Clock>(rt: &R, alloc: Global, count: u32) -> Option<Duration> {
    let (mut node, _) = opened_by_plan(alloc, count)?;
    let mut link = SlowLink::new(rt);
    let deal = Deal::from_first(0);
    let start = Instant::now(rt).ok()?;
    for turn in 0..count {
        let tag = Tag {
            caller: 0,
            turn: turn + 1,
        };
        node.apply(&mut link, tag, Event::Tick { deal }).ok()?;
    }
    start.elapsed(rt).ok()
}
