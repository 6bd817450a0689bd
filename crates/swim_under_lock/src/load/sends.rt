//! Calls whose datagrams an outbox takes, beside the sender that hands them to a slow link.

ghost use Rattle.std.specs.Prelude.{◌≡◌, ◌<◌, ◌≤◌};

use super::PLACES;
use super::calls::{Calls, What, time_calls};
use super::member::Member;
use super::slow_link::SlowLink;
use super::threads::time_beside;
use super::timed::{Timed, time_of};
use std::alloc::Global;
use std::sync::Wait;
use std::sync::atomic::{AtomicBool, Ordering};
use std::thread::{self, Threads};
use std::time::{Clock, Duration};
use swim_scenes::opened_by_plan;
use swim_shared::{Outbox, Parts, Sender};

/// Hands the ring's datagrams to the link until the flag is up. False where it never was.
fn send_until<'a, C: Clock>(
    mut sender: Sender,
    mut link: SlowLink<'a, C>,
    is_over: &AtomicBool,
) -> bool {
    for _ in 0..u64::MAX {
        if is_over.load(Ordering::SeqCst) {
            return true;
        }
        sender.turn(&mut link);
        thread::yield_now();
    }
    false
}

/// The time of the calls, while a sender hands what the outbox took to a slow link.
pub(super) fn time_beside_sender<M: Member, R: Threads + Clock + Sync>(
    rt: &R,
    member: &M,
    passes: Vec<M::Pass>,
    calls: Calls,
    sender: Sender,
) -> Option<Duration> {
    time_beside(
        rt,
        || time_calls(rt, member, passes, calls),
        |is_over| send_until(sender, SlowLink::new(rt), is_over),
    )
}

/// The time of so many pings of each caller, whose acks an outbox takes.
pub(super) fn sent_by_outbox<R: Threads + Wait + Clock + Sync>(
    rt: &R,
    alloc: Global,
    callers: u8,
    count: u32,
) -> Option<Duration>
    requires { (0 < callers) × (callers ≤ 16) }
{
    let (node, _) = opened_by_plan(alloc, count.checked_mul(u32::from(callers))?)?;
    let (outbox, sender) = Outbox::new(alloc, PLACES).ok()?;
    let parts = Parts::new(node, outbox, callers, 0);
    let calls = Calls {
        what: What::Ping,
        count,
    };
    time_of(rt, alloc, parts, Timed::CallsBesideSender(calls, sender))
}
