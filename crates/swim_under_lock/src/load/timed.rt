//! What is timed of a shared member.

ghost use Rattle.std.specs.Prelude.{◌≡◌, ◌<◌, ◌≤◌, []};

use super::calls::{Calls, time_calls};
use super::member::Member;
use super::reads::{time_beside_calls, time_beside_save, time_reads};
use super::sends::time_beside_sender;
use super::slow_link::SlowLink;
use crate::era::{Done, Work, era};
use std::alloc::Global;
use std::sync::Wait;
use std::thread::Threads;
use std::time::{Clock, Duration};
use swim_disk::{Disk, Plan};
use swim_node::{Link, Node};
use swim_scenes::Device;
use swim_shared::{Parts, Sender};

/// What is timed of a shared member.
#[derive(Drop)]
pub(crate) enum Timed {
    /// Calls of all passes.
    Calls(Calls),
    /// So many reads of each watch, and nothing else.
    Reads(u32),
    /// So many reads of each watch, while one more thread makes calls.
    ReadsBesideCalls(u32),
    /// So many reads of each watch, while the plan holds a save inside a call.
    ReadsBesideSave(Plan, u32),
    /// Calls of all passes, beside the sender of the member's outbox.
    CallsBesideSender(Calls, Sender),
}

impl Timed {
    /// How long it took. None where there is no memory, or it did not end as it should.
    pub(crate) fn took<M: Member, R: Threads + Clock + Sync>(
        self,
        rt: &R,
        member: &M,
        mut passes: Vec<M::Pass>,
        watches: Vec<M::Watch>,
    ) -> Option<Duration> {
        match self {
            Timed::Calls(calls) => time_calls(rt, member, passes, calls),
            Timed::Reads(count) => time_reads(rt, member, watches, count),
            Timed::ReadsBesideCalls(count) => {
                time_beside_calls(rt, member, passes.pop()?, watches, count)
            }
            Timed::ReadsBesideSave(plan, count) => {
                time_beside_save(rt, member, passes.pop()?, watches, &plan, count)
            }
            Timed::CallsBesideSender(calls, sender) => {
                time_beside_sender(rt, member, passes, calls, sender)
            }
        }
    }
}

/// The time of it in an era of these parts.
pub(super) fn time_of<
    D: Disk + Drop + Send,
    L: Link + Drop + Send,
    R: Threads + Wait + Clock + Sync,
>(rt: &R, alloc: Global, parts: Parts<D, L>, timed: Timed) -> Option<Duration> {
    match era(rt, alloc, parts, Work::Load(timed))? {
        Done::Load(took) => Some(took),
        _ => None,
    }
}

/// The time of it on a member whose link sends under the lock.
pub(super) fn direct<R: Threads + Wait + Clock + Sync>(
    rt: &R,
    alloc: Global,
    node: Node<Device>,
    callers: u8,
    watches: u8,
    timed: Timed,
) -> Option<Duration>
    requires empty { node.entries ≡ [] }
    requires callers { (0 < callers) × (callers ≤ 16) }
    requires watches { watches ≤ 16 }
{
    let parts = Parts::new(node, SlowLink::new(rt), callers, watches);
    time_of(rt, alloc, parts, timed)
}
