//! Reads of watches, while nothing goes on, while calls do, and while a save is held.

use super::member::Member;
use super::threads::{time_beside, time_threads};
use std::sync::atomic::{AtomicBool, Ordering};
use std::thread::{self, Threads};
use std::time::{Clock, Duration};
use swim_disk::Plan;
use swim_member::{Deal, Event};
use swim_scenes::suspicion;

/// Makes so many reads of a watch. False where not all gave a status.
fn read_all<M: Member>(member: &M, mut watch: M::Watch, count: u32) -> bool {
    let mut read = 0u32;
    for _ in 0..count {
        if member.shows(&mut watch) {
            read = read.wrapping_add(1);
        }
    }
    read == count
}

/// The time of so many reads of each watch, and of nothing else.
pub(super) fn time_reads<M: Member, R: Threads + Clock + Sync>(
    rt: &R,
    member: &M,
    watches: Vec<M::Watch>,
    count: u32,
) -> Option<Duration> {
    time_threads(rt, watches, &|watch| read_all(member, watch, count))
}

/// Makes calls until the flag is up. False where one was refused before.
fn call_until<M: Member>(member: &M, mut pass: M::Pass, is_over: &AtomicBool) -> bool {
    let deal = Deal::from_first(0);
    for _ in 0..u32::MAX {
        if is_over.load(Ordering::SeqCst) {
            return true;
        }
        if !member.answers(&mut pass, Event::Tick { deal }) {
            return false;
        }
    }
    false
}

/// The time of so many reads of each watch, while a pass makes calls.
pub(super) fn time_beside_calls<M: Member, R: Threads + Clock + Sync>(
    rt: &R,
    member: &M,
    pass: M::Pass,
    watches: Vec<M::Watch>,
    count: u32,
) -> Option<Duration> {
    time_beside(
        rt,
        || time_reads(rt, member, watches, count),
        |is_over| call_until(member, pass, is_over),
    )
}

/// A call that saves. Whether it was answered.
fn call_and_save<M: Member>(member: &M, mut pass: M::Pass) -> bool {
    match suspicion(1) {
        Some(event) => member.answers(&mut pass, event),
        None => false,
    }
}

/// The time of the reads, where the save was held all the while. Then it goes on.
fn read_while_held<M: Member, R: Threads + Clock + Sync>(
    rt: &R,
    member: &M,
    watches: Vec<M::Watch>,
    count: u32,
    plan: &Plan,
) -> Option<Duration> {
    for _ in 0..1_000_000 {
        if plan.is_held() {
            break;
        }
        thread::yield_now();
    }
    let took = time_reads(rt, member, watches, count);
    let was_held = plan.is_held();
    plan.go_on();
    if was_held { took } else { None }
}

/// The time of so many reads of each watch, while the plan holds the save of a call.
pub(super) fn time_beside_save<M: Member, R: Threads + Clock + Sync>(
    rt: &R,
    member: &M,
    pass: M::Pass,
    watches: Vec<M::Watch>,
    plan: &Plan,
    count: u32,
) -> Option<Duration> {
    plan.hold_sync();
    time_beside(
        rt,
        || read_while_held(rt, member, watches, count, plan),
        |_| call_and_save(member, pass),
    )
}
