//! The lock and the outbox under load, timed.

ghost use Rattle.std.specs.Prelude.{◌<◌, ◌≤◌};

mod calls;
mod member;
mod reads;
mod ring;
mod sends;
mod slow_link;
mod threads;
mod timed;

use calls::{Calls, What, applied};
pub(crate) use member::Locked;
use ring::through_ring;
use sends::sent_by_outbox;
use std::alloc::Global;
use std::fmt::{self, Display, Formatter, Write};
use std::io;
use std::sync::Wait;
use std::thread::Threads;
use std::time::{Clock, Duration};
use swim_node::LIMIT_MAX;
use swim_scenes::opened_by_plan;
pub(crate) use timed::Timed;
use timed::direct;

/// The most callers, and the most watches, of a member.
const THREADS_MAX: u8 = 16;

/// The places of an outbox.
const PLACES: usize = 256;

/// A load, each of whose threads takes so many turns.
#[derive(Clone, Copy, Debug, PartialEq, Eq)]
enum Load {
    /// Ticks that one thread hands to a node, without a lock.
    Apply,
    /// Ticks as calls.
    Calls,
    /// Reads of watches.
    Reads,
    /// Reads of watches while one more thread makes calls.
    ReadsBesideCalls,
    /// Reads of watches while a save is held inside a call.
    ReadsBesideSave,
    /// Pings as calls, over a link that takes a millisecond for each ack.
    DirectSends,
    /// The same over an outbox, whose sender hands the acks to that link.
    OutboxSends,
    /// Datagrams that one thread puts into an outbox, and another takes out.
    Ring,
}

impl Load {
    /// All loads.
    const ALL: [Load; 8] = [
        Load::Apply,
        Load::Calls,
        Load::Reads,
        Load::ReadsBesideCalls,
        Load::ReadsBesideSave,
        Load::DirectSends,
        Load::OutboxSends,
        Load::Ring,
    ];

    /// Its word.
    fn word(self) -> &'static str {
        match self {
            Load::Apply => "apply",
            Load::Calls => "calls",
            Load::Reads => "reads",
            Load::ReadsBesideCalls => "reads_beside_calls",
            Load::ReadsBesideSave => "reads_beside_save",
            Load::DirectSends => "direct_sends",
            Load::OutboxSends => "outbox_sends",
            Load::Ring => "ring",
        }
    }

    /// The load of a word.
    fn read(word: &str) -> Option<Load> {
        Load::ALL.iter().copied().find(|load| load.word() == word)
    }
}

impl Display for Load {
    fn fmt<W: Write>(&self, f: &mut Formatter<W>) -> fmt::Result {
        f.write_str(self.word())
    }
}

/// The time of so many calls of each caller.
fn called<R: Threads + Wait + Clock + Sync>(
    rt: &R,
    alloc: Global,
    callers: u8,
    what: What,
    count: u32,
) -> Option<Duration>
    requires { (0 < callers) × (callers ≤ 16) }
{
    let (node, _) = opened_by_plan(alloc, count.checked_mul(u32::from(callers))?)?;
    let calls = Calls { what, count };
    direct(rt, alloc, node, callers, 0, Timed::Calls(calls))
}

/// The time of a load on so many threads, each with so many turns. None where the load has not that
/// many threads or turns, there is no memory, or it did not end as it should.
fn time<R: Threads + Wait + Clock + Sync>(
    rt: &R,
    alloc: Global,
    load: Load,
    threads: u8,
    count: u32,
) -> Option<Duration> {
    if threads == 0 || threads > THREADS_MAX {
        return None;
    }
    match load {
        Load::Apply => applied(rt, alloc, count),
        Load::Ring => through_ring(rt, alloc, count),
        Load::OutboxSends => sent_by_outbox(rt, alloc, threads, count),
        Load::Calls => called(rt, alloc, threads, What::Tick, count),
        Load::DirectSends => called(rt, alloc, threads, What::Ping, count),
        Load::Reads => {
            let (node, _) = opened_by_plan(alloc, 1)?;
            direct(rt, alloc, node, 1, threads, Timed::Reads(count))
        }
        Load::ReadsBesideCalls => {
            let (node, _) = opened_by_plan(alloc, LIMIT_MAX)?;
            direct(rt, alloc, node, 1, threads, Timed::ReadsBesideCalls(count))
        }
        Load::ReadsBesideSave => {
            let (node, plan) = opened_by_plan(alloc, 1)?;
            direct(
                rt,
                alloc,
                node,
                1,
                threads,
                Timed::ReadsBesideSave(plan, count),
            )
        }
    }
}

/// Prints the nanoseconds of the load that the words name. False where they are refused, or it did
/// not end as it should.
pub(crate) fn run_one<R: Threads + Wait + Clock + Print + Sync>(
    rt: &R,
    alloc: Global,
    load: &str,
    threads: &str,
    count: &str,
) -> io::Result<bool> {
    let words = (
        Load::read(load),
        threads.parse::<u8>(),
        count.parse::<u32>(),
    );
    let (Some(load), Ok(threads), Ok(count)) = words else {
        return Ok(false);
    };
    let Some(took) = time(rt, alloc, load, threads, count) else {
        return Ok(false);
    };
    println!(rt; "{}", took.as_nanos())?;
    Ok(true)
}

/// Runs each load with a few turns, and prints that it ended. False at the first that did not.
pub(crate) fn run_all<R: Threads + Wait + Clock + Print + Sync>(
    rt: &R,
    alloc: Global,
) -> io::Result<bool> {
    for load in &Load::ALL {
        if time(rt, alloc, *load, 2, 100).is_none() {
            return Ok(false);
        }
        println!(rt; "{load} ended, on 2 threads with 100 turns each")?;
    }
    Ok(true)
}
