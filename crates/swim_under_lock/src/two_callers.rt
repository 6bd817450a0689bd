//! Two callers of one member, each on a thread of its own. Whatever the order of the threads, all
//! answered calls are one history: so it prints the same each time.

use crate::era::{Done, Work, era};
use std::alloc::Global;
use std::io;
use std::sync::Wait;
use std::thread::{Threads, map_vec};
use std::time::Clock;
use swim_disk::{Disk, MemDisk};
use swim_member::{Deal, Event};
use swim_node::{Link, MemoryLink, Node, Status};
use swim_scenes::{new_disk, opened};
use swim_shared::{Name, Parts, Pass, Shared, Watch};

/// How many threads call the member.
const CALLERS: u8 = 2;

/// How many calls each of them makes.
const CALLS: u32 = 50;

/// The entries of an era, of which the callers make all.
const LIMIT: u32 = 100;

/// A caller, which ticks the member's clock until it has made its calls or one is refused.
fn ticks<N: Name, D: Disk + Drop, L: Link + Drop, R: Wait>(
    rt: &R,
    shared: &Shared<N, D, L, &R>,
    mut pass: Pass<N>,
) -> Pass<N> {
    for turn in 0..CALLS {
        let deal = Deal::from_first((turn % 256) as u8);
        if shared.call(rt, &mut pass, Event::Tick { deal }).is_err() {
            break;
        }
    }
    pass
}

/// Each caller on a thread of its own. None where there is no memory.
fn on_threads<
    N: Name + Send + Sync,
    D: Disk + Drop + Send,
    L: Link + Drop + Send,
    R: Threads + Wait + Sync,
>(rt: &R, shared: &Shared<N, D, L, &R>, passes: Vec<Pass<N>>) -> Option<Vec<Pass<N>>> {
    map_vec(rt, passes, &|pass| ticks(rt, shared, pass)).ok()
}

/// What is left of the era.
#[derive(Drop)]
pub(crate) struct Ended<D: Disk> {
    /// The status that a watch read after the calls.
    status: Status,
    /// The node with its journal.
    node: Node<D>,
    /// How many passes and watches do not fit the journal.
    odd: u32,
}

/// The calls of all callers, which a watch is then shown. None where there is no memory.
pub(crate) fn called<
    N: Name + Send + Sync,
    D: Disk + Drop + Send,
    L: Link + Drop + Send,
    R: Threads + Wait + Sync,
>(
    rt: &R,
    shared: Shared<N, D, L, &R>,
    passes: Vec<Pass<N>>,
    mut watches: Vec<Watch<N>>,
) -> Option<Ended<D>> {
    let mut passes = on_threads(rt, &shared, passes)?;
    shared.show(rt, passes.first_mut()?, watches.first_mut()?);
    let status = watches.first_mut()?.read()?;
    if passes.len() > usize::from(CALLERS) || watches.len() > 1 {
        return None;
    }
    let closed = shared.close(passes, watches);
    Some(Ended {
        status,
        node: closed.node,
        odd: closed.odd,
    })
}

/// The one era of a member in memory. None where there is no memory.
fn played<R: Threads + Wait + Clock + Sync>(rt: &R, alloc: Global) -> Option<Ended<MemDisk>> {
    let node = opened(alloc, new_disk(alloc)?, LIMIT)?;
    let parts = Parts::new(node, MemoryLink::new(alloc, 1), CALLERS, 1);
    match era(rt, alloc, parts, Work::TwoCallers)? {
        Done::TwoCallers(ended) => Some(ended),
        _ => None,
    }
}

/// Runs it and prints what is left. False where there was no memory.
pub(crate) fn run<R: Threads + Wait + Clock + Print + Sync>(
    rt: &R,
    alloc: Global,
) -> io::Result<bool> {
    let Some(ended) = played(rt, alloc) else {
        return Ok(false);
    };
    println!(rt;
        "the watch reads a status after {} calls",
        ended.status.length
    )?;
    for caller in 0..CALLERS {
        let turns = ended.node.turns(caller);
        println!(rt; "caller {caller} has {turns} calls in the journal")?;
    }
    println!(rt; "{} passes or watches do not fit it", ended.odd)?;
    Ok(true)
}
