//! Callers that make each call again that was refused for want of memory. A refusal loses nothing:
//! whichever one allocation is refused, it prints the same. `tests/refuse` refuses each in turn.

use crate::era::{Done, Work, era};
use std::alloc::Global;
use std::io;
use std::sync::Wait;
use std::thread::Threads;
use std::time::Clock;
use swim_disk::{Disk, MemDisk};
use swim_member::{Deal, Event};
use swim_node::{Link, MemoryLink, Node, Tag, run as run_events};
use swim_scenes::{endpoint, new_disk, opened};
use swim_shared::{CallFault, Name, Outbox, Parts, Pass, Sender, Shared, Watch};

/// How many calls are made.
const CALLS: u32 = 20;

/// The entries of the era.
const LIMIT: u32 = 100;

/// Room for the datagrams of all calls.
const PLACES: usize = 32;

/// A tick of a turn, whose deal goes up from it.
fn tick(turn: u32) -> Event {
    let deal = Deal::from_first((turn % 256) as u8);
    Event::Tick { deal }
}

/// The event of a turn: a datagram to another member, or a tick.
fn event(turn: u32) -> Event {
    match endpoint(2) {
        Some(peer) if turn % 4 == 0 => Event::Join { peer },
        _ => tick(turn),
    }
}

/// How many calls were refused.
#[derive(Clone, Copy)]
struct Refusals {
    /// Those that were made again.
    again: u32,
    /// Those that spent their pass.
    spent: u32,
}

/// Makes the call of a turn, and says whether it stands, as the next entry of the era. Where there
/// was no memory it is made again. Where it could not be read back the pass is spent, and its next
/// call has to say so too.
fn stands<N: Name, D: Disk + Drop, L: Link + Drop, R: Wait>(
    rt: &R,
    shared: &Shared<N, D, L, &R>,
    pass: &mut Pass<N>,
    refusals: &mut Refusals,
    turn: u32,
) -> bool {
    let length = (turn as usize).wrapping_add(1);
    match shared.call(rt, pass, event(turn)) {
        Ok(reply) => reply.status.length == length,
        Err(CallFault::NoMemory) => {
            refusals.again = refusals.again.saturating_add(1);
            let again = shared.call(rt, pass, event(turn));
            again.is_ok_and(|reply| reply.status.length == length)
        }
        Err(CallFault::Unread) => {
            refusals.spent = refusals.spent.saturating_add(1);
            let again = shared.call(rt, pass, event(turn));
            matches!(again, Err(CallFault::Unread))
        }
        Err(_) => false,
    }
}

/// Makes all calls: by the first pass until it is spent, and then by the second. None where one
/// does not stand.
fn make_all<N: Name, D: Disk + Drop, L: Link + Drop, R: Wait>(
    rt: &R,
    shared: &Shared<N, D, L, &R>,
    first: &mut Pass<N>,
    second: &mut Pass<N>,
) -> Option<Refusals> {
    let mut refusals = Refusals { again: 0, spent: 0 };
    for turn in 0..CALLS {
        let stood = if first.is_spent() {
            stands(rt, shared, second, &mut refusals, turn)
        } else {
            stands(rt, shared, first, &mut refusals, turn)
        };
        if !stood {
            return None;
        }
    }
    Some(refusals)
}

/// What is left of the era.
#[derive(Drop)]
pub(crate) struct Ended<D: Disk> {
    /// The node with its journal.
    node: Node<D>,
    /// How many datagrams were taken out of the ring.
    handed: u32,
    /// What was refused of the calls.
    refusals: Refusals,
}

/// All calls of a member over an outbox, whose sender then empties its ring.
#[derive(Drop)]
pub(crate) struct CallAgain {
    alloc: Global,
    sender: Sender,
}

impl CallAgain {
    /// What is left after the calls. None where one does not stand.
    pub(crate) fn called<N: Name, D: Disk + Drop, L: Link + Drop, R: Wait>(
        self,
        rt: &R,
        shared: Shared<N, D, L, &R>,
        mut passes: Vec<Pass<N>>,
        watches: Vec<Watch<N>>,
    ) -> Option<Ended<D>> {
        let CallAgain { alloc, mut sender } = self;
        let (first, rest) = passes.as_mut_slice().split_first_mut()?;
        let refusals = make_all(rt, &shared, first, rest.first_mut()?)?;
        let sent = sender.turn(&mut MemoryLink::new(alloc, 1));
        if passes.len() > 2 || watches.len() > 1 {
            return None;
        }
        Some(Ended {
            node: shared.close(passes, watches).node,
            handed: sent.taken + sent.lost,
            refusals,
        })
    }
}

/// The one era of a member over a ring, each tried once more where it was refused.
fn played<R: Threads + Wait + Clock + Sync>(rt: &R, alloc: Global) -> Option<Ended<MemDisk>> {
    let node = opened(alloc, new_disk(alloc)?, LIMIT)?;
    let (outbox, sender) = match Outbox::new(alloc, PLACES) {
        Ok(ring) => ring,
        Err(_) => Outbox::new(alloc, PLACES).ok()?,
    };
    let parts = Parts::new(node, outbox, 2, 1);
    let work = Work::CallAgain(CallAgain { alloc, sender });
    match era(rt, alloc, parts, work)? {
        Done::CallAgain(ended) => Some(ended),
        _ => None,
    }
}

/// Runs two calls of another member without a lock, and tells how many stand. From the refused one
/// on they are run once more. None where there was no member, or they were refused twice.
fn run_alone(alloc: Global) -> Option<usize> {
    let mut node = opened(alloc, new_disk(alloc)?, LIMIT)?;
    let mut link = MemoryLink::new(alloc, 2);
    let both = [
        (Tag { caller: 0, turn: 1 }, tick(1)),
        (Tag { caller: 0, turn: 2 }, tick(2)),
    ];
    if let Err((stand, _)) = run_events(&mut node, &mut link, &both) {
        let second = [(Tag { caller: 0, turn: 2 }, tick(2))];
        let again = if stand == 0 {
            run_events(&mut node, &mut link, &both)
        } else {
            run_events(&mut node, &mut link, &second)
        };
        again.ok()?;
    }
    Some(node.len())
}

/// Runs it and prints what is left. False where memory was refused twice, or a call does not stand.
pub(crate) fn run<R: Threads + Wait + Clock + Print + Eprint + Sync>(
    rt: &R,
    alloc: Global,
) -> io::Result<bool> {
    let (Some(ended), Some(alone)) = (played(rt, alloc), run_alone(alloc)) else {
        return Ok(false);
    };
    for entry in ended.node.journal() {
        let reply = &entry.reply;
        println!(rt; "call {} sent {}", reply.status.length, reply.sent)?;
    }
    println!(rt; "{} datagrams came out of the ring", ended.handed)?;
    println!(rt; "{} calls stand that were run alone", alone)?;
    let Refusals { again, spent } = ended.refusals;
    eprintln!(rt; "made again {again}, passes spent {spent}")?;
    Ok(true)
}
