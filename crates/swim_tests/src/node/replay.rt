//! An era that is played again, and states from which none begins.

use super::{Device, alive, endpoint, opened, ping};
use crate::same::{holds, same, same_at};
use std::alloc::Global;
use std::process::Abort;
use swim_disk::Plan;
use swim_member::{Deal, Event, Out, Relay, ResumeFault};
use swim_node::{BeginFault, Beginning, Cause, Entry, MemoryLink, Node, Replay, Reply, Tag};
use swim_wire::{Cursor, NUMBER_MAX, Update, UpdateKind, encode};

/// That 10.0.0.1:7000 is suspected with this number.
fn suspicion(rt: &impl Abort, number: u64) -> Update {
    Update {
        kind: UpdateKind::Suspect,
        ..alive(rt, 1, number)
    }
}

/// The event of a row of the table.
fn event_of(rt: &impl Abort, number: u32) -> Event {
    match number {
        0 => Event::ReceiveFailed,
        1 => ping(rt, 7, &[alive(rt, 3, 2), suspicion(rt, 1)]),
        2 => ping(rt, 8, &[suspicion(rt, 4), suspicion(rt, 2)]),
        3 => ping(rt, 9, &[suspicion(rt, 3)]),
        4 => Event::Members {
            after: Cursor::zero(),
        },
        5 => Event::Join {
            peer: endpoint(rt, 4),
        },
        6 => Event::Leave,
        _ => Event::Tick {
            deal: Deal::from_first(77),
        },
    }
}

/// The two datagrams are the same, byte by byte.
fn same_out(rt: &impl Abort, out: &Out, other: &Out) {
    same(rt, out.to, other.to);
    holds(
        rt,
        out.datagram.is_encodable() && other.datagram.is_encodable(),
    );
    let bytes = encode(&out.datagram);
    let others = encode(&other.datagram);
    same(rt, bytes.as_slice(), others.as_slice());
}

/// The two replies are the same.
fn same_reply(rt: &impl Abort, reply: &Reply, other: &Reply) {
    same(rt, reply.status, other.status);
    same(rt, reply.notes.as_slice(), other.notes.as_slice());
    same(rt, reply.page.as_slice(), other.page.as_slice());
    same(rt, (reply.sent, reply.lost), (other.sent, other.lost));
}

/// The two entries are the same, but for the event, which the causes have.
fn same_entry(rt: &impl Abort, entry: &Entry, other: &Entry) {
    same(rt, entry.tag, other.tag);
    same(rt, (entry.save, entry.granted), (other.save, other.granted));
    same(rt, entry.outcomes.as_slice(), other.outcomes.as_slice());
    same_reply(rt, &entry.reply, &other.reply);
    same(rt, entry.outs.len(), other.outs.len());
    for (out, other) in entry.outs.as_slice().iter().zip(other.outs.as_slice()) {
        same_out(rt, out, other);
    }
}

/// A node in the middle of its life: it has heard of two others, and eight ticks have passed.
fn in_mid_life(rt: &impl Abort, alloc: Global) -> (Node<Device>, Plan, MemoryLink) {
    let (mut node, plan) = opened(rt, alloc, 32);
    let mut link = MemoryLink::new(alloc, 1);
    let heard = ping(rt, 1, &[alive(rt, 2, 1), alive(rt, 3, 1)]);
    let first = Tag { caller: 0, turn: 1 };
    holds(rt, node.apply(&mut link, first, heard).is_ok());
    for turn in 2..10 {
        let tag = Tag { caller: 0, turn };
        holds(rt, node.apply(&mut link, tag, event_of(rt, 7)).is_ok());
    }
    (node, plan, link)
}

/// The calls of an era: the caller, the event, how many datagrams are lost, and which sync and which write fail. The first
/// save fails and leaves its number in the file, so that the next one finds it there. An ack, a join, the ping of the tenth
/// tick and the ping-req of the thirteenth are lost.
const CALLS: [(u8, u32, u64, u64, u64); 15] = [
    (0, 4, 0, 0, 0),
    (1, 2, 0, 3, 0),
    (0, 1, 1, 0, 0),
    (0, 3, 0, 0, 1),
    (1, 3, 0, 0, 0),
    (1, 5, 1, 0, 0),
    (0, 7, 0, 0, 0),
    (0, 7, 1, 0, 0),
    (0, 7, 0, 0, 0),
    (0, 7, 0, 0, 0),
    (0, 7, 1, 0, 0),
    (0, 7, 0, 0, 0),
    (0, 0, 0, 0, 0),
    (1, 6, 0, 0, 0),
    (0, 7, 0, 0, 0),
];

/// Makes the calls.
fn call_all(rt: &impl Abort, node: &mut Node<Device>, plan: &Plan, link: &mut MemoryLink) {
    let mut turns = [0, 0];
    for (caller, number, lose, sync, write) in CALLS {
        holds(rt, caller < 2 && turns[caller as usize] < 100);
        turns[caller as usize] += 1;
        let turn = turns[caller as usize];
        if lose > 0 {
            link.lose(lose);
        }
        plan.fail_sync(sync);
        plan.fail_write(write);
        let event = event_of(rt, number);
        holds(rt, node.apply(link, Tag { caller, turn }, event).is_ok());
    }
}

/// How a beginning with sound settings is answered.
fn begun(rt: &impl Abort, alloc: Global, beginning: Beginning) -> Result<Replay, BeginFault> {
    let sound = beginning.state.settings.check();
    sound.ok().expect(rt, "sound settings");
    Replay::begin(alloc, beginning)
}

/// An era that is played again from the causes of these entries.
fn played_again(rt: &impl Abort, alloc: Global, beginning: Beginning, entries: &[Entry]) -> Replay {
    let mut again = begun(rt, alloc, beginning).ok().expect(rt, "an era");
    for entry in entries {
        holds(rt, entry.tag.caller < 16);
        same(rt, again.enter(Cause::of(entry)), Ok(()));
    }
    again
}

/// Of how many entries a datagram was lost.
fn lossy(entries: &[Entry]) -> usize {
    let mut count = 0usize;
    for entry in entries {
        if entry.reply.lost == 1 {
            count = count.wrapping_add(1);
        }
    }
    count
}

/// An era that begins in the middle of a life is played again to the same bytes.
#[test]
fn an_era_again(rt: HostRuntime) {
    let (mut node, plan, mut link) = in_mid_life(&rt, rt.alloc());
    let beginning = node.beginning();
    node.rebase();
    call_all(&rt, &mut node, &plan, &mut link);
    let again = played_again(&rt, rt.alloc(), beginning, node.journal());
    same(&rt, again.journal().len(), 15);
    same(&rt, lossy(node.journal()), 4);
    for (entry, other) in node.journal().iter().zip(again.journal()) {
        same_entry(&rt, entry, other);
    }
}

/// Breaks one thing of a beginning, by the row of the table.
fn spoil(rt: &impl Abort, beginning: &mut Beginning, row: u32) {
    let state = &mut beginning.state;
    match row {
        1 => beginning.limit = 65_537,
        2 => beginning.granted = 0,
        3 => beginning.past = Some(9),
        4 => {
            state.number = NUMBER_MAX + 1;
            beginning.granted = NUMBER_MAX + 1;
        }
        5 => state.time = NUMBER_MAX + 1,
        6 => state.rows.as_mut_slice().reverse(),
        7 => holds(rt, state.queue.pop().is_some()),
        8 => state.number = 0,
        9 => {
            holds(rt, !state.queue.is_empty());
            state.queue[0].count = 19;
        }
        10 => {
            holds(rt, state.relays.is_empty());
            state.time = 10;
            state.relays.push(Relay::default());
        }
        11 => {
            holds(rt, state.listed.is_empty());
            state.listed.push(endpoint(rt, 2));
            state.listed.push(endpoint(rt, 2));
        }
        12 => state.place = 257,
        13 => {
            holds(rt, !state.queue.is_empty());
            let last = state.queue.len() - 1;
            state.queue[last].count = 2;
        }
        _ => {}
    }
}

/// A beginning is refused by its first fault, and without one an era begins.
#[test]
fn refused_beginnings(rt: HostRuntime) {
    for (row, want) in [
        (0, Ok(())),
        (1, Err(BeginFault::Limit)),
        (2, Err(BeginFault::Ceiling)),
        (3, Err(BeginFault::Past)),
        (4, Err(BeginFault::State(ResumeFault::Number))),
        (5, Err(BeginFault::State(ResumeFault::Time))),
        (6, Err(BeginFault::State(ResumeFault::Rows))),
        (7, Err(BeginFault::State(ResumeFault::Queue))),
        (8, Err(BeginFault::State(ResumeFault::Said))),
        (9, Err(BeginFault::State(ResumeFault::Sent))),
        (10, Err(BeginFault::State(ResumeFault::Relays))),
        (11, Err(BeginFault::State(ResumeFault::Listed))),
        (12, Err(BeginFault::State(ResumeFault::Place))),
        (13, Err(BeginFault::State(ResumeFault::Order))),
    ] {
        let (mut node, _) = opened(&rt, rt.alloc(), 32);
        let mut link = MemoryLink::new(rt.alloc(), 1);
        let heard = ping(&rt, 1, &[alive(&rt, 2, 1), alive(&rt, 3, 1)]);
        let first = Tag { caller: 0, turn: 1 };
        holds(&rt, node.apply(&mut link, first, heard).is_ok());
        let mut beginning = node.beginning();
        spoil(&rt, &mut beginning, row);
        let answer = begun(&rt, rt.alloc(), beginning).map(|_| ());
        same_at(&rt, &row, answer, want);
    }
}
