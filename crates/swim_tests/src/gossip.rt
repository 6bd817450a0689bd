//! The worked rows, as calls of a buffer. The expected updates were written by hand.

use crate::same::{holds, same};
use arrayvec::ArrayVec;
use std::process::Abort;
use swim_gossip::{BUCKETS_MAX, Buffer, Visits, WAITING_MAX};
use swim_wire::{Endpoint, UPDATES_MAX, Update, UpdateKind};

mod drawn;

/// An update about 10.0.0.0 plus `last`, at port 7000.
pub(crate) fn update(kind: UpdateKind, last: u16, number: u64) -> Update {
    let who = Endpoint::new(0x0a00_0000 + last as u32, 7000).unwrap();
    Update { kind, who, number }
}

use UpdateKind::{Alive, Confirm};

fn alive(last: u16) -> Update {
    update(Alive, last, 1)
}

/// Lets an update begin to wait, where there is room for one more.
pub(crate) fn begin(rt: &impl Abort, buffer: &mut Buffer, update: Update) {
    holds(rt, buffer.len() < WAITING_MAX);
    buffer.offer(update, &mut Visits::new());
}

/// Gives what is picked, with a last bucket that is high enough, and few looks.
pub(crate) fn pick(
    rt: &impl Abort,
    buffer: &mut Buffer,
    limit: u32,
    room: usize,
) -> ArrayVec<Update, UPDATES_MAX> {
    holds(rt, room <= UPDATES_MAX && limit <= buffer.most());
    let mut visits = Visits::new();
    let updates = buffer.pick(limit, room, &mut visits);
    holds(rt, visits.made() <= 858);
    updates
}

/// A buffer with these updates, which began to wait in this order.
fn waiting(rt: &impl Abort, updates: &[Update]) -> Buffer {
    let mut buffer = Buffer::new(BUCKETS_MAX);
    for update in updates {
        begin(rt, &mut buffer, *update);
    }
    buffer
}

/// The kind, the member's last number and the number of the update at this place, if there is one.
fn at(updates: &[Update], place: usize) -> Option<(UpdateKind, u32, u64)> {
    match updates.get(place) {
        Some(update) => Some((update.kind, update.who.address() % 65536, update.number)),
        None => None,
    }
}

#[test]
fn ten_pings(rt: HostRuntime) {
    // The update of a ping, the limit after it, and the updates of the ack. The limit is 2 for a
    // member alone, and 4 while it has another.
    let pings = [
        (None, 2, [Some((Alive, 1, 1)), None]),
        (None, 2, [Some((Alive, 1, 1)), None]),
        (
            Some((Alive, 1)),
            4,
            [Some((Alive, 3, 1)), Some((Alive, 1, 1))],
        ),
        (None, 4, [Some((Alive, 3, 1)), Some((Alive, 1, 1))]),
        (None, 4, [Some((Alive, 3, 1)), None]),
        (None, 4, [Some((Alive, 3, 1)), None]),
        (None, 4, [None, None]),
        (Some((Confirm, 0)), 2, [Some((Confirm, 3, 0)), None]),
        (None, 2, [Some((Confirm, 3, 0)), None]),
        (None, 2, [None, None]),
    ];
    let mut buffer = waiting(&rt, &[alive(1)]);
    for (heard, limit, wanted) in pings {
        if let Some((kind, number)) = heard {
            begin(&rt, &mut buffer, update(kind, 3, number));
        }
        let picked = pick(&rt, &mut buffer, limit, UPDATES_MAX);
        holds(&rt, picked.len() <= 2);
        same(&rt, [at(&picked, 0), at(&picked, 1)], wanted);
    }
}

/// Whether these say that 10.0.0.1 is alive, and then 10.0.1.1 and those after it.
fn are_in_order(updates: &[Update]) -> bool {
    for (place, update) in updates.iter().enumerate() {
        let last = if place == 0 {
            1
        } else {
            256 + (place % 256) as u16
        };
        if *update != alive(last) {
            return false;
        }
    }
    true
}

#[test]
fn thirty_updates(rt: HostRuntime) {
    let mut buffer = waiting(&rt, &[alive(1)]);
    for last in 257..287u16 {
        begin(&rt, &mut buffer, alive(last));
    }
    same(&rt, buffer.len(), 31);
    let first = pick(&rt, &mut buffer, 10, UPDATES_MAX);
    holds(&rt, first.is_full() && are_in_order(&first));
    let second = pick(&rt, &mut buffer, 10, UPDATES_MAX);
    let is_second = match second.as_slice() {
        [left, rest @ ..] => *left == alive(286) && are_in_order(rest),
        [] => false,
    };
    holds(&rt, second.is_full() && is_second);
}

#[test]
fn removed(rt: HostRuntime) {
    let mut buffer = waiting(&rt, &[alive(1), alive(3), alive(4)]);
    buffer.remove(alive(3).who, &mut Visits::new());
    buffer.remove(alive(3).who, &mut Visits::new());
    same(&rt, buffer.len(), 2);
    same(&rt, pick(&rt, &mut buffer, 9, 0).len(), 0);
    same(
        &rt,
        pick(&rt, &mut buffer, 9, 1).as_slice(),
        [alive(1)].as_slice(),
    );
    same(
        &rt,
        pick(&rt, &mut buffer, 9, 30).as_slice(),
        [alive(4), alive(1)].as_slice(),
    );
}
