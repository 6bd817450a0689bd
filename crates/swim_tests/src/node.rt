//! Rows of a node on one thread, as calls. The expected values follow from the rules of saves, turns and eras.

mod replay;

use crate::same::{holds, same, same_at};
use arrayvec::ArrayVec;
use std::alloc::Global;
use std::process::Abort;
use swim_disk::{FaultDisk, MemDisk, Plan};
use swim_member::{Deal, Event, Settings};
use swim_node::{ApplyFault, MemoryLink, Node, OpenFault, Save, Tag, listed_are_probed_once, run};
use swim_scenes::Device;
use swim_state::{Owner, RecoverFault, init};
use swim_wire::{Cursor, Datagram, Endpoint, Kind, NUMBER_MAX, Rules, Update, UpdateKind, encode};

/// The endpoint 10.0.0.LAST:7000.
fn endpoint(rt: &impl Abort, last: u32) -> Endpoint {
    holds(rt, last < 256);
    Endpoint::new(0x0a00_0000 + last, 7000).expect(rt, "a port")
}

/// The settings of 10.0.0.1:7000 in this group.
fn settings(rt: &impl Abort, group: u64) -> Settings {
    Settings {
        lambda: 2,
        suspect: 20,
        forget: 40,
        ..Settings::usual(group, endpoint(rt, 1))
    }
}

/// The disk of 10.0.0.1:7000 in group 7 after `init` with ceiling 0, and its plan.
fn made(rt: &impl Abort, alloc: Global) -> (Device, Plan) {
    let (mut disk, plan) = FaultDisk::new(alloc, MemDisk::new(alloc, 1, Vec::new(alloc)))
        .ok()
        .expect(rt, "memory");
    let owner = Owner {
        group: 7,
        me: endpoint(rt, 1),
    };
    holds(rt, init(&mut disk, owner, 0).is_ok());
    (disk, plan)
}

/// A node of 10.0.0.1:7000 in group 7 on this disk.
fn open_on(rt: &impl Abort, alloc: Global, disk: Device, limit: u32) -> Node<Device> {
    let settings = settings(rt, 7);
    settings.check().ok().expect(rt, "sound settings");
    Node::open(alloc, disk, settings, limit)
        .ok()
        .expect(rt, "an opening")
}

/// A node on a new disk, with number 1.
fn opened(rt: &impl Abort, alloc: Global, limit: u32) -> (Node<Device>, Plan) {
    let (disk, plan) = made(rt, alloc);
    (open_on(rt, alloc, disk, limit), plan)
}

/// A ping from 10.0.0.2:7000 that carries these updates.
fn ping(rt: &impl Abort, seq: u32, updates: &[Update]) -> Event {
    let from = endpoint(rt, 2);
    let mut carried = ArrayVec::new();
    holds(rt, carried.try_extend_from_slice(updates).is_ok());
    let datagram = Datagram {
        version: Rules::One,
        kind: Kind::Ping,
        group: 7,
        seq,
        sender: from,
        subject: Cursor::at(endpoint(rt, 1)),
        updates: carried,
    };
    holds(rt, datagram.is_encodable());
    let mut bytes = ArrayVec::new();
    holds(rt, bytes.try_extend_from_slice(&encode(&datagram)).is_ok());
    Event::Datagram { from, bytes }
}

/// The limit is judged before the file is touched, and the file's owner is the member of the settings.
#[test]
fn refused_opens(rt: HostRuntime) {
    for (group, limit, want) in [
        (7, 0, OpenFault::Limit),
        (7, 65_537, OpenFault::Limit),
        (8, 65_536, OpenFault::Refused(RecoverFault::WrongOwner)),
    ] {
        let (disk, _) = made(&rt, rt.alloc());
        let settings = settings(&rt, group);
        settings.check().ok().expect(&rt, "sound settings");
        let (_, fault) = Node::open(rt.alloc(), disk, settings, limit)
            .err()
            .expect(&rt, "a refusal");
        same(&rt, fault, want);
    }
}

/// The third ping finds no room, and two stand.
#[test]
fn three_pings_into_an_era_of_two(rt: HostRuntime) {
    let (mut node, _) = opened(&rt, rt.alloc(), 2);
    let mut link = MemoryLink::new(rt.alloc(), 1);
    let calls = [
        (Tag { caller: 0, turn: 1 }, ping(&rt, 1, &[])),
        (Tag { caller: 0, turn: 2 }, ping(&rt, 2, &[])),
        (Tag { caller: 0, turn: 3 }, ping(&rt, 3, &[])),
    ];
    let ran = run(&mut node, &mut link, &calls);
    same(&rt, ran, Err((2, ApplyFault::EraFull)));
    same(&rt, node.len(), 2);
    same(&rt, link.taken().len(), 2);
}

/// The ack of 10.0.0.1:7000, with its own update, to 10.0.0.2:7000. The one before was lost.
#[test]
fn an_ack_lost_and_one_taken(rt: HostRuntime) {
    let (mut node, _) = opened(&rt, rt.alloc(), 4);
    let mut link = MemoryLink::new(rt.alloc(), 1);
    link.lose(1);
    for (turn, want) in [(1, (0, 1)), (2, (1, 0))] {
        let reply = node
            .apply(&mut link, Tag { caller: 0, turn }, ping(&rt, turn, &[]))
            .ok()
            .expect(&rt, "an entry");
        same(&rt, (reply.sent, reply.lost), want);
    }
    let taken = link.taken().first().expect(&rt, "a datagram");
    same(&rt, taken.to, endpoint(&rt, 2));
    same(
        &rt,
        taken.bytes.as_slice(),
        b"SWIM\x01\x03\x01\0\0\0\0\0\0\0\0\x07\0\0\0\x02\x0a\0\0\x01\x1b\x58\x0a\0\0\x01\x1b\x58\x01\0\x0a\0\0\x01\x1b\x58\0\0\0\0\0\0\0\x01".as_slice(),
    );
}

/// The turn is judged first, and then the era. Turns begin anew after a rebase.
#[test]
fn a_full_era_and_a_rebase(rt: HostRuntime) {
    let (mut node, _) = opened(&rt, rt.alloc(), 2);
    let mut link = MemoryLink::new(rt.alloc(), 1);
    for (rebases, caller, turn, want) in [
        (false, 0, 1, Ok(1)),
        (false, 0, 1, Err(ApplyFault::OutOfTurn)),
        (false, 0, 3, Err(ApplyFault::OutOfTurn)),
        (false, 3, 1, Ok(2)),
        (false, 0, 2, Err(ApplyFault::EraFull)),
        (false, 0, 4, Err(ApplyFault::OutOfTurn)),
        (true, 0, 2, Err(ApplyFault::OutOfTurn)),
        (false, 0, 1, Ok(1)),
    ] {
        if rebases {
            node.rebase();
        }
        holds(&rt, caller < 16);
        let got = node
            .apply(&mut link, Tag { caller, turn }, Event::ReceiveFailed)
            .map(|reply| reply.status.length);
        same_at(&rt, &(turn, caller), got, want);
    }
}

/// An era that ends gives its journal away, and the number of the life stays.
#[test]
fn an_era_that_ends(rt: HostRuntime) {
    let (mut node, _) = opened(&rt, rt.alloc(), 2);
    let mut link = MemoryLink::new(rt.alloc(), 1);
    for turn in 1..3 {
        let tag = Tag { caller: 0, turn };
        holds(
            &rt,
            node.apply(&mut link, tag, Event::ReceiveFailed).is_ok(),
        );
    }
    let era = node.end_era();
    same(
        &rt,
        (era.journal().len(), node.len(), node.first()),
        (2, 0, 1),
    );
}

/// The first save fails at its last sync, once 2 stands in the file. The second one finds that 2 and fails at its
/// first write. So the third event, which wants 2, needs no save.
#[test]
fn refutations_on_a_broken_store(rt: HostRuntime) {
    let (mut node, plan) = opened(&rt, rt.alloc(), 4);
    let mut link = MemoryLink::new(rt.alloc(), 1);
    for (turn, suspected, sync, write, want) in [
        (1, 1, 3, 0, (Save::Failed, 1, 1)),
        (2, 2, 0, 1, (Save::Failed, 2, 1)),
        (3, 1, 0, 0, (Save::Kept, 2, 2)),
    ] {
        let suspect = Update {
            kind: UpdateKind::Suspect,
            who: endpoint(&rt, 1),
            number: suspected,
        };
        plan.fail_sync(sync);
        plan.fail_write(write);
        let reply = node
            .apply(
                &mut link,
                Tag { caller: 0, turn },
                ping(&rt, turn, &[suspect]),
            )
            .ok()
            .expect(&rt, "an entry");
        let entry = node.journal().last().expect(&rt, "an entry");
        same(&rt, (entry.save, entry.granted, reply.status.number), want);
    }
}

/// That 10.0.0.LAST:7000 is alive with this number.
fn alive(rt: &impl Abort, last: u32, number: u64) -> Update {
    holds(rt, number <= NUMBER_MAX);
    Update {
        kind: UpdateKind::Alive,
        who: endpoint(rt, last),
        number,
    }
}

/// Whom the member knows is kept at the end of an era, and the next life finds it.
#[test]
fn peers_that_are_kept(rt: HostRuntime) {
    let (mut node, _) = opened(&rt, rt.alloc(), 2);
    let mut link = MemoryLink::new(rt.alloc(), 1);
    let heard = ping(&rt, 1, &[alive(&rt, 3, 1), alive(&rt, 2, 1)]);
    holds(
        &rt,
        node.apply(&mut link, Tag { caller: 0, turn: 1 }, heard)
            .is_ok(),
    );
    holds(&rt, node.peers().as_slice().is_empty());
    node.rebase();
    same(&rt, node.keep_peers(), Ok(()));
    let known = [endpoint(&rt, 2), endpoint(&rt, 3)];
    same(&rt, node.peers().as_slice(), known.as_slice());
    let node = open_on(&rt, rt.alloc(), node.into_disk(), 2);
    same(
        &rt,
        (node.first(), node.peers().as_slice()),
        (3, known.as_slice()),
    );
}

/// A save with no peers fails at its last sync, once 2 stands in the file. So keeping the peers finds that 2, without
/// them, and takes a number more.
#[test]
fn peers_that_are_kept_by_a_broken_store(rt: HostRuntime) {
    let (mut node, plan) = opened(&rt, rt.alloc(), 2);
    let mut link = MemoryLink::new(rt.alloc(), 1);
    let suspect = Update {
        kind: UpdateKind::Suspect,
        who: endpoint(&rt, 1),
        number: 1,
    };
    plan.fail_sync(3);
    let heard = ping(&rt, 1, &[suspect, alive(&rt, 2, 1)]);
    holds(
        &rt,
        node.apply(&mut link, Tag { caller: 0, turn: 1 }, heard)
            .is_ok(),
    );
    node.rebase();
    same(&rt, node.keep_peers(), Ok(()));
    same(&rt, node.peers().as_slice(), [endpoint(&rt, 2)].as_slice());
    let node = open_on(&rt, rt.alloc(), node.into_disk(), 2);
    same(&rt, node.first(), 4);
}

/// A period of ticks, from this turn of a caller on.
fn tick_a_period(rt: &impl Abort, node: &mut Node<Device>, link: &mut MemoryLink, first: u32) {
    holds(rt, first < 3);
    for turn in first..first + 10 {
        let tick = Event::Tick {
            deal: Deal::from_first(0),
        };
        holds(rt, node.apply(link, Tag { caller: 0, turn }, tick).is_ok());
    }
}

/// A turn of probing goes on over the end of an era: 10.0.0.2 is probed before it and 10.0.0.3 after it. To each of them
/// goes one more datagram, the first ping's ack and a ping-req about 10.0.0.2.
#[test]
fn a_turn_of_probing_over_two_eras(rt: HostRuntime) {
    let (mut node, _) = opened(&rt, rt.alloc(), 11);
    let mut link = MemoryLink::new(rt.alloc(), 1);
    let heard = ping(&rt, 1, &[alive(&rt, 2, 1), alive(&rt, 3, 1)]);
    holds(
        &rt,
        node.apply(&mut link, Tag { caller: 0, turn: 1 }, heard)
            .is_ok(),
    );
    tick_a_period(&rt, &mut node, &mut link, 2);
    node.rebase();
    listed_are_probed_once();
    tick_a_period(&rt, &mut node, &mut link, 1);
    same(&rt, link.taken().len(), 4);
    for (taken, last) in link.taken().iter().zip([2, 2, 3, 3]) {
        same(&rt, taken.to, endpoint(&rt, last));
    }
}
