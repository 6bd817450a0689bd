//! A member that is driven by hand.

use rollerblack::{
    ApplyFault, ArrayVec, Cursor, Datagram, Deal, Endpoint, Event, Kind, Link, MemDisk, MemoryLink,
    Node, Owner, RECEIVED_MAX, Reply, Rules, Settings, Update, UpdateKind, encode, init,
};
use std::alloc::Global;
use std::test::Fail;

/// How many entries an era has at most.
const LIMIT: u32 = 4096;

/// A ping by which a member tells another one that it is suspected with this number; none if there is no such number.
fn suspicion(from: Endpoint, to: Endpoint, number: u64) -> Option<Event> {
    let mut updates = ArrayVec::new();
    updates.push(Update {
        kind: UpdateKind::Suspect,
        who: to,
        number,
    });
    let ping = Datagram {
        version: Rules::One,
        kind: Kind::Ping,
        group: 7,
        seq: 1,
        sender: from,
        subject: Cursor::at(to),
        updates,
    };
    if !ping.is_encodable() {
        return None;
    }
    let mut bytes: ArrayVec<u8, RECEIVED_MAX> = ArrayVec::new();
    let _ = bytes.try_extend_from_slice(&encode(&ping));
    Some(Event::Datagram { from, bytes })
}

/// The next call of the one caller.
fn call<L: Link>(
    node: &mut Node<MemDisk>,
    link: &mut L,
    event: Event,
) -> Result<Reply, ApplyFault> {
    let tag = node.next_tag(0);
    node.apply(link, tag, event)
}

/// What is left of a life.
#[derive(Drop)]
struct Lived {
    disk: MemDisk,
    first: u64,
    last: u64,
}

/// A life of the member: it ticks, another member suspects it, and it refutes that by a number that is in its state file.
fn live(alloc: Global, disk: MemDisk, me: Endpoint, peer: Endpoint) -> Result<Lived, &'static str> {
    let opened = Node::open(alloc, disk, Settings::usual(7, me), LIMIT);
    let mut node = opened.map_err(|_| "an opening")?;
    let mut link = MemoryLink::new(alloc, 1);
    let tick = Event::Tick {
        deal: Deal::from_first(0),
    };
    call(&mut node, &mut link, tick).map_err(|_| "a tick")?;
    let suspected = suspicion(peer, me, node.first()).ok_or("a number")?;
    let reply = call(&mut node, &mut link, suspected).map_err(|_| "a datagram")?;
    Ok(Lived {
        first: node.first(),
        last: reply.status.number,
        disk: node.into_disk(),
    })
}

/// Each life begins above the numbers of the one before.
#[test]
fn lives_by_hand(rt: HostRuntime) -> Result<(), Fail> {
    let alloc = rt.alloc();
    let me = Endpoint::new(0x0a00_0001, 7000).ok_or("an endpoint")?;
    let peer = Endpoint::new(0x0a00_0002, 7000).ok_or("an endpoint")?;
    let mut disk = MemDisk::new(alloc, 1, Vec::new(alloc));
    init(&mut disk, Owner { group: 7, me }, 0).map_err(|_| "a state file")?;
    let one = live(alloc, disk, me, peer)?;
    assert_eq!(&rt; (one.first, one.last), (1, 2));
    let two = live(alloc, one.disk, me, peer)?;
    assert_eq!(&rt; (two.first, two.last), (3, 4));
    Ok(())
}
