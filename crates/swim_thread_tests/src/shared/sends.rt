//! Outboxes and senders: a ring with one place, a link that refuses, a link that takes long.

ghost use Rattle.std.specs.Prelude.{◌≡◌, ◌+◌, []};

use crate::same::{holds, same};
use std::alloc::Global;
use std::marker::Brand;
use std::process::Abort;
use std::sync::Wait;
use std::sync::atomic::{AtomicBool, Ordering};
use std::test::Fail;
use std::thread::{self, Threads, join};
use swim_disk::Disk;
use swim_member::{Event, Note};
use swim_node::{Link, LinkFault, MemoryLink};
use swim_scenes::{endpoint, opened_by_plan, ping, update};
use swim_shared::{Name, Outbox, Parts, Pass, Sender, Shared};
use swim_wire::{Endpoint, Kind, UpdateKind, decode};

/// A ring with one place takes the ack of a ping, and then none of the two datagrams of a leave.
#[test]
fn one_place(rt: HostRuntime) -> Result<(), Fail> {
    let (node, _) = opened_by_plan(rt.alloc(), 4).expect(&rt, "a node");
    let (outbox, sender) = Outbox::new(rt.alloc(), 1).ok().expect(&rt, "memory");
    let parts = Parts::new(node, outbox, 1, 0);
    narrow::<Brand, _, _>(&rt, rt.alloc(), parts, sender)
}

fn narrow<N: Name, D: Disk + Drop, R: Wait + Abort>(
    rt: &R,
    alloc: Global,
    parts: Parts<D, Outbox>,
    mut sender: Sender,
) -> Result<(), Fail>
    requires book { parts.book ≡ N.book }
    requires base { parts.node.base ≡ N.base }
    requires disk { (D.state parts.node.disk).name ≡ N.disk }
    requires clock { (D.state parts.node.disk).clock ≡ N.clock }
    requires owner { parts.node.owner ≡ N.owner }
    requires first { parts.node.first ≡ N.first }
    requires link { parts.link.ring ≡ N.link }
    requires start { (parts.link.put ≡ N.start) × (N.start ≡ []) }
    requires sender { N.link ≡ sender.ring }
{
    let made = Shared::<N, D, Outbox, &R>::new(alloc, rt, parts);
    let (shared, mut passes, watches) = made.ok().expect(rt, "memory");
    let mut pass = passes.pop().expect(rt, "a pass");
    let two = [
        update(UpdateKind::Alive, 2, 1).expect(rt, "an update"),
        update(UpdateKind::Alive, 3, 1).expect(rt, "an update"),
    ];
    let event = ping(1, &two).expect(rt, "a ping");
    for (event, want) in [(event, (1, 0)), (Event::Leave, (0, 2))] {
        let reply = shared.call(rt, &mut pass, event).ok().expect(rt, "a reply");
        same(rt, (reply.sent, reply.lost), want);
    }
    let mut link = MemoryLink::new(alloc, 1);
    let sent = sender.turn(&mut link);
    same(rt, (sent.taken, sent.lost), (1, 0));
    passes.push(pass).ok().expect(rt, "memory");
    holds(rt, passes.len() < 17 && watches.len() < 17);
    let closed = shared.close_sent(passes, watches, sender, &mut link);
    same(rt, (closed.odd, closed.owed, closed.node.len()), (0, 0, 2));
    same(rt, link.taken().len(), 1);
    is_ack(rt, &link, 1)
}

/// The first datagram that the link took is the ack of this ping.
fn is_ack<R: Abort>(rt: &R, link: &MemoryLink, seq: u32) -> Result<(), Fail> {
    let taken = link.taken().first().expect(rt, "a datagram");
    same(rt, Some(taken.to), endpoint(2));
    let ack = decode(&taken.bytes).ok().expect(rt, "a text");
    same(
        rt,
        (ack.kind, ack.seq, Some(ack.sender)),
        (Kind::Ack, seq, endpoint(1)),
    );
    Ok(())
}

/// Of the acks of two pings a link refuses the second. The loss is owed, told in a call, and
/// settled; what is left in the ring at the end is handed on.
#[test]
fn second_send_fails(rt: HostRuntime) -> Result<(), Fail> {
    let (node, _) = opened_by_plan(rt.alloc(), 8).expect(&rt, "a node");
    let (outbox, sender) = Outbox::new(rt.alloc(), 256).ok().expect(&rt, "memory");
    let parts = Parts::new(node, outbox, 1, 0);
    told::<Brand, _, _>(&rt, rt.alloc(), parts, sender)
}

fn told<N: Name, D: Disk + Drop, R: Wait + Abort>(
    rt: &R,
    alloc: Global,
    parts: Parts<D, Outbox>,
    mut sender: Sender,
) -> Result<(), Fail>
    requires book { parts.book ≡ N.book }
    requires base { parts.node.base ≡ N.base }
    requires disk { (D.state parts.node.disk).name ≡ N.disk }
    requires clock { (D.state parts.node.disk).clock ≡ N.clock }
    requires owner { parts.node.owner ≡ N.owner }
    requires first { parts.node.first ≡ N.first }
    requires link { parts.link.ring ≡ N.link }
    requires start { (parts.link.put ≡ N.start) × (N.start ≡ []) }
    requires sender { N.link ≡ sender.ring }
{
    let made = Shared::<N, D, Outbox, &R>::new(alloc, rt, parts);
    let (shared, mut passes, watches) = made.ok().expect(rt, "memory");
    let mut pass = passes.pop().expect(rt, "a pass");
    for seq in 1..3 {
        let event = ping(seq, &[]).expect(rt, "a ping");
        holds(rt, shared.call(rt, &mut pass, event).is_ok());
    }
    let mut link = MemoryLink::new(alloc, 1);
    link.lose(2);
    let sent = sender.turn(&mut link);
    same(rt, (sent.taken, sent.lost, sender.owed()), (1, 1, 1));
    let count = sender.owed();
    let told = shared.call(rt, &mut pass, Event::SendFailed { count });
    let notes = told.ok().expect(rt, "a reply").notes;
    same(rt, notes.as_slice(), [Note::SendFailed(1)].as_slice());
    sender.settle();
    same(rt, sender.owed(), 0);
    let event = ping(3, &[]).expect(rt, "a ping");
    holds(rt, shared.call(rt, &mut pass, event).is_ok());
    passes.push(pass).ok().expect(rt, "memory");
    holds(rt, passes.len() < 17 && watches.len() < 17);
    let closed = shared.close_sent(passes, watches, sender, &mut link);
    same(rt, (closed.odd, closed.owed, closed.node.len()), (0, 0, 4));
    same(rt, link.taken().len(), 2);
    is_ack(rt, &link, 1)
}

/// A link whose send lasts until a flag is up, or for 1,000,000 turns.
#[derive(Drop)]
struct Held<'a> {
    inside: &'a AtomicBool,
    answered: &'a AtomicBool,
    ran_out: bool,
}

impl<'a> Link for Held<'a> {
    ghost use Rattle.std.specs.Prelude.{[]};
    ghost use Rattle.swim_node.specs.Link.{link_number};

    ghost name = { λ _. link_number 0 };

    ghost tells = { ⊥ };

    ghost took = { λ _. [] };

    ghost failures = { λ _. 0 };

    fn send(&mut self, to: Endpoint, bytes: &[u8]) -> Result<(), LinkFault> {
        let _ = to;
        let _ = bytes.len();
        self.inside.store(true, Ordering::SeqCst);
        self.ran_out = !is_up_in_time(self.answered);
        Ok(())
    }
}

/// Whether the flag is up within 1,000,000 turns.
fn is_up_in_time(flag: &AtomicBool) -> bool {
    for _ in 0..1_000_000 {
        if flag.load(Ordering::SeqCst) {
            return true;
        }
        thread::yield_now();
    }
    false
}

/// A call is answered while the sender's link is inside a send, which lasts until then. Under the
/// lock the send would run out of turns.
#[test]
fn held_send(rt: HostRuntime) -> Result<(), Fail> {
    let (node, _) = opened_by_plan(rt.alloc(), 4).expect(&rt, "a node");
    let (outbox, sender) = Outbox::new(rt.alloc(), 4).ok().expect(&rt, "memory");
    let parts = Parts::new(node, outbox, 1, 0);
    call_beside::<Brand, _, _>(&rt, rt.alloc(), parts, sender)
}

fn call_beside<N: Name + Send + Sync, D: Disk + Drop + Send, R: Threads + Wait + Abort + Sync>(
    rt: &R,
    alloc: Global,
    parts: Parts<D, Outbox>,
    sender: Sender,
) -> Result<(), Fail>
    requires book { parts.book ≡ N.book }
    requires base { parts.node.base ≡ N.base }
    requires disk { (D.state parts.node.disk).name ≡ N.disk }
    requires clock { (D.state parts.node.disk).clock ≡ N.clock }
    requires owner { parts.node.owner ≡ N.owner }
    requires first { parts.node.first ≡ N.first }
    requires link { parts.link.ring ≡ N.link }
    requires start { parts.link.put ≡ N.start }
{
    let made = Shared::<N, D, Outbox, &R>::new(alloc, rt, parts);
    let (shared, mut passes, watches) = made.ok().expect(rt, "memory");
    let mut pass = passes.pop().expect(rt, "a pass");
    let event = ping(1, &[]).expect(rt, "a ping");
    holds(rt, shared.call(rt, &mut pass, event).is_ok());
    let inside = AtomicBool::new(false);
    let answered = AtomicBool::new(false);
    let link = Held {
        inside: &inside,
        answered: &answered,
        ran_out: false,
    };
    let event = ping(2, &[]).expect(rt, "a ping");
    let (sent, (pass, is_answered)) = sending(rt, &shared, pass, event, sender, link);
    same(rt, sent, (1, 0, false));
    holds(rt, is_answered);
    passes.push(pass).ok().expect(rt, "memory");
    holds(rt, passes.len() < 17 && watches.len() < 17);
    let closed = shared.close(passes, watches);
    same(rt, (closed.odd, closed.node.len()), (0, 2));
    Ok(())
}

/// One turn of the sender on a thread, and a call beside it.
fn sending<'a, N: Name + Send + Sync, D: Disk + Drop + Send, R: Threads + Wait + Abort + Sync>(
    rt: &R,
    shared: &Shared<N, D, Outbox, &R>,
    pass: Pass<N>,
    event: Event,
    sender: Sender,
    link: Held<'a>,
) -> ((u32, u32, bool), (Pass<N>, bool)) {
    let inside = link.inside;
    let answered = link.answered;
    join(
        rt,
        || turn_held(sender, link),
        || call_inside(rt, shared, pass, event, inside, answered),
    )
}

/// What the link took and refused, and whether a send ran out of turns.
fn turn_held<'a>(mut sender: Sender, mut link: Held<'a>) -> (u32, u32, bool) {
    let sent = sender.turn(&mut link);
    (sent.taken, sent.lost, link.ran_out)
}

/// Whether a call is answered that begins while the link is inside a send.
fn call_inside<N: Name, D: Disk + Drop, R: Wait>(
    rt: &R,
    shared: &Shared<N, D, Outbox, &R>,
    mut pass: Pass<N>,
    event: Event,
    inside: &AtomicBool,
    answered: &AtomicBool,
) -> (Pass<N>, bool) {
    let begins = is_up_in_time(inside);
    let is_answered = shared.call(rt, &mut pass, event).is_ok();
    answered.store(true, Ordering::SeqCst);
    (pass, begins && is_answered)
}
