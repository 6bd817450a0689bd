//! Callers of one node, on one thread and on two.

ghost use Rattle.std.specs.Prelude.{◌≡◌, ◌+◌, [], length};
ghost use Rattle.swim_node.specs.Link.{link_number};

use super::thirds::{Thirds, every_third};
use crate::same::{holds, same};
use std::alloc::Global;
use std::marker::Brand;
use std::process::Abort;
use std::sync::Wait;
use std::test::Fail;
use std::thread::{Threads, join};
use swim_disk::Disk;
use swim_member::Event;
use swim_node::Node;
use swim_scenes::{opened_by_plan, ping, suspicion};
use swim_shared::{CallFault, Closed, Name, Parts, Pass, Shared};

/// After the first answered call a watch is shown it, and reads a status of length 1.
#[test]
fn first_call(rt: HostRuntime) -> Result<(), Fail> {
    let (node, _) = opened_by_plan(rt.alloc(), 4).expect(&rt, "a node");
    let parts = Parts::new(node, every_third(), 1, 1);
    first::<Brand, _, _>(&rt, rt.alloc(), parts)
}

fn first<N: Name, D: Disk + Drop, R: Wait + Abort>(
    rt: &R,
    alloc: Global,
    parts: Parts<D, Thirds>,
) -> Result<(), Fail>
    requires book { parts.book ≡ N.book }
    requires base { parts.node.base ≡ N.base }
    requires disk { (D.state parts.node.disk).name ≡ N.disk }
    requires clock { (D.state parts.node.disk).clock ≡ N.clock }
    requires owner { parts.node.owner ≡ N.owner }
    requires first { parts.node.first ≡ N.first }
    requires link { link_number 0 ≡ N.link }
{
    let made = Shared::<N, D, Thirds, &R>::new(alloc, rt, parts);
    let (shared, mut passes, mut watches) = made.ok().expect(rt, "memory");
    let mut pass = passes.pop().expect(rt, "a pass");
    let mut watch = watches.pop().expect(rt, "a watch");
    same(rt, watch.read().expect(rt, "a status").length, 0);
    let event = ping(1, &[]).expect(rt, "a ping");
    let reply = shared.call(rt, &mut pass, event);
    let status = reply.ok().expect(rt, "a reply").status;
    holds(rt, shared.show(rt, &mut pass, &mut watch));
    let read = watch.read().expect(rt, "a status");
    same(rt, (read, read.length), (status, 1));
    Ok(())
}

/// Three eras of one node in a row, of two calls each. Each begins with turn 1, and the numbers go
/// on.
#[test]
fn three_eras(rt: HostRuntime) -> Result<(), Fail> {
    let alloc = rt.alloc();
    let (node, _) = opened_by_plan(alloc, 2).expect(&rt, "a node");
    let parts = Parts::new(node, every_third(), 1, 0);
    let closed = one_era::<Brand, _, _>(&rt, alloc, parts, 1)?;
    let mut node = closed.node;
    node.rebase();
    let parts = Parts::new(node, closed.link, 1, 0);
    let closed = one_era::<Brand, _, _>(&rt, alloc, parts, 2)?;
    let mut node = closed.node;
    same(&rt, node.end_era().journal().len(), 2);
    let parts = Parts::new(node, closed.link, 1, 0);
    let closed = one_era::<Brand, _, _>(&rt, alloc, parts, 3)?;
    same(&rt, closed.node.status().number, 4);
    Ok(())
}

/// An era of two calls, in which this number is suspected, and a third that finds it full.
fn one_era<N: Name, D: Disk + Drop, R: Wait + Abort>(
    rt: &R,
    alloc: Global,
    parts: Parts<D, Thirds>,
    number: u64,
) -> Result<Closed<D, Thirds>, Fail>
    requires book { parts.book ≡ N.book }
    requires base { parts.node.base ≡ N.base }
    requires disk { (D.state parts.node.disk).name ≡ N.disk }
    requires clock { (D.state parts.node.disk).clock ≡ N.clock }
    requires owner { parts.node.owner ≡ N.owner }
    requires first { parts.node.first ≡ N.first }
    requires link { link_number 0 ≡ N.link }
{
    let made = Shared::<N, D, Thirds, &R>::new(alloc, rt, parts);
    let (shared, mut passes, watches) = made.ok().expect(rt, "memory");
    let mut pass = passes.pop().expect(rt, "a pass");
    let event = suspicion(number).expect(rt, "a ping");
    let reply = shared.call(rt, &mut pass, event);
    let status = reply.ok().expect(rt, "a reply").status;
    same(
        rt,
        (status.length, status.number),
        (1, number.wrapping_add(1)),
    );
    holds(rt, shared.call(rt, &mut pass, Event::ReceiveFailed).is_ok());
    let full = shared.call(rt, &mut pass, Event::ReceiveFailed);
    holds(rt, matches!(full, Err(CallFault::EraFull)));
    same(
        rt,
        (pass.calls(), pass.len(), pass.is_spent()),
        (2, 2, false),
    );
    passes.push(pass).ok().expect(rt, "memory");
    holds(rt, passes.len() < 17 && watches.len() < 17);
    let closed = shared.close(passes, watches);
    same(rt, (closed.odd, closed.node.len()), (0, 2));
    Ok(closed)
}

/// Two callers with 50 calls each fill an era of 100, while every third send and every fifth
/// receive fail. Then the journal has the turns of each in order, and its replies are those of a
/// node on one thread.
#[test]
fn two_callers(rt: HostRuntime) -> Result<(), Fail> {
    let (node, _) = opened_by_plan(rt.alloc(), 100).expect(&rt, "a node");
    let parts = Parts::new(node, every_third(), 2, 1);
    let closed = fill::<Brand, _, _>(&rt, rt.alloc(), parts)?;
    replays(&rt, rt.alloc(), &closed.node);
    Ok(())
}

fn fill<N: Name + Send + Sync, D: Disk + Drop + Send, R: Threads + Wait + Abort + Sync>(
    rt: &R,
    alloc: Global,
    parts: Parts<D, Thirds>,
) -> Result<Closed<D, Thirds>, Fail>
    requires book { parts.book ≡ N.book }
    requires base { parts.node.base ≡ N.base }
    requires disk { (D.state parts.node.disk).name ≡ N.disk }
    requires clock { (D.state parts.node.disk).clock ≡ N.clock }
    requires owner { parts.node.owner ≡ N.owner }
    requires first { parts.node.first ≡ N.first }
    requires link { link_number 0 ≡ N.link }
{
    let made = Shared::<N, D, Thirds, &R>::new(alloc, rt, parts);
    let (shared, mut passes, mut watches) = made.ok().expect(rt, "memory");
    let second = passes.pop().expect(rt, "two passes");
    let first = passes.pop().expect(rt, "a pass");
    let mut watch = watches.pop().expect(rt, "a watch");
    let ((mut first, ones), (second, twos)) = both(rt, &shared, first, second);
    same(rt, (ones, twos), (50, 50));
    let full = shared.call(rt, &mut first, Event::ReceiveFailed);
    holds(rt, matches!(full, Err(CallFault::EraFull)));
    holds(rt, shared.show(rt, &mut first, &mut watch));
    same(rt, watch.read().expect(rt, "a status").length, 100);
    passes.push(first).ok().expect(rt, "memory");
    passes.push(second).ok().expect(rt, "memory");
    watches.push(watch).ok().expect(rt, "memory");
    holds(rt, passes.len() < 17 && watches.len() < 17);
    let closed = shared.close(passes, watches);
    same(rt, (closed.odd, closed.node.len()), (0, 100));
    Ok(closed)
}

/// The first 50 calls of two passes, each on its own thread.
fn both<N: Name + Send + Sync, D: Disk + Drop + Send, R: Threads + Wait + Abort + Sync>(
    rt: &R,
    shared: &Shared<N, D, Thirds, &R>,
    first: Pass<N>,
    second: Pass<N>,
) -> ((Pass<N>, u32), (Pass<N>, u32)) {
    join(
        rt,
        || fifty(rt, shared, first),
        || fifty(rt, shared, second),
    )
}

/// The first 50 calls of a pass, and how many were answered.
fn fifty<N: Name + Send + Sync, D: Disk + Drop + Send, R: Wait + Abort + Sync>(
    rt: &R,
    shared: &Shared<N, D, Thirds, &R>,
    mut pass: Pass<N>,
) -> (Pass<N>, u32) {
    let mut answered = 0u32;
    for turn in 1..51 {
        if shared.call(rt, &mut pass, at_turn(rt, turn)).is_ok() {
            answered = answered.wrapping_add(1);
        }
    }
    (pass, answered)
}

/// What happens at a caller's turn: a ping, but every fifth receive fails.
fn at_turn(rt: &impl Abort, turn: u32) -> Event {
    if turn % 5 == 0 {
        Event::ReceiveFailed
    } else {
        ping(turn, &[]).expect(rt, "a ping")
    }
}

/// The turns of each caller count from 1 to 50, and the replies are those of a node on one thread.
fn replays<D: Disk>(rt: &impl Abort, alloc: Global, node: &Node<D>) {
    let (mut alone, _) = opened_by_plan(alloc, 100).expect(rt, "a node");
    let mut link = every_third();
    let mut turns = [0u32; 2];
    for entry in node.journal() {
        let caller = entry.tag.caller;
        holds(rt, caller < 2);
        turns[caller as usize] = turns[caller as usize].wrapping_add(1);
        same(rt, entry.tag.turn, turns[caller as usize]);
        let event = at_turn(rt, entry.tag.turn);
        let reply = alone
            .apply(&mut link, entry.tag, event)
            .ok()
            .expect(rt, "an entry");
        same(rt, reply.status, entry.reply.status);
        same(
            rt,
            (reply.sent, reply.lost),
            (entry.reply.sent, entry.reply.lost),
        );
        same(rt, reply.notes.as_slice(), entry.reply.notes.as_slice());
        same(rt, reply.page.as_slice(), entry.reply.page.as_slice());
    }
    same(rt, turns, [50, 50]);
}
