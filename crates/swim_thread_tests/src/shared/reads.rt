//! A watch beside a call that takes long.

ghost use Rattle.std.specs.Prelude.{◌≡◌, ◌+◌};
ghost use Rattle.swim_node.specs.Link.{link_number};

use super::thirds::{Thirds, every_third};
use crate::same::{holds, same};
use std::alloc::Global;
use std::marker::Brand;
use std::process::Abort;
use std::sync::Wait;
use std::test::Fail;
use std::thread::{self, Threads, join};
use swim_disk::{Disk, Plan};
use swim_member::Event;
use swim_node::Status;
use swim_scenes::{opened_by_plan, suspicion};
use swim_shared::{Name, Parts, Pass, Shared, Watch};

/// A save is held inside the disk's sync until a status was read beside it, which is the one before
/// the call. Under one lock for both the reader would run out of turns.
#[test]
fn held_save(rt: HostRuntime) -> Result<(), Fail> {
    let (node, plan) = opened_by_plan(rt.alloc(), 4).expect(&rt, "a node");
    let parts = Parts::new(node, every_third(), 1, 1);
    read_beside::<Brand, _, _>(&rt, rt.alloc(), parts, plan)
}

fn read_beside<N: Name + Send + Sync, D: Disk + Drop + Send, R: Threads + Wait + Abort + Sync>(
    rt: &R,
    alloc: Global,
    parts: Parts<D, Thirds>,
    plan: Plan,
) -> Result<(), Fail>
    requires book { parts.book ≡ N.book }
    requires base { parts.node.base ≡ N.base }
    requires disk { (D.state parts.node.disk).name ≡ N.disk }
    requires clock { (D.state parts.node.disk).clock ≡ N.clock }
    requires owner { parts.node.owner ≡ N.owner }
    requires first { parts.node.first ≡ N.first }
    requires link { link_number 0 ≡ N.link }
{
    let made = Shared::<N, D, Thirds, &R>::new(alloc, rt, parts);
    let (shared, mut passes, mut watches) = made.ok().expect(rt, "memory");
    let pass = passes.pop().expect(rt, "a pass");
    let mut watch = watches.pop().expect(rt, "a watch");
    let before = watch.read().expect(rt, "a status");
    same(rt, (before.length, before.number), (0, 1));
    plan.hold_sync();
    let event = suspicion(1).expect(rt, "a ping");
    let ((mut pass, answered), (mut watch, read, held)) = beside(
        rt, &shared, pass, event, watch, plan,
    );
    same(rt, (answered, read, held), (true, Some(before), true));
    holds(rt, shared.show(rt, &mut pass, &mut watch));
    let after = watch.read().expect(rt, "a status");
    same(rt, (after.length, after.number), (1, 2));
    Ok(())
}

/// Whether a call was answered on one thread, and what a watch read on another while the disk was
/// held.
fn beside<N: Name + Send + Sync, D: Disk + Drop + Send, R: Threads + Wait + Abort + Sync>(
    rt: &R,
    shared: &Shared<N, D, Thirds, &R>,
    pass: Pass<N>,
    event: Event,
    watch: Watch<N>,
    plan: Plan,
) -> ((Pass<N>, bool), (Watch<N>, Option<Status>, bool)) {
    join(
        rt,
        || one_call(rt, shared, pass, event),
        || read_while_held(plan, watch),
    )
}

/// Whether the call is answered.
fn one_call<N: Name, D: Disk + Drop, R: Wait>(
    rt: &R,
    shared: &Shared<N, D, Thirds, &R>,
    mut pass: Pass<N>,
    event: Event,
) -> (Pass<N>, bool) {
    let answered = shared.call(rt, &mut pass, event).is_ok();
    (pass, answered)
}

/// The status that is read while a sync is held, and whether it was still held then.
fn read_while_held<N: Name>(plan: Plan, mut watch: Watch<N>) -> (Watch<N>, Option<Status>, bool) {
    for _ in 0..1_000_000 {
        if plan.is_held() {
            break;
        }
        thread::yield_now();
    }
    let status = watch.read();
    let held = plan.is_held();
    plan.go_on();
    (watch, status, held)
}
