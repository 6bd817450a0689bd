//! One era of a member under its lock, whatever is done in it.

ghost use Rattle.std.specs.Prelude.{◌≡◌};

use crate::call_again::{self, CallAgain};
use crate::load::{Locked, Timed};
use crate::two_callers;
use std::alloc::Global;
use std::marker::Brand;
use std::sync::Wait;
use std::thread::Threads;
use std::time::{Clock, Duration};
use swim_disk::Disk;
use swim_node::Link;
use swim_shared::{Name, Parts, Pass, Shared, Watch};

/// What is done in an era.
#[derive(Drop)]
pub(crate) enum Work {
    /// The calls of callers on threads of their own, which a watch is then shown.
    TwoCallers,
    /// Calls that are made again where there was no memory.
    CallAgain(CallAgain),
    /// A load.
    Load(Timed),
}

/// What came of it.
#[derive(Drop)]
pub(crate) enum Done<D: Disk> {
    /// What two callers left.
    TwoCallers(two_callers::Ended<D>),
    /// What calls that were made again left.
    CallAgain(call_again::Ended<D>),
    /// How long a load took.
    Load(Duration),
}

/// Does the work. None where there is no memory, or it did not end as it should.
fn do_work<
    N: Name + Send + Sync,
    D: Disk + Drop + Send,
    L: Link + Drop + Send,
    R: Threads + Wait + Clock + Sync,
>(
    rt: &R,
    shared: Shared<N, D, L, &R>,
    passes: Vec<Pass<N>>,
    watches: Vec<Watch<N>>,
    work: Work,
) -> Option<Done<D>> {
    Some(match work {
        Work::TwoCallers => Done::TwoCallers(two_callers::called(rt, shared, passes, watches)?),
        Work::CallAgain(again) => Done::CallAgain(again.called(rt, shared, passes, watches)?),
        Work::Load(timed) => {
            let member = Locked {
                rt,
                shared: &shared,
            };
            Done::Load(timed.took(rt, &member, passes, watches)?)
        }
    })
}

/// The work on these parts, which `N` names.
fn named<
    N: Name + Send + Sync,
    D: Disk + Drop + Send,
    L: Link + Drop + Send,
    R: Threads + Wait + Clock + Sync,
>(rt: &R, alloc: Global, parts: Parts<D, L>, work: Work) -> Option<Done<D>>
    requires book { parts.book ≡ N.book }
    requires base { parts.node.base ≡ N.base }
    requires disk { (D.state parts.node.disk).name ≡ N.disk }
    requires clock { (D.state parts.node.disk).clock ≡ N.clock }
    requires owner { parts.node.owner ≡ N.owner }
    requires first { parts.node.first ≡ N.first }
    requires link { L.name parts.link ≡ N.link }
    requires start { L.tells → L.took parts.link ≡ N.start }
{
    let (shared, passes, watches) = match Shared::<N, D, L, &R>::new(alloc, rt, parts) {
        Ok(made) => made,
        Err(parts) => Shared::<N, D, L, &R>::new(alloc, rt, parts).ok()?,
    };
    do_work(rt, shared, passes, watches, work)
}

/// Does the work in an era of these parts. A lock that is refused is tried once more. None where
/// there is no memory, or the work did not end as it should.
pub(crate) fn era<D: Disk + Drop + Send, L: Link + Drop + Send, R: Threads + Wait + Clock + Sync>(
    rt: &R,
    alloc: Global,
    parts: Parts<D, L>,
    work: Work,
) -> Option<Done<D>> {
    named::<Brand, _, _, _>(rt, alloc, parts, work)
}
