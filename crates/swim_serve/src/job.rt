//! A worker with all that it works with.

use crate::shutdown::Shutdown;
use crate::threads::Work;
use std::sync::Wait;
use swim_handle::IntoParts;
use swim_shell::{Alarm, Gate, Worker, run};

/// A worker with its caller and its gate. Its end is the end of all.
#[derive(Drop)]
pub struct Job<'a, W: Wait, C: IntoParts + Drop, K: Worker<C> + Drop, G: Gate + Drop, M: Alarm> {
    /// By which it waits.
    pub rt: &'a W,
    /// The worker.
    pub worker: K,
    /// By whom it calls.
    pub caller: C,
    /// What is asked before each of its turns.
    pub gate: G,
    /// What ends all others.
    pub shutdown: &'a Shutdown<'a, M>,
}

/// A worker, and by whom it calls.
#[derive(Drop)]
pub struct Manned<C: IntoParts + Drop, K: Worker<C> + Drop> {
    /// The worker.
    pub worker: K,
    /// By whom it calls.
    pub caller: C,
}

/// What is left of a job: a worker, for the next era, and parts of its caller.
#[derive(Drop)]
pub struct Left<K: Drop, P: Drop, E: Drop> {
    /// The worker.
    pub worker: K,
    /// What is left of its caller, which has seen all calls of the worker.
    pub parts: P,
    /// How the worker ended itself; none if its gate stopped it.
    pub end: Option<E>,
}

impl<
    'a,
    W: Wait,
    C: IntoParts<Parts: Drop> + Drop,
    K: Worker<C, End: Drop> + Drop,
    G: Gate + Drop,
    M: Alarm,
> Work for Job<'a, W, C, K, G, M> {
    ghost use Rattle.swim_serve.specs.Works.{LeftBy, Worked};

    type Done = Left<K, C::Parts, K::End>;

    ghost does = { λ job left. LeftBy (Worked K.worked K.ended) C.parted job.worker
        (C.known job.caller) left.worker left.parts left.end };

    #[tactic(auto, using(crate::proofs::Working::runs_left))]
    fn work(self) -> Left<K, C::Parts, K::End> {
        let Job {
            rt,
            mut worker,
            mut caller,
            mut gate,
            shutdown,
        } = self;
        let end = run(rt, &mut worker, &mut caller, &mut gate);
        shutdown.end();
        Left {
            worker,
            parts: caller.into_parts(),
            end,
        }
    }
}
