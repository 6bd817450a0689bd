//! What all workers have: turns, until a gate stops them or a turn ends them.

ghost use Rattle.std.specs.Prelude.{IfNone, IfSome};
ghost use Rattle.swim_shell.specs.Work.{Starts, Goes, Runs};

use crate::caller::{Caller, Refusal};
use crate::gate::{Gate, Turn};
use std::sync::{Wait, WaitMethods};
use thiserror::Error;

/// How a worker ended itself.
#[derive(Clone, Copy, Debug, PartialEq, Eq, Error)]
pub enum WorkerEnd {
    /// Too many receives in a row failed.
    #[error("Fault")]
    Fault,
    /// Its last call was refused.
    #[error("{0}")]
    Refused(Refusal),
}

/// What has turns, with calls of a caller.
pub trait Worker<C: Caller> {
    ghost use Rattle.std.specs.Prelude.{ℕ};
    ghost use Rattle.swim_shell.specs.Calls.{CallerView};

    /// How it ends itself.
    type End;

    /// What it has done with a caller in so many turns, from what both were to what they are.
    ghost worked: { Self → CallerView → Self → CallerView → ℕ → Type 0 };

    /// What it has done if the last of these turns ended it so.
    ghost ended: { Self.End → Self → CallerView → Self → CallerView → ℕ → Type 0 };

    /// Gets ready for its first turn.
    fn begin(&mut self)
        ensures { Starts worked self.old self.new };

    /// One turn. Says how it ended the worker, if it did.
    fn turn(&mut self, caller: &mut C) -> Option<Self::End>
        ensures on { IfNone result (Goes worked worked self.old (C.known caller.old) self.new
            (C.known caller.new)) }
        ensures end { IfSome result (λ end. Goes worked (ended end) self.old (C.known caller.old)
            self.new (C.known caller.new)) };
}

/// Gives a worker its turns, until its gate stops it or a turn ends it. Says how it ended itself; none if its gate stopped it.
#[tactic(auto, using(crate::proofs::Running::runs_start, crate::proofs::Running::runs_on, crate::proofs::Running::runs_stopped, crate::proofs::Running::runs_ended))]
pub fn run<W: Wait, C: Caller, K: Worker<C>, G: Gate>(
    rt: &W,
    worker: &mut K,
    caller: &mut C,
    gate: &mut G,
) -> Option<K::End>
    ensures { Runs K.worked K.ended worker.old (C.known caller.old) worker.new (C.known caller.new)
        G.tells (G.turns gate.old) (G.turns gate.new) result }
{
    worker.begin();
    for _ in rt.forever() {
        match gate.turn() {
            Turn::Stop => return None,
            Turn::Go => {}
        }
        if let Some(end) = worker.turn(caller) {
            return Some(end);
        }
    }
    unreachable!()
}
