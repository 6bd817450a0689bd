//! How long a member goes on that has to end, and how it ends after an era.

ghost use Rattle.std.specs.Prelude.{◌≡◌, ◌≤◌, None, false, IfErr, IfNone, IfOk, IfSome, IsOk, IsSome, IsTrue};
ghost use Rattle.swim_member.specs.declared.state.Phase.TheVariants as phases;
ghost use Rattle.swim_serve.specs.Faults.{fault_of};
ghost use Rattle.swim_serve.specs.Members.{EndsMember, FailsMember, end_by_phase, member_end};

use crate::chores::Chores;
use crate::era::EraEnds;
use crate::expulsion::Expulsion;
use crate::fault::{Fault, fault_of};
use crate::outside::Outside;
use crate::tick_timer::TickTimer;
use log::Log;
use std::thread;
use std::time::{Clock, Duration};
use swim_member::Phase;
use swim_node::Link;
use swim_shell::{ControlEnd, Doors, Inbound};

/// How many eras in a row may have no thread for a worker before the member ends.
const FAMINE_MAX: u32 = 100;

/// How long it waits after one of them, in milliseconds.
const FAMINE_MILLIS: u64 = 100;

/// How a member ends that no fault ends.
#[derive(Clone, Copy, Debug, PartialEq, Eq)]
pub enum MemberEnd {
    /// The line `stop` told it to.
    Stopped,
    /// It was expelled.
    Expelled,
}

/// Whether the wait of a member that is expelled is over, after an era of this timer. If it is not, the next era ends then.
fn is_wait_over(expulsion: &mut Expulsion, timer: &mut TickTimer, phase: Phase) -> bool
    requires { IsSome expulsion.old.end_at → IsSome expulsion.old.wait }
    ensures wait { expulsion.new.wait ≡ expulsion.old.wait }
    ensures ends { IsTrue result → IsSome expulsion.old.wait }
    ensures known { IsSome expulsion.new.end_at → IsSome expulsion.new.wait }
    ensures over { IsTrue result → IfSome expulsion.new.end_at (λ at. at ≤ timer.old.made) }
    ensures not_yet { phase ≡ phases.Expelled → result ≡ false
        → IfSome expulsion.new.end_at (λ at. timer.new.end_at ≤ at) }
{
    if phase != Phase::Expelled {
        return false;
    }
    let Some(at) = expulsion.end_at(timer.made()) else {
        return false;
    };
    timer.end_era_by(at);
    at <= timer.made()
}

/// How many eras in a row had no thread for one of their workers.
#[derive(Clone, Copy)]
struct Famine {
    eras: u32,
}

impl Famine {
    /// None had.
    fn new() -> Famine {
        Famine { eras: 0 }
    }

    /// After an era that had all its threads, or not: then it waits, since others may have used up a limit for a moment. An error is
    /// that this goes on for some seconds.
    fn wait<W: Clock>(&mut self, rt: &W, had_threads: bool) -> Result<(), Fault>
        ensures had { IsTrue had_threads → IsOk result }
        ensures err { IfErr result (λ fault. fault ≡ Fault.Threads) }
    {
        if had_threads {
            self.eras = 0;
            return Ok(());
        }
        if self.eras >= FAMINE_MAX {
            return Err(Fault::Threads);
        }
        self.eras += 1;
        thread::sleep(rt, Duration::from_millis(FAMINE_MILLIS));
        Ok(())
    }
}

/// How a member in this phase ends by it, if it does.
fn end_by_phase(phase: Phase, is_over: bool) -> Option<MemberEnd>
    ensures { result ≡ end_by_phase phase is_over }
{
    match phase {
        Phase::Expelled => {
            if is_over {
                Some(MemberEnd::Expelled)
            } else {
                None
            }
        }
        Phase::Running | Phase::Left => None,
    }
}

/// How the member ends after an era, if it does: told by the line `stop`, or else expelled, once its wait is over.
fn member_end(control: Option<ControlEnd>, phase: Phase, is_over: bool) -> Option<MemberEnd>
    ensures { result ≡ member_end control phase is_over }
{
    match control {
        Some(ControlEnd::Asked) => Some(MemberEnd::Stopped),
        _ => end_by_phase(phase, is_over),
    }
}

/// How long a member goes on that has to end: one that is expelled, and one that gets no threads.
#[derive(Drop)]
pub(crate) struct Grace {
    expulsion: Expulsion,
    famine: Famine,
}

impl Grace {
    /// Of a member that is neither. If it is to end once it is expelled, it waits for so many ticks then.
    pub(crate) fn new(expelled_ends: Option<u64>) -> Grace
        ensures wait { result.expulsion.wait ≡ expelled_ends }
        ensures not_yet { result.expulsion.end_at ≡ None }
    {
        Grace {
            expulsion: Expulsion::new(expelled_ends),
            famine: Famine::new(),
        }
    }

    /// How the member ends after an era whose workers ended so, if it does; if it waits, its next era ends once that is over. An error
    /// is the fault that ends it.
    pub(crate) fn end_after<
        I: Inbound + Drop,
        M: Link + Drop,
        R: Log + Clock + Drop,
        O: Doors + Chores + Drop,
    >(
        &mut self,
        rt: &R,
        ends: EraEnds,
        had_threads: bool,
        phase: Phase,
        outside: &mut Outside<I, M, R, O>,
    ) -> Option<Result<MemberEnd, Fault>>
        requires { IsSome self.old.expulsion.end_at → IsSome self.old.expulsion.wait }
        ensures wait { self.new.expulsion.wait ≡ self.old.expulsion.wait }
        ensures known { IsSome self.new.expulsion.end_at → IsSome self.new.expulsion.wait }
        ensures ended { IfSome result (λ how. IfOk how (EndsMember self.old.expulsion.wait ends
            phase)) }
        ensures failed { IfSome result (λ how. IfErr how (FailsMember ends)) }
        ensures sound { IfNone result (fault_of ends ≡ None) }
        ensures same { outside.new ≡ outside.old }
    {
        if let Some(fault) = fault_of(&ends) {
            return Some(Err(fault));
        }
        if let Err(fault) = self.famine.wait(rt, had_threads) {
            return Some(Err(fault));
        }
        let is_over = is_wait_over(&mut self.expulsion, &mut outside.timer, phase);
        let end = member_end(ends.control, phase, is_over)?;
        Some(Ok(end))
    }
}
