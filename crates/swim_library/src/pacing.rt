//! Ticks by the program's clock.

ghost use Rattle.std.specs.Prelude.{◌≡◌, ◌≢◌, ◌<◌, ◌≤◌, [], IfErr, IfOk, IsErrOf, IsOk, OnErr};
ghost use Rattle.swim_library.specs.Outbox.{waiting_in};
ghost use Rattle.swim_library.specs.Pacing.{Advances, FollowsClock, FollowsInVain, a_tick_after, next_tick_due, tick_due};
ghost use Rattle.swim_library.specs.Seeking.{HasNoTurn};
ghost use Rattle.swim_library.specs.declared.refusal.Refusal.TheVariants as why;

use crate::refusal::Refusal;
use crate::running::Running;

/// How many milliseconds a tick lasts.
pub(crate) const TICK_MS: u64 = 100;

/// A tick after this time.
fn a_tick_after(time: u64) -> u64
    ensures { result ≡ a_tick_after time }
{
    time.saturating_add(TICK_MS)
}

/// When the tick is due that follows one that was due then. One that is late by more than a tick puts the others off.
fn due_after(due: u64, now: u64) -> u64
    ensures { result ≡ next_tick_due due now }
{
    let next = a_tick_after(due);
    if now <= next { next } else { a_tick_after(now) }
}

impl Running {
    /// When the next tick is due.
    fn due_at(&self, now: u64) -> u64
        ensures { result ≡ tick_due self.now now }
    {
        match self.due {
            Some(due) => due,
            None => a_tick_after(now),
        }
    }

    /// Makes the tick that is due, if one is, and says when the next one is.
    fn advance(&mut self, now: u64, random: u64) -> Result<u64, Refusal>
        ensures advances { IfOk result (Advances self.old self.new now) }
        ensures early { now < tick_due self.old now → IsOk result }
        ensures waits { IsErrOf result why.Waiting → waiting_in self.old.outbox ≢ [] }
        ensures late { tick_due self.old now ≤ now → waiting_in self.old.outbox ≢ []
            → IsErrOf result why.Waiting }
        ensures refused { IfErr result (λ refusal. refusal ≢ why.Waiting
            → refusal ≡ why.NoMemory) }
        ensures same { OnErr result (self.new ≡ self.old) }
    {
        let due = self.due_at(now);
        if now < due {
            self.due = Some(due);
            return Ok(due);
        }
        match self.tick(random) {
            Ok(()) => {
                let next = due_after(due, now);
                self.due = Some(next);
                Ok(next)
            }
            Err(refusal) => Err(refusal),
        }
    }

    /// Time is what the program's clock says: makes the tick that is due, if one is, and then its joiner has a turn. Says when to call
    /// again.
    #[tactic(auto, using(crate::proofs::Turning::follows, crate::proofs::Turning::follows_in_vain))]
    pub(crate) fn follow_clock(&mut self, now: u64, random: u64) -> Result<u64, Refusal>
        ensures follows { IfOk result (FollowsClock self.old self.new now) }
        ensures early { now < tick_due self.old now → HasNoTurn self.old → IsOk result }
        ensures waits { IsErrOf result why.Waiting → waiting_in self.old.outbox ≢ [] }
        ensures late { tick_due self.old now ≤ now → waiting_in self.old.outbox ≢ []
            → IsErrOf result why.Waiting }
        ensures refused { IfErr result (λ refusal. refusal ≢ why.Waiting
            → refusal ≡ why.NoMemory) }
        ensures same { IsErrOf result why.Waiting → self.new ≡ self.old }
        ensures in_vain { IsErrOf result why.NoMemory
            → FollowsInVain self.old self.new now }
    {
        let due = self.advance(now, random)?;
        self.seek(now, due)
    }
}
