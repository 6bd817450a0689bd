//! When ticks are due, and the gate by which the ticker rests until then.

ghost use Rattle.std.specs.Prelude.{◌≡◌, ◌+◌, ◌-◌, ◌*◌, ◌<◌, ◌≤◌, ◌↔◌, min, max, IsTrue, false};
ghost use Rattle.std.specs.Prelude.{IfSome, IsSome};
ghost use Rattle.std.specs.Duration.{as_nanos, max_nanos};

use std::sync::Wait;
use std::time::{Clock, Duration};
use swim_handle::Pace;
use swim_shell::{Gate, Turn};

/// When ticks are due, from one era to the next: an era's end puts no tick off, and neither does what a tick takes. It also
/// ends eras that are not full: after so many ticks of a life, twice as many, and so on. The peers that the member knows are
/// kept at an era's end, so those that it meets first are in its state file soon.
#[derive(Clone, Copy, Debug, PartialEq, Eq)]
pub struct TickTimer {
    tick: Duration,
    /// When the next tick is due, by the clock that only rises; none before the first.
    due: Option<Duration>,
    /// How many ticks were made.
    made: u64,
    /// How many were made when the next era ends that isn't full.
    end_at: u64,
}

/// When the tick is due that follows one that was due then. One that is late by more than a tick puts the others off.
fn due_after(due: Duration, tick: Duration, now: Duration) -> Duration
    ensures on_time { let next = min (as_nanos due + as_nanos tick) max_nanos in
        as_nanos now ≤ next → as_nanos result ≡ next }
    ensures late { min (as_nanos due + as_nanos tick) max_nanos < as_nanos now
        → as_nanos result ≡ min (as_nanos now + as_nanos tick) max_nanos }
{
    let next = due.saturating_add(tick);
    if now.saturating_sub(next).is_zero() {
        next
    } else {
        now.saturating_add(tick)
    }
}

impl TickTimer {
    /// Ticks that last so long, the first one of which begins when it is asked for. An era ends after so many of them at the
    /// latest.
    pub fn new(tick: Duration, first_end: u64) -> TickTimer
        ensures tick { (result.tick ≡ tick) × (result.due ≡ None) }
        ensures era { (result.made ≡ 0) × (result.end_at ≡ first_end) }
    {
        TickTimer {
            tick,
            due: None,
            made: 0,
            end_at: first_end,
        }
    }

    /// Whether an era ends now for the ticks that were made; the next one does when there are twice as many.
    fn ends_era(&mut self) -> bool
        ensures yes { IsTrue result ↔ (self.old.end_at ≤ self.old.made) }
        ensures no { result ≡ false → self.new ≡ self.old }
        ensures next { IsTrue result → self.new ≡ record self.old {
          end_at = max (min (self.old.made * 2) u64.MAX) 1;
        } }
    {
        if self.made < self.end_at {
            return false;
        }
        self.end_at = self.made.saturating_mul(2).max(1);
        true
    }

    /// How many ticks were made.
    pub(crate) fn made(&self) -> u64
        ensures { result ≡ self.now.made }
    {
        self.made
    }

    /// The present era ends when so many ticks were made, if not before.
    pub(crate) fn end_era_by(&mut self, made: u64)
        ensures { self.new ≡ record self.old { end_at = min self.old.end_at made } }
    {
        self.end_at = self.end_at.min(made);
    }

    /// How long it is from now until a tick is due. The first one is due after a tick.
    fn left_at(&mut self, now: Duration) -> Duration
        ensures left { IfSome self.new.due (λ due. as_nanos result
            ≡ as_nanos due - as_nanos now) }
        ensures some { IsSome self.new.due }
        ensures same { IfSome self.old.due (λ due. self.new.due ≡ Some due) }
        ensures first { self.old.due ≡ None → IfSome self.new.due (λ due. as_nanos due
            ≡ min (as_nanos now + as_nanos self.old.tick) max_nanos) }
        ensures rest { self.new ≡ record self.old { due = self.new.due } }
    {
        let due = match self.due {
            Some(due) => due,
            None => now.saturating_add(self.tick),
        };
        self.due = Some(due);
        due.saturating_sub(now)
    }

    /// How long it is until a tick is due. A clock that cannot be read says a tick.
    fn left<C: Clock>(&mut self, clock: &C) -> Duration
        ensures tick { self.new.tick ≡ self.old.tick }
        ensures era { (self.new.made ≡ self.old.made) × (self.new.end_at ≡ self.old.end_at) }
        ensures same { IfSome self.old.due (λ due. self.new.due ≡ Some due) }
    {
        match clock.monotonic() {
            Ok(now) => self.left_at(now),
            Err(_) => self.tick,
        }
    }

    /// The tick that was due is made. One that is late by more than a tick puts the others off.
    fn go_on<C: Clock>(&mut self, clock: &C)
        ensures made { self.new.made ≡ min (self.old.made + 1) u64.MAX }
        ensures same { (self.new.tick ≡ self.old.tick) × (self.new.end_at ≡ self.old.end_at) }
    {
        self.made = self.made.saturating_add(1);
        if let (Some(due), Ok(now)) = (self.due, clock.monotonic()) {
            self.due = Some(due_after(due, self.tick, now));
        }
    }

    /// The tick that was made last is due again if it found the era full.
    pub(crate) fn repeat_if(&mut self, was_full: bool)
        ensures no { was_full ≡ false → self.new ≡ self.old }
        ensures again { IsTrue was_full → IfSome self.old.due (λ due. IfSome self.new.due
            (λ again. as_nanos again ≡ as_nanos due - as_nanos self.old.tick)) }
        ensures some { IsSome self.old.due → IsSome self.new.due }
        ensures rest { self.new ≡ record self.old { due = self.new.due } }
    {
        if !was_full {
            return;
        }
        if let Some(due) = self.due {
            self.due = Some(due.saturating_sub(self.tick));
        }
    }
}

/// Notifies the sender, and rests until a tick is due before its worker goes on, or until a worker ends. It stops its worker
/// where so many ticks were made that an era is to end.
#[derive(Drop)]
pub struct Pacing<'a, R: Wait + Clock> {
    rt: &'a R,
    pace: &'a Pace,
    timer: &'a mut TickTimer,
}

impl<'a, R: Wait + Clock> Pacing<'a, R> {
    /// A gate that notifies once a tick.
    pub fn new(rt: &'a R, pace: &'a Pace, timer: &'a mut TickTimer) -> Pacing<'a, R> {
        Pacing { rt, pace, timer }
    }
}

impl<'a, R: Wait + Clock> Gate for Pacing<'a, R> {
    ghost use Rattle.std.specs.Prelude.{[]};

    ghost tells = { ⊥ };

    ghost turns = { λ _. [] };

    fn turn(&mut self) -> Turn {
        self.pace.notify();
        if self.timer.ends_era() {
            return Turn::Stop;
        }
        let left = self.timer.left(self.rt);
        self.pace.rest(self.rt, left);
        let turn = self.pace.turn();
        if turn == Turn::Go {
            self.timer.go_on(self.rt);
        }
        turn
    }
}
