//! What is measured.

ghost use Rattle.std.specs.Prelude.{◌≡◌, ◌+◌, ◌-◌, ◌^◌, min};
ghost use Rattle.swim_simulate.specs.Measuring.{confirms, first_time, killed, seen, suspects};

use crate::views::View;
use std::alloc::{AllocError, Global};
use swim_charts::Tally;

/// A member that was killed, and when the others noticed it, each in ticks from the begin.
#[derive(Clone, Copy, Debug, PartialEq, Eq)]
pub struct Kill {
    /// Its place in the group.
    pub who: usize,
    /// When it was killed.
    pub tick: u64,
    /// When the first member suspected it or held it for failed; when it was killed, if one did so already.
    pub suspected: Option<u64>,
    /// When the first member held it for failed; when it was killed, if one did so already.
    pub confirmed: Option<u64>,
    /// When all others that ran agreed that it failed: none held it for alive or suspected.
    pub known: Option<u64>,
    /// When it was opened again.
    pub back: Option<u64>,
    /// When all others that ran agreed after that: each held it for alive.
    pub alive: Option<u64>,
}

/// When something was first, if it is now, and was then before.
fn first_time(before: Option<u64>, is_now: bool, tick: u64) -> Option<u64>
    ensures { result ≡ first_time before is_now tick }
{
    match before {
        None if is_now => Some(tick),
        _ => before,
    }
}

/// Whether who holds this of a member suspects it: who holds it for failed does too.
fn suspects(view: View) -> bool
    ensures { result ≡ suspects view }
{
    match view {
        View::Suspect | View::Confirm => true,
        View::Unknown | View::Alive => false,
    }
}

/// Whether who holds this of a member holds it for failed.
fn confirms(view: View) -> bool
    ensures { result ≡ confirms view }
{
    match view {
        View::Confirm => true,
        View::Unknown | View::Alive | View::Suspect => false,
    }
}

impl Kill {
    /// A member is killed now of which the others that run hold this.
    fn new(who: usize, tick: u64, held: &Tally) -> Kill
        ensures { result ≡ killed who tick held.now }
    {
        let is_failed = held.failed > 0;
        let is_suspected = is_failed || held.suspected > 0;
        Kill {
            who,
            tick,
            suspected: first_time(None, is_suspected, tick),
            confirmed: first_time(None, is_failed, tick),
            known: None,
            back: None,
            alive: None,
        }
    }

    /// A member that runs holds this of it from now on, until it is opened again.
    fn see(&mut self, view: View, tick: u64)
        ensures { self.new ≡ seen view tick self.old }
    {
        if self.back.is_some() {
            return;
        }
        self.suspected = first_time(self.suspected, suspects(view), tick);
        self.confirmed = first_time(self.confirmed, confirms(view), tick);
    }
}

/// What the others do not agree on yet, of a member.
#[derive(Clone, Copy, Debug, PartialEq, Eq)]
pub(crate) enum Awaited {
    /// Nothing that is measured.
    Nothing,
    /// That it failed.
    Failure,
    /// That it is alive again.
    Life,
}

/// What is counted.
#[derive(Clone, Copy, Debug, PartialEq, Eq)]
pub struct RunCounts {
    /// Datagrams that were sent.
    pub datagrams: u64,
    /// Their bytes.
    pub bytes: u64,
    /// Datagrams that the network lost.
    pub lost: u64,
    /// Datagrams that came.
    pub came: u64,
    /// Saves of a state file.
    pub saves: u64,
    /// Saves that failed.
    pub failed_saves: u64,
    /// How often a member began to suspect one that was never killed.
    pub suspicions: u64,
    /// How often a member began to hold one for failed that was never killed.
    pub confirms: u64,
    /// Ticks of members, all together.
    pub ticks: u64,
    /// Killed members that were opened again.
    pub restarts: u64,
    /// Members that were not opened again.
    pub gone: u64,
    /// Members that take no part any more, though nobody killed them.
    pub expelled: u64,
    /// Pauses of members.
    pub pauses: u64,
}

impl RunCounts {
    /// Nothing happened yet.
    pub fn zero() -> RunCounts {
        RunCounts {
            datagrams: 0,
            bytes: 0,
            lost: 0,
            came: 0,
            saves: 0,
            failed_saves: 0,
            suspicions: 0,
            confirms: 0,
            ticks: 0,
            restarts: 0,
            gone: 0,
            expelled: 0,
            pauses: 0,
        }
    }
}

impl RunCounts {
    /// A datagram of so many bytes is sent.
    pub(crate) fn send(&mut self, size: u64, is_lost: bool) {
        count(&mut self.datagrams);
        raise(&mut self.bytes, size);
        if is_lost {
            count(&mut self.lost);
        }
    }

    /// Adds what was counted elsewhere.
    pub fn add(&mut self, other: &RunCounts) {
        raise(&mut self.datagrams, other.datagrams);
        raise(&mut self.bytes, other.bytes);
        raise(&mut self.lost, other.lost);
        raise(&mut self.came, other.came);
        raise(&mut self.saves, other.saves);
        raise(&mut self.failed_saves, other.failed_saves);
        raise(&mut self.suspicions, other.suspicions);
        raise(&mut self.confirms, other.confirms);
        raise(&mut self.ticks, other.ticks);
        raise(&mut self.restarts, other.restarts);
        raise(&mut self.gone, other.gone);
        raise(&mut self.expelled, other.expelled);
        raise(&mut self.pauses, other.pauses);
    }
}

/// Adds to a counter.
fn raise(counter: &mut u64, more: u64)
    ensures { counter.new ≡ min (counter.old + more) (2 ^ 64 - 1) }
{
    *counter = counter.saturating_add(more);
}

/// Counts one more.
pub(crate) fn count(counter: &mut u64)
    ensures { counter.new ≡ min (counter.old + 1) (2 ^ 64 - 1) }
{
    raise(counter, 1);
}

/// What is measured of a run.
#[derive(Drop)]
pub struct Measures {
    /// When each member held each other for alive first, in ticks from the begin.
    pub whole: Option<u64>,
    /// The kills, in order.
    pub kills: Vec<Kill>,
    /// What was counted.
    pub counts: RunCounts,
}

impl Measures {
    /// Nothing happened yet.
    pub(crate) fn new(alloc: Global) -> Measures {
        Measures {
            whole: None,
            kills: Vec::new(alloc),
            counts: RunCounts::zero(),
        }
    }

    /// A member is killed of which the others that run hold this.
    pub(crate) fn kill(&mut self, who: usize, tick: u64, held: &Tally) -> Result<(), AllocError> {
        self.kills.push(Kill::new(who, tick, held))?;
        Ok(())
    }

    /// Whether a member was killed before.
    pub(crate) fn was_killed(&self, who: usize) -> bool {
        self.kills.iter().any(|kill| kill.who == who)
    }

    /// The place of a member's last kill among all kills.
    fn last(&self, who: usize) -> Option<usize> {
        for place in (0..self.kills.len()).rev() {
            match self.kills.get(place) {
                Some(kill) if kill.who == who => return Some(place),
                _ => {}
            }
        }
        None
    }

    /// The last kill of a member.
    fn last_kill(&mut self, who: usize) -> Option<&mut Kill> {
        let place = self.last(who)?;
        self.kills.get_mut(place)
    }

    /// A member that runs holds this of another from now on.
    pub(crate) fn see(&mut self, who: usize, view: View, tick: u64) {
        if !self.was_killed(who) {
            match view {
                View::Suspect => count(&mut self.counts.suspicions),
                View::Confirm => count(&mut self.counts.confirms),
                _ => {}
            }
            return;
        }
        if let Some(kill) = self.last_kill(who) {
            kill.see(view, tick);
        }
    }

    /// What the others do not agree on yet, of a member.
    pub(crate) fn awaited(&self, who: usize) -> Awaited {
        let Some(place) = self.last(who) else {
            return Awaited::Nothing;
        };
        match self.kills.get(place) {
            Some(kill) if kill.back.is_some() && kill.alive.is_none() => Awaited::Life,
            Some(kill) if kill.back.is_none() && kill.known.is_none() => Awaited::Failure,
            _ => Awaited::Nothing,
        }
    }

    /// All others that run agree on what was awaited of a member.
    pub(crate) fn agree(&mut self, who: usize, tick: u64) {
        match self.last_kill(who) {
            Some(kill) if kill.back.is_some() => kill.alive = kill.alive.or(Some(tick)),
            Some(kill) => kill.known = kill.known.or(Some(tick)),
            None => {}
        }
    }

    /// A killed member is opened again.
    pub(crate) fn restart(&mut self, who: usize, tick: u64) {
        count(&mut self.counts.restarts);
        if let Some(kill) = self.last_kill(who) {
            kill.back = kill.back.or(Some(tick));
        }
    }
}
