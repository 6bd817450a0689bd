//! Ticks: time goes on, and what is due by it is done. A Suspect becomes Confirm (SWIM, section 4.2), and a Confirm is
//! forgotten; a probe ends, begins, or is asked about.

ghost use Rattle.std.specs.Prelude.{◌≡◌, ◌<◌, ◌+◌, replicate};
ghost use Rattle.std.specs.List.{filter};
ghost use Rattle.swim_member.specs.Events.{Advance, Expire, Forget, tick_actions, perform, no_answer};
ghost use Rattle.swim_member.specs.Machinery.Steps.{apply_all, after, notes_by, outs_by, is_live};
ghost use Rattle.swim_member.specs.Machinery.Adding.{Adds};

use crate::answer::Answer;
use crate::member::{Member, RELAYS_MAX};
use crate::state::Relay;
use arrayvec::ArrayVec;
use swim_gossip::Visits;
use swim_rules::{Deal, ROWS_MAX};

/// The last tick that counts, 2^62.
pub(crate) const LAST_TIME: u64 = 1 << 62;

/// Keeps the relays that were made less than a period ago.
fn keep_live(relays: &mut ArrayVec<Relay, RELAYS_MAX>, now: u64, period: u64)
    ensures { relays.new.items ≡ filter (is_live now period) relays.old.items }
{
    relays.retain(|relay| now.saturating_sub(relay.made) < period);
}

impl Member {
    /// Time goes on, and relays that are too old end.
    fn advance(&mut self)
        requires { self.old.time < LAST_TIME }
        ensures { self.new ≡ apply_all (perform self.old Advance) self.old }
    {
        self.time += 1;
        self.moment = if self.moment + 1 == self.settings.period {
            0
        } else {
            self.moment + 1
        };
        keep_live(&mut self.relays, self.time, self.settings.period);
    }

    /// Turns each Suspect that is due into a Confirm, in the order of the members.
    fn expire_all(&mut self)
        ensures { self.new ≡ after self.old (replicate ROWS_MAX Expire) }
    {
        for _ in 0..ROWS_MAX {
            match self.table.expire(self.time) {
                None => return,
                Some(update) => self.buffer.offer(update, &mut Visits::new()),
            }
        }
    }

    /// Forgets each member whose Confirm is due, in the order of the members.
    fn forget_all(&mut self)
        ensures { self.new ≡ after self.old (replicate ROWS_MAX Forget) }
    {
        for _ in 0..ROWS_MAX {
            match self.table.forget(self.time) {
                None => return,
                Some(who) => self.buffer.remove(who, &mut Visits::new()),
            }
        }
    }

    /// A tick that counts: time goes on, rows change by it, and a probe ends and the next one begins, or others are asked
    /// about it. Most ticks do nothing, so what a probe does is called: inlined, it would take room and registers from each of
    /// them.
    pub(crate) fn tick(&mut self, deal: &Deal, answer: &mut Answer)
        requires time { self.old.time < LAST_TIME }
        requires nothing { answer.old ≡ no_answer }
        ensures state { self.new ≡ after self.old (tick_actions deal.now) }
        ensures answer { Adds self.old self.new answer.old answer.new
            (outs_by self.old (tick_actions deal.now)) (self.old.settings.helpers + 1)
            (notes_by self.old (tick_actions deal.now)) }
    {
        self.advance();
        self.expire_all();
        self.forget_all();
        if self.moment == 0 {
            self.blame(answer);
            self.probe_next(deal, answer);
        } else if self.moment == self.settings.direct {
            self.ask_all(answer);
        }
    }
}
