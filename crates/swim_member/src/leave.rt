//! Leaving the group.

ghost use Rattle.std.specs.Prelude.{◌≡◌, ◌<◌, ◌+◌, length, []};
ghost use Rattle.swim_member.specs.Events.{Depart, Bye, each_from, perform, leave_actions, outs, no_answer};
ghost use Rattle.swim_member.specs.Machinery.Steps.{apply_all, after, notes_by, outs_by};
ghost use Rattle.swim_member.specs.Machinery.Adding.{Adds};
ghost use Rattle.swim_member.specs.declared.answer.TheConstants.{OUTS_MAX};

use crate::answer::Answer;
use crate::member::Member;
use crate::settings::HELPERS_MAX;
use crate::state::Phase;
use swim_wire::{Kind, UpdateKind};

/// The most members that are told of a leave.
const BYES_MAX: usize = HELPERS_MAX + 1;

impl Member {
    /// Stops taking part: the own Confirm begins to wait.
    fn depart(&mut self)
        ensures { self.new ≡ apply_all (perform self.old Depart) self.old }
    {
        self.phase = Phase::Left;
        self.announce(UpdateKind::Confirm, self.number);
    }

    /// Tells the eligible member with this number, from 0, that this one left, as far as `helpers`
    /// goes.
    fn bye(&mut self, number: usize, answer: &mut Answer)
        requires { length answer.old.outs.items < OUTS_MAX }
        ensures state { self.new ≡ apply_all (perform self.old (Bye number)) self.old }
        ensures answer { Adds self.old self.new answer.old answer.new
            (outs (perform self.old (Bye number))) 1 [] }
        ensures few { self.old.settings.helpers < number → answer.new ≡ answer.old }
    {
        if self.settings.helpers < number {
            return;
        }
        if let Some(row) = self.table.eligible(number) {
            let who = row.who();
            let seq = self.take_seq();
            self.send(who, Kind::Ping, seq, who, answer);
        }
    }

    /// Pings the first eligible members, one more than `helpers`, with the own Confirm.
    fn say_bye(&mut self, answer: &mut Answer)
        requires { answer.old.outs.items ≡ [] }
        ensures state { self.new ≡ after self.old (each_from 0 BYES_MAX (λ k. Bye k)) }
        ensures answer { Adds self.old self.new answer.old answer.new
            (outs_by self.old (each_from 0 BYES_MAX (λ k. Bye k)))
            (self.old.settings.helpers + 1) [] }
    {
        for number in 0..BYES_MAX {
            self.bye(number, answer);
        }
    }

    /// Leaves the group.
    #[inline(never)]
    pub(crate) fn leave(&mut self, answer: &mut Answer)
        requires { answer.old ≡ no_answer }
        ensures state { self.new ≡ after self.old leave_actions }
        ensures answer { Adds self.old self.new answer.old answer.new
            (outs_by self.old leave_actions) (self.old.settings.helpers + 1)
            (notes_by self.old leave_actions) }
    {
        self.depart();
        self.say_bye(answer);
    }
}
