//! Updates that are heard.

ghost use Rattle.std.specs.Prelude.{◌≡◌, ◌≢◌, ◌+◌, ◌≤◌, [], map, length, All};
ghost use Rattle.swim_member.specs.Hearing.{hear_other};
ghost use Rattle.swim_member.specs.Events.{Hear, perform, notes};
ghost use Rattle.swim_member.specs.Machinery.Steps.{apply_all, after, notes_by};
ghost use Rattle.swim_member.specs.Machinery.Adding.{Adds, HasRoom};
ghost use Rattle.swim_wire.specs.declared.datagram.TheConstants.{UPDATES_MAX};
ghost use Rattle.swim_wire.specs.declared.update.TheConstants.{NUMBER_MAX};

use crate::answer::Answer;
use crate::member::Member;
use crate::note::Note;
use swim_gossip::Visits;
use swim_rules::Heard;
use swim_wire::Update;

impl Member {
    /// Hears an update about another member.
    pub(crate) fn hear_other(&mut self, update: &Update, answer: &mut Answer)
        requires room { HasRoom answer.old }
        requires other { update.now.who ≢ self.old.settings.me }
        requires number { update.now.number ≤ NUMBER_MAX }
        ensures state { self.new ≡ apply_all (hear_other self.old update.now) self.old }
        ensures answer { Adds self.old self.new answer.old answer.new [] 0
            (notes (hear_other self.old update.now)) }
        ensures brief { length answer.new.notes.items ≤ length answer.old.notes.items + 1 }
    {
        let now = self.time;
        match self.table.hear(*update, now) {
            Heard::Accepted => self.buffer.offer(*update, &mut Visits::new()),
            Heard::Full => answer.note(Note::TableFull),
            _ => {}
        }
    }

    /// Hears an update of a datagram.
    fn hear(&mut self, update: &Update, answer: &mut Answer)
        requires room { HasRoom answer.old }
        requires number { update.now.number ≤ NUMBER_MAX }
        ensures state { self.new ≡ apply_all (perform self.old (Hear update.now)) self.old }
        ensures answer { Adds self.old self.new answer.old answer.new [] 0
            (notes (perform self.old (Hear update.now))) }
        ensures brief { length answer.new.notes.items ≤ length answer.old.notes.items + 1 }
    {
        if update.who == self.settings.me {
            self.hear_own(update, answer);
        } else {
            self.hear_other(update, answer);
        }
    }

    /// Hears the updates of a datagram, in order.
    pub(crate) fn hear_all(&mut self, updates: &[Update], answer: &mut Answer)
        requires room { length answer.old.notes.items + length updates.now ≤ UPDATES_MAX }
        requires unsent { answer.old.outs.items ≡ [] }
        requires numbers { All (λ u. u.number ≤ NUMBER_MAX) updates.now }
        ensures state { self.new ≡ after self.old (map (λ u. Hear u) updates.now) }
        ensures answer { Adds self.old self.new answer.old answer.new [] 0
            (notes_by self.old (map (λ u. Hear u) updates.now)) }
        ensures brief { length answer.new.notes.items
            ≤ length answer.old.notes.items + length updates.now }
    {
        for update in updates {
            self.hear(update, answer);
        }
    }
}
