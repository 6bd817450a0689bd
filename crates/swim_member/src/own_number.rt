//! The own number (SWIM, section 4.2: the incarnation number): what updates about this member ask of it, and what
//! becomes of it.

ghost use Rattle.std.specs.Prelude.{◌≡◌, ◌≢◌, ◌+◌, ◌<◌, ◌≤◌, [], length, true, IfSome};
ghost use Rattle.swim_gossip.specs.Queue.{offered_queue};
ghost use Rattle.swim_wire.specs.declared.update.TheConstants.{NUMBER_MAX};
ghost use Rattle.swim_member.specs.Checks.{rules_of};
ghost use Rattle.swim_member.specs.Fit.{may_say};
ghost use Rattle.swim_member.specs.OwnNumber.{is_suspicion, suspicion_of, hear_own, number_asked, greatest_asked, has_confirm, is_expelled, own_number_by, wanted_number, own_with, own};
ghost use Rattle.swim_member.specs.Events.{Settle, perform, notes};
ghost use Rattle.swim_member.specs.Machinery.Steps.{apply_all};
ghost use Rattle.swim_member.specs.Machinery.Adding.{Adds, HasRoom};

use crate::answer::Answer;
use crate::member::Member;
use crate::note::Note;
use crate::state::Phase;
use swim_gossip::Visits;
use swim_wire::{Endpoint, LEAP, NUMBER_MAX, Rules, Update, UpdateKind};

/// What an update about this member means for its own number.
#[derive(Clone, Copy, Debug, PartialEq, Eq)]
enum Suspicion {
    /// It suspects nothing, or a number that was passed: nothing.
    Passed,
    /// Its number is more than `LEAP` above the own one: it is noted, and not refuted.
    Leap,
    /// It has the greatest number, and none is left above: it is noted, and not refuted.
    Last,
    /// It is refuted by the number after its own.
    Refutable,
}

/// Whether an update of this kind about this member is a suspicion: a Suspect, and by rules 2 a Confirm too, since a
/// greater number overrides it.
fn is_suspicion(kind: UpdateKind, rules: Rules) -> bool
    ensures { result ≡ is_suspicion rules kind }
{
    match kind {
        UpdateKind::Alive => false,
        UpdateKind::Suspect => true,
        UpdateKind::Confirm => rules == Rules::Two,
    }
}

/// What an update about this member means, if its own number is `old`.
fn suspicion_of(update: &Update, old: u64, rules: Rules) -> Suspicion
    ensures { result ≡ suspicion_of rules old update.now }
{
    if !is_suspicion(update.kind, rules) || update.number < old {
        return Suspicion::Passed;
    }
    if update.number - old > LEAP {
        return Suspicion::Leap;
    }
    if update.number >= NUMBER_MAX {
        return Suspicion::Last;
    }
    Suspicion::Refutable
}

/// The number that an update asks for, or 0.
fn number_asked(update: &Update, me: Endpoint, old: u64, rules: Rules) -> u64
    ensures value { result ≡ number_asked rules me old update.now }
    ensures bound { result ≤ NUMBER_MAX }
    ensures above { result ≢ 0 → old < result }
{
    if update.who != me {
        return 0;
    }
    match suspicion_of(update, old, rules) {
        Suspicion::Refutable => update.number + 1,
        _ => 0,
    }
}

/// The greatest number that is asked for, or 0.
fn greatest_asked(updates: &[Update], me: Endpoint, old: u64, rules: Rules) -> u64
    ensures value { result ≡ greatest_asked rules me old updates.now }
    ensures bound { result ≤ NUMBER_MAX }
    ensures above { result ≢ 0 → old < result }
{
    let mut greatest = 0;
    for update in updates {
        greatest = number_asked(update, me, old, rules).max(greatest);
    }
    greatest
}

/// Whether one of them is a Confirm about `me`.
fn has_confirm(updates: &[Update], me: Endpoint) -> bool
    ensures { result ≡ has_confirm me updates.now }
{
    for update in updates {
        if update.who == me && update.kind == UpdateKind::Confirm {
            return true;
        }
    }
    false
}

/// Whether they expel `me`: by rules 1 a Confirm about oneself is the last word.
fn is_expelled(updates: &[Update], me: Endpoint, rules: Rules) -> bool
    ensures { result ≡ is_expelled rules me updates.now }
{
    rules == Rules::One && has_confirm(updates, me)
}

/// What the updates of a datagram ask of the own number.
#[derive(Clone, Copy, Debug, PartialEq, Eq)]
pub enum OwnNumber {
    /// Nothing.
    Stays,
    /// To refute suspicions by this number.
    Wanted(u64),
    /// A Confirm about this member, by rules 1: it is expelled with the number that it has.
    Confirmed,
}

impl OwnNumber {
    /// The number that is wanted, or none.
    pub fn wanted(self) -> Option<u64>
        ensures { result ≡ wanted_number self }
    {
        match self {
            OwnNumber::Stays => None,
            OwnNumber::Wanted(number) => Some(number),
            OwnNumber::Confirmed => None,
        }
    }
}

impl Member {
    /// The own update.
    pub(crate) fn own(&self) -> Update
        ensures own { result ≡ own self.now }
        ensures said { may_say self.now.settings.me self.now.number result ≡ true }
    {
        let kind = match self.phase {
            Phase::Running => UpdateKind::Alive,
            Phase::Left => UpdateKind::Confirm,
            Phase::Expelled => UpdateKind::Confirm,
        };
        Update {
            kind,
            who: self.settings.me,
            number: self.number,
        }
    }

    /// What the updates of a datagram ask of the own number.
    pub(crate) fn own_number_by(&self, updates: &[Update]) -> OwnNumber
        ensures value { result ≡ own_number_by self.now updates.now }
        ensures bound { IfSome (wanted_number result)
            (λ n. (self.now.number < n) × (n ≤ NUMBER_MAX)) }
    {
        let rules = self.settings.rules_of();
        if is_expelled(updates, self.settings.me, rules) {
            return OwnNumber::Confirmed;
        }
        match greatest_asked(updates, self.settings.me, self.number, rules) {
            0 => OwnNumber::Stays,
            number => OwnNumber::Wanted(number),
        }
    }

    /// Hears an update about this member: a suspicion that asks for too much is noted.
    pub(crate) fn hear_own(&self, update: &Update, answer: &mut Answer)
        requires { HasRoom answer.old }
        ensures answer { Adds self.now self.now answer.old answer.new [] 0
            (notes (hear_own (rules_of self.now.settings) self.now.number update.now)) }
        ensures brief { length answer.new.notes.items ≤ length answer.old.notes.items + 1 }
    {
        match suspicion_of(update, self.number, self.settings.rules_of()) {
            Suspicion::Leap => answer.note(Note::Leap),
            Suspicion::Last => answer.note(Note::NoNumberLeft),
            Suspicion::Passed | Suspicion::Refutable => {}
        }
    }

    /// Takes a number for its own, and lets the own update begin to wait.
    pub(crate) fn announce(&mut self, kind: UpdateKind, number: u64)
        requires { number ≤ NUMBER_MAX }
        ensures { self.new ≡ record self.old {
          number = number;
          queue = offered_queue self.old.queue (own_with self.old kind number);
        } }
    {
        self.number = number;
        let own = Update {
            kind,
            who: self.settings.me,
            number,
        };
        self.buffer.offer(own, &mut Visits::new());
    }

    /// Settles the own number after the updates of a datagram.
    pub(crate) fn settle_number(&mut self, own: OwnNumber, granted: u64, answer: &mut Answer)
        requires room { HasRoom answer.old }
        requires unsent { answer.old.outs.items ≡ [] }
        requires bound { IfSome (wanted_number own) (λ n. n ≤ NUMBER_MAX) }
        ensures state { self.new ≡ apply_all (perform self.old (Settle own granted)) self.old }
        ensures answer { Adds self.old self.new answer.old answer.new [] 0
            (notes (perform self.old (Settle own granted))) }
        ensures brief { length answer.new.notes.items ≤ length answer.old.notes.items + 1 }
    {
        match own {
            OwnNumber::Stays => {}
            OwnNumber::Wanted(number) if number > granted => answer.note(Note::SaveFailed),
            OwnNumber::Wanted(number) => self.announce(UpdateKind::Alive, number),
            OwnNumber::Confirmed => {
                self.phase = Phase::Expelled;
                self.announce(UpdateKind::Confirm, self.number);
                answer.note(Note::Expelled);
            }
        }
    }
}
