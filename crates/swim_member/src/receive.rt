//! Datagrams that are accepted: what is heard of one, and what it is answered with, by its kind.

ghost use Rattle.std.specs.Prelude.{◌≡◌, ◌≤◌, [], IfSome};
ghost use Rattle.swim_wire.specs.Codes.{MayHaveZero};
ghost use Rattle.swim_wire.specs.declared.update.TheConstants.{NUMBER_MAX};
ghost use Rattle.swim_wire.specs.Spelling.{HasText};
ghost use Rattle.swim_member.specs.OwnNumber.{wanted_number};
ghost use Rattle.swim_member.specs.Reply.{on_ping, on_ack};
ghost use Rattle.swim_member.specs.Events.{Reply, perform, outs, notes, datagram_actions, no_answer};
ghost use Rattle.swim_member.specs.Machinery.Steps.{apply_all, after, notes_by, outs_by};
ghost use Rattle.swim_member.specs.Machinery.Adding.{Adds, HasRoom};

use crate::answer::Answer;
use crate::member::Member;
use crate::note::Note;
use crate::own_number::OwnNumber;
use crate::relay::is_ack_for;
use crate::state::{Phase, Probe};
use swim_wire::{Cursor, Datagram, Kind};

impl Member {
    /// Answers a ping for this member.
    fn on_ping(&mut self, ping: &Datagram, answer: &mut Answer)
        requires { HasRoom answer.old }
        ensures state { self.new ≡ apply_all (on_ping self.old ping.now) self.old }
        ensures answer { Adds self.old self.new answer.old answer.new
            (outs (on_ping self.old ping.now)) 1 (notes (on_ping self.old ping.now)) }
    {
        let me = self.settings.me;
        if ping.subject != Cursor::at(me) {
            answer.note(Note::Misdirected);
            return;
        }
        self.send(ping.sender, Kind::Ack, ping.seq, me, answer);
    }

    /// Takes an ack: for the open probe, for a relay, or for nothing.
    fn on_ack(&mut self, ack: &Datagram, answer: &mut Answer)
        requires { HasRoom answer.old }
        ensures state { self.new ≡ apply_all (on_ack self.old ack.now self.old.probe) self.old }
        ensures answer { Adds self.old self.new answer.old answer.new
            (outs (on_ack self.old ack.now self.old.probe)) 1
            (notes (on_ack self.old ack.now self.old.probe)) }
    {
        match self.probe {
            Some(probe) if is_ack_for(ack, probe.seq, probe.target) => {
                self.probe = Some(Probe {
                    target: probe.target,
                    seq: probe.seq,
                    answered: true,
                });
            }
            _ => self.on_other_ack(ack, answer),
        }
    }

    /// Does what the kind of a datagram asks for, unless the member was expelled by its updates.
    fn reply(&mut self, datagram: &Datagram, answer: &mut Answer)
        requires room { HasRoom answer.old }
        requires subject { datagram.now.subject ≡ 0 → MayHaveZero datagram.now.kind }
        ensures state { self.new ≡ apply_all (perform self.old (Reply datagram.now)) self.old }
        ensures answer { Adds self.old self.new answer.old answer.new
            (outs (perform self.old (Reply datagram.now))) 1
            (notes (perform self.old (Reply datagram.now))) }
    {
        if self.phase != Phase::Running {
            return;
        }
        match datagram.kind {
            Kind::Ping => self.on_ping(datagram, answer),
            Kind::PingReq => self.on_ping_req(datagram, answer),
            Kind::Ack => self.on_ack(datagram, answer),
            Kind::Join => self.on_join(datagram, answer),
            Kind::Page => self.on_page(datagram, answer),
        }
    }

    /// Takes a datagram that is accepted: hears its updates, settles the own number, and does what
    /// its kind asks for.
    #[inline(never)]
    pub(crate) fn receive(
        &mut self,
        datagram: &Datagram,
        own: OwnNumber,
        granted: u64,
        answer: &mut Answer,
    )
        requires text { HasText datagram.now }
        requires bound { IfSome (wanted_number own) (λ n. n ≤ NUMBER_MAX) }
        requires nothing { answer.old ≡ no_answer }
        ensures state { self.new ≡ after self.old (datagram_actions datagram.now own granted) }
        ensures answer { Adds self.old self.new answer.old answer.new
            (outs_by self.old (datagram_actions datagram.now own granted)) 1
            (notes_by self.old (datagram_actions datagram.now own granted)) }
    {
        self.hear_all(&datagram.updates, answer);
        self.settle_number(own, granted, answer);
        self.reply(datagram, answer);
    }
}
