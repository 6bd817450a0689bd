//! Pings for other members (SWIM, section 3.1): a relay is made by a ping-req, lives for a period, and ends when the
//! ack that it waits for is passed on.

ghost use Rattle.std.specs.Prelude.{◌≡◌, ◌≢◌, ◌<◌, length};
ghost use Rattle.std.specs.List.{find};
ghost use Rattle.swim_member.specs.declared.member.TheConstants.{RELAYS_MAX};
ghost use Rattle.swim_member.specs.Readings.{is_relay, without_relay};
ghost use Rattle.swim_member.specs.Relay.{on_ping_req, relay_ping, on_other_ack, is_for, is_answered};
ghost use Rattle.swim_member.specs.Events.{outs, notes};
ghost use Rattle.swim_member.specs.Machinery.Steps.{apply_all, relay_place};
ghost use Rattle.swim_member.specs.Machinery.Adding.{Adds, HasRoom};

use crate::answer::Answer;
use crate::member::{Member, RELAYS_MAX};
use crate::note::Note;
use crate::state::Relay;
use arrayvec::ArrayVec;
use swim_wire::{Cursor, Datagram, Endpoint, Kind};

/// Whether an ack vouches for this member and has this sequence.
pub(crate) fn is_ack_for(ack: &Datagram, seq: u32, target: Endpoint) -> bool
    ensures { result ≡ is_for ack.now seq target }
{
    ack.seq == seq && ack.subject == Cursor::at(target)
}

/// Whether an ack answers a relay: it comes from the target itself.
fn answers(ack: &Datagram, relay: &Relay) -> bool
    ensures { result ≡ is_answered ack.now relay.now }
{
    is_ack_for(ack, relay.seq, relay.target) && ack.subject == Cursor::at(ack.sender)
}

/// The relay that an ack answers, of several the one that was made first.
fn answered_relay(relays: &[Relay], ack: &Datagram) -> Option<Relay>
    ensures { result ≡ find (is_answered ack.now) relays.now }
{
    for relay in relays {
        if answers(ack, relay) {
            return Some(*relay);
        }
    }
    None
}

/// Whether two relays are the same.
fn is_same(relay: &Relay, other: &Relay) -> bool
    ensures { result ≡ is_relay relay.now other.now }
{
    relay.target == other.target
        && relay.seq == other.seq
        && relay.asker == other.asker
        && relay.asked == other.asked
        && relay.made == other.made
}

/// Where the first relay that is the same stands, or how many there are.
fn place_of(relays: &[Relay], relay: &Relay) -> usize
    ensures { result ≡ relay_place relay.now relays.now }
{
    for (i, other) in relays.iter().enumerate() {
        if is_same(relay, other) {
            return i;
        }
    }
    relays.len()
}

/// Removes the first relay that is the same, if there is one.
fn remove_relay(relays: &mut ArrayVec<Relay, RELAYS_MAX>, relay: &Relay)
    ensures { relays.new.items ≡ without_relay relay.now relays.old.items }
{
    let place = place_of(relays, relay);
    if place < relays.len() {
        relays.remove(place);
    }
}

impl Member {
    /// Pings a member for the one that asked, and remembers who asked.
    fn relay(&mut self, request: &Datagram, target: Endpoint, answer: &mut Answer)
        requires subject { target ≡ request.now.subject }
        requires relays { length self.old.relays < RELAYS_MAX }
        requires room { HasRoom answer.old }
        ensures state { self.new ≡ apply_all (relay_ping self.old request.now) self.old }
        ensures answer { Adds self.old self.new answer.old answer.new
            (outs (relay_ping self.old request.now)) 1
            (notes (relay_ping self.old request.now)) }
    {
        let seq = self.take_seq();
        self.relays.push(Relay {
            target,
            seq,
            asker: request.sender,
            asked: request.seq,
            made: self.time,
        });
        self.send(target, Kind::Ping, seq, target, answer);
    }

    /// Answers a ping-req: for this member by an ack, for another one by a ping to it.
    pub(crate) fn on_ping_req(&mut self, request: &Datagram, answer: &mut Answer)
        requires room { HasRoom answer.old }
        requires subject { request.now.subject ≢ 0 }
        ensures state { self.new ≡ apply_all (on_ping_req self.old request.now) self.old }
        ensures answer { Adds self.old self.new answer.old answer.new
            (outs (on_ping_req self.old request.now)) 1
            (notes (on_ping_req self.old request.now)) }
    {
        let me = self.settings.me;
        let Some(target) = request.subject.endpoint() else {
            unreachable!()
        };
        if target == me {
            self.send(request.sender, Kind::Ack, request.seq, me, answer);
        } else if !self.is_eligible(target) {
            answer.note(Note::UnknownTarget);
        } else if self.relays.is_full() {
            answer.note(Note::RelaysFull);
        } else {
            self.relay(request, target, answer);
        }
    }

    /// Takes an ack that does not answer the probe: one that answers a relay goes on to the member
    /// that asked.
    pub(crate) fn on_other_ack(&mut self, ack: &Datagram, answer: &mut Answer)
        requires { HasRoom answer.old }
        ensures state { self.new ≡ apply_all (on_other_ack self.old ack.now) self.old }
        ensures answer { Adds self.old self.new answer.old answer.new
            (outs (on_other_ack self.old ack.now)) 1 (notes (on_other_ack self.old ack.now)) }
    {
        match answered_relay(&self.relays, ack) {
            None => answer.note(Note::Unasked),
            Some(relay) => {
                remove_relay(&mut self.relays, &relay);
                self.send(relay.asker, Kind::Ack, relay.asked, relay.target, answer);
            }
        }
    }
}
