//! Datagrams that are sent, with what they carry.

ghost use Rattle.std.specs.Prelude.{◌≡◌, ◌*◌, ◌<◌, ◌≤◌, [], ◌∷◌, ◌++◌, true, map, length};
ghost use Rattle.std.specs.List.{filter, list_all};
ghost use Rattle.swim_member.specs.Fit.{may_say};
ghost use Rattle.swim_rules.specs.Rows.{is_eligible};
ghost use Rattle.swim_gossip.specs.Queue.{raise_all};
ghost use Rattle.swim_member.specs.State.{SequenceTaken};
ghost use Rattle.swim_member.specs.Readings.{carries_updates};
ghost use Rattle.swim_member.specs.Send.{bits, limit, carried_updates, send};
ghost use Rattle.swim_member.specs.Events.{outs};
ghost use Rattle.swim_member.specs.Machinery.Steps.{apply};
ghost use Rattle.swim_member.specs.Machinery.Adding.{Adds};
ghost use Rattle.swim_member.specs.declared.answer.TheConstants.{OUTS_MAX};

use crate::answer::{Answer, OUTS_MAX, Out};
use crate::member::Member;
use std::marker::Model;
use swim_gossip::Visits;
use swim_wire::{Cursor, Endpoint, Kind, UPDATES_MAX};

/// The datagrams of a step, in order. A place keeps what was once written there, and the next datagram is written over it: a
/// datagram has 752 bytes, of which one without updates needs 32.
#[derive(Drop)]
pub struct Outs {
    places: [Out; OUTS_MAX],
    len: usize,
}

impl Model for Outs {
    ghost use Rattle.std.specs.Prelude.{◌≡◌, ◌≤◌, length, take};
    ghost use Rattle.arrayvec.specs.ArrayVec.{ArrayVec};
    ghost use Rattle.swim_member.specs.declared.answer.Out.{Out};
    ghost use Rattle.swim_member.specs.declared.answer.TheConstants.{OUTS_MAX};

    ghost Value = { ArrayVec Out };

    ghost view = { λ o. record { items = take o.len o.places } };

    ghost invariant = { λ o. (o.len ≤ OUTS_MAX) × (length o.places ≡ OUTS_MAX) };
}

impl Outs {
    /// No datagram.
    pub fn new() -> Outs
        ensures { result.items ≡ [] }
    {
        Outs {
            places: Default::default(),
            len: 0,
        }
    }

    /// How many there are.
    pub fn len(&self) -> usize
        ensures value { result ≡ length self.now.items }
        ensures fits { result ≤ OUTS_MAX }
    {
        self.len
    }

    /// The datagrams, in order.
    pub fn as_slice(&self) -> &[Out]
        ensures value { result.now ≡ self.now.items }
        ensures fits { length result.now ≤ OUTS_MAX }
    {
        &self.places[..self.len]
    }

    /// Takes back all of them.
    pub fn clear(&mut self)
        ensures { self.new.items ≡ [] }
    {
        self.len = 0;
    }

    /// Adds the same datagram, after those before it.
    pub fn push(&mut self, out: &Out)
        requires { length self.old.items < OUTS_MAX }
        ensures { self.new.items ≡ self.old.items ++ out.now ∷ [] }
    {
        write_over(&mut self.places[self.len], out);
        self.len += 1;
    }

    /// Holds the same datagrams as another list from now on.
    pub fn copy_from(&mut self, other: &Outs)
        ensures { self.new.items ≡ other.now.items }
    {
        self.clear();
        for out in other.as_slice() {
            self.push(out);
        }
    }
}

/// Makes a place hold the same datagram. Of its updates no more is written than there are, here or there.
fn write_over(place: &mut Out, out: &Out)
    ensures { place.new ≡ out.now }
{
    let (there, datagram) = (&mut place.datagram, &out.datagram);
    place.to = out.to;
    there.version = datagram.version;
    there.kind = datagram.kind;
    there.group = datagram.group;
    there.seq = datagram.seq;
    there.sender = datagram.sender;
    there.subject = datagram.subject;
    there.updates.clear();
    let _ = there.updates.try_extend_from_slice(&datagram.updates);
}

/// The number of binary digits of `n`.
fn bits_of(n: usize) -> u32
    requires { n < 512 }
    ensures value { result ≡ bits n }
    ensures bound { result ≤ 9 }
{
    if n < 2 {
        1
    } else if n < 4 {
        2
    } else if n < 8 {
        3
    } else if n < 16 {
        4
    } else if n < 32 {
        5
    } else if n < 64 {
        6
    } else if n < 128 {
        7
    } else if n < 256 {
        8
    } else {
        9
    }
}

impl Member {
    /// Takes the next sequence.
    pub(crate) fn take_seq(&mut self) -> u32
        ensures seq { result ≡ self.old.seq }
        ensures state { self.new ≡ apply SequenceTaken self.old }
    {
        let seq = self.seq;
        self.seq = seq.wrapping_add(1);
        seq
    }

    /// Sends a ping, a ping-req or an ack, with what waits. It is written over the next place, in each field: a datagram that
    /// is given is moved.
    pub(crate) fn send(
        &mut self,
        to: Endpoint,
        kind: Kind,
        seq: u32,
        subject: Endpoint,
        answer: &mut Answer,
    )
        requires carries { carries_updates kind ≡ true }
        requires room { length answer.old.outs.items < OUTS_MAX }
        ensures state { self.new ≡ apply (send self.old to kind seq subject) self.old }
        ensures answer { Adds self.old self.new answer.old answer.new
            (outs (send self.old to kind seq subject ∷ [])) 1 [] }
    {
        // so what is sent has a text
        subject.is_above_zero();
        let limit = self.settings.lambda * bits_of(1 + self.table.count());
        let outs = &mut answer.outs;
        let place = &mut outs.places[outs.len];
        place.to = to;
        place.datagram.version = self.settings.rules_of();
        place.datagram.kind = kind;
        place.datagram.group = self.settings.group;
        place.datagram.seq = seq;
        place.datagram.sender = self.settings.me;
        place.datagram.subject = Cursor::at(subject);
        place.datagram.updates.clear();
        self.buffer.pick_into(
            limit,
            UPDATES_MAX,
            &mut place.datagram.updates,
            &mut Visits::new(),
        );
        outs.len += 1;
    }
}
