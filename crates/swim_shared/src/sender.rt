//! Who takes datagrams out of the ring, and hands them to a link.

ghost use Rattle.std.specs.Prelude.{◌≡◌, ◌+◌, ◌-◌, ◌≤◌, ◌^◌, length, min};
ghost use Rattle.rtrb.specs.Ring.{received, known_items};
ghost use Rattle.swim_shared.specs.Outboxes.{ring_from, got, through, Handed};

use crate::packet::Packet;
use rtrb::Consumer;
use std::marker::Model;
use swim_node::Link;

/// The most datagrams of one turn.
const TURN_MAX: usize = 16;

/// Takes the datagrams out of an outbox's ring and hands them to a link, without the lock.
/// Contracts see it as `SenderView`.
#[derive(Drop)]
pub struct Sender {
    pub(crate) consumer: Consumer<Packet>,
    /// The losses that were not told yet, at most 2^32 - 1.
    pub(crate) owed: u32,
}

impl Model for Sender {
    ghost use Rattle.swim_shared.specs.Outboxes.{SenderView, ring_from, got};

    ghost Value = { SenderView };

    ghost view = { λ s. record {
      ring = ring_from s.consumer;
      got = got s.consumer;
      owed = s.owed;
    } };
}

/// What the link took and refused in one turn.
#[derive(Clone, Copy, Debug, PartialEq, Eq)]
pub struct Sent {
    /// How many it took.
    pub taken: u32,
    /// How many it refused.
    pub lost: u32,
}

impl Sender {
    /// Takes at most 16 datagrams out of the ring, and hands each to the link in order, whatever
    /// became of the one before. It owes what the link refused. It takes no lock and no memory, and
    /// waits for nobody.
    pub fn turn<L: Link>(&mut self, link: &mut L) -> Sent
        ensures ring { self.new.ring ≡ self.old.ring }
        ensures link { L.name link.new ≡ L.name link.old }
        ensures handed { Handed L.tells L.took L.failures self.old.got self.new.got
            link.old link.new }
        ensures all { length self.new.got ≡ length self.old.got + result.taken + result.lost }
        ensures few { result.taken + result.lost ≤ TURN_MAX }
        ensures lost { L.failures link.new ≡ L.failures link.old + result.lost }
        ensures owed { self.new.owed ≡ min (self.old.owed + result.lost) (2 ^ 32 - 1) }
    {
        let count = self.consumer.slots().min(TURN_MAX);
        let lost = hand(&mut self.consumer, count, link);
        self.owed = more_owed(self.owed, lost);
        Sent {
            taken: (count - lost) as u32,
            lost: lost as u32,
        }
    }

    /// The sum of the losses that were not told yet, at most 2^32 - 1.
    pub fn owed(&self) -> u32
        ensures { result ≡ self.now.owed }
    {
        self.owed
    }

    /// The end of the ring that it empties.
    pub(crate) fn into_consumer(self) -> Consumer<Packet>
        ensures ring { ring_from result ≡ self.ring }
        ensures got { got result ≡ self.got }
    {
        let Sender { consumer, owed: _ } = self;
        consumer
    }

    /// From now on nothing is owed: the losses were told.
    pub fn settle(&mut self)
        ensures owed { self.new.owed ≡ 0 }
        ensures rest { (self.new.ring ≡ self.old.ring) × (self.new.got ≡ self.old.got) }
    {
        self.owed = 0;
    }
}

/// Hands so many datagrams to the link, in order, whatever became of the one before. It says how
/// many the link refused.
pub(crate) fn hand<L: Link>(ring: &mut Consumer<Packet>, count: usize, link: &mut L) -> usize
    requires { count ≤ length (known_items ring.old) }
    ensures ring { ring_from ring.new ≡ ring_from ring.old }
    ensures link { L.name link.new ≡ L.name link.old }
    ensures handed { Handed L.tells L.took L.failures (got ring.old) (got ring.new)
        link.old link.new }
    ensures items { through ring.new ≡ through ring.old }
    ensures count { length (received ring.new) ≡ length (received ring.old) + count }
    ensures few { result ≤ count }
    ensures lost { L.failures link.new ≡ L.failures link.old + result }
{
    let mut lost = 0usize;
    for i in 0..count {
        let _ = i;
        let packet = ring.pop_known();
        if link.send(packet.to, &packet.bytes).is_err() {
            lost += 1;
        }
    }
    lost
}

/// What is owed after so many losses more.
pub(crate) fn more_owed(owed: u32, lost: usize) -> u32
    ensures { result ≡ min (owed + lost) (2 ^ 32 - 1) }
{
    if lost >= (u32::MAX - owed) as usize {
        u32::MAX
    } else {
        owed + lost as u32
    }
}
