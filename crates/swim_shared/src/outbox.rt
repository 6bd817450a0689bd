//! A link that puts datagrams into a ring.

ghost use Rattle.std.specs.Prelude.{◌≡◌, ◌+◌, ◌<◌, ◌≤◌, [], IfOk};
ghost use Rattle.swim_shared.specs.Outboxes.{ring_of, put};

use crate::packet::Packet;
use crate::sender::Sender;
use arrayvec::ArrayVec;
use rtrb::{Producer, RingBuffer};
use std::alloc::{AllocError, Global};
use std::marker::Model;
use swim_node::{Link, LinkFault};
use swim_trace::Trace;
use swim_wire::Endpoint;

/// A link that puts datagrams into a ring, from which a sender takes them in order. A full ring
/// takes none: the datagram is lost, and counted. Contracts see it as `OutboxView`.
#[derive(Drop)]
pub struct Outbox {
    producer: Producer<Packet>,
    /// How many it refused, without a bound.
    failures: Trace<()>,
}

impl Model for Outbox {
    ghost use Rattle.std.specs.Prelude.{length};
    ghost use Rattle.swim_shared.specs.Outboxes.{OutboxView, ring_of, put};

    ghost Value = { OutboxView };

    ghost view = { λ o. record {
      ring = ring_of o.producer;
      put = put o.producer;
      failures = length o.failures;
    } };
}

impl Outbox {
    /// A ring with 1 to 4,096 places, a datagram in each, and the sender that empties it. It
    /// answers `AllocError` where there is no memory for the places.
    pub fn new(alloc: Global, places: usize) -> Result<(Outbox, Sender), AllocError>
        requires { (0 < places) × (places ≤ 4096) }
        ensures ring { IfOk result (λ t. t.0.ring ≡ t.1.ring) }
        ensures empty { IfOk result (λ t. (t.0.put ≡ []) × (t.1.got ≡ [])) }
        ensures counts { IfOk result (λ t. (t.0.failures ≡ 0) × (t.1.owed ≡ 0)) }
    {
        let (producer, consumer) = RingBuffer::new(alloc, places)?;
        let outbox = Outbox {
            producer,
            failures: Trace::new(),
        };
        Ok((outbox, Sender { consumer, owed: 0 }))
    }

    /// The end of the ring that it fills.
    pub(crate) fn into_producer(self) -> Producer<Packet>
        ensures ring { ring_of result ≡ self.ring }
        ensures put { put result ≡ self.put }
    {
        let Outbox {
            producer,
            failures: _,
        } = self;
        producer
    }

    /// Counts a refusal.
    fn failed(&mut self) -> LinkFault
        ensures failures { self.new.failures ≡ self.old.failures + 1 }
        ensures rest { (self.new.ring ≡ self.old.ring) × (self.new.put ≡ self.old.put) }
    {
        self.failures = self.failures.and(&());
        LinkFault
    }
}

impl Link for Outbox {
    ghost name = { λ o. o.ring };

    ghost tells = { Unit {0} };

    ghost took = { λ o. o.put };

    ghost failures = { λ o. o.failures };

    fn send(&mut self, to: Endpoint, bytes: &[u8]) -> Result<(), LinkFault> {
        let mut copy = ArrayVec::new();
        if copy.try_extend_from_slice(bytes).is_err() {
            return Err(self.failed());
        }
        match self.producer.push(Packet { to, bytes: copy }) {
            Ok(()) => Ok(()),
            Err(_) => Err(self.failed()),
        }
    }
}
