//! What a member is to send, until it is taken out.

ghost use Rattle.std.specs.Prelude.{◌≡◌, ◌≢◌, ◌+◌, ◌<◌, ◌≤◌, ◌∷◌, [], ℕ, List, length, IsOk, OnOk, true, false};
ghost use Rattle.swim_member.specs.declared.answer.TheConstants.{OUTS_MAX};
ghost use Rattle.swim_wire.specs.declared.datagram.TheConstants.{DATAGRAM_MAX};
ghost use Rattle.swim_library.specs.Outbox.{sent_as, waiting_in};

use arrayvec::ArrayVec;
use std::marker::Model;
use swim_member::OUTS_MAX;
use swim_node::{Link, LinkFault};
use swim_trace::Trace;
use swim_wire::{DATAGRAM_MAX, Endpoint};

/// A datagram that waits.
#[derive(Drop)]
pub(crate) struct Waiting {
    pub(crate) to: Endpoint,
    pub(crate) bytes: ArrayVec<u8, DATAGRAM_MAX>,
}

/// What fills the unused places of a list.
impl Default for Waiting {
    fn default() -> Waiting {
        Waiting {
            to: Endpoint::default(),
            bytes: ArrayVec::new(),
        }
    }
}

/// Fills a place with the datagram that waits there now.
fn write(place: &mut Waiting, to: Endpoint, bytes: &[u8])
    requires { length bytes.now ≤ DATAGRAM_MAX }
    ensures { sent_as place.new ≡ (to, bytes.now) }
{
    place.to = to;
    place.bytes.clear();
    match place.bytes.try_extend_from_slice(bytes) {
        Ok(()) => {}
        Err(_) => unreachable!(),
    }
}

/// The datagrams that wait, in order: as many as one event may send. They stay in their places, since they are large: a place is
/// written anew once all that waited were taken out.
#[derive(Drop)]
pub(crate) struct Outbox {
    places: [Waiting; OUTS_MAX],
    /// The place of the first that waits, and the one after the last.
    begin: usize,
    end: usize,
    failures: Trace<()>,
}

impl Model for Outbox {
    ghost use Rattle.std.specs.Prelude.{◌≡◌, ◌-◌, ◌≤◌, drop, length, take};
    ghost use Rattle.swim_member.specs.declared.answer.TheConstants.{OUTS_MAX};
    ghost use Rattle.swim_library.specs.Outbox.{OutboxState, all_as};

    ghost Value = { OutboxState };

    ghost view = { λ o. record {
      waiting = all_as (drop o.begin (take o.end o.places));
      room = OUTS_MAX - o.end;
      failures = length o.failures;
    } };

    ghost invariant = { λ o. (o.begin ≤ o.end) × (o.end ≤ length o.places)
        × (length o.places ≡ OUTS_MAX) × (o.begin ≡ o.end → o.end ≡ 0) };
}

impl Outbox {
    /// An outbox in which nothing waits.
    pub(crate) fn new() -> Outbox
        ensures { waiting_in result ≡ [] }
    {
        Outbox {
            places: Default::default(),
            begin: 0,
            end: 0,
            failures: Trace::new(),
        }
    }

    /// Whether nothing waits.
    pub(crate) fn is_empty(&self) -> bool
        ensures none { result ≡ true → waiting_in self.now ≡ [] }
        ensures some { result ≡ false → waiting_in self.now ≢ [] }
    {
        self.begin == self.end
    }

    /// The first datagram that waits.
    pub(crate) fn first(&self) -> &Waiting
        requires { waiting_in self.now ≢ [] }
        ensures { (rest : List (ℕ × List ℕ))
            × (waiting_in self.now ≡ sent_as result.now ∷ rest) }
    {
        &self.places[self.begin]
    }

    /// The first datagram that waits waits no more.
    pub(crate) fn remove_first(&mut self)
        requires { waiting_in self.old ≢ [] }
        ensures { (first : ℕ × List ℕ)
            × (waiting_in self.old ≡ first ∷ waiting_in self.new) }
    {
        self.begin += 1;
        if self.begin == self.end {
            self.begin = 0;
            self.end = 0;
        }
    }

    /// Counts a failure.
    fn failed(&mut self) -> LinkFault
        ensures failures { self.new.failures ≡ self.old.failures + 1 }
        ensures rest { (self.new.waiting ≡ self.old.waiting) × (self.new.room ≡ self.old.room) }
    {
        self.failures = self.failures.and(&());
        LinkFault
    }
}

/// It takes each datagram for which it has room.
impl Link for Outbox {
    ghost use Rattle.std.specs.Prelude.{◌++◌, MatchResult};
    ghost use Rattle.swim_node.specs.Link.{link_number};

    ghost name = { λ o. link_number 0 };

    ghost tells = { Unit {0} };

    ghost took = { λ o. waiting_in o };

    ghost failures = { λ o. o.failures };

    fn send(&mut self, to: Endpoint, bytes: &[u8]) -> Result<(), LinkFault>
        ensures failures { MatchResult result
            (λ _. self.new.failures ≡ self.old.failures)
            (λ _. self.new.failures ≡ self.old.failures + 1) }
        ensures took { MatchResult result
            (λ _. waiting_in self.new ≡ waiting_in self.old ++ (to, bytes.now) ∷ [])
            (λ _. waiting_in self.new ≡ waiting_in self.old) }

        // A datagram that is no longer than the rules allow is taken while there is room, and takes one place.
        ensures room { 0 < self.old.room → length bytes.now ≤ DATAGRAM_MAX → IsOk result }
        ensures one { OnOk result (self.new.room + 1 ≡ self.old.room) }
    {
        if self.end == OUTS_MAX || bytes.len() > DATAGRAM_MAX {
            return Err(self.failed());
        }
        write(&mut self.places[self.end], to, bytes);
        self.end += 1;
        Ok(())
    }
}
