//! The buffer.

ghost use Rattle.std.specs.Prelude.{◌≡◌, ℕ, ◌+◌, ◌<◌, ◌≤◌, List, [], ◌∷◌, ◌++◌, length, map};
ghost use Rattle.swim_wire.specs.Filler.{filler};
ghost use Rattle.swim_gossip.specs.Queue.{without, offered_queue, picked_updates, raise_all, AreApart, AreWithin, NeverRise};
ghost use Rattle.swim_gossip.specs.Buckets.{queue_in};
ghost use Rattle.swim_wire.specs.declared.datagram.TheConstants.{UPDATES_MAX};

use crate::buckets::pick_from;
use crate::slots::{BufferSlot, HINTS_MAX, SLOTS_MAX, clear_about, fill, hint_of, put, waiting_in};
use crate::visits::Visits;
use arrayvec::ArrayVec;
use std::marker::Model;
use swim_wire::{Endpoint, MEMBERS_MAX, UPDATES_MAX, Update};

/// The most updates that wait: one about each member.
pub const WAITING_MAX: usize = MEMBERS_MAX;

/// An update and how many datagrams have carried it since it began to wait.
#[derive(Clone, Copy, Debug, PartialEq, Eq)]
pub struct Waiting {
    /// The update.
    pub update: Update,
    /// In how many datagrams it was sent since it began to wait.
    pub count: u32,
}

impl Default for Waiting {
    fn default() -> Waiting
        ensures { result ≡ record { update = filler; count = 0 } }
    {
        Waiting {
            update: Update::default(),
            count: 0,
        }
    }
}

/// The last bucket that a buffer may have: of the updates that were sent so often.
pub const BUCKETS_MAX: u32 = 144;

/// The updates that wait, at most one about each member and at most `WAITING_MAX`, in the order in
/// which they began. What began earlier was sent as often or more often. So those that were sent
/// equally often stand side by side: they are the buckets `most` to 0, in this order.
#[derive(Drop)]
pub struct Buffer {
    /// What waits, and gaps where what waited was removed.
    slots: ArrayVec<BufferSlot, SLOTS_MAX>,
    /// How many wait.
    len: usize,
    /// For each member where its update may stand. Members may share a hint, so it is only a hint.
    hints: [u16; HINTS_MAX],
    most: u32,
}

impl Model for Buffer {
    ghost use Rattle.std.specs.Prelude.{◌≡◌, ◌≤◌, length};
    ghost use Rattle.swim_gossip.specs.Queue.{Gossip};
    ghost use Rattle.swim_gossip.specs.Buckets.{queue_in, AreKept};
    ghost use Rattle.swim_gossip.specs.declared.buffer.TheConstants.{WAITING_MAX};

    ghost Value = { Gossip };

    ghost view = { λ b. record { queue = queue_in b.slots.items; most = b.most } };

    ghost invariant = { λ b. AreKept (queue_in b.slots.items) b.most
        × (b.len ≡ length (queue_in b.slots.items))
        × (b.len ≤ WAITING_MAX) };
}

/// Puts the updates that the next datagram carries into an empty list, and counts the send of each.
fn pick_in(
    slots: &mut ArrayVec<BufferSlot, SLOTS_MAX>,
    limit: u32,
    room: usize,
    updates: &mut ArrayVec<Update, UPDATES_MAX>,
    visits: &mut Visits,
)
    requires room { room ≤ UPDATES_MAX }
    requires apart { AreApart (queue_in slots.old.items) }
    requires counts { AreWithin BUCKETS_MAX (queue_in slots.old.items) }
    requires falling { NeverRise (queue_in slots.old.items) }
    requires empty { updates.old.items ≡ [] }
    requires begun { visits.old ≡ 0 }
    ensures picked { updates.new.items ≡ picked_updates limit room (queue_in slots.old.items) }
    ensures counted { queue_in slots.new.items
        ≡ map (raise_all (picked_updates limit room (queue_in slots.old.items)))
        (queue_in slots.old.items) }
    ensures falling { NeverRise (queue_in slots.new.items) }
    ensures visits { visits.new ≤ 858 }
{
    pick_from(slots, limit, room, updates, visits);
}

impl Buffer {
    /// A buffer in which nothing waits, with the buckets 0 to `most`.
    pub fn new(most: u32) -> Buffer
        requires { most ≤ BUCKETS_MAX }
        ensures { result ≡ record { queue = []; most = most } }
    {
        Buffer {
            slots: ArrayVec::new(),
            len: 0,
            hints: [0; HINTS_MAX],
            most,
        }
    }

    /// A buffer with the buckets 0 to `most` in which these updates wait, as they did in another one.
    /// None was sent more often than one that began before it.
    pub fn with_queue(queue: ArrayVec<Waiting, WAITING_MAX>, most: u32) -> Buffer
        requires apart { AreApart queue.items }
        requires within { AreWithin most queue.items }
        requires falling { NeverRise queue.items }
        requires most { most ≤ BUCKETS_MAX }
        ensures { result ≡ record { queue = queue.items; most = most } }
    {
        let mut slots = ArrayVec::new();
        let mut hints = [0; HINTS_MAX];
        fill(&queue, &mut slots, &mut hints);
        Buffer {
            slots,
            len: queue.len(),
            hints,
            most,
        }
    }

    /// The updates that wait, in the order in which they began.
    pub fn queue(&self) -> ArrayVec<Waiting, WAITING_MAX>
        ensures { result.items ≡ self.now.queue }
    {
        waiting_in(&self.slots)
    }

    /// That at most one update waits about each member, and those that were sent more often before the others. It does nothing:
    /// its contract is what counts.
    pub fn queue_is_kept(&self)
        ensures bound { length self.now.queue ≤ WAITING_MAX }
        ensures apart { AreApart self.now.queue }
        ensures falling { NeverRise self.now.queue }
        ensures within { AreWithin self.now.most self.now.queue }
    {
        self.len();
    }

    /// How many updates stand in the buffer.
    pub fn len(&self) -> usize
        ensures len { result ≡ length self.now.queue }
        ensures bound { result ≤ WAITING_MAX }
        ensures kept { AreApart self.now.queue }
        ensures falling { NeverRise self.now.queue }
        ensures within { AreWithin self.now.most self.now.queue }
    {
        self.len
    }

    /// The last of its buckets.
    pub fn most(&self) -> u32
        ensures { result ≡ self.now.most }
    {
        self.most
    }

    /// Lets an update begin to wait, in the place of the one about the same member, for which there
    /// is always room; about another member there must be room for one more.
    pub fn offer(&mut self, update: Update, visits: &mut Visits)
        requires room { length (without update.who self.old.queue) < WAITING_MAX }
        requires begun { visits.old ≡ 0 }
        ensures queue { self.new ≡ record self.old { queue = offered_queue self.old.queue update } }
        ensures kept { AreApart self.new.queue }
        ensures visits { visits.new ≤ 1000 }
    {
        let hint = self.hints[hint_of(update.who)] as usize;
        self.len -= clear_about(&mut self.slots, update.who, hint, visits);
        put(&mut self.slots, &mut self.hints, self.len, update, visits);
        self.len += 1;
    }

    /// Takes out the update about a member, if there is one. It is called: inlined, it would take registers from each tick at
    /// which nobody is forgotten.
    #[inline(never)]
    pub fn remove(&mut self, who: Endpoint, visits: &mut Visits)
        requires begun { visits.old ≡ 0 }
        ensures queue { self.new ≡ record self.old { queue = without who self.old.queue } }
        ensures kept { AreApart self.new.queue }
        ensures visits { visits.new ≤ 1000 }
    {
        let hint = self.hints[hint_of(who)] as usize;
        self.len -= clear_about(&mut self.slots, who, hint, visits);
    }

    /// Puts the updates that the next datagram carries, at most `room`, into an empty list, and counts the send of each.
    /// They are the first of those that were sent fewer than `limit` times, by how often they were
    /// sent, and then in the order in which they began to wait.
    #[inline]
    pub fn pick_into(
        &mut self,
        limit: u32,
        room: usize,
        updates: &mut ArrayVec<Update, UPDATES_MAX>,
        visits: &mut Visits,
    )
        requires room { room ≤ UPDATES_MAX }
        requires limit { limit ≤ self.old.most }
        requires empty { updates.old.items ≡ [] }
        requires begun { visits.old ≡ 0 }
        ensures picked { updates.new.items ≡ picked_updates limit room self.old.queue }
        ensures counted { self.new
            ≡ record self.old {
              queue = map (raise_all (picked_updates limit room self.old.queue)) self.old.queue;
            } }
        ensures kept { AreApart self.new.queue }
        ensures visits { visits.new ≤ 1000 }
    {
        pick_in(&mut self.slots, limit, room, updates, visits);
    }

    /// Gives the updates that `pick_into` puts into a list.
    #[inline]
    pub fn pick(
        &mut self,
        limit: u32,
        room: usize,
        visits: &mut Visits,
    ) -> ArrayVec<Update, UPDATES_MAX>
        requires room { room ≤ UPDATES_MAX }
        requires limit { limit ≤ self.old.most }
        requires begun { visits.old ≡ 0 }
        ensures picked { result.items ≡ picked_updates limit room self.old.queue }
        ensures counted { self.new
            ≡ record self.old {
              queue = map (raise_all (picked_updates limit room self.old.queue)) self.old.queue;
            } }
        ensures kept { AreApart self.new.queue }
        ensures visits { visits.new ≤ 1000 }
    {
        let mut updates = ArrayVec::new();
        self.pick_into(limit, room, &mut updates, visits);
        updates
    }
}
