//! The buckets: of the updates that were sent equally often. Counts never rise along the slots, so
//! each bucket is a run of them, and the bucket of the lowest count stands last. Each function of
//! this file counts what it looks at.

ghost use Rattle.std.specs.Prelude.{◌≡◌, ◌≢◌, ℕ, ◌+◌, ◌-◌, ◌*◌, ◌<◌, ◌≤◌, ◌==◌, ◌&&◌, not, true, false, List, [], ◌++◌, length, map, take, All};
ghost use Rattle.swim_gossip.specs.Queue.{picked_updates, raise_all, AreApart, AreWithin, NeverRise};
ghost use Rattle.swim_gossip.specs.Buckets.{at, lives, runs, raised_at, queue_in};
ghost use Rattle.swim_gossip.specs.declared.buffer.TheConstants.{BUCKETS_MAX};
ghost use Rattle.swim_gossip.specs.declared.slots.TheConstants.{SLOTS_MAX};
ghost use Rattle.swim_wire.specs.declared.datagram.TheConstants.{UPDATES_MAX};

use crate::buffer::BUCKETS_MAX;
use crate::slots::{BufferSlot, SLOTS_MAX};
use crate::visits::Visits;
use arrayvec::ArrayVec;
use swim_wire::{UPDATES_MAX, Update};

/// How many places are passed at once, at first, on the way to the begin of a bucket.
const STRIDE: usize = 16;

impl BufferSlot {
    /// Whether an update that was sent so often waits here.
    fn is_sent(&self, count: u32) -> bool
        ensures { result ≡ (self.now.waits && (self.now.count == count)) }
    {
        self.waits && self.count == count
    }

    /// Whether an update that was not sent so often waits here.
    fn is_sent_otherwise(&self, count: u32) -> bool
        ensures { result ≡ (self.now.waits && not (self.now.count == count)) }
    {
        self.waits && self.count != count
    }
}

/// The end of the slots, without the gaps there.
fn end_of(slots: &[BufferSlot], visits: &mut Visits) -> usize
    requires few { length slots.now ≤ SLOTS_MAX }
    requires begun { visits.old ≡ 0 }
    ensures end { result ≤ length slots.now }
    ensures last { 0 < result → (at slots.now (result - 1)).waits ≡ true }
    ensures gaps { (x : ℕ) → result ≤ x → (at slots.now x).waits ≡ false }
    ensures visits { visits.new + result ≤ length slots.now + 1 }
{
    let mut end = slots.len();
    while 0 < end && !slots[end - 1].waits {
        end -= 1;
    }
    visits.look_at(slots.len() - end + 1);
    end
}

/// Goes back from a place by strides, as long as updates that were sent so often wait there.
fn stride_back(slots: &[BufferSlot], place: usize, count: u32, visits: &mut Visits) -> usize
    requires few { length slots.now ≤ SLOTS_MAX }
    requires place { place < length slots.now }
    requires here { (at slots.now place).waits ≡ true }
    requires same { (at slots.now place).count ≡ count }
    requires begun { visits.old ≤ 2000 }
    ensures back { result ≤ place }
    ensures here { (at slots.now result).waits ≡ true }
    ensures same { (at slots.now result).count ≡ count }
    ensures visits { visits.new + result ≤ visits.old + place + 1 }
{
    let mut begin = place;
    let mut strides = 0;
    while STRIDE <= begin && slots[begin - STRIDE].is_sent(count) {
        begin -= STRIDE;
        strides += 1;
    }
    visits.look_at(strides + 1);
    begin
}

/// Goes back from a place to the first behind all updates that were not sent so often.
fn step_back(slots: &[BufferSlot], place: usize, count: u32, visits: &mut Visits) -> usize
    requires few { length slots.now ≤ SLOTS_MAX }
    requires place { place < length slots.now }
    requires begun { visits.old ≤ 3000 }
    ensures back { result ≤ place }
    ensures same { (x : ℕ) → result ≤ x → x < place
        → (at slots.now x).waits ≡ true → (at slots.now x).count ≡ count }
    ensures live { 0 < result → (at slots.now (result - 1)).waits ≡ true }
    ensures other { 0 < result → (at slots.now (result - 1)).count ≢ count }
    ensures visits { visits.new + result ≤ visits.old + place + 1 }
{
    let mut begin = place;
    while 0 < begin && !slots[begin - 1].is_sent_otherwise(count) {
        begin -= 1;
    }
    visits.look_at(place - begin + 1);
    begin
}

/// The first place of the bucket that ends before `end`, or of gaps before it.
fn begin_of(slots: &[BufferSlot], end: usize, visits: &mut Visits) -> usize
    requires few { length slots.now ≤ SLOTS_MAX }
    requires falling { NeverRise (queue_in slots.now) }
    requires some { 0 < end }
    requires end { end ≤ length slots.now }
    requires last { (at slots.now (end - 1)).waits ≡ true }
    requires begun { visits.old ≤ 1000 }
    ensures before { result < end }
    ensures same { (x : ℕ) → result ≤ x → x < end → (at slots.now x).waits ≡ true
        → (at slots.now x).count ≡ (at slots.now (end - 1)).count }
    ensures live { 0 < result → (at slots.now (result - 1)).waits ≡ true }
    ensures other { 0 < result
        → (at slots.now (result - 1)).count ≢ (at slots.now (end - 1)).count }
    ensures visits { visits.new + result ≤ visits.old + end + 2 }
{
    visits.look();
    let count = slots[end - 1].count;
    let near = stride_back(slots, end - 1, count, visits);
    step_back(slots, near, count, visits)
}

/// Takes the places from `begin` to before `end` that are no gaps, as long as there is room.
fn take_bucket(
    slots: &[BufferSlot],
    begin: usize,
    end: usize,
    room: usize,
    places: &mut ArrayVec<u16, UPDATES_MAX>,
    visits: &mut Visits,
)
    requires few { length slots.now ≤ SLOTS_MAX }
    requires begin { begin < end }
    requires end { end ≤ length slots.now }
    requires last { (at slots.now (end - 1)).waits ≡ true }
    requires room { room ≤ UPDATES_MAX }
    requires before { length places.old.items < room }
    requires begun { visits.old ≤ 2000 }
    ensures places { places.new.items
        ≡ take room (places.old.items ++ lives slots.now begin (end - begin)) }
    ensures room { length places.new.items ≤ room }
    ensures some { length places.old.items < length places.new.items }
    ensures visits { visits.new + begin ≤ visits.old + end }
{
    let mut place = begin;
    while place < end && places.len() < room {
        if slots[place].waits {
            places.push(place as u16);
        }
        place += 1;
    }
    visits.look_at(place - begin);
}

/// The places of the updates that the next datagram carries: bucket after bucket, from the last slot
/// on, as long as there is room.
fn next_places(
    slots: &[BufferSlot],
    limit: u32,
    room: usize,
    visits: &mut Visits,
) -> ArrayVec<u16, UPDATES_MAX>
    requires few { length slots.now ≤ SLOTS_MAX }
    requires falling { NeverRise (queue_in slots.now) }
    requires room { room ≤ UPDATES_MAX }
    requires begun { visits.old ≡ 0 }
    ensures places { result.items ≡ take room (runs limit slots.now) }
    ensures room { length result.items ≤ room }
    ensures visits { visits.new ≤ 828 }
{
    let mut places = ArrayVec::new();
    let mut end = end_of(slots, visits);
    visits.look();
    while 0 < end && slots[end - 1].count < limit && places.len() < room {
        let begin = begin_of(slots, end, visits);
        take_bucket(slots, begin, end, room, &mut places, visits);
        visits.look();
        end = begin;
    }
    places
}

/// Puts the updates at these places into an empty list, and counts one more send of each.
fn send_at(
    slots: &mut [BufferSlot],
    places: &[u16],
    updates: &mut ArrayVec<Update, UPDATES_MAX>,
    visits: &mut Visits,
)
    requires places { All (λ x. (at slots.old x).waits ≡ true) places.now }
    requires counts { AreWithin BUCKETS_MAX (queue_in slots.old) }
    requires few { length places.now ≤ UPDATES_MAX }
    requires empty { updates.old.items ≡ [] }
    requires begun { visits.old ≤ 1000 }
    ensures updates { updates.new.items ≡ map (λ x. (at slots.old x).update) places.now }
    ensures slots { slots.new ≡ raised_at places.now slots.old }
    ensures long { length slots.new ≡ length slots.old }
    ensures visits { visits.new ≤ visits.old + UPDATES_MAX }
{
    visits.look_at(places.len());
    for place in places {
        updates.push(slots[*place as usize].update);
        slots[*place as usize].count += 1;
    }
}

/// Puts the updates that the next datagram carries into an empty list, and counts the send of each.
pub(crate) fn pick_from(
    slots: &mut [BufferSlot],
    limit: u32,
    room: usize,
    updates: &mut ArrayVec<Update, UPDATES_MAX>,
    visits: &mut Visits,
)
    requires room { room ≤ UPDATES_MAX }
    requires apart { AreApart (queue_in slots.old) }
    requires few { length slots.old ≤ SLOTS_MAX }
    requires counts { AreWithin BUCKETS_MAX (queue_in slots.old) }
    requires falling { NeverRise (queue_in slots.old) }
    requires empty { updates.old.items ≡ [] }
    requires begun { visits.old ≡ 0 }
    ensures picked { updates.new.items ≡ picked_updates limit room (queue_in slots.old) }
    ensures counted { queue_in slots.new
        ≡ map (raise_all (picked_updates limit room (queue_in slots.old))) (queue_in slots.old) }
    ensures falling { NeverRise (queue_in slots.new) }
    ensures long { length slots.new ≡ length slots.old }
    ensures visits { visits.new ≤ 858 }
{
    let places = next_places(slots, limit, room, visits);
    send_at(slots, &places, updates, visits);
}
