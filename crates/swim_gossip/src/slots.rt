//! The slots of a buffer. Each update that waits has one, in the order in which the updates began. What is removed leaves a gap.

ghost use Rattle.std.specs.Prelude.{◌≡◌, ℕ, ◌+◌, ◌<◌, ◌≤◌, true, false, ◌∷◌, ◌++◌, [], length, take};
ghost use Rattle.std.specs.List.{filter};
ghost use Rattle.swim_wire.specs.Filler.{filler};
ghost use Rattle.swim_gossip.specs.Queue.{is_queued, without, AreApart};
ghost use Rattle.swim_gossip.specs.Buckets.{at, is_slot_of, queue_in};
ghost use Rattle.swim_gossip.specs.declared.buffer.TheConstants.{WAITING_MAX};
ghost use Rattle.swim_gossip.specs.declared.slots.TheConstants.{HINTS_MAX, SLOTS_MAX};

use crate::buffer::{WAITING_MAX, Waiting};
use crate::visits::Visits;
use arrayvec::ArrayVec;
use swim_wire::{Endpoint, Update};

/// The most slots, gaps among them. Once all are taken, the gaps are closed.
pub(crate) const SLOTS_MAX: usize = 368;

/// The gaps are closed too where they are so many more than what waits: each pick walks over them.
const GAPS: usize = 32;

/// How many hints there are.
pub(crate) const HINTS_MAX: usize = 1024;

/// The place of an update, or a gap.
#[derive(Clone, Copy)]
pub(crate) struct BufferSlot {
    /// The update.
    pub(crate) update: Update,
    /// In how many datagrams it was sent since it began to wait.
    pub(crate) count: u32,
    /// Whether it waits: otherwise this is a gap.
    pub(crate) waits: bool,
}

impl Default for BufferSlot {
    fn default() -> BufferSlot
        ensures { result ≡ record { update = filler; count = 0; waits = false } }
    {
        BufferSlot {
            update: Update::default(),
            count: 0,
            waits: false,
        }
    }
}

impl BufferSlot {
    /// A slot in which an update waits that was sent so often.
    fn new(update: Update, count: u32) -> BufferSlot
        ensures { result ≡ record { update = update; count = count; waits = true } }
    {
        BufferSlot {
            update,
            count,
            waits: true,
        }
    }

    /// Whether an update about this member waits here.
    fn is_about(&self, who: Endpoint) -> bool
        ensures { result ≡ is_slot_of who self.now }
    {
        self.waits && self.update.who == who
    }
}

/// Which hint is that of a member.
pub(crate) fn hint_of(who: Endpoint) -> usize
    ensures { result < HINTS_MAX }
{
    let mixed = who.number().wrapping_mul(0x9e37_79b9_7f4a_7c15);
    (mixed >> 32) as usize % HINTS_MAX
}

/// The place of the update about a member, or how many slots there are. The hint is where it may stand.
fn place_of(slots: &[BufferSlot], who: Endpoint, hint: usize, visits: &mut Visits) -> usize
    requires few { length slots.now ≤ SLOTS_MAX }
    requires begun { visits.old ≡ 0 }
    ensures found { result < length slots.now → is_slot_of who (at slots.now result) ≡ true }
    ensures none { length slots.now ≤ result → is_queued who (queue_in slots.now) ≡ false }
    ensures visits { visits.new ≤ 369 }
{
    visits.look();
    if hint < slots.len() && slots[hint].is_about(who) {
        return hint;
    }
    for place in 0..slots.len() {
        if slots[place].is_about(who) {
            visits.look_at(place + 1);
            return place;
        }
    }
    visits.look_at(slots.len());
    slots.len()
}

/// Moves those that are no gaps to the front, hints at them, and gives how many they are.
fn move_together(slots: &mut [BufferSlot], hints: &mut [u16]) -> usize
    requires few { length slots.old ≤ SLOTS_MAX }
    requires hints { length hints.old ≡ HINTS_MAX }
    ensures front { take result slots.new ≡ filter (λ s. s.waits) slots.old }
    ensures long { length slots.new ≡ length slots.old }
    ensures hints { length hints.new ≡ HINTS_MAX }
{
    let mut kept = 0;
    for place in 0..slots.len() {
        if slots[place].waits {
            let hint = hint_of(slots[place].update.who);
            hints[hint] = kept as u16;
            slots[kept] = slots[place];
            kept += 1;
        }
    }
    kept
}

/// Closes the gaps.
fn close_gaps(slots: &mut ArrayVec<BufferSlot, SLOTS_MAX>, hints: &mut [u16], visits: &mut Visits)
    requires hints { length hints.old ≡ HINTS_MAX }
    requires few { length (queue_in slots.old.items) ≤ WAITING_MAX }
    requires begun { visits.old ≤ 1000 }
    ensures queue { queue_in slots.new.items ≡ queue_in slots.old.items }
    ensures closed { length slots.new.items ≡ length (queue_in slots.old.items) }
    ensures hints { length hints.new ≡ HINTS_MAX }
    ensures visits { visits.new ≤ visits.old + 625 }
{
    visits.look_at(slots.len());
    let kept = move_together(slots, hints);
    slots.truncate(kept);
    visits.look_at(slots.len());
}

/// Leaves a gap in the place of the update about a member, and gives how many such places there were.
fn clear_in(slots: &mut [BufferSlot], who: Endpoint, hint: usize, visits: &mut Visits) -> usize
    requires few { length slots.old ≤ SLOTS_MAX }
    requires apart { AreApart (queue_in slots.old) }
    requires begun { visits.old ≡ 0 }
    ensures queue { queue_in slots.new ≡ without who (queue_in slots.old) }
    ensures fewer { length (queue_in slots.new) + result ≡ length (queue_in slots.old) }
    ensures long { length slots.new ≡ length slots.old }
    ensures visits { visits.new ≤ 369 }
{
    let place = place_of(slots, who, hint, visits);
    if place < slots.len() {
        slots[place].waits = false;
        return 1;
    }
    0
}

/// The same of the whole list.
pub(crate) fn clear_about(
    slots: &mut ArrayVec<BufferSlot, SLOTS_MAX>,
    who: Endpoint,
    hint: usize,
    visits: &mut Visits,
) -> usize
    requires apart { AreApart (queue_in slots.old.items) }
    requires begun { visits.old ≡ 0 }
    ensures queue { queue_in slots.new.items ≡ without who (queue_in slots.old.items) }
    ensures fewer { length (queue_in slots.new.items) + result
        ≡ length (queue_in slots.old.items) }
    ensures visits { visits.new ≤ 369 }
{
    clear_in(slots, who, hint, visits)
}

/// Puts an update into a slot behind all others, with count 0. So many wait before it.
pub(crate) fn put(
    slots: &mut ArrayVec<BufferSlot, SLOTS_MAX>,
    hints: &mut [u16],
    len: usize,
    update: Update,
    visits: &mut Visits,
)
    requires hints { length hints.old ≡ HINTS_MAX }
    requires len { len ≡ length (queue_in slots.old.items) }
    requires room { len < WAITING_MAX }
    requires begun { visits.old ≤ 369 }
    ensures queue { queue_in slots.new.items
        ≡ queue_in slots.old.items ++ record { update = update; count = 0 } ∷ [] }
    ensures hints { length hints.new ≡ HINTS_MAX }
    ensures visits { visits.new ≤ visits.old + 626 }
{
    if slots.is_full() || slots.len() > 2 * len + GAPS {
        close_gaps(slots, hints, visits);
    }
    visits.look();
    hints[hint_of(update.who)] = slots.len() as u16;
    slots.push(BufferSlot::new(update, 0));
}

/// Puts these updates into slots.
pub(crate) fn fill(
    queue: &[Waiting],
    slots: &mut ArrayVec<BufferSlot, SLOTS_MAX>,
    hints: &mut [u16],
)
    requires few { length queue.now ≤ WAITING_MAX }
    requires empty { slots.old.items ≡ [] }
    requires hints { length hints.old ≡ HINTS_MAX }
    ensures queue { queue_in slots.new.items ≡ queue.now }
    ensures hints { length hints.new ≡ HINTS_MAX }
{
    for waits in queue {
        hints[hint_of(waits.update.who)] = slots.len() as u16;
        slots.push(BufferSlot::new(waits.update, waits.count));
    }
}

/// The updates in slots that are no gaps.
pub(crate) fn waiting_in(slots: &[BufferSlot]) -> ArrayVec<Waiting, WAITING_MAX>
    requires { length (queue_in slots.now) ≤ WAITING_MAX }
    ensures { result.items ≡ queue_in slots.now }
{
    let mut queue = ArrayVec::new();
    for slot in slots {
        if slot.waits {
            queue.push(Waiting {
                update: slot.update,
                count: slot.count,
            });
        }
    }
    queue
}
