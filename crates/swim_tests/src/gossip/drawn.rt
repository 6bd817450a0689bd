//! Ten thousand drawn calls of a buffer, and of a plain list beside it, which each call walks.

use super::{begin, pick, update};
use crate::same::{holds, same};
use arrayvec::ArrayVec;
use rand_chacha::ChaCha20Rng;
use rand_core::SeedableRng;
use rand_core::utils::NextWord;
use std::process::Abort;
use swim_gossip::{BUCKETS_MAX, Buffer, Visits, WAITING_MAX, Waiting};
use swim_wire::{Endpoint, UPDATES_MAX, Update, UpdateKind};

/// The updates that wait, in the order in which they began.
#[derive(Drop)]
struct List {
    queue: ArrayVec<Waiting, WAITING_MAX>,
}

impl List {
    fn remove(&mut self, who: Endpoint) {
        self.queue.retain(|waiting| waiting.update.who != who);
    }

    fn offer(&mut self, update: Update) {
        self.remove(update.who);
        let _ = self.queue.try_push(Waiting { update, count: 0 });
    }

    /// Those that were sent so many times, as long as there is room.
    fn take(&self, count: u32, room: usize, taken: &mut ArrayVec<Update, UPDATES_MAX>) {
        for waiting in self.queue.as_slice() {
            if waiting.count == count && taken.len() < room {
                let _ = taken.try_push(waiting.update);
            }
        }
    }

    fn pick(&mut self, limit: u32, room: usize) -> ArrayVec<Update, UPDATES_MAX> {
        let mut picked = ArrayVec::new();
        for count in 0..limit {
            self.take(count, room, &mut picked);
        }
        for waiting in self.queue.iter_mut() {
            if picked.contains(&waiting.update) {
                waiting.count = waiting.count.saturating_add(1);
            }
        }
        picked
    }
}

/// One call of both by a drawn word: four of eight offer, one removes, and three pick.
fn call(rt: &impl Abort, buffer: &mut Buffer, list: &mut List, word: u32, members: u32) {
    holds(rt, 0 < members && members <= 256);
    let drawn = word / 8;
    let told = update(UpdateKind::Alive, (drawn % members) as u16, drawn as u64);
    match word % 8 {
        0..=3 => {
            begin(rt, buffer, told);
            list.offer(told);
        }
        4 => {
            buffer.remove(told.who, &mut Visits::new());
            list.remove(told.who);
        }
        _ => {
            let limit = drawn % (BUCKETS_MAX + 1);
            let room = (drawn / 256) as usize % (UPDATES_MAX + 1);
            let picked = pick(rt, buffer, limit, room);
            same(rt, picked.as_slice(), list.pick(limit, room).as_slice());
        }
    }
    same(rt, buffer.len(), list.queue.len());
}

#[test]
fn drawn_calls(rt: HostRuntime) {
    let mut rng = ChaCha20Rng::seed_from_u64(7);
    for members in [40, 256] {
        let mut buffer = Buffer::new(BUCKETS_MAX);
        let mut list = List {
            queue: ArrayVec::new(),
        };
        for _ in 0..5_000 {
            call(&rt, &mut buffer, &mut list, rng.next_word(), members);
        }
    }
}
