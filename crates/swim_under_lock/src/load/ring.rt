//! Datagrams from an outbox to its sender.

use super::PLACES;
use std::alloc::Global;
use std::thread::{self, Threads, join};
use std::time::{Clock, Duration, Instant};
use swim_node::{Link, LinkFault};
use swim_scenes::endpoint;
use swim_shared::{Outbox, Sender};
use swim_wire::{DATAGRAM_MAX, Endpoint};

/// A link that adds up the first bytes of what it takes.
#[derive(Drop)]
struct SummingLink {
    sum: u64,
}

impl Link for SummingLink {
    ghost use Rattle.std.specs.Prelude.{[]};
    ghost use Rattle.swim_node.specs.Link.{link_number};

    ghost name = { λ _. link_number 0 };

    ghost tells = { ⊥ };

    ghost took = { λ _. [] };

    ghost failures = { λ _. 0 };

    fn send(&mut self, to: Endpoint, bytes: &[u8]) -> Result<(), LinkFault> {
        let _ = to;
        if let Some(first) = bytes.first() {
            self.sum = self.sum.wrapping_add(u64::from(*first));
        }
        Ok(())
    }
}

/// Puts one datagram into the outbox, as soon as there is a place.
fn put_one(outbox: &mut Outbox, to: Endpoint, bytes: &[u8]) {
    for _ in 0..u64::MAX {
        if outbox.send(to, bytes).is_ok() {
            break;
        }
        thread::yield_now();
    }
}

/// Puts so many full datagrams into the outbox, each of which begins with a 1.
fn put_all(mut outbox: Outbox, to: Endpoint, count: u32) {
    let bytes = [1u8; DATAGRAM_MAX];
    for _ in 0..count {
        put_one(&mut outbox, to, &bytes);
    }
}

/// Takes so many datagrams out of the ring, and answers the sum of their first bytes.
fn take_all(mut sender: Sender, count: u32) -> u64 {
    let mut link = SummingLink { sum: 0 };
    for _ in 0..u64::MAX {
        let sent = sender.turn(&mut link);
        if sent.taken == 0 {
            thread::yield_now();
        }
        if link.sum >= u64::from(count) {
            break;
        }
    }
    link.sum
}

/// The time of so many datagrams from one thread to another.
pub(super) fn through_ring<R: Threads + Clock + Sync>(
    rt: &R,
    alloc: Global,
    count: u32,
) -> Option<Duration> {
    let (outbox, sender) = Outbox::new(alloc, PLACES).ok()?;
    let to = endpoint(2)?;
    let start = Instant::now(rt).ok()?;
    let ((), sum) = join(
        rt,
        || put_all(outbox, to, count),
        || take_all(sender, count),
    );
    let took = start.elapsed(rt).ok()?;
    (sum == u64::from(count)).then_some(took)
}
