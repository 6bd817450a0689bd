//! Turns of a buffer.

ghost use Rattle.std.specs.Prelude.{◌≡◌, ◌≤◌, ◌*◌, length};

use crate::scene::waiting_member;
use byteorder::{BigEndian, ByteOrder};
use swim_gossip::{BUCKETS_MAX, Buffer, Visits, WAITING_MAX};
use swim_wire::{UPDATES_MAX, Update, UpdateKind};

/// Lets an update about this member begin to wait, where there is room for one more.
fn begin(buffer: &mut Buffer, member: u32, number: u64) {
    let update = Update {
        kind: UpdateKind::Alive,
        who: waiting_member(member),
        number,
    };
    if buffer.len() < WAITING_MAX {
        buffer.offer(update, &mut Visits::new());
    }
}

/// A buffer in which updates about so many members wait.
fn buffer_of(members: u32) -> Buffer {
    let mut buffer = Buffer::new(BUCKETS_MAX);
    for member in 0..members {
        begin(&mut buffer, member, 0);
    }
    buffer
}

/// The member of a turn.
fn member_of(turn: u32, members: u32) -> u32 {
    turn.wrapping_mul(97) % members.max(1)
}

/// Picks as many as a datagram carries, and answers how many they are.
fn pick(buffer: &mut Buffer) -> usize
    ensures { result ≤ 30 }
{
    let limit = buffer.most();
    buffer.pick(limit, UPDATES_MAX, &mut Visits::new()).len()
}

/// Writes what is picked next, the number of each in eight bytes and the address in eight more.
fn write_next(buffer: &mut Buffer, out: &mut [u8]) {
    let limit = buffer.most();
    let updates = buffer.pick(limit, UPDATES_MAX, &mut Visits::new());
    for (part, update) in out.chunks_exact_mut(16).zip(updates.as_slice()) {
        BigEndian::write_u64(part, update.number);
        BigEndian::write_u64(&mut part[8..], update.who.address() as u64);
    }
}

/// Picks in each turn what a datagram carries, and answers how many updates that were. What is picked next
/// stands in `out`.
#[unsafe(no_mangle)]
pub extern "C" fn swim_bench_picks(members: u32, turns: u32, out: &mut [u8]) -> u64
    ensures { result ≤ turns * 30 }
{
    let mut buffer = buffer_of(members);
    let mut picked = 0;
    for _ in 0..turns {
        picked += pick(&mut buffer) as u64;
    }
    write_next(&mut buffer, out);
    picked
}

/// Offers in each turn an update about a member of whom one waits, and answers how many wait at the end.
/// What is picked next stands in `out`.
#[unsafe(no_mangle)]
pub extern "C" fn swim_bench_offers(members: u32, turns: u32, out: &mut [u8]) -> u64
    ensures { result ≤ 257 }
{
    let mut buffer = buffer_of(members);
    for turn in 0..turns {
        begin(&mut buffer, member_of(turn, members), turn as u64);
    }
    write_next(&mut buffer, out);
    buffer.len() as u64
}

/// The same, with the update that waits removed before each offer.
#[unsafe(no_mangle)]
pub extern "C" fn swim_bench_removals(members: u32, turns: u32, out: &mut [u8]) -> u64
    ensures { result ≤ 257 }
{
    let mut buffer = buffer_of(members);
    for turn in 0..turns {
        let member = member_of(turn, members);
        buffer.remove(waiting_member(member), &mut Visits::new());
        begin(&mut buffer, member, turn as u64);
    }
    write_next(&mut buffer, out);
    buffer.len() as u64
}
