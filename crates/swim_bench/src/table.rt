//! Turns of a table.

ghost use Rattle.std.specs.Prelude.{◌≡◌, ◌≤◌, ◌<◌, length};

use crate::scene::{ME, endpoint, other};
use byteorder::{BigEndian, ByteOrder};
use swim_rules::{Heard, Row, Table};
use swim_wire::{DATAGRAM_MAX, Endpoint, Rules, Update, UpdateKind, decode};

/// Tells a table an update, and answers whether it was accepted.
fn tell(table: &mut Table, me: Endpoint, update: &Update) -> bool
    requires { me ≡ table.old.me }
    ensures { table.new.me ≡ table.old.me }
{
    update.who != me && table.hear(*update, 1) == Heard::Accepted
}

/// Tells a table the updates of a text.
fn tell_all(table: &mut Table, me: Endpoint, text: &[u8])
    requires { me ≡ table.old.me }
    ensures { table.new.me ≡ table.old.me }
{
    let Ok(datagram) = decode(text) else { return };
    for update in datagram.updates.as_slice() {
        tell(table, me, update);
    }
}

/// Writes the numbers of the rows, in eight bytes each.
fn write_numbers(rows: &[Row], out: &mut [u8]) {
    for (part, row) in out.chunks_exact_mut(8).zip(rows) {
        BigEndian::write_u64(part, row.update.number);
    }
}

/// Tells a table one update in each turn, with a number that grows by `step`, and answers how many were
/// accepted.
fn tell_turns(table: &mut Table, me: Endpoint, step: u32, turns: u32) -> u64
    requires { me ≡ table.old.me }
    ensures { result ≤ turns }
{
    let mut accepted = 0;
    for turn in 0..turns {
        let update = Update {
            kind: UpdateKind::Alive,
            who: other(turn.wrapping_mul(97)),
            number: 1 + turn as u64 * step as u64,
        };
        if tell(table, me, &update) {
            accepted += 1;
        }
    }
    accepted
}

/// A table of this member with the rows of these texts, each of 512 bytes.
fn table_after(before: &[u8], me: Endpoint) -> Table
    ensures { result.me ≡ me }
{
    let mut table = Table::new(me, 100_000, 1_000_000, Rules::One);
    for text in before.chunks_exact(DATAGRAM_MAX) {
        tell_all(&mut table, me, text);
    }
    table
}

/// Tells a table with the rows of these texts one update in each turn, and answers how many were accepted.
/// The numbers of the rows then stand in `out`.
#[unsafe(no_mangle)]
pub extern "C" fn swim_bench_hear(before: &[u8], step: u32, turns: u32, out: &mut [u8]) -> u64
    ensures { result ≤ turns }
{
    let me = endpoint(ME);
    let mut table = table_after(before, me);
    let accepted = tell_turns(&mut table, me, step, turns);
    write_numbers(table.rows(), out);
    accepted
}
