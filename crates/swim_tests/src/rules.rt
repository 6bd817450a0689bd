//! The worked rows, as calls of a table. The expected rows and answers were written by hand.

ghost use Rattle.std.specs.Prelude.{◌≡◌, ◌+◌, ◌*◌, ◌<◌};

use crate::same::{holds_at, same, same_at};
use std::process::Abort;
use swim_rules::{Heard, ROWS_MAX, Table, order_is_of_no_matter, overrides, rows_are_tops};
use swim_wire::{Cursor, Endpoint, Rules, Update, UpdateKind};

/// The member 10.0.0.0 plus `last`, at port 7000.
fn member(last: u32) -> Endpoint
    requires { last < 65536 }
    ensures { result ≡ (0x0a00_0000 + last) * 65536 + 7000 }
{
    Endpoint::new(0x0a00_0000 + last, 7000).unwrap()
}

/// The table of 10.0.0.1:7000, by these rules: a Suspect becomes Confirm after 8 ticks, and a Confirm
/// is forgotten after 40.
#[derive(Drop)]
struct OwnTable {
    table: Table,
    ghost me: { table.me ≡ 0x0a00_0001_1b58 },
}

impl OwnTable {
    fn new(rules: Rules) -> OwnTable {
        OwnTable {
            table: Table::new(member(1), 8, 40, rules),
        }
    }

    /// Hears an update about another member, or answers none.
    fn hear(&mut self, kind: UpdateKind, last: u32, number: u64, now: u64) -> Option<Heard> {
        if last == 1 || last >= 65536 {
            return None;
        }
        let who = member(last);
        Some(self.table.hear(Update { kind, who, number }, now))
    }

    /// The last number and the number of the Confirm that expiry makes, if it makes one.
    fn expire(&mut self, now: u64) -> Option<(u32, u64)> {
        match self.table.expire(now) {
            Some(update) if update.kind == UpdateKind::Confirm => {
                Some((last_of(update.who), update.number))
            }
            _ => None,
        }
    }

    /// The last number of the member that is forgotten, if one is.
    fn forget(&mut self, now: u64) -> Option<u32> {
        self.table.forget(now).map(|who| last_of(who))
    }
}

/// A call of a table, and what it has to answer.
#[derive(Clone, Copy, Debug)]
enum Call {
    /// An update about the member with this last number.
    Hear(UpdateKind, u32, u64, Heard),
    /// The Confirm: the member's last number, and the update's number.
    Expire(Option<(u32, u64)>),
    Forget(Option<u32>),
    /// The row of a member: its kind, its number, and the tick at which it was heard.
    Get(u32, Option<(UpdateKind, u64, u64)>),
}

/// The last number of a member of 10.0.0.0/16.
fn last_of(who: Endpoint) -> u32 {
    who.address() % 65536
}

/// Makes one call at the tick `now`, and says whether its answer is the one that is wanted.
fn answers(own: &mut OwnTable, now: u64, call: Call) -> bool {
    match call {
        Call::Hear(kind, last, number, wanted) => {
            own.hear(kind, last, number, now) == Some(wanted)
        }
        Call::Expire(wanted) => own.expire(now) == wanted,
        Call::Forget(wanted) => own.forget(now) == wanted,
        Call::Get(last, wanted) => shows(&own.table, last, wanted),
    }
}

/// Whether the row of a member is this one.
fn shows(table: &Table, last: u32, wanted: Option<(UpdateKind, u64, u64)>) -> bool {
    if last >= 65536 {
        return false;
    }
    let row = table.get(member(last));
    row.map(|row| (row.update.kind, row.update.number, row.since)) == wanted
}

/// Makes these calls of a new table, each at its tick.
fn run(rt: &impl Abort, rules: Rules, calls: &[(u64, Call)]) {
    let mut own = OwnTable::new(rules);
    for (now, call) in calls {
        holds_at(rt, &(call, now), answers(&mut own, *now, *call));
    }
}

use Call::{Expire, Forget, Get, Hear};
use Heard::{Accepted, Full, Kept, Unknown};
use UpdateKind::{Alive, Confirm, Suspect};

#[test]
fn heard_in_any_order(rt: HostRuntime) {
    let in_order = [
        (0, Hear(Alive, 3, 3, Accepted)),
        (0, Hear(Suspect, 3, 3, Accepted)),
        (0, Hear(Alive, 3, 3, Kept)),
        (0, Hear(Alive, 3, 4, Accepted)),
        (0, Get(3, Some((Alive, 4, 0)))),
    ];
    run(&rt, Rules::One, &in_order);
    let reversed = [
        (0, Hear(Alive, 3, 4, Accepted)),
        (0, Hear(Alive, 3, 3, Kept)),
        (0, Hear(Suspect, 3, 3, Kept)),
        (0, Hear(Alive, 3, 3, Kept)),
        (0, Get(3, Some((Alive, 4, 0)))),
    ];
    run(&rt, Rules::One, &reversed);
}

#[test]
fn confirm_and_forget(rt: HostRuntime) {
    let kept = [
        (0, Hear(Alive, 3, 9, Accepted)),
        (0, Hear(Confirm, 3, 0, Accepted)),
        (0, Get(3, Some((Confirm, 0, 0)))),
        (39, Forget(None)),
        (39, Hear(Alive, 3, 1, Kept)),
        (39, Get(3, Some((Confirm, 0, 0)))),
    ];
    run(&rt, Rules::One, &kept);
    let forgotten = [
        (0, Hear(Alive, 3, 9, Accepted)),
        (0, Hear(Confirm, 3, 0, Accepted)),
        (40, Forget(Some(3))),
        (40, Forget(None)),
        (40, Get(3, None)),
        (40, Hear(Alive, 3, 1, Accepted)),
        (40, Get(3, Some((Alive, 1, 40)))),
    ];
    run(&rt, Rules::One, &forgotten);
    let unknown = [(0, Hear(Confirm, 3, 5, Unknown)), (0, Get(3, None))];
    run(&rt, Rules::One, &unknown);
}

#[test]
fn back_after_a_confirm(rt: HostRuntime) {
    let stands = [
        (0, Hear(Alive, 3, 1, Accepted)),
        (0, Hear(Confirm, 3, 9, Accepted)),
        (0, Hear(Alive, 3, 9, Kept)),
        (0, Get(3, Some((Confirm, 9, 0)))),
    ];
    run(&rt, Rules::Two, &stands);
    let back = [
        (0, Hear(Alive, 3, 1, Accepted)),
        (0, Hear(Confirm, 3, 9, Accepted)),
        (1, Hear(Alive, 3, 10, Accepted)),
        (1, Get(3, Some((Alive, 10, 1)))),
    ];
    run(&rt, Rules::Two, &back);
    let late = [
        (0, Hear(Alive, 3, 10, Accepted)),
        (1, Hear(Confirm, 3, 9, Kept)),
        (1, Get(3, Some((Alive, 10, 0)))),
    ];
    run(&rt, Rules::Two, &late);
    let unknown = [
        (0, Hear(Confirm, 3, 5, Unknown)),
        (0, Hear(Alive, 3, 4, Accepted)),
        (0, Get(3, Some((Alive, 4, 0)))),
    ];
    run(&rt, Rules::Two, &unknown);
    let known = [
        (0, Hear(Alive, 3, 4, Accepted)),
        (0, Hear(Confirm, 3, 5, Accepted)),
        (0, Get(3, Some((Confirm, 5, 0)))),
    ];
    run(&rt, Rules::Two, &known);
}

#[test]
fn counted_again(rt: HostRuntime) {
    let mut own = OwnTable::new(Rules::Two);
    let heard = [
        (Alive, 1, 1),
        (Confirm, 9, 0),
        (Confirm, 10, 0),
        (Alive, 11, 1),
        (Suspect, 11, 1),
    ];
    for (kind, number, count) in heard {
        same(&rt, own.hear(kind, 3, number, 0), Some(Accepted));
        same_at(&rt, &(kind, number), own.table.count(), count);
    }
}

#[test]
fn suspected_too_long(rt: HostRuntime) {
    let once = [
        (0, Hear(Suspect, 3, 3, Accepted)),
        (7, Expire(None)),
        (8, Expire(Some((3, 3)))),
        (8, Get(3, Some((Confirm, 3, 8)))),
        (47, Forget(None)),
        (48, Forget(Some(3))),
    ];
    run(&rt, Rules::One, &once);
    let again = [
        (0, Hear(Suspect, 3, 3, Accepted)),
        (7, Hear(Suspect, 3, 4, Accepted)),
        (14, Expire(None)),
        (15, Expire(Some((3, 4)))),
    ];
    run(&rt, Rules::One, &again);
    let two = [
        (0, Hear(Suspect, 5, 1, Accepted)),
        (0, Hear(Suspect, 4, 2, Accepted)),
        (9, Expire(Some((4, 2)))),
        (9, Expire(Some((5, 1)))),
        (9, Expire(None)),
    ];
    run(&rt, Rules::One, &two);
}

#[test]
fn a_full_table(rt: HostRuntime) {
    let mut full = OwnTable::new(Rules::One);
    for last in 256..512 {
        same(&rt, full.hear(Alive, last, 1, 0), Some(Accepted));
    }
    let calls = [
        (1, Hear(Alive, 2, 1, Full)),
        (1, Hear(Suspect, 600, 1, Full)),
        (1, Hear(Confirm, 600, 1, Unknown)),
        (1, Hear(Alive, 300, 9, Accepted)),
        (1, Get(300, Some((Alive, 9, 1)))),
        (1, Get(511, Some((Alive, 1, 0)))),
        (1, Get(2, None)),
    ];
    for (now, call) in calls {
        holds_at(&rt, &call, answers(&mut full, now, call));
    }
    same(&rt, full.table.rows().len(), ROWS_MAX);
}

#[test]
fn readers(rt: HostRuntime) {
    let mut three = OwnTable::new(Rules::One);
    for (kind, last) in [(Alive, 5), (Suspect, 3), (Alive, 4), (Confirm, 4)] {
        same(&rt, three.hear(kind, last, 1, 0), Some(Accepted));
    }
    let table = &three.table;
    same(&rt, table.count(), 2);
    for kind in [Alive, Suspect, Confirm] {
        same_at(&rt, &kind, table.count_of(kind), 1);
    }
    for (number, wanted) in [(0, Some(3)), (1, Some(5)), (2, None)] {
        same(
            &rt,
            table.eligible(number).map(|row| last_of(row.update.who)),
            wanted,
        );
    }
    let after = [
        (Cursor::zero(), Some(3)),
        (Cursor::at(member(3)), Some(4)),
        (Cursor::at(member(5)), None),
    ];
    for (cursor, wanted) in after {
        same(
            &rt,
            table.row_after(cursor).map(|row| last_of(row.update.who)),
            wanted,
        );
    }
}

#[test]
fn which_overrides_which(rt: HostRuntime) {
    // The new kind and number, the old ones, and whether the new update overrides the old one by
    // rules 1 and by rules 2.
    let pairs = [
        ((Alive, 4), (Alive, 3), true, true),
        ((Alive, 3), (Alive, 3), false, false),
        ((Alive, 4), (Suspect, 3), true, true),
        ((Alive, 3), (Suspect, 3), false, false),
        ((Suspect, 4), (Suspect, 3), true, true),
        ((Suspect, 3), (Suspect, 3), false, false),
        ((Suspect, 3), (Alive, 3), true, true),
        ((Suspect, 2), (Alive, 3), false, false),
        ((Confirm, 3), (Alive, 3), true, true),
        ((Confirm, 2), (Alive, 3), true, false),
        ((Confirm, 3), (Suspect, 3), true, true),
        ((Confirm, 2), (Suspect, 3), true, false),
        ((Confirm, 4), (Confirm, 3), false, true),
        ((Confirm, 3), (Confirm, 3), false, false),
        ((Alive, 4), (Confirm, 3), false, true),
        ((Alive, 3), (Confirm, 3), false, false),
        ((Suspect, 4), (Confirm, 3), false, true),
        ((Suspect, 3), (Confirm, 3), false, false),
    ];
    for ((kind, number), (old_kind, old_number), by_one, by_two) in pairs {
        let who = member(3);
        let new = Update { kind, who, number };
        let old = Update {
            kind: old_kind,
            who,
            number: old_number,
        };
        for (rules, wanted) in [(Rules::One, by_one), (Rules::Two, by_two)] {
            same_at(
                &rt,
                &(new, old, rules),
                overrides(&new, &old, rules),
                wanted,
            );
        }
    }
}

#[test]
fn laws_are_called() {
    order_is_of_no_matter();
    rows_are_tops();
}
