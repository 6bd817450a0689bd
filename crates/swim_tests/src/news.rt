//! Changes between lists of rows, and their texts, which are those of docs/operate/OPERATIONS.md.

use crate::same::{holds, prints, same};
use swim_news::{Change, ChangeJson, Changes, RowJson, Rows, compare};
use swim_wire::{Endpoint, Update, UpdateKind};

/// The row of 10.0.0.1:7000 and this number more.
fn row(place: u32, kind: UpdateKind, number: u64) -> Update {
    let who = Endpoint::new(0x0a00_0001 + place % 200, 7000).unwrap_or_default();
    Update { kind, who, number }
}

/// Rows of these, in their order.
fn rows_of(given: &[Update]) -> Rows {
    let mut rows = Rows::new();
    for row in given {
        rows.add(*row);
    }
    rows
}

#[test]
fn gone_new_and_changed(rt: HostRuntime) {
    let old = rows_of(&[
        row(0, UpdateKind::Alive, 1),
        row(1, UpdateKind::Suspect, 2),
        row(3, UpdateKind::Confirm, 4),
        row(5, UpdateKind::Alive, 1),
    ]);
    let new = rows_of(&[
        row(0, UpdateKind::Alive, 1),
        row(1, UpdateKind::Alive, 3),
        row(2, UpdateKind::Alive, 1),
        row(5, UpdateKind::Alive, 2),
        row(6, UpdateKind::Suspect, 9),
    ]);
    let mut changes = Changes::new();
    compare(&old, &new, &mut changes);
    let want = [
        "member 10.0.0.2:7000 alive 3, was suspect 2",
        "member 10.0.0.3:7000 alive 1, was unknown",
        "member 10.0.0.4:7000 unknown, was failed 4",
        "member 10.0.0.6:7000 alive 2, was alive 1",
        "member 10.0.0.7:7000 suspect 9, was unknown",
    ];
    same(&rt, changes.len(), want.len());
    for (change, want) in changes.as_slice().iter().zip(want) {
        prints(&rt, change, want);
    }
}

#[test]
fn nothing_changed(rt: HostRuntime) {
    let rows = rows_of(&[row(0, UpdateKind::Alive, 1), row(4, UpdateKind::Suspect, 2)]);
    let mut changes = Changes::new();
    compare(&Rows::new(), &rows, &mut changes);
    same(&rt, changes.len(), 2);
    compare(&rows, &rows, &mut changes);
    same(&rt, changes.len(), 0);
    compare(&rows, &Rows::new(), &mut changes);
    same(&rt, changes.len(), 2);
}

#[test]
fn rows_that_are_refused(rt: HostRuntime) {
    let mut rows = rows_of(&[row(4, UpdateKind::Alive, 1)]);
    for place in [3, 4] {
        holds(&rt, !rows.add(row(place, UpdateKind::Alive, 1)));
    }
    same(&rt, rows.as_slice().len(), 1);
    same(&rt, rows.last(), Endpoint::new(0x0a00_0005, 7000));
}

#[test]
fn as_json(rt: HostRuntime) {
    for (change, want) in [
        (
            Change::Changed {
                was: row(1, UpdateKind::Suspect, 2),
                now: row(1, UpdateKind::Alive, 3),
            },
            r#"{"member":"10.0.0.2:7000","now":{"kind":"alive","number":3},"was":{"kind":"suspect","number":2}}"#,
        ),
        (
            Change::New(row(1, UpdateKind::Alive, 3)),
            r#"{"member":"10.0.0.2:7000","now":{"kind":"alive","number":3},"was":null}"#,
        ),
        (
            Change::Gone(row(1, UpdateKind::Suspect, 2)),
            r#"{"member":"10.0.0.2:7000","now":null,"was":{"kind":"suspect","number":2}}"#,
        ),
    ] {
        prints(&rt, &ChangeJson(change), want);
    }
    let json = RowJson(row(1, UpdateKind::Alive, 3));
    let want = r#"{"member":"10.0.0.2:7000","kind":"alive","number":3}"#;
    prints(&rt, &json, want);
}
