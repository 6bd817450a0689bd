//! How soon a member finds another that fell silent, at the worst. The expected ticks are those of docs/proof/DETECTION.md, counted by hand.

ghost use Rattle.std.specs.Prelude.{◌<◌};

use crate::same::{given, same, same_at};
use arrayvec::ArrayVec;
use std::alloc::Global;
use std::process::Abort;
use std::test::Fail;
use swim_detect::{
    DetectionBound, failed_are_found, fair_stays_fair, mean_first_suspicion, silent_are_found,
    suspicions_have_causes,
};
use swim_detect_group::{
    nodes_find_the_silent, nodes_have_causes, only_the_gone_are_suspected, stopped_are_found,
    suspected_were_accused,
};
use swim_member::{Answer, Deal, Event, Member, Out, Outs, Phase, Settings};
use swim_node::{Entry, Reply, Save, Status, Tag};
use swim_rules::Row;
use swim_simulate::{Deadline, Lapse, Shadow, cause_at_tick, looks_keep_the_law};
use swim_wire::{Cursor, Datagram, Endpoint, Kind, Update, UpdateKind, encode};

/// The endpoint 10.0.0.`last`:7000.
fn endpoint(last: u32) -> Endpoint
    requires { last < 200 }
{
    Endpoint::new(0x0a00_0000 + last, 7000).unwrap()
}

/// A member with periods of 4 ticks and suspicions of 8.
fn quick(rt: &impl Abort) -> Member {
    let settings = Settings {
        period: 4,
        direct: 2,
        suspect: 8,
        ..Settings::usual(7, endpoint(1))
    };
    given(rt, settings.check());
    Member::new(settings, 1)
}

/// A datagram of group 7 from the endpoint 10.0.0.`last`:7000.
fn datagram(kind: Kind, seq: u32, sender: Endpoint) -> Datagram {
    let mut datagram = Out::default().datagram;
    datagram.kind = kind;
    datagram.group = 7;
    datagram.seq = seq;
    datagram.sender = sender;
    datagram.subject = Cursor::at(sender);
    datagram
}

/// A datagram comes to the member.
fn hear(member: &mut Member, datagram: &Datagram) {
    if !datagram.is_encodable() {
        return;
    }
    let mut bytes = ArrayVec::new();
    let _ = bytes.try_extend_from_slice(&encode(datagram));
    let granted = member.number();
    let event = Event::Datagram {
        from: datagram.sender,
        bytes,
    };
    let _ = member.step(&event, granted);
}

/// The member hears that 10.0.0.`last`:7000 is alive.
fn hear_of(member: &mut Member, last: u32)
    requires { last < 200 }
{
    let who = endpoint(last);
    let mut ping = datagram(Kind::Ack, 0, who);
    let _ = ping.updates.try_push(Update {
        kind: UpdateKind::Alive,
        who,
        number: 0,
    });
    hear(member, &ping);
}

/// A tick of the member. Who is pinged answers, but for a silent one.
fn tick(member: &mut Member, first: u8, silent: Option<Endpoint>) {
    let granted = member.number();
    let event = Event::Tick {
        deal: Deal::from_first(first),
    };
    let said: Answer = member.step(&event, granted);
    for out in said.outs.as_slice() {
        if out.datagram.kind == Kind::Ping && silent != Some(out.to) {
            hear(member, &datagram(Kind::Ack, out.datagram.seq, out.to));
        }
    }
}

/// The first of its list has just answered, and falls silent. It is the last of the next list.
fn who_falls_silent(rt: &impl Abort, known: u32) -> Member
    requires { known < 100 }
{
    let mut member = quick(rt);
    for last in 2..known + 2 {
        hear_of(&mut member, last);
    }
    for _ in 0..4 {
        tick(&mut member, 0, None);
    }
    member
}

/// How many members it holds for failed so many ticks later.
fn confirmed_after(rt: &impl Abort, known: u32, ticks: u32) -> usize
    requires { known < 100 }
{
    let mut member = who_falls_silent(rt, known);
    for _ in 0..ticks {
        tick(&mut member, 1, Some(endpoint(2)));
    }
    member.counts().confirmed
}

#[test]
fn the_laws_of_detection_hold() {
    failed_are_found();
    silent_are_found();
    suspicions_have_causes();
    fair_stays_fair();
    suspected_were_accused();
    only_the_gone_are_suspected();
    stopped_are_found();
    nodes_find_the_silent();
    nodes_have_causes();
    looks_keep_the_law();
}

#[test]
fn who_falls_silent_is_found_in_time_and_no_sooner(rt: HostRuntime) {
    // how many others there are; what is left of the period, the periods and the suspicion, in ticks
    let rows = [(1, 4 + 4 + 8), (2, 4 + 3 * 4 + 8), (3, 4 + 5 * 4 + 8)];
    for (known, ticks) in rows {
        let bound = DetectionBound::of(4, 8, known as usize % 100);
        same_at(&rt, &known, bound.confirmed, u64::from(ticks));
        let before = confirmed_after(&rt, known % 100, ticks - 1);
        same_at(&rt, &(known, ticks - 1), before, 0);
        let then = confirmed_after(&rt, known % 100, ticks);
        same_at(&rt, &(known, ticks), then, 1);
    }
}

#[test]
fn the_mean_is_that_of_random_targets(rt: HostRuntime) {
    // 1000 / (1 - (1 - 1/m)^m), by bc; of nobody it is that of one
    let rows = [
        (0, 1000),
        (1, 1000),
        (2, 1333),
        (3, 1421),
        (9, 1530),
        (49, 1572),
        (256, 1580),
    ];
    for (others, mean) in rows {
        same_at(&rt, &others, mean_first_suspicion(1000, others), mean);
    }
}

/// The row that the member has of 10.0.0.2:7000.
fn row_of_the_silent(member: &Member) -> Row {
    let state = member.state();
    for index in 0..state.rows.len() {
        let row = state.rows[index];
        if row.who() == endpoint(2) {
            return row;
        }
    }
    Row::default()
}

/// What becomes of the silent one at the tick with this number from then on, from 1, where it is the only other.
fn made_at(rt: &impl Abort, tick_number: u32) -> Option<UpdateKind> {
    let mut member = who_falls_silent(rt, 1);
    for _ in 1..tick_number {
        tick(&mut member, 1, Some(endpoint(2)));
    }
    let state = member.state();
    cause_at_tick(&state, &row_of_the_silent(&member)).map(|made| made.kind)
}

#[test]
fn a_tick_makes_a_suspect_and_a_confirm_in_time(rt: HostRuntime) {
    // the probe ends with the second period, and the suspicion 8 ticks later
    let rows: [(u32, Option<UpdateKind>); 8] = [
        (1, None),
        (4, None),
        (7, None),
        (8, Some(UpdateKind::Suspect)),
        (9, None),
        (15, None),
        (16, Some(UpdateKind::Confirm)),
        (17, None),
    ];
    for (number, made) in rows {
        same_at(&rt, &number, made_at(&rt, number), made);
    }
}

#[test]
fn the_deadline_is_when_the_silent_is_found(rt: HostRuntime) {
    // how many others there are; what is left of the period, the periods and the suspicion, in ticks
    let rows: [(u32, u128); 3] = [(1, 4 + 4 + 8), (2, 4 + 3 * 4 + 8), (3, 4 + 5 * 4 + 8)];
    for (known, ticks) in rows {
        let member = who_falls_silent(&rt, known % 100);
        let state = member.state();
        let deadline = Deadline::of(&state, &row_of_the_silent(&member), known as usize % 100);
        let left = deadline.map(|deadline| deadline.due.saturating_sub(u128::from(state.time)));
        same_at(&rt, &known, left, Some(ticks));
    }
}

/// A call in which a member tells this of another, at this event.
fn entry_that_tells(event: Event, update: Update) -> Entry {
    let mut out = Out::default();
    let _ = out.datagram.updates.try_push(update);
    let mut outs = Outs::new();
    outs.push(&out);
    Entry {
        tag: Tag { caller: 0, turn: 0 },
        event,
        granted: 1,
        save: Save::Kept,
        outs,
        outcomes: ArrayVec::new(),
        reply: Reply {
            status: Status {
                phase: Phase::Running,
                number: 1,
                alive: 0,
                suspect: 0,
                confirmed: 0,
                length: 0,
            },
            notes: ArrayVec::new(),
            page: ArrayVec::new(),
            sent: 0,
            lost: 0,
        },
    }
}

/// Why 10.0.0.1:7000 may not tell this, where it was told the one before, if it may not.
fn lapse_of(alloc: Global, told: Update, tells: Update) -> Result<Option<Lapse>, Fail> {
    let settings = Settings::usual(7, endpoint(1));
    let mut ping = datagram(Kind::Ping, 1, endpoint(3));
    let _ = ping.updates.try_push(told);
    let mut bytes = ArrayVec::new();
    if ping.is_encodable() {
        let _ = bytes.try_extend_from_slice(&encode(&ping));
    }
    let event = Event::Datagram {
        from: endpoint(3),
        bytes,
    };
    let Some(mut shadow) = Shadow::new(alloc, &settings, 1, 3)? else {
        return Ok(None);
    };
    let found = shadow.follow(&entry_that_tells(event, tells))?;
    Ok(found.map(|(_, lapse)| lapse))
}

#[test]
fn who_tells_what_nobody_told_it_breaks_the_law(rt: HostRuntime) -> Result<(), Fail> {
    let about = |kind: UpdateKind, last: u32, number: u64| Update {
        kind,
        who: endpoint(last % 200),
        number,
    };
    let suspect = about(UpdateKind::Suspect, 2, 1);
    // what it is told, what it tells, and what that breaks
    for (told, tells, lapse) in [
        (suspect, suspect, None),
        (
            suspect,
            about(UpdateKind::Suspect, 2, 2),
            Some(Lapse::Uncaused),
        ),
        (
            suspect,
            about(UpdateKind::Confirm, 2, 1),
            Some(Lapse::Uncaused),
        ),
        (
            suspect,
            about(UpdateKind::Suspect, 3, 1),
            Some(Lapse::Uncaused),
        ),
        (suspect, about(UpdateKind::Alive, 3, 9), None),
        (suspect, about(UpdateKind::Confirm, 1, 1), None),
    ] {
        same(&rt, lapse_of(rt.alloc(), told, tells)?, lapse);
    }
    Ok(())
}
