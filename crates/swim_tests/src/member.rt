//! Events, each with what it sends. The expected bytes were written by hand.

ghost use Rattle.swim_member.specs.Checks.{AreSound};

use crate::same::{holds, holds_at, same};
use arrayvec::ArrayVec;
use std::test::Fail;
use swim_member::{Deal, Event, Member, Out, Phase, RECEIVED_MAX, Settings};
use swim_wire::{Cursor, Endpoint, Kind, encode};

/// 10.0.0.1:7000, the member itself.
const ME: u8 = 1;
/// 10.0.0.2:7000 and 10.0.0.3:7000.
const P: u8 = 2;

const Q: u8 = 3;

/// 10.0.0.4:7000, a newcomer.
const R: u8 = 4;

const ALIVE: u8 = 1;

const SUSPECT: u8 = 2;

const CONFIRM: u8 = 3;

/// An update: its kind, its member and its number.
type Said = (u8, u8, u8);

/// A datagram: its kind, sequence, sender and subject, and its updates.
type Text = (u8, u8, u8, u8, &'static [Said]);

/// The six bytes of 10.0.0.`last`:7000, or of the zero cursor.
fn endpoint_bytes(last: u8) -> [u8; 6] {
    if last == 0 {
        [0; 6]
    } else {
        [10, 0, 0, last, 0x1b, 0x58]
    }
}

/// The bytes of a datagram of group 7.
fn bytes_of(text: &Text) -> ArrayVec<u8, RECEIVED_MAX> {
    let (kind, seq, sender, subject, updates) = *text;
    let mut bytes = ArrayVec::new();
    let head = [
        b'S', b'W', b'I', b'M', 1, kind, 0, 0, 0, 0, 0, 0, 0, 0, 0, 7, 0, 0, 0, seq,
    ];
    for byte in head {
        let _ = bytes.try_push(byte);
    }
    for byte in endpoint_bytes(sender) {
        let _ = bytes.try_push(byte);
    }
    for byte in endpoint_bytes(subject) {
        let _ = bytes.try_push(byte);
    }
    for (kind, who, number) in updates {
        if 6 < bytes.len() {
            bytes[6] = bytes[6].wrapping_add(1);
        }
        for byte in [*kind, 0] {
            let _ = bytes.try_push(byte);
        }
        for byte in endpoint_bytes(*who) {
            let _ = bytes.try_push(byte);
        }
        for byte in [0, 0, 0, 0, 0, 0, 0, *number] {
            let _ = bytes.try_push(byte);
        }
    }
    bytes
}

fn endpoint(last: u8) -> Endpoint {
    Endpoint::new(0x0a00_0000 + u32::from(last), 7000).unwrap_or_default()
}

/// The settings of every member here.
fn settings() -> Settings
    ensures { AreSound result }
{
    Settings {
        lambda: 2,
        period: 4,
        direct: 2,
        suspect: 8,
        forget: 40,
        helpers: 2,
        ..Settings::usual(7, endpoint(ME))
    }
}

/// What is sent in a row: to whom, and the datagram.
type SentText = (u8, Text);

/// Whether this is what is wanted, byte by byte.
fn is_this(out: &Out, wanted: &SentText) -> bool {
    let (to, text) = wanted;
    if !out.datagram.is_encodable() {
        return false;
    }
    let bytes = encode(&out.datagram);
    out.to == endpoint(*to) && bytes.as_slice() == bytes_of(text).as_slice()
}

/// Takes an event with the ceiling that it wants, and says whether it sends just this, and no more
/// than one datagram.
fn sends(member: &mut Member, event: &Event, wanted: Option<&SentText>) -> bool {
    let granted = member.number().max(member.plan(event).unwrap_or(0));
    let answer = member.step(event, granted);
    match (answer.outs.as_slice(), wanted) {
        ([], None) => true,
        ([out], Some(wanted)) => is_this(out, wanted),
        _ => false,
    }
}

/// The event that a datagram came from a member.
fn received(from: u8, text: &Text) -> Event {
    Event::Datagram {
        from: endpoint(from),
        bytes: bytes_of(text),
    }
}

#[test]
fn pings(rt: HostRuntime) {
    // Each row is a new member: what comes from P, and what is sent. The first rows are three pings
    // of one kind, then what was heard goes on, then what is said of oneself.
    let ping: Text = (1, 1, P, ME, &[]);
    let own: Text = (3, 1, ME, ME, &[(ALIVE, ME, 1)]);
    let rows: [&[(Text, Option<Text>)]; 6] = [
        &[
            (ping, Some(own)),
            (ping, Some(own)),
            (ping, Some((3, 1, ME, ME, &[]))),
        ],
        &[(
            (1, 1, P, ME, &[(ALIVE, Q, 9), (CONFIRM, Q, 0)]),
            Some((3, 1, ME, ME, &[(ALIVE, ME, 1), (CONFIRM, Q, 0)])),
        )],
        &[(
            (1, 1, P, ME, &[(SUSPECT, ME, 1), (SUSPECT, ME, 5)]),
            Some((3, 1, ME, ME, &[(ALIVE, ME, 6)])),
        )],
        &[((1, 1, P, ME, &[(CONFIRM, ME, 0)]), None), (ping, None)],
        &[(
            (4, 3, P, 0, &[(ALIVE, P, 1)]),
            Some((5, 3, ME, 0, &[(ALIVE, ME, 1), (ALIVE, P, 1)])),
        )],
        &[((1, 1, P, Q, &[]), None), ((3, 1, P, P, &[]), None)],
    ];
    for row in rows {
        let mut member = Member::new(settings(), 1);
        for (text, wanted) in row {
            let sent = wanted.map(|text| (P, text));
            let is_sent = sends(&mut member, &received(P, text), sent.as_ref());
            holds_at(&rt, &text, is_sent);
        }
    }
}

/// The event that time goes on, with the deal that begins with this number.
fn tick(first: u8) -> Event {
    Event::Tick {
        deal: Deal::from_first(first),
    }
}

/// So many ticks, after which the last one sends what is wanted and the others nothing.
fn ticks(member: &mut Member, count: usize, wanted: &SentText) -> bool {
    let mut as_wanted = true;
    for number in 1..=count {
        let sent = if number == count { Some(wanted) } else { None };
        as_wanted = sends(member, &tick(0), sent) && as_wanted;
    }
    as_wanted
}

#[test]
fn a_probe(rt: HostRuntime) {
    let mut member = Member::new(settings(), 1);
    let ping: Text = (1, 1, P, ME, &[(ALIVE, P, 1), (ALIVE, Q, 1)]);
    let ack: Text = (
        3,
        1,
        ME,
        ME,
        &[(ALIVE, ME, 1), (ALIVE, P, 1), (ALIVE, Q, 1)],
    );
    holds(
        &rt,
        sends(&mut member, &received(P, &ping), Some(&(P, ack))),
    );
    // The probe of P, the ping-req about it, and the next probe, after which P is suspected.
    let rows: [(usize, SentText); 3] = [
        (
            4,
            (
                P,
                (1, 1, ME, P, &[(ALIVE, ME, 1), (ALIVE, P, 1), (ALIVE, Q, 1)]),
            ),
        ),
        (
            2,
            (
                Q,
                (2, 1, ME, P, &[(ALIVE, ME, 1), (ALIVE, P, 1), (ALIVE, Q, 1)]),
            ),
        ),
        (
            2,
            (
                Q,
                (
                    1,
                    2,
                    ME,
                    Q,
                    &[(SUSPECT, P, 1), (ALIVE, ME, 1), (ALIVE, Q, 1)],
                ),
            ),
        ),
    ];
    for (count, wanted) in rows {
        holds_at(&rt, &wanted, ticks(&mut member, count, &wanted));
    }
    same(&rt, member.counts().alive, 1);
    same(&rt, member.counts().suspect, 1);
    for _ in 0..8 {
        let granted = member.number();
        member.step(&tick(0), granted);
    }
    same(&rt, member.counts().suspect, 1);
    same(&rt, member.counts().confirmed, 1);
}

/// Whom the member pings at an event, if anybody.
fn pinged(member: &mut Member, event: &Event) -> Option<Endpoint> {
    let granted = member.number();
    let answer = member.step(event, granted);
    for out in answer.outs.as_slice() {
        if out.datagram.kind == Kind::Ping {
            return Some(out.to);
        }
    }
    None
}

#[test]
fn turns(rt: HostRuntime) {
    // With which number the deal of the tick at time 12 begins, and whom the probes at times 4, 8, 12,
    // 16 and 20 go to. R is heard of after time 4, and enters at the next list, which is made at time
    // 12. Where R is the first of it, P is Confirm when its turn would come, and is passed over.
    let rows: [(u8, [u8; 5]); 2] = [(0, [P, Q, P, Q, R]), (2, [P, Q, R, Q, R])];
    for (first, wanted) in rows {
        let mut member = Member::new(settings(), 1);
        let both = received(P, &(1, 1, P, ME, &[(ALIVE, P, 1), (ALIVE, Q, 1)]));
        let newcomer = received(P, &(1, 1, P, ME, &[(ALIVE, R, 1)]));
        holds(&rt, pinged(&mut member, &both).is_none());
        for (turn, target) in wanted.iter().enumerate() {
            for _ in 0..3 {
                holds(&rt, pinged(&mut member, &tick(0)).is_none());
            }
            let deal = if turn == 2 { first } else { 0 };
            holds_at(
                &rt,
                &(first, turn),
                pinged(&mut member, &tick(deal)) == Some(endpoint(*target)),
            );
            if turn == 0 {
                holds(&rt, pinged(&mut member, &newcomer).is_none());
            }
        }
    }
}

#[test]
fn deals(rt: HostRuntime) {
    let mut numbers = [0; 256];
    for place in 0..=255 {
        numbers[place as usize] = 255 - place;
    }
    holds(&rt, Deal::new(numbers).is_some());
    // 0 twice, and no 255
    numbers[0] = 0;
    holds(&rt, Deal::new(numbers).is_none());
    let deal = Deal::from_first(254);
    same(&rt, &deal.numbers()[..4], [254, 255, 0, 1].as_slice());
}

#[test]
fn asked_and_asking(rt: HostRuntime) {
    // A relay, and its ack only once.
    let mut member = Member::new(settings(), 1);
    let rows: [(u8, Text, Option<SentText>); 3] = [
        (
            P,
            (2, 9, P, Q, &[(ALIVE, Q, 1)]),
            Some((Q, (1, 1, ME, Q, &[(ALIVE, ME, 1), (ALIVE, Q, 1)]))),
        ),
        (
            Q,
            (3, 1, Q, Q, &[]),
            Some((P, (3, 9, ME, Q, &[(ALIVE, ME, 1), (ALIVE, Q, 1)]))),
        ),
        (Q, (3, 1, Q, Q, &[]), None),
    ];
    for (from, text, wanted) in rows {
        holds_at(
            &rt,
            &text,
            sends(&mut member, &received(from, &text), wanted.as_ref()),
        );
    }
    // A join, its page, and a leave.
    let mut member = Member::new(settings(), 1);
    let rows: [(Event, Option<SentText>); 3] = [
        (
            Event::Join { peer: endpoint(P) },
            Some((P, (4, 1, ME, 0, &[(ALIVE, ME, 1)]))),
        ),
        (received(P, &(5, 1, P, 0, &[(ALIVE, P, 5)])), None),
        (
            Event::Leave,
            Some((P, (1, 2, ME, P, &[(ALIVE, P, 5), (CONFIRM, ME, 1)]))),
        ),
    ];
    for (event, wanted) in rows {
        holds(&rt, sends(&mut member, &event, wanted.as_ref()));
    }
    same(&rt, member.phase(), Phase::Left);
}

#[test]
fn refused_and_shown(rt: HostRuntime) {
    let mut member = Member::new(settings(), 1);
    let text: Text = (1, 1, P, ME, &[(SUSPECT, ME, 1)]);
    let rows = [
        (
            Event::Datagram {
                from: endpoint(P),
                bytes: ArrayVec::new(),
            },
            1,
        ),
        (received(Q, &text), 1),
        (received(P, &text), 2),
        (Event::ReceiveFailed, 1),
    ];
    for (event, wanted) in rows {
        same(&rt, member.plan(&event).unwrap_or(1), wanted);
        let granted = member.number();
        let answer = member.step(&event, granted);
        same(&rt, answer.notes.len(), 1);
        same(&rt, member.number(), 1);
    }
    let granted = member.number();
    let answer = member.step(
        &Event::Members {
            after: Cursor::zero(),
        },
        granted,
    );
    same(&rt, answer.page.len(), 1);
    holds(&rt, member.eligible(0).is_none());
    same(&rt, member.settings(), settings());
}

/// Changes of settings: each of the setting whose fault has this number, to this value.
type SettingChanges = &'static [(u8, u32)];

/// The settings with these changes.
fn settings_with(changes: SettingChanges) -> Settings {
    let mut settings = settings();
    for (number, value) in changes {
        match number {
            1 => settings.lambda = *value,
            2 => settings.period = u64::from(*value),
            3 => settings.direct = u64::from(*value),
            4 => settings.suspect = u64::from(*value),
            5 => settings.forget = u64::from(*value),
            6 => settings.helpers = *value as usize,
            7 => settings.block = u64::from(*value),
            _ => settings.rules = *value,
        }
    }
    settings
}

#[test]
fn checked(rt: HostRuntime) -> Result<(), Fail> {
    let rows: [(SettingChanges, &str); 13] = [
        (&[], ""),
        (&[(1, 17), (2, 1)], "1 Lambda"),
        (&[(2, 1001)], "2 Period"),
        (&[(3, 4)], "3 Direct"),
        (&[(4, 0)], "4 Suspect"),
        (&[(5, 1_000_001)], "5 Forget"),
        (&[(6, 9), (7, 0)], "6 Helpers"),
        (&[(7, 0)], "7 Block"),
        (&[(7, 1024)], ""),
        (&[(7, 1025), (8, 0)], "7 Block"),
        (&[(8, 0)], "8 Rules"),
        (&[(8, 2)], ""),
        (&[(8, 3)], "8 Rules"),
    ];
    for (changes, wanted) in rows {
        let found = match settings_with(changes).check() {
            Ok(()) => String::new(rt.alloc()),
            Err(fault) => fault.to_string(rt.alloc())?,
        };
        same(&rt, found.as_str(), wanted);
    }
    Ok(())
}
