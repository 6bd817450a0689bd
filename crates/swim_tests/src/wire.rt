//! The worked rows. The expected bytes and faults were written by hand.

use crate::same::{holds, same, same_at};
use arrayvec::ArrayVec;
use std::test::Fail;
use swim_scenes::{endpoint, text, update};
use swim_wire::{
    Cursor, Endpoint, Kind, Rules, Update, UpdateKind, WireFault, datagram_has_one_text, decode,
    encode, number_said, own_numbers_of_spelled, spelled_or_faulty, text_spells_one_datagram,
};

/// A ping of 10.0.0.2:7000 to 10.0.0.1:7000 in group 7, with sequence 1 and no update.
const PING: [u8; 32] = [
    0x53, 0x57, 0x49, 0x4d, 1, 1, 0, 0, 0, 0, 0, 0, 0, 0, 0, 7, 0, 0, 0, 1, 10, 0, 0, 2, 0x1b,
    0x58, 10, 0, 0, 1, 0x1b, 0x58,
];

/// The ack to it, which says that 10.0.0.1:7000 is alive with number 1.
const ACK: [u8; 48] = [
    0x53, 0x57, 0x49, 0x4d, 1, 3, 1, 0, 0, 0, 0, 0, 0, 0, 0, 7, 0, 0, 0, 1, 10, 0, 0, 1, 0x1b,
    0x58, 10, 0, 0, 1, 0x1b, 0x58, 1, 0, 10, 0, 0, 1, 0x1b, 0x58, 0, 0, 0, 0, 0, 0, 0, 1,
];

/// The number of the fault that `decode` answers, or 0.
fn answer(bytes: &[u8]) -> u8 {
    match decode(bytes) {
        Ok(_) => 0,
        Err(fault) => fault.number(),
    }
}

/// The first `len` bytes of `ACK`, each of the changes made, and zero bytes after its end.
fn changed(len: usize, changes: &[(usize, u8)]) -> ArrayVec<u8, 600> {
    let mut bytes = ArrayVec::new();
    for i in 0..len {
        let mut byte = if i < ACK.len() { ACK[i] } else { 0 };
        for (at, value) in changes {
            if *at == i {
                byte = *value;
            }
        }
        let _ = bytes.try_push(byte);
    }
    bytes
}

/// A ping with 30 updates in 512 bytes, and one byte more.
fn full() -> ArrayVec<u8, 600> {
    let mut bytes = changed(32, &[(5, 1), (6, 30)]);
    for last in 1..31u8 {
        let update = [3, 0, 10, 0, 1, last, 0x1b, 0x58, 0, 0, 0, 0, 0, 0, 1, last];
        for byte in update {
            let _ = bytes.try_push(byte);
        }
    }
    let _ = bytes.try_push(0);
    bytes
}

/// Whether what the bytes spell is written as these bytes.
fn is_written_again(bytes: &[u8]) -> bool {
    let Ok(datagram) = decode(bytes) else {
        return false;
    };
    if !datagram.is_encodable() {
        return false;
    }
    encode(&datagram).as_slice() == bytes
}

#[test]
fn refusals(rt: HostRuntime) {
    // The length, the changes to the ack, and the number of the fault.
    let ping: &[(usize, u8)] = &[(5, 1), (6, 0)];
    let rows: [(usize, &[(usize, u8)], u8); 29] = [
        (0, &[], 1),
        (31, &[], 1),
        (32, ping, 0),
        (48, &[], 0),
        (48, &[(6, 0)], 6),
        (49, &[], 6),
        (512, &[], 6),
        (513, &[], 2),
        (48, &[(3, 0x4e)], 3),
        // The version is judged before the kind: 0 and 3 are the code of no rules.
        (48, &[(4, 2)], 0),
        (48, &[(4, 0)], 4),
        (48, &[(4, 3), (5, 9)], 4),
        (48, &[(4, 2), (5, 9)], 5),
        (48, &[(5, 0)], 5),
        (48, &[(5, 6), (6, 2)], 5),
        (48, &[(6, 2), (7, 1)], 6),
        (48, &[(7, 1)], 7),
        (48, &[(33, 1)], 7),
        (48, &[(24, 0), (25, 0), (33, 1)], 7),
        (48, &[(24, 0), (25, 0)], 8),
        (48, &[(38, 0), (39, 0), (32, 4)], 8),
        // The zero cursor, as subject of an ack and of a join, and port 0 in a join.
        (48, &[(26, 0), (29, 0), (30, 0), (31, 0)], 8),
        (48, &[(5, 4), (26, 0), (29, 0), (30, 0), (31, 0)], 0),
        (48, &[(5, 5), (26, 0), (29, 0), (30, 0), (31, 0)], 0),
        (48, &[(5, 4), (30, 0), (31, 0)], 8),
        (48, &[(32, 0)], 9),
        (48, &[(32, 4), (40, 0x40)], 9),
        (48, &[(40, 0x40)], 10),
        (48, &[(40, 0x40), (47, 0)], 0),
    ];
    for (len, changes, wanted) in rows {
        let bytes = changed(len, changes);
        same_at(&rt, &(len, changes), answer(bytes.as_slice()), wanted);
    }
}

#[test]
fn a_full_datagram_cut(rt: HostRuntime) {
    let bytes = full();
    same(&rt, bytes.len(), 513);
    for len in 0..514usize {
        let wanted = if len < 32 {
            1
        } else if len < 512 {
            6
        } else if len < 513 {
            0
        } else {
            2
        };
        if len <= bytes.len() {
            same_at(&rt, &len, answer(&bytes.as_slice()[..len]), wanted);
            let is_good = is_written_again(&bytes.as_slice()[..len]);
            same_at(&rt, &len, is_good, len == 512);
        }
    }
}

#[test]
fn one_byte_ff(rt: HostRuntime) {
    for at in 0..32usize {
        let mut bytes = PING;
        bytes[at] = 0xff;
        let wanted = match at {
            0..=3 => 3,
            4 => 4,
            5 => 5,
            6 => 6,
            7 => 7,
            _ => 0,
        };
        same_at(&rt, &at, answer(&bytes), wanted);
    }
}

#[test]
fn a_ping(rt: HostRuntime) -> Result<(), Fail> {
    let ping = decode(&PING).ok().expect(&rt, "the ping is read");
    same(&rt, ping.version, Rules::One);
    same(&rt, ping.kind, Kind::Ping);
    same(&rt, ping.group, 7);
    same(&rt, ping.seq, 1);
    same(&rt, ping.sender.number(), 0x0a00_0002_1b58);
    same(&rt, ping.subject.number(), 0x0a00_0001_1b58);
    same(&rt, ping.updates.len(), 0);
    Ok(())
}

#[test]
fn a_ping_of_version_two(rt: HostRuntime) -> Result<(), Fail> {
    let mut bytes = PING;
    bytes[4] = 2;
    let ping = decode(&bytes).ok().expect(&rt, "the ping is read");
    same(&rt, ping.version, Rules::Two);
    same(&rt, ping.kind, Kind::Ping);
    holds(&rt, is_written_again(&bytes));
    Ok(())
}

#[test]
fn an_ack(rt: HostRuntime) -> Result<(), Fail> {
    let ack = decode(&ACK).ok().expect(&rt, "the ack is read");
    same(&rt, ack.kind, Kind::Ack);
    same(&rt, ack.updates.len(), 1);
    for update in ack.updates.as_slice() {
        same(&rt, update.kind, UpdateKind::Alive);
        same(&rt, update.who.number(), 0x0a00_0001_1b58);
        same(&rt, update.number, 1);
    }
    Ok(())
}

/// The greatest number is read that a datagram says of the member, in whichever kind, and no number of another one; of
/// bytes that are no datagram none.
#[test]
fn numbers_said(rt: HostRuntime) -> Result<(), Fail> {
    let mut updates: ArrayVec<Update, 5> = ArrayVec::new();
    let me = endpoint(1).expect(&rt, "an endpoint");
    for (kind, last, number, want) in [
        (UpdateKind::Alive, 2, 20, 0),
        (UpdateKind::Alive, 1, 4, 4),
        (UpdateKind::Confirm, 1, 9, 9),
        (UpdateKind::Suspect, 1, 8, 9),
        (UpdateKind::Suspect, 3, 30, 9),
    ] {
        let said = update(kind, last, number).expect(&rt, "an update");
        holds(&rt, updates.try_push(said).is_ok());
        let page = text(Kind::Page, 1, Cursor::zero(), updates.as_slice());
        let mut bytes = page.expect(&rt, "a text");
        same(&rt, number_said(bytes.as_slice(), me), want);
        bytes.truncate(9);
        same(&rt, number_said(bytes.as_slice(), me), 0);
    }
    Ok(())
}

#[test]
fn written_again(rt: HostRuntime) {
    holds(&rt, is_written_again(&PING));
    holds(&rt, is_written_again(&ACK));
}

#[test]
fn names(rt: HostRuntime) -> Result<(), Fail> {
    let us = Endpoint::new(0x0a00_0001, 7000).expect(&rt, "a port");
    same(&rt, us.to_string(rt.alloc())?.as_str(), "10.0.0.1:7000");
    same(&rt, us.address(), 0x0a00_0001);
    same(&rt, us.port(), 7000);
    same(&rt, us.number(), 0x0a00_0001_1b58);
    same(&rt, Endpoint::new(1, 0), None);
    holds(&rt, Endpoint::default() < us);
    holds(&rt, Cursor::zero() < Cursor::from(Endpoint::default()));
    same(&rt, Cursor::zero().endpoint(), None);
    same(&rt, Cursor::at(us).endpoint(), Some(us));
    same(
        &rt,
        WireFault::UpdateKind.to_string(rt.alloc())?.as_str(),
        "9 UpdateKind",
    );
    same(&rt, WireFault::UpdateKind.name(), "UpdateKind");
    same(&rt, Update::default().who, Endpoint::default());
    Ok(())
}

#[test]
fn laws_are_called() {
    spelled_or_faulty();
    text_spells_one_datagram();
    datagram_has_one_text();
    own_numbers_of_spelled();
}
