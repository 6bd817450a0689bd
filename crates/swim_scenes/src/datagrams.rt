//! Endpoints, updates and datagrams.

use arrayvec::ArrayVec;
use swim_member::{Event, RECEIVED_MAX};
use swim_wire::{Cursor, Datagram, Endpoint, Kind, Rules, Update, UpdateKind, encode};

/// The group of the two members.
pub(crate) const GROUP: u64 = 7;

/// The endpoint 10.0.0.LAST:7000.
pub fn endpoint(last: u8) -> Option<Endpoint> {
    Endpoint::new(0x0a00_0000 + u32::from(last), 7000)
}

/// What is said of 10.0.0.LAST:7000.
pub fn update(kind: UpdateKind, last: u8, number: u64) -> Option<Update> {
    Some(Update {
        kind,
        who: endpoint(last)?,
        number,
    })
}

/// The text of a datagram from 10.0.0.2:7000.
pub fn text(
    kind: Kind,
    seq: u32,
    subject: Cursor,
    updates: &[Update],
) -> Option<ArrayVec<u8, RECEIVED_MAX>> {
    let mut carried = ArrayVec::new();
    carried.try_extend_from_slice(updates).ok()?;
    let datagram = Datagram {
        version: Rules::One,
        kind,
        group: GROUP,
        seq,
        sender: endpoint(2)?,
        subject,
        updates: carried,
    };
    if !datagram.is_encodable() {
        return None;
    }
    let mut bytes = ArrayVec::new();
    bytes.try_extend_from_slice(&encode(&datagram)).ok()?;
    Some(bytes)
}

/// A ping of 10.0.0.2:7000 with these updates, which 10.0.0.1:7000 acks.
pub fn ping(seq: u32, updates: &[Update]) -> Option<Event> {
    let subject = Cursor::at(endpoint(1)?);
    Some(Event::Datagram {
        from: endpoint(2)?,
        bytes: text(Kind::Ping, seq, subject, updates)?,
    })
}

/// A ping that suspects 10.0.0.1:7000 with this number, which it refutes by the next one if the number is its own.
pub fn suspicion(number: u64) -> Option<Event> {
    ping(1, &[update(UpdateKind::Suspect, 1, number)?])
}
