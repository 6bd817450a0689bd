//! The head of a datagram: its 32 bytes before the updates. Its format stands in this file alone.
//!
//! | Offset | Size | Field |
//! |---|---|---|
//! | 0 | 4 | `SWIM` |
//! | 4 | 1 | version: 1 or 2, the rules of the sender |
//! | 5 | 1 | kind: 1 ping, 2 ping-req, 3 ack, 4 join, 5 page |
//! | 6 | 1 | count of updates, 0 to 30 |
//! | 7 | 1 | 0 |
//! | 8 | 8 | group |
//! | 16 | 4 | sequence |
//! | 20 | 6 | sender: address 4, port 2 |
//! | 26 | 6 | subject: the same form |

ghost use Rattle.std.specs.Prelude.{◌≡◌, ℕ, ◌<◌, ◌≤◌, ◌↔◌, length, slice_index, Some, IsTrue, IfSome, IfNone};
ghost use Rattle.swim_wire.specs.Spelling.{head_text, HeadFits};
ghost use Rattle.swim_wire.specs.Faults.{HasReservedHead, HasNoSender, HasNoSubject, HasNoneBelow, IsFirstFault, IsFaultless, IsCounted};

use crate::cursor::Cursor;
use crate::datagram::{DATAGRAM_MAX, Datagram, JOIN, Kind, PAGE};
use crate::endpoint::{Endpoint, PORT_AT};
use crate::fault::WireFault;
use crate::rules::Rules;
use crate::update::UPDATE_LEN;
use byteorder::{BigEndian, ByteOrder};

/// The length of the head, in bytes, which is where the updates begin.
pub(crate) const HEAD_LEN: usize = 32;

/// The bytes that begin each datagram.
const MAGIC: [u8; 4] = *b"SWIM";

/// Offsets in the head, in bytes.
const VERSION_AT: usize = 4;

const KIND_AT: usize = 5;

const COUNT_AT: usize = 6;

const RESERVED_AT: usize = 7;

const GROUP_AT: usize = 8;

const SEQ_AT: usize = 16;

const SENDER_AT: usize = 20;

const SUBJECT_AT: usize = 26;

/// The fields of a head, the count of the updates aside.
#[derive(Clone, Copy)]
pub(crate) struct Head {
    pub(crate) version: Rules,
    pub(crate) kind: Kind,
    pub(crate) group: u64,
    pub(crate) seq: u32,
    pub(crate) sender: Endpoint,
    pub(crate) subject: Cursor,
}

impl Head {
    ghost use Rattle.swim_wire.specs.Reading.{head_of};

    /// The head of bytes without a fault.
    pub(crate) fn from_bytes(bytes: &[u8]) -> Head
        requires whole { 32 ≤ length bytes.now }
        requires faultless { IsFaultless bytes.now }
        ensures { result ≡ head_of bytes.now }
    {
        let Some(version) = Rules::from_code(bytes[VERSION_AT]) else {
            unreachable!()
        };
        let Some(kind) = Kind::from_code(bytes[KIND_AT]) else {
            unreachable!()
        };
        Head {
            version,
            kind,
            group: BigEndian::read_u64(&bytes[GROUP_AT..]),
            seq: BigEndian::read_u32(&bytes[SEQ_AT..]),
            sender: Endpoint::from_bytes(&bytes[SENDER_AT..]),
            subject: Cursor::from_bytes(&bytes[SUBJECT_AT..]),
        }
    }
}

/// The head of the datagram in bytes.
pub(crate) fn head_bytes(datagram: &Datagram) -> [u8; HEAD_LEN]
    ensures text { result ≡ head_text datagram.now }
    ensures fits { HeadFits datagram.now }
{
    let (group, seq) = (datagram.group, datagram.seq);
    let mut bytes = [0; HEAD_LEN];
    bytes[..VERSION_AT].copy_from_slice(&MAGIC);
    bytes[VERSION_AT] = datagram.version.code();
    bytes[KIND_AT] = datagram.kind.code();
    bytes[COUNT_AT] = datagram.updates.len() as u8;
    BigEndian::write_u64(&mut bytes[GROUP_AT..], group);
    BigEndian::write_u32(&mut bytes[SEQ_AT..], seq);
    BigEndian::write_u48(&mut bytes[SENDER_AT..], datagram.sender.number());
    BigEndian::write_u48(&mut bytes[SUBJECT_AT..], datagram.subject.number());
    bytes
}

/// How many updates the head says there are.
pub(crate) fn count_of(bytes: &[u8]) -> usize
    requires { 32 ≤ length bytes.now }
    ensures { result ≡ slice_index bytes.now 6 }
{
    bytes[COUNT_AT] as usize
}

/// Whether the head says that no update follows it, as that of most pings does.
pub(crate) fn has_no_updates(bytes: &[u8]) -> bool
    ensures { IsTrue result ↔ ((6 < length bytes.now) × (slice_index bytes.now 6 ≡ 0)) }
{
    bytes.len() > COUNT_AT && bytes[COUNT_AT] == 0
}

/// The first fault of the head, of those that concern no update.
pub(crate) fn shape_fault(bytes: &[u8]) -> Option<WireFault>
    ensures some { IfSome result (λ fault. IsFirstFault fault bytes.now) }
    ensures none { IfNone result (HasNoneBelow 7 bytes.now) }
    ensures counted { IfNone result (IsCounted bytes.now) }
{
    if bytes.len() < HEAD_LEN {
        return Some(WireFault::TooShort);
    }
    if bytes.len() > DATAGRAM_MAX {
        return Some(WireFault::TooLong);
    }
    if !bytes.starts_with(&MAGIC) {
        return Some(WireFault::Magic);
    }
    if Rules::from_code(bytes[VERSION_AT]).is_none() {
        return Some(WireFault::Version);
    }
    if Kind::from_code(bytes[KIND_AT]).is_none() {
        return Some(WireFault::Kind);
    }
    if bytes.len() != HEAD_LEN + UPDATE_LEN * bytes[COUNT_AT] as usize {
        return Some(WireFault::Count);
    }
    None
}

/// Whether the byte of the head that has to be 0 is not.
pub(crate) fn has_reserved_head(bytes: &[u8]) -> bool
    requires { 32 ≤ length bytes.now }
    ensures { IsTrue result ↔ HasReservedHead bytes.now }
{
    bytes[RESERVED_AT] != 0
}

/// Whether the sender has port 0.
pub(crate) fn has_no_sender(bytes: &[u8]) -> bool
    requires { 32 ≤ length bytes.now }
    ensures { IsTrue result ↔ HasNoSender bytes.now }
{
    BigEndian::read_u16(&bytes[SENDER_AT + PORT_AT..]) == 0
}

/// Whether the subject has port 0 and is no zero cursor of a join or a page.
pub(crate) fn has_no_subject(bytes: &[u8]) -> bool
    requires { 32 ≤ length bytes.now }
    ensures { IsTrue result ↔ HasNoSubject bytes.now }
{
    if BigEndian::read_u16(&bytes[SUBJECT_AT + PORT_AT..]) != 0 {
        return false;
    }
    if BigEndian::read_u32(&bytes[SUBJECT_AT..]) != 0 {
        return true;
    }
    bytes[KIND_AT] != JOIN && bytes[KIND_AT] != PAGE
}
