//! A datagram as plain data.

ghost use Rattle.std.specs.Prelude.{◌≡◌, ◌≢◌, ◌↔◌, [], IsTrue, Some, None, IfSome, IfNone};
ghost use Rattle.swim_wire.specs.Codes.{kind_code, MayHaveZero};
ghost use Rattle.swim_wire.specs.declared.datagram.Kind.{Kind as Kinds};

use crate::cursor::Cursor;
use crate::endpoint::Endpoint;
use crate::head::HEAD_LEN;
use crate::rules::Rules;
use crate::update::{NUMBER_MAX, UPDATE_LEN, Update};
use arrayvec::ArrayVec;

/// The most updates that a datagram holds.
pub const UPDATES_MAX: usize = 30;

/// The greatest length of a datagram, in bytes.
pub const DATAGRAM_MAX: usize = HEAD_LEN + UPDATES_MAX * UPDATE_LEN;

/// The codes of the two kinds whose subject is a cursor.
pub(crate) const JOIN: u8 = 4;

pub(crate) const PAGE: u8 = 5;

/// What a datagram asks or tells (SWIM, sections 3.1 and 4.1; join and page are this format's own).
#[derive(Clone, Copy, Debug, PartialEq, Eq)]
pub enum Kind {
    /// Asks the subject whether it is there.
    Ping,
    /// Asks the receiver to ping the subject.
    PingReq,
    /// Vouches for the subject.
    Ack,
    /// Asks for the updates about the members after the subject, a cursor.
    Join,
    /// Answers a join with the same cursor.
    Page,
}

impl Kind {
    /// The kind with this code, or none: 1 ping, 2 ping-req, 3 ack, 4 join, 5 page.
    pub fn from_code(code: u8) -> Option<Kind>
        ensures some { IfSome result (λ kind. code ≡ kind_code kind) }
        ensures none { IfNone result ((kind : Kinds) → code ≢ kind_code kind) }
    {
        match code {
            1 => Some(Kind::Ping),
            2 => Some(Kind::PingReq),
            3 => Some(Kind::Ack),
            JOIN => Some(Kind::Join),
            PAGE => Some(Kind::Page),
            _ => None,
        }
    }

    /// The byte that spells the kind.
    pub fn code(self) -> u8
        ensures { result ≡ kind_code self }
    {
        match self {
            Kind::Ping => 1,
            Kind::PingReq => 2,
            Kind::Ack => 3,
            Kind::Join => JOIN,
            Kind::Page => PAGE,
        }
    }

    /// Whether the subject may be the zero cursor, as in a join or a page.
    pub fn may_have_zero(self) -> bool
        ensures { IsTrue result ↔ MayHaveZero self }
    {
        matches!(self, Kind::Join | Kind::Page)
    }
}

/// A datagram: a head and up to 30 updates.
#[derive(Debug, Drop)]
pub struct Datagram {
    /// The rules by which the sender lives.
    pub version: Rules,
    /// What the datagram asks or tells.
    pub kind: Kind,
    /// The number of the group that the sender belongs to.
    pub group: u64,
    /// The sequence number, which an answer repeats.
    pub seq: u32,
    /// The member that sends the datagram.
    pub sender: Endpoint,
    /// The pinged member in a ping, the target in a ping-req, the member vouched for in an ack, the
    /// cursor in a join, the answered cursor in a page.
    pub subject: Cursor,
    /// In the order of their bytes. Several may be about one member.
    pub updates: ArrayVec<Update, UPDATES_MAX>,
}

impl Datagram {
    ghost use Rattle.swim_wire.specs.Spelling.{HasText};

    /// Whether the datagram has a text: only a join or a page may have the zero cursor for its
    /// subject, and no number of an update is over `NUMBER_MAX`.
    pub fn is_encodable(&self) -> bool
        ensures { IsTrue result ↔ HasText self.now }
    {
        if self.subject.number() == 0 && !self.kind.may_have_zero() {
            return false;
        }
        self.updates
            .as_slice()
            .iter()
            .all(|update| update.number <= NUMBER_MAX)
    }
}

/// A ping with nothing in it: what stands in a place before a datagram is read there.
impl Default for Datagram {
    fn default() -> Datagram
        ensures { result ≡ record {
          version = Rules.One;
          kind = Kind.Ping;
          group = 0;
          seq = 0;
          sender = 1;
          subject = 0;
          updates = record { items = [] };
        } }
    {
        Datagram {
            version: Rules::One,
            kind: Kind::Ping,
            group: 0,
            seq: 0,
            sender: Endpoint::default(),
            subject: Cursor::zero(),
            updates: ArrayVec::new(),
        }
    }
}
