//! What one member says of another, or of itself.
//!
//! An update has 16 bytes. Its format stands in this file alone.
//!
//! | Offset | Size | Field |
//! |---|---|---|
//! | 0 | 1 | kind: 1 alive, 2 suspect, 3 confirm |
//! | 1 | 1 | 0 |
//! | 2 | 6 | member: address 4, port 2 |
//! | 8 | 8 | number |

ghost use Rattle.std.specs.Prelude.{◌≡◌, ◌≢◌, ◌≤◌, ◌↔◌, ℕ, List, length, Some, None, IsTrue, IfSome, IfNone};
ghost use Rattle.swim_wire.specs.Filler.{filler};
ghost use Rattle.swim_wire.specs.Numbers.{number_at};
ghost use Rattle.swim_wire.specs.Text.{kind_word};
ghost use Rattle.swim_wire.specs.Updates.{update_code, HasReservedUpdate, HasNoMember, HasUnknownCode, HasGreatNumber};
ghost use Rattle.swim_wire.specs.declared.update.UpdateKind.{UpdateKind as UpdateKinds};

use crate::endpoint::{Endpoint, PORT_AT};
use byteorder::{BigEndian, ByteOrder};

/// The most members that one member knows, itself among them.
pub const MEMBERS_MAX: usize = 257;

/// The greatest incarnation number, 2^62.
pub const NUMBER_MAX: u64 = 1 << 62;

/// By how much a suspected incarnation number may pass the own one and still be refuted, 2^20.
pub const LEAP: u64 = 1 << 20;

/// The length of an update, in bytes.
pub(crate) const UPDATE_LEN: usize = 16;

/// Offsets in an update, in bytes.
const KIND_AT: usize = 0;

const RESERVED_AT: usize = 1;

const WHO_AT: usize = 2;

const NUMBER_AT: usize = 8;

/// What an update says of a member (SWIM, section 4.2).
#[derive(Clone, Copy, Debug, PartialEq, Eq)]
pub enum UpdateKind {
    /// The member is there.
    Alive,
    /// The member did not answer, and may have failed.
    Suspect,
    /// The member has failed, or has left.
    Confirm,
}

impl UpdateKind {
    /// The kind with this code, or none: 1 alive, 2 suspect, 3 confirm.
    pub fn from_code(code: u8) -> Option<UpdateKind>
        ensures some { IfSome result (λ kind. code ≡ update_code kind) }
        ensures none { IfNone result ((kind : UpdateKinds) → code ≢ update_code kind) }
    {
        match code {
            1 => Some(UpdateKind::Alive),
            2 => Some(UpdateKind::Suspect),
            3 => Some(UpdateKind::Confirm),
            _ => None,
        }
    }

    /// The word for it, as transcripts and control answers write it: `alive`, `suspect` or `confirm`.
    pub fn name(self) -> &'static str
        ensures { result.now ≡ kind_word self }
    {
        match self {
            UpdateKind::Alive => "alive",
            UpdateKind::Suspect => "suspect",
            UpdateKind::Confirm => "confirm",
        }
    }

    /// The byte that spells the kind.
    pub fn code(self) -> u8
        ensures { result ≡ update_code self }
    {
        match self {
            UpdateKind::Alive => 1,
            UpdateKind::Suspect => 2,
            UpdateKind::Confirm => 3,
        }
    }
}

/// An update about the member `who`: alive, suspected or confirmed as failed at this incarnation
/// number (SWIM, section 4.2).
#[derive(Clone, Copy, Debug, PartialEq, Eq)]
pub struct Update {
    /// What the update says.
    pub kind: UpdateKind,
    /// The member that the update is about.
    pub who: Endpoint,
    /// The member's incarnation number that the update is about, at most `NUMBER_MAX` in a datagram.
    pub number: u64,
}

/// The six bytes of the member that the update with which the bytes begin is about, as a number.
pub(crate) fn who_in(bytes: &[u8]) -> u64
    requires { 16 ≤ length bytes.now }
    ensures { result ≡ number_at 2 6 bytes.now }
{
    // the low six bytes of the first word
    BigEndian::read_u64(bytes) % (1 << 48)
}

/// The incarnation number of the update with which the bytes begin.
pub(crate) fn number_in(bytes: &[u8]) -> u64
    requires { 16 ≤ length bytes.now }
    ensures { result ≡ number_at 8 8 bytes.now }
{
    BigEndian::read_u64(&bytes[NUMBER_AT..])
}

impl Update {
    ghost use Rattle.swim_wire.specs.Numbers.{IsEndpoint};
    ghost use Rattle.swim_wire.specs.Updates.{update_text, update_of};

    /// The update with which the bytes begin.
    pub(crate) fn from_bytes(bytes: &[u8]) -> Update
        requires whole { 16 ≤ length bytes.now }
        requires member { ¬ HasNoMember bytes.now }
        requires kind { ¬ HasUnknownCode bytes.now }
        ensures { result ≡ update_of bytes.now }
    {
        let Some(kind) = UpdateKind::from_code(bytes[KIND_AT]) else {
            unreachable!()
        };
        Update {
            kind,
            who: Endpoint::from_number(who_in(bytes)),
            number: number_in(bytes),
        }
    }

    /// The 16 bytes of the update.
    pub(crate) fn to_bytes(&self) -> [u8; UPDATE_LEN]
        ensures text { result ≡ update_text self.now }
        ensures who { IsEndpoint self.now.who }
    {
        // kind, zero and member make one word, which is written at once
        let first = self.kind.code() as u64 * (1 << 56) + self.who.number();
        let mut bytes = [0; UPDATE_LEN];
        BigEndian::write_u64(&mut bytes[KIND_AT..], first);
        BigEndian::write_u64(&mut bytes[NUMBER_AT..], self.number);
        bytes
    }
}

/// Alive with number 0 about the least endpoint: what fills the unused places of a list.
impl Default for Update {
    fn default() -> Update
        ensures { result ≡ filler }
    {
        Update {
            kind: UpdateKind::Alive,
            who: Endpoint::default(),
            number: 0,
        }
    }
}

/// What may be wrong with an update.
pub(crate) trait UpdateFault {
    ghost Faulty: { List ℕ → Type 0 };

    /// Whether the update with which the bytes begin has it.
    fn is_in(bytes: &[u8]) -> bool
        requires { 16 ≤ length bytes.now }
        ensures { IsTrue result ↔ Faulty bytes.now };
}

/// The byte that has to be 0 is not.
pub(crate) struct ReservedByte;

impl UpdateFault for ReservedByte {
    ghost Faulty = { HasReservedUpdate };

    fn is_in(bytes: &[u8]) -> bool {
        bytes[RESERVED_AT] != 0
    }
}

/// It is about no member: its port is 0.
pub(crate) struct NoMember;

impl UpdateFault for NoMember {
    ghost Faulty = { HasNoMember };

    fn is_in(bytes: &[u8]) -> bool {
        BigEndian::read_u16(&bytes[WHO_AT + PORT_AT..]) == 0
    }
}

/// It has the code of no kind.
pub(crate) struct UnknownCode;

impl UpdateFault for UnknownCode {
    ghost Faulty = { HasUnknownCode };

    fn is_in(bytes: &[u8]) -> bool {
        UpdateKind::from_code(bytes[KIND_AT]).is_none()
    }
}

/// It has a number over `NUMBER_MAX`.
pub(crate) struct GreatNumber;

impl UpdateFault for GreatNumber {
    ghost Faulty = { HasGreatNumber };

    fn is_in(bytes: &[u8]) -> bool {
        number_in(bytes) > NUMBER_MAX
    }
}

/// Whether the update with which the bytes begin has none of the four faults.
pub(crate) fn is_well(bytes: &[u8]) -> bool
    requires { 16 ≤ length bytes.now }
    ensures reserved { IsTrue result → ¬ HasReservedUpdate bytes.now }
    ensures member { IsTrue result → ¬ HasNoMember bytes.now }
    ensures kind { IsTrue result → ¬ HasUnknownCode bytes.now }
    ensures number { IsTrue result → ¬ HasGreatNumber bytes.now }
{
    !(ReservedByte::is_in(bytes)
        || NoMember::is_in(bytes)
        || UnknownCode::is_in(bytes)
        || GreatNumber::is_in(bytes))
}
