//! The member that takes the turns, and what it is given, as `bench/src/scene.rs` has them.

ghost use Rattle.std.specs.Prelude.{◌≡◌, ◌≤◌, ◌<◌, length, IfSome};
ghost use Rattle.swim_member.specs.Checks.{AreSound};

use arrayvec::ArrayVec;
use byteorder::{BigEndian, ByteOrder};
use swim_member::{Deal, Event, Member, Settings};
use swim_wire::{DATAGRAM_MAX, Endpoint};

/// The group of all members.
pub(crate) const GROUP: u64 = 7;

/// The address of the member, 10.0.0.1.
pub(crate) const ME: u32 = 0x0a00_0001;

/// The address of the first of the 256 others, 10.0.1.0, who sends all pings.
const OTHERS: u32 = 0x0a00_0100;

const ROWS: u32 = 256;

const PORT: u16 = 7000;

pub(crate) fn endpoint(address: u32) -> Endpoint {
    let Some(endpoint) = Endpoint::new(address, PORT) else {
        unreachable!()
    };
    endpoint
}

/// The member of this number, from 0, among the others.
pub(crate) fn other(number: u32) -> Endpoint {
    endpoint(OTHERS + number % ROWS)
}

/// The member of this number, from 0 to 256, about whom an update waits.
pub(crate) fn waiting_member(number: u32) -> Endpoint {
    endpoint(OTHERS + number % (ROWS + 1))
}

/// That a text came from the first other.
pub(crate) fn received(text: &[u8]) -> Event {
    let mut bytes = ArrayVec::new();
    let _ = bytes.try_extend_from_slice(text);
    Event::Datagram {
        from: other(0),
        bytes,
    }
}

/// The settings of a member that probes once in so many ticks. None where no member has such a period.
pub(crate) fn settings_of(period: u64) -> Option<Settings>
    ensures { IfSome result (λ s. AreSound s) }
{
    let settings = Settings {
        period,
        direct: period.saturating_sub(1),
        suspect: 100_000,
        forget: 1_000_000,
        ..Settings::usual(GROUP, endpoint(ME))
    };
    settings.check().ok()?;
    Some(settings)
}

/// A member that probes once in so many ticks, after it has received the texts, each of 512 bytes. None
/// where no member has such a period.
pub(crate) fn member_after(texts: &[u8], period: u64) -> Option<Member> {
    let mut member = Member::new(settings_of(period)?, 1);
    for text in texts.chunks_exact(DATAGRAM_MAX) {
        let granted = member.number();
        let _ = member.step(&received(text), granted);
    }
    Some(member)
}

/// Makes the updates of a full ping newer than all earlier ones, about others than in the turn before.
pub(crate) fn make_newer(text: &mut [u8], turn: u32)
    requires { DATAGRAM_MAX ≤ length text.old }
    ensures { length text.new ≡ length text.old }
{
    for i in 0..30u32 {
        let at = 32 + 16 * i as usize;
        let address = OTHERS + turn.wrapping_mul(15).wrapping_add(i) % ROWS;
        BigEndian::write_u32(&mut text[at + 2..], address);
        BigEndian::write_u64(&mut text[at + 8..], 1000 + turn as u64);
    }
}

/// The deal of each tick.
pub(crate) fn deal() -> Deal {
    Deal::from_first(13)
}
