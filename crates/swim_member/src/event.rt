//! Events.

ghost use Rattle.std.specs.Prelude.{◌≡◌};

use arrayvec::ArrayVec;
use swim_rules::Deal;
use swim_wire::{Cursor, DATAGRAM_MAX, Endpoint, copied};

/// The most bytes of a received datagram that are kept: one more than a datagram may have.
pub const RECEIVED_MAX: usize = DATAGRAM_MAX + 1;

// a deal takes less room than the bytes of a datagram, so with it an event is no larger
const _: () = prove!(size_of::<Deal>() < size_of::<ArrayVec<u8, RECEIVED_MAX>>());

/// What may happen to a member.
#[derive(Drop)]
pub enum Event {
    /// Time goes on by one tick.
    Tick {
        /// The order of the members where a new turn list is made.
        deal: Deal,
    },
    /// Bytes came.
    Datagram {
        /// Where they came from.
        from: Endpoint,
        /// The bytes. What passes `RECEIVED_MAX` is cut off.
        bytes: ArrayVec<u8, RECEIVED_MAX>,
    },
    /// A receive failed.
    ReceiveFailed,
    /// Datagrams of earlier events were not sent.
    SendFailed {
        /// How many.
        count: u32,
    },
    /// The member is to ask another for all that it knows.
    Join {
        /// Whom to ask.
        peer: Endpoint,
    },
    /// The member is to leave the group.
    Leave,
    /// The next members are asked for, at most 30.
    Members {
        /// The cursor after which they begin.
        after: Cursor,
    },
}

impl Event {
    /// The same once more, which takes no memory. It moves as many bytes as the largest event has.
    pub fn copy(&self) -> Event
        ensures { result ≡ self.now }
    {
        match self {
            Event::Tick { deal } => Event::Tick { deal: *deal },
            Event::Datagram { from, bytes } => Event::Datagram {
                from: *from,
                bytes: copied(bytes),
            },
            Event::ReceiveFailed => Event::ReceiveFailed,
            Event::SendFailed { count } => Event::SendFailed { count: *count },
            Event::Join { peer } => Event::Join { peer: *peer },
            Event::Leave => Event::Leave,
            Event::Members { after } => Event::Members { after: *after },
        }
    }
}
