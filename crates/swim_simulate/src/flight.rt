//! The ways of the datagrams that a group keeps.

ghost use Rattle.std.specs.Prelude.{◌≡◌};
ghost use Rattle.swim_simulate.specs.Running.{flight_by};

use crate::network::Fate;

/// The way of a datagram that the group keeps, in the same place there.
#[derive(Clone, Copy, Drop)]
pub(crate) struct Flight {
    pub(crate) to: usize,
    pub(crate) due: u64,
    /// How many ticks after that it comes once more.
    pub(crate) again: Option<u64>,
    pub(crate) is_lost: bool,
}

impl Flight {
    /// The way of a datagram that is sent now to this member, by its fate.
    pub(crate) fn by(fate: Fate, now: u64, to: usize) -> Flight
        ensures { result ≡ flight_by fate now to }
    {
        let (delay, again) = match fate {
            Fate::Lost => (None, None),
            Fate::Comes(first) => (Some(first), None),
            Fate::ComesTwice(first, second) => (Some(first), Some(second)),
        };
        Flight {
            to,
            due: now.saturating_add(delay.unwrap_or(0)),
            again,
            is_lost: delay.is_none(),
        }
    }
}
