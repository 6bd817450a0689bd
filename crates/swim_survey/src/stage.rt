//! What others notice of a kill.

use swim_simulate::Kill;

/// What others notice of a kill.
#[derive(Clone, Copy, Debug, PartialEq, Eq)]
pub enum Stage {
    /// The first suspects the killed member.
    Suspected,
    /// The first holds it for failed.
    Confirmed,
    /// All agree that it failed.
    Failed,
    /// All agree that it is alive, after it was opened again.
    Alive,
}

impl Stage {
    /// All of them, in order.
    pub(crate) const ALL: [Stage; 4] = [
        Stage::Suspected,
        Stage::Confirmed,
        Stage::Failed,
        Stage::Alive,
    ];

    /// Its name among others.
    pub(crate) fn text(self) -> &'static str {
        match self {
            Stage::Suspected => "suspected",
            Stage::Confirmed => "confirmed",
            Stage::Failed => "all agree on a kill",
            Stage::Alive => "all agree on an opening again",
        }
    }

    /// Ticks until it came, if it did: from the kill, or from the opening again.
    pub fn ticks(self, kill: &Kill) -> Option<u64> {
        let (from, to) = match self {
            Stage::Suspected => (kill.tick, kill.suspected?),
            Stage::Confirmed => (kill.tick, kill.confirmed?),
            Stage::Failed => (kill.tick, kill.known?),
            Stage::Alive => (kill.back?, kill.alive?),
        };
        Some(to.saturating_sub(from))
    }
}
