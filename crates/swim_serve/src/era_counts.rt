//! What is counted of the eras of a member.

ghost use Rattle.std.specs.Prelude.{◌≡◌, ◌∷◌, []};
ghost use Rattle.swim_serve.specs.EraCounts.{with_era, with_peers};

use crate::era_saves::{EraSaves, PeersSave};
use swim_shell::ERA_COUNTS;

/// What became of the eras of a member. A count stays at the greatest number.
#[derive(Clone, Copy, Debug, PartialEq, Eq)]
pub(crate) struct EraCounts {
    /// How many ended.
    ended: u64,
    /// How many of their entries saved a number.
    numbers: u64,
    /// How often peers were saved.
    saved: u64,
    /// How often they could not be.
    unsaved: u64,
}

impl EraCounts {
    /// None ended yet.
    pub(crate) fn new() -> EraCounts {
        EraCounts {
            ended: 0,
            numbers: 0,
            saved: 0,
            unsaved: 0,
        }
    }

    /// Adds an era that ended, at whose end this became of the peers.
    fn end_with(&mut self, peers: PeersSave)
        ensures { self.new ≡ with_peers peers self.old }
    {
        self.ended = self.ended.saturating_add(1);
        match peers {
            PeersSave::Spared => {}
            PeersSave::Done => self.saved = self.saved.saturating_add(1),
            PeersSave::Failed => self.unsaved = self.unsaved.saturating_add(1),
        }
    }

    /// Adds an era that ended, with what was saved.
    pub(crate) fn add(&mut self, saves: EraSaves)
        ensures { self.new ≡ with_era saves self.old }
    {
        self.end_with(saves.peers);
        self.numbers = self.numbers.saturating_add(saves.numbers);
    }

    /// They, in the order in which they are shown.
    pub(crate) fn counts(&self) -> [u64; ERA_COUNTS]
        ensures { result ≡ self.now.ended ∷ self.now.numbers ∷ self.now.saved ∷ self.now.unsaved
            ∷ [] }
    {
        [self.ended, self.numbers, self.saved, self.unsaved]
    }
}
