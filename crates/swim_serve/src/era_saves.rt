//! What was saved in an era, and at its end.

ghost use Rattle.std.specs.Prelude.{◌≡◌};
ghost use Rattle.swim_serve.specs.EraCounts.{has_saved, number_saves};

use swim_node::{Entry, Save};

/// What became of the peers that a member knows where an era ended.
#[derive(Clone, Copy, Debug, PartialEq, Eq)]
pub(crate) enum PeersSave {
    /// They stood in the state file.
    Spared,
    /// They were saved.
    Done,
    /// They could not be saved.
    Failed,
}

/// What was saved in an era, and at its end.
#[derive(Clone, Copy, Debug, PartialEq, Eq)]
pub(crate) struct EraSaves {
    /// How many entries saved the number that they wanted.
    pub(crate) numbers: u64,
    /// What became of the peers.
    pub(crate) peers: PeersSave,
}

/// Whether a number was saved for this entry.
fn has_saved(entry: &Entry) -> bool
    ensures { result ≡ has_saved entry.now }
{
    entry.save == Save::Done
}

/// For how many of these entries a number was saved.
pub(crate) fn number_saves(entries: &[Entry]) -> usize
    ensures { result ≡ number_saves entries.now }
{
    let mut count = 0;
    for entry in entries {
        if has_saved(entry) {
            count += 1;
        }
    }
    count
}
