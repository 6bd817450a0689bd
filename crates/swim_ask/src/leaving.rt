//! Whether a member may have left.

ghost use Rattle.std.specs.Prelude.{◌≡◌};
ghost use Rattle.swim_ask.specs.Leaving.{may_have_left};

use swim_news::Change;
use swim_wire::UpdateKind;

/// Whether a member was alive at one look and failed at the next one: no look found it suspected in between, so it may have left. Its row
/// does not say.
pub fn may_have_left(change: &Change) -> bool
    ensures { result ≡ may_have_left change.now }
{
    match change {
        Change::Changed { was, now } => matches!(
            (was.kind, now.kind),
            (UpdateKind::Alive, UpdateKind::Confirm)
        ),
        Change::New(_) | Change::Gone(_) => false,
    }
}
