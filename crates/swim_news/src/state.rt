//! The words by which people are told what a row says of its member.

ghost use Rattle.std.specs.Prelude.{◌≡◌};
ghost use Rattle.swim_news.specs.States.{state_word};

use swim_wire::UpdateKind;

/// The state of a member as people read it. One that is confirmed is `failed`, or it has left: its row does not say which.
pub fn state_name(kind: UpdateKind) -> &'static str
    ensures { result.now ≡ state_word kind }
{
    match kind {
        UpdateKind::Alive => "alive",
        UpdateKind::Suspect => "suspect",
        UpdateKind::Confirm => "failed",
    }
}
