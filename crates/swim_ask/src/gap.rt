//! When a member answers no more, and when it answers again.

ghost use Rattle.std.specs.Prelude.{◌≡◌, Some, None, true, false};
ghost use Rattle.swim_ask.specs.declared.gap.Gap.TheVariants as gaps;

use std::fmt;

/// A change of whether a member answers. It prints as what is told of it.
#[derive(Clone, Copy, Debug, PartialEq, Eq)]
pub(crate) enum Gap {
    /// It answered before, or was not asked yet, and does not now.
    Begins,
    /// It did not answer before, and does now.
    Ends,
}

impl Gap {
    /// What changed, where a member was lost or not, and answers now or not.
    pub(crate) fn after(was_lost: bool, answers: bool) -> Option<Gap>
        ensures begins { was_lost ≡ false → answers ≡ false → result ≡ Some gaps.Begins }
        ensures ends { was_lost ≡ true → answers ≡ true → result ≡ Some gaps.Ends }
        ensures stays { was_lost ≡ false → answers ≡ true → result ≡ None }
        ensures lasts { was_lost ≡ true → answers ≡ false → result ≡ None }
    {
        match (was_lost, answers) {
            (false, false) => Some(Gap::Begins),
            (true, true) => Some(Gap::Ends),
            _ => None,
        }
    }
}

impl fmt::Display for Gap {
    fn fmt<W: fmt::Write>(&self, f: &mut fmt::Formatter<W>) -> fmt::Result {
        match self {
            Gap::Begins => write!(
                f,
                "no answer: what changes from now on is told once there is one"
            ),
            Gap::Ends => write!(f, "answers again: what has changed meanwhile follows"),
        }
    }
}

/// A gap as what a JSON object has of it.
#[derive(Clone, Copy)]
pub(crate) struct GapJson(pub(crate) Gap);

impl fmt::Display for GapJson {
    fn fmt<W: fmt::Write>(&self, f: &mut fmt::Formatter<W>) -> fmt::Result {
        match self.0 {
            Gap::Begins => write!(f, "\"gap\":\"begins\""),
            Gap::Ends => write!(f, "\"gap\":\"ends\""),
        }
    }
}
