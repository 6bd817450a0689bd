//! How long an expelled member stays.

ghost use Rattle.std.specs.Prelude.{◌≡◌, ◌+◌, min, None, Some, IfSome};
ghost use Rattle.std.specs.Option.{option_map};

/// When an expelled member ends that is to end by itself. It waits, and says nothing, until the last of the others has forgotten it:
/// else its next life would be expelled anew, and who had taken it in would confirm it again and forget it later still.
#[derive(Clone, Copy, Debug, PartialEq, Eq)]
pub(crate) struct Expulsion {
    /// How many ticks it waits; none if it is to stay.
    wait: Option<u64>,
    /// How many ticks will have been made when it ends; none before it was expelled.
    end_at: Option<u64>,
}

impl Expulsion {
    /// Of a member that was not expelled, and is to wait for so many ticks then; none if it is to stay.
    pub(crate) fn new(wait: Option<u64>) -> Expulsion
        ensures wait { result.wait ≡ wait }
        ensures not_yet { result.end_at ≡ None }
    {
        Expulsion { wait, end_at: None }
    }

    /// The member is expelled, and has made so many ticks. Says when it ends, in ticks that were made; none if it is to stay.
    pub(crate) fn end_at(&mut self, made: u64) -> Option<u64>
        ensures first { self.old.end_at ≡ None
            → result ≡ option_map (λ wait. min (made + wait) u64.MAX) self.old.wait }
        ensures later { IfSome self.old.end_at (λ at. result ≡ Some at) }
        ensures kept { self.new ≡ record self.old { end_at = result } }
    {
        if self.end_at.is_none() {
            self.end_at = match self.wait {
                Some(wait) => Some(made.saturating_add(wait)),
                None => None,
            };
        }
        self.end_at
    }
}
