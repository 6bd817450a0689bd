//! Who calls a member.

ghost use Rattle.std.specs.Prelude.{◌≡◌, IfOk, IfErr};
ghost use Rattle.swim_shell.specs.Calls.{NewCall, Refuses};

use crate::about::Who;
use crate::counters::Counters;
use swim_member::Event;
use swim_node::{Reply, Status};
use thiserror::Error;

/// Why a call was refused.
#[derive(Clone, Copy, Debug, PartialEq, Eq, Error)]
pub enum Refusal {
    /// The era is full, and the caller has seen all of it.
    #[error("EraFull")]
    EraFull,
    /// There was no memory for it. Nothing happened.
    #[error("Memory")]
    Memory,
    /// What it did could not be read back. The caller is spent: each later call is refused so.
    #[error("Unread")]
    Unread,
}

/// Who calls a member. Each call that is answered is one entry of the member's history.
pub trait Caller {
    ghost use Rattle.std.specs.Prelude.{ℕ};
    ghost use Rattle.swim_shell.specs.Calls.{CallerView};

    /// Which caller it is, the history that it has seen, and what it was to enter.
    ghost known: { Self → CallerView };

    /// How many entries a full era has.
    ghost limit: { ℕ };

    /// Enters an event, and tells what the member replied. A refused call is not in the history that was seen, but an
    /// unread one may be in that of the member.
    fn call(&mut self, event: Event) -> Result<Reply, Refusal>
        ensures ok { IfOk result (λ reply. NewCall (known self.old) (known self.new) event reply) }
        ensures err { IfErr result (λ why. Refuses limit why (known self.old) (known self.new)
            event) };
}

/// A caller that is shown the status too.
pub trait Observer: Caller {
    /// The status, without a call and without waiting for one: that after its last answered call, or a later one. None if
    /// there is no reading just now.
    fn status(&mut self) -> Option<Status>
        ensures { Self.known self.new ≡ Self.known self.old };

    /// Who the member is, without a call.
    fn who(&mut self) -> Who
        ensures { Self.known self.new ≡ Self.known self.old };

    /// What the member has done since it began, in all its eras, without a call and without waiting for one. No contract can
    /// say what was counted by callers in other threads: it is theirs, as each of them told it after its last call.
    fn counters(&mut self) -> Counters
        ensures { Self.known self.new ≡ Self.known self.old };
}
