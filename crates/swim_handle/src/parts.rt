//! What is left of a caller when its worker is done.

use crate::call_log::CallLog;
use swim_shared::{Name, Pass};
use swim_shell::Caller;

/// A caller of which something is left when its worker is done.
pub trait IntoParts: Caller {
    ghost use Rattle.swim_shell.specs.Calls.{CallerView};

    /// What is left of it.
    type Parts;

    /// What is left of one that knows so much.
    ghost parted: { CallerView → Self.Parts → Type 0 };

    /// Takes it apart.
    fn into_parts(self) -> Self::Parts
        ensures { parted (Self.known self) result };
}

/// What is left of a caller of a shared member: the pass by which it called, for the end of that, and what it has logged and counted.
#[derive(Drop)]
pub struct CallerParts<N: Name> {
    /// By which it called.
    pub pass: Pass<N>,
    /// What it has logged and counted.
    pub log: CallLog,
}
