//! How a member ended, as the program ends by it.

ghost use Rattle.std.specs.Prelude.{◌≡◌, ◌≢◌, ◌↔◌, IsOk, Ok, Err};
ghost use Rattle.swim_exit.specs.declared.exits.Exit.TheVariants as exits;
ghost use Rattle.swim_serve.specs.declared.grace.MemberEnd.TheVariants as member_ends;

use swim_exit::Exit;
use swim_serve::{Fault, MemberEnd};

/// The exit of a member that a fault ended.
fn exit_of(fault: Fault) -> Exit
    ensures memory { fault ≡ Fault.Memory → result ≡ Exit.Memory }
    ensures threads { fault ≡ Fault.Threads → result ≡ Exit.Threads }
    ensures odd { fault ≡ Fault.Odd → result ≡ Exit.Odd }
    ensures worker { (end : _) → fault ≡ Fault.Worker end → result ≡ Exit.Worker end }
    ensures unexpelled { result ≢ Exit.Expelled }
{
    match fault {
        Fault::Memory => Exit::Memory,
        Fault::Threads => Exit::Threads,
        Fault::Odd => Exit::Odd,
        Fault::Worker(end) => Exit::Worker(end),
    }
}

/// How a member ended that was told to stop, or else why it ended.
pub(crate) fn ended_by(ended: Result<MemberEnd, Fault>) -> Result<(), Exit>
    ensures stopped { IsOk result ↔ (ended ≡ Ok member_ends.Stopped) }
    ensures expelled { (result ≡ Err exits.Expelled) ↔ (ended ≡ Ok member_ends.Expelled) }
{
    match ended {
        Ok(MemberEnd::Stopped) => Ok(()),
        Ok(MemberEnd::Expelled) => Err(Exit::Expelled),
        Err(fault) => Err(exit_of(fault)),
    }
}
