//! Why a call did nothing, and its code.

ghost use Rattle.std.specs.Prelude.{◌≡◌};
ghost use Rattle.swim_library.specs.Codes.{code_of, code_of_result};

use swim_member::SettingsFault;
use swim_node::OpenFault;
use swim_state::{InitFault, SaveFault};

/// Why a call did nothing, or did it in vain.
#[derive(Clone, Copy, Drop)]
pub(crate) enum Refusal {
    /// No datagram waits.
    Nothing,
    /// The handle is closed.
    Closed,
    /// The handle is open already.
    IsOpen,
    /// A port is 0.
    NoEndpoint,
    /// Datagrams of an earlier event wait.
    Waiting,
    /// The buffer is too short.
    Short,
    /// There was no memory.
    NoMemory,
    /// The system refused the descriptor, or a call on it.
    File,
    /// No member is reached at the own address.
    Address,
    /// A setting is out of its range.
    Settings(SettingsFault),
    /// The state file was not opened.
    Opening(OpenFault),
    /// The state file was not made.
    Making(InitFault),
    /// The peers were not saved.
    Keeping(SaveFault),
    /// More seeds than a member may be told of.
    TooMany,
}

impl Refusal {
    /// Its code, which is not 0.
    pub(crate) fn code(self) -> u32
        ensures { result ≡ code_of self }
    {
        match self {
            Refusal::Nothing => 1,
            Refusal::Closed => 3,
            Refusal::IsOpen => 4,
            Refusal::NoEndpoint => 5,
            Refusal::Waiting => 6,
            Refusal::Short => 7,
            Refusal::NoMemory => 8,
            Refusal::File => 9,
            Refusal::Address => 19,
            Refusal::Settings(fault) => 10 + u32::from(fault.number()),
            Refusal::Opening(fault) => 20 + u32::from(fault.number()),
            Refusal::Making(fault) => 30 + u32::from(fault.number()),
            Refusal::Keeping(fault) => 40 + u32::from(fault.number()),
            Refusal::TooMany => 54,
        }
    }
}

/// What a call answers: 0 where it was done.
pub(crate) fn code(done: Result<(), Refusal>) -> u32
    ensures { result ≡ code_of_result done }
{
    match done {
        Ok(()) => 0,
        Err(refusal) => refusal.code(),
    }
}
