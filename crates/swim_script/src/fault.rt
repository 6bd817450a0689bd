//! Why a script is refused.

ghost use Rattle.std.specs.Prelude.{◌≡◌, ◌≢◌};
ghost use Rattle.swim_script.specs.Faults.{no_memory};
ghost use Rattle.swim_script.specs.declared.fault.FaultKind.TheVariants as kinds;

use std::alloc::AllocError;
use std::{error, fmt};

/// What is wrong with a line: the first that holds, in this order. The last is of no line. It prints
/// its number and name.
#[derive(Clone, Copy, Debug, PartialEq, Eq)]
pub enum FaultKind {
    /// A byte is not one of 20 to 7E (hex).
    Text,
    /// The line has more than 1,300 bytes.
    Long,
    /// The first word is no command.
    Command,
    /// An argument is missing, spare or out of its range.
    Argument,
    /// Memory ran out.
    NoMemory,
}

impl From<AllocError> for FaultKind {
    ghost from_gives = { λ error kind. kind ≡ kinds.NoMemory };

    fn from(_: AllocError) -> FaultKind {
        FaultKind::NoMemory
    }
}

/// Why a script is refused: at its first faulty line. It prints the line, and the number and name of the kind.
#[derive(Clone, Copy, Debug, PartialEq, Eq)]
pub struct ScriptFault {
    /// The line, counted from 1, or 0 where memory ran out.
    pub line: usize,
    /// What is wrong with it.
    pub kind: FaultKind,
}

impl ScriptFault {
    /// Memory ran out.
    pub const NO_MEMORY: ScriptFault = ScriptFault {
        line: 0,
        kind: FaultKind::NoMemory,
    };

    /// A fault of the line with this number, unless memory ran out.
    pub(crate) fn at(line: usize, kind: FaultKind) -> ScriptFault
        ensures memory { kind ≡ kinds.NoMemory → result ≡ no_memory }
        ensures fault { kind ≢ kinds.NoMemory → result ≡ record { line = line; kind = kind } }
    {
        match kind {
            FaultKind::NoMemory => ScriptFault::NO_MEMORY,
            _ => ScriptFault { line, kind },
        }
    }
}

impl FaultKind {
    ghost use Rattle.std.specs.Prelude.{◌≡◌};
    ghost use Rattle.swim_script.specs.Faults.{kind_number, kind_name};

    /// The number of the fault, by which programs name it.
    pub fn number(self) -> u8
        ensures { result ≡ kind_number self }
    {
        match self {
            FaultKind::Text => 1,
            FaultKind::Long => 2,
            FaultKind::Command => 3,
            FaultKind::Argument => 4,
            FaultKind::NoMemory => 5,
        }
    }

    /// The name of the fault.
    pub fn name(self) -> &'static str
        ensures { result.now ≡ kind_name self }
    {
        match self {
            FaultKind::Text => "Text",
            FaultKind::Long => "Long",
            FaultKind::Command => "Command",
            FaultKind::Argument => "Argument",
            FaultKind::NoMemory => "NoMemory",
        }
    }
}

impl fmt::Display for FaultKind {
    ghost use Rattle.std.specs.Prelude.{Some};
    ghost use Rattle.swim_script.specs.Faults.{kind_text};

    ghost output = { λ f. Some (kind_text f) };

    fn fmt<W: fmt::Write>(&self, f: &mut fmt::Formatter<W>) -> fmt::Result {
        let number = self.number();
        let name = self.name();
        write!(f, "{number} {name}")
    }
}

impl error::Error for FaultKind {}

impl fmt::Display for ScriptFault {
    ghost use Rattle.std.specs.Prelude.{Some};
    ghost use Rattle.swim_script.specs.Faults.{fault_text};

    ghost output = { λ fault. Some (fault_text fault) };

    fn fmt<W: fmt::Write>(&self, f: &mut fmt::Formatter<W>) -> fmt::Result {
        let line = self.line;
        let kind = self.kind;
        write!(f, "{line} {kind}")
    }
}

impl error::Error for ScriptFault {}
