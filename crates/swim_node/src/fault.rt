//! Why a node does not open, and why a call is not entered.

use std::{error, fmt};
use swim_state::RecoverFault;

/// Why a call was not entered. Nothing changed. Each prints its number and name.
#[derive(Clone, Copy, Debug, PartialEq, Eq)]
pub enum ApplyFault {
    /// There was no memory for a place in the journal.
    NoMemory,
    /// The era has as many entries as its limit says.
    EraFull,
    /// The turn is not one more than the caller's entries in this era.
    OutOfTurn,
}

/// Why a node was not opened. The disk comes back with it. Each prints its number and name.
#[derive(Clone, Copy, Debug, PartialEq, Eq)]
pub enum OpenFault {
    /// The state file was not recovered: 1 to 6, as the fault says.
    Refused(RecoverFault),
    /// The limit of an era is 0 or above `LIMIT_MAX`. The disk was not touched.
    Limit,
    /// There was no memory for the journal. The disk was not touched.
    NoMemory,
}

impl ApplyFault {
    ghost use Rattle.std.specs.Prelude.{◌≡◌};
    ghost use Rattle.swim_node.specs.Fault.{number_of_apply, name_of_apply};

    /// The number of the fault, by which programs name it.
    pub fn number(self) -> u8
        ensures { result ≡ number_of_apply self }
    {
        match self {
            ApplyFault::NoMemory => 1,
            ApplyFault::EraFull => 2,
            ApplyFault::OutOfTurn => 3,
        }
    }

    /// The name of the fault.
    pub fn name(self) -> &'static str
        ensures { result.now ≡ name_of_apply self }
    {
        match self {
            ApplyFault::NoMemory => "NoMemory",
            ApplyFault::EraFull => "EraFull",
            ApplyFault::OutOfTurn => "OutOfTurn",
        }
    }
}

impl fmt::Display for ApplyFault {
    ghost use Rattle.std.specs.Prelude.{Some};
    ghost use Rattle.swim_node.specs.Fault.{text_of_apply};

    ghost output = { λ f. Some (text_of_apply f) };

    fn fmt<W: fmt::Write>(&self, f: &mut fmt::Formatter<W>) -> fmt::Result {
        let number = self.number();
        let name = self.name();
        write!(f, "{number} {name}")
    }
}

impl error::Error for ApplyFault {}

impl OpenFault {
    ghost use Rattle.std.specs.Prelude.{◌≡◌};
    ghost use Rattle.swim_node.specs.Fault.{number_of_open, name_of_open};

    /// The number of the fault, by which programs name it.
    pub fn number(self) -> u8
        ensures { result ≡ number_of_open self }
    {
        match self {
            OpenFault::Refused(fault) => fault.number(),
            OpenFault::Limit => 7,
            OpenFault::NoMemory => 8,
        }
    }

    /// The name of the fault.
    pub fn name(self) -> &'static str
        ensures { result.now ≡ name_of_open self }
    {
        match self {
            OpenFault::Refused(fault) => fault.name(),
            OpenFault::Limit => "Limit",
            OpenFault::NoMemory => "NoMemory",
        }
    }
}

impl fmt::Display for OpenFault {
    ghost use Rattle.std.specs.Prelude.{Some};
    ghost use Rattle.swim_node.specs.Fault.{text_of_open};

    ghost output = { λ f. Some (text_of_open f) };

    fn fmt<W: fmt::Write>(&self, f: &mut fmt::Formatter<W>) -> fmt::Result {
        let number = self.number();
        let name = self.name();
        write!(f, "{number} {name}")
    }
}

impl error::Error for OpenFault {}
