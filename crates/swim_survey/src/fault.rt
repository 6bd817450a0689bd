//! Why nothing more is printed.

use crate::placing::{PlacedRefusal, placed};
use std::alloc::AllocError;
use std::io::{self, ErrorKind};
use swim_plan::PlanRefusal;
use swim_settings::SettingsRefusal;
use swim_simulate::SimulateFault;
use thiserror::Error;

/// Why nothing more is printed.
#[derive(Debug, Drop, Error)]
pub enum AskedFault {
    /// There is no memory.
    #[error("memory")]
    Memory,
    /// A file, or standard output, failed, or a file is there already.
    #[error("file refused")]
    File,
    /// The plan is refused.
    #[error("plan refused {0}")]
    Plan(PlacedRefusal),
    /// The sweep is refused, at this word or key.
    #[error("sweep refused {0}")]
    Sweep(PlanRefusal),
    /// A run was not done.
    #[error("simulation ended {0}")]
    Run(SimulateFault),
    /// A run broke the law of a group: where, and by which plan that is as small as was found.
    #[error("a law is broken\n{0}")]
    Broken(String),
}

impl From<AllocError> for AskedFault {
    fn from(_: AllocError) -> AskedFault {
        AskedFault::Memory
    }
}

impl From<io::Error> for AskedFault {
    fn from(error: io::Error) -> AskedFault {
        if error.kind() == ErrorKind::OutOfMemory {
            AskedFault::Memory
        } else {
            AskedFault::File
        }
    }
}

impl From<SimulateFault> for AskedFault {
    fn from(fault: SimulateFault) -> AskedFault {
        match fault {
            SimulateFault::Memory => AskedFault::Memory,
            _ => AskedFault::Run(fault),
        }
    }
}

impl AskedFault {
    /// A plan with this text is refused.
    pub(crate) fn of_plan(text: &[u8], refusal: PlanRefusal) -> AskedFault {
        match refusal {
            PlanRefusal::Text(SettingsRefusal::Memory) => AskedFault::Memory,
            _ => AskedFault::Plan(placed(text, refusal)),
        }
    }

    /// A refused sweep.
    pub(crate) fn of_sweep(refusal: PlanRefusal) -> AskedFault {
        match refusal {
            PlanRefusal::Text(SettingsRefusal::Memory) => AskedFault::Memory,
            _ => AskedFault::Sweep(refusal),
        }
    }
}
