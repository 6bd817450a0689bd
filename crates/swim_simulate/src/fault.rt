//! Why a run is not done.

use std::alloc::{AllocError, AllocFailed};
use swim_group::NodesFault;
use thiserror::Error;

/// Why a run is not done to its end.
#[derive(Clone, Copy, Debug, PartialEq, Eq, Error)]
pub enum SimulateFault {
    /// There is no memory.
    #[error("memory")]
    Memory,
    /// The group refused a call.
    #[error("{0}")]
    Nodes(NodesFault),
}

impl From<AllocError> for SimulateFault {
    fn from(_: AllocError) -> SimulateFault {
        SimulateFault::Memory
    }
}

impl<T: Drop> From<AllocFailed<T>> for SimulateFault {
    fn from(_: AllocFailed<T>) -> SimulateFault {
        SimulateFault::Memory
    }
}

impl From<NodesFault> for SimulateFault {
    fn from(fault: NodesFault) -> SimulateFault {
        match fault {
            NodesFault::NoMemory => SimulateFault::Memory,
            _ => SimulateFault::Nodes(fault),
        }
    }
}
