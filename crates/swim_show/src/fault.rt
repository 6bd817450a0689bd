//! Why nothing is shown.

use std::alloc::AllocError;
use std::io::{self, ErrorKind};
use swim_input::InputFault;
use thiserror::Error;

/// Why nothing is shown.
#[derive(Clone, Copy, Debug, PartialEq, Eq, Error)]
pub enum ShowFault {
    /// There is no memory.
    #[error("memory")]
    Memory,
    /// The file cannot be opened or read.
    #[error("file refused")]
    File,
    /// It is a pipe, a device or a socket.
    #[error("it is a pipe, a device or a socket, and no file")]
    NotFile,
}

impl From<AllocError> for ShowFault {
    fn from(_: AllocError) -> ShowFault {
        ShowFault::Memory
    }
}

impl From<io::Error> for ShowFault {
    fn from(error: io::Error) -> ShowFault {
        if error.kind() == ErrorKind::OutOfMemory {
            ShowFault::Memory
        } else {
            ShowFault::File
        }
    }
}

impl From<InputFault> for ShowFault {
    fn from(fault: InputFault) -> ShowFault {
        match fault {
            InputFault::Memory => ShowFault::Memory,
            InputFault::NotFile => ShowFault::NotFile,
            InputFault::System(error) => ShowFault::from(error),
            InputFault::TooLong(_) => ShowFault::File,
        }
    }
}
