//! Why something is not read.

use std::io::{self, ErrorKind};
use thiserror::Error;

/// Why something is not read.
#[derive(Debug, Drop, Error)]
pub enum InputFault {
    /// There is no memory.
    #[error("memory")]
    Memory,
    /// It is a pipe, a device or a socket, which may have no end.
    #[error("it is a pipe, a device or a socket, and no file")]
    NotFile,
    /// It has more bytes than this.
    #[error("it has more than {0} bytes")]
    TooLong(u64),
    /// The system does not open or read it.
    #[error("{0}")]
    System(io::Error),
}

impl From<io::Error> for InputFault {
    fn from(error: io::Error) -> InputFault {
        if error.kind() == ErrorKind::OutOfMemory {
            InputFault::Memory
        } else {
            InputFault::System(error)
        }
    }
}
