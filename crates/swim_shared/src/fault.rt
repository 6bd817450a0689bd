//! Why a call is not answered.

use thiserror::Error;

/// Why a call was not answered. Each prints its number and name.
#[derive(Clone, Copy, Debug, PartialEq, Eq, Error)]
pub enum CallFault {
    /// There was no memory for a place in the journal. Nothing changed.
    #[error("1 NoMemory")]
    NoMemory = 1,
    /// The era is full. The pass has read all of it.
    #[error("2 EraFull")]
    EraFull = 2,
    /// The pass does not fit the journal. Nothing changed.
    #[error("3 OutOfTurn")]
    OutOfTurn = 3,
    /// Publishing or reading back was refused. The pass answers this from now on, and enters
    /// nothing.
    #[error("4 Unread")]
    Unread = 4,
}
