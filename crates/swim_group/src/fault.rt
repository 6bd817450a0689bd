//! Why a group does not do what it is asked.

use swim_member::SettingsFault;
use swim_node::{ApplyFault, OpenFault};
use swim_state::InitFault;
use thiserror::Error;

/// Why a call is refused. Nothing changed then.
#[derive(Clone, Copy, Debug, PartialEq, Eq, Error)]
pub enum GroupFault {
    /// There is no such member.
    #[error("there is no such member")]
    NoMember,
    /// There is no such datagram among those that are kept.
    #[error("there is no such datagram")]
    NoDatagram,
    /// The bytes are a datagram, and those come by `deliver` alone.
    #[error("the bytes are a datagram")]
    Readable,
    /// The settings are those of another member.
    #[error("the settings name another member")]
    OtherName,
    /// Two members have one name.
    #[error("two members have one name")]
    SameName,
    /// A setting is out of its range.
    #[error("setting {0}")]
    Unsound(SettingsFault),
    /// No number is left above the member's own.
    #[error("no number is left")]
    NoNumberLeft,
    /// There was no memory.
    #[error("there is no memory")]
    NoMemory,
}

/// Why a call of a group of nodes is refused.
#[derive(Clone, Copy, Debug, PartialEq, Eq, Error)]
pub enum NodesFault {
    /// The settings do not fit one another.
    #[error("the settings do not fit: {0}")]
    Unfit(GroupFault),
    /// The state file of a node was not made.
    #[error("a state file was not made")]
    NotMade(InitFault),
    /// A node was not opened.
    #[error("a node was not opened")]
    NotOpened(OpenFault),
    /// There is no such node.
    #[error("there is no such node")]
    NoNode,
    /// The node was not opened again after a crash.
    #[error("the node is gone")]
    Gone,
    /// There is no such datagram among those that are kept.
    #[error("there is no such datagram")]
    NoDatagram,
    /// The bytes are a datagram, and those come by `deliver` alone.
    #[error("the bytes are a datagram")]
    Readable,
    /// The node did not enter the call.
    #[error("the node refused the call")]
    Refused(ApplyFault),
    /// There was no memory.
    #[error("there is no memory")]
    NoMemory,
}
