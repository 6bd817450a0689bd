//! The commands of a script.

use crate::first::FirstNumber;
use crate::patch::Patch;
use swim_disk::Choice;
use swim_member::Event;
use swim_wire::Endpoint;

/// A setting by its name in a script.
#[derive(Clone, Copy, Debug, PartialEq, Eq)]
pub enum Setting {
    /// Sends of an update, times the binary digits of the count of members.
    Lambda,
    /// Ticks from one probe to the next.
    Period,
    /// Ticks until others are asked about a target.
    Direct,
    /// Ticks until a Suspect becomes Confirm.
    Suspect,
    /// Ticks until a Confirm is forgotten.
    Forget,
    /// Members that are asked about a target.
    Helpers,
    /// Entries in an era.
    Limit,
    /// Numbers that one save reserves.
    Block,
    /// By which rules the group lives.
    Rules,
}

/// What a line makes fail. The number counts the calls of its sort from now on, the next one being 1.
#[derive(Clone, Copy, Debug, PartialEq, Eq)]
pub enum Failure {
    /// A read of the disk, or of its length.
    Read(u32),
    /// A write of the disk.
    Write(u32),
    /// A write of which the first half is done.
    TornWrite(u32),
    /// A sync of the disk.
    Sync(u32),
    /// This call of the disk and all later ones.
    Halt(u32),
    /// A send.
    Send(u32),
}

/// A line of a script.
#[derive(Drop)]
pub enum Command {
    /// Sets the group of the next opening.
    Group(u64),
    /// Sets the endpoint of the next opening.
    Me(Endpoint),
    /// Sets a setting of the next opening.
    Set(Setting, u32),
    /// Makes a disk with a state file, and opens a member with this number on it.
    Start(FirstNumber),
    /// Makes a disk with a state file of this ceiling.
    Init(u64),
    /// Opens a member on the disk.
    Open,
    /// Gives the member an event.
    Happen(Event),
    /// Plans a failure.
    Plan(Failure),
    /// Drops the member. The disk stays as it is.
    Kill,
    /// Drops the member. The disk becomes what a crash leaves of it.
    Crash(Choice),
    /// Writes over a part of the disk.
    Overwrite(Patch),
    /// Shows the slots of the state file.
    Slots,
    /// Begins an era.
    Rebase,
    /// Begins an era, and saves whom the member knows.
    KeepPeers,
    /// Shows whom the state file keeps.
    Peers,
}
