//! Parts of a member's state.

ghost use Rattle.std.specs.Prelude.{◌≡◌};
ghost use Rattle.swim_member.specs.Texts.{phase_word};

use swim_wire::{Cursor, Endpoint};

/// Whether a member takes part.
#[derive(Clone, Copy, Debug, PartialEq, Eq)]
pub enum Phase {
    /// It takes part.
    Running,
    /// It left by its own will.
    Left,
    /// It heard that the group holds it for failed.
    Expelled,
}

impl Phase {
    /// The word for it, as transcripts and control answers write it: `running`, `left` or `expelled`.
    pub fn name(self) -> &'static str
        ensures { result.now ≡ phase_word self }
    {
        match self {
            Phase::Running => "running",
            Phase::Left => "left",
            Phase::Expelled => "expelled",
        }
    }
}

/// How many rows of each kind a member has.
#[derive(Clone, Copy, Debug, PartialEq, Eq)]
pub struct Counts {
    /// Members that are there.
    pub alive: usize,
    /// Members that did not answer.
    pub suspect: usize,
    /// Members that failed or left, and are not forgotten yet.
    pub confirmed: usize,
}

/// A probe of a member, and whether it was answered.
#[derive(Clone, Copy, Debug, PartialEq, Eq)]
pub struct Probe {
    /// The member that is probed.
    pub target: Endpoint,
    /// The sequence of its ping and of its ping-reqs.
    pub seq: u32,
    /// An ack came. The probe stays until the period ends.
    pub answered: bool,
}

/// A ping that was sent for another member.
#[derive(Clone, Copy, Debug, PartialEq, Eq)]
pub struct Relay {
    /// The member that was pinged.
    pub target: Endpoint,
    /// The sequence of the ping.
    pub seq: u32,
    /// The member that asked for it.
    pub asker: Endpoint,
    /// The sequence with which it asked.
    pub asked: u32,
    /// The tick at which it was made.
    pub made: u64,
}

/// What fills the unused places of a list.
impl Default for Relay {
    fn default() -> Relay
        ensures { result ≡ record { target = 1; seq = 0; asker = 1; asked = 0; made = 0 } }
    {
        Relay {
            target: Endpoint::default(),
            seq: 0,
            asker: Endpoint::default(),
            asked: 0,
            made: 0,
        }
    }
}

/// A join that is not answered yet.
#[derive(Clone, Copy, Debug, PartialEq, Eq)]
pub struct Joining {
    /// The member that was asked.
    pub peer: Endpoint,
    /// The sequence of the join.
    pub seq: u32,
    /// After which member the wanted page begins.
    pub cursor: Cursor,
}
