//! What a history is made of, as plain data.

ghost use Rattle.std.specs.Prelude.{◌≡◌};

use arrayvec::ArrayVec;
use swim_member::{Event, NOTES_MAX, Note, OUTS_MAX, Outs, Phase};
use swim_wire::{UPDATES_MAX, Update, copied};

/// Who calls, and for which time in this era.
#[derive(Clone, Copy, Debug, PartialEq, Eq)]
pub struct Tag {
    /// The caller, below 16.
    pub caller: u8,
    /// The caller's calls in this era, this one included.
    pub turn: u32,
}

/// What became of the granted ceiling at an event.
#[derive(Clone, Copy, Debug, PartialEq, Eq)]
pub enum Save {
    /// Nothing above it was wanted, and nothing was saved.
    Kept,
    /// It was raised to what was wanted.
    Done,
    /// More was wanted than could be saved.
    Failed,
}

/// What became of a datagram.
#[derive(Clone, Copy, Debug, PartialEq, Eq)]
pub enum Outcome {
    /// The link took it.
    Taken,
    /// The link did not take it.
    Lost,
}

/// Lost: what fills the unused places of a list.
impl Default for Outcome {
    fn default() -> Outcome
        ensures { result ≡ Outcome.Lost }
    {
        Outcome::Lost
    }
}

/// What a status page shows.
#[derive(Clone, Copy, Debug, PartialEq, Eq)]
pub struct Status {
    /// Whether the member takes part.
    pub phase: Phase,
    /// The own incarnation number.
    pub number: u64,
    /// How many members are held for alive.
    pub alive: usize,
    /// How many are suspected.
    pub suspect: usize,
    /// How many have failed or left, and are not forgotten yet.
    pub confirmed: usize,
    /// How many entries the era has.
    pub length: usize,
}

/// What a caller is told.
#[derive(Drop)]
pub struct Reply {
    /// The status after the call.
    pub status: Status,
    /// What the member takes note of, in order.
    pub notes: ArrayVec<Note, NOTES_MAX>,
    /// The updates that were asked for, by member.
    pub page: ArrayVec<Update, UPDATES_MAX>,
    /// How many datagrams were taken.
    pub sent: usize,
    /// How many datagrams were not taken.
    pub lost: usize,
}

impl Reply {
    /// The same once more, which takes no memory.
    pub fn copy(&self) -> Reply
        ensures { result ≡ self.now }
    {
        Reply {
            status: self.status,
            notes: copied(&self.notes),
            page: copied(&self.page),
            sent: self.sent,
            lost: self.lost,
        }
    }
}

/// One answered call: 9,416 bytes of plain data, of which the places for ten datagrams are most.
#[derive(Drop)]
pub struct Entry {
    /// Who called.
    pub tag: Tag,
    /// What happened.
    pub event: Event,
    /// The ceiling that the member got for its step.
    pub granted: u64,
    /// How that ceiling came about.
    pub save: Save,
    /// The datagrams, each with its destination, in order.
    pub outs: Outs,
    /// What became of each of them.
    pub outcomes: ArrayVec<Outcome, OUTS_MAX>,
    /// What the caller was told.
    pub reply: Reply,
}

// what an entry takes of a journal
const _: () = prove!(size_of::<Entry>() == 9_416);
