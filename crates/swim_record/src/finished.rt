//! An era that ended, with when and where it began.

ghost use Rattle.std.specs.Prelude.{◌≡◌, ◌≤◌, ◌↔◌, length, IfOk, IsTrue};
ghost use Rattle.swim_record.specs.Recording.{recording_text};

use crate::begun::BegunEra;
use crate::time::EraTime;
use crate::writer::recording;
use std::alloc::{AllocError, Global};
use std::marker::Model;
use std::time::Clock;
use swim_node::{Era, Room};

/// An era that ended, with when and where it began. Contracts see it as an era.
#[derive(Drop)]
pub struct Finished {
    begun: BegunEra,
    era: Era,
}

impl Model for Finished {
    ghost use Rattle.swim_node.specs.Lives.{Era as Eras};

    ghost Value = { Eras };

    ghost view = { λ f. record { base = f.begun; entries = f.era.entries } };
}

impl Finished {
    /// The era that began so, and ended with this journal.
    pub fn new(begun: BegunEra, era: Era) -> Finished
        ensures base { result.base ≡ begun }
        ensures entries { result.entries ≡ era.entries }
    {
        Finished { begun, era }
    }

    /// When it was, if it ends now and its ticks are to be so many milliseconds long. None if the clock could not be read where it
    /// began, or cannot be now.
    pub fn until_now<R: Clock>(&self, rt: &R, tick: u64) -> Option<EraTime> {
        self.begun.until_now(rt, tick)
    }

    /// Its recording, with when it was, if that is known. An error is that there is no memory for it.
    pub fn recording(&self, alloc: Global, time: Option<EraTime>) -> Result<String, AllocError>
        ensures { IfOk result (λ text. text.bytes.items
            ≡ recording_text time self.now.base self.now.entries) }
    {
        recording(alloc, time, self.begun.beginning(), self.era.journal())
    }

    /// Whether it ended because it was full. Any other era was ended on purpose.
    pub fn is_full(&self) -> bool
        ensures { IsTrue result ↔ (self.now.base.limit ≤ length self.now.entries) }
    {
        self.begun.beginning().limit as usize <= self.era.journal().len()
    }

    /// Its room, for the entries of another era.
    pub fn into_room(self) -> Room {
        self.era.into_room()
    }
}
