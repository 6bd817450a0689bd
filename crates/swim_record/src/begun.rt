//! Where an era begins, and when it did.

ghost use Rattle.std.specs.Prelude.{◌≡◌};

use crate::time::EraTime;
use std::marker::Model;
use std::time::{Clock, SystemTime};
use swim_node::Beginning;

/// A moment: milliseconds since the beginning of 1970, in UTC. None if the clock cannot be read.
fn now<R: Clock>(rt: &R) -> Option<u64> {
    let now = SystemTime::now(rt).ok()?;
    let since = now.duration_since(SystemTime::UNIX_EPOCH).ok()?;
    u64::try_from(since.as_millis()).ok()
}

/// Where an era begins, and when it did. Contracts see it as where it begins.
#[derive(Drop)]
pub struct BegunEra {
    beginning: Beginning,
    at: Option<u64>,
}

impl Model for BegunEra {
    ghost use Rattle.swim_node.specs.History.{Base};

    ghost Value = { Base };

    ghost view = { λ b. b.beginning };
}

impl BegunEra {
    /// An era begins so, now.
    pub fn new<R: Clock>(rt: &R, beginning: Beginning) -> BegunEra
        ensures { result ≡ beginning }
    {
        BegunEra {
            beginning,
            at: now(rt),
        }
    }

    /// Where it begins.
    pub(crate) fn beginning(&self) -> &Beginning
        ensures { result.now ≡ self.now }
    {
        &self.beginning
    }

    /// When the era was that began so and ends now, and whose ticks are to be so many milliseconds long. None if the clock could not be
    /// read at both moments.
    pub(crate) fn until_now<R: Clock>(&self, rt: &R, tick: u64) -> Option<EraTime> {
        Some(EraTime {
            begun: self.at?,
            ended: now(rt)?,
            tick,
        })
    }
}
