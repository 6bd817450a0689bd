//! How many lines of one kind are written to the log in a minute, so that nobody can fill the disk by what the log tells of datagrams.

ghost use Rattle.std.specs.Prelude.{◌≡◌, ◌<◌, ◌+◌, ◌↔◌, min, IsTrue, false};

use std::time::Duration;

/// The seconds of a minute.
const MINUTE_SECONDS: u64 = 60;

/// In which minute of a clock that only rises this is.
pub(crate) fn minute_of(now: Duration) -> u64 {
    now.as_secs() / MINUTE_SECONDS
}

/// What became of the lines of one kind in the minute that goes on.
#[derive(Clone, Copy, Debug, PartialEq, Eq)]
pub(crate) struct Quota {
    written: u32,
    left_out: u32,
}

impl Quota {
    /// Nothing was written yet.
    pub(crate) const WHOLE: Quota = Quota {
        written: 0,
        left_out: 0,
    };

    /// Whether one more line is written in this minute, of so many at most. One that is not is counted.
    pub(crate) fn takes(&mut self, most: u32) -> bool
        ensures yes { IsTrue result ↔ (self.old.written < most) }
        ensures written { IsTrue result
            → self.new ≡ record self.old { written = self.old.written + 1 } }
        ensures left_out { result ≡ false → self.new ≡ record self.old {
          left_out = min (self.old.left_out + 1) u32.MAX;
        } }
    {
        if self.written < most {
            self.written += 1;
            return true;
        }
        self.left_out = self.left_out.saturating_add(1);
        false
    }

    /// How many lines were left out.
    pub(crate) fn left_out(&self) -> u32
        ensures { result ≡ self.now.left_out }
    {
        self.left_out
    }
}
