//! How many runs there are, and how far they are, for a person at a terminal.

use arrayvec::ArrayString;
use std::fmt::Write as _;
use std::io::{Stderr, Write};

/// Room for `run N of N` with the greatest numbers, behind what clears the line.
const LINE_MAX: usize = 64;

/// What goes back to the begin of the line and clears it.
const CLEAR: &str = "\r\x1b[K";

/// So many runs of each plan, the first one by this seed and each other one by the next. A terminal that is told of them has a line
/// that is written anew with each run. One run alone is not told.
#[derive(Drop)]
pub struct Series {
    /// The seed of the first run of a plan.
    pub(crate) seed: u64,
    /// How many runs of a plan.
    pub(crate) runs: u64,
    terminal: Option<Stderr>,
    /// How many runs of all plans.
    total: u64,
    /// How many of them were begun.
    begun: u64,
}

impl Series {
    /// Runs that nobody is told of.
    pub fn new(seed: u64, runs: u64) -> Series {
        Series::on(None, seed, runs, 1)
    }

    /// Runs of so many plans, of which a terminal is told, if there is one.
    pub(crate) fn on(terminal: Option<Stderr>, seed: u64, runs: u64, plans: u64) -> Series {
        Series {
            seed,
            runs,
            terminal,
            total: runs.saturating_mul(plans),
            begun: 0,
        }
    }

    /// Writes to the terminal. That it takes nothing is no fault of the runs.
    fn tell(&mut self, text: &str) {
        if self.total > 1
            && let Some(terminal) = &mut self.terminal
        {
            let _ = terminal.write_all(text.as_bytes());
        }
    }

    /// Tells that one more run begins.
    pub(crate) fn begin_run(&mut self) {
        self.begun = self.begun.saturating_add(1);
        let (begun, total) = (self.begun, self.total);
        let mut line = ArrayString::<LINE_MAX>::new();
        let _ = write!(line, "{CLEAR}run {begun} of {total}");
        self.tell(line.as_str());
    }

    /// Clears the line, for what is printed after it.
    pub(crate) fn end(&mut self) {
        self.tell(CLEAR);
    }
}
