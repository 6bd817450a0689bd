//! What a joiner logs of members: how their rows changed since it compared them last.

ghost use Rattle.std.specs.Prelude.{◌≡◌, ◌++◌, [], None, false, if◌then◌else◌};
ghost use Rattle.std.specs.Duration.{as_nanos};
ghost use Rattle.swim_join.specs.Moments.{has_passed, TellsNews};

use crate::intervals::has_passed;
use log::{Level, Log, info, log_enabled};
use std::marker::Model;
use std::time::{Duration, Instant};
use swim_news::{Change, Changes, Rows, compare};
use swim_trace::Trace;

/// The rows that were compared last. Contracts see it as `NewsView`.
#[derive(Drop)]
pub(crate) struct News {
    rows: Rows,
    /// When they were compared.
    compared: Option<Instant>,
    /// All changes that were logged, for proofs.
    told: Trace<Change>,
}

impl Model for News {
    ghost use Rattle.swim_join.specs.Moments.{NewsView};

    ghost Value = { NewsView };

    ghost view = { λ n. record { rows = n.rows; compared = n.compared; told = n.told } };
}

/// Logs these changes.
fn log_all<W: Log>(rt: &W, changes: &[Change], told: &mut Trace<Change>)
    ensures { told.new ≡ told.old ++ changes.now }
{
    for change in changes {
        info!(rt; "{change}");
        *told = told.and(change);
    }
}

impl News {
    /// No rows were compared yet.
    pub(crate) fn new() -> News
        ensures { result ≡ record { rows = []; compared = None; told = [] } }
    {
        News {
            rows: Rows::new(),
            compared: None,
            told: Trace::new(),
        }
    }

    /// Whether the rows are to be compared again, a period after the last time, where the log shows it.
    pub(crate) fn is_due(&self, now: Option<Instant>, is_shown: bool, period: Duration) -> bool
        ensures { result ≡ (if is_shown then has_passed now self.now.compared (as_nanos period)
            else false) }
    {
        is_shown && has_passed(now, self.compared, period)
    }

    /// Logs what changed from the rows before to these, which are kept.
    pub(crate) fn tell<W: Log>(&mut self, rt: &W, now: Option<Instant>, rows: Rows)
        ensures { TellsNews self.old now rows self.new }
    {
        let mut changes = Changes::new();
        compare(&self.rows, &rows, &mut changes);
        log_all(rt, changes.as_slice(), &mut self.told);
        self.rows = rows;
        self.compared = now;
    }
}

/// Whether the log shows news.
pub(crate) fn are_shown<W: Log>(rt: &W) -> bool {
    log_enabled!(rt; Level::Info)
}
