//! The figures of a table: one number each, in thousandths.

use crate::gathered::Gathered;
use crate::stage::Stage;
use std::alloc::{AllocError, Global};
use swim_charts::of_hundred;

/// How many figures there are.
pub(crate) const FIGURES: usize = 10;

/// A figure of a table.
#[derive(Clone, Copy, Debug, PartialEq, Eq)]
pub(crate) enum Figure {
    /// The median of the seconds from the start until each knows all.
    Start,
    /// The median of the seconds until a stage.
    Median(Stage),
    /// How often a member began to suspect one that was never killed.
    Suspicions,
    /// How often a member began to hold one for failed that was never killed.
    Confirms,
    /// Datagrams that were sent.
    Datagrams,
    /// Their bytes.
    Bytes,
    /// Saves of a state file.
    Saves,
}

/// So many in the time of all members together, for each member and so many milliseconds, in thousandths.
fn rate(count: u64, each_ms: u64, member_ms: u64) -> u64 {
    let scaled = count.saturating_mul(each_ms).saturating_mul(1000);
    scaled.checked_div(member_ms).unwrap_or(0)
}

impl Figure {
    /// All of them, in order.
    pub(crate) const ALL: [Figure; FIGURES] = [
        Figure::Start,
        Figure::Median(Stage::Suspected),
        Figure::Median(Stage::Confirmed),
        Figure::Median(Stage::Failed),
        Figure::Median(Stage::Alive),
        Figure::Suspicions,
        Figure::Confirms,
        Figure::Datagrams,
        Figure::Bytes,
        Figure::Saves,
    ];

    /// Those that are rates.
    pub(crate) const RATES: [Figure; 5] = [
        Figure::Suspicions,
        Figure::Confirms,
        Figure::Datagrams,
        Figure::Bytes,
        Figure::Saves,
    ];

    /// Its name.
    pub(crate) fn text(self) -> &'static str {
        match self {
            Figure::Start => "each knows all",
            Figure::Median(stage) => stage.text(),
            Figure::Suspicions => "false suspicions by member and hour",
            Figure::Confirms => "false confirms by member and hour",
            Figure::Datagrams => "datagrams sent by member and second",
            Figure::Bytes => "bytes sent by member and second",
            Figure::Saves => "saves by member and hour",
        }
    }

    /// Its name with its unit.
    pub(crate) fn heading(self) -> &'static str {
        match self {
            Figure::Start => "seconds from the start until each knows all",
            Figure::Median(Stage::Suspected) => "seconds until one suspects who was killed",
            Figure::Median(Stage::Confirmed) => "seconds until one holds for failed who was killed",
            Figure::Median(Stage::Failed) => "seconds until all agree on a kill",
            Figure::Median(Stage::Alive) => "seconds until all agree on an opening again",
            _ => self.text(),
        }
    }

    /// Its name as a column.
    pub(crate) fn column(self) -> &'static str {
        match self {
            Figure::Start => "started_s",
            Figure::Median(Stage::Suspected) => "suspected_s",
            Figure::Median(Stage::Confirmed) => "confirmed_s",
            Figure::Median(Stage::Failed) => "agreed_failed_s",
            Figure::Median(Stage::Alive) => "agreed_alive_s",
            Figure::Suspicions => "false_suspicions_by_hour",
            Figure::Confirms => "false_confirms_by_hour",
            Figure::Datagrams => "datagrams_by_second",
            Figure::Bytes => "bytes_by_second",
            Figure::Saves => "saves_by_hour",
        }
    }

    /// Its number, in thousandths. Where no stage came, there is no median.
    pub(crate) fn of(self, alloc: Global, of: &Gathered) -> Result<Option<u64>, AllocError> {
        let time = of.time;
        Ok(match self {
            Figure::Start => of_hundred(of.sorted_starts(alloc)?.as_slice(), 50),
            Figure::Median(stage) => of_hundred(of.sorted(alloc, stage)?.as_slice(), 50),
            Figure::Suspicions => Some(rate(of.counts.suspicions, 3_600_000, time)),
            Figure::Confirms => Some(rate(of.counts.confirms, 3_600_000, time)),
            Figure::Datagrams => Some(rate(of.counts.datagrams, 1000, time)),
            Figure::Bytes => Some(rate(of.counts.bytes, 1000, time)),
            Figure::Saves => Some(rate(of.counts.saves, 3_600_000, time)),
        })
    }
    /// The numbers of all, in their order.
    pub(crate) fn all_of(alloc: Global, of: &Gathered) -> Result<Vec<Option<u64>>, AllocError> {
        let mut figures = Vec::new(alloc);
        for figure in Figure::ALL {
            figures.push(figure.of(alloc, of)?)?;
        }
        Ok(figures)
    }
}
