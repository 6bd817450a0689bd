//! What was measured in some runs, together.

use crate::stage::Stage;
use std::alloc::{AllocError, Global};
use swim_simulate::{Kill, Measures, RunCounts};

/// What was measured in some runs, together. Times are in milliseconds.
#[derive(Drop)]
pub struct Gathered {
    /// How many kills.
    pub kills: u64,
    /// What was counted.
    pub(crate) counts: RunCounts,
    /// Milliseconds of members, all together.
    pub(crate) time: u64,
    started: Vec<u64>,
    suspected: Vec<u64>,
    confirmed: Vec<u64>,
    failed: Vec<u64>,
    alive: Vec<u64>,
}

/// How long a stage took, where it came.
fn times(
    alloc: Global,
    kills: &[Kill],
    stage: Stage,
    tick_ms: u64,
) -> Result<Vec<u64>, AllocError> {
    let mut times = Vec::new(alloc);
    for kill in kills {
        if let Some(ticks) = stage.ticks(kill) {
            times.push(ticks.saturating_mul(tick_ms))?;
        }
    }
    Ok(times)
}

/// How long it took until each knew all, if that came.
fn start_of(alloc: Global, whole: Option<u64>, tick_ms: u64) -> Result<Vec<u64>, AllocError> {
    let mut started = Vec::new(alloc);
    if let Some(ticks) = whole {
        started.push(ticks.saturating_mul(tick_ms))?;
    }
    Ok(started)
}

/// The same times, the shortest first.
fn sorted(alloc: Global, times: &[u64]) -> Result<Vec<u64>, AllocError> {
    let mut sorted = Vec::new(alloc);
    sorted.extend_from_slice(times)?;
    sorted.sort()?;
    Ok(sorted)
}

impl Gathered {
    /// No run yet.
    pub fn none(alloc: Global) -> Gathered {
        Gathered {
            kills: 0,
            counts: RunCounts::zero(),
            time: 0,
            started: Vec::new(alloc),
            suspected: Vec::new(alloc),
            confirmed: Vec::new(alloc),
            failed: Vec::new(alloc),
            alive: Vec::new(alloc),
        }
    }

    /// What was measured in a run, with ticks of so many milliseconds.
    pub fn of(alloc: Global, measures: &Measures, tick_ms: u64) -> Result<Gathered, AllocError> {
        let kills = measures.kills.as_slice();
        Ok(Gathered {
            kills: kills.len() as u64,
            counts: measures.counts,
            time: measures.counts.ticks.saturating_mul(tick_ms),
            started: start_of(alloc, measures.whole, tick_ms)?,
            suspected: times(alloc, kills, Stage::Suspected, tick_ms)?,
            confirmed: times(alloc, kills, Stage::Confirmed, tick_ms)?,
            failed: times(alloc, kills, Stage::Failed, tick_ms)?,
            alive: times(alloc, kills, Stage::Alive, tick_ms)?,
        })
    }

    /// Adds what was measured in other runs.
    pub fn add(&mut self, other: &Gathered) -> Result<(), AllocError> {
        self.kills = self.kills.saturating_add(other.kills);
        self.counts.add(&other.counts);
        self.time = self.time.saturating_add(other.time);
        self.started.extend_from_slice(other.started.as_slice())?;
        self.suspected
            .extend_from_slice(other.suspected.as_slice())?;
        self.confirmed
            .extend_from_slice(other.confirmed.as_slice())?;
        self.failed.extend_from_slice(other.failed.as_slice())?;
        self.alive.extend_from_slice(other.alive.as_slice())
    }

    /// How long a stage took, in the order of the kills.
    fn times(&self, stage: Stage) -> &[u64] {
        match stage {
            Stage::Suspected => self.suspected.as_slice(),
            Stage::Confirmed => self.confirmed.as_slice(),
            Stage::Failed => self.failed.as_slice(),
            Stage::Alive => self.alive.as_slice(),
        }
    }

    /// How long a stage took, the shortest first.
    pub fn sorted(&self, alloc: Global, stage: Stage) -> Result<Vec<u64>, AllocError> {
        sorted(alloc, self.times(stage))
    }

    /// How long it took from the start until each held each other for alive, the shortest first.
    pub fn sorted_starts(&self, alloc: Global) -> Result<Vec<u64>, AllocError> {
        sorted(alloc, self.started.as_slice())
    }
}
