//! Runs of one plan, each by the next seed.

use crate::broken::broken;
use crate::fault::AskedFault;
use crate::figures::{FIGURES, Figure};
use crate::files::Made;
use crate::gathered::Gathered;
use crate::rows::write_rows;
use crate::series::Series;
use std::alloc::{AllocError, Global};
use swim_charts::Tally;
use swim_plan::{Plan, PlanKey};
use swim_simulate::{Done, simulate};

/// At how many moments of a run a picture shows what is held.
const MOMENTS: u64 = 300;

/// What was measured in runs of one plan.
#[derive(Drop)]
pub struct Runs {
    /// How many runs.
    pub(crate) count: u64,
    /// All of them together.
    pub(crate) all: Gathered,
    /// What was held of each member in the first run.
    pub(crate) history: Vec<Tally>,
    /// Run by run, and of each run figure by figure.
    figures: Vec<Option<u64>>,
}

impl Runs {
    /// No run yet.
    fn none(alloc: Global) -> Runs {
        Runs {
            count: 0,
            all: Gathered::none(alloc),
            history: Vec::new(alloc),
            figures: Vec::new(alloc),
        }
    }

    /// Adds a run.
    fn add(&mut self, alloc: Global, plan: &Plan, done: Done) -> Result<(), AllocError> {
        let gathered = Gathered::of(alloc, &done.measures, plan.get(PlanKey::TickMs))?;
        let figures = Figure::all_of(alloc, &gathered)?;
        self.figures.extend_from_slice(figures.as_slice())?;
        if self.count == 0 {
            self.history = done.history;
        }
        self.count = self.count.saturating_add(1);
        self.all.add(&gathered)
    }

    /// The numbers of a figure in the runs, where it has one.
    pub(crate) fn values_of(&self, alloc: Global, place: usize) -> Result<Vec<u64>, AllocError> {
        let mut values = Vec::new(alloc);
        for row in self.figures.as_slice().chunks(FIGURES) {
            if let Some(Some(value)) = row.get(place) {
                values.push(*value)?;
            }
        }
        Ok(values)
    }
}

/// A run of a plan. One that breaks the law is made smaller, and refused.
fn one(alloc: Global, plan: &Plan, seed: u64, moments: u64) -> Result<Done, AskedFault> {
    let done = simulate(alloc, plan, seed, moments)?;
    if done.stop.is_some() {
        return Err(broken(alloc, plan, seed)?);
    }
    Ok(done)
}

/// The runs of a plan. The lines of a run go into the file when it is over.
pub fn run_all(
    alloc: Global,
    plan: &Plan,
    series: &mut Series,
    made: &mut Made,
) -> Result<Runs, AskedFault> {
    let mut all = Runs::none(alloc);
    for run in 0..series.runs {
        series.begin_run();
        let is_drawn = run == 0 && made.has_picture();
        let moments = if is_drawn { MOMENTS } else { 0 };
        let seed = series.seed.saturating_add(run);
        let done = one(alloc, plan, seed, moments)?;
        let rows = write_rows(alloc, plan, seed, done.measures.kills.as_slice())?;
        made.write_lines(rows.as_str())?;
        all.add(alloc, plan, done)?;
    }
    Ok(all)
}
