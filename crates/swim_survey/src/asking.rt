//! `swim simulate`: runs the plan of a file, and prints what was measured.

use crate::fault::AskedFault;
use crate::files::Made;
use crate::pictures::draw_runs;
use crate::rows::HEAD;
use crate::runs::run_all;
use crate::series::Series;
use crate::sweep::Sweep;
use crate::sweeping::{check_plans, run_sweep};
use crate::table::report;
use std::fs::{self, File};
use std::io::Stderr;
use std::rt::Files;
use swim_plan::Plan;

/// What is asked for.
#[derive(Clone, Copy, Debug, PartialEq, Eq)]
pub struct Asked<'a> {
    /// The path of the plan; without one, each key has its default.
    pub plan: Option<&'a str>,
    /// The seed of the first run. Each run has the next one.
    pub seed: u64,
    /// How many runs, of each plan.
    pub runs: u64,
    /// The path of a file for the kills, a line each, or for the table of a sweep.
    pub csv: Option<&'a str>,
    /// The path of a file for a picture.
    pub svg: Option<&'a str>,
    /// The keys and numbers of a sweep.
    pub sweep: Option<&'a str>,
}

/// The plan of a file.
fn plan_at<R: Files<File = File> + AllocGlobal>(
    rt: &R,
    path: Option<&str>,
) -> Result<Plan, AskedFault> {
    let Some(path) = path else {
        return Ok(Plan::default());
    };
    let bytes = fs::read(rt, path)?;
    match Plan::read(rt.alloc(), bytes.as_slice()) {
        Ok(plan) => Ok(plan),
        Err(refusal) => Err(AskedFault::of_plan(bytes.as_slice(), refusal)),
    }
}

/// Runs a plan.
fn answer_runs<R: Files<File = File> + AllocGlobal>(
    rt: &R,
    asked: &Asked<'_>,
    plan: &Plan,
    terminal: Option<Stderr>,
) -> Result<String, AskedFault> {
    let mut made = Made::new(rt, asked.csv, asked.svg)?;
    made.write_lines(HEAD)?;
    let mut series = Series::on(terminal, asked.seed, asked.runs, 1);
    let runs = run_all(rt.alloc(), plan, &mut series, &mut made);
    series.end();
    let runs = runs?;
    let text = report(rt.alloc(), plan, asked.seed, &runs)?;
    if made.has_picture() {
        let picture = draw_runs(rt.alloc(), plan, asked.seed, runs)?;
        made.write_picture(picture.as_str())?;
    }
    Ok(text)
}

/// Runs the plans of a sweep.
fn answer_sweep<R: Files<File = File> + AllocGlobal>(
    rt: &R,
    asked: &Asked<'_>,
    plan: &Plan,
    words: &str,
    terminal: Option<Stderr>,
) -> Result<String, AskedFault> {
    let sweep = match Sweep::read(rt.alloc(), words) {
        Ok(sweep) => sweep,
        Err(refusal) => return Err(AskedFault::of_sweep(refusal)),
    };
    check_plans(rt.alloc(), plan, &sweep)?;
    let mut made = Made::new(rt, asked.csv, asked.svg)?;
    let mut series = Series::on(terminal, asked.seed, asked.runs, sweep.count() as u64);
    let table = run_sweep(rt.alloc(), plan, &sweep, &mut series, &mut made);
    series.end();
    table
}

/// Does what is asked for, and gives what to print. A refused plan or sweep leaves no file. A terminal, if there is one, is told how
/// far the runs are, and has nothing of it in the end.
pub fn answer<R: Files<File = File> + AllocGlobal>(
    rt: &R,
    asked: &Asked<'_>,
    terminal: Option<Stderr>,
) -> Result<String, AskedFault> {
    let plan = plan_at(rt, asked.plan)?;
    match asked.sweep {
        Some(words) => answer_sweep(rt, asked, &plan, words, terminal),
        None => answer_runs(rt, asked, &plan, terminal),
    }
}
