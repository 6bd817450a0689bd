//! What was measured, as a table of text.

use crate::figures::Figure;
use crate::gathered::Gathered;
use crate::runs::Runs;
use crate::stage::Stage;
use std::alloc::{AllocError, Global};
use std::fmt::Write;
use swim_charts::{Thousandths, of_hundred, spread_of};
use swim_detect::{DetectionBound, mean_first_suspicion};
use swim_plan::{Plan, PlanKey};
use swim_simulate::RunCounts;

/// A cell of so many columns at least; a dash where there is no number.
fn write_cell(
    alloc: Global,
    text: &mut String,
    cell: Option<u64>,
    wide: usize,
) -> Result<(), AllocError> {
    match cell {
        Some(number) => {
            let cell = format!(in alloc; "{}", Thousandths(number))?;
            let cell = cell.as_str();
            write!(text, "{cell:>wide$}")
        }
        None => write!(text, "{:>wide$}", "-"),
    }
}

/// A line of times, in seconds: the least, the median, the 99th of 100, the greatest, and how many there are.
fn write_times(
    alloc: Global,
    text: &mut String,
    name: &str,
    sorted: &[u64],
) -> Result<(), AllocError> {
    write!(text, "{name:<14}")?;
    for percent in [0, 50, 99, 100] {
        write_cell(alloc, text, of_hundred(sorted, percent), 11)?;
    }
    let count = sorted.len();
    writeln!(text, "{count:>7}")
}

/// The line over times.
fn write_head(text: &mut String) -> Result<(), AllocError> {
    writeln!(
        text,
        "                    least     median  99 of 100   greatest     of"
    )
}

/// The lines of the start.
fn write_start(alloc: Global, text: &mut String, all: &Gathered) -> Result<(), AllocError> {
    writeln!(text, "seconds from the start until")?;
    write_head(text)?;
    let sorted = all.sorted_starts(alloc)?;
    write_times(alloc, text, "each knows all", sorted.as_slice())
}

/// The lines of the kills.
fn write_kills(alloc: Global, text: &mut String, all: &Gathered) -> Result<(), AllocError> {
    let count = all.kills;
    writeln!(text, "seconds from one of {count} kills to")?;
    write_head(text)?;
    for (stage, name) in [
        (Stage::Suspected, "suspected"),
        (Stage::Confirmed, "confirmed"),
        (Stage::Failed, "all agree"),
    ] {
        let sorted = all.sorted(alloc, stage)?;
        write_times(alloc, text, name, sorted.as_slice())?;
    }
    let back = all.counts.restarts;
    writeln!(text, "seconds from one of {back} openings again to")?;
    write_head(text)?;
    let sorted = all.sorted(alloc, Stage::Alive)?;
    write_times(alloc, text, "all agree", sorted.as_slice())
}

/// A line: a name, and a time in seconds.
fn write_seconds(alloc: Global, text: &mut String, name: &str, ms: u64) -> Result<(), AllocError> {
    write!(text, "{name:<40}")?;
    write_cell(alloc, text, Some(ms), 16)?;
    writeln!(text)
}

/// The lines of what is to be expected of a kill, and of the law of detection. A member that is alone has none.
fn write_law(alloc: Global, text: &mut String, plan: &Plan) -> Result<(), AllocError> {
    let others = plan.get(PlanKey::Members) as usize - 1;
    if others == 0 {
        return Ok(());
    }
    let (period, suspect) = (plan.get(PlanKey::Period), plan.get(PlanKey::Suspect));
    let tick_ms = plan.get(PlanKey::TickMs);
    let bound = DetectionBound::of(period, suspect, others);
    let mean = mean_first_suspicion(period * tick_ms, others);
    write_seconds(alloc, text, "suspected by one, on the mean", mean)?;
    let suspected = bound.suspected.saturating_mul(tick_ms);
    write_seconds(alloc, text, "suspected by each, at the latest", suspected)?;
    let confirmed = bound.confirmed.saturating_mul(tick_ms);
    write_seconds(alloc, text, "confirmed by each, at the latest", confirmed)
}

/// The lines of what is told by the time that the members ran.
fn write_rates(alloc: Global, text: &mut String, all: &Gathered) -> Result<(), AllocError> {
    for figure in Figure::RATES {
        let name = figure.text();
        write!(text, "{name:<40}")?;
        write_cell(alloc, text, figure.of(alloc, all)?, 16)?;
        writeln!(text)?;
    }
    Ok(())
}

/// A line: a name, and a count.
fn write_count(text: &mut String, name: &str, count: u64) -> Result<(), AllocError> {
    writeln!(text, "{name:<40}{count:>16}")
}

/// The lines of what is told as it was counted.
fn write_counts(text: &mut String, counts: &RunCounts) -> Result<(), AllocError> {
    write_count(text, "datagrams sent", counts.datagrams)?;
    write_count(text, "datagrams lost", counts.lost)?;
    write_count(text, "datagrams that came", counts.came)?;
    write_count(text, "killed members opened again", counts.restarts)?;
    write_count(text, "killed members not opened again", counts.gone)?;
    write_count(text, "members expelled", counts.expelled)?;
    write_count(text, "pauses", counts.pauses)
}

/// The lines of how far runs are apart: of each figure the least, the median and the greatest, and in how many runs it came.
fn write_spreads(alloc: Global, text: &mut String, runs: &Runs) -> Result<(), AllocError> {
    writeln!(text, "medians and rates of each run")?;
    writeln!(
        text,
        "                                              least     median   greatest     of"
    )?;
    for (place, figure) in Figure::ALL.iter().enumerate() {
        let values = runs.values_of(alloc, place)?;
        let count = values.len();
        let spread = spread_of(values)?;
        let name = figure.text();
        write!(text, "{name:<40}")?;
        write_cell(alloc, text, spread.map(|spread| spread.least), 11)?;
        write_cell(alloc, text, spread.map(|spread| spread.median), 11)?;
        write_cell(alloc, text, spread.map(|spread| spread.greatest), 11)?;
        writeln!(text, "{count:>7}")?;
    }
    Ok(())
}

/// The first line: what was simulated.
pub(crate) fn write_subject(
    text: &mut String,
    plan: &Plan,
    seed: u64,
    runs: u64,
) -> Result<(), AllocError> {
    let members = plan.get(PlanKey::Members);
    let minutes = plan.get(PlanKey::Minutes);
    write!(text, "{members} members, {minutes} minutes, seed {seed}")?;
    if runs > 1 {
        write!(text, ", {runs} runs")?;
    }
    Ok(())
}

/// The table of what was measured in so many runs by a plan, the first one with this seed.
pub fn report(alloc: Global, plan: &Plan, seed: u64, runs: &Runs) -> Result<String, AllocError> {
    let mut text = String::new(alloc);
    write_subject(&mut text, plan, seed, runs.count)?;
    writeln!(text)?;
    write_start(alloc, &mut text, &runs.all)?;
    write_kills(alloc, &mut text, &runs.all)?;
    write_law(alloc, &mut text, plan)?;
    write_rates(alloc, &mut text, &runs.all)?;
    write_counts(&mut text, &runs.all.counts)?;
    if plan.get(PlanKey::FailingSyncs) > 0 {
        write_count(&mut text, "saves that failed", runs.all.counts.failed_saves)?;
    }
    if runs.count > 1 {
        write_spreads(alloc, &mut text, runs)?;
    }
    Ok(text)
}
