//! The runs of a sweep, and their table.

use crate::fault::AskedFault;
use crate::figures::Figure;
use crate::files::Made;
use crate::pictures::draw_sweep;
use crate::runs::run_all;
use crate::series::Series;
use crate::sweep::Sweep;
use std::alloc::{AllocError, Global};
use std::fmt::Write;
use swim_charts::Thousandths;
use swim_plan::Plan;

/// The first line: the keys, and the figures.
fn head(alloc: Global, sweep: &Sweep) -> Result<String, AllocError> {
    let mut text = String::new(alloc);
    for axis in sweep.axes.as_slice() {
        let key = axis.key;
        write!(text, "{key},")?;
    }
    for (place, figure) in Figure::ALL.iter().enumerate() {
        if place > 0 {
            text.push_str(",")?;
        }
        text.push_str(figure.column())?;
    }
    text.push_str("\n")?;
    Ok(text)
}

/// The line of a plan: the numbers of the keys, and the figures. One that did not come is left out.
fn line(alloc: Global, choice: &[u64], figures: &[Option<u64>]) -> Result<String, AllocError> {
    let mut text = String::new(alloc);
    for number in choice {
        write!(text, "{number},")?;
    }
    for (place, figure) in figures.iter().enumerate() {
        if place > 0 {
            text.push_str(",")?;
        }
        if let Some(number) = figure {
            write!(text, "{}", Thousandths(*number))?;
        }
    }
    text.push_str("\n")?;
    Ok(text)
}

/// The plan of a sweep with these numbers.
fn plan_with(plan: &Plan, sweep: &Sweep, choice: &[u64]) -> Result<Plan, AskedFault> {
    sweep.plan(plan, choice).map_err(AskedFault::of_sweep)
}

/// Whether each plan of the sweep is one.
pub(crate) fn check_plans(alloc: Global, plan: &Plan, sweep: &Sweep) -> Result<(), AskedFault> {
    for place in 0..sweep.count() {
        let choice = sweep.choice(alloc, place)?;
        plan_with(plan, sweep, choice.as_slice())?;
    }
    Ok(())
}

/// The figures of the runs of a plan.
fn figures_of(
    alloc: Global,
    plan: &Plan,
    series: &mut Series,
) -> Result<Vec<Option<u64>>, AskedFault> {
    let done = run_all(alloc, plan, series, &mut Made::none())?;
    Ok(Figure::all_of(alloc, &done.all)?)
}

/// The runs of each plan of a sweep, and their table, a line a plan. A line goes into the file as soon as it is known.
pub fn run_sweep(
    alloc: Global,
    plan: &Plan,
    sweep: &Sweep,
    series: &mut Series,
    made: &mut Made,
) -> Result<String, AskedFault> {
    let mut table = head(alloc, sweep)?;
    let mut cells = Vec::new(alloc);
    made.write_lines(table.as_str())?;
    for place in 0..sweep.count() {
        let choice = sweep.choice(alloc, place)?;
        let plan = plan_with(plan, sweep, choice.as_slice())?;
        let figures = figures_of(alloc, &plan, series)?;
        let line = line(alloc, choice.as_slice(), figures.as_slice())?;
        made.write_lines(line.as_str())?;
        table.push_str(line.as_str())?;
        cells.extend_from_slice(figures.as_slice())?;
    }
    if made.has_picture() {
        let picture = draw_sweep(alloc, sweep, cells.as_slice())?;
        made.write_picture(picture.as_str())?;
    }
    Ok(table)
}
