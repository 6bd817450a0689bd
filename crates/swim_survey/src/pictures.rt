//! Pictures of runs and of sweeps.

use crate::figures::{FIGURES, Figure};
use crate::runs::Runs;
use crate::stage::Stage;
use crate::sweep::Sweep;
use crate::table::write_subject;
use std::alloc::{AllocError, Global};
use std::fmt::Write;
use swim_charts::{Curve, Drawing, Tiles, Views};
use swim_plan::{Plan, PlanKey};

/// How long the stages took.
fn curves(alloc: Global, runs: &Runs) -> Result<Vec<Curve>, AllocError> {
    let mut curves = Vec::new(alloc);
    for stage in Stage::ALL {
        curves.push(Curve {
            name: stage.text(),
            sorted: runs.all.sorted(alloc, stage)?,
        })?;
    }
    Ok(curves)
}

/// What was held of each member in the first run, and how long the stages took in all.
pub fn draw_runs(alloc: Global, plan: &Plan, seed: u64, runs: Runs) -> Result<String, AllocError> {
    let mut drawing = Drawing::new(alloc);
    let mut subject = String::new(alloc);
    write_subject(&mut subject, plan, seed, 1)?;
    write!(subject, ": what the others that run hold of each member")?;
    drawing.head(subject.as_str())?;
    let curves = curves(alloc, &runs)?;
    let views = Views {
        members: plan.get(PlanKey::Members) as usize,
        tallies: runs.history,
    };
    let time = plan.get(PlanKey::Minutes).saturating_mul(60_000);
    drawing.views(alloc, &views, time)?;
    let kills = runs.all.kills;
    let count = runs.count;
    let head = format!(in alloc;
        "Seconds from {kills} kills, and from openings again, in {count} runs"
    )?;
    drawing.head(head.as_str())?;
    drawing.curves(alloc, curves.as_slice())?;
    drawing.end(alloc)
}

/// The names of columns: the key that was said last, with each of its numbers.
fn columns(alloc: Global, sweep: &Sweep) -> Result<Vec<String>, AllocError> {
    let mut columns = Vec::new(alloc);
    if let Some(axis) = sweep.axes.last() {
        let key = axis.key;
        for number in axis.numbers.as_slice() {
            columns.push(format!(in alloc; "{key} {number}")?)?;
        }
    }
    Ok(columns)
}

/// The name of a row: all keys but the last, with their numbers in this plan.
fn row(alloc: Global, sweep: &Sweep, plan: usize) -> Result<String, AllocError> {
    let mut text = String::new(alloc);
    let choice = sweep.choice(alloc, plan)?;
    let named = sweep.axes.len().saturating_sub(1);
    for (axis, number) in sweep.axes.iter().zip(choice.as_slice()).take(named) {
        let key = axis.key;
        if !text.is_empty() {
            text.push_str(" ")?;
        }
        write!(text, "{key} {number}")?;
    }
    Ok(text)
}

/// The names of rows.
fn rows(alloc: Global, sweep: &Sweep, width: usize) -> Result<Vec<String>, AllocError> {
    let mut rows = Vec::new(alloc);
    let count = sweep.count().checked_div(width).unwrap_or(0);
    for place in 0..count {
        rows.push(row(alloc, sweep, place.saturating_mul(width))?)?;
    }
    Ok(rows)
}

/// The numbers of a figure, plan by plan.
fn cells_of(
    alloc: Global,
    cells: &[Option<u64>],
    place: usize,
) -> Result<Vec<Option<u64>>, AllocError> {
    let mut found = Vec::new(alloc);
    for figures in cells.chunks(FIGURES) {
        found.push(figures.get(place).copied().unwrap_or(None))?;
    }
    Ok(found)
}

/// A table of tiles for each figure. The numbers are those of the sweep, plan by plan, and of each plan figure by figure.
pub fn draw_sweep(
    alloc: Global,
    sweep: &Sweep,
    cells: &[Option<u64>],
) -> Result<String, AllocError> {
    let mut drawing = Drawing::new(alloc);
    for (place, figure) in Figure::ALL.iter().enumerate() {
        let columns = columns(alloc, sweep)?;
        let rows = rows(alloc, sweep, columns.len())?;
        let tiles = Tiles {
            columns,
            rows,
            cells: cells_of(alloc, cells, place)?,
        };
        drawing.head(figure.heading())?;
        drawing.tiles(alloc, &tiles)?;
    }
    drawing.end(alloc)
}
