//! Kills as comma-separated values.

use std::alloc::{AllocError, Global};
use std::fmt::Write;
use swim_plan::{Plan, PlanKey};
use swim_simulate::Kill;

/// The first line.
pub(crate) const HEAD: &str =
    "seed,member,killed_ms,suspected_ms,confirmed_ms,agreed_failed_ms,opened_again_ms,agreed_alive_ms\n";

/// A time in milliseconds after a comma; nothing where it did not come.
fn write_time(text: &mut String, tick_ms: u64, tick: Option<u64>) -> Result<(), AllocError> {
    match tick {
        Some(tick) => {
            let time = tick.saturating_mul(tick_ms);
            write!(text, ",{time}")
        }
        None => write!(text, ","),
    }
}

/// The line of a kill.
fn write_row(text: &mut String, seed: u64, tick_ms: u64, kill: &Kill) -> Result<(), AllocError> {
    let member = kill.who.saturating_add(1);
    write!(text, "{seed},{member}")?;
    write_time(text, tick_ms, Some(kill.tick))?;
    write_time(text, tick_ms, kill.suspected)?;
    write_time(text, tick_ms, kill.confirmed)?;
    write_time(text, tick_ms, kill.known)?;
    write_time(text, tick_ms, kill.back)?;
    write_time(text, tick_ms, kill.alive)?;
    writeln!(text)
}

/// The lines of the kills of a run. Members are counted from 1.
pub(crate) fn write_rows(
    alloc: Global,
    plan: &Plan,
    seed: u64,
    kills: &[Kill],
) -> Result<String, AllocError> {
    let mut text = String::new(alloc);
    let tick_ms = plan.get(PlanKey::TickMs);
    for kill in kills {
        write_row(&mut text, seed, tick_ms, kill)?;
    }
    Ok(text)
}
