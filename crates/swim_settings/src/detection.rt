//! What settings mean for how soon a member that stopped is found.

ghost use Rattle.std.specs.Prelude.{◌≤◌};
ghost use Rattle.swim_rules.specs.declared.table.TheConstants.{ROWS_MAX};
ghost use Rattle.swim_settings.specs.Ranges.{AreInRange};

use crate::settings::RunSettings;
use std::alloc::{AllocError, Global};
use std::fmt::Write;
use swim_charts::Thousandths;
use swim_detect::{DetectionBound, mean_first_suspicion};

/// How many others a member of some groups knows.
const OTHERS: [usize; 4] = [3, 9, 49, 256];

/// Over the lines for groups.
const HEAD: &str =
    "# A member that stops, in seconds: when the first of the others suspects it, on the mean; when each of them suspects it,
# at the latest; and when each confirms it, at the latest. For the mean targets are drawn at random. The latest times are
# those of a member that nobody tells anything, and are longer where its ticks are late.
# members      first       each  confirmed
";

/// Milliseconds as seconds, in a column of a table.
fn write_seconds(alloc: Global, text: &mut String, ms: u64) -> Result<(), AllocError> {
    let seconds = format!(in alloc; "{}", Thousandths(ms))?;
    let seconds = seconds.as_str();
    write!(text, " {seconds:>10}")
}

/// The line of a group in which each knows so many others.
fn write_group(
    alloc: Global,
    text: &mut String,
    run: &RunSettings,
    others: usize,
) -> Result<(), AllocError>
    requires range { AreInRange run.now }
    requires few { others ≤ ROWS_MAX }
{
    let RunSettings {
        settings,
        tick_ms,
        ..
    } = run;
    let bound = DetectionBound::of(settings.period, settings.suspect, others);
    let members = others + 1;
    let mean = mean_first_suspicion(settings.period * tick_ms, others);
    write!(text, "# {members:>7}")?;
    write_seconds(alloc, text, mean)?;
    write_seconds(alloc, text, bound.suspected.saturating_mul(*tick_ms))?;
    write_seconds(alloc, text, bound.confirmed.saturating_mul(*tick_ms))?;
    write!(text, "\n")
}

/// Lines for groups of some sizes, as comments of a settings file.
pub(crate) fn write_detection(
    alloc: Global,
    text: &mut String,
    run: &RunSettings,
) -> Result<(), AllocError>
    requires { AreInRange run.now }
{
    text.push_str(HEAD)?;
    for others in OTHERS {
        write_group(alloc, text, run, others)?;
    }
    Ok(())
}
