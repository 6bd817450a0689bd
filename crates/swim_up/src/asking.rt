//! What a running member of the group knows of a member that begins.

use std::alloc::Global;
use std::thread;
use std::time::Duration;
use swim_ask::{MemberReport, look};
use swim_exit::{Exit, Failure};
use swim_wire::{Endpoint, Rules};

/// How long a member is left alone until it is asked again whose era was full, in milliseconds, and how often it is asked.
const PAUSE_MILLIS: u64 = 100;

const LOOKS: u32 = 50;

/// By how much a new state file begins above the greatest number that is known: the member may have said greater ones that nobody told.
const MARGIN: u64 = 1_000_000;

/// What a running member told.
#[derive(Clone, Copy, Debug)]
pub(crate) struct Asked {
    /// The number of its group.
    pub(crate) group: u64,
    /// The number that it holds of the member that begins; none where it has no row of it.
    pub(crate) number: Option<u64>,
}

impl Asked {
    /// The ceiling above all that the member may have said, by what was told.
    pub(crate) fn ceiling(self) -> u64 {
        self.number.unwrap_or(0).saturating_add(MARGIN)
    }
}

/// The exit where the member at a control socket does not tell what it was asked for, and why.
fn untold(alloc: Global, at: &str, why: &str) -> Failure {
    Failure::about(alloc, Exit::Answer, format_args!("--ask {at}: {why}"))
}

/// The number that a report has of a member; none while its era is full.
fn number_in(report: &MemberReport, me: Endpoint) -> Option<Option<u64>> {
    let rows = report.rows.as_ref()?;
    let row = rows.as_slice().iter().copied().find(|row| row.who == me);
    Some(row.map(|row| row.number))
}

/// What a report says of a member that begins; none where it has to be asked again.
fn told_by(
    alloc: Global,
    at: &str,
    report: &MemberReport,
    me: Endpoint,
) -> Result<Option<Asked>, Failure> {
    let Some(about) = report.about else {
        let why = "it is of a version that does not tell its group: give --group and --ceiling";
        return Err(untold(alloc, at, why));
    };
    if about.who.rules == Rules::One {
        let why =
            "it lives by `rules` 1, and new settings have 2: make the files by `swim init` and by hand";
        return Err(untold(alloc, at, why));
    }
    Ok(number_in(report, me).map(|number| Asked {
        group: about.who.group,
        number,
    }))
}

/// Asks the member whose control socket a word names, which is not yet judged.
pub(crate) fn ask(rt: &HostRuntime, at: &str, me: Endpoint) -> Result<Asked, Failure> {
    let alloc = rt.alloc();
    for _ in 0..LOOKS {
        let Some(report) = look(rt, at) else {
            return Err(untold(alloc, at, "no member answers at this control socket"));
        };
        if let Some(asked) = told_by(alloc, at, &report, me)? {
            return Ok(asked);
        }
        thread::sleep(rt, Duration::from_millis(PAUSE_MILLIS));
    }
    Err(untold(alloc, at, "its era was full each time: ask again"))
}
