//! The numbers of a member, as Prometheus reads them.

ghost use Rattle.std.specs.Prelude.{◌≡◌, ◌++◌, OnOk};
ghost use Rattle.swim_http.specs.Metrics.{answering_text, beside_text, count_kind, entries_text, has_kind, kind_sample, kind_samples, kinds_text, member_text, metrics_text, number_text, phase_flag, phase_sample, phases_text, quiet_text, text_of, up_text};

use crate::counted::write_counters;
use crate::gauges::{write_gauge, write_head, write_of};
use crate::members::{write_about, write_since, write_states};
use crate::seen::Seen;
use std::alloc::AllocError;
use swim_member::Phase;
use swim_news::{Rows, state_name};
use swim_node::Status;
use swim_wire::{Update, UpdateKind};

/// The metrics of members by state, and of the phase.
const MEMBERS: &str = "swim_members";

const PHASE: &str = "swim_phase";

/// Whether the row is of this kind.
fn has_kind(kind: UpdateKind, row: &Update) -> bool
    ensures { result ≡ has_kind kind row.now }
{
    kind == row.kind
}

/// How many rows are of this kind.
pub(crate) fn count_kind(kind: UpdateKind, rows: &[Update]) -> usize
    ensures { result ≡ count_kind kind rows.now }
{
    rows.iter().filter(|row| has_kind(kind, row)).count()
}

/// 1 where the phase is this one, and else 0.
fn phase_flag(is: Phase, phase: Phase) -> u64
    ensures { result ≡ phase_flag is phase }
{
    u64::from(is == phase)
}

/// Adds whether the member answers.
fn write_up(text: &mut String, group: Option<u64>, up: u64) -> Result<(), AllocError>
    ensures { OnOk result (text.new.bytes.items ≡ text.old.bytes.items ++ up_text group up) }
{
    write_gauge(text, "swim_up", "Whether the member answers.", group, up)
}

/// Adds how many rows are of a kind.
#[tactic(auto, unfolding(crate::specs::Metrics::kind_sample))]
fn write_kind(
    text: &mut String,
    group: Option<u64>,
    kind: UpdateKind,
    rows: &[Update],
) -> Result<(), AllocError>
    ensures { OnOk result (text.new.bytes.items
        ≡ text.old.bytes.items ++ kind_sample group kind rows.now) }
{
    let count = count_kind(kind, rows) as u64;
    write_of(text, MEMBERS, group, "state", state_name(kind), count)
}

/// Adds how many rows are of each kind.
pub(crate) fn write_counts(
    text: &mut String,
    group: Option<u64>,
    rows: &[Update],
) -> Result<(), AllocError>
    ensures { OnOk result (text.new.bytes.items
        ≡ text.old.bytes.items ++ kind_samples group rows.now) }
{
    write_kind(text, group, UpdateKind::Alive, rows)?;
    write_kind(text, group, UpdateKind::Suspect, rows)?;
    write_kind(text, group, UpdateKind::Confirm, rows)
}

/// Adds how many members are alive, suspected and failed.
fn write_kinds(text: &mut String, group: Option<u64>, rows: &[Update]) -> Result<(), AllocError>
    ensures { OnOk result (text.new.bytes.items
        ≡ text.old.bytes.items ++ kinds_text group rows.now) }
{
    let help = "Members by their state, the member itself among them.";
    write_head(text, MEMBERS, help)?;
    write_counts(text, group, rows)
}

/// Adds whether a phase is the member's.
fn write_phase(
    text: &mut String,
    group: Option<u64>,
    is: Phase,
    phase: Phase,
) -> Result<(), AllocError>
    ensures { OnOk result (text.new.bytes.items
        ≡ text.old.bytes.items ++ phase_sample group is phase) }
{
    let flag = phase_flag(is, phase);
    write_of(text, PHASE, group, "phase", is.name(), flag)
}

/// Adds which phase the member is in.
fn write_phases(text: &mut String, group: Option<u64>, phase: Phase) -> Result<(), AllocError>
    ensures { OnOk result (text.new.bytes.items
        ≡ text.old.bytes.items ++ phases_text group phase) }
{
    let help = "1 for the phase of the member, and 0 for the others.";
    write_head(text, PHASE, help)?;
    write_phase(text, group, Phase::Running, phase)?;
    write_phase(text, group, Phase::Left, phase)?;
    write_phase(text, group, Phase::Expelled, phase)
}

/// Adds the member's own number.
fn write_number(text: &mut String, group: Option<u64>, number: u64) -> Result<(), AllocError>
    ensures { OnOk result (text.new.bytes.items
        ≡ text.old.bytes.items ++ number_text group number) }
{
    let help = "The own incarnation number of the member.";
    write_gauge(text, "swim_own_number", help, group, number)
}

/// Adds how many entries the member's era has.
fn write_entries(text: &mut String, group: Option<u64>, entries: u64) -> Result<(), AllocError>
    ensures { OnOk result (text.new.bytes.items
        ≡ text.old.bytes.items ++ entries_text group entries) }
{
    let help = "Entries in the present era of the member.";
    write_gauge(text, "swim_era_entries", help, group, entries)
}

/// Adds for how long nothing changed.
fn write_quiet(text: &mut String, group: Option<u64>, quiet: u64) -> Result<(), AllocError>
    ensures { OnOk result (text.new.bytes.items
        ≡ text.old.bytes.items ++ quiet_text group quiet) }
{
    let help = "Seconds since this server last saw a change of the member or of its rows.";
    write_gauge(text, "swim_quiet_seconds", help, group, quiet)
}

/// Adds what is said of a member that answered so.
fn write_status(
    text: &mut String,
    group: Option<u64>,
    status: &Status,
    rows: &Rows,
) -> Result<(), AllocError>
    ensures { OnOk result (text.new.bytes.items
        ≡ text.old.bytes.items ++ answering_text group status.now rows.now) }
{
    write_up(text, group, 1)?;
    write_kinds(text, group, rows.as_slice())?;
    write_phases(text, group, status.phase)?;
    write_number(text, group, status.number)?;
    write_entries(text, group, status.length as u64)
}

/// Adds what is said of a member that answered beside its status.
fn write_beside(text: &mut String, group: Option<u64>, seen: &Seen) -> Result<(), AllocError>
    ensures { OnOk result (text.new.bytes.items
        ≡ text.old.bytes.items ++ beside_text group seen.now) }
{
    write_states(text, group, seen.rows.as_slice())?;
    write_counters(text, group, &seen.counters)?;
    write_about(text, group, &seen.about)?;
    write_since(text, group, seen.since)
}

/// Adds what is said of a member that answered so.
fn write_answering(
    text: &mut String,
    group: Option<u64>,
    status: &Status,
    seen: &Seen,
) -> Result<(), AllocError>
    ensures { OnOk result (text.new.bytes.items ≡ text.old.bytes.items
        ++ (answering_text group status.now seen.now.rows ++ beside_text group seen.now)) }
{
    write_status(text, group, status, &seen.rows)?;
    write_beside(text, group, seen)
}

/// Adds what is said of a member, whether it answered or not.
fn write_member(text: &mut String, group: Option<u64>, seen: &Seen) -> Result<(), AllocError>
    ensures { OnOk result (text.new.bytes.items
        ≡ text.old.bytes.items ++ member_text group seen.now.status seen.now) }
{
    match &seen.status {
        Some(status) => write_answering(text, group, status, seen),
        None => write_up(text, group, 0),
    }
}

/// Adds all that is said of a member of a group.
fn write_all(text: &mut String, group: Option<u64>, seen: &Seen) -> Result<(), AllocError>
    ensures { OnOk result (text.new.bytes.items
        ≡ text.old.bytes.items ++ text_of group seen.now) }
{
    write_member(text, group, seen)?;
    write_quiet(text, group, seen.quiet)
}

/// Adds the numbers of a member, as Prometheus reads them: whether it answers, and for how long nothing changed; and where it
/// answers, its rows by state and each by its member, its phase, its own number, how long its era is, what it has done, who it is,
/// whether it is alone, and since when it runs, as far as it tells that. Each has its group as a label, which is empty where it did not
/// tell that.
pub fn write_metrics(text: &mut String, seen: &Seen) -> Result<(), AllocError>
    ensures { OnOk result (text.new.bytes.items
        ≡ text.old.bytes.items ++ metrics_text seen.now) }
{
    write_all(text, seen.group(), seen)
}
