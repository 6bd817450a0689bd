//! The counters of a member, as Prometheus reads them.

ghost use Rattle.std.specs.Prelude.{◌≡◌, ◌++◌, OnOk};
ghost use Rattle.swim_shell.specs.Counters.{lines_from};
ghost use Rattle.swim_http.specs.Metrics.{counter_help, counter_metric, told_text, done_text, note_sample, notes_head, total, total_head, total_sample};

use crate::gauges::{GroupLabel, write_of};
use std::alloc::AllocError;
use std::fmt::Write;
use swim_shell::{Counter, Counters, NOTES_FROM};

/// What a counter of eras or of calls is; those of notes have one text together.
fn help_of(counter: Counter) -> &'static str
    ensures { result.now ≡ counter_help counter }
{
    match counter {
        Counter::Eras => "Eras that ended.",
        Counter::NumberSaves => "Own numbers that were saved in eras that ended.",
        Counter::PeerSaves => "Saves of the known peers at the end of an era.",
        Counter::PeerSavesFailed => "Saves of the known peers at the end of an era that failed.",
        Counter::Entries => "Answered calls of the member, each one entry.",
        Counter::Ticks => "Ticks.",
        Counter::Joins => "Calls that were to join a member.",
        Counter::Received => "Datagrams that came.",
        Counter::ReceiveFailures => "Receives that failed.",
        Counter::Sent => "Datagrams that were taken for sending.",
        Counter::Lost => "Datagrams that were not taken for sending, or not sent.",
        Counter::Refutations => "Suspicions of itself that the member refuted by a greater number.",
        Counter::Noted(_) => "",
    }
}

/// Adds what stands before the number of a metric that never falls while the member runs, with its name in short.
#[tactic(auto, unfolding(crate::specs::Metrics::total_head))]
fn write_total_head(text: &mut String, name: &str, help: &str) -> Result<(), AllocError>
    ensures { OnOk result (text.new.bytes.items
        ≡ text.old.bytes.items ++ total_head name.now help.now) }
{
    write!(
        text,
        "# HELP swim_{name}_total {help}\n# TYPE swim_{name}_total counter\n"
    )
}

/// Adds the number of such a metric.
#[tactic(auto, unfolding(crate::specs::Metrics::total_sample))]
fn write_total_sample(
    text: &mut String,
    name: &str,
    group: Option<u64>,
    number: u64,
) -> Result<(), AllocError>
    ensures { OnOk result (text.new.bytes.items
        ≡ text.old.bytes.items ++ total_sample name.now group number) }
{
    let of = GroupLabel { number: group };
    write!(text, "swim_{name}_total{{group=\"{of}\"}} {number}\n")
}

/// Adds such a metric.
fn write_total(
    text: &mut String,
    name: &str,
    help: &str,
    group: Option<u64>,
    number: u64,
) -> Result<(), AllocError>
    ensures { OnOk result (text.new.bytes.items
        ≡ text.old.bytes.items ++ total name.now help.now group number) }
{
    write_total_head(text, name, help)?;
    write_total_sample(text, name, group, number)
}

/// Adds the metric of a counter of eras or of calls.
fn write_metric(
    text: &mut String,
    group: Option<u64>,
    counter: Counter,
    number: u64,
) -> Result<(), AllocError>
    ensures { OnOk result (text.new.bytes.items
        ≡ text.old.bytes.items ++ counter_metric group counter number) }
{
    write_total(text, counter.name(), help_of(counter), group, number)
}

/// Adds how many notes there were of a kind.
fn write_note(
    text: &mut String,
    group: Option<u64>,
    counter: Counter,
    number: u64,
) -> Result<(), AllocError>
    ensures { OnOk result (text.new.bytes.items
        ≡ text.old.bytes.items ++ note_sample group counter number) }
{
    let name = counter.name();
    write_of(text, "swim_notes_total", group, "note", name, number)
}

/// Adds the metrics of eras and of calls.
fn write_calls(text: &mut String, group: Option<u64>, counts: &[u64]) -> Result<(), AllocError>
    ensures { OnOk result (text.new.bytes.items
        ≡ text.old.bytes.items ++ lines_from (counter_metric group) 0 counts.now) }
{
    for (place, count) in counts.iter().enumerate() {
        write_metric(text, group, Counter::at(place), *count)?;
    }
    Ok(())
}

/// Adds the metrics of notes, by their kinds.
fn write_notes(text: &mut String, group: Option<u64>, counts: &[u64]) -> Result<(), AllocError>
    ensures { OnOk result (text.new.bytes.items
        ≡ text.old.bytes.items ++ lines_from (note_sample group) NOTES_FROM counts.now) }
{
    for (place, count) in counts.iter().enumerate() {
        write_note(text, group, Counter::at(NOTES_FROM + place), *count)?;
    }
    Ok(())
}

/// Adds what stands before the counts of notes.
#[tactic(auto, unfolding(crate::specs::Metrics::notes_head))]
fn write_notes_head(text: &mut String) -> Result<(), AllocError>
    ensures { OnOk result (text.new.bytes.items ≡ text.old.bytes.items ++ notes_head) }
{
    text.push_str(
        "# HELP swim_notes_total Notes of the member by their kind.\n# TYPE swim_notes_total counter\n",
    )
}

/// Adds what is said of all that a member did.
fn write_done(text: &mut String, group: Option<u64>, counters: &Counters) -> Result<(), AllocError>
    ensures { OnOk result (text.new.bytes.items
        ≡ text.old.bytes.items ++ done_text group counters.now.values) }
{
    write_calls(text, group, &counters.values[..NOTES_FROM])?;
    write_notes_head(text)?;
    write_notes(text, group, &counters.values[NOTES_FROM..])
}

/// Adds the same, where the member told what it did.
pub(crate) fn write_counters(
    text: &mut String,
    group: Option<u64>,
    counters: &Option<Counters>,
) -> Result<(), AllocError>
    ensures { OnOk result (text.new.bytes.items
        ≡ text.old.bytes.items ++ told_text group counters.now) }
{
    match counters {
        Some(counters) => write_done(text, group, counters),
        None => Ok(()),
    }
}
