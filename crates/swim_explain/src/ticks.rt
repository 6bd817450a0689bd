//! What a tick says of a member.

ghost use Rattle.std.specs.Option.{option_to_list};
ghost use Rattle.std.specs.Prelude.{◌≡◌, ◌≢◌, ◌++◌, OnOk};
ghost use Rattle.swim_explain.specs.Facts.{blamed, by_tick, over, passed, unanswered};

use crate::fact::{Fact, add};
use crate::view::View;
use std::alloc::AllocError;
use swim_member::{Probe, Settings};
use swim_rules::Row;
use swim_wire::{Endpoint, UpdateKind};

/// That a row had stood too long, if it had.
fn passed(before: &Option<Row>, after: &Option<Row>) -> Option<Fact>
    ensures { option_to_list result ≡ passed before.now after.now }
{
    let Some(was) = before else {
        return None;
    };
    let since = was.since;
    let Some(is) = after else {
        return Some(Fact::Forgotten { since });
    };
    match (was.update.kind, is.update.kind) {
        (UpdateKind::Suspect, UpdateKind::Confirm) => Some(Fact::Confirmed {
            number: was.update.number,
            since,
        }),
        _ => None,
    }
}

/// That the member is suspected by the probe with this sequence, if it is.
fn blamed(seq: u32, before: &Option<Row>, after: &Option<Row>) -> Option<Fact>
    ensures { option_to_list result ≡ blamed seq before.now after.now }
{
    let (Some(was), Some(is)) = (before, after) else {
        return None;
    };
    match (was.update.kind, is.update.kind) {
        (UpdateKind::Alive, UpdateKind::Suspect) => Some(Fact::Suspected {
            number: is.update.number,
            seq,
        }),
        _ => None,
    }
}

/// The sequence of a probe of the member whose period ended, and nobody had answered it.
fn over(who: Endpoint, period: u64, now: u64, probe: &Option<Probe>) -> Option<u32>
    requires { period ≢ 0 }
    ensures { result ≡ over who period now probe.now }
{
    let Some(probe) = probe else {
        return None;
    };
    if probe.target == who && !probe.answered && now % period == 0 {
        return Some(probe.seq);
    }
    None
}

/// That nobody answered this probe, and what came of it.
fn tell_unanswered(
    facts: &mut Vec<Fact>,
    before: &View,
    after: &View,
    probe: Option<u32>,
) -> Result<(), AllocError>
    ensures { OnOk result (facts.new.items
        ≡ facts.old.items ++ unanswered before.now after.now probe) }
{
    let Some(seq) = probe else {
        return Ok(());
    };
    add(facts, &Some(Fact::Unanswered { seq }))?;
    add(facts, &blamed(seq, &before.row, &after.row))
}

/// What a tick that counted says of the member.
pub(crate) fn tell_tick(
    facts: &mut Vec<Fact>,
    settings: &Settings,
    who: Endpoint,
    before: &View,
    after: &View,
) -> Result<(), AllocError>
    requires { settings.now.period ≢ 0 }
    ensures { OnOk result (facts.new.items
        ≡ facts.old.items ++ by_tick settings.now who before.now after.now) }
{
    add(facts, &passed(&before.row, &after.row))?;
    let probe = over(who, settings.period, after.time, &before.probe);
    tell_unanswered(facts, before, after, probe)
}
