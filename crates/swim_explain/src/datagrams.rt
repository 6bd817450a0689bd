//! What a datagram that came says of a member.

ghost use Rattle.std.specs.Option.{option_to_list};
ghost use Rattle.std.specs.Prelude.{◌≡◌, ◌++◌, ◌∷◌, [], IfOk, OnOk};
ghost use Rattle.swim_rules.specs.Rows.{heard_as};
ghost use Rattle.swim_explain.specs.Facts.{answered, by_datagram, came, row_with, told, told_itself, told_of};
ghost use Rattle.swim_explain.specs.declared.fact.Fact.TheVariants as fact;

use crate::fact::{Fact, add};
use crate::view::View;
use std::alloc::AllocError;
use swim_member::{Probe, Settings};
use swim_rules::{Heard, Row, overrides};
use swim_wire::{Datagram, Endpoint, Rules, Update, UpdateKind};

/// The table's answer to an update about a member with this row.
fn answer_to(rules: Rules, row: &Option<Row>, full: bool, update: &Update) -> Heard
    ensures { result ≡ heard_as rules row.now full update.now }
{
    match row {
        Some(old) if overrides(update, &old.update, rules) => Heard::Accepted,
        Some(_) => Heard::Kept,
        None if update.kind == UpdateKind::Confirm => Heard::Unknown,
        None if full => Heard::Full,
        None => Heard::Accepted,
    }
}

/// The row after an update with this answer.
fn row_with(heard: Heard, old: &Option<Row>, new: Row) -> Option<Row>
    ensures { result ≡ row_with heard old.now new }
{
    match heard {
        Heard::Accepted => Some(new),
        _ => *old,
    }
}

/// That a datagram came from the member, if it did.
fn came(who: Endpoint, datagram: &Datagram) -> Option<Fact>
    ensures { option_to_list result ≡ came who datagram.now }
{
    if datagram.sender != who {
        return None;
    }
    Some(Fact::Came {
        kind: datagram.kind,
        seq: datagram.seq,
    })
}

/// How a table met the updates of a datagram about one member.
#[derive(Drop)]
struct Hearing {
    /// Who told them.
    by: Endpoint,
    /// By which rules one overrides another.
    rules: Rules,
    /// Whether there is no room for a row.
    full: bool,
    /// The ticks that counted.
    tick: u64,
}

/// An update about another member, which had this row before, and the row that it has then.
fn tell_update(
    facts: &mut Vec<Fact>,
    hearing: &Hearing,
    row: &Option<Row>,
    update: &Update,
) -> Result<Option<Row>, AllocError>
    ensures row { IfOk result (λ r. r
        ≡ row_with (heard_as hearing.now.rules row.now hearing.now.full update.now) row.now
        (record { update = update.now; since = hearing.now.tick })) }
    ensures told { OnOk result (facts.new.items ≡ facts.old.items
        ++ fact.Told hearing.now.by update.now row.now
        (heard_as hearing.now.rules row.now hearing.now.full update.now) ∷ []) }
{
    let became = answer_to(hearing.rules, row, hearing.full, update);
    let fact = Fact::Told {
        by: hearing.by,
        update: *update,
        was: *row,
        became,
    };
    add(facts, &Some(fact))?;
    let new = Row {
        update: *update,
        since: hearing.tick,
    };
    Ok(row_with(became, row, new))
}

/// The updates about another member, which had this row before.
fn tell_told(
    facts: &mut Vec<Fact>,
    who: Endpoint,
    hearing: &Hearing,
    before: Option<Row>,
    updates: &[Update],
) -> Result<(), AllocError>
    ensures { OnOk result (facts.new.items ≡ facts.old.items
        ++ told hearing.now.rules who hearing.now.by hearing.now.full hearing.now.tick before
        updates.now) }
{
    let mut row = before;
    for update in updates {
        if update.who == who {
            row = tell_update(facts, hearing, &row, update)?;
        }
    }
    Ok(())
}

/// The updates about the member itself.
fn tell_itself(
    facts: &mut Vec<Fact>,
    who: Endpoint,
    by: Endpoint,
    updates: &[Update],
) -> Result<(), AllocError>
    ensures { OnOk result (facts.new.items
        ≡ facts.old.items ++ told_itself who by updates.now) }
{
    for update in updates {
        if update.who == who {
            let update = *update;
            add(facts, &Some(Fact::ToldItself { by, update }))?;
        }
    }
    Ok(())
}

/// The updates about the member.
fn tell_updates(
    facts: &mut Vec<Fact>,
    settings: &Settings,
    who: Endpoint,
    by: Endpoint,
    before: &View,
    after: &View,
    updates: &[Update],
) -> Result<(), AllocError>
    ensures { OnOk result (facts.new.items
        ≡ facts.old.items ++ told_of settings.now who by before.now after.now updates.now) }
{
    if who == settings.me {
        return tell_itself(facts, who, by, updates);
    }
    let hearing = Hearing {
        by,
        rules: settings.rules_of(),
        full: after.row.is_none(),
        tick: before.time,
    };
    tell_told(facts, who, &hearing, before.row, updates)
}

/// That the probe of the member was answered, if it was.
fn answered(
    who: Endpoint,
    by: Endpoint,
    before: &Option<Probe>,
    after: &Option<Probe>,
) -> Option<Fact>
    ensures { option_to_list result ≡ answered who by before.now after.now }
{
    let (Some(was), Some(is)) = (before, after) else {
        return None;
    };
    if was.target != who || was.answered || !is.answered {
        return None;
    }
    Some(Fact::Answered { by, seq: was.seq })
}

/// What a datagram that was accepted says of the member.
pub(crate) fn tell_datagram(
    facts: &mut Vec<Fact>,
    settings: &Settings,
    who: Endpoint,
    before: &View,
    after: &View,
    datagram: &Datagram,
) -> Result<(), AllocError>
    ensures { OnOk result (facts.new.items
        ≡ facts.old.items ++ by_datagram settings.now who before.now after.now datagram.now) }
{
    let by = datagram.sender;
    add(facts, &came(who, datagram))?;
    let updates = datagram.updates.as_slice();
    tell_updates(facts, settings, who, by, before, after, updates)?;
    add(facts, &answered(who, by, &before.probe, &after.probe))
}
