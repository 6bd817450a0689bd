//! What the lines of a beginning say of a member.

ghost use Rattle.std.specs.Prelude.{◌≡◌, ◌^◌, ◌<◌, ◌≤◌, ◌++◌, ◌∷◌, [], length, List, Some, None, IfSome, IfNone, IfOk, IsOkAnd, ◌+◌};
ghost use Rattle.std.specs.Option.{SomeIff};
ghost use Rattle.swim_rules.specs.declared.table.TheConstants.{ROWS_MAX};
ghost use Rattle.swim_gossip.specs.declared.buffer.TheConstants.{WAITING_MAX};
ghost use Rattle.swim_member.specs.declared.member.TheConstants.{RELAYS_MAX};
ghost use Rattle.swim_record.specs.declared.line.Line.{Line as Lines};
ghost use Rattle.swim_record.specs.declared.line.Line.TheVariants as line;
ghost use Rattle.swim_record.specs.declared.line.Start.{Start as Starts};
ghost use Rattle.swim_replay.specs.Machinery.Told.{MayNote, MayNoteAll, all_noted, blank_state, noted};
ghost use Rattle.swim_replay.specs.Recorded.{IsWord};

use crate::fault::RecordingReason;
use arrayvec::ArrayVec;
use swim_gossip::Waiting;
use swim_member::{Joining, MemberState, Phase, Probe, Relay, Settings};
use swim_record::{Line, Start};
use swim_rules::Row;
use swim_wire::{Cursor, Endpoint, Update};

/// The number, if it has 32 bits.
pub(crate) fn narrow(number: u64) -> Option<u32>
    ensures { SomeIff result (IsWord number) number }
{
    u32::try_from(number).ok()
}

/// A member of which nothing is told yet but its settings.
pub(crate) fn blank(settings: Settings) -> MemberState
    ensures { result ≡ blank_state settings }
{
    MemberState {
        settings,
        number: 0,
        phase: Phase::Running,
        time: 0,
        rows: ArrayVec::new(),
        queue: ArrayVec::new(),
        seq: 0,
        probe: None,
        relays: ArrayVec::new(),
        joining: None,
        listed: ArrayVec::new(),
        place: 0,
    }
}

/// Adds a row. It is refused where there is no room.
fn add_row(state: &mut MemberState, update: Update, since: u64) -> Option<()>
    ensures settings { state.new.settings ≡ state.old.settings }
    ensures some { IfSome result (λ _. state.new
        ≡ noted state.old (line.Row update.kind update.who update.number since)) }
    ensures none { IfNone result
        (¬ (MayNote state.old (line.Row update.kind update.who update.number since))) }
{
    if state.rows.is_full() {
        return None;
    }
    state.rows.push(Row { update, since });
    Some(())
}

/// Adds an update that waits.
fn add_waiting(state: &mut MemberState, update: Update, count: u64) -> Option<()>
    ensures settings { state.new.settings ≡ state.old.settings }
    ensures some { IfSome result (λ _. state.new
        ≡ noted state.old (line.Say update.kind update.who update.number count)) }
    ensures none { IfNone result
        (¬ (MayNote state.old (line.Say update.kind update.who update.number count))) }
{
    let count = narrow(count)?;
    if state.queue.is_full() {
        return None;
    }
    state.queue.push(Waiting { update, count });
    Some(())
}

/// Sets the probe.
fn set_probe(state: &mut MemberState, target: Endpoint, seq: u64, answered: bool) -> Option<()>
    ensures settings { state.new.settings ≡ state.old.settings }
    ensures some { IfSome result (λ _. state.new ≡ record state.old {
      probe = Some (record { target = target; seq = seq; answered = answered });
    }) }
    ensures none { IfNone result (¬ (IsWord seq)) }
{
    let seq = narrow(seq)?;
    state.probe = Some(Probe {
        target,
        seq,
        answered,
    });
    Some(())
}

/// Adds a relay with these two sequences.
fn add_relay(
    state: &mut MemberState,
    target: Endpoint,
    seq: u64,
    asker: Endpoint,
    asked: u64,
    made: u64,
) -> Option<()>
    ensures settings { state.new.settings ≡ state.old.settings }
    ensures some { IfSome result (λ _. state.new
        ≡ noted state.old (line.Relay target seq asker asked made)) }
    ensures none { IfNone result
        (¬ (MayNote state.old (line.Relay target seq asker asked made))) }
{
    let seq = narrow(seq)?;
    let asked = narrow(asked)?;
    if state.relays.is_full() {
        return None;
    }
    state.relays.push(Relay {
        target,
        seq,
        asker,
        asked,
        made,
    });
    Some(())
}

/// Sets the join.
fn set_joining(state: &mut MemberState, peer: Endpoint, seq: u64, cursor: Cursor) -> Option<()>
    ensures settings { state.new.settings ≡ state.old.settings }
    ensures some { IfSome result (λ _. state.new ≡ record state.old {
      joining = Some (record { peer = peer; seq = seq; cursor = cursor });
    }) }
    ensures none { IfNone result (¬ (IsWord seq)) }
{
    let seq = narrow(seq)?;
    state.joining = Some(Joining { peer, seq, cursor });
    Some(())
}

/// Adds a listed member.
fn add_listed(state: &mut MemberState, who: Endpoint) -> Option<()>
    ensures settings { state.new.settings ≡ state.old.settings }
    ensures some { IfSome result (λ _. state.new ≡ noted state.old (line.Listed who)) }
    ensures none { IfNone result (¬ (MayNote state.old (line.Listed who))) }
{
    if state.listed.is_full() {
        return None;
    }
    state.listed.push(who);
    Some(())
}

/// Adds what a line says of a member.
fn add(state: &mut MemberState, line: Line) -> Option<()>
    ensures settings { state.new.settings ≡ state.old.settings }
    ensures some { IfSome result (λ _. state.new ≡ noted state.old line) }
    ensures none { IfNone result (¬ (MayNote state.old line)) }
{
    match line {
        Line::Row(kind, who, number, since) => {
            add_row(state, Update { kind, who, number }, since)
        }
        Line::Say(kind, who, number, count) => {
            add_waiting(state, Update { kind, who, number }, count)
        }
        Line::Probe(target, seq) => set_probe(state, target, seq, false),
        Line::Answered(target, seq) => set_probe(state, target, seq, true),
        Line::Relay(target, seq, asker, asked, made) => {
            add_relay(state, target, seq, asker, asked, made)
        }
        Line::Joining(peer, seq) => set_joining(state, peer, seq, Cursor::zero()),
        Line::JoiningAfter(peer, seq, after) => set_joining(state, peer, seq, Cursor::at(after)),
        Line::Listed(who) => add_listed(state, who),
        _ => None,
    }
}

/// Adds what lines say of a member, up to the one with which an era begins: that one, and those after it. A fault has the
/// place of its line.
pub(crate) fn add_told<'a>(
    state: &mut MemberState,
    lines: &'a [Line],
) -> Result<(Start, &'a [Line]), (usize, RecordingReason)>
    ensures settings { state.new.settings ≡ state.old.settings }
    ensures few { IfOk result (λ r. length r.1.now ≤ length lines.now) }
    ensures back { (told : List Lines) (start : Starts) (after : List Lines)
        → lines.now ≡ told ++ line.Begin start ∷ after
        → MayNoteAll state.old told
        → IsOkAnd result (λ r. (r.0 ≡ start)
        × (r.1.now ≡ after)
        × (state.new ≡ all_noted state.old told)) }
{
    for (place, line) in lines.iter().enumerate() {
        if let Line::Begin(start) = line {
            return Ok((*start, &lines[place + 1..]));
        }
        let Some(()) = add(state, *line) else {
            return Err((place, RecordingReason::NotTold));
        };
    }
    Err((lines.len(), RecordingReason::NoBegin))
}
