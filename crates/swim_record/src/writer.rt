//! A recording as it is written: where an era began, and its calls.

ghost use Rattle.std.specs.Prelude.{◌≡◌, ◌++◌, ◌∷◌, [], ◌≤◌, map, length, codes, OnOk, IfOk};
ghost use Rattle.hex.specs.Hex.{encode_lower};
ghost use Rattle.swim_node.specs.declared.opening.TheConstants.{LIMIT_MAX};
ghost use Rattle.swim_member.specs.declared.answer.TheConstants.{OUTS_MAX};
ghost use Rattle.swim_record.specs.Lines.{line_text};
ghost use Rattle.swim_record.specs.Recording.{begin_line, begun_text, call_text, calls_text, event_words, recording_head, joining_line, joining_lines, known_text, lines_text, listed_line, lost_lines, met_lines, probe_line, probe_lines, recording_text, relay_line, row_line, say_line, member_line, times_line};

use crate::line::{Line, Start, Times};
use crate::time::EraTime;
use std::alloc::{AllocError, Global};
use std::fmt::Write;
use swim_gossip::Waiting;
use swim_member::{Deal, Event, Joining, Probe, Relay, Settings};
use swim_node::{Beginning, Entry, Outcome};
use swim_rules::Row;
use swim_wire::Endpoint;

/// Writes a line.
fn write_line(text: &mut String, line: Line) -> Result<(), AllocError>
    ensures { OnOk result (text.new.bytes.items
        ≡ text.old.bytes.items ++ lines_text (line ∷ [])) }
{
    writeln!(text, "{line}")
}

/// Writes each of these lines.
fn write_lines(text: &mut String, lines: &[Line]) -> Result<(), AllocError>
    ensures { OnOk result (text.new.bytes.items
        ≡ text.old.bytes.items ++ lines_text lines.now) }
{
    for line in lines {
        write_line(text, *line)?;
    }
    Ok(())
}

fn row_line(row: &Row) -> Line
    ensures { result ≡ row_line row.now }
{
    Line::Row(
        row.update.kind,
        row.update.who,
        row.update.number,
        row.since,
    )
}

fn say_line(waiting: &Waiting) -> Line
    ensures { result ≡ say_line waiting.now }
{
    let update = waiting.update;
    Line::Say(
        update.kind,
        update.who,
        update.number,
        u64::from(waiting.count),
    )
}

fn relay_line(relay: &Relay) -> Line
    ensures { result ≡ relay_line relay.now }
{
    Line::Relay(
        relay.target,
        u64::from(relay.seq),
        relay.asker,
        u64::from(relay.asked),
        relay.made,
    )
}

fn probe_line(probe: Probe) -> Line
    ensures { result ≡ probe_line probe }
{
    if probe.answered {
        Line::Answered(probe.target, u64::from(probe.seq))
    } else {
        Line::Probe(probe.target, u64::from(probe.seq))
    }
}

fn joining_line(joining: Joining) -> Line
    ensures { result ≡ joining_line joining }
{
    let seq = u64::from(joining.seq);
    match joining.cursor.endpoint() {
        None => Line::Joining(joining.peer, seq),
        Some(after) => Line::JoiningAfter(joining.peer, seq, after),
    }
}

fn row_lines(alloc: Global, rows: &[Row]) -> Result<Vec<Line>, AllocError>
    ensures { IfOk result (λ lines. lines.items ≡ map row_line rows.now) }
{
    rows.iter().map(|row| row_line(row)).collect(alloc)
}

fn say_lines(alloc: Global, queue: &[Waiting]) -> Result<Vec<Line>, AllocError>
    ensures { IfOk result (λ lines. lines.items ≡ map say_line queue.now) }
{
    queue.iter().map(|waiting| say_line(waiting)).collect(alloc)
}

fn relay_lines(alloc: Global, relays: &[Relay]) -> Result<Vec<Line>, AllocError>
    ensures { IfOk result (λ lines. lines.items ≡ map relay_line relays.now) }
{
    relays.iter().map(|relay| relay_line(relay)).collect(alloc)
}

fn listed_lines(alloc: Global, names: &[Endpoint]) -> Result<Vec<Line>, AllocError>
    ensures { IfOk result (λ lines. lines.items ≡ map listed_line names.now) }
{
    names.iter().map(|name| Line::Listed(*name)).collect(alloc)
}

fn member_line(settings: Settings) -> Line
    ensures { result ≡ member_line settings }
{
    Line::Member(
        settings.group,
        settings.me,
        u64::from(settings.lambda),
        u64::from(settings.rules),
    )
}

fn times_line(settings: Settings, limit: u32) -> Line
    ensures { result ≡ times_line settings limit }
{
    Line::Times(Times {
        period: settings.period,
        direct: settings.direct,
        suspect: settings.suspect,
        forget: settings.forget,
        helpers: settings.helpers as u64,
        block: settings.block,
        limit: u64::from(limit),
    })
}

/// Writes a tick, with all that it deals.
fn write_deal(alloc: Global, text: &mut String, deal: &Deal) -> Result<(), AllocError>
    ensures { OnOk result (text.new.bytes.items
        ≡ text.old.bytes.items ++ codes "deal " ++ encode_lower deal.now ++ 10 ∷ []) }
{
    let numbers = hex::encode(alloc, deal.numbers())?;
    writeln!(text, "deal {numbers}")
}

/// Writes an event.
fn write_event(alloc: Global, text: &mut String, event: &Event) -> Result<(), AllocError>
    ensures { OnOk result (text.new.bytes.items
        ≡ text.old.bytes.items ++ event_words event.now ++ 10 ∷ []) }
{
    match event {
        Event::Tick { deal } => write_deal(alloc, text, deal),
        Event::Datagram { from, bytes } => {
            if bytes.is_empty() {
                return writeln!(text, "recv {from} -");
            }
            let bytes = hex::encode(alloc, bytes.as_slice())?;
            writeln!(text, "recv {from} {bytes}")
        }
        Event::ReceiveFailed => writeln!(text, "recvfail"),
        Event::SendFailed { count } => writeln!(text, "sendfail {count}"),
        Event::Join { peer } => writeln!(text, "join {peer}"),
        Event::Leave => writeln!(text, "leave"),
        Event::Members { after } => match after.endpoint() {
            None => writeln!(text, "members"),
            Some(after) => writeln!(text, "members {after}"),
        },
    }
}

/// The lines of what a call met, after this ceiling.
fn met_lines(alloc: Global, granted: u64, entry: &Entry) -> Result<Vec<Line>, AllocError>
    ensures { IfOk result (λ lines. lines.items ≡ met_lines granted entry.now) }
{
    let mut lines = Vec::new(alloc);
    if entry.tag.caller != 0 {
        lines.push(Line::Caller(u64::from(entry.tag.caller)))?;
    }
    if entry.granted != granted {
        lines.push(Line::Granted(entry.granted))?;
    }
    add_lost(&mut lines, &entry.outcomes)?;
    Ok(lines)
}

/// Adds a line for each datagram that was lost, which are counted from 1.
fn add_lost(lines: &mut Vec<Line>, outcomes: &[Outcome]) -> Result<(), AllocError>
    requires { length outcomes.now ≤ OUTS_MAX }
    ensures { OnOk result (lines.new.items ≡ lines.old.items ++ lost_lines 1 outcomes.now) }
{
    let mut place = 1;
    for outcome in outcomes {
        if *outcome == Outcome::Lost {
            lines.push(Line::Lost(place))?;
        }
        place += 1;
    }
    Ok(())
}

/// The line with which the era begins.
fn begin_line(beginning: &Beginning) -> Line
    ensures { result ≡ begin_line beginning.now }
{
    let state = &beginning.state;
    Line::Begin(Start {
        phase: state.phase,
        number: state.number,
        time: state.time,
        seq: u64::from(state.seq),
        place: state.place as u64,
        granted: beginning.granted,
        past: beginning.past,
    })
}

/// Writes a call that came after this ceiling.
fn write_call(
    alloc: Global,
    text: &mut String,
    granted: u64,
    entry: &Entry,
) -> Result<(), AllocError>
    ensures { OnOk result (text.new.bytes.items
        ≡ text.old.bytes.items ++ call_text granted entry.now) }
{
    let lines = met_lines(alloc, granted, entry)?;
    write_lines(text, &lines)?;
    write_event(alloc, text, &entry.event)
}

/// Writes calls that came after this ceiling.
fn write_calls(
    alloc: Global,
    text: &mut String,
    granted: u64,
    entries: &[Entry],
) -> Result<(), AllocError>
    ensures { OnOk result (text.new.bytes.items
        ≡ text.old.bytes.items ++ calls_text granted entries.now) }
{
    let mut ceiling = granted;
    for entry in entries {
        write_call(alloc, text, ceiling, entry)?;
        ceiling = entry.granted;
    }
    Ok(())
}

/// Writes the lines of a probe, if there is one.
fn write_probe(text: &mut String, probe: Option<Probe>) -> Result<(), AllocError>
    ensures { OnOk result (text.new.bytes.items
        ≡ text.old.bytes.items ++ lines_text (probe_lines probe)) }
{
    match probe {
        None => Ok(()),
        Some(probe) => write_line(text, probe_line(probe)),
    }
}

/// Writes the lines of a join, if there is one.
fn write_joining(text: &mut String, joining: Option<Joining>) -> Result<(), AllocError>
    ensures { OnOk result (text.new.bytes.items
        ≡ text.old.bytes.items ++ lines_text (joining_lines joining)) }
{
    match joining {
        None => Ok(()),
        Some(joining) => write_line(text, joining_line(joining)),
    }
}

/// Writes who the member is and what it knows.
fn write_known(alloc: Global, text: &mut String, beginning: &Beginning) -> Result<(), AllocError>
    ensures { OnOk result (text.new.bytes.items
        ≡ text.old.bytes.items ++ known_text beginning.now) }
{
    let state = &beginning.state;
    let settings = [
        member_line(state.settings),
        times_line(state.settings, beginning.limit),
    ];
    write_lines(text, &settings)?;
    write_lines(text, &row_lines(alloc, &state.rows)?)?;
    write_lines(text, &say_lines(alloc, &state.queue)?)
}

/// Writes what the member waits for, whom it lists, and the beginning.
fn write_begun(alloc: Global, text: &mut String, beginning: &Beginning) -> Result<(), AllocError>
    ensures { OnOk result (text.new.bytes.items
        ≡ text.old.bytes.items ++ begun_text beginning.now) }
{
    let state = &beginning.state;
    write_probe(text, state.probe)?;
    write_lines(text, &relay_lines(alloc, &state.relays)?)?;
    write_joining(text, state.joining)?;
    write_lines(text, &listed_lines(alloc, &state.listed)?)?;
    write_line(text, begin_line(beginning))
}

/// Writes the first lines: the version, and when the era was, if that is known.
fn write_head(text: &mut String, time: Option<EraTime>) -> Result<(), AllocError>
    ensures { OnOk result (text.new.bytes.items ≡ text.old.bytes.items ++ recording_head time) }
{
    match time {
        None => writeln!(text, "recording 1"),
        Some(time) => writeln!(text, "recording 2\n{time}"),
    }
}

/// The recording of an era that was at this time, if that is known, began so, and had these entries.
pub fn recording(
    alloc: Global,
    time: Option<EraTime>,
    beginning: &Beginning,
    entries: &[Entry],
) -> Result<String, AllocError>
    ensures { IfOk result (λ text. text.bytes.items
        ≡ recording_text time beginning.now entries.now) }
{
    let mut text = String::new(alloc);
    write_head(&mut text, time)?;
    write_known(alloc, &mut text, beginning)?;
    write_begun(alloc, &mut text, beginning)?;
    write_calls(alloc, &mut text, beginning.granted, entries)?;
    Ok(text)
}
