//! That the eras of nodes are those whose recordings are played. The functions do no more than read: their contracts say
//! what is so of each value that there is.

ghost use Rattle.std.specs.Prelude.{◌≡◌, ◌<◌, ◌≤◌, ◌^◌, [], map, length, All, IfSome};
ghost use Rattle.swim_gossip.specs.declared.buffer.Waiting.{Waiting as Waitings};
ghost use Rattle.swim_member.specs.declared.answer.TheConstants.{OUTS_MAX};
ghost use Rattle.swim_member.specs.declared.state.Relay.{Relay as Relays};
ghost use Rattle.swim_node.specs.Node.{HasCaller, next_base};
ghost use Rattle.swim_record.specs.Blocks.{AreFit, IsFit};
ghost use Rattle.swim_record.specs.EraTimes.{IsEraTime};
ghost use Rattle.swim_record.specs.Events.{IsEvent};
ghost use Rattle.swim_record.specs.Lines.{number_or_none};
ghost use Rattle.swim_record.specs.Text.{IsArgument};
ghost use Rattle.swim_record.specs.declared.line.Line.{Line as Lines};
ghost use Rattle.swim_record.specs.Recording.{begin_line, joining_lines, listed_line, member_line, probe_lines, relay_line, row_line, say_line, times_line};
ghost use Rattle.swim_wire.specs.Numbers.{AreBytes};
ghost use Rattle.swim_replay.specs.Recorded.{IsPlayed, IsRecorded, IsRecordedCall, IsRecordedState, IsWord, base_lines, told_lines};

use crate::fault::{RecordingFault, RecordingReason};
use crate::playing::play_recording;
use arrayvec::ArrayVec;
use std::alloc::Global;
use swim_disk::Disk;
use swim_gossip::Waiting;
use swim_member::{Event, Joining, MemberState, OUTS_MAX, Probe, Relay, Settings};
use swim_node::{Beginning, Entry, Node, Outcome, Replay};
use swim_record::{EraTime, Start, recording};
use swim_rules::Row;
use swim_wire::Endpoint;

/// A number has at most 64 bits.
fn number_is_fit(number: u64)
    ensures { number < 2 ^ 64 }
{
    let _ = number;
}

/// A short one has at most 32.
fn word_is_fit(word: u32)
    ensures { IsWord word }
{
    let _ = word;
}

/// The line of a row can be written.
fn row_is_fit(row: Row)
    ensures { IsFit (row_line row) }
{
    row.update.who.is_above_zero();
}

/// The lines of rows can.
fn rows_are_fit(rows: &[Row])
    ensures { AreFit (map row_line rows.now) }
{
    for row in rows {
        row_is_fit(*row);
    }
}

/// The line of an update that waits can.
fn waiting_is_fit(waiting: Waiting)
    ensures line { IsFit (say_line waiting) }
    ensures count { IsWord waiting.count }
{
    waiting.update.who.is_above_zero();
}

/// The lines of what waits can.
fn queue_is_fit(queue: &[Waiting])
    ensures lines { AreFit (map say_line queue.now) }
    ensures counts { All (λ (w : Waitings). IsWord w.count) queue.now }
{
    for waiting in queue {
        waiting_is_fit(*waiting);
    }
}

/// The line of a ping for another member can.
fn relay_is_fit(relay: Relay)
    ensures line { IsFit (relay_line relay) }
    ensures words { IsWord relay.seq × IsWord relay.asked }
{
    relay.target.is_above_zero();
    relay.asker.is_above_zero();
}

/// The lines of such pings can.
fn relays_are_fit(relays: &[Relay])
    ensures lines { AreFit (map relay_line relays.now) }
    ensures words { All (λ (r : Relays). IsWord r.seq × IsWord r.asked) relays.now }
{
    for relay in relays {
        relay_is_fit(*relay);
    }
}

/// The line of a listed member can.
fn name_is_fit(name: Endpoint)
    ensures { IsFit (listed_line name) }
{
    name.is_above_zero();
}

/// The lines of a turn list can.
fn names_are_fit(names: &[Endpoint])
    ensures { AreFit (map listed_line names.now) }
{
    for name in names {
        name_is_fit(*name);
    }
}

/// The line of a probe can.
fn probe_is_fit(probe: Option<Probe>)
    ensures lines { AreFit (probe_lines probe) }
    ensures word { IfSome probe (λ p. IsWord p.seq) }
{
    if let Some(probe) = probe {
        probe.target.is_above_zero();
    }
}

/// The line of a join can.
fn joining_is_fit(joining: Option<Joining>)
    ensures lines { AreFit (joining_lines joining) }
    ensures word { IfSome joining (λ j. IsWord j.seq) }
{
    if let Some(joining) = joining {
        joining.peer.is_above_zero();
        joining.cursor.is_a_place();
    }
}

/// The lines of the settings can.
fn settings_are_fit(settings: Settings, limit: u32)
    ensures member { IsFit (member_line settings) }
    ensures times { IsFit (times_line settings limit) }
    ensures lambda { IsWord settings.lambda }
    ensures rules { IsWord settings.rules }
{
    settings.me.is_above_zero();
}

/// All lines of a member's state can, with those of its settings, and its lists are within their room.
fn state_is_fit(state: &MemberState, limit: u32)
    ensures member { IsFit (member_line state.now.settings) }
    ensures times { IsFit (times_line state.now.settings limit) }
    ensures lines { AreFit (told_lines state.now) }
    ensures within { IsRecordedState state.now }
{
    settings_are_fit(state.settings, limit);
    word_is_fit(state.seq);
    rows_are_fit(&state.rows);
    queue_is_fit(&state.queue);
    probe_is_fit(state.probe);
    relays_are_fit(&state.relays);
    joining_is_fit(state.joining);
    names_are_fit(&state.listed);
}

/// The line of a time can.
fn time_is_fit(time: Option<EraTime>)
    ensures { IfSome time IsEraTime }
{
    if let Some(time) = time {
        number_is_fit(time.begun);
        number_is_fit(time.ended);
        number_is_fit(time.tick);
    }
}

/// A number that may be missing can be written.
fn past_is_fit(past: Option<u64>)
    ensures { All IsArgument (number_or_none past) }
{
    if let Some(number) = past {
        number_is_fit(number);
    }
}

/// The line with which an era begins can, whatever it says.
fn start_is_fit(start: Start)
    ensures { IsFit (Lines.Begin start) }
{
    past_is_fit(start.past);
}

/// What the line says with which an era begins.
fn start_of(beginning: &Beginning) -> Start
    ensures { Lines.Begin result ≡ begin_line beginning.now }
{
    let state = &beginning.state;
    Start {
        phase: state.phase,
        number: state.number,
        time: state.time,
        seq: u64::from(state.seq),
        place: state.place as u64,
        granted: beginning.granted,
        past: beginning.past,
    }
}

/// That of a beginning can.
fn begin_is_fit(beginning: &Beginning)
    ensures { IsFit (begin_line beginning.now) }
{
    let start = start_of(beginning);
    start_is_fit(start);
}

/// All lines of a beginning can.
fn beginning_is_fit(beginning: &Beginning)
    ensures lines { AreFit (base_lines beginning.now) }
    ensures within { IsRecordedState beginning.now.state }
    ensures limit { IsWord beginning.now.limit }
{
    state_is_fit(&beginning.state, beginning.limit);
    begin_is_fit(beginning);
}

/// Each byte is below 256.
fn bytes_are_fit(bytes: &[u8])
    ensures { AreBytes bytes.now }
{
    let _ = bytes;
}

/// An event is one that a member can be given.
fn event_is_fit(event: &Event)
    ensures { IsEvent event.now }
{
    match event {
        Event::Tick { deal } => {
            deal.numbers_are_dealt();
        }
        Event::Datagram { from, bytes } => {
            from.is_above_zero();
            bytes_are_fit(bytes);
        }
        Event::ReceiveFailed => {}
        Event::SendFailed { count } => {
            word_is_fit(*count);
        }
        Event::Join { peer } => {
            peer.is_above_zero();
        }
        Event::Leave => {}
        Event::Members { after } => {
            after.is_a_place();
        }
    }
}

/// A call has at most as many outcomes as datagrams.
fn outcomes_are_few(outcomes: &ArrayVec<Outcome, OUTS_MAX>)
    ensures { length outcomes.now.items ≤ OUTS_MAX }
{
    let _ = outcomes.len();
}

/// An entry is one that can be recorded, if its caller is below 16.
fn entry_is_fit(entry: &Entry)
    ensures { HasCaller entry.now → IsRecordedCall entry.now }
{
    event_is_fit(&entry.event);
    number_is_fit(entry.granted);
    outcomes_are_few(&entry.outcomes);
}

/// Entries are such.
fn entries_are_fit(entries: &[Entry])
    ensures { All HasCaller entries.now → All IsRecordedCall entries.now }
{
    for entry in entries {
        entry_is_fit(entry);
    }
}

/// That the era of a node, of which this is where it began, is one whose recording is played as that era
/// (`play_recording`).
pub fn era_is_recorded<D: Disk>(node: &Node<D>, beginning: &Beginning)
    ensures { beginning.now ≡ next_base node.now.base []
        → IsRecorded beginning.now node.now.entries }
{
    node.era_begins();
    beginning_is_fit(beginning);
    entries_are_fit(node.journal());
}

/// Records the era of a node, of which this is where it began, and plays the recording: that is the same era again, or
/// there was no memory. When the era was stands in the recording, if it is known.
pub fn play_era<D: Disk>(
    alloc: Global,
    time: Option<EraTime>,
    node: &Node<D>,
    beginning: &Beginning,
) -> Result<Replay, RecordingFault>
    ensures { beginning.now ≡ next_base node.now.base []
        → IsPlayed beginning.now node.now.entries result }
{
    era_is_recorded(node, beginning);
    time_is_fit(time);
    match recording(alloc, time, beginning, node.journal()) {
        Ok(text) => play_recording(alloc, text.as_bytes()),
        Err(_) => Err(RecordingFault {
            line: 1,
            reason: RecordingReason::NoMemory,
        }),
    }
}
