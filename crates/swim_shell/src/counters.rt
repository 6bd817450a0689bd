//! What a running member tells of all that it did.

ghost use Rattle.std.specs.Prelude.{◌≡◌, ◌+◌, ◌≤◌, ◌++◌, [], length};
ghost use Rattle.swim_shell.specs.Counters.{counter_at, counter_line, counter_name, counters_text};

use crate::answers::add_count;
use crate::counts::{CALL_COUNTS, NOTE_KINDS};
use crate::printer::{ANSWER_MAX, AnswerText, add_counted, add_text};
use swim_member::Note;
use swim_wire::WireFault;

/// How many counters there are of eras.
pub const ERA_COUNTS: usize = 4;

/// The place of the first counter of notes.
pub const NOTES_FROM: usize = ERA_COUNTS + CALL_COUNTS;

/// How many counters there are.
pub const COUNTERS: usize = NOTES_FROM + NOTE_KINDS;

/// The most bytes of the line of a counter.
const COUNTER_LINE_MAX: usize = 40;

/// What is counted.
#[derive(Clone, Copy, Debug, PartialEq, Eq)]
pub enum Counter {
    /// The eras that ended.
    Eras,
    /// The numbers that were saved in eras that ended.
    NumberSaves,
    /// The saves of the known peers at the end of an era.
    PeerSaves,
    /// Those that failed.
    PeerSavesFailed,
    /// The answered calls.
    Entries,
    /// The ticks.
    Ticks,
    /// The calls that were to join a member.
    Joins,
    /// The datagrams that came.
    Received,
    /// The receives that failed.
    ReceiveFailures,
    /// The datagrams that were taken for sending.
    Sent,
    /// Those that were not, and those that were not sent after all.
    Lost,
    /// The suspicions that were refuted.
    Refutations,
    /// The notes of the kind of this one.
    Noted(Note),
}

/// Those of eras, of calls, and of notes by their numbers, each at its place.
const ALL: [Counter; COUNTERS] = [
    Counter::Eras,
    Counter::NumberSaves,
    Counter::PeerSaves,
    Counter::PeerSavesFailed,
    Counter::Entries,
    Counter::Ticks,
    Counter::Joins,
    Counter::Received,
    Counter::ReceiveFailures,
    Counter::Sent,
    Counter::Lost,
    Counter::Refutations,
    Counter::Noted(Note::BadDatagram(WireFault::TooShort)),
    Counter::Noted(Note::OtherGroup),
    Counter::Noted(Note::NotSender),
    Counter::Noted(Note::FromSelf),
    Counter::Noted(Note::Leap),
    Counter::Noted(Note::NoNumberLeft),
    Counter::Noted(Note::TableFull),
    Counter::Noted(Note::Misdirected),
    Counter::Noted(Note::RelaysFull),
    Counter::Noted(Note::UnknownTarget),
    Counter::Noted(Note::Unasked),
    Counter::Noted(Note::SaveFailed),
    Counter::Noted(Note::Expelled),
    Counter::Noted(Note::Stopped),
    Counter::Noted(Note::ReceiveFailed),
    Counter::Noted(Note::SendFailed(0)),
    Counter::Noted(Note::TimeOver),
    Counter::Noted(Note::OtherVersion),
];

impl Counter {
    /// The counter at this place, or the last one beyond it.
    pub fn at(place: usize) -> Counter
        ensures { result ≡ counter_at place }
    {
        if place < COUNTERS {
            ALL[place]
        } else {
            Counter::Noted(Note::OtherVersion)
        }
    }

    /// Its name, by which it is told.
    pub fn name(self) -> &'static str
        ensures { result.now ≡ counter_name self }
    {
        match self {
            Counter::Eras => "eras",
            Counter::NumberSaves => "number_saves",
            Counter::PeerSaves => "peer_saves",
            Counter::PeerSavesFailed => "peer_saves_failed",
            Counter::Entries => "entries",
            Counter::Ticks => "ticks",
            Counter::Joins => "joins",
            Counter::Received => "datagrams_received",
            Counter::ReceiveFailures => "receive_failures",
            Counter::Sent => "datagrams_sent",
            Counter::Lost => "datagrams_lost",
            Counter::Refutations => "refutations",
            Counter::Noted(note) => note.name(),
        }
    }
}

/// What a running member has done since it began, in all its eras, each counter at its place.
#[derive(Clone, Copy, Debug, PartialEq, Eq)]
pub struct Counters {
    /// The counters.
    pub values: [u64; COUNTERS],
}

/// Adds the line of a counter, where it fits.
fn add_counter(answer: &mut AnswerText, counter: Counter, count: u64)
    ensures fits { length answer.old.bytes + COUNTER_LINE_MAX ≤ ANSWER_MAX
        → answer.new.bytes ≡ answer.old.bytes ++ counter_line counter count }
    ensures most { length answer.new.bytes ≤ length answer.old.bytes + COUNTER_LINE_MAX }
{
    add_text(answer, counter.name());
    add_counted(answer, " ", count);
    add_text(answer, "\n");
}

/// Writes how many counters there are, and their lines.
pub(crate) fn add_counters(answer: &mut AnswerText, counters: &Counters)
    requires { answer.old.bytes ≡ [] }
    ensures { answer.new.bytes ≡ counters_text counters.now.values }
{
    add_count(answer, COUNTERS);
    for (place, count) in counters.values.iter().enumerate() {
        add_counter(answer, Counter::at(place), *count);
    }
}
