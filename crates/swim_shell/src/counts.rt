//! What is counted of the calls of a member.

ghost use Rattle.std.specs.Prelude.{◌≡◌, ◌+◌, ◌<◌, replicate};
ghost use Rattle.swim_member.specs.Texts.{note_name};
ghost use Rattle.swim_shell.specs.Counters.{counter_at, counter_name};
ghost use Rattle.swim_shell.specs.declared.counters.TheConstants.{NOTES_FROM};
ghost use Rattle.swim_shell.specs.CallCounts.{call_counts, counts_after, event_kind, note_place, refutations_by, with_call, with_notes, with_reply};

use swim_member::{Event, Note};
use swim_node::Reply;

/// How many counts there are of calls.
pub const CALL_COUNTS: usize = 8;

/// How many kinds of notes there are.
pub const NOTE_KINDS: usize = 18;

/// What is counted of an event.
#[derive(Clone, Copy, Debug, PartialEq, Eq)]
pub enum EventKind {
    /// Time went on.
    Tick,
    /// A datagram came.
    Datagram,
    /// A receive failed.
    ReceiveFailed,
    /// So many datagrams of earlier calls were not sent.
    SendFailed(u32),
    /// A member is to be joined.
    Join,
    /// It is counted as an entry alone.
    Other,
}

impl EventKind {
    /// That of an event.
    pub fn of(event: &Event) -> EventKind
        ensures { result ≡ event_kind event.now }
    {
        match event {
            Event::Tick { .. } => EventKind::Tick,
            Event::Datagram { .. } => EventKind::Datagram,
            Event::ReceiveFailed => EventKind::ReceiveFailed,
            Event::SendFailed { count } => EventKind::SendFailed(*count),
            Event::Join { .. } => EventKind::Join,
            Event::Leave | Event::Members { .. } => EventKind::Other,
        }
    }
}

/// What the answered calls of a caller have come to. A count stays at the greatest number.
#[derive(Clone, Copy, Debug, PartialEq, Eq)]
pub struct CallCounts {
    /// The own number after the last of them.
    pub number: u64,
    /// All of them: each is one entry.
    pub entries: u64,
    /// The ticks.
    pub ticks: u64,
    /// Those that asked a member for all that it knows, or were to.
    pub joins: u64,
    /// The datagrams that came.
    pub received: u64,
    /// The receives that failed.
    pub receive_failures: u64,
    /// The datagrams that were taken for sending.
    pub sent: u64,
    /// Those that were not, and those that were not sent after all.
    pub lost: u64,
    /// The datagrams that made the member refute a suspicion by a greater number.
    pub refutations: u64,
    /// The notes, by their numbers.
    pub notes: [u64; NOTE_KINDS],
}

/// How many refutations a call of this kind was, which took the own number from one to the other.
fn refutations_by(kind: EventKind, before: u64, after: u64) -> u64
    ensures { result ≡ refutations_by kind before after }
{
    match kind {
        EventKind::Datagram => u64::from(before < after),
        _ => 0,
    }
}

/// The place of a note among the counts of notes.
fn note_place(note: Note) -> usize
    ensures place { result ≡ note_place note }
    ensures within { result < NOTE_KINDS }
    ensures named { counter_name (counter_at (NOTES_FROM + result)) ≡ note_name note }
{
    usize::from(note.number()) - 1
}

/// One more of each of these notes.
fn count_notes(counts: &mut [u64; NOTE_KINDS], notes: &[Note])
    ensures { counts.new ≡ with_notes notes.now counts.old }
{
    for note in notes {
        let place = note_place(*note);
        counts[place] = counts[place].saturating_add(1);
    }
}

impl CallCounts {
    /// Nothing was counted yet of a member whose own number is this one.
    pub fn new(number: u64) -> CallCounts
        ensures number { result.number ≡ number }
        ensures none { call_counts result ≡ replicate CALL_COUNTS 0 }
        ensures notes { result.notes ≡ replicate NOTE_KINDS 0 }
    {
        CallCounts {
            number,
            entries: 0,
            ticks: 0,
            joins: 0,
            received: 0,
            receive_failures: 0,
            sent: 0,
            lost: 0,
            refutations: 0,
            notes: [0; NOTE_KINDS],
        }
    }

    /// One more call of this kind.
    fn count_call(&mut self, kind: EventKind)
        ensures { self.new ≡ with_call kind self.old }
    {
        match kind {
            EventKind::Tick => self.ticks = self.ticks.saturating_add(1),
            EventKind::Datagram => self.received = self.received.saturating_add(1),
            EventKind::ReceiveFailed => {
                self.receive_failures = self.receive_failures.saturating_add(1);
            }
            EventKind::SendFailed(count) => self.lost = self.lost.saturating_add(u64::from(count)),
            EventKind::Join => self.joins = self.joins.saturating_add(1),
            EventKind::Other => {}
        }
    }

    /// An entry more, with what its reply says of the datagrams and of the own number.
    fn count_reply(&mut self, kind: EventKind, reply: &Reply)
        ensures { self.new ≡ with_reply kind reply.now self.old }
    {
        let refuted = refutations_by(kind, self.number, reply.status.number);
        self.number = reply.status.number;
        self.entries = self.entries.saturating_add(1);
        self.sent = self.sent.saturating_add(reply.sent as u64);
        self.lost = self.lost.saturating_add(reply.lost as u64);
        self.refutations = self.refutations.saturating_add(refuted);
    }

    /// Adds an answered call of this kind.
    pub fn count(&mut self, kind: EventKind, reply: &Reply)
        ensures { self.new ≡ counts_after kind reply.now self.old }
    {
        self.count_call(kind);
        self.count_reply(kind, reply);
        count_notes(&mut self.notes, reply.notes.as_slice());
    }

    /// The counts of calls, in the order in which they are shown.
    pub fn calls(&self) -> [u64; CALL_COUNTS]
        ensures { result ≡ call_counts self.now }
    {
        [
            self.entries,
            self.ticks,
            self.joins,
            self.received,
            self.receive_failures,
            self.sent,
            self.lost,
            self.refutations,
        ]
    }
}
