//! What becomes of an answered call beside its reply (`CallLog`). Its notes are logged (`NoteLog`), and so is by whom the member was
//! joined (`Company`), and what its datagram shows of the own number: that the group knows a greater one, and that none can be saved
//! (`NumberLog`). Then it is counted. One that expelled the member ends the era (`is_expulsion`).

ghost use Rattle.std.specs.Prelude.{◌≡◌, ◌≢◌, ◌<◌, ◌+◌, ◌↔◌, replicate, true, false, IsTrue, MatchOption};
ghost use Rattle.swim_member.specs.declared.note.Note.TheVariants as noted;
ghost use Rattle.swim_handle.specs.Companies.{holds_nobody, joined_by};
ghost use Rattle.swim_handle.specs.Notes.{has_note};
ghost use Rattle.swim_handle.specs.Numbers.{Minds, is_refusal, is_refused, origin_of, said_in, IsOtherLife};
ghost use Rattle.swim_shell.specs.CallCounts.{call_counts, counts_after, event_kind};

use crate::note_log::NoteLog;
use log::{Log, error, info};
use std::time::Clock;
use swim_member::{Event, Note, Phase};
use swim_node::{Reply, Status};
use swim_shell::{CALL_COUNTS, CallCounts, EventKind, NOTE_KINDS};
use swim_wire::{Endpoint, Rules, number_said};

/// The most lines of numbers of other lives that are logged, so that no stranger can fill the disk by such numbers.
const LIVES_MAX: u8 = 5;

/// Whether one of the notes has the number of this one.
fn has_note(notes: &[Note], wanted: Note) -> bool
    ensures { result ≡ has_note wanted notes.now }
{
    let number = wanted.number();
    for note in notes {
        if note.number() == number {
            return true;
        }
    }
    false
}

/// Whether the call that was answered so expelled the member.
pub(crate) fn is_expulsion(reply: &Reply) -> bool
    ensures { result ≡ has_note noted.Expelled reply.now.notes.items }
{
    has_note(reply.notes.as_slice(), Note::Expelled)
}

/// Whether the last call of a worker left the member holding nobody for alive or suspected.
#[derive(Clone, Copy, Debug, PartialEq, Eq)]
struct Company {
    is_alone: bool,
}

/// Whether the member holds nobody for alive or suspected.
fn holds_nobody(status: &Status) -> bool
    ensures { result ≡ holds_nobody status.now }
{
    status.alive == 0 && status.suspect == 0
}

impl Company {
    /// Of a member whose life begins.
    fn new() -> Company
        ensures { result.is_alone ≡ true }
    {
        Company { is_alone: true }
    }

    /// By whom the member came to know somebody: from whom the datagram came, if one did, before which it knew nobody.
    fn joined_by(&self, from: &Option<Endpoint>, status: &Status) -> Option<Endpoint>
        ensures { result ≡ joined_by self.now.is_alone from.now status.now }
    {
        if self.is_alone && !holds_nobody(status) {
            *from
        } else {
            None
        }
    }

    /// Logs by whom the member was joined, if a call with this status did that, which was about a datagram from there.
    fn log<W: Log>(&mut self, rt: &W, from: &Option<Endpoint>, status: &Status)
        ensures { self.new.is_alone ≡ holds_nobody status.now }
    {
        if let Some(from) = self.joined_by(from, status) {
            info!(rt; "joined by {from}");
        }
        self.is_alone = holds_nobody(status);
    }
}

/// What the log tells of the own number, each thing once: that the group knows a greater one, which no call of this life
/// took, and that no number can be saved.
#[derive(Clone, Copy, Debug, PartialEq, Eq)]
pub struct NumberLog {
    /// The greatest number of another life that was logged, or 0.
    told: u64,
    /// How many such numbers were logged.
    lives: u8,
    /// The own number at the failed save that was logged last. It is greater once a save was done.
    failed_at: Option<u64>,
}

/// Whether a note says that a datagram was read, and not taken.
fn is_refusal(note: Note) -> bool
    ensures { result ≡ is_refusal note }
{
    match note {
        Note::OtherGroup => true,
        Note::NotSender => true,
        Note::FromSelf => true,
        Note::Stopped => true,
        Note::OtherVersion => true,
        _ => false,
    }
}

/// Whether these notes are of a datagram that was read, and not taken.
fn is_refused(notes: &[Note]) -> bool
    ensures { result ≡ is_refused notes.now }
{
    match notes.first() {
        Some(note) => is_refusal(*note),
        None => false,
    }
}

/// Logs that the group knows a number above the own one, which was `own`, and what became of that.
fn write_life<W: Log>(rt: &W, said: u64, own: u64, status: &Status) {
    let outcome = if status.phase == Phase::Expelled {
        "it takes no part any more"
    } else if status.number > said {
        "it goes on with a greater one"
    } else {
        "it keeps its own"
    };
    error!(rt; "the group knows this member by incarnation {said}, above its own {own}, and {outcome}: the state file is older than a life of this member, or a second member has its address, or the datagram is forged; see \"Backups and copies\" in OPERATIONS.md");
}

/// Logs that no number can be saved above this one.
fn write_failure<W: Log>(rt: &W, number: u64) {
    error!(rt; "the state file cannot be written: this member goes on with incarnation {number}, and can refute no suspicion until it can be; look at the disk");
}

impl NumberLog {
    /// Nothing was logged yet.
    pub fn new() -> NumberLog
        ensures { (result.told ≡ 0) × (result.lives ≡ 0) × (result.failed_at ≡ None) }
    {
        NumberLog {
            told: 0,
            lives: 0,
            failed_at: None,
        }
    }

    /// Whether a number that a datagram said is one of another life, and is to be logged. The reply is that to the datagram, and before
    /// it the own number was `own`.
    fn is_other_life(&self, own: u64, said: u64, reply: &Reply) -> bool
        ensures { IsTrue result ↔ IsOtherLife self.now own said reply.now.notes.items }
    {
        let is_news = self.told < said && self.lives < LIVES_MAX;
        own < said && is_news && !is_refused(reply.notes.as_slice())
    }

    /// Whether a save failed, for the first time since one was done.
    fn is_first_failure(&self, reply: &Reply) -> bool
        ensures { IsTrue result ↔ IsTrue (has_note noted.SaveFailed reply.now.notes.items)
            × (self.now.failed_at ≢ Some reply.now.status.number) }
    {
        let failed = has_note(reply.notes.as_slice(), Note::SaveFailed);
        failed && self.failed_at != Some(reply.status.number)
    }

    /// Logs what the reply to a datagram shows, which said this number of this member. Before it the own number was `own`.
    pub fn log<W: Log>(&mut self, rt: &W, own: u64, said: u64, reply: &Reply)
        ensures other { IsOtherLife self.old own said reply.now.notes.items
            → (self.new.told ≡ said) × (self.new.lives ≡ self.old.lives + 1) }
        ensures same { ¬ IsOtherLife self.old own said reply.now.notes.items
            → (self.new.told ≡ self.old.told) × (self.new.lives ≡ self.old.lives) }
        ensures failed { IsTrue (has_note noted.SaveFailed reply.now.notes.items)
            → self.new.failed_at ≡ Some reply.now.status.number }
        ensures saved { has_note noted.SaveFailed reply.now.notes.items ≡ false
            → self.new.failed_at ≡ self.old.failed_at }
    {
        if self.is_other_life(own, said, reply) {
            self.told = said;
            self.lives = self.lives.saturating_add(1);
            write_life(rt, said, own, &reply.status);
        }
        if self.is_first_failure(reply) {
            self.failed_at = Some(reply.status.number);
            write_failure(rt, reply.status.number);
        }
    }
}

/// What is logged of an event, which is given away when it is entered.
#[derive(Clone, Copy, Debug, PartialEq, Eq)]
pub(crate) struct Heard {
    kind: EventKind,
    /// Whence the datagram came that it is about; none if it is about none.
    from: Option<Endpoint>,
    /// The greatest number that the datagram says of the member, or 0; none if it is of no datagram.
    said: Option<u64>,
}

/// What a worker has logged and counted of its calls, from one era to the next.
#[derive(Clone, Copy, Debug, PartialEq, Eq)]
pub struct CallLog {
    me: Endpoint,
    notes: NoteLog,
    company: Company,
    numbers: NumberLog,
    counts: CallCounts,
}

impl CallLog {
    /// Nothing was logged or counted yet of this member, which lives by these rules, and whose life begins with this number.
    pub fn new(me: Endpoint, rules: Rules, number: u64) -> CallLog
        ensures alone { result.company.is_alone ≡ true }
        ensures me { result.me ≡ me }
        ensures number { result.counts.number ≡ number }
        ensures none { call_counts result.counts ≡ replicate CALL_COUNTS 0 }
        ensures notes { result.counts.notes ≡ replicate NOTE_KINDS 0 }
    {
        CallLog {
            me,
            notes: NoteLog::new(rules),
            company: Company::new(),
            numbers: NumberLog::new(),
            counts: CallCounts::new(number),
        }
    }

    /// What its calls have come to.
    pub fn counts(&self) -> &CallCounts
        ensures { result.now ≡ self.now.counts }
    {
        &self.counts
    }

    /// What is logged of this event, once its call is answered.
    pub(crate) fn hear(&self, event: &Event) -> Heard
        ensures kind { result.kind ≡ event_kind event.now }
        ensures from { result.from ≡ origin_of event.now }
        ensures said { result.said ≡ said_in self.now.me event.now }
    {
        let kind = EventKind::of(event);
        match event {
            Event::Datagram { from, bytes } => Heard {
                kind,
                from: Some(*from),
                said: Some(number_said(bytes.as_slice(), self.me)),
            },
            _ => Heard {
                kind,
                from: None,
                said: None,
            },
        }
    }

    /// Logs the notes of an answered call, whether the member was joined by it, and what its datagram shows of the own number, and
    /// counts it.
    #[tactic(auto, using(crate::proofs::Numbers::minds))]
    pub(crate) fn take<W: Log + Clock>(&mut self, rt: &W, heard: &Heard, reply: &Reply)
        ensures counts { self.new.counts ≡ counts_after heard.now.kind reply.now self.old.counts }
        ensures company { self.new.company.is_alone ≡ holds_nobody reply.now.status }
        ensures me { self.new.me ≡ self.old.me }
        ensures minded { MatchOption heard.now.said (self.new.numbers ≡ self.old.numbers)
            (λ said. Minds self.old.counts.number said reply.now self.old.numbers
            self.new.numbers) }
    {
        self.notes.log(rt, reply, &heard.from);
        self.company.log(rt, &heard.from, &reply.status);
        if let Some(said) = heard.said {
            self.numbers.log(rt, self.counts.number, said, reply);
        }
        self.counts.count(heard.kind, reply);
    }
}
