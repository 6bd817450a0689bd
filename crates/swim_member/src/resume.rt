//! Going on from a state that a member had: all of it as plain data, and a member that has it again.

ghost use Rattle.std.specs.Prelude.{◌≡◌, ◌==◌, ◌≤◌, ◌*◌, [], length, None, Some, OnOk, IfErr, IfOk};
ghost use Rattle.std.specs.List.{list_all, list_any};
ghost use Rattle.swim_rules.specs.Rows.{AreAbove, AreInOrder};
ghost use Rattle.swim_rules.specs.Rules.{is_about};
ghost use Rattle.swim_rules.specs.declared.table.TheConstants.{ROWS_MAX};
ghost use Rattle.swim_gossip.specs.Queue.{is_queued};
ghost use Rattle.swim_member.specs.Checks.{AreSound};
ghost use Rattle.swim_member.specs.Events.{state_of};
ghost use Rattle.swim_member.specs.Fit.{may_stand, may_wait};
ghost use Rattle.swim_member.specs.Machinery.Steps.{is_live};
ghost use Rattle.swim_member.specs.Resuming.{are_apart, are_ascending, are_distinct, are_falling, is_known, is_queue, is_told, is_within_sends, may_be_rows, resume_fault};

use crate::member::{Member, RELAYS_MAX};
use crate::settings::Settings;
use crate::state::{Joining, Phase, Probe, Relay};
use crate::tick::LAST_TIME;
use crate::turn::TurnList;
use arrayvec::ArrayVec;
use std::marker::Model;
use std::{error, fmt};
use swim_gossip::{Buffer, WAITING_MAX, Waiting};
use swim_rules::{ROWS_MAX, Row, Table};
use swim_wire::{Endpoint, NUMBER_MAX, copied};

/// All that a member has, as plain data. Times are counts of ticks.
#[derive(Drop)]
pub struct MemberState {
    /// The settings that it began with.
    pub settings: Settings,
    /// The own number.
    pub number: u64,
    /// Whether it takes part.
    pub phase: Phase,
    /// The ticks that counted.
    pub time: u64,
    /// The rows of the others, in the order of the members.
    pub rows: ArrayVec<Row, ROWS_MAX>,
    /// The updates that wait, in the order in which they began.
    pub queue: ArrayVec<Waiting, WAITING_MAX>,
    /// The next sequence.
    pub seq: u32,
    /// The probe of this period, if there is one.
    pub probe: Option<Probe>,
    /// The pings for other members, in the order in which they were made.
    pub relays: ArrayVec<Relay, RELAYS_MAX>,
    /// The join that is not answered yet, if there is one.
    pub joining: Option<Joining>,
    /// Whom to probe in this turn, in order.
    pub listed: ArrayVec<Endpoint, ROWS_MAX>,
    /// How many of them were probed or passed over.
    pub place: usize,
}

impl Model for MemberState {
    ghost use Rattle.swim_member.specs.State.{State};

    ghost Value = { State };

    ghost view = { λ s. record {
      settings = s.settings;
      number = s.number;
      phase = s.phase;
      time = s.time;
      rows = s.rows.items;
      queue = s.queue.items;
      seq = s.seq;
      probe = s.probe;
      relays = s.relays.items;
      joining = s.joining;
      listed = s.listed.items;
      place = s.place;
    } };
}

/// Why no member goes on from a state: the first that holds, in this order. It prints its number and name.
#[derive(Clone, Copy, Debug, PartialEq, Eq)]
pub enum ResumeFault {
    /// The own number is above `NUMBER_MAX`.
    Number,
    /// The time is after the last tick that counts, 2^62.
    Time,
    /// The rows are not in the order of the members, or one is about the member itself, or has a number above
    /// `NUMBER_MAX`.
    Rows,
    /// What waits is not one update about the member itself and one about each member that has a row.
    Queue,
    /// A number that waits is above `NUMBER_MAX`, or is about the member itself and not its own.
    Said,
    /// An update was sent more often than one is sent at all: 9 times `lambda`.
    Sent,
    /// A relay is as old as a period.
    Relays,
    /// A member stands in the turn list twice.
    Listed,
    /// More members were probed or passed over than the turn list has.
    Place,
    /// An update was sent more often than one that began to wait before it.
    Order,
}

impl ResumeFault {
    ghost use Rattle.std.specs.Prelude.{◌≡◌};
    ghost use Rattle.swim_member.specs.Resuming.{resume_number, resume_name};

    /// The number of the fault, by which programs name it.
    pub fn number(self) -> u8
        ensures { result ≡ resume_number self }
    {
        match self {
            ResumeFault::Number => 1,
            ResumeFault::Time => 2,
            ResumeFault::Rows => 3,
            ResumeFault::Queue => 4,
            ResumeFault::Said => 5,
            ResumeFault::Sent => 6,
            ResumeFault::Relays => 7,
            ResumeFault::Listed => 8,
            ResumeFault::Place => 9,
            ResumeFault::Order => 14,
        }
    }

    /// The name of the fault.
    pub fn name(self) -> &'static str
        ensures { result.now ≡ resume_name self }
    {
        match self {
            ResumeFault::Number => "Number",
            ResumeFault::Time => "Time",
            ResumeFault::Rows => "Rows",
            ResumeFault::Queue => "Queue",
            ResumeFault::Said => "Said",
            ResumeFault::Sent => "Sent",
            ResumeFault::Relays => "Relays",
            ResumeFault::Listed => "Listed",
            ResumeFault::Place => "Place",
            ResumeFault::Order => "Order",
        }
    }
}

impl fmt::Display for ResumeFault {
    ghost use Rattle.std.specs.Prelude.{Some};
    ghost use Rattle.swim_member.specs.Resuming.{resume_text};

    ghost output = { λ f. Some (resume_text f) };

    fn fmt<W: fmt::Write>(&self, f: &mut fmt::Formatter<W>) -> fmt::Result {
        let number = self.number();
        let name = self.name();
        write!(f, "{number} {name}")
    }
}

impl error::Error for ResumeFault {}

/// Whether each row is about a member above those of the rows before it.
fn are_ascending(rows: &[Row]) -> bool
    ensures { result ≡ are_ascending 0 rows.now }
{
    let mut last: u64 = 0;
    for row in rows {
        let who = row.who().number();
        if who <= last {
            return false;
        }
        last = who;
    }
    true
}

/// Whether a row may stand in the table of this member.
fn may_stand(row: &Row, me: Endpoint) -> bool
    ensures { result ≡ may_stand me row.now }
{
    row.update.number <= NUMBER_MAX && row.update.who != me
}

/// Whether each row may stand in the table of this member.
fn may_all_stand(rows: &[Row], me: Endpoint) -> bool
    ensures { result ≡ list_all (may_stand me) rows.now }
{
    rows.iter().all(|row| may_stand(row, me))
}

/// Whether these may be the rows of the member `me`.
fn may_be_rows(rows: &[Row], me: Endpoint) -> bool
    ensures { result ≡ may_be_rows me rows.now }
{
    are_ascending(rows) && may_all_stand(rows, me)
}

/// Whether an update about this member waits.
fn is_queued(queue: &[Waiting], who: Endpoint) -> bool
    ensures { result ≡ is_queued who queue.now }
{
    queue.iter().any(|waiting| waiting.update.who == who)
}

/// Whether no two updates about one member wait.
fn are_apart(queue: &[Waiting]) -> bool
    ensures { result ≡ are_apart queue.now }
{
    for (index, waiting) in queue.iter().enumerate() {
        if is_queued(&queue[index + 1..], waiting.update.who) {
            return false;
        }
    }
    true
}

/// Whether one of the rows is about this member.
fn has_row(rows: &[Row], who: Endpoint) -> bool
    ensures { result ≡ list_any (is_about who) rows.now }
{
    rows.iter().any(|row| row.update.who == who)
}

/// Whether what waits is about the member itself or one that has a row.
fn is_known(waiting: &Waiting, rows: &[Row], me: Endpoint) -> bool
    ensures { result ≡ is_known me rows.now waiting.now }
{
    me == waiting.update.who || has_row(rows, waiting.update.who)
}

/// Whether all that waits is about the member itself or one that has a row.
fn are_known(queue: &[Waiting], rows: &[Row], me: Endpoint) -> bool
    ensures { result ≡ list_all (is_known me rows.now) queue.now }
{
    queue.iter().all(|waiting| is_known(waiting, rows, me))
}

/// Whether an update about each row's member waits.
fn are_told(rows: &[Row], queue: &[Waiting]) -> bool
    ensures { result ≡ list_all (is_told queue.now) rows.now }
{
    rows.iter().all(|row| is_queued(queue, row.update.who))
}

/// Whether what waits is one update about the member itself and one about each that has a row.
fn is_queue(queue: &[Waiting], rows: &[Row], me: Endpoint) -> bool
    requires few { length rows.now ≤ ROWS_MAX }
    ensures { result ≡ is_queue me rows.now queue.now }
{
    queue.len() == rows.len() + 1
        && are_apart(queue)
        && is_queued(queue, me)
        && are_told(rows, queue)
        && are_known(queue, rows, me)
}

/// Whether a member with this number may say what waits.
fn may_wait(waiting: &Waiting, me: Endpoint, number: u64) -> bool
    ensures { result ≡ may_wait me number waiting.now }
{
    waiting.update.number <= NUMBER_MAX
        && (waiting.update.who != me || waiting.update.number == number)
}

/// Whether a relay is less than a period old.
fn is_live(relay: &Relay, now: u64, period: u64) -> bool
    ensures { result ≡ is_live now period relay.now }
{
    now.saturating_sub(relay.made) < period
}

/// Whether a member with this number may say all that waits.
fn may_all_wait(queue: &[Waiting], me: Endpoint, number: u64) -> bool
    ensures { result ≡ list_all (may_wait me number) queue.now }
{
    queue.iter().all(|waiting| may_wait(waiting, me, number))
}

/// Whether none was sent more often than this.
fn are_within_sends(queue: &[Waiting], most: u32) -> bool
    ensures { result ≡ list_all (is_within_sends most) queue.now }
{
    queue.iter().all(|waiting| waiting.count <= most)
}

/// Whether the first was sent at most so often, and each at most as often as the one before it.
fn are_falling(queue: &[Waiting], most: u32) -> bool
    ensures { result ≡ are_falling most queue.now }
{
    let mut last = most;
    for waiting in queue {
        if waiting.count > last {
            return false;
        }
        last = waiting.count;
    }
    true
}

/// Whether each relay is less than a period old.
fn are_live(relays: &[Relay], now: u64, period: u64) -> bool
    ensures { result ≡ list_all (is_live now period) relays.now }
{
    relays.iter().all(|relay| is_live(relay, now, period))
}

/// Whether the list has this member.
fn has_name(names: &[Endpoint], who: Endpoint) -> bool
    ensures { result ≡ list_any (λ y. who == y) names.now }
{
    names.iter().any(|name| who == *name)
}

/// Whether nobody stands in the list twice.
fn are_distinct(names: &[Endpoint]) -> bool
    ensures { result ≡ are_distinct names.now }
{
    for (index, name) in names.iter().enumerate() {
        if has_name(&names[index + 1..], *name) {
            return false;
        }
    }
    true
}

impl MemberState {
    /// Whether a member may go on from it, if its settings are sound.
    fn check(&self) -> Result<(), ResumeFault>
        requires sound { AreSound self.now.settings }
        ensures ok { OnOk result (resume_fault self.now ≡ None) }
        ensures err { IfErr result (λ fault. resume_fault self.now ≡ Some fault) }
    {
        let Settings {
            me,
            lambda,
            period,
            ..
        } = self.settings;
        if self.number > NUMBER_MAX {
            return Err(ResumeFault::Number);
        }
        if self.time > LAST_TIME {
            return Err(ResumeFault::Time);
        }
        if !may_be_rows(&self.rows, me) {
            return Err(ResumeFault::Rows);
        }
        if !is_queue(&self.queue, &self.rows, me) {
            return Err(ResumeFault::Queue);
        }
        if !may_all_wait(&self.queue, me, self.number) {
            return Err(ResumeFault::Said);
        }
        if !are_within_sends(&self.queue, lambda * 9) {
            return Err(ResumeFault::Sent);
        }
        if !are_live(&self.relays, self.time, period) {
            return Err(ResumeFault::Relays);
        }
        if !are_distinct(&self.listed) {
            return Err(ResumeFault::Listed);
        }
        if self.place > self.listed.len() {
            return Err(ResumeFault::Place);
        }
        if !are_falling(&self.queue, lambda * 9) {
            return Err(ResumeFault::Order);
        }
        Ok(())
    }
}

/// As many of the rows as there are.
fn copy_rows(rows: &[Row]) -> ArrayVec<Row, ROWS_MAX>
    requires { length rows.now ≤ ROWS_MAX }
    ensures { result.items ≡ rows.now }
{
    let mut copy = ArrayVec::new();
    let _ = copy.try_extend_from_slice(rows);
    copy
}

impl MemberState {
    /// The same once more. It takes no memory.
    pub fn copy(&self) -> MemberState
        ensures { result ≡ self.now }
    {
        MemberState {
            settings: self.settings,
            number: self.number,
            phase: self.phase,
            time: self.time,
            rows: copied(&self.rows),
            queue: copied(&self.queue),
            seq: self.seq,
            probe: self.probe,
            relays: copied(&self.relays),
            joining: self.joining,
            listed: copied(&self.listed),
            place: self.place,
        }
    }
}

/// Members are above 0, and so the first row stands above that.
fn begin_above_none(rows: &[Row])
    ensures { AreInOrder rows.now → AreAbove 0 rows.now }
{
    if let Some(row) = rows.first() {
        row.who().is_above_zero();
    }
}

impl Member {
    /// That a member goes on from a state that one has. It does nothing: its contract is what counts.
    pub fn state_resumes(&self)
        ensures sound { AreSound self.now.settings }
        ensures none { resume_fault self.now ≡ None }
    {
        // what holds of the parts
        begin_above_none(self.table.rows());
        self.buffer.queue_is_kept();
        self.turn.nobody_is_listed_twice();
    }

    /// All that the member has now. A member goes on from it.
    pub fn state(&self) -> MemberState
        ensures state { result ≡ self.now }
        ensures sound { AreSound self.now.settings }
        ensures resumes { resume_fault self.now ≡ None }
    {
        self.state_resumes();
        MemberState {
            settings: self.settings,
            number: self.number,
            phase: self.phase,
            time: self.time,
            rows: copy_rows(self.table.rows()),
            queue: self.buffer.queue(),
            seq: self.seq,
            probe: self.probe,
            relays: copied(&self.relays),
            joining: self.joining,
            listed: self.turn.list(),
            place: self.turn.place(),
        }
    }

    /// A member that goes on from this state, or the first fault of the state.
    pub fn resume(state: MemberState) -> Result<Member, ResumeFault>
        requires sound { AreSound state.settings }
        ensures state { IfOk result (λ member. member ≡ state) }
        ensures none { OnOk result (resume_fault state ≡ None) }
        // a history may begin from it
        ensures base { IfOk result (λ member. state_of member [] ≡ member) }
        ensures few { IfOk result (λ member. length member.rows ≤ ROWS_MAX) }
        ensures fault { IfErr result (λ fault. resume_fault state ≡ Some fault) }
    {
        state.check()?;
        let settings = state.settings;
        let table = Table::with_rows(
            settings.me,
            settings.suspect,
            settings.forget,
            settings.rules_of(),
            state.rows,
        );
        let member = Member {
            settings,
            number: state.number,
            phase: state.phase,
            time: state.time,
            moment: state.time % settings.period,
            table,
            buffer: Buffer::with_queue(state.queue, settings.lambda * 9),
            seq: state.seq,
            probe: state.probe,
            relays: state.relays,
            joining: state.joining,
            turn: TurnList::with_list(state.listed, state.place),
        };
        Ok(member)
    }
}
